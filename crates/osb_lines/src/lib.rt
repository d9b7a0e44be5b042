//! The lines of a schedule: how they are cut out of what a reader gives, judged, and taken one after another.
//!
//! [`read_lines`] reads a schedule from any reader, wrapped in an [`Input`](osb_device::Input), and gives its
//! lines to a [`Sink`], which takes one after the other. [`read_schedule`] reads one that stands in memory, and
//! lets nothing happen: a [`Schedule`] is the sink that keeps the plans and the events.
//!
//! ```
//! // One plan is sold, and nothing happens.
//! let text = b"plan 00000000-0000-0000-0000-0000000000a0 00000000-0000-0000-0000-0000000000b1 sync";
//! let schedule = read_schedule(rt.alloc(), text)?;
//! assert!(rt; schedule.events.is_empty());
//! ```
//!
//! What a line says is `osb_language`'s to say. All of it is this project's choice.
#![tactic(auto)]

mod input_lines;
mod limits;
mod line_reader;
mod plans;
mod schedule;
mod sink;

pub use input_lines::read_lines;
pub use limits::{LARGEST_READ, MOST_BYTES, MOST_LINES};
pub use line_reader::LineReader;
pub use plans::add_plan;
pub use schedule::{Schedule, read_schedule};
pub use sink::Sink;

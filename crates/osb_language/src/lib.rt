//! The language of schedules: what a line says, and why a schedule or a replay of it is refused.
//!
//! [`read_line`] reads one line, and [`Line`] is what it says: nothing, a plan that the broker sells, or an
//! event. [`LineFault`] is why a line is refused. Which plan lines a schedule may have, and how many lines, is
//! `osb_lines`'s to say, and so are the three faults of those. [`ScheduleFault`] is why a schedule isn't taken,
//! [`ReplayFault`] why no report is written, and [`status_of`] the status that the program ends with then.
//!
//! ```
//! // One carriage return at the end is dropped.
//! let line = read_line(b"send 00000000-0000-0000-0000-000000000001\r");
//! assert_eq!(rt; line, Ok(Line::Event(Event::Send { id: InstanceId::from_value(1) })));
//! ```
//!
//! All of it is this project's choice. Nothing here takes memory.
#![tactic(auto)]

mod fault;
mod fields;
mod limits;
mod line;
mod replay_fault;
mod words;

pub use fault::LineFault;
pub use fields::{Accepts, EndsWell, Field, GatewayStatus, read_one, read_three, read_two};
pub use limits::LONGEST_LINE;
pub use line::{Line, begins_comment, is_ascii, read_line, without_carriage_return};
pub use replay_fault::{ReplayFault, ScheduleFault, status_of};
pub use words::{four_words, split_word};

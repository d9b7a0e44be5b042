//! Schedules: what happens between a platform and a broker, a line each, read from any reader, run
//! on a world of both, and reported.
//!
//! [`replay`] does all of it, over an [`Input`] and an [`Output`], which wrap any reader and writer
//! and ask them no more once they have failed. It keeps the world of the schedule's instances, the
//! line that it reads, and nothing else of the input, however long that is:
//!
//! ```
//! // What a schedule read from standard input comes to, on standard output.
//! let mut reader = Input::new(rt.stdin());
//! let mut writer = Output::new(rt.stdout());
//! match replay(rt.alloc(), &mut reader, &mut writer, Options { settle: false, saved: false }) {
//!     Ok(()) => {}
//!     // The number of the first faulty line, and what is wrong with it.
//!     Err(ReplayFault::Schedule { line, fault }) => eprintln!(rt; "{line}: {fault}")?,
//!     // A failed read or write, or no memory.
//!     Err(fault) => return Ok(ExitCode::from(status_of(&fault))),
//! }
//! ```
//!
//! A schedule that begins with a plan line, creates an instance of the plan, has the request
//! delivered and its answer taken, is reported as `ID ready ready`, `applied 3` and `skipped 0`, a
//! line each. What the events do is `osb_world`'s to say, and what a line says `osb_language`'s. What a caller
//! needs of the crates below is passed on from here. The language, the report and the statuses are this
//! project's choice.
//!
//! [`read_schedule`] reads a schedule that stands in memory and lets nothing happen: its plans and its
//! events are what [`run`](osb_world::run) takes.
//!
//! [`write_table`] writes the orphan mitigation table, as the crate `osb_platform` decides it.
//!
//! [`replay`] and [`read_schedule`] take memory, and nothing else does.
#![tactic(auto)]

mod replaying;
mod report;

pub use osb_device::{DeviceFault, Input, Output};
pub use osb_language::{Line, LineFault, ReplayFault, ScheduleFault, read_line, status_of};
pub use osb_lines::{Schedule, read_schedule};
pub use osb_options::Options;
pub use osb_table::write_table;
pub use replaying::replay;

//! What the lines of a network schedule do, one after another.
//!
//! A [`Network`] has the instances that were taken in, each with its bindings. A [`Tally`] is a network with how many
//! events applied and were skipped. [`run_lines`] lets the lines of a whole text happen. [`split_line`] and
//! [`Tally::take_line`] do the same line by line.
//!
//! ```
//! let tally = run_lines(rt.alloc(), b"send 00000000-0000-0000-0000-000000000001\n")?;
//! assert_eq!(rt; (tally.applied, tally.skipped), (0, 1));
//! ```
//!
//! All of it is this project's choice.
#![tactic(auto)]

mod lines;
mod network;
mod settling;
mod tally;

pub use lines::{run_lines, split_line};
pub use network::Network;
pub use tally::{Tally, judge_line};

//! What the words of the command line of `osb-replay` ask for (this project's choice).
//!
//! [`words_of`] gives the words, and [`read_words`] reads them by `clap`: [`Asked`] is what they ask for, and
//! [`WordsFault`] why they ask for nothing that can be done. Both take memory. The doing of it is
//! `osb_command_line`'s.
#![tactic(auto)]

mod command_line;
mod help;
mod words;

pub use command_line::{Asked, WordsFault, read_words};
pub use words::words_of;

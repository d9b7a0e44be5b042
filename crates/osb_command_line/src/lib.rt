//! The command line of `osb-replay`: what its words ask for, the doing of it, and how the program ends (this
//! project's choice).
//!
//! [`words_of`] gives the words and [`read_words`] reads them: they are `osb_words`'s, passed on from here.
//! [`carry_out`] does what they ask for, [`show_help`] writes help, [`refuse`] tells why words are refused, and
//! [`end`] has the status of each ending. `words_of` and `read_words` take memory, and [`carry_out`] does for a
//! replay; the others take none.
#![tactic(auto)]

mod program;

pub use osb_words::{Asked, WordsFault, read_words, words_of};
pub use program::{carry_out, end, refuse, show_help};

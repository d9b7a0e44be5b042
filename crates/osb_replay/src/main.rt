//! `osb-replay`: a schedule of what happens between a platform and a broker, replayed.
//!
//! `osb-replay replay` reads a schedule on standard input and writes on standard output what the
//! platform records and what the broker holds in the end. `osb-replay table` writes the orphan
//! mitigation table. What the words of the command line ask for, and how the program ends, is
//! `osb_command_line`'s.
#![tactic(auto)]

use osb_command_line::{WordsFault, carry_out, end, read_words, refuse, show_help, words_of};
use osb_schedule::{Input, Output, ReplayFault};
use std::process::ExitCode;

fn main(rt: HostRuntime) -> ExitCode {
    let asked = match words_of(&rt) {
        Ok(words) => read_words(rt.alloc(), words.as_slice()),
        Err(fault) => Err(fault),
    };
    match asked {
        Ok(asked) => {
            let mut reader = Input::new(rt.stdin());
            let mut writer = Output::new(rt.stdout());
            end(&rt, carry_out(rt.alloc(), asked, &mut reader, &mut writer))
        }
        Err(WordsFault::Help(text)) => end(&rt, show_help(&mut rt.stdout(), text.as_str())),
        Err(WordsFault::Refused(text)) => refuse(&rt, text.as_str()),
        Err(WordsFault::Memory) => end(&rt, Err(ReplayFault::Memory)),
    }
}

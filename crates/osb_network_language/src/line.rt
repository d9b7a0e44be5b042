//! What a line of a network schedule says.
ghost use Rattle.std.specs.Prelude.{◌≡◌, ◌≤◌, length, OnOk};
ghost use Rattle.osb_language.specs.Words.{words_in};
ghost use Rattle.osb_network_language.specs.Lines.{network_line, spelled};

use crate::event::NetworkEvent;
use crate::verbs::read_event;
use osb_language::{
    LONGEST_LINE, LineFault, begins_comment, is_ascii, split_word, without_carriage_return,
};

// What the words of a line say.
fn read_words(line: &[u8]) -> Result<Option<NetworkEvent>, LineFault>
    ensures said { result ≡ spelled (words_in line.now) }
{
    let Some((first, words)) = split_word(line) else {
        return Ok(None);
    };
    if begins_comment(first) {
        return Ok(None);
    }
    match read_event(first, words) {
        Ok(event) => Ok(Some(event)),
        Err(fault) => Err(fault),
    }
}

/// Reads a line, without its line feed: what it lets happen, or nothing (this project's choice). One carriage return at
/// its end is dropped. It takes no memory.
///
/// # Errors
///
/// The first that fits of [`LineFault::LineTooLong`], `NotAscii`, `UnknownWord`, `WordCount`, and `BadId` or
/// `BadChoice` for the first word, from the left, that isn't what stands in its place. A number that isn't one, or is
/// 2^64 or more, is a `BadChoice`.
#[tactic(auto, unfolding(crate::specs::Lines::network_line))]
pub fn read_network_line(line: &[u8]) -> Result<Option<NetworkEvent>, LineFault>
    ensures exact { result ≡ network_line line.now }
    ensures short { OnOk result (length line.now ≤ LONGEST_LINE) }
{
    if line.len() > LONGEST_LINE {
        return Err(LineFault::LineTooLong);
    }
    if !is_ascii(line) {
        return Err(LineFault::NotAscii);
    }
    read_words(without_carriage_return(line))
}

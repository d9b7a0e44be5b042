//! The language of schedules (this project's choice): what a line says.
ghost use Rattle.std.specs.Prelude.{◌≡◌, ◌↔◌, Ok};
ghost use Rattle.osb_language.specs.Language.{begins_comment, event_as, is_ascii, line_of, spelled, spelled_as};
ghost use Rattle.osb_language.specs.Spelling.{Says};
ghost use Rattle.osb_language.specs.Words.{words_in};
ghost use Rattle.osb_language.specs.declared.line.Line.{Line as Said};
ghost use Rattle.std.specs.Str.Lines.{strip_carriage_return};

use crate::fault::LineFault;
use crate::fields::{
    Accepts, EndsWell, GatewayStatus, read_four, read_none, read_one, read_three, read_two,
};
use crate::limits::LONGEST_LINE;
use crate::words::{skip_blanks, split_word};
use osb_event::Event;
use osb_message::{Mode, PlanId, ServiceId};

/// What a line of a schedule says (this project's choice).
#[derive(Clone, Copy, Debug, PartialEq, Eq)]
pub enum Line {
    /// Nothing: a line without a word, or a comment.
    Nothing,
    /// The broker sells this plan.
    Plan {
        /// The plan's service.
        service: ServiceId,
        /// The plan.
        plan: PlanId,
        /// How the plan works.
        mode: Mode,
    },
    /// This happens.
    Event(Event),
}

/// Whether a line has no byte above 127. It takes no memory.
#[tactic(auto, using(crate::proofs::Splitting::ascii_all, crate::proofs::Splitting::ascii_not))]
pub fn is_ascii(line: &[u8]) -> bool
    ensures ascii { result ≡ is_ascii line.now }
{
    line.is_ascii()
}

/// A line without the one carriage return that may stand at its end (this project's choice). It takes no memory.
pub fn without_carriage_return(line: &[u8]) -> &[u8]
    ensures front { result.now ≡ strip_carriage_return line.now }
{
    match line {
        [front @ .., b'\r'] => front,
        _ => line,
    }
}

// The rows of the events.
fn read_event(first: &[u8], words: &[u8]) -> Result<Event, LineFault>
    ensures event { result ≡ event_as first.now (words_in words.now) }
{
    if first == b"create".as_slice() {
        read_four(words).map(|(id, service, plan, Accepts(accepts))| Event::Create {
            id,
            service,
            plan,
            accepts,
        })
    } else if first == b"remove".as_slice() {
        read_one(words).map(|id| Event::Remove { id })
    } else if first == b"send".as_slice() {
        read_one(words).map(|id| Event::Send { id })
    } else if first == b"deliver".as_slice() {
        read_two(words).map(|(id, outcome)| Event::Deliver { id, outcome })
    } else if first == b"repeat".as_slice() {
        read_two(words).map(|(id, outcome)| Event::Repeat { id, outcome })
    } else if first == b"lose".as_slice() {
        read_one(words).map(|id| Event::Lose { id })
    } else if first == b"garble".as_slice() {
        read_one(words).map(|id| Event::Garble { id })
    } else if first == b"gateway".as_slice() {
        read_two(words).map(|(id, GatewayStatus(status))| Event::Gateway { id, status })
    } else if first == b"answer".as_slice() {
        read_one(words).map(|id| Event::Answer { id })
    } else if first == b"timeout".as_slice() {
        read_one(words).map(|id| Event::Timeout { id })
    } else if first == b"expire".as_slice() {
        read_one(words).map(|id| Event::Expire { id })
    } else if first == b"finish".as_slice() {
        read_two(words).map(|(id, EndsWell(ok))| Event::Finish { id, ok })
    } else if first == b"restart".as_slice() {
        read_none(words).map(|()| Event::Restart)
    } else {
        Err(LineFault::UnknownWord)
    }
}

// The table of lines: the first word of each, what follows it, and what it says. `plan` is the one line
// that is no event.
fn read_spelled(first: &[u8], words: &[u8]) -> Result<Line, LineFault>
    ensures line { result ≡ spelled_as first.now (words_in words.now) }
{
    if first == b"plan".as_slice() {
        read_three(words).map(|(service, plan, mode)| Line::Plan {
            service,
            plan,
            mode,
        })
    } else {
        read_event(first, words).map(Line::Event)
    }
}

/// Whether a word begins a comment: with `#`. It takes no memory.
pub fn begins_comment(word: &[u8]) -> bool
    ensures comment { result ≡ begins_comment word.now }
{
    match word {
        [first, ..] => *first == b'#',
        [] => false,
    }
}

fn read_words(line: &[u8]) -> Result<Line, LineFault>
    ensures line { result ≡ spelled (words_in line.now) }
{
    let rest = skip_blanks(line);
    if begins_comment(rest) {
        return Ok(Line::Nothing);
    }
    match split_word(rest) {
        Some((first, words)) => read_spelled(first, words),
        None => Ok(Line::Nothing),
    }
}

/// Reads a line, without its line feed (this project's choice). One carriage return at its end is
/// dropped. It takes no memory.
///
/// # Errors
///
/// The first that fits of [`LineFault::LineTooLong`], `NotAscii`, `UnknownWord`, `WordCount`, and
/// `BadId` or `BadChoice` for the first word, from the left, that isn't what stands in its place.
#[tactic(auto, unfolding(crate::specs::Language::line_of))]
pub fn read_line(line: &[u8]) -> Result<Line, LineFault>
    ensures exact { result ≡ line_of line.now }
    ensures says { (said : Said) → (result ≡ Ok said) ↔ Says line.now said }
{
    if line.len() > LONGEST_LINE {
        return Err(LineFault::LineTooLong);
    }
    if !is_ascii(line) {
        return Err(LineFault::NotAscii);
    }
    read_words(without_carriage_return(line))
}

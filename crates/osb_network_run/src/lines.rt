//! The lines of a whole text happen, one after another.
ghost use Rattle.std.specs.Prelude.{◌≡◌, ◌+◌, ◌<◌, ◌≤◌, ◌∷◌, [], length, IfErr, IfOk, IfSome, None, OnOk, MatchOption};
ghost use Rattle.osb_lines.specs.Lines.{lines};
ghost use Rattle.osb_network_run.specs.Faults.{first_fault, IsWhyRefused};
ghost use Rattle.osb_network_run.specs.Tally.{tally_of};

use crate::tally::Tally;
use memchr::memchr;
use osb_language::ScheduleFault;
use osb_lines::MOST_BYTES;
use std::alloc::Global;

/// The first line of a text, without its line feed, and what follows, or none of an empty text (this project's choice).
/// It takes no memory.
pub fn split_line(text: &[u8]) -> Option<(&[u8], &[u8])>
    ensures line { MatchOption result (text.now ≡ []) (λ parts. lines text.now ≡ parts.0.now ∷ lines parts.1.now) }
    ensures shorter { IfSome result (λ parts. length parts.1.now < length text.now) }
    ensures whole { IfSome result (λ parts. length text.now ≤ length parts.0.now + length parts.1.now + 1) }
{
    if text.is_empty() {
        return None;
    }
    match memchr(b'\n', text) {
        Some(feed) => Some((&text[..feed], &text[feed + 1..])),
        None => Some(text.split_at(text.len())),
    }
}

/// The network after the lines of a whole text, and how many events applied and were skipped (this project's choice).
///
/// # Errors
///
/// [`ScheduleFault::At`] with the first line that has a fault. [`ScheduleFault::Memory`] if an allocation failed.
pub fn run_lines(alloc: Global, text: &[u8]) -> Result<Tally, ScheduleFault>
    ensures tally { IfOk result (λ tally. tally ≡ tally_of (lines text.now)) }
    ensures faultless { OnOk result (first_fault 0 (lines text.now) ≡ None) }
    ensures fault { IfErr result (IsWhyRefused (lines text.now)) }
    ensures bound { OnOk result (length text.now < MOST_BYTES) }
{
    let mut tally = Tally::new(alloc);
    let mut rest = text;
    let mut before = 0;
    while let Some((line, after)) = split_line(rest) {
        tally.take_line(alloc, before, line)?;
        before += 1;
        rest = after;
    }
    Ok(tally)
}

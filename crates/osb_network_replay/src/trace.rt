//! The trace of a network schedule.
ghost use Rattle.std.specs.Prelude.{◌≡◌, ◌+◌, ◌<◌, ◌≤◌, ◌++◌, length, IfErr, IfOk, None, OnOk};
ghost use Rattle.osb_lines.specs.Lines.{lines};
ghost use Rattle.osb_lines.specs.Sink.{IsLineFault};
ghost use Rattle.osb_network_run.specs.Faults.{fault_of, first_fault, IsWhyRefused};
ghost use Rattle.osb_network_run.specs.Tally.{with_event, with_line};
ghost use Rattle.osb_network_replay.specs.Trace as spec;
ghost use Rattle.osb_trace.specs.Telling.{head};

use crate::columns::{push_columns, push_credentials};
use crate::seen::{Seen, see};
use osb_language::{LONGEST_LINE, ScheduleFault};
use osb_lines::{MOST_BYTES, MOST_LINES};
use osb_message::{Answer, InstanceId, Memory};
use osb_network::Step;
use osb_network_language::NetworkEvent;
use osb_network_run::{Tally, judge_line, split_line};
use osb_trace::{push_answer, push_head, push_number};
use std::alloc::Global;

// The names of the columns.
const HEADER: &[u8] =
    b"line\tevent\tstep\tstate\tout\tattempt\tphase\twork\ttombstone\tresource\trecorded\tcredentials\tgiven\tanswer\n";

fn step_word(step: Step) -> &'static str
    ensures word { result.now ≡ spec.step_word step }
{
    match step {
        Step::Applied => "applied",
        Step::Skipped => "skipped",
    }
}

// The last answer that was given since there were so many.
fn new_answer(before: usize, after: &Seen) -> Option<Answer>
    ensures answer { result ≡ spec.new_answer before after.now }
{
    if after.given > before {
        after.answer
    } else {
        None
    }
}

// Adds the columns of a life after an event, before which so many answers were given.
fn push_after(text: &mut Vec<u8>, before: usize, after: &Seen) -> Result<(), Memory>
    ensures added { OnOk result (text.new.items ≡ text.old.items ++ spec.after_columns before after.now) }
{
    push_columns(text, b'\t', after)?;
    push_credentials(text, b'\t', after)?;
    text.push(b'\t')?;
    push_number(text, after.given)?;
    text.push(b'\t')?;
    push_answer(text, new_answer(before, after))?;
    text.push(b'\n')?;
    Ok(())
}

// Whether the events of the instance are asked for.
fn is_asked(asked: Option<InstanceId>, id: InstanceId) -> bool
    ensures asked { result ≡ spec.is_asked asked id }
{
    match asked {
        Some(one) => one == id,
        None => true,
    }
}

// Lets an event happen, and adds its line.
fn tell_event(
    alloc: Global,
    text: &mut Vec<u8>,
    tally: &mut Tally,
    number: u32,
    line: &[u8],
    event: NetworkEvent,
) -> Result<(), Memory>
    requires room { tally.old.applied + tally.old.skipped < MOST_LINES }
    ensures told { OnOk result (text.new.items
        ≡ text.old.items ++ spec.told_event (head number line.now) tally.old event) }
    ensures tally { OnOk result (tally.new ≡ with_event tally.old event) }
    ensures counted { OnOk result (tally.new.applied + tally.new.skipped ≡ tally.old.applied + tally.old.skipped + 1) }
{
    let life = event.life();
    let before = see(&tally.network, &life).given;
    let step = tally.take_event(alloc, event)?;
    push_head(text, number, line)?;
    text.extend_from_slice(step_word(step).as_bytes())?;
    push_after(text, before, &see(&tally.network, &life))
}

// Lets an event happen, and adds its line if it is asked for.
fn tell_asked(
    alloc: Global,
    text: &mut Vec<u8>,
    tally: &mut Tally,
    number: u32,
    line: &[u8],
    event: NetworkEvent,
    asked: &Option<InstanceId>,
) -> Result<(), Memory>
    requires room { tally.old.applied + tally.old.skipped < MOST_LINES }
    ensures told { OnOk result (text.new.items
        ≡ text.old.items ++ spec.told_asked asked.now (head number line.now) tally.old event) }
    ensures tally { OnOk result (tally.new ≡ with_event tally.old event) }
    ensures counted { OnOk result (tally.new.applied + tally.new.skipped ≡ tally.old.applied + tally.old.skipped + 1) }
{
    if is_asked(*asked, event.life().instance) {
        return tell_event(alloc, text, tally, number, line, event);
    }
    tally.take_event(alloc, event)?;
    Ok(())
}

// Takes a line after so many others, and adds what is told of it.
fn tell_line(
    alloc: Global,
    text: &mut Vec<u8>,
    tally: &mut Tally,
    before: u32,
    line: &[u8],
    asked: &Option<InstanceId>,
) -> Result<(), ScheduleFault>
    requires few { before ≤ MOST_LINES }
    requires counted { tally.old.applied + tally.old.skipped ≤ before }
    ensures told { OnOk result (text.new.items ≡ text.old.items ++ spec.told_line asked.now before tally.old line.now) }
    ensures tally { OnOk result ((fault_of before line.now ≡ None) × (tally.new ≡ with_line tally.old line.now)) }
    ensures refused { IfErr result (IsLineFault (before + 1) (fault_of before line.now)) }
    ensures counted { OnOk result (tally.new.applied + tally.new.skipped ≤ before + 1) }
    ensures within { OnOk result ((before < MOST_LINES) × (length line.now ≤ LONGEST_LINE)) }
{
    match judge_line(before, line) {
        Ok(Some(event)) => {
            match tell_asked(alloc, text, tally, before + 1, line, event, asked) {
                Ok(()) => Ok(()),
                Err(Memory) => Err(ScheduleFault::Memory),
            }
        }
        Ok(None) => Ok(()),
        Err(fault) => Err(fault),
    }
}

// The header.
fn header(alloc: Global) -> Result<Vec<u8>, Memory>
    ensures header { IfOk result (λ text. text.items ≡ spec.header) }
{
    let mut text = Vec::new(alloc);
    text.extend_from_slice(HEADER)?;
    Ok(text)
}

// The trace of the lines of a whole text.
pub fn trace(
    alloc: Global,
    text: &[u8],
    asked: Option<InstanceId>,
) -> Result<Vec<u8>, ScheduleFault>
    ensures trace { IfOk result (λ told. told.items ≡ spec.trace_text asked (lines text.now)) }
    ensures faultless { OnOk result (first_fault 0 (lines text.now) ≡ None) }
    ensures fault { IfErr result (IsWhyRefused (lines text.now)) }
    ensures bound { OnOk result (length text.now < MOST_BYTES) }
{
    let Ok(mut told) = header(alloc) else {
        return Err(ScheduleFault::Memory);
    };
    let mut tally = Tally::new(alloc);
    let mut rest = text;
    let mut before = 0;
    while let Some((line, after)) = split_line(rest) {
        tell_line(alloc, &mut told, &mut tally, before, line, &asked)?;
        before += 1;
        rest = after;
    }
    Ok(told)
}

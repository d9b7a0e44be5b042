//! The columns of an instance or a binding, each after a separator.
ghost use Rattle.std.specs.Prelude.{◌≡◌, ◌∷◌, ◌++◌, OnOk};
ghost use Rattle.osb_network_replay.specs.Columns as spec;

use crate::seen::Seen;
use itoa::Buffer;
use osb_instance::{Holding, Record};
use osb_message::{Kind, Memory};
use osb_network::Resource;
use osb_network_language::Life;

fn state_word(recorded: Option<Record>) -> &'static str
    ensures word { result.now ≡ spec.state_column recorded }
{
    match recorded {
        Some(record) => record.row().state.word(),
        None => "none",
    }
}

fn kind_word(kind: Option<Kind>) -> &'static str
    ensures word { result.now ≡ spec.kind_column kind }
{
    match kind {
        Some(kind) => kind.word(),
        None => "-",
    }
}

fn out_word(recorded: Option<Record>) -> &'static str
    ensures word { result.now ≡ spec.out_column recorded }
{
    match recorded {
        Some(record) => kind_word(record.row().out),
        None => "-",
    }
}

fn phase_word(holding: Holding) -> &'static str
    ensures word { result.now ≡ spec.phase_column holding }
{
    match holding.row() {
        Some(row) => row.phase.word(),
        None => "none",
    }
}

fn work_word(holding: Holding) -> &'static str
    ensures word { result.now ≡ spec.work_column holding.work }
{
    match holding.work() {
        Some(request) => request.kind.word(),
        None => "-",
    }
}

fn tombstone_word(holding: Holding) -> &'static str
    ensures word { result.now ≡ spec.tombstone_column holding.tombstone }
{
    if holding.has_tombstone() {
        "tombstone"
    } else {
        "-"
    }
}

fn resource_word(resource: Resource) -> &'static str
    ensures word { result.now ≡ spec.resource_column resource }
{
    match resource {
        Resource::Absent => "absent",
        Resource::Part => "part",
        Resource::Whole => "whole",
    }
}

// Adds a separator and a word.
fn push_word(text: &mut Vec<u8>, separator: u8, word: &str) -> Result<(), Memory>
    ensures added { OnOk result (text.new.items ≡ text.old.items ++ separator ∷ word.now) }
{
    text.push(separator)?;
    text.extend_from_slice(word.as_bytes())?;
    Ok(())
}

// Adds a separator, and a number in decimal or `-`.
fn push_number(text: &mut Vec<u8>, separator: u8, number: Option<u64>) -> Result<(), Memory>
    ensures added { OnOk result (text.new.items ≡ text.old.items ++ separator ∷ spec.number_column number) }
{
    match number {
        Some(number) => {
            let mut digits = Buffer::new();
            push_word(text, separator, digits.format(number))
        }
        None => push_word(text, separator, "-"),
    }
}

// The attempt of the record.
fn attempt_of(recorded: Option<Record>) -> Option<u64>
    ensures attempt { result ≡ spec.attempt_of recorded }
{
    match recorded {
        Some(record) => Some(record.attempt()),
        None => None,
    }
}

// Adds the columns that both kinds of lives have.
#[tactic(auto, unfolding(crate::specs::Columns::columns))]
pub fn push_columns(text: &mut Vec<u8>, separator: u8, seen: &Seen) -> Result<(), Memory>
    ensures added { OnOk result (text.new.items ≡ text.old.items ++ spec.columns separator seen.now) }
{
    push_word(text, separator, state_word(seen.recorded_by))?;
    push_word(text, separator, out_word(seen.recorded_by))?;
    push_number(text, separator, attempt_of(seen.recorded_by))?;
    push_word(text, separator, phase_word(seen.holding))?;
    push_word(text, separator, work_word(seen.holding))?;
    push_word(text, separator, tombstone_word(seen.holding))?;
    push_word(text, separator, resource_word(seen.resource))
}

// Adds the two columns of credentials.
#[tactic(auto, unfolding(crate::specs::Columns::credentials))]
pub fn push_credentials(text: &mut Vec<u8>, separator: u8, seen: &Seen) -> Result<(), Memory>
    ensures added { OnOk result (text.new.items ≡ text.old.items ++ spec.credentials separator seen.now) }
{
    push_number(text, separator, seen.recorded)?;
    push_number(text, separator, seen.credentials)
}

// Adds the id of an instance, or those of a binding with a slash between.
pub fn push_life(text: &mut Vec<u8>, life: Life) -> Result<(), Memory>
    ensures added { OnOk result (text.new.items ≡ text.old.items ++ spec.life_text life) }
{
    text.extend_from_slice(&life.instance.to_text())?;
    if let Some(id) = life.binding {
        text.push(b'/')?;
        text.extend_from_slice(&id.to_text())?;
    }
    Ok(())
}

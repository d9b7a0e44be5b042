//! The text of what a platform records of the updates of an instance.
ghost use Rattle.std.specs.Prelude.{◌≡◌, ◌⊎◌, true, false, Some, Ok, Err, IfOk, IfErr, string_bytes};
ghost use Rattle.serde_json.specs.View.{view};
ghost use Rattle.osb_update.specs.Recorded.{can_be};
ghost use Rattle.osb_update.specs.declared.record.UpdateRecord.{UpdateRecord};
ghost use Rattle.osb_update_text.specs.RecordText as spec;

use crate::frame::read_frame;
use crate::settings::{settings_at, settings_value, some_settings_value, to_at};
use osb_instance::TextFault;
use osb_json::{flag_at, member_count, number_at, text_at};
use osb_message::Memory;
use osb_update::{Aim, Settings, UpdateKind, UpdateRecord, UpdateState};
use serde_json::{Value, json};
use std::alloc::{AllocError, Global};

// The number of the format.
const VERSION: u64 = 1;

// The word of a state.
fn state_word(state: &UpdateState) -> &'static str
    ensures word { result.now ≡ spec.state_word state.now }
{
    match state {
        UpdateState::Settled => "settled",
        UpdateState::Updating(_) => "updating",
        UpdateState::Polling(_) => "polling",
        UpdateState::Unsure(_) => "unsure",
    }
}

// The settings that a state aims at.
fn aimed_at(state: &UpdateState) -> Option<Settings>
    ensures settings { result ≡ spec.aimed_at state.now }
{
    match state {
        UpdateState::Settled => None,
        UpdateState::Updating(aim) | UpdateState::Polling(aim) | UpdateState::Unsure(aim) => Some(
            aim.to,
        ),
    }
}

// Whether an Update to other settings may have been done.
fn is_mixed(state: &UpdateState) -> bool
    ensures mixed { result ≡ spec.is_mixed state.now }
{
    match state {
        UpdateState::Settled => false,
        UpdateState::Updating(aim) | UpdateState::Polling(aim) | UpdateState::Unsure(aim) => {
            aim.mixed
        }
    }
}

// The word of a kind.
fn kind_word(kind: UpdateKind) -> &'static str
    ensures word { result.now ≡ spec.kind_word kind }
{
    match kind {
        UpdateKind::Update => "update",
        UpdateKind::Poll => "poll",
        UpdateKind::Fetch => "fetch",
    }
}

// The JSON value of the kind of the request that is out.
fn out_value(alloc: Global, out: Option<UpdateKind>) -> Result<Value, AllocError>
    ensures value { IfOk result (λ v. view v ≡ spec.out_value out) }
{
    match out {
        None => Ok(Value::Null),
        Some(kind) => json!(in alloc; (kind_word(kind))),
    }
}

// The JSON value of a record.
fn record_value(alloc: Global, recorded: &UpdateRecord) -> Result<Value, AllocError>
    ensures value { IfOk result (λ v. view v ≡ spec.record_value recorded.now) }
    ensures named { IfOk result (λ _.
        spec.record_named (spec.record_value recorded.now) ≡ Some recorded.now) }
{
    let attempt = recorded.attempt;
    let mixed = is_mixed(&recorded.state);
    let number = recorded.number;
    let out = out_value(alloc, recorded.out)?;
    let settings = settings_value(alloc, &recorded.settings)?;
    let state = state_word(&recorded.state);
    let to = some_settings_value(alloc, aimed_at(&recorded.state))?;
    json!(in alloc; {
        "attempt": attempt,
        "mixed": mixed,
        "number": number,
        "out": out,
        "settings": settings,
        "state": state,
        "to": to,
        "version": VERSION,
    })
}

/// The text of a record, for a column of a database: a JSON object with no spaces and these members, in this order. If
/// the record can't come about ([`UpdateRecord::can_be`]), [`read_record`] rejects its text. All of this is this
/// project's choice.
///
/// - `attempt`: the attempt of the latest request
/// - `mixed`: whether an Update to other settings may have been done, `false` in `settled`
/// - `number`: the number of the latest Update
/// - `out`: the word `update`, `poll` or `fetch` of the request that is out, or `null`
/// - `settings`: the settings that are recorded, as an object with the members `parameters`, `plan` and `version`, in
///   this order. The plan is an id in lower case, and each of the other two a digest as 64 hex digits in lower case
/// - `state`: the word `settled`, `updating`, `polling` or `unsure`
/// - `to`: such an object with the settings that the latest Update asks for, or `null` in `settled`
/// - `version`: the number 1
///
/// # Errors
///
/// [`Memory`] if an allocation failed. Nothing has changed then.
pub fn write_record(alloc: Global, recorded: &UpdateRecord) -> Result<String, Memory>
    ensures text { IfOk result (λ text. string_bytes text ≡ spec.record_text recorded.now) }
    ensures back { can_be recorded.now ≡ true
        → IfOk result (λ text. spec.record_in (string_bytes text) ≡ Ok recorded.now) }
    ensures impossible { can_be recorded.now ≡ false
        → IfOk result (λ text. spec.record_in (string_bytes text) ≡ Err TextFault.Impossible) }
{
    let value = record_value(alloc, recorded)?;
    let text = value.to_string(alloc)?;
    Ok(text)
}

// Whether the members are those of a record, and no other.
fn has_names(value: &Value) -> bool
    ensures names { result ≡ spec.has_names (view value.now) }
{
    member_count(value) == 8
        && value.get("attempt").is_some()
        && value.get("mixed").is_some()
        && value.get("number").is_some()
        && value.get("out").is_some()
        && value.get("settings").is_some()
        && value.get("state").is_some()
        && value.get("to").is_some()
}

// The kind that a word names.
fn kind_named(word: &str) -> Option<UpdateKind>
    ensures kind { result ≡ spec.kind_named word.now }
{
    match word {
        "update" => Some(UpdateKind::Update),
        "poll" => Some(UpdateKind::Poll),
        "fetch" => Some(UpdateKind::Fetch),
        _ => None,
    }
}

// The kind that stands under `out`, `Some(None)` for null, or `None` if it is neither.
fn read_out(value: &Value) -> Option<Option<UpdateKind>>
    ensures out { result ≡ spec.out_at (view value.now) }
{
    match value.get("out") {
        Some(Value::Null) => Some(None),
        _ => match text_at(value, "out").and_then(kind_named) {
            Some(kind) => Some(Some(kind)),
            None => None,
        },
    }
}

// The state that a word names beside this aim.
fn state_to(word: &str, aim: &Aim) -> Option<UpdateState>
    ensures state { result ≡ spec.state_to word.now aim.now }
{
    match word {
        "updating" => Some(UpdateState::Updating(*aim)),
        "polling" => Some(UpdateState::Polling(*aim)),
        "unsure" => Some(UpdateState::Unsure(*aim)),
        _ => None,
    }
}

// The state that a word names beside no aim.
fn state_alone(word: &str, mixed: bool) -> Option<UpdateState>
    ensures state { result ≡ spec.state_alone word.now mixed }
{
    if word == "settled" && !mixed {
        Some(UpdateState::Settled)
    } else {
        None
    }
}

// The state that the members name.
fn read_state(value: &Value) -> Option<UpdateState>
    ensures state { result ≡ spec.state_at (view value.now) }
{
    match (
        text_at(value, "state"),
        flag_at(value, "mixed"),
        to_at(value),
    ) {
        (Some(word), Some(mixed), Some(None)) => state_alone(word, mixed),
        (Some(word), Some(mixed), Some(Some(to))) => state_to(word, &Aim { to, mixed }),
        _ => None,
    }
}

// The record that the members name.
#[tactic(auto, unfolding(crate::specs::RecordText::record_named))]
fn read_members(value: &Value) -> Option<UpdateRecord>
    ensures recorded { result ≡ spec.record_named (view value.now) }
{
    let attempt = number_at(value, "attempt");
    let number = number_at(value, "number");
    let out = read_out(value);
    let settings = settings_at(value);
    let state = read_state(value);
    match (attempt, number, out, settings, state) {
        (Some(attempt), Some(number), Some(out), Some(settings), Some(state)) => {
            Some(UpdateRecord {
                settings,
                number,
                attempt,
                state,
                out,
            })
        }
        _ => None,
    }
}

/// The record that a text names, as [`write_record`] writes it. The text may have any spacing, members in any order,
/// and the digits of a digest in either case. If a member stands twice, the last one counts. What [`write_record`]
/// returned of a record that can come about is rejected only if memory runs out. All of this is this project's choice.
///
/// # Errors
///
/// The first of these that fits. [`TextFault::Memory`] may come in place of any other, and of a record, if an
/// allocation failed. Nothing has changed then.
///
/// 1. [`TextFault::NotJson`] if the text has no reading as JSON
/// 2. [`TextFault::NotAnObject`] if the value isn't an object
/// 3. [`TextFault::BadVersion`] if `version` isn't 1, written as an integer
/// 4. [`TextFault::BadOuter`] if the members aren't exactly `attempt`, `mixed`, `number`, `out`, `settings`, `state`,
///    `to` and `version`
/// 5. [`TextFault::BadMember`] if one of them isn't as [`write_record`] has it, with no further member inside; in
///    `settled`, if `mixed` is `true` or `to` isn't `null`; in another state, if `to` is `null`
/// 6. [`TextFault::Impossible`] if [`UpdateRecord::can_be`] is false
pub fn read_record(alloc: Global, text: &str) -> Result<UpdateRecord, TextFault>
    ensures ok { IfOk result (λ recorded. spec.record_in text.now ≡ Ok recorded) }
    ensures err { IfErr result (λ fault.
        (fault ≡ TextFault.Memory) ⊎ (spec.record_in text.now ≡ Err fault)) }
    ensures back { (written : UpdateRecord) → spec.record_in text.now ≡ Ok written
        → IfOk result (λ recorded. recorded ≡ written) }
    ensures back_err { (written : UpdateRecord) → spec.record_in text.now ≡ Ok written
        → IfErr result (λ fault. fault ≡ TextFault.Memory) }
{
    let value = read_frame(alloc, text, VERSION)?;
    if !has_names(&value) {
        return Err(TextFault::BadOuter);
    }
    let Some(recorded) = read_members(&value) else {
        return Err(TextFault::BadMember);
    };
    if !recorded.can_be() {
        return Err(TextFault::Impossible);
    }
    Ok(recorded)
}

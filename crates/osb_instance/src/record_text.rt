//! The text of a record.
ghost use Rattle.std.specs.Prelude.{◌≡◌, ◌⊎◌, Some, Ok, Err, IfOk, IfErr, option_map, string_bytes};
ghost use Rattle.serde_json.specs.View.{view};
ghost use Rattle.osb_instance.specs.RecordText as spec;
ghost use Rattle.osb_instance.specs.Recorded.{IsRecordedSound};

use crate::TextFault;
use crate::frame::read_frame;
use osb_json::{id_at, member_count, number_at, text_at};
use osb_message::{Kind, Memory};
use osb_platform::{PlatformRow, State};
use serde_json::{Value, json};
use std::alloc::{AllocError, Global};

// The number of the format of an instance's record.
pub(crate) const VERSION: u64 = 1;

// The JSON value of the kind of the request that is out.
fn out_value(alloc: Global, out: Option<Kind>) -> Result<Value, AllocError>
    ensures value { IfOk result (λ v. view v ≡ spec.out_value out) }
{
    match out {
        None => Ok(Value::Null),
        Some(kind) => json!(in alloc; (kind.word())),
    }
}

// The JSON value of a record, with this number of its format.
fn record_value(
    alloc: Global,
    version: u64,
    row: &PlatformRow,
    attempt: u64,
) -> Result<Value, AllocError>
    ensures value { IfOk result (λ v.
        view v ≡ spec.record_value version (record { row = row.now; attempt = attempt })) }
    ensures named { IfOk result (λ _.
        spec.record_named (spec.record_value version (record { row = row.now; attempt = attempt }))
        ≡ Some (record { row = row.now; attempt = attempt })) }
{
    let out = out_value(alloc, row.out)?;
    let mut plan_text = [0u8; 36];
    let plan = row.plan.text_in(&mut plan_text);
    let mut service_text = [0u8; 36];
    let service = row.service.text_in(&mut service_text);
    let state = row.state.word();
    json!(in alloc; {
        "attempt": attempt,
        "out": out,
        "plan": plan,
        "service": service,
        "state": state,
        "version": version,
    })
}

// The text of a record, with this number of its format.
pub(crate) fn write_record(
    alloc: Global,
    version: u64,
    row: &PlatformRow,
    attempt: u64,
) -> Result<String, Memory>
    ensures text { IfOk result (λ text. string_bytes text
        ≡ spec.record_text_of version (record { row = row.now; attempt = attempt })) }
    ensures back { IsRecordedSound (record { row = row.now; attempt = attempt })
        → IfOk result (λ text. spec.record_in_of version (string_bytes text)
        ≡ Ok (record { row = row.now; attempt = attempt })) }
{
    let value = record_value(alloc, version, row, attempt)?;
    let text = value.to_string(alloc)?;
    Ok(text)
}

// Whether the members are those of a record, and no other.
fn has_names(value: &Value) -> bool
    ensures names { result ≡ spec.has_names (view value.now) }
{
    member_count(value) == 6
        && value.get("attempt").is_some()
        && value.get("out").is_some()
        && value.get("plan").is_some()
        && value.get("service").is_some()
        && value.get("state").is_some()
}

// The kind that stands under `out`, or none for null; none where it is neither.
fn read_out(value: &Value) -> Option<Option<Kind>>
    ensures out { result ≡ spec.out_at (view value.now) }
{
    match value.get("out") {
        Some(Value::Null) => Some(None),
        _ => match text_at(value, "out").and_then(Kind::from_word) {
            Some(kind) => Some(Some(kind)),
            None => None,
        },
    }
}

// The state whose word stands under `state`.
fn read_state(value: &Value) -> Option<State>
    ensures state { result ≡ spec.state_at (view value.now) }
{
    text_at(value, "state").and_then(State::from_word)
}

// The record that the members name.
#[tactic(auto, unfolding(crate::specs::RecordText::record_named))]
fn read_members(value: &Value) -> Option<(PlatformRow, u64)>
    ensures record { option_map spec.recorded_of result ≡ spec.record_named (view value.now) }
{
    let attempt = number_at(value, "attempt");
    let out = read_out(value);
    let plan = id_at(value, "plan");
    let service = id_at(value, "service");
    let state = read_state(value);
    match (attempt, out, plan, service, state) {
        (Some(attempt), Some(out), Some(plan), Some(service), Some(state)) => {
            let row = PlatformRow {
                service,
                plan,
                state,
                out,
            };
            Some((row, attempt))
        }
        _ => None,
    }
}

// Whether such a record can come about.
pub(crate) fn can_be(row: &PlatformRow, attempt: u64) -> bool
    ensures can { result ≡ spec.can_be (record { row = row.now; attempt = attempt }) }
{
    match (row.state, row.out) {
        (State::Wanted, None) => false,
        (_, None) => true,
        (State::Wanted, Some(Kind::Provision)) => attempt == 1,
        (State::Polling | State::CleaningPolling, Some(Kind::Poll))
        | (State::Cleaning, Some(Kind::Deprovision)) => attempt >= 1,
        (_, Some(_)) => false,
    }
}

// The record that a text names, if it has this number of its format.
pub(crate) fn read_record(
    alloc: Global,
    version: u64,
    text: &str,
) -> Result<(PlatformRow, u64), TextFault>
    ensures ok { IfOk result (λ r.
        spec.record_in_of version text.now ≡ Ok (spec.recorded_of r)) }
    ensures err { IfErr result (λ fault.
        (fault ≡ TextFault.Memory) ⊎ (spec.record_in_of version text.now ≡ Err fault)) }
    ensures sound { IfOk result (λ r. IsRecordedSound (spec.recorded_of r)) }
{
    let value = read_frame(alloc, text, version)?;
    if !has_names(&value) {
        return Err(TextFault::BadOuter);
    }
    let Some((row, attempt)) = read_members(&value) else {
        return Err(TextFault::BadMember);
    };
    if !can_be(&row, attempt) {
        return Err(TextFault::Impossible);
    }
    Ok((row, attempt))
}

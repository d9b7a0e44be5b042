//! The text of a holding.
ghost use Rattle.std.specs.Prelude.{◌≡◌, ◌⊎◌, Some, Ok, Err, IfOk, IfErr, option_map, string_bytes};
ghost use Rattle.serde_json.specs.View.{view};
ghost use Rattle.osb_instance.specs.Held.{IsHeldSound};
ghost use Rattle.osb_instance.specs.Rows.{held_of_parts, held_row};
ghost use Rattle.osb_instance.specs.HoldingText as spec;

use crate::frame::{has_version, read_frame, read_object};
use crate::work::work_due;
use crate::{Digest, HoldingPhase, HoldingRow, TextFault};
use hex::FromHex;
use osb_broker::{BrokerRow, Phase};
use osb_json::{flag_at, id_at, member_count, text_at};
use osb_message::{Kind, Memory, Mode, Request};
use serde_json::{Value, json};
use std::alloc::{AllocError, Global};

// The number of the format of an instance's holding, and that of its first one.
pub(crate) const VERSION: u64 = 2;

const FIRST_VERSION: u64 = 1;

// The parts of a holding.
#[derive(Clone, Copy)]
pub(crate) struct Parts {
    pub(crate) row: Option<BrokerRow>,
    pub(crate) work: Option<Request>,
    pub(crate) tombstone: bool,
    pub(crate) waiting: bool,
    pub(crate) attributes: Digest,
}

impl Parts {
    // The parts of a holding, its row as it is shown.
    pub(crate) fn of(
        row: Option<HoldingRow>,
        work: Option<Request>,
        tombstone: bool,
        attributes: Digest,
    ) -> Parts
        ensures parts { spec.held_of result ≡ held_of_parts row work tombstone attributes }
    {
        let (row, waiting) = match row {
            None => (None, false),
            Some(row) => {
                let waiting = row.is_waiting();
                (Some(row.in_tables()), waiting)
            }
        };
        Parts {
            row,
            work,
            tombstone,
            waiting,
            attributes,
        }
    }

    // The row as it is shown.
    fn shown_row(&self) -> Option<HoldingRow>
        ensures row { result ≡ held_row self.now.row self.now.waiting }
    {
        match self.row {
            None => None,
            Some(row) => Some(HoldingRow::of(row, self.waiting)),
        }
    }
}

// The JSON value of a row.
fn row_value(alloc: Global, row: &HoldingRow) -> Result<Value, AllocError>
    ensures value { IfOk result (λ v. view v ≡ spec.row_value row.now) }
    ensures named { IfOk result (λ _. spec.row_named (spec.row_value row.now) ≡ Some row.now) }
{
    let phase = row.phase.word();
    let mut plan_text = [0u8; 36];
    let plan = row.plan.text_in(&mut plan_text);
    let mut service_text = [0u8; 36];
    let service = row.service.text_in(&mut service_text);
    json!(in alloc; {"phase": phase, "plan": plan, "service": service})
}

// The JSON value of a request whose work is pending.
fn work_value(alloc: Global, request: &Request) -> Result<Value, AllocError>
    ensures value { IfOk result (λ v. view v ≡ spec.work_value request.now) }
    ensures named { IfOk result (λ _.
        spec.work_named (spec.work_value request.now) ≡ Some request.now) }
{
    let accepts = request.accepts_incomplete;
    let mut id_text = [0u8; 36];
    let id = request.id.text_in(&mut id_text);
    let kind = request.kind.word();
    let mut plan_text = [0u8; 36];
    let plan = request.plan.text_in(&mut plan_text);
    let mut service_text = [0u8; 36];
    let service = request.service.text_in(&mut service_text);
    json!(in alloc; {
        "accepts_incomplete": accepts,
        "id": id,
        "kind": kind,
        "plan": plan,
        "service": service,
    })
}

// The JSON value of the row, or null.
fn some_row_value(alloc: Global, row: Option<HoldingRow>) -> Result<Value, AllocError>
    ensures value { IfOk result (λ v. view v ≡ spec.some_row_value row) }
    ensures named { IfOk result (λ _. spec.some_row_in (spec.some_row_value row) ≡ Some row) }
{
    match row {
        None => Ok(Value::Null),
        Some(row) => row_value(alloc, &row),
    }
}

// The JSON value of the pending request, or null.
fn some_work_value(alloc: Global, work: Option<Request>) -> Result<Value, AllocError>
    ensures value { IfOk result (λ v. view v ≡ spec.some_work_value work) }
    ensures named { IfOk result (λ _. spec.some_work_in (spec.some_work_value work) ≡ Some work) }
{
    match work {
        None => Ok(Value::Null),
        Some(request) => work_value(alloc, &request),
    }
}

// The JSON value of a digest: its 64 digits.
fn digest_value(alloc: Global, digest: Digest) -> Result<Value, AllocError>
    ensures value { IfOk result (λ v. view v ≡ spec.digest_value digest) }
    ensures named { IfOk result (λ _. spec.digest_in (spec.digest_text digest) ≡ Some digest) }
{
    let text = hex::encode(alloc, digest.bytes)?;
    Ok(Value::String(text))
}

// The JSON value of a holding, with this number of its format.
fn holding_value(alloc: Global, version: u64, parts: &Parts) -> Result<Value, AllocError>
    ensures value { IfOk result (λ v. view v ≡ spec.holding_value version (spec.held_of parts.now)) }
    ensures named { IsHeldSound (spec.held_of parts.now) → IfOk result (λ _.
        spec.holding_named (spec.holding_value version (spec.held_of parts.now)) ≡ Some (spec.held_of parts.now)) }
{
    let attributes = digest_value(alloc, parts.attributes)?;
    let row = some_row_value(alloc, parts.shown_row())?;
    let tombstone = parts.tombstone;
    let work = some_work_value(alloc, parts.work)?;
    json!(in alloc; {
        "attributes": attributes,
        "row": row,
        "tombstone": tombstone,
        "version": version,
        "work": work,
    })
}

// The text of a holding, with this number of its format.
pub(crate) fn write_holding(alloc: Global, version: u64, parts: &Parts) -> Result<String, Memory>
    ensures text { IfOk result (λ text.
        string_bytes text ≡ spec.holding_text_of version (spec.held_of parts.now)) }
    ensures back { IsHeldSound (spec.held_of parts.now) → IfOk result (λ text.
        spec.holding_in_of version (string_bytes text) ≡ Ok (spec.held_of parts.now)) }
{
    let value = holding_value(alloc, version, parts)?;
    let text = value.to_string(alloc)?;
    Ok(text)
}

// Whether the members are those of a holding, and no other.
fn has_names(value: &Value) -> bool
    ensures names { result ≡ spec.has_names (view value.now) }
{
    member_count(value) == 5
        && value.get("attributes").is_some()
        && value.get("row").is_some()
        && value.get("tombstone").is_some()
        && value.get("work").is_some()
}

// The same of the first format.
fn has_first_names(value: &Value) -> bool
    ensures names { result ≡ spec.has_first_names (view value.now) }
{
    member_count(value) == 4
        && value.get("marked").is_some()
        && value.get("row").is_some()
        && value.get("work").is_some()
}

// What a value says of a row.
#[tactic(auto, unfolding(crate::specs::HoldingText::row_named))]
fn read_row(value: &Value) -> Option<HoldingRow>
    ensures row { result ≡ spec.row_named (view value.now) }
{
    if member_count(value) != 3 {
        return None;
    }
    let phase = text_at(value, "phase").and_then(HoldingPhase::from_word);
    let plan = id_at(value, "plan");
    let service = id_at(value, "service");
    match (phase, plan, service) {
        (Some(phase), Some(plan), Some(service)) => Some(HoldingRow {
            service,
            plan,
            phase,
        }),
        _ => None,
    }
}

// What a value says of a pending request.
#[tactic(auto, unfolding(crate::specs::HoldingText::work_named))]
fn read_work(value: &Value) -> Option<Request>
    ensures work { result ≡ spec.work_named (view value.now) }
{
    if member_count(value) != 5 {
        return None;
    }
    let accepts = flag_at(value, "accepts_incomplete");
    let id = id_at(value, "id");
    let kind = text_at(value, "kind").and_then(Kind::from_word);
    let plan = id_at(value, "plan");
    let service = id_at(value, "service");
    match (accepts, id, kind, plan, service) {
        (Some(accepts_incomplete), Some(id), Some(kind), Some(plan), Some(service)) => {
            Some(Request {
                kind,
                id,
                service,
                plan,
                accepts_incomplete,
            })
        }
        _ => None,
    }
}

// The row that stands under `row`, or none for null; none where it is neither.
fn read_some_row(value: &Value) -> Option<Option<HoldingRow>>
    ensures row { result ≡ spec.some_row_at (view value.now) }
{
    match value.get("row") {
        None => None,
        Some(Value::Null) => Some(None),
        Some(found) => match read_row(found) {
            Some(row) => Some(Some(row)),
            None => None,
        },
    }
}

// The request that stands under `work`, or none for null; none where it is neither.
fn read_some_work(value: &Value) -> Option<Option<Request>>
    ensures work { result ≡ spec.some_work_at (view value.now) }
{
    match value.get("work") {
        None => None,
        Some(Value::Null) => Some(None),
        Some(found) => match read_work(found) {
            Some(request) => Some(Some(request)),
            None => None,
        },
    }
}

// The digest whose digits stand under `attributes`.
fn read_digest(value: &Value) -> Option<Digest>
    ensures digest { result ≡ spec.digest_at (view value.now) }
{
    let Some(text) = text_at(value, "attributes") else {
        return None;
    };
    match <[u8; 32] as FromHex>::from_hex(text) {
        Ok(bytes) => Some(Digest { bytes }),
        Err(_) => None,
    }
}

// The holding that the members name.
#[tactic(auto, unfolding(crate::specs::HoldingText::holding_named))]
fn read_members(value: &Value) -> Option<Parts>
    ensures holding { option_map spec.held_of result ≡ spec.holding_named (view value.now) }
{
    let attributes = read_digest(value);
    let row = read_some_row(value);
    let tombstone = flag_at(value, "tombstone");
    let work = read_some_work(value);
    match (attributes, row, tombstone, work) {
        (Some(attributes), Some(row), Some(tombstone), Some(work)) => {
            Some(Parts::of(row, work, tombstone, attributes))
        }
        _ => None,
    }
}

// The same of the first format.
#[tactic(auto, unfolding(crate::specs::HoldingText::first_holding_named))]
fn read_first_members(value: &Value) -> Option<Parts>
    ensures holding { option_map spec.held_of result ≡ spec.first_holding_named (view value.now) }
{
    let row = read_some_row(value);
    let tombstone = flag_at(value, "marked");
    let work = read_some_work(value);
    match (row, tombstone, work) {
        (Some(row), Some(tombstone), Some(work)) => {
            Some(Parts::of(row, work, tombstone, Digest::NONE))
        }
        _ => None,
    }
}

// Whether a row may wait for its first Poll, or doesn't wait.
fn can_wait(waiting: bool, row: Option<BrokerRow>, work: Option<Request>) -> bool
    ensures can { result ≡ spec.can_wait waiting row work }
{
    match (waiting, row, work) {
        (false, _, _) => true,
        (true, Some(row), None) => matches!(row.phase, Phase::Making),
        (true, _, _) => false,
    }
}

// Whether there may be these attributes.
fn can_have(row: Option<BrokerRow>, work: Option<Request>, attributes: Digest) -> bool
    ensures can { result ≡ spec.can_have row work attributes }
{
    match (row, work) {
        (None, None) => attributes.is_same(Digest::NONE),
        _ => true,
    }
}

// Whether pending work is due at some plan. A synchronous plan has all the work that an asynchronous one has.
fn is_work(row: Option<BrokerRow>, work: Option<Request>) -> bool
    ensures is { result ≡ spec.is_work row work }
{
    match work {
        None => true,
        Some(request) => work_due(Some(Mode::Sync), row, &request).is_some(),
    }
}

// Whether such a holding can come about.
pub(crate) fn can_be(parts: &Parts) -> bool
    ensures can { result ≡ spec.can_be (spec.held_of parts.now) }
{
    let Parts {
        row,
        work,
        tombstone,
        waiting,
        attributes,
    } = *parts;
    let kept = if tombstone {
        row.is_none() && work.is_none()
    } else {
        is_work(row, work)
    };
    kept && can_wait(waiting, row, work) && can_have(row, work, attributes)
}

// The parts that a value of the format names.
fn read_latest(value: &Value) -> Result<Parts, TextFault>
    ensures ok { IfOk result (λ h. spec.holding_of (view value.now) ≡ Ok (spec.held_of h)) }
    ensures err { IfErr result (λ fault. spec.holding_of (view value.now) ≡ Err fault) }
    ensures sound { IfOk result (λ h. IsHeldSound (spec.held_of h)) }
{
    if !has_names(value) {
        return Err(TextFault::BadOuter);
    }
    let Some(parts) = read_members(value) else {
        return Err(TextFault::BadMember);
    };
    if !can_be(&parts) {
        return Err(TextFault::Impossible);
    }
    Ok(parts)
}

// The parts that a value of the first format names.
fn read_first(value: &Value) -> Result<Parts, TextFault>
    ensures ok { IfOk result (λ h. spec.first_holding_of (view value.now) ≡ Ok (spec.held_of h)) }
    ensures err { IfErr result (λ fault. spec.first_holding_of (view value.now) ≡ Err fault) }
    ensures sound { IfOk result (λ h. IsHeldSound (spec.held_of h)) }
{
    if !has_first_names(value) {
        return Err(TextFault::BadOuter);
    }
    let Some(parts) = read_first_members(value) else {
        return Err(TextFault::BadMember);
    };
    if !can_be(&parts) {
        return Err(TextFault::Impossible);
    }
    Ok(parts)
}

// The parts of the holding that a text names.
pub(crate) fn read_holding(alloc: Global, text: &str) -> Result<Parts, TextFault>
    ensures ok { IfOk result (λ h. spec.holding_in text.now ≡ Ok (spec.held_of h)) }
    ensures err { IfErr result (λ fault.
        (fault ≡ TextFault.Memory) ⊎ (spec.holding_in text.now ≡ Err fault)) }
    ensures sound { IfOk result (λ h. IsHeldSound (spec.held_of h)) }
{
    let value = read_object(alloc, text)?;
    if has_version(&value, VERSION) {
        return read_latest(&value);
    }
    if has_version(&value, FIRST_VERSION) {
        return read_first(&value);
    }
    Err(TextFault::BadVersion)
}

// The same, if the texts have this one number of a format.
pub(crate) fn read_holding_of(alloc: Global, version: u64, text: &str) -> Result<Parts, TextFault>
    ensures ok { IfOk result (λ h. spec.holding_in_of version text.now ≡ Ok (spec.held_of h)) }
    ensures err { IfErr result (λ fault.
        (fault ≡ TextFault.Memory) ⊎ (spec.holding_in_of version text.now ≡ Err fault)) }
    ensures sound { IfOk result (λ h. IsHeldSound (spec.held_of h)) }
{
    let value = read_frame(alloc, text, version)?;
    read_latest(&value)
}

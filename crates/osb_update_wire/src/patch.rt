//! The body of an Update.
ghost use Rattle.std.specs.Prelude.{◌≡◌, ◌⊎◌, Some, Ok, Err, IfOk, IfErr, IfSome, codes, option_map, option_and_then, string_bytes};
ghost use Rattle.json.specs.Find.{get};
ghost use Rattle.json.specs.Tree.{HasNumbers};
ghost use Rattle.json.specs.Value.{value_view, members_view};
ghost use Rattle.osb_wire.specs.JsonTexts.{json_in};
ghost use Rattle.osb_update_wire.specs.Patches as patches;
ghost use Rattle.osb_update_wire.specs.Versions as versions;

use crate::UpdateRefusal;
use crate::versions::{text_at, version_at, version_digest};
use json::{Scratch, Value};
use osb_instance::Digest;
use osb_message::{Memory, PlanId, ServiceId};
use osb_update::{Change, Update};
use osb_wire::json_texts::read_json;
use osb_wire::{Refusal, attributes_digest, id_of_text, retry_after};
use std::alloc::Global;

// The service, which must be there.
fn read_service(value: &Value<'_>) -> Result<ServiceId, UpdateRefusal>
    ensures service { result ≡ patches.service_needed (versions.text_at (codes "service_id") (value_view value.now)) }
{
    let Some(text) = text_at(value, "service_id") else {
        return Err(UpdateRefusal::Refused(Refusal::BadService));
    };
    match id_of_text(text) {
        Some(service) => Ok(service),
        None => Err(UpdateRefusal::Refused(Refusal::BadService)),
    }
}

// The id that a value is.
fn plan_of(value: &Value<'_>) -> Option<PlanId>
    ensures plan { result ≡ patches.plan_of (value_view value.now) }
{
    match value.as_str() {
        Some(text) => id_of_text(text),
        None => None,
    }
}

// The plan, which may be missing.
fn read_plan(value: &Value<'_>) -> Result<Option<PlanId>, UpdateRefusal>
    ensures plan { result ≡ patches.plan_given (get (codes "plan_id") (value_view value.now)) }
{
    let Some(found) = value.get("plan_id") else {
        return Ok(None);
    };
    match plan_of(found) {
        Some(plan) => Ok(Some(plan)),
        None => Err(UpdateRefusal::Refused(Refusal::BadPlan)),
    }
}

// The number that a value is. The rule of digits is that of seconds in a header.
pub(crate) fn number_of(value: &Value<'_>) -> Option<u64>
    ensures number { result ≡ patches.number_at (value_view value.now) }
{
    let Some(text) = value.as_number() else {
        return None;
    };
    match retry_after(text) {
        Some(0) => None,
        Some(number) => Some(number),
        None => None,
    }
}

// The number of the Update, which is 0 if it is missing.
fn read_number(value: &Value<'_>) -> Result<u64, UpdateRefusal>
    ensures number { result ≡ patches.number_given (get (codes "x-osb-update") (value_view value.now)) }
{
    let Some(found) = value.get("x-osb-update") else {
        return Ok(0);
    };
    match number_of(found) {
        Some(number) => Ok(number),
        None => Err(UpdateRefusal::BadNumber),
    }
}

// Whether an object has no members.
#[tactic(auto, using(crate::proofs::NoMembers::no_members_of))]
fn has_no_members(members: &Vec<(&str, Value<'_>)>) -> bool
    ensures none { result ≡ patches.has_no_members (members_view members.now.items) }
{
    members.is_empty()
}

// Whether parameters are an object with no members, or null.
pub(crate) fn says_none(parameters: &Value<'_>) -> bool
    ensures none { result ≡ patches.says_none (value_view parameters.now) }
{
    match parameters {
        Value::Null => true,
        Value::Object(members) => has_no_members(members),
        _ => false,
    }
}

// The parameters that are named.
pub(crate) fn parameters_named<'v, 'a>(value: &'v Value<'a>, number: u64) -> Option<&'v Value<'a>>
    ensures named { option_map (λ v. value_view v.now) result
        ≡ patches.parameters_named number (value_view value.now) }
{
    let Some(parameters) = value.get("parameters") else {
        return None;
    };
    if number == 0 && says_none(parameters) {
        return None;
    }
    Some(parameters)
}

// The digest of the parameters that are named, by the body that the value is.
fn read_digest(
    alloc: Global,
    body: &[u8],
    value: &Value<'_>,
    number: u64,
) -> Result<Option<Digest>, Memory>
    requires { json_in body.now ≡ Some (value_view value.now) }
    ensures digest { IfOk result (λ digest. digest
        ≡ option_map patches.parameters_digest (patches.parameters_named number (value_view value.now))) }
{
    match parameters_named(value, number) {
        Some(_) => Ok(Some(Digest {
            bytes: attributes_digest(alloc, body)?,
        })),
        None => Ok(None),
    }
}

// The digest of the version that is named.
fn named_version(value: &Value<'_>) -> Option<Digest>
    ensures version { result ≡ option_map versions.version_digest (versions.version_at (value_view value.now)) }
{
    match version_at(value) {
        Some(text) => Some(version_digest(text)),
        None => None,
    }
}

// What an object asks for, by the body that it is.
fn update_of(
    alloc: Global,
    body: &[u8],
    value: &Value<'_>,
    accepts_incomplete: bool,
) -> Result<Update, UpdateRefusal>
    requires { json_in body.now ≡ Some (value_view value.now) }
    ensures ok { IfOk result (λ update. patches.update_of accepts_incomplete (value_view value.now) ≡ Ok update) }
    ensures err { IfErr result (λ fault. (fault ≡ UpdateRefusal.Refused Refusal.Memory)
        ⊎ (patches.update_of accepts_incomplete (value_view value.now) ≡ Err fault)) }
{
    let service = match read_service(value) {
        Ok(service) => service,
        Err(fault) => return Err(fault),
    };
    let plan = match read_plan(value) {
        Ok(plan) => plan,
        Err(fault) => return Err(fault),
    };
    let number = match read_number(value) {
        Ok(number) => number,
        Err(fault) => return Err(fault),
    };
    let Ok(parameters) = read_digest(alloc, body, value, number) else {
        return Err(UpdateRefusal::Refused(Refusal::Memory));
    };
    Ok(Update {
        service,
        change: Change {
            plan,
            parameters,
            version: named_version(value),
        },
        number,
        accepts_incomplete,
    })
}

// The value, if it is an object.
pub(crate) fn is_object(value: &Value<'_>) -> bool
    ensures object { result ≡ patches.is_object (value_view value.now) }
{
    match value {
        Value::Object(_) => true,
        _ => false,
    }
}

/// What the body of an Update asks for (section Updating a Service Instance).
///
/// # Errors
///
/// [`Refusal::NotAnObject`], [`Refusal::BadService`], [`Refusal::BadPlan`], [`UpdateRefusal::BadNumber`], the first that
/// fits, and [`Refusal::Memory`] if an allocation failed.
pub(crate) fn read_patch(
    alloc: Global,
    body: &[u8],
    accepts_incomplete: bool,
) -> Result<Update, UpdateRefusal>
    ensures ok { IfOk result (λ update. patches.update_in accepts_incomplete body.now ≡ Ok update) }
    ensures err { IfErr result (λ fault. (fault ≡ UpdateRefusal.Refused Refusal.Memory)
        ⊎ (patches.update_in accepts_incomplete body.now ≡ Err fault)) }
{
    let mut scratch = Scratch::new(alloc);
    let Ok(value) = read_json(alloc, body, &mut scratch) else {
        return Err(UpdateRefusal::Refused(Refusal::Memory));
    };
    match &value {
        Some(value) if is_object(value) => update_of(alloc, body, value, accepts_incomplete),
        _ => Err(UpdateRefusal::Refused(Refusal::NotAnObject)),
    }
}

/// The text under a name in a body that is an object.
///
/// # Errors
///
/// [`Memory`] if an allocation failed. The same call may be made again.
pub(crate) fn read_member(alloc: Global, body: &[u8], name: &str) -> Result<Option<String>, Memory>
    ensures text { IfOk result (λ text. option_map string_bytes text ≡ patches.text_in name.now body.now) }
{
    let mut scratch = Scratch::new(alloc);
    let Some(value) = read_json(alloc, body, &mut scratch)? else {
        return Ok(None);
    };
    match text_at(&value, name) {
        Some(text) => Ok(Some(String::from_str(alloc, text)?)),
        None => Ok(None),
    }
}

//! Whether what a catalogue says of updates has the types that it must have.
ghost use Rattle.std.specs.Prelude.{◌≡◌, IfOk, codes};
ghost use Rattle.serde_json.specs.Find.{get};
ghost use Rattle.serde_json.specs.View.{view, items_view};
ghost use Rattle.osb_wire.specs.CatalogueRules.{plans_of};
ghost use Rattle.osb_update_wire.specs.Flags as flags;

use osb_message::Memory;
use osb_wire::json_body::read_value;
use serde_json::Value;
use std::alloc::Global;

// Whether a member is a boolean, if it is there.
fn is_flag(value: &Value, name: &str) -> bool
    ensures flag { result ≡ flags.flag_or_none (get name.now (view value.now)) }
{
    match value.get(name) {
        Some(found) => found.as_bool().is_some(),
        None => true,
    }
}

// Whether a member is an integer from 0 to 2^64 - 1, if it is there.
fn is_count(value: &Value, name: &str) -> bool
    ensures count { result ≡ flags.count_or_none (get name.now (view value.now)) }
{
    match value.get(name) {
        Some(found) => found.as_u64().is_some(),
        None => true,
    }
}

// Whether the members of a plan are.
fn is_plan_sound(plan: &Value) -> bool
    ensures sound { result ≡ flags.is_plan_sound (view plan.now) }
{
    is_flag(plan, "x-osb-asynchronous-updates") && is_count(plan, "maximum_polling_duration")
}

// Whether those of some plans are.
fn are_plans_sound(plans: &Vec<Value>) -> bool
    ensures sound { result ≡ flags.are_plans_sound (items_view plans.now.items) }
{
    for value in plans {
        if !is_plan_sound(value) {
            return false;
        }
    }
    true
}

// Whether those of a service's plans are.
fn is_service_sound(service: &Value) -> bool
    ensures sound { result ≡ flags.are_sound_if (plans_of (view service.now)) }
{
    match service.get("plans").and_then(Value::as_array) {
        Some(plans) => are_plans_sound(plans),
        None => true,
    }
}

// Whether those of some services' plans are.
fn are_services_sound(services: &Vec<Value>) -> bool
    ensures sound { result ≡ flags.are_services_sound (items_view services.now.items) }
{
    for value in services {
        if !is_service_sound(value) {
            return false;
        }
    }
    true
}

// Whether those of a document are.
fn is_document_sound(document: &Value) -> bool
    ensures sound { result ≡ flags.is_document_sound (view document.now) }
{
    if !is_flag(document, "x-osb-updates") {
        return false;
    }
    match document.get("services").and_then(Value::as_array) {
        Some(services) => are_services_sound(services),
        None => true,
    }
}

/// Whether what a catalogue's document says of updates has the types that it must have: `x-osb-updates`, and of each plan
/// `x-osb-asynchronous-updates`, is `true` or `false`, and `maximum_polling_duration` of each plan is an integer from 0 to
/// 2^64 - 1, each if it is there. A broker doesn't start with a document that fails it: [`plan_updates`](crate::plan_updates)
/// would take such a member for one that is missing. [`catalogue_document`](osb_wire::catalogue_document) judges
/// `plan_updateable` and `instances_retrievable`. Section Catalog Management; the members that begin with `x-osb-` are this
/// project's choice.
///
/// # Errors
///
/// [`Memory`] if an allocation failed. The same call may be made again.
pub fn update_flags_are_sound(alloc: Global, document: &[u8]) -> Result<bool, Memory>
    ensures sound { IfOk result (λ sound. sound ≡ flags.are_flags_sound document.now) }
{
    match read_value(alloc, document)? {
        Some(value) => Ok(is_document_sound(&value)),
        None => Ok(true),
    }
}

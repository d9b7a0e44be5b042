//! Whether a request names another version of a plan's maintenance information.
ghost use Rattle.std.specs.Prelude.{◌≡◌, Some, IfOk, option_map, string_bytes};
ghost use Rattle.serde_json.specs.View.{view, items_view};
ghost use Rattle.serde_json.specs.Written.{compact_text};
ghost use Rattle.osb_wire.specs.Bodies.{object_in};
ghost use Rattle.osb_wire.specs.CatalogueRules.{plans_of};
ghost use Rattle.osb_wire.specs.Maintenance as maintenance;

use crate::json_body::{read_object, read_value};
use crate::names::is_id_of;
use osb_json::text_at;
use osb_message::{Id, Memory, PlanId, ServiceId};
use serde_json::Value;
use std::alloc::Global;

/// The status with which a broker answers a request that names another version of a plan's maintenance information.
pub const MAINTENANCE_CONFLICT_STATUS: u16 = 422;

// The version that an object with `maintenance_info` names.
fn version_of(object: &Value) -> Option<&str>
    ensures version { option_map (λ text. text.now) result ≡ maintenance.version_of (view object.now) }
{
    match object.get("maintenance_info") {
        Some(info) => text_at(info, "version"),
        None => None,
    }
}

// Whether the id of a service or of a plan has this number.
fn has_number<K>(value: &Value, id: Id<K>) -> bool
    ensures has { result ≡ maintenance.has_number id (view value.now) }
{
    match text_at(value, "id") {
        Some(text) => is_id_of(text, id),
        None => false,
    }
}

// The first plan of this number.
fn plan_among(plans: &Vec<Value>, plan: PlanId) -> Option<&Value>
    ensures plan { option_map (λ found. view found.now) result
        ≡ maintenance.plan_among plan (items_view plans.now.items) }
{
    for value in plans {
        if has_number(value, plan) {
            return Some(value);
        }
    }
    None
}

// The plan of this number that a service has.
fn plan_in(service: &Value, plan: PlanId) -> Option<&Value>
    ensures plan { option_map (λ found. view found.now) result
        ≡ maintenance.plan_in plan (plans_of (view service.now)) }
{
    match service.get("plans").and_then(Value::as_array) {
        Some(plans) => plan_among(plans, plan),
        None => None,
    }
}

// The plan of this number, of the first service of this number that has one.
fn version_among(services: &Vec<Value>, service: ServiceId, plan: PlanId) -> Option<&str>
    ensures version { option_map (λ text. text.now) result
        ≡ maintenance.version_among service plan (items_view services.now.items) }
{
    for value in services {
        if has_number(value, service) {
            if let Some(found) = plan_in(value, plan) {
                return version_of(found);
            }
        }
    }
    None
}

/// The `maintenance_info.version` that a catalogue's document has of a plan of a service; none where it has none (section
/// Catalog Management).
///
/// # Errors
///
/// [`Memory`] where an allocation failed. The same call may be made again.
pub fn plan_version(
    alloc: Global,
    document: &[u8],
    service: ServiceId,
    plan: PlanId,
) -> Result<Option<String>, Memory>
    ensures version { IfOk result (λ version. option_map string_bytes version
        ≡ maintenance.version_sold service plan document.now) }
{
    let Some(value) = read_value(alloc, document)? else {
        return Ok(None);
    };
    let Some(services) = value.get("services").and_then(Value::as_array) else {
        return Ok(None);
    };
    match version_among(services, service, plan) {
        Some(text) => Ok(Some(String::from_str(alloc, text)?)),
        None => Ok(None),
    }
}

/// Whether the body of a Provision names another `maintenance_info.version` than the one that the catalogue has of the
/// plan. A broker then answers with [`MAINTENANCE_CONFLICT_STATUS`] and [`maintenance_conflict_body`], and nothing has
/// changed. It is false where the plan has no version, and where the request names none that is a string (section
/// Maintenance Info Object).
///
/// # Errors
///
/// [`Memory`] where an allocation failed. The same call may be made again.
pub fn maintenance_conflict(
    alloc: Global,
    version: Option<&str>,
    body: &[u8],
) -> Result<bool, Memory>
    ensures conflict { IfOk result (λ conflict. conflict ≡ maintenance.conflicts
        (option_map (λ text. text.now) version.entry) (maintenance.version_in body.now)) }
{
    let Some(sold) = version else {
        return Ok(false);
    };
    let Some(object) = read_object(alloc, body)? else {
        return Ok(false);
    };
    match version_of(&object) {
        Some(named) => Ok(named != sold),
        None => Ok(false),
    }
}

/// The body of the answer to a request that names another version: an object with the error `MaintenanceInfoConflict` and a
/// description. It takes no memory.
pub fn maintenance_conflict_body() -> &'static str
    ensures text { result.now ≡ compact_text maintenance.conflict_value }
    ensures reads { object_in result.now ≡ Some maintenance.conflict_value }
{
    "{\"description\":\"The plan has another maintenance_info.version.\",\"error\":\"MaintenanceInfoConflict\"}"
}

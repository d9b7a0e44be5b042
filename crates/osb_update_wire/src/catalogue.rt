//! What a catalogue says of the updates of its plans.
ghost use Rattle.std.specs.Prelude.{◌≡◌, IfOk, option_map, string_bytes};
ghost use Rattle.serde_json.specs.View.{view, items_view};
ghost use Rattle.osb_wire.specs.CatalogueRules.{plans_of};
ghost use Rattle.osb_wire.specs.Maintenance as maintenance;
ghost use Rattle.osb_update_wire.specs.Catalogues as catalogues;

use crate::fetched::owned;
use osb_instance::Rejection;
use osb_json::{flag_at, number_at, text_at};
use osb_message::{Id, Memory, Mode, PlanId, ServiceId};
use osb_update::Allowed;
use osb_wire::json_body::read_value;
use osb_wire::names::is_id_of;
use serde_json::Value;
use std::alloc::Global;

/// What a catalogue says of a plan's updates (section Catalog Management).
#[derive(Drop)]
pub struct PlanUpdates {
    /// Whether an instance of the plan can be changed to another plan (`plan_updateable`): as the plan says, or else its
    /// service.
    pub updateable: bool,
    /// Whether instances of the service can be fetched (`instances_retrievable`).
    pub retrievable: bool,
    /// Whether updates to the plan are asynchronous (`x-osb-asynchronous-updates`, this project's choice), if the plan says
    /// so.
    pub asynchronous: Option<bool>,
    /// The version of the plan's maintenance (`maintenance_info`).
    pub version: Option<String>,
    /// The longest time of polling in seconds (`maximum_polling_duration`).
    pub longest_poll: Option<u64>,
}

// Whether the id of a service or of a plan has this number.
fn has_number<K>(value: &Value, id: Id<K>) -> bool
    ensures has { result ≡ maintenance.has_number id (view value.now) }
{
    match text_at(value, "id") {
        Some(text) => is_id_of(text, id),
        None => false,
    }
}

// The first plan of this number.
fn plan_among(plans: &Vec<Value>, plan: PlanId) -> Option<&Value>
    ensures plan { option_map (λ found. view found.now) result
        ≡ maintenance.plan_among plan (items_view plans.now.items) }
{
    for value in plans {
        if has_number(value, plan) {
            return Some(value);
        }
    }
    None
}

// The plan of this number that a service has.
fn plan_in(service: &Value, plan: PlanId) -> Option<&Value>
    ensures plan { option_map (λ found. view found.now) result
        ≡ maintenance.plan_in plan (plans_of (view service.now)) }
{
    match service.get("plans").and_then(Value::as_array) {
        Some(plans) => plan_among(plans, plan),
        None => None,
    }
}

// The first plan of this number, of the first service of this number that has one, beside its service.
fn sold_among(services: &Vec<Value>, service: ServiceId, plan: PlanId) -> Option<(&Value, &Value)>
    ensures sold { option_map (λ sold. (view sold.0.now, view sold.1.now)) result
        ≡ catalogues.sold_among service plan (items_view services.now.items) }
{
    for value in services {
        if has_number(value, service) {
            if let Some(found) = plan_in(value, plan) {
                return Some((value, found));
            }
        }
    }
    None
}

// A flag that is missing, or has another type, is `false`.
fn says(value: &Value, name: &str) -> bool
    ensures says { result ≡ catalogues.says name.now (view value.now) }
{
    flag_at(value, name).unwrap_or(false)
}

// Whether the plan can be changed.
fn updateable(service: &Value, plan: &Value) -> bool
    ensures updateable { result ≡ catalogues.updateable (view service.now, view plan.now) }
{
    match flag_at(plan, "plan_updateable") {
        Some(says) => says,
        None => says(service, "plan_updateable"),
    }
}

// The version of a plan's maintenance.
fn version_of(plan: &Value) -> Option<&str>
    ensures version { option_map (λ text. text.now) result ≡ maintenance.version_of (view plan.now) }
{
    match plan.get("maintenance_info") {
        Some(info) => text_at(info, "version"),
        None => None,
    }
}

// What is said of a plan of a service.
fn updates_of(alloc: Global, service: &Value, plan: &Value) -> Result<PlanUpdates, Memory>
    ensures said { IfOk result (λ of. catalogues.IsSaidOf of (view service.now, view plan.now)) }
{
    Ok(PlanUpdates {
        updateable: updateable(service, plan),
        retrievable: says(service, "instances_retrievable"),
        asynchronous: flag_at(plan, "x-osb-asynchronous-updates"),
        version: owned(alloc, version_of(plan))?,
        longest_poll: number_at(plan, "maximum_polling_duration"),
    })
}

/// What a catalogue's document says of the updates of a plan of a service; none if it doesn't sell the plan. A flag of
/// another type than `true` and `false` counts as missing, as does a duration that is no integer below 2^64:
/// [`catalogue_document`](osb_wire::catalogue_document) rejects such flags of the standard. Of a service or a plan that
/// stands twice the first counts. Section Catalog Management.
///
/// # Errors
///
/// [`Memory`] if an allocation failed. The same call may be made again.
pub fn plan_updates(
    alloc: Global,
    document: &[u8],
    service: ServiceId,
    plan: PlanId,
) -> Result<Option<PlanUpdates>, Memory>
    ensures said { IfOk result (λ of. catalogues.IsSaidIf of (catalogues.sold_in service plan document.now)) }
{
    let Some(value) = read_value(alloc, document)? else {
        return Ok(None);
    };
    let Some(services) = value.get("services").and_then(Value::as_array) else {
        return Ok(None);
    };
    match sold_among(services, service, plan) {
        Some((service, plan)) => Ok(Some(updates_of(alloc, service, plan)?)),
        None => Ok(None),
    }
}

/// Whether a catalogue's document says by `x-osb-updates` that its broker orders Updates by their numbers (this project's
/// choice): `false` if it doesn't say so. To such a broker a platform sends numbers.
///
/// # Errors
///
/// [`Memory`] if an allocation failed. The same call may be made again.
pub fn numbers_updates(alloc: Global, document: &[u8]) -> Result<bool, Memory>
    ensures numbers { IfOk result (λ found. found ≡ catalogues.numbers_updates_in document.now) }
{
    match read_value(alloc, document)? {
        Some(value) => Ok(says(&value, "x-osb-updates")),
        None => Ok(false),
    }
}

// How the updates to a plan work.
fn mode_by(asynchronous: Option<bool>, otherwise: Mode) -> Mode
    ensures mode { result ≡ catalogues.mode_by asynchronous otherwise }
{
    match asynchronous {
        Some(true) => Mode::Async,
        Some(false) => Mode::Sync,
        None => otherwise,
    }
}

// Whether a plan has a version, and an Update names another.
fn conflicts(sold: &Option<String>, named: Option<&str>) -> bool
    ensures conflicts { result ≡ maintenance.conflicts (option_map string_bytes sold.now)
        (option_map (λ text. text.now) named.entry) }
{
    match (sold, named) {
        (Some(sold), Some(named)) => named != sold.as_str(),
        _ => false,
    }
}

// Whether an instance may leave its plan.
fn may_leave(held: Option<&PlanUpdates>) -> bool
    ensures may { result ≡ catalogues.may_leave (option_map (λ held. held.now) held.entry) }
{
    match held {
        Some(held) => held.updateable,
        None => false,
    }
}

/// Whether the catalogue lets an Update be done, as [`UpdateHolding::begin`](osb_update::UpdateHolding::begin) asks for it,
/// by what [`plan_updates`] returns of the plan that the instance has and of the plan that is asked for, by whether these
/// are two plans, and by the version that the Update names. `otherwise` is the mode of the plan that is asked for. The first
/// of these that fits counts. It takes no memory. Sections Updating a Service Instance and Maintenance Info Object.
///
/// - The plan that is asked for isn't sold: [`Rejection::BadRequest`].
/// - The plan changes, and that of the instance isn't `plan_updateable` or isn't sold any more:
///   [`Rejection::UnprocessableEntity`].
/// - The plan that is asked for has a version, and the Update names another: [`Allowed::MaintenanceInfoConflict`].
/// - Otherwise the mode: `x-osb-asynchronous-updates` of the plan, or else `otherwise`.
pub fn update_allowed(
    held: Option<&PlanUpdates>,
    asked: Option<&PlanUpdates>,
    leaves: bool,
    version: Option<&str>,
    otherwise: Mode,
) -> Allowed
    ensures allowed { result ≡ catalogues.allowed (option_map (λ held. held.now) held.entry)
        (option_map (λ asked. asked.now) asked.entry) leaves (option_map (λ text. text.now) version.entry) otherwise }
{
    let Some(asked) = asked else {
        return Allowed::Rejected(Rejection::BadRequest);
    };
    if leaves && !may_leave(held) {
        return Allowed::Rejected(Rejection::UnprocessableEntity);
    }
    if conflicts(&asked.version, version) {
        return Allowed::MaintenanceInfoConflict;
    }
    Allowed::Mode(mode_by(asked.asynchronous, otherwise))
}

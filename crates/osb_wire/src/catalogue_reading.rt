//! The catalogue that a document names.
ghost use Rattle.std.specs.Prelude.{◌≡◌, ◌⊎◌, Ok, Err, OnOk, IfOk, IfErr, option_map};
ghost use Rattle.serde_json.specs.View.{view, items_view};
ghost use Rattle.osb_wire.specs.CatalogueDocuments as documents;

use crate::id_texts::id_of_text;
use crate::json_body::read_value;
use osb_json::text_at;
use osb_message::{AddFault, Catalogue, Id, Mode, ServiceId};
use serde_json::Value;
use std::alloc::Global;
use thiserror::Error;

/// Why a document names no catalogue.
#[derive(Clone, Copy, Debug, PartialEq, Eq, Hash, Error)]
pub enum CatalogueFault {
    /// It isn't UTF-8, or isn't JSON.
    #[error("the document must be JSON")]
    NotJson,
    /// It has no list `services`.
    #[error("the document must have a list of services")]
    NoServices,
    /// The `id` of a service is missing, no string, empty or longer than 255 bytes.
    #[error("the id of a service must be a string of 1 to 255 bytes")]
    BadService,
    /// A service has no list `plans`.
    #[error("a service must have a list of plans")]
    NoPlans,
    /// The `id` of a plan is missing, no string, empty or longer than 255 bytes.
    #[error("the id of a plan must be a string of 1 to 255 bytes")]
    BadPlan,
    /// `x-osb-asynchronous` of a plan, or `asynchronous` where it lacks that, is neither `true` nor `false`.
    #[error("x-osb-asynchronous must be true or false")]
    BadMode,
    /// A plan of a service stands twice.
    #[error("a plan of a service stands twice")]
    Repeated,
    /// An allocation failed.
    #[error("no memory left")]
    Memory,
}

// How a plan works.
fn mode_of(plan: &Value) -> Result<Mode, CatalogueFault>
    ensures mode { result ≡ documents.mode_of (view plan.now) }
{
    let own = plan.get("x-osb-asynchronous");
    let Some(value) = own.or(plan.get("asynchronous")) else {
        return Ok(Mode::Sync);
    };
    match value.as_bool() {
        Some(true) => Ok(Mode::Async),
        Some(false) => Ok(Mode::Sync),
        None => Err(CatalogueFault::BadMode),
    }
}

/// The id of a service or of a plan.
///
/// # Errors
///
/// The fault that is given, where `id` is no text of an id.
pub fn own_id<K>(object: &Value, fault: CatalogueFault) -> Result<Id<K>, CatalogueFault>
    ensures id { result ≡ documents.own_id fault (view object.now) }
{
    let Some(text) = text_at(object, "id") else {
        return Err(fault);
    };
    match id_of_text(text) {
        Some(id) => Ok(id),
        None => Err(fault),
    }
}

/// The list that stands under a name.
///
/// # Errors
///
/// The fault that is given, where there is none.
pub fn list_at<'v>(
    object: &'v Value,
    name: &str,
    fault: CatalogueFault,
) -> Result<&'v Vec<Value>, CatalogueFault>
    ensures ok { IfOk result (λ list. documents.list_at fault name.now (view object.now)
        ≡ Ok (items_view list.now.items)) }
    ensures err { IfErr result (λ first. documents.list_at fault name.now (view object.now) ≡ Err first) }
{
    match object.get(name).and_then(Value::as_array) {
        Some(list) => Ok(list),
        None => Err(fault),
    }
}

// Adds a plan of a service.
fn add_plan(
    catalogue: &mut Catalogue,
    service: ServiceId,
    plan: &Value,
) -> Result<(), CatalogueFault>
    ensures ok { OnOk result (documents.with_plan service catalogue.old (view plan.now) ≡ Ok catalogue.new) }
    ensures err { IfErr result (λ fault. (fault ≡ CatalogueFault.Memory)
        ⊎ (documents.with_plan service catalogue.old (view plan.now) ≡ Err fault)) }
{
    let id = match own_id(plan, CatalogueFault::BadPlan) {
        Ok(id) => id,
        Err(fault) => return Err(fault),
    };
    let mode = match mode_of(plan) {
        Ok(mode) => mode,
        Err(fault) => return Err(fault),
    };
    match catalogue.add(service, id, mode) {
        Ok(()) => Ok(()),
        Err(AddFault::AlreadyThere) => Err(CatalogueFault::Repeated),
        Err(AddFault::Memory) => Err(CatalogueFault::Memory),
    }
}

// Adds the plans of a service.
fn add_plans(
    catalogue: &mut Catalogue,
    service: ServiceId,
    plans: &Vec<Value>,
) -> Result<(), CatalogueFault>
    ensures ok { OnOk result (documents.with_plans service (items_view plans.now.items) catalogue.old
        ≡ Ok catalogue.new) }
    ensures err { IfErr result (λ fault. (fault ≡ CatalogueFault.Memory)
        ⊎ (documents.with_plans service (items_view plans.now.items) catalogue.old ≡ Err fault)) }
{
    for plan in plans {
        match add_plan(catalogue, service, plan) {
            Ok(()) => {}
            Err(fault) => return Err(fault),
        }
    }
    Ok(())
}

// Adds a service.
fn add_service(catalogue: &mut Catalogue, service: &Value) -> Result<(), CatalogueFault>
    ensures ok { OnOk result (documents.with_service catalogue.old (view service.now) ≡ Ok catalogue.new) }
    ensures err { IfErr result (λ fault. (fault ≡ CatalogueFault.Memory)
        ⊎ (documents.with_service catalogue.old (view service.now) ≡ Err fault)) }
{
    let id = match own_id(service, CatalogueFault::BadService) {
        Ok(id) => id,
        Err(fault) => return Err(fault),
    };
    match list_at(service, "plans", CatalogueFault::NoPlans) {
        Ok(plans) => add_plans(catalogue, id, plans),
        Err(fault) => Err(fault),
    }
}

// Adds services.
fn add_services(catalogue: &mut Catalogue, services: &Vec<Value>) -> Result<(), CatalogueFault>
    ensures ok { OnOk result (documents.with_services (items_view services.now.items) catalogue.old
        ≡ Ok catalogue.new) }
    ensures err { IfErr result (λ fault. (fault ≡ CatalogueFault.Memory)
        ⊎ (documents.with_services (items_view services.now.items) catalogue.old ≡ Err fault)) }
{
    for service in services {
        match add_service(catalogue, service) {
            Ok(()) => {}
            Err(fault) => return Err(fault),
        }
    }
    Ok(())
}

/// The plans that a document names, as a broker answers it to `GET /v2/catalog` (section Catalog
/// Management): an object with a list `services`, each an object with its `id` and a list `plans`, each an
/// object with its `id`. A plan whose member `x-osb-asynchronous` is `true` makes and deletes its instances
/// asynchronously, one where it is `false` or missing synchronously: that member is this project's choice, since
/// the standard has none, and platforms pass it over. `asynchronous` is read where it is missing. All other members are
/// passed over here, and [`catalogue_document`](crate::catalogue_document) judges them; of a member
/// that stands twice the last counts. A service may stand twice, and its plans are taken together; one plan
/// may stand in two services; a list may be empty: this project's choice, where the standard is narrower.
///
/// # Errors
///
/// The first fault: [`CatalogueFault::NotJson`], [`CatalogueFault::NoServices`], and then of the services in
/// their order, of each its `id`, its list, and of its plans in their order each one's `id`, `x-osb-asynchronous`,
/// and [`CatalogueFault::Repeated`]. [`CatalogueFault::Memory`] where an allocation failed; the same call may
/// be made again.
pub fn catalogue_plans(alloc: Global, text: &[u8]) -> Result<Catalogue, CatalogueFault>
    ensures ok { IfOk result (λ catalogue. documents.catalogue_in text.now ≡ Ok catalogue) }
    ensures err { IfErr result (λ fault. (fault ≡ CatalogueFault.Memory)
        ⊎ (documents.catalogue_in text.now ≡ Err fault)) }
{
    let Ok(value) = read_value(alloc, text) else {
        return Err(CatalogueFault::Memory);
    };
    let Some(document) = value else {
        return Err(CatalogueFault::NotJson);
    };
    let services = match list_at(&document, "services", CatalogueFault::NoServices) {
        Ok(services) => services,
        Err(fault) => return Err(fault),
    };
    let mut catalogue = Catalogue::new(alloc);
    match add_services(&mut catalogue, services) {
        Ok(()) => Ok(catalogue),
        Err(fault) => Err(fault),
    }
}

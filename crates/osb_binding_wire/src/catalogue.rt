//! How each plan of a catalogue binds.
ghost use Rattle.std.specs.Prelude.{◌≡◌, ◌⊎◌, Ok, Err, OnOk, IfOk, IfErr, option_map};
ghost use Rattle.serde_json.specs.View.{view, items_view};
ghost use Rattle.osb_binding_wire.specs.Modes as modes;

use osb_message::{AddFault, Catalogue, Mode, ServiceId};
use osb_wire::CatalogueFault;
use osb_wire::catalogue_reading::{list_at, own_id};
use osb_wire::json_body::read_value;
use serde_json::Value;
use std::alloc::Global;
use thiserror::Error;

/// Why a document doesn't say how its plans bind.
#[derive(Clone, Copy, Debug, PartialEq, Eq, Hash, Error)]
pub enum BindingModeFault {
    /// It names no plans, or one that can't be read.
    #[error("{0}")]
    Plans(CatalogueFault),
    /// A flag is neither `true` nor `false`.
    #[error("bindable, bindings_retrievable and x-osb-asynchronous-bindings must be true or false")]
    NotABoolean,
    /// A plan is bindable and binds asynchronously, and its service isn't `bindings_retrievable`.
    #[error("a service with asynchronous bindings must be bindings_retrievable")]
    NotRetrievable,
}

// What a service says of the bindings of its plans.
#[derive(Clone, Copy)]
struct Service {
    id: ServiceId,
    bindable: bool,
    asynchronous: bool,
    retrievable: bool,
}

// A flag that may be missing, and is then this one.
fn flag_or(value: &Value, name: &str, otherwise: bool) -> Result<bool, BindingModeFault>
    ensures flag { result ≡ modes.flag_or otherwise name.now (view value.now) }
{
    let Some(flag) = value.get(name) else {
        return Ok(otherwise);
    };
    match flag.as_bool() {
        Some(says) => Ok(says),
        None => Err(BindingModeFault::NotABoolean),
    }
}

// How a plan of a service binds, by its own flags.
fn mode_by(
    retrievable: bool,
    bindable: bool,
    asynchronous: bool,
) -> Result<Option<Mode>, BindingModeFault>
    ensures mode { result ≡ modes.mode_by retrievable bindable asynchronous }
{
    match (bindable, asynchronous, retrievable) {
        (false, _, _) => Ok(None),
        (true, false, _) => Ok(Some(Mode::Sync)),
        (true, true, true) => Ok(Some(Mode::Async)),
        (true, true, false) => Err(BindingModeFault::NotRetrievable),
    }
}

// How a plan of a service binds.
fn mode_of(service: &Service, plan: &Value) -> Result<Option<Mode>, BindingModeFault>
    ensures mode { result ≡ modes.mode_of service.now (view plan.now) }
{
    let bindable = match flag_or(plan, "bindable", service.bindable) {
        Ok(bindable) => bindable,
        Err(fault) => return Err(fault),
    };
    match flag_or(plan, "x-osb-asynchronous-bindings", service.asynchronous) {
        Ok(asynchronous) => mode_by(service.retrievable, bindable, asynchronous),
        Err(fault) => Err(fault),
    }
}

// What a service says of the bindings of its plans.
fn service_of(value: &Value) -> Result<Service, BindingModeFault>
    ensures service { result ≡ modes.service_of (view value.now) }
{
    let id = match own_id(value, CatalogueFault::BadService) {
        Ok(id) => id,
        Err(fault) => return Err(BindingModeFault::Plans(fault)),
    };
    let bindable = match flag_or(value, "bindable", false) {
        Ok(bindable) => bindable,
        Err(fault) => return Err(fault),
    };
    let asynchronous = match flag_or(value, "x-osb-asynchronous-bindings", false) {
        Ok(asynchronous) => asynchronous,
        Err(fault) => return Err(fault),
    };
    match flag_or(value, "bindings_retrievable", false) {
        Ok(retrievable) => Ok(Service {
            id,
            bindable,
            asynchronous,
            retrievable,
        }),
        Err(fault) => Err(fault),
    }
}

// Adds a plan of a service, where it is bindable.
fn add_plan(
    catalogue: &mut Catalogue,
    service: &Service,
    plan: &Value,
) -> Result<(), BindingModeFault>
    ensures ok { OnOk result (modes.with_plan service.now catalogue.old (view plan.now) ≡ Ok catalogue.new) }
    ensures err { IfErr result (λ fault. (fault ≡ BindingModeFault.Plans CatalogueFault.Memory)
        ⊎ (modes.with_plan service.now catalogue.old (view plan.now) ≡ Err fault)) }
{
    let id = match own_id(plan, CatalogueFault::BadPlan) {
        Ok(id) => id,
        Err(fault) => return Err(BindingModeFault::Plans(fault)),
    };
    let mode = match mode_of(service, plan) {
        Ok(Some(mode)) => mode,
        Ok(None) => return Ok(()),
        Err(fault) => return Err(fault),
    };
    match catalogue.add(service.id, id, mode) {
        Ok(()) => Ok(()),
        Err(AddFault::AlreadyThere) => Err(BindingModeFault::Plans(CatalogueFault::Repeated)),
        Err(AddFault::Memory) => Err(BindingModeFault::Plans(CatalogueFault::Memory)),
    }
}

// Adds the plans of a service.
fn add_plans(
    catalogue: &mut Catalogue,
    service: &Service,
    plans: &Vec<Value>,
) -> Result<(), BindingModeFault>
    ensures ok { OnOk result (modes.with_plans service.now (items_view plans.now.items) catalogue.old
        ≡ Ok catalogue.new) }
    ensures err { IfErr result (λ fault. (fault ≡ BindingModeFault.Plans CatalogueFault.Memory)
        ⊎ (modes.with_plans service.now (items_view plans.now.items) catalogue.old ≡ Err fault)) }
{
    for plan in plans {
        match add_plan(catalogue, service, plan) {
            Ok(()) => {}
            Err(fault) => return Err(fault),
        }
    }
    Ok(())
}

// Adds a service.
fn add_service(catalogue: &mut Catalogue, value: &Value) -> Result<(), BindingModeFault>
    ensures ok { OnOk result (modes.with_service catalogue.old (view value.now) ≡ Ok catalogue.new) }
    ensures err { IfErr result (λ fault. (fault ≡ BindingModeFault.Plans CatalogueFault.Memory)
        ⊎ (modes.with_service catalogue.old (view value.now) ≡ Err fault)) }
{
    let service = match service_of(value) {
        Ok(service) => service,
        Err(fault) => return Err(fault),
    };
    match list_at(value, "plans", CatalogueFault::NoPlans) {
        Ok(plans) => add_plans(catalogue, &service, plans),
        Err(fault) => Err(BindingModeFault::Plans(fault)),
    }
}

// Adds services.
fn add_services(catalogue: &mut Catalogue, services: &Vec<Value>) -> Result<(), BindingModeFault>
    ensures ok { OnOk result (modes.with_services (items_view services.now.items) catalogue.old
        ≡ Ok catalogue.new) }
    ensures err { IfErr result (λ fault. (fault ≡ BindingModeFault.Plans CatalogueFault.Memory)
        ⊎ (modes.with_services (items_view services.now.items) catalogue.old ≡ Err fault)) }
{
    for service in services {
        match add_service(catalogue, service) {
            Ok(()) => {}
            Err(fault) => return Err(fault),
        }
    }
    Ok(())
}

/// How the plans that a document names bind (section Catalog Management), as a catalogue of its own: a plan that isn't
/// bindable isn't in it, and each other one binds synchronously or asynchronously.
///
/// A plan is bindable by its own `bindable`, or else by that of its service. It binds asynchronously where its own
/// `x-osb-asynchronous-bindings` is `true`, or else that of its service: that member is this project's choice, since the
/// standard has none, and platforms pass it over. A flag that is missing in both is `false`. The service then has to be
/// `bindings_retrievable`, since the credentials can be had by a Fetch alone. The document is read as
/// [`catalogue_plans`](osb_wire::catalogue_plans) reads it, and [`catalogue_document`](osb_wire::catalogue_document)
/// judges its other members.
///
/// # Errors
///
/// The first fault: [`CatalogueFault::NotJson`], [`CatalogueFault::NoServices`], and then of the services in their order,
/// of each its `id`, [`BindingModeFault::NotABoolean`] for its three flags, its list, and of its plans in their order each
/// one's `id`, [`BindingModeFault::NotABoolean`] for its two flags, [`BindingModeFault::NotRetrievable`], and
/// [`CatalogueFault::Repeated`]. [`CatalogueFault::Memory`] where an allocation failed; the same call may be made again.
/// Each [`CatalogueFault`] stands in a [`BindingModeFault::Plans`].
pub fn binding_modes(alloc: Global, text: &[u8]) -> Result<Catalogue, BindingModeFault>
    ensures ok { IfOk result (λ catalogue. modes.modes_in text.now ≡ Ok catalogue) }
    ensures err { IfErr result (λ fault. (fault ≡ BindingModeFault.Plans CatalogueFault.Memory)
        ⊎ (modes.modes_in text.now ≡ Err fault)) }
{
    let Ok(value) = read_value(alloc, text) else {
        return Err(BindingModeFault::Plans(CatalogueFault::Memory));
    };
    let Some(document) = value else {
        return Err(BindingModeFault::Plans(CatalogueFault::NotJson));
    };
    let services = match list_at(&document, "services", CatalogueFault::NoServices) {
        Ok(services) => services,
        Err(fault) => return Err(BindingModeFault::Plans(fault)),
    };
    let mut catalogue = Catalogue::new(alloc);
    match add_services(&mut catalogue, services) {
        Ok(()) => Ok(catalogue),
        Err(fault) => Err(fault),
    }
}

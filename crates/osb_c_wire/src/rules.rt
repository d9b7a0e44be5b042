//! Whether the catalogue of a document can be kept.
ghost use Rattle.std.specs.Prelude.{◌≡◌, [], ◌∷◌, Err, IsTrue, IsOk};
ghost use Rattle.osb_wire.specs.SoldDocuments as sold;
ghost use Rattle.osb_c_types.specs.Status.{code, is_one_of};
ghost use Rattle.osb_c_wire.specs.Rules as rules;

use crate::catalogues::plans_status;
use osb_c_types::Status;
use osb_wire::{DocumentFault, Endpoints, RuleFault, catalogue_document};
use std::alloc::Global;

/// The endpoints that a broker serves besides those of Provision, Deprovision and Poll.
#[repr(C)]
#[derive(Clone, Copy)]
pub struct OsbEndpoints {
    /// Updating a Service Instance, which `plan_updateable` promises.
    pub updating: bool,
    /// Binding and unbinding, which `bindable` promises.
    pub bindings: bool,
    /// Fetching a Service Instance, which `instances_retrievable` promises.
    pub fetching_instances: bool,
    /// Fetching a Service Binding, which `bindings_retrievable` promises.
    pub fetching_bindings: bool,
}

// The endpoints that crossed.
fn endpoints_from(serves: &OsbEndpoints) -> Endpoints
    ensures endpoints { result ≡ rules.endpoints_of serves.now }
{
    Endpoints {
        updating: serves.updating,
        bindings: serves.bindings,
        fetching_instances: serves.fetching_instances,
        fetching_bindings: serves.fetching_bindings,
    }
}

// The rule that a document breaks, as a status.
fn rule_status(fault: RuleFault) -> Status
    ensures status { result ≡ rules.rule_status fault }
{
    match fault {
        RuleFault::NoName => Status::NoName,
        RuleFault::NameTwice => Status::NameTwice,
        RuleFault::NoDescription => Status::NoDescription,
        RuleFault::NotABoolean => Status::NotABoolean,
        RuleFault::NoBindable => Status::NoBindable,
        RuleFault::NoPlan => Status::NoPlan,
        RuleFault::Bindable => Status::BindableUnserved,
        RuleFault::PlanUpdateable => Status::UpdateUnserved,
        RuleFault::InstancesRetrievable => Status::InstancesUnserved,
        RuleFault::BindingsRetrievable => Status::BindingsUnserved,
        RuleFault::SameNumber => Status::SameNumber,
        RuleFault::Memory => Status::Memory,
    }
}

// Why a document's catalogue can't be kept, as a status.
fn fault_status(fault: DocumentFault) -> Status
    ensures status { result ≡ rules.fault_status fault }
{
    match fault {
        DocumentFault::Plans(fault) => plans_status(fault),
        DocumentFault::Rule(fault) => rule_status(fault),
    }
}

/// Judges whether the catalogue of a document can be kept, given the endpoints that the broker serves:
/// [`osb_wire::catalogue_document`] has the rules (section Catalog Management). What
/// [`osb_catalogue_plans`](crate::catalogues::osb_catalogue_plans) reads of its plans comes first.
///
/// It returns `Done`; the first fault of the plans, one of `NotJson` to `PlanTwice`; else the first fault of the services
/// in their order, one of `NoName` to `BindingsUnserved`: of each its name, its description, its flags, and then of each
/// of its plans the same; else `SameNumber` where two different texts of the services' ids, or of the plans', have one
/// number; or, in place of any of these, `Memory` where an allocation failed.
#[unsafe(no_mangle)]
pub extern "C" fn osb_catalogue_check(alloc: Global, document: &[u8], serves: &OsbEndpoints) -> u32
    ensures sold { result ≡ code Status.Done
        → IsOk (sold.sold_in (rules.endpoints_of serves.now) document.now) }
    ensures injective { result ≡ code Status.Done → sold.AreInjective (sold.service_texts_in document.now)
        × sold.AreInjective (sold.plan_texts_in document.now) }

    ensures faults { (fault : DocumentFault) → ¬ (sold.IsMemory fault) → result ≡ code (rules.fault_status fault)
        → sold.sold_in (rules.endpoints_of serves.now) document.now ≡ Err fault }
    ensures statuses { IsTrue (is_one_of (Status.Done ∷ Status.NotJson ∷ Status.NoServices ∷ Status.BadService
        ∷ Status.NoPlans ∷ Status.BadPlan ∷ Status.BadPlanMode ∷ Status.PlanTwice ∷ Status.NoName ∷ Status.NameTwice
        ∷ Status.NoDescription ∷ Status.NotABoolean ∷ Status.NoBindable ∷ Status.NoPlan ∷ Status.BindableUnserved
        ∷ Status.UpdateUnserved ∷ Status.InstancesUnserved ∷ Status.BindingsUnserved ∷ Status.SameNumber
        ∷ Status.Memory ∷ []) result) }
{
    match catalogue_document(alloc, document, endpoints_from(serves)) {
        Ok(_) => Status::Done.code(),
        Err(fault) => fault_status(fault).code(),
    }
}

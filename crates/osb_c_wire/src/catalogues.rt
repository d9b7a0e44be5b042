//! The plans that a catalogue's document names.
ghost use Rattle.std.specs.Prelude.{◌≡◌, ◌≢◌, ◌↔◌, ◌⊎◌, ◌<◌, [], ◌∷◌, Err, IfOk, IsOkAnd, IsTrue};
ghost use Rattle.std.specs.Prelude.{length, take, drop, map as each};
ghost use Rattle.std.specs.FinMap as map;
ghost use Rattle.std.specs.List.Sorted.{IsStrictlySortedBy};
ghost use Rattle.osb_message.specs.Catalogue.{pair_cmp};
ghost use Rattle.osb_wire.specs.CatalogueDocuments.{catalogue_in};
ghost use Rattle.osb_c_types.specs.Plans.{pair_of, plan_of};
ghost use Rattle.osb_c_types.specs.Status.{code, is_one_of};
ghost use Rattle.osb_c_wire.specs.Catalogues.{document_status};

use osb_c_types::{OsbPlan, Status, plan_out};
use osb_message::{Catalogue, Memory};
use osb_wire::{CatalogueFault, catalogue_plans};
use std::alloc::Global;

/// Why a document names no catalogue, as a status.
pub fn plans_status(fault: CatalogueFault) -> Status
    ensures status { result ≡ document_status fault }
{
    match fault {
        CatalogueFault::NotJson => Status::NotJson,
        CatalogueFault::NoServices => Status::NoServices,
        CatalogueFault::BadService => Status::BadService,
        CatalogueFault::NoPlans => Status::NoPlans,
        CatalogueFault::BadPlan => Status::BadPlan,
        CatalogueFault::BadMode => Status::BadPlanMode,
        CatalogueFault::Repeated => Status::PlanTwice,
        CatalogueFault::Memory => Status::Memory,
    }
}

/// The plans of a catalogue, as they cross.
pub fn list_plans(alloc: Global, catalogue: &Catalogue) -> Result<Vec<OsbPlan>, Memory>
    ensures plans { IfOk result (λ list. each plan_of list.items ≡ map.entries catalogue.now) }
    ensures ascending { IfOk result (λ list. IsStrictlySortedBy pair_cmp (each pair_of list.items)) }
{
    let mut list = Vec::new(alloc);
    for (pair, mode) in catalogue.plans() {
        list.push(plan_out(pair.0, pair.1, *mode))?;
    }
    Ok(list)
}

/// Writes plans at the front of a list, if it has as many places.
pub fn write_plans(list: &Vec<OsbPlan>, plans: &mut [OsbPlan]) -> Status
    ensures done { result ≡ Status.Done → take (length list.now.items) plans.new ≡ list.now.items }
    ensures rest { drop (length list.now.items) plans.new ≡ drop (length list.now.items) plans.old }
    ensures too_small { (result ≡ Status.TooSmall) ↔ (length plans.old < length list.now.items) }
    ensures statuses { (result ≡ Status.Done) ⊎ (result ≡ Status.TooSmall) }
    ensures unwritten { result ≢ Status.Done → plans.new ≡ plans.old }
{
    if plans.len() < list.len() {
        return Status::TooSmall;
    }
    plans[..list.len()].copy_from_slice(list);
    Status::Done
}

/// Reads the plans that a catalogue's document names, as a broker answers it to `GET /v2/catalog` (section Catalog
/// Management); a plan is asynchronous where its member `asynchronous` is true (this project's choice). They go to the
/// front of `plans`, in ascending order of service and plan, and how many they are to `needed`; the rest of `plans` is
/// as before.
///
/// It returns `Done`; `NotJson` where the document isn't UTF-8 or isn't JSON; `NoServices` where it has no list
/// `services`; the first of `BadService`, `NoPlans`, `BadPlan`, `BadPlanMode` and `PlanTwice` in the document's order;
/// `TooSmall` where there are fewer places than `needed`, a number that is written all the same; or, in place of any
/// of these, `Memory` where an allocation failed. Where it isn't `Done`, the places are as before, and where it is
/// neither that nor `TooSmall`, `needed` too.
#[unsafe(no_mangle)]
pub extern "C" fn osb_catalogue_plans(
    alloc: Global,
    document: &[u8],
    plans: &mut [OsbPlan],
    needed: &mut usize,
) -> u32
    ensures plans { result ≡ code Status.Done → IsOkAnd (catalogue_in document.now) (λ sold.
        (needed.new ≡ length (map.entries sold)) × (each plan_of (take needed.new plans.new) ≡ map.entries sold)) }
    ensures ascending { result ≡ code Status.Done
        → IsStrictlySortedBy pair_cmp (each pair_of (take needed.new plans.new)) }
    ensures rest { result ≡ code Status.Done → drop needed.new plans.new ≡ drop needed.new plans.old }

    ensures faults { (fault : CatalogueFault) → fault ≢ CatalogueFault.Memory
        → result ≡ code (document_status fault) → catalogue_in document.now ≡ Err fault }
    ensures too_small { result ≡ code Status.TooSmall → IsOkAnd (catalogue_in document.now) (λ sold.
        (needed.new ≡ length (map.entries sold)) × (length plans.old < needed.new)) }
    ensures statuses { IsTrue (is_one_of (Status.Done ∷ Status.NotJson ∷ Status.NoServices ∷ Status.BadService
        ∷ Status.NoPlans ∷ Status.BadPlan ∷ Status.BadPlanMode ∷ Status.PlanTwice ∷ Status.TooSmall
        ∷ Status.Memory ∷ []) result) }
    ensures unwritten { result ≢ code Status.Done → plans.new ≡ plans.old }
    ensures unmeasured { result ≢ code Status.Done → result ≢ code Status.TooSmall → needed.new ≡ needed.old }
{
    let catalogue = match catalogue_plans(alloc, document) {
        Ok(catalogue) => catalogue,
        Err(fault) => return plans_status(fault).code(),
    };
    let Ok(list) = list_plans(alloc, &catalogue) else {
        return Status::Memory.code();
    };
    *needed = list.len();
    write_plans(&list, plans).code()
}

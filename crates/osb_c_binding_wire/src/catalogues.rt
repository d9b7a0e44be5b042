//! How the plans of a catalogue's document bind.
ghost use Rattle.std.specs.Prelude.{◌≡◌, ◌≢◌, ◌<◌, [], ◌∷◌, Err, IsOkAnd, IsTrue, length, take, drop, map as each};
ghost use Rattle.std.specs.FinMap as map;
ghost use Rattle.std.specs.List.Sorted.{IsStrictlySortedBy};
ghost use Rattle.osb_message.specs.Catalogue.{pair_cmp};
ghost use Rattle.osb_wire.specs.declared.catalogue_reading.CatalogueFault.TheVariants as CatalogueFault;
ghost use Rattle.osb_binding_wire.specs.Modes.{modes_in};
ghost use Rattle.osb_binding_wire.specs.Retrievable.{retrievable_in};
ghost use Rattle.osb_c_types.specs.Ids.{number_of};
ghost use Rattle.osb_c_types.specs.Plans.{pair_of, plan_of};
ghost use Rattle.osb_c_types.specs.Status.{code, is_one_of};
ghost use Rattle.osb_c_binding_wire.specs.Modes.{mode_status};

use osb_binding_wire::{BindingModeFault, binding_modes, bindings_retrievable};
use osb_c_types::{OsbId, OsbPlan, Status, id_from};
use osb_c_wire::{list_plans, plans_status, write_plans};
use osb_message::Memory;
use std::alloc::Global;

// Why a document doesn't say how its plans bind, as a status.
fn status_of(fault: BindingModeFault) -> Status
    ensures status { result ≡ mode_status fault }
{
    match fault {
        BindingModeFault::Plans(fault) => plans_status(fault),
        BindingModeFault::NotABoolean => Status::NotABoolean,
        BindingModeFault::NotRetrievable => Status::NotRetrievable,
    }
}

/// Reads how the plans that a catalogue's document names bind, as `osb_catalogue_plans` reads how they work: the
/// bindable plans go to the front of `plans`, in ascending order of service and plan, and how many they are to
/// `needed`; the rest of `plans` is as before. A plan is bindable by its own `bindable`, or else by that of its
/// service. It binds asynchronously if its own `x-osb-asynchronous-bindings` is true, or else that of its service, and
/// the service must then be `bindings_retrievable` (section Catalog Management; `x-osb-asynchronous-bindings` is this
/// project's choice).
///
/// It returns `Done`; `NotJson` if the document isn't UTF-8 or isn't JSON; `NoServices` if it has no list `services`;
/// the first of `BadService`, `NoPlans`, `BadPlan`, `PlanTwice`, `NotABoolean` and `NotRetrievable` in the document's
/// order; `TooSmall` if there are fewer places than `needed`, a number that is written all the same; or, in place of
/// any of these, `Memory` if an allocation failed. If it isn't `Done`, the places are as before, and if it is neither
/// that nor `TooSmall`, `needed` too.
#[unsafe(no_mangle)]
pub extern "C" fn osb_binding_modes(
    alloc: Global,
    document: &[u8],
    plans: &mut [OsbPlan],
    needed: &mut usize,
) -> u32
    ensures plans { result ≡ code Status.Done → IsOkAnd (modes_in document.now) (λ sold.
        (needed.new ≡ length (map.entries sold)) × (each plan_of (take needed.new plans.new) ≡ map.entries sold)) }
    ensures ascending { result ≡ code Status.Done
        → IsStrictlySortedBy pair_cmp (each pair_of (take needed.new plans.new)) }
    ensures rest { result ≡ code Status.Done → drop needed.new plans.new ≡ drop needed.new plans.old }

    ensures faults { (fault : BindingModeFault) → fault ≢ BindingModeFault.Plans CatalogueFault.Memory
        → result ≡ code (mode_status fault) → modes_in document.now ≡ Err fault }
    ensures too_small { result ≡ code Status.TooSmall → IsOkAnd (modes_in document.now) (λ sold.
        (needed.new ≡ length (map.entries sold)) × (length plans.old < needed.new)) }
    ensures statuses { IsTrue (is_one_of (Status.Done ∷ Status.NotJson ∷ Status.NoServices ∷ Status.BadService
        ∷ Status.NoPlans ∷ Status.BadPlan ∷ Status.PlanTwice ∷ Status.NotABoolean ∷ Status.NotRetrievable
        ∷ Status.TooSmall ∷ Status.Memory ∷ []) result) }
    ensures unwritten { result ≢ code Status.Done → plans.new ≡ plans.old }
    ensures unmeasured { result ≢ code Status.Done → result ≢ code Status.TooSmall → needed.new ≡ needed.old }
{
    let modes = match binding_modes(alloc, document) {
        Ok(modes) => modes,
        Err(fault) => return status_of(fault).code(),
    };
    let Ok(list) = list_plans(alloc, &modes) else {
        return Status::Memory.code();
    };
    *needed = list.len();
    write_plans(&list, plans).code()
}

/// Reads whether a catalogue's document says by `bindings_retrievable` of a service that its bindings can be fetched:
/// false if the service isn't in it or doesn't say so. Of a service that stands twice the first counts (section Catalog
/// Management).
///
/// It returns `Done`; or `Memory` if an allocation failed, and `retrievable` is then as before.
#[unsafe(no_mangle)]
pub extern "C" fn osb_bindings_retrievable(
    alloc: Global,
    document: &[u8],
    service: OsbId,
    retrievable: &mut bool,
) -> u32
    ensures says { result ≡ code Status.Done
        → retrievable.new ≡ retrievable_in (number_of service) document.now }

    ensures statuses { IsTrue (is_one_of (Status.Done ∷ Status.Memory ∷ []) result) }
    ensures unwritten { result ≢ code Status.Done → retrievable.new ≡ retrievable.old }
{
    match bindings_retrievable(alloc, document, id_from(service)) {
        Ok(says) => {
            *retrievable = says;
            Status::Done.code()
        }
        Err(Memory) => Status::Memory.code(),
    }
}

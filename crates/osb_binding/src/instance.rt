//! What the bindings of an instance let happen to it.
ghost use Rattle.std.specs.Prelude.{◌≡◌, ◌↔◌, ◌&&◌, not, true, false, Ok, Err, IsOk, IfOk, IsSome, IsTrue};
ghost use Rattle.osb_platform.specs.PlatformRow.{can_remove, is_idle};
ghost use Rattle.osb_instance.specs.Begin.{is_held, IsWork};
ghost use Rattle.osb_instance.specs.Held.{IsHeldSound};
ghost use Rattle.osb_instance.specs.Fits.{fits};
ghost use Rattle.osb_instance.specs.Recorded.{IsCleanedUpAfter};
ghost use Rattle.osb_binding.specs.Begun.{instance_begun};

use crate::RemoveFault;
use osb_instance::{Begun, Digest, Holding, Record, RemoveRefused};
use osb_message::{Mode, Request};

/// Has an instance deleted that may have bindings, as [`Record::remove`] does. `all_gone` is whether each binding of the
/// instance that is recorded is `gone`, read in the transaction that writes the record, with the record locked. It
/// takes no memory.
///
/// The platform waits for no binding and removes none: that is the caller's.
///
/// # Errors
///
/// In this order, with the record as before: [`RemoveFault::Busy`] if a request is out, [`RemoveFault::NotRemovable`] in
/// every state but `polling`, `ready` and `unsettled`, [`RemoveFault::Bound`] if `all_gone` is false.
pub fn remove_instance(recorded: Record, all_gone: bool) -> Result<Record, RemoveFault>
    ensures ok { IsOk result ↔ (IsTrue (can_remove (Some recorded.row)) × (all_gone ≡ true)) }
    ensures cleaned_up { IfOk result (λ after. IsCleanedUpAfter recorded after) }
    ensures busy { (result ≡ Err RemoveFault.Busy) ↔ IsSome recorded.row.out }
    ensures not_removable { (result ≡ Err RemoveFault.NotRemovable)
        ↔ IsTrue (is_idle (Some recorded.row) && not (can_remove (Some recorded.row))) }
    ensures bound { (result ≡ Err RemoveFault.Bound)
        ↔ (IsTrue (can_remove (Some recorded.row)) × (all_gone ≡ false)) }
{
    match recorded.remove() {
        Err(RemoveRefused::Busy) => Err(RemoveFault::Busy),
        Err(RemoveRefused::NotRemovable) => Err(RemoveFault::NotRemovable),
        Ok(_) if !all_gone => Err(RemoveFault::Bound),
        Ok(after) => Ok(after),
    }
}

/// A request comes for an instance that may have bindings, as at [`Holding::begin`]. `any_held` is whether the broker
/// holds a binding of the instance ([`BindingHolding::is_held`](crate::BindingHolding::is_held)), read in the
/// transaction that writes the holding. If it does, nothing begins: a Deprovision whose work would be due is answered
/// with 422 `ConcurrencyError`, and nothing changes (this project's choice; the standard leaves open what a broker does
/// with a Deprovision of an instance that has bindings). It takes no memory.
pub fn begin_instance(
    holding: Holding,
    mode: Option<Mode>,
    first_poll: bool,
    request: &Request,
    attributes: Digest,
    any_held: bool,
) -> (Holding, Begun)
    ensures begun { result ≡ instance_begun any_held mode first_poll holding request.now attributes }
    ensures nothing_begins { any_held ≡ true → IsWork result.1 → ⊥ }
    ensures fits { fits mode holding ≡ true → fits mode result.0 ≡ true }
    ensures sound { IsHeldSound result.0 }
{
    holding.begin_if(mode, first_poll, request, attributes, !any_held)
}

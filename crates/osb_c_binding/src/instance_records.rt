//! A platform's record of an instance that may have bindings, or of a binding.
ghost use Rattle.std.specs.Prelude.{◌≡◌, ◌≢◌, ◌↔◌, ◌&&◌, not, [], ◌∷◌, Some, true, false};
ghost use Rattle.std.specs.Prelude.{IsTrue, IsSome, IsNone, IsSomeAnd};
ghost use Rattle.osb_platform.specs.PlatformRow.{can_remove, is_idle};
ghost use Rattle.osb_instance.specs.Recorded.{IsCleanedUpAfter, is_gone_in, is_ready_in};
ghost use Rattle.osb_c_types.specs.Status.{code, is_one_of};
ghost use Rattle.osb_c_instance.specs.Records.{recorded_of};

use osb_binding::{RemoveFault, remove_instance};
use osb_c_instance::{OsbRecord, recorded_from, recorded_out};
use osb_c_types::Status;

/// Has an instance deleted that may have bindings, as `osb_record_remove` does: `polling`, `ready` and `unsettled`
/// become `cleaning` (section Deprovisioning). `all_gone` is whether each binding of the instance that is recorded is
/// `gone`, read in the transaction that writes the record, with the record locked (this project's choice). It takes no
/// memory.
///
/// It returns `Done`, or the first of these that fits, with the record as before: `BadRecord` if it is none that a call
/// gives, `Busy` if a request is out, `NotRemovable` in every other state, `Bound` if `all_gone` is false.
#[unsafe(no_mangle)]
pub extern "C" fn osb_record_remove_if(kept: &mut OsbRecord, all_gone: bool) -> u32
    ensures cleaned_up { result ≡ code Status.Done → IsSomeAnd (recorded_of kept.old) (λ before.
        IsSomeAnd (recorded_of kept.new) (IsCleanedUpAfter before)) }

    ensures done { (result ≡ code Status.Done) ↔ IsSomeAnd (recorded_of kept.old) (λ r.
        IsTrue (can_remove (Some r.row)) × (all_gone ≡ true)) }
    ensures bad_record { (result ≡ code Status.BadRecord) ↔ IsNone (recorded_of kept.old) }
    ensures busy { (result ≡ code Status.Busy) ↔ IsSomeAnd (recorded_of kept.old) (λ r. IsSome r.row.out) }
    ensures not_removable { (result ≡ code Status.NotRemovable) ↔ IsSomeAnd (recorded_of kept.old) (λ r.
        IsTrue (is_idle (Some r.row) && not (can_remove (Some r.row)))) }
    ensures bound { (result ≡ code Status.Bound) ↔ IsSomeAnd (recorded_of kept.old) (λ r.
        IsTrue (can_remove (Some r.row)) × (all_gone ≡ false)) }
    ensures statuses { IsTrue (is_one_of (Status.Done ∷ Status.BadRecord ∷ Status.Busy ∷ Status.NotRemovable
        ∷ Status.Bound ∷ []) result) }
    ensures unwritten { result ≢ code Status.Done → kept.new ≡ kept.old }
{
    let Some(recorded) = recorded_from(kept) else {
        return Status::BadRecord.code();
    };
    match remove_instance(recorded, all_gone) {
        Ok(after) => {
            *kept = recorded_out(after);
            Status::Done.code()
        }
        Err(RemoveFault::Busy) => Status::Busy.code(),
        Err(RemoveFault::NotRemovable) => Status::NotRemovable.code(),
        Err(RemoveFault::Bound) => Status::Bound.code(),
    }
}

/// Whether the record is one that a call gives, and `ready` is recorded: a binding of the instance may be created then
/// (this project's choice). It takes no memory.
#[unsafe(no_mangle)]
pub extern "C" fn osb_record_is_ready(kept: &OsbRecord) -> bool
    ensures ready { IsTrue result ↔ IsSomeAnd (recorded_of kept.now) (λ r. is_ready_in r.row.state ≡ true) }
{
    match recorded_from(kept) {
        Some(recorded) => recorded.is_ready(),
        None => false,
    }
}

/// Whether the record is one that a call gives, and `gone` is recorded: of a binding that is `gone` there are no
/// credentials (this project's choice). It takes no memory.
#[unsafe(no_mangle)]
pub extern "C" fn osb_record_is_gone(kept: &OsbRecord) -> bool
    ensures gone { IsTrue result ↔ IsSomeAnd (recorded_of kept.now) (λ r. is_gone_in r.row.state ≡ true) }
{
    match recorded_from(kept) {
        Some(recorded) => recorded.is_gone(),
        None => false,
    }
}

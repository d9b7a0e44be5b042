//! The texts of a binding's record and of its holding, for a column of a database.
ghost use Rattle.std.specs.Prelude.{◌≡◌, ◌≢◌, ◌↔◌, ◌⊎◌, ◌<◌, [], ◌∷◌, Some, Ok, Err, IsTrue};
ghost use Rattle.std.specs.Prelude.{IsNone, IsSomeAnd, length, take, drop};
ghost use Rattle.std.specs.Str.{IsUtf8};
ghost use Rattle.osb_instance.specs.Held.{Held};
ghost use Rattle.osb_instance.specs.Recorded.{Recorded};
ghost use Rattle.osb_instance.specs.declared.faults.TextFault.{TextFault};
ghost use Rattle.osb_binding.specs.Texts.{binding_holding_in, binding_holding_text};
ghost use Rattle.osb_binding.specs.Texts.{binding_record_in, binding_record_text};
ghost use Rattle.osb_c_types.specs.Status.{code, is_one_of};
ghost use Rattle.osb_c_instance.specs.Holdings.{IsPlain, held_of};
ghost use Rattle.osb_c_instance.specs.Records.{recorded_of};
ghost use Rattle.osb_c_instance.specs.TextStatus.{text_status};

use osb_binding::{BindingHolding, BindingRecord};
use osb_c_instance::{
    OsbHolding, OsbRecord, fault_status, held_from, held_out, recorded_from, recorded_out,
};
use osb_c_types::{Status, write_text};
use std::alloc::Global;

/// Writes the text of a binding's record, for a column of a database, to the front of `buffer`, and its length to `needed`; the
/// rest of the buffer is as before. There is no NUL after it.
///
/// It returns `Done`; `BadRecord` exactly where the record is none that a call gives; `TooSmall` where the buffer is
/// shorter than `needed` bytes, a number that is written all the same; or `Memory`, in place of either but `BadRecord`,
/// where an allocation failed. Where it isn't `Done`, the buffer is as before, and where it is neither that nor
/// `TooSmall`, `needed` too.
#[unsafe(no_mangle)]
pub extern "C" fn osb_binding_record_to_text(
    alloc: Global,
    kept: &OsbRecord,
    buffer: &mut [u8],
    needed: &mut usize,
) -> u32
    ensures text { result ≡ code Status.Done → IsSomeAnd (recorded_of kept.now) (λ r.
        (needed.new ≡ length (binding_record_text r)) × (take needed.new buffer.new ≡ binding_record_text r)) }
    ensures back { result ≡ code Status.Done → IsSomeAnd (recorded_of kept.now) (λ r.
        binding_record_in (take needed.new buffer.new) ≡ Ok r) }
    ensures utf8 { result ≡ code Status.Done → IsUtf8 (take needed.new buffer.new) }
    ensures rest { result ≡ code Status.Done → drop needed.new buffer.new ≡ drop needed.new buffer.old }

    ensures bad_record { (result ≡ code Status.BadRecord) ↔ IsNone (recorded_of kept.now) }
    ensures too_small { result ≡ code Status.TooSmall → IsSomeAnd (recorded_of kept.now) (λ r.
        (needed.new ≡ length (binding_record_text r)) × (length buffer.old < needed.new)) }
    ensures statuses { IsTrue (is_one_of
        (Status.Done ∷ Status.BadRecord ∷ Status.TooSmall ∷ Status.Memory ∷ []) result) }
    ensures unwritten { result ≢ code Status.Done → buffer.new ≡ buffer.old }
    ensures unmeasured { result ≢ code Status.Done → result ≢ code Status.TooSmall → needed.new ≡ needed.old }
{
    let Some(recorded) = recorded_from(kept) else {
        return Status::BadRecord.code();
    };
    let Ok(text) = BindingRecord::of(recorded).to_text(alloc) else {
        return Status::Memory.code();
    };
    write_text(text.as_str(), buffer, needed).code()
}

/// Reads the text of a binding's record, in any spacing. What [`osb_binding_record_to_text`] wrote gives `Done` or `Memory`.
///
/// It returns `Done`, or the first of these that fits: `NotUtf8` where the bytes aren't UTF-8, `NotJson` where the text
/// has no reading as JSON, `NotAnObject` where the value isn't an object, `BadVersion` where `version` isn't 1 written
/// as an integer, `BadOuter` where the members aren't those of a record, `BadMember` where one of them isn't as it is
/// written, `Impossible` where together they can't come about; or, in place of `Done` or of any of these but
/// `NotUtf8`, `Memory` where an allocation failed. Where it isn't `Done`, the record is as before.
#[unsafe(no_mangle)]
pub extern "C" fn osb_binding_record_from_text(
    alloc: Global,
    text: &[u8],
    kept: &mut OsbRecord,
) -> u32
    ensures read { result ≡ code Status.Done → IsSomeAnd (recorded_of kept.new) (λ r.
        binding_record_in text.now ≡ Ok r) }
    ensures reload { (written : Recorded) → binding_record_in text.now ≡ Ok written → IsUtf8 text.now
        → (result ≡ code Status.Memory) ⊎ ((result ≡ code Status.Done) × (recorded_of kept.new ≡ Some written)) }

    ensures not_utf8 { (result ≡ code Status.NotUtf8) ↔ ¬ (IsUtf8 text.now) }
    ensures faults { (fault : TextFault) → fault ≢ TextFault.Memory
        → result ≡ code (text_status fault) → binding_record_in text.now ≡ Err fault }
    ensures statuses { IsTrue (is_one_of (Status.Done ∷ Status.NotUtf8 ∷ Status.NotJson ∷ Status.NotAnObject
        ∷ Status.BadVersion ∷ Status.BadOuter ∷ Status.BadMember ∷ Status.Impossible ∷ Status.Memory ∷ []) result) }
    ensures unwritten { result ≢ code Status.Done → kept.new ≡ kept.old }
{
    let Ok(text) = std::str::from_utf8(text) else {
        return Status::NotUtf8.code();
    };
    match BindingRecord::from_text(alloc, text) {
        Ok(recorded) => {
            *kept = recorded_out(recorded.as_record());
            Status::Done.code()
        }
        Err(fault) => fault_status(fault).code(),
    }
}

/// Writes the text of a binding's holding, for a column of a database, to the front of `buffer`, and its length to `needed`;
/// the rest of the buffer is as before. There is no NUL after it.
///
/// It returns `Done`; `BadHolding` exactly where the holding is none that a call gives; `TooSmall` where the buffer is
/// shorter than `needed` bytes, a number that is written all the same; or `Memory`, in place of either but
/// `BadHolding`, where an allocation failed. Where it isn't `Done`, the buffer is as before, and where it is neither
/// that nor `TooSmall`, `needed` too.
#[unsafe(no_mangle)]
pub extern "C" fn osb_binding_holding_to_text(
    alloc: Global,
    holding: &OsbHolding,
    buffer: &mut [u8],
    needed: &mut usize,
) -> u32
    ensures text { result ≡ code Status.Done → IsSomeAnd (held_of holding.now) (λ h.
        (needed.new ≡ length (binding_holding_text h)) × (take needed.new buffer.new ≡ binding_holding_text h)) }
    ensures back { result ≡ code Status.Done → IsSomeAnd (held_of holding.now) (λ h.
        binding_holding_in (take needed.new buffer.new) ≡ Ok h) }
    ensures utf8 { result ≡ code Status.Done → IsUtf8 (take needed.new buffer.new) }
    ensures rest { result ≡ code Status.Done → drop needed.new buffer.new ≡ drop needed.new buffer.old }

    ensures bad_holding { (result ≡ code Status.BadHolding) ↔ IsNone (held_of holding.now) }
    ensures too_small { result ≡ code Status.TooSmall → IsSomeAnd (held_of holding.now) (λ h.
        (needed.new ≡ length (binding_holding_text h)) × (length buffer.old < needed.new)) }
    ensures statuses { IsTrue (is_one_of
        (Status.Done ∷ Status.BadHolding ∷ Status.TooSmall ∷ Status.Memory ∷ []) result) }
    ensures unwritten { result ≢ code Status.Done → buffer.new ≡ buffer.old }
    ensures unmeasured { result ≢ code Status.Done → result ≢ code Status.TooSmall → needed.new ≡ needed.old }
{
    let Some(held) = held_from(holding) else {
        return Status::BadHolding.code();
    };
    let Ok(text) = BindingHolding::of(held).to_text(alloc) else {
        return Status::Memory.code();
    };
    write_text(text.as_str(), buffer, needed).code()
}

/// Reads the text of a binding's holding, in any spacing. What [`osb_binding_holding_to_text`] wrote gives `Done` or `Memory`.
///
/// It returns `Done`, or the first of these that fits: `NotUtf8` where the bytes aren't UTF-8, `NotJson` where the text
/// has no reading as JSON, `NotAnObject` where the value isn't an object, `BadVersion` where `version` isn't 1 written
/// as an integer, `BadOuter` where the members aren't those of a holding, `BadMember` where one of them isn't as it is
/// written, `Impossible` where together they can't come about; or, in place of `Done` or of any of these but
/// `NotUtf8`, `Memory` where an allocation failed. Where it isn't `Done`, the holding is as before.
#[unsafe(no_mangle)]
pub extern "C" fn osb_binding_holding_from_text(
    alloc: Global,
    text: &[u8],
    holding: &mut OsbHolding,
) -> u32
    ensures read { result ≡ code Status.Done → IsSomeAnd (held_of holding.new) (λ h.
        binding_holding_in text.now ≡ Ok h) }
    ensures reload { (written : Held) → binding_holding_in text.now ≡ Ok written → IsUtf8 text.now
        → (result ≡ code Status.Memory) ⊎ ((result ≡ code Status.Done) × (held_of holding.new ≡ Some written)) }
    ensures plain { result ≡ code Status.Done → IsPlain holding.new }

    ensures not_utf8 { (result ≡ code Status.NotUtf8) ↔ ¬ (IsUtf8 text.now) }
    ensures faults { (fault : TextFault) → fault ≢ TextFault.Memory
        → result ≡ code (text_status fault) → binding_holding_in text.now ≡ Err fault }
    ensures statuses { IsTrue (is_one_of (Status.Done ∷ Status.NotUtf8 ∷ Status.NotJson ∷ Status.NotAnObject
        ∷ Status.BadVersion ∷ Status.BadOuter ∷ Status.BadMember ∷ Status.Impossible ∷ Status.Memory ∷ []) result) }
    ensures unwritten { result ≢ code Status.Done → holding.new ≡ holding.old }
{
    let Ok(text) = std::str::from_utf8(text) else {
        return Status::NotUtf8.code();
    };
    match BindingHolding::from_text(alloc, text) {
        Ok(held) => {
            *holding = held_out(held.as_holding());
            Status::Done.code()
        }
        Err(fault) => fault_status(fault).code(),
    }
}

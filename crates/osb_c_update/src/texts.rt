//! The text of what a broker holds of the updates of an instance, for a column of a database.
ghost use Rattle.std.specs.Prelude.{◌≡◌, ◌≢◌, ◌↔◌, ◌⊎◌, ◌<◌, [], ◌∷◌, Some, Ok, Err, IsTrue};
ghost use Rattle.std.specs.Prelude.{IsNone, IsSomeAnd, length, take, drop};
ghost use Rattle.std.specs.Str.{IsUtf8};
ghost use Rattle.osb_instance.specs.declared.faults.TextFault.{TextFault};
ghost use Rattle.osb_update.specs.declared.holding.UpdateHolding.{UpdateHolding};
ghost use Rattle.osb_update_text.specs.HoldingText.{holding_in, holding_text};
ghost use Rattle.osb_c_types.specs.Status.{code, is_one_of};
ghost use Rattle.osb_c_instance.specs.TextStatus.{text_status};
ghost use Rattle.osb_c_update.specs.Holdings.{IsPlain, holding_of};

use crate::holdings::{OsbUpdateHolding, holding_from, holding_out};
use osb_c_instance::fault_status;
use osb_c_types::{Status, write_text};
use osb_update_text::{read_holding, write_holding};
use std::alloc::Global;

/// Writes the text of a holding of updates, for a column of a database, to the front of `buffer`, and its length to
/// `needed`; the rest of the buffer is as before. There is no NUL after it.
///
/// It returns `Done`; `BadHolding` exactly if the holding is none that a call gives; `TooSmall` if the buffer is
/// shorter than `needed` bytes, a number that is written all the same; or `Memory`, in place of either but
/// `BadHolding`, if an allocation failed. If it isn't `Done`, the buffer is as before, and if it is neither that nor
/// `TooSmall`, `needed` too.
#[unsafe(no_mangle)]
pub extern "C" fn osb_update_holding_to_text(
    alloc: Global,
    holding: &OsbUpdateHolding,
    buffer: &mut [u8],
    needed: &mut usize,
) -> u32
    ensures text { result ≡ code Status.Done → IsSomeAnd (holding_of holding.now) (λ h.
        (needed.new ≡ length (holding_text h)) × (take needed.new buffer.new ≡ holding_text h)) }
    ensures back { result ≡ code Status.Done → IsSomeAnd (holding_of holding.now) (λ h.
        holding_in (take needed.new buffer.new) ≡ Ok h) }
    ensures utf8 { result ≡ code Status.Done → IsUtf8 (take needed.new buffer.new) }
    ensures rest { result ≡ code Status.Done → drop needed.new buffer.new ≡ drop needed.new buffer.old }

    ensures bad_holding { (result ≡ code Status.BadHolding) ↔ IsNone (holding_of holding.now) }
    ensures too_small { result ≡ code Status.TooSmall → IsSomeAnd (holding_of holding.now) (λ h.
        (needed.new ≡ length (holding_text h)) × (length buffer.old < needed.new)) }
    ensures statuses { IsTrue (is_one_of
        (Status.Done ∷ Status.BadHolding ∷ Status.TooSmall ∷ Status.Memory ∷ []) result) }
    ensures unwritten { result ≢ code Status.Done → buffer.new ≡ buffer.old }
    ensures unmeasured { result ≢ code Status.Done → result ≢ code Status.TooSmall → needed.new ≡ needed.old }
{
    let Some(held) = holding_from(holding) else {
        return Status::BadHolding.code();
    };
    let Ok(text) = write_holding(alloc, &held) else {
        return Status::Memory.code();
    };
    write_text(text.as_str(), buffer, needed).code()
}

/// Reads the text of a holding of updates, in any spacing. What [`osb_update_holding_to_text`] wrote gives `Done` or
/// `Memory`.
///
/// It returns `Done`, or the first of these that fits: `NotUtf8` if the bytes aren't UTF-8, `NotJson` if the text has
/// no reading as JSON, `NotAnObject` if the value isn't an object, `BadVersion` if `version` isn't 1 written as an
/// integer, `BadOuter` if the members aren't those of a holding, `BadMember` if one of them isn't as it is written; or,
/// in place of `Done` or of any of these but `NotUtf8`, `Memory` if an allocation failed. If it isn't `Done`, the
/// holding is as before.
#[tactic(auto, using(crate::proofs::Faults::never_impossible))]
#[unsafe(no_mangle)]
pub extern "C" fn osb_update_holding_from_text(
    alloc: Global,
    text: &[u8],
    holding: &mut OsbUpdateHolding,
) -> u32
    ensures read { result ≡ code Status.Done → IsSomeAnd (holding_of holding.new) (λ h.
        holding_in text.now ≡ Ok h) }
    ensures reload { (written : UpdateHolding) → holding_in text.now ≡ Ok written → IsUtf8 text.now
        → (result ≡ code Status.Memory) ⊎ ((result ≡ code Status.Done) × (holding_of holding.new ≡ Some written)) }
    ensures plain { result ≡ code Status.Done → IsPlain holding.new }

    ensures not_utf8 { (result ≡ code Status.NotUtf8) ↔ ¬ (IsUtf8 text.now) }
    ensures faults { (fault : TextFault) → fault ≢ TextFault.Memory
        → result ≡ code (text_status fault) → holding_in text.now ≡ Err fault }
    ensures statuses { IsTrue (is_one_of (Status.Done ∷ Status.NotUtf8 ∷ Status.NotJson ∷ Status.NotAnObject
        ∷ Status.BadVersion ∷ Status.BadOuter ∷ Status.BadMember ∷ Status.Memory ∷ []) result) }
    ensures unwritten { result ≢ code Status.Done → holding.new ≡ holding.old }
{
    let Ok(text) = std::str::from_utf8(text) else {
        return Status::NotUtf8.code();
    };
    match read_holding(alloc, text) {
        Ok(held) => {
            *holding = holding_out(&held);
            Status::Done.code()
        }
        Err(fault) => fault_status(fault).code(),
    }
}

//! The versions of a plan's maintenance information.
ghost use Rattle.std.specs.Prelude.{◌≡◌, ◌≢◌, ◌↔◌, [], ◌∷◌, true, false, None, IsTrue, IsSomeAnd, drop};
ghost use Rattle.osb_wire.specs.Maintenance.{conflicts, version_in, version_sold};
ghost use Rattle.osb_c_types.specs.Ids.{number_of};
ghost use Rattle.osb_c_types.specs.Status.{code, is_one_of};
ghost use Rattle.osb_c_wire.specs.Texts as texts;

use crate::texts::text_if;
use osb_c_types::{OsbId, Status, id_from, write_text};
use osb_message::Memory;
use std::alloc::Global;

/// Writes the `maintenance_info.version` that a catalogue's document has of a plan of a service to the front of `buffer`,
/// and its length to `needed`; the rest of the buffer is as before (section Catalog Management).
///
/// It returns `Done`; `NoPlanVersion` where the document has none; `TooSmall` where the buffer is shorter than `needed`
/// bytes, a number that is written all the same; or, in place of any of these, `Memory` where an allocation failed. Where
/// it isn't `Done`, the buffer is as before, and where it is neither that nor `TooSmall`, `needed` too.
#[unsafe(no_mangle)]
pub extern "C" fn osb_plan_version(
    alloc: Global,
    document: &[u8],
    service: OsbId,
    plan: OsbId,
    buffer: &mut [u8],
    needed: &mut usize,
) -> u32
    ensures version { result ≡ code Status.Done
        → IsSomeAnd (version_sold (number_of service) (number_of plan) document.now) (λ text.
        texts.IsWritten text needed.new buffer.new) }
    ensures rest { result ≡ code Status.Done → drop needed.new buffer.new ≡ drop needed.new buffer.old }

    ensures no_version { result ≡ code Status.NoPlanVersion
        → version_sold (number_of service) (number_of plan) document.now ≡ None }
    ensures too_small { result ≡ code Status.TooSmall
        → IsSomeAnd (version_sold (number_of service) (number_of plan) document.now) (λ text.
        texts.IsTooLong text needed.new buffer.old) }
    ensures statuses { IsTrue (is_one_of (Status.Done ∷ Status.NoPlanVersion ∷ Status.TooSmall ∷ Status.Memory
        ∷ []) result) }
    ensures unwritten { result ≢ code Status.Done → buffer.new ≡ buffer.old }
    ensures unmeasured { result ≢ code Status.Done → result ≢ code Status.TooSmall → needed.new ≡ needed.old }
{
    match osb_wire::plan_version(alloc, document, id_from(service), id_from(plan)) {
        Ok(Some(text)) => write_text(text.as_str(), buffer, needed).code(),
        Ok(None) => Status::NoPlanVersion.code(),
        Err(Memory) => Status::Memory.code(),
    }
}

/// Judges whether the body of a Provision names another `maintenance_info.version` than the one that the catalogue has
/// of the plan, which counts where `has_version` is true. Where the plan has no version, or the body names none that is a
/// string, there is no conflict (section Maintenance Info Object).
///
/// It returns `Done` where there is no conflict; `NotUtf8` exactly where the version counts and isn't UTF-8;
/// `RefusedMaintenance` where there is one; or, in place of any of these but `NotUtf8`, `Memory` where an allocation
/// failed.
#[unsafe(no_mangle)]
pub extern "C" fn osb_maintenance_conflict(
    alloc: Global,
    has_version: bool,
    version: &[u8],
    body: &[u8],
) -> u32
    ensures same { result ≡ code Status.Done
        → conflicts (texts.text_if has_version version.now) (version_in body.now) ≡ false }
    ensures conflict { result ≡ code Status.RefusedMaintenance
        → conflicts (texts.text_if has_version version.now) (version_in body.now) ≡ true }
    ensures not_utf8 { (result ≡ code Status.NotUtf8) ↔ ¬ (texts.IsUtf8If has_version version.now) }
    ensures statuses { IsTrue (is_one_of (Status.Done ∷ Status.NotUtf8 ∷ Status.RefusedMaintenance ∷ Status.Memory
        ∷ []) result) }
{
    let Some(version) = text_if(has_version, version) else {
        return Status::NotUtf8.code();
    };
    match osb_wire::maintenance_conflict(alloc, version, body) {
        Ok(false) => Status::Done.code(),
        Ok(true) => Status::RefusedMaintenance.code(),
        Err(Memory) => Status::Memory.code(),
    }
}

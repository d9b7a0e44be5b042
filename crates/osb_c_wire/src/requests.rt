//! The method of a request, as a platform writes it.
ghost use Rattle.std.specs.Prelude.{◌≡◌, ◌≢◌, ◌↔◌, ◌<◌, [], ◌∷◌, length, take, drop, IsTrue, IsNone, IsSomeAnd};
ghost use Rattle.osb_wire.specs.Targets as targets;
ghost use Rattle.osb_c_types.specs.Kinds.{kind_of};
ghost use Rattle.osb_c_types.specs.Status.{code, is_one_of};
ghost use Rattle.osb_c_wire.specs.Texts as texts;

use osb_c_types::{Status, kind_from, write_text};

/// Writes the method of a request of the kind, `PUT`, `GET` or `DELETE`, to the front of `buffer`, and its length to
/// `needed`; the rest of the buffer is as before (sections Provisioning, Polling Last Operation for Service Instances
/// and Deprovisioning). It takes no memory.
///
/// It returns `Done`; `BadKind` exactly where the number stands for no kind; or `TooSmall` exactly where it stands for
/// one and the buffer is shorter than `needed` bytes, a number that is written all the same. Where it isn't `Done`, the
/// buffer is as before, and where it is `BadKind`, `needed` too.
#[unsafe(no_mangle)]
pub extern "C" fn osb_write_method(kind: u8, buffer: &mut [u8], needed: &mut usize) -> u32
    ensures method { result ≡ code Status.Done → IsSomeAnd (kind_of kind) (λ k.
        texts.IsWritten (targets.method_of k) needed.new buffer.new) }
    ensures rest { result ≡ code Status.Done → drop needed.new buffer.new ≡ drop needed.new buffer.old }

    ensures bad_kind { (result ≡ code Status.BadKind) ↔ IsNone (kind_of kind) }
    ensures too_small { (result ≡ code Status.TooSmall) ↔ IsSomeAnd (kind_of kind) (λ k.
        texts.IsTooLong (targets.method_of k) needed.new buffer.old) }
    ensures statuses { IsTrue (is_one_of (Status.Done ∷ Status.BadKind ∷ Status.TooSmall ∷ []) result) }
    ensures unwritten { result ≢ code Status.Done → buffer.new ≡ buffer.old }
    ensures unmeasured { result ≡ code Status.BadKind → needed.new ≡ needed.old }
{
    match kind_from(kind) {
        Some(kind) => write_text(osb_wire::method_of(kind), buffer, needed).code(),
        None => Status::BadKind.code(),
    }
}

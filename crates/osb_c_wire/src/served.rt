//! The catalogue that a broker serves.
ghost use Rattle.std.specs.Prelude.{◌≡◌, ◌≢◌, [], ◌∷◌, None, IsTrue, IsSomeAnd, drop};
ghost use Rattle.osb_wire.specs.JsonTexts.{served_text};
ghost use Rattle.osb_c_types.specs.Status.{code, is_one_of};
ghost use Rattle.osb_c_wire.specs.Texts as texts;

use osb_c_types::{Status, write_text};
use osb_message::Memory;
use std::alloc::Global;

/// Writes the document that a broker serves as its catalogue to the front of `buffer`, and its length to `needed`; the
/// rest of the buffer is as before. It is the object that is given, with no spaces and the member `x-osb-tombstones`,
/// which is `true`, in place of any other of this name: it says that this broker never creates an id again (section
/// Catalog Management; the member is this project's choice).
///
/// It returns `Done`; `NotAnObject` where the document isn't UTF-8, isn't JSON or is no object; `TooSmall` where the
/// buffer is shorter than `needed` bytes, a number that is written all the same; or, in place of any of these, `Memory`
/// where an allocation failed. Where it isn't `Done`, the buffer is as before, and where it is neither that nor
/// `TooSmall`, `needed` too.
#[unsafe(no_mangle)]
pub extern "C" fn osb_served_catalogue(
    alloc: Global,
    document: &[u8],
    buffer: &mut [u8],
    needed: &mut usize,
) -> u32
    ensures text { result ≡ code Status.Done → IsSomeAnd (served_text document.now) (λ text.
        texts.IsWritten text needed.new buffer.new) }
    ensures rest { result ≡ code Status.Done → drop needed.new buffer.new ≡ drop needed.new buffer.old }

    ensures not_an_object { result ≡ code Status.NotAnObject → served_text document.now ≡ None }
    ensures too_small { result ≡ code Status.TooSmall → IsSomeAnd (served_text document.now) (λ text.
        texts.IsTooLong text needed.new buffer.old) }
    ensures statuses { IsTrue (is_one_of (Status.Done ∷ Status.NotAnObject ∷ Status.TooSmall ∷ Status.Memory
        ∷ []) result) }
    ensures unwritten { result ≢ code Status.Done → buffer.new ≡ buffer.old }
    ensures unmeasured { result ≢ code Status.Done → result ≢ code Status.TooSmall → needed.new ≡ needed.old }
{
    match osb_wire::served_catalogue(alloc, document) {
        Ok(Some(text)) => write_text(text.as_str(), buffer, needed).code(),
        Ok(None) => Status::NotAnObject.code(),
        Err(Memory) => Status::Memory.code(),
    }
}

//! Who is behind a request, and which request it is.
ghost use Rattle.std.specs.Prelude.{◌≡◌, ◌≢◌, ◌↔◌, ◌++◌, [], ◌∷◌, Some, None, IsTrue, IsSome, IsNone, IsSomeAnd};
ghost use Rattle.std.specs.Prelude.{length, drop};
ghost use Rattle.std.specs.Str.{IsUtf8};
ghost use Rattle.osb_wire.specs.HeaderValues.{identity_in, request_identity_in};
ghost use Rattle.osb_c_types.specs.Status.{code, is_one_of};
ghost use Rattle.osb_c_wire.specs.Texts as texts;

use osb_c_types::{Status, write_text};
use osb_message::Memory;
use std::alloc::Global;

/// Reads the user behind a request, from the value of the header X-Broker-API-Originating-Identity: the platform, a
/// blank, and a JSON object in padded base64. The platform's name and then the text of the object go to the front of
/// `buffer`, the length of the name to `platform`, and that of both to `needed`; the rest of the buffer is as before
/// (section Originating Identity).
///
/// It returns `Done`; `NotUtf8` exactly where the value isn't UTF-8; `NoIdentity` where it is another value; `TooSmall`
/// where the buffer is shorter than `needed` bytes, a number that is written all the same, as `platform` is; or, in
/// place of any of these but `NotUtf8`, `Memory` where an allocation failed. Where it isn't `Done`, the buffer is as
/// before, and where it is neither that nor `TooSmall`, `platform` and `needed` too.
#[unsafe(no_mangle)]
pub extern "C" fn osb_originating_identity(
    alloc: Global,
    value: &[u8],
    platform: &mut usize,
    buffer: &mut [u8],
    needed: &mut usize,
) -> u32
    ensures identity { result ≡ code Status.Done → IsSomeAnd (identity_in value.now) (λ found.
        texts.IsWritten (found.0 ++ found.1) needed.new buffer.new × (platform.new ≡ length found.0)) }
    ensures rest { result ≡ code Status.Done → drop needed.new buffer.new ≡ drop needed.new buffer.old }

    ensures not_utf8 { (result ≡ code Status.NotUtf8) ↔ ¬ (IsUtf8 value.now) }
    ensures no_identity { result ≡ code Status.NoIdentity → identity_in value.now ≡ None }
    ensures too_small { result ≡ code Status.TooSmall → IsSomeAnd (identity_in value.now) (λ found.
        texts.IsTooLong (found.0 ++ found.1) needed.new buffer.old × (platform.new ≡ length found.0)) }
    ensures statuses { IsTrue (is_one_of (Status.Done ∷ Status.NotUtf8 ∷ Status.NoIdentity ∷ Status.TooSmall
        ∷ Status.Memory ∷ []) result) }
    ensures unwritten { result ≢ code Status.Done → buffer.new ≡ buffer.old }
    ensures unmeasured { result ≢ code Status.Done → result ≢ code Status.TooSmall
        → (needed.new ≡ needed.old) × (platform.new ≡ platform.old) }
{
    let Ok(value) = std::str::from_utf8(value) else {
        return Status::NotUtf8.code();
    };
    let found = match osb_wire::originating_identity(alloc, value) {
        Ok(Some(found)) => found,
        Ok(None) => return Status::NoIdentity.code(),
        Err(Memory) => return Status::Memory.code(),
    };
    let Ok(text) = format!(in alloc; "{}{}", found.platform, found.object) else {
        return Status::Memory.code();
    };
    *platform = found.platform.len();
    write_text(text.as_str(), buffer, needed).code()
}

/// Judges the text by which a platform names a request, the value of the header X-Broker-API-Request-Identity, which a
/// broker returns in the same header of its answer: any text that isn't empty and has no ASCII control character, which
/// no answer could carry (section Request Identity; that other values count as none is this project's choice). It takes
/// no memory.
///
/// It returns `Done`; `NotUtf8` exactly where the value isn't UTF-8; or `NoIdentity` exactly where it is, and counts as
/// none.
#[unsafe(no_mangle)]
pub extern "C" fn osb_request_identity(value: &[u8]) -> u32
    ensures identity { (result ≡ code Status.Done) ↔ (IsUtf8 value.now × IsSome (request_identity_in value.now)) }
    ensures not_utf8 { (result ≡ code Status.NotUtf8) ↔ ¬ (IsUtf8 value.now) }
    ensures no_identity { (result ≡ code Status.NoIdentity)
        ↔ (IsUtf8 value.now × IsNone (request_identity_in value.now)) }
    ensures statuses { IsTrue (is_one_of (Status.Done ∷ Status.NotUtf8 ∷ Status.NoIdentity ∷ []) result) }
{
    let Ok(value) = std::str::from_utf8(value) else {
        return Status::NotUtf8.code();
    };
    match osb_wire::request_identity(value) {
        Some(_) => Status::Done.code(),
        None => Status::NoIdentity.code(),
    }
}

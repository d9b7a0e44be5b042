//! The headers of requests and of responses.
ghost use Rattle.std.specs.Prelude.{◌≡◌, ◌≢◌, ◌↔◌, ◌&&◌, [], ◌∷◌, false, Some, IsTrue, IsNone, option_map};
ghost use Rattle.std.specs.Str.{IsUtf8};
ghost use Rattle.osb_wire.specs.HeaderValues.{is_authorized, is_version, seconds_in, version_judged};
ghost use Rattle.osb_c_types.specs.Status.{code, is_one_of};
ghost use Rattle.osb_c_wire.specs.Texts.{text_if};

use osb_c_types::Status;
use osb_message::Memory;
use std::alloc::Global;

// The version that is named, where one is and it is text: what isn't text is no version.
#[tactic(auto, using(crate::proofs::HeaderTexts::no_version))]
fn version_named(has_value: bool, value: &[u8]) -> Option<&str>
    ensures judged { version_judged (option_map (λ text. text.now) result)
        ≡ version_judged (text_if has_value value.now) }
{
    if !has_value {
        return None;
    }
    match std::str::from_utf8(value) {
        Ok(value) => Some(value),
        Err(_) => None,
    }
}

/// Judges the version that a platform names in the header X-Broker-API-Version: `2.` and a number in decimal digits,
/// whichever. The value counts where `has_value` is true; a request without the header has none (section API Version
/// Header; that every 2.x is accepted, and that a request must name one, is this project's choice). It takes no
/// memory.
///
/// It returns `Done`, or `RefusedVersion` for every other value, and for none.
#[unsafe(no_mangle)]
pub extern "C" fn osb_api_version(has_value: bool, value: &[u8]) -> u32
    ensures version { (result ≡ code Status.Done) ↔ IsTrue (has_value && is_version value.now) }
    ensures statuses { IsTrue (is_one_of (Status.Done ∷ Status.RefusedVersion ∷ []) result) }
{
    match osb_wire::api_version(version_named(has_value, value)) {
        Ok(()) => Status::Done.code(),
        Err(_) => Status::RefusedVersion.code(),
    }
}

/// Judges whether the header Authorization names this user and this password, by HTTP's Basic scheme (section
/// Authentication). An empty user with an empty password is never accepted (this project's choice). The time that it
/// takes doesn't tell where they differ, as the code is written; no proof speaks of time.
///
/// It returns `Done`; `NotUtf8` exactly where any of the three isn't UTF-8; `Unauthorized` where they aren't named;
/// or, in place of `Done` and of `Unauthorized`, `Memory` where an allocation failed.
#[unsafe(no_mangle)]
pub extern "C" fn osb_basic_auth(alloc: Global, value: &[u8], user: &[u8], password: &[u8]) -> u32
    ensures authorized { result ≡ code Status.Done → IsTrue (is_authorized value.now user.now password.now) }
    ensures unauthorized { result ≡ code Status.Unauthorized
        → is_authorized value.now user.now password.now ≡ false }
    ensures not_utf8 { (result ≡ code Status.NotUtf8)
        ↔ ¬ (IsUtf8 value.now × IsUtf8 user.now × IsUtf8 password.now) }
    ensures statuses { IsTrue (is_one_of
        (Status.Done ∷ Status.NotUtf8 ∷ Status.Unauthorized ∷ Status.Memory ∷ []) result) }
{
    let Ok(value) = std::str::from_utf8(value) else {
        return Status::NotUtf8.code();
    };
    let Ok(user) = std::str::from_utf8(user) else {
        return Status::NotUtf8.code();
    };
    let Ok(password) = std::str::from_utf8(password) else {
        return Status::NotUtf8.code();
    };
    match osb_wire::basic_auth(alloc, value, user, password) {
        Ok(true) => Status::Done.code(),
        Ok(false) => Status::Unauthorized.code(),
        Err(Memory) => Status::Memory.code(),
    }
}

/// Reads the seconds that a broker names in the header Retry-After, a number in decimal digits below 2^64 (section
/// Polling Last Operation for Service Instances). It takes no memory.
///
/// It returns `Done`, or `NoSeconds` exactly where the value is no such number. `seconds` is then as before.
#[tactic(auto, using(crate::proofs::HeaderTexts::no_seconds))]
#[unsafe(no_mangle)]
pub extern "C" fn osb_retry_after(value: &[u8], seconds: &mut u64) -> u32
    ensures seconds { result ≡ code Status.Done → seconds_in value.now ≡ Some seconds.new }
    ensures no_seconds { (result ≡ code Status.NoSeconds) ↔ IsNone (seconds_in value.now) }
    ensures statuses { IsTrue (is_one_of (Status.Done ∷ Status.NoSeconds ∷ []) result) }
    ensures unwritten { result ≢ code Status.Done → seconds.new ≡ seconds.old }
{
    let Ok(value) = std::str::from_utf8(value) else {
        return Status::NoSeconds.code();
    };
    match osb_wire::retry_after(value) {
        Some(named) => {
            *seconds = named;
            Status::Done.code()
        }
        None => Status::NoSeconds.code(),
    }
}

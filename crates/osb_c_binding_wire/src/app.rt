//! Whether a Bind names the application that its plan needs.
ghost use Rattle.std.specs.Prelude.{◌≡◌, ◌&&◌, not, true, false, [], ◌∷◌, IsTrue};
ghost use Rattle.osb_binding_wire.specs.Apps.{app_in};
ghost use Rattle.osb_c_types.specs.Status.{code, is_one_of};

use osb_binding_wire::requires_app;
use osb_c_types::Status;
use osb_message::Memory;
use std::alloc::Global;

/// Judges whether a Bind lacks the application that its plan needs, given whether the plan needs one: a string
/// `app_guid` that isn't empty, of `bind_resource` or of the body itself. A body that is no object names none (sections
/// Binding and Service Broker Errors).
///
/// It returns `Done`; `RefusedApp` if the application is needed and not named, to which `osb_binding_refusal_status`
/// and `osb_binding_refusal_body` are the answer; or, in place of either, `Memory` if an allocation failed.
#[unsafe(no_mangle)]
pub extern "C" fn osb_requires_app(alloc: Global, needs_app: bool, body: &[u8]) -> u32
    ensures done { result ≡ code Status.Done → needs_app && not (app_in body.now) ≡ false }
    ensures lacks { result ≡ code Status.RefusedApp → needs_app && not (app_in body.now) ≡ true }
    ensures statuses { IsTrue (is_one_of (Status.Done ∷ Status.RefusedApp ∷ Status.Memory ∷ []) result) }
{
    match requires_app(alloc, needs_app, body) {
        Ok(true) => Status::RefusedApp.code(),
        Ok(false) => Status::Done.code(),
        Err(Memory) => Status::Memory.code(),
    }
}

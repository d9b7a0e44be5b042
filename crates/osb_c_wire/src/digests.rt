//! The digest by which two requests for one instance are compared.
ghost use Rattle.std.specs.Prelude.{◌≡◌, ◌≢◌, [], ◌∷◌, Some, None, IsTrue};
ghost use Rattle.osb_wire.specs.Digests as digests;
ghost use Rattle.osb_c_types.specs.Status.{code, is_one_of};

use osb_c_types::Status;
use osb_message::Memory;
use std::alloc::Global;

/// Gives the digest of the attributes that the body of a Provision names, 32 bytes: that of its `parameters`, as
/// [`osb_parameters_digest`] has it, and zeroes where it has none. Context, organization and space don't count (section
/// Provisioning; what counts is this project's choice).
///
/// It returns `Done`, or `Memory` where an allocation failed. The digest is then as before.
#[unsafe(no_mangle)]
pub extern "C" fn osb_attributes_digest(alloc: Global, body: &[u8], digest: &mut [u8; 32]) -> u32
    ensures digest { result ≡ code Status.Done → digest.new ≡ digests.attributes_digest body.now }
    ensures statuses { IsTrue (is_one_of (Status.Done ∷ Status.Memory ∷ []) result) }
    ensures unwritten { result ≢ code Status.Done → digest.new ≡ digest.old }
{
    match osb_wire::attributes_digest(alloc, body) {
        Ok(found) => {
            *digest = found;
            Status::Done.code()
        }
        Err(Memory) => Status::Memory.code(),
    }
}

/// Gives the digest of an instance's parameters, by their text, 32 bytes: the SHA-256 of their canonical text, in which
/// members stand in ascending order of their names, byte by byte, with no spaces and each number as it is written; of a
/// name that stands twice the last counts. An object with no members, and `null`, have the digest of none: zeroes
/// (section Provisioning; that two texts of parameters are the same where their canonical texts are is this project's
/// choice).
///
/// It returns `Done`; `NotJson` where the text isn't UTF-8 or isn't JSON; or, in place of either, `Memory` where an
/// allocation failed. Where it isn't `Done`, the digest is as before.
#[unsafe(no_mangle)]
pub extern "C" fn osb_parameters_digest(
    alloc: Global,
    parameters: &[u8],
    digest: &mut [u8; 32],
) -> u32
    ensures digest { result ≡ code Status.Done → digests.parameters_digest parameters.now ≡ Some digest.new }
    ensures not_json { result ≡ code Status.NotJson → digests.parameters_digest parameters.now ≡ None }
    ensures statuses { IsTrue (is_one_of (Status.Done ∷ Status.NotJson ∷ Status.Memory ∷ []) result) }
    ensures unwritten { result ≢ code Status.Done → digest.new ≡ digest.old }
{
    match osb_wire::parameters_digest(alloc, parameters) {
        Ok(Some(found)) => {
            *digest = found;
            Status::Done.code()
        }
        Ok(None) => Status::NotJson.code(),
        Err(Memory) => Status::Memory.code(),
    }
}

//! The digest by which two versions of an instance's maintenance are compared.
ghost use Rattle.std.specs.Prelude.{◌≡◌, ◌≢◌, ◌↔◌, [], ◌∷◌, IsTrue};
ghost use Rattle.std.specs.Str.{IsUtf8};
ghost use Rattle.osb_update_wire.specs.Versions.{version_digest};
ghost use Rattle.osb_c_instance.specs.Holdings.{digest_of};
ghost use Rattle.osb_c_types.specs.Status.{code, is_one_of};

use osb_c_types::Status;
use osb_instance::Digest;

/// Gives the digest of a version of an instance's maintenance, 32 bytes: the SHA-256 of its text, and zeroes, the digest
/// of none, of an empty text (section Maintenance Info Object; that versions are compared by digests is this project's
/// choice). It takes no memory.
///
/// It returns `Done`, or `NotUtf8` exactly if the version isn't UTF-8. The digest is then as before.
#[unsafe(no_mangle)]
pub extern "C" fn osb_version_digest(version: &[u8], digest: &mut [u8; 32]) -> u32
    ensures digest { result ≡ code Status.Done → digest_of digest.new ≡ version_digest version.now }
    ensures not_utf8 { (result ≡ code Status.NotUtf8) ↔ ¬ (IsUtf8 version.now) }
    ensures statuses { IsTrue (is_one_of (Status.Done ∷ Status.NotUtf8 ∷ []) result) }
    ensures unwritten { result ≢ code Status.Done → digest.new ≡ digest.old }
{
    let Ok(version) = std::str::from_utf8(version) else {
        return Status::NotUtf8.code();
    };
    let Digest { bytes } = osb_update_wire::version_digest(version);
    *digest = bytes;
    Status::Done.code()
}

//! The version of an instance's maintenance, and its digest.
ghost use Rattle.std.specs.Prelude.{◌≡◌, option_map};
ghost use Rattle.json.specs.Value.{value_view};
ghost use Rattle.osb_update_wire.specs.Versions as versions;

use json::Value;
use osb_instance::Digest;
use sha2::{Digest as Hash, Sha256};

// The string that stands under a name.
pub(crate) fn text_at<'a>(value: &Value<'a>, name: &str) -> Option<&'a str>
    ensures text { option_map (λ text. text.now) result ≡ versions.text_at name.now (value_view value.now) }
{
    match value.get(name) {
        Some(found) => found.as_str(),
        None => None,
    }
}

// The version that `maintenance_info` names.
pub(crate) fn version_at<'a>(value: &Value<'a>) -> Option<&'a str>
    ensures version { option_map (λ text. text.now) result ≡ versions.version_at (value_view value.now) }
{
    match value.get("maintenance_info") {
        Some(info) => text_at(info, "version"),
        None => None,
    }
}

/// The digest of a version of an instance's maintenance: the SHA-256 of its text. An empty text has the digest of none,
/// 32 zeroes: the standard has no empty version, and an Update to a plan without a version has to name that there is none
/// (this project's choice). It takes no memory. Section Maintenance Info Object.
pub fn version_digest(version: &str) -> Digest
    ensures digest { result ≡ versions.version_digest version.now }
{
    if version.is_empty() {
        return Digest { bytes: [0u8; 32] };
    }
    let bytes: [u8; 32] = <Sha256 as Hash>::digest(version);
    Digest { bytes }
}

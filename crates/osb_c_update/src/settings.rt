//! Settings, and what an Update changes of them, as they cross.
ghost use Rattle.std.specs.Prelude.{◌≡◌, Option, Some, None, if◌then◌else◌};
ghost use Rattle.osb_update.specs.Settings.{with_change};
ghost use Rattle.osb_c_instance.specs.Holdings.{digest_of};
ghost use Rattle.osb_c_types.specs.Ids.{number_of};
ghost use Rattle.osb_c_update.specs.Settings.{change_of, settings_of, zero_settings};

use osb_c_types::{OsbId, id_from, id_out};
use osb_instance::Digest;
use osb_message::PlanId;
use osb_update::{Change, Settings};

/// What an instance is set to (section Updating a Service Instance). What goes into the digests is the caller's choice.
#[repr(C)]
#[derive(Clone, Copy)]
pub struct OsbSettings {
    /// The plan (`plan_id`).
    pub plan: OsbId,
    /// The digest of the parameters (`parameters`).
    pub parameters: [u8; 32],
    /// The digest of the version of the maintenance (`maintenance_info`).
    pub version: [u8; 32],
}

/// The settings that an Update names. What it doesn't name stays (section Updating a Service Instance).
#[repr(C)]
#[derive(Clone, Copy)]
pub struct OsbChange {
    /// The plan, which counts if `has_plan` is true.
    pub plan: OsbId,
    /// The digest of the parameters, which counts if `has_parameters` is true.
    pub parameters: [u8; 32],
    /// The digest of the version of the maintenance, which counts if `has_version` is true.
    pub version: [u8; 32],
    /// Whether the plan is named.
    pub has_plan: bool,
    /// Whether the parameters are named.
    pub has_parameters: bool,
    /// Whether the version is named.
    pub has_version: bool,
}

/// The settings that crossed. It takes no memory.
pub fn settings_from(settings: &OsbSettings) -> Settings
    ensures settings { result ≡ settings_of settings.now }
{
    Settings {
        plan: id_from(settings.plan),
        parameters: Digest {
            bytes: settings.parameters,
        },
        version: Digest {
            bytes: settings.version,
        },
    }
}

/// The settings as they cross. It takes no memory.
pub fn settings_out(settings: &Settings) -> OsbSettings
    ensures settings { settings_of result ≡ settings.now }
{
    OsbSettings {
        plan: id_out(settings.plan),
        parameters: settings.parameters.bytes,
        version: settings.version.bytes,
    }
}

/// Settings of zeroes, which don't count. It takes no memory.
pub fn no_settings() -> OsbSettings
    ensures zero { result ≡ zero_settings }
{
    let Digest { bytes } = Digest::NONE;
    OsbSettings {
        plan: OsbId { high: 0, low: 0 },
        parameters: bytes,
        version: bytes,
    }
}

// The plan, if it is named.
fn some_plan(is_named: bool, plan: OsbId) -> Option<PlanId>
    ensures plan { result ≡ (if is_named then Some (number_of plan) else None) }
{
    if is_named { Some(id_from(plan)) } else { None }
}

// The digest, if it is named.
fn some_digest(is_named: bool, bytes: &[u8; 32]) -> Option<Digest>
    ensures digest { result ≡ (if is_named then Some (digest_of bytes.now) else None) }
{
    if is_named {
        Some(Digest { bytes: *bytes })
    } else {
        None
    }
}

/// What crossed of an Update's settings. It takes no memory.
pub fn change_from(change: &OsbChange) -> Change
    ensures change { result ≡ change_of change.now }
{
    Change {
        plan: some_plan(change.has_plan, change.plan),
        parameters: some_digest(change.has_parameters, &change.parameters),
        version: some_digest(change.has_version, &change.version),
    }
}

/// The settings that an Update asks for which comes for an instance with these: what the change names, and else what
/// there was (section Updating a Service Instance). It takes no memory.
#[unsafe(no_mangle)]
pub extern "C" fn osb_update_asked_for(
    settings: &OsbSettings,
    change: &OsbChange,
    asked: &mut OsbSettings,
)
    ensures changed { settings_of asked.new ≡ with_change (settings_of settings.now) (change_of change.now) }
{
    let settings = settings_from(settings);
    let change = change_from(change);
    *asked = settings_out(&settings.with(&change));
}

//! What a request asks of an instance that exists.
ghost use Rattle.std.specs.Prelude.{◌≡◌, IsNone, is_some};
ghost use Rattle.osb_instance.specs.Held.{no_attributes};
ghost use Rattle.osb_c_update.specs.Requests.{update_of};
ghost use Rattle.osb_c_update.specs.Settings.{change_of};
ghost use Rattle.osb_c_update_wire.specs.Asked as crossed;

use osb_c_types::{OsbId, id_out};
use osb_c_update::{OsbChange, OsbUpdate};
use osb_c_wire::id_or_zeroes;
use osb_instance::Digest;
use osb_update::{Change, Update};
use osb_update_wire::UpdateAsked;

/// What a request asks of an instance that exists: its settings to be changed, or what it has.
#[repr(C)]
#[derive(Clone, Copy)]
pub struct OsbUpdateAsked {
    /// Whether it is a Fetch, which asks for the instance itself.
    pub is_fetch: bool,
    /// Whether it is a Fetch that names its service.
    pub has_service: bool,
    /// Whether it is a Fetch that names its plan.
    pub has_plan: bool,
    /// The instance that it is asked of (`instance_id`).
    pub id: OsbId,
    /// The service of a Fetch (`service_id`), which counts if it is named.
    pub service: OsbId,
    /// The plan of a Fetch (`plan_id`), which counts if it is named.
    pub plan: OsbId,
    /// The Update, which counts if it is no Fetch.
    pub update: OsbUpdate,
}

// A digest that may be missing, as it crosses: zeroes if it is.
fn bytes_or_zeroes(digest: Option<Digest>) -> [u8; 32]
    ensures digest { crossed.digest_if (is_some digest) result ≡ digest }
    ensures none { IsNone digest → result ≡ no_attributes.bytes }
{
    let Digest { bytes } = digest.unwrap_or(Digest::NONE);
    bytes
}

// The settings that an Update names, as they cross.
fn change_out(change: &Change) -> OsbChange
    ensures change { change_of result ≡ change.now }
    ensures plain { crossed.IsPlainChange result }
{
    let parameters = bytes_or_zeroes(change.parameters);
    let version = bytes_or_zeroes(change.version);
    OsbChange {
        plan: id_or_zeroes(change.plan),
        parameters,
        version,
        has_plan: change.plan.is_some(),
        has_parameters: change.parameters.is_some(),
        has_version: change.version.is_some(),
    }
}

// An Update as it crosses.
fn update_out(update: &Update) -> OsbUpdate
    ensures update { update_of result ≡ update.now }
    ensures plain { crossed.IsPlainChange result.change }
{
    let change = change_out(&update.change);
    OsbUpdate {
        service: id_out(update.service),
        change,
        number: update.number,
        accepts_incomplete: update.accepts_incomplete,
    }
}

// An Update of zeroes, which doesn't count.
fn no_update() -> OsbUpdate
    ensures zero { result ≡ crossed.zero_update }
{
    let Digest { bytes } = Digest::NONE;
    let change = OsbChange {
        plan: OsbId { high: 0, low: 0 },
        parameters: bytes,
        version: bytes,
        has_plan: false,
        has_parameters: false,
        has_version: false,
    };
    OsbUpdate {
        service: OsbId { high: 0, low: 0 },
        change,
        number: 0,
        accepts_incomplete: false,
    }
}

/// What is asked, as it crosses.
pub(crate) fn asked_out(it: &UpdateAsked) -> OsbUpdateAsked
    ensures asked { crossed.asked_of result ≡ it.now }
    ensures plain { crossed.IsPlainAsked result }
{
    match it {
        UpdateAsked::Update { id, update } => {
            let update = update_out(update);
            OsbUpdateAsked {
                is_fetch: false,
                has_service: false,
                has_plan: false,
                id: id_out(*id),
                service: OsbId { high: 0, low: 0 },
                plan: OsbId { high: 0, low: 0 },
                update,
            }
        }
        UpdateAsked::Fetch { id, service, plan } => {
            let update = no_update();
            OsbUpdateAsked {
                is_fetch: true,
                has_service: service.is_some(),
                has_plan: plan.is_some(),
                id: id_out(*id),
                service: id_or_zeroes(*service),
                plan: id_or_zeroes(*plan),
                update,
            }
        }
    }
}

//! An Update, and what the catalogue allows of it, as they cross.
ghost use Rattle.std.specs.Prelude.{◌≡◌};
ghost use Rattle.osb_c_update.specs.Requests.{allowed_of, update_of};

use crate::settings::{OsbChange, change_from};
use osb_c_types::{OsbId, id_from};
use osb_instance::Rejection;
use osb_message::Mode;
use osb_update::{Allowed, Update};

/// An Update, as far as the tables read it (section Updating a Service Instance).
#[repr(C)]
#[derive(Clone, Copy)]
pub struct OsbUpdate {
    /// The service (`service_id`).
    pub service: OsbId,
    /// The settings that it names.
    pub change: OsbChange,
    /// Its number among the Updates of the instance, from 1, or 0 if it has none (this project's choice).
    pub number: u64,
    /// Whether the platform takes an asynchronous operation (`accepts_incomplete`).
    pub accepts_incomplete: bool,
}

/// The Update that crossed. It takes no memory.
pub fn update_from(update: &OsbUpdate) -> Update
    ensures update { result ≡ update_of update.now }
{
    Update {
        service: id_from(update.service),
        change: change_from(&update.change),
        number: update.number,
        accepts_incomplete: update.accepts_incomplete,
    }
}

/// What a number says of the catalogue. It takes no memory.
pub fn allowed_from(code: u8) -> Option<Allowed>
    ensures allowed { result ≡ allowed_of code }
{
    match code {
        0 => Some(Allowed::Mode(Mode::Sync)),
        1 => Some(Allowed::Mode(Mode::Async)),
        2 => Some(Allowed::Rejected(Rejection::BadRequest)),
        3 => Some(Allowed::Rejected(Rejection::UnprocessableEntity)),
        4 => Some(Allowed::MaintenanceInfoConflict),
        _ => None,
    }
}

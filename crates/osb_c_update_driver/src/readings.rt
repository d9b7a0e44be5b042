//! What a transaction of a driver is given, as it crosses.
ghost use Rattle.std.specs.Prelude.{◌≡◌};
ghost use Rattle.osb_c_update_driver.specs.Reads as spec;

use osb_c_driver::{OsbReading, mode_for as mode_at_instance};
use osb_c_types::request_from;
use osb_c_update::{OsbUpdate, OsbUpdateHolding, update_from};
use osb_driver::{Driver, Stage};
use osb_instance::{Digest, Holding};
use osb_message::Mode;
use osb_update::{Allowed, UpdateHolding};
use osb_update_driver::{UpdateAsked, UpdateDriver, UpdateStage, UpdateTerms};

/// What a transaction is given: both parts of the row, as it is read and locked in the transaction, and what else the
/// program knows. What counts only at the first transaction of a request may be zeroes at any other.
#[repr(C)]
#[derive(Clone, Copy)]
pub struct OsbUpdateReading {
    /// What a driver of the instance is given. Its request counts only if `is_update` is false.
    pub reading: OsbReading,
    /// What is held of the updates. If the row keeps nothing of updates, this is the holding of which no Update was
    /// judged, with the settings of the row's Provision, or, without a row, those that the Provision asks for.
    pub change: OsbUpdateHolding,
    /// The Update, if `is_update` is true. It counts only at the first transaction of a request.
    pub update: OsbUpdate,
    /// The digest of the parameters that a Provision asks for.
    pub parameters: [u8; 32],
    /// The digest of the version of the maintenance that a Provision asks for.
    pub version: [u8; 32],
    /// The number of the mode of the update whose work is pending. If none is, any mode will do.
    pub update_mode: u8,
    /// What the catalogue has for the Update. It counts only at the first transaction of an Update.
    pub allowed: u8,
    /// Whether an Update is asked for. It counts only at the first transaction of a request.
    pub is_update: bool,
}

/// What was read, of what crossed.
#[derive(Clone, Copy, Debug, PartialEq, Eq)]
pub struct Given {
    /// What is held of the instance.
    pub instance: Holding,
    /// What is held of its updates.
    pub change: UpdateHolding,
    /// The mode of the plan of the row.
    pub row_mode: Option<Mode>,
    /// The mode of the request's plan.
    pub mode: Option<Mode>,
    /// How the update is done whose work is pending.
    pub update_mode: Mode,
    /// What is asked for.
    pub asked: UpdateAsked,
    /// What the catalogue has for the Update.
    pub allowed: Allowed,
}

// What is asked for, if the number of the request's kind stands for one.
pub(crate) fn asked_from(reading: &OsbUpdateReading) -> Option<UpdateAsked>
    ensures asked { result ≡ spec.asked_of reading.now }
{
    if reading.is_update {
        return Some(UpdateAsked::Update(update_from(&reading.update)));
    }
    let request = request_from(&reading.reading.request)?;
    Some(UpdateAsked::Instance {
        request,
        attributes: Digest {
            bytes: reading.reading.attributes,
        },
        parameters: Digest {
            bytes: reading.parameters,
        },
        version: Digest {
            bytes: reading.version,
        },
    })
}

// The mode by which the driver's transaction goes.
pub(crate) fn mode_for(driver: &UpdateDriver, given: &Given) -> Option<Mode>
    ensures mode { result ≡ spec.mode_for driver.now given.now }
{
    match driver.stage {
        UpdateStage::Instance(stage) => {
            let driver = Driver {
                attempt: driver.attempt,
                stage,
            };
            mode_at_instance(&driver, given.row_mode, given.mode)
        }
        _ => given.row_mode,
    }
}

// How the update is done that the catalogue allows, or else the pending one.
fn way_in(allowed: Allowed, way: Mode) -> Mode
    ensures way { result ≡ spec.way_in allowed way }
{
    match allowed {
        Allowed::Mode(mode) => mode,
        Allowed::Rejected(_) | Allowed::MaintenanceInfoConflict => way,
    }
}

// How the update is done by which the driver's transaction goes.
pub(crate) fn way_for(driver: &UpdateDriver, given: &Given) -> Mode
    ensures way { result ≡ spec.way_for driver.now given.now }
{
    match (&driver.attempt, &driver.stage) {
        (Some(_), UpdateStage::Instance(Stage::Begin { .. })) => {
            way_in(given.allowed, given.update_mode)
        }
        _ => given.update_mode,
    }
}

// What the catalogue has for the transaction.
pub(crate) fn terms_from(
    driver: &UpdateDriver,
    reading: &OsbUpdateReading,
    given: &Given,
) -> UpdateTerms
    ensures terms { result ≡ spec.terms_of driver.now reading.now given.now }
{
    UpdateTerms {
        mode: mode_for(driver, given),
        first_poll: reading.reading.first_poll,
        allowed: given.allowed,
        update_mode: given.update_mode,
    }
}

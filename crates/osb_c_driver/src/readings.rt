//! What a transaction of a driver is given, as it crosses.
ghost use Rattle.std.specs.Prelude.{◌≡◌};
ghost use Rattle.osb_c_driver.specs.Reads.{is_fit, mode_for, permit_of};

use osb_c_instance::OsbHolding;
use osb_c_types::{OsbId, OsbRequest, id_from};
use osb_driver::{Driver, Permit, Stage};
use osb_instance::Holding;
use osb_message::{InstanceId, Mode};

/// What a transaction is given: the row, as it is read and locked in the transaction, and what else the program knows.
#[repr(C)]
#[derive(Clone, Copy)]
pub struct OsbReading {
    /// The holding of the row.
    pub holding: OsbHolding,
    /// The request. It counts only at the first transaction of a request.
    pub request: OsbRequest,
    /// The id of the row: of its instance, or of its binding.
    pub id: OsbId,
    /// The number of the row, and zeroes if it has none.
    pub number: [u8; 16],
    /// The digest of the attributes of the request.
    pub attributes: [u8; 32],
    /// The mode of the plan of the row, or of the pending work if there is no row.
    pub row_mode: u8,
    /// The mode of the request's plan. It counts only at the first transaction of a request.
    pub mode: u8,
    /// The rule of the first Poll.
    pub first_poll: bool,
    /// Whether something may begin. It doesn't count for a binding.
    pub may_begin: bool,
    /// Whether the row has waited too long for its first Poll.
    pub may_give_up: bool,
}

/// Whether the row can come about at its plan, and its pending work is of its id. It takes no memory.
pub fn is_fit(reading: &OsbReading, row_mode: Option<Mode>, held: Holding) -> bool
    ensures fit { result ≡ is_fit reading.now row_mode held }
{
    let id: InstanceId = id_from(reading.id);
    let has_id = match held.work() {
        None => true,
        Some(request) => request.id == id,
    };
    held.fits(row_mode) && has_id
}

/// The mode by which the driver's transaction goes. It takes no memory.
pub fn mode_for(driver: &Driver, row_mode: Option<Mode>, mode: Option<Mode>) -> Option<Mode>
    ensures mode { result ≡ mode_for driver.now row_mode mode }
{
    match (driver.attempt, driver.stage) {
        (Some(_), Stage::Begin { .. }) => mode,
        _ => row_mode,
    }
}

/// What the transaction may do. It takes no memory.
pub fn permit_from(reading: &OsbReading) -> Permit
    ensures permit { result ≡ permit_of reading.now }
{
    Permit {
        begin: reading.may_begin,
        give_up: reading.may_give_up,
    }
}

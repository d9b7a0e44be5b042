//! What a transaction of a driver comes to, as it crosses.
ghost use Rattle.std.specs.Prelude.{◌≡◌, ◌↔◌, ◌⊎◌, ◌≢◌, Some, true, false, is_some, IfSome, IsSome};
ghost use Rattle.osb_c_platform_driver.specs.Drivers.{can_be, driver_of};
ghost use Rattle.osb_c_platform_driver.specs.Readings.{clean_up_code, some_recorded_of};
ghost use Rattle.osb_c_platform_driver.specs.Transactions.{CanFollow, IsWritten, number_after, zero_record};

use crate::drivers::{OsbPlatformDriver, moved};
use crate::readings::clean_up_out;
use osb_binding_platform_driver::{PlatformDriver, PlatformTransaction};
use osb_c_instance::{OsbRecord, recorded_out};
use osb_c_types::OsbId;
use osb_instance::Record;

/// What a transaction comes to: the row that it writes, what it did, and the driver that follows.
#[repr(C)]
#[derive(Clone, Copy)]
pub struct OsbPlatformTransaction {
    /// The record that the row has to have, if `has_record` is true.
    pub record: OsbRecord,
    /// The number that the row has to have.
    pub number: [u8; 16],
    /// The driver once the commit has returned.
    pub committed: OsbPlatformDriver,
    /// The driver if nobody knows whether the transaction was committed.
    pub unsure: OsbPlatformDriver,
    /// The driver if the transaction wasn't committed.
    pub failed: OsbPlatformDriver,
    /// The number of how the record was cleaned up.
    pub cleans_up: u8,
    /// Whether there is a record.
    pub has_record: bool,
    /// Whether the record or the number has to be written: one of them changed.
    pub writes: bool,
    /// Whether a request in flight was given up.
    pub times_out: bool,
    /// Whether a request is in flight by this transaction.
    pub sends: bool,
    /// Whether an answer was taken.
    pub takes: bool,
}

const ZERO_RECORD: OsbRecord = OsbRecord {
    service: OsbId { high: 0, low: 0 },
    plan: OsbId { high: 0, low: 0 },
    attempt: 0,
    state: 0,
    out: 0,
};

// The record as it crosses, or zeroes.
fn some_recorded_out(recorded: Option<Record>) -> OsbRecord
    ensures recorded { some_recorded_of (is_some recorded) result ≡ Some recorded }
    ensures plain { is_some recorded ≡ false → result ≡ zero_record }
{
    match recorded {
        Some(recorded) => recorded_out(recorded),
        None => ZERO_RECORD,
    }
}

// Whether there is a record.
fn is_recorded(recorded: Option<Record>) -> bool
    ensures there { result ≡ is_some recorded }
{
    recorded.is_some()
}

// Whether the transaction writes anything to the row that was read, or to its number.
fn writes(read: Option<Record>, written: &PlatformTransaction) -> bool
    ensures writes { (result ≡ true) ↔ ((written.now.takes_over ≡ true) ⊎ (written.now.recorded ≢ read)) }
{
    written.takes_over || written.recorded != read
}

// The number that the row has after the transaction.
fn number_after(takes_over: bool, own: [u8; 16], number: [u8; 16]) -> [u8; 16]
    ensures number { result ≡ number_after takes_over own number }
{
    if takes_over { own } else { number }
}

/// What a transaction comes to, as it crosses: of the driver that crossed, and of the record and the number that it has
/// read. It takes no memory.
pub fn transaction_out(
    driver: &OsbPlatformDriver,
    read: Option<Record>,
    number: [u8; 16],
    written: &PlatformTransaction,
) -> OsbPlatformTransaction
    ensures written { (before : PlatformDriver) → driver_of driver.now ≡ Some before
        → CanFollow before.is_binding written.now → IsWritten driver.now before read number written.now result }
{
    OsbPlatformTransaction {
        record: some_recorded_out(written.recorded),
        number: number_after(written.takes_over, driver.number, number),
        committed: moved(driver, written.stage),
        unsure: moved(driver, written.unsure),
        failed: moved(driver, written.failed),
        cleans_up: clean_up_out(written.cleans_up),
        has_record: is_recorded(written.recorded),
        writes: writes(read, written),
        times_out: written.times_out,
        sends: written.takes_over,
        takes: written.takes,
    }
}

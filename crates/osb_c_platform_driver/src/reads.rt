//! The transactions of a driver.
ghost use Rattle.std.specs.Prelude.{◌≡◌, ◌≢◌, ◌↔◌, [], ◌∷◌, Some, true, false};
ghost use Rattle.std.specs.Prelude.{IsTrue, IsSome, IsNone, IfSome, IsSomeAnd};
ghost use Rattle.osb_binding_platform_driver.specs.Driver as spec;
ghost use Rattle.osb_c_types.specs.Status.{code, is_one_of};
ghost use Rattle.osb_c_platform_driver.specs.Drivers.{can_be, driver_of, is_transaction, nobody};
ghost use Rattle.osb_c_platform_driver.specs.Readings.{IsGiven, is_owner, reading_of};
ghost use Rattle.osb_c_platform_driver.specs.Transactions.{CanFollow, IsWritten};

use crate::drivers::{OsbPlatformDriver, driver_from};
use crate::readings::{OsbPlatformReading, is_owner, reading_from};
use crate::transactions::{OsbPlatformTransaction, transaction_out};
use osb_binding_platform_driver::{PlatformDriver, PlatformReading, PlatformTransaction};
use osb_c_types::Status;

// `osb_binding_platform_driver`'s transaction.
#[tactic(auto, using(crate::proofs::Possible::transaction_there))]
fn transaction_within(
    driver: PlatformDriver,
    reading: &PlatformReading,
) -> Option<PlatformTransaction>
    ensures tx { result ≡ spec.transaction driver reading.now }
    ensures can { can_be driver.is_binding driver.stage ≡ true
        → IfSome result (λ tx. CanFollow driver.is_binding tx) }
    ensures there { IsSome result ↔ (is_transaction driver.stage ≡ true) }
{
    driver.transaction(reading)
}

/// The transaction of a driver, at `Claim`, `Take` or `Unsure`. The reading is what the program has read and locked in
/// this transaction. The number of a row that has none is zeroes, which no driver has. If `writes` of what follows is
/// true, write its record and its number. Once the commit has returned, go on with `committed`. If nobody knows whether
/// it was committed, go on with `unsure`, and if it wasn't, with `failed`.
///
/// [`PlatformDriver::transaction`] has the rules. At `Take` and `Unsure`, only the record, the number and `retrievable`
/// count. It takes no memory.
///
/// It returns `Done`, or the first of these that fits: `BadDriver` if the driver is none that a call gives, `BadRecord`
/// if one of the records that are there is none that a call gives, `WrongStage` if the driver's stage is no transaction.
/// If it isn't `Done`, the transaction is as before.
#[tactic(auto, using(crate::proofs::Crossing::nobody_owns))]
#[unsafe(no_mangle)]
pub extern "C" fn osb_platform_driver_read(
    driver: &OsbPlatformDriver,
    reading: &OsbPlatformReading,
    transaction: &mut OsbPlatformTransaction,
) -> u32
    ensures read { result ≡ code Status.Done → IsGiven driver.now reading.now (λ d r.
        IsSomeAnd (spec.transaction d r) (λ tx.
        IsWritten driver.now d r.recorded reading.now.number tx transaction.new)) }
    ensures nobody { IsSome (driver_of driver.now) → reading.now.number ≡ nobody
        → is_owner driver.now reading.now.number ≡ false }

    ensures bad_driver { (result ≡ code Status.BadDriver) ↔ IsNone (driver_of driver.now) }
    ensures bad_record { (result ≡ code Status.BadRecord) ↔ (IsSome (driver_of driver.now)
        × IsNone (reading_of (is_owner driver.now reading.now.number) reading.now)) }
    ensures wrong_stage { (result ≡ code Status.WrongStage)
        ↔ IsGiven driver.now reading.now (λ d r. is_transaction d.stage ≡ false) }
    ensures statuses { IsTrue (is_one_of
        (Status.Done ∷ Status.BadDriver ∷ Status.BadRecord ∷ Status.WrongStage ∷ []) result) }
    ensures unwritten { result ≢ code Status.Done → transaction.new ≡ transaction.old }
{
    let Some(before) = driver_from(driver) else {
        return Status::BadDriver.code();
    };
    let is_owner = is_owner(driver, &reading.number);
    let Some(read) = reading_from(reading, is_owner) else {
        return Status::BadRecord.code();
    };
    let Some(written) = transaction_within(before, &read) else {
        return Status::WrongStage.code();
    };
    *transaction = transaction_out(driver, read.recorded, reading.number, &written);
    Status::Done.code()
}

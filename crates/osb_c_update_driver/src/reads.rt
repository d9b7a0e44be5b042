//! The transactions of a driver.
ghost use Rattle.std.specs.Prelude.{◌≡◌, ◌≢◌, ◌↔◌, ◌⊎◌, [], ◌∷◌, Some, true, false};
ghost use Rattle.std.specs.Prelude.{IsTrue, IsSome, IsNone, IfSome, IsSomeAnd};
ghost use Rattle.osb_c_types.specs.Modes.{mode_of};
ghost use Rattle.osb_c_types.specs.Status.{code, is_one_of};
ghost use Rattle.osb_c_instance.specs.Holdings.{held_of};
ghost use Rattle.osb_c_driver.specs.Drivers.{nobody};
ghost use Rattle.osb_c_driver.specs.Reads.{is_owner};
ghost use Rattle.osb_c_update.specs.Holdings.{holding_of};
ghost use Rattle.osb_c_update.specs.Outcomes.{way_of};
ghost use Rattle.osb_c_update.specs.Requests.{allowed_of};
ghost use Rattle.osb_c_update_driver.specs.Drivers.{can_be, driver_of, is_transaction};
ghost use Rattle.osb_c_update_driver.specs.Reads.{HasHoldings, HasModes, IsGiven, asked_of, is_fit};
ghost use Rattle.osb_c_update_driver.specs.Reads.{transaction_of};
ghost use Rattle.osb_c_update_driver.specs.Transactions.{IsWritten};

use crate::drivers::{OsbUpdateDriver, driver_from};
use crate::readings::{Given, OsbUpdateReading, asked_from, terms_from};
use crate::transactions::{OsbUpdateTransaction, write};
use osb_c_driver::{is_fit, is_owner, permit_from};
use osb_c_instance::held_from;
use osb_c_types::{Status, mode_from};
use osb_c_update::{allowed_from, holding_from, way_from};
use osb_update_driver::{UpdateDriver, UpdateTransaction};

// `osb_update_driver`'s transaction.
#[tactic(auto, using(crate::proofs::Possible::transaction_kept, crate::proofs::Possible::transaction_there))]
fn transaction_within(
    driver: &UpdateDriver,
    is_owner: bool,
    reading: &OsbUpdateReading,
    given: &Given,
) -> Option<UpdateTransaction>
    ensures tx { result ≡ transaction_of driver.now is_owner reading.now given.now }
    ensures can { can_be driver.now.attempt driver.now.stage ≡ true
        → IfSome result (λ tx. can_be driver.now.attempt tx.stage ≡ true) }
    ensures there { IsSome result ↔ (is_transaction driver.now.stage ≡ true) }
{
    driver.transaction(
        is_owner,
        permit_from(&reading.reading),
        &terms_from(driver, reading, given),
        given.instance,
        &given.change,
        &given.asked,
    )
}

/// The transaction of a driver, at `Begin`, `End`, `Finish` or `Unsure`, over both parts of the row. Both, and the
/// number of `reading`, are those of the row, read and locked in this transaction; the number of a row that has none is
/// zeroes, which no driver has. If `writes` of what follows is true, write both parts and the number that it has. Once
/// the commit has returned, go on with `committed`. If nobody knows whether it was committed, go on with `unsure`.
///
/// A row whose holding of the instance doesn't fit its plan is left alone, and so is one whose pending work is of
/// another id. [`UpdateDriver::transaction`](osb_update_driver::UpdateDriver::transaction) has the rules. The mode is
/// that of the request's plan at the first transaction of a request, and else that of the row's.
///
/// If the committed driver is at `Work`, it has a worker that has done nothing yet. Work that only starts an operation
/// is done once its row is committed: the driver is that of
/// [`UpdateDriver::worked`](osb_update_driver::UpdateDriver::worked) or
/// [`UpdateDriver::worked_update`](osb_update_driver::UpdateDriver::worked_update) then. The update that the driver
/// begins is done as `allowed` says, and any other as `update_mode` says. It takes no memory.
///
/// It returns `Done`, or the first of these that fits: `BadDriver` if the driver is none that a call gives,
/// `BadHolding` if one of the parts is no holding, `BadMode` if one of the three modes stands for none, `BadKind` if a
/// request of the instance is asked for and the number of its kind stands for none, `BadAllowed` if the number stands
/// for nothing that a catalogue has, `WrongStage` if the driver's stage is no transaction, `Misfit` if the row doesn't
/// fit. If it isn't `Done`, all is as before.
#[tactic(auto, using(crate::proofs::Crossing::nobody_owns))]
#[unsafe(no_mangle)]
pub extern "C" fn osb_update_driver_read(
    driver: &OsbUpdateDriver,
    reading: &OsbUpdateReading,
    transaction: &mut OsbUpdateTransaction,
) -> u32
    ensures read { result ≡ code Status.Done → IsGiven driver.now reading.now (λ d g.
        IsSomeAnd (transaction_of d (is_owner driver.now.driver reading.now.reading.number) reading.now g) (λ tx.
        IsWritten driver.now d g reading.now.reading.number tx transaction.new)) }
    ensures nobody { IsSome (driver_of driver.now) → reading.now.reading.number ≡ nobody
        → is_owner driver.now.driver reading.now.reading.number ≡ false }

    ensures bad_driver { (result ≡ code Status.BadDriver) ↔ IsNone (driver_of driver.now) }
    ensures bad_holding { (result ≡ code Status.BadHolding) ↔ (IsSome (driver_of driver.now)
        × (IsNone (held_of reading.now.reading.holding) ⊎ IsNone (holding_of reading.now.change))) }
    ensures bad_mode { (result ≡ code Status.BadMode) ↔ (HasHoldings driver.now reading.now
        × (IsNone (mode_of reading.now.reading.row_mode) ⊎ (IsNone (mode_of reading.now.reading.mode)
        ⊎ IsNone (way_of reading.now.update_mode)))) }
    ensures bad_kind { (result ≡ code Status.BadKind) ↔ (HasModes driver.now reading.now
        × IsNone (asked_of reading.now)) }
    ensures bad_allowed { (result ≡ code Status.BadAllowed) ↔ (HasModes driver.now reading.now
        × IsSome (asked_of reading.now) × IsNone (allowed_of reading.now.allowed)) }
    ensures wrong_stage { (result ≡ code Status.WrongStage)
        ↔ IsGiven driver.now reading.now (λ d g. is_transaction d.stage ≡ false) }
    ensures misfit { (result ≡ code Status.Misfit) ↔ IsGiven driver.now reading.now
        (λ d g. (is_transaction d.stage ≡ true) × (is_fit reading.now g ≡ false)) }
    ensures statuses { IsTrue (is_one_of (Status.Done ∷ Status.BadDriver ∷ Status.BadHolding ∷ Status.BadMode
        ∷ Status.BadKind ∷ Status.BadAllowed ∷ Status.WrongStage ∷ Status.Misfit ∷ []) result) }
    ensures unwritten { result ≢ code Status.Done → transaction.new ≡ transaction.old }
{
    let Some(read) = driver_from(driver) else {
        return Status::BadDriver.code();
    };
    let Some(instance) = held_from(&reading.reading.holding) else {
        return Status::BadHolding.code();
    };
    let Some(change) = holding_from(&reading.change) else {
        return Status::BadHolding.code();
    };
    let Some(row_mode) = mode_from(reading.reading.row_mode) else {
        return Status::BadMode.code();
    };
    let Some(mode) = mode_from(reading.reading.mode) else {
        return Status::BadMode.code();
    };
    let Some(update_mode) = way_from(reading.update_mode) else {
        return Status::BadMode.code();
    };
    let Some(asked) = asked_from(reading) else {
        return Status::BadKind.code();
    };
    let Some(allowed) = allowed_from(reading.allowed) else {
        return Status::BadAllowed.code();
    };
    let given = Given {
        instance,
        change,
        row_mode,
        mode,
        update_mode,
        asked,
        allowed,
    };
    let is_owner = is_owner(&driver.driver, &reading.reading.number);
    let found = transaction_within(&read, is_owner, reading, &given);
    let Some(written) = found else {
        return Status::WrongStage.code();
    };
    if !is_fit(&reading.reading, row_mode, instance) {
        return Status::Misfit.code();
    }
    *transaction = write(driver, &read, &given, reading.reading.number, &written);
    Status::Done.code()
}

//! The transactions of an instance's driver.
ghost use Rattle.std.specs.Prelude.{◌≡◌, ◌≢◌, ◌↔◌, ◌⊎◌, [], ◌∷◌, Some, true, false};
ghost use Rattle.std.specs.Prelude.{IsTrue, IsSome, IsNone, IfSome, IsSomeAnd};
ghost use Rattle.osb_c_types.specs.Kinds.{kind_of};
ghost use Rattle.osb_c_types.specs.Modes.{mode_of};
ghost use Rattle.osb_c_types.specs.Status.{code, is_one_of};
ghost use Rattle.osb_c_instance.specs.Holdings.{held_of};
ghost use Rattle.osb_c_driver.specs.Drivers.{can_be, driver_of, is_transaction, nobody};
ghost use Rattle.osb_c_driver.specs.Reads.{IsGiven, is_fit, is_owner, mode_for, permit_of, transaction_of};
ghost use Rattle.osb_c_driver.specs.Transactions.{IsWritten};

use crate::drivers::{OsbDriver, driver_from, is_owner};
use crate::readings::{OsbReading, is_fit, mode_for, permit_from};
use crate::transactions::{OsbTransaction, write};
use osb_c_instance::held_from;
use osb_c_types::{Status, mode_from, request_from};
use osb_driver::{Driver, Permit, Transaction};
use osb_instance::{Digest, Holding};
use osb_message::{Mode, Request};

// `osb_driver`'s transaction.
#[tactic(auto, using(crate::proofs::Possible::transaction_kept, crate::proofs::Possible::transaction_there))]
fn transaction_within(
    driver: &Driver,
    is_owner: bool,
    permit: Permit,
    mode: Option<Mode>,
    reading: &OsbReading,
    held: Holding,
    asked: &Request,
) -> Option<Transaction>
    ensures tx { result ≡ transaction_of driver.now is_owner permit mode reading.now held asked.now }
    ensures can { can_be driver.now.attempt driver.now.stage ≡ true
        → IfSome result (λ tx. can_be driver.now.attempt tx.stage ≡ true) }
    ensures there { IsSome result ↔ (is_transaction driver.now.stage ≡ true) }
{
    let attributes = Digest {
        bytes: reading.attributes,
    };
    driver.transaction(
        is_owner,
        permit,
        mode,
        reading.first_poll,
        held,
        asked,
        attributes,
    )
}

/// The transaction of an instance's driver, at `Begin`, `End`, `Finish` or `Unsure`. The holding and the number of
/// `reading` are those of the row, read and locked in this transaction; the number of a row that has none is zeroes,
/// which no driver has. If `writes` of what follows is true, write the holding and the number that it has. Once the
/// commit has returned, go on with `committed`. If nobody knows whether it was committed, go on with `unsure`.
///
/// A row that doesn't fit its plan is left alone, and so is one whose pending work is of another id. `may_begin` is as in
/// `osb_holding_begin_if`. `first_poll`, the request and its attributes are those of `osb_holding_begin`. They count only
/// at the first transaction of a request, and so does the mode of the request's plan; for a take-up they may be zeroes.
/// [`Driver::transaction`](osb_driver::Driver::transaction) has the rules.
///
/// If the committed driver is at `Work`, it has a worker that has done nothing yet. Work that only starts an operation is
/// done once its row is committed: the driver is that of [`Driver::worked`](osb_driver::Driver::worked) then. If the work
/// isn't known, neither is how it ended. It takes no memory.
///
/// It returns `Done`, or the first of these that fits: `BadDriver` if the driver is none that a call gives,
/// `BadHolding` if the holding is none, `BadMode` if one of the numbers stands for no mode, `BadKind` if that of the
/// request's kind stands for none, `WrongStage` if the driver's stage is no transaction, `Misfit` if the row doesn't fit.
/// If it isn't `Done`, all is as before.
#[tactic(auto, using(crate::proofs::Crossing::nobody_owns))]
#[unsafe(no_mangle)]
pub extern "C" fn osb_driver_read(
    driver: &OsbDriver,
    reading: &OsbReading,
    transaction: &mut OsbTransaction,
) -> u32
    ensures read { result ≡ code Status.Done → IsGiven driver.now reading.now (λ d held row_mode mode asked.
        IsSomeAnd (transaction_of d (is_owner driver.now reading.now.number) (permit_of reading.now)
        (mode_for d row_mode mode) reading.now held asked) (λ tx.
        IsWritten driver.now d (mode_for d row_mode mode) held reading.now.number tx transaction.new)) }
    ensures nobody { IsSome (driver_of driver.now) → reading.now.number ≡ nobody
        → is_owner driver.now reading.now.number ≡ false }

    ensures bad_driver { (result ≡ code Status.BadDriver) ↔ IsNone (driver_of driver.now) }
    ensures bad_holding { (result ≡ code Status.BadHolding)
        ↔ (IsSome (driver_of driver.now) × IsNone (held_of reading.now.holding)) }
    ensures bad_mode { (result ≡ code Status.BadMode) ↔ (IsSome (driver_of driver.now)
        × IsSome (held_of reading.now.holding)
        × (IsNone (mode_of reading.now.row_mode) ⊎ IsNone (mode_of reading.now.mode))) }
    ensures bad_kind { (result ≡ code Status.BadKind) ↔ (IsSome (driver_of driver.now)
        × IsSome (held_of reading.now.holding) × IsSome (mode_of reading.now.row_mode)
        × IsSome (mode_of reading.now.mode) × IsNone (kind_of reading.now.request.kind)) }
    ensures wrong_stage { (result ≡ code Status.WrongStage) ↔ IsGiven driver.now reading.now
        (λ d held row_mode mode asked. is_transaction d.stage ≡ false) }
    ensures misfit { (result ≡ code Status.Misfit) ↔ IsGiven driver.now reading.now
        (λ d held row_mode mode asked. (is_transaction d.stage ≡ true)
        × (is_fit reading.now row_mode held ≡ false)) }
    ensures statuses { IsTrue (is_one_of (Status.Done ∷ Status.BadDriver ∷ Status.BadHolding ∷ Status.BadMode
        ∷ Status.BadKind ∷ Status.WrongStage ∷ Status.Misfit ∷ []) result) }
    ensures unwritten { result ≢ code Status.Done → transaction.new ≡ transaction.old }
{
    let Some(read) = driver_from(driver) else {
        return Status::BadDriver.code();
    };
    let Some(held) = held_from(&reading.holding) else {
        return Status::BadHolding.code();
    };
    let Some(row_mode) = mode_from(reading.row_mode) else {
        return Status::BadMode.code();
    };
    let Some(mode) = mode_from(reading.mode) else {
        return Status::BadMode.code();
    };
    let Some(asked) = request_from(&reading.request) else {
        return Status::BadKind.code();
    };
    let mode = mode_for(&read, row_mode, mode);
    let is_owner = is_owner(driver, &reading.number);
    let permit = permit_from(reading);
    let found = transaction_within(&read, is_owner, permit, mode, reading, held, &asked);
    let Some(written) = found else {
        return Status::WrongStage.code();
    };
    if !is_fit(reading, row_mode, held) {
        return Status::Misfit.code();
    }
    *transaction = write(driver, read, mode, held, reading.number, &written);
    Status::Done.code()
}

//! The transactions of a binding's driver.
ghost use Rattle.std.specs.Prelude.{◌≡◌, ◌≢◌, ◌↔◌, ◌⊎◌, [], ◌∷◌, Some, true, false};
ghost use Rattle.std.specs.Prelude.{IsTrue, IsSome, IsNone, IfSome, IsSomeAnd};
ghost use Rattle.osb_binding.specs.Begun.{is_forgotten};
ghost use Rattle.osb_binding.specs.Requests.{binding_request};
ghost use Rattle.osb_binding_driver.specs.Driver.{permit};
ghost use Rattle.osb_c_types.specs.Kinds.{kind_of};
ghost use Rattle.osb_c_types.specs.Modes.{mode_of};
ghost use Rattle.osb_c_types.specs.Status.{code, is_one_of};
ghost use Rattle.osb_c_instance.specs.Holdings.{held_of};
ghost use Rattle.osb_c_driver.specs.Drivers.{can_be, driver_of, is_transaction, nobody};
ghost use Rattle.osb_c_driver.specs.Reads.{IsGivenOf, binding_transaction_of, is_fit, is_owner, mode_for};
ghost use Rattle.osb_c_driver.specs.Reads.{transaction_of};
ghost use Rattle.osb_c_driver.specs.Transactions.{IsWritten};

use crate::drivers::{OsbDriver, driver_from, is_owner};
use crate::readings::{OsbReading, is_fit, mode_for};
use crate::transactions::{OsbTransaction, write};
use osb_binding::BindingHolding;
use osb_binding_driver::transaction as transact;
use osb_c_binding::asked_from;
use osb_c_instance::{OsbHolding, held_from};
use osb_c_types::{Status, mode_from, request_from};
use osb_driver::{Driver, Transaction};
use osb_instance::{Digest, Holding};
use osb_message::{Mode, Request};

// `osb_binding_driver`'s transaction, for the request of the tables.
#[tactic(auto, using(crate::proofs::Possible::binding_kept, crate::proofs::Possible::binding_there))]
fn transaction_within(
    driver: &Driver,
    is_owner: bool,
    mode: Option<Mode>,
    reading: &OsbReading,
    held: Holding,
    of_instance: Holding,
    asked: Request,
) -> Option<Transaction>
    ensures tx { result ≡ binding_transaction_of driver.now is_owner mode reading.now held of_instance asked }
    ensures permitted { is_forgotten of_instance held ≡ false → result ≡ transaction_of driver.now is_owner
        (permit of_instance (binding_request 0 asked) reading.now.may_give_up) mode reading.now held asked }
    ensures can { can_be driver.now.attempt driver.now.stage ≡ true
        → IfSome result (λ tx. can_be driver.now.attempt tx.stage ≡ true) }
    ensures there { IsSome result ↔ (is_transaction driver.now.stage ≡ true) }
{
    let attributes = Digest {
        bytes: reading.attributes,
    };
    let request = asked_from(asked);
    let row = BindingHolding::of(held);
    transact(
        driver,
        is_owner,
        reading.may_give_up,
        mode,
        reading.first_poll,
        row,
        of_instance,
        &request,
        attributes,
    )
}

/// The transaction of a binding's driver, as `osb_driver_read` is that of an instance's. `instance` is the holding of
/// the binding's instance, read and locked in this transaction. The modes are those of binding at the plans, and the id
/// of the request is the binding's.
///
/// What may begin is what the instance lets begin, as in `osb_binding_begin`: so the call is `osb_driver_read` with a
/// `may_begin` that is true unless the request is a Bind and the instance isn't there. Only if the instance has a
/// tombstone, and nothing is kept of the binding, the request is answered at once and nothing is written: a Bind with
/// 503, and an Unbind with 410. It takes no memory.
///
/// It returns `Done`, or the first of these that fits: `BadDriver` if the driver is none that a call gives,
/// `BadHolding` if one of the holdings is none, `BadMode` if one of the numbers stands for no mode, `BadKind` if that of
/// the request's kind stands for none, `WrongStage` if the driver's stage is no transaction, `Misfit` if the row doesn't
/// fit. If it isn't `Done`, all is as before.
#[tactic(auto, using(crate::proofs::Crossing::nobody_owns))]
#[unsafe(no_mangle)]
pub extern "C" fn osb_binding_driver_read(
    driver: &OsbDriver,
    reading: &OsbReading,
    instance: &OsbHolding,
    transaction: &mut OsbTransaction,
) -> u32
    ensures read { result ≡ code Status.Done → IsGivenOf driver.now reading.now instance.now
        (λ d held i row_mode mode asked. IsSomeAnd (binding_transaction_of d
        (is_owner driver.now reading.now.number) (mode_for d row_mode mode) reading.now held i asked) (λ tx.
        IsWritten driver.now d (mode_for d row_mode mode) held reading.now.number tx transaction.new)) }
    ensures permitted { result ≡ code Status.Done → IsGivenOf driver.now reading.now instance.now
        (λ d held i row_mode mode asked. is_forgotten i held ≡ false → IsSomeAnd (transaction_of d
        (is_owner driver.now reading.now.number) (permit i (binding_request 0 asked) reading.now.may_give_up)
        (mode_for d row_mode mode) reading.now held asked) (λ tx.
        IsWritten driver.now d (mode_for d row_mode mode) held reading.now.number tx transaction.new)) }
    ensures nobody { IsSome (driver_of driver.now) → reading.now.number ≡ nobody
        → is_owner driver.now reading.now.number ≡ false }

    ensures bad_driver { (result ≡ code Status.BadDriver) ↔ IsNone (driver_of driver.now) }
    ensures bad_holding { (result ≡ code Status.BadHolding) ↔ (IsSome (driver_of driver.now)
        × (IsNone (held_of instance.now) ⊎ IsNone (held_of reading.now.holding))) }
    ensures bad_mode { (result ≡ code Status.BadMode) ↔ (IsSome (driver_of driver.now) × IsSome (held_of instance.now)
        × IsSome (held_of reading.now.holding)
        × (IsNone (mode_of reading.now.row_mode) ⊎ IsNone (mode_of reading.now.mode))) }
    ensures bad_kind { (result ≡ code Status.BadKind) ↔ (IsSome (driver_of driver.now) × IsSome (held_of instance.now)
        × IsSome (held_of reading.now.holding) × IsSome (mode_of reading.now.row_mode)
        × IsSome (mode_of reading.now.mode) × IsNone (kind_of reading.now.request.kind)) }
    ensures wrong_stage { (result ≡ code Status.WrongStage) ↔ IsGivenOf driver.now reading.now instance.now
        (λ d held i row_mode mode asked. is_transaction d.stage ≡ false) }
    ensures misfit { (result ≡ code Status.Misfit) ↔ IsGivenOf driver.now reading.now instance.now
        (λ d held i row_mode mode asked. (is_transaction d.stage ≡ true)
        × (is_fit reading.now row_mode held ≡ false)) }
    ensures statuses { IsTrue (is_one_of (Status.Done ∷ Status.BadDriver ∷ Status.BadHolding ∷ Status.BadMode
        ∷ Status.BadKind ∷ Status.WrongStage ∷ Status.Misfit ∷ []) result) }
    ensures unwritten { result ≢ code Status.Done → transaction.new ≡ transaction.old }
{
    let Some(read) = driver_from(driver) else {
        return Status::BadDriver.code();
    };
    let Some(instance) = held_from(instance) else {
        return Status::BadHolding.code();
    };
    let Some(held) = held_from(&reading.holding) else {
        return Status::BadHolding.code();
    };
    let Some(row_mode) = mode_from(reading.row_mode) else {
        return Status::BadMode.code();
    };
    let Some(mode) = mode_from(reading.mode) else {
        return Status::BadMode.code();
    };
    let Some(asked) = request_from(&reading.request) else {
        return Status::BadKind.code();
    };
    let mode = mode_for(&read, row_mode, mode);
    let is_owner = is_owner(driver, &reading.number);
    let found = transaction_within(&read, is_owner, mode, reading, held, instance, asked);
    let Some(written) = found else {
        return Status::WrongStage.code();
    };
    if !is_fit(reading, row_mode, held) {
        return Status::Misfit.code();
    }
    *transaction = write(driver, read, mode, held, reading.number, &written);
    Status::Done.code()
}

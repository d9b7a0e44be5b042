//! What is reported of the calls of the backend to a driver at `Work`.
ghost use Rattle.std.specs.Prelude.{◌≡◌, ◌≢◌, ◌↔◌, [], ◌∷◌, Some, true, false};
ghost use Rattle.std.specs.Prelude.{IsTrue, IsSome, IsNone, IsSomeAnd};
ghost use Rattle.osb_driver.specs.Worker.{called, looked, synced};
ghost use Rattle.osb_c_types.specs.Status.{code, is_one_of};
ghost use Rattle.osb_c_driver.specs.Drivers.{IsPlainDriver, IsWorked, IsWorker, driver_of};
ghost use Rattle.osb_c_driver.specs.Workers.{call_in, is_change, is_look, is_sync, rejection_of, there_of};

use crate::drivers::{OsbDriver, driver_from};
use crate::workers::{rejection_from, there_from, worked, worker_from};
use osb_c_types::Status;
use osb_driver::Call;

/// Reports what the look of the worker has found. A look that ends the work moves the driver on, to `End` or to `Finish`:
/// as [`Driver::worked`](osb_driver::Driver::worked) and [`Driver::finished`](osb_driver::Driver::finished) do, with the
/// outcome of [`Worker::looked`](osb_driver::Worker::looked). A look that failed isn't reported: step the driver no more.
/// It takes no memory.
///
/// It returns `Done`, or the first of these that fits: `BadDriver` if the driver is none that a call gives, `BadThere` if
/// the number stands for nothing that a look finds, `WrongStage` if the driver doesn't ask for a look. If it isn't
/// `Done`, the driver is as before.
#[unsafe(no_mangle)]
pub extern "C" fn osb_driver_looked(driver: &mut OsbDriver, there: u8) -> u32
    ensures looked { result ≡ code Status.Done → IsWorker driver.old (λ d w.
        IsSomeAnd (there_of there) (λ found. IsWorked d (looked w found) driver.new)) }
    ensures number { result ≡ code Status.Done → driver.new.number ≡ driver.old.number }
    ensures plain { result ≡ code Status.Done → IsPlainDriver driver.new }

    ensures bad_driver { (result ≡ code Status.BadDriver) ↔ IsNone (driver_of driver.old) }
    ensures bad_there { (result ≡ code Status.BadThere)
        ↔ (IsSome (driver_of driver.old) × IsNone (there_of there)) }
    ensures wrong_stage { (result ≡ code Status.WrongStage) ↔ (IsSome (driver_of driver.old)
        × IsSome (there_of there) × (is_look (call_in driver.old) ≡ false)) }
    ensures statuses { IsTrue (is_one_of
        (Status.Done ∷ Status.BadDriver ∷ Status.BadThere ∷ Status.WrongStage ∷ []) result) }
    ensures unwritten { result ≢ code Status.Done → driver.new ≡ driver.old }
{
    let Some(before) = driver_from(driver) else {
        return Status::BadDriver.code();
    };
    let Some(there) = there_from(there) else {
        return Status::BadThere.code();
    };
    let Some(worker) = worker_from(driver) else {
        return Status::WrongStage.code();
    };
    if worker.call() != Some(Call::Look) {
        return Status::WrongStage.code();
    }
    *driver = worked(driver, before, worker.looked(there));
    Status::Done.code()
}

/// Reports that what exists is on disk. A sync that failed isn't reported: step the driver no more. It takes no memory.
///
/// It returns `Done`, or the first of these that fits: `BadDriver` if the driver is none that a call gives, `WrongStage`
/// if the driver doesn't ask for a sync. If it isn't `Done`, the driver is as before.
#[unsafe(no_mangle)]
pub extern "C" fn osb_driver_synced(driver: &mut OsbDriver) -> u32
    ensures synced { result ≡ code Status.Done → IsWorker driver.old (λ d w. IsWorked d (synced w) driver.new) }
    ensures number { result ≡ code Status.Done → driver.new.number ≡ driver.old.number }
    ensures plain { result ≡ code Status.Done → IsPlainDriver driver.new }

    ensures bad_driver { (result ≡ code Status.BadDriver) ↔ IsNone (driver_of driver.old) }
    ensures wrong_stage { (result ≡ code Status.WrongStage)
        ↔ (IsSome (driver_of driver.old) × (is_sync (call_in driver.old) ≡ false)) }
    ensures statuses { IsTrue (is_one_of (Status.Done ∷ Status.BadDriver ∷ Status.WrongStage ∷ []) result) }
    ensures unwritten { result ≢ code Status.Done → driver.new ≡ driver.old }
{
    let Some(before) = driver_from(driver) else {
        return Status::BadDriver.code();
    };
    let Some(worker) = worker_from(driver) else {
        return Status::WrongStage.code();
    };
    if worker.call() != Some(Call::Sync) {
        return Status::WrongStage.code();
    }
    *driver = worked(driver, before, worker.synced());
    Status::Done.code()
}

/// Reports that the creation or the deletion has returned, and whether without an error (`ok`). `rejection` is the status
/// with which the backend has rejected a creation, or 0. It counts only for a creation that has failed. It takes no
/// memory.
///
/// It returns `Done`, or the first of these that fits: `BadDriver` if the driver is none that a call gives, `NotRefused`
/// if the rejection is none of 0, 400 and 422, `WrongStage` if the driver asks for neither. If it isn't `Done`, the driver
/// is as before.
#[unsafe(no_mangle)]
pub extern "C" fn osb_driver_called(driver: &mut OsbDriver, ok: bool, rejection: u16) -> u32
    ensures called { result ≡ code Status.Done → IsWorker driver.old (λ d w.
        IsSomeAnd (rejection_of rejection) (λ r. IsWorked d (called w ok r) driver.new)) }
    ensures number { result ≡ code Status.Done → driver.new.number ≡ driver.old.number }
    ensures plain { result ≡ code Status.Done → IsPlainDriver driver.new }

    ensures bad_driver { (result ≡ code Status.BadDriver) ↔ IsNone (driver_of driver.old) }
    ensures not_refused { (result ≡ code Status.NotRefused)
        ↔ (IsSome (driver_of driver.old) × IsNone (rejection_of rejection)) }
    ensures wrong_stage { (result ≡ code Status.WrongStage) ↔ (IsSome (driver_of driver.old)
        × IsSome (rejection_of rejection) × (is_change (call_in driver.old) ≡ false)) }
    ensures statuses { IsTrue (is_one_of
        (Status.Done ∷ Status.BadDriver ∷ Status.NotRefused ∷ Status.WrongStage ∷ []) result) }
    ensures unwritten { result ≢ code Status.Done → driver.new ≡ driver.old }
{
    let Some(before) = driver_from(driver) else {
        return Status::BadDriver.code();
    };
    let Some(rejection) = rejection_from(rejection) else {
        return Status::NotRefused.code();
    };
    let Some(worker) = worker_from(driver) else {
        return Status::WrongStage.code();
    };
    if !matches!(worker.call(), Some(Call::Create | Call::Delete)) {
        return Status::WrongStage.code();
    }
    *driver = worked(driver, before, worker.called(ok, rejection));
    Status::Done.code()
}

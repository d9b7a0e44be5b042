//! What is reported of the calls of the backend to a driver at `Work`, of the instance or of an update.
ghost use Rattle.std.specs.Prelude.{◌≡◌, ◌≢◌, ◌↔◌, [], ◌∷◌, Some, true, false};
ghost use Rattle.std.specs.Prelude.{IsTrue, IsSome, IsNone, IsSomeAnd, IfSome};
ghost use Rattle.osb_c_types.specs.Status.{code, is_one_of};
ghost use Rattle.osb_c_driver.specs.Workers.{rejection_of, there_of};
ghost use Rattle.osb_c_update.specs.Settings.{settings_of};
ghost use Rattle.osb_c_update_driver.specs.Drivers.{IsPlainDriver, IsWorked, IsWorker, driver_of};
ghost use Rattle.osb_c_update_driver.specs.Workers.{called, is_change, is_look, is_sync, looked, synced, worker_of};

use crate::drivers::{OsbUpdateDriver, driver_from, worked};
use crate::workers::{called, is_change, is_look, is_sync, looked, synced, worker_from};
use osb_c_driver::{rejection_from, there_from};
use osb_c_types::Status;
use osb_c_update::{OsbSettings, settings_from};

/// Reports what the look of the worker has found: what exists, and its settings, which count only for the work of an
/// update whose resource is whole. A look that ends the work moves the driver on, to `End` or to `Finish`: as
/// [`UpdateDriver::worked`](osb_update_driver::UpdateDriver::worked) and
/// [`UpdateDriver::finished`](osb_update_driver::UpdateDriver::finished) do, or the two of an update, with the outcome
/// of the worker. A look that failed isn't reported: step the driver no more. It takes no memory.
///
/// It returns `Done`, or the first of these that fits: `BadDriver` if the driver is none that a call gives, `BadThere`
/// if the number stands for nothing that a look finds, `WrongStage` if the driver doesn't ask for a look. If it isn't
/// `Done`, the driver is as before.
#[unsafe(no_mangle)]
pub extern "C" fn osb_update_driver_looked(
    driver: &mut OsbUpdateDriver,
    there: u8,
    settings: &OsbSettings,
) -> u32
    ensures looked { result ≡ code Status.Done → IsWorker driver.old (λ d w. IsSomeAnd (there_of there) (λ found.
        IsWorked d (looked w found (settings_of settings.now)) driver.new)) }
    ensures number { result ≡ code Status.Done → driver.new.driver.number ≡ driver.old.driver.number }
    ensures plain { result ≡ code Status.Done → IsPlainDriver driver.new }

    ensures bad_driver { (result ≡ code Status.BadDriver) ↔ IsNone (driver_of driver.old) }
    ensures bad_there { (result ≡ code Status.BadThere)
        ↔ (IsSome (driver_of driver.old) × IsNone (there_of there)) }
    ensures wrong_stage { (result ≡ code Status.WrongStage) ↔ (IsSome (driver_of driver.old)
        × IsSome (there_of there) × IfSome (worker_of driver.old) (λ w. is_look w ≡ false)) }
    ensures statuses { IsTrue (is_one_of
        (Status.Done ∷ Status.BadDriver ∷ Status.BadThere ∷ Status.WrongStage ∷ []) result) }
    ensures unwritten { result ≢ code Status.Done → driver.new ≡ driver.old }
{
    let Some(before) = driver_from(driver) else {
        return Status::BadDriver.code();
    };
    let Some(there) = there_from(there) else {
        return Status::BadThere.code();
    };
    let Some(worker) = worker_from(driver) else {
        return Status::WrongStage.code();
    };
    if !is_look(&worker) {
        return Status::WrongStage.code();
    }
    let after = looked(&worker, there, &settings_from(settings));
    *driver = worked(driver, &before, &after);
    Status::Done.code()
}

/// Reports that what exists is on disk, with its settings. A sync that failed isn't reported: step the driver no more.
/// It takes no memory.
///
/// It returns `Done`, or the first of these that fits: `BadDriver` if the driver is none that a call gives,
/// `WrongStage` if the driver doesn't ask for a sync. If it isn't `Done`, the driver is as before.
#[unsafe(no_mangle)]
pub extern "C" fn osb_update_driver_synced(driver: &mut OsbUpdateDriver) -> u32
    ensures synced { result ≡ code Status.Done → IsWorker driver.old (λ d w. IsWorked d (synced w) driver.new) }
    ensures number { result ≡ code Status.Done → driver.new.driver.number ≡ driver.old.driver.number }
    ensures plain { result ≡ code Status.Done → IsPlainDriver driver.new }

    ensures bad_driver { (result ≡ code Status.BadDriver) ↔ IsNone (driver_of driver.old) }
    ensures wrong_stage { (result ≡ code Status.WrongStage) ↔ (IsSome (driver_of driver.old)
        × IfSome (worker_of driver.old) (λ w. is_sync w ≡ false)) }
    ensures statuses { IsTrue (is_one_of (Status.Done ∷ Status.BadDriver ∷ Status.WrongStage ∷ []) result) }
    ensures unwritten { result ≢ code Status.Done → driver.new ≡ driver.old }
{
    let Some(before) = driver_from(driver) else {
        return Status::BadDriver.code();
    };
    let Some(worker) = worker_from(driver) else {
        return Status::WrongStage.code();
    };
    if !is_sync(&worker) {
        return Status::WrongStage.code();
    }
    *driver = worked(driver, &before, &synced(&worker));
    Status::Done.code()
}

/// Reports that the creation, the deletion or the update has returned, and whether without an error (`ok`). `rejection`
/// is the status with which the backend has rejected a creation or an update, or 0. It counts only for one that has
/// failed. It takes no memory.
///
/// It returns `Done`, or the first of these that fits: `BadDriver` if the driver is none that a call gives,
/// `NotRefused` if the rejection is none of 0, 400 and 422, `WrongStage` if the driver asks for none of the three. If
/// it isn't `Done`, the driver is as before.
#[unsafe(no_mangle)]
pub extern "C" fn osb_update_driver_called(
    driver: &mut OsbUpdateDriver,
    ok: bool,
    rejection: u16,
) -> u32
    ensures called { result ≡ code Status.Done → IsWorker driver.old (λ d w.
        IsSomeAnd (rejection_of rejection) (λ r. IsWorked d (called w ok r) driver.new)) }
    ensures number { result ≡ code Status.Done → driver.new.driver.number ≡ driver.old.driver.number }
    ensures plain { result ≡ code Status.Done → IsPlainDriver driver.new }

    ensures bad_driver { (result ≡ code Status.BadDriver) ↔ IsNone (driver_of driver.old) }
    ensures not_refused { (result ≡ code Status.NotRefused)
        ↔ (IsSome (driver_of driver.old) × IsNone (rejection_of rejection)) }
    ensures wrong_stage { (result ≡ code Status.WrongStage) ↔ (IsSome (driver_of driver.old)
        × IsSome (rejection_of rejection) × IfSome (worker_of driver.old) (λ w. is_change w ≡ false)) }
    ensures statuses { IsTrue (is_one_of
        (Status.Done ∷ Status.BadDriver ∷ Status.NotRefused ∷ Status.WrongStage ∷ []) result) }
    ensures unwritten { result ≢ code Status.Done → driver.new ≡ driver.old }
{
    let Some(before) = driver_from(driver) else {
        return Status::BadDriver.code();
    };
    let Some(rejection) = rejection_from(rejection) else {
        return Status::NotRefused.code();
    };
    let Some(worker) = worker_from(driver) else {
        return Status::WrongStage.code();
    };
    if !is_change(&worker) {
        return Status::WrongStage.code();
    }
    *driver = worked(driver, &before, &called(&worker, ok, rejection));
    Status::Done.code()
}

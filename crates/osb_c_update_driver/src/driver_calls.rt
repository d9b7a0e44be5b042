//! A driver, and what is reported to it of its lock.
ghost use Rattle.std.specs.Prelude.{◌≡◌, ◌≢◌, ◌↔◌, [], ◌∷◌, Some, true, false, IsTrue, IsNone, IsSomeAnd};
ghost use Rattle.osb_c_types.specs.Status.{code, is_one_of};
ghost use Rattle.osb_c_driver.specs.Drivers.{is_number};
ghost use Rattle.osb_c_update_driver.specs.Drivers.{IsPlainDriver, after_lock, asks_for_lock, begun, driver_of};

use crate::drivers::{OsbUpdateDriver, driver_from, driver_out};
use osb_c_driver::{NOBODY, attempt_from};
use osb_c_types::Status;
use osb_driver::Stage;
use osb_update_driver::{UpdateDriver, UpdateStage};

// Whether the stage asks for the lock.
fn asks_for_lock(stage: &UpdateStage) -> bool
    ensures asks { result ≡ asks_for_lock stage.now }
{
    matches!(stage, UpdateStage::Instance(Stage::AwaitLock))
}

// The driver that has the lock, or hasn't.
fn after_lock(driver: &UpdateDriver, has_lock: bool) -> UpdateDriver
    ensures after { result ≡ after_lock has_lock driver.now }
{
    if has_lock {
        driver.locked()
    } else {
        driver.missed()
    }
}

/// Begins a driver, of a request or an Update (`is_request`) or of a take-up, once its program has taken the lock of
/// its key, if that was free: `has_lock` is whether it was. A lock of which nobody knows isn't had. The number is the
/// driver's own: no other driver ever has it, so the program draws 128 random bits. It takes no memory.
///
/// It returns `Done`; or `BadDriver` exactly if the number is zeroes, which stand for nobody. The driver is then as
/// before.
#[unsafe(no_mangle)]
pub extern "C" fn osb_update_driver_new(
    number: &[u8; 16],
    is_request: bool,
    has_lock: bool,
    driver: &mut OsbUpdateDriver,
) -> u32
    ensures new { result ≡ code Status.Done → driver_of driver.new ≡ Some (begun is_request has_lock) }
    ensures number { result ≡ code Status.Done → driver.new.driver.number ≡ number.now }
    ensures plain { result ≡ code Status.Done → IsPlainDriver driver.new }

    ensures bad_driver { (result ≡ code Status.BadDriver) ↔ (is_number number.now ≡ false) }
    ensures statuses { IsTrue (is_one_of (Status.Done ∷ Status.BadDriver ∷ []) result) }
    ensures unwritten { result ≢ code Status.Done → driver.new ≡ driver.old }
{
    if *number == NOBODY {
        return Status::BadDriver.code();
    }
    let begun = after_lock(&UpdateDriver::new(attempt_from(is_request)), has_lock);
    *driver = driver_out(*number, is_request, &begun.stage);
    Status::Done.code()
}

/// Reports whether the driver has the lock of its key, after it has waited for it at `AwaitLock`. A lock of which
/// nobody knows isn't had. It takes no memory.
///
/// It returns `Done`, or the first of these that fits: `BadDriver` if the driver is none that a call gives,
/// `WrongStage` if its stage asks for no lock. If it isn't `Done`, the driver is as before.
#[unsafe(no_mangle)]
pub extern "C" fn osb_update_driver_locked(driver: &mut OsbUpdateDriver, has_lock: bool) -> u32
    ensures locked { result ≡ code Status.Done → IsSomeAnd (driver_of driver.old) (λ d.
        driver_of driver.new ≡ Some (after_lock has_lock d)) }
    ensures number { result ≡ code Status.Done → driver.new.driver.number ≡ driver.old.driver.number }
    ensures plain { result ≡ code Status.Done → IsPlainDriver driver.new }

    ensures bad_driver { (result ≡ code Status.BadDriver) ↔ IsNone (driver_of driver.old) }
    ensures wrong_stage { (result ≡ code Status.WrongStage)
        ↔ IsSomeAnd (driver_of driver.old) (λ d. asks_for_lock d.stage ≡ false) }
    ensures statuses { IsTrue (is_one_of (Status.Done ∷ Status.BadDriver ∷ Status.WrongStage ∷ []) result) }
    ensures unwritten { result ≢ code Status.Done → driver.new ≡ driver.old }
{
    let Some(before) = driver_from(driver) else {
        return Status::BadDriver.code();
    };
    if !asks_for_lock(&before.stage) {
        return Status::WrongStage.code();
    }
    let after = after_lock(&before, has_lock);
    *driver = driver_out(driver.driver.number, driver.driver.is_request, &after.stage);
    Status::Done.code()
}

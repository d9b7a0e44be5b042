//! A driver, and what is reported to it.
ghost use Rattle.std.specs.Prelude.{◌≡◌, ◌≢◌, ◌↔◌, [], ◌∷◌, Some, true, false};
ghost use Rattle.std.specs.Prelude.{IsTrue, IsSome, IsNone, IsSomeAnd};
ghost use Rattle.osb_binding_platform_driver.specs.Driver.{answered, fetched, new_driver};
ghost use Rattle.osb_c_types.specs.Answers.{answer_of};
ghost use Rattle.osb_c_types.specs.Status.{code, is_one_of};
ghost use Rattle.osb_c_platform_driver.specs.Drivers.{IsPlainDriver, answer_if, driver_of, is_fetching, is_number};
ghost use Rattle.osb_c_platform_driver.specs.Drivers.{is_sending};

use crate::drivers::{NOBODY, OsbPlatformDriver, driver_at, driver_from, moved};
use osb_binding_platform_driver::PlatformStage;
use osb_c_types::{OsbAnswer, Status, answer_from};
use osb_message::Answer;

// Whether the stage sends the request.
fn is_sending(stage: PlatformStage) -> bool
    ensures sending { result ≡ is_sending stage }
{
    matches!(stage, PlatformStage::Send { .. })
}

// Whether the stage sends a Fetch.
fn is_fetching(stage: PlatformStage) -> bool
    ensures fetching { result ≡ is_fetching stage }
{
    matches!(stage, PlatformStage::Fetch { .. })
}

// The answer that is reported, or none.
fn answer_if(has_answer: bool, answer: OsbAnswer) -> Option<Answer>
    ensures answer { result ≡ answer_if has_answer (answer_of answer) }
{
    if has_answer {
        Some(answer_from(answer))
    } else {
        None
    }
}

/// Begins a driver, of a binding (`is_binding`) or of an instance. The number is the driver's own: no other driver ever
/// has it, so the program draws 128 random bits. It takes no memory.
///
/// It returns `Done`; or `BadDriver` exactly if the number is zeroes, which stand for nobody. The driver is then as
/// before.
#[unsafe(no_mangle)]
pub extern "C" fn osb_platform_driver_new(
    number: &[u8; 16],
    is_binding: bool,
    driver: &mut OsbPlatformDriver,
) -> u32
    ensures new { result ≡ code Status.Done → driver_of driver.new ≡ Some (new_driver is_binding) }
    ensures number { result ≡ code Status.Done → driver.new.number ≡ number.now }
    ensures plain { result ≡ code Status.Done → IsPlainDriver driver.new }

    ensures bad_driver { (result ≡ code Status.BadDriver) ↔ (is_number number.now ≡ false) }
    ensures statuses { IsTrue (is_one_of (Status.Done ∷ Status.BadDriver ∷ []) result) }
    ensures unwritten { result ≢ code Status.Done → driver.new ≡ driver.old }
{
    if *number == NOBODY {
        return Status::BadDriver.code();
    }
    *driver = driver_at(*number, is_binding, PlatformStage::Claim);
    Status::Done.code()
}

/// Reports what came of the request of the stage `Send`. `has_answer` is false if no answer came in time, or none that
/// is surely the broker's: the answer doesn't count then. `has_credentials` is whether the answer had an object of the
/// binding, and the program has sealed it. If `fetches` of the driver is true, and the answer says that the binding is
/// ready, the driver is at `Fetch` then; else at `Take`. It takes no memory.
///
/// It returns `Done`, or the first of these that fits: `BadDriver` if the driver is none that a call gives,
/// `WrongStage` if its stage isn't `Send`. If it isn't `Done`, the driver is as before.
#[unsafe(no_mangle)]
pub extern "C" fn osb_platform_driver_answered(
    driver: &mut OsbPlatformDriver,
    has_answer: bool,
    answer: OsbAnswer,
    has_credentials: bool,
) -> u32
    ensures answered { result ≡ code Status.Done → IsSomeAnd (driver_of driver.old) (λ d.
        driver_of driver.new ≡ Some (answered (answer_if has_answer (answer_of answer)) has_credentials d)) }
    ensures number { result ≡ code Status.Done → driver.new.number ≡ driver.old.number }
    ensures plain { result ≡ code Status.Done → IsPlainDriver driver.new }

    ensures bad_driver { (result ≡ code Status.BadDriver) ↔ IsNone (driver_of driver.old) }
    ensures wrong_stage { (result ≡ code Status.WrongStage)
        ↔ IsSomeAnd (driver_of driver.old) (λ d. is_sending d.stage ≡ false) }
    ensures statuses { IsTrue (is_one_of (Status.Done ∷ Status.BadDriver ∷ Status.WrongStage ∷ []) result) }
    ensures unwritten { result ≢ code Status.Done → driver.new ≡ driver.old }
{
    let Some(before) = driver_from(driver) else {
        return Status::BadDriver.code();
    };
    if !is_sending(before.stage) {
        return Status::WrongStage.code();
    }
    let answer = answer_if(has_answer, answer);
    let after = before.answered(answer, has_credentials);
    *driver = moved(driver, after.stage);
    Status::Done.code()
}

/// Reports what came of the Fetch of the stage `Fetch`: whether it was answered with an object of the binding, and the
/// program has sealed it. It takes no memory.
///
/// It returns `Done`, or the first of these that fits: `BadDriver` if the driver is none that a call gives,
/// `WrongStage` if its stage isn't `Fetch`. If it isn't `Done`, the driver is as before.
#[unsafe(no_mangle)]
pub extern "C" fn osb_platform_driver_fetched(
    driver: &mut OsbPlatformDriver,
    has_credentials: bool,
) -> u32
    ensures fetched { result ≡ code Status.Done → IsSomeAnd (driver_of driver.old) (λ d.
        driver_of driver.new ≡ Some (fetched has_credentials d)) }
    ensures number { result ≡ code Status.Done → driver.new.number ≡ driver.old.number }
    ensures plain { result ≡ code Status.Done → IsPlainDriver driver.new }

    ensures bad_driver { (result ≡ code Status.BadDriver) ↔ IsNone (driver_of driver.old) }
    ensures wrong_stage { (result ≡ code Status.WrongStage)
        ↔ IsSomeAnd (driver_of driver.old) (λ d. is_fetching d.stage ≡ false) }
    ensures statuses { IsTrue (is_one_of (Status.Done ∷ Status.BadDriver ∷ Status.WrongStage ∷ []) result) }
    ensures unwritten { result ≢ code Status.Done → driver.new ≡ driver.old }
{
    let Some(before) = driver_from(driver) else {
        return Status::BadDriver.code();
    };
    if !is_fetching(before.stage) {
        return Status::WrongStage.code();
    }
    let after = before.fetched(has_credentials);
    *driver = moved(driver, after.stage);
    Status::Done.code()
}

//! A worker as it crosses, within its driver.
ghost use Rattle.std.specs.Prelude.{◌≡◌, ◌≢◌, Some, IfSome, true};
ghost use Rattle.osb_driver.specs.Driver.{at_stage};
ghost use Rattle.osb_driver.specs.declared.worker.WorkerStage.{WorkerStage};
ghost use Rattle.osb_c_driver.specs.Drivers.{IsPlainDriver, IsWorked, can_be, driver_of, stage_of};
ghost use Rattle.osb_c_driver.specs.Workers.{call_code, can_work, look_at, look_code, look_of, possible_worker};
ghost use Rattle.osb_c_driver.specs.Workers.{rejection_code, rejection_of, stage_after, still, there_of, worker_for};
ghost use Rattle.osb_c_driver.specs.Workers.{worker_in, worker_of, worker_stage_of};

use crate::drivers::{OsbDriver, moved};
use osb_driver::{Call, Driver, Look, Worker, WorkerStage};
use osb_instance::{Rejection, Work, WorkOutcome};
use osb_network::Resource;

/// The rejection that a status stands for, and 0 for none. It takes no memory.
pub fn rejection_from(status: u16) -> Option<Option<Rejection>>
    ensures rejection { result ≡ rejection_of status }
{
    match status {
        0 => Some(None),
        400 => Some(Some(Rejection::BadRequest)),
        422 => Some(Some(Rejection::UnprocessableEntity)),
        _ => None,
    }
}

/// The status of a rejection, and 0 for none. It takes no memory.
pub fn rejection_out(rejection: Option<Rejection>) -> u16
    ensures status { result ≡ rejection_code rejection }
{
    match rejection {
        None => 0,
        Some(Rejection::BadRequest) => 400,
        Some(Rejection::UnprocessableEntity) => 422,
    }
}

/// What exists, by its number. It takes no memory.
pub fn there_from(code: u8) -> Option<Resource>
    ensures there { result ≡ there_of code }
{
    match code {
        0 => Some(Resource::Absent),
        1 => Some(Resource::Part),
        2 => Some(Resource::Whole),
        _ => None,
    }
}

// The look that a number stands for.
fn look_from(code: u8) -> Option<Look>
    ensures look { result ≡ look_of code }
{
    match code {
        0 => Some(Look::First),
        1 => Some(Look::Again),
        2 => Some(Look::Tried),
        3 => Some(Look::Undone),
        _ => None,
    }
}

// The number of a look.
fn look_out(look: Look) -> u8
    ensures code { result ≡ look_code look }
{
    match look {
        Look::First => 0,
        Look::Again => 1,
        Look::Tried => 2,
        Look::Undone => 3,
    }
}

/// The number of the call to make next, or 0 for none. It takes no memory.
pub fn call_out(call: Option<Call>) -> u8
    ensures code { result ≡ call_code call }
{
    match call {
        None => 0,
        Some(Call::Look) => 1,
        Some(Call::Sync) => 2,
        Some(Call::Create) => 3,
        Some(Call::Delete) => 4,
    }
}

// The stage of the worker that crossed, if its numbers stand for something.
fn worker_stage_from(driver: &OsbDriver) -> Option<WorkerStage>
    ensures stage { result ≡ worker_stage_of driver.now.call driver.now.look driver.now.creates }
{
    match driver.call {
        0 => Some(WorkerStage::Unknown),
        1 => {
            let look = look_from(driver.look)?;
            Some(WorkerStage::Look { look })
        }
        2 => {
            let look = look_from(driver.look)?;
            Some(WorkerStage::Sync { look })
        }
        3 if driver.creates => Some(WorkerStage::Try),
        4 if driver.creates => Some(WorkerStage::Undo),
        4 => Some(WorkerStage::Try),
        _ => None,
    }
}

// The worker that crossed, if its numbers stand for something.
fn worker_within(driver: &OsbDriver) -> Option<Worker>
    ensures worker { result ≡ worker_in driver.now }
{
    let stage = worker_stage_from(driver)?;
    let rejection = rejection_from(driver.rejection)?;
    Some(Worker {
        creates: driver.creates,
        rejection,
        stage,
    })
}

// Whether a worker can come about.
fn can_work(worker: Worker) -> bool
    ensures can { result ≡ can_work worker }
{
    match (worker.creates, worker.stage) {
        (_, WorkerStage::Sync { look: Look::First }) => false,
        (
            true,
            WorkerStage::Look {
                look: Look::First | Look::Again,
            }
            | WorkerStage::Sync { look: Look::Again }
            | WorkerStage::Try,
        ) => worker.rejection.is_none(),
        (true, _) => true,
        (
            false,
            WorkerStage::Look { look: Look::Undone }
            | WorkerStage::Sync { look: Look::Undone }
            | WorkerStage::Undo,
        ) => false,
        (false, _) => worker.rejection.is_none(),
    }
}

// The worker, if it can come about.
fn possible_worker(worker: Worker) -> Option<Worker>
    ensures possible { result ≡ possible_worker worker }
    ensures can { IfSome result (λ w. can_work w ≡ true) }
{
    if can_work(worker) { Some(worker) } else { None }
}

/// The worker of a driver that crossed at `Work`, if a call gives such a one. It takes no memory.
pub fn worker_from(driver: &OsbDriver) -> Option<Worker>
    ensures worker { result ≡ worker_of driver.now }
    ensures can { IfSome result (λ w. can_work w ≡ true) }
{
    if driver.stage != 3 {
        return None;
    }
    let worker = worker_within(driver)?;
    possible_worker(worker)
}

// The number of the look that a worker makes, or that follows; else 0.
fn look_of_stage(stage: WorkerStage) -> u8
    ensures code { result ≡ look_at stage }
{
    match stage {
        WorkerStage::Look { look } | WorkerStage::Sync { look } => look_out(look),
        _ => 0,
    }
}

/// The worker that has the work to do, or has it done already. It takes no memory.
pub fn worker_for(work: Option<Work>) -> Worker
    ensures worker { result ≡ worker_for work }
    ensures can { can_work result ≡ true }
{
    let ended = WorkerStage::Ended {
        outcome: WorkOutcome::Done,
    };
    match work {
        None => Worker::new(false).lost(),
        Some(Work::Make) => Worker::new(true),
        Some(Work::Delete) => Worker::new(false),
        Some(Work::StartMaking) => Worker {
            stage: ended,
            ..Worker::new(true)
        },
        Some(Work::StartDeleting) => Worker {
            stage: ended,
            ..Worker::new(false)
        },
    }
}

// The driver with the members of the worker, if it is at `Work`.
fn with_worker(driver: OsbDriver, worker: Worker) -> OsbDriver
    ensures worker { driver.stage ≡ 3 → can_work worker ≡ true → still worker worker.stage ≡ Some worker
        → worker_of result ≡ Some worker }
    ensures other { driver.stage ≢ 3 → result ≡ driver }
    ensures number { result.number ≡ driver.number }
    ensures request { result.is_request ≡ driver.is_request }
    ensures code { result.stage ≡ driver.stage }
    ensures stage { stage_of result ≡ stage_of driver }
    ensures plain { driver.stage ≡ 3 → can_work worker ≡ true → still worker worker.stage ≡ Some worker
        → IsPlainDriver driver → IsPlainDriver result }
{
    if driver.stage != 3 {
        return driver;
    }
    OsbDriver {
        rejection: rejection_out(worker.rejection),
        call: call_out(worker.call()),
        look: look_of_stage(worker.stage),
        creates: worker.creates,
        ..driver
    }
}

// The driver whose work has ended so.
fn ended(driver: Driver, outcome: WorkOutcome) -> Driver
    ensures ended { result ≡ at_stage driver.attempt (stage_after (WorkerStage.Ended outcome) driver.stage) }
{
    let ok = outcome == WorkOutcome::Done;
    driver.worked(outcome).finished(ok)
}

/// What follows for the driver that crossed, `before`, once its worker stands so. It takes no memory.
pub fn worked(driver: &OsbDriver, before: Driver, worker: Worker) -> OsbDriver
    ensures worked { (was : Driver) → driver_of driver.now ≡ Some was → before.attempt ≡ was.attempt
        → can_be before.attempt before.stage ≡ true → can_work worker ≡ true → IsWorked before worker result }
    ensures number { result.number ≡ driver.now.number }
    ensures plain { can_work worker ≡ true → IsPlainDriver result }
{
    match worker.stage {
        WorkerStage::Ended { outcome } => moved(driver, ended(before, outcome)),
        _ => with_worker(moved(driver, before), worker),
    }
}

//! A driver as it crosses.
ghost use Rattle.std.specs.Prelude.{◌≡◌, Some, IfSome, IfNone, true, option_map, if◌then◌else◌};
ghost use Rattle.osb_update_driver.specs.Driver.{at_stage};
ghost use Rattle.osb_c_driver.specs.Drivers as instances;
ghost use Rattle.osb_c_driver.specs.Drivers.{attempt_of, is_number};
ghost use Rattle.osb_c_driver.specs.Workers as crossing;
ghost use Rattle.osb_c_update.specs.Outcomes.{outcome_of};
ghost use Rattle.osb_c_update.specs.Settings.{settings_of, zero_settings};
ghost use Rattle.osb_c_update_driver.specs.Drivers as spec;
ghost use Rattle.osb_c_update_driver.specs.Workers as workers;

use crate::workers::{
    DriverWorker, at_instance, at_update, goal, look_of_stage, unknown, update_call_out,
    worker_from,
};
use osb_c_driver::{
    NOBODY, OsbDriver, attempt_from, before_from, can_be as can_be_at_instance, is_there,
    rejection_out, some_answer_out, stage_from as instance_stage_from, stage_of_driver,
    worked as instance_worked,
};
use osb_c_update::{OsbSettings, no_settings, outcome_from, settings_from, settings_out};
use osb_driver::{Driver, Stage, Worker};
use osb_instance::Rejection;
use osb_message::Answer;
use osb_update::{Settings, UpdateOutcome};
use osb_update_driver::{UpdateDriver, UpdateStage, UpdateTask, UpdateWorker, UpdateWorkerStage};

/// The way of one request of an instance, of one Update or of one take-up through a broker. It says the one action that
/// the program carries out next.
#[repr(C)]
#[derive(Clone, Copy)]
pub struct OsbUpdateDriver {
    /// The driver of the instance. At a stage of an update, it has the members of that stage.
    pub driver: OsbDriver,
    /// At `Work` of an update: the settings to which it leads.
    pub to: OsbSettings,
    /// At `Work` of an update, if `has_before` is true: the settings of the row.
    pub before: OsbSettings,
    /// At `End` of an update: the number of the outcome.
    pub outcome: u8,
    /// Whether the stage is one of an update: at `Work`, `End` and `Finish`, the work is that of an update; at
    /// `Answer`, the answer is 422 `MaintenanceInfoConflict`.
    pub is_update: bool,
    /// At `Work` of an update: whether somebody knows the settings of the row. If an update before has failed, nobody
    /// does.
    pub has_before: bool,
}

// ---- as it crossed

// The work of an update that crossed.
fn task_from(driver: &OsbUpdateDriver) -> UpdateTask
    ensures task { result ≡ spec.task_of driver.now }
{
    let to = settings_from(&driver.to);
    if driver.driver.is_pending {
        UpdateTask::Pending(to)
    } else {
        UpdateTask::Operation(to)
    }
}

// The stage of an update that crossed, if its numbers stand for one.
fn update_stage_from(driver: &OsbUpdateDriver) -> Option<UpdateStage>
    ensures stage { result ≡ spec.update_stage_of driver.now }
{
    match driver.driver.stage {
        3 => Some(UpdateStage::Work(task_from(driver))),
        4 => {
            let outcome = outcome_from(driver.outcome)?;
            let before = before_from(&driver.driver);
            Some(UpdateStage::End { outcome, before })
        }
        5 => Some(UpdateStage::Finish(driver.driver.ok)),
        7 => Some(UpdateStage::Conflict),
        _ => None,
    }
}

// The stage that crossed, if its numbers stand for one.
fn stage_from(driver: &OsbUpdateDriver) -> Option<UpdateStage>
    ensures stage { result ≡ spec.stage_of driver.now }
{
    if driver.is_update {
        return update_stage_from(driver);
    }
    let stage = instance_stage_from(&driver.driver)?;
    Some(UpdateStage::Instance(stage))
}

// Whether a driver of a request (`attempt`) or of a take-up can be at a stage.
fn can_be(attempt: Option<u64>, stage: &UpdateStage) -> bool
    ensures can { result ≡ spec.can_be attempt stage.now }
{
    match (attempt, stage) {
        (_, UpdateStage::Instance(stage)) => can_be_at_instance(attempt, *stage),
        (None, UpdateStage::End { before, .. }) => before.is_none(),
        (None, UpdateStage::Conflict) => false,
        (None, UpdateStage::Work(_) | UpdateStage::Finish(_)) => true,
        (Some(_), _) => true,
    }
}

// Whether the driver has a worker if it is at `Work`.
fn has_worker(driver: &OsbUpdateDriver) -> bool
    ensures has { result ≡ spec.has_worker driver.now }
{
    driver.driver.stage != 3 || worker_from(driver).is_some()
}

/// The driver that crossed, if a call gives such a one. It takes no memory.
pub fn driver_from(driver: &OsbUpdateDriver) -> Option<UpdateDriver>
    ensures driver { result ≡ spec.driver_of driver.now }
    ensures can { IfSome result (λ d. spec.can_be d.attempt d.stage ≡ true) }
    ensures number { IfSome result (λ d. is_number driver.now.driver.number ≡ true) }
    ensures attempt { IfSome result (λ d. d.attempt ≡ attempt_of driver.now.driver.is_request) }
{
    if driver.driver.number == NOBODY || !has_worker(driver) {
        return None;
    }
    let stage = stage_from(driver)?;
    let attempt = attempt_from(driver.driver.is_request);
    if !can_be(attempt, &stage) {
        return None;
    }
    Some(UpdateDriver { attempt, stage })
}

// ---- at a stage of the instance

// A driver of the instance as one that can stand at an update.
fn of_instance(driver: OsbDriver) -> OsbUpdateDriver
    ensures driver { spec.driver_of result
        ≡ option_map (λ d. at_stage d.attempt (UpdateStage.Instance d.stage)) (instances.driver_of driver) }
    ensures worker { workers.worker_of result ≡ option_map DriverWorker.Instance (crossing.worker_of driver) }
    ensures plain { instances.IsPlainDriver driver → spec.IsPlainDriver result }
    ensures same { result.driver ≡ driver }
{
    OsbUpdateDriver {
        driver,
        to: no_settings(),
        before: no_settings(),
        outcome: 0,
        is_update: false,
        has_before: false,
    }
}

// What follows at a stage of the instance once the worker stands so.
fn worked_at_instance(
    number: [u8; 16],
    is_request: bool,
    stage: Stage,
    worker: Worker,
) -> OsbUpdateDriver
    ensures driver { is_number number ≡ true → instances.can_be (attempt_of is_request) stage ≡ true
        → crossing.can_work worker ≡ true → spec.driver_of result
        ≡ Some (at_stage (attempt_of is_request) (UpdateStage.Instance (crossing.stage_after worker.stage stage))) }
    ensures worker { is_number number ≡ true → instances.can_be (attempt_of is_request) stage ≡ true
        → crossing.can_work worker ≡ true
        → workers.worker_of result ≡ option_map DriverWorker.Instance (crossing.working stage worker) }
    ensures plain { crossing.can_work worker ≡ true → spec.IsPlainDriver result }
    ensures number { result.driver.number ≡ number }
{
    let done = stage_of_driver(number, is_request, Stage::Done);
    let before = Driver {
        attempt: attempt_from(is_request),
        stage,
    };
    of_instance(instance_worked(&done, before, worker))
}

// ---- at a stage of an update

// A driver at a stage of an update, whose other members are zeroes.
fn of_update(number: [u8; 16], is_request: bool, stage: u8) -> OsbUpdateDriver
    ensures zero { result ≡ spec.zero_update number is_request stage }
{
    OsbUpdateDriver {
        driver: OsbDriver {
            stage,
            ..stage_of_driver(number, is_request, Stage::Done)
        },
        to: no_settings(),
        before: no_settings(),
        outcome: 0,
        is_update: true,
        has_before: false,
    }
}

// Whether the work of an update is pending.
fn is_pending(task: &UpdateTask) -> bool
    ensures task { (if result then UpdateTask.Pending (workers.goal task.now)
        else UpdateTask.Operation (workers.goal task.now)) ≡ task.now }
{
    matches!(task, UpdateTask::Pending(_))
}

// The settings of the row as they cross, or zeroes.
fn some_settings_out(settings: &Option<Settings>) -> OsbSettings
    ensures settings { IfSome settings.now (λ s. settings_of result ≡ s) }
    ensures none { IfNone settings.now (result ≡ zero_settings) }
{
    match settings {
        Some(settings) => settings_out(settings),
        None => no_settings(),
    }
}

// A driver at work of an update whose worker goes on.
fn at_work(
    number: [u8; 16],
    is_request: bool,
    task: &UpdateTask,
    worker: &UpdateWorker,
) -> OsbUpdateDriver
    ensures stage { spec.stage_of result ≡ Some (UpdateStage.Work task.now) }
    ensures worker { workers.can_update worker.now.rejection worker.now.stage ≡ true
        → workers.still worker.now worker.now.stage ≡ Some worker.now → worker.now.to ≡ workers.goal task.now
        → workers.worker_of result ≡ Some (DriverWorker.Update worker.now) }
    ensures plain { spec.IsPlainDriver result }
    ensures number { result.driver.number ≡ number }
    ensures request { result.driver.is_request ≡ is_request }
{
    let zero = of_update(number, is_request, 3);
    OsbUpdateDriver {
        driver: OsbDriver {
            rejection: rejection_out(worker.rejection),
            call: update_call_out(worker.call()),
            look: look_of_stage(worker.stage),
            is_pending: is_pending(task),
            ..zero.driver
        },
        to: settings_out(&goal(task)),
        before: some_settings_out(&worker.before),
        has_before: worker.before.is_some(),
        ..zero
    }
}

// The number of how work of an update has ended.
pub(crate) fn outcome_out(outcome: UpdateOutcome) -> u8
    ensures outcome { outcome_of result ≡ Some outcome }
{
    match outcome {
        UpdateOutcome::Done => 0,
        UpdateOutcome::Before => 1,
        UpdateOutcome::After => 2,
        UpdateOutcome::Refused(Rejection::BadRequest) => 3,
        UpdateOutcome::Refused(Rejection::UnprocessableEntity) => 4,
        UpdateOutcome::Failed => 5,
    }
}

// A driver at the end of the pending work of an update.
fn at_end(
    number: [u8; 16],
    is_request: bool,
    outcome: UpdateOutcome,
    before: Option<Answer>,
) -> OsbUpdateDriver
    ensures stage { spec.stage_of result ≡ Some (UpdateStage.End outcome before) }
    ensures code { result.driver.stage ≡ 4 }
    ensures plain { spec.IsPlainDriver result }
    ensures number { result.driver.number ≡ number }
    ensures request { result.driver.is_request ≡ is_request }
{
    let zero = of_update(number, is_request, 4);
    OsbUpdateDriver {
        driver: OsbDriver {
            answer: some_answer_out(before),
            has_answer: is_there(before),
            ..zero.driver
        },
        outcome: outcome_out(outcome),
        ..zero
    }
}

// A driver at the end of the operation of an update.
fn at_finish(number: [u8; 16], is_request: bool, ok: bool) -> OsbUpdateDriver
    ensures stage { spec.stage_of result ≡ Some (UpdateStage.Finish ok) }
    ensures code { result.driver.stage ≡ 5 }
    ensures plain { spec.IsPlainDriver result }
    ensures number { result.driver.number ≡ number }
    ensures request { result.driver.is_request ≡ is_request }
{
    let zero = of_update(number, is_request, 5);
    OsbUpdateDriver {
        driver: OsbDriver { ok, ..zero.driver },
        ..zero
    }
}

// A driver at the answer 422 `MaintenanceInfoConflict`.
fn at_conflict(number: [u8; 16], is_request: bool) -> OsbUpdateDriver
    ensures stage { spec.stage_of result ≡ Some UpdateStage.Conflict }
    ensures code { result.driver.stage ≡ 7 }
    ensures plain { spec.IsPlainDriver result }
    ensures number { result.driver.number ≡ number }
    ensures request { result.driver.is_request ≡ is_request }
{
    of_update(number, is_request, 7)
}

// ---- at any stage

// The driver of a request or of a take-up at a stage, as it crosses. At `Work` nobody knows how the work ended.
pub(crate) fn driver_out(number: [u8; 16], is_request: bool, stage: &UpdateStage) -> OsbUpdateDriver
    ensures driver { is_number number ≡ true → spec.can_be (attempt_of is_request) stage.now ≡ true
        → spec.driver_of result ≡ Some (at_stage (attempt_of is_request) stage.now) }
    ensures worker { is_number number ≡ true → spec.can_be (attempt_of is_request) stage.now ≡ true
        → workers.worker_of result ≡ workers.working stage.now workers.idle }
    ensures plain { spec.IsPlainDriver result }
    ensures number { result.driver.number ≡ number }
{
    match stage {
        UpdateStage::Instance(stage) => of_instance(stage_of_driver(number, is_request, *stage)),
        UpdateStage::Work(task) => at_work(number, is_request, task, &unknown(&goal(task))),
        UpdateStage::End { outcome, before } => at_end(number, is_request, *outcome, *before),
        UpdateStage::Finish(ok) => at_finish(number, is_request, *ok),
        UpdateStage::Conflict => at_conflict(number, is_request),
    }
}

// The stage after the work of an update has ended so.
fn ended(task: &UpdateTask, outcome: UpdateOutcome) -> UpdateStage
    ensures ended { result ≡ workers.after_update (UpdateWorkerStage.Ended outcome) (UpdateStage.Work task.now) }
{
    let driver = UpdateDriver {
        attempt: None,
        stage: UpdateStage::Work(*task),
    };
    let ok = matches!(outcome, UpdateOutcome::Done);
    driver.worked_update(outcome).finished_update(ok).stage
}

// What follows at work of an update once the worker stands so.
fn worked_at_update(
    number: [u8; 16],
    is_request: bool,
    task: &UpdateTask,
    worker: &UpdateWorker,
) -> OsbUpdateDriver
    ensures driver { is_number number ≡ true → spec.can_be (attempt_of is_request) (UpdateStage.Work task.now) ≡ true
        → workers.can_update worker.now.rejection worker.now.stage ≡ true → worker.now.to ≡ workers.goal task.now
        → spec.driver_of result ≡ Some (at_stage (attempt_of is_request)
        (workers.after_update worker.now.stage (UpdateStage.Work task.now))) }
    ensures worker { is_number number ≡ true → spec.can_be (attempt_of is_request) (UpdateStage.Work task.now) ≡ true
        → workers.can_update worker.now.rejection worker.now.stage ≡ true → worker.now.to ≡ workers.goal task.now
        → workers.worker_of result ≡ option_map DriverWorker.Update (workers.still worker.now worker.now.stage) }
    ensures plain { spec.IsPlainDriver result }
    ensures number { result.driver.number ≡ number }
{
    match worker.stage {
        UpdateWorkerStage::Ended(outcome) => driver_out(number, is_request, &ended(task, outcome)),
        _ => at_work(number, is_request, task, worker),
    }
}

// What follows for the driver that crossed, `before`, once its worker stands so.
pub(crate) fn worked(
    driver: &OsbUpdateDriver,
    before: &UpdateDriver,
    worker: &DriverWorker,
) -> OsbUpdateDriver
    ensures worked { is_number driver.now.driver.number ≡ true
        → before.now.attempt ≡ attempt_of driver.now.driver.is_request
        → spec.can_be before.now.attempt before.now.stage ≡ true → workers.can_work worker.now ≡ true
        → spec.IsWorked before.now worker.now result }
    ensures plain { workers.can_work worker.now ≡ true → spec.IsPlainDriver result }
    ensures number { result.driver.number ≡ driver.now.driver.number }
{
    let OsbDriver {
        number,
        is_request,
        ..
    } = driver.driver;
    match &before.stage {
        UpdateStage::Instance(stage) => {
            worked_at_instance(number, is_request, *stage, at_instance(worker))
        }
        UpdateStage::Work(task) => {
            worked_at_update(number, is_request, task, &at_update(&goal(task), worker))
        }
        _ => driver_out(number, is_request, &before.stage),
    }
}

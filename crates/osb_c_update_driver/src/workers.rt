//! A worker as it crosses, within its driver: of the instance, or of an update.
ghost use Rattle.std.specs.Prelude.{◌≡◌, Some, IfSome, true};
ghost use Rattle.osb_c_driver.specs.Workers as crossing;
ghost use Rattle.osb_c_update_driver.specs.Workers as spec;

use crate::drivers::OsbUpdateDriver;
use osb_c_driver::{
    call_out as instance_call_out, rejection_from, worker_for, worker_from as instance_worker_from,
};
use osb_c_update::settings_from;
use osb_driver::Worker;
use osb_instance::{Rejection, Work};
use osb_message::Mode;
use osb_network::Resource;
use osb_update::{Settings, UpdateHolding, UpdateOutcome, UpdatePhase};
use osb_update_driver::{
    Seen, UpdateCall, UpdateLook, UpdateTask, UpdateWorker, UpdateWorkerStage,
};

/// The worker of a driver.
#[derive(Clone, Copy, Debug, PartialEq, Eq)]
pub enum DriverWorker {
    /// Of work of the instance.
    Instance(Worker),
    /// Of work of an update.
    Update(UpdateWorker),
}

// The look that a number stands for.
fn look_from(code: u8) -> Option<UpdateLook>
    ensures look { result ≡ spec.look_of code }
{
    match code {
        0 => Some(UpdateLook::First),
        1 => Some(UpdateLook::Again),
        2 => Some(UpdateLook::Tried),
        _ => None,
    }
}

// The number of a look.
fn look_out(look: UpdateLook) -> u8
    ensures code { result ≡ spec.look_code look }
{
    match look {
        UpdateLook::First => 0,
        UpdateLook::Again => 1,
        UpdateLook::Tried => 2,
    }
}

// The stage of the worker of an update that crossed, if its numbers stand for something.
fn worker_stage_from(driver: &OsbUpdateDriver) -> Option<UpdateWorkerStage>
    ensures stage { result ≡ spec.worker_stage_of driver.now.driver.call driver.now.driver.look }
{
    match driver.driver.call {
        0 => Some(UpdateWorkerStage::Unknown),
        1 => {
            let look = look_from(driver.driver.look)?;
            Some(UpdateWorkerStage::Look(look))
        }
        2 => {
            let look = look_from(driver.driver.look)?;
            Some(UpdateWorkerStage::Sync(look))
        }
        5 => Some(UpdateWorkerStage::Try),
        _ => None,
    }
}

// The settings of the row that crossed, unless nobody knows them.
fn before_from(driver: &OsbUpdateDriver) -> Option<Settings>
    ensures before { result ≡ spec.before_in driver.now }
{
    if driver.has_before {
        Some(settings_from(&driver.before))
    } else {
        None
    }
}

// Whether a worker of an update can come about.
fn can_update(rejection: Option<Rejection>, stage: UpdateWorkerStage) -> bool
    ensures can { result ≡ spec.can_update rejection stage }
{
    match stage {
        UpdateWorkerStage::Sync(UpdateLook::First) => false,
        UpdateWorkerStage::Look(UpdateLook::First | UpdateLook::Again)
        | UpdateWorkerStage::Sync(UpdateLook::Again)
        | UpdateWorkerStage::Try => rejection.is_none(),
        UpdateWorkerStage::Look(UpdateLook::Tried)
        | UpdateWorkerStage::Sync(UpdateLook::Tried)
        | UpdateWorkerStage::Ended(_)
        | UpdateWorkerStage::Unknown => true,
    }
}

// The worker of a driver that crossed at `Work` of an update, if a call gives such a one.
fn update_worker_from(driver: &OsbUpdateDriver) -> Option<UpdateWorker>
    ensures worker { result ≡ spec.update_worker_of driver.now }
    ensures can { IfSome result (λ w. spec.can_update w.rejection w.stage ≡ true) }
{
    if driver.driver.stage != 3 {
        return None;
    }
    let stage = worker_stage_from(driver)?;
    let rejection = rejection_from(driver.driver.rejection)?;
    if !can_update(rejection, stage) {
        return None;
    }
    Some(UpdateWorker {
        to: settings_from(&driver.to),
        before: before_from(driver),
        rejection,
        stage,
    })
}

/// The worker of a driver that crossed at `Work`, if a call gives such a one. It takes no memory.
pub fn worker_from(driver: &OsbUpdateDriver) -> Option<DriverWorker>
    ensures worker { result ≡ spec.worker_of driver.now }
    ensures can { IfSome result (λ w. spec.can_work w ≡ true) }
{
    if driver.is_update {
        let worker = update_worker_from(driver)?;
        return Some(DriverWorker::Update(worker));
    }
    let worker = instance_worker_from(&driver.driver)?;
    Some(DriverWorker::Instance(worker))
}

// The number of the call that a worker of an update makes next, or 0 for none.
pub(crate) fn update_call_out(call: Option<UpdateCall>) -> u8
    ensures code { result ≡ spec.update_call_code call }
{
    match call {
        None => 0,
        Some(UpdateCall::Look) => 1,
        Some(UpdateCall::Sync) => 2,
        Some(UpdateCall::Update) => 5,
    }
}

// The number of the call that a worker makes next, or 0 for none.
fn call_out(worker: &DriverWorker) -> u8
    ensures code { result ≡ spec.call_code worker.now }
{
    match worker {
        DriverWorker::Instance(worker) => instance_call_out(worker.call()),
        DriverWorker::Update(worker) => update_call_out(worker.call()),
    }
}

// The number of the look that a worker of an update makes, or that follows; else 0.
pub(crate) fn look_of_stage(stage: UpdateWorkerStage) -> u8
    ensures code { result ≡ spec.look_at stage }
{
    match stage {
        UpdateWorkerStage::Look(look) | UpdateWorkerStage::Sync(look) => look_out(look),
        _ => 0,
    }
}

// Whether the worker asks for a look.
pub(crate) fn is_look(worker: &DriverWorker) -> bool
    ensures look { result ≡ spec.is_look worker.now }
{
    call_out(worker) == 1
}

// Whether the worker asks for a sync.
pub(crate) fn is_sync(worker: &DriverWorker) -> bool
    ensures sync { result ≡ spec.is_sync worker.now }
{
    call_out(worker) == 2
}

// Whether the worker asks for a creation, a deletion or an update.
pub(crate) fn is_change(worker: &DriverWorker) -> bool
    ensures change { result ≡ spec.is_change worker.now }
{
    let call = call_out(worker);
    call == 3 || call == 4 || call == 5
}

// The settings that a look has found.
fn seen(there: Resource, settings: &Settings) -> Seen
    ensures seen { result ≡ spec.seen_of there settings.now }
{
    match there {
        Resource::Whole => Seen::Has(*settings),
        Resource::Absent | Resource::Part => Seen::Part,
    }
}

// The worker once a look has found this.
pub(crate) fn looked(worker: &DriverWorker, there: Resource, settings: &Settings) -> DriverWorker
    ensures worker { result ≡ spec.looked worker.now there settings.now }
{
    match worker {
        DriverWorker::Instance(worker) => DriverWorker::Instance(worker.looked(there)),
        DriverWorker::Update(worker) => DriverWorker::Update(worker.looked(&seen(there, settings))),
    }
}

// The worker once what exists is on disk.
pub(crate) fn synced(worker: &DriverWorker) -> DriverWorker
    ensures worker { result ≡ spec.synced worker.now }
{
    match worker {
        DriverWorker::Instance(worker) => DriverWorker::Instance(worker.synced()),
        DriverWorker::Update(worker) => DriverWorker::Update(worker.synced()),
    }
}

// The worker once its creation, its deletion or its update has returned.
pub(crate) fn called(worker: &DriverWorker, ok: bool, rejection: Option<Rejection>) -> DriverWorker
    ensures worker { result ≡ spec.called worker.now ok rejection }
{
    match worker {
        DriverWorker::Instance(worker) => DriverWorker::Instance(worker.called(ok, rejection)),
        DriverWorker::Update(worker) => DriverWorker::Update(worker.called(ok, rejection)),
    }
}

// The settings to which the work of an update leads.
pub(crate) fn goal(task: &UpdateTask) -> Settings
    ensures goal { result ≡ spec.goal task.now }
{
    match task {
        UpdateTask::Pending(to) | UpdateTask::Operation(to) => *to,
    }
}

// A worker of an update to these settings, if nobody knows how it ended.
pub(crate) fn unknown(to: &Settings) -> UpdateWorker
    ensures worker { result ≡ spec.unknown to.now }
{
    UpdateWorker::new(to, &None).lost()
}

// No work.
pub(crate) fn idle() -> DriverWorker
    ensures worker { result ≡ spec.idle }
{
    DriverWorker::Instance(worker_for(None))
}

// The worker at work of the instance: of other work, nobody knows how it ended.
pub(crate) fn at_instance(worker: &DriverWorker) -> Worker
    ensures worker { result ≡ spec.at_instance worker.now }
    ensures can { spec.can_work worker.now ≡ true → crossing.can_work result ≡ true }
{
    match worker {
        DriverWorker::Instance(worker) => *worker,
        DriverWorker::Update(_) => worker_for(None),
    }
}

// The worker at work of an update to these settings: of other work, nobody knows how it ended.
pub(crate) fn at_update(to: &Settings, worker: &DriverWorker) -> UpdateWorker
    ensures worker { result ≡ spec.at_update to.now worker.now }
    ensures can { spec.can_work worker.now ≡ true → spec.can_update result.rejection result.stage ≡ true }
    ensures to { result.to ≡ to.now }
{
    match worker {
        DriverWorker::Instance(_) => unknown(to),
        DriverWorker::Update(worker) => UpdateWorker {
            to: *to,
            before: worker.before,
            rejection: worker.rejection,
            stage: worker.stage,
        },
    }
}

// The worker of the work of the instance.
pub(crate) fn instance_worker_for(work: Option<Work>) -> DriverWorker
    ensures worker { result ≡ DriverWorker.Instance (crossing.worker_for work) }
    ensures can { spec.can_work result ≡ true }
{
    DriverWorker::Instance(worker_for(work))
}

// The settings of before; none if an update before has failed.
fn before_by(phase: &UpdatePhase, settings: &Settings) -> Option<Settings>
    ensures before { result ≡ spec.before_by phase.now settings.now }
{
    match phase {
        UpdatePhase::Mending(_) => None,
        UpdatePhase::Settled
        | UpdatePhase::Pending(_)
        | UpdatePhase::Updating(_)
        | UpdatePhase::Failed => Some(*settings),
    }
}

// The worker of an update that has the work to do, or has it done already.
pub(crate) fn update_worker_for(
    task: &UpdateTask,
    way: Mode,
    change: &UpdateHolding,
) -> DriverWorker
    ensures worker { result ≡ DriverWorker.Update (spec.update_worker_for task.now way change.now) }
    ensures can { spec.can_work result ≡ true }
{
    DriverWorker::Update(match (task, way) {
        (UpdateTask::Pending(to), Mode::Sync) => {
            UpdateWorker::new(to, &before_by(&change.phase, &change.settings))
        }
        (UpdateTask::Pending(to), Mode::Async) => UpdateWorker {
            stage: UpdateWorkerStage::Ended(UpdateOutcome::Done),
            ..UpdateWorker::new(to, &None)
        },
        (UpdateTask::Operation(to), _) => UpdateWorker::new(to, &Some(change.settings)),
    })
}

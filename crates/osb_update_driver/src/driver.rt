//! What a driver of an instance that can be updated does next: pure decisions over the row that its transaction reads.
ghost use Rattle.std.specs.Prelude.{◌≡◌, false};
ghost use Rattle.osb_driver.specs.Driver as instances;
ghost use Rattle.osb_update_network.specs.AnyPlatform.{is_new};
ghost use Rattle.osb_update_driver.specs.Driver as spec;
ghost use Rattle.osb_update_driver.specs.Driver.{is_answer, works};

use crate::in_place::in_place;
use osb_driver::{Driver, Effect, Permit, Stage, Task, Transaction};
use osb_instance::{Digest, Holding, WorkOutcome};
use osb_message::{Answer, Body, ErrorCode, Kind, Mode, Request};
use osb_update::{
    Allowed, Settings, Update, UpdateBegun, UpdateHolding, UpdateOutcome, UpdatePhase,
};

/// The work of an update (this project's choice, and so is all of this crate).
#[derive(Clone, Copy, Debug, PartialEq, Eq)]
pub enum UpdateTask {
    /// The pending work to these settings.
    Pending(Settings),
    /// The operation to these settings.
    Operation(Settings),
}

/// Where a driver stands: the one action that the program around it carries out next.
#[derive(Clone, Copy, Debug, PartialEq, Eq)]
pub enum UpdateStage {
    /// A stage of `osb_driver`. At [`Stage::Work`], [`Stage::End`] and [`Stage::Finish`], the work is that of the
    /// instance.
    Instance(Stage),
    /// Do the work of an update, under the lock.
    Work(UpdateTask),
    /// Run the last transaction of the pending work of an update.
    End {
        /// How the work ended.
        outcome: UpdateOutcome,
        /// The answer of an earlier try, if nobody knows whether that was committed.
        before: Option<Answer>,
    },
    /// Run the last transaction of the operation of an update. The value is whether it succeeded.
    Finish(bool),
    /// Free the lock, and answer 422 `MaintenanceInfoConflict`.
    Conflict,
}

/// The event of `osb_update_network` that a transaction is, once it is committed.
#[derive(Clone, Copy, Debug, PartialEq, Eq)]
pub enum UpdateEffect {
    /// An event of the instance, or none.
    Instance(Effect),
    /// The Update arrives. The value is what the catalogue has for it.
    Update(Allowed),
    /// The pending work of an update ends.
    End(Mode, UpdateOutcome),
    /// The operation of an update ends. The value is whether it succeeded.
    Finish(bool),
}

/// What a transaction writes, and what follows once its commit has returned.
#[derive(Clone, Copy, Debug, PartialEq, Eq)]
pub struct UpdateTransaction {
    /// What to write of the instance.
    pub instance: Holding,
    /// What to write of its updates.
    pub change: UpdateHolding,
    /// Whether the number of the driver becomes that of the row.
    pub takes_over: bool,
    /// The stage once the commit has returned.
    pub stage: UpdateStage,
    /// The event of the network.
    pub effect: UpdateEffect,
}

/// A request that a driver answers.
#[derive(Clone, Copy, Debug, PartialEq, Eq)]
pub enum UpdateAsked {
    /// A request of the instance itself.
    Instance {
        /// The request.
        request: Request,
        /// The digest of its attributes.
        attributes: Digest,
        /// The digest of the parameters that a Provision asks for.
        parameters: Digest,
        /// The digest of the version of the maintenance that a Provision asks for.
        version: Digest,
    },
    /// An Update.
    Update(Update),
}

/// What the catalogue has for a transaction.
#[derive(Clone, Copy, Debug, PartialEq, Eq)]
pub struct UpdateTerms {
    /// How the plan works: of the request of the instance that the driver answers, or of its work.
    pub mode: Option<Mode>,
    /// The rule of the first Poll, as at [`Holding::begin`].
    pub first_poll: bool,
    /// What it has for the Update that the driver answers, as at [`UpdateHolding::begin`].
    pub allowed: Allowed,
    /// How the update is done whose work is pending.
    pub update_mode: Mode,
}

/// The way of one request through the broker, or of one take-up.
#[derive(Clone, Copy, Debug, PartialEq, Eq)]
pub struct UpdateDriver {
    /// The attempt of the request that the driver answers; none of a take-up.
    pub attempt: Option<u64>,
    /// Where the driver stands.
    pub stage: UpdateStage,
}

// A transaction that writes nothing.
fn nothing(instance: Holding, change: &UpdateHolding, stage: Stage) -> UpdateTransaction
    ensures tx { result ≡ spec.nothing instance change.now (UpdateStage.Instance stage) }
{
    UpdateTransaction {
        instance,
        change: *change,
        takes_over: false,
        stage: UpdateStage::Instance(stage),
        effect: UpdateEffect::Instance(Effect::Nothing),
    }
}

// A transaction of `osb_driver`, with what is held of the updates then.
fn of_instance(tx: Transaction, change: &UpdateHolding) -> UpdateTransaction
    ensures tx { result ≡ spec.of_instance tx change.now }
{
    UpdateTransaction {
        instance: tx.row,
        change: *change,
        takes_over: tx.takes_over,
        stage: UpdateStage::Instance(tx.stage),
        effect: UpdateEffect::Instance(tx.effect),
    }
}

// The work of the update that is under way; none if none is.
fn task_of(change: &UpdateHolding) -> Option<UpdateTask>
    ensures task { result ≡ spec.task_of change.now.phase }
{
    match &change.phase {
        UpdatePhase::Pending(to) | UpdatePhase::Mending(to) => Some(UpdateTask::Pending(*to)),
        UpdatePhase::Updating(to) => Some(UpdateTask::Operation(*to)),
        UpdatePhase::Settled | UpdatePhase::Failed => None,
    }
}

// An Update whose work is due: the work is pending under the driver's number, or the driver needs the lock first.
fn update_works(
    locked: bool,
    instance: Holding,
    change: &UpdateHolding,
    after: &UpdateHolding,
    allowed: Allowed,
    to: &Settings,
) -> UpdateTransaction
    ensures tx { result ≡ spec.update_works locked instance change.now after.now allowed to.now }
{
    if !locked {
        return nothing(instance, change, Stage::AwaitLock);
    }
    UpdateTransaction {
        instance,
        change: *after,
        takes_over: true,
        stage: UpdateStage::Work(UpdateTask::Pending(*to)),
        effect: UpdateEffect::Update(allowed),
    }
}

// An Update that is answered at once.
fn update_answered(
    instance: Holding,
    after: &UpdateHolding,
    allowed: Allowed,
    stage: UpdateStage,
) -> UpdateTransaction
    ensures tx { result ≡ spec.update_answered instance after.now allowed stage }
{
    UpdateTransaction {
        instance,
        change: *after,
        takes_over: false,
        stage,
        effect: UpdateEffect::Update(allowed),
    }
}

// A request of the instance that is answered in the place of its table.
fn answered_in_place(instance: Holding, change: &UpdateHolding, answer: Answer) -> UpdateTransaction
    ensures tx { result ≡ spec.answered_in_place instance change.now answer }
{
    UpdateTransaction {
        instance,
        change: *change,
        takes_over: false,
        stage: UpdateStage::Instance(Stage::Answer { answer }),
        effect: UpdateEffect::Instance(Effect::Arrive),
    }
}

// What is held of the updates once a transaction of the instance is committed: a Provision that finds nothing, and
// arrives, brings its own settings.
fn held_after(
    effect: Effect,
    instance: Holding,
    change: &UpdateHolding,
    kind: Kind,
    asked: &Settings,
) -> UpdateHolding
    ensures held { result ≡ spec.held_after effect (is_new kind instance) change.now asked.now }
{
    match (effect, kind) {
        (Effect::Arrive, Kind::Provision) if !instance.is_held() => UpdateHolding::new(*asked),
        _ => *change,
    }
}

// What follows the end of work: the answer, or, of a take-up, a look at what else there is.
fn after_end(attempt: Option<u64>, answer: Answer) -> Stage
    ensures stage { result ≡ instances.after attempt answer }
{
    match attempt {
        Some(_) => Stage::Answer { answer },
        None => Stage::Begin { locked: true },
    }
}

// What follows if an earlier try was committed.
fn repeated(before: Option<Answer>) -> Stage
    ensures stage { result ≡ spec.repeated before }
{
    match before {
        None => Stage::Done,
        Some(answer) => Stage::Answer { answer },
    }
}

// The answer that a transaction would have given, or the earlier one.
fn remembered(stage: &UpdateStage, before: Option<Answer>) -> Option<Answer>
    ensures answer { result ≡ spec.remembered stage.now before }
{
    match stage {
        UpdateStage::Instance(Stage::Answer { answer }) => Some(*answer),
        _ => before,
    }
}

// The stage after a transaction of which nobody knows whether it was committed, at a stage of `osb_driver`.
fn unsure_of(stage: Stage, transaction: &UpdateTransaction) -> Stage
    ensures stage { result ≡ spec.unsure_of stage transaction.now }
    ensures silent { (instances.works result ≡ false) × (instances.is_answer result ≡ false) }
{
    match stage {
        Stage::Begin { .. } if transaction.takes_over => Stage::Unsure,
        Stage::Begin { locked } => Stage::Begin { locked },
        Stage::Unsure => Stage::Unsure,
        Stage::End { outcome, before } => Stage::End {
            outcome,
            before: remembered(&transaction.stage, before),
        },
        _ => Stage::Done,
    }
}

// The first transaction of this request, by the row that it reads.
fn first(
    locked: bool,
    is_owner: bool,
    may_begin: bool,
    terms: &UpdateTerms,
    instance: Holding,
    change: &UpdateHolding,
    asked: &UpdateAsked,
) -> UpdateTransaction
    ensures tx { result ≡ spec.first locked is_owner may_begin terms.now instance change.now asked.now }
{
    match asked {
        UpdateAsked::Instance {
            request,
            attributes,
            parameters,
            version,
        } => {
            let settings = Settings {
                plan: request.plan,
                parameters: *parameters,
                version: *version,
            };
            UpdateDriver::first_instance(
                locked,
                is_owner,
                may_begin,
                terms.mode,
                terms.first_poll,
                instance,
                change,
                request,
                *attributes,
                &settings,
            )
        }
        UpdateAsked::Update(update) => UpdateDriver::first_update(
            locked,
            is_owner,
            may_begin,
            instance,
            change,
            terms.allowed,
            update,
        ),
    }
}

impl UpdateDriver {
    /// Returns the driver of the request of this attempt, or with `None` that of a take-up.
    pub fn new(attempt: Option<u64>) -> UpdateDriver
        ensures driver { result ≡ spec.at_stage attempt (UpdateStage.Instance Stage.TryLock) }
    {
        UpdateDriver {
            attempt,
            stage: UpdateStage::Instance(Stage::TryLock),
        }
    }

    /// Returns the transaction of this driver by the row that it reads; `None` at a stage that has none. `is_owner` is
    /// whether the row has the driver's number. `asked` is the driver's own request, which counts only for its first
    /// transaction; a take-up has none, and needs none.
    pub fn transaction(
        &self,
        is_owner: bool,
        permit: Permit,
        terms: &UpdateTerms,
        instance: Holding,
        change: &UpdateHolding,
        asked: &UpdateAsked,
    ) -> Option<UpdateTransaction>
        ensures tx { result ≡ spec.transaction self.now.attempt self.now.stage is_owner permit terms.now instance change.now
            asked.now }
    {
        match &self.stage {
            UpdateStage::Instance(Stage::Begin { locked }) => Some(match self.attempt {
                None => UpdateDriver::take_up(instance, change, permit.give_up),
                Some(_) => first(
                    *locked,
                    is_owner,
                    permit.begin,
                    terms,
                    instance,
                    change,
                    asked,
                ),
            }),
            UpdateStage::Instance(Stage::Unsure) => {
                Some(UpdateDriver::resume(is_owner, instance, change))
            }
            UpdateStage::Instance(Stage::End { outcome, before }) => {
                let tx = Driver::end(
                    self.attempt,
                    is_owner,
                    terms.mode,
                    instance,
                    *outcome,
                    *before,
                );
                Some(of_instance(tx, change))
            }
            UpdateStage::Instance(Stage::Finish { ok }) => {
                let tx = Driver::finish(is_owner, instance, *ok);
                Some(of_instance(tx, change))
            }
            UpdateStage::End { outcome, before } => Some(UpdateDriver::end_update(
                self.attempt,
                is_owner,
                terms.update_mode,
                instance,
                change,
                *outcome,
                *before,
            )),
            UpdateStage::Finish(ok) => Some(UpdateDriver::finish_update(
                is_owner, instance, change, *ok,
            )),
            _ => None,
        }
    }

    /// Returns the first transaction of an Update, by the row that it reads. `allowed` is what the catalogue has for
    /// it, as at [`UpdateHolding::begin`]. If its work is due, it is pending under the driver's number then. Without
    /// the lock, no number is written and no work begins.
    ///
    /// `is_owner` is whether the row has the driver's number. No row has it before the driver has written it, so the
    /// driver is done if it has. Unless something may begin (`may_begin`), an Update whose work would be due is put
    /// off: it is answered with 422 `ConcurrencyError`, and nothing is written.
    pub fn first_update(
        locked: bool,
        is_owner: bool,
        may_begin: bool,
        instance: Holding,
        change: &UpdateHolding,
        allowed: Allowed,
        update: &Update,
    ) -> UpdateTransaction
        ensures tx { result ≡ spec.first_update locked is_owner may_begin instance change.now allowed update.now }
        ensures instance { result.instance ≡ instance }
        ensures unlocked { locked ≡ false → (result.takes_over ≡ false) × (works result.stage ≡ false) }
    {
        if is_owner {
            return nothing(instance, change, Stage::Done);
        }
        let (after, begun) = change.begin(instance, allowed, update);
        match &begun {
            UpdateBegun::Answered(answer) => {
                let stage = UpdateStage::Instance(Stage::Answer { answer: *answer });
                update_answered(instance, &after, allowed, stage)
            }
            UpdateBegun::MaintenanceInfoConflict => {
                update_answered(instance, &after, allowed, UpdateStage::Conflict)
            }
            UpdateBegun::Work(_, _) if !may_begin => {
                let answer = Answer {
                    status: 422,
                    body: Body::Error(ErrorCode::ConcurrencyError),
                };
                nothing(instance, change, Stage::Answer { answer })
            }
            UpdateBegun::Work(_, to) => {
                update_works(locked, instance, change, &after, allowed, to)
            }
        }
    }

    /// Returns the first transaction of a request of the instance itself, by the row that it reads. `asked` are the
    /// settings that a Provision asks for. The rest is as in [`Driver::first`], with two things added. A request that
    /// finds an update is answered in the place of the instance's table, if it has an answer of its own. And nothing of
    /// the instance begins while an update is under way ([`UpdateHolding::begin_instance`]).
    pub fn first_instance(
        locked: bool,
        is_owner: bool,
        may_begin: bool,
        mode: Option<Mode>,
        first_poll: bool,
        instance: Holding,
        change: &UpdateHolding,
        request: &Request,
        attributes: Digest,
        asked: &Settings,
    ) -> UpdateTransaction
        ensures tx { result ≡ spec.first_instance locked is_owner may_begin mode first_poll instance change.now
            request.now attributes asked.now }
    {
        if is_owner {
            return nothing(instance, change, Stage::Done);
        }
        if let Some(answer) = in_place(request.kind, change, instance, asked) {
            return answered_in_place(instance, change, answer);
        }
        let put_off = !may_begin && instance.begins(mode, request, attributes);
        let begun = change.begin_instance(
            instance, mode, first_poll, request, attributes, !may_begin,
        );
        let tx = Driver::begun(locked, false, put_off, instance, request, begun);
        let after = held_after(tx.effect, instance, change, request.kind, asked);
        of_instance(tx, &after)
    }

    /// Returns the first transaction of a take-up, by the row that it reads. If an update is under way, its work is the
    /// driver's then. The instance has none (rules *u* and *d*), so otherwise it is as [`Driver::take_up`].
    pub fn take_up(
        instance: Holding,
        change: &UpdateHolding,
        may_give_up: bool,
    ) -> UpdateTransaction
        ensures tx { result ≡ spec.take_up may_give_up instance change.now }
        ensures change { result.change ≡ change.now }
    {
        match task_of(change) {
            Some(task) => UpdateTransaction {
                instance,
                change: *change,
                takes_over: true,
                stage: UpdateStage::Work(task),
                effect: UpdateEffect::Instance(Effect::Nothing),
            },
            None => of_instance(Driver::take_up(instance, may_give_up), change),
        }
    }

    /// Returns what follows for a driver that doesn't know whether its first transaction was committed, as
    /// [`Driver::resume`]: if the row has the driver's number (`is_owner`), the pending work is the driver's, whether
    /// of an update or of the instance. Nothing is written.
    pub fn resume(is_owner: bool, instance: Holding, change: &UpdateHolding) -> UpdateTransaction
        ensures tx { result ≡ spec.resume is_owner instance change.now }
        ensures instance { result.instance ≡ instance }
        ensures change { result.change ≡ change.now }
        ensures number { result.takes_over ≡ false }
    {
        match task_of(change) {
            Some(task) if is_owner => UpdateTransaction {
                instance,
                change: *change,
                takes_over: false,
                stage: UpdateStage::Work(task),
                effect: UpdateEffect::Instance(Effect::Nothing),
            },
            _ => of_instance(Driver::resume(is_owner, instance), change),
        }
    }

    /// Returns the last transaction of the pending work of an update. If the row has another driver's number (not
    /// `is_owner`), nothing is written. If no work of an update is pending any more, an earlier try was committed, and
    /// `before` is what it answered. `mode` is that of [`UpdateBegun::Work`].
    pub fn end_update(
        attempt: Option<u64>,
        is_owner: bool,
        mode: Mode,
        instance: Holding,
        change: &UpdateHolding,
        outcome: UpdateOutcome,
        before: Option<Answer>,
    ) -> UpdateTransaction
        ensures tx { result ≡ spec.end_update attempt is_owner mode instance change.now outcome before }
        ensures instance { result.instance ≡ instance }
        ensures number { result.takes_over ≡ false }
    {
        if !is_owner {
            return nothing(instance, change, Stage::Done);
        }
        match change.end(mode, outcome) {
            Ok((after, answer)) => UpdateTransaction {
                instance,
                change: after,
                takes_over: false,
                stage: UpdateStage::Instance(after_end(attempt, answer)),
                effect: UpdateEffect::End(mode, outcome),
            },
            Err(_) => nothing(instance, change, repeated(before)),
        }
    }

    /// Returns the last transaction of the operation of an update. If the row has another driver's number (not
    /// `is_owner`), or no operation of an update runs, nothing is written.
    pub fn finish_update(
        is_owner: bool,
        instance: Holding,
        change: &UpdateHolding,
        ok: bool,
    ) -> UpdateTransaction
        ensures tx { result ≡ spec.finish_update is_owner instance change.now ok }
        ensures instance { result.instance ≡ instance }
        ensures number { result.takes_over ≡ false }
    {
        match change.finish(ok) {
            Ok(after) if is_owner => UpdateTransaction {
                instance,
                change: after,
                takes_over: false,
                stage: UpdateStage::Instance(Stage::Done),
                effect: UpdateEffect::Finish(ok),
            },
            _ => nothing(instance, change, Stage::Done),
        }
    }

    /// Returns the stage of this driver if nobody knows whether `transaction` was committed, as [`Driver::unsure`].
    /// After the last transaction of an update, it reads the row again, and remembers the answer that it would have
    /// given.
    pub fn unsure(&self, transaction: &UpdateTransaction) -> UpdateStage
        ensures stage { result ≡ spec.unsure self.now.attempt self.now.stage transaction.now }
        ensures silent { (works result ≡ false) × (is_answer result ≡ false) }
    {
        if self.attempt.is_none() {
            return UpdateStage::Instance(Stage::Done);
        }
        match &self.stage {
            UpdateStage::Instance(stage) => UpdateStage::Instance(unsure_of(*stage, transaction)),
            UpdateStage::End { outcome, before } => UpdateStage::End {
                outcome: *outcome,
                before: remembered(&transaction.stage, *before),
            },
            UpdateStage::Work(_) | UpdateStage::Finish(_) | UpdateStage::Conflict => {
                UpdateStage::Instance(Stage::Done)
            }
        }
    }

    /// Returns the driver once it has the lock, as [`Driver::locked`].
    pub fn locked(&self) -> UpdateDriver
        ensures driver { result ≡ spec.at_stage self.now.attempt (spec.locked self.now.stage) }
    {
        let stage = match &self.stage {
            UpdateStage::Instance(Stage::TryLock | Stage::AwaitLock) => {
                UpdateStage::Instance(Stage::Begin { locked: true })
            }
            stage => *stage,
        };
        UpdateDriver {
            attempt: self.attempt,
            stage,
        }
    }

    /// Returns the driver that hasn't got the lock, as [`Driver::missed`].
    pub fn missed(&self) -> UpdateDriver
        ensures driver { result ≡ spec.at_stage self.now.attempt (spec.missed self.now.attempt self.now.stage) }
    {
        let stage = match &self.stage {
            UpdateStage::Instance(Stage::TryLock) if self.attempt.is_some() => {
                UpdateStage::Instance(Stage::Begin { locked: false })
            }
            UpdateStage::Instance(Stage::TryLock | Stage::AwaitLock) => {
                UpdateStage::Instance(Stage::Done)
            }
            stage => *stage,
        };
        UpdateDriver {
            attempt: self.attempt,
            stage,
        }
    }

    /// Returns the driver once a look at the resource has shown how its pending work of the instance ended. If it has
    /// none, nothing changes.
    pub fn worked(&self, outcome: WorkOutcome) -> UpdateDriver
        ensures driver { result ≡ spec.at_stage self.now.attempt (spec.worked outcome self.now.stage) }
    {
        let stage = match &self.stage {
            UpdateStage::Instance(
                Stage::Work {
                    task: Task::Pending(_),
                },
            ) => UpdateStage::Instance(Stage::End {
                outcome,
                before: None,
            }),
            stage => *stage,
        };
        UpdateDriver {
            attempt: self.attempt,
            stage,
        }
    }

    /// Returns the driver once a look at the resource has shown how its operation of the instance ended. If it has
    /// none, nothing changes.
    pub fn finished(&self, ok: bool) -> UpdateDriver
        ensures driver { result ≡ spec.at_stage self.now.attempt (spec.finished ok self.now.stage) }
    {
        let stage = match &self.stage {
            UpdateStage::Instance(
                Stage::Work {
                    task: Task::Operation,
                },
            ) => UpdateStage::Instance(Stage::Finish { ok }),
            stage => *stage,
        };
        UpdateDriver {
            attempt: self.attempt,
            stage,
        }
    }

    /// Returns the driver once a look at the resource has shown how the pending work of its update ended. If it has
    /// none, nothing changes.
    pub fn worked_update(&self, outcome: UpdateOutcome) -> UpdateDriver
        ensures driver { result ≡ spec.at_stage self.now.attempt (spec.worked_update outcome self.now.stage) }
    {
        let stage = match &self.stage {
            UpdateStage::Work(UpdateTask::Pending(_)) => UpdateStage::End {
                outcome,
                before: None,
            },
            stage => *stage,
        };
        UpdateDriver {
            attempt: self.attempt,
            stage,
        }
    }

    /// Returns the driver once a look at the resource has shown how the operation of its update ended. If it has none,
    /// nothing changes.
    pub fn finished_update(&self, ok: bool) -> UpdateDriver
        ensures driver { result ≡ spec.at_stage self.now.attempt (spec.finished_update ok self.now.stage) }
    {
        let stage = match &self.stage {
            UpdateStage::Work(UpdateTask::Operation(_)) => UpdateStage::Finish(ok),
            stage => *stage,
        };
        UpdateDriver {
            attempt: self.attempt,
            stage,
        }
    }
}

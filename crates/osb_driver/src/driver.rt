//! What a driver does next: pure decisions over the row that its transaction reads.
ghost use Rattle.std.specs.Prelude.{◌≡◌, ◌&&◌, false, not};
ghost use Rattle.osb_driver.specs.Driver as spec;
ghost use Rattle.osb_driver.specs.Driver.{at_stage, is_answer, works};
ghost use Rattle.osb_instance.specs.Begin.{begins, begun_if};

use osb_instance::{Begun, Digest, Holding, WorkOutcome};
use osb_message::{Answer, Mode, Request};

/// The work of a driver (this project's choice, and so is all of this crate).
#[derive(Clone, Copy, Debug, PartialEq, Eq)]
pub enum Task {
    /// The pending work of this request.
    Pending(Request),
    /// The operation that runs.
    Operation,
}

/// Where a driver stands: the one action that the program around it carries out next.
#[derive(Clone, Copy, Debug, PartialEq, Eq)]
pub enum Stage {
    /// Take the lock of the key, if it is free.
    TryLock,
    /// Run the first transaction: [`Driver::first`] of a request, [`Driver::take_up`] of a take-up.
    Begin {
        /// Whether the driver has the lock.
        locked: bool,
    },
    /// Wait for the lock of the key.
    AwaitLock,
    /// Do the work, under the lock.
    Work {
        /// The work.
        task: Task,
    },
    /// Run the last transaction of pending work: [`Driver::end`].
    End {
        /// How the work ended.
        outcome: WorkOutcome,
        /// The answer of an earlier try, if nobody knows whether that was committed.
        before: Option<Answer>,
    },
    /// Run the last transaction of an operation: [`Driver::finish`].
    Finish {
        /// Whether the operation succeeded.
        ok: bool,
    },
    /// Read the row, since nobody knows whether the first transaction was committed: [`Driver::resume`].
    Unsure,
    /// Free the lock, and send the answer.
    Answer {
        /// The answer.
        answer: Answer,
    },
    /// Free the lock. If a request isn't answered yet, answer 500 or 503.
    Done,
}

/// What a transaction may do, by what else it reads, and by the clock.
#[derive(Clone, Copy, Debug, PartialEq, Eq)]
pub struct Permit {
    /// Whether something may begin, as at [`Holding::begin_if`].
    pub begin: bool,
    /// Whether an instance has waited too long for its first Poll.
    pub give_up: bool,
}

/// The event of the network that a transaction is, once it is committed.
#[derive(Clone, Copy, Debug, PartialEq, Eq)]
pub enum Effect {
    /// No event.
    Nothing,
    /// The request arrives.
    Arrive,
    /// The request arrives and is put off: it is answered as if work were pending.
    PutOff,
    /// The pending work ends.
    End(WorkOutcome),
    /// The operation that runs ends. The value is whether it succeeded.
    Finish(bool),
    /// The instance has waited too long for its first Poll.
    GiveUpWaiting,
}

/// What a transaction writes, and what follows once its commit has returned.
#[derive(Clone, Copy, Debug, PartialEq, Eq)]
pub struct Transaction {
    /// The row to write.
    pub row: Holding,
    /// Whether the number of the driver becomes that of the row.
    pub takes_over: bool,
    /// The stage once the commit has returned.
    pub stage: Stage,
    /// The event of the network.
    pub effect: Effect,
}

/// The way of one request through the broker, or of one take-up, which goes on with what a dead worker has left.
#[derive(Clone, Copy, Debug, PartialEq, Eq)]
pub struct Driver {
    /// The attempt of the request that the driver answers; none of a take-up. A broker doesn't know the attempt: it
    /// stands for the connection that the request came by.
    pub attempt: Option<u64>,
    /// Where the driver stands.
    pub stage: Stage,
}

// A transaction that writes nothing.
fn nothing(row: Holding, stage: Stage) -> Transaction
    ensures tx { result ≡ spec.nothing row stage }
{
    Transaction {
        row,
        takes_over: false,
        stage,
        effect: Effect::Nothing,
    }
}

// A request is answered at once.
fn answered(row: Holding, answer: Answer, put_off: bool) -> Transaction
    ensures tx { result ≡ spec.answered row answer put_off }
{
    let effect = if put_off {
        Effect::PutOff
    } else {
        Effect::Arrive
    };
    Transaction {
        row,
        takes_over: false,
        stage: Stage::Answer { answer },
        effect,
    }
}

// A take-up goes on with work that is pending, or with the operation that runs.
fn taken_over(row: Holding, task: Task) -> Transaction
    ensures tx { result ≡ spec.taken_over row task }
{
    let takes_over = true;
    Transaction {
        row,
        takes_over,
        stage: Stage::Work { task },
        effect: Effect::Nothing,
    }
}

impl Driver {
    /// Returns the driver of the request of this attempt, or with `None` that of a take-up.
    pub fn new(attempt: Option<u64>) -> Driver
        ensures driver { result ≡ at_stage attempt Stage.TryLock }
    {
        Driver {
            attempt,
            stage: Stage::TryLock,
        }
    }

    /// Returns the driver once it has the lock. At a stage that asks for no lock, nothing changes.
    pub fn locked(self) -> Driver
        ensures driver { result ≡ at_stage self.attempt (spec.locked self.stage) }
    {
        let stage = match self.stage {
            Stage::TryLock | Stage::AwaitLock => Stage::Begin { locked: true },
            stage => stage,
        };
        Driver { stage, ..self }
    }

    /// Returns the driver that hasn't got the lock: at once, or after it has waited. Without the lock, a request may
    /// still be answered, and a take-up is done. At a stage that asks for no lock, nothing changes.
    pub fn missed(self) -> Driver
        ensures driver { result ≡ at_stage self.attempt (spec.missed self.attempt self.stage) }
    {
        let stage = match self.stage {
            Stage::TryLock if self.attempt.is_some() => Stage::Begin { locked: false },
            Stage::TryLock | Stage::AwaitLock => Stage::Done,
            stage => stage,
        };
        Driver { stage, ..self }
    }

    /// Returns the driver once a look at the resource has shown how its pending work ended. If it has none, nothing
    /// changes.
    pub fn worked(self, outcome: WorkOutcome) -> Driver
        ensures driver { result ≡ at_stage self.attempt (spec.worked_by outcome self.stage) }
    {
        let stage = match self.stage {
            Stage::Work {
                task: Task::Pending(_),
            } => Stage::End {
                outcome,
                before: None,
            },
            stage => stage,
        };
        Driver { stage, ..self }
    }

    /// Returns the driver once a look at the resource has shown how its operation ended: `ok` is whether it succeeded. If
    /// it has none, nothing changes.
    pub fn finished(self, ok: bool) -> Driver
        ensures driver { result ≡ at_stage self.attempt (spec.finished ok self.stage) }
    {
        let stage = match self.stage {
            Stage::Work {
                task: Task::Operation,
            } => Stage::Finish { ok },
            stage => stage,
        };
        Driver { stage, ..self }
    }

    /// Returns the first transaction of a request, by the row that it reads. If work is due, its request is pending
    /// under the driver's number then; without the lock, no number is written and no work begins, since the lock comes
    /// first.
    ///
    /// `is_owner` is whether the row has the driver's number. No row has it before the driver has written it, so the
    /// driver is done if it has. The rest is as in [`Holding::begin_if`]: unless something may begin (`may_begin`), a
    /// request that would begin something is put off.
    pub fn first(
        locked: bool,
        is_owner: bool,
        may_begin: bool,
        mode: Option<Mode>,
        first_poll: bool,
        row: Holding,
        request: &Request,
        attributes: Digest,
    ) -> Transaction
        ensures tx { result ≡ spec.first locked is_owner (not may_begin && begins mode row request.now attributes) row
            request.now (begun_if may_begin mode first_poll row request.now attributes) }
        ensures unlocked { locked ≡ false → (result.takes_over ≡ false) × (works result.stage ≡ false) }
    {
        let put_off = !may_begin && row.begins(mode, request, attributes);
        let begun = row.begin_if(mode, first_poll, request, attributes, may_begin);
        Driver::begun(locked, is_owner, put_off, row, request, begun)
    }

    /// Returns the first transaction of a request, by the row that it reads and by what comes of the request: `begun`,
    /// as [`Holding::begin_if`] or a binding's `begin` returns it. `put_off` is whether the request would begin
    /// something that may not begin. [`Driver::first`] has the rest.
    pub fn begun(
        locked: bool,
        is_owner: bool,
        put_off: bool,
        row: Holding,
        request: &Request,
        begun: (Holding, Begun),
    ) -> Transaction
        ensures tx { result ≡ spec.first locked is_owner put_off row request.now begun }
        ensures unlocked { locked ≡ false → (result.takes_over ≡ false) × (works result.stage ≡ false) }
    {
        if is_owner {
            return nothing(row, Stage::Done);
        }
        let (after, begun) = begun;
        match begun {
            Begun::Answered(answer) => answered(after, answer, put_off),
            Begun::Work(_) => {
                if !locked {
                    return nothing(row, Stage::AwaitLock);
                }
                let task = Task::Pending(*request);
                Transaction {
                    row: after,
                    takes_over: true,
                    stage: Stage::Work { task },
                    effect: Effect::Arrive,
                }
            }
        }
    }

    /// Returns the first transaction of a take-up, by the row that it reads: pending work or the operation that runs is
    /// the driver's then, or the wait for the first Poll is given up, if that may be.
    pub fn take_up(row: Holding, may_give_up: bool) -> Transaction
        ensures tx { result ≡ spec.take_up may_give_up row }
    {
        if let Some(request) = row.work() {
            return taken_over(row, Task::Pending(request));
        }
        if row.is_operating() {
            return taken_over(row, Task::Operation);
        }
        match row.give_up_waiting() {
            Ok(after) if may_give_up => Transaction {
                row: after,
                takes_over: false,
                stage: Stage::Done,
                effect: Effect::GiveUpWaiting,
            },
            _ => nothing(row, Stage::Done),
        }
    }

    /// Returns what follows for a driver that doesn't know whether its first transaction was committed. If the row has
    /// the driver's number (`is_owner`), it was: the pending work is the driver's. Otherwise the driver begins anew.
    /// Nothing is written.
    pub fn resume(is_owner: bool, row: Holding) -> Transaction
        ensures tx { result ≡ spec.resume is_owner row row.work }
    {
        match (is_owner, row.work()) {
            (false, _) => nothing(row, Stage::Begin { locked: true }),
            (true, None) => nothing(row, Stage::Done),
            (true, Some(request)) => {
                let task = Task::Pending(request);
                nothing(row, Stage::Work { task })
            }
        }
    }

    // What follows the end of work: the answer, or, of a take-up, a look at what else there is.
    fn after(attempt: Option<u64>, answer: Answer) -> Stage
        ensures stage { result ≡ spec.after attempt answer }
    {
        match attempt {
            Some(_) => Stage::Answer { answer },
            None => Stage::Begin { locked: true },
        }
    }

    /// Returns the last transaction of pending work. If the row has another driver's number (not `is_owner`), nothing is
    /// written: another worker goes on. If no work is pending any more, an earlier try was committed, and `before` is
    /// what it answered.
    pub fn end(
        attempt: Option<u64>,
        is_owner: bool,
        mode: Option<Mode>,
        row: Holding,
        outcome: WorkOutcome,
        before: Option<Answer>,
    ) -> Transaction
        ensures tx { result ≡ spec.end attempt is_owner mode row outcome before row.work }
    {
        if !is_owner {
            return nothing(row, Stage::Done);
        }
        if row.work().is_none() {
            return match before {
                None => nothing(row, Stage::Done),
                Some(answer) => nothing(row, Stage::Answer { answer }),
            };
        }
        match row.end(mode, outcome) {
            Ok((after, answer)) => Transaction {
                row: after,
                takes_over: false,
                stage: Driver::after(attempt, answer),
                effect: Effect::End(outcome),
            },
            Err(_) => nothing(row, Stage::Done),
        }
    }

    /// Returns the last transaction of an operation. If the row has another driver's number (not `is_owner`), or no
    /// operation runs, nothing is written.
    pub fn finish(is_owner: bool, row: Holding, ok: bool) -> Transaction
        ensures tx { result ≡ spec.finish is_owner row ok }
    {
        match row.finish(ok) {
            Ok(after) if is_owner => Transaction {
                row: after,
                takes_over: false,
                stage: Stage::Done,
                effect: Effect::Finish(ok),
            },
            _ => nothing(row, Stage::Done),
        }
    }

    /// Returns the transaction of this driver by the row that it reads; `None` at a stage that has none. `is_owner` is
    /// whether the row has the driver's number. The rest is as in [`Driver::first`], of the driver's own request; a
    /// take-up needs none of it but the mode.
    pub fn transaction(
        &self,
        is_owner: bool,
        permit: Permit,
        mode: Option<Mode>,
        first_poll: bool,
        row: Holding,
        request: &Request,
        attributes: Digest,
    ) -> Option<Transaction>
        ensures tx { result ≡ spec.transaction self.now.attempt self.now.stage is_owner permit mode first_poll row
            request.now attributes }
    {
        match self.stage {
            Stage::Begin { locked } => Some(match self.attempt {
                None => Driver::take_up(row, permit.give_up),
                Some(_) => Driver::first(
                    locked,
                    is_owner,
                    permit.begin,
                    mode,
                    first_poll,
                    row,
                    request,
                    attributes,
                ),
            }),
            Stage::Unsure => Some(Driver::resume(is_owner, row)),
            Stage::End { outcome, before } => Some(Driver::end(
                self.attempt,
                is_owner,
                mode,
                row,
                outcome,
                before,
            )),
            Stage::Finish { ok } => Some(Driver::finish(is_owner, row, ok)),
            _ => None,
        }
    }

    /// Returns the stage of this driver if nobody knows whether `transaction` was committed. A request's driver reads
    /// the row again, and goes on. A take-up is done, since nobody waits for its answer. None works or answers before it
    /// has read the row.
    pub fn unsure(&self, transaction: &Transaction) -> Stage
        ensures stage { result ≡ spec.unsure self.now.attempt self.now.stage transaction.now }
        ensures silent { (works result ≡ false) × (is_answer result ≡ false) }
    {
        if self.attempt.is_none() {
            return Stage::Done;
        }
        match self.stage {
            Stage::Begin { .. } if transaction.takes_over => Stage::Unsure,
            Stage::Begin { locked } => Stage::Begin { locked },
            Stage::Unsure => Stage::Unsure,
            Stage::End { outcome, before } => {
                let before = match transaction.stage {
                    Stage::Answer { answer } => Some(answer),
                    _ => before,
                };
                Stage::End { outcome, before }
            }
            _ => Stage::Done,
        }
    }
}

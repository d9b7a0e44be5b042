//! What a driver does next: pure decisions over the record that its transaction reads.
ghost use Rattle.std.specs.Prelude.{◌≡◌};
ghost use Rattle.osb_platform_driver.specs.Driver as spec;

use osb_instance::{Record, Sent};
use osb_message::{Answer, InstanceId, PlanId, ServiceId};

/// Why an instance is cleaned up (this project's choice, and so is all of this crate).
#[derive(Clone, Copy, Debug, PartialEq, Eq)]
pub enum CleanUp {
    /// It was polled for too long: [`Record::expire`].
    Expire,
    /// Its deletion was polled for too long: [`Record::retry`].
    Retry,
    /// An operator asks for it: [`Record::remove`].
    Remove,
}

/// What the program wishes of an instance. A driver does only what the record allows.
#[derive(Clone, Copy, Debug, PartialEq, Eq)]
pub struct Wishes {
    /// To create it, if it isn't recorded.
    pub create: bool,
    /// To clean it up.
    pub clean_up: Option<CleanUp>,
    /// To send the request that is due.
    pub send: bool,
}

/// Where a driver stands: the one action that the program around it carries out next.
#[derive(Clone, Copy, Debug, PartialEq, Eq)]
pub enum Stage {
    /// Run the first transaction: [`Driver::claim`].
    Claim,
    /// Send the request, and wait for its answer.
    Send {
        /// The request, and its attempt.
        sent: Sent,
    },
    /// Run the last transaction: [`Driver::take`].
    Take {
        /// The attempt.
        attempt: u64,
        /// The answer; none if none came, or none that is surely the broker's.
        answer: Option<Answer>,
    },
    /// Run the last transaction, since nobody knows whether the first one was committed: [`Driver::resume`].
    Unsure {
        /// The attempt.
        attempt: u64,
    },
    /// Nothing is left to do.
    Done,
}

/// What a transaction writes, and what follows.
#[derive(Clone, Copy, Debug, PartialEq, Eq)]
pub struct Transaction {
    /// The record to write.
    pub recorded: Option<Record>,
    /// Whether the number of the driver becomes that of the row.
    pub takes_over: bool,
    /// The stage once the commit has returned.
    pub stage: Stage,
    /// The stage if nobody knows whether it was committed.
    pub unsure: Stage,
    /// The stage if it wasn't committed.
    pub failed: Stage,
}

/// The way of one request of a platform.
#[derive(Clone, Copy, Debug, PartialEq, Eq)]
pub struct Driver {
    /// Where the driver stands.
    pub stage: Stage,
}

/// Returns the record once what a crash has left in flight is given up. It takes no memory.
pub fn brought_up(row: Record) -> Record
    ensures row { result ≡ spec.brought_up row }
{
    match row.timeout(row.attempt()) {
        Ok(after) => after,
        Err(_) => row,
    }
}

/// Returns the record once it is cleaned up as is wished, if it allows that. It takes no memory.
pub fn cleaned(row: Record, wish: Option<CleanUp>) -> Record
    ensures row { result ≡ spec.cleaned wish row }
{
    match wish {
        None => row,
        Some(CleanUp::Expire) => match row.expire() {
            Ok(after) => after,
            Err(_) => row,
        },
        Some(CleanUp::Retry) => match row.retry() {
            Ok(after) => after,
            Err(_) => row,
        },
        Some(CleanUp::Remove) => match row.remove() {
            Ok(after) => after,
            Err(_) => row,
        },
    }
}

// A transaction after which nothing is sent.
fn resting(recorded: Option<Record>) -> Transaction
    ensures tx { result ≡ spec.resting recorded }
{
    Transaction {
        recorded,
        takes_over: false,
        stage: Stage::Done,
        unsure: Stage::Done,
        failed: Stage::Done,
    }
}

// A request is in flight, and the row has the driver's number. If nobody knows whether that was written, nothing is sent.
fn claimed(row: Record, sent: Sent) -> Transaction
    ensures tx { result ≡ spec.claimed row sent }
{
    let number = sent.attempt;
    Transaction {
        recorded: Some(row),
        takes_over: true,
        stage: Stage::Send { sent },
        unsure: Stage::Unsure { attempt: number },
        failed: Stage::Done,
    }
}

impl Driver {
    /// Returns a driver that has done nothing yet.
    pub fn new() -> Driver
        ensures driver { result ≡ spec.new_driver }
    {
        Driver {
            stage: Stage::Claim,
        }
    }

    /// Returns the first transaction, by the record that it reads: `None` if the instance isn't recorded. A request in
    /// flight is given up, since its sender is gone. Then the wishes are fulfilled that the record allows: to clean up, and
    /// to send what is due. The ids and `accepts` are those of [`Record::create`].
    pub fn claim(
        row: Option<Record>,
        wishes: Wishes,
        id: InstanceId,
        service: ServiceId,
        plan: PlanId,
        accepts: bool,
    ) -> Transaction
        ensures tx { result ≡ spec.claim wishes id service plan accepts row }
    {
        let Some(row) = row else {
            if !wishes.create {
                return resting(None);
            }
            let (row, sent) = Record::create(id, service, plan, accepts);
            return claimed(row, sent);
        };
        let row = cleaned(brought_up(row), wishes.clean_up);
        if !wishes.send {
            return resting(Some(row));
        }
        match row.send(id) {
            Ok((after, sent)) => claimed(after, sent),
            Err(_) => resting(Some(row)),
        }
    }

    /// Returns the driver whose request was answered, or with `None` whose answer was lost: none came in time, or none
    /// that is surely the broker's to this request. At any other stage, nothing changes.
    pub fn answered(self, answer: Option<Answer>) -> Driver
        ensures driver { result ≡ spec.answered answer self }
    {
        match self.stage {
            Stage::Send { sent } => Driver {
                stage: Stage::Take {
                    attempt: sent.attempt,
                    answer,
                },
            },
            _ => self,
        }
    }

    /// Returns the last transaction, by the record that it reads: the answer to the request of the attempt is taken, or it
    /// is given up. If that request isn't in flight any more, nothing is written. If the transaction fails, or nobody
    /// knows whether it was committed, it is tried again.
    pub fn take(row: Option<Record>, attempt: u64, answer: Option<Answer>) -> Transaction
        ensures tx { result ≡ spec.take attempt answer row }
    {
        let recorded = match row {
            None => None,
            Some(row) => {
                let after = match answer {
                    Some(answer) => row.answer(attempt, answer),
                    None => row.timeout(attempt),
                };
                match after {
                    Ok(after) => Some(after),
                    Err(_) => Some(row),
                }
            }
        };
        Transaction {
            recorded,
            takes_over: false,
            stage: Stage::Done,
            unsure: Stage::Take { attempt, answer },
            failed: Stage::Take { attempt, answer },
        }
    }

    /// Returns the last transaction of a driver that doesn't know whether its first one was committed, by the record that
    /// it reads. If the row has the driver's number (`is_owner`), the request of the attempt is given up: it wasn't sent.
    /// Otherwise nothing is written: a request of this attempt is another driver's. If the transaction fails, or nobody
    /// knows whether it was committed, it is tried again.
    pub fn resume(row: Option<Record>, is_owner: bool, attempt: u64) -> Transaction
        ensures tx { result ≡ spec.resume is_owner attempt row }
    {
        let recorded = match row {
            Some(row) if is_owner => match row.timeout(attempt) {
                Ok(after) => Some(after),
                Err(_) => Some(row),
            },
            row => row,
        };
        Transaction {
            recorded,
            takes_over: false,
            stage: Stage::Done,
            unsure: Stage::Unsure { attempt },
            failed: Stage::Unsure { attempt },
        }
    }
}

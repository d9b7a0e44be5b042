//! What can happen to a broker: the words of `specs/World.antt`.
use crate::Permit;
use osb_instance::WorkOutcome;
use osb_network::{Event, Resource};

/// How a transaction goes.
#[derive(Clone, Copy, Debug, PartialEq, Eq)]
pub enum Commit {
    /// It is committed, and the commit returns.
    Returned,
    /// It isn't committed, and its driver knows.
    Failed,
    /// Its driver doesn't know whether it was committed: the connection was lost.
    Unsure {
        /// Whether it was committed.
        written: bool,
    },
}

/// What can happen in the world of a broker. That a process is killed is no happening: its drivers take no further step.
#[derive(Clone, Copy, Debug, PartialEq, Eq)]
pub enum Happening {
    /// An event of the platform or of the network between.
    Outside {
        /// The event. One of the broker's changes nothing.
        event: Event,
    },
    /// The request of this attempt arrives, for the first time or again: a driver begins.
    Arrive {
        /// The attempt, from 1.
        attempt: u64,
    },
    /// Somebody looks after what is left: a driver of no request begins.
    TakeUp,
    /// A driver gets the lock, which nobody has.
    GetLock {
        /// The place of the driver.
        at: usize,
    },
    /// A driver doesn't get the lock at once.
    MissLock {
        /// The place of the driver.
        at: usize,
    },
    /// A driver runs the transaction of its stage.
    Transact {
        /// The place of the driver.
        at: usize,
        /// What the transaction may do.
        permit: Permit,
        /// How the transaction goes.
        commit: Commit,
    },
    /// The work of the driver that has the lock changes the resource.
    Work {
        /// The resource then.
        resource: Resource,
    },
    /// The driver that has the lock has seen how its pending work ended.
    Worked {
        /// How it ended. One that the resource contradicts changes nothing.
        outcome: WorkOutcome,
    },
    /// The driver that has the lock has seen how its operation ended.
    Finished {
        /// Whether it succeeded. One that the resource contradicts changes nothing.
        ok: bool,
    },
    /// A driver gives up: the database is away, or the driver has waited too long. At work none does: if nobody knows how
    /// its work went, its calls may go on as long as it has the lock.
    GiveUp {
        /// The place of the driver.
        at: usize,
    },
    /// The lock is freed, or lost.
    LoseLock,
    /// The database has lost the number of the row.
    ForgetNumber,
}

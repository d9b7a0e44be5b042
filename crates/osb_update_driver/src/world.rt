//! What can happen to a broker of an instance that can be updated, whatever the platform does: the words of
//! `specs/World.antt`.
use crate::UpdateAsked;
use osb_driver::{Commit, Permit};
use osb_instance::WorkOutcome;
use osb_network::Resource;
use osb_update::{Allowed, Settings, UpdateOutcome};

/// What can happen in the world of a broker and any platform. That a process is killed is no happening: its drivers
/// take no further step.
#[derive(Clone, Copy, Debug, PartialEq, Eq)]
pub enum UpdateHappening {
    /// A request comes: a driver begins.
    Ask {
        /// The request. It may be one that has come before.
        asked: UpdateAsked,
    },
    /// Somebody looks after what is left: a driver of no request begins.
    TakeUp,
    /// A driver gets the lock, which nobody has.
    GetLock {
        /// The place of the driver.
        at: usize,
    },
    /// A driver doesn't get the lock at once.
    MissLock {
        /// The place of the driver.
        at: usize,
    },
    /// A driver runs the transaction of its stage.
    Transact {
        /// The place of the driver.
        at: usize,
        /// What the transaction may do.
        permit: Permit,
        /// What the catalogue has for an Update: anything, at any time.
        allowed: Allowed,
        /// How the transaction goes.
        commit: Commit,
    },
    /// The work of the driver that has the lock changes the resource and its settings. That of an update changes the
    /// settings alone.
    Work {
        /// The resource then. What a deletion can't make of it changes nothing.
        resource: Resource,
        /// The settings then, or none while they are between.
        settings: Option<Settings>,
    },
    /// The driver that has the lock has seen how its pending work of the instance ended.
    Worked {
        /// How it ended. One that the resource or its settings contradict changes nothing.
        outcome: WorkOutcome,
    },
    /// The driver that has the lock has seen how its operation of the instance ended.
    Finished {
        /// Whether it succeeded. One that the resource or its settings contradict changes nothing.
        ok: bool,
    },
    /// The driver that has the lock has seen how its pending work of an update ended.
    UpdateWorked {
        /// How it ended. One that the settings contradict changes nothing.
        outcome: UpdateOutcome,
    },
    /// The driver that has the lock has seen how its operation of an update ended.
    UpdateFinished {
        /// Whether it succeeded. One that the settings contradict changes nothing.
        ok: bool,
    },
    /// A driver gives up: the database is away, or the driver has waited too long. At work none does: if nobody knows
    /// how its work went, its calls may go on as long as it has the lock.
    GiveUp {
        /// The place of the driver.
        at: usize,
    },
    /// The lock is freed, or lost.
    LoseLock,
    /// The database has lost the number of the row.
    ForgetNumber,
}

//! What can happen to a platform: the words of `specs/World.antt`.
use crate::{Driver, Wishes};
use osb_network::Event;

/// How a transaction goes.
#[derive(Clone, Copy, Debug, PartialEq, Eq)]
pub enum Commit {
    /// It is committed, and the commit returns.
    Returned,
    /// It isn't committed, and its driver knows.
    Failed,
    /// Its driver doesn't know whether it was committed: the connection was lost.
    Unsure {
        /// Whether it was committed.
        written: bool,
    },
}

/// Where the answer of a driver is from.
#[derive(Clone, Copy, Debug, PartialEq, Eq)]
pub enum Source {
    /// From nowhere: there is none.
    Nowhere,
    /// From the broker.
    Given {
        /// Which of all answers that were given it is, from 0.
        given: usize,
    },
    /// From the broker, with a body that was garbled on the way.
    Garbled {
        /// Which of all answers that were given it is, from 0.
        given: usize,
    },
    /// From a gateway, in place of the broker.
    Gateway {
        /// The status.
        status: u16,
    },
}

/// A driver, and where its answer is from. The driver doesn't know that.
#[derive(Clone, Copy, Debug, PartialEq, Eq)]
pub struct Exchange {
    /// The driver.
    pub driver: Driver,
    /// Where its answer is from.
    pub source: Source,
}

/// What can happen in the world of a platform. That a process is killed is no happening: its drivers take no further step.
#[derive(Clone, Copy, Debug, PartialEq, Eq)]
pub enum Happening {
    /// An event of the broker, or of the network between. One of the platform's changes nothing.
    Outside {
        /// The event.
        event: Event,
    },
    /// A driver begins.
    Begin,
    /// A driver runs its first transaction.
    Claim {
        /// The place of the driver.
        at: usize,
        /// What its program wishes.
        wishes: Wishes,
        /// How the transaction goes.
        commit: Commit,
    },
    /// A driver gets an answer. One that isn't to its request changes nothing.
    Answer {
        /// The place of the driver.
        at: usize,
        /// Where the answer is from.
        source: Source,
    },
    /// A driver runs its last transaction: it takes the answer, or, if it doesn't know whether its first transaction was
    /// committed, gives the request up.
    Take {
        /// The place of the driver.
        at: usize,
        /// How the transaction goes.
        commit: Commit,
    },
}

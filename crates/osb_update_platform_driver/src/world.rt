//! What can happen to a platform with the updates of an instance: the words of `specs/World.antt`.
use crate::{PlatformUpdateDriver, PlatformUpdateWishes};
use osb_message::Answer;
use osb_platform_driver::Commit;
use osb_update::Settings;
use osb_update_sides::{Life, UpdatesEvent};

/// Where the answer of a driver is from.
#[derive(Clone, Copy, Debug, PartialEq, Eq)]
pub enum UpdateSource {
    /// From nowhere: there is none.
    Nowhere,
    /// From the broker.
    Given {
        /// Which of all answers that were given it is, from 0.
        given: usize,
    },
    /// From another than the broker, such as a gateway, or from the broker, with a body that was garbled on the way: an
    /// answer as [`UpdatesEvent::TakeAnothers`] takes.
    Another {
        /// The answer.
        answer: Answer,
    },
}

/// A driver, and where its answer is from. The driver doesn't know that.
#[derive(Clone, Copy, Debug, PartialEq, Eq)]
pub struct UpdateExchange {
    /// The driver.
    pub driver: PlatformUpdateDriver,
    /// Where its answer is from.
    pub source: UpdateSource,
}

/// What can happen in the world of a platform with the updates of an instance. That a process is killed is no
/// happening: its drivers take no further step.
#[derive(Clone, Copy, Debug, PartialEq, Eq)]
pub enum PlatformUpdateHappening {
    /// An event of the broker, or of the network between. One of the platform's changes nothing, and so does one of the
    /// instance itself.
    Outside {
        /// The event.
        event: UpdatesEvent,
    },
    /// The instance itself goes on: a transaction of its own driver at the platform, or an event of its broker. While
    /// [`may_remove`](crate::may_remove) returns false, a removal changes nothing, and neither does a request of the
    /// instance. Nor does anything for which [`UpdatesEvent::Live`] doesn't apply for another reason.
    Live {
        /// What is seen of it then.
        life: Life,
        /// The settings that its own work has left.
        settings: Option<Settings>,
        /// Whether the number of its driver becomes that of the row: a request of the instance is in flight.
        takes_over: bool,
    },
    /// A driver begins.
    Begin,
    /// A driver runs its first transaction.
    Claim {
        /// The place of the driver.
        at: usize,
        /// What its program wishes.
        wishes: PlatformUpdateWishes,
        /// How the transaction goes.
        commit: Commit,
    },
    /// A driver gets an answer. One that isn't to its request changes nothing.
    Answer {
        /// The place of the driver.
        at: usize,
        /// Where the answer is from.
        source: UpdateSource,
    },
    /// A driver runs its last transaction: it takes the answer, or, if it doesn't know whether its first transaction
    /// was committed, gives the request up.
    Take {
        /// The place of the driver.
        at: usize,
        /// How the transaction goes.
        commit: Commit,
    },
}

//! What can happen to a platform with bindings: the words of `specs/ServiceWorld.antt`.
use osb_binding::BindingId;
use osb_binding_network::{BindingOrder, ServiceEvent};
use osb_platform_driver::{Commit, Source, Wishes};

/// What can happen to the drivers of an instance, or of a binding. That a process is killed is no happening: its drivers
/// take no further step.
#[derive(Clone, Copy, Debug, PartialEq, Eq)]
pub enum PlatformHappening {
    /// A driver begins.
    Begin,
    /// A driver runs its transaction, the first or the last one. What it reads is what the rows have.
    Transact {
        /// The place of the driver.
        at: usize,
        /// What its program wishes.
        wishes: Wishes,
        /// How the transaction goes.
        commit: Commit,
    },
    /// A driver gets an answer. One that isn't to its request changes nothing.
    Answer {
        /// The place of the driver.
        at: usize,
        /// Where the answer is from.
        source: Source,
        /// Whether the credentials that the answer has can be sealed.
        sealed: bool,
    },
    /// A driver gets the answer to its Fetch, or none.
    Fetched {
        /// The place of the driver.
        at: usize,
        /// Which of all answers to a Fetch of the binding it is, from 0.
        fetched: usize,
        /// Whether there is such an answer, and its credentials can be sealed.
        sealed: bool,
    },
}

/// What can happen in the world of a platform with an instance and its bindings.
#[derive(Clone, Copy, Debug, PartialEq, Eq)]
pub enum PlatformServiceHappening {
    /// An event of the broker, or of the network between. One of the platform's changes nothing.
    Outside {
        /// The event.
        event: ServiceEvent,
    },
    /// A binding is ordered, to which nothing has happened yet. If there is one with its id, nothing changes.
    Order {
        /// The order.
        order: BindingOrder,
    },
    /// Something happens to the drivers of the instance.
    Instance {
        /// What happens.
        happening: PlatformHappening,
    },
    /// Something happens to the drivers of a binding. If there is none with the id, nothing changes.
    Binding {
        /// The binding's id.
        id: BindingId,
        /// What happens.
        happening: PlatformHappening,
    },
}

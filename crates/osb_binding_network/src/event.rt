//! What can happen to an instance and its bindings.
use crate::BindingOrder;
use osb_binding::BindingId;
use osb_network::Event;

/// What can happen to a binding (this project's choice). If an event doesn't apply, nothing changes.
#[derive(Clone, Copy, Debug, PartialEq, Eq, Hash)]
pub enum BindingEvent {
    /// An event of its life, as an instance has it: Bind for Provision, Unbind for Deprovision. The rules may stop it, or
    /// put off the request that arrives. An answer that makes the record `ready` brings its credentials. An answer to a
    /// Poll that would make the record `ready` isn't taken by this, and an answer 202 to a Bind is given up if the
    /// binding can't be fetched.
    Life {
        /// The event.
        event: Event,
        /// The credentials of the resource after an [`Event::Work`] that applies. No other event reads them.
        credentials: u64,
    },
    /// A Fetch arrives at the broker, for the first time or again, in time or late. It applies if the row is `ready` and
    /// no work is pending, and is answered with the credentials that stand beside the row.
    Fetch,
    /// The platform takes the answer to a Poll together with the answer to a Fetch. It applies if the answer to the Poll
    /// makes a record `ready` that polls.
    TakeFetched {
        /// Which of all answers that were given, from 0.
        at: usize,
        /// Which of all answers to a Fetch, from 0.
        fetched: usize,
    },
    /// The broker deletes the binding's tombstone. It applies if the binding has one, and its instance too.
    Forget,
}

/// What can happen to an instance with bindings (this project's choice).
#[derive(Clone, Copy, Debug, PartialEq, Eq, Hash)]
pub enum ServiceEvent {
    /// An event of the instance. The rules may stop it, or put off the request that arrives.
    Instance(Event),
    /// A binding is taken in, to which nothing has happened yet. It applies if there is none with its id.
    Order(BindingOrder),
    /// An event of a binding. It applies only if there is one with the id.
    Binding {
        /// The binding's id.
        id: BindingId,
        /// What happens to it.
        event: BindingEvent,
    },
}

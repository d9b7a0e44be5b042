//! What can happen to a broker with bindings: the words of `specs/ServiceWorld.antt`.
use osb_binding::BindingId;
use osb_binding_network::BindingOrder;
use osb_driver::Happening;

/// What can happen in the world of an instance with bindings (this project's choice). A transaction may begin something
/// only if, beside its own permit, the rules of the broker let it by what the other rows have.
#[derive(Clone, Copy, Debug, PartialEq, Eq)]
pub enum ServiceHappening {
    /// Something happens to the instance.
    Instance {
        /// What happens.
        happening: Happening,
    },
    /// The platform orders a binding, to which nothing has happened yet. If there is one with its id, nothing changes.
    Order {
        /// The order.
        order: BindingOrder,
    },
    /// Something happens to a binding. If there is none with the id, nothing changes.
    Binding {
        /// The binding's id.
        id: BindingId,
        /// What happens.
        happening: Happening,
        /// The credentials of the resource, if work changes it.
        credentials: u64,
    },
    /// A Fetch of a binding arrives, and is answered with the credentials that stand beside the row.
    Fetch {
        /// The binding's id.
        id: BindingId,
    },
    /// The platform takes the answer to a Poll together with the answer to a Fetch.
    TakeFetched {
        /// The binding's id.
        id: BindingId,
        /// Which of all answers that were given, from 0.
        at: usize,
        /// Which of all answers to a Fetch, from 0.
        fetched: usize,
    },
}

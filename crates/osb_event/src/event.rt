//! What happens: an operator's command, or the work of the network, a clock or the broker's backend.
ghost use Rattle.std.specs.Prelude.{◌≡◌};

use osb_broker::Outcome;
use osb_message::{InstanceId, PlanId, ServiceId};

/// Something that happens: to the instance that the event names, or at a restart to all of them.
///
/// What each of them does, and when, is this project's choice, as far as it isn't the platform's or
/// the broker's tables. "Out" is said of a request that was sent and is neither answered, nor timed
/// out, nor dropped by a restart.
#[derive(Clone, Copy, Debug, PartialEq, Eq, Hash)]
pub enum Event {
    /// An operator asks for a new instance, and its Provision is out (section Provisioning). It
    /// applies where the id was never recorded.
    Create {
        /// The instance.
        id: InstanceId,
        /// Its service.
        service: ServiceId,
        /// Its plan.
        plan: PlanId,
        /// Whether the Provision takes an asynchronous operation (`accepts_incomplete`).
        accepts: bool,
    },
    /// An operator has the instance deleted. It applies in `polling`, `ready` and `unsettled` with
    /// nothing out.
    Remove {
        /// The instance.
        id: InstanceId,
    },
    /// The platform sends the request that is due: a Poll (section Polling Last Operation for
    /// Service Instances) or a Deprovision (section Deprovisioning). It applies in `polling`,
    /// `cleaning` and `cleaning-polling` with nothing out.
    Send {
        /// The instance.
        id: InstanceId,
    },
    /// The request that is out reaches the broker, and the answer travels in place of any other. The
    /// request stays out, so that it can be delivered again. It applies where a request is out.
    Deliver {
        /// The instance.
        id: InstanceId,
        /// How the work behind the request goes.
        outcome: Outcome,
    },
    /// The network hands the request to the broker once more, and the broker's new answer is
    /// dropped: the one that travels stays. It applies where an answer travels.
    Repeat {
        /// The instance.
        id: InstanceId,
        /// How the work behind the request goes.
        outcome: Outcome,
    },
    /// The answer that travels is lost. The request stays out. It applies where an answer travels.
    Lose {
        /// The instance.
        id: InstanceId,
    },
    /// The body of the answer that travels becomes unreadable; its status stays. It applies where an
    /// answer travels, also to one that is unreadable already.
    Garble {
        /// The instance.
        id: InstanceId,
    },
    /// A gateway between the platform and the broker answers in the broker's place (section Service
    /// Broker Errors has the statuses): an answer of this status, whose body can't be read, travels
    /// in place of any other. Whether the request was delivered or not, it stays out and no row
    /// changes. It applies where a request is out and the status is 500 to 599.
    Gateway {
        /// The instance.
        id: InstanceId,
        /// The status of the gateway's answer.
        status: u16,
    },
    /// The platform takes the answer that travels. It applies where an answer travels.
    Answer {
        /// The instance.
        id: InstanceId,
    },
    /// The platform gives up the request that is out (section Orphan Mitigation), and an answer that
    /// travels is dropped with it. It applies where a request is out.
    Timeout {
        /// The instance.
        id: InstanceId,
    },
    /// The maximum polling duration has passed (section Polling Last Operation for Service
    /// Instances). It applies in `polling` with nothing out.
    Expire {
        /// The instance.
        id: InstanceId,
    },
    /// The broker's operation on the instance ends. It applies where the broker makes the instance
    /// or deletes it.
    Finish {
        /// The instance.
        id: InstanceId,
        /// Whether it ends well.
        ok: bool,
    },
    /// The platform is restarted from its saved record: what was out is forgotten, and a
    /// wanted instance is cleaned up. In every cell nothing is out and nothing travels. It always
    /// applies.
    Restart,
}

impl Event {
    ghost use Rattle.osb_event.specs.Naming.{event_id};

    /// The instance that the event names, or none for a restart, which is of every instance. It
    /// takes no memory.
    pub fn id(&self) -> Option<InstanceId>
        ensures id { result ≡ event_id self.now }
    {
        match *self {
            Event::Create { id, .. }
            | Event::Remove { id }
            | Event::Send { id }
            | Event::Deliver { id, .. }
            | Event::Repeat { id, .. }
            | Event::Lose { id }
            | Event::Garble { id }
            | Event::Gateway { id, .. }
            | Event::Answer { id }
            | Event::Timeout { id }
            | Event::Expire { id }
            | Event::Finish { id, .. } => Some(id),
            Event::Restart => None,
        }
    }
}

//! What a line of a network schedule lets happen, and to which life.
ghost use Rattle.std.specs.Prelude.{◌≡◌};
ghost use Rattle.osb_network_language.specs.Lives as lives;

use osb_binding::BindingId;
use osb_binding_network::{BindingEvent, Rules, ServiceEvent};
use osb_message::InstanceId;
use osb_network::{Event, Order};

/// An instance, or one of its bindings (this project's choice).
#[derive(Clone, Copy, Debug, PartialEq, Eq)]
pub struct Life {
    /// The instance.
    pub instance: InstanceId,
    /// The binding, or none if the instance itself is meant.
    pub binding: Option<BindingId>,
}

/// What a line of a network schedule lets happen (this project's choice).
#[derive(Clone, Copy, Debug, PartialEq, Eq)]
pub enum NetworkEvent {
    /// An instance is taken in, to which nothing has happened yet.
    Instance {
        /// What is ordered.
        order: Order,
        /// Which side keeps the rules that tie a binding to its instance.
        rules: Rules,
    },
    /// An event of an instance or of one of its bindings. A binding is taken in by such an event too.
    Happening {
        /// The instance's id.
        id: InstanceId,
        /// What happens.
        event: ServiceEvent,
    },
}

impl Life {
    // The event of this life.
    pub(crate) fn happens(self, event: Event) -> NetworkEvent
        ensures event { result ≡ lives.happens self event }
    {
        let event = match self.binding {
            None => ServiceEvent::Instance(event),
            Some(id) => ServiceEvent::Binding {
                id,
                event: BindingEvent::Life {
                    event,
                    credentials: 0,
                },
            },
        };
        NetworkEvent::Happening {
            id: self.instance,
            event,
        }
    }
}

impl NetworkEvent {
    /// The life to which it happens. It takes no memory.
    pub fn life(&self) -> Life
        ensures life { result ≡ lives.life_of self.now }
    {
        match *self {
            NetworkEvent::Instance { order, .. } => Life {
                instance: order.id,
                binding: None,
            },
            NetworkEvent::Happening { id, event } => Life {
                instance: id,
                binding: match event {
                    ServiceEvent::Instance(_) => None,
                    ServiceEvent::Order(order) => Some(order.id),
                    ServiceEvent::Binding { id, .. } => Some(id),
                },
            },
        }
    }
}

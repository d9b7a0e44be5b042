//! The language of network schedules: what a line says of instances and bindings over a network.
//!
//! [`read_network_line`] reads one line. It says nothing, or a [`NetworkEvent`]: an instance is taken in, or something
//! happens to an instance that was taken in or to one of its bindings. A [`Life`] is the instance or the binding.
//!
//! ```
//! let line = read_network_line(b"send 00000000-0000-0000-0000-000000000001");
//! let happening = NetworkEvent::Happening {
//!     id: InstanceId::from_value(1),
//!     event: ServiceEvent::Instance(Event::Send),
//! };
//! assert_eq!(rt; line, Ok(Some(happening)));
//! ```
//!
//! Words, comments, carriage returns and faults are those of `osb_language`. All of it is this project's choice.
//! Nothing here takes memory.
#![tactic(auto)]

mod choices;
mod event;
mod life;
mod line;
mod numbers;
mod orders;
mod verbs;

pub use event::{Life, NetworkEvent};
pub use line::read_network_line;

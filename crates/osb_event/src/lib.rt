//! What happens between a platform and a broker.
//!
//! An [`Event`] is an operator's command, or the work of the network, a clock or the broker's backend. What
//! each does to a platform and a broker is `osb_world`'s to say, and how a schedule spells it
//! `osb_language`'s.
//!
//! ```
//! let event = Event::Send { id: InstanceId::from_value(1) };
//! assert_eq!(rt; event.id(), Some(InstanceId::from_value(1)));
//! assert_eq!(rt; Event::Restart.id(), None);
//! ```
//!
//! All of it is this project's choice. Nothing here takes memory.
#![tactic(auto)]

mod event;

pub use event::Event;

//! One service instance over a network that keeps nothing in order and loses nothing for good: requests that come
//! late, again or before older ones, answers that are read late, work that takes its time, and crashes of both sides.
//!
//! An [`Instance`] is made of an [`Order`]. [`Instance::step`] lets an [`Event`] happen to it, [`run`] goes through a
//! list of them, and a [`Network`] has many instances, each by itself. Both sides are the values of `osb_instance`:
//! what the platform records and what the broker holds. Whatever happens, they and the resource in the backend agree
//! (`Agrees`, in `specs/Agreement.antt`): where the platform records `ready`, the resource is there whole, the broker
//! holds the instance, complete, with that service and plan, and no work is recorded; where the platform records
//! `gone`, or nothing, there is no resource, no row and no work.
//!
//! What that rests on is told in docs/agreement.md, each assumption with who has to satisfy it. The events are defined so
//! that they keep all of them.
//!
//! What the platform records and the broker answers are the tables of their crates, by the Open Service Broker API
//! Specification 2.17. The rest is this project's choice: the standard says nothing of a network, of work or of
//! crashes.
#![tactic(auto)]

mod any_parts;
mod any_platform;
mod event;
mod instance;
mod network;
mod order;
mod parts;
mod resource;
mod step;
mod truth;

pub use any_platform::{AnyPlatform, BrokerEvent, Told, run_any};
pub use event::{Event, Given, InstanceEvent};
pub use instance::{Instance, run};
pub use network::Network;
pub use order::Order;
pub use resource::Resource;
pub use step::Step;

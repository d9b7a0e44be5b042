//! A platform, a broker, and the messages between them, stepped by events: what operators ask, what
//! the network does with requests and answers, what the clocks say, and how the broker's work ends.
//!
//! A [`World`] is made over a catalogue. [`World::step`] lets an [`Event`] happen to the instance
//! that it names or, a restart, to all of them; [`run`] goes through a list of them. Whatever
//! happens, platform and broker agree: where the platform records `ready`, the broker holds the
//! instance, complete, with that service and plan; where the platform records `gone`, or nothing, the
//! broker holds none.
//!
//! What the platform records and the broker answers are the tables of their crates, by the Open
//! Service Broker API Specification 2.17. The rest, which is what comes between them, is this
//! project's choice: the standard says nothing of a network.
//!
//! Contracts see a world as the [`Cell`] of each id, and the broker's catalogue.
#![tactic(auto)]

mod cell;
mod parting;
mod parts;
mod running;
mod step;
mod world;

pub use cell::Cell;
pub use osb_event::Event;
pub use parting::by_instance;
pub use running::run;
pub use step::Step;
pub use world::World;

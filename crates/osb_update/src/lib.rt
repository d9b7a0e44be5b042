//! The updates of one service instance as values: what a platform records of them, and what a broker holds. For programs
//! that keep them in a database, in a column of the row of the instance.
//!
//! An instance has [`Settings`]: its plan, the digest of its parameters and that of the version of its maintenance. An
//! [`Update`] asks for a [`Change`] of them (section Updating a Service Instance). An [`UpdateHolding`] is what a broker
//! keeps beside the [`Holding`](osb_instance::Holding) of the instance, and an [`UpdateRecord`] what a platform keeps
//! beside its [`Record`](osb_instance::Record). Neither of these changes by an Update.
//!
//! A platform numbers the Updates of an instance. A broker judges no Update that isn't newer than the newest one that it
//! has judged. An Update without a number is judged as it comes. Numbers, phases and states are this project's choice.
//! Sections are those of the Open Service Broker API Specification 2.17.
#![tactic(auto)]

mod answers;
mod faults;
mod holding;
mod phase;
mod record;
mod request;
mod settings;
mod state;

pub use faults::{NothingPending, NothingUpdating, StopRefused, UpdateRefused};
pub use holding::UpdateHolding;
pub use phase::{Fetched, UpdateBegun, UpdateOutcome, UpdatePhase};
pub use record::UpdateRecord;
pub use request::{Allowed, Update};
pub use settings::{Change, Settings};
pub use state::{Aim, UpdateKind, UpdateRequest, UpdateSent, UpdateState};

//! One service instance as a value: what a platform records of it, and what a broker holds of it. For programs that
//! keep them in a database, a row for each instance.
//!
//! A [`Record`] is a platform's, a [`Holding`] a broker's. Their calls take the value and return the next one. They
//! are of one instance, `Copy`, and take no memory. [`Record::to_text`] and [`Holding::to_text`] return the text to
//! write to the database, [`Record::from_text`] and [`Holding::from_text`] read it: only these four take memory.
//! docs/instance.md says when to write.
//!
//! The states and the tables are those of `osb_platform` and `osb_broker`, by their calls. A real network and a broker
//! that can crash need more: the number of a request ([`Sent::attempt`]), work that is pending before it begins and
//! puts off every other request ([`Holding::begin`], [`Holding::end`]), the rule of the first Poll
//! ([`Holding::begin`]), a digest of attributes ([`Digest`]), and a tombstone of each instance that has ended. All of
//! that is this project's choice. Sections are those of the Open Service Broker API Specification 2.17.
#![tactic(auto)]

mod digest;
mod faults;
mod frame;
mod holding;
mod holding_text;
mod outcome;
mod phase;
mod record;
mod record_text;
mod work;

pub use digest::Digest;
pub use faults::{
    EndRefused, ExpireRefused, NotOut, NotWaiting, RemoveRefused, RetryRefused, SendRefused,
    TextFault,
};
pub use holding::Holding;
pub use outcome::{Rejection, WorkOutcome};
pub use phase::{HoldingPhase, HoldingRow};
pub use record::{Record, Sent};
pub use work::{Begun, Work, busy};

//! The broker core of the Open Service Broker API: what a broker answers, and which instances it
//! holds, without the HTTP around it.
//!
//! A [`Broker`] is made over a catalogue. [`Broker::handle`] takes each request with the
//! [`Outcome`] of the work behind it and returns the answer to send; [`Broker::finish`] says how an
//! asynchronous operation ended. Sections are those of the Open Service Broker API Specification
//! 2.17.
//!
//! [`decide`] and [`finished`] are the same tables for one row, for who keeps the rows elsewhere, as
//! `osb_instance` does.
//!
//! Contracts see a broker as its catalogue and a finite map from instance ids to rows.
#![tactic(auto)]

mod answers;
mod broker;
mod decision;
mod deprovision;
mod finishing;
mod outcome;
mod poll;
mod provision;
mod row;

pub use broker::Broker;
pub use decision::{Decided, decide};
pub use finishing::{NothingRunning, finished};
pub use outcome::Outcome;
pub use row::{BrokerRow, Phase};

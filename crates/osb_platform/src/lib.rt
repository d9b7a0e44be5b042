//! The platform's half of the Open Service Broker API: what a platform records of each service
//! instance, the requests that it makes, and the table that says when a possibly lost instance is
//! cleaned up.
//!
//! [`mitigates`] is the orphan mitigation table. [`decide_provision`], [`decide_poll`],
//! [`decide_deprovision`], [`decide_timeout`] and [`decide_restart`] say what becomes of a record;
//! they are pure and take any answer. A [`Platform`] keeps the records and applies them; the messages
//! themselves are its caller's to carry. Contracts see a platform as a finite map from ids to records.
//!
//! [`kind_due`], [`decide_answer`] and [`PlatformRow::in_state`] are what a [`Platform`] does with one record, for
//! who keeps the records elsewhere, as `osb_instance` does.
//!
//! [`Platform::save`] and [`Platform::load`] write and read the saved record, by which a platform
//! outlives a crash.
//!
//! Only [`Platform::create`], [`Platform::ids`], [`Platform::save`] and [`Platform::load`] take memory.
#![tactic(auto)]

mod deprovisioning;
mod faults;
mod loading;
mod mitigation;
mod platform;
mod polling;
mod provisioning;
mod restarts;
mod row;
mod row_json;
mod saving;
mod state;
mod timeouts;

pub use deprovisioning::decide_deprovision;
pub use faults::{
    CreateFault, ExpireFault, LoadFault, NoRequest, RemoveFault, SaveFault, SendFault,
};
pub use mitigation::mitigates;
pub use platform::{Platform, decide_answer, kind_due};
pub use polling::decide_poll;
pub use provisioning::decide_provision;
pub use restarts::decide_restart;
pub use row::PlatformRow;
pub use state::State;
pub use timeouts::decide_timeout;

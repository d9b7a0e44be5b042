//! The order of a broker's writes for an instance that can be updated. The row has a holding of the instance and one of
//! its updates. Rules *u* and *d* of `osb_update` let the work of the two exclude each other, so one number in the row
//! and one lock serve both: a driver of this crate is one of `osb_driver` that can also stand at the work of an update.
#![tactic(auto)]

mod driver;
mod in_place;
mod laws;
mod worker;
mod world;

pub use driver::{
    UpdateAsked, UpdateDriver, UpdateEffect, UpdateStage, UpdateTask, UpdateTerms,
    UpdateTransaction,
};
pub use laws::{keeps_promises, keeps_rows};
pub use worker::{Seen, UpdateCall, UpdateLook, UpdateWorker, UpdateWorkerStage};
pub use world::UpdateHappening;

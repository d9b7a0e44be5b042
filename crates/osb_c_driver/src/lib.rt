//! The driver of a broker, callable from C: what a program does next with a request, or with what a dead worker has
//! left.
//!
//! Each export is one call of `osb_driver` or of `osb_binding_driver`, and its contract says again what that call's
//! says, of what crossed. A driver at `Work` has a worker, which says which call of the backend is made next. A driver crosses as a struct that owns nothing, and so does what a transaction comes to. A
//! struct may say anything: a driver that no call gives is refused. No call takes memory.
//!
//! `include/osb.h` declares all of it. All of it is this project's choice.
#![tactic(auto)]

mod binding_reads;
mod driver_calls;
mod drivers;
mod readings;
mod reads;
mod transactions;
mod worker_calls;
mod workers;

pub use drivers::{
    NOBODY, OsbDriver, attempt_from, before_from, can_be, is_owner, is_there, outcome_out,
    some_answer_out, stage_from, stage_of_driver,
};
pub use readings::{OsbReading, is_fit, mode_for, permit_from};
pub use transactions::{effect_out, number_after, work_at};
pub use workers::{
    call_out, rejection_from, rejection_out, there_from, worked, worker_for, worker_from,
};

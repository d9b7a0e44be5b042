//! One instance as a value, callable from C: what a platform records of it, and what a broker holds of it.
//!
//! Each export is one call of `osb_instance`, and its contract says again what that call's says, of what crossed. A
//! record and a holding cross as structs that own nothing. A struct may say anything: one that no call gives is
//! refused, and so is never acted on. The four calls with texts take memory, and no other does. What can fail returns
//! a number, one of a single list ([`Status`](osb_c_types::Status)) in which each has one meaning. What crosses is
//! public for `osb_c_binding`, which has the calls of bindings, for `osb_c_update`, which has those of updates, and for
//! `osb_c_driver` and `osb_c_platform_driver`, which have those of drivers.
//!
//! `include/osb.h` declares all of it; `docs/instance.md` says what is written to a database, and when. All of it is
//! this project's choice; what the calls mean, and where the standard says so, is told of the calls beneath.
#![tactic(auto)]

mod broker_rows;
mod holding_calls;
mod holdings;
mod outcomes;
mod record_calls;
mod records;
mod texts;
mod works;

pub use broker_rows::OsbBrokerRow;
pub use holdings::{OsbBegun, OsbHolding, begun_out, held_from, held_out};
pub use outcomes::outcome_from;
pub use records::{OsbRecord, recorded_from, recorded_out};
pub use texts::fault_status;
pub use works::some_work_out;

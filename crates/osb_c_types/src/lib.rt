//! What crosses to C: enums as numbers, ids as two halves, structs, and the statuses that calls return.
//!
//! The static libraries that make up `libosb` stand on it: `osb_c` (ids, the platform's tables and the version),
//! `osb_c_instance`, `osb_c_binding` and `osb_c_update` (an instance, a binding and updates as values), `osb_c_driver`
//! and `osb_c_platform_driver` (what a broker and a platform do next), `osb_c_wire`, `osb_c_binding_wire` and
//! `osb_c_update_wire` (HTTP and JSON). Each type here has its declaration in `include/osb.h`. All of it is this
//! project's choice.
#![tactic(auto)]

mod answers;
mod buffers;
mod ids;
mod kinds;
mod modes;
mod plans;
mod requests;
mod rows;
mod states;
mod status;

pub use answers::{OsbAnswer, answer_from, answer_out};
pub use buffers::write_text;
pub use ids::{OsbId, id_from, id_out};
pub use kinds::{kind_from, kind_out, out_from, out_out};
pub use modes::mode_from;
pub use plans::{OsbPlan, plan_out};
pub use requests::{OsbRequest, request_from, request_out};
pub use rows::{OsbPlatformRow, record_from, record_out};
pub use states::{NO_STATE, state_from, state_out};
pub use status::Status;

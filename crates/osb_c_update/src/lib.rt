//! The updates of one instance as values, callable from C: what a broker holds of them.
//!
//! Each export is one call of `osb_update` or of `osb_update_text`, and its contract says again what that call's says,
//! of what crossed. A broker keeps an [`OsbUpdateHolding`](holdings::OsbUpdateHolding) beside the holding of the
//! instance, which crosses as `osb_c_instance` has it. Structs own nothing. Only the two calls of texts take memory.
//!
//! `include/osb.h` declares all of it. All of it is this project's choice; what the calls mean, and where the standard
//! says so, stands at the calls beneath.
#![tactic(auto)]

mod begun;
mod fetched;
mod holding_calls;
mod holdings;
mod instance_calls;
mod outcomes;
mod requests;
mod settings;
mod texts;

pub use holdings::{OsbUpdateHolding, holding_from, holding_out};
pub use outcomes::{outcome_from, way_from};
pub use requests::{OsbUpdate, allowed_from, update_from};
pub use settings::{OsbChange, OsbSettings, no_settings, settings_from, settings_out};

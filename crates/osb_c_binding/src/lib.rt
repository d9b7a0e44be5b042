//! Service bindings as values, callable from C, and what an instance and its bindings ask of each other.
//!
//! A binding's record and holding cross as those of an instance do, and every call of `osb_c_instance` serves for them
//! too: Bind stands for Provision, Unbind for Deprovision, and the id of a request is the binding's. This crate has the
//! calls that differ, and those with which a program keeps the three rules of `osb_binding`. Each export is one call of
//! `osb_binding` or of `osb_instance`, and its contract says again what that call's says, of what crossed. Only the four
//! calls of texts take memory.
//!
//! `include/osb.h` declares all of it; docs/binding.md says what to write to the database, and when. All of it is this
//! project's choice; what the calls mean, and where the standard says so, stands at the calls beneath.
#![tactic(auto)]

mod binding_holdings;
mod binding_records;
mod instance_holdings;
mod instance_records;
mod texts;

pub use binding_holdings::asked_from;

//! Requests and answers as HTTP and JSON have them, callable from C.
//!
//! Each export is one call of `osb_wire`, and its contract says again what that call's says, of what crossed: enums
//! cross as numbers, ids as two halves, texts and lists as a pointer and a length. What can fail returns a number,
//! one of a single list ([`Status`](osb_c_types::Status)) in which each has one meaning. A text goes to the front of a
//! buffer of the caller's, and its length to `needed`; several texts go there one after the other, and a struct has the
//! length of each.
//!
//! `osb_c_binding_wire` stands on it, and has the requests and answers of bindings.
//!
//! `include/osb.h` declares all of it, `docs/c.md` says how it is built, linked and called, and `docs/wire.md` what
//! is written and read.
#![tactic(auto)]

mod answers;
mod asking;
mod bodies;
mod catalogues;
mod details;
mod digests;
mod headers;
mod identities;
mod maintenance;
mod named;
mod receiving;
mod refusals;
mod requests;
mod rules;
mod served;
mod texts;

pub use asking::{OsbAsked, asked_out, id_or_zeroes};
pub use bodies::read_members;
pub use catalogues::{list_plans, plans_status, write_plans};
pub use named::names_from;
pub use refusals::{refusal_from, status_from};
pub use texts::{length_if, push_if, text_if};

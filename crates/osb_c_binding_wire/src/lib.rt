//! Requests and answers of service bindings as HTTP and JSON have them, callable from C.
//!
//! Each export is one call of `osb_binding_wire`, and its contract says again what that call's says, of what crossed,
//! as those of `osb_c_wire` do: enums cross as numbers, ids as two halves, texts and lists as a pointer and a length.
//! What can fail returns the number of a status ([`Status`](osb_c_types::Status)). Calls of `osb_c_wire` serve for
//! bindings too, if they are the same: `osb_write_method`, `osb_read_answer`, `osb_read_details`, `osb_asked_request`,
//! `osb_write_told_answer` and `osb_member_text`.
//!
//! `include/osb.h` declares all of it, `docs/c.md` says how it is built, linked and called, and `docs/binding.md` what
//! is written and read.
#![tactic(auto)]

mod answers;
mod app;
mod asking;
mod catalogues;
mod receiving;
mod refusals;
mod sending;
mod targets;

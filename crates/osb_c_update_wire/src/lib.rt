//! Updates and Fetches of a service instance as HTTP and JSON have them, callable from C.
//!
//! Each export is one call of `osb_update_wire`, and its contract says again what that call's says, of what crossed, as
//! those of `osb_c_wire` do: enums cross as numbers, ids as two halves, texts as a pointer and a length. An Update
//! crosses as `osb_c_update` has it, so `osb_update_begin` takes what is read here. What can fail returns the number of a
//! status ([`Status`](osb_c_types::Status)). Calls of `osb_c_wire` serve for updates too, if they are the same:
//! `osb_read_details`, `osb_write_told_answer`, `osb_parameters_digest` and `osb_member_text`.
//!
//! `include/osb.h` declares all of it, `docs/c.md` says how it is built, linked and called, and `docs/wire.md` what is
//! written and read.
#![tactic(auto)]

mod answers;
mod asking;
mod catalogues;
mod digests;
mod receiving;
mod refusals;

//! Ids, two of the platform's tables and the version, callable from C.
//!
//! Each export is one call of the crates below, and its contract repeats what that call's contract says, about the
//! values that cross: an enum crosses as a number, an id as two halves, a text as a pointer and a length. What can fail
//! returns a number from a single list ([`Status`](osb_c_types::Status)), in which each number has one meaning.
//!
//! `include/osb.h` declares all of it, and `docs/c.md` says how to build, link and call it.
#![tactic(auto)]

mod deciding;
mod ids;
mod version;

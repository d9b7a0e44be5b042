//! The driver of a platform, callable from C: what a program does next with one request of an instance or of a binding.
//!
//! Each export is one call of `osb_binding_platform_driver`, and its contract says again what that call's says, of what
//! crossed. A driver crosses as a struct that owns nothing, and so do what a transaction reads and what it comes to. A
//! struct may say anything: a driver that no call gives is refused. No call takes memory.
//!
//! `include/osb.h` declares all of it. All of it is this project's choice.
#![tactic(auto)]

mod driver_calls;
mod drivers;
mod readings;
mod reads;
mod transactions;

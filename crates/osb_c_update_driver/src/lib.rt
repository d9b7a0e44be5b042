//! The driver of an instance that can be updated, callable from C: what a program does next with a request, with an
//! Update, or with what a dead worker has left.
//!
//! Each export is one call of `osb_update_driver`, and its contract says again what that call's says, of what crossed.
//! One driver serves every instance, also one that was never updated, so a program has one loop:
//!
//! - A driver has that of the instance within, as `osb_c_driver` has it cross. At a stage of an update, that one has
//!   the number of the stage that the program carries out in the same way, and `is_update` is true: at `Work`, `End`
//!   and `Finish`, the work is that of an update; at `Answer`, the answer is 422 `MaintenanceInfoConflict`.
//! - One call reports a look, one a sync, and one a call that changes something, whether of the instance or of an
//!   update. What a look finds is what exists and which settings it has. The settings count only for the work of an
//!   update.
//! - How work has ended is reported by no call: the worker says it after a look, so it is never a claim of the program.
//! - A row of which no Update was judged keeps nothing of updates. Its program passes the settings of its Provision, of
//!   which no Update was judged (`osb_update_new`), or, without a row, those that the Provision asks for.
//!   `writes_change` is true only if what is held of the updates changed, so such a row goes on so until its first
//!   Update.
//!
//! A driver at `Work` has a worker, which says which call of the backend is made next. A driver crosses as a struct
//! that owns nothing, and so does what a transaction comes to. A struct may say anything: a driver that no call gives
//! is refused. No call takes memory.
//!
//! `include/osb.h` declares all of it. All of it is this project's choice.
#![tactic(auto)]

mod driver_calls;
mod drivers;
mod readings;
mod reads;
mod transactions;
mod worker_calls;
mod workers;

//! What happens to a platform and a broker in a schedule, told event by event.
//!
//! [`trace`] reads a schedule from any reader, wrapped in an [`Input`](osb_device::Input), lets its events happen, and
//! writes a line for each to an [`Output`](osb_device::Output), as it reads them:
//!
//! ```
//! // What happened to one instance, on standard output.
//! let mut reader = Input::new(rt.stdin());
//! let mut writer = Output::new(rt.stdout());
//! let options = TraceOptions { instance: Some(InstanceId::from_value(1)), settle: false };
//! trace(rt.alloc(), &mut reader, &mut writer, options)?;
//! ```
//!
//! An event that is skipped has its [`Reason`] there, as [`reason_of`] gives it. All of it is this project's choice.
#![tactic(auto)]

mod line;
mod reading;
mod reason;
mod settling;
mod teller;
mod tracer;
mod tracing;

pub use line::{push_answer, push_head, push_number};
pub use reason::{Reason, reason_of};
pub use tracing::trace;

//! Schedules of instances and bindings over a network: run, and reported or traced.
//!
//! [`replay_network`] reads a schedule from any reader, wrapped in an [`Input`](osb_device::Input), and writes its
//! report or its trace to an [`Output`](osb_device::Output):
//!
//! ```
//! let mut reader = Input::new(rt.stdin());
//! let mut writer = Output::new(rt.stdout());
//! let options = NetworkOptions::Report { settle: false };
//! replay_network(rt.alloc(), &mut reader, &mut writer, options)?;
//! ```
//!
//! [`write_network`] does the same of a text that stands in memory. All of it is this project's choice.
#![tactic(auto)]

mod columns;
mod reading;
mod report;
mod seen;
mod trace;
mod writing;

pub use reading::replay_network;
pub use writing::write_network;

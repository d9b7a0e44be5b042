//! The options of a replay, of a trace and of a network schedule: what each does besides running the events of a
//! schedule.
//!
//! [`Options`] are those of a replay, [`TraceOptions`] those of a trace, and [`NetworkOptions`] those of a network
//! schedule:
//!
//! ```
//! let options = Options { settle: true, saved: false };
//! assert!(rt; options.settle);
//! let traced = TraceOptions { instance: Some(InstanceId::from_value(1)), settle: false };
//! assert_eq!(rt; traced.instance, Some(InstanceId::from_value(1)));
//! ```
//!
//! `osb_words` reads them from a command line. `osb_schedule`, `osb_trace` and `osb_network_replay` do what they ask for. All of it is this
//! project's choice. Nothing here takes memory.
#![tactic(auto)]

mod options;

pub use options::{NetworkOptions, Options, TraceOptions};

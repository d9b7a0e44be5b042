//! The orphan mitigation table, printed as the crate `osb_platform` decides it.
//!
//! [`write_table`] writes it, a line for each of twenty answers to a Provision, and one for none:
//!
//! ```
//! let mut writer = Output::new(rt.stdout());
//! write_table(&mut writer)?;
//! ```
//!
//! Which answers are shown, and the form of a line, are this project's choice. Nothing here takes memory.
#![tactic(auto)]

mod table;

pub use table::write_table;

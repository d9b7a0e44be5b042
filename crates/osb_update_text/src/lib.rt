//! The texts of what a broker holds and of what a platform records of the updates of one instance. For programs that
//! keep them in a database, in a column of the row of the instance that is null until the first Update.
//!
//! [`write_holding`] and [`read_holding`] are for an [`UpdateHolding`](osb_update::UpdateHolding), [`write_record`] and
//! [`read_record`] for an [`UpdateRecord`](osb_update::UpdateRecord). A holding that was written is read back as the
//! same value, and so is a record that can come about.
//!
//! All four calls take memory. If one returns an out-of-memory error, nothing has changed, and the same call may be
//! made again. Both formats are this project's choice.
#![tactic(auto)]

mod frame;
mod holding;
mod record;
mod settings;

pub use holding::{read_holding, write_holding};
pub use record::{read_record, write_record};

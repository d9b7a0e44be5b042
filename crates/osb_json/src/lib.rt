//! What stands in a text of JSON, as far as the texts of a record and the bodies of HTTP are read: the value that a
//! text is, and a string, an id, a number or a boolean under a name.
//!
//! All of it goes by the kit's `serde_json`: of a name that stands twice the last counts, and arrays and objects that
//! nest more than 127 deep have no reading (this project's choice).
#![tactic(auto)]

mod members;
mod reading;

pub use members::{flag_at, id_at, member_count, number_at, text_at};
pub use reading::read_value;

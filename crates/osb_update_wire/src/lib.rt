//! Updates and Fetches of a service instance as the bytes of HTTP and JSON, both ways: what one side writes, the other
//! reads (sections Updating a Service Instance and Fetching a Service Instance).
//!
//! A broker takes what [`read_update_request`] makes of a request. It answers an Update by [`write_success`],
//! [`write_failure`] or [`write_answer`](osb_wire::write_answer), and a Fetch by [`write_fetched`]. A platform sends what
//! [`write_update`] and [`write_fetch`] return, and takes what [`read_update_answer`] and [`read_fetched`] make of the
//! response. [`plan_updates`] returns what a catalogue says of a plan's updates, and [`update_allowed`] whether it lets one
//! be done.
//!
//! Ids are texts, and [`id_of_text`](osb_wire::id_of_text) gives each the number that the other crates know it by. An
//! [`Update`](osb_update::Update) has digests of the parameters and of the version of the maintenance.
//! [`parameters_digest`](osb_wire::parameters_digest) and [`version_digest`] return them.
//!
//! An Update may have a number, as the member `x-osb-update` of its body (this project's choice; other brokers pass it
//! over).
#![tactic(auto)]

mod answers;
mod asked;
mod catalogue;
mod fetched;
mod flags;
mod parts;
mod patch;
mod place;
mod reading;
mod received;
mod refusal;
mod said;
mod served;
mod texts;
mod versions;
mod writing;

pub use answers::{read_update_answer, write_failure, write_success};
pub use asked::UpdateAsked;
pub use catalogue::{PlanUpdates, numbers_updates, plan_updates, update_allowed};
pub use fetched::{FetchedInstance, InstanceTexts, read_fetched, write_fetched};
pub use flags::update_flags_are_sound;
pub use parts::{UpdateParts, update_parts};
pub use reading::read_update_request;
pub use received::UpdateReceived;
pub use refusal::UpdateRefusal;
pub use served::served_updates;
pub use texts::{TextFault, UpdateTexts};
pub use versions::version_digest;
pub use writing::{FETCH_METHOD, UPDATE_METHOD, WrittenUpdate, write_fetch, write_update};

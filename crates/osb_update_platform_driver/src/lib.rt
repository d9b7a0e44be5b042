//! The order of a platform's writes for the updates of an instance: the way of one request of an update from its record
//! to its answer, as a value that says what the program around the library does next. `osb_platform_driver` has the
//! same of the instance itself. Both share the row of the instance and its number. So a request of an update is in
//! flight only while none of the instance is, and an instance is removed only while no request of an update is in
//! flight ([`may_remove`]). Of the world in which any number of such drivers serve one instance (`specs/World.antt`) it
//! is proved that whatever happens is a run of the updates of `osb_update_sides`.
#![tactic(auto)]

mod driver;
mod laws;
mod world;

pub use driver::{
    PlatformUpdateDriver, PlatformUpdateStage, PlatformUpdateTransaction, PlatformUpdateWishes,
    UpdateWish, may_remove,
};
pub use laws::{refines, shares_the_row};
pub use world::{PlatformUpdateHappening, UpdateExchange, UpdateSource};

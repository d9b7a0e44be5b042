//! The order of a platform's writes for an instance with its bindings: the drivers of `osb_platform_driver`, with the
//! rules that tie a binding to its instance, and with the credentials of a binding. Of the world in which any number of such
//! drivers serve an instance and its bindings (`specs/ServiceWorld.antt`) it is proved that whatever happens is a run of the
//! network of `osb_binding_network`.
#![tactic(auto)]

mod driver;
mod laws;
mod transactions;
mod world;

pub use driver::{PlatformDriver, PlatformStage, ends_polling};
pub use laws::refines;
pub use transactions::{PlatformReading, PlatformTransaction};
pub use world::{PlatformHappening, PlatformServiceHappening};

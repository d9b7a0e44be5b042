//! Drivers of both sides at an instance and its bindings: any number of a broker's (`osb_binding_driver`) and of a
//! platform's (`osb_binding_platform_driver`) at each of them, over any network. What a driver of one side commits is outside
//! of the other side, as in `osb_driver_network`. Of this world (`specs/World.antt`) it is proved that the platform's
//! records, the broker's rows, the resources and the credentials agree.
#![tactic(auto)]

mod laws;
mod world;

pub use laws::refines;
pub use world::Happening;

//! Drivers of both sides at one instance: any number of a broker's (`osb_driver`) and of a platform's
//! (`osb_platform_driver`), over any network. What a driver of one side commits is outside of the other side, which sees no
//! more of it than requests and answers. Of this world (`specs/World.antt`) it is proved that the platform's record, the
//! broker's row and the resource agree.
#![tactic(auto)]

mod laws;
mod world;

pub use laws::refines;
pub use world::Happening;

//! Drivers of a broker (`osb_driver`) and any platform: requests of any kind and plan come at any time, in any order,
//! any number of times. Of this world (`specs/World.antt`) it is proved that the row, the resource and the answers are
//! those of `AnyPlatform` of `osb_network`. So the promises of a broker hold of them.
#![tactic(auto)]

mod laws;
mod world;

pub use laws::keeps_promises;
pub use world::{Asked, Happening};

//! The order of a broker's writes for an instance with its bindings: any number of drivers of `osb_driver` at each of
//! them. It is proved that whatever happens is a run of the network of `osb_binding_network`.
#![tactic(auto)]

mod driver;
mod laws;
mod world;

pub use driver::transaction;
pub use laws::refines;
pub use world::ServiceHappening;

//! The order of a platform's writes: the way of one request from its record to its answer, as a value that says what the
//! program around the library does next. Of the world in which any number of such drivers serve one instance
//! (`specs/World.antt`) it is proved that whatever happens is a run of the network of `osb_network`.
#![tactic(auto)]

mod driver;
mod laws;
mod world;

pub use driver::{CleanUp, Driver, Stage, Transaction, Wishes, brought_up, cleaned};
pub use laws::refines;
pub use world::{Commit, Exchange, Happening, Source};

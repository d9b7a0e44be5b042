//! The order of a broker's writes: the way of one request through a broker as a value that says what the program around
//! the library does next. Of the world in which any number of such drivers serve one instance (`specs/World.antt`) it is
//! proved that whatever happens is a run of the network of `osb_network`.
#![tactic(auto)]

mod backend;
mod driver;
mod laws;
mod worker;
mod world;

pub use backend::{BackendEvent, ends_truly};
pub use driver::{Driver, Effect, Permit, Stage, Task, Transaction};
pub use laws::refines;
pub use worker::{Call, Look, Worker, WorkerStage};
pub use world::{Commit, Happening};

//! Messages between a platform and a broker, as in the Open Service Broker API Specification 2.17.
//!
//! An [`InstanceId`], a [`ServiceId`] and a [`PlanId`] are numbers whose texts are GUIDs, a [`Request`] is what a platform
//! sends, an [`Answer`] is what comes back, and a [`Catalogue`] is what a broker sells. [`Rows`] keeps what
//! either side knows of each instance. Everything here is plain values and maps: there is no HTTP and
//! no JSON. Sections are those of the specification.
//!
//! Contracts see an id as its number, the catalogue as a finite map from pairs of service and plan
//! to modes, and [`Rows`] as a finite map from instance ids.
#![tactic(auto)]

mod catalogue;
mod ids;
mod memory;
mod messages;
mod rows;

pub use catalogue::{AddFault, Catalogue, Mode};
pub use ids::{Id, IdFault, Instance, InstanceId, Plan, PlanId, Service, ServiceId};
pub use memory::Memory;
pub use messages::{Answer, Body, ErrorCode, Kind, LastState, Request, well_formed};
pub use rows::Rows;

//! An Update, and whether the catalogue lets it be done.
use crate::Change;
use osb_instance::Rejection;
use osb_message::{Mode, ServiceId};

/// An Update, as far as the tables read it (section Updating a Service Instance).
#[derive(Clone, Copy, Debug, PartialEq, Eq, Hash)]
pub struct Update {
    /// The service.
    pub service: ServiceId,
    /// The settings that it names.
    pub change: Change,
    /// Its number among the Updates of the instance, from 1, or 0 if it has none (this project's choice).
    pub number: u64,
    /// Whether the platform takes an asynchronous operation (`accepts_incomplete`).
    pub accepts_incomplete: bool,
}

/// Whether the catalogue lets an Update be done, by the settings that the instance has and those that are asked for
/// (sections Updating a Service Instance and Maintenance Info Object).
#[derive(Clone, Copy, Debug, PartialEq, Eq, Hash)]
pub enum Allowed {
    /// It may be done, synchronously or asynchronously.
    Mode(Mode),
    /// It isn't done: the plan that is asked for isn't on sale, or the plan that the instance has can't be changed.
    Rejected(Rejection),
    /// It isn't done: it names another version of the maintenance than the catalogue has of the plan.
    MaintenanceInfoConflict,
}

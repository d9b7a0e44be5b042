//! How far an Update has come at a broker, what comes of it, and how its work ends.
use crate::Settings;
use osb_instance::Rejection;
use osb_message::{Answer, Mode};

/// How far the latest update has come (this project's choice).
#[derive(Clone, Copy, Debug, PartialEq, Eq, Hash)]
pub enum UpdatePhase {
    /// The resource has the settings of the holding.
    Settled,
    /// The same, and the work of an Update to these settings is pending.
    Pending(Settings),
    /// The operation of an Update to these settings runs.
    Updating(Settings),
    /// The latest update has failed, and nobody knows which settings the resource has.
    Failed,
    /// The same, and the work of an Update to these settings is pending.
    Mending(Settings),
}

/// What comes of an Update at once.
#[derive(Clone, Copy, Debug, PartialEq, Eq, Hash)]
pub enum UpdateBegun {
    /// No work is due: this is the answer to send.
    Answered(Answer),
    /// No work is due: the answer has the status 422 and the error `MaintenanceInfoConflict` (section Maintenance Info
    /// Object). An [`Answer`] has no code for this error, so it is a line of its own. `osb_wire` has its status and its
    /// body (`MAINTENANCE_CONFLICT_STATUS` and `maintenance_conflict_body`).
    MaintenanceInfoConflict,
    /// The work of an update to these settings is due and pending. Do it, or start it if the mode is asynchronous, once
    /// the holding is written to the database, and then call [`UpdateHolding::end`](crate::UpdateHolding::end).
    Work(Mode, Settings),
}

/// How the pending work of an Update has ended (this project's choice). Work that is half done is none of these: undo it
/// and report `Before`, finish it and report `Done`, or report nothing until it is known.
#[derive(Clone, Copy, Debug, PartialEq, Eq, Hash)]
pub enum UpdateOutcome {
    /// It is done, or started if the update is asynchronous.
    Done,
    /// It has failed, and yet all of it was done, or it was started.
    After,
    /// It has failed, and the resource is as it was.
    Before,
    /// It has failed, and nobody knows which settings the resource has.
    Failed,
    /// The backend rejects the Update, and the resource is as it was.
    Refused(Rejection),
}

/// What comes of a Fetch of the instance.
#[derive(Clone, Copy, Debug, PartialEq, Eq, Hash)]
pub enum Fetched {
    /// The answer has the status 200 and these settings, and the number of the newest Update that was judged, or 0 (the
    /// member `x-osb-update`, this project's choice).
    Found(Settings, u64),
    /// This is the answer.
    Answered(Answer),
}

//! Why a call is rejected.
use thiserror::Error;

/// No work of an Update is pending (this project's choice). The holding is as before.
#[derive(Clone, Copy, Debug, PartialEq, Eq, Hash, Error)]
#[error("no work of an update is pending")]
pub struct NothingPending;

/// No operation of an Update runs (this project's choice). The holding is as before.
#[derive(Clone, Copy, Debug, PartialEq, Eq, Hash, Error)]
#[error("no operation of an update runs")]
pub struct NothingUpdating;

/// Why no Update is sent (this project's choice). The record is as before.
#[derive(Clone, Copy, Debug, PartialEq, Eq, Hash, Error)]
pub enum UpdateRefused {
    /// A request of an update is out.
    #[error("a request is out")]
    Busy,
    /// The instance isn't recorded `ready`.
    #[error("the instance isn't ready")]
    NotReady,
    /// The broker is updating the instance: the state is `polling`.
    #[error("the broker is updating the instance")]
    NotNow,
    /// The latest request has the greatest number, 2^64 - 1.
    #[error("the latest request has the greatest number")]
    AttemptsUsedUp,
}

/// Why an update isn't stopped (this project's choice). The record is as before.
#[derive(Clone, Copy, Debug, PartialEq, Eq, Hash, Error)]
pub enum StopRefused {
    /// A request of an update is out.
    #[error("a request is out")]
    Busy,
    /// No request is due: the state is `settled` or `unsure`.
    #[error("no request is due in this state")]
    NothingDue,
}

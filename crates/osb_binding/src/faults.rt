//! Why a call is rejected.
use thiserror::Error;

/// The instance isn't recorded `ready`, so no binding of it is created (this project's choice). Nothing has changed.
#[derive(Clone, Copy, Debug, PartialEq, Eq, Hash, Error)]
#[error("the instance isn't ready")]
pub struct NotReady;

/// Why an instance isn't removed (this project's choice). The record is as before.
#[derive(Clone, Copy, Debug, PartialEq, Eq, Hash, Error)]
pub enum RemoveFault {
    /// A request is out.
    #[error("a request is out")]
    Busy,
    /// The state is none of `polling`, `ready` and `unsettled`.
    #[error("the instance can't be removed in this state")]
    NotRemovable,
    /// A binding of the instance is recorded, and isn't `gone`.
    #[error("the instance has a binding that isn't gone")]
    Bound,
}

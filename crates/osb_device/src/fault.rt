//! Why a device did not do what it was asked for.
use thiserror::Error;

/// The reader or writer returned an error, or took nothing of what it was given, now or before (this
/// project's choice).
#[derive(Clone, Copy, Debug, PartialEq, Eq, Error)]
#[error("DeviceFault")]
pub struct DeviceFault;

//! Why a call is refused.
use thiserror::Error;

/// Why no request is sent (this project's choice). The record is as before.
#[derive(Clone, Copy, Debug, PartialEq, Eq, Hash, Error)]
pub enum SendRefused {
    /// A request is out.
    #[error("a request is out")]
    Busy,
    /// Nothing is to be sent: the state is `ready`, `gone` or `unsettled`.
    #[error("no request is due in this state")]
    NothingDue,
    /// The latest request has the greatest number, 2^64 - 1.
    #[error("the latest request has the greatest number")]
    AttemptsUsedUp,
}

/// No request is out, or another one than the one that is named (this project's choice). The record is as before.
#[derive(Clone, Copy, Debug, PartialEq, Eq, Hash, Error)]
#[error("no request of this number is out")]
pub struct NotOut;

/// Why polling isn't given up (this project's choice). The record is as before.
#[derive(Clone, Copy, Debug, PartialEq, Eq, Hash, Error)]
pub enum ExpireRefused {
    /// A request is out.
    #[error("a request is out")]
    Busy,
    /// The state isn't `polling`.
    #[error("the instance isn't polled")]
    NotPolling,
}

/// Why an instance isn't removed (this project's choice). The record is as before.
#[derive(Clone, Copy, Debug, PartialEq, Eq, Hash, Error)]
pub enum RemoveRefused {
    /// A request is out.
    #[error("a request is out")]
    Busy,
    /// The state is none of `polling`, `ready` and `unsettled`.
    #[error("the instance can't be removed in this state")]
    NotRemovable,
}

/// Why a deletion isn't sent again (this project's choice). The record is as before.
#[derive(Clone, Copy, Debug, PartialEq, Eq, Hash, Error)]
pub enum RetryRefused {
    /// A request is out.
    #[error("a request is out")]
    Busy,
    /// The state isn't `cleaning-polling`.
    #[error("the deletion isn't polled")]
    NotPolling,
}

/// Why work can't end (this project's choice). The holding is as before.
#[derive(Clone, Copy, Debug, PartialEq, Eq, Hash, Error)]
pub enum EndRefused {
    /// No work is pending.
    #[error("no work is pending")]
    NothingBegun,
    /// The outcome is [`WorkOutcome::Refused`](crate::WorkOutcome::Refused), and the pending work is no Provision's.
    #[error("only a Provision can be refused")]
    NotAProvision,
}

/// The instance doesn't wait for its first Poll (this project's choice). The holding is as before.
#[derive(Clone, Copy, Debug, PartialEq, Eq, Hash, Error)]
#[error("the instance doesn't wait for its first Poll")]
pub struct NotWaiting;

/// Why a text names no record, or no holding (this project's choice). Nothing is made then.
///
/// Want of memory aside it is the first of these that fits, in this order.
#[derive(Clone, Copy, Debug, PartialEq, Eq, Hash, Error)]
pub enum TextFault {
    /// The text has no reading as JSON. Nesting above 127 has none.
    #[error("the text is not JSON")]
    NotJson,
    /// The value isn't an object.
    #[error("the text is not a JSON object")]
    NotAnObject,
    /// The member `version` isn't one that the format has, written as an integer, or there is none.
    #[error("the version of the text is unknown")]
    BadVersion,
    /// The members aren't exactly those of a record, or of a holding.
    #[error("the members are not those of the format")]
    BadOuter,
    /// What stands under a name isn't what has to stand there: an id in lower case, a word, a number, a boolean,
    /// `null` where nothing is out, held or recorded, or an object of these with no other member.
    #[error("a member is not what the format has there")]
    BadMember,
    /// Each member is one of its kind, and together they can't come about.
    #[error("the members can not come about together")]
    Impossible,
    /// An allocation failed.
    #[error("no memory")]
    Memory,
}

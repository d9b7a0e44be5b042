//! Why a call of a platform is refused.

/// Why an instance isn't created (this project's choice). The platform is then as before.
#[derive(Clone, Copy, Debug, PartialEq, Eq)]
pub enum CreateFault {
    /// The id is recorded already, in any state.
    IdUsed = 1,
    /// An allocation failed.
    Memory = 2,
}

/// Why no request is sent (this project's choice). The platform is then as before.
#[derive(Clone, Copy, Debug, PartialEq, Eq)]
pub enum SendFault {
    /// The id isn't recorded.
    Unknown = 1,
    /// A request is out.
    Busy = 2,
    /// Nothing is to be sent: the state is `ready`, `gone` or `unsettled`.
    NothingDue = 3,
}

/// Why an answer or a timeout isn't taken: the id isn't recorded, or no request is out (this project's
/// choice). The platform is then as before.
#[derive(Clone, Copy, Debug, PartialEq, Eq)]
pub struct NoRequest;

/// Why polling isn't given up (this project's choice). The platform is then as before.
#[derive(Clone, Copy, Debug, PartialEq, Eq)]
pub enum ExpireFault {
    /// The id isn't recorded.
    Unknown = 1,
    /// A request is out.
    Busy = 2,
    /// The state isn't `polling`.
    NotPolling = 3,
}

/// Why an instance isn't removed (this project's choice). The platform is then as before.
#[derive(Clone, Copy, Debug, PartialEq, Eq)]
pub enum RemoveFault {
    /// The id isn't recorded.
    Unknown = 1,
    /// A request is out.
    Busy = 2,
    /// The state is none of `polling`, `ready` and `unsettled`.
    NotRemovable = 3,
}

/// Why the platform isn't saved (this project's choice). The platform is then as before.
#[derive(Clone, Copy, Debug, PartialEq, Eq)]
pub enum SaveFault {
    /// An allocation failed.
    Memory = 1,
}

/// Why no platform is loaded (this project's choice). No platform is then made.
///
/// Want of memory aside it is the first of these that fits: `NotJson`, `NotAnObject`, `BadVersion`,
/// `BadOuter`, `BadKey`, `BadMember`.
#[derive(Clone, Copy, Debug, PartialEq, Eq)]
pub enum LoadFault {
    /// The text has no reading as JSON. Nesting above 127 has none.
    NotJson = 1,
    /// The value isn't an object.
    NotAnObject = 2,
    /// Some instance's name isn't the text of an id in lower case.
    BadKey = 3,
    /// Some instance isn't an object with the members `plan`, `service` and `state` and no other, two
    /// texts of ids in lower case and the word of a state.
    BadMember = 4,
    /// An allocation failed.
    Memory = 5,
    /// The object has a member `version` that isn't 2 written as an integer.
    BadVersion = 6,
    /// The object has a member `version`, and its members aren't exactly `instances` and `version`, or
    /// `instances` isn't an object.
    BadOuter = 7,
}

//! What can happen to a broker, whatever the platform does: the words of `specs/World.antt`.
use osb_instance::Digest;
use osb_message::Request;

/// A request that has come (this project's choice, and so is all of this crate).
#[derive(Clone, Copy, Debug, PartialEq, Eq)]
pub struct Asked {
    /// The request.
    pub request: Request,
    /// The digest of its attributes.
    pub attributes: Digest,
}

/// What can happen in the world of a broker and any platform.
#[derive(Clone, Copy, Debug, PartialEq, Eq)]
pub enum Happening {
    /// A request comes: a driver begins.
    Ask {
        /// The request. It may be one that has come before.
        asked: Asked,
    },
    /// Anything else at the broker. An event from outside changes nothing.
    Broker {
        /// What happens.
        happening: osb_driver::Happening,
    },
}

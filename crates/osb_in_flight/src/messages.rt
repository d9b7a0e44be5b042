//! What is between the platform and the broker about one instance.
use osb_message::{Answer, Request};

/// The request out and the answer travelling, of one instance (this project's choice).
#[derive(Clone, Copy, Debug, PartialEq, Eq, Hash)]
pub struct Messages {
    /// The request that was sent and is neither answered, nor timed out, nor dropped by a restart.
    pub out: Option<Request>,
    /// The broker's answer to it, on its way to the platform.
    pub travelling: Option<Answer>,
}

/// Nothing is out, and nothing travels.
pub const SILENCE: Messages = Messages {
    out: None,
    travelling: None,
};

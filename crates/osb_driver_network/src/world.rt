//! What can happen to both sides: the words of `specs/World.antt`.

/// What can happen in the world of both sides (this project's choice).
#[derive(Clone, Copy, Debug, PartialEq, Eq)]
pub enum Happening {
    /// At the broker. An event from outside changes nothing: it comes of the platform's own happenings.
    Broker {
        /// What happens.
        happening: osb_driver::Happening,
    },
    /// At the platform. An event from outside changes nothing: it comes of the broker's own happenings.
    Platform {
        /// What happens.
        happening: osb_platform_driver::Happening,
    },
}

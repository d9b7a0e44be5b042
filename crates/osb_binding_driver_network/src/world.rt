//! What can happen to both sides: the words of `specs/World.antt`.
use osb_binding_driver::ServiceHappening;
use osb_binding_platform_driver::PlatformServiceHappening;

/// What can happen in the world of both sides (this project's choice).
#[derive(Clone, Copy, Debug, PartialEq, Eq)]
pub enum Happening {
    /// At the broker. What only the platform brings about changes nothing: it comes of the platform's own happenings.
    Broker {
        /// What happens.
        happening: ServiceHappening,
    },
    /// At the platform. An event from outside changes nothing: it comes of the broker's own happenings.
    Platform {
        /// What happens.
        happening: PlatformServiceHappening,
    },
}

//! What can happen to an instance with its bindings and its updates.
use osb_binding_network::ServiceEvent;
use osb_update::Settings;
use osb_update_sides::UpdatesEvent;

/// What can happen to an instance with its bindings and its updates (this project's choice).
#[derive(Clone, Copy, Debug, PartialEq, Eq)]
pub enum UpdatedEvent {
    /// An event of the instance or of a binding. The rules may stop it, or put off the request that arrives. If the
    /// instance is available afterwards and wasn't before, its resource has the settings of a settled row (an
    /// assumption).
    Service {
        /// The event.
        event: ServiceEvent,
        /// The settings that the resource has then, if an update has failed.
        settings: Option<Settings>,
    },
    /// An event of the updates. [`UpdatesEvent::Live`] doesn't apply: what the updates see of the instance is the
    /// instance itself.
    Update(UpdatesEvent),
}

//! How far an Update has come at a platform, and what the platform sends.
use crate::{Change, Settings};
use osb_message::PlanId;

/// What the updates aim at since the record was settled.
#[derive(Clone, Copy, Debug, PartialEq, Eq, Hash)]
pub struct Aim {
    /// The settings that the latest Update asks for.
    pub to: Settings,
    /// Whether an Update to other settings may have been done since the record was settled.
    pub mixed: bool,
}

/// How far the latest update has come, as far as the platform knows (this project's choice).
#[derive(Clone, Copy, Debug, PartialEq, Eq, Hash)]
pub enum UpdateState {
    /// The instance has the settings of the record.
    Settled,
    /// An Update was sent, and nobody knows yet what came of it. An Update is due.
    Updating(Aim),
    /// The broker is updating the instance. A Poll is due.
    Polling(Aim),
    /// The update has failed or was stopped. Nothing is due until somebody chooses settings.
    Unsure(Aim),
}

/// Which request of an update is out.
#[derive(Clone, Copy, Debug, PartialEq, Eq, Hash)]
pub enum UpdateKind {
    /// `PATCH` on the service instance (section Updating a Service Instance).
    Update,
    /// `GET` on its last operation (section Polling Last Operation for Service Instances).
    Poll,
    /// `GET` on the service instance (section Fetching a Service Instance).
    Fetch,
}

/// A request of an update.
#[derive(Clone, Copy, Debug, PartialEq, Eq, Hash)]
pub enum UpdateRequest {
    /// An Update that names these settings. Its number is the attempt of [`UpdateSent`].
    Update(Change),
    /// A Poll that names this plan, the recorded one.
    Poll(PlanId),
    /// A Fetch.
    Fetch,
}

/// A request to send, and its number among those of the updates of its instance.
#[derive(Clone, Copy, Debug, PartialEq, Eq, Hash)]
pub struct UpdateSent {
    /// The request.
    pub request: UpdateRequest,
    /// Its number, which [`UpdateRecord::answer`](crate::UpdateRecord::answer),
    /// [`UpdateRecord::fetched`](crate::UpdateRecord::fetched) and
    /// [`UpdateRecord::timeout`](crate::UpdateRecord::timeout) ask for. The first is 1, and each further one is the next.
    pub attempt: u64,
}

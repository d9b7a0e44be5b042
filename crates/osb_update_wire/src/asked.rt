//! What a request asks of an instance that exists.
ghost use Rattle.std.specs.Prelude.{◌≡◌};
ghost use Rattle.osb_update_wire.specs.Asking as asking;

use osb_message::{InstanceId, PlanId, ServiceId};
use osb_update::Update;

/// What a request asks of an instance that exists, as it stands in the request.
#[derive(Clone, Copy, Debug, PartialEq, Eq, Hash)]
pub enum UpdateAsked {
    /// To change its settings (section Updating a Service Instance).
    Update {
        /// The instance.
        id: InstanceId,
        /// The Update, which [`UpdateHolding::begin`](osb_update::UpdateHolding::begin) takes.
        update: Update,
    },
    /// What it has (section Fetching a Service Instance).
    Fetch {
        /// The instance.
        id: InstanceId,
        /// Its service, if the request names it.
        service: Option<ServiceId>,
        /// Its plan, if the request names it.
        plan: Option<PlanId>,
    },
}

impl UpdateAsked {
    /// The instance that is asked of. It takes no memory.
    pub fn id(&self) -> InstanceId
        ensures instance { result ≡ asking.instance_of self.now }
    {
        match self {
            UpdateAsked::Update { id, .. } | UpdateAsked::Fetch { id, .. } => *id,
        }
    }
}

//! A platform's record of one instance.
use crate::State;
use osb_message::{Kind, PlanId, ServiceId};

/// What a platform keeps of one instance (this project's choice; the standard leaves the record to
/// the platform).
#[derive(Clone, Copy, Debug, PartialEq, Eq, Hash)]
pub struct PlatformRow {
    /// The instance's service (`service_id`).
    pub service: ServiceId,
    /// The instance's plan (`plan_id`).
    pub plan: PlanId,
    /// What is recorded of it.
    pub state: State,
    /// The request that was sent and is neither answered nor given up, if there is one.
    pub out: Option<Kind>,
}

impl PlatformRow {
    ghost use Rattle.std.specs.Prelude.{◌≡◌};
    ghost use Rattle.osb_platform.specs.PlatformRow.{in_state};

    /// The same instance in another state, with nothing out. It takes no memory.
    pub fn in_state(self, state: State) -> PlatformRow
        ensures row { result ≡ in_state state self }
    {
        PlatformRow {
            state,
            out: None,
            ..self
        }
    }
}

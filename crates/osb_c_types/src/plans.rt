//! Plans on sale, as they cross.
ghost use Rattle.std.specs.Prelude.{◌≡◌};
ghost use Rattle.osb_c_types.specs.Plans.{plan_of};

use crate::ids::{OsbId, id_out};
use osb_message::{Mode, PlanId, ServiceId};

/// A plan on sale (section Catalog Management).
#[repr(C)]
#[derive(Clone, Copy)]
pub struct OsbPlan {
    /// The service (`service_id`).
    pub service: OsbId,
    /// The plan (`plan_id`).
    pub plan: OsbId,
    /// Whether the plan's operations are only begun when the broker answers.
    pub is_asynchronous: bool,
}

/// A plan as it crosses.
pub fn plan_out(service: ServiceId, plan: PlanId, mode: Mode) -> OsbPlan
    ensures plan { plan_of result ≡ ((service, plan), mode) }
{
    let is_asynchronous = match mode {
        Mode::Sync => false,
        Mode::Async => true,
    };
    OsbPlan {
        service: id_out(service),
        plan: id_out(plan),
        is_asynchronous,
    }
}

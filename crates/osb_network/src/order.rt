//! What is ordered.
use osb_instance::Digest;
use osb_message::{InstanceId, Mode, PlanId, ServiceId};

/// An instance that a platform orders, how its plan works, and what its broker does (this project's choice; the ids,
/// the attributes and whether an asynchronous operation is accepted are those of section Provisioning).
///
/// The order stands for all of the instance's life. That a plan's mode doesn't change, that a plan which wasn't on sale
/// isn't sold later, and that a platform sends one id with one digest of attributes, are assumptions.
#[derive(Clone, Copy, Debug, PartialEq, Eq, Hash)]
pub struct Order {
    /// The instance's id.
    pub id: InstanceId,
    /// Its service.
    pub service: ServiceId,
    /// Its plan.
    pub plan: PlanId,
    /// How the plan works, or none if it isn't on sale.
    pub mode: Option<Mode>,
    /// Whether the Provision accepts an asynchronous operation.
    pub accepts: bool,
    /// Whether the broker has the rule of the first Poll ([`Holding::begin`](osb_instance::Holding::begin)).
    pub first_poll: bool,
    /// The digest of what the Provision asks for besides service and plan.
    pub attributes: Digest,
}

//! What a request asks of a broker.
ghost use Rattle.std.specs.Prelude.{◌≡◌};
ghost use Rattle.osb_wire.specs.Asking as asking;

use osb_message::{Id, InstanceId, Kind, PlanId, Request, ServiceId};

/// What a request asks of a broker, as it stands in the request.
#[derive(Clone, Copy, Debug, PartialEq, Eq, Hash)]
pub enum Asked {
    /// To make the instance (section Provisioning).
    Provision {
        /// The instance.
        id: InstanceId,
        /// Its service.
        service: ServiceId,
        /// Its plan.
        plan: PlanId,
        /// Whether the platform takes an asynchronous operation.
        accepts_incomplete: bool,
    },
    /// To delete the instance (section Deprovisioning).
    Deprovision {
        /// The instance.
        id: InstanceId,
        /// Its service.
        service: ServiceId,
        /// Its plan.
        plan: PlanId,
        /// Whether the platform takes an asynchronous operation.
        accepts_incomplete: bool,
    },
    /// How the last operation on the instance goes (section Polling Last Operation for Service Instances).
    Poll {
        /// The instance.
        id: InstanceId,
        /// Its service, where the request names it.
        service: Option<ServiceId>,
        /// Its plan, where the request names it.
        plan: Option<PlanId>,
        /// Whether the request has `accepts_incomplete=true`, which the standard has not for a Poll, and
        /// `osb_broker` passes over.
        accepts_incomplete: bool,
    },
}

// The id that a request names, or else the one that is held; where neither is there, the one of the value 0.
fn id_or<K>(named: Option<Id<K>>, held: Option<Id<K>>) -> Id<K>
    ensures id { result ≡ asking.id_or named held }
{
    match (named, held) {
        (Some(id), _) => id,
        (None, Some(id)) => id,
        (None, None) => Id::from_value(0),
    }
}

impl Asked {
    /// The instance that is asked of. It takes no memory.
    pub fn id(self) -> InstanceId
        ensures id { result ≡ asking.instance_of self }
    {
        match self {
            Asked::Provision { id, .. } | Asked::Deprovision { id, .. } | Asked::Poll { id, .. } =>
                id,
        }
    }

    /// What kind of request it is. It takes no memory.
    pub fn kind(&self) -> Kind
        ensures kind { result ≡ asking.kind_of self.now }
    {
        match self {
            Asked::Provision { .. } => Kind::Provision,
            Asked::Deprovision { .. } => Kind::Deprovision,
            Asked::Poll { .. } => Kind::Poll,
        }
    }

    /// The request for a broker, with the service and the plan of the instance that the broker holds, none
    /// where it holds none. They stand in the place of those that a Poll may lack, and nowhere else. Where
    /// nothing is held either, a Poll has ids of the value 0, on which no answer of `osb_broker` depends: it
    /// holds no such instance. It takes no memory. This project's choice.
    pub fn request(self, held: Option<(ServiceId, PlanId)>) -> Request
        ensures request { result ≡ asking.request_of self held }
    {
        match self {
            Asked::Provision {
                id,
                service,
                plan,
                accepts_incomplete,
            } => Request {
                kind: Kind::Provision,
                id,
                service,
                plan,
                accepts_incomplete,
            },
            Asked::Deprovision {
                id,
                service,
                plan,
                accepts_incomplete,
            } => Request {
                kind: Kind::Deprovision,
                id,
                service,
                plan,
                accepts_incomplete,
            },
            Asked::Poll {
                id,
                service,
                plan,
                accepts_incomplete,
            } => {
                let (held_service, held_plan) = match held {
                    Some((service, plan)) => (Some(service), Some(plan)),
                    None => (None, None),
                };
                Request {
                    kind: Kind::Poll,
                    id,
                    service: id_or(service, held_service),
                    plan: id_or(plan, held_plan),
                    accepts_incomplete,
                }
            }
        }
    }
}

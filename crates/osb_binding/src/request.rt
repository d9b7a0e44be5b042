//! The requests of bindings.
ghost use Rattle.std.specs.Prelude.{◌≡◌};
ghost use Rattle.osb_binding.specs.Requests.{binding_request, life_request};

use osb_message::{Id, InstanceId, Kind, PlanId, Request, ServiceId};

/// Marks the ids of service bindings (this project's choice). It has no values.
pub enum Binding {}

/// The id of a service binding. The pair of an instance's id and a binding's is used once and never again.
pub type BindingId = Id<Binding>;

/// A request of a binding (sections Binding, Unbinding and Polling Last Operation for Service Bindings), as far as the
/// tables read it.
#[derive(Clone, Copy, Debug, PartialEq, Eq, Hash)]
pub struct BindingRequest {
    /// `Provision` for a Bind, `Deprovision` for an Unbind, `Poll` for a Poll of the binding's last operation.
    pub kind: Kind,
    /// The instance.
    pub instance: InstanceId,
    /// The binding.
    pub binding: BindingId,
    /// The service.
    pub service: ServiceId,
    /// The plan.
    pub plan: PlanId,
    /// Whether the platform takes an asynchronous operation.
    pub accepts_incomplete: bool,
}

impl BindingRequest {
    /// The request as the tables have it, under the binding's id. It takes no memory.
    pub fn as_request(&self) -> Request
        ensures request { result ≡ life_request self.now }
    {
        Request {
            kind: self.kind,
            id: InstanceId::from_value(self.binding.value()),
            service: self.service,
            plan: self.plan,
            accepts_incomplete: self.accepts_incomplete,
        }
    }

    // The request of a binding of the instance, from that of the tables.
    pub(crate) fn of(instance: InstanceId, request: Request) -> BindingRequest
        ensures request { result ≡ binding_request instance request }
        ensures back { life_request result ≡ request }
    {
        BindingRequest {
            kind: request.kind,
            instance,
            binding: BindingId::from_value(request.id.value()),
            service: request.service,
            plan: request.plan,
            accepts_incomplete: request.accepts_incomplete,
        }
    }
}

/// A request to send, and its number among those of its binding.
#[derive(Clone, Copy, Debug, PartialEq, Eq, Hash)]
pub struct BindingSent {
    /// The request.
    pub request: BindingRequest,
    /// Its number, which [`BindingRecord::answer`](crate::BindingRecord::answer) and
    /// [`BindingRecord::timeout`](crate::BindingRecord::timeout) ask for. The first is 1, and each further one is the
    /// next.
    pub attempt: u64,
}

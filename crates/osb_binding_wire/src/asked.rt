//! What a request asks of a binding.
ghost use Rattle.std.specs.Prelude.{◌≡◌};
ghost use Rattle.osb_binding_wire.specs.Asking as asking;

use osb_binding::{BindingId, BindingRequest};
use osb_message::{InstanceId, Kind, PlanId, Request, ServiceId};
use osb_wire::Asked;

/// What a request asks of a binding, as it stands in the request.
#[derive(Clone, Copy, Debug, PartialEq, Eq, Hash)]
pub enum BindingAsked {
    /// A Bind, an Unbind or a Poll of the binding's last operation (sections Binding, Unbinding and Polling Last Operation
    /// for Service Bindings).
    Request {
        /// The instance.
        instance: InstanceId,
        /// The request, under the binding's id: `Provision` for a Bind, `Deprovision` for an Unbind.
        asked: Asked,
    },
    /// The binding itself (section Fetching a Service Binding).
    Fetch {
        /// The instance.
        instance: InstanceId,
        /// The binding.
        binding: BindingId,
        /// Its service, where the request names it.
        service: Option<ServiceId>,
        /// Its plan, where the request names it.
        plan: Option<PlanId>,
    },
}

// The request of a binding of the instance, from that of the tables.
fn request_of(instance: InstanceId, request: Request) -> BindingRequest
    ensures request { result ≡ asking.binding_request instance request }
{
    BindingRequest {
        kind: request.kind,
        instance,
        binding: BindingId::from_value(request.id.value()),
        service: request.service,
        plan: request.plan,
        accepts_incomplete: request.accepts_incomplete,
    }
}

impl BindingAsked {
    /// The instance that is asked of. It takes no memory.
    pub fn instance(self) -> InstanceId
        ensures instance { result ≡ asking.instance_of self }
    {
        match self {
            BindingAsked::Request { instance, .. } | BindingAsked::Fetch { instance, .. } =>
                instance,
        }
    }

    /// The binding that is asked of. It takes no memory.
    pub fn binding(self) -> BindingId
        ensures binding { result ≡ asking.binding_of self }
    {
        match self {
            BindingAsked::Request { asked, .. } => BindingId::from_value(asked.id().value()),
            BindingAsked::Fetch { binding, .. } => binding,
        }
    }

    /// The request for a broker, with the service and the plan of the binding that the broker holds, none where it holds
    /// none, as [`Asked::request`] returns it. A Fetch has none. It takes no memory.
    pub fn request(self, held: Option<(ServiceId, PlanId)>) -> Option<BindingRequest>
        ensures request { result ≡ asking.request_of self held }
    {
        match self {
            BindingAsked::Request { instance, asked } => Some(request_of(
                instance,
                asked.request(held),
            )),
            BindingAsked::Fetch { .. } => None,
        }
    }

    // The kind of the request, with that of a Poll for a Fetch, which has its ids in the query too.
    pub(crate) fn kind(&self) -> Kind
        ensures kind { result ≡ asking.kind_of self.now }
    {
        match self {
            BindingAsked::Request { asked, .. } => asked.kind(),
            BindingAsked::Fetch { .. } => Kind::Poll,
        }
    }
}

//! What a request asks of a binding.
ghost use Rattle.std.specs.Prelude.{◌≡◌, false, Some};
ghost use Rattle.osb_message.specs.declared.messages.Kind.TheVariants as Kind;
ghost use Rattle.osb_c_types.specs.Ids.{number_of};
ghost use Rattle.osb_c_types.specs.Kinds.{kind_code};
ghost use Rattle.osb_c_wire.specs.Asked as life;
ghost use Rattle.osb_c_binding_wire.specs.Asked as crossed;

use osb_binding::BindingId;
use osb_binding_wire::BindingAsked;
use osb_c_types::{OsbId, id_out, kind_out};
use osb_c_wire::{OsbAsked, id_or_zeroes};
use osb_message::{Kind, PlanId, ServiceId};

/// What a request asks of a binding.
#[repr(C)]
#[derive(Clone, Copy)]
pub struct OsbBindingAsked {
    /// Whether it is a Fetch, which asks for the binding itself.
    pub is_fetch: bool,
    /// The instance that it is asked of (`instance_id`).
    pub instance: OsbId,
    /// The request, under the binding's id (`binding_id`): a Provision for a Bind, a Deprovision for an Unbind. Of a
    /// Fetch, which may lack its service and its plan too, the kind is that of a Poll.
    pub asked: OsbAsked,
}

// The Fetch of a binding, as a Poll under its id.
fn fetch_out(binding: BindingId, service: Option<ServiceId>, plan: Option<PlanId>) -> OsbAsked
    ensures binding { number_of result.id ≡ binding }
    ensures service { life.id_if result.has_service result.service ≡ service }
    ensures plan { life.id_if result.has_plan result.plan ≡ plan }
    ensures plain { life.IsPlainAsked result }
    ensures kind { result.kind ≡ kind_code Kind.Poll }
    ensures flag { result.accepts_incomplete ≡ false }
{
    OsbAsked {
        kind: kind_out(Kind::Poll),
        accepts_incomplete: false,
        has_service: service.is_some(),
        has_plan: plan.is_some(),
        id: id_out(binding),
        service: id_or_zeroes(service),
        plan: id_or_zeroes(plan),
    }
}

// What is asked, as it crosses.
pub(crate) fn asked_out(it: BindingAsked) -> OsbBindingAsked
    ensures asked { crossed.asked_of result ≡ Some it }
    ensures plain { crossed.IsPlainAsked result }
{
    match it {
        BindingAsked::Request { instance, asked } => OsbBindingAsked {
            is_fetch: false,
            instance: id_out(instance),
            asked: osb_c_wire::asked_out(asked),
        },
        BindingAsked::Fetch {
            instance,
            binding,
            service,
            plan,
        } => OsbBindingAsked {
            is_fetch: true,
            instance: id_out(instance),
            asked: fetch_out(binding, service, plan),
        },
    }
}

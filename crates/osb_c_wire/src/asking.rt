//! What a request asks of a broker.
ghost use Rattle.std.specs.Prelude.{◌≡◌, ◌≢◌, ◌↔◌, [], ◌∷◌, Some, None, IsTrue, IsNone, IsSomeAnd, is_some};
ghost use Rattle.osb_wire.specs.Asking as asking;
ghost use Rattle.osb_c_types.specs.Ids.{zero_id};
ghost use Rattle.osb_c_types.specs.Requests.{request_of};
ghost use Rattle.osb_c_types.specs.Status.{code, is_one_of};
ghost use Rattle.osb_c_wire.specs.Asked as crossed;

use osb_c_types::{OsbId, OsbRequest, Status, id_from, id_out, kind_from, kind_out, request_out};
use osb_message::{Id, Kind, PlanId, ServiceId};
use osb_wire::Asked;

/// What a request asks of a broker.
#[repr(C)]
#[derive(Clone, Copy)]
pub struct OsbAsked {
    /// The number of its kind.
    pub kind: u8,
    /// Whether the platform takes an asynchronous operation (`accepts_incomplete`).
    pub accepts_incomplete: bool,
    /// Whether it names its service, which only a Poll may lack.
    pub has_service: bool,
    /// Whether it names its plan, which only a Poll may lack.
    pub has_plan: bool,
    /// The instance that it is asked of (`instance_id`).
    pub id: OsbId,
    /// The instance's service (`service_id`), which counts where it is named.
    pub service: OsbId,
    /// The instance's plan (`plan_id`), which counts where it is named.
    pub plan: OsbId,
}

/// An id that may be missing, as it crosses: zeroes where it is.
pub fn id_or_zeroes<K>(id: Option<Id<K>>) -> OsbId
    ensures id { crossed.id_if (is_some id) result ≡ id }
    ensures none { IsNone id → result ≡ zero_id }
{
    match id {
        Some(id) => id_out(id),
        None => OsbId { high: 0, low: 0 },
    }
}

/// What is asked, as it crosses.
pub fn asked_out(it: Asked) -> OsbAsked
    ensures asked { crossed.asked_of result ≡ Some it }
    ensures plain { crossed.IsPlainAsked result }
{
    match it {
        Asked::Provision {
            id,
            service,
            plan,
            accepts_incomplete,
        } => OsbAsked {
            kind: kind_out(Kind::Provision),
            accepts_incomplete,
            has_service: true,
            has_plan: true,
            id: id_out(id),
            service: id_out(service),
            plan: id_out(plan),
        },
        Asked::Deprovision {
            id,
            service,
            plan,
            accepts_incomplete,
        } => OsbAsked {
            kind: kind_out(Kind::Deprovision),
            accepts_incomplete,
            has_service: true,
            has_plan: true,
            id: id_out(id),
            service: id_out(service),
            plan: id_out(plan),
        },
        Asked::Poll {
            id,
            service,
            plan,
            accepts_incomplete,
        } => OsbAsked {
            kind: kind_out(Kind::Poll),
            accepts_incomplete,
            has_service: service.is_some(),
            has_plan: plan.is_some(),
            id: id_out(id),
            service: id_or_zeroes(service),
            plan: id_or_zeroes(plan),
        },
    }
}

// An id that counts where a flag says so.
fn id_if<K>(is_there: bool, id: OsbId) -> Option<Id<K>>
    ensures id { result ≡ crossed.id_if is_there id }
{
    if is_there { Some(id_from(id)) } else { None }
}

// What is asked that crossed, if it is something that a request can ask.
fn asked_from(it: &OsbAsked) -> Option<Asked>
    ensures asked { result ≡ crossed.asked_of it.now }
{
    let kind = kind_from(it.kind)?;
    let id = id_from(it.id);
    let accepts_incomplete = it.accepts_incomplete;
    let service = id_if(it.has_service, it.service);
    let plan = id_if(it.has_plan, it.plan);
    match (kind, service, plan) {
        (Kind::Provision, Some(service), Some(plan)) => Some(Asked::Provision {
            id,
            service,
            plan,
            accepts_incomplete,
        }),
        (Kind::Deprovision, Some(service), Some(plan)) => Some(Asked::Deprovision {
            id,
            service,
            plan,
            accepts_incomplete,
        }),
        (Kind::Poll, service, plan) => Some(Asked::Poll {
            id,
            service,
            plan,
            accepts_incomplete,
        }),
        _ => None,
    }
}

// The service and the plan that are held, which count where a flag says so.
fn held_if(has_held: bool, service: OsbId, plan: OsbId) -> Option<(ServiceId, PlanId)>
    ensures held { result ≡ crossed.held_if has_held service plan }
{
    if has_held {
        Some((id_from(service), id_from(plan)))
    } else {
        None
    }
}

/// Gives the request for a broker, with the service and the plan that it holds, which count where `has_held` is true:
/// they stand in the place of those that a Poll lacks, and nowhere else (this project's choice). It takes no memory.
///
/// It returns `Done`, or `BadAsked` exactly where the struct is nothing asked: its kind is none, or a Provision or a
/// Deprovision doesn't name both its service and its plan. The request is then as before.
#[unsafe(no_mangle)]
pub extern "C" fn osb_asked_request(
    asked: &OsbAsked,
    has_held: bool,
    service: OsbId,
    plan: OsbId,
    request: &mut OsbRequest,
) -> u32
    ensures request { result ≡ code Status.Done → IsSomeAnd (crossed.asked_of asked.now) (λ it.
        request_of request.new ≡ Some (asking.request_of it (crossed.held_if has_held service plan))) }
    ensures bad_asked { (result ≡ code Status.BadAsked) ↔ IsNone (crossed.asked_of asked.now) }
    ensures statuses { IsTrue (is_one_of (Status.Done ∷ Status.BadAsked ∷ []) result) }
    ensures unwritten { result ≢ code Status.Done → request.new ≡ request.old }
{
    let Some(it) = asked_from(asked) else {
        return Status::BadAsked.code();
    };
    *request = request_out(it.request(held_if(has_held, service, plan)));
    Status::Done.code()
}

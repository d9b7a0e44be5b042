//! A broker's holding of one binding: the calls in which it differs from an instance's.
ghost use Rattle.std.specs.Prelude.{◌≡◌, ◌≢◌, ◌↔◌, ◌⊎◌, [], ◌∷◌, Some, true, false};
ghost use Rattle.std.specs.Prelude.{IsTrue, IsSome, IsNone, IsSomeAnd};
ghost use Rattle.osb_instance.specs.Begin.{begins, busy, is_held, IsWork};
ghost use Rattle.osb_instance.specs.Fits.{fits};
ghost use Rattle.osb_instance.specs.Held.{nothing_held};
ghost use Rattle.osb_instance.specs.declared.work.Begun.{Begun};
ghost use Rattle.osb_binding.specs.Begun.{fetched, may_begin};
ghost use Rattle.osb_binding.specs.Requests.{binding_request};
ghost use Rattle.osb_c_types.specs.Answers.{IsNumbered, answer_of};
ghost use Rattle.osb_c_types.specs.Kinds.{kind_of};
ghost use Rattle.osb_c_types.specs.Modes.{mode_of};
ghost use Rattle.osb_c_types.specs.Status.{code, is_one_of};
ghost use Rattle.osb_c_instance.specs.Holdings.{IsPlain, IsPlainBegun, begun_of, digest_of, held_of};
ghost use Rattle.osb_c_binding.specs.Asked.{IsAskedOf, begun_within};

use osb_binding::{BindingHolding, BindingId, BindingRequest};
use osb_c_instance::{OsbBegun, OsbHolding, begun_out, held_from, held_out};
use osb_c_types::{OsbAnswer, OsbRequest, Status, answer_out, mode_from, request_from};
use osb_instance::{Begun, Digest, Holding};
use osb_message::{InstanceId, Mode, Request};

/// The request of a binding from that of the tables, which has the id of the binding alone. Nothing that begins depends
/// on the id of the instance. It takes no memory.
pub fn asked_from(request: Request) -> BindingRequest
    ensures asked { result ≡ binding_request 0 request }
{
    BindingRequest {
        kind: request.kind,
        instance: InstanceId::from_value(0),
        binding: BindingId::from_value(request.id.value()),
        service: request.service,
        plan: request.plan,
        accepts_incomplete: request.accepts_incomplete,
    }
}

// `BindingHolding::begin` for the request of the tables.
fn begin_within(
    held: Holding,
    instance: Holding,
    mode: Option<Mode>,
    first_poll: bool,
    asked: Request,
    attributes: Digest,
) -> (Holding, Begun)
    ensures begun { result ≡ begun_within instance mode first_poll held asked attributes }
    ensures put_off { may_begin instance (binding_request 0 asked) ≡ false → begins mode held asked attributes ≡ true
        → result ≡ (held, Begun.Answered (busy asked.kind)) }
    ensures nothing_begins { may_begin instance (binding_request 0 asked) ≡ false → IsWork result.1 → ⊥ }
    ensures unheld { may_begin instance (binding_request 0 asked) ≡ false → is_held held ≡ false
        → is_held result.0 ≡ false }
    ensures forgotten { instance.tombstone ≡ true → held ≡ nothing_held → result.0 ≡ nothing_held }
    ensures fits { fits mode held ≡ true → fits mode result.0 ≡ true }
{
    let request = asked_from(asked);
    let (after, begun) = BindingHolding::of(held).begin(
        instance, mode, first_poll, &request, attributes,
    );
    (after.as_holding(), begun)
}

/// Begins with a request to this binding, as `osb_holding_begin` does for an instance, with two differences. `instance`
/// is the holding of the binding's instance, read and locked in the transaction that writes this one. The mode is that
/// of binding at the request's plan, and the id of the request is the binding's.
///
/// 1. If the instance isn't there (`osb_holding_is_there`, with the request's service and plan), no Bind begins: one whose
///    work would be due is answered with 503, and nothing changes.
/// 2. If the instance has a tombstone, and nothing is kept of the binding, nothing changes: every Bind is answered with
///    503, and an Unbind with 410, which leaves no tombstone. So tombstones of bindings may be deleted once their
///    instance has one.
///
/// If the holding changed, it is written to the database before the work begins or the answer is sent (sections
/// Binding, Unbinding and Polling Last Operation for Service Bindings have the statuses; the rest is this project's
/// choice). It takes no memory.
///
/// It returns `Done`, or the first of these that fits: `BadHolding` if one of the holdings is none that a call gives,
/// `BadMode` if the number stands for no mode, `BadKind` if that of the request's kind stands for none. If it isn't
/// `Done`, the holding and what comes of the request are as before.
#[unsafe(no_mangle)]
pub extern "C" fn osb_binding_begin(
    holding: &mut OsbHolding,
    instance: &OsbHolding,
    mode: u8,
    first_poll: bool,
    request: &OsbRequest,
    attributes: &[u8; 32],
    given: &mut OsbBegun,
) -> u32
    ensures begun { result ≡ code Status.Done → IsAskedOf holding.old instance.now mode request.now (λ held i m asked.
        (held_of holding.new ≡ Some (begun_within i m first_poll held asked (digest_of attributes.now)).0)
        × (begun_of given.new ≡ Some (begun_within i m first_poll held asked (digest_of attributes.now)).1)) }
    ensures put_off { result ≡ code Status.Done
        → IsAskedOf holding.old instance.now mode request.now (λ held i m asked.
        may_begin i (binding_request 0 asked) ≡ false → begins m held asked (digest_of attributes.now) ≡ true
        → (held_of holding.new ≡ Some held) × (begun_of given.new ≡ Some (Begun.Answered (busy asked.kind)))) }
    ensures nothing_begins { result ≡ code Status.Done
        → IsAskedOf holding.old instance.now mode request.now (λ held i m asked.
        may_begin i (binding_request 0 asked) ≡ false → given.new.work ≡ 0) }
    ensures unheld { result ≡ code Status.Done
        → IsAskedOf holding.old instance.now mode request.now (λ held i m asked.
        may_begin i (binding_request 0 asked) ≡ false → is_held held ≡ false
        → IsSomeAnd (held_of holding.new) (λ after. is_held after ≡ false)) }
    ensures forgotten { result ≡ code Status.Done
        → IsAskedOf holding.old instance.now mode request.now (λ held i m asked.
        i.tombstone ≡ true → held ≡ nothing_held → held_of holding.new ≡ Some nothing_held) }
    ensures fits { result ≡ code Status.Done → IsAskedOf holding.old instance.now mode request.now (λ held i m asked.
        fits m held ≡ true → IsSomeAnd (held_of holding.new) (λ after. fits m after ≡ true)) }
    ensures plain { result ≡ code Status.Done → IsPlain holding.new × IsPlainBegun given.new }

    ensures bad_holding { (result ≡ code Status.BadHolding)
        ↔ (IsNone (held_of holding.old) ⊎ IsNone (held_of instance.now)) }
    ensures bad_mode { (result ≡ code Status.BadMode)
        ↔ (IsSome (held_of holding.old) × IsSome (held_of instance.now) × IsNone (mode_of mode)) }
    ensures bad_kind { (result ≡ code Status.BadKind) ↔ (IsSome (held_of holding.old)
        × IsSome (held_of instance.now) × IsSome (mode_of mode) × IsNone (kind_of request.now.kind)) }
    ensures statuses { IsTrue (is_one_of
        (Status.Done ∷ Status.BadHolding ∷ Status.BadMode ∷ Status.BadKind ∷ []) result) }
    ensures unwritten { result ≢ code Status.Done → holding.new ≡ holding.old }
    ensures ungiven { result ≢ code Status.Done → given.new ≡ given.old }
{
    let Some(held) = held_from(holding) else {
        return Status::BadHolding.code();
    };
    let Some(instance) = held_from(instance) else {
        return Status::BadHolding.code();
    };
    let Some(mode) = mode_from(mode) else {
        return Status::BadMode.code();
    };
    let Some(asked) = request_from(request) else {
        return Status::BadKind.code();
    };
    let digest = Digest { bytes: *attributes };
    let (after, begun) = begin_within(held, instance, mode, first_poll, asked, digest);
    *holding = held_out(after);
    *given = begun_out(begun);
    Status::Done.code()
}

/// The answer to a Fetch of this binding, without its credentials (section Fetching a Service Binding): 200 if the row
/// is `ready` and no work is pending, else 404. A 200 is sent with the credentials that are stored beside the row. It
/// takes no memory.
///
/// It returns `Done`; or `BadHolding` exactly if the holding is none that a call gives. The answer is then as before.
#[unsafe(no_mangle)]
pub extern "C" fn osb_binding_fetch(holding: &OsbHolding, answer: &mut OsbAnswer) -> u32
    ensures fetched { result ≡ code Status.Done → IsSomeAnd (held_of holding.now) (λ held.
        answer_of answer.new ≡ fetched held) }
    ensures numbered { result ≡ code Status.Done → IsNumbered answer.new }

    ensures bad_holding { (result ≡ code Status.BadHolding) ↔ IsNone (held_of holding.now) }
    ensures statuses { IsTrue (is_one_of (Status.Done ∷ Status.BadHolding ∷ []) result) }
    ensures unanswered { result ≢ code Status.Done → answer.new ≡ answer.old }
{
    let Some(held) = held_from(holding) else {
        return Status::BadHolding.code();
    };
    *answer = answer_out(BindingHolding::of(held).fetch());
    Status::Done.code()
}

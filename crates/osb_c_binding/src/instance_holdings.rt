//! A broker's holding of an instance that may have bindings, or of a binding.
ghost use Rattle.std.specs.Prelude.{◌≡◌, ◌≢◌, ◌↔◌, [], ◌∷◌, Some, true, false};
ghost use Rattle.std.specs.Prelude.{IsTrue, IsSome, IsNone, IfSome, IsSomeAnd};
ghost use Rattle.osb_instance.specs.Begin.{begins, begun, begun_if, busy, is_held, is_there};
ghost use Rattle.osb_instance.specs.Fits.{fits};
ghost use Rattle.osb_instance.specs.declared.work.Begun.{Begun};
ghost use Rattle.osb_c_types.specs.Ids.{number_of};
ghost use Rattle.osb_c_types.specs.Kinds.{kind_of};
ghost use Rattle.osb_c_types.specs.Modes.{mode_of};
ghost use Rattle.osb_c_types.specs.Status.{code, is_one_of};
ghost use Rattle.osb_c_instance.specs.Holdings.{IsAsked, IsPlain, IsPlainBegun, begun_of, digest_of, held_of};

use osb_c_instance::{OsbBegun, OsbHolding, begun_out, held_from, held_out};
use osb_c_types::{OsbId, OsbRequest, Status, id_from, mode_from, request_from};
use osb_instance::Digest;

/// Begins with a request as `osb_holding_begin` does, but if `may_begin` is false, nothing begins: a request whose work
/// would be due is answered as if work were pending, and nothing changes. For an instance that may have bindings,
/// `may_begin` is whether the broker holds none of them (`osb_holding_is_held`), read in the transaction that writes
/// the holding: a Deprovision is then answered with 422 `ConcurrencyError` (this project's choice). If the holding
/// changed, it is written to the database before the work begins or the answer is sent. It takes no memory.
///
/// It returns `Done`, or the first of these that fits: `BadHolding` if the holding is none that a call gives, `BadMode`
/// if the number stands for no mode, `BadKind` if that of the request's kind stands for none. If it isn't `Done`, the
/// holding and what comes of the request are as before.
#[unsafe(no_mangle)]
pub extern "C" fn osb_holding_begin_if(
    holding: &mut OsbHolding,
    mode: u8,
    first_poll: bool,
    request: &OsbRequest,
    attributes: &[u8; 32],
    may_begin: bool,
    given: &mut OsbBegun,
) -> u32
    ensures begun { result ≡ code Status.Done → IsAsked holding.old mode request.now (λ held m asked.
        (held_of holding.new ≡ Some (begun_if may_begin m first_poll held asked (digest_of attributes.now)).0)
        × (begun_of given.new ≡ Some (begun_if may_begin m first_poll held asked (digest_of attributes.now)).1)) }
    ensures may { result ≡ code Status.Done → may_begin ≡ true
        → IsAsked holding.old mode request.now (λ held m asked.
        (held_of holding.new ≡ Some (begun m first_poll held asked (digest_of attributes.now)).0)
        × (begun_of given.new ≡ Some (begun m first_poll held asked (digest_of attributes.now)).1)) }
    ensures put_off { result ≡ code Status.Done → may_begin ≡ false
        → IsAsked holding.old mode request.now (λ held m asked.
        begins m held asked (digest_of attributes.now) ≡ true → (held_of holding.new ≡ Some held)
        × (begun_of given.new ≡ Some (Begun.Answered (busy asked.kind)))) }
    ensures nothing_begins { result ≡ code Status.Done → may_begin ≡ false → given.new.work ≡ 0 }
    ensures unheld { result ≡ code Status.Done → may_begin ≡ false
        → IsAsked holding.old mode request.now (λ held m asked.
        is_held held ≡ false → IsSomeAnd (held_of holding.new) (λ after. is_held after ≡ false)) }
    ensures fits { result ≡ code Status.Done → IsAsked holding.old mode request.now (λ held m asked.
        fits m held ≡ true → IsSomeAnd (held_of holding.new) (λ after. fits m after ≡ true)) }
    ensures plain { result ≡ code Status.Done → IsPlain holding.new × IsPlainBegun given.new }

    ensures bad_holding { (result ≡ code Status.BadHolding) ↔ IsNone (held_of holding.old) }
    ensures bad_mode { (result ≡ code Status.BadMode)
        ↔ (IsSome (held_of holding.old) × IsNone (mode_of mode)) }
    ensures bad_kind { (result ≡ code Status.BadKind)
        ↔ (IsSome (held_of holding.old) × IsSome (mode_of mode) × IsNone (kind_of request.now.kind)) }
    ensures statuses { IsTrue (is_one_of
        (Status.Done ∷ Status.BadHolding ∷ Status.BadMode ∷ Status.BadKind ∷ []) result) }
    ensures unwritten { result ≢ code Status.Done → holding.new ≡ holding.old }
    ensures ungiven { result ≢ code Status.Done → given.new ≡ given.old }
{
    let Some(held) = held_from(holding) else {
        return Status::BadHolding.code();
    };
    let Some(mode) = mode_from(mode) else {
        return Status::BadMode.code();
    };
    let Some(asked) = request_from(request) else {
        return Status::BadKind.code();
    };
    let digest = Digest { bytes: *attributes };
    let (after, begun) = held.begin_if(mode, first_poll, &asked, digest, may_begin);
    *holding = held_out(after);
    *given = begun_out(begun);
    Status::Done.code()
}

/// Whether anything is held: there is a row, or work is pending. True also if the holding is none that a call gives, so
/// that a program which asks lets nothing begin then. A broker begins no deletion of an instance while it holds a
/// binding of it (this project's choice). It takes no memory.
#[unsafe(no_mangle)]
pub extern "C" fn osb_holding_is_held(holding: &OsbHolding) -> bool
    ensures held { IsTrue result ↔ IfSome (held_of holding.now) (λ held. is_held held ≡ true) }
{
    match held_from(holding) {
        Some(held) => held.is_held(),
        None => true,
    }
}

/// Whether the holding is one that a call gives, and the resource exists, complete, and stays for now: the row is
/// `ready`, with this service and plan, and no work is pending. A broker begins a Bind only while its instance is there
/// (this project's choice), which `osb_binding_begin` asks itself. It takes no memory.
#[unsafe(no_mangle)]
pub extern "C" fn osb_holding_is_there(holding: &OsbHolding, service: OsbId, plan: OsbId) -> bool
    ensures there { IsTrue result ↔ IsSomeAnd (held_of holding.now) (λ held.
        is_there held (number_of service) (number_of plan) ≡ true) }
{
    match held_from(holding) {
        Some(held) => held.is_there(id_from(service), id_from(plan)),
        None => false,
    }
}

//! A broker's holding of one instance: requests that come, and work that ends.
ghost use Rattle.std.specs.Prelude.{◌≡◌, ◌≢◌, ◌↔◌, ◌&&◌, [], ◌∷◌, Option, Some, None, true, false};
ghost use Rattle.std.specs.Prelude.{IsTrue, IsSome, IsNone, IsSomeAnd};
ghost use Rattle.osb_message.specs.declared.catalogue.Mode.{Mode};
ghost use Rattle.osb_message.specs.declared.messages.Kind.TheVariants.{Provision};
ghost use Rattle.osb_instance.specs.Begin.{begun, busy, can_end, conflict, conflicts, finished_held, given_up};
ghost use Rattle.osb_instance.specs.Begin.{is_held_outcome, is_operating, is_provision, waits_for_poll, worked};
ghost use Rattle.osb_instance.specs.Begin.{IsAnsweredBy};
ghost use Rattle.osb_instance.specs.Due.{IsDue};
ghost use Rattle.osb_instance.specs.Fits.{fits};
ghost use Rattle.osb_instance.specs.declared.work.Begun.{Begun};
ghost use Rattle.osb_c_types.specs.Answers.{IsNumbered, answer_of};
ghost use Rattle.osb_c_types.specs.Kinds.{kind_of};
ghost use Rattle.osb_c_types.specs.Modes.{mode_of};
ghost use Rattle.osb_c_types.specs.Status.{code, is_one_of};
ghost use Rattle.osb_c_instance.specs.Holdings.{IsAsked, IsPlain, IsPlainBegun, IsWorking, begun_of, digest_of};
ghost use Rattle.osb_c_instance.specs.Holdings.{held_of};
ghost use Rattle.osb_c_instance.specs.Outcomes.{outcome_of};

use crate::holdings::{OsbBegun, OsbHolding, begun_out, held_from, held_out};
use crate::outcomes::outcome_from;
use osb_broker::NothingRunning;
use osb_c_types::{OsbAnswer, OsbRequest, Status, answer_out, mode_from, request_from};
use osb_instance::{Digest, EndRefused, NotWaiting};

/// Whether the holding is one that a call gives, the number a mode's, and the holding can come about at a plan of the
/// mode, which is that of the row, or of the pending request if there is no row. A program asks when it takes a
/// holding from its database: at another mode [`osb_holding_end`] would forget what was created. It takes no memory.
#[unsafe(no_mangle)]
pub extern "C" fn osb_holding_fits(holding: &OsbHolding, mode: u8) -> bool
    ensures fits { IsTrue result ↔ IsSomeAnd (held_of holding.now) (λ held.
        IsSomeAnd (mode_of mode) (λ m. fits m held ≡ true)) }
{
    match (held_from(holding), mode_from(mode)) {
        (Some(held), Some(mode)) => held.fits(mode),
        _ => false,
    }
}

/// Begins with a request to this instance: answers it, or makes its work pending. The mode is that of the request's
/// plan, `first_poll` the rule of the first Poll, and `attributes` the digest of what a Provision asks for, 32 bytes,
/// which doesn't count for other requests. [`Holding::begin`](osb_instance::Holding::begin) has the rules (sections
/// Provisioning, Polling Last Operation for Service Instances and Deprovisioning have the statuses). If the holding
/// changed, it is written to the database before the work begins or the answer is sent. It takes no memory.
///
/// It returns `Done`, or the first of these that fits: `BadHolding` if the holding is none that a call gives, `BadMode`
/// if the number stands for no mode, `BadKind` if that of the request's kind stands for none. If it isn't `Done`, the
/// holding and what comes of the request are as before.
#[unsafe(no_mangle)]
pub extern "C" fn osb_holding_begin(
    holding: &mut OsbHolding,
    mode: u8,
    first_poll: bool,
    request: &OsbRequest,
    attributes: &[u8; 32],
    given: &mut OsbBegun,
) -> u32
    ensures begun { result ≡ code Status.Done → IsAsked holding.old mode request.now (λ held m asked.
        (held_of holding.new ≡ Some (begun m first_poll held asked (digest_of attributes.now)).0)
        × (begun_of given.new ≡ Some (begun m first_poll held asked (digest_of attributes.now)).1)) }
    ensures due { result ≡ code Status.Done → IsAsked holding.old mode request.now (λ held m asked.
        (given.new.work ≢ 0) ↔ ((conflicts held asked (digest_of attributes.now) ≡ false) × (held.work ≡ None)
        × ((held.tombstone && is_provision asked.kind) ≡ false) × (held.waiting ≡ false)
        × (waits_for_poll asked.kind m first_poll ≡ false) × IsDue m held.row asked)) }
    ensures conflict { result ≡ code Status.Done → IsAsked holding.old mode request.now (λ held m asked.
        conflicts held asked (digest_of attributes.now) ≡ true → (held_of holding.new ≡ Some held)
        × (begun_of given.new ≡ Some (Begun.Answered conflict))) }
    ensures busy { result ≡ code Status.Done → IsAsked holding.old mode request.now (λ held m asked.
        conflicts held asked (digest_of attributes.now) ≡ false → IsSome held.work
        → (held_of holding.new ≡ Some held) × (begun_of given.new ≡ Some (Begun.Answered (busy asked.kind)))) }
    ensures tombstone { result ≡ code Status.Done → IsAsked holding.old mode request.now (λ held m asked.
        held.tombstone ≡ true → held_of holding.new ≡ Some held) }
    ensures gone { result ≡ code Status.Done → IsAsked holding.old mode request.now (λ held m asked.
        IsSomeAnd (begun_of given.new) (λ b. IsAnsweredBy b asked.kind 410) → holding.new.has_tombstone ≡ true) }
    ensures fits { result ≡ code Status.Done → IsAsked holding.old mode request.now (λ held m asked.
        fits m held ≡ true → IsSomeAnd (held_of holding.new) (λ after. fits m after ≡ true)) }
    ensures plain { result ≡ code Status.Done → IsPlain holding.new × IsPlainBegun given.new }

    ensures bad_holding { (result ≡ code Status.BadHolding) ↔ IsNone (held_of holding.old) }
    ensures bad_mode { (result ≡ code Status.BadMode)
        ↔ (IsSome (held_of holding.old) × IsNone (mode_of mode)) }
    ensures bad_kind { (result ≡ code Status.BadKind)
        ↔ (IsSome (held_of holding.old) × IsSome (mode_of mode) × IsNone (kind_of request.now.kind)) }
    ensures statuses { IsTrue (is_one_of
        (Status.Done ∷ Status.BadHolding ∷ Status.BadMode ∷ Status.BadKind ∷ []) result) }
    ensures unwritten { result ≢ code Status.Done → holding.new ≡ holding.old }
    ensures ungiven { result ≢ code Status.Done → given.new ≡ given.old }
{
    let Some(held) = held_from(holding) else {
        return Status::BadHolding.code();
    };
    let Some(mode) = mode_from(mode) else {
        return Status::BadMode.code();
    };
    let Some(asked) = request_from(request) else {
        return Status::BadKind.code();
    };
    let digest = Digest { bytes: *attributes };
    let (after, begun) = held.begin(mode, first_poll, &asked, digest);
    *holding = held_out(after);
    *given = begun_out(begun);
    Status::Done.code()
}

/// Ends the pending work with this outcome, and returns the answer to its request, by the table of its kind (sections
/// Provisioning and Deprovisioning). The mode is that of the pending request's plan, and has to fit
/// ([`osb_holding_fits`]). The holding is written to the database before the answer is sent. It takes no memory.
///
/// It returns `Done`, or the first of these that fits: `BadHolding` if the holding is none that a call gives, `BadMode`
/// if the number stands for no mode, `BadOutcome` if that of the outcome stands for none, `NothingBegun` if no work is
/// pending, `NotAProvision` if the outcome is a refusal and the pending request no Provision. If it isn't `Done`, the
/// holding and the answer are as before.
#[unsafe(no_mangle)]
pub extern "C" fn osb_holding_end(
    holding: &mut OsbHolding,
    mode: u8,
    outcome: u8,
    answer: &mut OsbAnswer,
) -> u32
    ensures ok { (result ≡ code Status.Done)
        ↔ IsWorking holding.old mode outcome (λ held m o asked. can_end asked.kind o ≡ true) }
    ensures worked { result ≡ code Status.Done → IsWorking holding.old mode outcome (λ held m o asked.
        (held_of holding.new ≡ Some (worked m held asked o).0)
        × (answer_of answer.new ≡ (worked m held asked o).1)) }
    ensures fits { result ≡ code Status.Done → IsWorking holding.old mode outcome (λ held m o asked.
        fits m held ≡ true → IsSomeAnd (held_of holding.new) (λ after. fits m after ≡ true)) }
    ensures made { result ≡ code Status.Done → IsWorking holding.old mode outcome (λ held m o asked.
        fits m held ≡ true → is_held_outcome o ≡ true → asked.kind ≡ Provision → holding.new.has_row ≡ true) }
    ensures plain { result ≡ code Status.Done → IsPlain holding.new }
    ensures numbered { result ≡ code Status.Done → IsNumbered answer.new }

    ensures bad_holding { (result ≡ code Status.BadHolding) ↔ IsNone (held_of holding.old) }
    ensures bad_mode { (result ≡ code Status.BadMode)
        ↔ (IsSome (held_of holding.old) × IsNone (mode_of mode)) }
    ensures bad_outcome { (result ≡ code Status.BadOutcome)
        ↔ (IsSome (held_of holding.old) × IsSome (mode_of mode) × IsNone (outcome_of outcome)) }
    ensures nothing_begun { (result ≡ code Status.NothingBegun) ↔ (IsSomeAnd (held_of holding.old) (λ held.
        IsNone held.work) × IsSome (mode_of mode) × IsSome (outcome_of outcome)) }
    ensures not_a_provision { (result ≡ code Status.NotAProvision)
        ↔ IsWorking holding.old mode outcome (λ held m o asked. can_end asked.kind o ≡ false) }
    ensures statuses { IsTrue (is_one_of (Status.Done ∷ Status.BadHolding ∷ Status.BadMode ∷ Status.BadOutcome
        ∷ Status.NothingBegun ∷ Status.NotAProvision ∷ []) result) }
    ensures unwritten { result ≢ code Status.Done → holding.new ≡ holding.old }
    ensures unanswered { result ≢ code Status.Done → answer.new ≡ answer.old }
{
    let Some(held) = held_from(holding) else {
        return Status::BadHolding.code();
    };
    let Some(mode) = mode_from(mode) else {
        return Status::BadMode.code();
    };
    let Some(outcome) = outcome_from(outcome) else {
        return Status::BadOutcome.code();
    };
    match held.end(mode, outcome) {
        Ok((after, given)) => {
            *holding = held_out(after);
            *answer = answer_out(given);
            Status::Done.code()
        }
        Err(EndRefused::NothingBegun) => Status::NothingBegun.code(),
        Err(EndRefused::NotAProvision) => Status::NotAProvision.code(),
    }
}

/// Ends the operation that runs on the instance, which succeeded (`ok`) or failed: one that is being made is ready then,
/// or has failed; one that is being deleted is gone and leaves the tombstone, or could not be deleted (section Polling
/// Last Operation for Service Instances has the states). The holding is written to the database before anyone is told.
/// It takes no memory.
///
/// It returns `Done`; `BadHolding` exactly if the holding is none that a call gives; or `NothingRunning` exactly if it is
/// one, and the instance is neither being made nor being deleted. If it isn't `Done`, the holding is as before.
#[unsafe(no_mangle)]
pub extern "C" fn osb_holding_finish(holding: &mut OsbHolding, ok: bool) -> u32
    ensures finished { result ≡ code Status.Done → IsSomeAnd (held_of holding.old) (λ held.
        held_of holding.new ≡ Some (finished_held held ok)) }
    ensures busy { IsSomeAnd (held_of holding.old) (λ held. IsSome held.work) → result ≢ code Status.Done }
    ensures tombstone { IsSomeAnd (held_of holding.old) (λ held. held.tombstone ≡ true) → result ≢ code Status.Done }
    ensures fits { (mode : Option Mode) → result ≡ code Status.Done → IsSomeAnd (held_of holding.old) (λ held.
        fits mode held ≡ true → IsSomeAnd (held_of holding.new) (λ after. fits mode after ≡ true)) }
    ensures plain { result ≡ code Status.Done → IsPlain holding.new }

    ensures done { (result ≡ code Status.Done)
        ↔ IsSomeAnd (held_of holding.old) (λ held. IsTrue (is_operating held)) }
    ensures bad_holding { (result ≡ code Status.BadHolding) ↔ IsNone (held_of holding.old) }
    ensures statuses { IsTrue (is_one_of
        (Status.Done ∷ Status.BadHolding ∷ Status.NothingRunning ∷ []) result) }
    ensures unwritten { result ≢ code Status.Done → holding.new ≡ holding.old }
{
    let Some(held) = held_from(holding) else {
        return Status::BadHolding.code();
    };
    match held.finish(ok) {
        Ok(after) => {
            *holding = held_out(after);
            Status::Done.code()
        }
        Err(NothingRunning) => Status::NothingRunning.code(),
    }
}

/// The instance has waited too long for its first Poll: its row is `failed` then, and nothing was created. The holding is
/// written to the database before anyone is told (this project's choice). It takes no memory.
///
/// It returns `Done`; `BadHolding` exactly if the holding is none that a call gives; or `NotWaiting` exactly if it is one
/// without a row in `waiting`. If it isn't `Done`, the holding is as before.
#[unsafe(no_mangle)]
pub extern "C" fn osb_holding_give_up_waiting(holding: &mut OsbHolding) -> u32
    ensures given_up { result ≡ code Status.Done → IsSomeAnd (held_of holding.old) (λ held.
        held_of holding.new ≡ Some (given_up held)) }
    ensures fits { (mode : Option Mode) → result ≡ code Status.Done → IsSomeAnd (held_of holding.old) (λ held.
        fits mode held ≡ true → IsSomeAnd (held_of holding.new) (λ after. fits mode after ≡ true)) }
    ensures plain { result ≡ code Status.Done → IsPlain holding.new }

    ensures done { (result ≡ code Status.Done)
        ↔ IsSomeAnd (held_of holding.old) (λ held. held.waiting ≡ true) }
    ensures bad_holding { (result ≡ code Status.BadHolding) ↔ IsNone (held_of holding.old) }
    ensures statuses { IsTrue (is_one_of (Status.Done ∷ Status.BadHolding ∷ Status.NotWaiting ∷ []) result) }
    ensures unwritten { result ≢ code Status.Done → holding.new ≡ holding.old }
{
    let Some(held) = held_from(holding) else {
        return Status::BadHolding.code();
    };
    match held.give_up_waiting() {
        Ok(after) => {
            *holding = held_out(after);
            Status::Done.code()
        }
        Err(NotWaiting) => Status::NotWaiting.code(),
    }
}

//! What a broker does with an Update, and what it reports of updates.
ghost use Rattle.std.specs.Prelude.{◌≡◌, ◌≢◌, ◌≤◌, ◌↔◌, ◌⊎◌, [], ◌∷◌, Some, true, false};
ghost use Rattle.std.specs.Prelude.{IsTrue, IsSome, IsNone, IsSomeAnd};
ghost use Rattle.osb_update.specs.Begun.{begun, is_available, is_pending, is_running, is_under_way, IsRejected};
ghost use Rattle.osb_update.specs.Ended.{finished, worked};
ghost use Rattle.osb_update.specs.Reported.{fetched, polled};
ghost use Rattle.osb_c_types.specs.Answers.{IsNumbered, answer_of};
ghost use Rattle.osb_c_types.specs.Status.{code, is_one_of};
ghost use Rattle.osb_c_instance.specs.Holdings.{held_of};
ghost use Rattle.osb_c_update.specs.Begun.{IsPlainBegun, IsPlainFetched, begun_of, fetched_of};
ghost use Rattle.osb_c_update.specs.Holdings.{IsPlain, holding_of};
ghost use Rattle.osb_c_update.specs.Outcomes.{IsEnding, outcome_of, way_of};
ghost use Rattle.osb_c_update.specs.Requests.{IsAsked, allowed_of, update_of};

use crate::begun::{OsbUpdateBegun, begun_out};
use crate::fetched::{OsbUpdateFetched, fetched_out};
use crate::holdings::{OsbUpdateHolding, holding_from, holding_out};
use crate::outcomes::{outcome_from, way_from};
use crate::requests::{OsbUpdate, allowed_from, update_from};
use osb_c_instance::{OsbHolding, held_from};
use osb_c_types::{OsbAnswer, Status, answer_out};
use osb_update::{NothingPending, NothingUpdating};

/// Begins with an Update: answers it, or makes its work pending. `instance` is the holding of the instance, read and
/// locked in the transaction that writes this one. `allowed` is the number of what the catalogue has for the settings
/// that are asked for (`osb_update_asked_for`). [`UpdateHolding::begin`](osb_update::UpdateHolding::begin) has the
/// rules, line by line (section Updating a Service Instance has the statuses). If the holding changed, it is written to
/// the database before the work begins or the answer is sent. It takes no memory.
///
/// It returns `Done`, or the first of these that fits: `BadHolding` if one of the holdings is none that a call gives,
/// `BadAllowed` if the number stands for nothing that a catalogue has. If it isn't `Done`, the holding and what comes
/// of the Update are as before.
#[unsafe(no_mangle)]
pub extern "C" fn osb_update_begin(
    holding: &mut OsbUpdateHolding,
    instance: &OsbHolding,
    allowed: u8,
    update: &OsbUpdate,
    given: &mut OsbUpdateBegun,
) -> u32
    ensures begun { result ≡ code Status.Done → IsAsked holding.old instance.now allowed (λ held i a.
        (holding_of holding.new ≡ Some (begun i a held (update_of update.now)).0)
        × (begun_of given.new ≡ Some (begun i a held (update_of update.now)).1)) }
    ensures settings { result ≡ code Status.Done → IsAsked holding.old instance.now allowed (λ held i a.
        IsSomeAnd (holding_of holding.new) (λ after. after.settings ≡ held.settings)) }
    ensures newer { result ≡ code Status.Done → IsAsked holding.old instance.now allowed (λ held i a.
        update.now.number ≢ 0 → update.now.number ≤ held.number → holding_of holding.new ≡ Some held) }
    ensures rejected { result ≡ code Status.Done → IsAsked holding.old instance.now allowed (λ held i a.
        IsRejected (begun i a held (update_of update.now)).1
        → IsSomeAnd (holding_of holding.new) (λ after. after.phase ≡ held.phase)) }
    ensures works { result ≡ code Status.Done → IsAsked holding.old instance.now allowed (λ held i a.
        given.new.has_work ≡ true → (is_available i ≡ true) × (is_under_way held.phase ≡ false)) }
    ensures plain { result ≡ code Status.Done → IsPlain holding.new × IsPlainBegun given.new }

    ensures bad_holding { (result ≡ code Status.BadHolding)
        ↔ (IsNone (holding_of holding.old) ⊎ IsNone (held_of instance.now)) }
    ensures bad_allowed { (result ≡ code Status.BadAllowed) ↔ (IsSome (holding_of holding.old)
        × IsSome (held_of instance.now) × IsNone (allowed_of allowed)) }
    ensures statuses { IsTrue (is_one_of (Status.Done ∷ Status.BadHolding ∷ Status.BadAllowed ∷ []) result) }
    ensures unwritten { result ≢ code Status.Done → holding.new ≡ holding.old }
    ensures ungiven { result ≢ code Status.Done → given.new ≡ given.old }
{
    let Some(held) = holding_from(holding) else {
        return Status::BadHolding.code();
    };
    let Some(instance) = held_from(instance) else {
        return Status::BadHolding.code();
    };
    let Some(allowed) = allowed_from(allowed) else {
        return Status::BadAllowed.code();
    };
    let update = update_from(update);
    let (after, begun) = held.begin(instance, allowed, &update);
    *holding = holding_out(&after);
    *given = begun_out(&begun);
    Status::Done.code()
}

/// Ends the pending work of an Update with this outcome, and returns the answer to it. The mode is that of what
/// [`osb_update_begin`] gave. The holding is written to the database before the answer is sent (section Updating a
/// Service Instance has the statuses; the rest is this project's choice). It takes no memory.
///
/// It returns `Done`, or the first of these that fits: `BadHolding` if the holding is none that a call gives, `BadMode`
/// if the number is neither that of a synchronous nor that of an asynchronous mode, `BadOutcome` if that of the outcome
/// stands for none, `NothingBegun` if no work is pending. If it isn't `Done`, the holding and the answer are as before.
#[unsafe(no_mangle)]
pub extern "C" fn osb_update_end(
    holding: &mut OsbUpdateHolding,
    mode: u8,
    outcome: u8,
    answer: &mut OsbAnswer,
) -> u32
    ensures done { (result ≡ code Status.Done)
        ↔ IsEnding holding.old mode outcome (λ held m o. is_pending held.phase ≡ true) }
    ensures worked { result ≡ code Status.Done → IsEnding holding.old mode outcome (λ held m o.
        IsSomeAnd (worked m held o) (λ after. (holding_of holding.new ≡ Some after.0)
        × (answer_of answer.new ≡ after.1))) }
    ensures number { result ≡ code Status.Done → holding.new.number ≡ holding.old.number }
    ensures plain { result ≡ code Status.Done → IsPlain holding.new }
    ensures numbered { result ≡ code Status.Done → IsNumbered answer.new }

    ensures bad_holding { (result ≡ code Status.BadHolding) ↔ IsNone (holding_of holding.old) }
    ensures bad_mode { (result ≡ code Status.BadMode)
        ↔ (IsSome (holding_of holding.old) × IsNone (way_of mode)) }
    ensures bad_outcome { (result ≡ code Status.BadOutcome)
        ↔ (IsSome (holding_of holding.old) × IsSome (way_of mode) × IsNone (outcome_of outcome)) }
    ensures nothing_begun { (result ≡ code Status.NothingBegun)
        ↔ IsEnding holding.old mode outcome (λ held m o. is_pending held.phase ≡ false) }
    ensures statuses { IsTrue (is_one_of (Status.Done ∷ Status.BadHolding ∷ Status.BadMode ∷ Status.BadOutcome
        ∷ Status.NothingBegun ∷ []) result) }
    ensures unwritten { result ≢ code Status.Done → holding.new ≡ holding.old }
    ensures unanswered { result ≢ code Status.Done → answer.new ≡ answer.old }
{
    let Some(held) = holding_from(holding) else {
        return Status::BadHolding.code();
    };
    let Some(mode) = way_from(mode) else {
        return Status::BadMode.code();
    };
    let Some(outcome) = outcome_from(outcome) else {
        return Status::BadOutcome.code();
    };
    match held.end(mode, outcome) {
        Ok((after, given)) => {
            *holding = holding_out(&after);
            *answer = answer_out(given);
            Status::Done.code()
        }
        Err(NothingPending) => Status::NothingBegun.code(),
    }
}

/// Ends the operation of an Update, which succeeded (`ok`) or failed. If it succeeded, the holding is settled with the
/// settings of the operation, and else it is failed. The holding is written to the database before a Poll is answered
/// by it (this project's choice). It takes no memory.
///
/// It returns `Done`; `BadHolding` exactly if the holding is none that a call gives; or `NothingUpdating` exactly if it
/// is one, and no operation of an Update runs. If it isn't `Done`, the holding is as before.
#[unsafe(no_mangle)]
pub extern "C" fn osb_update_finish(holding: &mut OsbUpdateHolding, ok: bool) -> u32
    ensures done { (result ≡ code Status.Done)
        ↔ IsSomeAnd (holding_of holding.old) (λ held. is_running held.phase ≡ true) }
    ensures finished { result ≡ code Status.Done → IsSomeAnd (holding_of holding.old) (λ held.
        holding_of holding.new ≡ finished held ok) }
    ensures number { result ≡ code Status.Done → holding.new.number ≡ holding.old.number }
    ensures plain { result ≡ code Status.Done → IsPlain holding.new }

    ensures bad_holding { (result ≡ code Status.BadHolding) ↔ IsNone (holding_of holding.old) }
    ensures statuses { IsTrue (is_one_of
        (Status.Done ∷ Status.BadHolding ∷ Status.NothingUpdating ∷ []) result) }
    ensures unwritten { result ≢ code Status.Done → holding.new ≡ holding.old }
{
    let Some(held) = holding_from(holding) else {
        return Status::BadHolding.code();
    };
    match held.finish(ok) {
        Ok(after) => {
            *holding = holding_out(&after);
            Status::Done.code()
        }
        Err(NothingUpdating) => Status::NothingUpdating.code(),
    }
}

/// The answer to a Poll of an instance that is available (section Polling Last Operation for Service Instances): 200,
/// in progress while an update is under way, succeeded if the holding is settled, failed if the latest update has
/// failed. An instance is available if its row is ready and no work of it is pending. If it isn't, `osb_holding_begin`
/// answers. It takes no memory.
///
/// It returns `Done`, or the first of these that fits: `BadHolding` if one of the holdings is none that a call gives,
/// `NotAvailable` if the instance isn't available. If it isn't `Done`, the answer is as before.
#[unsafe(no_mangle)]
pub extern "C" fn osb_update_poll(
    holding: &OsbUpdateHolding,
    instance: &OsbHolding,
    answer: &mut OsbAnswer,
) -> u32
    ensures polled { result ≡ code Status.Done → IsSomeAnd (holding_of holding.now) (λ held.
        IsSomeAnd (held_of instance.now) (λ i. polled i held.phase ≡ Some (answer_of answer.new))) }
    ensures numbered { result ≡ code Status.Done → IsNumbered answer.new }

    ensures done { (result ≡ code Status.Done) ↔ (IsSome (holding_of holding.now)
        × IsSomeAnd (held_of instance.now) (λ i. is_available i ≡ true)) }
    ensures bad_holding { (result ≡ code Status.BadHolding)
        ↔ (IsNone (holding_of holding.now) ⊎ IsNone (held_of instance.now)) }
    ensures statuses { IsTrue (is_one_of
        (Status.Done ∷ Status.BadHolding ∷ Status.NotAvailable ∷ []) result) }
    ensures unanswered { result ≢ code Status.Done → answer.new ≡ answer.old }
{
    let Some(held) = holding_from(holding) else {
        return Status::BadHolding.code();
    };
    let Some(instance) = held_from(instance) else {
        return Status::BadHolding.code();
    };
    let Some(given) = held.poll(instance) else {
        return Status::NotAvailable.code();
    };
    *answer = answer_out(given);
    Status::Done.code()
}

/// What comes of a Fetch of the instance that its service and plan allow (section Fetching a Service Instance): the
/// settings and the number that is kept, if the instance is available and the holding is settled; 422
/// `ConcurrencyError` if the instance is available and the holding isn't settled; else 404. Nothing changes. It takes
/// no memory.
///
/// It returns `Done`; or `BadHolding` exactly if one of the holdings is none that a call gives. What comes of the Fetch
/// is then as before.
#[unsafe(no_mangle)]
pub extern "C" fn osb_update_fetch(
    holding: &OsbUpdateHolding,
    instance: &OsbHolding,
    given: &mut OsbUpdateFetched,
) -> u32
    ensures fetched { result ≡ code Status.Done → IsSomeAnd (holding_of holding.now) (λ held.
        IsSomeAnd (held_of instance.now) (λ i. fetched_of given.new ≡ fetched i held)) }
    ensures plain { result ≡ code Status.Done → IsPlainFetched given.new }

    ensures bad_holding { (result ≡ code Status.BadHolding)
        ↔ (IsNone (holding_of holding.now) ⊎ IsNone (held_of instance.now)) }
    ensures statuses { IsTrue (is_one_of (Status.Done ∷ Status.BadHolding ∷ []) result) }
    ensures ungiven { result ≢ code Status.Done → given.new ≡ given.old }
{
    let Some(held) = holding_from(holding) else {
        return Status::BadHolding.code();
    };
    let Some(instance) = held_from(instance) else {
        return Status::BadHolding.code();
    };
    *given = fetched_out(&held.fetch(instance));
    Status::Done.code()
}

//! A platform's record of one binding: the calls in which it differs from an instance's.
ghost use Rattle.std.specs.Prelude.{◌≡◌, ◌≢◌, ◌↔◌, [], ◌∷◌, Some, true, false};
ghost use Rattle.std.specs.Prelude.{IsTrue, IsSome, IsNone, IsSomeAnd, IsOk, IfOk};
ghost use Rattle.osb_platform.specs.PlatformRow.{wanted_row, first_request};
ghost use Rattle.osb_instance.specs.Recorded.{IsAnsweredAfter, IsGivenUpAfter, is_ready_in};
ghost use Rattle.osb_binding.specs.Answers.{is_useless};
ghost use Rattle.osb_c_types.specs.Answers.{answer_of};
ghost use Rattle.osb_c_types.specs.Ids.{number_of};
ghost use Rattle.osb_c_types.specs.Requests.{request_of};
ghost use Rattle.osb_c_types.specs.Status.{code, is_one_of};
ghost use Rattle.osb_c_instance.specs.Records.{recorded_of};

use osb_binding::{BindingRecord, NotReady};
use osb_c_instance::{OsbRecord, recorded_from, recorded_out};
use osb_c_types::{OsbAnswer, OsbId, OsbRequest, Status, answer_from, id_from, request_out};
use osb_instance::{NotOut, Record};
use osb_message::{Answer, InstanceId};

/// A new binding of the instance, `wanted`, with the instance's service and plan, and its Bind, which is then out with
/// the number 1 (section Binding). `instance` is the record of the instance, read and locked in the transaction that
/// writes the binding's. `binding` is the binding's id, and that of the request. `accepts_incomplete` says whether the
/// platform takes an asynchronous operation: only if the broker serves the Fetch of a binding. Write the record to the
/// database before the request is sent, under the ids of the instance and of the binding, a pair that is used once and
/// never again. It takes no memory.
///
/// It returns `Done`, or the first of these that fits: `BadRecord` if the instance's record is none that a call gives,
/// `NotReady` if the instance isn't recorded `ready`. If it isn't `Done`, the record and the request are as before.
#[unsafe(no_mangle)]
pub extern "C" fn osb_binding_create(
    instance: &OsbRecord,
    binding: OsbId,
    accepts_incomplete: bool,
    kept: &mut OsbRecord,
    request: &mut OsbRequest,
) -> u32
    ensures created { result ≡ code Status.Done → IsSomeAnd (recorded_of instance.now) (λ i.
        recorded_of kept.new ≡ Some (record { row = wanted_row i.row.service i.row.plan; attempt = 1 })) }
    ensures request { result ≡ code Status.Done → IsSomeAnd (recorded_of instance.now) (λ i. request_of request.new
        ≡ Some (first_request (number_of binding) i.row.service i.row.plan accepts_incomplete)) }

    ensures done { (result ≡ code Status.Done) ↔ IsSomeAnd (recorded_of instance.now) (λ i.
        is_ready_in i.row.state ≡ true) }
    ensures bad_record { (result ≡ code Status.BadRecord) ↔ IsNone (recorded_of instance.now) }
    ensures not_ready { (result ≡ code Status.NotReady) ↔ IsSomeAnd (recorded_of instance.now) (λ i.
        is_ready_in i.row.state ≡ false) }
    ensures statuses { IsTrue (is_one_of (Status.Done ∷ Status.BadRecord ∷ Status.NotReady ∷ []) result) }
    ensures unwritten { result ≢ code Status.Done → kept.new ≡ kept.old }
    ensures unasked { result ≢ code Status.Done → request.new ≡ request.old }
{
    let Some(instance) = recorded_from(instance) else {
        return Status::BadRecord.code();
    };
    // What is kept and sent has the id of the binding alone.
    let any_id = InstanceId::from_value(0);
    match BindingRecord::create(instance, any_id, id_from(binding), accepts_incomplete) {
        Ok((created, sent)) => {
            *kept = recorded_out(created.as_record());
            *request = request_out(sent.request.as_request());
            Status::Done.code()
        }
        Err(NotReady) => Status::NotReady.code(),
    }
}

// `BindingRecord::answer` for the record that crosses.
fn answered(
    recorded: Record,
    attempt: u64,
    answer: Answer,
    retrievable: bool,
) -> Result<Record, NotOut>
    ensures out { IsOk result ↔ (IsSome recorded.row.out × (attempt ≡ recorded.attempt)) }
    ensures answered { is_useless retrievable recorded.row.out answer ≡ false
        → IfOk result (λ after. IsAnsweredAfter answer recorded after) }
    ensures useless { is_useless retrievable recorded.row.out answer ≡ true
        → IfOk result (λ after. IsGivenUpAfter recorded after) }
{
    let after = BindingRecord::of(recorded).answer(attempt, answer, retrievable)?;
    Ok(after.as_record())
}

/// Takes the answer to the request of this number, as `osb_record_answer` does, with one difference: if the binding
/// can't be fetched (`retrievable` is false), a 202 to a Bind is cleaned up, since its credentials can never be had.
///
/// A Poll that says `succeeded` in `polling` is taken only together with the credentials. Send a Fetch first, and call
/// this once it was answered 200 with an object; otherwise call `osb_record_timeout` for the Poll. Write the record to
/// the database, with the credentials, before it is shown to anyone. It takes no memory.
///
/// It returns `Done`; `BadRecord` exactly if the record is none that a call gives; or `NotInFlight` exactly if it is
/// one, and no request is out, or one of another number. If it isn't `Done`, the record is as before.
#[unsafe(no_mangle)]
pub extern "C" fn osb_binding_answer(
    kept: &mut OsbRecord,
    attempt: u64,
    answer: OsbAnswer,
    retrievable: bool,
) -> u32
    ensures answered { result ≡ code Status.Done → IsSomeAnd (recorded_of kept.old) (λ before.
        IsSomeAnd (recorded_of kept.new) (λ after.
        is_useless retrievable before.row.out (answer_of answer) ≡ false
        → IsAnsweredAfter (answer_of answer) before after)) }
    ensures useless { result ≡ code Status.Done → IsSomeAnd (recorded_of kept.old) (λ before.
        IsSomeAnd (recorded_of kept.new) (λ after.
        is_useless retrievable before.row.out (answer_of answer) ≡ true → IsGivenUpAfter before after)) }

    ensures done { (result ≡ code Status.Done) ↔ IsSomeAnd (recorded_of kept.old) (λ r.
        IsSome r.row.out × (attempt ≡ r.attempt)) }
    ensures bad_record { (result ≡ code Status.BadRecord) ↔ IsNone (recorded_of kept.old) }
    ensures statuses { IsTrue (is_one_of
        (Status.Done ∷ Status.BadRecord ∷ Status.NotInFlight ∷ []) result) }
    ensures unwritten { result ≢ code Status.Done → kept.new ≡ kept.old }
{
    let Some(recorded) = recorded_from(kept) else {
        return Status::BadRecord.code();
    };
    match answered(recorded, attempt, answer_from(answer), retrievable) {
        Ok(after) => {
            *kept = recorded_out(after);
            Status::Done.code()
        }
        Err(NotOut) => Status::NotInFlight.code(),
    }
}

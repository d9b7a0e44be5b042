//! A platform's record of one instance: the requests that it makes, and what is recorded after them.
ghost use Rattle.std.specs.Prelude.{◌≡◌, ◌≢◌, ◌↔◌, ◌&&◌, not, [], ◌∷◌, Some};
ghost use Rattle.std.specs.Prelude.{IsTrue, IsSome, IsNone, IsSomeAnd};
ghost use Rattle.osb_platform.specs.PlatformRow.{IsSoundRow, wanted_row, first_request, restarted_row};
ghost use Rattle.osb_platform.specs.PlatformRow.{can_send, can_expire, can_remove, is_idle};
ghost use Rattle.osb_instance.specs.Recorded.{IsSentAfter, IsAnsweredAfter, IsGivenUpAfter, IsCleanedUpAfter, can_retry};
ghost use Rattle.osb_c_types.specs.Answers.{answer_of};
ghost use Rattle.osb_c_types.specs.Ids.{number_of};
ghost use Rattle.osb_c_types.specs.Requests.{request_of};
ghost use Rattle.osb_c_types.specs.Rows.{record_of};
ghost use Rattle.osb_c_types.specs.Status.{code, is_one_of};
ghost use Rattle.osb_c_instance.specs.Records.{recorded_of, platform_row_of};

use crate::records::{OsbRecord, platform_row_from, recorded_from, recorded_out};
use osb_c_types::{
    OsbAnswer, OsbId, OsbPlatformRow, OsbRequest, Status, answer_from, id_from, request_out,
};
use osb_instance::{ExpireRefused, NotOut, Record, RemoveRefused, RetryRefused, SendRefused};

/// A new instance, `wanted`, and its Provision, which is then out with the number 1 (section Provisioning).
/// `accepts_incomplete` says whether the platform takes an asynchronous operation. The record is written to the
/// database under the id, before the request is sent, and never deleted; the database has to refuse an id that is
/// there. It takes no memory.
#[unsafe(no_mangle)]
pub extern "C" fn osb_record_create(
    id: OsbId,
    service: OsbId,
    plan: OsbId,
    accepts_incomplete: bool,
    kept: &mut OsbRecord,
    request: &mut OsbRequest,
)
    ensures created { recorded_of kept.new
        ≡ Some (record { row = wanted_row (number_of service) (number_of plan); attempt = 1 }) }
    ensures request { request_of request.new
        ≡ Some (first_request (number_of id) (number_of service) (number_of plan) accepts_incomplete) }
{
    let (recorded, sent) = Record::create(
        id_from(id),
        id_from(service),
        id_from(plan),
        accepts_incomplete,
    );
    *kept = recorded_out(recorded);
    *request = request_out(sent.request);
}

/// The first record of an instance that a platform has recorded until now, as after a restart: `wanted` becomes
/// `cleaning`, every other state stays, nothing is out, and no request has a number yet. It is called once for an
/// instance, as a platform moves to a database. It takes no memory.
///
/// It returns `Done`; or `BadRow` exactly where the row is none that a platform gives: a number stands for nothing,
/// `wanted` stands without its Provision, or another request is out than the one that is due. The record is then as
/// before.
#[tactic(auto, using(crate::proofs::Rows::first_is_sound, crate::proofs::Rows::sound_is_first))]
#[unsafe(no_mangle)]
pub extern "C" fn osb_record_from_row(row: &OsbPlatformRow, kept: &mut OsbRecord) -> u32
    ensures first { result ≡ code Status.Done → IsSomeAnd (platform_row_of row.now) (λ r.
        recorded_of kept.new ≡ Some (record { row = restarted_row r; attempt = 0 })) }

    ensures bad_row { (result ≡ code Status.BadRow) ↔ IsNone (platform_row_of row.now) }
    ensures sound { (result ≡ code Status.Done) ↔ IsSomeAnd (record_of row.now) IsSoundRow }
    ensures statuses { IsTrue (is_one_of (Status.Done ∷ Status.BadRow ∷ []) result) }
    ensures unwritten { result ≢ code Status.Done → kept.new ≡ kept.old }
{
    let Some(row) = platform_row_from(row) else {
        return Status::BadRow.code();
    };
    *kept = recorded_out(Record::from_platform(row));
    Status::Done.code()
}

/// Gives the request that is due, which is then out with the next number: a Poll in `polling` and `cleaning-polling`
/// (section Polling Last Operation for Service Instances), a Deprovision in `cleaning` (section Deprovisioning). It
/// has the recorded service and plan, and always accepts an asynchronous operation. `id` is that of
/// [`osb_record_create`], the key of the record's row. The record is written to the database before the request is
/// sent. It takes no memory.
///
/// It returns `Done`, or the first of these that fits: `BadRecord` where the record is none that a call gives, `Busy`
/// where a request is out, `NothingDue` in `ready`, `gone` and `unsettled`, `AttemptsUsedUp` where the latest number
/// is 2^64 - 1. Where it isn't `Done`, the record and the request are as before.
#[unsafe(no_mangle)]
pub extern "C" fn osb_record_send(kept: &mut OsbRecord, id: OsbId, request: &mut OsbRequest) -> u32
    ensures sent { result ≡ code Status.Done → IsSomeAnd (recorded_of kept.old) (λ before.
        IsSomeAnd (recorded_of kept.new) (λ after. IsSomeAnd (request_of request.new) (λ asked.
        IsSentAfter (number_of id) before after asked kept.new.attempt))) }

    ensures done { (result ≡ code Status.Done) ↔ IsSomeAnd (recorded_of kept.old) (λ r.
        IsTrue (can_send (Some r.row)) × (r.attempt ≢ u64.MAX)) }
    ensures bad_record { (result ≡ code Status.BadRecord) ↔ IsNone (recorded_of kept.old) }
    ensures busy { (result ≡ code Status.Busy) ↔ IsSomeAnd (recorded_of kept.old) (λ r. IsSome r.row.out) }
    ensures nothing_due { (result ≡ code Status.NothingDue) ↔ IsSomeAnd (recorded_of kept.old) (λ r.
        IsTrue (is_idle (Some r.row) && not (can_send (Some r.row)))) }
    ensures used_up { (result ≡ code Status.AttemptsUsedUp) ↔ IsSomeAnd (recorded_of kept.old) (λ r.
        IsTrue (can_send (Some r.row)) × (r.attempt ≡ u64.MAX)) }
    ensures statuses { IsTrue (is_one_of (Status.Done ∷ Status.BadRecord ∷ Status.Busy ∷ Status.NothingDue
        ∷ Status.AttemptsUsedUp ∷ []) result) }
    ensures unwritten { result ≢ code Status.Done → kept.new ≡ kept.old }
    ensures unasked { result ≢ code Status.Done → request.new ≡ request.old }
{
    let Some(recorded) = recorded_from(kept) else {
        return Status::BadRecord.code();
    };
    match recorded.send(id_from(id)) {
        Ok((after, sent)) => {
            *kept = recorded_out(after);
            *request = request_out(sent.request);
            Status::Done.code()
        }
        Err(SendRefused::Busy) => Status::Busy.code(),
        Err(SendRefused::NothingDue) => Status::NothingDue.code(),
        Err(SendRefused::AttemptsUsedUp) => Status::AttemptsUsedUp.code(),
    }
}

/// Takes the answer to the request of this number: the state becomes what the table of its kind gives, and nothing is
/// out. The record is written to the database before it is shown to anyone. It takes no memory.
///
/// It returns `Done`; `BadRecord` exactly where the record is none that a call gives; or `NotInFlight` exactly where
/// it is one, and no request is out, or one of another number. Where it isn't `Done`, the record is as before.
#[unsafe(no_mangle)]
pub extern "C" fn osb_record_answer(kept: &mut OsbRecord, attempt: u64, answer: OsbAnswer) -> u32
    ensures answered { result ≡ code Status.Done → IsSomeAnd (recorded_of kept.old) (λ before.
        IsSomeAnd (recorded_of kept.new) (λ after. IsAnsweredAfter (answer_of answer) before after)) }

    ensures done { (result ≡ code Status.Done) ↔ IsSomeAnd (recorded_of kept.old) (λ r.
        IsSome r.row.out × (attempt ≡ r.attempt)) }
    ensures bad_record { (result ≡ code Status.BadRecord) ↔ IsNone (recorded_of kept.old) }
    ensures statuses { IsTrue (is_one_of
        (Status.Done ∷ Status.BadRecord ∷ Status.NotInFlight ∷ []) result) }
    ensures unwritten { result ≢ code Status.Done → kept.new ≡ kept.old }
{
    let Some(recorded) = recorded_from(kept) else {
        return Status::BadRecord.code();
    };
    match recorded.answer(attempt, answer_from(answer)) {
        Ok(after) => {
            *kept = recorded_out(after);
            Status::Done.code()
        }
        Err(NotOut) => Status::NotInFlight.code(),
    }
}

/// Gives up the request of this number: `wanted` becomes `cleaning`, since its Provision may have made an instance
/// (section Orphan Mitigation), every other state stays, and nothing is out. So is done with what was out when a
/// platform crashed. It takes no memory.
///
/// It returns `Done`; `BadRecord` exactly where the record is none that a call gives; or `NotInFlight` exactly where
/// it is one, and no request is out, or one of another number. Where it isn't `Done`, the record is as before.
#[unsafe(no_mangle)]
pub extern "C" fn osb_record_timeout(kept: &mut OsbRecord, attempt: u64) -> u32
    ensures given_up { result ≡ code Status.Done → IsSomeAnd (recorded_of kept.old) (λ before.
        IsSomeAnd (recorded_of kept.new) (IsGivenUpAfter before)) }

    ensures done { (result ≡ code Status.Done) ↔ IsSomeAnd (recorded_of kept.old) (λ r.
        IsSome r.row.out × (attempt ≡ r.attempt)) }
    ensures bad_record { (result ≡ code Status.BadRecord) ↔ IsNone (recorded_of kept.old) }
    ensures statuses { IsTrue (is_one_of
        (Status.Done ∷ Status.BadRecord ∷ Status.NotInFlight ∷ []) result) }
    ensures unwritten { result ≢ code Status.Done → kept.new ≡ kept.old }
{
    let Some(recorded) = recorded_from(kept) else {
        return Status::BadRecord.code();
    };
    match recorded.timeout(attempt) {
        Ok(after) => {
            *kept = recorded_out(after);
            Status::Done.code()
        }
        Err(NotOut) => Status::NotInFlight.code(),
    }
}

/// Gives up polling: the maximum polling duration has passed, and `polling` becomes `cleaning` (sections Polling Last
/// Operation for Service Instances and Orphan Mitigation). It takes no memory.
///
/// It returns `Done`, or the first of these that fits, with the record as before: `BadRecord` where it is none that a
/// call gives, `Busy` where a request is out, `NotPolling` in every state but `polling`.
#[unsafe(no_mangle)]
pub extern "C" fn osb_record_expire(kept: &mut OsbRecord) -> u32
    ensures cleaned_up { result ≡ code Status.Done → IsSomeAnd (recorded_of kept.old) (λ before.
        IsSomeAnd (recorded_of kept.new) (IsCleanedUpAfter before)) }

    ensures done { (result ≡ code Status.Done) ↔ IsSomeAnd (recorded_of kept.old) (λ r.
        IsTrue (can_expire (Some r.row))) }
    ensures bad_record { (result ≡ code Status.BadRecord) ↔ IsNone (recorded_of kept.old) }
    ensures busy { (result ≡ code Status.Busy) ↔ IsSomeAnd (recorded_of kept.old) (λ r. IsSome r.row.out) }
    ensures not_polling { (result ≡ code Status.NotPolling) ↔ IsSomeAnd (recorded_of kept.old) (λ r.
        IsTrue (is_idle (Some r.row) && not (can_expire (Some r.row)))) }
    ensures statuses { IsTrue (is_one_of (Status.Done ∷ Status.BadRecord ∷ Status.Busy ∷ Status.NotPolling
        ∷ []) result) }
    ensures unwritten { result ≢ code Status.Done → kept.new ≡ kept.old }
{
    let Some(recorded) = recorded_from(kept) else {
        return Status::BadRecord.code();
    };
    match recorded.expire() {
        Ok(after) => {
            *kept = recorded_out(after);
            Status::Done.code()
        }
        Err(ExpireRefused::Busy) => Status::Busy.code(),
        Err(ExpireRefused::NotPolling) => Status::NotPolling.code(),
    }
}

/// Sends a deletion again: `cleaning-polling` becomes `cleaning`. For a deletion whose maximum polling duration has passed,
/// and for a broker that never ends one (section Polling Last Operation for Service Instances; that it is sent again is
/// this project's choice). It takes no memory.
///
/// It returns `Done`, or the first of these that fits, with the record as before: `BadRecord` if it is none that a call
/// gives, `Busy` if a request is out, `NotPolling` in every state but `cleaning-polling`.
#[unsafe(no_mangle)]
pub extern "C" fn osb_record_retry(kept: &mut OsbRecord) -> u32
    ensures cleaned_up { result ≡ code Status.Done → IsSomeAnd (recorded_of kept.old) (λ before.
        IsSomeAnd (recorded_of kept.new) (IsCleanedUpAfter before)) }

    ensures done { (result ≡ code Status.Done) ↔ IsSomeAnd (recorded_of kept.old) (λ r.
        IsTrue (can_retry (Some r.row))) }
    ensures bad_record { (result ≡ code Status.BadRecord) ↔ IsNone (recorded_of kept.old) }
    ensures busy { (result ≡ code Status.Busy) ↔ IsSomeAnd (recorded_of kept.old) (λ r. IsSome r.row.out) }
    ensures not_polling { (result ≡ code Status.NotPolling) ↔ IsSomeAnd (recorded_of kept.old) (λ r.
        IsTrue (is_idle (Some r.row) && not (can_retry (Some r.row)))) }
    ensures statuses { IsTrue (is_one_of (Status.Done ∷ Status.BadRecord ∷ Status.Busy ∷ Status.NotPolling
        ∷ []) result) }
    ensures unwritten { result ≢ code Status.Done → kept.new ≡ kept.old }
{
    let Some(recorded) = recorded_from(kept) else {
        return Status::BadRecord.code();
    };
    match recorded.retry() {
        Ok(after) => {
            *kept = recorded_out(after);
            Status::Done.code()
        }
        Err(RetryRefused::Busy) => Status::Busy.code(),
        Err(RetryRefused::NotPolling) => Status::NotPolling.code(),
    }
}

/// Has the instance deleted, as an operator asks: `polling`, `ready` and `unsettled` become `cleaning` (section
/// Deprovisioning). It takes no memory.
///
/// It returns `Done`, or the first of these that fits, with the record as before: `BadRecord` where it is none that a
/// call gives, `Busy` where a request is out, `NotRemovable` in every other state.
#[unsafe(no_mangle)]
pub extern "C" fn osb_record_remove(kept: &mut OsbRecord) -> u32
    ensures cleaned_up { result ≡ code Status.Done → IsSomeAnd (recorded_of kept.old) (λ before.
        IsSomeAnd (recorded_of kept.new) (IsCleanedUpAfter before)) }

    ensures done { (result ≡ code Status.Done) ↔ IsSomeAnd (recorded_of kept.old) (λ r.
        IsTrue (can_remove (Some r.row))) }
    ensures bad_record { (result ≡ code Status.BadRecord) ↔ IsNone (recorded_of kept.old) }
    ensures busy { (result ≡ code Status.Busy) ↔ IsSomeAnd (recorded_of kept.old) (λ r. IsSome r.row.out) }
    ensures not_removable { (result ≡ code Status.NotRemovable) ↔ IsSomeAnd (recorded_of kept.old) (λ r.
        IsTrue (is_idle (Some r.row) && not (can_remove (Some r.row)))) }
    ensures statuses { IsTrue (is_one_of (Status.Done ∷ Status.BadRecord ∷ Status.Busy ∷ Status.NotRemovable
        ∷ []) result) }
    ensures unwritten { result ≢ code Status.Done → kept.new ≡ kept.old }
{
    let Some(recorded) = recorded_from(kept) else {
        return Status::BadRecord.code();
    };
    match recorded.remove() {
        Ok(after) => {
            *kept = recorded_out(after);
            Status::Done.code()
        }
        Err(RemoveRefused::Busy) => Status::Busy.code(),
        Err(RemoveRefused::NotRemovable) => Status::NotRemovable.code(),
    }
}

//! Why a broker refuses an Update or a Fetch before it looks at any instance.
ghost use Rattle.std.specs.Prelude.{◌≡◌, ◌≢◌, ◌↔◌, [], ◌∷◌, Some, take, drop, IsTrue, IsNone, IfSome, IsSomeAnd};
ghost use Rattle.std.specs.Prelude.{option_map};
ghost use Rattle.serde_json.specs.Written.{compact_text};
ghost use Rattle.osb_message.specs.declared.messages.Kind.TheVariants as Kind;
ghost use Rattle.osb_wire.specs.Answers.{answer_in};
ghost use Rattle.osb_wire.specs.Bodies.{object_in};
ghost use Rattle.osb_update_wire.specs.Refusals.{status_of};
ghost use Rattle.osb_c_types.specs.Status.{code, is_one_of};
ghost use Rattle.osb_c_wire.specs.Refusals as life;
ghost use Rattle.osb_c_wire.specs.Texts as texts;
ghost use Rattle.osb_c_update_wire.specs.Refusals.{object_under, refusal_of, refusal_status, status_under, taken_under};

use osb_c_types::{Status, write_text};
use osb_c_wire::refusal_from;
use osb_update_wire::UpdateRefusal;

// Why a request is refused, as a status.
#[tactic(auto, using(crate::proofs::Numbers::numbered))]
pub(crate) fn status_from(refusal: UpdateRefusal) -> Status
    ensures status { result ≡ refusal_status refusal }
    ensures back { refusal_of (code result) ≡ Some refusal }
{
    match refusal {
        UpdateRefusal::BadNumber => Status::RefusedNumber,
        UpdateRefusal::Refused(refusal) => osb_c_wire::status_from(refusal),
    }
}

// HTTP's status under the number of a refusal of another request, too.
fn other_status(number: u32) -> u16
    ensures status { result ≡ life.status_under number }
{
    if number == Status::RefusedMaintenance.code() {
        return osb_wire::MAINTENANCE_CONFLICT_STATUS;
    }
    match refusal_from(number) {
        Some(refusal) => refusal.status(),
        None => 0,
    }
}

// The body of what a number of another request stands for, too.
#[tactic(auto, using(osb_c_wire::proofs::Conflicts::conflict_taken))]
fn other_body(number: u32) -> Option<&'static str>
    ensures text { option_map (λ text. text.now) result ≡ option_map compact_text (life.object_under number) }
    ensures reads { IfSome result (λ text. object_in text.now ≡ life.object_under number) }
    ensures taken { IfSome result (λ text.
        answer_in Kind.Provision (life.status_under number) text.now ≡ life.taken_under Kind.Provision number) }
{
    if number == Status::RefusedMaintenance.code() {
        return Some(osb_wire::maintenance_conflict_body());
    }
    match refusal_from(number) {
        Some(refusal) => Some(refusal.body()),
        None => None,
    }
}

// The body of what a number stands for.
fn body_under(number: u32) -> Option<&'static str>
    ensures text { option_map (λ text. text.now) result ≡ option_map compact_text (object_under number) }
    ensures reads { IfSome result (λ text. object_in text.now ≡ object_under number) }
    ensures taken { IfSome result (λ text.
        answer_in Kind.Provision (status_under number) text.now ≡ taken_under number) }
{
    if number == Status::RefusedNumber.code() {
        return Some(UpdateRefusal::BadNumber.body());
    }
    other_body(number)
}

/// The HTTP status of a refusal of an Update or a Fetch, which is the number of a status from `RefusedTarget` to
/// `RefusedSpace`, or `RefusedNumber`; 422 of `RefusedMaintenance` and 503 of `Memory`; 0 of every other number (section
/// Service Broker Errors; which status each has is this project's choice if the standard names none). It takes no
/// memory.
#[unsafe(no_mangle)]
pub extern "C" fn osb_update_refusal_status(refusal: u32) -> u16
    ensures status { result ≡ status_under refusal }
    ensures each { (fault : UpdateRefusal) → refusal ≡ code (refusal_status fault) → result ≡ status_of fault }
    ensures maintenance { refusal ≡ code Status.RefusedMaintenance → result ≡ 422 }
{
    if refusal == Status::RefusedNumber.code() {
        return UpdateRefusal::BadNumber.status();
    }
    other_status(refusal)
}

/// Writes the body of a refusal of an Update or a Fetch to the front of `buffer`, and its length to `needed`; the rest of
/// the buffer is as before. It is an object with `error` and a `description` for a person (section Service Broker
/// Errors). It takes no memory, so that want of it can be told.
///
/// It returns `Done`; `NotRefused` exactly if the number is none from `RefusedTarget` to `RefusedSpace`, and none of
/// `RefusedNumber`, `RefusedMaintenance` and `Memory`; or `TooSmall` exactly if it is one and the buffer is shorter than
/// `needed` bytes, a number that is written all the same. If it isn't `Done`, the buffer is as before, and if it is
/// `NotRefused`, `needed` too.
#[unsafe(no_mangle)]
pub extern "C" fn osb_update_refusal_body(
    refusal: u32,
    buffer: &mut [u8],
    needed: &mut usize,
) -> u32
    ensures text { result ≡ code Status.Done → IsSomeAnd (object_under refusal) (λ object.
        texts.IsWritten (compact_text object) needed.new buffer.new) }
    ensures reads { result ≡ code Status.Done → object_in (take needed.new buffer.new) ≡ object_under refusal }
    ensures taken { result ≡ code Status.Done
        → answer_in Kind.Provision (status_under refusal) (take needed.new buffer.new) ≡ taken_under refusal }
    ensures rest { result ≡ code Status.Done → drop needed.new buffer.new ≡ drop needed.new buffer.old }

    ensures not_refused { (result ≡ code Status.NotRefused) ↔ IsNone (object_under refusal) }
    ensures too_small { (result ≡ code Status.TooSmall) ↔ IsSomeAnd (object_under refusal) (λ object.
        texts.IsTooLong (compact_text object) needed.new buffer.old) }
    ensures statuses { IsTrue (is_one_of (Status.Done ∷ Status.NotRefused ∷ Status.TooSmall ∷ []) result) }
    ensures unwritten { result ≢ code Status.Done → buffer.new ≡ buffer.old }
    ensures unmeasured { result ≡ code Status.NotRefused → needed.new ≡ needed.old }
{
    match body_under(refusal) {
        Some(body) => write_text(body, buffer, needed).code(),
        None => Status::NotRefused.code(),
    }
}

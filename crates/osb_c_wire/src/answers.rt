//! Answers: as a platform takes them from a response, and as a broker writes them.
ghost use Rattle.std.specs.Prelude.{◌≡◌, ◌≢◌, ◌↔◌, [], ◌∷◌, true, Some, None, option_and_then, take, drop};
ghost use Rattle.std.specs.Prelude.{IsTrue, IsNone, IsSomeAnd};
ghost use Rattle.osb_message.specs.declared.messages.Body.TheVariants as Body;
ghost use Rattle.osb_message.specs.declared.messages.Kind.{Kind};
ghost use Rattle.osb_wire.specs.Answers.{answer_in, if_short, operation_in};
ghost use Rattle.osb_wire.specs.Bodies.{object_in};
ghost use Rattle.osb_wire.specs.WrittenAnswers as written;
ghost use Rattle.osb_c_types.specs.Answers.{IsNumbered, answer_of, body_of};
ghost use Rattle.osb_c_types.specs.Kinds.{kind_of};
ghost use Rattle.osb_c_types.specs.Status.{code, is_one_of};
ghost use Rattle.osb_c_wire.specs.Texts as texts;

use crate::texts::text_if;
use osb_c_types::{OsbAnswer, Status, answer_from, answer_out, kind_from, write_text};
use osb_message::Memory;
use std::alloc::Global;

/// What a platform takes from a response to a request of the kind, from its status and all of its body. Where the
/// response isn't surely the broker's, a timeout is taken in its place (sections Provisioning, Polling Last
/// Operation for Service Instances, Deprovisioning and Service Broker Errors; which responses aren't surely the
/// broker's is this project's choice).
///
/// It returns `Done`; `BadKind` exactly where the number stands for no kind; `NoAnswer` where the response isn't
/// surely the broker's; or, in place of `Done` and of `NoAnswer`, `Memory` where an allocation failed. Where it isn't
/// `Done`, the answer is as before.
#[unsafe(no_mangle)]
pub extern "C" fn osb_read_answer(
    alloc: Global,
    kind: u8,
    status: u16,
    body: &[u8],
    answer: &mut OsbAnswer,
) -> u32
    ensures answer { result ≡ code Status.Done → IsSomeAnd (kind_of kind) (λ k.
        answer_in k status body.now ≡ Some (answer_of answer.new)) }
    ensures numbered { result ≡ code Status.Done → IsNumbered answer.new }
    ensures no_answer { result ≡ code Status.NoAnswer → IsSomeAnd (kind_of kind) (λ k.
        answer_in k status body.now ≡ None) }
    ensures bad_kind { (result ≡ code Status.BadKind) ↔ IsNone (kind_of kind) }
    ensures statuses { IsTrue (is_one_of
        (Status.Done ∷ Status.BadKind ∷ Status.NoAnswer ∷ Status.Memory ∷ []) result) }
    ensures unwritten { result ≢ code Status.Done → answer.new ≡ answer.old }
{
    let Some(kind) = kind_from(kind) else {
        return Status::BadKind.code();
    };
    match osb_wire::read_answer(alloc, kind, status, body) {
        Ok(Some(read)) => {
            *answer = answer_out(read);
            Status::Done.code()
        }
        Ok(None) => Status::NoAnswer.code(),
        Err(Memory) => Status::Memory.code(),
    }
}

/// Writes the body of an answer to the front of `buffer`, and its length to `needed`; the rest of the buffer is as
/// before. The operation counts if `has_operation` is true, and is written in a 202 alone. The description, for a
/// person, counts if `has_description` is true. It stands in the body of an error in place of the usual sentence, and
/// beside the state `failed`; of one with more than 1,000 characters the first 1,000 do (sections Provisioning, Polling
/// Last Operation for Service Instances, Deprovisioning and Service Broker Errors; that length, and the word of an error
/// other than the standard's two, by the status, are this project's choice).
///
/// It returns `Done`; `NotUtf8` exactly where the operation or the description counts and isn't UTF-8; `TooSmall` where
/// the buffer is shorter than `needed` bytes, a number that is written all the same; or, in place of `Done` and of
/// `TooSmall`, `Memory` where an allocation failed. Where it isn't `Done`, the buffer is as before, and where it is
/// neither that nor `TooSmall`, `needed` too.
#[unsafe(no_mangle)]
pub extern "C" fn osb_write_told_answer(
    alloc: Global,
    answer: OsbAnswer,
    has_operation: bool,
    operation: &[u8],
    has_description: bool,
    description: &[u8],
    buffer: &mut [u8],
    needed: &mut usize,
) -> u32
    ensures text { result ≡ code Status.Done → texts.IsWritten (written.answer_text (answer_of answer)
        (texts.text_if has_operation operation.now) (texts.text_if has_description description.now))
        needed.new buffer.new }
    ensures object { result ≡ code Status.Done → object_in (take needed.new buffer.new)
        ≡ written.body_value answer.status (texts.text_if has_operation operation.now)
        (texts.text_if has_description description.now) (body_of answer.body) }
    ensures reads { result ≡ code Status.Done → (kind : Kind) → written.is_carried kind (answer_of answer) ≡ true
        → answer_in kind answer.status (take needed.new buffer.new) ≡ Some (answer_of answer) }
    ensures given { result ≡ code Status.Done → (kind : Kind) → written.is_given kind (answer_of answer) ≡ true
        → answer_in kind answer.status (take needed.new buffer.new) ≡ Some (answer_of answer) }
    ensures operation { result ≡ code Status.Done → answer.status ≡ 202 → body_of answer.body ≡ Body.Empty
        → operation_in (take needed.new buffer.new)
        ≡ option_and_then if_short (texts.text_if has_operation operation.now) }
    ensures rest { result ≡ code Status.Done → drop needed.new buffer.new ≡ drop needed.new buffer.old }

    ensures not_utf8 { (result ≡ code Status.NotUtf8) ↔ ¬ (texts.IsUtf8If has_operation operation.now
        × texts.IsUtf8If has_description description.now) }
    ensures too_small { result ≡ code Status.TooSmall → texts.IsTooLong (written.answer_text (answer_of answer)
        (texts.text_if has_operation operation.now) (texts.text_if has_description description.now))
        needed.new buffer.old }
    ensures statuses { IsTrue (is_one_of
        (Status.Done ∷ Status.NotUtf8 ∷ Status.TooSmall ∷ Status.Memory ∷ []) result) }
    ensures unwritten { result ≢ code Status.Done → buffer.new ≡ buffer.old }
    ensures unmeasured { result ≢ code Status.Done → result ≢ code Status.TooSmall → needed.new ≡ needed.old }
{
    let Some(operation) = text_if(has_operation, operation) else {
        return Status::NotUtf8.code();
    };
    let Some(description) = text_if(has_description, description) else {
        return Status::NotUtf8.code();
    };
    let Ok(text) = osb_wire::write_answer(alloc, answer_from(answer), operation, description) else {
        return Status::Memory.code();
    };
    write_text(text.as_str(), buffer, needed).code()
}

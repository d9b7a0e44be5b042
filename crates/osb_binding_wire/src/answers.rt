//! The object of a binding in answers.
ghost use Rattle.std.specs.Prelude.{◌≡◌, Some, IfOk, IfSome, option_map};
ghost use Rattle.osb_message.specs.declared.messages.Body.TheVariants as Body;
ghost use Rattle.osb_message.specs.declared.messages.Kind.TheVariants as Kind;
ghost use Rattle.osb_wire.specs.Answers.{answer_in};
ghost use Rattle.osb_binding_wire.specs.Objects as objects;

use osb_message::{Answer, Kind, Memory};
use osb_wire::json_body::read_object;
use osb_wire::read_answer;
use std::alloc::Global;

/// What a platform takes from the response to a Bind, an Unbind or a Poll of a binding.
#[derive(Clone, Copy, Debug)]
pub struct BindingAnswer<'b> {
    /// The answer, as [`read_answer`](osb_wire::read_answer) returns it: none where the response isn't surely the
    /// broker's.
    pub answer: Option<Answer>,
    /// The object of the binding, as it stands: the whole body of a 200 or a 201 to a Bind, where that is an object of
    /// JSON.
    pub object: Option<&'b str>,
}

// The text that a body is, where it is an object of JSON.
#[tactic(auto, using(osb_wire::proofs::BodyValues::value_in_no_text))]
fn object_text<'b>(alloc: Global, body: &'b [u8]) -> Result<Option<&'b str>, Memory>
    ensures text { IfOk result (λ text. option_map (λ text. text.now) text ≡ objects.object_text body.now) }
{
    let Ok(text) = std::str::from_utf8(body) else {
        return Ok(None);
    };
    match read_object(alloc, body) {
        Ok(Some(_)) => Ok(Some(text)),
        Ok(None) => Ok(None),
        Err(Memory) => Err(Memory),
    }
}

// Whether an answer to a request of this kind has the binding's object.
fn has_object(kind: Kind, status: u16) -> bool
    ensures has { result ≡ objects.has_object kind status }
{
    match (kind, status) {
        (Kind::Provision, 200 | 201) => true,
        _ => false,
    }
}

/// What a platform takes from the response to a Bind (`Provision`), an Unbind (`Deprovision`) or a Poll of a binding's
/// last operation: the answer, as [`read_answer`](osb_wire::read_answer) returns it of that kind, and of a 200 or a 201 to
/// a Bind the object (sections Binding, Unbinding and Polling Last Operation for Service Bindings). What stands in the
/// object is not judged.
///
/// # Errors
///
/// [`Memory`] where an allocation failed: an object is read into memory whole. The same call may be made again.
pub fn read_binding_answer<'b>(
    alloc: Global,
    kind: Kind,
    status: u16,
    body: &'b [u8],
) -> Result<BindingAnswer<'b>, Memory>
    ensures answer { IfOk result (λ found. found.answer ≡ answer_in kind status body.now) }
    ensures object { IfOk result (λ found. option_map (λ text. text.now) found.object
        ≡ objects.bound_in kind status body.now) }
{
    let answer = match read_answer(alloc, kind, status, body) {
        Ok(answer) => answer,
        Err(Memory) => return Err(Memory),
    };
    if !has_object(kind, status) {
        return Ok(BindingAnswer {
            answer,
            object: None,
        });
    }
    match object_text(alloc, body) {
        Ok(object) => Ok(BindingAnswer { answer, object }),
        Err(Memory) => Err(Memory),
    }
}

/// The object of the binding that the response to a Fetch has, as it stands: the whole body of a 200, where that is an
/// object of JSON; none of any other response (section Fetching a Service Binding).
///
/// # Errors
///
/// [`Memory`] where an allocation failed: an object is read into memory whole. The same call may be made again.
pub fn read_fetched<'b>(
    alloc: Global,
    status: u16,
    body: &'b [u8],
) -> Result<Option<&'b str>, Memory>
    ensures object { IfOk result (λ object. option_map (λ text. text.now) object
        ≡ objects.fetched_in status body.now) }
{
    if status != 200 {
        return Ok(None);
    }
    object_text(alloc, body)
}

/// The body of a 200 or a 201 to a Bind, and of a 200 to a Fetch: the object of the binding that is stored, as it stands;
/// none where the text is no object of JSON. [`read_binding_answer`] and [`read_fetched`] give it back (sections Binding
/// and Fetching a Service Binding).
///
/// # Errors
///
/// [`Memory`] where an allocation failed: an object is read into memory whole. The same call may be made again.
pub fn write_binding<'o>(alloc: Global, object: &'o str) -> Result<Option<&'o str>, Memory>
    ensures body { IfOk result (λ body. option_map (λ text. text.now) body ≡ objects.object_text object.now) }
    ensures bound { IfOk result (λ body. IfSome body (λ text. (objects.bound_in Kind.Provision 201 text.now ≡ Some object.now)
        × (objects.bound_in Kind.Provision 200 text.now ≡ Some object.now))) }
    ensures created { IfOk result (λ body. IfSome body (λ text.
        answer_in Kind.Provision 201 text.now ≡ Some record { status = 201; body = Body.Empty })) }
    ensures repeated { IfOk result (λ body. IfSome body (λ text.
        answer_in Kind.Provision 200 text.now ≡ Some record { status = 200; body = Body.Empty })) }
    ensures fetched { IfOk result (λ body. IfSome body (λ text. objects.fetched_in 200 text.now ≡ Some object.now)) }
{
    object_text(alloc, object.as_bytes())
}

//! The body that a broker writes for an answer.
ghost use Rattle.std.specs.Prelude.{◌≡◌, true, IfOk, Some, option_map, option_and_then, string_bytes};
ghost use Rattle.serde_json.specs.View.{view};
ghost use Rattle.osb_message.specs.declared.messages.Body.TheVariants as Body;
ghost use Rattle.osb_message.specs.declared.messages.Kind.{Kind};
ghost use Rattle.osb_wire.specs.Bodies.{object_in};
ghost use Rattle.osb_wire.specs.Answers.{answer_in, if_short, operation_in, state_word};
ghost use Rattle.osb_wire.specs.WrittenAnswers as written;

use crate::answer_reading::if_short;
use osb_message::{Answer, Body, ErrorCode, LastState, Memory};
use serde_json::{Value, json};
use std::alloc::{AllocError, Global};

// The word of a last operation's state.
fn state_word(state: LastState) -> &'static str
    ensures word { result.now ≡ state_word state }
{
    match state {
        LastState::InProgress => "in progress",
        LastState::Succeeded => "succeeded",
        LastState::Failed => "failed",
    }
}

// The word for an error that has none of its own.
fn reason(status: u16) -> &'static str
    ensures word { result.now ≡ written.reason status }
{
    match status {
        400 => "BadRequest",
        404 => "NotFound",
        405 => "MethodNotAllowed",
        409 => "Conflict",
        410 => "Gone",
        412 => "PreconditionFailed",
        413 => "ContentTooLarge",
        422 => "UnprocessableEntity",
        500 => "InternalServerError",
        503 => "ServiceUnavailable",
        _ => "Refused",
    }
}

// The word of an error's code.
fn error_word(status: u16, code: ErrorCode) -> &'static str
    ensures word { result.now ≡ written.error_word status code }
{
    match code {
        ErrorCode::AsyncRequired => "AsyncRequired",
        ErrorCode::ConcurrencyError => "ConcurrencyError",
        ErrorCode::Other => reason(status),
    }
}

// A sentence for a person, by the status.
fn sentence(status: u16) -> &'static str
    ensures text { result.now ≡ written.sentence status }
{
    match status {
        500 => "The operation failed.",
        503 => "The broker can't answer now.",
        _ => "The request was refused.",
    }
}

// The usual sentence for a person.
fn usual_description(status: u16, code: ErrorCode) -> &'static str
    ensures text { result.now ≡ written.description status code }
{
    match code {
        ErrorCode::AsyncRequired => "This plan needs a client that takes asynchronous operations.",
        ErrorCode::ConcurrencyError => "Another operation on this instance is in progress.",
        ErrorCode::Other => sentence(status),
    }
}

// The object of an answer that says no more than its status, and in a 202 the operation.
fn plain_value(alloc: Global, status: u16, operation: Option<&str>) -> Result<Value, AllocError>
    ensures value { IfOk result (λ value. view value
        ≡ written.plain_value status (option_map (λ text. text.now) operation.entry)) }
{
    match (status, operation.and_then(if_short)) {
        (202, Some(text)) => json!(in alloc; {"operation": text}),
        _ => json!(in alloc; {}),
    }
}

// A text without the characters that are too many.
fn cut(alloc: Global, text: &str) -> Result<String, AllocError>
    ensures text { IfOk result (λ cut. string_bytes cut ≡ written.cut text.now) }
{
    // The precision is the longest description.
    format!(in alloc; "{text:.1000}")
}

// The object of a last operation.
fn state_value(
    alloc: Global,
    state: LastState,
    description: Option<&str>,
) -> Result<Value, AllocError>
    ensures value { IfOk result (λ value. view value
        ≡ written.state_value state (option_map (λ text. text.now) description.entry)) }
{
    let word = state_word(state);
    match (state, description) {
        (LastState::Failed, Some(text)) => {
            let reason = cut(alloc, text)?;
            let reason = reason.as_str();
            json!(in alloc; {"description": reason, "state": word})
        }
        _ => json!(in alloc; {"state": word}),
    }
}

// The object of an error.
fn error_value(
    alloc: Global,
    status: u16,
    code: ErrorCode,
    description: Option<&str>,
) -> Result<Value, AllocError>
    ensures value { IfOk result (λ value. view value ≡ written.error_value
        (written.description_of status code (option_map (λ text. text.now) description.entry))
        (written.error_word status code)) }
{
    let word = error_word(status, code);
    match description {
        Some(text) => {
            let given = cut(alloc, text)?;
            let given = given.as_str();
            json!(in alloc; {"description": given, "error": word})
        }
        None => {
            let usual = usual_description(status, code);
            json!(in alloc; {"description": usual, "error": word})
        }
    }
}

// The value of a body, where it has one.
fn body_value(
    alloc: Global,
    status: u16,
    body: Body,
    operation: Option<&str>,
    description: Option<&str>,
) -> Result<Option<Value>, AllocError>
    ensures value { IfOk result (λ value. option_map view value ≡ written.body_value status
        (option_map (λ text. text.now) operation.entry) (option_map (λ text. text.now) description.entry) body) }
{
    let value = match body {
        Body::Malformed => return Ok(None),
        Body::Empty => plain_value(alloc, status, operation)?,
        Body::State(state) => state_value(alloc, state, description)?,
        Body::Error(code) => error_value(alloc, status, code, description)?,
    };
    Ok(Some(value))
}

/// The body that a broker writes for an answer, under its status and the content type
/// [`CONTENT_TYPE`](crate::CONTENT_TYPE): `{}` for [`Body::Empty`], `{"state":"in progress"}` and so on,
/// for an error an object with `error` and a `description` for a person, and nothing for
/// [`Body::Malformed`]. An operation of at most 10,000 characters is written in an empty 202, as the member
/// `operation`, and nowhere else; a longer one, which the standard forbids, isn't written. A description is written for
/// an error, in place of the usual sentence, and beside the state `failed`; of one with more than 1,000 characters the
/// first 1,000. So a person reads why a broker rejected a request, or why an operation failed.
///
/// [`read_answer`](crate::read_answer) gives the same answer back for 200, 201 and 202 with an empty body, of
/// a Poll 200 with a state, and 400, 409, 410, 422, 500 and 503 with an error, which are all that the tables
/// of `osb_broker` have, and 503 besides. [`read_operation`](crate::read_operation) gives the operation back. Sections Provisioning, Polling Last
/// Operation, Deprovisioning and Service Broker Errors of the standard; the word of an error other than
/// the standard's two, by the status, is this project's choice.
///
/// # Errors
///
/// [`Memory`] where an allocation failed. The same call may be made again.
pub fn write_answer(
    alloc: Global,
    answer: Answer,
    operation: Option<&str>,
    description: Option<&str>,
) -> Result<String, Memory>
    ensures text { IfOk result (λ text. string_bytes text ≡ written.answer_text answer
        (option_map (λ text. text.now) operation.entry) (option_map (λ text. text.now) description.entry)) }
    ensures object { IfOk result (λ text. object_in (string_bytes text) ≡ written.body_value answer.status
        (option_map (λ text. text.now) operation.entry) (option_map (λ text. text.now) description.entry)
        answer.body) }
    ensures reads { (kind : Kind) → written.is_carried kind answer ≡ true
        → IfOk result (λ text. answer_in kind answer.status (string_bytes text) ≡ Some answer) }
    ensures given { (kind : Kind) → written.is_given kind answer ≡ true
        → IfOk result (λ text. answer_in kind answer.status (string_bytes text) ≡ Some answer) }
    ensures operation { answer.status ≡ 202 → answer.body ≡ Body.Empty → IfOk result (λ text.
        operation_in (string_bytes text)
        ≡ option_and_then if_short (option_map (λ text. text.now) operation.entry)) }
{
    let Some(value) = body_value(alloc, answer.status, answer.body, operation, description)? else {
        return Ok(String::new(alloc));
    };
    let text = value.to_string(alloc)?;
    Ok(text)
}

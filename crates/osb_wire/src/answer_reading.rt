//! The answer that a platform takes from a response.
ghost use Rattle.std.specs.Prelude.{◌≡◌, IfOk, length, option_map, string_bytes};
ghost use Rattle.std.specs.Str.{chars};
ghost use Rattle.serde_json.specs.View.{view};
ghost use Rattle.osb_wire.specs.Answers as answers;

use crate::json_body::read_object;
use osb_json::text_at;
use osb_message::{Answer, Body, ErrorCode, Kind, LastState, Memory};
use serde_json::Value;
use std::alloc::Global;

// The longest operation that a platform sends back, in characters.
const LONGEST_OPERATION: usize = 10_000;

// The state that a word names.
fn state_named(word: &str) -> Option<LastState>
    ensures state { result ≡ answers.state_named word.now }
{
    match word {
        "in progress" => Some(LastState::InProgress),
        "succeeded" => Some(LastState::Succeeded),
        "failed" => Some(LastState::Failed),
        _ => None,
    }
}

// The code that a word names.
fn code_named(word: &str) -> ErrorCode
    ensures code { result ≡ answers.code_named word.now }
{
    match word {
        "AsyncRequired" => ErrorCode::AsyncRequired,
        "ConcurrencyError" => ErrorCode::ConcurrencyError,
        _ => ErrorCode::Other,
    }
}

// What an object says of a last operation.
fn state_in(object: &Value) -> Body
    ensures body { result ≡ answers.state_in (view object.now) }
{
    match text_at(object, "state").and_then(state_named) {
        Some(state) => Body::State(state),
        None => Body::Empty,
    }
}

// What an object says of an error.
fn error_in(object: &Value) -> Body
    ensures body { result ≡ answers.error_in (view object.now) }
{
    match text_at(object, "error") {
        Some(word) => Body::Error(code_named(word)),
        None => Body::Empty,
    }
}

// What an object says in an answer to a request of this kind.
fn body_of_object(kind: Kind, status: u16, object: &Value) -> Body
    ensures body { result ≡ answers.body_of_object kind status (view object.now) }
{
    match (kind, status) {
        (Kind::Provision | Kind::Deprovision, 200..=202) => Body::Empty,
        (Kind::Poll, 200) => state_in(object),
        _ => error_in(object),
    }
}

// Whether it is open who answers: a refusal of a Provision that may be a gateway's.
fn may_be_a_gateways(kind: Kind, status: u16, is_object: bool) -> bool
    ensures unsure { result ≡ answers.may_be_a_gateways kind status is_object }
{
    match (kind, status) {
        (Kind::Provision, 401 | 403 | 404 | 405 | 407 | 408 | 412 | 413 | 414 | 415 | 429 | 431) =>
            true,
        (Kind::Provision, 400..=499) => !is_object,
        _ => false,
    }
}

/// The answer that a response to a request of this kind is, from its status and all of its body; none
/// where the response isn't surely the broker's. A platform takes a timeout in the place of none, which
/// is always right: it then cleans up.
///
/// None is given of a Provision alone, where a refusal lets a platform record that nothing is there: for
/// the statuses that gateways, proxies and servers answer of themselves (401, 403, 404, 405, 407, 408,
/// 412, 413, 414, 415, 429 and 431) with any body, and for every other from 400 to 499 whose body is no
/// object of JSON.
///
/// Of an object, what counts is `state` in an answer to a Poll with 200, nothing in one to a Provision or a
/// Deprovision with 200, 201 or 202, and `error` in every other; every other member is passed over, and of a
/// member that stands twice the last counts. Only a body
/// that is no object is [`Body::Malformed`]. Sections Provisioning, Polling Last Operation,
/// Deprovisioning and Service Broker Errors of the standard; which responses aren't surely the broker's
/// is this project's choice.
///
/// # Errors
///
/// [`Memory`] where an allocation failed: an object is read into memory whole. The same call may be made
/// again.
pub fn read_answer(
    alloc: Global,
    kind: Kind,
    status: u16,
    body: &[u8],
) -> Result<Option<Answer>, Memory>
    ensures answer { IfOk result (λ answer. answer ≡ answers.answer_in kind status body.now) }
{
    let object = read_object(alloc, body)?;
    if may_be_a_gateways(kind, status, object.is_some()) {
        return Ok(None);
    }
    let body = match &object {
        Some(object) => body_of_object(kind, status, object),
        None => Body::Malformed,
    };
    Ok(Some(Answer { status, body }))
}

// How many characters the text has.
fn character_count(text: &str) -> usize
    ensures count { result ≡ length (chars text.now) }
{
    text.chars().count()
}

// The text, if it has at most so many characters as an operation may.
pub(crate) fn if_short(text: &str) -> Option<&str>
    ensures short { option_map (λ text. text.now) result ≡ answers.if_short text.now }
{
    if character_count(text) <= LONGEST_OPERATION {
        Some(text)
    } else {
        None
    }
}

/// The operation that a broker names in the body of an accepted request, which a platform sends back in
/// its Polls: the string `operation` of an object, if it has at most 10,000 characters (section
/// Provisioning; that a longer one counts as none is this project's choice).
///
/// # Errors
///
/// [`Memory`] where an allocation failed. The same call may be made again.
pub fn read_operation(alloc: Global, body: &[u8]) -> Result<Option<String>, Memory>
    ensures operation { IfOk result (λ operation. option_map string_bytes operation ≡ answers.operation_in body.now) }
{
    let Some(object) = read_object(alloc, body)? else {
        return Ok(None);
    };
    match text_at(&object, "operation").and_then(if_short) {
        Some(text) => Ok(Some(String::from_str(alloc, text)?)),
        None => Ok(None),
    }
}

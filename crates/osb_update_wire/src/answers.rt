//! Answers to an Update, and to any request that creates or changes an instance.
ghost use Rattle.std.specs.Prelude.{◌≡◌, ◌≢◌, true, None, Some, IfOk, OnOk, codes, length, option_map, string_bytes};
ghost use Rattle.std.specs.Str.{chars};
ghost use Rattle.serde_json.specs.Data.{boolean, string};
ghost use Rattle.serde_json.specs.View.{view, members_view};
ghost use Rattle.osb_message.specs.declared.messages.Body.TheVariants as Body;
ghost use Rattle.osb_message.specs.declared.messages.Kind.{Kind};
ghost use Rattle.osb_message.specs.declared.messages.Kind.TheVariants as Kinds;
ghost use Rattle.osb_update.specs.declared.settings.Settings.{Settings};
ghost use Rattle.osb_update.specs.declared.state.Aim.{Aim};
ghost use Rattle.osb_wire.specs.Answers.{answer_in, if_short, is_success, operation_in};
ghost use Rattle.osb_wire.specs.Bodies.{object_in};
ghost use Rattle.osb_wire.specs.Details.{flag_in, text_in};
ghost use Rattle.osb_wire.specs.WrittenAnswers.{is_carried};
ghost use Rattle.osb_update_wire.specs.Answers as answers;

use osb_message::{Answer, Kind, Memory};
use osb_wire::json_body::read_object;
use osb_wire::provision_writing::put_text;
use osb_wire::{read_answer, write_answer};
use serde_json::{Map, Value};
use std::alloc::{AllocError, Global};

// The longest operation that a platform sends back, in characters.
const LONGEST_OPERATION: usize = 10_000;

/// What a platform takes from the response to an Update: the answer, as [`read_answer`](osb_wire::read_answer) returns it
/// to a Provision, and none if the response isn't surely the broker's. Then take it for a timeout. So after a 200 or a 202
/// with an object [`UpdateRecord::answer`](osb_update::UpdateRecord::answer) records what it says, and after any other
/// response but a rejection the Update is sent again. Sections Updating a Service Instance and Service Broker Errors; which
/// responses are surely the broker's is this project's choice.
///
/// [`read_details`](osb_wire::read_details) returns what else the body says: `operation`, `dashboard_url`, `metadata`,
/// `description`, `instance_usable` and `update_repeatable`.
///
/// # Errors
///
/// [`Memory`] if an allocation failed: an object is read into memory whole. The same call may be made again.
pub fn read_update_answer(alloc: Global, status: u16, body: &[u8]) -> Result<Option<Answer>, Memory>
    ensures answer { IfOk result (λ answer. answer ≡ answers.update_answer_in status body.now) }
    ensures recorded { (settings : Settings) → (aim : Aim) → IfOk result (λ answer.
        answers.recorded settings aim answer ≡ answers.recorded_of settings aim status (object_in body.now)) }
{
    match read_answer(alloc, Kind::Provision, status, body) {
        Ok(answer) => Ok(answer),
        Err(Memory) => Err(Memory),
    }
}

// How many characters the text has.
fn character_count(text: &str) -> usize
    ensures count { result ≡ length (chars text.now) }
{
    text.chars().count()
}

// The text, if it has at most so many characters as an operation may.
fn if_short(text: &str) -> Option<&str>
    ensures short { option_map (λ text. text.now) result ≡ if_short text.now }
{
    if character_count(text) <= LONGEST_OPERATION {
        Some(text)
    } else {
        None
    }
}

// The operation that is told.
fn operation_given<'o>(status: u16, operation: Option<&'o str>) -> Option<&'o str>
    ensures given { option_map (λ text. text.now) result
        ≡ answers.operation_given status (option_map (λ text. text.now) operation.entry) }
{
    match (status, operation) {
        (202, Some(text)) => if_short(text),
        _ => None,
    }
}

// Puts a text under a name, if there is one.
fn put_if(
    alloc: Global,
    members: &mut Map<String, Value>,
    name: &str,
    text: Option<&str>,
) -> Result<(), AllocError>
    ensures put { OnOk result (members_view members.new.entries ≡ answers.put_if name.now
        (option_map string (option_map (λ text. text.now) text.entry)) (members_view members.old.entries)) }
{
    match text {
        Some(text) => put_text(alloc, members, name, text),
        None => Ok(()),
    }
}

// The object that the text of metadata is.
fn read_metadata(alloc: Global, metadata: Option<&str>) -> Result<Option<Value>, Memory>
    ensures value { IfOk result (λ value. option_map view value
        ≡ answers.metadata_in (option_map (λ text. text.now) metadata.entry)) }
{
    match metadata {
        Some(text) => read_object(alloc, text.as_bytes()),
        None => Ok(None),
    }
}

// Puts metadata, if there is some.
fn put_metadata(
    alloc: Global,
    members: &mut Map<String, Value>,
    metadata: Option<Value>,
) -> Result<(), AllocError>
    ensures put { OnOk result (members_view members.new.entries ≡ answers.put_if (codes "metadata")
        (option_map view metadata) (members_view members.old.entries)) }
{
    match metadata {
        Some(value) => serde_json::put(members, alloc, "metadata", value),
        None => Ok(()),
    }
}

// The members of a success.
fn success_members(
    alloc: Global,
    operation: Option<&str>,
    dashboard_url: Option<&str>,
    metadata: Option<&str>,
) -> Result<Map<String, Value>, Memory>
    ensures members { IfOk result (λ made. members_view made.entries ≡ answers.success_members
        (option_map (λ text. text.now) operation.entry) (option_map (λ text. text.now) dashboard_url.entry)
        (answers.metadata_in (option_map (λ text. text.now) metadata.entry))) }
{
    let object = read_metadata(alloc, metadata)?;
    let mut members = Map::new(alloc);
    put_if(alloc, &mut members, "operation", operation)?;
    put_if(alloc, &mut members, "dashboard_url", dashboard_url)?;
    put_metadata(alloc, &mut members, object)?;
    Ok(members)
}

// The object of a success.
fn success_value(
    alloc: Global,
    status: u16,
    operation: Option<&str>,
    dashboard_url: Option<&str>,
    metadata: Option<&str>,
) -> Result<Value, Memory>
    ensures value { IfOk result (λ value. view value ≡ answers.success_value status
        (option_map (λ text. text.now) operation.entry) (option_map (λ text. text.now) dashboard_url.entry)
        (option_map (λ text. text.now) metadata.entry)) }
{
    let given = operation_given(status, operation);
    let members = success_members(alloc, given, dashboard_url, metadata)?;
    Ok(Value::Object(members))
}

/// The body of an answer with the status 200, 201 or 202 to a Provision or an Update: an object with the address at which
/// the instance is managed (`dashboard_url`), the `metadata`, and in a 202 the `operation`, each if it is given. Metadata is
/// the text of a JSON object, and counts as none if it isn't. An operation of more than 10,000 characters, which the
/// standard forbids, counts as none. Sections Provisioning and Updating a Service Instance.
///
/// [`read_answer`](osb_wire::read_answer) and [`read_update_answer`] return from it an answer in which nothing more is read,
/// and [`read_details`](osb_wire::read_details) the operation and the address, if the object nests at most 127 deep.
///
/// # Errors
///
/// [`Memory`] if an allocation failed. The same call may be made again.
pub fn write_success(
    alloc: Global,
    status: u16,
    operation: Option<&str>,
    dashboard_url: Option<&str>,
    metadata: Option<&str>,
) -> Result<String, Memory>
    ensures object { let value = answers.success_value status (option_map (λ text. text.now) operation.entry)
        (option_map (λ text. text.now) dashboard_url.entry) (option_map (λ text. text.now) metadata.entry) in
        answers.CanBeRead value → IfOk result (λ text. object_in (string_bytes text) ≡ Some value) }
    ensures answer { (is_success status ≡ true) → answers.CanBeRead (answers.success_value status
        (option_map (λ text. text.now) operation.entry) (option_map (λ text. text.now) dashboard_url.entry)
        (option_map (λ text. text.now) metadata.entry)) → IfOk result (λ text.
        answer_in Kinds.Provision status (string_bytes text) ≡ Some record { status = status; body = Body.Empty }) }
    ensures operation { answers.CanBeRead (answers.success_value status
        (option_map (λ text. text.now) operation.entry) (option_map (λ text. text.now) dashboard_url.entry)
        (option_map (λ text. text.now) metadata.entry)) → IfOk result (λ text. operation_in (string_bytes text)
        ≡ answers.operation_given status (option_map (λ text. text.now) operation.entry)) }
    ensures dashboard_url { answers.CanBeRead (answers.success_value status
        (option_map (λ text. text.now) operation.entry) (option_map (λ text. text.now) dashboard_url.entry)
        (option_map (λ text. text.now) metadata.entry)) → IfOk result (λ text.
        text_in (codes "dashboard_url") (string_bytes text) ≡ option_map (λ text. text.now) dashboard_url.entry) }
{
    let value = success_value(alloc, status, operation, dashboard_url, metadata)?;
    let text = value.to_string(alloc)?;
    Ok(text)
}

// Puts a flag under a name, if there is one.
fn put_flag(
    alloc: Global,
    members: &mut Map<String, Value>,
    name: &str,
    flag: Option<bool>,
) -> Result<(), AllocError>
    ensures put { OnOk result (members_view members.new.entries ≡ answers.put_if name.now
        (option_map boolean flag) (members_view members.old.entries)) }
{
    match flag {
        Some(says) => serde_json::put(members, alloc, name, Value::Bool(says)),
        None => Ok(()),
    }
}

// An object with both flags.
fn flagged(
    alloc: Global,
    object: Value,
    usable: Option<bool>,
    repeatable: Option<bool>,
) -> Result<Value, AllocError>
    ensures value { IfOk result (λ value. view value ≡ answers.flagged usable repeatable (view object)) }
{
    match object {
        Value::Object(members) => {
            let mut more = members;
            put_flag(alloc, &mut more, "instance_usable", usable)?;
            put_flag(alloc, &mut more, "update_repeatable", repeatable)?;
            Ok(Value::Object(more))
        }
        other => Ok(other),
    }
}

/// The body of an answer to an Update or to a Poll of an update that has failed, as
/// [`write_answer`](osb_wire::write_answer) writes it, with whether the instance can be used (`instance_usable`) and whether
/// the Update may be sent again (`update_repeatable`), each if it is given. Sections Updating a Service Instance, Polling
/// Last Operation for Service Instances and Service Broker Errors.
///
/// [`read_answer`](osb_wire::read_answer) returns the same answer from it as without them, and
/// [`read_details`](osb_wire::read_details) returns both.
///
/// # Errors
///
/// [`Memory`] if an allocation failed. The same call may be made again.
pub fn write_failure(
    alloc: Global,
    answer: Answer,
    description: Option<&str>,
    usable: Option<bool>,
    repeatable: Option<bool>,
) -> Result<String, Memory>
    ensures object { IfOk result (λ text. object_in (string_bytes text) ≡ answers.failure_value answer
        (option_map (λ text. text.now) description.entry) usable repeatable) }
    ensures reads { (kind : Kind) → is_carried kind answer ≡ true
        → IfOk result (λ text. answer_in kind answer.status (string_bytes text) ≡ Some answer) }
    ensures usable { answer.body ≢ Body.Malformed → IfOk result (λ text.
        flag_in (codes "instance_usable") (string_bytes text) ≡ usable) }
    ensures repeatable { answer.body ≢ Body.Malformed → IfOk result (λ text.
        flag_in (codes "update_repeatable") (string_bytes text) ≡ repeatable) }
{
    let text = write_answer(alloc, answer, None, description)?;
    let Some(object) = read_object(alloc, text.as_bytes())? else {
        return Ok(text);
    };
    let made = flagged(alloc, object, usable, repeatable)?;
    let told = made.to_string(alloc)?;
    Ok(told)
}

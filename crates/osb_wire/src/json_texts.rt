//! The parts of a body of JSON as texts.
ghost use Rattle.std.specs.Prelude.{◌≡◌, ◌++◌, ◌∷◌, [], true, codes, Some, OnOk, IfOk, IfSome, option_map, string_bytes};
ghost use Rattle.json.specs.Find.{get, as_object};
ghost use Rattle.json.specs.Token.{begin_object, boolean, key};
ghost use Rattle.json.specs.Tree.{HasNumbers, MembersHaveNumbers, members_tokens};
ghost use Rattle.json.specs.Value.{value_view, members_view};
ghost use Rattle.osb_wire.specs.JsonTexts as texts;
ghost use Rattle.osb_wire.specs.Parts as told;

use json::{Error, Scratch, Value, Writer, to_vec};
use osb_message::Memory;
use std::alloc::{AllocError, Global};

// Which members are left out of an object's text.
#[derive(Clone, Copy)]
pub(crate) enum LeftOut {
    // Those of a Provision's body that have texts of their own.
    Parts,
    // `x-osb-tombstones`.
    Tombstones,
}

// The text that bytes are, which a writer of JSON has written.
fn text_from(bytes: Vec<u8>) -> Result<String, Memory>
    ensures text { IfOk result (λ text. string_bytes text ≡ bytes.items) }
{
    match String::from_utf8(bytes) {
        Ok(text) => Ok(text),
        Err(_) => Err(Memory),
    }
}

// The text of a value, with no spaces.
fn text_of(alloc: Global, value: &Value<'_>) -> Result<String, Memory>
    requires { HasNumbers (value_view value.now) }
    ensures text { IfOk result (λ text. string_bytes text ≡ texts.text_of (value_view value.now)) }
{
    let bytes = to_vec(alloc, value)?;
    text_from(bytes)
}

/// The value that a body is, where it is UTF-8 and JSON.
///
/// # Errors
///
/// [`Memory`] where an allocation failed. The same call may be made again.
#[tactic(auto, using(crate::proofs::JsonBodies::json_steps))]
pub fn read_json<'a>(
    alloc: Global,
    body: &'a [u8],
    scratch: &'a mut Scratch,
) -> Result<Option<Value<'a>>, Memory>
    ensures value { IfOk result (λ value. option_map value_view value ≡ texts.json_in body.now) }
    ensures numbers { IfOk result (λ value. IfSome value (λ v. HasNumbers (value_view v))) }
{
    match Value::from_slice(alloc, body, scratch) {
        Ok(value) => Ok(Some(value)),
        Err(Error::Invalid) => Ok(None),
        Err(_) => Err(Memory),
    }
}

// Whether a member is left out.
fn is_left_out(which: LeftOut, name: &str) -> bool
    ensures left_out { result ≡ texts.is_left_out which name.now }
{
    match which {
        LeftOut::Parts => {
            name == "service_id"
                || name == "plan_id"
                || name == "parameters"
                || name == "context"
                || name == "maintenance_info"
        }
        LeftOut::Tombstones => name == "x-osb-tombstones",
    }
}

// Writes the members that are kept, each with its value, and the end of the object.
#[tactic(auto, using(crate::proofs::JsonBodies::kept_steps))]
fn write_kept(
    writer: &mut Writer,
    which: LeftOut,
    members: &Vec<(&str, Value<'_>)>,
) -> Result<(), AllocError>
    requires { MembersHaveNumbers (members_view members.now.items) }
    ensures before { writer.new.before ≡ writer.old.before }
    ensures ok { OnOk result (writer.new.tokens ≡ writer.old.tokens
        ++ members_tokens (texts.kept which (members_view members.now.items))) }
{
    for member in members {
        if !is_left_out(which, member.0) {
            writer.key(member.0)?;
            writer.value(&member.1)?;
        }
    }
    writer.end_object()
}

// The text of the object of the members that are kept.
fn others_of(alloc: Global, members: &Vec<(&str, Value<'_>)>) -> Result<String, Memory>
    requires { MembersHaveNumbers (members_view members.now.items) }
    ensures text { IfOk result (λ text. string_bytes text ≡ texts.others_of (members_view members.now.items)) }
{
    let mut writer = Writer::new(Vec::new(alloc));
    writer.begin_object()?;
    write_kept(&mut writer, LeftOut::Parts, members)?;
    text_from(writer.into_inner())
}

/// The parts of a Provision's body, as texts with no spaces: numbers as they are written, members in their order.
#[derive(Drop)]
pub struct Parts {
    /// `parameters`, where the body has it.
    pub parameters: Option<String>,
    /// `context`, where the body has it.
    pub context: Option<String>,
    /// `maintenance_info`, where the body has it.
    pub maintenance_info: Option<String>,
    /// The object of all other members but `service_id` and `plan_id`; none where the body is no object. The organization
    /// and the space are among them. A member that stands twice stands twice.
    pub others: Option<String>,
}

/// The text of what stands under a name, with no spaces.
///
/// # Errors
///
/// [`Memory`] where an allocation failed. The same call may be made again.
pub fn text_under(alloc: Global, value: &Value<'_>, name: &str) -> Result<Option<String>, Memory>
    requires { HasNumbers (value_view value.now) }
    ensures text { IfOk result (λ text. option_map string_bytes text
        ≡ option_map texts.text_of (get name.now (value_view value.now))) }
{
    match value.get(name) {
        Some(found) => Ok(Some(text_of(alloc, found)?)),
        None => Ok(None),
    }
}

// The text of the object of the other members.
fn others_in(alloc: Global, value: &Value<'_>) -> Result<Option<String>, Memory>
    requires { HasNumbers (value_view value.now) }
    ensures text { IfOk result (λ text. option_map string_bytes text
        ≡ option_map texts.others_of (as_object (value_view value.now))) }
{
    match value {
        Value::Object(members) => Ok(Some(others_of(alloc, members)?)),
        _ => Ok(None),
    }
}

// The parts of a value.
fn parts_of(alloc: Global, value: &Value<'_>) -> Result<Parts, Memory>
    requires { HasNumbers (value_view value.now) }
    ensures parts { IfOk result (λ parts. told.ArePartsOf parts (Some (value_view value.now))) }
{
    Ok(Parts {
        parameters: text_under(alloc, value, "parameters")?,
        context: text_under(alloc, value, "context")?,
        maintenance_info: text_under(alloc, value, "maintenance_info")?,
        others: others_in(alloc, value)?,
    })
}

/// The parts of a Provision's body (section Provisioning): `parameters`, `context`, `maintenance_info` and the others, each
/// as a text. What stands inside is not judged, and of a name that stands twice the last counts. Where the body is no object
/// of JSON there is none.
///
/// # Errors
///
/// [`Memory`] where an allocation failed. The same call may be made again.
pub fn body_parts(alloc: Global, body: &[u8]) -> Result<Parts, Memory>
    ensures parts { IfOk result (λ parts. told.ArePartsOf parts (texts.json_in body.now)) }
{
    let mut scratch = Scratch::new(alloc);
    match read_json(alloc, body, &mut scratch)? {
        Some(value) => parts_of(alloc, &value),
        None => Ok(Parts {
            parameters: None,
            context: None,
            maintenance_info: None,
            others: None,
        }),
    }
}

/// The text of what stands under a name in the object that a body is, with no spaces: numbers as they are written, members
/// in their order; none where the body is no object of JSON, or has no such member. Of a name that stands twice the last
/// counts.
///
/// So `parameters`, `context` and `maintenance_info` of a Provision reach a backend, and `metadata` of an answer a
/// platform (sections Provisioning and Deprovisioning of the standard). What stands inside is not judged.
///
/// # Errors
///
/// [`Memory`] where an allocation failed. The same call may be made again.
pub fn member_text(alloc: Global, body: &[u8], name: &str) -> Result<Option<String>, Memory>
    ensures text { IfOk result (λ text. option_map string_bytes text ≡ texts.member_text name.now body.now) }
{
    let mut scratch = Scratch::new(alloc);
    match read_json(alloc, body, &mut scratch)? {
        Some(value) => text_under(alloc, &value, name),
        None => Ok(None),
    }
}

// A writer that has begun a catalogue's object with `x-osb-tombstones`.
fn begin_served(alloc: Global) -> Result<Writer, AllocError>
    ensures before { IfOk result (λ writer. writer.before ≡ []) }
    ensures tokens { IfOk result (λ writer. writer.tokens
        ≡ begin_object ∷ key (codes "x-osb-tombstones") ∷ boolean true ∷ []) }
{
    let mut writer = Writer::new(Vec::new(alloc));
    writer.begin_object()?;
    writer.key("x-osb-tombstones")?;
    writer.boolean(true)?;
    Ok(writer)
}

// The text of a catalogue's object, with `x-osb-tombstones`.
fn served_of(alloc: Global, members: &Vec<(&str, Value<'_>)>) -> Result<String, Memory>
    requires { MembersHaveNumbers (members_view members.now.items) }
    ensures text { IfOk result (λ text. string_bytes text
        ≡ texts.text_of (texts.with_tombstones (members_view members.now.items))) }
{
    let mut writer = begin_served(alloc)?;
    write_kept(&mut writer, LeftOut::Tombstones, members)?;
    text_from(writer.into_inner())
}

/// The document that a broker serves as its catalogue: the object that is given, with no spaces and the member
/// `x-osb-tombstones`, which is `true`, in place of any other of this name; none where it is no object of JSON.
///
/// The member says that this broker keeps a tombstone for each id that it has deleted, and never creates the id again
/// (this project's choice; other platforms pass it over). Section Catalog Management.
///
/// # Errors
///
/// [`Memory`] where an allocation failed. The same call may be made again.
pub fn served_catalogue(alloc: Global, document: &[u8]) -> Result<Option<String>, Memory>
    ensures text { IfOk result (λ text. option_map string_bytes text ≡ texts.served_text document.now) }
{
    let mut scratch = Scratch::new(alloc);
    match read_json(alloc, document, &mut scratch)? {
        Some(Value::Object(members)) => Ok(Some(served_of(alloc, &members)?)),
        _ => Ok(None),
    }
}

//! The catalogue that a broker serves which orders Updates by their numbers.
ghost use Rattle.std.specs.Prelude.{◌≡◌, ◌++◌, ◌∷◌, [], true, IfOk, OnOk, codes, option_map, string_bytes};
ghost use Rattle.json.specs.Token.{begin_object, boolean, key};
ghost use Rattle.json.specs.Tree.{MembersHaveNumbers, members_tokens};
ghost use Rattle.json.specs.Value.{members_view};
ghost use Rattle.osb_wire.specs.JsonTexts.{text_of};
ghost use Rattle.osb_update_wire.specs.Catalogues as catalogues;

use json::{Scratch, Value, Writer};
use osb_message::Memory;
use osb_wire::json_texts::read_json;
use std::alloc::{AllocError, Global};

// Writes the members but those of the name, each with its value, and the end of the object.
#[tactic(auto, using(crate::proofs::ServedMembers::without_steps))]
fn write_others(writer: &mut Writer, members: &Vec<(&str, Value<'_>)>) -> Result<(), AllocError>
    requires { MembersHaveNumbers (members_view members.now.items) }
    ensures before { writer.new.before ≡ writer.old.before }
    ensures ok { OnOk result (writer.new.tokens ≡ writer.old.tokens
        ++ members_tokens (catalogues.without (members_view members.now.items))) }
{
    for member in members {
        if member.0 != "x-osb-updates" {
            writer.key(member.0)?;
            writer.value(&member.1)?;
        }
    }
    writer.end_object()
}

// A writer that has begun a catalogue's object with the member.
fn begin_served(alloc: Global) -> Result<Writer, AllocError>
    ensures before { IfOk result (λ writer. writer.before ≡ []) }
    ensures tokens { IfOk result (λ writer. writer.tokens
        ≡ begin_object ∷ key (codes "x-osb-updates") ∷ boolean true ∷ []) }
{
    let mut writer = Writer::new(Vec::new(alloc));
    writer.begin_object()?;
    writer.key("x-osb-updates")?;
    writer.boolean(true)?;
    Ok(writer)
}

// The text of a catalogue's object, with the member.
fn served_of(alloc: Global, members: &Vec<(&str, Value<'_>)>) -> Result<String, Memory>
    requires { MembersHaveNumbers (members_view members.now.items) }
    ensures text { IfOk result (λ text. string_bytes text
        ≡ text_of (catalogues.with_updates (members_view members.now.items))) }
{
    let mut writer = begin_served(alloc)?;
    write_others(&mut writer, members)?;
    match String::from_utf8(writer.into_inner()) {
        Ok(text) => Ok(text),
        Err(_) => Err(Memory),
    }
}

/// The document that a broker serves which orders Updates by their numbers: the object that is given, with no spaces and the
/// member `x-osb-updates`, which is `true`, in place of any other of this name; none if it is no object of JSON. Give it
/// what [`served_catalogue`](osb_wire::served_catalogue) returns (this project's choice; other platforms pass it over).
/// Section Catalog Management.
///
/// # Errors
///
/// [`Memory`] if an allocation failed. The same call may be made again.
pub fn served_updates(alloc: Global, document: &[u8]) -> Result<Option<String>, Memory>
    ensures text { IfOk result (λ text. option_map string_bytes text ≡ catalogues.served_text document.now) }
{
    let mut scratch = Scratch::new(alloc);
    match read_json(alloc, document, &mut scratch)? {
        Some(Value::Object(members)) => Ok(Some(served_of(alloc, &members)?)),
        _ => Ok(None),
    }
}

//! What a body says of an instance, written.
ghost use Rattle.std.specs.Prelude.{◌≡◌, ◌++◌, ◌∷◌, [], Some, IfOk, OnOk, codes, option_map, string_bytes};
ghost use Rattle.json.specs.Json.{string};
ghost use Rattle.json.specs.Token.{begin_object};
ghost use Rattle.json.specs.Tree.{members_tokens};
ghost use Rattle.osb_wire.specs.JsonTexts.{json_in};
ghost use Rattle.osb_update_wire.specs.Said as said;

use json::{Scratch, Writer};
use osb_message::Memory;
use osb_wire::json_texts::read_json;
use std::alloc::{AllocError, Global};

// What a body says, as texts. A value of JSON that isn't one is left out.
#[derive(Clone, Copy)]
pub(crate) struct Texts<'t> {
    // The text of a value of JSON.
    pub(crate) context: Option<&'t str>,
    pub(crate) dashboard_url: Option<&'t str>,
    pub(crate) version: Option<&'t str>,
    // The text of a value of JSON.
    pub(crate) metadata: Option<&'t str>,
    // The text of a value of JSON.
    pub(crate) parameters: Option<&'t str>,
    pub(crate) plan: Option<&'t str>,
    pub(crate) service: &'t str,
    // The number of an Update, or 0.
    pub(crate) number: u64,
}

// Writes a member whose value is JSON, if there is one.
fn write_value(
    alloc: Global,
    writer: &mut Writer,
    name: &str,
    text: Option<&str>,
) -> Result<(), Memory>
    ensures before { writer.new.before ≡ writer.old.before }
    ensures ok { OnOk result (writer.new.tokens ≡ writer.old.tokens
        ++ said.tokens_if name.now (said.value_if (option_map (λ text. text.now) text.entry))) }
{
    let Some(text) = text else {
        return Ok(());
    };
    let mut scratch = Scratch::new(alloc);
    match read_json(alloc, text.as_bytes(), &mut scratch)? {
        Some(value) => {
            writer.key(name)?;
            writer.value(&value)?;
            Ok(())
        }
        None => Ok(()),
    }
}

// Writes a member whose value is a string, if there is one.
fn write_string(writer: &mut Writer, name: &str, text: Option<&str>) -> Result<(), AllocError>
    ensures before { writer.new.before ≡ writer.old.before }
    ensures ok { OnOk result (writer.new.tokens ≡ writer.old.tokens
        ++ said.tokens_if name.now (option_map string (option_map (λ text. text.now) text.entry))) }
{
    match text {
        Some(text) => {
            writer.key(name)?;
            writer.string(text)
        }
        None => Ok(()),
    }
}

// Writes the object of a version.
#[tactic(auto, using(std::proofs::Common::append_assoc))]
fn write_version_object(writer: &mut Writer, version: &str) -> Result<(), AllocError>
    ensures before { writer.new.before ≡ writer.old.before }
    ensures ok { OnOk result (writer.new.tokens ≡ writer.old.tokens
        ++ said.tokens_if (codes "maintenance_info") (Some (said.version_object version.now))) }
{
    writer.key("maintenance_info")?;
    writer.begin_object()?;
    writer.key("version")?;
    writer.string(version)?;
    writer.end_object()?;
    Ok(())
}

// Writes the version, if there is one.
fn write_version(writer: &mut Writer, version: Option<&str>) -> Result<(), AllocError>
    ensures before { writer.new.before ≡ writer.old.before }
    ensures ok { OnOk result (writer.new.tokens ≡ writer.old.tokens ++ said.tokens_if (codes "maintenance_info")
        (option_map said.version_object (option_map (λ text. text.now) version.entry))) }
{
    match version {
        Some(text) => write_version_object(writer, text),
        None => Ok(()),
    }
}

// Writes a member whose value is a number.
fn write_some_number(writer: &mut Writer, name: &str, number: u64) -> Result<(), AllocError>
    ensures before { writer.new.before ≡ writer.old.before }
    ensures ok { OnOk result (writer.new.tokens ≡ writer.old.tokens
        ++ said.tokens_if name.now (Some (said.decimal_number number))) }
{
    writer.key(name)?;
    writer.u64(number)
}

// Writes the number, unless it is 0.
fn write_number(writer: &mut Writer, number: u64) -> Result<(), AllocError>
    ensures before { writer.new.before ≡ writer.old.before }
    ensures ok { OnOk result (writer.new.tokens ≡ writer.old.tokens
        ++ said.tokens_if (codes "x-osb-update") (said.number_value number)) }
{
    if number == 0 {
        Ok(())
    } else {
        write_some_number(writer, "x-osb-update", number)
    }
}

// Writes the ids and the number, and the end of the object.
#[tactic(auto, using(crate::proofs::SaidTokens::said_steps))]
fn write_ids(writer: &mut Writer, texts: &Texts<'_>) -> Result<(), AllocError>
    ensures before { writer.new.before ≡ writer.old.before }
    ensures ok { OnOk result (writer.new.tokens ≡ writer.old.tokens
        ++ members_tokens (said.from_plan (said.said_of texts.now))) }
{
    write_string(writer, "plan_id", texts.plan)?;
    write_string(writer, "service_id", Some(texts.service))?;
    write_number(writer, texts.number)?;
    writer.end_object()?;
    Ok(())
}

// Writes the members from the version on.
#[tactic(auto, using(crate::proofs::SaidTokens::said_steps))]
fn write_settings(alloc: Global, writer: &mut Writer, texts: &Texts<'_>) -> Result<(), Memory>
    ensures before { writer.new.before ≡ writer.old.before }
    ensures ok { OnOk result (writer.new.tokens ≡ writer.old.tokens
        ++ members_tokens (said.from_version (said.said_of texts.now))) }
{
    write_version(writer, texts.version)?;
    write_value(alloc, writer, "metadata", texts.metadata)?;
    write_value(alloc, writer, "parameters", texts.parameters)?;
    write_ids(writer, texts)?;
    Ok(())
}

// Writes all members.
#[tactic(auto, using(crate::proofs::SaidTokens::said_steps))]
fn write_members(alloc: Global, writer: &mut Writer, texts: &Texts<'_>) -> Result<(), Memory>
    ensures before { writer.new.before ≡ writer.old.before }
    ensures ok { OnOk result (writer.new.tokens ≡ writer.old.tokens
        ++ members_tokens (said.members_of (said.said_of texts.now))) }
{
    write_value(alloc, writer, "context", texts.context)?;
    write_string(writer, "dashboard_url", texts.dashboard_url)?;
    write_settings(alloc, writer, texts)
}

// A writer that has begun an object.
fn begin(alloc: Global) -> Result<Writer, AllocError>
    ensures before { IfOk result (λ writer. writer.before ≡ []) }
    ensures tokens { IfOk result (λ writer. writer.tokens ≡ begin_object ∷ []) }
{
    let mut writer = Writer::new(Vec::new(alloc));
    writer.begin_object()?;
    Ok(writer)
}

// The text of what is said.
pub(crate) fn write_said(alloc: Global, texts: &Texts<'_>) -> Result<String, Memory>
    ensures text { IfOk result (λ text. string_bytes text ≡ said.said_text (said.said_of texts.now)) }
{
    let mut writer = begin(alloc)?;
    write_members(alloc, &mut writer, texts)?;
    match String::from_utf8(writer.into_inner()) {
        Ok(text) => Ok(text),
        Err(_) => Err(Memory),
    }
}

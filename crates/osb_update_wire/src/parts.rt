//! The parts of an Update's body as texts.
ghost use Rattle.std.specs.Prelude.{◌≡◌, Some, IfOk, option_map, option_and_then, string_bytes};
ghost use Rattle.json.specs.Tree.{HasNumbers};
ghost use Rattle.json.specs.Value.{value_view};
ghost use Rattle.osb_wire.specs.JsonTexts as texts;
ghost use Rattle.osb_update_wire.specs.Parts as told;
ghost use Rattle.osb_update_wire.specs.Patches as patches;
ghost use Rattle.osb_update_wire.specs.Versions as versions;

use crate::patch::parameters_named;
use crate::versions::version_at;
use json::{Scratch, Value};
use osb_message::Memory;
use osb_wire::json_texts::{read_json, text_under};
use std::alloc::Global;

/// The parts of an Update's body, as texts. Those of JSON have no spaces, numbers as they are written, and members in their
/// order.
#[derive(Drop)]
pub struct UpdateParts {
    /// `parameters`, if the Update names them.
    pub parameters: Option<String>,
    /// The version that `maintenance_info` names, if the Update names one.
    pub version: Option<String>,
    /// `context`, if the body has it.
    pub context: Option<String>,
    /// `previous_values`, if the body has it. No decision is based on it.
    pub previous_values: Option<String>,
}

// The text of the parameters that are named.
fn parameters_text(alloc: Global, value: &Value<'_>, number: u64) -> Result<Option<String>, Memory>
    requires { HasNumbers (value_view value.now) }
    ensures text { IfOk result (λ text. option_map string_bytes text
        ≡ option_map texts.text_of (patches.parameters_named number (value_view value.now))) }
{
    match parameters_named(value, number) {
        Some(_) => text_under(alloc, value, "parameters"),
        None => Ok(None),
    }
}

// The text of the version that is named.
fn version_text(alloc: Global, value: &Value<'_>) -> Result<Option<String>, Memory>
    ensures text { IfOk result (λ text. option_map string_bytes text ≡ versions.version_at (value_view value.now)) }
{
    match version_at(value) {
        Some(text) => Ok(Some(String::from_str(alloc, text)?)),
        None => Ok(None),
    }
}

// The parts of a value.
fn parts_of(alloc: Global, value: &Value<'_>, number: u64) -> Result<UpdateParts, Memory>
    requires { HasNumbers (value_view value.now) }
    ensures parts { IfOk result (λ parts. told.ArePartsOf parts number (Some (value_view value.now))) }
{
    Ok(UpdateParts {
        parameters: parameters_text(alloc, value, number)?,
        version: version_text(alloc, value)?,
        context: text_under(alloc, value, "context")?,
        previous_values: text_under(alloc, value, "previous_values")?,
    })
}

/// The parts of the body of an Update that has this number, or 0 if it has none (section Updating a Service Instance).
/// What stands inside isn't judged, and of a name that stands twice the last counts. A body that is no object of JSON has no
/// part.
///
/// # Errors
///
/// [`Memory`] if an allocation failed. The same call may be made again.
pub fn update_parts(alloc: Global, body: &[u8], number: u64) -> Result<UpdateParts, Memory>
    ensures parts { IfOk result (λ parts. told.ArePartsOf parts number (texts.json_in body.now)) }
{
    let mut scratch = Scratch::new(alloc);
    match read_json(alloc, body, &mut scratch)? {
        Some(value) => parts_of(alloc, &value, number),
        None => Ok(UpdateParts {
            parameters: None,
            version: None,
            context: None,
            previous_values: None,
        }),
    }
}

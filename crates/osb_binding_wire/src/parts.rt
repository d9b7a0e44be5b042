//! The parts of a Bind's body as texts.
ghost use Rattle.std.specs.Prelude.{◌≡◌, Some, IfOk};
ghost use Rattle.json.specs.Tree.{HasNumbers};
ghost use Rattle.json.specs.Value.{value_view};
ghost use Rattle.osb_wire.specs.JsonTexts as texts;
ghost use Rattle.osb_binding_wire.specs.Parts as told;

use json::{Scratch, Value};
use osb_message::Memory;
use osb_wire::json_texts::{read_json, text_under};
use std::alloc::Global;

/// The parts of a Bind's body, as texts of JSON with no spaces: numbers as they are written, members in their order.
#[derive(Drop)]
pub struct BindingParts {
    /// `bind_resource`, where the body has it: the application or the route that is bound.
    pub bind_resource: Option<String>,
    /// `parameters`, where the body has it.
    pub parameters: Option<String>,
    /// `context`, where the body has it.
    pub context: Option<String>,
    /// `predecessor_binding_id`, where the body has it, with its quotes: the binding that this one replaces.
    pub predecessor_binding_id: Option<String>,
}

// The parts of a value.
fn parts_of(alloc: Global, value: &Value<'_>) -> Result<BindingParts, Memory>
    requires { HasNumbers (value_view value.now) }
    ensures parts { IfOk result (λ parts. told.ArePartsOf parts (Some (value_view value.now))) }
{
    Ok(BindingParts {
        bind_resource: text_under(alloc, value, "bind_resource")?,
        parameters: text_under(alloc, value, "parameters")?,
        context: text_under(alloc, value, "context")?,
        predecessor_binding_id: text_under(alloc, value, "predecessor_binding_id")?,
    })
}

/// The parts of a Bind's body (section Binding), each as a text. What stands inside is not judged, and of a name that
/// stands twice the last counts. Where the body is no object of JSON there is none.
///
/// # Errors
///
/// [`Memory`] where an allocation failed. The same call may be made again.
pub fn binding_parts(alloc: Global, body: &[u8]) -> Result<BindingParts, Memory>
    ensures parts { IfOk result (λ parts. told.ArePartsOf parts (texts.json_in body.now)) }
{
    let mut scratch = Scratch::new(alloc);
    match read_json(alloc, body, &mut scratch)? {
        Some(value) => parts_of(alloc, &value),
        None => Ok(BindingParts {
            bind_resource: None,
            parameters: None,
            context: None,
            predecessor_binding_id: None,
        }),
    }
}

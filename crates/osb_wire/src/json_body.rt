//! What stands in a body of JSON.
ghost use Rattle.std.specs.Prelude.{◌≡◌, IfOk, option_map};
ghost use Rattle.serde_json.specs.View.{view};
ghost use Rattle.osb_wire.specs.Bodies.{value_in, object_in};

use osb_message::Memory;
use serde_json::Value;
use std::alloc::Global;

/// The value that a body is, if it is UTF-8 and JSON.
///
/// # Errors
///
/// [`Memory`] where an allocation failed. The same call may be made again.
#[tactic(auto, using(crate::proofs::BodyValues::value_in_text, crate::proofs::BodyValues::value_in_no_text))]
pub fn read_value(alloc: Global, body: &[u8]) -> Result<Option<Value>, Memory>
    ensures value { IfOk result (λ value. option_map view value ≡ value_in body.now) }
{
    let Ok(text) = std::str::from_utf8(body) else {
        return Ok(None);
    };
    osb_json::read_value(alloc, text)
}

/// The object that a body is, if it is one.
///
/// # Errors
///
/// [`Memory`] where an allocation failed. The same call may be made again.
pub fn read_object(alloc: Global, body: &[u8]) -> Result<Option<Value>, Memory>
    ensures object { IfOk result (λ value. option_map view value ≡ object_in body.now) }
{
    let Some(value) = read_value(alloc, body)? else {
        return Ok(None);
    };
    if value.as_object().is_none() {
        return Ok(None);
    }
    Ok(Some(value))
}

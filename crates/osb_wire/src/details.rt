//! What the body of an answer says besides the answer.
ghost use Rattle.std.specs.Prelude.{◌≡◌, IfOk, option_map, option_and_then, string_bytes};
ghost use Rattle.serde_json.specs.View.{view};
ghost use Rattle.osb_json.specs.Members.{text_at, flag_at};
ghost use Rattle.osb_wire.specs.Details.{AreDetailsOf};

use crate::answer_reading::read_operation;
use crate::json_body::read_object;
use crate::json_texts::member_text;
use osb_json::{flag_at, text_at};
use osb_message::Memory;
use serde_json::Value;
use std::alloc::Global;

/// What the body of an answer says besides the answer.
#[derive(Drop)]
pub struct Details {
    /// What a person is told of an error or of a last operation (`description`).
    pub description: Option<String>,
    /// The word of an error (`error`), the standard's or the broker's own.
    pub error: Option<String>,
    /// Where the instance is managed (`dashboard_url`).
    pub dashboard_url: Option<String>,
    /// What the broker names its operation (`operation`), if it has at most 10,000 characters.
    pub operation: Option<String>,
    /// The text of `metadata`, with no spaces.
    pub metadata: Option<String>,
    /// Whether the instance can be used after an update or a deletion that failed (`instance_usable`).
    pub instance_usable: Option<bool>,
    /// Whether an update that failed may be sent again (`update_repeatable`).
    pub update_repeatable: Option<bool>,
}

// The string under a name in the object that a body is.
fn read_text(alloc: Global, object: &Option<Value>, name: &str) -> Result<Option<String>, Memory>
    ensures text { IfOk result (λ text. option_map string_bytes text
        ≡ option_and_then (text_at name.now) (option_map view object.now)) }
{
    let Some(object) = object else {
        return Ok(None);
    };
    match text_at(object, name) {
        Some(text) => Ok(Some(String::from_str(alloc, text)?)),
        None => Ok(None),
    }
}

// The boolean under a name in the object that a body is.
fn read_flag(object: &Option<Value>, name: &str) -> Option<bool>
    ensures flag { result ≡ option_and_then (flag_at name.now) (option_map view object.now) }
{
    match object {
        Some(object) => flag_at(object, name),
        None => None,
    }
}

/// What the body of an answer says besides the answer, to any request and with any status: a string, a boolean or a value
/// under each of the names, where it has one of that type; none of a body that is no object. Of a member that stands twice
/// the last counts. Sections Provisioning, Polling Last Operation for Service Instances, Deprovisioning and Service Broker
/// Errors.
///
/// # Errors
///
/// [`Memory`] where an allocation failed. The same call may be made again.
pub fn read_details(alloc: Global, body: &[u8]) -> Result<Details, Memory>
    ensures details { IfOk result (λ details. AreDetailsOf details body.now) }
{
    let object = read_object(alloc, body)?;
    Ok(Details {
        description: read_text(alloc, &object, "description")?,
        error: read_text(alloc, &object, "error")?,
        dashboard_url: read_text(alloc, &object, "dashboard_url")?,
        operation: read_operation(alloc, body)?,
        metadata: member_text(alloc, body, "metadata")?,
        instance_usable: read_flag(&object, "instance_usable"),
        update_repeatable: read_flag(&object, "update_repeatable"),
    })
}

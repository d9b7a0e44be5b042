//! Whether a Bind names the application that it binds.
ghost use Rattle.std.specs.Prelude.{◌≡◌, ◌&&◌, not, Some, IfOk};
ghost use Rattle.serde_json.specs.View.{view};
ghost use Rattle.serde_json.specs.Written.{compact_text};
ghost use Rattle.osb_message.specs.declared.messages.Body.TheVariants as Body;
ghost use Rattle.osb_message.specs.declared.messages.ErrorCode.TheVariants as ErrorCode;
ghost use Rattle.osb_message.specs.declared.messages.Kind.TheVariants as Kind;
ghost use Rattle.osb_wire.specs.Answers.{answer_in};
ghost use Rattle.osb_wire.specs.Bodies.{object_in};
ghost use Rattle.osb_binding_wire.specs.Apps as apps;

use osb_json::text_at;
use osb_message::Memory;
use osb_wire::json_body::read_object;
use serde_json::Value;
use std::alloc::Global;

/// The status of the answer to a Bind that lacks the application that its plan needs (section Service Broker Errors).
pub const REQUIRES_APP_STATUS: u16 = 422;

// Whether an application is named by a value.
fn has_app(value: &Value) -> bool
    ensures has { result ≡ apps.has_app (view value.now) }
{
    match text_at(value, "app_guid") {
        Some(text) => !text.is_empty(),
        None => false,
    }
}

// Whether an application is named by the object that a body is.
fn names_app(object: &Value) -> bool
    ensures names { result ≡ apps.names_app (view object.now) }
{
    if has_app(object) {
        return true;
    }
    match object.get("bind_resource") {
        Some(resource) => has_app(resource),
        None => false,
    }
}

/// Whether a Bind lacks the application that its plan needs, given whether the plan needs one. A broker then answers with
/// [`REQUIRES_APP_STATUS`] and [`requires_app_body`], and nothing has changed (sections Binding and Service Broker
/// Errors).
///
/// The application is a string `app_guid` that isn't empty, of `bind_resource`, or of the body itself, where older
/// platforms have it alone. A body that is no object names none.
///
/// # Errors
///
/// [`Memory`] where an allocation failed. The same call may be made again.
pub fn requires_app(alloc: Global, needs_app: bool, body: &[u8]) -> Result<bool, Memory>
    ensures requires_app { IfOk result (λ lacks. lacks ≡ needs_app && not (apps.app_in body.now)) }
{
    if !needs_app {
        return Ok(false);
    }
    match read_object(alloc, body)? {
        Some(object) => Ok(!names_app(&object)),
        None => Ok(true),
    }
}

/// The body of the answer to a Bind that lacks the application that its plan needs: an object with the error
/// `RequiresApp` and a description (section Service Broker Errors). This project's platform records `unsettled`, as of
/// every other 422 to a Bind. It takes no memory.
pub fn requires_app_body() -> &'static str
    ensures text { result.now ≡ compact_text apps.requires_app_value }
    ensures reads { object_in result.now ≡ Some apps.requires_app_value }
    ensures taken { answer_in Kind.Provision 422 result.now
        ≡ Some record { status = 422; body = Body.Error ErrorCode.Other } }
{
    "{\"description\":\"This Service supports generation of credentials through binding an application only.\",\"error\":\"RequiresApp\"}"
}

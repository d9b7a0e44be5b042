//! Whether the bindings of a service can be fetched.
ghost use Rattle.std.specs.Prelude.{◌≡◌, IfOk};
ghost use Rattle.serde_json.specs.View.{view, items_view};
ghost use Rattle.osb_wire.specs.Maintenance.{has_number};
ghost use Rattle.osb_binding_wire.specs.Retrievable as retrievable;

use osb_json::{flag_at, text_at};
use osb_message::{Memory, ServiceId};
use osb_wire::json_body::read_value;
use osb_wire::names::is_id_of;
use serde_json::Value;
use std::alloc::Global;

// Whether this is the service of this number.
fn is_service(value: &Value, service: ServiceId) -> bool
    ensures is { result ≡ has_number service (view value.now) }
{
    match text_at(value, "id") {
        Some(text) => is_id_of(text, service),
        None => false,
    }
}

// Whether the first service of this number says so.
fn says_among(services: &Vec<Value>, service: ServiceId) -> bool
    ensures says { result ≡ retrievable.says_among service (items_view services.now.items) }
{
    for value in services {
        if is_service(value, service) {
            return flag_at(value, "bindings_retrievable").unwrap_or(false);
        }
    }
    false
}

/// Whether a catalogue's document says by `bindings_retrievable` of a service that its bindings can be fetched (section
/// Catalog Management): `false` where the service isn't in it or doesn't say so. Of a service that stands twice the first
/// counts. A platform whose broker doesn't say so cleans up after a 202 to a Bind
/// ([`is_useless`](osb_binding::is_useless)).
///
/// # Errors
///
/// [`Memory`] where an allocation failed. The same call may be made again.
pub fn bindings_retrievable(
    alloc: Global,
    document: &[u8],
    service: ServiceId,
) -> Result<bool, Memory>
    ensures retrievable { IfOk result (λ says. says ≡ retrievable.retrievable_in service document.now) }
{
    let Some(value) = read_value(alloc, document)? else {
        return Ok(false);
    };
    match value.get("services").and_then(Value::as_array) {
        Some(services) => Ok(says_among(services, service)),
        None => Ok(false),
    }
}

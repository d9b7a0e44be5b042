//! The value that a text is.
ghost use Rattle.std.specs.Prelude.{◌≡◌, IfOk, option_map};
ghost use Rattle.serde_json.specs.Read.{read};
ghost use Rattle.serde_json.specs.View.{view};

use osb_message::Memory;
use serde_json::Value;
use std::alloc::Global;

/// The value that a text is, or none where it has no reading as JSON.
///
/// # Errors
///
/// [`Memory`] where an allocation failed.
pub fn read_value(alloc: Global, text: &str) -> Result<Option<Value>, Memory>
    ensures value { IfOk result (λ value. option_map view value ≡ read text.now) }
{
    match Value::from_str(alloc, text) {
        Ok(value) => Ok(Some(value)),
        Err(error) => {
            if error.is_memory() {
                Err(Memory)
            } else {
                Ok(None)
            }
        }
    }
}

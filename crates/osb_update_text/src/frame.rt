//! The frame of both texts: an object with the number of the format.
ghost use Rattle.std.specs.Prelude.{◌≡◌, ◌⊎◌, Ok, Err, IfOk, IfErr};
ghost use Rattle.serde_json.specs.View.{view};
ghost use Rattle.osb_instance.specs.Frame.{framed, has_version, object_in};

use osb_instance::TextFault;
use osb_json::{number_at, read_value};
use serde_json::Value;
use std::alloc::Global;

// The object that a text is.
fn read_object(alloc: Global, text: &str) -> Result<Value, TextFault>
    ensures ok { IfOk result (λ value. object_in text.now ≡ Ok (view value)) }
    ensures err { IfErr result (λ fault.
        (fault ≡ TextFault.Memory) ⊎ (object_in text.now ≡ Err fault)) }
{
    let Ok(read) = read_value(alloc, text) else {
        return Err(TextFault::Memory);
    };
    let Some(value) = read else {
        return Err(TextFault::NotJson);
    };
    if value.as_object().is_none() {
        return Err(TextFault::NotAnObject);
    }
    Ok(value)
}

// Whether the number of the format stands in a value.
fn has_version(value: &Value, version: u64) -> bool
    ensures has { result ≡ has_version version (view value.now) }
{
    match number_at(value, "version") {
        None => false,
        Some(found) => found == version,
    }
}

// The object that a text is, if its version is that of the format.
pub(crate) fn read_frame(alloc: Global, text: &str, version: u64) -> Result<Value, TextFault>
    ensures ok { IfOk result (λ value. framed version text.now ≡ Ok (view value)) }
    ensures err { IfErr result (λ fault.
        (fault ≡ TextFault.Memory) ⊎ (framed version text.now ≡ Err fault)) }
{
    let value = read_object(alloc, text)?;
    if !has_version(&value, version) {
        return Err(TextFault::BadVersion);
    }
    Ok(value)
}

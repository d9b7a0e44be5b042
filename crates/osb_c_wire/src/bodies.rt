//! The further members of a body, which a text names.
ghost use Rattle.std.specs.Prelude.{◌≡◌, ◌≤◌, [], ◌∷◌, Some, None, Err, IfOk, IfErr, IsTrue, IsSome};
ghost use Rattle.serde_json.specs.Data.{object, depth};
ghost use Rattle.serde_json.specs.Read.{read, max_depth};
ghost use Rattle.serde_json.specs.View.{members_view};
ghost use Rattle.osb_c_types.specs.Status.{code, is_one_of};
ghost use Rattle.osb_c_wire.specs.Bodies.{members_in};

use osb_c_types::Status;
use osb_json::read_value;
use serde_json::{Map, Value};
use std::alloc::Global;

/// The members of the object that a text is.
pub fn read_members(alloc: Global, text: &str) -> Result<Map<String, Value>, Status>
    ensures members { IfOk result (λ members. members_in text.now ≡ Some (members_view members.entries)) }
    ensures shallow { IfOk result (λ members. depth (object (members_view members.entries)) ≤ max_depth) }
    ensures not_json { result ≡ Err Status.NotJson → read text.now ≡ None }
    ensures not_an_object { result ≡ Err Status.NotAnObject → IsSome (read text.now) × (members_in text.now ≡ None) }
    ensures faults { IfErr result (λ fault. IsTrue (is_one_of
        (Status.NotJson ∷ Status.NotAnObject ∷ Status.Memory ∷ []) (code fault))) }
{
    let Ok(found) = read_value(alloc, text) else {
        return Err(Status::Memory);
    };
    let Some(value) = found else {
        return Err(Status::NotJson);
    };
    match value {
        Value::Object(members) => Ok(members),
        _ => Err(Status::NotAnObject),
    }
}

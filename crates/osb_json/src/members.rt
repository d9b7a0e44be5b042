//! What stands under a name.
ghost use Rattle.std.specs.Prelude.{◌≡◌, option_map};
ghost use Rattle.serde_json.specs.View.{view};
ghost use Rattle.osb_json.specs.Members as members;

use osb_message::Id;
use serde_json::Value;

/// The string that stands under the name. It takes no memory.
pub fn text_at<'v>(value: &'v Value, name: &str) -> Option<&'v str>
    ensures text { option_map (λ text. text.now) result ≡ members.text_at name.now (view value.now) }
{
    value.get(name).and_then(Value::as_str)
}

/// The id whose text, in lower case, stands under the name. It takes no memory.
pub fn id_at<K>(value: &Value, name: &str) -> Option<Id<K>>
    ensures id { result ≡ members.id_at name.now (view value.now) }
{
    match text_at(value, name) {
        Some(text) => Id::from_lower_text(text),
        None => None,
    }
}

/// The number that stands under the name, where it is an integer from 0 to 2^64 - 1, written as one. It takes no
/// memory.
pub fn number_at(value: &Value, name: &str) -> Option<u64>
    ensures number { result ≡ members.number_at name.now (view value.now) }
{
    value.get(name).and_then(Value::as_u64)
}

/// The boolean that stands under the name. It takes no memory.
pub fn flag_at(value: &Value, name: &str) -> Option<bool>
    ensures flag { result ≡ members.flag_at name.now (view value.now) }
{
    value.get(name).and_then(Value::as_bool)
}

/// How many members an object has, and 0 for every other value. It takes no memory.
pub fn member_count(value: &Value) -> usize
    ensures count { result ≡ members.member_count (view value.now) }
{
    match value.as_object() {
        Some(members) => members.len(),
        None => 0,
    }
}

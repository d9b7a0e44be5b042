//! The digest of an instance's attributes.
ghost use Rattle.std.specs.Prelude.{◌≡◌, IfOk, codes, option_map, unwrap_or};
ghost use Rattle.json.specs.Find.{get};
ghost use Rattle.json.specs.Json.{no_members};
ghost use Rattle.json.specs.Tree.{HasNumbers};
ghost use Rattle.json.specs.Value.{value_view, items_view, members_view};
ghost use Rattle.osb_wire.specs.Digests as digests;

use crate::json_texts::read_json;
use json::{Scratch, Value, to_vec};
use osb_message::Memory;
use sha2::{Digest, Sha256};
use std::alloc::{AllocError, Global};
use std::collections::BTreeMap;

const NO_MEMBERS: &[u8] = b"{}";

const NULL: &[u8] = b"null";

// A value with each object's members in ascending order of their names.
#[cycle(canonical)]
fn canonical<'a>(alloc: Global, value: &Value<'a>) -> Result<Value<'a>, AllocError>
    ensures { IfOk result (λ made. value_view made ≡ digests.canonical (value_view value.now)) }
{
    match value {
        Value::Null => Ok(Value::Null),
        Value::Bool(b) => Ok(Value::Bool(*b)),
        Value::Number(text) => Ok(Value::Number(*text)),
        Value::String(text) => Ok(Value::String(*text)),
        Value::Array(items) => Ok(Value::Array(canonical_items(alloc, items)?)),
        Value::Object(members) => Ok(Value::Object(canonical_members(alloc, members)?)),
    }
}

#[cycle(canonical)]
fn canonical_items<'a>(alloc: Global, items: &Vec<Value<'a>>) -> Result<Vec<Value<'a>>, AllocError>
    ensures { IfOk result (λ made. items_view made.items ≡ digests.canonical_items (items_view items.now.items)) }
{
    let mut made = Vec::with_capacity(alloc, items.len())?;
    for item in items {
        made.push(canonical(alloc, item)?)?;
    }
    Ok(made)
}

#[cycle(canonical)]
fn canonical_members<'a>(
    alloc: Global,
    members: &Vec<(&'a str, Value<'a>)>,
) -> Result<Vec<(&'a str, Value<'a>)>, AllocError>
    ensures { IfOk result (λ made. members_view made.items
        ≡ digests.ascending (members_view members.now.items) no_members) }
{
    let map = ascending(alloc, members)?;
    list_of(alloc, map)
}

#[cycle(canonical)]
fn ascending<'a>(
    alloc: Global,
    members: &Vec<(&'a str, Value<'a>)>,
) -> Result<BTreeMap<&'a str, Value<'a>>, AllocError>
    ensures { IfOk result (λ made. members_view made.entries
        ≡ digests.ascending (members_view members.now.items) no_members) }
{
    let mut made = BTreeMap::new(alloc);
    for member in members {
        let value = canonical(alloc, &member.1)?;
        drop(made.insert(member.0, value)?);
    }
    Ok(made)
}

// The entries of a map, in their order.
fn list_of<'a>(
    alloc: Global,
    map: BTreeMap<&'a str, Value<'a>>,
) -> Result<Vec<(&'a str, Value<'a>)>, AllocError>
    ensures { IfOk result (λ list. list.items ≡ map.entry.entries) }
{
    let mut list = Vec::with_capacity(alloc, map.len())?;
    for entry in map {
        list.push(entry)?;
    }
    Ok(list)
}

// The digest of a value.
#[tactic(auto, using(crate::proofs::CanonicalValues::canonical_numbers))]
fn digest_of(alloc: Global, value: &Value<'_>) -> Result<[u8; 32], Memory>
    requires { HasNumbers (value_view value.now) }
    ensures digest { IfOk result (λ digest. digest ≡ digests.digest_of (value_view value.now)) }
{
    let made = canonical(alloc, value)?;
    let text = to_vec(alloc, &made)?;
    if text.as_slice() == NO_MEMBERS || text.as_slice() == NULL {
        return Ok([0u8; 32]);
    }
    Ok(Sha256::digest(text.as_slice()))
}

/// The digest of an instance's parameters, by their text: the SHA-256 of their canonical text, in which members stand in
/// ascending order of their names, byte by byte, with no spaces and each number as it is written; none where it is no JSON.
/// Of a name that stands twice the last counts. An object with no members, and `null`, have the digest of none: 32 zeroes.
///
/// A Provision of an id that exists is the same request only if its attributes are the same (section Provisioning). That
/// two texts of parameters are the same where their canonical texts are is this project's choice: so `1` and `1.0`
/// differ, and the order of members doesn't count.
///
/// # Errors
///
/// [`Memory`] where an allocation failed. The same call may be made again.
pub fn parameters_digest(alloc: Global, parameters: &[u8]) -> Result<Option<[u8; 32]>, Memory>
    ensures digest { IfOk result (λ digest. digest ≡ digests.parameters_digest parameters.now) }
{
    let mut scratch = Scratch::new(alloc);
    match read_json(alloc, parameters, &mut scratch)? {
        Some(value) => Ok(Some(digest_of(alloc, &value)?)),
        None => Ok(None),
    }
}

// The digest of the parameters of a body's value.
fn digest_under(alloc: Global, value: &Value<'_>) -> Result<[u8; 32], Memory>
    requires { HasNumbers (value_view value.now) }
    ensures digest { IfOk result (λ digest. digest ≡ unwrap_or
        (option_map digests.digest_of (get (codes "parameters") (value_view value.now))) digests.no_digest) }
{
    match value.get("parameters") {
        Some(parameters) => digest_of(alloc, parameters),
        None => Ok([0u8; 32]),
    }
}

/// The digest of the attributes that the body of a Provision names: of its `parameters`, as [`parameters_digest`] returns
/// it, and 32 zeroes where it has none. Context, organization and space don't count (this project's choice).
///
/// # Errors
///
/// [`Memory`] where an allocation failed. The same call may be made again.
pub fn attributes_digest(alloc: Global, body: &[u8]) -> Result<[u8; 32], Memory>
    ensures digest { IfOk result (λ digest. digest ≡ digests.attributes_digest body.now) }
{
    let mut scratch = Scratch::new(alloc);
    match read_json(alloc, body, &mut scratch)? {
        Some(value) => digest_under(alloc, &value),
        None => Ok([0u8; 32]),
    }
}

//! Which instance a method and a path ask of.
ghost use Rattle.std.specs.Prelude.{◌≡◌, option_map};
ghost use Rattle.form_urlencoded.specs.Form.{split_once};
ghost use Rattle.osb_wire.specs.Paths as paths;
ghost use Rattle.osb_wire.specs.Targets as targets;

use crate::Refusal;
use crate::id_texts::{LONGEST_ID, id_of_text};
use crate::path_reading::{place_of, plain_path, segment_text};
use osb_message::{Id, InstanceId, Kind};

const INSTANCES: &[u8] = b"/v2/service_instances/";

const LAST_OPERATION: &[u8] = b"/last_operation";

const CATALOGUE: &[u8] = b"/v2/catalog";

// What stands before a byte and after it, where it first stands, or all and nothing.
pub(crate) fn split_at_byte(byte: u8, text: &[u8]) -> (&[u8], &[u8])
    ensures before { result.0.now ≡ (split_once byte text.now).0 }
    ensures after { result.1.now ≡ (split_once byte text.now).1 }
{
    let place = place_of(byte, text);
    if place == text.len() {
        return (text, &[]);
    }
    (&text[..place], &text[place + 1..])
}

/// The path and the query of a target. It takes no memory.
pub fn split_query(target: &[u8]) -> (&[u8], &[u8])
    ensures path { result.0.now ≡ (split_once 63 target.now).0 }
    ensures query { result.1.now ≡ (split_once 63 target.now).1 }
{
    split_at_byte(b'?', target)
}

/// What follows the prefix and the path of the instances. It takes no memory.
pub fn below_instances<'p>(prefix: &str, path: &'p [u8]) -> Option<&'p [u8]>
    ensures below { option_map (λ rest. rest.now) result ≡ targets.below_instances prefix.now path.now }
{
    path.strip_prefix(prefix.as_bytes())?
        .strip_prefix(INSTANCES)
}

/// The segment of an id, and whether its last operation is asked for, in what a path has from that id on. It takes no
/// memory.
pub fn split_place(rest: &[u8]) -> Option<(&[u8], bool)>
    ensures place { option_map (λ place. (place.0.now, place.1)) result ≡ targets.place_below rest.now }
{
    let (text, more) = rest.split_at(place_of(b'/', rest));
    if more.is_empty() {
        Some((text, false))
    } else if more == LAST_OPERATION {
        Some((text, true))
    } else {
        None
    }
}

// The segment of an id, and whether its last operation is asked for, in a path as it stands.
fn split_as_it_stands<'p>(prefix: &str, path: &'p [u8]) -> Option<(&'p [u8], bool)>
    ensures place { option_map (λ place. (place.0.now, place.1)) result
        ≡ targets.place_as_it_stands prefix.now path.now }
{
    split_place(below_instances(prefix, path)?)
}

// The segment of an id, and whether its last operation is asked for.
pub(crate) fn split_path<'p>(prefix: &str, path: &'p [u8]) -> Option<(&'p [u8], bool)>
    ensures place { option_map (λ place. (place.0.now, place.1)) result ≡ targets.place_in prefix.now path.now }
{
    match split_as_it_stands(prefix, path) {
        Some(place) => Some(place),
        None => split_as_it_stands(prefix, plain_path(path)),
    }
}

// What is asked for by a method at an instance, or at its last operation.
fn kind_at(method: &str, of_last_operation: bool) -> Option<Kind>
    ensures kind { result ≡ targets.kind_at method.now of_last_operation }
{
    match (of_last_operation, method) {
        (true, "GET") => Some(Kind::Poll),
        (false, "PUT") => Some(Kind::Provision),
        (false, "DELETE") => Some(Kind::Deprovision),
        _ => None,
    }
}

/// The id that a segment of a path names; none where it is no text of an id. It takes no memory.
pub fn segment_id<K>(raw: &[u8]) -> Option<Id<K>>
    ensures id { result ≡ paths.segment_number raw.now }
{
    let mut buffer = [0u8; LONGEST_ID];
    match segment_text(raw, &mut buffer) {
        Some(text) => id_of_text(text),
        None => None,
    }
}

// What is asked for, and of which instance.
pub(crate) fn read_instance(
    prefix: &str,
    method: &str,
    path: &[u8],
) -> Result<(Kind, InstanceId), Refusal>
    ensures instance { result ≡ targets.instance_in prefix.now method.now path.now }
{
    let Some((text, of_last_operation)) = split_path(prefix, path) else {
        return Err(Refusal::NoSuchTarget);
    };
    let Some(kind) = kind_at(method, of_last_operation) else {
        return Err(Refusal::NoSuchMethod);
    };
    match segment_id(text) {
        Some(id) => Ok((kind, id)),
        None => Err(Refusal::BadInstance),
    }
}

// Whether a path is the catalogue's as it stands.
fn is_catalogue_path(prefix: &str, path: &[u8]) -> bool
    ensures is { result ≡ targets.is_catalogue_path prefix.now path.now }
{
    match path.strip_prefix(prefix.as_bytes()) {
        Some(rest) => rest == CATALOGUE,
        None => false,
    }
}

/// Whether a target asks for the catalogue, `/v2/catalog` after the broker's prefix (section Catalog Management). Its path
/// is taken as that of [`read_request`](crate::read_request) is: in absolute form too, and with more slashes at its front
/// and one at its end. The query counts for nothing. It takes no memory.
pub fn asks_for_catalogue(prefix: &str, target: &[u8]) -> bool
    ensures asks { result ≡ targets.asks_for_catalogue prefix.now ((split_once 63 target.now).0) }
{
    let (path, _) = split_query(target);
    is_catalogue_path(prefix, path) || is_catalogue_path(prefix, plain_path(path))
}

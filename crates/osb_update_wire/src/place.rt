//! What a method and a path ask of an instance that exists.
ghost use Rattle.std.specs.Prelude.{◌≡◌, option_map};
ghost use Rattle.osb_wire.specs.Targets as targets;
ghost use Rattle.osb_update_wire.specs.Places as places;

use osb_message::InstanceId;
use osb_wire::Refusal;
use osb_wire::path_reading::plain_path;
use osb_wire::target_reading::{below_instances, segment_id, split_place};

// What is asked for at an instance.
#[derive(Clone, Copy)]
pub(crate) enum Wanted {
    // That its settings are changed.
    Update,
    // What it has.
    Fetch,
}

// The segment of the id, and whether the last operation is asked for, in a path as it stands.
fn split_as_it_stands<'p>(prefix: &str, path: &'p [u8]) -> Option<(&'p [u8], bool)>
    ensures place { option_map (λ place. (place.0.now, place.1)) result
        ≡ targets.place_as_it_stands prefix.now path.now }
{
    split_place(below_instances(prefix, path)?)
}

// The segment of the id, and whether the last operation is asked for.
pub(crate) fn split_path<'p>(prefix: &str, path: &'p [u8]) -> Option<(&'p [u8], bool)>
    ensures place { option_map (λ place. (place.0.now, place.1)) result ≡ targets.place_in prefix.now path.now }
{
    match split_as_it_stands(prefix, path) {
        Some(place) => Some(place),
        None => split_as_it_stands(prefix, plain_path(path)),
    }
}

// What is asked for by a method at an instance, or at its last operation.
fn wanted_at(method: &str, of_last_operation: bool) -> Option<Wanted>
    ensures wanted { result ≡ places.wanted_at method.now of_last_operation }
{
    match (of_last_operation, method) {
        (false, "PATCH") => Some(Wanted::Update),
        (false, "GET") => Some(Wanted::Fetch),
        _ => None,
    }
}

// What is asked for, and of which instance.
pub(crate) fn read_place(
    prefix: &str,
    method: &str,
    path: &[u8],
) -> Result<(Wanted, InstanceId), Refusal>
    ensures place { result ≡ places.place_in prefix.now method.now path.now }
{
    let Some((segment, of_last_operation)) = split_path(prefix, path) else {
        return Err(Refusal::NoSuchTarget);
    };
    let Some(wanted) = wanted_at(method, of_last_operation) else {
        return Err(Refusal::NoSuchMethod);
    };
    match segment_id(segment) {
        Some(id) => Ok((wanted, id)),
        None => Err(Refusal::BadInstance),
    }
}

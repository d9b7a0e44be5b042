//! Which binding a method and a path ask of.
ghost use Rattle.std.specs.Prelude.{◌≡◌, option_map};
ghost use Rattle.osb_binding_wire.specs.Places as places;

use crate::BindingRefusal;
use osb_binding::BindingId;
use osb_message::{InstanceId, Kind};
use osb_wire::Refusal;
use osb_wire::path_reading::{place_of, plain_path};
use osb_wire::target_reading::{below_instances, segment_id, split_place};

const BINDINGS: &[u8] = b"/service_bindings/";

// What is asked for at a binding.
#[derive(Clone, Copy)]
pub(crate) enum Wanted {
    // That a request is answered.
    Answer(Kind),
    // The binding itself.
    Binding,
}

// A binding that is asked of, and what for.
#[derive(Clone, Copy)]
pub(crate) struct Place {
    pub(crate) wanted: Wanted,
    pub(crate) instance: InstanceId,
    pub(crate) binding: BindingId,
}

// The segments of the two ids, and whether the last operation is asked for, in what a path has from the instance's id on.
fn split_after(rest: &[u8]) -> Option<(&[u8], (&[u8], bool))>
    ensures place { option_map (λ place. (place.0.now, (place.1.0.now, place.1.1))) result
        ≡ places.segments_after rest.now }
{
    let (instance, more) = rest.split_at(place_of(b'/', rest));
    let binding = split_place(more.strip_prefix(BINDINGS)?)?;
    Some((instance, binding))
}

// The same in a path as it stands.
fn split_as_it_stands<'p>(prefix: &str, path: &'p [u8]) -> Option<(&'p [u8], (&'p [u8], bool))>
    ensures place { option_map (λ place. (place.0.now, (place.1.0.now, place.1.1))) result
        ≡ places.segments_as_they_stand prefix.now path.now }
{
    split_after(below_instances(prefix, path)?)
}

// The segments of the two ids, and whether the last operation is asked for.
pub(crate) fn split_path<'p>(prefix: &str, path: &'p [u8]) -> Option<(&'p [u8], (&'p [u8], bool))>
    ensures place { option_map (λ place. (place.0.now, (place.1.0.now, place.1.1))) result
        ≡ places.segments_in prefix.now path.now }
{
    match split_as_it_stands(prefix, path) {
        Some(place) => Some(place),
        None => split_as_it_stands(prefix, plain_path(path)),
    }
}

// What is asked for by a method at a binding, or at its last operation.
fn wanted_at(method: &str, of_last_operation: bool) -> Option<Wanted>
    ensures wanted { result ≡ places.wanted_at method.now of_last_operation }
{
    match (of_last_operation, method) {
        (true, "GET") => Some(Wanted::Answer(Kind::Poll)),
        (false, "PUT") => Some(Wanted::Answer(Kind::Provision)),
        (false, "DELETE") => Some(Wanted::Answer(Kind::Deprovision)),
        (false, "GET") => Some(Wanted::Binding),
        _ => None,
    }
}

// What is asked for, and of which binding.
pub(crate) fn read_place(prefix: &str, method: &str, path: &[u8]) -> Result<Place, BindingRefusal>
    ensures place { result ≡ places.place_in prefix.now method.now path.now }
{
    let Some((instance, (binding, of_last_operation))) = split_path(prefix, path) else {
        return Err(BindingRefusal::Refused(Refusal::NoSuchTarget));
    };
    let Some(wanted) = wanted_at(method, of_last_operation) else {
        return Err(BindingRefusal::Refused(Refusal::NoSuchMethod));
    };
    let Some(instance) = segment_id(instance) else {
        return Err(BindingRefusal::Refused(Refusal::BadInstance));
    };
    match segment_id(binding) {
        Some(binding) => Ok(Place {
            wanted,
            instance,
            binding,
        }),
        None => Err(BindingRefusal::BadBinding),
    }
}

//! What the target of a request names.
ghost use Rattle.std.specs.Prelude.{◌≡◌, ℕ, false, List, None, Err, option_map};
ghost use Rattle.form_urlencoded.specs.Form.{split_once};
ghost use Rattle.osb_wire.specs.Requests as instances;
ghost use Rattle.osb_wire.specs.Targets as targets;
ghost use Rattle.osb_binding_wire.specs.Places as places;
ghost use Rattle.osb_binding_wire.specs.Requests as bindings;

use crate::BindingRefusal;
use crate::place::split_path;
use osb_wire::path_reading::plain_path;
use osb_wire::target_reading::{below_instances, split_place, split_query};
use osb_wire::{Refusal, asks_for_catalogue};

/// What the target of a request names.
#[derive(Clone, Copy, Debug, PartialEq, Eq, Hash)]
pub enum Target {
    /// The catalogue (section Catalog Management).
    Catalogue,
    /// An instance (sections Provisioning and Deprovisioning).
    Instance,
    /// The last operation of an instance (section Polling Last Operation for Service Instances).
    InstanceOperation,
    /// A binding (sections Binding, Unbinding and Fetching a Service Binding).
    Binding,
    /// The last operation of a binding (section Polling Last Operation for Service Bindings).
    BindingOperation,
}

// The segment of an instance's id, and whether its last operation is asked for, in a path as it stands.
fn split_as_it_stands<'p>(prefix: &str, path: &'p [u8]) -> Option<(&'p [u8], bool)>
    ensures place { option_map (λ place. (place.0.now, place.1)) result
        ≡ targets.place_as_it_stands prefix.now path.now }
{
    split_place(below_instances(prefix, path)?)
}

// The segment of an instance's id, and whether its last operation is asked for.
fn split_instance_path<'p>(prefix: &str, path: &'p [u8]) -> Option<(&'p [u8], bool)>
    ensures place { option_map (λ place. (place.0.now, place.1)) result ≡ targets.place_in prefix.now path.now }
{
    match split_as_it_stands(prefix, path) {
        Some(place) => Some(place),
        None => split_as_it_stands(prefix, plain_path(path)),
    }
}

// What a path names, if it isn't the catalogue's.
fn path_target(prefix: &str, path: &[u8]) -> Option<Target>
    ensures target { result ≡ places.target_of false (targets.place_in prefix.now path.now)
        (places.segments_in prefix.now path.now) }
{
    if let Some((_, of_last_operation)) = split_instance_path(prefix, path) {
        return Some(if of_last_operation {
            Target::InstanceOperation
        } else {
            Target::Instance
        });
    }
    let (_, (_, of_last_operation)) = split_path(prefix, path)?;
    Some(if of_last_operation {
        Target::BindingOperation
    } else {
        Target::Binding
    })
}

/// What a target names, after the broker's prefix, whatever the method is and the ids are. The forms of the path are
/// those of [`read_request`](osb_wire::read_request), and the query counts for nothing. A broker that serves bindings
/// learns from it which call reads the request, and which methods the target has. Where it is none, both
/// [`read_request`](osb_wire::read_request) and [`read_binding_request`](crate::read_binding_request) refuse the request
/// with [`Refusal::NoSuchTarget`], whatever the method is. It takes no memory.
pub fn read_target(prefix: &str, target: &[u8]) -> Option<Target>
    ensures target { result ≡ places.target_in prefix.now ((split_once 63 target.now).0) }
    ensures no_instance { result ≡ None → (method : List ℕ)
        → instances.instance_asked prefix.now method target.now ≡ Err Refusal.NoSuchTarget }
    ensures no_binding { result ≡ None → (method : List ℕ)
        → bindings.place_asked prefix.now method target.now ≡ Err (BindingRefusal.Refused Refusal.NoSuchTarget) }
{
    if asks_for_catalogue(prefix, target) {
        return Some(Target::Catalogue);
    }
    let (path, _) = split_query(target);
    path_target(prefix, path)
}

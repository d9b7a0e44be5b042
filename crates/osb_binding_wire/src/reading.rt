//! The request of a binding that a broker takes from a method, a target and a body.
ghost use Rattle.std.specs.Prelude.{◌≡◌, ◌<◌, ◌⊎◌, Some, Ok, Err, IsOk, IfOk, IfErr, codes, length, option_map};
ghost use Rattle.std.specs.Prelude.{string_bytes};
ghost use Rattle.osb_wire.specs.JsonTexts.{json_in};
ghost use Rattle.osb_wire.specs.Paths as paths;
ghost use Rattle.osb_wire.specs.Requests.{body_read, service_text, plan_text, text_under};
ghost use Rattle.osb_wire.specs.Targets as targets;
ghost use Rattle.osb_binding_wire.specs.Asking as asking;
ghost use Rattle.osb_binding_wire.specs.Parts.{ArePartsOf};
ghost use Rattle.osb_binding_wire.specs.Places as places;
ghost use Rattle.osb_binding_wire.specs.Refusals as refusals;
ghost use Rattle.osb_binding_wire.specs.Requests as requests;

use crate::bind_body::read_bind;
use crate::place::{Place, Wanted, read_place, split_path};
use crate::{BindingAsked, BindingParts, BindingReceived, BindingRefusal, binding_parts};
use osb_binding::BindingId;
use osb_message::{InstanceId, Kind, Memory, PlanId, ServiceId};
use osb_wire::id_texts::LONGEST_ID;
use osb_wire::path_reading::segment_text;
use osb_wire::query_reading::{read_flag, read_id};
use osb_wire::request_reading::{read_deprovision, read_member, read_one, read_poll};
use osb_wire::target_reading::split_query;
use osb_wire::{Asked, Refusal};
use std::alloc::Global;

// A Bind, whose service and plan stand in its body.
fn read_bind_asked(
    alloc: Global,
    id: InstanceId,
    query: &[u8],
    body: &[u8],
) -> Result<Asked, Refusal>
    ensures ok { IfOk result (λ asked.
        requests.bind_asked id (targets.parameters_in query.now) body.now ≡ Ok asked) }
    ensures err { IfErr result (λ fault. (fault ≡ Refusal.Memory)
        ⊎ (requests.bind_asked id (targets.parameters_in query.now) body.now ≡ Err fault)) }
{
    let accepts_incomplete = read_flag(alloc, query)?;
    let (service, plan) = read_bind(alloc, body)?;
    Ok(Asked::Provision {
        id,
        service,
        plan,
        accepts_incomplete,
    })
}

// A request of this kind, under the binding's id.
fn read_life(
    alloc: Global,
    kind: Kind,
    id: InstanceId,
    query: &[u8],
    body: &[u8],
) -> Result<Asked, Refusal>
    ensures ok { IfOk result (λ asked.
        requests.life_asked kind id (targets.parameters_in query.now) body.now ≡ Ok asked) }
    ensures err { IfErr result (λ fault. (fault ≡ Refusal.Memory)
        ⊎ (requests.life_asked kind id (targets.parameters_in query.now) body.now ≡ Err fault)) }
{
    match kind {
        Kind::Provision => read_bind_asked(alloc, id, query, body),
        Kind::Poll => read_poll(alloc, id, query),
        Kind::Deprovision => read_deprovision(alloc, id, query),
    }
}

// A Fetch.
fn read_fetch(
    alloc: Global,
    instance: InstanceId,
    binding: BindingId,
    query: &[u8],
) -> Result<BindingAsked, Refusal>
    ensures ok { IfOk result (λ asked.
        requests.fetch_asked instance binding (targets.parameters_in query.now) ≡ Ok asked) }
    ensures err { IfErr result (λ fault. (fault ≡ Refusal.Memory)
        ⊎ (requests.fetch_asked instance binding (targets.parameters_in query.now) ≡ Err fault)) }
{
    let service: Option<ServiceId> = read_id(alloc, query, "service_id", Refusal::BadService)?;
    let plan: Option<PlanId> = read_id(alloc, query, "plan_id", Refusal::BadPlan)?;
    Ok(BindingAsked::Fetch {
        instance,
        binding,
        service,
        plan,
    })
}

// What is asked for at a binding.
fn read_asked(
    alloc: Global,
    place: Place,
    query: &[u8],
    body: &[u8],
) -> Result<BindingAsked, Refusal>
    ensures ok { IfOk result (λ asked.
        requests.asked_at (targets.parameters_in query.now) body.now place ≡ Ok asked) }
    ensures err { IfErr result (λ fault. (fault ≡ Refusal.Memory)
        ⊎ (requests.asked_at (targets.parameters_in query.now) body.now place ≡ Err fault)) }
{
    let instance = place.instance;
    match place.wanted {
        Wanted::Answer(kind) => {
            let id = InstanceId::from_value(place.binding.value());
            let asked = read_life(alloc, kind, id, query, body)?;
            Ok(BindingAsked::Request { instance, asked })
        }
        Wanted::Binding => read_fetch(alloc, instance, place.binding, query),
    }
}

// The text of a segment. It was read before, so where there is none a want of memory can be told.
fn own_text(alloc: Global, raw: &[u8]) -> Result<String, Memory>
    ensures text { IfOk result (λ text. Some (string_bytes text) ≡ paths.segment_text raw.now) }
{
    let mut buffer = [0u8; LONGEST_ID];
    match segment_text(raw, &mut buffer) {
        Some(text) => Ok(String::from_str(alloc, text)?),
        None => Err(Memory),
    }
}

// The texts of the instance's id and of the binding's. They were read before, as those of `own_text` were.
fn read_id_texts(alloc: Global, prefix: &str, path: &[u8]) -> Result<(String, String), Memory>
    ensures instance { IfOk result (λ texts. Some (string_bytes texts.0) ≡ places.instance_text prefix.now path.now) }
    ensures binding { IfOk result (λ texts. Some (string_bytes texts.1) ≡ places.binding_text prefix.now path.now) }
{
    let Some((instance, (binding, _))) = split_path(prefix, path) else {
        return Err(Memory);
    };
    let instance = own_text(alloc, instance)?;
    let binding = own_text(alloc, binding)?;
    Ok((instance, binding))
}

// The text under a name: of a Bind in the body, else in the query.
fn read_text(
    alloc: Global,
    kind: Kind,
    query: &[u8],
    body: &[u8],
    name: &str,
) -> Result<Option<String>, Memory>
    ensures text { IfOk result (λ text. option_map string_bytes text
        ≡ text_under name.now kind (targets.parameters_in query.now) body.now) }
{
    match kind {
        Kind::Provision => read_member(alloc, body, name),
        Kind::Poll | Kind::Deprovision => read_one(alloc, query, name),
    }
}

// The parts of a body that are read.
fn read_parts(alloc: Global, kind: Kind, body: &[u8]) -> Result<BindingParts, Memory>
    ensures parts { IfOk result (λ parts. ArePartsOf parts (json_in (body_read kind body.now))) }
{
    match kind {
        Kind::Provision => binding_parts(alloc, body),
        Kind::Poll | Kind::Deprovision => binding_parts(alloc, &[]),
    }
}

// What a broker takes from a request that asks this.
fn receive(
    alloc: Global,
    prefix: &str,
    asked: BindingAsked,
    path: &[u8],
    query: &[u8],
    body: &[u8],
) -> Result<BindingReceived, Memory>
    ensures asked { IfOk result (λ received. received.asked ≡ asked) }
    ensures instance { IfOk result (λ received.
        Some (string_bytes received.instance) ≡ places.instance_text prefix.now path.now) }
    ensures binding { IfOk result (λ received.
        Some (string_bytes received.binding) ≡ places.binding_text prefix.now path.now) }
    ensures service { IfOk result (λ received. option_map string_bytes received.service ≡ text_under
        (codes "service_id") (asking.kind_of asked) (targets.parameters_in query.now) body.now) }
    ensures plan { IfOk result (λ received. option_map string_bytes received.plan ≡ text_under
        (codes "plan_id") (asking.kind_of asked) (targets.parameters_in query.now) body.now) }
    ensures parts { IfOk result (λ received. ArePartsOf received.parts
        (json_in (body_read (asking.kind_of asked) body.now))) }
{
    let kind = asked.kind();
    let (instance, binding) = read_id_texts(alloc, prefix, path)?;
    let service = read_text(alloc, kind, query, body, "service_id")?;
    let plan = read_text(alloc, kind, query, body, "plan_id")?;
    let parts = read_parts(alloc, kind, body)?;
    Ok(BindingReceived {
        asked,
        instance,
        binding,
        service,
        plan,
        parts,
    })
}

/// What a request asks of a binding, from its method, its target (the path and the query, as the request line has them)
/// and all of its body. The prefix, the forms of the path, the ids and the longest body are those of
/// [`read_request`](osb_wire::read_request). Parameters and members that aren't named in the standard are passed over.
/// Sections Binding, Unbinding, Polling Last Operation for Service Bindings and Fetching a Service Binding.
///
/// # Errors
///
/// The first of these, in this order, which is this project's choice; nothing else is refused. All but the fourth are a
/// [`Refusal`] in a [`BindingRefusal::Refused`].
///
/// - [`Refusal::NoSuchTarget`] where the path isn't the prefix, `/v2/service_instances/`, an id, `/service_bindings/`, an
///   id, and nothing or `/last_operation`.
/// - [`Refusal::NoSuchMethod`] where the method isn't `PUT`, `DELETE` or `GET`, or of the last operation `GET`.
/// - [`Refusal::BadInstance`] where the instance's id isn't UTF-8 of 1 to 255 bytes, or is `.` or `..`.
/// - [`BindingRefusal::BadBinding`] where the binding's id isn't.
/// - [`Refusal::TooLong`].
/// - Of the query: [`Refusal::Repeated`] and [`Refusal::BadService`] for `service_id`, [`Refusal::Repeated`] and
///   [`Refusal::BadPlan`] for `plan_id`, of a Poll and a Fetch where they are there, and of an Unbind, which must have
///   both; [`Refusal::Repeated`] and [`Refusal::BadAcceptsIncomplete`] for `accepts_incomplete`, but of a Fetch; of a
///   Poll, [`Refusal::Repeated`] for `operation`.
/// - Of the body of a Bind: [`Refusal::NotAnObject`], [`Refusal::BadService`], [`Refusal::BadPlan`].
///
/// [`Refusal::Memory`] where an allocation failed, which the query, the body and the texts alone ask for: the first five
/// come whatever memory there is. The same call may be made again.
pub fn read_binding_request(
    alloc: Global,
    prefix: &str,
    longest_body: usize,
    method: &str,
    target: &[u8],
    body: &[u8],
) -> Result<BindingReceived, BindingRefusal>
    ensures ok { IfOk result (λ received.
        requests.request_in prefix.now longest_body method.now target.now body.now ≡ Ok received.asked) }
    ensures instance_text { IfOk result (λ received.
        Some (string_bytes received.instance) ≡ requests.instance_text_in prefix.now target.now) }
    ensures binding_text { IfOk result (λ received.
        Some (string_bytes received.binding) ≡ requests.binding_text_in prefix.now target.now) }
    ensures service_text { IfOk result (λ received. option_map string_bytes received.service
        ≡ service_text (asking.kind_of received.asked) target.now body.now) }
    ensures plan_text { IfOk result (λ received. option_map string_bytes received.plan
        ≡ plan_text (asking.kind_of received.asked) target.now body.now) }
    ensures parts { IfOk result (λ received. ArePartsOf received.parts
        (json_in (body_read (asking.kind_of received.asked) body.now))) }

    ensures err { IfErr result (λ fault. (fault ≡ BindingRefusal.Refused Refusal.Memory)
        ⊎ (requests.request_in prefix.now longest_body method.now target.now body.now ≡ Err fault)) }
    ensures place { (fault : BindingRefusal) → requests.place_asked prefix.now method.now target.now ≡ Err fault
        → result ≡ Err fault }
    ensures too_long { IsOk (requests.place_asked prefix.now method.now target.now)
        → longest_body < length body.now → result ≡ Err (BindingRefusal.Refused Refusal.TooLong) }
{
    let (path, query) = split_query(target);
    let place = match read_place(prefix, method, path) {
        Ok(place) => place,
        Err(fault) => return Err(fault),
    };
    if body.len() > longest_body {
        return Err(BindingRefusal::Refused(Refusal::TooLong));
    }
    let asked = match read_asked(alloc, place, query, body) {
        Ok(asked) => asked,
        Err(fault) => return Err(BindingRefusal::Refused(fault)),
    };
    match receive(alloc, prefix, asked, path, query, body) {
        Ok(received) => Ok(received),
        Err(Memory) => Err(BindingRefusal::Refused(Refusal::Memory)),
    }
}

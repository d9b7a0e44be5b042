//! The Update or the Fetch that a broker takes from a method, a target and a body.
ghost use Rattle.std.specs.Prelude.{◌≡◌, ◌<◌, ◌⊎◌, Some, Ok, Err, IsOk, IfOk, IfErr, codes, length, option_map};
ghost use Rattle.std.specs.Prelude.{string_bytes};
ghost use Rattle.osb_wire.specs.JsonTexts.{json_in};
ghost use Rattle.osb_wire.specs.Requests.{instance_text_in};
ghost use Rattle.osb_wire.specs.Targets as targets;
ghost use Rattle.osb_update_wire.specs.Parts as parts;
ghost use Rattle.osb_update_wire.specs.Requests as requests;

use crate::patch::{read_member, read_patch};
use crate::place::{Wanted, read_place, split_path};
use crate::{UpdateAsked, UpdateParts, UpdateReceived, UpdateRefusal, update_parts};
use osb_message::{InstanceId, Memory, PlanId, ServiceId};
use osb_wire::Refusal;
use osb_wire::id_texts::LONGEST_ID;
use osb_wire::path_reading::segment_text;
use osb_wire::query_reading::{read_flag, read_id};
use osb_wire::request_reading::read_one;
use osb_wire::target_reading::split_query;
use std::alloc::Global;

// An Update, whose settings stand in its body.
fn read_update(
    alloc: Global,
    id: InstanceId,
    query: &[u8],
    body: &[u8],
) -> Result<UpdateAsked, UpdateRefusal>
    ensures ok { IfOk result (λ asked.
        requests.update_asked id (targets.parameters_in query.now) body.now ≡ Ok asked) }
    ensures err { IfErr result (λ fault. (fault ≡ UpdateRefusal.Refused Refusal.Memory)
        ⊎ (requests.update_asked id (targets.parameters_in query.now) body.now ≡ Err fault)) }
{
    let accepts_incomplete = match read_flag(alloc, query) {
        Ok(accepts_incomplete) => accepts_incomplete,
        Err(fault) => return Err(UpdateRefusal::Refused(fault)),
    };
    match read_patch(alloc, body, accepts_incomplete) {
        Ok(update) => Ok(UpdateAsked::Update { id, update }),
        Err(fault) => Err(fault),
    }
}

// A Fetch.
fn read_fetch(alloc: Global, id: InstanceId, query: &[u8]) -> Result<UpdateAsked, Refusal>
    ensures ok { IfOk result (λ asked. requests.fetch_asked id (targets.parameters_in query.now) ≡ Ok asked) }
    ensures err { IfErr result (λ fault. (fault ≡ Refusal.Memory)
        ⊎ (requests.fetch_asked id (targets.parameters_in query.now) ≡ Err fault)) }
{
    let service: Option<ServiceId> = read_id(alloc, query, "service_id", Refusal::BadService)?;
    let plan: Option<PlanId> = read_id(alloc, query, "plan_id", Refusal::BadPlan)?;
    Ok(UpdateAsked::Fetch { id, service, plan })
}

// What is asked for at an instance.
fn read_asked(
    alloc: Global,
    wanted: Wanted,
    id: InstanceId,
    query: &[u8],
    body: &[u8],
) -> Result<UpdateAsked, UpdateRefusal>
    ensures ok { IfOk result (λ asked.
        requests.asked_for (targets.parameters_in query.now) body.now id wanted ≡ Ok asked) }
    ensures err { IfErr result (λ fault. (fault ≡ UpdateRefusal.Refused Refusal.Memory)
        ⊎ (requests.asked_for (targets.parameters_in query.now) body.now id wanted ≡ Err fault)) }
{
    match wanted {
        Wanted::Update => read_update(alloc, id, query, body),
        Wanted::Fetch => match read_fetch(alloc, id, query) {
            Ok(asked) => Ok(asked),
            Err(fault) => Err(UpdateRefusal::Refused(fault)),
        },
    }
}

// The text of the instance's id. It was read before, so if there is none a want of memory can be told.
fn read_instance_text(alloc: Global, prefix: &str, path: &[u8]) -> Result<String, Memory>
    ensures text { IfOk result (λ text. Some (string_bytes text) ≡ targets.instance_text prefix.now path.now) }
{
    let Some((segment, _)) = split_path(prefix, path) else {
        return Err(Memory);
    };
    let mut buffer = [0u8; LONGEST_ID];
    match segment_text(segment, &mut buffer) {
        Some(text) => Ok(String::from_str(alloc, text)?),
        None => Err(Memory),
    }
}

// The text under a name: of an Update in the body, else in the query.
fn read_text(
    alloc: Global,
    asked: &UpdateAsked,
    query: &[u8],
    body: &[u8],
    name: &str,
) -> Result<Option<String>, Memory>
    ensures text { IfOk result (λ text. option_map string_bytes text
        ≡ requests.text_under name.now asked.now (targets.parameters_in query.now) body.now) }
{
    match asked {
        UpdateAsked::Update { .. } => read_member(alloc, body, name),
        UpdateAsked::Fetch { .. } => read_one(alloc, query, name),
    }
}

// The parts of a body that are read.
fn read_parts(alloc: Global, asked: &UpdateAsked, body: &[u8]) -> Result<UpdateParts, Memory>
    ensures parts { IfOk result (λ found. parts.ArePartsOf found (parts.number_of asked.now)
        (json_in (parts.body_read asked.now body.now))) }
{
    match asked {
        UpdateAsked::Update { update, .. } => update_parts(alloc, body, update.number),
        UpdateAsked::Fetch { .. } => update_parts(alloc, &[], 0),
    }
}

// What a broker takes from a request that asks this.
fn receive(
    alloc: Global,
    prefix: &str,
    asked: &UpdateAsked,
    path: &[u8],
    query: &[u8],
    body: &[u8],
) -> Result<UpdateReceived, Memory>
    ensures asked { IfOk result (λ received. received.asked ≡ asked.now) }
    ensures instance { IfOk result (λ received.
        Some (string_bytes received.instance) ≡ targets.instance_text prefix.now path.now) }
    ensures service { IfOk result (λ received. option_map string_bytes received.service ≡ requests.text_under
        (codes "service_id") asked.now (targets.parameters_in query.now) body.now) }
    ensures plan { IfOk result (λ received. option_map string_bytes received.plan ≡ requests.text_under
        (codes "plan_id") asked.now (targets.parameters_in query.now) body.now) }
    ensures parts { IfOk result (λ received. parts.ArePartsOf received.parts (parts.number_of asked.now)
        (json_in (parts.body_read asked.now body.now))) }
{
    let instance = read_instance_text(alloc, prefix, path)?;
    let service = read_text(alloc, asked, query, body, "service_id")?;
    let plan = read_text(alloc, asked, query, body, "plan_id")?;
    let parts = read_parts(alloc, asked, body)?;
    Ok(UpdateReceived {
        asked: *asked,
        instance,
        service,
        plan,
        parts,
    })
}

/// The Update (`PATCH`) or the Fetch (`GET`) that a request of an instance is, from its method, its target (the path and
/// the query, as the request line has them) and all of its body. The prefix, the forms of the path and the texts of ids are
/// as those of [`read_request`](osb_wire::read_request). A body of more than `longest_body` bytes is rejected unread.
/// Parameters and members that aren't named here are passed over. Sections Updating a Service Instance and Fetching a
/// Service Instance.
///
/// What an Update doesn't name stays. It names the plan, the parameters and the version of the maintenance that stand in its
/// body. If an Update has no number, parameters that are an object with no members or `null` aren't named: platforms
/// without numbers send such parameters for none (this project's choice). An Update with a number names by them that the
/// instance is to have no parameters.
///
/// # Errors
///
/// The first of these, in this order, which is this project's choice; nothing else is rejected. All but
/// [`UpdateRefusal::BadNumber`] are a [`Refusal`] in an [`UpdateRefusal::Refused`].
///
/// - [`Refusal::NoSuchTarget`] if the path isn't the prefix, `/v2/service_instances/`, an id, and nothing or
///   `/last_operation`.
/// - [`Refusal::NoSuchMethod`] if the method isn't `PATCH` or `GET`, or if the path is that of the last operation.
/// - [`Refusal::BadInstance`] if the id isn't UTF-8 of 1 to 255 bytes, or is `.` or `..`.
/// - [`Refusal::TooLong`].
/// - Of the query of an Update: [`Refusal::Repeated`] and [`Refusal::BadAcceptsIncomplete`] for `accepts_incomplete`.
/// - Of the query of a Fetch: [`Refusal::Repeated`] and [`Refusal::BadService`] for `service_id`, [`Refusal::Repeated`]
///   and [`Refusal::BadPlan`] for `plan_id`.
/// - Of the body of an Update: [`Refusal::NotAnObject`], [`Refusal::BadService`], [`Refusal::BadPlan`],
///   [`UpdateRefusal::BadNumber`].
///
/// [`Refusal::Memory`] if an allocation failed, which the query, the body and the texts alone ask for: the first four come
/// whatever memory there is. The same call may be made again.
pub fn read_update_request(
    alloc: Global,
    prefix: &str,
    longest_body: usize,
    method: &str,
    target: &[u8],
    body: &[u8],
) -> Result<UpdateReceived, UpdateRefusal>
    ensures ok { IfOk result (λ received.
        requests.request_in prefix.now longest_body method.now target.now body.now ≡ Ok received.asked) }
    ensures instance_text { IfOk result (λ received.
        Some (string_bytes received.instance) ≡ instance_text_in prefix.now target.now) }
    ensures service_text { IfOk result (λ received. option_map string_bytes received.service
        ≡ requests.service_text received.asked target.now body.now) }
    ensures plan_text { IfOk result (λ received. option_map string_bytes received.plan
        ≡ requests.plan_text received.asked target.now body.now) }
    ensures parts { IfOk result (λ received. parts.ArePartsOf received.parts (parts.number_of received.asked)
        (json_in (parts.body_read received.asked body.now))) }

    ensures err { IfErr result (λ fault. (fault ≡ UpdateRefusal.Refused Refusal.Memory)
        ⊎ (requests.request_in prefix.now longest_body method.now target.now body.now ≡ Err fault)) }
    ensures place { (fault : UpdateRefusal) → requests.place_asked prefix.now method.now target.now ≡ Err fault
        → result ≡ Err fault }
    ensures too_long { IsOk (requests.place_asked prefix.now method.now target.now)
        → longest_body < length body.now → result ≡ Err (UpdateRefusal.Refused Refusal.TooLong) }
{
    let (path, query) = split_query(target);
    let (wanted, id) = match read_place(prefix, method, path) {
        Ok(place) => place,
        Err(fault) => return Err(UpdateRefusal::Refused(fault)),
    };
    if body.len() > longest_body {
        return Err(UpdateRefusal::Refused(Refusal::TooLong));
    }
    let asked = match read_asked(alloc, wanted, id, query, body) {
        Ok(asked) => asked,
        Err(fault) => return Err(fault),
    };
    match receive(alloc, prefix, &asked, path, query, body) {
        Ok(received) => Ok(received),
        Err(Memory) => Err(UpdateRefusal::Refused(Refusal::Memory)),
    }
}

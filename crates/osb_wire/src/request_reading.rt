//! The request that a broker takes from a method, a target and a body.
ghost use Rattle.std.specs.Prelude.{◌≡◌, ◌<◌, ◌⊎◌, Some, Ok, Err, IsOk, IfOk, IfErr, codes, length, option_map};
ghost use Rattle.std.specs.Prelude.{option_and_then, string_bytes};
ghost use Rattle.std.specs.Cow.{cow_str_bytes};
ghost use Rattle.osb_json.specs.Members.{text_at};
ghost use Rattle.osb_wire.specs.Asking as asking;
ghost use Rattle.osb_wire.specs.Bodies.{object_in};
ghost use Rattle.osb_wire.specs.JsonTexts.{json_in};
ghost use Rattle.osb_wire.specs.Parts.{ArePartsOf};
ghost use Rattle.osb_wire.specs.Requests as requests;
ghost use Rattle.osb_wire.specs.Targets as targets;

use crate::id_texts::LONGEST_ID;
use crate::json_body::read_object;
use crate::path_reading::segment_text;
use crate::provision_reading::read_provision;
use crate::query_reading::{read_flag, read_id, read_needed_id, read_value};
use crate::target_reading::{read_instance, split_path, split_query};
use crate::{Asked, Parts, Received, Refusal, body_parts};
use osb_json::text_at;
use osb_message::{InstanceId, Kind, Memory, PlanId, ServiceId};
use std::alloc::Global;
use std::borrow::CowStr;

// A Provision, whose service and plan stand in its body.
fn read_provision_asked(
    alloc: Global,
    id: InstanceId,
    query: &[u8],
    body: &[u8],
) -> Result<Asked, Refusal>
    ensures ok { IfOk result (λ asked.
        requests.provision_asked id (targets.parameters_in query.now) body.now ≡ Ok asked) }
    ensures err { IfErr result (λ fault. (fault ≡ Refusal.Memory)
        ⊎ (requests.provision_asked id (targets.parameters_in query.now) body.now ≡ Err fault)) }
{
    let accepts_incomplete = read_flag(alloc, query)?;
    let (service, plan) = read_provision(alloc, body)?;
    Ok(Asked::Provision {
        id,
        service,
        plan,
        accepts_incomplete,
    })
}

/// A Poll, of the last operation on an instance with this id.
///
/// # Errors
///
/// As of [`read_request`], from the query on.
pub fn read_poll(alloc: Global, id: InstanceId, query: &[u8]) -> Result<Asked, Refusal>
    ensures ok { IfOk result (λ asked. requests.poll_asked id (targets.parameters_in query.now) ≡ Ok asked) }
    ensures err { IfErr result (λ fault. (fault ≡ Refusal.Memory)
        ⊎ (requests.poll_asked id (targets.parameters_in query.now) ≡ Err fault)) }
{
    let service: Option<ServiceId> = read_id(alloc, query, "service_id", Refusal::BadService)?;
    let plan: Option<PlanId> = read_id(alloc, query, "plan_id", Refusal::BadPlan)?;
    let accepts_incomplete = read_flag(alloc, query)?;
    let _operation = read_value(alloc, query, "operation")?;
    Ok(Asked::Poll {
        id,
        service,
        plan,
        accepts_incomplete,
    })
}

/// A Deprovision, of an instance with this id.
///
/// # Errors
///
/// As of [`read_request`], from the query on.
pub fn read_deprovision(alloc: Global, id: InstanceId, query: &[u8]) -> Result<Asked, Refusal>
    ensures ok { IfOk result (λ asked. requests.deprovision_asked id (targets.parameters_in query.now) ≡ Ok asked) }
    ensures err { IfErr result (λ fault. (fault ≡ Refusal.Memory)
        ⊎ (requests.deprovision_asked id (targets.parameters_in query.now) ≡ Err fault)) }
{
    let service: ServiceId = read_needed_id(alloc, query, "service_id", Refusal::BadService)?;
    let plan: PlanId = read_needed_id(alloc, query, "plan_id", Refusal::BadPlan)?;
    let accepts_incomplete = read_flag(alloc, query)?;
    Ok(Asked::Deprovision {
        id,
        service,
        plan,
        accepts_incomplete,
    })
}

// What is asked for at an instance.
fn read_asked(
    alloc: Global,
    kind: Kind,
    id: InstanceId,
    query: &[u8],
    body: &[u8],
) -> Result<Asked, Refusal>
    ensures ok { IfOk result (λ asked.
        requests.asked_at (targets.parameters_in query.now) body.now (kind, id) ≡ Ok asked) }
    ensures err { IfErr result (λ fault. (fault ≡ Refusal.Memory)
        ⊎ (requests.asked_at (targets.parameters_in query.now) body.now (kind, id) ≡ Err fault)) }
{
    match kind {
        Kind::Provision => read_provision_asked(alloc, id, query, body),
        Kind::Poll => read_poll(alloc, id, query),
        Kind::Deprovision => read_deprovision(alloc, id, query),
    }
}

// The text of the instance's id. It was read before, so where there is none a want of memory can be told.
fn read_instance_text(alloc: Global, prefix: &str, path: &[u8]) -> Result<String, Memory>
    ensures text { IfOk result (λ text. Some (string_bytes text) ≡ targets.instance_text prefix.now path.now) }
{
    let Some((raw, _)) = split_path(prefix, path) else {
        return Err(Memory);
    };
    let mut buffer = [0u8; LONGEST_ID];
    match segment_text(raw, &mut buffer) {
        Some(text) => Ok(String::from_str(alloc, text)?),
        None => Err(Memory),
    }
}

/// The one value that a parameter has, if it has one.
///
/// # Errors
///
/// [`Memory`] where an allocation failed. The same call may be made again.
pub fn read_one(alloc: Global, query: &[u8], name: &str) -> Result<Option<String>, Memory>
    ensures text { IfOk result (λ text. option_map string_bytes text
        ≡ requests.if_one (targets.value_in name.now (targets.parameters_in query.now))) }
{
    match read_value(alloc, query, name) {
        Ok(Some(text)) => Ok(Some(String::from_str(alloc, text.as_str())?)),
        Ok(None) => Ok(None),
        Err(Refusal::Memory) => Err(Memory),
        Err(_) => Ok(None),
    }
}

/// The text under a name in a body that is an object.
///
/// # Errors
///
/// [`Memory`] where an allocation failed. The same call may be made again.
pub fn read_member(alloc: Global, body: &[u8], name: &str) -> Result<Option<String>, Memory>
    ensures text { IfOk result (λ text. option_map string_bytes text
        ≡ option_and_then (text_at name.now) (object_in body.now)) }
{
    let Some(object) = read_object(alloc, body)? else {
        return Ok(None);
    };
    match text_at(&object, name) {
        Some(text) => Ok(Some(String::from_str(alloc, text)?)),
        None => Ok(None),
    }
}

// The text under a name: of a Provision in the body, else in the query.
fn read_text(
    alloc: Global,
    kind: Kind,
    query: &[u8],
    body: &[u8],
    name: &str,
) -> Result<Option<String>, Memory>
    ensures text { IfOk result (λ text. option_map string_bytes text
        ≡ requests.text_under name.now kind (targets.parameters_in query.now) body.now) }
{
    match kind {
        Kind::Provision => read_member(alloc, body, name),
        Kind::Poll | Kind::Deprovision => read_one(alloc, query, name),
    }
}

// The parts of a body that are read.
fn read_parts(alloc: Global, kind: Kind, body: &[u8]) -> Result<Parts, Memory>
    ensures parts { IfOk result (λ parts. ArePartsOf parts (json_in (requests.body_read kind body.now))) }
{
    match kind {
        Kind::Provision => body_parts(alloc, body),
        Kind::Poll | Kind::Deprovision => body_parts(alloc, &[]),
    }
}

// What a broker takes from a request that asks this.
fn receive(
    alloc: Global,
    prefix: &str,
    asked: Asked,
    path: &[u8],
    query: &[u8],
    body: &[u8],
) -> Result<Received, Memory>
    ensures asked { IfOk result (λ received. received.asked ≡ asked) }
    ensures instance { IfOk result (λ received.
        Some (string_bytes received.instance) ≡ targets.instance_text prefix.now path.now) }
    ensures service { IfOk result (λ received. option_map string_bytes received.service ≡ requests.text_under
        (codes "service_id") (asking.kind_of asked) (targets.parameters_in query.now) body.now) }
    ensures plan { IfOk result (λ received. option_map string_bytes received.plan ≡ requests.text_under
        (codes "plan_id") (asking.kind_of asked) (targets.parameters_in query.now) body.now) }
    ensures parts { IfOk result (λ received. ArePartsOf received.parts
        (json_in (requests.body_read (asking.kind_of asked) body.now))) }
{
    let kind = asked.kind();
    let instance = read_instance_text(alloc, prefix, path)?;
    let service = read_text(alloc, kind, query, body, "service_id")?;
    let plan = read_text(alloc, kind, query, body, "plan_id")?;
    let parts = read_parts(alloc, kind, body)?;
    Ok(Received {
        asked,
        instance,
        service,
        plan,
        parts,
    })
}

/// What a request asks of a broker, from its method, its target (the path and the query, as the request
/// line has them) and all of its body. The path begins with the prefix, which is empty or what the
/// broker's own URL has before `/v2`, and is not decoded; the id and the parameters are. A body of more than
/// `longest_body` bytes is rejected unread. Sections Provisioning, Polling Last Operation and
/// Deprovisioning of the standard; parameters and members that aren't named there are passed over.
///
/// The path may be in absolute form, as `http://host/path`, may have several slashes at its front and one at its end.
/// The id in it is decoded. Ids are any texts of 1 to 255 bytes of UTF-8: [`id_of_text`](crate::id_of_text) says which
/// number each has. The texts are returned beside the numbers, and the parts of a Provision's body with them.
///
/// # Errors
///
/// The first of these, in this order, which is this project's choice; nothing else is refused.
///
/// - [`Refusal::NoSuchTarget`] where the path isn't the prefix, `/v2/service_instances/`, an id, and
///   nothing or `/last_operation`.
/// - [`Refusal::NoSuchMethod`] where the method isn't `PUT` or `DELETE`, or of the last operation `GET`.
/// - [`Refusal::BadInstance`] where the id isn't UTF-8 of 1 to 255 bytes, or is `.` or `..`.
/// - [`Refusal::TooLong`].
/// - Of the query: [`Refusal::Repeated`] and [`Refusal::BadService`] for `service_id`,
///   [`Refusal::Repeated`] and [`Refusal::BadPlan`] for `plan_id`, of a Poll where they are there, and of a
///   Deprovision, which must have both; [`Refusal::Repeated`] and [`Refusal::BadAcceptsIncomplete`] for
///   `accepts_incomplete`; of a Poll, [`Refusal::Repeated`] for `operation`.
/// - Of the body of a Provision: [`Refusal::NotAnObject`], [`Refusal::BadService`], [`Refusal::BadPlan`],
///   [`Refusal::BadOrganization`], [`Refusal::BadSpace`].
///
/// [`Refusal::Memory`] where an allocation failed, which the query, the body and the texts alone ask for: the first four
/// come whatever memory there is. The same call may be made again.
pub fn read_request(
    alloc: Global,
    prefix: &str,
    longest_body: usize,
    method: &str,
    target: &[u8],
    body: &[u8],
) -> Result<Received, Refusal>
    ensures ok { IfOk result (λ received.
        requests.request_in prefix.now longest_body method.now target.now body.now ≡ Ok received.asked) }
    ensures instance_text { IfOk result (λ received.
        Some (string_bytes received.instance) ≡ requests.instance_text_in prefix.now target.now) }
    ensures service_text { IfOk result (λ received. option_map string_bytes received.service
        ≡ requests.service_text (asking.kind_of received.asked) target.now body.now) }
    ensures plan_text { IfOk result (λ received. option_map string_bytes received.plan
        ≡ requests.plan_text (asking.kind_of received.asked) target.now body.now) }
    ensures parts { IfOk result (λ received. ArePartsOf received.parts
        (json_in (requests.body_read (asking.kind_of received.asked) body.now))) }

    ensures err { IfErr result (λ fault. (fault ≡ Refusal.Memory)
        ⊎ (requests.request_in prefix.now longest_body method.now target.now body.now ≡ Err fault)) }
    ensures instance { (fault : Refusal) → requests.instance_asked prefix.now method.now target.now ≡ Err fault
        → result ≡ Err fault }
    ensures too_long { IsOk (requests.instance_asked prefix.now method.now target.now)
        → longest_body < length body.now → result ≡ Err Refusal.TooLong }
{
    let (path, query) = split_query(target);
    let (kind, id) = match read_instance(prefix, method, path) {
        Ok(place) => place,
        Err(fault) => return Err(fault),
    };
    if body.len() > longest_body {
        return Err(Refusal::TooLong);
    }
    let asked = match read_asked(alloc, kind, id, query, body) {
        Ok(asked) => asked,
        Err(fault) => return Err(fault),
    };
    match receive(alloc, prefix, asked, path, query, body) {
        Ok(received) => Ok(received),
        Err(Memory) => Err(Refusal::Memory),
    }
}

/// The operation that the target of a Poll names, which is what the broker named it in its answer; none
/// where it names none (section Polling Last Operation for Service Instances).
///
/// # Errors
///
/// [`Refusal::Repeated`] where the parameter stands twice, and [`Refusal::Memory`] where an allocation
/// failed. The same call may be made again.
pub fn asked_operation<'t>(alloc: Global, target: &'t [u8]) -> Result<Option<CowStr<'t>>, Refusal>
    ensures ok { IfOk result (λ found. targets.operation_asked target.now
        ≡ Ok (option_map cow_str_bytes found)) }
    ensures err { IfErr result (λ fault. (fault ≡ Refusal.Memory)
        ⊎ (targets.operation_asked target.now ≡ Err fault)) }
{
    let (_, query) = split_query(target);
    read_value(alloc, query, "operation")
}

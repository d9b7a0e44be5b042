//! The Update and the Fetch that a platform sends.
ghost use Rattle.std.specs.Prelude.{◌≡◌, ◌≢◌, ◌≤◌, ◌⊎◌, ℕ, All, [], Some, Ok, Err, IfOk, IfErr, codes, length, string_bytes};
ghost use Rattle.osb_wire.specs.Names as ids;
ghost use Rattle.osb_wire.specs.Requests.{instance_text_in};
ghost use Rattle.osb_wire.specs.Targets as targets;
ghost use Rattle.osb_update_wire.specs.Requests as requests;
ghost use Rattle.osb_update_wire.specs.Said as said;
ghost use Rattle.osb_update_wire.specs.Targets as written;
ghost use Rattle.osb_update_wire.specs.Texts as naming;
ghost use Rattle.osb_update_wire.specs.declared.asked.UpdateAsked.{UpdateAsked};

use crate::said::{Texts, write_said};
use crate::texts::{instance_named, update_named};
use crate::{TextFault, UpdateTexts};
use osb_message::{InstanceId, Kind, Memory, PlanId, Request, ServiceId};
use osb_update::Update;
use osb_wire::target_writing::{check_names, write_instance_path, write_query};
use osb_wire::{Names, id_of_text};
use std::alloc::Global;

/// The method of an Update (section Updating a Service Instance).
pub const UPDATE_METHOD: &str = "PATCH";

/// The method of a Fetch (section Fetching a Service Instance).
pub const FETCH_METHOD: &str = "GET";

/// An Update as it is sent with the method [`UPDATE_METHOD`], and what it asks for.
#[derive(Drop)]
pub struct WrittenUpdate {
    /// The instance.
    pub id: InstanceId,
    /// The Update, as a broker reads it. It is what [`UpdateRecord`](osb_update::UpdateRecord) asked for if its `change` is
    /// that of the record's request: compare them before it is sent.
    pub update: Update,
    /// The target: the path and the query.
    pub target: String,
    /// The body.
    pub body: String,
}

// The target of a request of an instance.
fn write_target(
    alloc: Global,
    prefix: &str,
    request: &Request,
    names: &Names,
) -> Result<String, Memory>
    ensures text { IfOk result (λ text. string_bytes text
        ≡ written.target_of prefix.now request.now (ids.texts_of names.now)) }
    ensures utf8 { targets.AreUtf8 (ids.texts_of names.now) }
{
    check_names(names);
    let path = write_instance_path(alloc, prefix, names.instance)?;
    let query = write_query(alloc, request, names, None)?;
    if query.is_empty() {
        return Ok(path);
    }
    let target = format!(in alloc; "{path}?{query}")?;
    Ok(target)
}

// The request whose query is that of this kind.
fn request_by(kind: Kind, accepts_incomplete: bool) -> Request
    ensures request { result ≡ written.request_of kind accepts_incomplete }
{
    Request {
        kind,
        id: InstanceId::from_value(0),
        service: ServiceId::from_value(0),
        plan: PlanId::from_value(0),
        accepts_incomplete,
    }
}

// The target of an Update.
fn update_target(
    alloc: Global,
    prefix: &str,
    instance: &str,
    accepts_incomplete: bool,
) -> Result<String, Memory>
    ensures text { IfOk result (λ text. string_bytes text
        ≡ written.update_target prefix.now instance.now accepts_incomplete) }
    ensures utf8 { targets.AreUtf8 (written.instance_texts instance.now) }
{
    let request = request_by(Kind::Provision, accepts_incomplete);
    let names = Names {
        instance,
        service: "",
        plan: "",
    };
    match write_target(alloc, prefix, &request, &names) {
        Ok(text) => Ok(text),
        Err(Memory) => Err(Memory),
    }
}

// The body of an Update.
fn update_body(alloc: Global, texts: &UpdateTexts<'_>, number: u64) -> Result<String, Memory>
    ensures text { IfOk result (λ text. string_bytes text
        ≡ said.said_text (naming.said_of (naming.texts_of texts.now) number)) }
{
    let said = Texts {
        context: texts.context,
        dashboard_url: None,
        version: texts.version,
        metadata: None,
        parameters: texts.parameters,
        plan: texts.plan,
        service: texts.service,
        number,
    };
    match write_said(alloc, &said) {
        Ok(text) => Ok(text),
        Err(Memory) => Err(Memory),
    }
}

/// The Update that texts name, with a number, or without one if it is 0, as it is sent (section Updating a Service
/// Instance). The prefix is what the broker's URL has before `/v2`, with no `?`. The body is an object of what the texts
/// name, with no spaces, and of the member `x-osb-update` (this project's choice).
///
/// [`read_update_request`](crate::read_update_request) with the same prefix returns this instance and this Update from it,
/// if the object nests at most 128 deep.
///
/// # Errors
///
/// The first of [`TextFault::BadInstance`], [`TextFault::BadService`], [`TextFault::BadPlan`],
/// [`TextFault::BadParameters`] and [`TextFault::BadContext`] that fits, and [`TextFault::Memory`] if an allocation failed.
/// The same call may be made again.
pub fn write_update(
    alloc: Global,
    prefix: &str,
    texts: &UpdateTexts<'_>,
    number: u64,
    accepts_incomplete: bool,
) -> Result<WrittenUpdate, TextFault>
    ensures named { IfOk result (λ sent.
        naming.Names (naming.texts_of texts.now) number accepts_incomplete sent.id sent.update) }
    ensures target { IfOk result (λ sent. string_bytes sent.target
        ≡ written.update_target prefix.now texts.now.instance.now accepts_incomplete) }
    ensures body { IfOk result (λ sent. string_bytes sent.body
        ≡ said.said_text (naming.said_of (naming.texts_of texts.now) number)) }
    ensures back { (longest : ℕ) → All (λ b. b ≢ 63) prefix.now
        → said.CanBeRead (naming.said_of (naming.texts_of texts.now) number)
        → IfOk result (λ sent. length (string_bytes sent.body) ≤ longest
        → requests.request_in prefix.now longest (codes "PATCH") (string_bytes sent.target) (string_bytes sent.body)
        ≡ Ok (UpdateAsked.Update sent.id sent.update)) }
    ensures instance { All (λ b. b ≢ 63) prefix.now → IfOk result (λ sent.
        instance_text_in prefix.now (string_bytes sent.target) ≡ Some texts.now.instance.now) }

    ensures fault { IfErr result (λ fault. (fault ≡ TextFault.Memory)
        ⊎ (naming.first_fault (naming.texts_of texts.now) number ≡ Some fault)) }
{
    let (id, update) = match update_named(alloc, texts, number, accepts_incomplete) {
        Ok(named) => named,
        Err(fault) => return Err(fault),
    };
    let Ok(target) = update_target(alloc, prefix, texts.instance, accepts_incomplete) else {
        return Err(TextFault::Memory);
    };
    match update_body(alloc, texts, number) {
        Ok(body) => Ok(WrittenUpdate {
            id,
            update,
            target,
            body,
        }),
        Err(Memory) => Err(TextFault::Memory),
    }
}

// Whether texts name ids, and which instance.
fn fetch_named(names: &Names) -> Result<(InstanceId, ServiceId, PlanId), TextFault>
    ensures named { IfOk result (λ named. naming.NamesFetch (ids.texts_of names.now) named.0 named.1 named.2) }
    ensures fault { IfErr result (λ fault. naming.first_fetch_fault (ids.texts_of names.now) ≡ Some fault) }
{
    let Some(id) = instance_named(names.instance) else {
        return Err(TextFault::BadInstance);
    };
    let Some(service) = id_of_text(names.service) else {
        return Err(TextFault::BadService);
    };
    match id_of_text(names.plan) {
        Some(plan) => Ok((id, service, plan)),
        None => Err(TextFault::BadPlan),
    }
}

/// The target of a Fetch of an instance, which is sent with the method [`FETCH_METHOD`] and no body and names the service
/// and the plan (section Fetching a Service Instance). The prefix is as that of [`write_update`].
/// [`read_update_request`](crate::read_update_request) with the same prefix returns the ids from it.
///
/// # Errors
///
/// The first of [`TextFault::BadInstance`], [`TextFault::BadService`] and [`TextFault::BadPlan`] that fits, whatever memory
/// there is; else [`TextFault::Memory`] if an allocation failed. The same call may be made again.
pub fn write_fetch(alloc: Global, prefix: &str, names: &Names) -> Result<String, TextFault>
    ensures target { IfOk result (λ text. string_bytes text
        ≡ written.fetch_target prefix.now (ids.texts_of names.now)) }
    ensures back { (longest id service plan : ℕ) → All (λ b. b ≢ 63) prefix.now
        → naming.NamesFetch (ids.texts_of names.now) id service plan
        → IfOk result (λ text. requests.request_in prefix.now longest (codes "GET") (string_bytes text) []
        ≡ Ok (UpdateAsked.Fetch id (Some service) (Some plan))) }

    ensures rejected { (fault : TextFault) → naming.first_fetch_fault (ids.texts_of names.now) ≡ Some fault
        → result ≡ Err fault }
    ensures fault { IfErr result (λ fault. (fault ≡ TextFault.Memory)
        ⊎ (naming.first_fetch_fault (ids.texts_of names.now) ≡ Some fault)) }
{
    match fetch_named(names) {
        Ok(_) => {}
        Err(fault) => return Err(fault),
    }
    let request = request_by(Kind::Poll, false);
    match write_target(alloc, prefix, &request, names) {
        Ok(target) => Ok(target),
        Err(Memory) => Err(TextFault::Memory),
    }
}

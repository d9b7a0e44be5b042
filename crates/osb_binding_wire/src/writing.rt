//! The method, the target and the body of a binding's request.
ghost use Rattle.std.specs.Prelude.{◌≡◌, ◌≢◌, ◌≤◌, ◌⊎◌, ◌++◌, ℕ, All, List, [], Option, Some, None, Ok, Err, IfOk, IfErr, OnOk};
ghost use Rattle.std.specs.Prelude.{codes, option_map, option_and_then, length, string_bytes};
ghost use Rattle.serde_json.specs.Data.{object, depth};
ghost use Rattle.serde_json.specs.Find.{get, get_member};
ghost use Rattle.serde_json.specs.Read.{read, max_depth};
ghost use Rattle.serde_json.specs.View.{members_view};
ghost use Rattle.serde_json.specs.Written.{IsInOrder};
ghost use Rattle.osb_json.specs.Members.{text_at};
ghost use Rattle.osb_message.specs.declared.messages.Kind.TheVariants as Kind;
ghost use Rattle.osb_wire.specs.Bodies.{object_in};
ghost use Rattle.osb_wire.specs.IdTexts.{number_of};
ghost use Rattle.osb_wire.specs.Paths as paths;
ghost use Rattle.osb_wire.specs.Requests.{service_text, plan_text};
ghost use Rattle.osb_wire.specs.Targets as targets;
ghost use Rattle.osb_binding_wire.specs.Asking as asking;
ghost use Rattle.osb_binding_wire.specs.Binds as binds;
ghost use Rattle.osb_binding_wire.specs.Names as naming;
ghost use Rattle.osb_binding_wire.specs.Requests as requests;
ghost use Rattle.osb_binding_wire.specs.Targets as written;

use crate::bind_body::write_bind;
use crate::names::{BindingNameFault, BindingNames, judge_names};
use osb_binding::BindingRequest;
use osb_message::{InstanceId, Kind, Memory, Request};
use osb_wire::path_reading::SEGMENT;
use osb_wire::target_writing::{check_text, write_instance_path, write_query};
use osb_wire::{Names, WrittenRequest, method_of};
use percent_encoding::percent_encode;
use serde_json::{Map, Value};
use std::alloc::{AllocError, Global};

// Adds the segment of the binding's id, and what follows it.
#[tactic(auto, using(std::proofs::Common::append_assoc))]
fn push_end(path: &mut String, binding: &str, of_last_operation: bool) -> Result<(), AllocError>
    ensures end { OnOk result (string_bytes path.new
        ≡ string_bytes path.old ++ written.end_of of_last_operation (paths.segment_of binding.now)) }
{
    percent_encode(binding.as_bytes(), SEGMENT).append_to(path)?;
    if of_last_operation {
        path.push_str("/last_operation")
    } else {
        Ok(())
    }
}

// The path of a binding, or of its last operation.
#[tactic(auto, using(std::proofs::Common::append_assoc))]
fn write_path(
    alloc: Global,
    prefix: &str,
    names: &BindingNames,
    of_last_operation: bool,
) -> Result<String, AllocError>
    ensures path { IfOk result (λ text. string_bytes text
        ≡ written.path_of prefix.now names.now.instance.now names.now.binding.now of_last_operation) }
{
    let mut path = write_instance_path(alloc, prefix, names.instance)?;
    path.push_str("/service_bindings/")?;
    push_end(&mut path, names.binding, of_last_operation)?;
    Ok(path)
}

// That the texts of ids are UTF-8, and bytes.
fn check_names(names: &BindingNames)
    ensures life { targets.AreUtf8 (naming.life_texts (naming.texts_of names.now)) }
    ensures instance { targets.IsTextIfAny (Some names.now.instance.now) }
{
    check_text(names.instance);
    check_text(names.binding);
    check_text(names.service);
    check_text(names.plan);
}

// The target, and that what it is made of are texts.
fn target_of(
    alloc: Global,
    prefix: &str,
    request: &Request,
    of_last_operation: bool,
    names: &BindingNames,
    operation: Option<&str>,
) -> Result<String, Memory>
    ensures text { IfOk result (λ text. string_bytes text ≡ written.target_of prefix.now request.now
        of_last_operation (naming.texts_of names.now) (option_map (λ text. text.now) operation.entry)) }
    ensures life { targets.AreUtf8 (naming.life_texts (naming.texts_of names.now)) }
    ensures instance { targets.IsTextIfAny (Some names.now.instance.now) }
    ensures operation { IfOk result (λ _.
        targets.IsTextIfAny (option_map (λ text. text.now) operation.entry)) }
{
    check_names(names);
    let path = write_path(alloc, prefix, names, of_last_operation)?;
    let life = Names {
        instance: names.binding,
        service: names.service,
        plan: names.plan,
    };
    let query = write_query(alloc, request, &life, operation)?;
    if query.is_empty() {
        return Ok(path);
    }
    let target = format!(in alloc; "{path}?{query}")?;
    Ok(target)
}

// Whether a request asks of the last operation.
fn is_poll(kind: Kind) -> bool
    ensures poll { result ≡ written.is_poll kind }
{
    match kind {
        Kind::Poll => true,
        Kind::Provision | Kind::Deprovision => false,
    }
}

/// The target of a Bind, an Unbind or a Poll of a binding's last operation: the path, and the query where it has one.
///
/// The prefix, the texts and the operation are as those of [`write_request`](osb_wire::write_request).
/// [`read_binding_request`](crate::read_binding_request) gives the request and the texts back from it and from
/// [`method_of`](osb_wire::method_of) its kind, whatever the body of a Bind is that names its service and its plan, as
/// [`write_binding_body`] writes one. [`asked_operation`](osb_wire::asked_operation) gives the operation back. Sections
/// Binding, Unbinding and Polling Last Operation for Service Bindings.
///
/// # Errors
///
/// Those of [`write_binding_request`]. The same call may be made again.
pub fn write_binding_target(
    alloc: Global,
    prefix: &str,
    request: &BindingRequest,
    names: &BindingNames,
    operation: Option<&str>,
) -> Result<String, BindingNameFault>
    ensures target { IfOk result (λ text. string_bytes text ≡ written.target_with prefix.now request.now
        (naming.texts_of names.now) (option_map (λ text. text.now) operation.entry)) }
    ensures named { OnOk result (naming.AreTextsOf request.now (naming.texts_of names.now)) }
    ensures back { (longest : ℕ) (body : List ℕ) → All (λ b. b ≢ 63) prefix.now → length body ≤ longest
        → binds.Names request.now.kind body request.now.service request.now.plan
        → IfOk result (λ text. requests.request_in prefix.now longest (targets.method_of request.now.kind)
        (string_bytes text) body ≡ Ok (asking.asked_of request.now)) }
    ensures instance { All (λ b. b ≢ 63) prefix.now → IfOk result (λ text.
        requests.instance_text_in prefix.now (string_bytes text) ≡ Some names.now.instance.now) }
    ensures binding { All (λ b. b ≢ 63) prefix.now → IfOk result (λ text.
        requests.binding_text_in prefix.now (string_bytes text) ≡ Some names.now.binding.now) }
    ensures texts { (body : List ℕ) → All (λ b. b ≢ 63) prefix.now → request.now.kind ≢ Kind.Provision
        → IfOk result (λ text. (service_text request.now.kind (string_bytes text) body ≡ Some names.now.service.now)
        × (plan_text request.now.kind (string_bytes text) body ≡ Some names.now.plan.now)) }
    ensures operation { All (λ b. b ≢ 63) prefix.now → IfOk result (λ text.
        targets.operation_asked (string_bytes text)
        ≡ Ok (option_map (λ text. text.now) operation.entry)) }

    ensures rejected { (fault : BindingNameFault)
        → naming.names_judged request.now (naming.texts_of names.now) ≡ Err fault → result ≡ Err fault }
    ensures err { IfErr result (λ fault. (fault ≡ BindingNameFault.Memory)
        ⊎ (naming.names_judged request.now (naming.texts_of names.now) ≡ Err fault)) }
{
    match judge_names(request, names) {
        Ok(()) => {}
        Err(fault) => return Err(fault),
    }
    let life = request.as_request();
    let of_last_operation = is_poll(request.kind);
    match target_of(alloc, prefix, &life, of_last_operation, names, operation) {
        Ok(target) => Ok(target),
        Err(Memory) => Err(BindingNameFault::Memory),
    }
}

/// The body of a request of the kind. It is, of a Bind, an object of `service_id`, `plan_id` and the further members,
/// as `bind_resource`, `parameters`, `context` or `predecessor_binding_id`, of which none stands in the place of those
/// two; else it is empty, and the further members are passed over. The texts of the instance and of the binding count
/// for nothing. [`write_binding_target`] says whether the others are the request's (section Binding).
///
/// # Errors
///
/// [`Memory`] where an allocation failed. The further members are gone then too.
pub fn write_binding_body(
    alloc: Global,
    kind: Kind,
    names: &BindingNames,
    further: Map<String, Value>,
) -> Result<String, Memory>
    ensures empty { kind ≢ Kind.Provision → IfOk result (λ text. string_bytes text ≡ []) }
    ensures back { kind ≡ Kind.Provision → (s p : ℕ) → number_of names.now.service.now ≡ Some s
        → number_of names.now.plan.now ≡ Some p
        → depth (object (members_view further.entries)) ≤ max_depth
        → IfOk result (λ text. binds.bind_in (string_bytes text) ≡ Ok (s, p)) }
    ensures texts { kind ≡ Kind.Provision
        → depth (object (members_view further.entries)) ≤ max_depth → IfOk result (λ text.
        (option_and_then (text_at (codes "service_id")) (object_in (string_bytes text)) ≡ Some names.now.service.now)
        × (option_and_then (text_at (codes "plan_id")) (object_in (string_bytes text)) ≡ Some names.now.plan.now)) }
    ensures object { kind ≡ Kind.Provision
        → depth (object (members_view further.entries)) ≤ max_depth
        → IfOk result (λ text. read (string_bytes text) ≡ Some (object (binds.members_with
        names.now.service.now names.now.plan.now (members_view further.entries)))) }
    ensures kept { kind ≡ Kind.Provision → (name : List ℕ) → binds.IsFurther name
        → depth (object (members_view further.entries)) ≤ max_depth
        → IfOk result (λ text. option_and_then (get name) (read (string_bytes text))
        ≡ get_member name (members_view further.entries)) }
    ensures order { kind ≡ Kind.Provision → IfOk result (λ text. IsInOrder (string_bytes text)
        (object (binds.members_with names.now.service.now names.now.plan.now (members_view further.entries)))) }
{
    match kind {
        Kind::Provision => write_bind(alloc, names.service, names.plan, further),
        Kind::Poll | Kind::Deprovision => Ok(String::new(alloc)),
    }
}

/// The method, the target and the body of a Bind, an Unbind or a Poll of a binding's last operation.
///
/// The prefix, the texts and the operation are as those of [`write_request`](osb_wire::write_request). A Bind has a
/// body: an object of `service_id`, `plan_id` and the further members, as `bind_resource`, `parameters`, `context` or
/// `predecessor_binding_id`, of which none stands in the place of those two. In the other two kinds the body is empty,
/// and the further members are passed over.
///
/// [`read_binding_request`](crate::read_binding_request) with the same prefix gives this request and these texts back,
/// where the further members as an object nest at most 127 deep. Deeper ones are written all the same, each member once
/// and in order, and rejected by the broker that reads them. Sections Binding, Unbinding and Polling Last Operation for
/// Service Bindings.
///
/// # Errors
///
/// [`BindingNameFault::BadInstance`], [`BindingNameFault::BadBinding`], [`BindingNameFault::BadService`] or
/// [`BindingNameFault::BadPlan`], the first that fits, for a text that isn't the request's, whatever memory there is;
/// else [`BindingNameFault::Memory`] where an allocation failed. The further members are gone then too.
pub fn write_binding_request(
    alloc: Global,
    prefix: &str,
    request: &BindingRequest,
    names: &BindingNames,
    operation: Option<&str>,
    further: Map<String, Value>,
) -> Result<WrittenRequest, BindingNameFault>
    ensures method { IfOk result (λ sent. sent.method.now ≡ targets.method_of request.now.kind) }
    ensures target { IfOk result (λ sent. string_bytes sent.target ≡ written.target_with prefix.now request.now
        (naming.texts_of names.now) (option_map (λ text. text.now) operation.entry)) }
    ensures named { OnOk result (naming.AreTextsOf request.now (naming.texts_of names.now)) }
    ensures empty { request.now.kind ≢ Kind.Provision → IfOk result (λ sent. string_bytes sent.body ≡ []) }
    ensures object { request.now.kind ≡ Kind.Provision
        → depth (object (members_view further.entries)) ≤ max_depth
        → IfOk result (λ sent. read (string_bytes sent.body) ≡ Some (object (binds.members_with
        names.now.service.now names.now.plan.now (members_view further.entries)))) }
    ensures kept { request.now.kind ≡ Kind.Provision → (name : List ℕ) → binds.IsFurther name
        → depth (object (members_view further.entries)) ≤ max_depth
        → IfOk result (λ sent. option_and_then (get name) (read (string_bytes sent.body))
        ≡ get_member name (members_view further.entries)) }
    ensures order { request.now.kind ≡ Kind.Provision → IfOk result (λ sent. IsInOrder (string_bytes sent.body)
        (object (binds.members_with names.now.service.now names.now.plan.now (members_view further.entries)))) }
    ensures back { (longest : ℕ) → All (λ b. b ≢ 63) prefix.now
        → binds.CanBeRead request.now.kind (members_view further.entries)
        → IfOk result (λ sent. length (string_bytes sent.body) ≤ longest
        → requests.request_in prefix.now longest sent.method.now (string_bytes sent.target)
        (string_bytes sent.body) ≡ Ok (asking.asked_of request.now)) }
    ensures same { (held : Option (ℕ × ℕ))
        → asking.request_of (asking.asked_of request.now) held ≡ Some request.now }
    ensures instance { All (λ b. b ≢ 63) prefix.now → IfOk result (λ sent.
        requests.instance_text_in prefix.now (string_bytes sent.target) ≡ Some names.now.instance.now) }
    ensures binding { All (λ b. b ≢ 63) prefix.now → IfOk result (λ sent.
        requests.binding_text_in prefix.now (string_bytes sent.target) ≡ Some names.now.binding.now) }
    ensures texts { All (λ b. b ≢ 63) prefix.now
        → binds.CanBeRead request.now.kind (members_view further.entries)
        → IfOk result (λ sent. (service_text request.now.kind (string_bytes sent.target) (string_bytes sent.body)
        ≡ Some names.now.service.now)
        × (plan_text request.now.kind (string_bytes sent.target) (string_bytes sent.body)
        ≡ Some names.now.plan.now)) }
    ensures operation { All (λ b. b ≢ 63) prefix.now → IfOk result (λ sent.
        targets.operation_asked (string_bytes sent.target)
        ≡ Ok (option_map (λ text. text.now) operation.entry)) }

    ensures rejected { (fault : BindingNameFault)
        → naming.names_judged request.now (naming.texts_of names.now) ≡ Err fault → result ≡ Err fault }
    ensures err { IfErr result (λ fault. (fault ≡ BindingNameFault.Memory)
        ⊎ (naming.names_judged request.now (naming.texts_of names.now) ≡ Err fault)) }
{
    let target = match write_binding_target(alloc, prefix, request, names, operation) {
        Ok(target) => target,
        Err(fault) => return Err(fault),
    };
    let Ok(body) = write_binding_body(alloc, request.kind, names, further) else {
        return Err(BindingNameFault::Memory);
    };
    Ok(WrittenRequest {
        method: method_of(request.kind),
        target,
        body,
    })
}

/// The method, the target and the body of a Fetch of a request's binding, with its service and its plan in the query
/// (section Fetching a Service Binding). The kind of the request and `accepts_incomplete` are passed over. The prefix
/// and the texts are as those of [`write_binding_request`], and [`read_binding_request`](crate::read_binding_request)
/// with the same prefix gives the ids and their texts back.
///
/// # Errors
///
/// Those of [`write_binding_request`]. The same call may be made again.
pub fn write_fetch(
    alloc: Global,
    prefix: &str,
    request: &BindingRequest,
    names: &BindingNames,
) -> Result<WrittenRequest, BindingNameFault>
    ensures method { IfOk result (λ sent. sent.method.now ≡ codes "GET") }
    ensures target { IfOk result (λ sent. string_bytes sent.target
        ≡ written.fetch_target prefix.now request.now (naming.texts_of names.now)) }
    ensures body { IfOk result (λ sent. string_bytes sent.body ≡ []) }
    ensures named { OnOk result (naming.AreTextsOf request.now (naming.texts_of names.now)) }
    ensures back { (longest : ℕ) → All (λ b. b ≢ 63) prefix.now
        → IfOk result (λ sent. requests.request_in prefix.now longest sent.method.now (string_bytes sent.target)
        (string_bytes sent.body) ≡ Ok (asking.fetch_of request.now)) }
    ensures instance { All (λ b. b ≢ 63) prefix.now → IfOk result (λ sent.
        requests.instance_text_in prefix.now (string_bytes sent.target) ≡ Some names.now.instance.now) }
    ensures binding { All (λ b. b ≢ 63) prefix.now → IfOk result (λ sent.
        requests.binding_text_in prefix.now (string_bytes sent.target) ≡ Some names.now.binding.now) }
    ensures texts { (body : List ℕ) → All (λ b. b ≢ 63) prefix.now → IfOk result (λ sent.
        (service_text Kind.Poll (string_bytes sent.target) body ≡ Some names.now.service.now)
        × (plan_text Kind.Poll (string_bytes sent.target) body ≡ Some names.now.plan.now)) }
    ensures rejected { (fault : BindingNameFault)
        → naming.names_judged request.now (naming.texts_of names.now) ≡ Err fault → result ≡ Err fault }
    ensures err { IfErr result (λ fault. (fault ≡ BindingNameFault.Memory)
        ⊎ (naming.names_judged request.now (naming.texts_of names.now) ≡ Err fault)) }
{
    match judge_names(request, names) {
        Ok(()) => {}
        Err(fault) => return Err(fault),
    }
    let asked = Request {
        kind: Kind::Poll,
        id: InstanceId::from_value(request.binding.value()),
        service: request.service,
        plan: request.plan,
        accepts_incomplete: false,
    };
    let Ok(target) = target_of(alloc, prefix, &asked, false, names, None) else {
        return Err(BindingNameFault::Memory);
    };
    Ok(WrittenRequest {
        method: "GET",
        target,
        body: String::new(alloc),
    })
}

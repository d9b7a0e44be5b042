//! The method and the target of a request.
ghost use Rattle.std.specs.Prelude.{◌≡◌, ◌≢◌, ◌≤◌, ◌<◌, ◌⊎◌, ◌++◌, ℕ, All, List, IsUtf8, Some, Ok, Err, IfOk, IfErr, OnOk, option_map, length, string_bytes};
ghost use Rattle.form_urlencoded.specs.Form.{extend_pairs};
ghost use Rattle.osb_message.specs.declared.messages.Kind.TheVariants as Kind;
ghost use Rattle.osb_wire.specs.Asking as asking;
ghost use Rattle.osb_wire.specs.Names as naming;
ghost use Rattle.osb_wire.specs.Paths as paths;
ghost use Rattle.osb_wire.specs.Provisions as provisions;
ghost use Rattle.osb_wire.specs.Requests as requests;
ghost use Rattle.osb_wire.specs.Targets as targets;

use crate::names::{NameFault, Names, judge_names};
use crate::path_reading::SEGMENT;
use form_urlencoded::Serializer;
use osb_message::{Kind, Memory, Request};
use percent_encoding::percent_encode;
use std::alloc::{AllocError, Global};

/// The method of a request of this kind: `PUT`, `GET` or `DELETE` (sections Provisioning, Polling Last Operation
/// for Service Instances and Deprovisioning). It takes no memory.
pub fn method_of(kind: Kind) -> &'static str
    ensures method { result.now ≡ targets.method_of kind }
{
    match kind {
        Kind::Provision => "PUT",
        Kind::Poll => "GET",
        Kind::Deprovision => "DELETE",
    }
}

/// The path of an instance.
///
/// # Errors
///
/// [`AllocError`] where an allocation failed.
#[tactic(auto, using(std::proofs::Common::append_assoc))]
pub fn write_instance_path(
    alloc: Global,
    prefix: &str,
    instance: &str,
) -> Result<String, AllocError>
    ensures path { IfOk result (λ text. string_bytes text
        ≡ prefix.now ++ (targets.instances_path ++ paths.segment_of instance.now)) }
{
    let mut path = format!(in alloc; "{prefix}/v2/service_instances/")?;
    percent_encode(instance.as_bytes(), SEGMENT).append_to(&mut path)?;
    Ok(path)
}

// The path of a request.
#[tactic(auto, using(std::proofs::Common::append_assoc))]
fn write_path(alloc: Global, prefix: &str, kind: Kind, instance: &str) -> Result<String, AllocError>
    ensures path { IfOk result (λ text. string_bytes text ≡ targets.path_of prefix.now kind instance.now) }
{
    let mut path = write_instance_path(alloc, prefix, instance)?;
    match kind {
        Kind::Provision | Kind::Deprovision => Ok(path),
        Kind::Poll => {
            path.push_str("/last_operation")?;
            Ok(path)
        }
    }
}

/// Adds the service and the plan.
///
/// # Errors
///
/// [`AllocError`] where an allocation failed.
pub fn add_plan(form: &mut Serializer, names: &Names) -> Result<(), AllocError>
    ensures form { OnOk result (form.new.form
        ≡ extend_pairs form.old.form (targets.plan_parameters names.now.service.now names.now.plan.now)) }
    ensures prefix { OnOk result (form.new.prefix ≡ form.old.prefix) }
{
    form.append_pair("service_id", names.service)?;
    form.append_pair("plan_id", names.plan)
}

// Adds the service and the plan, which a Provision has in its body.
fn add_ids(form: &mut Serializer, kind: Kind, names: &Names) -> Result<(), AllocError>
    ensures form { OnOk result (form.new.form ≡ extend_pairs form.old.form
        (targets.id_parameters kind names.now.service.now names.now.plan.now)) }
    ensures prefix { OnOk result (form.new.prefix ≡ form.old.prefix) }
{
    match kind {
        Kind::Provision => Ok(()),
        Kind::Poll | Kind::Deprovision => add_plan(form, names),
    }
}

// Adds whether an asynchronous operation is accepted.
fn add_flag(form: &mut Serializer, accepts_incomplete: bool) -> Result<(), AllocError>
    ensures form { OnOk result (form.new.form ≡ extend_pairs form.old.form
        (targets.flag_parameters accepts_incomplete)) }
    ensures prefix { OnOk result (form.new.prefix ≡ form.old.prefix) }
{
    if accepts_incomplete {
        form.append_pair("accepts_incomplete", "true")
    } else {
        Ok(())
    }
}

/// That a text is UTF-8, and bytes.
pub fn check_text(text: &str)
    ensures utf8 { IsUtf8 text.now }
    ensures bytes { All (λ b. b < 256) text.now }
{}

// Adds what the broker named its operation.
fn add_operation(form: &mut Serializer, operation: Option<&str>) -> Result<(), AllocError>
    ensures form { OnOk result (form.new.form ≡ extend_pairs form.old.form
        (targets.operation_parameters (option_map (λ text. text.now) operation.entry))) }
    ensures prefix { OnOk result (form.new.prefix ≡ form.old.prefix) }
    ensures text { targets.IsTextIfAny (option_map (λ text. text.now) operation.entry) }
{
    match operation {
        Some(text) => {
            check_text(text);
            form.append_pair("operation", text)
        }
        None => Ok(()),
    }
}

/// The query of a request.
///
/// # Errors
///
/// [`AllocError`] where an allocation failed.
#[tactic(auto, using(crate::proofs::Queries::extended))]
pub fn write_query(
    alloc: Global,
    request: &Request,
    names: &Names,
    operation: Option<&str>,
) -> Result<String, AllocError>
    ensures query { IfOk result (λ text. string_bytes text
        ≡ targets.query_of request.now (naming.texts_of names.now) (option_map (λ text. text.now) operation.entry)) }
    ensures text { IfOk result (λ _. targets.IsTextIfAny (option_map (λ text. text.now) operation.entry)) }
{
    let mut form = Serializer::new(String::new(alloc));
    add_ids(&mut form, request.kind, names)?;
    add_flag(&mut form, request.accepts_incomplete)?;
    add_operation(&mut form, operation)?;
    Ok(form.finish())
}

/// That the texts of ids are UTF-8, and bytes.
pub fn check_names(names: &Names)
    ensures utf8 { targets.AreUtf8 (naming.texts_of names.now) }
{
    check_text(names.instance);
    check_text(names.service);
    check_text(names.plan);
}

// The target, and that what it is made of are texts.
fn target_of(
    alloc: Global,
    prefix: &str,
    request: &Request,
    names: &Names,
    operation: Option<&str>,
) -> Result<String, Memory>
    ensures text { IfOk result (λ text. string_bytes text ≡ targets.target_with prefix.now request.now
        (naming.texts_of names.now) (option_map (λ text. text.now) operation.entry)) }
    ensures utf8 { targets.AreUtf8 (naming.texts_of names.now) }
    ensures operation { IfOk result (λ _.
        targets.IsTextIfAny (option_map (λ text. text.now) operation.entry)) }
{
    check_names(names);
    let path = write_path(alloc, prefix, request.kind, names.instance)?;
    let query = write_query(alloc, request, names, operation)?;
    if query.is_empty() {
        return Ok(path);
    }
    let target = format!(in alloc; "{path}?{query}")?;
    Ok(target)
}

/// The target of a request whose ids are GUIDs in lower case: the path, and the query where it has one. What
/// [`write_named_target`] returns, with the ids' own texts.
///
/// # Errors
///
/// [`Memory`] where an allocation failed. The same call may be made again.
pub fn write_target(
    alloc: Global,
    prefix: &str,
    request: &Request,
    operation: Option<&str>,
) -> Result<String, Memory>
    ensures text { IfOk result (λ text. string_bytes text
        ≡ targets.target_text prefix.now request.now (option_map (λ text. text.now) operation.entry)) }
    ensures back { (longest : ℕ) (body : List ℕ) → All (λ b. b ≢ 63) prefix.now → length body ≤ longest
        → provisions.Names request.now.kind body request.now.service request.now.plan
        → IfOk result (λ text. requests.request_in prefix.now longest (targets.method_of request.now.kind)
        (string_bytes text) body ≡ Ok (asking.asked_of request.now)) }
    ensures operation { All (λ b. b ≢ 63) prefix.now → IfOk result (λ text.
        targets.operation_asked (string_bytes text)
        ≡ Ok (option_map (λ text. text.now) operation.entry)) }
{
    let mut instance = [0u8; 36];
    let mut service = [0u8; 36];
    let mut plan = [0u8; 36];
    let names = Names {
        instance: request.id.text_in(&mut instance),
        service: request.service.text_in(&mut service),
        plan: request.plan.text_in(&mut plan),
    };
    let target = target_of(alloc, prefix, request, &names, operation)?;
    Ok(target)
}

/// The target of a request: the path, and the query where it has one.
///
/// It begins with the prefix: empty, or what the broker's own URL has before `/v2`, as a request line has it,
/// with no `?`, `#`, blank or line end. It is written as it stands. The ids are sent as the texts that are given, which
/// are the request's: that of the instance in the path, where every byte but letters, digits, `-`, `.`, `_` and `~` is
/// escaped, and those of the service and the plan of a Poll and of a Deprovision in the query. The target names the
/// operation where one is given, which is the broker's, from its answer; give one to a Poll alone. Sections
/// Provisioning, Polling Last Operation for Service Instances and Deprovisioning of the standard.
///
/// [`read_request`](crate::read_request) gives the request and the texts back from it and from [`method_of`] its kind,
/// whatever the body of a Provision is that names its service and its plan, as
/// [`write_named_body`](crate::write_named_body) writes one. [`asked_operation`](crate::asked_operation) gives the
/// operation back.
///
/// # Errors
///
/// [`NameFault::BadInstance`], [`NameFault::BadService`] or [`NameFault::BadPlan`], the first that fits, for a text
/// that isn't the request's, whatever memory there is; else [`NameFault::Memory`] where an allocation failed. The same
/// call may be made again.
pub fn write_named_target(
    alloc: Global,
    prefix: &str,
    request: &Request,
    names: &Names,
    operation: Option<&str>,
) -> Result<String, NameFault>
    ensures text { IfOk result (λ text. string_bytes text ≡ targets.target_with prefix.now request.now
        (naming.texts_of names.now) (option_map (λ text. text.now) operation.entry)) }
    ensures named { OnOk result (targets.AreTextsOf request.now (naming.texts_of names.now)) }
    ensures back { (longest : ℕ) (body : List ℕ) → All (λ b. b ≢ 63) prefix.now → length body ≤ longest
        → provisions.Names request.now.kind body request.now.service request.now.plan
        → IfOk result (λ text. requests.request_in prefix.now longest (targets.method_of request.now.kind)
        (string_bytes text) body ≡ Ok (asking.asked_of request.now)) }
    ensures instance { All (λ b. b ≢ 63) prefix.now → IfOk result (λ text.
        requests.instance_text_in prefix.now (string_bytes text) ≡ Some names.now.instance.now) }
    ensures texts { (body : List ℕ) → All (λ b. b ≢ 63) prefix.now → request.now.kind ≢ Kind.Provision
        → IfOk result (λ text. (requests.service_text request.now.kind (string_bytes text) body
        ≡ Some names.now.service.now) × (requests.plan_text request.now.kind (string_bytes text) body
        ≡ Some names.now.plan.now)) }
    ensures operation { All (λ b. b ≢ 63) prefix.now → IfOk result (λ text.
        targets.operation_asked (string_bytes text)
        ≡ Ok (option_map (λ text. text.now) operation.entry)) }

    ensures rejected { (fault : NameFault) → naming.names_judged request.now (naming.texts_of names.now) ≡ Err fault
        → result ≡ Err fault }
    ensures err { IfErr result (λ fault. (fault ≡ NameFault.Memory)
        ⊎ (naming.names_judged request.now (naming.texts_of names.now) ≡ Err fault)) }
{
    match judge_names(request, names) {
        Ok(()) => {}
        Err(fault) => return Err(fault),
    }
    match target_of(alloc, prefix, request, names, operation) {
        Ok(target) => Ok(target),
        Err(Memory) => Err(NameFault::Memory),
    }
}

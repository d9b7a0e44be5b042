//! The method, the target and the body of a request.
ghost use Rattle.std.specs.Prelude.{◌≡◌, ◌≢◌, ◌≤◌, ◌⊎◌, ℕ, All, List, [], Option, Some, Ok, Err, IfOk, IfErr, OnOk};
ghost use Rattle.std.specs.Prelude.{codes, option_map, option_and_then, length, string_bytes};
ghost use Rattle.serde_json.specs.Data.{object, depth};
ghost use Rattle.serde_json.specs.Find.{get, get_member};
ghost use Rattle.serde_json.specs.Read.{read, max_depth};
ghost use Rattle.serde_json.specs.View.{members_view};
ghost use Rattle.serde_json.specs.Written.{IsInOrder};
ghost use Rattle.osb_message.specs.declared.messages.Kind.TheVariants as Kind;
ghost use Rattle.osb_json.specs.Members.{text_at};
ghost use Rattle.osb_wire.specs.Asking as asking;
ghost use Rattle.osb_wire.specs.Bodies.{object_in};
ghost use Rattle.osb_wire.specs.IdTexts.{number_of};
ghost use Rattle.osb_wire.specs.Names as naming;
ghost use Rattle.osb_wire.specs.Provisions as provisions;
ghost use Rattle.osb_wire.specs.Requests as requests;
ghost use Rattle.osb_wire.specs.Targets as targets;

use crate::names::{NameFault, Names};
use crate::provision_writing::write_provision;
use crate::target_writing::{method_of, write_named_target};
use osb_message::{Kind, Memory, Request};
use serde_json::{Map, Value};
use std::alloc::Global;

/// A request as HTTP has it. It has the headers [`API_VERSION_HEADER`](crate::API_VERSION_HEADER) and,
/// where the body isn't empty, `Content-Type` with [`CONTENT_TYPE`](crate::CONTENT_TYPE).
#[derive(Drop)]
pub struct WrittenRequest {
    /// `PUT`, `GET` or `DELETE`.
    pub method: &'static str,
    /// The path and the query, as the request line has them.
    pub target: String,
    /// The body of a Provision; else empty.
    pub body: String,
}

/// The body of a request whose ids are GUIDs in lower case: what [`write_named_body`] returns, with the ids' own texts.
///
/// # Errors
///
/// [`Memory`] where an allocation failed. The further members are gone then too.
pub fn write_body(
    alloc: Global,
    request: &Request,
    organization: &str,
    space: &str,
    further: Map<String, Value>,
) -> Result<String, Memory>
    ensures empty { request.now.kind ≢ Kind.Provision → IfOk result (λ text. string_bytes text ≡ []) }
    ensures back { request.now.kind ≡ Kind.Provision
        → depth (object (members_view further.entries)) ≤ max_depth
        → organization.now ≢ [] → space.now ≢ []
        → IfOk result (λ text. provisions.provision_in (string_bytes text)
        ≡ Ok (request.now.service, request.now.plan)) }
    ensures object { request.now.kind ≡ Kind.Provision
        → depth (object (members_view further.entries)) ≤ max_depth
        → IfOk result (λ text. read (string_bytes text) ≡ Some (object (provisions.provision_members
        request.now.service request.now.plan organization.now space.now (members_view further.entries)))) }
    ensures kept { request.now.kind ≡ Kind.Provision → (name : List ℕ) → provisions.IsFurther name
        → depth (object (members_view further.entries)) ≤ max_depth
        → IfOk result (λ text. option_and_then (get name) (read (string_bytes text))
        ≡ get_member name (members_view further.entries)) }
    ensures order { request.now.kind ≡ Kind.Provision → IfOk result (λ text. IsInOrder (string_bytes text)
        (object (provisions.provision_members request.now.service request.now.plan organization.now space.now
        (members_view further.entries)))) }
{
    match request.kind {
        Kind::Provision => {
            let mut service = [0u8; 36];
            let mut plan = [0u8; 36];
            write_provision(
                alloc,
                request.service.text_in(&mut service),
                request.plan.text_in(&mut plan),
                organization,
                space,
                further,
            )
        }
        Kind::Poll | Kind::Deprovision => Ok(String::new(alloc)),
    }
}

/// The body of a request: of a Provision an object of `service_id`, `plan_id`, the organization and the space,
/// neither of which may be empty, and the further members, as `context`, `parameters` or `maintenance_info`, of
/// which none stands in the place of those four. The service and the plan are sent as the texts that are given. No text
/// can break out of its string. In the other two kinds it is empty, and names, organization, space and further members
/// are passed over.
///
/// It is read as it was meant where the further members as an object nest at most 127 deep: a value under a name,
/// then, at most 126. Deeper ones are written all the same, each member once and in order, and rejected by the broker
/// that reads them, as an empty organization or space is. Sections Provisioning, Polling Last Operation and
/// Deprovisioning of the standard.
///
/// # Errors
///
/// [`Memory`] where an allocation failed. The further members are gone then too.
pub fn write_named_body(
    alloc: Global,
    kind: Kind,
    names: &Names,
    organization: &str,
    space: &str,
    further: Map<String, Value>,
) -> Result<String, Memory>
    ensures empty { kind ≢ Kind.Provision → IfOk result (λ text. string_bytes text ≡ []) }
    ensures back { kind ≡ Kind.Provision → (s p : ℕ) → number_of names.now.service.now ≡ Some s
        → number_of names.now.plan.now ≡ Some p
        → depth (object (members_view further.entries)) ≤ max_depth
        → organization.now ≢ [] → space.now ≢ []
        → IfOk result (λ text. provisions.provision_in (string_bytes text) ≡ Ok (s, p)) }
    ensures object { kind ≡ Kind.Provision
        → depth (object (members_view further.entries)) ≤ max_depth
        → IfOk result (λ text. read (string_bytes text) ≡ Some (object (provisions.members_with
        names.now.service.now names.now.plan.now organization.now space.now (members_view further.entries)))) }
    ensures texts { kind ≡ Kind.Provision → depth (object (members_view further.entries)) ≤ max_depth → IfOk result
        (λ text. (option_and_then (text_at (codes "service_id")) (object_in (string_bytes text)) ≡ Some names.now.service.now)
        × (option_and_then (text_at (codes "plan_id")) (object_in (string_bytes text)) ≡ Some names.now.plan.now)) }
    ensures kept { kind ≡ Kind.Provision → (name : List ℕ) → provisions.IsFurther name
        → depth (object (members_view further.entries)) ≤ max_depth
        → IfOk result (λ text. option_and_then (get name) (read (string_bytes text))
        ≡ get_member name (members_view further.entries)) }
    ensures order { kind ≡ Kind.Provision → IfOk result (λ text. IsInOrder (string_bytes text)
        (object (provisions.members_with names.now.service.now names.now.plan.now organization.now space.now
        (members_view further.entries)))) }
{
    match kind {
        Kind::Provision => write_provision(
            alloc,
            names.service,
            names.plan,
            organization,
            space,
            further,
        ),
        Kind::Poll | Kind::Deprovision => Ok(String::new(alloc)),
    }
}

/// The method, the target and the body of a request.
///
/// The target begins with the prefix: empty, or what the broker's own URL has before `/v2`, as a request line
/// has it, with no `?`, `#`, blank or line end. It is written as it stands. The ids are sent as the texts that are
/// given, which are the request's. The target names the operation where one is given, which is the broker's, from its
/// answer; give one to a Poll alone. A Provision has a body: an object of `service_id`, `plan_id`, the organization and
/// the space, neither of which may be empty, and the further members, as `context`, `parameters` or `maintenance_info`,
/// of which none stands in the place of those four. No text can break out of its string. In the other two kinds
/// organization, space and further members are passed over.
///
/// [`read_request`](crate::read_request) with the same prefix gives this request and these texts back, where the further
/// members as an object nest at most 127 deep: a value under a name, then, at most 126. Deeper ones are written all the
/// same, each member once and in order, and rejected by the broker that reads them, as an empty organization or space
/// is. Sections Provisioning, Polling Last Operation and Deprovisioning of the standard.
///
/// # Errors
///
/// [`NameFault::BadInstance`], [`NameFault::BadService`] or [`NameFault::BadPlan`], the first that fits, for a text
/// that isn't the request's, whatever memory there is; else [`NameFault::Memory`] where an allocation failed. The
/// further members are gone then too.
pub fn write_request(
    alloc: Global,
    prefix: &str,
    request: &Request,
    names: &Names,
    operation: Option<&str>,
    organization: &str,
    space: &str,
    further: Map<String, Value>,
) -> Result<WrittenRequest, NameFault>
    ensures method { IfOk result (λ written. written.method.now ≡ targets.method_of request.now.kind) }
    ensures target { IfOk result (λ written. string_bytes written.target ≡ targets.target_with prefix.now request.now
        (naming.texts_of names.now) (option_map (λ text. text.now) operation.entry)) }
    ensures named { OnOk result (targets.AreTextsOf request.now (naming.texts_of names.now)) }
    ensures empty { request.now.kind ≢ Kind.Provision → IfOk result (λ written. string_bytes written.body ≡ []) }
    ensures object { request.now.kind ≡ Kind.Provision
        → depth (object (members_view further.entries)) ≤ max_depth
        → IfOk result (λ written. read (string_bytes written.body) ≡ Some (object (provisions.members_with
        names.now.service.now names.now.plan.now organization.now space.now (members_view further.entries)))) }
    ensures kept { request.now.kind ≡ Kind.Provision → (name : List ℕ) → provisions.IsFurther name
        → depth (object (members_view further.entries)) ≤ max_depth
        → IfOk result (λ written. option_and_then (get name) (read (string_bytes written.body))
        ≡ get_member name (members_view further.entries)) }
    ensures order { request.now.kind ≡ Kind.Provision → IfOk result (λ written. IsInOrder (string_bytes written.body)
        (object (provisions.members_with names.now.service.now names.now.plan.now organization.now space.now
        (members_view further.entries)))) }
    ensures back { (longest : ℕ) → All (λ b. b ≢ 63) prefix.now
        → provisions.CanBeRead request.now.kind organization.now space.now (members_view further.entries)
        → IfOk result (λ written. length (string_bytes written.body) ≤ longest
        → requests.request_in prefix.now longest written.method.now (string_bytes written.target)
        (string_bytes written.body) ≡ Ok (asking.asked_of request.now)) }
    ensures same { (held : Option (ℕ × ℕ))
        → asking.request_of (asking.asked_of request.now) held ≡ request.now }
    ensures instance { All (λ b. b ≢ 63) prefix.now → IfOk result (λ written.
        requests.instance_text_in prefix.now (string_bytes written.target) ≡ Some names.now.instance.now) }
    ensures texts { All (λ b. b ≢ 63) prefix.now
        → provisions.CanBeRead request.now.kind organization.now space.now (members_view further.entries)
        → IfOk result (λ written. (requests.service_text request.now.kind (string_bytes written.target)
        (string_bytes written.body) ≡ Some names.now.service.now)
        × (requests.plan_text request.now.kind (string_bytes written.target) (string_bytes written.body)
        ≡ Some names.now.plan.now)) }
    ensures operation { All (λ b. b ≢ 63) prefix.now → IfOk result (λ written.
        targets.operation_asked (string_bytes written.target)
        ≡ Ok (option_map (λ text. text.now) operation.entry)) }

    ensures rejected { (fault : NameFault) → naming.names_judged request.now (naming.texts_of names.now) ≡ Err fault
        → result ≡ Err fault }
    ensures err { IfErr result (λ fault. (fault ≡ NameFault.Memory)
        ⊎ (naming.names_judged request.now (naming.texts_of names.now) ≡ Err fault)) }
{
    let target = match write_named_target(alloc, prefix, request, names, operation) {
        Ok(target) => target,
        Err(fault) => return Err(fault),
    };
    let Ok(body) = write_named_body(alloc, request.kind, names, organization, space, further) else {
        return Err(NameFault::Memory);
    };
    Ok(WrittenRequest {
        method: method_of(request.kind),
        target,
        body,
    })
}

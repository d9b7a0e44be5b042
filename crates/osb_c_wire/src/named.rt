//! Requests whose ids have texts of their own, as a platform writes them.
ghost use Rattle.std.specs.Prelude.{◌≡◌, ◌≢◌, ◌↔◌, ◌≤◌, [], ◌∷◌, ℕ, All, List, Some, None, Ok, Err, IfOk, IfErr};
ghost use Rattle.std.specs.Prelude.{codes, option_and_then, length, take, drop, string_bytes};
ghost use Rattle.std.specs.Prelude.{IsTrue, IsSome, IsNone, IfSome, IsSomeAnd};
ghost use Rattle.std.specs.Str.{IsUtf8};
ghost use Rattle.serde_json.specs.Find.{get};
ghost use Rattle.serde_json.specs.Read.{read};
ghost use Rattle.osb_json.specs.Members.{text_at};
ghost use Rattle.osb_message.specs.declared.messages.Kind.TheVariants as Kind;
ghost use Rattle.osb_message.specs.declared.messages.Request.{Request};
ghost use Rattle.osb_wire.specs.Asking as asking;
ghost use Rattle.osb_wire.specs.Bodies.{object_in};
ghost use Rattle.osb_wire.specs.IdTexts as ids;
ghost use Rattle.osb_wire.specs.Names as naming;
ghost use Rattle.osb_wire.specs.Provisions as provisions;
ghost use Rattle.osb_wire.specs.Requests as requests;
ghost use Rattle.osb_wire.specs.Targets as targets;
ghost use Rattle.osb_c_types.specs.Ids.{number_of};
ghost use Rattle.osb_c_types.specs.Kinds.{kind_of};
ghost use Rattle.osb_c_types.specs.Requests.{request_of};
ghost use Rattle.osb_c_types.specs.Status.{code, is_one_of};
ghost use Rattle.osb_c_wire.specs.Bodies.{members_in};
ghost use Rattle.osb_c_wire.specs.Named as named;
ghost use Rattle.osb_c_wire.specs.Texts as texts;

use crate::bodies::read_members;
use crate::texts::text_if;
use osb_c_types::{OsbId, OsbRequest, Status, id_out, kind_from, request_from, write_text};
use osb_message::{InstanceId, Kind};
use osb_wire::{NameFault, Names};
use std::alloc::Global;

/// Gives the id that a text names: a GUID in lower case is its own number, and any other text has the first 128 bits of
/// its SHA-256 as its number ([`osb_wire::id_of_text`]; the standard takes any text that isn't empty as an id, and the
/// numbers are this project's choice). It takes no memory.
///
/// It returns `Done`; `NotUtf8` exactly where the text isn't UTF-8; or `NotAnId` exactly where it is, and is empty or
/// longer than 255 bytes. Where it isn't `Done`, the id is as before.
#[unsafe(no_mangle)]
pub extern "C" fn osb_id_of_text(text: &[u8], id: &mut OsbId) -> u32
    ensures id { result ≡ code Status.Done → ids.number_of text.now ≡ Some (number_of id.new) }
    ensures not_utf8 { (result ≡ code Status.NotUtf8) ↔ ¬ (IsUtf8 text.now) }
    ensures not_an_id { (result ≡ code Status.NotAnId) ↔ (IsUtf8 text.now × IsNone (ids.number_of text.now)) }
    ensures statuses { IsTrue (is_one_of (Status.Done ∷ Status.NotUtf8 ∷ Status.NotAnId ∷ []) result) }
    ensures unwritten { result ≢ code Status.Done → id.new ≡ id.old }
{
    let Ok(text) = std::str::from_utf8(text) else {
        return Status::NotUtf8.code();
    };
    let found: Option<InstanceId> = osb_wire::id_of_text(text);
    match found {
        Some(named) => {
            *id = id_out(named);
            Status::Done.code()
        }
        None => Status::NotAnId.code(),
    }
}

/// The texts of the ids of a request, where each is UTF-8.
pub fn names_from<'t>(instance: &'t [u8], service: &'t [u8], plan: &'t [u8]) -> Option<Names<'t>>
    ensures names { IfSome result (λ names.
        naming.texts_of names ≡ named.texts_with instance.now service.now plan.now) }
    ensures utf8 { IsSome result ↔ named.AreUtf8 instance.now service.now plan.now }
{
    let Ok(instance) = std::str::from_utf8(instance) else {
        return None;
    };
    let Ok(service) = std::str::from_utf8(service) else {
        return None;
    };
    let Ok(plan) = std::str::from_utf8(plan) else {
        return None;
    };
    Some(Names {
        instance,
        service,
        plan,
    })
}

// Why a request isn't written, as a status.
fn status_of(fault: NameFault) -> Status
    ensures status { result ≡ named.name_status fault }
{
    match fault {
        NameFault::BadInstance => Status::NotInstanceText,
        NameFault::BadService => Status::NotServiceText,
        NameFault::BadPlan => Status::NotPlanText,
        NameFault::Memory => Status::Memory,
    }
}

/// Writes the target of a request, the path and the query, to the front of `buffer`, and its length to `needed`; the
/// rest of the buffer is as before. The ids are sent as the texts that are given, which are the request's: that of the
/// instance in the path, with an escape for every byte but letters, digits, `-`, `.`, `_` and `~`, and those of the
/// service and the plan of a Poll and of a Deprovision in the query. It begins with the prefix: empty, or what the
/// broker's own URL has before `/v2`, with no `?`. The operation counts where `has_operation` is true, and is the
/// broker's; it is given to a Poll alone (sections Provisioning, Polling Last Operation for Service Instances and
/// Deprovisioning).
///
/// It returns `Done`; `NotUtf8` exactly where the prefix or a text of an id isn't UTF-8, or the operation counts and
/// isn't; else `BadKind` exactly where the number of the request's kind stands for none; else exactly the first that
/// fits of `NotInstanceText`, `NotServiceText` and `NotPlanText`; `TooSmall` where the buffer is shorter than `needed`
/// bytes, a number that is written all the same; or, in place of `Done` and of `TooSmall`, `Memory` where an allocation
/// failed. Where it isn't `Done`, the buffer is as before, and where it is neither that nor `TooSmall`, `needed` too.
#[unsafe(no_mangle)]
pub extern "C" fn osb_write_named_target(
    alloc: Global,
    prefix: &[u8],
    request: &OsbRequest,
    instance: &[u8],
    service: &[u8],
    plan: &[u8],
    has_operation: bool,
    operation: &[u8],
    buffer: &mut [u8],
    needed: &mut usize,
) -> u32
    ensures target { result ≡ code Status.Done → IsSomeAnd (request_of request.now) (λ r. texts.IsWritten
        (targets.target_with prefix.now r (named.texts_with instance.now service.now plan.now)
        (texts.text_if has_operation operation.now)) needed.new buffer.new) }
    ensures named { result ≡ code Status.Done → IsSomeAnd (request_of request.now) (λ r.
        targets.AreTextsOf r (named.texts_with instance.now service.now plan.now)) }
    ensures back { result ≡ code Status.Done → All (λ b. b ≢ 63) prefix.now → IsSomeAnd (request_of request.now) (λ r.
        (longest : ℕ) (body : List ℕ) → length body ≤ longest → provisions.Names r.kind body r.service r.plan
        → requests.request_in prefix.now longest (targets.method_of r.kind) (take needed.new buffer.new) body
        ≡ Ok (asking.asked_of r)) }
    ensures instance { result ≡ code Status.Done → All (λ b. b ≢ 63) prefix.now
        → requests.instance_text_in prefix.now (take needed.new buffer.new) ≡ Some instance.now }
    ensures texts { result ≡ code Status.Done → All (λ b. b ≢ 63) prefix.now
        → IsSomeAnd (request_of request.now) (λ r. r.kind ≢ Kind.Provision → (body : List ℕ)
        → (requests.service_text r.kind (take needed.new buffer.new) body ≡ Some service.now)
        × (requests.plan_text r.kind (take needed.new buffer.new) body ≡ Some plan.now)) }
    ensures operation { result ≡ code Status.Done → All (λ b. b ≢ 63) prefix.now
        → targets.operation_asked (take needed.new buffer.new) ≡ Ok (texts.text_if has_operation operation.now) }
    ensures rest { result ≡ code Status.Done → drop needed.new buffer.new ≡ drop needed.new buffer.old }

    ensures not_utf8 { (result ≡ code Status.NotUtf8) ↔ ¬ (IsUtf8 prefix.now
        × named.AreUtf8 instance.now service.now plan.now × texts.IsUtf8If has_operation operation.now) }
    ensures bad_kind { (result ≡ code Status.BadKind) ↔ (IsUtf8 prefix.now
        × named.AreUtf8 instance.now service.now plan.now × texts.IsUtf8If has_operation operation.now
        × IsNone (kind_of request.now.kind)) }
    ensures rejected { IsUtf8 prefix.now → named.AreUtf8 instance.now service.now plan.now
        → texts.IsUtf8If has_operation operation.now → (r : Request) → request_of request.now ≡ Some r
        → (fault : NameFault)
        → naming.names_judged r (named.texts_with instance.now service.now plan.now) ≡ Err fault
        → result ≡ code (named.name_status fault) }
    ensures not_named { (fault : NameFault) → fault ≢ NameFault.Memory → result ≡ code (named.name_status fault)
        → IsSomeAnd (request_of request.now) (λ r.
        naming.names_judged r (named.texts_with instance.now service.now plan.now) ≡ Err fault) }
    ensures too_small { result ≡ code Status.TooSmall → IsSomeAnd (request_of request.now) (λ r. texts.IsTooLong
        (targets.target_with prefix.now r (named.texts_with instance.now service.now plan.now)
        (texts.text_if has_operation operation.now)) needed.new buffer.old) }
    ensures statuses { IsTrue (is_one_of (Status.Done ∷ Status.NotUtf8 ∷ Status.BadKind ∷ Status.NotInstanceText
        ∷ Status.NotServiceText ∷ Status.NotPlanText ∷ Status.TooSmall ∷ Status.Memory ∷ []) result) }
    ensures unwritten { result ≢ code Status.Done → buffer.new ≡ buffer.old }
    ensures unmeasured { result ≢ code Status.Done → result ≢ code Status.TooSmall → needed.new ≡ needed.old }
{
    let Ok(prefix) = std::str::from_utf8(prefix) else {
        return Status::NotUtf8.code();
    };
    let Some(names) = names_from(instance, service, plan) else {
        return Status::NotUtf8.code();
    };
    let Some(operation) = text_if(has_operation, operation) else {
        return Status::NotUtf8.code();
    };
    let Some(asked) = request_from(request) else {
        return Status::BadKind.code();
    };
    match osb_wire::write_named_target(alloc, prefix, &asked, &names, operation) {
        Ok(text) => write_text(text.as_str(), buffer, needed).code(),
        Err(fault) => status_of(fault).code(),
    }
}

// The body of a request of the kind.
fn named_body_text(
    alloc: Global,
    kind: Kind,
    names: &Names,
    organization: &str,
    space: &str,
    further: &str,
) -> Result<String, Status>
    ensures body { IfOk result (λ text. IsSomeAnd (members_in further.now) (λ members. named.IsNamedBody kind
        names.now.service.now names.now.plan.now organization.now space.now members (string_bytes text))) }
    ensures kept { IfOk result (λ text. kind ≡ Kind.Provision → (name : List ℕ) → provisions.IsFurther name
        → option_and_then (get name) (read (string_bytes text)) ≡ option_and_then (get name) (read further.now)) }
    ensures texts { IfOk result (λ text. kind ≡ Kind.Provision
        → (option_and_then (text_at (codes "service_id")) (object_in (string_bytes text)) ≡ Some names.now.service.now)
        × (option_and_then (text_at (codes "plan_id")) (object_in (string_bytes text)) ≡ Some names.now.plan.now)) }
    ensures back { IfOk result (λ text. kind ≡ Kind.Provision → organization.now ≢ [] → space.now ≢ []
        → (s p : ℕ) → ids.number_of names.now.service.now ≡ Some s → ids.number_of names.now.plan.now ≡ Some p
        → provisions.provision_in (string_bytes text) ≡ Ok (s, p)) }
    ensures not_json { result ≡ Err Status.NotJson → read further.now ≡ None }
    ensures not_an_object { result ≡ Err Status.NotAnObject
        → IsSome (read further.now) × (members_in further.now ≡ None) }
    ensures faults { IfErr result (λ fault. IsTrue (is_one_of
        (Status.NotJson ∷ Status.NotAnObject ∷ Status.Memory ∷ []) (code fault))) }
{
    let members = match read_members(alloc, further) {
        Ok(members) => members,
        Err(fault) => return Err(fault),
    };
    match osb_wire::write_named_body(alloc, kind, names, organization, space, members) {
        Ok(text) => Ok(text),
        Err(_) => Err(Status::Memory),
    }
}

/// Writes the body of a request of the kind to the front of `buffer`, and its length to `needed`; the rest of the buffer
/// is as before. It is, of a Provision, an object of `service_id` and `plan_id`, which are the texts that are given, the
/// organization and the space, neither of which may be empty, and the members of `further`, the text of an object (`{}`
/// for none), of which none stands in the place of those four; else it is empty (sections Provisioning, Polling Last
/// Operation for Service Instances and Deprovisioning).
///
/// It returns `Done`; `NotUtf8` exactly where one of the texts isn't UTF-8; else `BadKind` exactly where the number
/// stands for no kind; `NotJson` where `further` has no reading as JSON; `NotAnObject` where it isn't an object;
/// `TooSmall` where the buffer is shorter than `needed` bytes, a number that is written all the same; or, in place of
/// any of these but `NotUtf8` and `BadKind`, `Memory` where an allocation failed. Where it isn't `Done`, the buffer is as
/// before, and where it is neither that nor `TooSmall`, `needed` too.
#[unsafe(no_mangle)]
pub extern "C" fn osb_write_named_body(
    alloc: Global,
    kind: u8,
    service: &[u8],
    plan: &[u8],
    organization: &[u8],
    space: &[u8],
    further: &[u8],
    buffer: &mut [u8],
    needed: &mut usize,
) -> u32
    ensures body { result ≡ code Status.Done → IsSomeAnd (kind_of kind) (λ k.
        IsSomeAnd (members_in further.now) (λ members. named.IsNamedBody k service.now plan.now
        organization.now space.now members (take needed.new buffer.new))) }
    ensures kept { result ≡ code Status.Done → kind_of kind ≡ Some Kind.Provision
        → (name : List ℕ) → provisions.IsFurther name
        → option_and_then (get name) (read (take needed.new buffer.new))
        ≡ option_and_then (get name) (read further.now) }
    ensures texts { result ≡ code Status.Done → kind_of kind ≡ Some Kind.Provision
        → (option_and_then (text_at (codes "service_id")) (object_in (take needed.new buffer.new)) ≡ Some service.now)
        × (option_and_then (text_at (codes "plan_id")) (object_in (take needed.new buffer.new)) ≡ Some plan.now) }
    ensures back { result ≡ code Status.Done → organization.now ≢ [] → space.now ≢ []
        → kind_of kind ≡ Some Kind.Provision
        → (s p : ℕ) → ids.number_of service.now ≡ Some s → ids.number_of plan.now ≡ Some p
        → provisions.provision_in (take needed.new buffer.new) ≡ Ok (s, p) }
    ensures within { result ≡ code Status.Done → needed.new ≤ length buffer.new }
    ensures rest { result ≡ code Status.Done → drop needed.new buffer.new ≡ drop needed.new buffer.old }

    ensures not_utf8 { (result ≡ code Status.NotUtf8) ↔ ¬ (IsUtf8 service.now × IsUtf8 plan.now
        × IsUtf8 organization.now × IsUtf8 space.now × IsUtf8 further.now) }
    ensures bad_kind { (result ≡ code Status.BadKind) ↔ (IsUtf8 service.now × IsUtf8 plan.now
        × IsUtf8 organization.now × IsUtf8 space.now × IsUtf8 further.now × IsNone (kind_of kind)) }
    ensures not_json { result ≡ code Status.NotJson → read further.now ≡ None }
    ensures not_an_object { result ≡ code Status.NotAnObject
        → IsSome (read further.now) × (members_in further.now ≡ None) }
    ensures too_small { result ≡ code Status.TooSmall → (text : List ℕ) × (texts.IsTooLong text needed.new buffer.old)
        × IsSomeAnd (kind_of kind) (λ k. IsSomeAnd (members_in further.now) (λ members.
        named.IsNamedBody k service.now plan.now organization.now space.now members text)) }
    ensures statuses { IsTrue (is_one_of (Status.Done ∷ Status.NotUtf8 ∷ Status.BadKind ∷ Status.NotJson
        ∷ Status.NotAnObject ∷ Status.TooSmall ∷ Status.Memory ∷ []) result) }
    ensures unwritten { result ≢ code Status.Done → buffer.new ≡ buffer.old }
    ensures unmeasured { result ≢ code Status.Done → result ≢ code Status.TooSmall → needed.new ≡ needed.old }
{
    let Ok(service) = std::str::from_utf8(service) else {
        return Status::NotUtf8.code();
    };
    let Ok(plan) = std::str::from_utf8(plan) else {
        return Status::NotUtf8.code();
    };
    let Ok(organization) = std::str::from_utf8(organization) else {
        return Status::NotUtf8.code();
    };
    let Ok(space) = std::str::from_utf8(space) else {
        return Status::NotUtf8.code();
    };
    let Ok(further) = std::str::from_utf8(further) else {
        return Status::NotUtf8.code();
    };
    let Some(kind) = kind_from(kind) else {
        return Status::BadKind.code();
    };
    let names = Names {
        instance: "",
        service,
        plan,
    };
    match named_body_text(alloc, kind, &names, organization, space, further) {
        Ok(text) => write_text(text.as_str(), buffer, needed).code(),
        Err(status) => status.code(),
    }
}

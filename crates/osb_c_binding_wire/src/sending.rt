//! Requests of a binding, as a platform writes them.
ghost use Rattle.std.specs.Prelude.{◌≡◌, ◌≢◌, ◌↔◌, ◌≤◌, ◌⊎◌, [], ◌∷◌, ℕ, All, List, true, false, Some, None};
ghost use Rattle.std.specs.Prelude.{Ok, Err, IfOk, IfErr, OnOk};
ghost use Rattle.std.specs.Prelude.{codes, option_map, option_and_then, length, take, drop, string_bytes};
ghost use Rattle.std.specs.Prelude.{IsTrue, IsSome, IsNone, IfSome, IsSomeAnd};
ghost use Rattle.std.specs.Str.{IsUtf8};
ghost use Rattle.serde_json.specs.Find.{get};
ghost use Rattle.serde_json.specs.Read.{read};
ghost use Rattle.osb_json.specs.Members.{text_at};
ghost use Rattle.osb_message.specs.declared.messages.Kind.TheVariants as Kind;
ghost use Rattle.osb_wire.specs.Bodies.{object_in};
ghost use Rattle.osb_wire.specs.IdTexts.{number_of};
ghost use Rattle.osb_wire.specs.Targets as targets;
ghost use Rattle.osb_binding_wire.specs.Asking as asking;
ghost use Rattle.osb_binding_wire.specs.Binds as binds;
ghost use Rattle.osb_binding_wire.specs.Names as naming;
ghost use Rattle.osb_binding_wire.specs.Requests as requests;
ghost use Rattle.osb_c_types.specs.Kinds.{kind_of};
ghost use Rattle.osb_c_types.specs.Status.{code, is_one_of};
ghost use Rattle.osb_c_wire.specs.Bodies.{members_in};
ghost use Rattle.osb_c_wire.specs.Texts as texts;
ghost use Rattle.osb_c_binding_wire.specs.Sent as sent;

use osb_binding::{BindingId, BindingRequest};
use osb_binding_wire::{BindingNameFault, BindingNames};
use osb_c_types::{OsbId, OsbRequest, Status, id_from, kind_from, request_from, write_text};
use osb_c_wire::{names_from, read_members, text_if};
use osb_message::Kind;
use std::alloc::Global;

// The request of a binding of the instance that crossed, if its kind is one.
fn asked_from(request: &OsbRequest, instance: OsbId) -> Option<BindingRequest>
    ensures request { result ≡ sent.request_of request.now instance }
{
    let life = request_from(request)?;
    Some(BindingRequest {
        kind: life.kind,
        instance: id_from(instance),
        binding: BindingId::from_value(life.id.value()),
        service: life.service,
        plan: life.plan,
        accepts_incomplete: life.accepts_incomplete,
    })
}

// The texts of the ids of a request, if each is UTF-8.
fn texts_from<'t>(
    instance: &'t [u8],
    binding: &'t [u8],
    service: &'t [u8],
    plan: &'t [u8],
) -> Option<BindingNames<'t>>
    ensures names { IfSome result (λ names.
        naming.texts_of names ≡ sent.texts_with instance.now binding.now service.now plan.now) }
    ensures utf8 { IsSome result ↔ sent.AreUtf8 instance.now binding.now service.now plan.now }
{
    let Ok(instance) = std::str::from_utf8(instance) else {
        return None;
    };
    let life = names_from(binding, service, plan)?;
    Some(BindingNames {
        instance,
        binding: life.instance,
        service: life.service,
        plan: life.plan,
    })
}

// Why a request isn't written, as a status.
fn status_of(fault: BindingNameFault) -> Status
    ensures status { result ≡ sent.name_status fault }
{
    match fault {
        BindingNameFault::BadInstance => Status::NotInstanceText,
        BindingNameFault::BadBinding => Status::NotBindingText,
        BindingNameFault::BadService => Status::NotServiceText,
        BindingNameFault::BadPlan => Status::NotPlanText,
        BindingNameFault::Memory => Status::Memory,
    }
}

// The target of the Fetch of a request's binding.
fn fetch_text(
    alloc: Global,
    prefix: &str,
    request: &BindingRequest,
    names: &BindingNames,
) -> Result<String, BindingNameFault>
    ensures target { IfOk result (λ text. string_bytes text
        ≡ sent.target_by true prefix.now request.now (naming.texts_of names.now) None) }
    ensures named { OnOk result (naming.AreTextsOf request.now (naming.texts_of names.now)) }
    ensures back { (longest : ℕ) → All (λ b. b ≢ 63) prefix.now → IfOk result (λ text.
        requests.request_in prefix.now longest (codes "GET") (string_bytes text) [] ≡ Ok (asking.fetch_of request.now)) }
    ensures instance { All (λ b. b ≢ 63) prefix.now → IfOk result (λ text.
        requests.instance_text_in prefix.now (string_bytes text) ≡ Some names.now.instance.now) }
    ensures binding { All (λ b. b ≢ 63) prefix.now → IfOk result (λ text.
        requests.binding_text_in prefix.now (string_bytes text) ≡ Some names.now.binding.now) }

    ensures rejected { (fault : BindingNameFault)
        → naming.names_judged request.now (naming.texts_of names.now) ≡ Err fault → result ≡ Err fault }
    ensures err { IfErr result (λ fault. (fault ≡ BindingNameFault.Memory)
        ⊎ (naming.names_judged request.now (naming.texts_of names.now) ≡ Err fault)) }
{
    match osb_binding_wire::write_fetch(alloc, prefix, request, names) {
        Ok(written) => Ok(written.target),
        Err(fault) => Err(fault),
    }
}

// The target of the Fetch of a request's binding, or of the request.
fn target_text(
    alloc: Global,
    prefix: &str,
    request: &BindingRequest,
    names: &BindingNames,
    is_fetch: bool,
    operation: Option<&str>,
) -> Result<String, BindingNameFault>
    ensures target { IfOk result (λ text. string_bytes text ≡ sent.target_by is_fetch prefix.now request.now
        (naming.texts_of names.now) (option_map (λ text. text.now) operation.entry)) }
    ensures named { OnOk result (naming.AreTextsOf request.now (naming.texts_of names.now)) }
    ensures back { is_fetch ≡ false → (longest : ℕ) (body : List ℕ) → All (λ b. b ≢ 63) prefix.now
        → length body ≤ longest → binds.Names request.now.kind body request.now.service request.now.plan
        → IfOk result (λ text. requests.request_in prefix.now longest (targets.method_of request.now.kind)
        (string_bytes text) body ≡ Ok (asking.asked_of request.now)) }
    ensures fetch { is_fetch ≡ true → (longest : ℕ) → All (λ b. b ≢ 63) prefix.now → IfOk result (λ text.
        requests.request_in prefix.now longest (codes "GET") (string_bytes text) [] ≡ Ok (asking.fetch_of request.now)) }
    ensures instance { All (λ b. b ≢ 63) prefix.now → IfOk result (λ text.
        requests.instance_text_in prefix.now (string_bytes text) ≡ Some names.now.instance.now) }
    ensures binding { All (λ b. b ≢ 63) prefix.now → IfOk result (λ text.
        requests.binding_text_in prefix.now (string_bytes text) ≡ Some names.now.binding.now) }
    ensures operation { is_fetch ≡ false → All (λ b. b ≢ 63) prefix.now → IfOk result (λ text.
        targets.operation_asked (string_bytes text) ≡ Ok (option_map (λ text. text.now) operation.entry)) }

    ensures rejected { (fault : BindingNameFault)
        → naming.names_judged request.now (naming.texts_of names.now) ≡ Err fault → result ≡ Err fault }
    ensures err { IfErr result (λ fault. (fault ≡ BindingNameFault.Memory)
        ⊎ (naming.names_judged request.now (naming.texts_of names.now) ≡ Err fault)) }
{
    if is_fetch {
        return fetch_text(alloc, prefix, request, names);
    }
    osb_binding_wire::write_binding_target(alloc, prefix, request, names, operation)
}

/// Writes the target of a Bind, an Unbind or a Poll of a binding's last operation, or, if `is_fetch` is true, of a
/// Fetch of the binding: the path and the query, to the front of `buffer`, and its length to `needed`; the rest of the
/// buffer is as before. The id of the request is the binding's, and that of the instance stands beside it. The ids are
/// sent as the texts that are given, which are the request's: those of the instance and of the binding in the path,
/// with an escape for every byte but letters, digits, `-`, `.`, `_` and `~`, and those of the service and the plan in
/// the query, but of a Bind. The target begins with the prefix: empty, or what the broker's own URL has before `/v2`,
/// with no `?`. The operation counts if `has_operation` is true, and is the broker's; it is given to a Poll alone, and
/// a Fetch passes it over, as it does the kind of the request and `accepts_incomplete` (sections Binding, Unbinding,
/// Polling Last Operation for Service Bindings and Fetching a Service Binding).
///
/// It returns `Done`; `NotUtf8` exactly if the prefix or a text of an id isn't UTF-8, or the operation counts and
/// isn't; else `BadKind` exactly if the number of the request's kind stands for none; else exactly the first that fits
/// of `NotInstanceText`, `NotBindingText`, `NotServiceText` and `NotPlanText`; `TooSmall` if the buffer is shorter than
/// `needed` bytes, a number that is written all the same; or, in place of `Done` and of `TooSmall`, `Memory` if an
/// allocation failed. If it isn't `Done`, the buffer is as before, and if it is neither that nor `TooSmall`, `needed`
/// too.
#[unsafe(no_mangle)]
pub extern "C" fn osb_write_binding_target(
    alloc: Global,
    prefix: &[u8],
    request: &OsbRequest,
    instance_id: OsbId,
    instance: &[u8],
    binding: &[u8],
    service: &[u8],
    plan: &[u8],
    is_fetch: bool,
    has_operation: bool,
    operation: &[u8],
    buffer: &mut [u8],
    needed: &mut usize,
) -> u32
    ensures target { result ≡ code Status.Done → IsSomeAnd (sent.request_of request.now instance_id) (λ r.
        texts.IsWritten (sent.target_by is_fetch prefix.now r
        (sent.texts_with instance.now binding.now service.now plan.now)
        (texts.text_if has_operation operation.now)) needed.new buffer.new) }
    ensures named { result ≡ code Status.Done → IsSomeAnd (sent.request_of request.now instance_id) (λ r.
        naming.AreTextsOf r (sent.texts_with instance.now binding.now service.now plan.now)) }
    ensures back { result ≡ code Status.Done → is_fetch ≡ false → All (λ b. b ≢ 63) prefix.now
        → IsSomeAnd (sent.request_of request.now instance_id) (λ r.
        (longest : ℕ) (body : List ℕ) → length body ≤ longest → binds.Names r.kind body r.service r.plan
        → requests.request_in prefix.now longest (targets.method_of r.kind) (take needed.new buffer.new) body
        ≡ Ok (asking.asked_of r)) }
    ensures fetch { result ≡ code Status.Done → is_fetch ≡ true → All (λ b. b ≢ 63) prefix.now
        → IsSomeAnd (sent.request_of request.now instance_id) (λ r. (longest : ℕ)
        → requests.request_in prefix.now longest (codes "GET") (take needed.new buffer.new) []
        ≡ Ok (asking.fetch_of r)) }
    ensures instance { result ≡ code Status.Done → All (λ b. b ≢ 63) prefix.now
        → requests.instance_text_in prefix.now (take needed.new buffer.new) ≡ Some instance.now }
    ensures binding { result ≡ code Status.Done → All (λ b. b ≢ 63) prefix.now
        → requests.binding_text_in prefix.now (take needed.new buffer.new) ≡ Some binding.now }
    ensures operation { result ≡ code Status.Done → is_fetch ≡ false → All (λ b. b ≢ 63) prefix.now
        → targets.operation_asked (take needed.new buffer.new) ≡ Ok (texts.text_if has_operation operation.now) }
    ensures rest { result ≡ code Status.Done → drop needed.new buffer.new ≡ drop needed.new buffer.old }

    ensures not_utf8 { (result ≡ code Status.NotUtf8) ↔ ¬ (IsUtf8 prefix.now
        × sent.AreUtf8 instance.now binding.now service.now plan.now × texts.IsUtf8If has_operation operation.now) }
    ensures bad_kind { (result ≡ code Status.BadKind) ↔ (IsUtf8 prefix.now
        × sent.AreUtf8 instance.now binding.now service.now plan.now × texts.IsUtf8If has_operation operation.now
        × IsNone (kind_of request.now.kind)) }
    ensures rejected { IsUtf8 prefix.now → sent.AreUtf8 instance.now binding.now service.now plan.now
        → texts.IsUtf8If has_operation operation.now
        → (r : BindingRequest) → sent.request_of request.now instance_id ≡ Some r → (fault : BindingNameFault)
        → naming.names_judged r (sent.texts_with instance.now binding.now service.now plan.now) ≡ Err fault
        → result ≡ code (sent.name_status fault) }
    ensures not_named { (fault : BindingNameFault) → fault ≢ BindingNameFault.Memory
        → result ≡ code (sent.name_status fault) → IsSomeAnd (sent.request_of request.now instance_id) (λ r.
        naming.names_judged r (sent.texts_with instance.now binding.now service.now plan.now) ≡ Err fault) }
    ensures too_small { result ≡ code Status.TooSmall → IsSomeAnd (sent.request_of request.now instance_id) (λ r.
        texts.IsTooLong (sent.target_by is_fetch prefix.now r
        (sent.texts_with instance.now binding.now service.now plan.now)
        (texts.text_if has_operation operation.now)) needed.new buffer.old) }
    ensures statuses { IsTrue (is_one_of (Status.Done ∷ Status.NotUtf8 ∷ Status.BadKind ∷ Status.NotInstanceText
        ∷ Status.NotBindingText ∷ Status.NotServiceText ∷ Status.NotPlanText ∷ Status.TooSmall ∷ Status.Memory ∷ [])
        result) }
    ensures unwritten { result ≢ code Status.Done → buffer.new ≡ buffer.old }
    ensures unmeasured { result ≢ code Status.Done → result ≢ code Status.TooSmall → needed.new ≡ needed.old }
{
    let Ok(prefix) = std::str::from_utf8(prefix) else {
        return Status::NotUtf8.code();
    };
    let Some(names) = texts_from(instance, binding, service, plan) else {
        return Status::NotUtf8.code();
    };
    let Some(operation) = text_if(has_operation, operation) else {
        return Status::NotUtf8.code();
    };
    let Some(asked) = asked_from(request, instance_id) else {
        return Status::BadKind.code();
    };
    match target_text(alloc, prefix, &asked, &names, is_fetch, operation) {
        Ok(text) => write_text(text.as_str(), buffer, needed).code(),
        Err(fault) => status_of(fault).code(),
    }
}

// The body of a request of the kind.
fn body_text(
    alloc: Global,
    kind: Kind,
    names: &BindingNames,
    further: &str,
) -> Result<String, Status>
    ensures body { IfOk result (λ text. IsSomeAnd (members_in further.now) (λ members. sent.IsBindingBody kind
        names.now.service.now names.now.plan.now members (string_bytes text))) }
    ensures kept { IfOk result (λ text. kind ≡ Kind.Provision → (name : List ℕ) → binds.IsFurther name
        → option_and_then (get name) (read (string_bytes text)) ≡ option_and_then (get name) (read further.now)) }
    ensures texts { IfOk result (λ text. kind ≡ Kind.Provision
        → (option_and_then (text_at (codes "service_id")) (object_in (string_bytes text)) ≡ Some names.now.service.now)
        × (option_and_then (text_at (codes "plan_id")) (object_in (string_bytes text)) ≡ Some names.now.plan.now)) }
    ensures back { IfOk result (λ text. kind ≡ Kind.Provision
        → (s p : ℕ) → number_of names.now.service.now ≡ Some s → number_of names.now.plan.now ≡ Some p
        → binds.bind_in (string_bytes text) ≡ Ok (s, p)) }
    ensures not_json { result ≡ Err Status.NotJson → read further.now ≡ None }
    ensures not_an_object { result ≡ Err Status.NotAnObject
        → IsSome (read further.now) × (members_in further.now ≡ None) }
    ensures faults { IfErr result (λ fault. IsTrue (is_one_of
        (Status.NotJson ∷ Status.NotAnObject ∷ Status.Memory ∷ []) (code fault))) }
{
    let members = match read_members(alloc, further) {
        Ok(members) => members,
        Err(fault) => return Err(fault),
    };
    match osb_binding_wire::write_binding_body(alloc, kind, names, members) {
        Ok(text) => Ok(text),
        Err(_) => Err(Status::Memory),
    }
}

/// Writes the body of a request of the kind to the front of `buffer`, and its length to `needed`; the rest of the
/// buffer is as before. It is, of a Bind (`Provision`), an object of `service_id` and `plan_id`, which are the texts
/// that are given, and the members of `further`, the text of an object (`{}` for none), of which none stands in the
/// place of those two; else it is empty (sections Binding, Unbinding, Polling Last Operation for Service Bindings and
/// Fetching a Service Binding).
///
/// It returns `Done`; `NotUtf8` exactly if one of the texts isn't UTF-8; else `BadKind` exactly if the number stands
/// for no kind; `NotJson` if `further` has no reading as JSON; `NotAnObject` if it isn't an object; `TooSmall` if the
/// buffer is shorter than `needed` bytes, a number that is written all the same; or, in place of any of these but
/// `NotUtf8` and `BadKind`, `Memory` if an allocation failed. If it isn't `Done`, the buffer is as before, and if it is
/// neither that nor `TooSmall`, `needed` too.
#[unsafe(no_mangle)]
pub extern "C" fn osb_write_binding_body(
    alloc: Global,
    kind: u8,
    service: &[u8],
    plan: &[u8],
    further: &[u8],
    buffer: &mut [u8],
    needed: &mut usize,
) -> u32
    ensures body { result ≡ code Status.Done → IsSomeAnd (kind_of kind) (λ k.
        IsSomeAnd (members_in further.now) (λ members. sent.IsBindingBody k service.now plan.now members
        (take needed.new buffer.new))) }
    ensures kept { result ≡ code Status.Done → kind_of kind ≡ Some Kind.Provision
        → (name : List ℕ) → binds.IsFurther name
        → option_and_then (get name) (read (take needed.new buffer.new))
        ≡ option_and_then (get name) (read further.now) }
    ensures texts { result ≡ code Status.Done → kind_of kind ≡ Some Kind.Provision
        → (option_and_then (text_at (codes "service_id")) (object_in (take needed.new buffer.new)) ≡ Some service.now)
        × (option_and_then (text_at (codes "plan_id")) (object_in (take needed.new buffer.new)) ≡ Some plan.now) }
    ensures back { result ≡ code Status.Done → kind_of kind ≡ Some Kind.Provision
        → (s p : ℕ) → number_of service.now ≡ Some s → number_of plan.now ≡ Some p
        → binds.bind_in (take needed.new buffer.new) ≡ Ok (s, p) }
    ensures within { result ≡ code Status.Done → needed.new ≤ length buffer.new }
    ensures rest { result ≡ code Status.Done → drop needed.new buffer.new ≡ drop needed.new buffer.old }

    ensures not_utf8 { (result ≡ code Status.NotUtf8) ↔ ¬ (IsUtf8 service.now × IsUtf8 plan.now × IsUtf8 further.now) }
    ensures bad_kind { (result ≡ code Status.BadKind)
        ↔ (IsUtf8 service.now × IsUtf8 plan.now × IsUtf8 further.now × IsNone (kind_of kind)) }
    ensures not_json { result ≡ code Status.NotJson → read further.now ≡ None }
    ensures not_an_object { result ≡ code Status.NotAnObject
        → IsSome (read further.now) × (members_in further.now ≡ None) }
    ensures too_small { result ≡ code Status.TooSmall → (text : List ℕ) × (texts.IsTooLong text needed.new buffer.old)
        × IsSomeAnd (kind_of kind) (λ k. IsSomeAnd (members_in further.now) (λ members.
        sent.IsBindingBody k service.now plan.now members text)) }
    ensures statuses { IsTrue (is_one_of (Status.Done ∷ Status.NotUtf8 ∷ Status.BadKind ∷ Status.NotJson
        ∷ Status.NotAnObject ∷ Status.TooSmall ∷ Status.Memory ∷ []) result) }
    ensures unwritten { result ≢ code Status.Done → buffer.new ≡ buffer.old }
    ensures unmeasured { result ≢ code Status.Done → result ≢ code Status.TooSmall → needed.new ≡ needed.old }
{
    let Ok(service) = std::str::from_utf8(service) else {
        return Status::NotUtf8.code();
    };
    let Ok(plan) = std::str::from_utf8(plan) else {
        return Status::NotUtf8.code();
    };
    let Ok(further) = std::str::from_utf8(further) else {
        return Status::NotUtf8.code();
    };
    let Some(kind) = kind_from(kind) else {
        return Status::BadKind.code();
    };
    let names = BindingNames {
        instance: "",
        binding: "",
        service,
        plan,
    };
    match body_text(alloc, kind, &names, further) {
        Ok(text) => write_text(text.as_str(), buffer, needed).code(),
        Err(status) => status.code(),
    }
}

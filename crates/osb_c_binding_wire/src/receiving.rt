//! What a broker takes from a request of a binding: what is asked, the texts of ids and the parts of the body.
ghost use Rattle.std.specs.Prelude.{◌≡◌, ◌≢◌, ◌↔◌, ◌⊎◌, ◌<◌, ◌++◌, [], ◌∷◌, Some, Ok, Err};
ghost use Rattle.std.specs.Prelude.{IfOk, IfErr, OnOk, length, drop};
ghost use Rattle.std.specs.Prelude.{IsTrue, IsOk, IsOkAnd, IsSome, IsSomeAnd, option_map, string_bytes};
ghost use Rattle.std.specs.Str.{IsUtf8};
ghost use Rattle.osb_binding_wire.specs.Requests.{binding_text_in, instance_text_in, place_asked, request_in};
ghost use Rattle.osb_c_types.specs.Status.{code, is_one_of};
ghost use Rattle.osb_c_wire.specs.Texts as texts;
ghost use Rattle.osb_c_binding_wire.specs.Asked as crossed;
ghost use Rattle.osb_c_binding_wire.specs.Received as taken;
ghost use Rattle.osb_c_binding_wire.specs.Refusals.{refusal_status};

use crate::asking::{OsbBindingAsked, asked_out};
use crate::refusals::status_from;
use osb_binding_wire::{BindingParts, BindingReceived, BindingRefusal, read_binding_request};
use osb_c_types::{Status, write_text};
use osb_c_wire::{length_if, push_if};
use osb_wire::Refusal;
use std::alloc::{AllocError, Global};

/// Which texts of a request of a binding stand in a buffer, and how long each is: 0 if it isn't there. They stand one
/// after the other, in the order of the lengths.
#[repr(C)]
#[derive(Clone, Copy)]
pub struct OsbBindingReceived {
    /// Whether it names its service (`service_id`).
    pub has_service: bool,
    /// Whether it names its plan (`plan_id`).
    pub has_plan: bool,
    /// Whether its body has `bind_resource`.
    pub has_bind_resource: bool,
    /// Whether its body has `parameters`.
    pub has_parameters: bool,
    /// Whether its body has `context`.
    pub has_context: bool,
    /// Whether its body has `predecessor_binding_id`.
    pub has_predecessor_binding_id: bool,
    /// The length of the text of the instance's id, as the path has it, decoded.
    pub instance: usize,
    /// The length of the text of the binding's id, as the path has it, decoded.
    pub binding: usize,
    /// The length of the text of the service's id.
    pub service: usize,
    /// The length of the text of the plan's id.
    pub plan: usize,
    /// The length of `bind_resource`.
    pub bind_resource: usize,
    /// The length of `parameters`.
    pub parameters: usize,
    /// The length of `context`.
    pub context: usize,
    /// The length of `predecessor_binding_id`, with its quotes.
    pub predecessor_binding_id: usize,
}

// What a broker takes from a request, with the texts as one value.
fn read_received(
    alloc: Global,
    prefix: &str,
    longest_body: usize,
    method: &str,
    target: &[u8],
    body: &[u8],
) -> Result<BindingReceived, BindingRefusal>
    ensures ok { IfOk result (λ it.
        request_in prefix.now longest_body method.now target.now body.now ≡ Ok it.asked) }
    ensures texts { IfOk result (λ it.
        taken.texts_of it ≡ taken.texts_in it.asked prefix.now target.now body.now) }
    ensures err { IfErr result (λ fault. (fault ≡ BindingRefusal.Refused Refusal.Memory)
        ⊎ (request_in prefix.now longest_body method.now target.now body.now ≡ Err fault)) }
    ensures place { (fault : BindingRefusal) → place_asked prefix.now method.now target.now ≡ Err fault
        → result ≡ Err fault }
    ensures too_long { IsOk (place_asked prefix.now method.now target.now)
        → longest_body < length body.now → result ≡ Err (BindingRefusal.Refused Refusal.TooLong) }
{
    read_binding_request(alloc, prefix, longest_body, method, target, body)
}

// Adds the parts of a body.
#[tactic(auto, using(std::proofs::Common::append_assoc))]
fn push_parts(all: &mut String, parts: &BindingParts) -> Result<(), AllocError>
    ensures all { OnOk result (string_bytes all.new ≡ string_bytes all.old
        ++ (texts.or_nothing (option_map string_bytes parts.now.bind_resource)
        ++ (texts.or_nothing (option_map string_bytes parts.now.parameters)
        ++ (texts.or_nothing (option_map string_bytes parts.now.context)
        ++ texts.or_nothing (option_map string_bytes parts.now.predecessor_binding_id))))) }
{
    push_if(all, &parts.bind_resource)?;
    push_if(all, &parts.parameters)?;
    push_if(all, &parts.context)?;
    push_if(all, &parts.predecessor_binding_id)
}

// The texts, one after the other.
#[tactic(auto, using(std::proofs::Common::append_assoc))]
fn joined(alloc: Global, it: &BindingReceived) -> Result<String, AllocError>
    ensures text { IfOk result (λ text. string_bytes text ≡ taken.joined (taken.texts_of it.now)) }
{
    let mut all = String::from_str(alloc, it.instance.as_str())?;
    all.push_str(it.binding.as_str())?;
    push_if(&mut all, &it.service)?;
    push_if(&mut all, &it.plan)?;
    push_parts(&mut all, &it.parts)?;
    Ok(all)
}

// Which texts there are, and how long each is.
fn measured(it: &BindingReceived) -> OsbBindingReceived
    ensures measured { taken.AreMeasured result (taken.texts_of it.now) }
{
    OsbBindingReceived {
        has_service: it.service.is_some(),
        has_plan: it.plan.is_some(),
        has_bind_resource: it.parts.bind_resource.is_some(),
        has_parameters: it.parts.parameters.is_some(),
        has_context: it.parts.context.is_some(),
        has_predecessor_binding_id: it.parts.predecessor_binding_id.is_some(),
        instance: it.instance.len(),
        binding: it.binding.len(),
        service: length_if(&it.service),
        plan: length_if(&it.plan),
        bind_resource: length_if(&it.parts.bind_resource),
        parameters: length_if(&it.parts.parameters),
        context: length_if(&it.parts.context),
        predecessor_binding_id: length_if(&it.parts.predecessor_binding_id),
    }
}

// Writes what was taken from a request.
fn write_received(
    alloc: Global,
    it: &BindingReceived,
    asked: &mut OsbBindingAsked,
    received: &mut OsbBindingReceived,
    buffer: &mut [u8],
    needed: &mut usize,
) -> Status
    ensures asked { result ≡ Status.Done → crossed.asked_of asked.new ≡ Some it.now.asked }
    ensures plain { result ≡ Status.Done → crossed.IsPlainAsked asked.new }
    ensures texts { result ≡ Status.Done
        → texts.IsWritten (taken.joined (taken.texts_of it.now)) needed.new buffer.new }
    ensures measured { result ≡ Status.Done → taken.AreMeasured received.new (taken.texts_of it.now) }
    ensures rest { result ≡ Status.Done → drop needed.new buffer.new ≡ drop needed.new buffer.old }

    ensures too_small { result ≡ Status.TooSmall
        → texts.IsTooLong (taken.joined (taken.texts_of it.now)) needed.new buffer.old }
    ensures statuses { IsTrue (is_one_of (Status.Done ∷ Status.TooSmall ∷ Status.Memory ∷ []) (code result)) }
    ensures unwritten { result ≢ Status.Done → (buffer.new ≡ buffer.old) × (asked.new ≡ asked.old)
        × (received.new ≡ received.old) }
    ensures unmeasured { result ≢ Status.Done → result ≢ Status.TooSmall → needed.new ≡ needed.old }
{
    let Ok(text) = joined(alloc, it) else {
        return Status::Memory;
    };
    match write_text(text.as_str(), buffer, needed) {
        Status::Done => {
            *asked = asked_out(it.asked);
            *received = measured(it);
            Status::Done
        }
        _ => Status::TooSmall,
    }
}

/// Reads what a request asks of a binding, from its method, its target (the path and the query, as the request line has
/// them) and all of its body. The path begins with the prefix, which is empty or what the broker's own URL has before
/// `/v2`. A body of more than `longest_body` bytes is refused unread. The texts of the ids and the parts of the body go
/// to the front of `buffer`, one after the other, and the length of all to `needed`; the rest of the buffer is as
/// before. `received` says which there are and how long each is. They stand in this order: the texts of the instance's
/// id and of the binding's, those of the service's and of the plan's, if the request names them, and of the body of a
/// Bind `bind_resource`, `parameters`, `context` and `predecessor_binding_id`; each with no spaces, numbers as they are
/// written, members in their order (sections Binding, Unbinding, Polling Last Operation for Service Bindings and
/// Fetching a Service Binding; the order of the refusals is this project's choice).
///
/// It returns `Done`, or the first of these that fits: `NotUtf8` if the prefix or the method isn't UTF-8;
/// `RefusedTarget`, `RefusedMethod`, `RefusedInstance` and `RefusedBinding`; `RefusedLength`; and the first of
/// `RefusedRepeated` to `RefusedBody` in the order of `osb_binding_wire::read_binding_request`; `TooSmall` if the
/// buffer is shorter than `needed` bytes, a number that is written all the same; or, in place of `Done` and of these
/// last, `Memory` if an allocation failed. If it isn't `Done`, what is asked and received and the buffer are as before,
/// and if it is neither that nor `TooSmall`, `needed` too.
#[unsafe(no_mangle)]
pub extern "C" fn osb_receive_binding_request(
    alloc: Global,
    prefix: &[u8],
    longest_body: usize,
    method: &[u8],
    target: &[u8],
    body: &[u8],
    asked: &mut OsbBindingAsked,
    received: &mut OsbBindingReceived,
    buffer: &mut [u8],
    needed: &mut usize,
) -> u32
    ensures asked { result ≡ code Status.Done → IsSomeAnd (crossed.asked_of asked.new) (λ it.
        request_in prefix.now longest_body method.now target.now body.now ≡ Ok it) }
    ensures plain { result ≡ code Status.Done → crossed.IsPlainAsked asked.new }
    ensures texts { result ≡ code Status.Done → IsOkAnd
        (request_in prefix.now longest_body method.now target.now body.now) (λ it. texts.IsWritten
        (taken.joined (taken.texts_in it prefix.now target.now body.now)) needed.new buffer.new) }
    ensures measured { result ≡ code Status.Done → IsOkAnd
        (request_in prefix.now longest_body method.now target.now body.now) (λ it.
        taken.AreMeasured received.new (taken.texts_in it prefix.now target.now body.now)) }
    ensures named { result ≡ code Status.Done → IsSome (instance_text_in prefix.now target.now)
        × IsSome (binding_text_in prefix.now target.now) }
    ensures rest { result ≡ code Status.Done → drop needed.new buffer.new ≡ drop needed.new buffer.old }

    ensures refused { (fault : BindingRefusal) → fault ≢ BindingRefusal.Refused Refusal.Memory
        → result ≡ code (refusal_status fault)
        → request_in prefix.now longest_body method.now target.now body.now ≡ Err fault }
    ensures place { IsUtf8 prefix.now → IsUtf8 method.now → (fault : BindingRefusal)
        → place_asked prefix.now method.now target.now ≡ Err fault → result ≡ code (refusal_status fault) }
    ensures too_long { IsUtf8 prefix.now → IsUtf8 method.now
        → IsOk (place_asked prefix.now method.now target.now)
        → longest_body < length body.now → result ≡ code Status.RefusedLength }
    ensures not_utf8 { (result ≡ code Status.NotUtf8) ↔ ¬ (IsUtf8 prefix.now × IsUtf8 method.now) }
    ensures too_small { result ≡ code Status.TooSmall → IsOkAnd
        (request_in prefix.now longest_body method.now target.now body.now) (λ it. texts.IsTooLong
        (taken.joined (taken.texts_in it prefix.now target.now body.now)) needed.new buffer.old) }
    ensures statuses { IsTrue (is_one_of (Status.Done ∷ Status.NotUtf8 ∷ Status.RefusedTarget ∷ Status.RefusedMethod
        ∷ Status.RefusedInstance ∷ Status.RefusedBinding ∷ Status.RefusedLength ∷ Status.RefusedRepeated
        ∷ Status.RefusedService ∷ Status.RefusedPlan ∷ Status.RefusedAcceptsIncomplete ∷ Status.RefusedBody
        ∷ Status.TooSmall ∷ Status.Memory ∷ []) result) }
    ensures unwritten { result ≢ code Status.Done → (buffer.new ≡ buffer.old) × (asked.new ≡ asked.old)
        × (received.new ≡ received.old) }
    ensures unmeasured { result ≢ code Status.Done → result ≢ code Status.TooSmall → needed.new ≡ needed.old }
{
    let Ok(prefix) = std::str::from_utf8(prefix) else {
        return Status::NotUtf8.code();
    };
    let Ok(method) = std::str::from_utf8(method) else {
        return Status::NotUtf8.code();
    };
    match read_received(alloc, prefix, longest_body, method, target, body) {
        Ok(it) => write_received(alloc, &it, asked, received, buffer, needed).code(),
        Err(fault) => status_from(fault).code(),
    }
}

//! What a broker takes from an Update or a Fetch: what is asked, the texts of ids and the parts of the body.
ghost use Rattle.std.specs.Prelude.{◌≡◌, ◌≢◌, ◌↔◌, ◌⊎◌, ◌<◌, ◌++◌, [], ◌∷◌, Some, Ok, Err};
ghost use Rattle.std.specs.Prelude.{IfOk, IfErr, OnOk, length, drop};
ghost use Rattle.std.specs.Prelude.{IsTrue, IsOk, IsOkAnd, IsSome, option_map, string_bytes};
ghost use Rattle.std.specs.Str.{IsUtf8};
ghost use Rattle.osb_wire.specs.Requests.{instance_text_in};
ghost use Rattle.osb_update_wire.specs.Requests.{place_asked, request_in};
ghost use Rattle.osb_c_types.specs.Status.{code, is_one_of};
ghost use Rattle.osb_c_wire.specs.Texts as texts;
ghost use Rattle.osb_c_update_wire.specs.Asked as crossed;
ghost use Rattle.osb_c_update_wire.specs.Received as taken;
ghost use Rattle.osb_c_update_wire.specs.Refusals.{refusal_status};

use crate::asking::{OsbUpdateAsked, asked_out};
use crate::refusals::status_from;
use osb_c_types::{Status, write_text};
use osb_c_wire::{length_if, push_if};
use osb_update_wire::{UpdateParts, UpdateReceived, UpdateRefusal, read_update_request};
use osb_wire::Refusal;
use std::alloc::{AllocError, Global};

/// Which texts of an Update or a Fetch stand in a buffer, and how long each is: 0 if it isn't there. They stand one after
/// the other, in the order of the lengths.
#[repr(C)]
#[derive(Clone, Copy)]
pub struct OsbUpdateReceived {
    /// Whether it names its service (`service_id`).
    pub has_service: bool,
    /// Whether it names its plan (`plan_id`).
    pub has_plan: bool,
    /// Whether its body names `parameters`.
    pub has_parameters: bool,
    /// Whether its body names a version (`maintenance_info`).
    pub has_version: bool,
    /// Whether its body has `context`.
    pub has_context: bool,
    /// Whether its body has `previous_values`.
    pub has_previous_values: bool,
    /// The length of the text of the instance's id, as the path has it, decoded.
    pub instance: usize,
    /// The length of the text of the service's id.
    pub service: usize,
    /// The length of the text of the plan's id.
    pub plan: usize,
    /// The length of `parameters`.
    pub parameters: usize,
    /// The length of the version, without quotes.
    pub version: usize,
    /// The length of `context`.
    pub context: usize,
    /// The length of `previous_values`.
    pub previous_values: usize,
}

// What a broker takes from a request, with the texts as one value.
fn read_received(
    alloc: Global,
    prefix: &str,
    longest_body: usize,
    method: &str,
    target: &[u8],
    body: &[u8],
) -> Result<UpdateReceived, UpdateRefusal>
    ensures ok { IfOk result (λ it.
        request_in prefix.now longest_body method.now target.now body.now ≡ Ok it.asked) }
    ensures texts { IfOk result (λ it.
        taken.texts_of it ≡ taken.texts_in it.asked prefix.now target.now body.now) }
    ensures err { IfErr result (λ fault. (fault ≡ UpdateRefusal.Refused Refusal.Memory)
        ⊎ (request_in prefix.now longest_body method.now target.now body.now ≡ Err fault)) }
    ensures place { (fault : UpdateRefusal) → place_asked prefix.now method.now target.now ≡ Err fault
        → result ≡ Err fault }
    ensures too_long { IsOk (place_asked prefix.now method.now target.now)
        → longest_body < length body.now → result ≡ Err (UpdateRefusal.Refused Refusal.TooLong) }
{
    read_update_request(alloc, prefix, longest_body, method, target, body)
}

// Adds the parts of a body.
#[tactic(auto, using(std::proofs::Common::append_assoc))]
fn push_parts(all: &mut String, parts: &UpdateParts) -> Result<(), AllocError>
    ensures all { OnOk result (string_bytes all.new ≡ string_bytes all.old
        ++ (texts.or_nothing (option_map string_bytes parts.now.parameters)
        ++ (texts.or_nothing (option_map string_bytes parts.now.version)
        ++ (texts.or_nothing (option_map string_bytes parts.now.context)
        ++ texts.or_nothing (option_map string_bytes parts.now.previous_values))))) }
{
    push_if(all, &parts.parameters)?;
    push_if(all, &parts.version)?;
    push_if(all, &parts.context)?;
    push_if(all, &parts.previous_values)
}

// The texts, one after the other.
#[tactic(auto, using(std::proofs::Common::append_assoc))]
fn joined(alloc: Global, it: &UpdateReceived) -> Result<String, AllocError>
    ensures text { IfOk result (λ text. string_bytes text ≡ taken.joined (taken.texts_of it.now)) }
{
    let mut all = String::from_str(alloc, it.instance.as_str())?;
    push_if(&mut all, &it.service)?;
    push_if(&mut all, &it.plan)?;
    push_parts(&mut all, &it.parts)?;
    Ok(all)
}

// Which texts there are, and how long each is.
fn measured(it: &UpdateReceived) -> OsbUpdateReceived
    ensures measured { taken.AreMeasured result (taken.texts_of it.now) }
{
    OsbUpdateReceived {
        has_service: it.service.is_some(),
        has_plan: it.plan.is_some(),
        has_parameters: it.parts.parameters.is_some(),
        has_version: it.parts.version.is_some(),
        has_context: it.parts.context.is_some(),
        has_previous_values: it.parts.previous_values.is_some(),
        instance: it.instance.len(),
        service: length_if(&it.service),
        plan: length_if(&it.plan),
        parameters: length_if(&it.parts.parameters),
        version: length_if(&it.parts.version),
        context: length_if(&it.parts.context),
        previous_values: length_if(&it.parts.previous_values),
    }
}

// Writes what was taken from a request.
fn write_received(
    alloc: Global,
    it: &UpdateReceived,
    asked: &mut OsbUpdateAsked,
    received: &mut OsbUpdateReceived,
    buffer: &mut [u8],
    needed: &mut usize,
) -> Status
    ensures asked { result ≡ Status.Done → crossed.asked_of asked.new ≡ it.now.asked }
    ensures plain { code result ≡ code Status.Done → crossed.IsPlainAsked asked.new }
    ensures texts { result ≡ Status.Done
        → texts.IsWritten (taken.joined (taken.texts_of it.now)) needed.new buffer.new }
    ensures measured { result ≡ Status.Done → taken.AreMeasured received.new (taken.texts_of it.now) }
    ensures rest { result ≡ Status.Done → drop needed.new buffer.new ≡ drop needed.new buffer.old }

    ensures too_small { result ≡ Status.TooSmall
        → texts.IsTooLong (taken.joined (taken.texts_of it.now)) needed.new buffer.old }
    ensures statuses { IsTrue (is_one_of (Status.Done ∷ Status.TooSmall ∷ Status.Memory ∷ []) (code result)) }
    ensures unwritten { result ≢ Status.Done → (buffer.new ≡ buffer.old) × (asked.new ≡ asked.old)
        × (received.new ≡ received.old) }
    ensures unmeasured { result ≢ Status.Done → result ≢ Status.TooSmall → needed.new ≡ needed.old }
{
    let Ok(text) = joined(alloc, it) else {
        return Status::Memory;
    };
    match write_text(text.as_str(), buffer, needed) {
        Status::Done => {
            *asked = asked_out(&it.asked);
            *received = measured(it);
            Status::Done
        }
        _ => Status::TooSmall,
    }
}

/// Reads what an Update (`PATCH`) or a Fetch (`GET`) asks of an instance, from its method, its target (the path and the
/// query, as the request line has them) and all of its body. The path begins with the prefix, which is empty or what the
/// broker's own URL has before `/v2`. A body of more than `longest_body` bytes is refused unread. The texts of the ids
/// and the parts of the body go to the front of `buffer`, one after the other, and the length of all to `needed`; the
/// rest of the buffer is as before. `received` says which there are and how long each is. They stand in this order: the
/// text of the instance's id, those of the service's and of the plan's, if the request names them, and of the body of an
/// Update the `parameters` that it names, the version that its `maintenance_info` names, `context` and
/// `previous_values`; JSON with no spaces, numbers as they are written, members in their order (sections Updating a
/// Service Instance and Fetching a Service Instance; the order of the refusals is this project's choice).
///
/// It returns `Done`, or the first of these that fits: `NotUtf8` if the prefix or the method isn't UTF-8;
/// `RefusedTarget`, `RefusedMethod` and `RefusedInstance`; `RefusedLength`; and the first of `RefusedRepeated` to
/// `RefusedBody`, and of `RefusedNumber`, in the order of `osb_update_wire::read_update_request`; `TooSmall` if the
/// buffer is shorter than `needed` bytes, a number that is written all the same; or, in place of `Done` and of these
/// last, `Memory` if an allocation failed. If it isn't `Done`, what is asked and received and the buffer are as before,
/// and if it is neither that nor `TooSmall`, `needed` too.
#[unsafe(no_mangle)]
pub extern "C" fn osb_receive_update_request(
    alloc: Global,
    prefix: &[u8],
    longest_body: usize,
    method: &[u8],
    target: &[u8],
    body: &[u8],
    asked: &mut OsbUpdateAsked,
    received: &mut OsbUpdateReceived,
    buffer: &mut [u8],
    needed: &mut usize,
) -> u32
    ensures asked { result ≡ code Status.Done
        → request_in prefix.now longest_body method.now target.now body.now ≡ Ok (crossed.asked_of asked.new) }
    ensures plain { result ≡ code Status.Done → crossed.IsPlainAsked asked.new }
    ensures texts { result ≡ code Status.Done → IsOkAnd
        (request_in prefix.now longest_body method.now target.now body.now) (λ it. texts.IsWritten
        (taken.joined (taken.texts_in it prefix.now target.now body.now)) needed.new buffer.new) }
    ensures measured { result ≡ code Status.Done → IsOkAnd
        (request_in prefix.now longest_body method.now target.now body.now) (λ it.
        taken.AreMeasured received.new (taken.texts_in it prefix.now target.now body.now)) }
    ensures named { result ≡ code Status.Done → IsSome (instance_text_in prefix.now target.now) }
    ensures rest { result ≡ code Status.Done → drop needed.new buffer.new ≡ drop needed.new buffer.old }

    ensures refused { (fault : UpdateRefusal) → fault ≢ UpdateRefusal.Refused Refusal.Memory
        → result ≡ code (refusal_status fault)
        → request_in prefix.now longest_body method.now target.now body.now ≡ Err fault }
    ensures place { IsUtf8 prefix.now → IsUtf8 method.now → (fault : UpdateRefusal)
        → place_asked prefix.now method.now target.now ≡ Err fault → result ≡ code (refusal_status fault) }
    ensures too_long { IsUtf8 prefix.now → IsUtf8 method.now
        → IsOk (place_asked prefix.now method.now target.now)
        → longest_body < length body.now → result ≡ code Status.RefusedLength }
    ensures not_utf8 { (result ≡ code Status.NotUtf8) ↔ ¬ (IsUtf8 prefix.now × IsUtf8 method.now) }
    ensures too_small { result ≡ code Status.TooSmall → IsOkAnd
        (request_in prefix.now longest_body method.now target.now body.now) (λ it. texts.IsTooLong
        (taken.joined (taken.texts_in it prefix.now target.now body.now)) needed.new buffer.old) }
    ensures statuses { IsTrue (is_one_of (Status.Done ∷ Status.NotUtf8 ∷ Status.RefusedTarget ∷ Status.RefusedMethod
        ∷ Status.RefusedInstance ∷ Status.RefusedLength ∷ Status.RefusedRepeated ∷ Status.RefusedService
        ∷ Status.RefusedPlan ∷ Status.RefusedAcceptsIncomplete ∷ Status.RefusedBody ∷ Status.RefusedNumber
        ∷ Status.TooSmall ∷ Status.Memory ∷ []) result) }
    ensures unwritten { result ≢ code Status.Done → (buffer.new ≡ buffer.old) × (asked.new ≡ asked.old)
        × (received.new ≡ received.old) }
    ensures unmeasured { result ≢ code Status.Done → result ≢ code Status.TooSmall → needed.new ≡ needed.old }
{
    let Ok(prefix) = std::str::from_utf8(prefix) else {
        return Status::NotUtf8.code();
    };
    let Ok(method) = std::str::from_utf8(method) else {
        return Status::NotUtf8.code();
    };
    match read_received(alloc, prefix, longest_body, method, target, body) {
        Ok(it) => write_received(alloc, &it, asked, received, buffer, needed).code(),
        Err(fault) => status_from(fault).code(),
    }
}

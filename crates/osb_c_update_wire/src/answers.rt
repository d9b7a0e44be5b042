//! The bodies of a broker's answers to an Update and to a Fetch.
ghost use Rattle.std.specs.Prelude.{◌≡◌, ◌≢◌, ◌↔◌, ◌≤◌, ℕ, List, [], ◌∷◌, true, Some, codes, length, take, drop};
ghost use Rattle.std.specs.Prelude.{IfSome, IsSome, IsTrue};
ghost use Rattle.std.specs.Str.{IsUtf8};
ghost use Rattle.json.specs.Json.{Json};
ghost use Rattle.osb_message.specs.declared.messages.Body.TheVariants as Body;
ghost use Rattle.osb_message.specs.declared.messages.Kind.{Kind};
ghost use Rattle.osb_message.specs.declared.messages.Kind.TheVariants as Kinds;
ghost use Rattle.osb_wire.specs.Answers.{answer_in, is_success, operation_in};
ghost use Rattle.osb_wire.specs.Bodies.{object_in};
ghost use Rattle.osb_wire.specs.Details.{flag_in, text_in};
ghost use Rattle.osb_wire.specs.IdTexts.{number_of};
ghost use Rattle.osb_wire.specs.WrittenAnswers.{is_carried};
ghost use Rattle.osb_update_wire.specs.Answers.{CanBeRead, operation_given};
ghost use Rattle.osb_update_wire.specs.Fetched.{reported_in, said_of, settings_by};
ghost use Rattle.osb_update_wire.specs.Patches as patches;
ghost use Rattle.osb_update_wire.specs.Said as said;
ghost use Rattle.osb_update_wire.specs.Versions.{digest_or_none};
ghost use Rattle.osb_c_types.specs.Answers.{answer_of, body_of};
ghost use Rattle.osb_c_types.specs.Status.{code, is_one_of};
ghost use Rattle.osb_c_wire.specs.Texts as texts;
ghost use Rattle.osb_c_update_wire.specs.Answers.{failure_with, flag_if, said_with, success_with};

use osb_c_types::{OsbAnswer, Status, answer_from, write_text};
use osb_c_wire::text_if;
use osb_update_wire::InstanceTexts;
use std::alloc::Global;

/// Writes the body of an answer with the status 200, 201 or 202 to an Update or a Provision to the front of `buffer`, and
/// its length to `needed`; the rest of the buffer is as before. It is an object with the `operation`, which is written in
/// a 202 alone, with where the instance is managed (`dashboard_url`) and with `metadata`, each if its flag is true.
/// Metadata is the text of a JSON object, and counts as none if it isn't. An operation of more than 10,000 characters
/// counts as none (sections Provisioning and Updating a Service Instance).
///
/// It returns `Done`; `NotUtf8` exactly if a text counts and isn't UTF-8; `TooSmall` if the buffer is shorter than
/// `needed` bytes, a number that is written all the same; or, in place of `Done` and of `TooSmall`, `Memory` if an
/// allocation failed. If it isn't `Done`, the buffer is as before, and if it is neither that nor `TooSmall`, `needed`
/// too.
#[unsafe(no_mangle)]
pub extern "C" fn osb_write_success(
    alloc: Global,
    status: u16,
    has_operation: bool,
    operation: &[u8],
    has_dashboard_url: bool,
    dashboard_url: &[u8],
    has_metadata: bool,
    metadata: &[u8],
    buffer: &mut [u8],
    needed: &mut usize,
) -> u32
    ensures object { result ≡ code Status.Done → CanBeRead (success_with status has_operation operation.now
        has_dashboard_url dashboard_url.now has_metadata metadata.now)
        → object_in (take needed.new buffer.new) ≡ Some (success_with status has_operation operation.now
        has_dashboard_url dashboard_url.now has_metadata metadata.now) }
    ensures answer { result ≡ code Status.Done → is_success status ≡ true → CanBeRead (success_with status
        has_operation operation.now has_dashboard_url dashboard_url.now has_metadata metadata.now)
        → answer_in Kinds.Provision status (take needed.new buffer.new)
        ≡ Some record { status = status; body = Body.Empty } }
    ensures operation { result ≡ code Status.Done → CanBeRead (success_with status has_operation operation.now
        has_dashboard_url dashboard_url.now has_metadata metadata.now)
        → operation_in (take needed.new buffer.new)
        ≡ operation_given status (texts.text_if has_operation operation.now) }
    ensures dashboard_url { result ≡ code Status.Done → CanBeRead (success_with status has_operation operation.now
        has_dashboard_url dashboard_url.now has_metadata metadata.now)
        → text_in (codes "dashboard_url") (take needed.new buffer.new)
        ≡ texts.text_if has_dashboard_url dashboard_url.now }
    ensures within { result ≡ code Status.Done → needed.new ≤ length buffer.new }
    ensures rest { result ≡ code Status.Done → drop needed.new buffer.new ≡ drop needed.new buffer.old }

    ensures not_utf8 { (result ≡ code Status.NotUtf8) ↔ ¬ (texts.IsUtf8If has_operation operation.now
        × texts.IsUtf8If has_dashboard_url dashboard_url.now × texts.IsUtf8If has_metadata metadata.now) }
    ensures too_small { result ≡ code Status.TooSmall → (text : List ℕ) × (texts.IsTooLong text needed.new buffer.old)
        × (CanBeRead (success_with status has_operation operation.now has_dashboard_url dashboard_url.now has_metadata
        metadata.now) → object_in text ≡ Some (success_with status has_operation operation.now has_dashboard_url
        dashboard_url.now has_metadata metadata.now)) }
    ensures statuses { IsTrue (is_one_of
        (Status.Done ∷ Status.NotUtf8 ∷ Status.TooSmall ∷ Status.Memory ∷ []) result) }
    ensures unwritten { result ≢ code Status.Done → buffer.new ≡ buffer.old }
    ensures unmeasured { result ≢ code Status.Done → result ≢ code Status.TooSmall → needed.new ≡ needed.old }
{
    let Some(operation) = text_if(has_operation, operation) else {
        return Status::NotUtf8.code();
    };
    let Some(dashboard_url) = text_if(has_dashboard_url, dashboard_url) else {
        return Status::NotUtf8.code();
    };
    let Some(metadata) = text_if(has_metadata, metadata) else {
        return Status::NotUtf8.code();
    };
    let Ok(text) = osb_update_wire::write_success(alloc, status, operation, dashboard_url, metadata)
    else {
        return Status::Memory.code();
    };
    write_text(text.as_str(), buffer, needed).code()
}

// A flag that counts if another says so.
fn some_flag(is_there: bool, says: bool) -> Option<bool>
    ensures flag { result ≡ flag_if is_there says }
{
    if is_there { Some(says) } else { None }
}

/// Writes the body of an answer to an Update, or to a Poll of an update, that has failed to the front of `buffer`, and its
/// length to `needed`; the rest of the buffer is as before. It is what `osb_write_told_answer` writes with no operation,
/// with whether the instance can be used (`instance_usable`) and whether the Update may be sent again
/// (`update_repeatable`), each if its flag is true. The description counts if `has_description` is true (sections
/// Updating a Service Instance, Polling Last Operation for Service Instances and Service Broker Errors).
///
/// It returns `Done`; `NotUtf8` exactly if the description counts and isn't UTF-8; `TooSmall` if the buffer is shorter
/// than `needed` bytes, a number that is written all the same; or, in place of `Done` and of `TooSmall`, `Memory` if an
/// allocation failed. If it isn't `Done`, the buffer is as before, and if it is neither that nor `TooSmall`, `needed`
/// too.
#[unsafe(no_mangle)]
pub extern "C" fn osb_write_failure(
    alloc: Global,
    answer: OsbAnswer,
    has_description: bool,
    description: &[u8],
    has_usable: bool,
    usable: bool,
    has_repeatable: bool,
    repeatable: bool,
    buffer: &mut [u8],
    needed: &mut usize,
) -> u32
    ensures object { result ≡ code Status.Done → object_in (take needed.new buffer.new)
        ≡ failure_with (answer_of answer) has_description description.now has_usable usable has_repeatable repeatable }
    ensures reads { result ≡ code Status.Done → (kind : Kind) → is_carried kind (answer_of answer) ≡ true
        → answer_in kind answer.status (take needed.new buffer.new) ≡ Some (answer_of answer) }
    ensures usable { result ≡ code Status.Done → body_of answer.body ≢ Body.Malformed
        → flag_in (codes "instance_usable") (take needed.new buffer.new) ≡ flag_if has_usable usable }
    ensures repeatable { result ≡ code Status.Done → body_of answer.body ≢ Body.Malformed
        → flag_in (codes "update_repeatable") (take needed.new buffer.new) ≡ flag_if has_repeatable repeatable }
    ensures within { result ≡ code Status.Done → needed.new ≤ length buffer.new }
    ensures rest { result ≡ code Status.Done → drop needed.new buffer.new ≡ drop needed.new buffer.old }

    ensures not_utf8 { (result ≡ code Status.NotUtf8) ↔ ¬ (texts.IsUtf8If has_description description.now) }
    ensures too_small { result ≡ code Status.TooSmall → (text : List ℕ) × (texts.IsTooLong text needed.new buffer.old)
        × (object_in text ≡ failure_with (answer_of answer) has_description description.now has_usable usable
        has_repeatable repeatable) }
    ensures statuses { IsTrue (is_one_of
        (Status.Done ∷ Status.NotUtf8 ∷ Status.TooSmall ∷ Status.Memory ∷ []) result) }
    ensures unwritten { result ≢ code Status.Done → buffer.new ≡ buffer.old }
    ensures unmeasured { result ≢ code Status.Done → result ≢ code Status.TooSmall → needed.new ≡ needed.old }
{
    let Some(description) = text_if(has_description, description) else {
        return Status::NotUtf8.code();
    };
    let usable = some_flag(has_usable, usable);
    let repeatable = some_flag(has_repeatable, repeatable);
    let answer = answer_from(answer);
    let Ok(text) = osb_update_wire::write_failure(alloc, answer, description, usable, repeatable)
    else {
        return Status::Memory.code();
    };
    write_text(text.as_str(), buffer, needed).code()
}

// The texts of the ids, if both are UTF-8.
fn ids_from<'t>(service: &'t [u8], plan: &'t [u8]) -> Option<(&'t str, &'t str)>
    ensures ids { IfSome result (λ ids. (ids.0.now ≡ service.now) × (ids.1.now ≡ plan.now)) }
    ensures utf8 { IsSome result ↔ (IsUtf8 service.now × IsUtf8 plan.now) }
{
    let Ok(service) = std::str::from_utf8(service) else {
        return None;
    };
    match std::str::from_utf8(plan) {
        Ok(plan) => Some((service, plan)),
        Err(_) => None,
    }
}

/// Writes the body of a 200 to a Fetch to the front of `buffer`, and its length to `needed`; the rest of the buffer is as
/// before. It is an object with the texts of the service's id and of the plan's, with the `parameters`, the version
/// (`maintenance_info`), where the instance is managed (`dashboard_url`) and `metadata`, each if its flag is true, and with
/// the number of the newest Update that was judged, unless it is 0 (`x-osb-update`). Parameters and metadata are texts of
/// JSON, and are left out if they aren't (section Fetching a Service Instance; the number is this project's choice).
///
/// It returns `Done`; `NotUtf8` exactly if the text of an id isn't UTF-8, or another text counts and isn't; `TooSmall` if
/// the buffer is shorter than `needed` bytes, a number that is written all the same; or, in place of `Done` and of
/// `TooSmall`, `Memory` if an allocation failed. If it isn't `Done`, the buffer is as before, and if it is neither that
/// nor `TooSmall`, `needed` too.
#[unsafe(no_mangle)]
pub extern "C" fn osb_write_fetched(
    alloc: Global,
    service: &[u8],
    plan: &[u8],
    has_parameters: bool,
    parameters: &[u8],
    has_version: bool,
    version: &[u8],
    has_dashboard_url: bool,
    dashboard_url: &[u8],
    has_metadata: bool,
    metadata: &[u8],
    number: u64,
    buffer: &mut [u8],
    needed: &mut usize,
) -> u32
    ensures text { result ≡ code Status.Done → texts.IsWritten (said.said_text (said_with service.now plan.now
        (texts.text_if has_parameters parameters.now) (texts.text_if has_version version.now)
        (texts.text_if has_dashboard_url dashboard_url.now) (texts.text_if has_metadata metadata.now) number))
        needed.new buffer.new }
    ensures object { result ≡ code Status.Done → said.CanBeRead (said_with service.now plan.now
        (texts.text_if has_parameters parameters.now) (texts.text_if has_version version.now)
        (texts.text_if has_dashboard_url dashboard_url.now) (texts.text_if has_metadata metadata.now) number)
        → patches.object_in (take needed.new buffer.new) ≡ Some (said.object_of (said_with service.now plan.now
        (texts.text_if has_parameters parameters.now) (texts.text_if has_version version.now)
        (texts.text_if has_dashboard_url dashboard_url.now) (texts.text_if has_metadata metadata.now) number)) }
    ensures reported { result ≡ code Status.Done → said.CanBeRead (said_with service.now plan.now
        (texts.text_if has_parameters parameters.now) (texts.text_if has_version version.now)
        (texts.text_if has_dashboard_url dashboard_url.now) (texts.text_if has_metadata metadata.now) number)
        → (p : ℕ) → (value : Json) → number ≢ 0 → number_of plan.now ≡ Some p
        → said.value_if (texts.text_if has_parameters parameters.now) ≡ Some value
        → reported_in 200 (take needed.new buffer.new) ≡ Some (
          settings_by p (patches.parameters_digest value)
              (digest_or_none (texts.text_if has_version version.now)),
          number,
        ) }
    ensures rest { result ≡ code Status.Done → drop needed.new buffer.new ≡ drop needed.new buffer.old }

    ensures not_utf8 { (result ≡ code Status.NotUtf8) ↔ ¬ (IsUtf8 service.now × IsUtf8 plan.now
        × texts.IsUtf8If has_parameters parameters.now × texts.IsUtf8If has_version version.now
        × texts.IsUtf8If has_dashboard_url dashboard_url.now × texts.IsUtf8If has_metadata metadata.now) }
    ensures too_small { result ≡ code Status.TooSmall → texts.IsTooLong (said.said_text (said_with service.now plan.now
        (texts.text_if has_parameters parameters.now) (texts.text_if has_version version.now)
        (texts.text_if has_dashboard_url dashboard_url.now) (texts.text_if has_metadata metadata.now) number))
        needed.new buffer.old }
    ensures statuses { IsTrue (is_one_of
        (Status.Done ∷ Status.NotUtf8 ∷ Status.TooSmall ∷ Status.Memory ∷ []) result) }
    ensures unwritten { result ≢ code Status.Done → buffer.new ≡ buffer.old }
    ensures unmeasured { result ≢ code Status.Done → result ≢ code Status.TooSmall → needed.new ≡ needed.old }
{
    let Some((service, plan)) = ids_from(service, plan) else {
        return Status::NotUtf8.code();
    };
    let Some(parameters) = text_if(has_parameters, parameters) else {
        return Status::NotUtf8.code();
    };
    let Some(version) = text_if(has_version, version) else {
        return Status::NotUtf8.code();
    };
    let Some(dashboard_url) = text_if(has_dashboard_url, dashboard_url) else {
        return Status::NotUtf8.code();
    };
    let Some(metadata) = text_if(has_metadata, metadata) else {
        return Status::NotUtf8.code();
    };
    let texts = InstanceTexts {
        service,
        plan,
        parameters,
        version,
        dashboard_url,
        metadata,
    };
    let Ok(text) = osb_update_wire::write_fetched(alloc, &texts, number) else {
        return Status::Memory.code();
    };
    write_text(text.as_str(), buffer, needed).code()
}

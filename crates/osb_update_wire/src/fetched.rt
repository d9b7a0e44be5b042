//! The answer to a Fetch of an instance.
ghost use Rattle.std.specs.Prelude.{◌≡◌, ◌≢◌, ℕ, None, Some, IfOk, codes, option_map, option_and_then, string_bytes};
ghost use Rattle.json.specs.Find.{get};
ghost use Rattle.json.specs.Json.{Json};
ghost use Rattle.json.specs.Tree.{HasNumbers};
ghost use Rattle.json.specs.Value.{value_view};
ghost use Rattle.osb_wire.specs.IdTexts.{number_of};
ghost use Rattle.osb_wire.specs.JsonTexts.{json_in};
ghost use Rattle.osb_update_wire.specs.Fetched as fetched;
ghost use Rattle.osb_update_wire.specs.Patches as patches;
ghost use Rattle.osb_update_wire.specs.Said as said;
ghost use Rattle.osb_update_wire.specs.Versions as versions;

use crate::patch::{is_object, number_of};
use crate::said::{Texts, write_said};
use crate::versions::{text_at, version_at, version_digest};
use json::{Scratch, Value};
use osb_instance::Digest;
use osb_message::{Memory, PlanId};
use osb_update::Settings;
use osb_wire::json_texts::{read_json, text_under};
use osb_wire::{attributes_digest, id_of_text};
use std::alloc::Global;

/// What a broker's answer to a Fetch says of an instance, as texts.
#[derive(Clone, Copy, Debug)]
pub struct InstanceTexts<'t> {
    /// The service's id (`service_id`).
    pub service: &'t str,
    /// The plan's id (`plan_id`).
    pub plan: &'t str,
    /// The text of the parameters, as JSON. Without it, the answer reports no settings to a platform: for no parameters
    /// it is `{}`.
    pub parameters: Option<&'t str>,
    /// The version of the maintenance.
    pub version: Option<&'t str>,
    /// Where the instance is managed (`dashboard_url`).
    pub dashboard_url: Option<&'t str>,
    /// The text of `metadata`, as JSON.
    pub metadata: Option<&'t str>,
}

/// What a platform takes from the answer to a Fetch. Texts of JSON have no spaces.
#[derive(Drop)]
pub struct FetchedInstance {
    /// The settings and the number of the newest Update that was judged, which
    /// [`UpdateRecord::fetched`](osb_update::UpdateRecord::fetched) takes. There are none if the answer doesn't name the
    /// plan, the parameters or the number.
    pub reported: Option<(Settings, u64)>,
    /// The text of the service's id.
    pub service: Option<String>,
    /// The text of the plan's id.
    pub plan: Option<String>,
    /// The text of `parameters`.
    pub parameters: Option<String>,
    /// The version that `maintenance_info` names.
    pub version: Option<String>,
    /// Where the instance is managed (`dashboard_url`).
    pub dashboard_url: Option<String>,
    /// The text of `metadata`.
    pub metadata: Option<String>,
}

/// The body of a 200 to a Fetch (section Fetching a Service Instance): an object of what the texts say, with no spaces, and
/// of the number of the newest Update that was judged, unless it is 0 (the member `x-osb-update`, this project's choice). A
/// text of JSON that isn't JSON is left out. [`read_fetched`] returns the settings and the number from it, if there are
/// parameters and a number and if the object nests at most 128 deep.
///
/// # Errors
///
/// [`Memory`] if an allocation failed. The same call may be made again.
pub fn write_fetched(
    alloc: Global,
    texts: &InstanceTexts<'_>,
    number: u64,
) -> Result<String, Memory>
    ensures text { IfOk result (λ text. string_bytes text ≡ said.said_text (fetched.said_of texts.now number)) }
    ensures object { said.CanBeRead (fetched.said_of texts.now number) → IfOk result (λ text.
        patches.object_in (string_bytes text) ≡ Some (said.object_of (fetched.said_of texts.now number))) }
    ensures reported { (plan : ℕ) → (parameters : Json) → said.CanBeRead (fetched.said_of texts.now number)
        → number ≢ 0 → number_of texts.now.plan.now ≡ Some plan
        → said.value_if (option_map (λ text. text.now) texts.now.parameters) ≡ Some parameters
        → IfOk result (λ text. fetched.reported_in 200 (string_bytes text) ≡ Some (
          fetched.settings_by plan (patches.parameters_digest parameters)
              (versions.digest_or_none (option_map (λ text. text.now) texts.now.version)),
          number,
        )) }
{
    let said = Texts {
        context: None,
        dashboard_url: texts.dashboard_url,
        version: texts.version,
        metadata: texts.metadata,
        parameters: texts.parameters,
        plan: Some(texts.plan),
        service: texts.service,
        number,
    };
    match write_said(alloc, &said) {
        Ok(text) => Ok(text),
        Err(Memory) => Err(Memory),
    }
}

// A text of its own, if there is one.
pub(crate) fn owned(alloc: Global, text: Option<&str>) -> Result<Option<String>, Memory>
    ensures text { IfOk result (λ made. option_map string_bytes made ≡ option_map (λ text. text.now) text.entry) }
{
    match text {
        Some(text) => Ok(Some(String::from_str(alloc, text)?)),
        None => Ok(None),
    }
}

// The plan that an object names.
fn plan_told(value: &Value<'_>) -> Option<PlanId>
    ensures plan { result ≡ fetched.plan_told (value_view value.now) }
{
    match text_at(value, "plan_id") {
        Some(text) => id_of_text(text),
        None => None,
    }
}

// The number that an object has.
fn number_told(value: &Value<'_>) -> Option<u64>
    ensures number { result ≡ fetched.number_told (value_view value.now) }
{
    match value.get("x-osb-update") {
        Some(found) => number_of(found),
        None => None,
    }
}

// The plan and the number.
fn told_of(value: &Value<'_>) -> Option<(PlanId, u64)>
    ensures told { result ≡ fetched.told_of (value_view value.now) }
{
    let plan = plan_told(value)?;
    let number = number_told(value)?;
    Some((plan, number))
}

// The digest of the version, or that of none.
fn version_told(value: &Value<'_>) -> Digest
    ensures version { result ≡ versions.digest_or_none (versions.version_at (value_view value.now)) }
{
    match version_at(value) {
        Some(text) => version_digest(text),
        None => Digest { bytes: [0u8; 32] },
    }
}

// The digest of the parameters, by the body that the value is.
fn parameters_told(alloc: Global, body: &[u8], value: &Value<'_>) -> Result<Option<Digest>, Memory>
    requires { json_in body.now ≡ Some (value_view value.now) }
    ensures digest { IfOk result (λ digest. digest ≡ fetched.parameters_told (value_view value.now)) }
{
    match value.get("parameters") {
        Some(_) => Ok(Some(Digest {
            bytes: attributes_digest(alloc, body)?,
        })),
        None => Ok(None),
    }
}

// The settings and the number that an object reports.
fn reported_of(
    alloc: Global,
    body: &[u8],
    value: &Value<'_>,
) -> Result<Option<(Settings, u64)>, Memory>
    requires { json_in body.now ≡ Some (value_view value.now) }
    ensures reported { IfOk result (λ reported. reported ≡ fetched.reported_of (value_view value.now)) }
{
    let version = version_told(value);
    let digest = parameters_told(alloc, body, value)?;
    match (told_of(value), digest) {
        (Some((plan, number)), Some(parameters)) => Ok(Some((
            Settings {
                plan,
                parameters,
                version,
            },
            number,
        ))),
        _ => Ok(None),
    }
}

// What an object says, by the body that it is.
fn fetched_of(alloc: Global, body: &[u8], value: &Value<'_>) -> Result<FetchedInstance, Memory>
    requires body { json_in body.now ≡ Some (value_view value.now) }
    requires numbers { HasNumbers (value_view value.now) }
    ensures fetched { IfOk result (λ found. fetched.IsOf found (Some (value_view value.now))) }
{
    Ok(FetchedInstance {
        reported: reported_of(alloc, body, value)?,
        service: owned(alloc, text_at(value, "service_id"))?,
        plan: owned(alloc, text_at(value, "plan_id"))?,
        parameters: text_under(alloc, value, "parameters")?,
        version: owned(alloc, version_at(value))?,
        dashboard_url: owned(alloc, text_at(value, "dashboard_url"))?,
        metadata: text_under(alloc, value, "metadata")?,
    })
}

// What an answer says that has no object.
fn nothing() -> FetchedInstance
    ensures fetched { fetched.IsOf result None }
{
    FetchedInstance {
        reported: None,
        service: None,
        plan: None,
        parameters: None,
        version: None,
        dashboard_url: None,
        metadata: None,
    }
}

// What a body says, if it is an object.
fn read_object(alloc: Global, body: &[u8]) -> Result<FetchedInstance, Memory>
    ensures fetched { IfOk result (λ found. fetched.IsOf found (patches.object_in body.now)) }
{
    let mut scratch = Scratch::new(alloc);
    let value = read_json(alloc, body, &mut scratch)?;
    match &value {
        Some(value) if is_object(value) => fetched_of(alloc, body, value),
        _ => Ok(nothing()),
    }
}

/// What a platform takes from the response to a Fetch: of a 200 whose body is an object what it says, and nothing of any
/// other response. A text or a value of another type than the standard has counts as missing, and of a name that stands
/// twice the last counts. Section Fetching a Service Instance; what counts as a report of settings is this project's choice.
///
/// # Errors
///
/// [`Memory`] if an allocation failed. The same call may be made again.
pub fn read_fetched(alloc: Global, status: u16, body: &[u8]) -> Result<FetchedInstance, Memory>
    ensures fetched { IfOk result (λ found. fetched.IsOf found (fetched.fetched_in status body.now)) }
{
    if status != 200 {
        return Ok(nothing());
    }
    read_object(alloc, body)
}

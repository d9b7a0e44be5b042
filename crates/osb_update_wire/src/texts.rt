//! The texts of an Update, and what they name.
ghost use Rattle.std.specs.Prelude.{◌≡◌, ◌⊎◌, Some, IfOk, IfErr, option_map};
ghost use Rattle.osb_update_wire.specs.Texts as naming;
ghost use Rattle.osb_update_wire.specs.Versions as versions;

use crate::patch::says_none;
use crate::versions::version_digest;
use json::Scratch;
use osb_instance::Digest;
use osb_message::{InstanceId, Memory, PlanId};
use osb_update::{Change, Update};
use osb_wire::json_texts::read_json;
use osb_wire::path_reading::is_dots;
use osb_wire::{id_of_text, parameters_digest};
use std::alloc::Global;
use thiserror::Error;

/// The texts of an Update that a platform sends.
#[derive(Clone, Copy, Debug)]
pub struct UpdateTexts<'t> {
    /// The instance's id (`instance_id`).
    pub instance: &'t str,
    /// The service's id (`service_id`).
    pub service: &'t str,
    /// The plan's id (`plan_id`), if the plan is named.
    pub plan: Option<&'t str>,
    /// The text of the parameters, as JSON, if they are named. For no parameters it is `{}`, which only an Update with a
    /// number names.
    pub parameters: Option<&'t str>,
    /// The version of the maintenance, if it is named. For no version it is empty.
    pub version: Option<&'t str>,
    /// The text of `context`, as JSON, if there is one.
    pub context: Option<&'t str>,
}

/// Why no request is written: this project's choice.
#[derive(Clone, Copy, Debug, PartialEq, Eq, Hash, Error)]
pub enum TextFault {
    /// The instance's text is empty or longer than 255 bytes, or is `.` or `..`, which no path can carry.
    #[error("the text of the instance is no id that a path can carry")]
    BadInstance,
    /// The service's text is empty or longer than 255 bytes.
    #[error("the text of the service is no id")]
    BadService,
    /// The plan's text is empty or longer than 255 bytes.
    #[error("the text of the plan is no id")]
    BadPlan,
    /// The text of the parameters isn't JSON.
    #[error("the parameters are no JSON")]
    BadParameters,
    /// The text of the context isn't JSON.
    #[error("the context is no JSON")]
    BadContext,
    /// An allocation failed.
    #[error("no memory left")]
    Memory,
}

// The id of the instance, which a path can carry.
pub(crate) fn instance_named(text: &str) -> Option<InstanceId>
    ensures instance { result ≡ naming.instance_named text.now }
{
    if is_dots(text) {
        None
    } else {
        id_of_text(text)
    }
}

// The plan, if it is named.
fn plan_named(text: Option<&str>) -> Option<Option<PlanId>>
    ensures plan { result ≡ naming.plan_named (option_map (λ text. text.now) text.entry) }
{
    let Some(text) = text else {
        return Some(None);
    };
    match id_of_text(text) {
        Some(plan) => Some(Some(plan)),
        None => None,
    }
}

// Whether a text of JSON says that there are no parameters; none if it isn't JSON.
fn text_says_none(alloc: Global, text: &str) -> Result<Option<bool>, Memory>
    ensures none { IfOk result (λ none. none ≡ naming.text_says_none text.now) }
{
    let mut scratch = Scratch::new(alloc);
    match read_json(alloc, text.as_bytes(), &mut scratch)? {
        Some(value) => Ok(Some(says_none(&value))),
        None => Ok(None),
    }
}

// The digest of the parameters that a text names.
fn digest_of_text(alloc: Global, number: u64, text: &str) -> Result<Option<Option<Digest>>, Memory>
    ensures digest { IfOk result (λ digest. digest ≡ naming.digest_named number (Some text.now)) }
{
    let Some(none) = text_says_none(alloc, text)? else {
        return Ok(None);
    };
    if number == 0 && none {
        return Ok(Some(None));
    }
    match parameters_digest(alloc, text.as_bytes())? {
        Some(bytes) => Ok(Some(Some(Digest { bytes }))),
        None => Ok(None),
    }
}

// The digest of the parameters, if they are named.
fn digest_named(
    alloc: Global,
    number: u64,
    text: Option<&str>,
) -> Result<Option<Option<Digest>>, Memory>
    ensures digest { IfOk result (λ digest. digest
        ≡ naming.digest_named number (option_map (λ text. text.now) text.entry)) }
{
    match text {
        Some(text) => digest_of_text(alloc, number, text),
        None => Ok(Some(None)),
    }
}

// Whether a text that may be missing is JSON.
fn is_value(alloc: Global, text: Option<&str>) -> Result<bool, Memory>
    ensures value { IfOk result (λ is. is ≡ naming.is_value (option_map (λ text. text.now) text.entry)) }
{
    let Some(text) = text else {
        return Ok(true);
    };
    let mut scratch = Scratch::new(alloc);
    match read_json(alloc, text.as_bytes(), &mut scratch)? {
        Some(_) => Ok(true),
        None => Ok(false),
    }
}

// The digest of the version, if it is named.
fn version_named(text: Option<&str>) -> Option<Digest>
    ensures version { result ≡ option_map versions.version_digest (option_map (λ text. text.now) text.entry) }
{
    match text {
        Some(text) => Some(version_digest(text)),
        None => None,
    }
}

// The settings that texts name, if the text of the context is JSON.
fn change_named(alloc: Global, texts: &UpdateTexts<'_>, number: u64) -> Result<Change, TextFault>
    ensures change { IfOk result (λ change. naming.NamesChange (naming.texts_of texts.now) number change) }
    ensures fault { IfErr result (λ fault. (fault ≡ TextFault.Memory)
        ⊎ (naming.change_fault (naming.texts_of texts.now) number ≡ Some fault)) }
{
    let Some(plan) = plan_named(texts.plan) else {
        return Err(TextFault::BadPlan);
    };
    let Ok(digest) = digest_named(alloc, number, texts.parameters) else {
        return Err(TextFault::Memory);
    };
    let Some(parameters) = digest else {
        return Err(TextFault::BadParameters);
    };
    let Ok(is_value) = is_value(alloc, texts.context) else {
        return Err(TextFault::Memory);
    };
    if !is_value {
        return Err(TextFault::BadContext);
    }
    Ok(Change {
        plan,
        parameters,
        version: version_named(texts.version),
    })
}

// The instance and the Update that texts name.
pub(crate) fn update_named(
    alloc: Global,
    texts: &UpdateTexts<'_>,
    number: u64,
    accepts_incomplete: bool,
) -> Result<(InstanceId, Update), TextFault>
    ensures named { IfOk result (λ named. naming.Names (naming.texts_of texts.now) number accepts_incomplete named.0 named.1) }
    ensures fault { IfErr result (λ fault. (fault ≡ TextFault.Memory)
        ⊎ (naming.first_fault (naming.texts_of texts.now) number ≡ Some fault)) }
{
    let Some(id) = instance_named(texts.instance) else {
        return Err(TextFault::BadInstance);
    };
    let Some(service) = id_of_text(texts.service) else {
        return Err(TextFault::BadService);
    };
    match change_named(alloc, texts, number) {
        Ok(change) => Ok((
            id,
            Update {
                service,
                change,
                number,
                accepts_incomplete,
            },
        )),
        Err(fault) => Err(fault),
    }
}

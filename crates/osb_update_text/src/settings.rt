//! Settings in a text.
ghost use Rattle.std.specs.Prelude.{◌≡◌, Some, IfOk};
ghost use Rattle.serde_json.specs.View.{view};
ghost use Rattle.osb_instance.specs.HoldingText.{digest_in, digest_text, digest_value};
ghost use Rattle.osb_update_text.specs.SettingsText as spec;

use hex::FromHex;
use osb_instance::Digest;
use osb_json::{id_at, member_count, text_at};
use osb_update::Settings;
use serde_json::{Value, json};
use std::alloc::{AllocError, Global};

// The JSON value of a digest: its 64 digits.
fn digest_value(alloc: Global, digest: Digest) -> Result<Value, AllocError>
    ensures value { IfOk result (λ v. view v ≡ digest_value digest) }
    ensures named { IfOk result (λ _. digest_in (digest_text digest) ≡ Some digest) }
{
    let text = hex::encode(alloc, digest.bytes)?;
    Ok(Value::String(text))
}

// The JSON value of settings.
pub(crate) fn settings_value(alloc: Global, settings: &Settings) -> Result<Value, AllocError>
    ensures value { IfOk result (λ v. view v ≡ spec.settings_value settings.now) }
    ensures named { IfOk result (λ _.
        spec.settings_named (spec.settings_value settings.now) ≡ Some settings.now) }
{
    let parameters = digest_value(alloc, settings.parameters)?;
    let mut plan_text = [0u8; 36];
    let plan = settings.plan.text_in(&mut plan_text);
    let version = digest_value(alloc, settings.version)?;
    json!(in alloc; {"parameters": parameters, "plan": plan, "version": version})
}

// The JSON value of settings, or null.
pub(crate) fn some_settings_value(
    alloc: Global,
    settings: Option<Settings>,
) -> Result<Value, AllocError>
    ensures value { IfOk result (λ v. view v ≡ spec.some_settings_value settings) }
    ensures named { IfOk result (λ _.
        spec.some_settings_in (spec.some_settings_value settings) ≡ Some settings) }
{
    match settings {
        None => Ok(Value::Null),
        Some(settings) => settings_value(alloc, &settings),
    }
}

// The digest whose 64 digits, in either case, stand under the name.
fn read_digest(value: &Value, name: &str) -> Option<Digest>
    ensures digest { result ≡ spec.digest_at name.now (view value.now) }
{
    let Some(text) = text_at(value, name) else {
        return None;
    };
    match <[u8; 32] as FromHex>::from_hex(text) {
        Ok(bytes) => Some(Digest { bytes }),
        Err(_) => None,
    }
}

// What a value says of settings.
#[tactic(auto, unfolding(crate::specs::SettingsText::settings_named))]
fn read_settings(value: &Value) -> Option<Settings>
    ensures settings { result ≡ spec.settings_named (view value.now) }
{
    if member_count(value) != 3 {
        return None;
    }
    let parameters = read_digest(value, "parameters");
    let plan = id_at(value, "plan");
    let version = read_digest(value, "version");
    match (parameters, plan, version) {
        (Some(parameters), Some(plan), Some(version)) => Some(Settings {
            plan,
            parameters,
            version,
        }),
        _ => None,
    }
}

// The settings that stand under `settings`.
pub(crate) fn settings_at(value: &Value) -> Option<Settings>
    ensures settings { result ≡ spec.settings_at (view value.now) }
{
    match value.get("settings") {
        None => None,
        Some(found) => read_settings(found),
    }
}

// The settings that stand under `to`, `Some(None)` for null, or `None` if it is neither.
pub(crate) fn to_at(value: &Value) -> Option<Option<Settings>>
    ensures settings { result ≡ spec.to_at (view value.now) }
{
    match value.get("to") {
        None => None,
        Some(Value::Null) => Some(None),
        Some(found) => match read_settings(found) {
            Some(settings) => Some(Some(settings)),
            None => None,
        },
    }
}

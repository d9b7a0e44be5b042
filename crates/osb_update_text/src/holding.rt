//! The text of what a broker holds of the updates of an instance.
ghost use Rattle.std.specs.Prelude.{◌≡◌, ◌⊎◌, Some, Ok, Err, IfOk, IfErr, string_bytes};
ghost use Rattle.serde_json.specs.View.{view};
ghost use Rattle.osb_update.specs.declared.holding.UpdateHolding.{UpdateHolding};
ghost use Rattle.osb_update_text.specs.HoldingText as spec;

use crate::frame::read_frame;
use crate::settings::{settings_at, settings_value, some_settings_value, to_at};
use osb_instance::TextFault;
use osb_json::{member_count, number_at, text_at};
use osb_message::Memory;
use osb_update::{Settings, UpdateHolding, UpdatePhase};
use serde_json::{Value, json};
use std::alloc::{AllocError, Global};

// The number of the format.
const VERSION: u64 = 1;

// The word of a phase.
fn phase_word(phase: &UpdatePhase) -> &'static str
    ensures word { result.now ≡ spec.phase_word phase.now }
{
    match phase {
        UpdatePhase::Settled => "settled",
        UpdatePhase::Pending(_) => "pending",
        UpdatePhase::Updating(_) => "updating",
        UpdatePhase::Failed => "failed",
        UpdatePhase::Mending(_) => "mending",
    }
}

// The settings that the work or the operation of a phase leads to.
fn goal(phase: &UpdatePhase) -> Option<Settings>
    ensures goal { result ≡ spec.goal phase.now }
{
    match phase {
        UpdatePhase::Settled | UpdatePhase::Failed => None,
        UpdatePhase::Pending(to) | UpdatePhase::Updating(to) | UpdatePhase::Mending(to) => Some(
            *to,
        ),
    }
}

// The JSON value of a holding.
fn holding_value(alloc: Global, held: &UpdateHolding) -> Result<Value, AllocError>
    ensures value { IfOk result (λ v. view v ≡ spec.holding_value held.now) }
    ensures named { IfOk result (λ _.
        spec.holding_named (spec.holding_value held.now) ≡ Some held.now) }
{
    let number = held.number;
    let phase = phase_word(&held.phase);
    let settings = settings_value(alloc, &held.settings)?;
    let to = some_settings_value(alloc, goal(&held.phase))?;
    json!(in alloc; {
        "number": number,
        "phase": phase,
        "settings": settings,
        "to": to,
        "version": VERSION,
    })
}

/// The text of a holding, for a column of a database: a JSON object with no spaces and these members, in this order.
/// All of this is this project's choice.
///
/// - `number`: the number that is kept
/// - `phase`: the word `settled`, `pending`, `updating`, `failed` or `mending`
/// - `settings`: the settings that are held, as an object with the members `parameters`, `plan` and `version`, in this
///   order. The plan is an id in lower case, and each of the other two a digest as 64 hex digits in lower case
/// - `to`: such an object with the settings to which the work or the operation leads, or `null` in `settled` and
///   `failed`
/// - `version`: the number 1
///
/// # Errors
///
/// [`Memory`] if an allocation failed. Nothing has changed then.
pub fn write_holding(alloc: Global, held: &UpdateHolding) -> Result<String, Memory>
    ensures text { IfOk result (λ text. string_bytes text ≡ spec.holding_text held.now) }
    ensures back { IfOk result (λ text. spec.holding_in (string_bytes text) ≡ Ok held.now) }
{
    let value = holding_value(alloc, held)?;
    let text = value.to_string(alloc)?;
    Ok(text)
}

// Whether the members are those of a holding, and no other.
fn has_names(value: &Value) -> bool
    ensures names { result ≡ spec.has_names (view value.now) }
{
    member_count(value) == 5
        && value.get("number").is_some()
        && value.get("phase").is_some()
        && value.get("settings").is_some()
        && value.get("to").is_some()
}

// The phase that a word names beside no settings.
fn phase_alone(word: &str) -> Option<UpdatePhase>
    ensures phase { result ≡ spec.phase_alone word.now }
{
    match word {
        "settled" => Some(UpdatePhase::Settled),
        "failed" => Some(UpdatePhase::Failed),
        _ => None,
    }
}

// The phase that a word names beside these settings.
fn phase_to(word: &str, to: &Settings) -> Option<UpdatePhase>
    ensures phase { result ≡ spec.phase_to word.now to.now }
{
    match word {
        "pending" => Some(UpdatePhase::Pending(*to)),
        "updating" => Some(UpdatePhase::Updating(*to)),
        "mending" => Some(UpdatePhase::Mending(*to)),
        _ => None,
    }
}

// The phase that the members name.
fn read_phase(value: &Value) -> Option<UpdatePhase>
    ensures phase { result ≡ spec.phase_at (view value.now) }
{
    match (text_at(value, "phase"), to_at(value)) {
        (Some(word), Some(None)) => phase_alone(word),
        (Some(word), Some(Some(to))) => phase_to(word, &to),
        _ => None,
    }
}

// The holding that the members name.
#[tactic(auto, unfolding(crate::specs::HoldingText::holding_named))]
fn read_members(value: &Value) -> Option<UpdateHolding>
    ensures holding { result ≡ spec.holding_named (view value.now) }
{
    let number = number_at(value, "number");
    let phase = read_phase(value);
    let settings = settings_at(value);
    match (number, phase, settings) {
        (Some(number), Some(phase), Some(settings)) => Some(UpdateHolding {
            settings,
            number,
            phase,
        }),
        _ => None,
    }
}

/// The holding that a text names, as [`write_holding`] writes it. The text may have any spacing, members in any order,
/// and the digits of a digest in either case. If a member stands twice, the last one counts. What [`write_holding`]
/// returned is rejected only if memory runs out. All of this is this project's choice.
///
/// # Errors
///
/// The first of these that fits. [`TextFault::Memory`] may come in place of any other, and of a holding, if an
/// allocation failed. Nothing has changed then.
///
/// 1. [`TextFault::NotJson`] if the text has no reading as JSON
/// 2. [`TextFault::NotAnObject`] if the value isn't an object
/// 3. [`TextFault::BadVersion`] if `version` isn't 1, written as an integer
/// 4. [`TextFault::BadOuter`] if the members aren't exactly `number`, `phase`, `settings`, `to` and `version`
/// 5. [`TextFault::BadMember`] if one of them isn't as [`write_holding`] has it, with no further member inside, or if
///    `to` is `null` in another phase than `settled` and `failed`, or isn't `null` in one of these
pub fn read_holding(alloc: Global, text: &str) -> Result<UpdateHolding, TextFault>
    ensures ok { IfOk result (λ held. spec.holding_in text.now ≡ Ok held) }
    ensures err { IfErr result (λ fault.
        (fault ≡ TextFault.Memory) ⊎ (spec.holding_in text.now ≡ Err fault)) }
    ensures back { (written : UpdateHolding) → spec.holding_in text.now ≡ Ok written
        → IfOk result (λ held. held ≡ written) }
    ensures back_err { (written : UpdateHolding) → spec.holding_in text.now ≡ Ok written
        → IfErr result (λ fault. fault ≡ TextFault.Memory) }
{
    let value = read_frame(alloc, text, VERSION)?;
    if !has_names(&value) {
        return Err(TextFault::BadOuter);
    }
    match read_members(&value) {
        Some(held) => Ok(held),
        None => Err(TextFault::BadMember),
    }
}

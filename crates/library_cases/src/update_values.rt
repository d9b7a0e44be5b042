//! Holdings and records of updates, as they are read and written.
//!
//! SETTINGS are a word of three characters: the plan, the parameters and the version. The id of a plan has the code of
//! its character, and each byte of a digest has that of its character. NAMES are such a word of what an Update names,
//! with a dot for each part that it doesn't name.
//!
//! - A HOLDING: `SETTINGS NUMBER PHASE TO`. TO are the settings to which the work or the operation leads, or `-`.
//! - A RECORD: `SETTINGS NUMBER ATTEMPT STATE TO MIXED OUT`. MIXED is `mixed` or `-`, and TO is `-` in `settled`. OUT
//!   is `update`, `poll`, `fetch` or `-`.
use crate::first;
use anyhow::{Context, Result};
use osb_instance::Digest;
use osb_message::{Answer, Body, ErrorCode, LastState, PlanId};
use osb_update::{
    Aim, Change, Settings, UpdateHolding, UpdateKind, UpdatePhase, UpdateRecord, UpdateState,
};

fn plan_of(character: u8) -> PlanId {
    PlanId::from_value(u128::from(character))
}

fn digest_of(character: u8) -> Digest {
    Digest {
        bytes: [character; 32],
    }
}

// The three characters of a word.
fn three(word: &str) -> Result<(u8, u8, u8)> {
    let bytes = word.as_bytes();
    anyhow::ensure!(bytes.len() == 3, "not three characters: {word}");
    Ok((bytes[0], bytes[1], bytes[2]))
}

pub(crate) fn settings(word: &str) -> Result<Settings> {
    let (plan, parameters, version) = three(word)?;
    Ok(Settings {
        plan: plan_of(plan),
        parameters: digest_of(parameters),
        version: digest_of(version),
    })
}

fn named_digest(character: u8) -> Option<Digest> {
    if character == b'.' {
        None
    } else {
        Some(digest_of(character))
    }
}

// What an Update names.
pub(crate) fn change(word: &str) -> Result<Change> {
    let (plan, parameters, version) = three(word)?;
    Ok(Change {
        plan: if plan == b'.' {
            None
        } else {
            Some(plan_of(plan))
        },
        parameters: named_digest(parameters),
        version: named_digest(version),
    })
}

pub(crate) fn number(word: &str) -> Result<u64> {
    word.parse().ok().context("no number")
}

// Whether a word is this one; else it must be `-`.
pub(crate) fn is_word(word: &str, yes: &str) -> Result<bool> {
    anyhow::ensure!(word == yes || word == "-", "neither {yes} nor -: {word}");
    Ok(word == yes)
}

// The phase that a word names beside these settings.
fn phase_to(word: &str, to: Settings) -> Result<UpdatePhase> {
    match word {
        "pending" => Ok(UpdatePhase::Pending(to)),
        "updating" => Ok(UpdatePhase::Updating(to)),
        "mending" => Ok(UpdatePhase::Mending(to)),
        _ => anyhow::bail!("no phase to settings: {word}"),
    }
}

fn phase(word: &str, to: &str) -> Result<UpdatePhase> {
    match (word, to) {
        ("settled", "-") => Ok(UpdatePhase::Settled),
        ("failed", "-") => Ok(UpdatePhase::Failed),
        _ => phase_to(word, settings(to)?),
    }
}

pub(crate) fn holding(words: &str) -> Result<UpdateHolding> {
    let (own, rest) = first(words);
    let (kept, rest) = first(rest);
    let (phase_word, to) = first(rest);
    Ok(UpdateHolding {
        settings: settings(own)?,
        number: number(kept)?,
        phase: phase(phase_word, to)?,
    })
}

// The state that a word names beside this aim.
fn state_to(word: &str, aim: Aim) -> Result<UpdateState> {
    match word {
        "updating" => Ok(UpdateState::Updating(aim)),
        "polling" => Ok(UpdateState::Polling(aim)),
        "unsure" => Ok(UpdateState::Unsure(aim)),
        _ => anyhow::bail!("no state with an aim: {word}"),
    }
}

fn state(word: &str, to: &str, mixed: &str) -> Result<UpdateState> {
    match (word, to, mixed) {
        ("settled", "-", "-") => Ok(UpdateState::Settled),
        _ => {
            let aim = Aim {
                to: settings(to)?,
                mixed: is_word(mixed, "mixed")?,
            };
            state_to(word, aim)
        }
    }
}

fn out(word: &str) -> Result<Option<UpdateKind>> {
    match word {
        "-" => Ok(None),
        "update" => Ok(Some(UpdateKind::Update)),
        "poll" => Ok(Some(UpdateKind::Poll)),
        "fetch" => Ok(Some(UpdateKind::Fetch)),
        _ => anyhow::bail!("no such request: {word}"),
    }
}

pub(crate) fn record(words: &str) -> Result<UpdateRecord> {
    let (own, rest) = first(words);
    let (latest, rest) = first(rest);
    let (attempt, rest) = first(rest);
    let (state_word, rest) = first(rest);
    let (to, rest) = first(rest);
    let (mixed, out_word) = first(rest);
    Ok(UpdateRecord {
        settings: settings(own)?,
        number: number(latest)?,
        attempt: number(attempt)?,
        state: state(state_word, to, mixed)?,
        out: out(out_word)?,
    })
}

// ---- as they are written

// The character of a plan, or `?` if it has none.
pub(crate) fn plan_character(plan: PlanId) -> char {
    match u8::try_from(plan.value()) {
        Ok(character) => char::from(character),
        Err(_) => '?',
    }
}

pub(crate) fn digest_character(digest: &Digest) -> char {
    let character = digest.bytes[0];
    if *digest == digest_of(character) {
        char::from(character)
    } else {
        '?'
    }
}

pub(crate) fn tell_settings(rt: &impl Print, settings: &Settings) -> Result<()> {
    let plan = plan_character(settings.plan);
    let parameters = digest_character(&settings.parameters);
    let version = digest_character(&settings.version);
    Ok(print!(rt; "{plan}{parameters}{version}")?)
}

// What an Update names.
pub(crate) fn tell_change(rt: &impl Print, change: &Change) -> Result<()> {
    let plan = change.plan.map_or('.', plan_character);
    let parameters = match &change.parameters {
        None => '.',
        Some(digest) => digest_character(digest),
    };
    let version = match &change.version {
        None => '.',
        Some(digest) => digest_character(digest),
    };
    Ok(print!(rt; "{plan}{parameters}{version}")?)
}

fn tell_to(rt: &impl Print, word: &str, to: &Settings) -> Result<()> {
    print!(rt; "{word} ")?;
    tell_settings(rt, to)
}

pub(crate) fn tell_holding(rt: &impl Print, holding: &UpdateHolding) -> Result<()> {
    tell_settings(rt, &holding.settings)?;
    print!(rt; " {} ", holding.number)?;
    match &holding.phase {
        UpdatePhase::Settled => Ok(print!(rt; "settled -")?),
        UpdatePhase::Failed => Ok(print!(rt; "failed -")?),
        UpdatePhase::Pending(to) => tell_to(rt, "pending", to),
        UpdatePhase::Updating(to) => tell_to(rt, "updating", to),
        UpdatePhase::Mending(to) => tell_to(rt, "mending", to),
    }
}

fn tell_aim(rt: &impl Print, word: &str, aim: &Aim) -> Result<()> {
    tell_to(rt, word, &aim.to)?;
    let mixed = if aim.mixed { "mixed" } else { "-" };
    Ok(print!(rt; " {mixed} ")?)
}

fn out_word(out: Option<UpdateKind>) -> &'static str {
    match out {
        None => "-",
        Some(UpdateKind::Update) => "update",
        Some(UpdateKind::Poll) => "poll",
        Some(UpdateKind::Fetch) => "fetch",
    }
}

pub(crate) fn tell_record(rt: &impl Print, record: &UpdateRecord) -> Result<()> {
    tell_settings(rt, &record.settings)?;
    print!(rt; " {} {} ", record.number, record.attempt)?;
    match &record.state {
        UpdateState::Settled => print!(rt; "settled - - ")?,
        UpdateState::Updating(aim) => tell_aim(rt, "updating", aim)?,
        UpdateState::Polling(aim) => tell_aim(rt, "polling", aim)?,
        UpdateState::Unsure(aim) => tell_aim(rt, "unsure", aim)?,
    }
    let word = out_word(record.out);
    Ok(print!(rt; "{word}")?)
}

// ---- answers, as their status and the word of their body

const BODIES: [(&str, Body); 8] = [
    ("malformed", Body::Malformed),
    ("empty", Body::Empty),
    ("in-progress", Body::State(LastState::InProgress)),
    ("succeeded", Body::State(LastState::Succeeded)),
    ("failed", Body::State(LastState::Failed)),
    ("error", Body::Error(ErrorCode::Other)),
    ("AsyncRequired", Body::Error(ErrorCode::AsyncRequired)),
    ("ConcurrencyError", Body::Error(ErrorCode::ConcurrencyError)),
];

pub(crate) fn body(word: &str) -> Result<Body> {
    for &(name, body) in &BODIES {
        if name == word {
            return Ok(body);
        }
    }
    anyhow::bail!("no such body: {word}")
}

pub(crate) fn tell_answer(rt: &impl Print, answer: Answer) -> Result<()> {
    for &(name, body) in &BODIES {
        if body == answer.body {
            return Ok(print!(rt; "{} {name}", answer.status)?);
        }
    }
    anyhow::bail!("a body without a word")
}

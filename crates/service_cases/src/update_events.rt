//! The events of an instance with its updates, by their words: `instance E` and `binding NUMBER E` (`events.rt`), or
//! `update E`. SETTINGS are a word of three characters: the plan, the parameters and the version. The id of a plan has
//! the code of its character, and each byte of a digest has that of its character.
//!
//! - `to SETTINGS`, `send`, `fetch`, `stop`, `timeout`: the platform's.
//! - `take P` and `anothers STATUS BODY`: it takes the answer at this place, from 0, or another's. A BODY is
//!   `malformed`, `empty` or `error`.
//! - `arrive P ALLOWED accepts|refuses` and `put-off P`: the request at this place arrives, from 0. ALLOWED is `sync`,
//!   `async`, `400`, `422` or `conflict`.
//! - `end MODE OUTCOME`, `finish ok|failed`, `crash`: the broker's. An OUTCOME is `done`, `after`, `before`, `failed`,
//!   `refused 400` or `refused 422`.
//! - `work SETTINGS`, or `work -` for settings that are between.
//!
//! Behind an event of the instance or of a binding may stand ` leaving SETTINGS`, which the instance's own work has
//! left.
use crate::events::place;
use crate::orders::{is_first, mode};
use crate::{events, first};
use anyhow::{Context, Result};
use osb_instance::{Digest, Rejection};
use osb_message::{Answer, Body, ErrorCode, PlanId};
use osb_update::{Allowed, Settings, UpdateOutcome};
use osb_update_service::UpdatedEvent;
use osb_update_sides::UpdatesEvent;

fn digest(character: u8) -> Digest {
    Digest {
        bytes: [character; 32],
    }
}

pub(crate) fn settings(word: &str) -> Result<Settings> {
    let bytes = word.as_bytes();
    anyhow::ensure!(bytes.len() == 3, "not three characters: {word}");
    Ok(Settings {
        plan: PlanId::from_value(u128::from(bytes[0])),
        parameters: digest(bytes[1]),
        version: digest(bytes[2]),
    })
}

fn some_settings(word: &str) -> Result<Option<Settings>> {
    if word == "-" {
        return Ok(None);
    }
    Ok(Some(settings(word)?))
}

fn rejection(word: &str) -> Result<Rejection> {
    match word {
        "400" => Ok(Rejection::BadRequest),
        "422" => Ok(Rejection::UnprocessableEntity),
        _ => anyhow::bail!("no such rejection: {word}"),
    }
}

fn allowed(word: &str) -> Result<Allowed> {
    match word {
        "conflict" => Ok(Allowed::MaintenanceInfoConflict),
        "sync" | "async" => Ok(Allowed::Mode(mode(word)?.context("no mode")?)),
        _ => Ok(Allowed::Rejected(rejection(word)?)),
    }
}

fn outcome(words: &str) -> Result<UpdateOutcome> {
    match words {
        "done" => Ok(UpdateOutcome::Done),
        "after" => Ok(UpdateOutcome::After),
        "before" => Ok(UpdateOutcome::Before),
        "failed" => Ok(UpdateOutcome::Failed),
        _ => {
            let word = words.strip_prefix("refused ").context("no outcome")?;
            Ok(UpdateOutcome::Refused(rejection(word)?))
        }
    }
}

fn body(word: &str) -> Result<Body> {
    match word {
        "malformed" => Ok(Body::Malformed),
        "empty" => Ok(Body::Empty),
        "error" => Ok(Body::Error(ErrorCode::Other)),
        _ => anyhow::bail!("no such body: {word}"),
    }
}

// The answer of `STATUS BODY`.
fn answer(words: &str) -> Result<Answer> {
    let (status, body_word) = first(words);
    Ok(Answer {
        status: status.parse().ok().context("no status")?,
        body: body(body_word)?,
    })
}

// The event of `P ALLOWED accepts|refuses`.
fn arrive(words: &str) -> Result<UpdatesEvent> {
    let (at, rest) = first(words);
    let (allowed_word, accepts) = first(rest);
    Ok(UpdatesEvent::Arrive {
        at: place(at)?,
        allowed: allowed(allowed_word)?,
        accepts: is_first(accepts, "accepts", "refuses")?,
    })
}

// The event of `MODE OUTCOME`.
fn end(words: &str) -> Result<UpdatesEvent> {
    let (word, rest) = first(words);
    Ok(UpdatesEvent::End {
        mode: mode(word)?.context("no mode")?,
        outcome: outcome(rest)?,
    })
}

// What happens to the updates.
fn of_updates(words: &str) -> Result<UpdatesEvent> {
    let (word, rest) = first(words);
    match word {
        "to" => Ok(UpdatesEvent::Update {
            to: settings(rest)?,
        }),
        "send" => Ok(UpdatesEvent::Send),
        "fetch" => Ok(UpdatesEvent::Fetch),
        "stop" => Ok(UpdatesEvent::Stop),
        "timeout" => Ok(UpdatesEvent::Timeout),
        "take" => Ok(UpdatesEvent::Take { at: place(rest)? }),
        "anothers" => Ok(UpdatesEvent::TakeAnothers {
            answer: answer(rest)?,
        }),
        "arrive" => arrive(rest),
        "put-off" => Ok(UpdatesEvent::PutOff { at: place(rest)? }),
        "end" => end(rest),
        "finish" => Ok(UpdatesEvent::Finish {
            ok: is_first(rest, "ok", "failed")?,
        }),
        "work" => Ok(UpdatesEvent::Work {
            settings: some_settings(rest)?,
        }),
        "crash" => Ok(UpdatesEvent::Crash),
        _ => anyhow::bail!("no such event: {word}"),
    }
}

// The event that the words name, and the same as one of the updates, if it is one.
pub(crate) fn event(words: &str) -> Result<(UpdatedEvent, Option<UpdatesEvent>)> {
    if let Some(words) = words.strip_prefix("update ") {
        let event = of_updates(words)?;
        return Ok((UpdatedEvent::Update(event), Some(event)));
    }
    let (words, left) = words.split_once(" leaving ").unwrap_or((words, "-"));
    let event = UpdatedEvent::Service {
        event: events::event(words)?,
        settings: some_settings(left)?,
    };
    Ok((event, None))
}

//! The calls of a broker for updates. Behind an Update and an end stand the holding after it, a bar, and what came of
//! it: an answer, or `work MODE SETTINGS`.
//!
//! ALLOWED is `sync`, `async`, `400`, `422` or `conflict`. SERVICE is a number, and that of the instance's row is 7. An
//! OUTCOME is `done`, `after`, `before`, `failed`, `400` or `422`. RULE is `first-poll` or `-`. The ATTRIBUTES of a
//! request are a number: that of what is held is 1.
use crate::first;
use crate::update_instances::{after_instance, attributes, instance, kind, request, tell_instance};
use crate::update_values::{
    change, holding, is_word, number, tell_answer, tell_holding, tell_settings,
};
use anyhow::{Context, Result};
use osb_instance::{Begun, Rejection, Work};
use osb_message::{Mode, ServiceId};
use osb_update::{Allowed, Fetched, Update, UpdateBegun, UpdateOutcome};

fn mode(word: &str) -> Result<Mode> {
    match word {
        "sync" => Ok(Mode::Sync),
        "async" => Ok(Mode::Async),
        _ => anyhow::bail!("no such mode: {word}"),
    }
}

fn mode_word(mode: Mode) -> &'static str {
    match mode {
        Mode::Sync => "sync",
        Mode::Async => "async",
    }
}

// Whether a request accepts an asynchronous operation.
fn accepts(word: &str) -> Result<bool> {
    match word {
        "accepts" => Ok(true),
        "refuses" => Ok(false),
        _ => anyhow::bail!("neither accepts nor refuses: {word}"),
    }
}

fn allowed(word: &str) -> Result<Allowed> {
    match word {
        "400" => Ok(Allowed::Rejected(Rejection::BadRequest)),
        "422" => Ok(Allowed::Rejected(Rejection::UnprocessableEntity)),
        "conflict" => Ok(Allowed::MaintenanceInfoConflict),
        _ => Ok(Allowed::Mode(mode(word)?)),
    }
}

fn update(accepts_word: &str, service: &str, names: &str, number_word: &str) -> Result<Update> {
    Ok(Update {
        service: ServiceId::from_value(u128::from(number(service)?)),
        change: change(names)?,
        number: number(number_word)?,
        accepts_incomplete: accepts(accepts_word)?,
    })
}

fn tell_begun(rt: &impl Print, begun: &UpdateBegun) -> Result<()> {
    match begun {
        UpdateBegun::Answered(answer) => tell_answer(rt, *answer),
        UpdateBegun::MaintenanceInfoConflict => Ok(print!(rt; "422 MaintenanceInfoConflict")?),
        UpdateBegun::Work(mode, to) => {
            let word = mode_word(*mode);
            print!(rt; "work {word} ")?;
            tell_settings(rt, to)
        }
    }
}

pub(crate) fn begin(rt: &impl Print, words: &str) -> Result<()> {
    let (allowed_word, rest) = first(words);
    let (accepts_word, rest) = first(rest);
    let (service, rest) = first(rest);
    let (names, rest) = first(rest);
    let (number_word, rest) = first(rest);
    let update = update(accepts_word, service, names, number_word)?;
    let held = holding(after_instance(rest))?;
    let (after, begun) = held.begin(instance(rest)?, allowed(allowed_word)?, &update);
    tell_holding(rt, &after)?;
    print!(rt; " | ")?;
    tell_begun(rt, &begun)
}

fn outcome(word: &str) -> Result<UpdateOutcome> {
    match word {
        "done" => Ok(UpdateOutcome::Done),
        "after" => Ok(UpdateOutcome::After),
        "before" => Ok(UpdateOutcome::Before),
        "failed" => Ok(UpdateOutcome::Failed),
        "400" => Ok(UpdateOutcome::Refused(Rejection::BadRequest)),
        "422" => Ok(UpdateOutcome::Refused(Rejection::UnprocessableEntity)),
        _ => anyhow::bail!("no such outcome: {word}"),
    }
}

pub(crate) fn end(rt: &impl Print, words: &str) -> Result<()> {
    let (mode_word, rest) = first(words);
    let (outcome_word, held) = first(rest);
    match holding(held)?.end(mode(mode_word)?, outcome(outcome_word)?) {
        Ok((after, answer)) => {
            tell_holding(rt, &after)?;
            print!(rt; " | ")?;
            tell_answer(rt, answer)
        }
        Err(fault) => Ok(print!(rt; "{fault:?}")?),
    }
}

pub(crate) fn finish(rt: &impl Print, words: &str) -> Result<()> {
    let (how, held) = first(words);
    let ok = match how {
        "ok" => true,
        "failed" => false,
        _ => anyhow::bail!("neither ok nor failed: {how}"),
    };
    match holding(held)?.finish(ok) {
        Ok(after) => tell_holding(rt, &after),
        Err(fault) => Ok(print!(rt; "{fault:?}")?),
    }
}

// The answer to a Poll, or `-` if the instance's own table answers.
pub(crate) fn poll(rt: &impl Print, words: &str) -> Result<()> {
    match holding(after_instance(words))?.poll(instance(words)?) {
        Some(answer) => tell_answer(rt, answer),
        None => Ok(print!(rt; "-")?),
    }
}

// The settings and the number that a 200 has, or the answer.
pub(crate) fn fetch(rt: &impl Print, words: &str) -> Result<()> {
    match holding(after_instance(words))?.fetch(instance(words)?) {
        Fetched::Found(settings, number) => {
            tell_settings(rt, &settings)?;
            Ok(print!(rt; " {number}")?)
        }
        Fetched::Answered(answer) => tell_answer(rt, answer),
    }
}

fn work_word(work: Work) -> &'static str {
    match work {
        Work::Make => "make",
        Work::StartMaking => "start-making",
        Work::Delete => "delete",
        Work::StartDeleting => "start-deleting",
    }
}

// What the instance is after a request of its own, a bar, and the answer or `work WORK`.
pub(crate) fn begin_instance(rt: &impl Print, words: &str) -> Result<()> {
    let (mode_word, rest) = first(words);
    let (rule, rest) = first(rest);
    let (kind_word, rest) = first(rest);
    let (accepts_word, rest) = first(rest);
    let (digest, rest) = first(rest);
    let (bound, rest) = first(rest);
    let request = request(kind(kind_word)?, accepts(accepts_word)?);
    let digest: u8 = digest.parse().ok().context("no attributes")?;
    let held = holding(after_instance(rest))?;
    let (after, begun) = held.begin_instance(
        instance(rest)?,
        Some(mode(mode_word)?),
        is_word(rule, "first-poll")?,
        &request,
        attributes(digest),
        is_word(bound, "held")?,
    );
    tell_instance(rt, after)?;
    print!(rt; " | ")?;
    match begun {
        Begun::Answered(answer) => tell_answer(rt, answer),
        Begun::Work(work) => Ok(print!(rt; "work {}", work_word(work))?),
    }
}

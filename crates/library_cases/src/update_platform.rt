//! The calls of a platform for updates, and those of settings. Behind a line stand the record after it, and `sent
//! ATTEMPT` with the request if one is sent: `update NAMES`, `poll PLAN` or `fetch`. If a call is rejected, its reason
//! stands there.
//!
//! STATE is the state in which the instance is recorded. BODY is the word of a body, as in an answer that is written.
use crate::first;
use crate::update_values::{
    body, is_word, number, plan_character, record, settings, tell_change, tell_holding, tell_record,
};
use anyhow::{Context, Result};
use osb_instance::Record;
use osb_message::{Answer, PlanId, ServiceId};
use osb_platform::{PlatformRow, State};
use osb_update::{UpdateHolding, UpdateRecord, UpdateRequest, UpdateSent};

fn tell_sent(rt: &impl Print, after: &UpdateRecord, sent: &UpdateSent) -> Result<()> {
    tell_record(rt, after)?;
    print!(rt; " sent {} ", sent.attempt)?;
    match &sent.request {
        UpdateRequest::Fetch => Ok(print!(rt; "fetch")?),
        UpdateRequest::Poll(plan) => Ok(print!(rt; "poll {}", plan_character(*plan))?),
        UpdateRequest::Update(change) => {
            print!(rt; "update ")?;
            tell_change(rt, change)
        }
    }
}

// The record of an instance in this state, with nothing out.
fn instance(word: &str) -> Result<Record> {
    let row = PlatformRow {
        service: ServiceId::from_value(7),
        plan: PlanId::from_value(112),
        state: State::from_word(word).context("no such state")?,
        out: None,
    };
    Record::from_parts(row, 3).context("no such record")
}

fn update(rt: &impl Print, words: &str) -> Result<()> {
    let (state, rest) = first(words);
    let (to, recorded) = first(rest);
    match record(recorded)?.update(instance(state)?, &settings(to)?) {
        Ok((after, sent)) => tell_sent(rt, &after, &sent),
        Err(fault) => Ok(print!(rt; "{fault:?}")?),
    }
}

fn send(rt: &impl Print, words: &str) -> Result<()> {
    match record(words)?.send() {
        Ok((after, sent)) => tell_sent(rt, &after, &sent),
        Err(fault) => Ok(print!(rt; "{fault:?}")?),
    }
}

fn send_fetch(rt: &impl Print, words: &str) -> Result<()> {
    match record(words)?.fetch() {
        Ok((after, sent)) => tell_sent(rt, &after, &sent),
        Err(fault) => Ok(print!(rt; "{fault:?}")?),
    }
}

fn stop(rt: &impl Print, words: &str) -> Result<()> {
    match record(words)?.stop() {
        Ok(after) => tell_record(rt, &after),
        Err(fault) => Ok(print!(rt; "{fault:?}")?),
    }
}

fn answer(rt: &impl Print, words: &str) -> Result<()> {
    let (attempt, rest) = first(words);
    let (status, rest) = first(rest);
    let (body_word, recorded) = first(rest);
    let answer = Answer {
        status: status.parse().ok().context("no status")?,
        body: body(body_word)?,
    };
    match record(recorded)?.answer(number(attempt)?, answer) {
        Ok(after) => tell_record(rt, &after),
        Err(fault) => Ok(print!(rt; "{fault:?}")?),
    }
}

// What a 200 to a Fetch reports: both words are `-` for any other answer.
fn fetched(rt: &impl Print, words: &str) -> Result<()> {
    let (attempt, rest) = first(words);
    let (reported, rest) = first(rest);
    let (number_word, recorded) = first(rest);
    let reported = match (reported, number_word) {
        ("-", "-") => None,
        _ => Some((settings(reported)?, number(number_word)?)),
    };
    match record(recorded)?.fetched(number(attempt)?, reported) {
        Ok(after) => tell_record(rt, &after),
        Err(fault) => Ok(print!(rt; "{fault:?}")?),
    }
}

fn timeout(rt: &impl Print, words: &str) -> Result<()> {
    let (attempt, recorded) = first(words);
    match record(recorded)?.timeout(number(attempt)?) {
        Ok(after) => tell_record(rt, &after),
        Err(fault) => Ok(print!(rt; "{fault:?}")?),
    }
}

fn can_be(rt: &impl Print, words: &str) -> Result<()> {
    Ok(print!(rt; "{}", record(words)?.can_be())?)
}

// The holding and the record of an instance without Updates.
fn new(rt: &impl Print, word: &str) -> Result<()> {
    tell_holding(rt, &UpdateHolding::new(settings(word)?))?;
    print!(rt; " | ")?;
    tell_record(rt, &UpdateRecord::new(settings(word)?))
}

// What an Update names that asks for `to`.
fn change_to(rt: &impl Print, words: &str) -> Result<()> {
    let (own, rest) = first(words);
    let (to, all) = first(rest);
    let change = settings(own)?.change_to(&settings(to)?, is_word(all, "all")?);
    tell_change(rt, &change)
}

// What any other call makes of its arguments.
pub(crate) fn tell(rt: &impl Print, call: &str, words: &str) -> Result<()> {
    match call {
        "update" => update(rt, words),
        "send" => send(rt, words),
        "send-fetch" => send_fetch(rt, words),
        "stop" => stop(rt, words),
        "answer" => answer(rt, words),
        "fetched" => fetched(rt, words),
        "timeout" => timeout(rt, words),
        "can-be" => can_be(rt, words),
        "new" => new(rt, words),
        "change-to" => change_to(rt, words),
        _ => anyhow::bail!("no such call: {call}"),
    }
}

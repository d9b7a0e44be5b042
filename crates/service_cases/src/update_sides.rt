//! What exists of the updates, as it is written: ` | RECORD; HOLDING; SETTINGS`. `-` stands for none, and for settings
//! that are between.
//!
//! - A RECORD: `SETTINGS NUMBER ATTEMPT STATE TO MIXED OUT`. MIXED is `mixed` or `-`.
//! - A HOLDING: `SETTINGS NUMBER PHASE TO`.
//!
//! Behind an event, after ` # `, stand how many requests were sent and answers given; each request that it sent, as its
//! attempt, its kind, and what an Update names, with a dot for each part that it doesn't name; and each answer that it
//! gave, as its attempt, its status and its body, or its settings and its number.
use crate::sides::body_word;
use anyhow::Result;
use osb_instance::Digest;
use osb_message::PlanId;
use osb_update::{
    Aim, Change, Settings, UpdateHolding, UpdateKind, UpdatePhase, UpdateRecord, UpdateState,
};
use osb_update_sides::{Asked, Said, Updates};

fn plan_character(plan: PlanId) -> char {
    match u8::try_from(plan.value()) {
        Ok(character) => char::from(character),
        Err(_) => '?',
    }
}

fn digest_character(digest: Digest) -> char {
    char::from(digest.bytes[0])
}

fn tell_settings(rt: &impl Print, settings: &Settings) -> Result<()> {
    let plan = plan_character(settings.plan);
    let parameters = digest_character(settings.parameters);
    Ok(print!(rt; "{plan}{parameters}{}", digest_character(settings.version))?)
}

fn tell_some(rt: &impl Print, settings: Option<Settings>) -> Result<()> {
    match &settings {
        None => Ok(print!(rt; "-")?),
        Some(settings) => tell_settings(rt, settings),
    }
}

// What an Update names.
fn tell_names(rt: &impl Print, names: &Change) -> Result<()> {
    let plan = names.plan.map_or('.', plan_character);
    let parameters = names.parameters.map_or('.', digest_character);
    let version = names.version.map_or('.', digest_character);
    Ok(print!(rt; "{plan}{parameters}{version}")?)
}

// The word of a state, and what the updates aim at.
fn parts_of(state: UpdateState) -> (&'static str, Option<Aim>) {
    match state {
        UpdateState::Settled => ("settled", None),
        UpdateState::Updating(aim) => ("updating", Some(aim)),
        UpdateState::Polling(aim) => ("polling", Some(aim)),
        UpdateState::Unsure(aim) => ("unsure", Some(aim)),
    }
}

fn out_word(out: Option<UpdateKind>) -> &'static str {
    match out {
        None => "-",
        Some(UpdateKind::Update) => "update",
        Some(UpdateKind::Poll) => "poll",
        Some(UpdateKind::Fetch) => "fetch",
    }
}

fn tell_record(rt: &impl Print, recorded: &UpdateRecord) -> Result<()> {
    tell_settings(rt, &recorded.settings)?;
    let (word, aim) = parts_of(recorded.state);
    print!(rt; " {} {} {word} ", recorded.number, recorded.attempt)?;
    tell_some(rt, aim.map(|aim| aim.to))?;
    let is_mixed = aim.map_or(false, |aim| aim.mixed);
    let mixed = if is_mixed { "mixed" } else { "-" };
    Ok(print!(rt; " {mixed} {}", out_word(recorded.out))?)
}

// The word of a phase, and the settings to which the work or the operation leads.
fn phase_parts(phase: UpdatePhase) -> (&'static str, Option<Settings>) {
    match phase {
        UpdatePhase::Settled => ("settled", None),
        UpdatePhase::Failed => ("failed", None),
        UpdatePhase::Pending(to) => ("pending", Some(to)),
        UpdatePhase::Updating(to) => ("updating", Some(to)),
        UpdatePhase::Mending(to) => ("mending", Some(to)),
    }
}

fn tell_holding(rt: &impl Print, held: &UpdateHolding) -> Result<()> {
    tell_settings(rt, &held.settings)?;
    let (word, to) = phase_parts(held.phase);
    print!(rt; " {} {word} ", held.number)?;
    tell_some(rt, to)
}

pub(crate) fn tell_updates(rt: &impl Print, updates: &Updates) -> Result<()> {
    let (recorded, held) = (updates.recorded(), updates.held());
    print!(rt; " | ")?;
    tell_record(rt, &recorded)?;
    print!(rt; "; ")?;
    tell_holding(rt, &held)?;
    print!(rt; "; ")?;
    tell_some(rt, updates.settings())
}

fn tell_asked(rt: &impl Print, asked: &Asked) -> Result<()> {
    match asked {
        Asked::Update(names) => {
            print!(rt; "update ")?;
            tell_names(rt, names)
        }
        Asked::Poll => Ok(print!(rt; "poll")?),
        Asked::Fetch => Ok(print!(rt; "fetch")?),
    }
}

fn tell_said(rt: &impl Print, said: &Said) -> Result<()> {
    match said {
        Said::Answer(answer) => Ok(print!(rt; "{} {}", answer.status, body_word(answer.body))?),
        Said::Found(settings, number) => {
            tell_settings(rt, settings)?;
            Ok(print!(rt; " {number}")?)
        }
    }
}

// The requests since there were so many.
fn tell_sent(rt: &impl Print, updates: &Updates, before: usize) -> Result<()> {
    for request in updates.sent().iter().skip(before) {
        print!(rt; "; {} ", request.attempt)?;
        tell_asked(rt, &request.asked)?;
    }
    Ok(())
}

// What was sent and given, the requests since there were `sent`, and the answers since there were `given`.
pub(crate) fn tell_more(
    rt: &impl Print,
    updates: &Updates,
    sent: usize,
    given: usize,
) -> Result<()> {
    let (all_sent, all_given) = (updates.sent().len(), updates.given().len());
    print!(rt; " # {all_sent} sent, {all_given} given")?;
    tell_sent(rt, updates, sent)?;
    for reply in updates.given().iter().skip(given) {
        print!(rt; "; {}: ", reply.attempt)?;
        tell_said(rt, &reply.said)?;
    }
    Ok(())
}

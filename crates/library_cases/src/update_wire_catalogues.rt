//! What catalogues say of updates. Behind a plan stand whether it is updateable, retrievable and asynchronous, its
//! version, and its longest time of polling, or `-` alone if it isn't sold.
use crate::first;
use crate::update_wire_words::{bytes, given, tell_given, tell_text, text};
use anyhow::{Context, Result};
use osb_instance::Rejection;
use osb_message::{Mode, PlanId, ServiceId};
use osb_update::Allowed;
use osb_update_wire::{
    PlanUpdates, numbers_updates, plan_updates, served_updates, update_allowed,
    update_flags_are_sound,
};
use osb_wire::id_of_text;
use std::alloc::Global;

fn service_of(alloc: Global, word: &str) -> Result<ServiceId> {
    let service = text(alloc, word)?;
    id_of_text(service.as_str()).context("no id")
}

fn plan_of(alloc: Global, word: &str) -> Result<PlanId> {
    let plan = text(alloc, word)?;
    id_of_text(plan.as_str()).context("no id")
}

fn flag_word(says: Option<bool>) -> &'static str {
    match says {
        Some(true) => "true",
        Some(false) => "false",
        None => "-",
    }
}

fn tell_plan(rt: &impl Print, alloc: Global, plan: &PlanUpdates) -> Result<()> {
    let asynchronous = flag_word(plan.asynchronous);
    print!(rt; " {} {} {asynchronous}", plan.updateable, plan.retrievable)?;
    tell_given(rt, alloc, &plan.version)?;
    match plan.longest_poll {
        Some(seconds) => Ok(print!(rt; " {seconds}")?),
        None => Ok(print!(rt; " -")?),
    }
}

fn plan(rt: &impl Print, alloc: Global, words: &str) -> Result<()> {
    let (service, rest) = first(words);
    let (plan, document) = first(rest);
    let (service, plan) = (service_of(alloc, service)?, plan_of(alloc, plan)?);
    let document = bytes(alloc, document)?;
    match plan_updates(alloc, &document, service, plan)? {
        Some(found) => tell_plan(rt, alloc, &found),
        None => Ok(print!(rt; " -")?),
    }
}

fn mode(word: &str) -> Result<Mode> {
    match word {
        "sync" => Ok(Mode::Sync),
        "async" => Ok(Mode::Async),
        _ => anyhow::bail!("no such mode: {word}"),
    }
}

fn tell_allowed(rt: &impl Print, allowed: Allowed) -> Result<()> {
    match allowed {
        Allowed::Mode(Mode::Sync) => Ok(print!(rt; " sync")?),
        Allowed::Mode(Mode::Async) => Ok(print!(rt; " async")?),
        Allowed::Rejected(Rejection::BadRequest) => Ok(print!(rt; " 400")?),
        Allowed::Rejected(Rejection::UnprocessableEntity) => Ok(print!(rt; " 422")?),
        Allowed::MaintenanceInfoConflict => Ok(print!(rt; " conflict")?),
    }
}

fn allowed(rt: &impl Print, alloc: Global, words: &str) -> Result<()> {
    let (service, rest) = first(words);
    let (held, rest) = first(rest);
    let (asked, rest) = first(rest);
    let (version, rest) = first(rest);
    let (mode_word, document) = first(rest);
    let service = service_of(alloc, service)?;
    let (held, asked) = (plan_of(alloc, held)?, plan_of(alloc, asked)?);
    let version = given(alloc, version)?;
    let version_text = version.as_ref().map(|text| text.as_str());
    let document = bytes(alloc, document)?;
    let of_held = plan_updates(alloc, &document, service, held)?;
    let of_asked = plan_updates(alloc, &document, service, asked)?;
    let leaves = held != asked;
    let (held, asked) = (of_held.as_ref(), of_asked.as_ref());
    let otherwise = mode(mode_word)?;
    tell_allowed(
        rt,
        update_allowed(held, asked, leaves, version_text, otherwise),
    )
}

fn numbers(rt: &impl Print, alloc: Global, words: &str) -> Result<()> {
    let document = bytes(alloc, words)?;
    let says = numbers_updates(alloc, &document)?;
    Ok(print!(rt; " {says}")?)
}

fn sound(rt: &impl Print, alloc: Global, words: &str) -> Result<()> {
    let document = bytes(alloc, words)?;
    let are = update_flags_are_sound(alloc, &document)?;
    Ok(print!(rt; " {are}")?)
}

fn served(rt: &impl Print, alloc: Global, words: &str) -> Result<()> {
    let document = bytes(alloc, words)?;
    match served_updates(alloc, &document)? {
        Some(told) => tell_text(rt, alloc, told.as_str()),
        None => Ok(print!(rt; " -")?),
    }
}

// What a call makes of its arguments.
pub(crate) fn tell(rt: &impl Print, alloc: Global, call: &str, words: &str) -> Result<()> {
    match call {
        "plan" => plan(rt, alloc, words),
        "allowed" => allowed(rt, alloc, words),
        "numbers" => numbers(rt, alloc, words),
        "sound" => sound(rt, alloc, words),
        "served" => served(rt, alloc, words),
        _ => anyhow::bail!("no such call: {call}"),
    }
}

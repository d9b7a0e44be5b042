//! What osb_update_wire returns: lines of the form `update-wire CALL ARGUMENTS`. Texts are words as in
//! `update_wire_words.rt`, and an argument in brackets may be `-`, which is none.
//!
//! - `request METHOD LONGEST PREFIX TARGET BODY`: what a broker takes from a request, or the status and the body with
//!   which it rejects it. Behind what is asked stand the texts of the ids, and the parts of the body.
//! - `parts NUMBER BODY`: the parts of the body of an Update with this number.
//! - `update PREFIX accepts|refuses NUMBER INSTANCE SERVICE [PLAN] [PARAMETERS] [VERSION] [CONTEXT]`: the Update that a
//!   platform sends, and what it asks for, or the fault.
//! - `fetch PREFIX INSTANCE SERVICE PLAN`: the Fetch that it sends, or the fault.
//! - `digest VERSION`: the digest of a version.
//! - `answer STATUS BODY`: what a platform takes from the response to an Update (`update_wire_bodies.rt`).
//! - `success STATUS [OPERATION] [ADDRESS] [METADATA]` and `failure STATUS WORD [DESCRIPTION] [USABLE] [REPEATABLE]`:
//!   the body of an answer. The WORD is that of the answer's body, and a flag is `true` or `false`.
//! - `write-fetched NUMBER SERVICE PLAN [PARAMETERS] [VERSION] [ADDRESS] [METADATA]`: that of the answer to a Fetch.
//! - `fetched STATUS BODY`: what a platform takes from the response to a Fetch.
//! - `plan SERVICE PLAN DOCUMENT`: what a catalogue says of a plan (`update_wire_catalogues.rt`).
//! - `allowed SERVICE HELD ASKED [VERSION] sync|async DOCUMENT`: whether it lets an Update lead from one plan to the
//!   other.
//! - `numbers DOCUMENT` and `sound DOCUMENT`: whether it says that Updates are ordered, and whether its members have
//!   their types.
//! - `served DOCUMENT`: the document that is served.
//!
//! `checks/update_wire` compares many more such lines with Python's `json` and `urllib`.
use crate::update_values::number;
use crate::update_wire_words::{
    bytes, given, tell_digest, tell_digest_given, tell_given, tell_text, text,
};
use crate::{first, update_wire_bodies, update_wire_catalogues};
use anyhow::{Context, Result};
use osb_message::{PlanId, ServiceId};
use osb_update::Update;
use osb_update_wire::{
    FETCH_METHOD, TextFault, UPDATE_METHOD, UpdateAsked, UpdateParts, UpdateReceived,
    UpdateRefusal, UpdateTexts, WrittenUpdate, read_update_request, update_parts, version_digest,
    write_fetch, write_update,
};
use osb_wire::Names;
use std::alloc::Global;

// ---- what is printed

fn tell_plan(rt: &impl Print, plan: Option<PlanId>) -> Result<()> {
    match plan {
        Some(plan) => Ok(print!(rt; " {plan}")?),
        None => Ok(print!(rt; " -")?),
    }
}

fn tell_service(rt: &impl Print, service: Option<ServiceId>) -> Result<()> {
    match service {
        Some(service) => Ok(print!(rt; " {service}")?),
        None => Ok(print!(rt; " -")?),
    }
}

// What an Update asks for.
fn tell_update(rt: &impl Print, alloc: Global, update: &Update) -> Result<()> {
    print!(rt; " {}", update.service)?;
    tell_plan(rt, update.change.plan)?;
    tell_digest_given(rt, alloc, &update.change.parameters)?;
    tell_digest_given(rt, alloc, &update.change.version)?;
    let accepts = if update.accepts_incomplete {
        "accepts"
    } else {
        "refuses"
    };
    Ok(print!(rt; " {} {accepts}", update.number)?)
}

fn tell_asked(rt: &impl Print, alloc: Global, asked: &UpdateAsked) -> Result<()> {
    let id = asked.id();
    match asked {
        UpdateAsked::Update { update, .. } => {
            print!(rt; " update {id}")?;
            tell_update(rt, alloc, update)
        }
        UpdateAsked::Fetch { service, plan, .. } => {
            print!(rt; " fetch {id}")?;
            tell_service(rt, *service)?;
            tell_plan(rt, *plan)
        }
    }
}

fn tell_parts(rt: &impl Print, alloc: Global, parts: &UpdateParts) -> Result<()> {
    tell_given(rt, alloc, &parts.parameters)?;
    tell_given(rt, alloc, &parts.version)?;
    tell_given(rt, alloc, &parts.context)?;
    tell_given(rt, alloc, &parts.previous_values)
}

fn tell_received(rt: &impl Print, alloc: Global, received: &UpdateReceived) -> Result<()> {
    tell_asked(rt, alloc, &received.asked)?;
    tell_text(rt, alloc, received.instance.as_str())?;
    tell_given(rt, alloc, &received.service)?;
    tell_given(rt, alloc, &received.plan)?;
    tell_parts(rt, alloc, &received.parts)
}

fn tell_rejected(rt: &impl Print, alloc: Global, refusal: UpdateRefusal) -> Result<()> {
    print!(rt; " {}", refusal.status())?;
    tell_text(rt, alloc, refusal.body())
}

fn tell_written(rt: &impl Print, alloc: Global, sent: &WrittenUpdate) -> Result<()> {
    print!(rt; " {UPDATE_METHOD}")?;
    tell_text(rt, alloc, sent.target.as_str())?;
    tell_text(rt, alloc, sent.body.as_str())?;
    print!(rt; " {}", sent.id)?;
    tell_update(rt, alloc, &sent.update)
}

// ---- the calls

fn request(rt: &impl Print, alloc: Global, words: &str) -> Result<()> {
    let (method, rest) = first(words);
    let (longest, rest) = first(rest);
    let (prefix, rest) = first(rest);
    let (target, body) = first(rest);
    let longest: usize = longest.parse().ok().context("no length")?;
    let prefix = text(alloc, prefix)?;
    let target = bytes(alloc, target)?;
    let body = bytes(alloc, body)?;
    match read_update_request(alloc, prefix.as_str(), longest, method, &target, &body) {
        Ok(received) => tell_received(rt, alloc, &received),
        Err(refusal) => tell_rejected(rt, alloc, refusal),
    }
}

fn parts(rt: &impl Print, alloc: Global, words: &str) -> Result<()> {
    let (number_word, body) = first(words);
    let body = bytes(alloc, body)?;
    let parts = update_parts(alloc, &body, number(number_word)?)?;
    tell_parts(rt, alloc, &parts)
}

// Whether a request accepts an asynchronous operation.
fn accepts(word: &str) -> Result<bool> {
    match word {
        "accepts" => Ok(true),
        "refuses" => Ok(false),
        _ => anyhow::bail!("neither accepts nor refuses: {word}"),
    }
}

// The texts of an Update, each of its own.
#[derive(Drop)]
struct OwnTexts {
    instance: String,
    service: String,
    plan: Option<String>,
    parameters: Option<String>,
    version: Option<String>,
    context: Option<String>,
}

fn own_texts(alloc: Global, words: &str) -> Result<OwnTexts> {
    let (instance, rest) = first(words);
    let (service, rest) = first(rest);
    let (plan, rest) = first(rest);
    let (parameters, rest) = first(rest);
    let (version, context) = first(rest);
    Ok(OwnTexts {
        instance: text(alloc, instance)?,
        service: text(alloc, service)?,
        plan: given(alloc, plan)?,
        parameters: given(alloc, parameters)?,
        version: given(alloc, version)?,
        context: given(alloc, context)?,
    })
}

// What is sent of these texts.
fn written(
    alloc: Global,
    prefix: &str,
    own: &OwnTexts,
    number: u64,
    accepts_incomplete: bool,
) -> Result<WrittenUpdate, TextFault> {
    let plan = own.plan.as_ref().map(|text| text.as_str());
    let parameters = own.parameters.as_ref().map(|text| text.as_str());
    let version = own.version.as_ref().map(|text| text.as_str());
    let context = own.context.as_ref().map(|text| text.as_str());
    let texts = UpdateTexts {
        instance: own.instance.as_str(),
        service: own.service.as_str(),
        plan,
        parameters,
        version,
        context,
    };
    write_update(alloc, prefix, &texts, number, accepts_incomplete)
}

fn update(rt: &impl Print, alloc: Global, words: &str) -> Result<()> {
    let (prefix, rest) = first(words);
    let (accepts_word, rest) = first(rest);
    let (number_word, rest) = first(rest);
    let prefix = text(alloc, prefix)?;
    let own = own_texts(alloc, rest)?;
    let (number, accepts) = (number(number_word)?, accepts(accepts_word)?);
    match written(alloc, prefix.as_str(), &own, number, accepts) {
        Ok(sent) => tell_written(rt, alloc, &sent),
        Err(fault) => Ok(print!(rt; " {fault:?}")?),
    }
}

fn fetch(rt: &impl Print, alloc: Global, words: &str) -> Result<()> {
    let (prefix, rest) = first(words);
    let (instance, rest) = first(rest);
    let (service, plan) = first(rest);
    let prefix = text(alloc, prefix)?;
    let instance = text(alloc, instance)?;
    let service = text(alloc, service)?;
    let plan = text(alloc, plan)?;
    let names = Names {
        instance: instance.as_str(),
        service: service.as_str(),
        plan: plan.as_str(),
    };
    match write_fetch(alloc, prefix.as_str(), &names) {
        Ok(target) => {
            print!(rt; " {FETCH_METHOD}")?;
            tell_text(rt, alloc, target.as_str())
        }
        Err(fault) => Ok(print!(rt; " {fault:?}")?),
    }
}

fn digest(rt: &impl Print, alloc: Global, word: &str) -> Result<()> {
    let version = text(alloc, word)?;
    tell_digest(rt, alloc, &version_digest(version.as_str()))
}

// What a call makes of its arguments.
fn tell_call(rt: &impl Print, alloc: Global, call: &str, words: &str) -> Result<()> {
    match call {
        "request" => request(rt, alloc, words),
        "parts" => parts(rt, alloc, words),
        "update" => update(rt, alloc, words),
        "fetch" => fetch(rt, alloc, words),
        "digest" => digest(rt, alloc, words),
        "answer" => update_wire_bodies::answer(rt, alloc, words),
        "success" => update_wire_bodies::success(rt, alloc, words),
        "failure" => update_wire_bodies::failure(rt, alloc, words),
        "write-fetched" => update_wire_bodies::written_fetched(rt, alloc, words),
        "fetched" => update_wire_bodies::fetched(rt, alloc, words),
        _ => update_wire_catalogues::tell(rt, alloc, call, words),
    }
}

pub(crate) fn tell(rt: &impl Print, alloc: Global, rest: &str) -> Result<()> {
    let (call, words) = first(rest);
    print!(rt; " ")?;
    tell_call(rt, alloc, call, words)?;
    Ok(println!(rt;)?)
}

//! A platform: `new` begins one, and `load` one from a text. `create`, `send`, `answer`, `timeout`, `expire` and
//! `remove` are calls of the platform that the lines before have left. So are `save` and `recorded`, which lists the
//! ids. Behind what a call returned stands what is recorded of its instance then. An id is written as its number. Each
//! instance is of the service a0 and its plan b1, unless a text says otherwise.
use crate::first;
use anyhow::{Context, Result};
use osb_message::{Answer, Body, ErrorCode, InstanceId, PlanId, ServiceId};
use osb_platform::Platform;
use std::alloc::Global;

// What a call is told to make of its arguments.
pub(crate) fn tell(
    rt: &impl Print,
    alloc: Global,
    platform: &mut Platform,
    call: &str,
    rest: &str,
) -> Result<()> {
    match call {
        "new" => {
            *platform = Platform::new(alloc);
            Ok(println!(rt;)?)
        }
        "save" => {
            let text = platform.save(alloc).ok().context("no memory")?;
            Ok(println!(rt; "  {text}")?)
        }
        "recorded" => {
            let ids = platform.ids(alloc)?;
            Ok(println!(rt; "  {ids:?}")?)
        }
        "load" => load(rt, alloc, platform, rest),
        _ => of_instance(rt, platform, call, rest),
    }
}

// `load TEXT`: the platform of a text, and each of its instances.
fn load(rt: &impl Print, alloc: Global, platform: &mut Platform, text: &str) -> Result<()> {
    match Platform::load(alloc, text) {
        Ok(loaded) => *platform = loaded,
        Err(fault) => return Ok(println!(rt; "  {fault:?}")?),
    }
    println!(rt; "  {} loaded", platform.rows().count())?;
    for (id, row) in platform.rows() {
        println!(rt; "  {id} {row:?}")?;
    }
    Ok(())
}

// The answer of `STATUS BODY`.
fn answer(words: &str) -> Result<Answer> {
    let (status, word) = first(words);
    let body = match word {
        "malformed" => Body::Malformed,
        "empty" => Body::Empty,
        "error" => Body::Error(ErrorCode::Other),
        _ => anyhow::bail!("no such body: {word}"),
    };
    Ok(Answer {
        status: status.parse().ok().context("no status")?,
        body,
    })
}

// `create ID accepts|refuses`, `answer ID STATUS BODY`, or another call of an instance.
fn of_instance(rt: &impl Print, platform: &mut Platform, call: &str, rest: &str) -> Result<()> {
    let (word, rest) = first(rest);
    let id = InstanceId::from_value(word.parse::<u128>()?);
    match call {
        "create" => {
            let (service, plan) = (ServiceId::from_value(0xa0), PlanId::from_value(0xb1));
            let created = platform.create(id, service, plan, rest == "accepts");
            print!(rt; "  {created:?}")?;
        }
        "send" => {
            let sent = platform.send(id);
            print!(rt; "  {sent:?}")?;
        }
        "answer" => {
            let taken = platform.answer(id, answer(rest)?);
            print!(rt; "  {taken:?}")?;
        }
        "timeout" => {
            let given_up = platform.timeout(id);
            print!(rt; "  {given_up:?}")?;
        }
        "expire" => {
            let expired = platform.expire(id);
            print!(rt; "  {expired:?}")?;
        }
        "remove" => {
            let removed = platform.remove(id);
            print!(rt; "  {removed:?}")?;
        }
        _ => anyhow::bail!("no such call: {call}"),
    }
    let row = platform.row(id);
    Ok(println!(rt; " {row:?}")?)
}

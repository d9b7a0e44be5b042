//! What exists, as it is written: a LIFE of the instance and of each binding, with ` | ` between them.
//!
//! A LIFE is the platform's record, as its state, the kind of the request that is out, and the attempt; the broker's
//! holding, as its row's phase, the kind of the pending work, and its tombstone; and the resource. `-` stands for none.
//! A binding has its credentials besides: those that the platform records with `ready`, and those of a resource that is
//! whole. Behind an event of the instance, after ` # `, stand how many requests were sent and answers given, and each
//! answer that the event gave, as its attempt, its status and its body.
use crate::id_of;
use anyhow::{Context, Result};
use osb_binding_network::{ServiceBinding, ServiceInstance};
use osb_instance::{Holding, Record};
use osb_message::{Body, ErrorCode, Kind, LastState};
use osb_network::{Instance, Resource};

fn kind_word(kind: Option<Kind>) -> &'static str {
    kind.map_or("-", |kind| kind.word())
}

pub(crate) fn resource_word(resource: Resource) -> &'static str {
    match resource {
        Resource::Absent => "absent",
        Resource::Part => "part",
        Resource::Whole => "whole",
    }
}

pub(crate) fn body_word(body: Body) -> &'static str {
    match body {
        Body::Empty => "empty",
        Body::Malformed => "malformed",
        Body::State(LastState::InProgress) => "in-progress",
        Body::State(LastState::Succeeded) => "succeeded",
        Body::State(LastState::Failed) => "failed",
        Body::Error(ErrorCode::Other) => "error",
        Body::Error(ErrorCode::AsyncRequired) => "AsyncRequired",
        Body::Error(ErrorCode::ConcurrencyError) => "ConcurrencyError",
    }
}

fn tell_record(rt: &impl Print, record: Option<Record>) -> Result<()> {
    let Some(record) = record else {
        return Ok(print!(rt; "-; ")?);
    };
    let row = record.row();
    let (state, out) = (row.state.word(), kind_word(row.out));
    Ok(print!(rt; "{state} {out} {}; ", record.attempt())?)
}

pub(crate) fn tell_holding(rt: &impl Print, holding: Holding) -> Result<()> {
    let phase = holding.row().map_or("-", |row| row.phase.word());
    let work = kind_word(holding.work().map(|request| request.kind));
    let tombstone = if holding.has_tombstone() {
        "tombstone"
    } else {
        "-"
    };
    Ok(print!(rt; "{phase} {work} {tombstone}; ")?)
}

fn tell_credentials(rt: &impl Print, credentials: Option<u64>) -> Result<()> {
    match credentials {
        Some(number) => Ok(print!(rt; " {number}")?),
        None => Ok(print!(rt; " -")?),
    }
}

pub(crate) fn tell_instance(rt: &impl Print, instance: &Instance) -> Result<()> {
    tell_record(rt, instance.record())?;
    tell_holding(rt, instance.holding())?;
    Ok(print!(rt; "{}", resource_word(instance.resource()))?)
}

// Those that the platform records with `ready`.
fn recorded_credentials(binding: &ServiceBinding) -> Option<u64> {
    match binding.record() {
        Some(record) if record.is_ready() => Some(binding.recorded_credentials()),
        _ => None,
    }
}

// Those of a resource that is whole.
fn existing_credentials(binding: &ServiceBinding) -> Option<u64> {
    match binding.resource() {
        Resource::Whole => Some(binding.credentials()),
        Resource::Absent | Resource::Part => None,
    }
}

fn tell_binding(rt: &impl Print, binding: &ServiceBinding) -> Result<()> {
    tell_record(rt, binding.record().map(|record| record.as_record()))?;
    tell_holding(rt, binding.holding().as_holding())?;
    print!(rt; "{}; credentials", resource_word(binding.resource()))?;
    tell_credentials(rt, recorded_credentials(binding))?;
    tell_credentials(rt, existing_credentials(binding))
}

// All lives: the bindings have the numbers from 1 to `bindings`.
pub(crate) fn tell(rt: &impl Print, lives: &ServiceInstance, bindings: u64) -> Result<()> {
    tell_instance(rt, lives.instance())?;
    for number in 1..=bindings {
        print!(rt; " | ")?;
        let binding = lives.binding(id_of(number));
        tell_binding(rt, binding.context("no such binding")?)?;
    }
    Ok(())
}

// What was sent and given, and the answers since there were so many.
pub(crate) fn tell_more(rt: &impl Print, instance: &Instance, before: usize) -> Result<()> {
    let (sent, given) = (instance.sent(), instance.given());
    print!(rt; " # {} sent, {} given", sent.len(), given.len())?;
    for reply in given.iter().skip(before) {
        let (status, body) = (reply.answer.status, body_word(reply.answer.body));
        print!(rt; "; {}: {status} {body}", reply.attempt)?;
    }
    Ok(())
}

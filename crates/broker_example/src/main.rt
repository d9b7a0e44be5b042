//! One instance of an asynchronous plan, from its making to its end. The requests stand here in the
//! code, where a service would read them from HTTP, and the answers are printed.
#![tactic(auto)]

use anyhow::{Context, Result};
use osb_broker::{Broker, Outcome};
use osb_message::{
    Body, Catalogue, ErrorCode, InstanceId, Kind, LastState, Mode, PlanId, Request, ServiceId,
};

const INSTANCE: &str = "00000000-0000-0000-0000-000000000001";

const SERVICE: &str = "00000000-0000-0000-0000-0000000000a0";

const PLAN: &str = "00000000-0000-0000-0000-0000000000b2";

// The request as HTTP has it.
fn method(kind: Kind) -> &'static str {
    match kind {
        Kind::Provision => "PUT",
        Kind::Poll => "GET last_operation",
        Kind::Deprovision => "DELETE",
    }
}

// The answer's body as HTTP has it.
fn json(body: Body) -> &'static str {
    match body {
        Body::Empty | Body::Malformed | Body::Error(ErrorCode::Other) => "{}",
        Body::State(LastState::InProgress) => r#"{"state":"in progress"}"#,
        Body::State(LastState::Succeeded) => r#"{"state":"succeeded"}"#,
        Body::State(LastState::Failed) => r#"{"state":"failed"}"#,
        Body::Error(ErrorCode::AsyncRequired) => r#"{"error":"AsyncRequired"}"#,
        Body::Error(ErrorCode::ConcurrencyError) => r#"{"error":"ConcurrencyError"}"#,
    }
}

// Answers one request; what it asks of the backend went well.
fn serve(rt: &impl Print, broker: &mut Broker, kind: Kind) -> Result<()> {
    let request = Request {
        kind,
        id: InstanceId::from_text(INSTANCE)?,
        service: ServiceId::from_text(SERVICE)?,
        plan: PlanId::from_text(PLAN)?,
        accepts_incomplete: true,
    };
    let answer = broker.handle(&request, Outcome::Done)?;
    let (method, status, body) = (method(kind), answer.status, json(answer.body));
    println!(rt; "{method}: {status} {body}")?;
    Ok(())
}

// The backend is done with the instance.
fn finish(rt: &impl Print, broker: &mut Broker) -> Result<()> {
    let id = InstanceId::from_text(INSTANCE)?;
    broker
        .finish(id, true)
        .ok()
        .context("nothing runs on the instance")?;
    let phase = broker.row(id).map_or("gone", |row| row.phase.word());
    println!(rt; "the backend is done: {phase}")?;
    Ok(())
}

fn main(rt: HostRuntime) -> Result<()> {
    let mut catalogue = Catalogue::new(rt.alloc());
    catalogue.add(
        ServiceId::from_text(SERVICE)?,
        PlanId::from_text(PLAN)?,
        Mode::Async,
    )?;
    let mut broker = Broker::new(rt.alloc(), catalogue);

    for kind in [Kind::Provision, Kind::Poll] {
        serve(&rt, &mut broker, kind)?;
    }
    finish(&rt, &mut broker)?;
    for kind in [Kind::Poll, Kind::Deprovision, Kind::Poll] {
        serve(&rt, &mut broker, kind)?;
    }
    finish(&rt, &mut broker)?;
    serve(&rt, &mut broker, Kind::Poll)
}

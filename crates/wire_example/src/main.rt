//! One Provision of an asynchronous plan, and its Poll, as the bytes of HTTP. Both sides stand in one
//! program: what an HTTP library would carry from one to the other is printed.
#![tactic(auto)]

use anyhow::{Context, Result};
use osb_broker::{Broker, Outcome};
use osb_message::{Answer, InstanceId, PlanId, Request, ServiceId};
use osb_platform::Platform;
use osb_wire::{
    Endpoints, Names, asked_operation, catalogue_document, read_answer, read_operation,
    read_request, write_answer, write_request,
};
use serde_json::Map;
use std::alloc::Global;

const INSTANCE: &str = "00000000-0000-0000-0000-000000000001";

const SERVICE: &str = "00000000-0000-0000-0000-0000000000a0";

const PLAN: &str = "00000000-0000-0000-0000-0000000000b2";

// What the broker sells, as its author writes it.
const CATALOGUE: &[u8] =
    br#"{"services":[{"id":"00000000-0000-0000-0000-0000000000a0","name":"postgres","description":"PostgreSQL",
    "bindable":false,"plans":[{"id":"00000000-0000-0000-0000-0000000000b2","name":"small","description":"1 GB",
    "x-osb-asynchronous":true}]}]}"#;

// The broker serves no endpoint besides those of an instance and its last operation.
const SERVES: Endpoints = Endpoints {
    updating: false,
    bindings: false,
    fetching_instances: false,
    fetching_bindings: false,
};

// The texts of the ids, as the platform and the catalogue have them.
const NAMES: Names<'static> = Names {
    instance: INSTANCE,
    service: SERVICE,
    plan: PLAN,
};

// What stands before `/v2` in the broker's URL.
const PREFIX: &str = "/postgres";

// The longest body that the broker takes.
const LONGEST_BODY: usize = 100_000;

// The broker answers a request.
fn serve(
    rt: &impl Print,
    alloc: Global,
    broker: &mut Broker,
    method: &str,
    target: &str,
    body: &str,
) -> Result<(u16, String)> {
    let received = match read_request(
        alloc,
        PREFIX,
        LONGEST_BODY,
        method,
        target.as_bytes(),
        body.as_bytes(),
    ) {
        Ok(received) => received,
        Err(refusal) => {
            return Ok((refusal.status(), String::from_str(alloc, refusal.body())?));
        }
    };
    if let Some(operation) = asked_operation(alloc, target.as_bytes())? {
        println!(rt; "  (it is asked about {})", operation.as_str())?;
    }
    let asked = received.asked;
    let held = broker.row(asked.id()).map(|row| (row.service, row.plan));
    let answer = broker.handle(&asked.request(held), Outcome::Done)?;
    let text = write_answer(alloc, answer, Some("making 1"), None)?;
    Ok((answer.status, text))
}

// The platform sends a request and takes the answer, with the operation that the broker names.
fn carry(
    rt: &impl Print,
    alloc: Global,
    platform: &mut Platform,
    broker: &mut Broker,
    request: &Request,
    operation: Option<&str>,
) -> Result<Option<String>> {
    let sent = write_request(
        alloc,
        PREFIX,
        request,
        &NAMES,
        operation,
        "an organization",
        "a space",
        Map::new(alloc),
    )?;
    let (method, target, body) = (sent.method, sent.target.as_str(), sent.body.as_str());
    println!(rt; "{method} {target}")?;
    println!(rt; "  {body}")?;
    let (status, text) = serve(rt, alloc, broker, method, target, body)?;
    println!(rt; "{status}")?;
    println!(rt; "  {}", text.as_str())?;
    let answer: Option<Answer> = read_answer(alloc, request.kind, status, text.as_bytes())?;
    match answer {
        Some(answer) => platform.answer(request.id, answer),
        None => platform.timeout(request.id),
    }
    .ok()
    .context("no request is out")?;
    let state = platform.row(request.id).context("no record")?.state;
    println!(rt; "the platform records {}", state.word())?;
    Ok(read_operation(alloc, text.as_bytes())?)
}

fn main(rt: HostRuntime) -> Result<()> {
    let alloc = rt.alloc();
    let id = InstanceId::from_text(INSTANCE)?;
    let service = ServiceId::from_text(SERVICE)?;
    let plan = PlanId::from_text(PLAN)?;
    let document = catalogue_document(alloc, CATALOGUE, SERVES)?;
    let mut broker = Broker::new(alloc, document.catalogue);
    let mut platform = Platform::new(alloc);

    let provision = platform
        .create(id, service, plan, true)
        .ok()
        .context("the instance isn't created")?;
    let operation = carry(&rt, alloc, &mut platform, &mut broker, &provision, None)?;
    broker
        .finish(id, true)
        .ok()
        .context("nothing runs on the instance")?;
    let poll = platform.send(id).ok().context("nothing is due")?;
    let named = operation.as_ref().map(|text| text.as_str());
    carry(&rt, alloc, &mut platform, &mut broker, &poll, named)?;
    Ok(())
}

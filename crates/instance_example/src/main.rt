//! The life of one instance of a synchronous plan, with a broker that is killed in the middle of its work and a
//! Provision that arrives twice. Both sides stand in one program: what each writes to its database is a text, and is
//! printed.
#![tactic(auto)]

use anyhow::{Context, Result, ensure};
use osb_instance::{Begun, Digest, Holding, Record, Sent, Work, WorkOutcome};
use osb_message::{Answer, InstanceId, Mode, PlanId, Request, ServiceId};
use std::alloc::Global;

const INSTANCE: &str = "00000000-0000-0000-0000-000000000001";

const SERVICE: &str = "00000000-0000-0000-0000-0000000000a0";

const PLAN: &str = "00000000-0000-0000-0000-0000000000b1";

// How the plan works, as the broker's catalogue has it.
const MODE: Option<Mode> = Some(Mode::Sync);

// The platform's row of the instance is written to its database.
fn write_record(rt: &impl Print, alloc: Global, record: Record) -> Result<String> {
    let text = record.to_text(alloc)?;
    println!(rt;
        "platform {} ({})",
        record.row().state.word(),
        record.attempt()
    )?;
    Ok(text)
}

// The broker's row of the instance is written to its database.
fn write_holding(rt: &impl Print, alloc: Global, holding: Holding) -> Result<String> {
    let text = holding.to_text(alloc)?;
    println!(rt; "broker   {}", text.as_str())?;
    Ok(text)
}

// The platform sends what is due.
fn send(rt: &impl Print, alloc: Global, column: &mut String) -> Result<Sent> {
    let record = Record::from_text(alloc, column.as_str())?;
    let (record, sent) = record.send(InstanceId::from_text(INSTANCE)?)?;
    *column = write_record(rt, alloc, record)?;
    println!(rt; "request  {} ({})", sent.request.kind.word(), sent.attempt)?;
    Ok(sent)
}

// The platform takes the answer to a request, if that is the one that is out.
fn take(
    rt: &impl Print,
    alloc: Global,
    column: &mut String,
    attempt: u64,
    answer: Answer,
) -> Result<()> {
    println!(rt; "answer   {} ({attempt})", answer.status)?;
    match Record::from_text(alloc, column.as_str())?.answer(attempt, answer) {
        Ok(record) => *column = write_record(rt, alloc, record)?,
        Err(not_out) => println!(rt; "platform {not_out}")?,
    }
    Ok(())
}

// A request arrives at the broker. What is pending is written before the work begins, or the answer is sent.
fn arrive(rt: &impl Print, alloc: Global, column: &mut String, request: &Request) -> Result<Begun> {
    let (holding, begun) = Holding::from_text(alloc, column.as_str())?.begin(
        MODE,
        false,
        request,
        Digest::NONE,
    );
    *column = write_holding(rt, alloc, holding)?;
    Ok(begun)
}

// The broker does the pending work, and ends it. A broker that begins anew looks first what exists of it.
fn work(rt: &impl Print, alloc: Global, column: &mut String) -> Result<Answer> {
    let holding = Holding::from_text(alloc, column.as_str())?;
    ensure!(holding.fits(MODE), "the holding doesn't fit its plan");
    let request = holding.work().context("no work is pending")?;
    let done = match Work::of(request.kind, MODE) {
        Some(Work::Make | Work::StartMaking) => "made",
        Some(Work::Delete | Work::StartDeleting) => "deleted",
        None => anyhow::bail!("the plan isn't on sale"),
    };
    println!(rt; "backend  {done}")?;
    let (holding, answer) = holding.end(MODE, WorkOutcome::Done)?;
    *column = write_holding(rt, alloc, holding)?;
    Ok(answer)
}

// The answer to a request that asked for no work.
fn answered(begun: Begun) -> Result<Answer> {
    match begun {
        Begun::Answered(answer) => Ok(answer),
        Begun::Work(_) => anyhow::bail!("work is due"),
    }
}

fn main(rt: HostRuntime) -> Result<()> {
    let alloc = rt.alloc();
    let (id, service) = (
        InstanceId::from_text(INSTANCE)?,
        ServiceId::from_text(SERVICE)?,
    );
    let (record, provision) = Record::create(id, service, PlanId::from_text(PLAN)?, false);
    let mut platform = write_record(&rt, alloc, record)?;
    println!(rt; "request  provision ({})", provision.attempt)?;

    println!(rt; "-- the broker writes the pending work, begins it, and is killed")?;
    let mut broker = Holding::NONE.to_text(alloc)?;
    arrive(&rt, alloc, &mut broker, &provision.request)?;

    println!(rt; "-- the request times out, and the platform has the instance deleted")?;
    let given_up = Record::from_text(alloc, platform.as_str())?.timeout(provision.attempt)?;
    platform = write_record(&rt, alloc, given_up)?;
    let early = send(&rt, alloc, &mut platform)?;
    let busy = answered(arrive(&rt, alloc, &mut broker, &early.request)?)?;
    take(&rt, alloc, &mut platform, early.attempt, busy)?;

    println!(rt; "-- the broker starts again, and does the pending work")?;
    let created = work(&rt, alloc, &mut broker)?;
    take(&rt, alloc, &mut platform, provision.attempt, created)?;

    println!(rt; "-- the platform asks again")?;
    let deprovision = send(&rt, alloc, &mut platform)?;
    arrive(&rt, alloc, &mut broker, &deprovision.request)?;
    let deleted = work(&rt, alloc, &mut broker)?;
    take(&rt, alloc, &mut platform, deprovision.attempt, deleted)?;

    println!(rt; "-- the Provision arrives a second time")?;
    let late = answered(arrive(&rt, alloc, &mut broker, &provision.request)?)?;
    take(&rt, alloc, &mut platform, provision.attempt, late)
}

//! The lives of an instance and of two bindings of it, at a synchronous plan. The broker is killed when the resource of
//! the first binding exists, and its row doesn't say so yet. Both sides stand in one program. Each side has a database
//! of its own, whose rows are texts. What each side writes is printed.
#![tactic(auto)]

mod backend;
mod broker;
mod ids;
mod platform;
mod words;

use anyhow::{Context, Result};
use backend::Backend;
use broker::Broker;
use ids::{first_binding, instance_id, plan_id, second_binding, service_id};
use osb_binding::BindingSent;
use osb_instance::Sent;
use osb_message::{Kind, Request};
use platform::Platform;
use words::{Of, bare, tell_answer};

#[derive(Drop)]
struct Sides {
    platform: Platform,
    broker: Broker,
    backend: Backend,
}

// A request of the instance arrives, its work is done, and the answer is taken.
fn carry(rt: &impl Print, sides: &mut Sides, sent: Sent) -> Result<()> {
    let answer = match sides.broker.arrive(rt, &sent.request)? {
        Some(answer) => answer,
        None => sides.broker.work(rt, &sides.backend)?,
    };
    sides.platform.take(rt, sent.attempt, answer)
}

// A request of a binding arrives, its work is done, and the answer is taken.
fn carry_binding(rt: &impl Print, sides: &mut Sides, sent: &BindingSent) -> Result<()> {
    let id = sent.request.binding;
    let begun = sides.broker.arrive_binding(rt, &sent.request)?;
    let answered = match begun {
        Some(answered) => answered,
        None => sides.broker.work_binding(rt, &mut sides.backend, id)?,
    };
    sides.platform.take_binding(rt, id, sent.attempt, answered)
}

// The broker is killed in the middle of a Bind.
fn kill(rt: &impl Print, sides: &mut Sides) -> Result<BindingSent> {
    println!(rt;
        "-- the broker creates the role of binding 1, and is killed before it writes the row"
    )?;
    let bind = sides.platform.create_binding(rt, first_binding())?;
    sides.broker.arrive_binding(rt, &bind.request)?;
    sides.backend.role(rt, first_binding())?;
    Ok(bind)
}

// The platform cleans up. The broker has started again, and its pending work hasn't ended yet.
fn clean_up(rt: &impl Print, sides: &mut Sides, bind: &BindingSent) -> Result<()> {
    println!(rt;
        "-- the Bind times out, and the platform cleans up. The broker starts again, and the Bind is still pending"
    )?;
    sides.platform.time_out(rt, first_binding(), bind.attempt)?;
    let unbind = sides.platform.send_binding(rt, first_binding())?;
    carry_binding(rt, sides, &unbind)?;
    println!(rt; "-- the Bind arrives a second time")?;
    carry_binding(rt, sides, bind)
}

// The pending work ends, and the platform asks again.
fn recover(rt: &impl Print, sides: &mut Sides, bind: &BindingSent) -> Result<()> {
    println!(rt; "-- the broker looks for pending work, and asks the backend what exists")?;
    let id = sides.broker.pending()?.context("no work is pending")?;
    let answered = sides.broker.work_binding(rt, &mut sides.backend, id)?;
    sides.platform.take_binding(rt, id, bind.attempt, answered)?;
    println!(rt; "-- the platform sends the Unbind again")?;
    let unbind = sides.platform.send_binding(rt, id)?;
    carry_binding(rt, sides, &unbind)
}

// A second binding gets its credentials, for the first time and again.
fn bind_again(rt: &impl Print, sides: &mut Sides) -> Result<()> {
    println!(rt; "-- the platform creates binding 2")?;
    let bind = sides.platform.create_binding(rt, second_binding())?;
    carry_binding(rt, sides, &bind)?;
    println!(rt; "-- the Bind arrives a second time: the answer has the stored credentials")?;
    carry_binding(rt, sides, &bind)
}

// Neither side deletes an instance that has a binding.
fn refuse(rt: &impl Print, sides: &mut Sides) -> Result<()> {
    println!(rt; "-- an operator removes the instance, which has a binding")?;
    sides.platform.remove(rt)?;
    println!(rt; "-- somebody else sends a Deprovision")?;
    let deprovision = Request {
        kind: Kind::Deprovision,
        id: instance_id(),
        service: service_id(),
        plan: plan_id(),
        accepts_incomplete: true,
    };
    let answer = sides
        .broker
        .arrive(rt, &deprovision)?
        .context("the Deprovision begins")?;
    tell_answer(rt, Of::Instance, None, bare(answer))
}

// The binding is removed first, and the instance after it.
fn remove(rt: &impl Print, sides: &mut Sides) -> Result<()> {
    println!(rt; "-- the operator removes binding 2, and then the instance")?;
    sides.platform.remove_binding(rt, second_binding())?;
    let unbind = sides.platform.send_binding(rt, second_binding())?;
    carry_binding(rt, sides, &unbind)?;
    sides.platform.remove(rt)?;
    let deprovision = sides.platform.send(rt)?;
    carry(rt, sides, deprovision)
}

fn main(rt: HostRuntime) -> Result<()> {
    let alloc = rt.alloc();
    let mut sides = Sides {
        platform: Platform::new(alloc),
        broker: Broker::new(alloc)?,
        backend: Backend::new(alloc),
    };
    println!(rt; "-- the platform creates an instance")?;
    let provision = sides.platform.create(&rt)?;
    carry(&rt, &mut sides, provision)?;
    let bind = kill(&rt, &mut sides)?;
    clean_up(&rt, &mut sides, &bind)?;
    recover(&rt, &mut sides, &bind)?;
    bind_again(&rt, &mut sides)?;
    refuse(&rt, &mut sides)?;
    remove(&rt, &mut sides)?;
    println!(rt;
        "-- the broker deletes the rows of the bindings, and the first Bind arrives once more"
    )?;
    sides.broker.forget()?;
    carry_binding(&rt, &mut sides, &bind)
}

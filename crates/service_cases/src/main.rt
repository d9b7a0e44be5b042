//! Tells what osb_binding_network makes of each line on standard input: an instance with its bindings, and what happens
//! to them. A line that begins with `alone`, `life` or `many` is one of osb_network (`alone.rt`, `network.rt`), and one
//! that begins with `updated` is one of osb_update_service (`updated.rt`).
//!
//! - `service SIDES: ORDER; ORDER ..` begins anew (`orders.rt`).
//! - `EVENT` happens (`events.rt`).
//! - `instance settle`: the instance converges.
//! - `settle`: the instance converges, and then each binding.
//! - `remove`: the instance converges, each binding is removed, and then the instance.
//! - `settle NUMBER` and `remove NUMBER`: the binding with this number alone, from 1.
//! - `run SIDES: ORDER; ORDER ..: EVENT, EVENT ..` begins anew, and lets all of these events happen in one call.
//!
//! The line is written again. Behind it, after two blanks, stand what became of the event, and all that exists then
//! (`sides.rt`). Empty lines, and comments, which begin with `#`, are written as they are. `checks/binding` and
//! `checks/update` compare many more such lines with models.
#![tactic(auto)]

mod alone;
mod events;
mod network;
mod orders;
mod sides;
mod update_events;
mod update_sides;
mod updated;

use anyhow::{Context, Result};
use orders::Ordered;
use osb_binding::BindingId;
use osb_binding_network::{ServiceInstance, run};
use osb_network::Step;
use std::alloc::Global;

// An instance, and its bindings: their ids are the numbers from 1 to `bindings`.
#[derive(Drop)]
pub(crate) struct Service {
    pub(crate) lives: ServiceInstance,
    pub(crate) bindings: u64,
}

// The first word, and what follows the blank after it.
pub(crate) fn first(text: &str) -> (&str, &str) {
    text.split_once(' ').unwrap_or((text, ""))
}

fn id_of(number: u64) -> BindingId {
    BindingId::from_value(u128::from(number))
}

// The word, or `skipped`.
fn word_of(step: Step, applied: &'static str) -> &'static str {
    match step {
        Step::Applied => applied,
        Step::Skipped => "skipped",
    }
}

// Lets three rounds without a fault pass, of the instance and then of each binding.
fn settle(alloc: Global, service: &mut Service) -> Result<&'static str> {
    let step = service.lives.settle(alloc)?;
    for number in 1..=service.bindings {
        service.lives.settle_binding(alloc, id_of(number))?;
    }
    Ok(word_of(step, "settled"))
}

// Has all deleted: three rounds of the instance, three of each binding, in which it is removed, and then three of the
// instance, in which it is removed.
fn remove(alloc: Global, service: &mut Service) -> Result<&'static str> {
    service.lives.settle(alloc)?;
    for number in 1..=service.bindings {
        service.lives.remove_binding(alloc, id_of(number))?;
    }
    Ok(word_of(service.lives.remove(alloc)?, "removed"))
}

// Lets three rounds without a fault pass of one binding.
fn settle_one(alloc: Global, service: &mut Service, number: &str) -> Result<&'static str> {
    let number = number.parse().ok().context("no number")?;
    Ok(word_of(
        service.lives.settle_binding(alloc, id_of(number))?,
        "settled",
    ))
}

// Lets three rounds pass in which one binding is removed.
fn remove_one(alloc: Global, service: &mut Service, number: &str) -> Result<&'static str> {
    let number = number.parse().ok().context("no number")?;
    Ok(word_of(
        service.lives.remove_binding(alloc, id_of(number))?,
        "removed",
    ))
}

// Lets an event happen that a line names.
fn happen(alloc: Global, service: &mut Service, line: &str) -> Result<&'static str> {
    if line == "settle" {
        return settle(alloc, service);
    }
    if line == "remove" {
        return remove(alloc, service);
    }
    if line == "instance settle" {
        return Ok(word_of(service.lives.settle(alloc)?, "settled"));
    }
    if let Some(number) = line.strip_prefix("settle ") {
        return settle_one(alloc, service, number);
    }
    if let Some(number) = line.strip_prefix("remove ") {
        return remove_one(alloc, service, number);
    }
    let step = service.lives.step(alloc, events::event(line)?)?;
    Ok(word_of(step, "applied"))
}

// What the words after `service ` begin.
fn begin(alloc: Global, words: &str) -> Result<Service> {
    let Ordered {
        rules,
        instance,
        orders,
        bindings,
    } = orders::read_orders(alloc, words)?;
    let mut lives = ServiceInstance::new(alloc, rules, instance);
    for order in orders {
        lives.step(alloc, order)?;
    }
    Ok(Service { lives, bindings })
}

// What the words after `run ` leave.
fn run_through(alloc: Global, words: &str) -> Result<Service> {
    let (sides, rest) = words.split_once(": ").context("no sides")?;
    let (orders, events) = rest.split_once(": ").context("no events")?;
    let words = format!(in alloc; "{sides}: {orders}")?;
    let Ordered {
        rules,
        instance,
        orders: mut happening,
        bindings,
    } = orders::read_orders(alloc, words.as_str())?;
    for line in events.split(", ") {
        happening.push(events::event(line)?)?;
    }
    let lives = run(alloc, rules, instance, happening.as_slice())?;
    Ok(Service { lives, bindings })
}

fn begun_by(alloc: Global, line: &str) -> Result<Option<Service>> {
    if let Some(words) = line.strip_prefix("service ") {
        return Ok(Some(begin(alloc, words)?));
    }
    if let Some(words) = line.strip_prefix("run ") {
        return Ok(Some(run_through(alloc, words)?));
    }
    Ok(None)
}

// What a line makes of what was begun before it.
fn tell(rt: &impl Print, alloc: Global, begun: Option<Service>, line: &str) -> Result<Service> {
    if let Some(service) = begun_by(alloc, line)? {
        print!(rt; "{line}  new: ")?;
        sides::tell(rt, &service.lives, service.bindings)?;
        println!(rt;)?;
        return Ok(service);
    }
    let mut service = begun.context("nothing is ordered")?;
    let given = service.lives.instance().given().len();
    let word = happen(alloc, &mut service, line)?;
    print!(rt; "{line}  {word}: ")?;
    sides::tell(rt, &service.lives, service.bindings)?;
    if line.starts_with("instance ") {
        sides::tell_more(rt, service.lives.instance(), given)?;
    }
    println!(rt;)?;
    Ok(service)
}

// Whether a line has all that happens. What it makes is told then.
fn told_at_once(rt: &impl Print, alloc: Global, line: &str) -> Result<bool> {
    let (word, words) = first(line);
    match word {
        "alone" => alone::tell(rt, alloc, words)?,
        "life" => network::life(rt, alloc, words)?,
        "many" => network::many(rt, alloc, words)?,
        "updated" => updated::tell(rt, alloc, words)?,
        _ => return Ok(false),
    }
    Ok(true)
}

fn main(rt: HostRuntime) -> Result<()> {
    let mut begun = None;
    for line in rt.lines(rt.alloc()) {
        let line = line?;
        let text = line.as_str();
        if text.is_empty() || text.starts_with('#') {
            println!(rt; "{text}")?;
        } else if !told_at_once(&rt, rt.alloc(), text)? {
            begun = Some(tell(&rt, rt.alloc(), begun, text)?);
        }
    }
    Ok(())
}

//! What osb_network makes of instances without bindings. The ORDERs are those of `orders.rt`, and the events those of a
//! life in `events.rt`.
//!
//! - `life ORDER: E, E ..`: all of these events happen to an instance, in one call.
//! - `many COUNT ORDER: NUMBER E, NUMBER E ..`: so many instances, numbered from 1, and all of these events, in one
//!   call.
//!
//! Behind the line, after two blanks, stands what there is of each instance, as behind an event of an instance.
use crate::events::of_life;
use crate::first;
use crate::orders::of_instance;
use crate::sides::{tell_instance, tell_more};
use anyhow::{Context, Result};
use osb_message::InstanceId;
use osb_network::{Instance, InstanceEvent, Network, run};
use std::alloc::Global;

fn number(word: &str) -> Result<u64> {
    word.parse().ok().context("no number")
}

fn tell(rt: &impl Print, instance: &Instance) -> Result<()> {
    tell_instance(rt, instance)?;
    tell_more(rt, instance, 0)?;
    Ok(println!(rt;)?)
}

// What the words after `life ` leave.
pub(crate) fn life(rt: &impl Print, alloc: Global, words: &str) -> Result<()> {
    let (order, list) = words.split_once(": ").context("no events")?;
    let mut events = Vec::new(alloc);
    for event in list.split(", ") {
        events.push(of_life(event)?)?;
    }
    let instance = run(alloc, of_instance(1, order)?, events.as_slice())?;
    print!(rt; "life {words}  ")?;
    tell(rt, &instance)
}

// So many instances, to which nothing has happened.
fn ordered(alloc: Global, count: u64, words: &str) -> Result<Network> {
    let mut network = Network::new(alloc);
    for number in 1..=count {
        network.order(alloc, of_instance(number, words)?)?;
    }
    Ok(network)
}

// The events of `NUMBER E, NUMBER E ..`.
fn read_events(alloc: Global, list: &str) -> Result<Vec<InstanceEvent>> {
    let mut events = Vec::new(alloc);
    for words in list.split(", ") {
        let (word, event) = first(words);
        let id = InstanceId::from_value(u128::from(number(word)?));
        let event = of_life(event)?;
        events.push(InstanceEvent { id, event })?;
    }
    Ok(events)
}

// What the words after `many ` leave.
pub(crate) fn many(rt: &impl Print, alloc: Global, words: &str) -> Result<()> {
    let (begun, list) = words.split_once(": ").context("no events")?;
    let (count, order) = first(begun);
    let count = number(count)?;
    let mut network = ordered(alloc, count, order)?;
    network.steps(alloc, read_events(alloc, list)?.as_slice())?;
    print!(rt; "many {words}")?;
    for number in 1..=count {
        let instance = network.instance(InstanceId::from_value(u128::from(number)));
        print!(rt; "  {number}: ")?;
        tell(rt, instance.context("no such instance")?)?;
    }
    Ok(())
}

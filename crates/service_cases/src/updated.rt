//! An instance with its bindings and its updates: `updated SIDES: ORDER; ORDER ..: SETTINGS: EVENT, EVENT ..`. The
//! ORDERs are those of `orders.rt`, the SETTINGS those of the Provision, and the events those of `update_events.rt`.
//!
//! Each event happens by itself. Behind the line, after two blanks, stand what became of the first, and all that exists
//! then (`sides.rt`, and ` | ` with what `update_sides.rt` has of the updates). A line for each further event stands
//! below. In the last but one, all events but the last have happened again, in one call, and then the last. In the
//! last, what has happened to the updates by themselves has happened again, in one call.
use crate::orders::{Ordered, read_orders};
use crate::update_events::{event, settings};
use crate::update_sides::{tell_more, tell_updates};
use crate::{sides, word_of};
use anyhow::{Context, Result};
use osb_binding_network::{Rules, ServiceEvent};
use osb_instance::Record;
use osb_network::Order;
use osb_update::Settings;
use osb_update_service::{UpdatedEvent, UpdatedInstance, run};
use osb_update_sides::{Life, Updates, UpdatesEvent};
use std::alloc::Global;

// With what it began, and its bindings: their ids are the numbers from 1 to `bindings`.
#[derive(Clone, Copy)]
struct Begun {
    rules: Rules,
    order: Order,
    settings: Settings,
    bindings: u64,
}

// All that has happened so far, and what of it has happened to the updates by themselves.
#[derive(Drop)]
struct Happened {
    all: Vec<UpdatedEvent>,
    own: Vec<UpdatesEvent>,
}

fn tell_all(rt: &impl Print, updated: &UpdatedInstance, bindings: u64) -> Result<()> {
    sides::tell(rt, updated.service(), bindings)?;
    tell_updates(rt, updated.updates())
}

// What the updates see of the instance, as an event of theirs.
fn seen(updates: &Updates) -> UpdatesEvent {
    UpdatesEvent::Live {
        life: updates.life(),
        settings: updates.settings(),
    }
}

fn order_all(
    alloc: Global,
    updated: &mut UpdatedInstance,
    orders: Vec<ServiceEvent>,
) -> Result<Vec<UpdatedEvent>> {
    // The proof of the push needs these types in the function itself: without them the prover doesn't find them.
    let _record: Option<Record> = None;
    let _life: Option<Life> = None;
    let _event: Option<UpdatesEvent> = None;
    let mut all = Vec::new(alloc);
    for event in orders {
        let event = UpdatedEvent::Service {
            event,
            settings: None,
        };
        updated.step(alloc, &event)?;
        all.push(event)?;
    }
    Ok(all)
}

// Lets the events happen one by one after those of before, and tells what exists after each.
fn tell_each(
    rt: &impl Print,
    alloc: Global,
    updated: &mut UpdatedInstance,
    bindings: u64,
    before: Vec<UpdatedEvent>,
    list: &str,
) -> Result<Happened> {
    // The proof of the push needs this type in the function itself: without it the prover doesn't find it.
    let _event: Option<ServiceEvent> = None;
    let mut all = before;
    let mut own = Vec::new(alloc);
    for words in list.split(", ") {
        let (event, of_updates) = event(words)?;
        let sent = updated.updates().sent().len();
        let given = updated.updates().given().len();
        let step = updated.step(alloc, &event)?;
        all.push(event)?;
        own.push(of_updates.unwrap_or(seen(updated.updates())))?;
        print!(rt; "  {}: ", word_of(step, "applied"))?;
        tell_all(rt, updated, bindings)?;
        tell_more(rt, updated.updates(), sent, given)?;
        println!(rt;)?;
    }
    Ok(Happened { all, own })
}

// Lets all of it happen again.
fn tell_again(rt: &impl Print, alloc: Global, begun: &Begun, happened: Happened) -> Result<()> {
    let Happened {
        all: mut events,
        own,
    } = happened;
    let last = events.pop().context("no events")?;
    let (rules, order, settings) = (begun.rules, begun.order, &begun.settings);
    let mut updated = run(alloc, rules, order, settings, events.as_slice())?;
    print!(rt;
        "  again: {} ",
        word_of(updated.step(alloc, &last)?, "applied")
    )?;
    tell_all(rt, &updated, begun.bindings)?;
    println!(rt;)?;
    let updates = osb_update_sides::run(alloc, order.service, settings, own.as_slice())?;
    print!(rt; "  updates")?;
    tell_updates(rt, &updates)?;
    Ok(println!(rt;)?)
}

// What the words after `updated ` make.
pub(crate) fn tell(rt: &impl Print, alloc: Global, words: &str) -> Result<()> {
    let (keeping, rest) = words.split_once(": ").context("no sides")?;
    let (orders, rest) = rest.split_once(": ").context("no orders")?;
    let (word, list) = rest.split_once(": ").context("no events")?;
    let ordered = format!(in alloc; "{keeping}: {orders}")?;
    let Ordered {
        rules,
        instance: order,
        orders,
        bindings,
    } = read_orders(alloc, ordered.as_str())?;
    let begun = Begun {
        rules,
        order,
        settings: settings(word)?,
        bindings,
    };
    let mut updated = UpdatedInstance::new(alloc, rules, order, &begun.settings);
    let before = order_all(alloc, &mut updated, orders)?;
    print!(rt; "updated {words}")?;
    let happened = tell_each(rt, alloc, &mut updated, bindings, before, list)?;
    tell_again(rt, alloc, &begun, happened)
}

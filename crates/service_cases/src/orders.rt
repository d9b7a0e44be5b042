//! What is ordered, by the words `SIDES: ORDER; ORDER ..`.
//!
//! SIDES are those that satisfy their rules: `platform`, `broker`, `platform broker`, or `-`. The first ORDER is the
//! instance's, each further one a binding's. An ORDER has these words:
//!
//! 1. the mode of the plan: `sync`, `async`, or `-` for a plan that isn't on sale, or isn't bindable
//! 2. whether the first request `accepts` or `refuses` an asynchronous operation
//! 3. `first-poll` for a broker with the rule of the first Poll, or `-`
//! 4. `no-fetch` if a binding can't be fetched
use crate::{first, id_of};
use anyhow::{Context, Result};
use osb_binding::BindingId;
use osb_binding_network::{BindingOrder, Rules, ServiceEvent};
use osb_instance::Digest;
use osb_message::{InstanceId, Mode, PlanId, ServiceId};
use osb_network::Order;
use std::alloc::Global;

const ATTRIBUTES: Digest = Digest { bytes: [1; 32] };

// The rules, the order of the instance, and those of its bindings as events, with their number.
#[derive(Drop)]
pub(crate) struct Ordered {
    pub(crate) rules: Rules,
    pub(crate) instance: Order,
    pub(crate) orders: Vec<ServiceEvent>,
    pub(crate) bindings: u64,
}

// What an ORDER says.
#[derive(Clone, Copy)]
struct Terms {
    mode: Option<Mode>,
    accepts: bool,
    first_poll: bool,
    retrievable: bool,
}

fn rules(sides: &str) -> Result<Rules> {
    let (platform, broker) = match sides {
        "platform broker" => (true, true),
        "platform" => (true, false),
        "broker" => (false, true),
        "-" => (false, false),
        _ => anyhow::bail!("no such sides: {sides}"),
    };
    Ok(Rules { platform, broker })
}

pub(crate) fn mode(word: &str) -> Result<Option<Mode>> {
    match word {
        "sync" => Ok(Some(Mode::Sync)),
        "async" => Ok(Some(Mode::Async)),
        "-" => Ok(None),
        _ => anyhow::bail!("no such mode: {word}"),
    }
}

// Whether a word is the first one; else it must be the second one.
pub(crate) fn is_first(word: &str, yes: &str, no: &str) -> Result<bool> {
    anyhow::ensure!(word == yes || word == no, "neither {yes} nor {no}: {word}");
    Ok(word == yes)
}

fn read_terms(words: &str) -> Result<Terms> {
    let (mode_word, rest) = first(words);
    let (accepts, rest) = first(rest);
    let (first_poll, fetch) = first(rest);
    Ok(Terms {
        mode: mode(mode_word)?,
        accepts: is_first(accepts, "accepts", "refuses")?,
        first_poll: is_first(first_poll, "first-poll", "-")?,
        retrievable: is_first(fetch, "", "no-fetch")?,
    })
}

// The order of the instance with this number.
pub(crate) fn of_instance(number: u64, words: &str) -> Result<Order> {
    let terms = read_terms(words)?;
    Ok(Order {
        id: InstanceId::from_value(u128::from(number)),
        service: ServiceId::from_value(2),
        plan: PlanId::from_value(3),
        mode: terms.mode,
        accepts: terms.accepts,
        first_poll: terms.first_poll,
        attributes: ATTRIBUTES,
    })
}

fn of_binding(id: BindingId, terms: Terms) -> BindingOrder {
    BindingOrder {
        id,
        mode: terms.mode,
        accepts: terms.accepts,
        first_poll: terms.first_poll,
        attributes: ATTRIBUTES,
        retrievable: terms.retrievable,
    }
}

// What the words order. There is at least one binding.
pub(crate) fn read_orders(alloc: Global, words: &str) -> Result<Ordered> {
    let (sides, lives) = words.split_once(": ").context("no colon")?;
    let (instance, others) = lives.split_once("; ").context("no binding")?;
    let mut orders = Vec::new(alloc);
    let mut bindings: u64 = 0;
    for words in others.split("; ") {
        bindings = bindings.wrapping_add(1);
        let order = of_binding(id_of(bindings), read_terms(words)?);
        orders.push(ServiceEvent::Order(order))?;
    }
    Ok(Ordered {
        rules: rules(sides)?,
        instance: of_instance(1, instance)?,
        orders,
        bindings,
    })
}

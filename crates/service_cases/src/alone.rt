//! An instance at a broker alone, and any platform: `alone MODE MODE RULE: EVENT, EVENT ..`. The broker sells the plans
//! 3 and 4 of the service 2 in these modes, and RULE is `first-poll` or `-`.
//!
//! An EVENT is `arrive KIND accepts|refuses PLAN ATTRIBUTES`, `put-off KIND`, or one of a life that is the broker's: an
//! end, `give-up-waiting`, `work ..` and `crash-broker`. A digest of attributes has one number in each byte.
//!
//! Each event happens by itself. Behind the line, after two blanks, stand what became of the first, and all that exists
//! then: the broker's holding; the plan of the row, that of the pending work, and the digest; the resource; and what
//! the broker has reported. A line for each further event stands below. In the last line all events but the last have
//! happened again, in one call, and then the last.
use crate::events::of_life;
use crate::orders::{is_first, mode};
use crate::sides::{resource_word, tell_holding};
use crate::{first, word_of};
use anyhow::{Context, Result};
use osb_instance::Digest;
use osb_message::{Catalogue, InstanceId, Kind, PlanId, Request, ServiceId};
use osb_network::{AnyPlatform, BrokerEvent, Event, run_any};
use std::alloc::Global;

const SERVICE: u128 = 2;

// The catalogue of `MODE MODE RULE`, and whether the broker has the rule of the first Poll.
fn sold(alloc: Global, words: &str) -> Result<(Catalogue, bool)> {
    let (third, rest) = first(words);
    let (fourth, rule) = first(rest);
    let mut catalogue = Catalogue::new(alloc);
    for &(plan, word) in &[(3, third), (4, fourth)] {
        if let Some(mode) = mode(word)? {
            catalogue.add(
                ServiceId::from_value(SERVICE),
                PlanId::from_value(plan),
                mode,
            )?;
        }
    }
    Ok((catalogue, is_first(rule, "first-poll", "-")?))
}

fn kind(word: &str) -> Result<Kind> {
    Kind::from_word(word).context("no such kind")
}

// The event of `KIND accepts|refuses PLAN ATTRIBUTES`.
fn arrive(words: &str) -> Result<BrokerEvent> {
    let (kind_word, rest) = first(words);
    let (accepts, rest) = first(rest);
    let (plan, attributes) = first(rest);
    let plan: u128 = plan.parse().ok().context("no plan")?;
    let number: u8 = attributes.parse().ok().context("no attributes")?;
    Ok(BrokerEvent::Arrive {
        request: Request {
            kind: kind(kind_word)?,
            id: InstanceId::from_value(1),
            service: ServiceId::from_value(SERVICE),
            plan: PlanId::from_value(plan),
            accepts_incomplete: is_first(accepts, "accepts", "refuses")?,
        },
        attributes: Digest {
            bytes: [number; 32],
        },
    })
}

// The event that the words name.
fn event(words: &str) -> Result<BrokerEvent> {
    let (word, rest) = first(words);
    match word {
        "arrive" => return arrive(rest),
        "put-off" => return Ok(BrokerEvent::PutOff { kind: kind(rest)? }),
        _ => {}
    }
    match of_life(words)? {
        Event::End { outcome } => Ok(BrokerEvent::End { outcome }),
        Event::Finish { ok } => Ok(BrokerEvent::Finish { ok }),
        Event::GiveUpWaiting => Ok(BrokerEvent::GiveUpWaiting),
        Event::Work { resource } => Ok(BrokerEvent::Work { resource }),
        Event::CrashBroker => Ok(BrokerEvent::Crash),
        _ => anyhow::bail!("not the broker's: {words}"),
    }
}

fn tell_any(rt: &impl Print, any: &AnyPlatform) -> Result<()> {
    let holding = any.holding();
    tell_holding(rt, holding)?;
    let row = holding.row().map(|row| row.plan.value());
    let work = holding.work().map(|request| request.plan.value());
    print!(rt; "{row:?} {work:?} {}; ", holding.attributes().bytes[0])?;
    Ok(println!(rt; "{}; {:?}", resource_word(any.resource()), any.told())?)
}

// What the words after `alone ` make. An instance may be what a list of events has left.
pub(crate) fn tell(rt: &impl Print, alloc: Global, words: &str) -> Result<()> {
    let (begun, list) = words.split_once(": ").context("no events")?;
    let (catalogue, first_poll) = sold(alloc, begun)?;
    let mut any = AnyPlatform::new(catalogue, first_poll);
    let mut events = Vec::new(alloc);
    print!(rt; "alone {words}")?;
    for words in list.split(", ") {
        let event = event(words)?;
        events.push(event)?;
        print!(rt; "  {}: ", word_of(any.step(alloc, event)?, "applied"))?;
        tell_any(rt, &any)?;
    }
    let last = events.pop().context("no events")?;
    let (catalogue, first_poll) = sold(alloc, begun)?;
    let mut any = run_any(alloc, catalogue, first_poll, events.as_slice())?;
    print!(rt; "  again: {} ", word_of(any.step(alloc, last)?, "applied"))?;
    tell_any(rt, &any)
}

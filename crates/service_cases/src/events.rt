//! The events, by their words: `instance` or `binding NUMBER`, and what happens to it.
use crate::{first, id_of};
use anyhow::{Context, Result};
use osb_binding_network::{BindingEvent, ServiceEvent};
use osb_instance::{Rejection, WorkOutcome};
use osb_network::{Event, Resource};

fn ended(outcome: WorkOutcome) -> Event {
    Event::End { outcome }
}

fn worked(resource: Resource) -> Event {
    Event::Work { resource }
}

// The event without a number that a line names, if there is one.
fn plain(line: &str) -> Option<Event> {
    let event = match line {
        "create" => Event::Create,
        "send" => Event::Send,
        "expire" => Event::Expire,
        "retry" => Event::Retry,
        "remove" => Event::Remove,
        "timeout" => Event::Timeout,
        "end done" => ended(WorkOutcome::Done),
        "end before" => ended(WorkOutcome::Before),
        "end after" => ended(WorkOutcome::After),
        "end refused 400" => ended(WorkOutcome::Refused(Rejection::BadRequest)),
        "end refused 422" => ended(WorkOutcome::Refused(Rejection::UnprocessableEntity)),
        "end-unknown" => Event::EndUnknown,
        "finish ok" => Event::Finish { ok: true },
        "finish failed" => Event::Finish { ok: false },
        "give-up-waiting" => Event::GiveUpWaiting,
        "work absent" => worked(Resource::Absent),
        "work part" => worked(Resource::Part),
        "work whole" => worked(Resource::Whole),
        "crash-broker" => Event::CrashBroker,
        "crash-platform" => Event::CrashPlatform,
        _ => return None,
    };
    Some(event)
}

// The number of a request, from 1.
fn attempt(word: &str) -> Result<u64> {
    word.parse().ok().context("no attempt")
}

// The place of an answer, from 0.
pub(crate) fn place(word: &str) -> Result<usize> {
    word.parse().ok().context("no place")
}

// What happens to a life of either kind.
pub(crate) fn of_life(line: &str) -> Result<Event> {
    if let Some(event) = plain(line) {
        return Ok(event);
    }
    let (word, number) = first(line);
    let event = match word {
        "arrive" => Event::Arrive {
            attempt: attempt(number)?,
        },
        "put-off" => Event::PutOff {
            attempt: attempt(number)?,
        },
        "take" => Event::Take { at: place(number)? },
        "garbled" => Event::TakeGarbled { at: place(number)? },
        "gateway" => Event::TakeGateway {
            status: number.parse().ok().context("no status")?,
        },
        _ => anyhow::bail!("no such event: {word}"),
    };
    Ok(event)
}

// What happens to a binding. The credentials of a resource that isn't whole are 0.
fn of_binding(line: &str) -> Result<BindingEvent> {
    let (word, rest) = first(line);
    match word {
        "fetch" => return Ok(BindingEvent::Fetch),
        "forget" => return Ok(BindingEvent::Forget),
        "take-fetched" => {
            let (at, fetched) = first(rest);
            return Ok(BindingEvent::TakeFetched {
                at: place(at)?,
                fetched: place(fetched)?,
            });
        }
        _ => {}
    }
    if let Some(credentials) = line.strip_prefix("work whole ") {
        return Ok(BindingEvent::Life {
            event: worked(Resource::Whole),
            credentials: credentials.parse().ok().context("no credentials")?,
        });
    }
    Ok(BindingEvent::Life {
        event: of_life(line)?,
        credentials: 0,
    })
}

// The event that a line names.
pub(crate) fn event(line: &str) -> Result<ServiceEvent> {
    let (whose, words) = first(line);
    match whose {
        "instance" => Ok(ServiceEvent::Instance(of_life(words)?)),
        "binding" => {
            let (number, words) = first(words);
            let number: u64 = number.parse().ok().context("no number")?;
            Ok(ServiceEvent::Binding {
                id: id_of(number),
                event: of_binding(words)?,
            })
        }
        _ => anyhow::bail!("no such line: {whose}"),
    }
}

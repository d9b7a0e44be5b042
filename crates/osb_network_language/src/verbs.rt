//! The lines that let something happen: the first word of each, what follows it, and what happens.
ghost use Rattle.std.specs.Prelude.{◌≡◌};
ghost use Rattle.osb_language.specs.Words.{words_in};
ghost use Rattle.osb_network_language.specs.Verbs as spec;

use crate::choices::{Becomes, Crashes, Ends};
use crate::event::{Life, NetworkEvent};
use crate::life::Bound;
use crate::numbers::{Number, Place};
use crate::orders::{read_binding, read_instance};
use osb_binding_network::{BindingEvent, ServiceEvent};
use osb_language::{EndsWell, GatewayStatus, LineFault, read_one, read_three, read_two};
use osb_network::{Event, Resource};

// A line of a life alone.
fn read_plain(words: &[u8], event: Event) -> Result<NetworkEvent, LineFault>
    ensures event { result ≡ spec.plain_as event (words_in words.now) }
{
    let life: Life = read_one(words)?;
    Ok(life.happens(event))
}

// The lines of a life and a number.
fn read_numbered(first: &[u8], words: &[u8]) -> Result<NetworkEvent, LineFault>
    ensures event { result ≡ spec.numbered_as first.now (words_in words.now) }
{
    if first == b"arrive".as_slice() {
        let (life, Number(attempt)): (Life, Number) = read_two(words)?;
        Ok(life.happens(Event::Arrive { attempt }))
    } else if first == b"put-off".as_slice() {
        let (life, Number(attempt)): (Life, Number) = read_two(words)?;
        Ok(life.happens(Event::PutOff { attempt }))
    } else if first == b"take".as_slice() {
        let (life, Place(at)): (Life, Place) = read_two(words)?;
        Ok(life.happens(Event::Take { at }))
    } else if first == b"garble".as_slice() {
        let (life, Place(at)): (Life, Place) = read_two(words)?;
        Ok(life.happens(Event::TakeGarbled { at }))
    } else if first == b"gateway".as_slice() {
        let (life, GatewayStatus(status)): (Life, GatewayStatus) = read_two(words)?;
        Ok(life.happens(Event::TakeGateway { status }))
    } else {
        Err(LineFault::UnknownWord)
    }
}

// The lines of a life and a choice.
fn read_chosen(first: &[u8], words: &[u8]) -> Result<NetworkEvent, LineFault>
    ensures event { result ≡ spec.chosen_as first.now (words_in words.now) }
{
    if first == b"work".as_slice() {
        let (life, Becomes(resource)): (Life, Becomes) = read_two(words)?;
        Ok(life.happens(Event::Work { resource }))
    } else if first == b"end".as_slice() {
        let (life, Ends(event)): (Life, Ends) = read_two(words)?;
        Ok(life.happens(event))
    } else if first == b"finish".as_slice() {
        let (life, EndsWell(ok)): (Life, EndsWell) = read_two(words)?;
        Ok(life.happens(Event::Finish { ok }))
    } else if first == b"crash".as_slice() {
        let (life, Crashes(event)): (Life, Crashes) = read_two(words)?;
        Ok(life.happens(event))
    } else {
        read_numbered(first, words)
    }
}

// The event of a line of a life alone.
fn plain_event(first: &[u8]) -> Option<Event>
    ensures event { result ≡ spec.plain_event first.now }
{
    if first == b"create".as_slice() {
        Some(Event::Create)
    } else if first == b"send".as_slice() {
        Some(Event::Send)
    } else if first == b"expire".as_slice() {
        Some(Event::Expire)
    } else if first == b"retry".as_slice() {
        Some(Event::Retry)
    } else if first == b"remove".as_slice() {
        Some(Event::Remove)
    } else if first == b"timeout".as_slice() {
        Some(Event::Timeout)
    } else if first == b"give-up-waiting".as_slice() {
        Some(Event::GiveUpWaiting)
    } else {
        None
    }
}

// What happens to a binding.
fn bound_event(bound: Bound, event: BindingEvent) -> Result<NetworkEvent, LineFault>
    ensures event { result ≡ spec.bound_event bound event }
{
    Ok(NetworkEvent::Happening {
        id: bound.instance,
        event: ServiceEvent::Binding {
            id: bound.id,
            event,
        },
    })
}

// The lines of a binding alone.
fn read_bound(first: &[u8], words: &[u8]) -> Result<NetworkEvent, LineFault>
    ensures event { result ≡ spec.bound_as first.now (words_in words.now) }
{
    if first == b"issue".as_slice() {
        let (bound, Number(credentials)): (Bound, Number) = read_two(words)?;
        let event = Event::Work {
            resource: Resource::Whole,
        };
        bound_event(bound, BindingEvent::Life { event, credentials })
    } else if first == b"fetch".as_slice() {
        let bound: Bound = read_one(words)?;
        bound_event(bound, BindingEvent::Fetch)
    } else if first == b"forget".as_slice() {
        let bound: Bound = read_one(words)?;
        bound_event(bound, BindingEvent::Forget)
    } else if first == b"take-fetched".as_slice() {
        let (bound, Place(at), Place(fetched)): (Bound, Place, Place) = read_three(words)?;
        bound_event(bound, BindingEvent::TakeFetched { at, fetched })
    } else {
        read_chosen(first, words)
    }
}

/// What a line lets happen that begins with this word.
pub fn read_event(first: &[u8], words: &[u8]) -> Result<NetworkEvent, LineFault>
    ensures event { result ≡ spec.event_as first.now (words_in words.now) }
{
    if first == b"instance".as_slice() {
        return read_instance(words);
    }
    if first == b"binding".as_slice() {
        return read_binding(words);
    }
    match plain_event(first) {
        Some(event) => read_plain(words, event),
        None => read_bound(first, words),
    }
}

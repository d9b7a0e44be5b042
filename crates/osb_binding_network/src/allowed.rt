//! What an instance and a binding let each other do, and the events as they happen then.
ghost use Rattle.std.specs.Prelude.{◌≡◌};
ghost use Rattle.osb_network.specs.Steps.{sent_as};
ghost use Rattle.osb_binding_network.specs.Allowed as spec;

use crate::Rules;
use osb_binding::is_useless;
use osb_instance::{Record, Sent};
use osb_message::{Answer, Kind};
use osb_network::{Event, Given, Instance};
use osb_platform::{State, decide_answer};

// Whether nothing is recorded, or `gone`.
fn is_at_rest(recorded: Option<Record>) -> bool
    ensures is { result ≡ spec.is_at_rest recorded }
{
    match recorded {
        None => true,
        Some(record) => record.is_gone(),
    }
}

// Whether `ready` is recorded.
pub(crate) fn is_ready(recorded: Option<Record>) -> bool
    ensures is { result ≡ spec.is_ready recorded }
{
    match recorded {
        None => false,
        Some(record) => record.is_ready(),
    }
}

// Whether an instance may be removed, by a binding.
pub(crate) fn may_remove(rules: Rules, binding: &Instance) -> bool
    ensures is { result ≡ spec.may_remove rules binding.now }
{
    !rules.platform || is_at_rest(binding.record())
}

// Whether a binding may be created, by its instance.
pub(crate) fn may_create(rules: Rules, instance: &Instance) -> bool
    ensures is { result ≡ spec.may_create rules instance.now }
{
    !rules.platform || is_ready(instance.record())
}

// Whether something of an instance may begin, by a binding.
pub(crate) fn may_work(rules: Rules, binding: &Instance) -> bool
    ensures is { result ≡ spec.may_work rules binding.now }
{
    !rules.broker || !binding.holding().is_held()
}

// Whether something of a binding may begin, by its instance.
pub(crate) fn may_bind(rules: Rules, instance: &Instance) -> bool
    ensures is { result ≡ spec.may_bind rules instance.now }
{
    let order = instance.order();
    !rules.broker || instance.holding().is_there(order.service, order.plan)
}

// The request of this number, if it was ever sent.
fn sent_as(life: &Instance, attempt: u64) -> Option<Sent>
    ensures sent { result ≡ sent_as life.now.sent attempt }
{
    if attempt == 0 {
        return None;
    }
    let at = usize::try_from(attempt - 1).ok()?;
    life.sent().get(at).copied()
}

// Whether something begins when the request of this number arrives.
fn begins(life: &Instance, attempt: u64) -> bool
    ensures is { result ≡ spec.begins life.now attempt }
{
    let Some(sent) = sent_as(life, attempt) else {
        return false;
    };
    let order = life.order();
    life.holding()
        .begins(order.mode, &sent.request, order.attributes)
}

// The event as it happens if something may begin, or may not.
fn let_work(work: bool, life: &Instance, attempt: u64) -> Event
    ensures event { result ≡ spec.let_work work life.now attempt }
{
    if work || !begins(life, attempt) {
        Event::Arrive { attempt }
    } else {
        Event::PutOff { attempt }
    }
}

// The event as it happens to an instance that may be removed, and of which something may begin.
pub(crate) fn of_instance(remove: bool, work: bool, life: &Instance, event: Event) -> Option<Event>
    ensures event { result ≡ spec.of_instance remove work life.now event }
{
    match event {
        Event::Remove if !remove => None,
        Event::Arrive { attempt } => Some(let_work(work, life, attempt)),
        event => Some(event),
    }
}

// Whether the request of this number is a Bind.
fn is_bind(life: &Instance, attempt: u64) -> bool
    ensures is { result ≡ spec.is_bind (sent_as life.now.sent attempt) }
{
    match sent_as(life, attempt) {
        None => false,
        Some(sent) => match sent.request.kind {
            Kind::Provision => true,
            Kind::Poll | Kind::Deprovision => false,
        },
    }
}

// The event as it happens to a binding whose tombstone was deleted, or wasn't.
fn let_bind(forgotten: bool, work: bool, life: &Instance, attempt: u64) -> Event
    ensures event { result ≡ spec.let_bind forgotten work life.now attempt }
{
    let bind = is_bind(life, attempt);
    if forgotten && bind {
        Event::PutOff { attempt }
    } else {
        let_work(work || !bind, life, attempt)
    }
}

// Whether an answer that is taken promises credentials that can't be fetched.
fn takes_useless(retrievable: bool, given: Option<Given>, recorded: Option<Record>) -> bool
    ensures is { result ≡ spec.takes_useless retrievable given recorded }
{
    let (Some(given), Some(record)) = (given, recorded) else {
        return false;
    };
    let out = record.row().out;
    out.is_some() && given.attempt == record.attempt() && is_useless(retrievable, out, given.answer)
}

// Whether an answer to what is out makes a record `ready`.
fn makes_ready(out: Option<Kind>, state: State, answer: Answer) -> bool
    ensures is { result ≡ spec.makes_ready out state answer }
{
    match out {
        None => false,
        Some(kind) => matches!(decide_answer(state, kind, answer), State::Ready),
    }
}

// Whether an answer that is taken makes a record `ready` that polls.
fn takes_polled(given: Option<Given>, recorded: Option<Record>) -> bool
    ensures is { result ≡ spec.needs_fetch_by given recorded }
{
    let (Some(given), Some(record)) = (given, recorded) else {
        return false;
    };
    let row = record.row();
    matches!(row.state, State::Polling)
        && given.attempt == record.attempt()
        && makes_ready(row.out, row.state, given.answer)
}

// Whether the answer at the place makes a record `ready` that polls: a Fetch has to come first.
pub(crate) fn needs_fetch(life: &Instance, at: usize) -> bool
    ensures is { result ≡ spec.needs_fetch life.now at }
{
    takes_polled(life.given().get(at).copied(), life.record())
}

// The event as it happens if an answer is to be taken.
fn let_take(retrievable: bool, life: &Instance, at: usize) -> Option<Event>
    ensures event { result ≡ spec.let_take retrievable life.now at }
{
    if takes_useless(retrievable, life.given().get(at).copied(), life.record()) {
        return Some(Event::Timeout);
    }
    if needs_fetch(life, at) {
        return None;
    }
    Some(Event::Take { at })
}

// What the other side lets a binding do: whether it may be created, whether something may begin, and whether its instance
// has ended.
#[derive(Clone, Copy)]
pub(crate) struct Allowed {
    pub(crate) create: bool,
    pub(crate) work: bool,
    pub(crate) ended: bool,
}

// The event as it happens to a binding.
pub(crate) fn of_binding(
    allowed: Allowed,
    forgotten: bool,
    retrievable: bool,
    life: &Instance,
    event: Event,
) -> Option<Event>
    ensures event { result
        ≡ spec.of_binding allowed.create allowed.work forgotten retrievable life.now event }
{
    match event {
        Event::Create if !allowed.create => None,
        Event::Arrive { attempt } => Some(let_bind(forgotten, allowed.work, life, attempt)),
        Event::Take { at } => let_take(retrievable, life, at),
        event => Some(event),
    }
}

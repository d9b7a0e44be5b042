//! What happens to an instance over a network that does its worst, and to many.
use crate::instances::{first, second, service, synchronous, third};
use crate::telling::{Case, Returned, done, tell};
use anyhow::Result;
use osb_instance::{Digest, WorkOutcome};
use osb_message::{InstanceId, Memory, Mode};
use osb_network::{Event, Instance, InstanceEvent, Network, Order, Resource, Step, run};
use std::alloc::Global;

const CREATE: Event = Event::Create;

const ARRIVE: Event = Event::Arrive { attempt: 1 };

const WHOLE: Event = Event::Work {
    resource: Resource::Whole,
};

const DONE: Event = Event::End {
    outcome: WorkOutcome::Done,
};

fn order(id: InstanceId) -> Order {
    Order {
        id,
        service: service(),
        plan: synchronous(),
        mode: Some(Mode::Sync),
        accepts: false,
        first_poll: false,
        attributes: Digest::NONE,
    }
}

// What the platform records, what the broker holds, the resource, and how much was sent and answered.
fn instance_text(alloc: Global, instance: &Instance) -> Result<String> {
    let state = instance.record().map(|record| record.row().state);
    let out = instance.record().and_then(|record| record.row().out);
    let holding = instance.holding();
    let phase = holding.row().map(|row| row.phase);
    let work = holding.work().map(|request| request.kind);
    let tombstone = holding.has_tombstone();
    let resource = instance.resource();
    let sent = instance.sent().len();
    let given = instance.given().len();
    Ok(format!(in alloc;
        "{state:?} {out:?} {phase:?} {work:?} {tombstone} {resource:?} {sent} {given}"
    )?)
}

fn stepped(returned: Result<Step, Memory>) -> Returned {
    match returned {
        Ok(Step::Applied) => Returned::Word("Applied"),
        Ok(Step::Skipped) => Returned::Word("Skipped"),
        Err(Memory) => Returned::Memory,
    }
}

#[derive(Drop)]
struct InstanceCase {
    alloc: Global,
    instance: Instance,
    event: Event,
}

impl Case for InstanceCase {
    fn state(&self, alloc: Global) -> Result<String> {
        instance_text(alloc, &self.instance)
    }

    fn call(&mut self) -> Returned {
        stepped(self.instance.step(self.alloc, self.event))
    }
}

// A new instance, to which these events happen under their names.
fn life(rt: &impl Print, alloc: Global, events: &[(Event, &str)]) -> Result<()> {
    let mut case = InstanceCase {
        alloc,
        instance: Instance::new(alloc, order(first())),
        event: CREATE,
    };
    for &(event, name) in events {
        case.event = event;
        tell(rt, alloc, name, &mut case)?;
    }
    Ok(())
}

// The work is answered, and the instance is removed.
fn answered(rt: &impl Print, alloc: Global) -> Result<()> {
    let events = [
        (CREATE, "Instance::step, Create"),
        (CREATE, "Instance::step, Create again, without memory"),
        (ARRIVE, "Instance::step, Arrive with work, without memory"),
        (WHOLE, "Instance::step, Work, without memory"),
        (DONE, "Instance::step, End"),
        (DONE, "Instance::step, End again, without memory"),
        (
            Event::Take { at: 0 },
            "Instance::step, Take, without memory",
        ),
        (Event::Remove, "Instance::step, Remove, without memory"),
        (
            Event::Send,
            "Instance::step, Send, for which there is room, without memory",
        ),
        (Event::Timeout, "Instance::step, Timeout, without memory"),
        (Event::Expire, "Instance::step, Expire, without memory"),
        (
            Event::Finish { ok: true },
            "Instance::step, Finish, without memory",
        ),
    ];
    life(rt, alloc, &events)
}

// Both sides crash in the middle of the work, and the repeated request is answered at once.
fn crashed(rt: &impl Print, alloc: Global) -> Result<()> {
    let events = [
        (CREATE, "Instance::step, Create of another"),
        (
            ARRIVE,
            "Instance::step, Arrive with work again, without memory",
        ),
        (Event::CrashBroker, "Instance::step, CrashBroker"),
        (Event::CrashPlatform, "Instance::step, CrashPlatform"),
        (WHOLE, "Instance::step, Work again, without memory"),
        (
            DONE,
            "Instance::step, End that nobody waits for, without memory",
        ),
        (ARRIVE, "Instance::step, Arrive that is answered"),
        (
            Event::TakeGateway { status: 502 },
            "Instance::step, TakeGateway, without memory",
        ),
        (
            Event::TakeGarbled { at: 0 },
            "Instance::step, TakeGarbled, without memory",
        ),
    ];
    life(rt, alloc, &events)
}

// Nobody knows how the work went.
fn unknown(rt: &impl Print, alloc: Global) -> Result<()> {
    let events = [
        (CREATE, "Instance::step, Create of a third"),
        (
            ARRIVE,
            "Instance::step, Arrive with work once more, without memory",
        ),
        (Event::EndUnknown, "Instance::step, EndUnknown"),
        (
            Event::EndUnknown,
            "Instance::step, EndUnknown again, without memory",
        ),
    ];
    life(rt, alloc, &events)
}

// A request times out while the list of the requests that were sent is full. That it is full shows at the next Send.
fn full(rt: &impl Print, alloc: Global) -> Result<()> {
    let (timeout, send) = (
        "Instance::step, Timeout, without memory",
        "Instance::step, Send, for which there is room, without memory",
    );
    let events = [
        (CREATE, "Instance::step, Create of a fourth"),
        (Event::Timeout, timeout),
        (Event::Send, send),
        (Event::Timeout, timeout),
        (Event::Send, send),
        (Event::Timeout, timeout),
        (Event::Send, send),
        (
            Event::Timeout,
            "Instance::step, Timeout while the list of requests is full, without memory",
        ),
        (
            Event::Send,
            "Instance::step, Send, for which the list has no room",
        ),
    ];
    life(rt, alloc, &events)
}

pub fn steps(rt: &impl Print, alloc: Global) -> Result<()> {
    answered(rt, alloc)?;
    crashed(rt, alloc)?;
    unknown(rt, alloc)?;
    full(rt, alloc)
}

#[derive(Clone, Copy)]
enum Call {
    OrderFirst,
    OrderSecond,
    StepFirst,
    StepThird,
    Steps,
    Settle,
    Remove,
    Run,
}

#[derive(Drop)]
struct NetworkCase {
    alloc: Global,
    network: Network,
    instance: Instance,
    call: Call,
}

// Whether there is an instance, and how much it has sent.
fn sent_text(alloc: Global, network: &Network, id: InstanceId) -> Result<String> {
    match network.instance(id) {
        Some(instance) => {
            let sent = instance.sent().len();
            Ok(format!(in alloc; "{sent}")?)
        }
        None => Ok(String::from_str(alloc, "-")?),
    }
}

impl NetworkCase {
    fn order(&mut self, id: InstanceId) -> Returned {
        stepped(self.network.order(self.alloc, order(id)))
    }

    fn step(&mut self, id: InstanceId) -> Returned {
        stepped(self.network.step(self.alloc, id, CREATE))
    }

    // Both instances are created, in one call. What was refused can be made again.
    fn steps(&mut self) -> Returned {
        let events = [
            InstanceEvent {
                id: first(),
                event: CREATE,
            },
            InstanceEvent {
                id: second(),
                event: CREATE,
            },
        ];
        done(self.network.steps(self.alloc, &events))
    }

    // A settling that was refused has come a part of the way, and goes on.
    fn settle(&mut self) -> Returned {
        done(self.instance.settle(self.alloc))
    }

    // So does a removal.
    fn remove(&mut self) -> Returned {
        done(self.instance.remove(self.alloc))
    }

    fn run(&mut self) -> Returned {
        match run(self.alloc, order(first()), &[CREATE, ARRIVE]) {
            Ok(instance) => {
                self.instance = instance;
                Returned::Word("Ok")
            }
            Err(Memory) => Returned::Memory,
        }
    }
}

impl Case for NetworkCase {
    fn state(&self, alloc: Global) -> Result<String> {
        let one = sent_text(alloc, &self.network, first())?;
        let two = sent_text(alloc, &self.network, second())?;
        Ok(format!(in alloc; "{one} {two}")?)
    }

    fn call(&mut self) -> Returned {
        match self.call {
            Call::OrderFirst => self.order(first()),
            Call::OrderSecond => self.order(second()),
            Call::StepFirst => self.step(first()),
            Call::StepThird => self.step(third()),
            Call::Steps => self.steps(),
            Call::Settle => self.settle(),
            Call::Remove => self.remove(),
            Call::Run => self.run(),
        }
    }
}

pub fn calls(rt: &impl Print, alloc: Global) -> Result<()> {
    let mut case = NetworkCase {
        alloc,
        network: Network::new(alloc),
        instance: Instance::new(alloc, order(first())),
        call: Call::Run,
    };
    let calls = [
        (Call::OrderFirst, "Network::order"),
        (
            Call::OrderFirst,
            "Network::order of a used id, without memory",
        ),
        (
            Call::OrderSecond,
            "Network::order of a second, for which there is room, without memory",
        ),
        (Call::StepFirst, "Network::step"),
        (
            Call::StepThird,
            "Network::step of no instance, without memory",
        ),
        (Call::Steps, "Network::steps"),
        (Call::Run, "osb_network::run"),
        (Call::Settle, "Instance::settle"),
        (Call::Run, "osb_network::run again"),
        (Call::Remove, "Instance::remove"),
    ];
    for &(call, name) in &calls {
        case.call = call;
        tell(rt, alloc, name, &mut case)?;
    }
    Ok(())
}

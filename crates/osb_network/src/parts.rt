//! What an instance is made of: one method for each event, by the calls of `osb_instance`.
ghost use Rattle.std.specs.Prelude.{◌≡◌, ◌&&◌, false, is_some, IfOk, IsOk, OnOk, OnErr, slice_get};
ghost use Rattle.osb_platform.specs.State.{is_polling, is_removable};
ghost use Rattle.osb_platform.specs.Statuses.{is_within};
ghost use Rattle.osb_instance.specs.Begin.{begun};
ghost use Rattle.osb_instance.specs.Recorded.{is_deleting};
ghost use Rattle.osb_network.specs.Cell.{IsPossible, empty_cell};
ghost use Rattle.osb_network.specs.Steps as step;
ghost use Rattle.osb_network.specs.Steps.{step_of};

use crate::truth::{is_true_end, is_true_finish, is_under_way, table_row};
use crate::{Event, Given, Order, Resource, Step};
use osb_instance::{Begun, Holding, Record, Sent, TextFault, WorkOutcome, busy};
use osb_message::{Answer, Body, ErrorCode, Memory, Request};
use std::alloc::Global;
use std::marker::Model;

// All that there is of one instance.
#[derive(Drop)]
pub(crate) struct Parts {
    pub(crate) order: Order,
    pub(crate) recorded: Option<Record>,
    pub(crate) holding: Holding,
    pub(crate) worker: Option<u64>,
    pub(crate) resource: Resource,
    pub(crate) sent: Vec<Sent>,
    pub(crate) given: Vec<Given>,
}

impl Model for Parts {
    ghost use Rattle.osb_network.specs.Cell.{Cell};

    ghost Value = { Cell };

    ghost view = { λ p. record {
      order = p.order;
      recorded = p.recorded;
      held = p.holding;
      worker = p.worker;
      resource = p.resource;
      sent = p.sent.items;
      given = p.given.items;
    } };
}

// An answer of the status, with a body that can't be read.
fn unreadable(status: u16) -> Answer
    ensures answer { result ≡ step.unreadable status }
{
    Answer {
        status,
        body: Body::Malformed,
    }
}

// The answer where nobody knows how the work went.
fn unknown() -> Answer
    ensures answer { result ≡ step.unknown }
{
    Answer {
        status: 500,
        body: Body::Error(ErrorCode::Other),
    }
}

// What a holding is after a crash: its text, read back.
pub(crate) fn holding_read_back(alloc: Global, holding: Holding) -> Result<Holding, Memory>
    ensures same { IfOk result (λ read. read ≡ holding) }
{
    let text = holding.to_text(alloc)?;
    match Holding::from_text(alloc, text.as_str()) {
        Ok(read) => Ok(read),
        Err(TextFault::Memory) => Err(Memory),
        Err(_) => unreachable!(),
    }
}

// What a record is after a crash: its text, read back.
fn record_read_back(alloc: Global, kept: Record) -> Result<Record, Memory>
    ensures same { IfOk result (λ read. read ≡ kept) }
{
    let text = kept.to_text(alloc)?;
    match Record::from_text(alloc, text.as_str()) {
        Ok(read) => Ok(read),
        Err(TextFault::Memory) => Err(Memory),
        Err(_) => unreachable!(),
    }
}

impl Parts {
    pub(crate) fn new(alloc: Global, order: Order) -> Self
        ensures empty { result ≡ empty_cell order }
    {
        Parts {
            order,
            recorded: None,
            holding: Holding::NONE,
            worker: None,
            resource: Resource::Absent,
            sent: Vec::new(alloc),
            given: Vec::new(alloc),
        }
    }

    fn create(&mut self) -> Result<Step, Memory>
        ensures cell { OnOk result (self.new ≡ step.cell_step self.old Event.Create) }
        ensures step { IfOk result (λ s. s ≡ step_of (step.applies self.old Event.Create)) }
        ensures err { OnErr result (self.new ≡ self.old) }
        ensures no_memory { step.takes_memory self.old Event.Create ≡ false → IsOk result }
    {
        if self.recorded.is_some() {
            return Ok(Step::Skipped);
        }
        let order = self.order;
        let (record, sent) = Record::create(order.id, order.service, order.plan, order.accepts);
        let Ok(()) = self.sent.push(sent) else {
            return Err(Memory);
        };
        self.recorded = Some(record);
        Ok(Step::Applied)
    }

    // The request is the order's: this is where it counts that the cell can come about.
    fn send(&mut self) -> Result<Step, Memory>
        requires possible { IsPossible self.old }
        ensures cell { OnOk result (self.new ≡ step.cell_step self.old Event.Send) }
        ensures step { IfOk result (λ s. s ≡ step_of (step.applies self.old Event.Send)) }
        ensures err { OnErr result (self.new ≡ self.old) }
        ensures no_memory { step.takes_memory self.old Event.Send ≡ false → IsOk result }
    {
        let Some(recorded) = self.recorded else {
            return Ok(Step::Skipped);
        };
        let Ok((after, sent)) = recorded.send(self.order.id) else {
            return Ok(Step::Skipped);
        };
        let Ok(()) = self.sent.push(sent) else {
            return Err(Memory);
        };
        self.recorded = Some(after);
        Ok(Step::Applied)
    }

    fn expire(&mut self) -> Step
        ensures cell { self.new ≡ step.cell_step self.old Event.Expire }
        ensures step { result ≡ step_of (step.applies self.old Event.Expire) }
    {
        let Some(record) = self.recorded else {
            return Step::Skipped;
        };
        let Ok(after) = record.expire() else {
            return Step::Skipped;
        };
        self.recorded = Some(after);
        Step::Applied
    }

    fn retry(&mut self) -> Step
        ensures cell { self.new ≡ step.cell_step self.old Event.Retry }
        ensures step { result ≡ step_of (step.applies self.old Event.Retry) }
    {
        let Some(record) = self.recorded else {
            return Step::Skipped;
        };
        let Ok(after) = record.retry() else {
            return Step::Skipped;
        };
        self.recorded = Some(after);
        Step::Applied
    }

    fn remove(&mut self) -> Step
        ensures cell { self.new ≡ step.cell_step self.old Event.Remove }
        ensures step { result ≡ step_of (step.applies self.old Event.Remove) }
    {
        let Some(record) = self.recorded else {
            return Step::Skipped;
        };
        let Ok(after) = record.remove() else {
            return Step::Skipped;
        };
        self.recorded = Some(after);
        Step::Applied
    }

    fn timeout(&mut self) -> Step
        ensures cell { self.new ≡ step.cell_step self.old Event.Timeout }
        ensures step { result ≡ step_of (step.applies self.old Event.Timeout) }
    {
        let Some(record) = self.recorded else {
            return Step::Skipped;
        };
        let Ok(after) = record.timeout(record.attempt()) else {
            return Step::Skipped;
        };
        self.recorded = Some(after);
        Step::Applied
    }

    fn take(&mut self, attempt: u64, answer: Answer) -> Step
        ensures cell { self.new ≡ step.take self.old self.old.recorded attempt answer }
        ensures step { result ≡ step_of (step.is_out self.old.recorded attempt) }
    {
        let Some(record) = self.recorded else {
            return Step::Skipped;
        };
        let Ok(after) = record.answer(attempt, answer) else {
            return Step::Skipped;
        };
        self.recorded = Some(after);
        Step::Applied
    }

    fn take_given(&mut self, at: usize) -> Step
        ensures cell { self.new ≡ step.take_given self.old (slice_get self.old.given at) }
        ensures step { result ≡ step_of (step.may_take self.old (slice_get self.old.given at)) }
    {
        let Some(given) = self.given.get(at).copied() else {
            return Step::Skipped;
        };
        self.take(given.attempt, given.answer)
    }

    fn take_garbled(&mut self, at: usize) -> Step
        ensures cell { self.new ≡ step.take_garbled self.old (slice_get self.old.given at) }
        ensures step { result ≡ step_of (step.may_take self.old (slice_get self.old.given at)) }
    {
        let Some(given) = self.given.get(at).copied() else {
            return Step::Skipped;
        };
        self.take(given.attempt, unreadable(given.answer.status))
    }

    fn take_gateway(&mut self, status: u16) -> Step
        ensures cell { self.new ≡ step.take_gateway self.old self.old.recorded status }
        ensures step { result ≡ step_of (is_within 500 599 status && step.has_out self.old.recorded) }
    {
        let Some(record) = self.recorded else {
            return Step::Skipped;
        };
        if status < 500 || status > 599 {
            return Step::Skipped;
        }
        let Ok(after) = record.answer(record.attempt(), unreadable(status)) else {
            return Step::Skipped;
        };
        self.recorded = Some(after);
        Step::Applied
    }

    // The request of this number, if it was ever sent.
    fn sent_as(&self, attempt: u64) -> Option<Sent>
        ensures sent { result ≡ step.sent_as self.now.sent attempt }
    {
        if attempt == 0 {
            return None;
        }
        let at = usize::try_from(attempt - 1).ok()?;
        self.sent.get(at).copied()
    }

    fn arrive(&mut self, attempt: u64) -> Result<Step, Memory>
        ensures cell { OnOk result (self.new ≡ step.cell_step self.old (Event.Arrive attempt)) }
        ensures step { IfOk result (λ s. s ≡ step_of (step.applies self.old (Event.Arrive attempt))) }
        ensures err { OnErr result (self.new ≡ self.old) }
        ensures no_memory { step.takes_memory self.old (Event.Arrive attempt) ≡ false → IsOk result }
    {
        let Some(sent) = self.sent_as(attempt) else {
            return Ok(Step::Skipped);
        };
        let (holding, begun) = self.begin(&sent.request);
        self.arrived(sent, holding, begun)?;
        Ok(Step::Applied)
    }

    // The holding and what begins, once a request has come.
    fn begin(&self, request: &Request) -> (Holding, Begun)
        ensures begun { result ≡ begun self.now.order.mode self.now.order.first_poll self.now.held request.now
            self.now.order.attributes }
    {
        let Order {
            mode,
            first_poll,
            attributes,
            ..
        } = self.order;
        self.holding.begin(mode, first_poll, request, attributes)
    }

    fn put_off(&mut self, attempt: u64) -> Result<Step, Memory>
        ensures cell { OnOk result (self.new ≡ step.cell_step self.old (Event.PutOff attempt)) }
        ensures step { IfOk result (λ s. s ≡ step_of (step.applies self.old (Event.PutOff attempt))) }
        ensures err { OnErr result (self.new ≡ self.old) }
        ensures no_memory { step.takes_memory self.old (Event.PutOff attempt) ≡ false → IsOk result }
    {
        let Some(sent) = self.sent_as(attempt) else {
            return Ok(Step::Skipped);
        };
        self.give(sent.attempt, busy(sent.request.kind))?;
        Ok(Step::Applied)
    }

    // An answer more.
    fn give(&mut self, attempt: u64, answer: Answer) -> Result<(), Memory>
        ensures cell { OnOk result (self.new ≡ step.with_given self.old attempt answer) }
        ensures err { OnErr result (self.new ≡ self.old) }
    {
        let given = Given { attempt, answer };
        let Ok(()) = self.given.push(given) else {
            return Err(Memory);
        };
        Ok(())
    }

    // A request has arrived.
    fn arrived(&mut self, sent: Sent, holding: Holding, begun: Begun) -> Result<(), Memory>
        ensures cell { OnOk result (self.new ≡ step.arrived self.old sent holding begun) }
        ensures err { OnErr result (self.new ≡ self.old) }
        ensures no_memory { step.is_answered begun ≡ false → IsOk result }
    {
        match begun {
            Begun::Answered(answer) => {
                self.give(sent.attempt, answer)?;
                self.holding = holding;
                Ok(())
            }
            Begun::Work(_) => {
                self.worker = Some(sent.attempt);
                self.holding = holding;
                Ok(())
            }
        }
    }

    // Work has ended.
    fn ended(&mut self, holding: Holding, answer: Answer) -> Result<(), Memory>
        ensures cell { OnOk result (self.new ≡ step.ended self.old holding answer self.old.worker) }
        ensures err { OnErr result (self.new ≡ self.old) }
        ensures no_memory { is_some self.old.worker ≡ false → IsOk result }
    {
        match self.worker {
            None => {
                self.holding = holding;
                Ok(())
            }
            Some(attempt) => {
                self.give(attempt, answer)?;
                self.holding = holding;
                self.worker = None;
                Ok(())
            }
        }
    }

    fn end(&mut self, outcome: WorkOutcome) -> Result<Step, Memory>
        ensures cell { OnOk result (self.new ≡ step.cell_step self.old (Event.End outcome)) }
        ensures step { IfOk result (λ s. s ≡ step_of (step.applies self.old (Event.End outcome))) }
        ensures err { OnErr result (self.new ≡ self.old) }
        ensures no_memory { step.takes_memory self.old (Event.End outcome) ≡ false → IsOk result }
    {
        let Some(request) = self.holding.work() else {
            return Ok(Step::Skipped);
        };
        if !is_true_end(self.order.mode, request.kind, outcome, self.resource) {
            return Ok(Step::Skipped);
        }
        let Ok((holding, answer)) = self.holding.end(self.order.mode, outcome) else {
            unreachable!()
        };
        self.ended(holding, answer)?;
        Ok(Step::Applied)
    }

    fn end_unknown(&mut self) -> Result<Step, Memory>
        ensures cell { OnOk result (self.new ≡ step.cell_step self.old Event.EndUnknown) }
        ensures step { IfOk result (λ s. s ≡ step_of (step.applies self.old Event.EndUnknown)) }
        ensures err { OnErr result (self.new ≡ self.old) }
        ensures no_memory { step.takes_memory self.old Event.EndUnknown ≡ false → IsOk result }
    {
        let Some(attempt) = self.worker else {
            return Ok(Step::Skipped);
        };
        self.give(attempt, unknown())?;
        self.worker = None;
        Ok(Step::Applied)
    }

    fn finish(&mut self, ok: bool) -> Step
        ensures cell { self.new ≡ step.cell_step self.old (Event.Finish ok) }
        ensures step { result ≡ step_of (step.applies self.old (Event.Finish ok)) }
    {
        if !is_true_finish(table_row(self.holding), ok, self.resource) {
            return Step::Skipped;
        }
        let Ok(after) = self.holding.finish(ok) else {
            return Step::Skipped;
        };
        self.holding = after;
        Step::Applied
    }

    fn give_up_waiting(&mut self) -> Step
        ensures cell { self.new ≡ step.cell_step self.old Event.GiveUpWaiting }
        ensures step { result ≡ step_of (step.applies self.old Event.GiveUpWaiting) }
    {
        let Ok(after) = self.holding.give_up_waiting() else {
            return Step::Skipped;
        };
        self.holding = after;
        Step::Applied
    }

    fn work(&mut self, resource: Resource) -> Step
        ensures cell { self.new ≡ step.cell_step self.old (Event.Work resource) }
        ensures step { result ≡ step_of (step.applies self.old (Event.Work resource)) }
    {
        if !is_under_way(self.holding) {
            return Step::Skipped;
        }
        self.resource = resource;
        Step::Applied
    }

    fn crash_broker(&mut self, alloc: Global) -> Result<Step, Memory>
        ensures cell { OnOk result (self.new ≡ step.crash_broker self.old) }
        ensures step { IfOk result (λ s. s ≡ Step.Applied) }
        ensures err { OnErr result (self.new ≡ self.old) }
    {
        let read = holding_read_back(alloc, self.holding)?;
        self.holding = read;
        self.worker = None;
        Ok(Step::Applied)
    }

    fn crash_platform(&mut self, alloc: Global) -> Result<Step, Memory>
        ensures cell { self.new ≡ self.old }
        ensures step { IfOk result (λ s. s ≡ Step.Applied) }
    {
        let Some(record) = self.recorded else {
            return Ok(Step::Applied);
        };
        let read = record_read_back(alloc, record)?;
        self.recorded = Some(read);
        Ok(Step::Applied)
    }

    pub(crate) fn step(&mut self, alloc: Global, event: Event) -> Result<Step, Memory>
        requires possible { IsPossible self.old }
        ensures cell { OnOk result (self.new ≡ step.cell_step self.old event) }
        ensures step { IfOk result (λ s. s ≡ step_of (step.applies self.old event)) }
        ensures err { OnErr result (self.new ≡ self.old) }
        ensures no_memory { step.takes_memory self.old event ≡ false → IsOk result }
    {
        match event {
            Event::Create => self.create(),
            Event::Send => self.send(),
            Event::Expire => Ok(self.expire()),
            Event::Retry => Ok(self.retry()),
            Event::Remove => Ok(self.remove()),
            Event::Timeout => Ok(self.timeout()),
            Event::Arrive { attempt } => self.arrive(attempt),
            Event::PutOff { attempt } => self.put_off(attempt),
            Event::Take { at } => Ok(self.take_given(at)),
            Event::TakeGarbled { at } => Ok(self.take_garbled(at)),
            Event::TakeGateway { status } => Ok(self.take_gateway(status)),
            Event::End { outcome } => self.end(outcome),
            Event::EndUnknown => self.end_unknown(),
            Event::Finish { ok } => Ok(self.finish(ok)),
            Event::GiveUpWaiting => Ok(self.give_up_waiting()),
            Event::Work { resource } => Ok(self.work(resource)),
            Event::CrashBroker => self.crash_broker(alloc),
            Event::CrashPlatform => self.crash_platform(alloc),
        }
    }
}

//! One instance, and all that can happen to it.
ghost use Rattle.std.specs.Prelude.{◌≡◌, ℕ, ◌+◌, false, Ok, Some, IfOk, IsOk, OnOk, OnErr, slice_get};
ghost use Rattle.osb_network.specs.Agreement.{Agrees};
ghost use Rattle.osb_network.specs.Cell.{IsPossible, empty_cell};
ghost use Rattle.osb_network.specs.Removing.{after_removing_round, removed_cell, removing_events, removing_round_events};
ghost use Rattle.osb_network.specs.Removing.{IsRemoved, RemovesByEvents, ThreeRoundsRemove, TwoRoundsRemove};
ghost use Rattle.osb_network.specs.Settling.{after_free, after_round, settled_cell};
ghost use Rattle.osb_network.specs.Settling.{HasNumbers, IsSettled, ThreeRoundsSettle};
ghost use Rattle.osb_network.specs.Settling.{arrival, good_work, latest_answer, number_out};
ghost use Rattle.osb_network.specs.Settling.{operated_well, with_answer, with_arrival, with_good, worked_well};
ghost use Rattle.osb_network.specs.Settling.{free_events, operation_events, round_events, settling_events, work_events};
ghost use Rattle.osb_network.specs.Settling.{IsPartWay, SettlesByEvents};
ghost use Rattle.osb_network.specs.Steps.{applies, cell_step, cell_steps, step_of, takes_memory, TakeNoMemory};
ghost use Rattle.osb_instance.specs.declared.record.Sent.{Sent};

use crate::parts::Parts;
use crate::truth::{good_resource, table_row};
use crate::{Event, Given, Order, Resource, Step};
use osb_instance::{Holding, Record, Sent, WorkOutcome};
use osb_message::Memory;
use std::alloc::Global;
use std::marker::Model;

/// One instance: what the platform records, what the broker holds, the resource in the backend, every request ever sent
/// and every answer ever given (this project's choice, and so are its calls).
///
/// Contracts see its cell, which can come about (`IsPossible`); and so both sides and the backend agree on it,
/// whatever has happened to it, in the sense of the [crate](crate)'s first page.
#[derive(Drop)]
pub struct Instance {
    parts: Parts,
}

impl Model for Instance {
    ghost use Rattle.osb_network.specs.Cell.{Cell, IsPossible};

    ghost Value = { Cell };

    ghost view = { λ i. i.parts };

    ghost invariant = { λ i. IsPossible i.parts };
}

impl Instance {
    /// An instance that nothing has happened to. It keeps the allocator for what is sent and answered, and takes no
    /// memory.
    pub fn new(alloc: Global, order: Order) -> Self
        ensures empty { result ≡ empty_cell order }
    {
        Instance {
            parts: Parts::new(alloc, order),
        }
    }

    /// Lets an event happen: [`Step::Applied`] exactly where it applies, and the instance is then one step further.
    /// [`Step::Skipped`] has changed nothing.
    ///
    /// `alloc` is for the texts that a crash writes and reads; what else is written, the instance's own allocator
    /// serves.
    ///
    /// # Errors
    ///
    /// [`Memory`] if an allocation failed. Only these events ask for memory: a Create or a Send that applies, an Arrive
    /// that is answered at once, a PutOff that applies, an End or an EndUnknown of work whose request isn't answered
    /// yet, and the crashes. The instance is then as before.
    pub fn step(&mut self, alloc: Global, event: Event) -> Result<Step, Memory>
        ensures cell { OnOk result (self.new ≡ cell_step self.old event) }
        ensures applied { IfOk result (λ s. s ≡ step_of (applies self.old event)) }
        ensures skipped { result ≡ Ok Step.Skipped → self.new ≡ self.old }
        ensures err { OnErr result (self.new ≡ self.old) }
        ensures no_memory { takes_memory self.old event ≡ false → IsOk result }
        ensures agrees { Agrees self.new }
    {
        self.parts.step(alloc, event)
    }

    /// What was ordered. It takes no memory.
    pub fn order(&self) -> Order
        ensures order { result ≡ self.now.order }
    {
        self.parts.order
    }

    /// What the platform records, or none before the Create. It takes no memory.
    pub fn record(&self) -> Option<Record>
        ensures recorded { result ≡ self.now.recorded }
    {
        self.parts.recorded
    }

    /// What the broker holds. It takes no memory.
    pub fn holding(&self) -> Holding
        ensures held { result ≡ self.now.held }
    {
        self.parts.holding
    }

    /// What there is in the backend. It takes no memory.
    pub fn resource(&self) -> Resource
        ensures resource { result ≡ self.now.resource }
    {
        self.parts.resource
    }

    /// Every request ever sent, in the order of their numbers: at place n is the one with the number n + 1. It takes
    /// no memory.
    pub fn sent(&self) -> &[Sent]
        ensures sent { result.now ≡ self.now.sent }
        ensures numbered { (at : ℕ) (sent : Sent) → slice_get self.now.sent at ≡ Some sent → sent.attempt ≡ at + 1 }
    {
        self.parts.sent.as_slice()
    }

    /// Every answer ever given, in their order. It takes no memory.
    pub fn given(&self) -> &[Given]
        ensures given { result.now ≡ self.now.given }
    {
        self.parts.given.as_slice()
    }

    /// Does nothing: its contract is that the instance's cell can come about, and that both sides and the backend
    /// agree on it. It takes no memory.
    pub fn agreement(&self)
        ensures possible { IsPossible self.now }
        ensures agrees { Agrees self.now }
    {
        let _ = &self.parts;
    }

    /// The event by which what is under way goes well for the resource: pending work, or the operation that runs. If
    /// nothing is under way, the event doesn't apply. It takes no memory.
    pub fn good_work(&self) -> Event
        ensures event { result ≡ good_work self.now }
    {
        let resource = good_resource(self.parts.holding.work(), table_row(self.parts.holding));
        Event::Work { resource }
    }

    /// The event by which the request that is out arrives. If none is out, the event doesn't apply. It takes no memory.
    pub fn arrival(&self) -> Event
        ensures event { result ≡ arrival self.now }
    {
        let attempt = self.number_out();
        Event::Arrive { attempt }
    }

    /// The event by which the latest answer is taken. If none was ever given, the event doesn't apply. It takes no memory.
    pub fn latest_answer(&self) -> Event
        ensures event { result ≡ latest_answer self.now }
    {
        let at = self.parts.given.len().saturating_sub(1);
        Event::Take { at }
    }

    // The pending work, or the operation that runs, has gone well for the resource.
    fn go_well(&mut self, alloc: Global) -> Result<(), Memory>
        ensures cell { OnOk result (self.new ≡ with_good self.old) }
        ensures err { OnErr result (self.new ≡ self.old) }
    {
        let event = self.good_work();
        self.step(alloc, event)?;
        Ok(())
    }

    // The pending work ends well, if there is some.
    fn work_well(&mut self, alloc: Global) -> Result<(), Memory>
        ensures cell { OnOk result (self.new ≡ worked_well self.old) }
        ensures err { OnErr result (IsPartWay work_events self.old self.new) }
    {
        self.go_well(alloc)?;
        let outcome = WorkOutcome::Done;
        self.step(alloc, Event::End { outcome })?;
        Ok(())
    }

    // The operation that runs ends well, if one does.
    fn operate_well(&mut self, alloc: Global) -> Result<(), Memory>
        ensures cell { OnOk result (self.new ≡ operated_well self.old) }
        ensures err { OnErr result (IsPartWay operation_events self.old self.new) }
    {
        self.go_well(alloc)?;
        self.step(alloc, Event::Finish { ok: true })?;
        Ok(())
    }

    // The number of the request that is out, and 0 where none is.
    fn number_out(&self) -> u64
        ensures number { result ≡ number_out self.now.recorded }
    {
        match self.parts.recorded {
            None => 0,
            Some(record) => match record.row().out {
                None => 0,
                Some(_) => record.attempt(),
            },
        }
    }

    // What is out arrives.
    fn arrive_out(&mut self, alloc: Global) -> Result<(), Memory>
        ensures cell { OnOk result (self.new ≡ with_arrival self.old) }
        ensures err { OnErr result (self.new ≡ self.old) }
    {
        let event = self.arrival();
        self.step(alloc, event)?;
        Ok(())
    }

    // The latest answer is taken.
    fn take_latest(&mut self, alloc: Global) -> Result<(), Memory>
        ensures cell { OnOk result (self.new ≡ with_answer self.old) }
        ensures err { OnErr result (self.new ≡ self.old) }
    {
        let event = self.latest_answer();
        self.step(alloc, event)?;
        Ok(())
    }

    // What is under way ends well, and the request that is due is sent, done and answered.
    fn go_free(&mut self, alloc: Global) -> Result<(), Memory>
        ensures cell { OnOk result (self.new ≡ after_free self.old) }
        ensures err { OnErr result (IsPartWay free_events self.old self.new) }
    {
        self.work_well(alloc)?;
        self.operate_well(alloc)?;
        self.step(alloc, Event::Send)?;
        self.arrive_out(alloc)?;
        self.work_well(alloc)?;
        self.take_latest(alloc)
    }

    // A fault-free round.
    fn round(&mut self, alloc: Global) -> Result<(), Memory>
        ensures cell { OnOk result (self.new ≡ after_round self.old) }
        ensures err { OnErr result (IsPartWay round_events self.old self.new) }
    {
        self.step(alloc, Event::Timeout)?;
        self.go_free(alloc)
    }

    // A fault-free round in which the instance is removed if it may be.
    fn removing_round(&mut self, alloc: Global) -> Result<(), Memory>
        ensures cell { OnOk result (self.new ≡ after_removing_round self.old) }
        ensures err { OnErr result (IsPartWay removing_round_events self.old self.new) }
    {
        self.step(alloc, Event::Timeout)?;
        self.step(alloc, Event::Remove)?;
        self.go_free(alloc)
    }

    // Three fault-free rounds.
    fn rounds(&mut self, alloc: Global) -> Result<(), Memory>
        ensures cell { OnOk result (self.new ≡ settled_cell self.old) }
        ensures err { OnErr result (IsPartWay settling_events self.old self.new) }
    {
        self.round(alloc)?;
        self.round(alloc)?;
        self.round(alloc)?;
        Ok(())
    }

    /// Cleans up after the instance, as it ends once nothing goes wrong any more: three fault-free rounds (this
    /// project's choice). In a round the request that is out is given up, the pending work ends well, an operation
    /// that runs ends well, and the request that is due is sent, arrives, its work ends well, and its answer is taken;
    /// each of these is passed over where it doesn't apply.
    ///
    /// The instance is settled then: the platform records `ready`, `gone` or `unsettled`, or nothing as before. That
    /// needs three numbers for requests, which every instance has that has sent fewer than 2^64 - 3.
    ///
    /// `alloc` is for nothing that is written here: requests and answers go to the instance's own allocator.
    ///
    /// # Errors
    ///
    /// [`Memory`] if an allocation failed. The first few of these events have happened then, and none after them.
    /// Both sides and the backend agree. Settle the instance again to go on from there.
    pub fn settle(&mut self, alloc: Global) -> Result<(), Memory>
        ensures cell { OnOk result (self.new ≡ settled_cell self.old) }
        ensures err { OnErr result (IsPartWay settling_events self.old self.new) }
        ensures settled { HasNumbers 3 self.old → OnOk result (IsSettled self.new) }
        ensures agrees { Agrees self.new }
        // So it is from every cell that can come about.
        ensures always { ThreeRoundsSettle }
        ensures by_events { SettlesByEvents }
    {
        self.agreement();
        let settled = self.rounds(alloc);
        self.agreement();
        settled
    }

    // Three removing rounds.
    fn removing_rounds(&mut self, alloc: Global) -> Result<(), Memory>
        ensures cell { OnOk result (self.new ≡ removed_cell self.old) }
        ensures err { OnErr result (IsPartWay removing_events self.old self.new) }
    {
        self.removing_round(alloc)?;
        self.removing_round(alloc)?;
        self.removing_round(alloc)?;
        Ok(())
    }

    /// Ends the instance, as it ends where an operator wants it deleted and nothing goes wrong any more: three rounds as at
    /// [`Instance::settle`], in each of which the instance is removed once the request that is out was given up, if it may
    /// be (this project's choice).
    ///
    /// The platform records `gone` then, or nothing as before. That needs three numbers for requests. If the instance was
    /// settled, it is so after two of the three rounds (`TwoRoundsRemove`), and that needs two numbers.
    ///
    /// `alloc` is for nothing that is written here: requests and answers go to the instance's own allocator.
    ///
    /// # Errors
    ///
    /// [`Memory`] if an allocation failed. The first few of these events have happened then, and none after them. Both
    /// sides and the backend agree. Remove the instance again to go on from there.
    pub fn remove(&mut self, alloc: Global) -> Result<(), Memory>
        ensures cell { OnOk result (self.new ≡ removed_cell self.old) }
        ensures err { OnErr result (IsPartWay removing_events self.old self.new) }
        ensures removed { HasNumbers 3 self.old → OnOk result (IsRemoved self.new) }
        ensures agrees { Agrees self.new }
        // So it is from every cell that can come about.
        ensures always { ThreeRoundsRemove }
        ensures settled { TwoRoundsRemove }
        ensures by_events { RemovesByEvents }
    {
        self.agreement();
        let removed = self.removing_rounds(alloc);
        self.agreement();
        removed
    }
}

/// A new instance, stepped through the events: whatever they are, and in whatever order, both sides and the backend
/// agree on it then, in the sense of the [crate](crate)'s first page (this project's choice). `alloc` is for all that
/// the instance writes.
///
/// # Errors
///
/// [`Memory`] at the first step where an allocation failed. Only the events at which [`Instance::step`] takes memory ask
/// for it.
pub fn run(alloc: Global, order: Order, events: &[Event]) -> Result<Instance, Memory>
    ensures cell { IfOk result (λ instance. instance ≡ cell_steps (empty_cell order) events.now) }
    ensures no_memory { TakeNoMemory (empty_cell order) events.now → IsOk result }
    ensures agrees { IfOk result (λ instance. Agrees instance) }
    ensures always { Agrees (cell_steps (empty_cell order) events.now) }
{
    let mut instance = Instance::new(alloc, order);
    for event in events {
        instance.step(alloc, *event)?;
    }
    instance.agreement();
    Ok(instance)
}

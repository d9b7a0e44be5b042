//! What there is of a binding, and one step of it.
ghost use Rattle.std.specs.Prelude.{◌≡◌, ◌-◌, ◌&&◌, IfOk, IsOk, OnOk, OnErr, None, length, slice_get, false, true};
ghost use Rattle.osb_network.specs.declared.event.Event.{Event};
ghost use Rattle.osb_network.specs.Removing.{after_removing_round, removed_cell, removing_events, removing_round_events};
ghost use Rattle.osb_network.specs.Settling.{after_free, after_round, free_events, operated_well, operation_events};
ghost use Rattle.osb_network.specs.Settling.{round_events, settled_cell, settling_events, with_answer, with_arrival};
ghost use Rattle.osb_network.specs.Settling.{with_good, work_events};
ghost use Rattle.osb_network.specs.Settling.{worked_well, IsPartWay};
ghost use Rattle.osb_network.specs.Steps.{applies, cell_step, step_of};
ghost use Rattle.osb_network.specs.Truth as truth;
ghost use Rattle.osb_binding_network.specs.Allowed.{needs_fetch, of_binding};
ghost use Rattle.osb_binding_network.specs.Happening as happening;
ghost use Rattle.osb_binding_network.specs.Well.{IsWell};
ghost use Rattle.osb_binding_network.specs.Binding as spec;
ghost use Rattle.osb_binding_network.specs.declared.event.BindingEvent.{BindingEvent};

use crate::BindingEvent;
use crate::allowed::{Allowed, is_ready, needs_fetch, of_binding};
use osb_instance::{Holding, HoldingPhase, WorkOutcome};
use osb_message::Memory;
use osb_network::{Event, Instance, Order, Step};
use std::alloc::Global;
use std::marker::Model;

// A binding's life, and its credentials.
#[derive(Drop)]
pub(crate) struct BindingParts {
    pub(crate) life: Instance,
    pub(crate) retrievable: bool,
    pub(crate) forgotten: bool,
    pub(crate) resource: u64,
    pub(crate) row: u64,
    pub(crate) recorded: u64,
    pub(crate) answers: Vec<u64>,
    pub(crate) fetched: Vec<u64>,
}

impl Model for BindingParts {
    ghost use Rattle.osb_binding_network.specs.Binding.{BindingCell};

    ghost Value = { BindingCell };

    ghost view = { λ b. record { life = b.life; retrievable = b.retrievable; forgotten = b.forgotten; resource = b.resource; row = b.row; recorded = b.recorded; answers = b.answers.items; fetched = b.fetched.items } };
}

// Whether a row is `ready`.
fn holds_ready(holding: Holding) -> bool
    ensures is { result ≡ spec.holds_ready holding }
{
    match holding.row() {
        None => false,
        Some(row) => row.phase == HoldingPhase::Ready,
    }
}

// Whether a Fetch is answered with credentials.
fn is_fetchable(holding: Holding) -> bool
    ensures is { result ≡ spec.is_fetchable holding }
{
    holds_ready(holding) && holding.work().is_none()
}

// Whether work is pending, or an operation runs.
fn is_under_way(holding: Holding) -> bool
    ensures is { result ≡ truth.is_under_way holding }
{
    holding.work().is_some() || holding.is_operating()
}

// The resource's credentials after an event.
fn resource_after(holding: Holding, event: Event, chosen: u64, left: u64) -> u64
    ensures after { result ≡ spec.resource_after holding event chosen left }
{
    match event {
        Event::Work { .. } if is_under_way(holding) => chosen,
        _ => left,
    }
}

// The row's credentials after an event.
fn row_after(holding: Holding, resource: u64, before: u64) -> u64
    ensures after { result ≡ spec.row_after holding resource before }
{
    if holds_ready(holding) {
        before
    } else {
        resource
    }
}

// The credentials at a place, or those before.
fn told_at(told: &[u64], at: usize, before: u64) -> u64
    ensures told { result ≡ spec.told_at (slice_get told.now at) before }
{
    match told.get(at).copied() {
        None => before,
        Some(credentials) => credentials,
    }
}

// What the platform records after an event.
fn recorded_after(was: bool, is: bool, event: Event, answers: &[u64], before: u64) -> u64
    ensures after { result ≡ spec.recorded_after was is event answers.now before }
{
    match event {
        Event::Take { at } if !was && is => told_at(answers, at, before),
        _ => before,
    }
}

impl BindingParts {
    pub(crate) fn new(alloc: Global, order: Order, retrievable: bool) -> Self
        ensures empty { result ≡ spec.empty_binding order retrievable }
    {
        BindingParts {
            life: Instance::new(alloc, order),
            retrievable,
            forgotten: false,
            resource: 0,
            row: 0,
            recorded: 0,
            answers: Vec::new(alloc),
            fetched: Vec::new(alloc),
        }
    }

    // An event of the life.
    fn live(&mut self, alloc: Global, event: Event, chosen: u64) -> Result<Step, Memory>
        ensures cell { OnOk result (self.new ≡ spec.lived self.old event chosen) }
        ensures applied { IfOk result (λ s. s ≡ step_of (applies self.old.life event)) }
        ensures err { OnErr result (self.new ≡ self.old) }
    {
        let holding = self.life.holding();
        let resource = resource_after(holding, event, chosen, self.resource);
        let row = row_after(holding, resource, self.row);
        let was = is_ready(self.life.record());
        let before = self.life.given().len();
        let Ok(()) = self.answers.reserve(1) else {
            return Err(Memory);
        };
        let step = self.life.step(alloc, event)?;
        let is = is_ready(self.life.record());
        self.recorded = recorded_after(was, is, event, self.answers.as_slice(), self.recorded);
        if before < self.life.given().len() {
            let Ok(()) = self.answers.push(row) else {
                unreachable!()
            };
        }
        self.resource = resource;
        self.row = row;
        Ok(step)
    }

    // An event of the life, if the other side lets it happen.
    fn lives_if(
        &mut self,
        alloc: Global,
        allowed: Allowed,
        event: Event,
        chosen: u64,
    ) -> Result<Step, Memory>
        ensures cell { OnOk result (self.new
            ≡ spec.binding_step allowed.create allowed.work allowed.ended self.old (BindingEvent.Life event chosen)) }
        ensures applied { IfOk result (λ s. s ≡ step_of (happening.binding_applies
            allowed.create allowed.work allowed.ended self.old (BindingEvent.Life event chosen))) }
        ensures err { OnErr result (self.new ≡ self.old) }
        ensures no_memory { of_binding allowed.create allowed.work self.old.forgotten self.old.retrievable
            self.old.life event ≡ None → IsOk result }
    {
        let let_happen = of_binding(allowed, self.forgotten, self.retrievable, &self.life, event);
        let Some(event) = let_happen else {
            return Ok(Step::Skipped);
        };
        self.live(alloc, event, chosen)
    }

    // A Fetch arrives at the broker.
    fn fetch(&mut self) -> Result<Step, Memory>
        ensures cell { OnOk result (self.new ≡ spec.fetch_arrived self.old) }
        ensures applied { IfOk result (λ s. s ≡ step_of (spec.is_fetchable self.old.life.held)) }
        ensures err { OnErr result (self.new ≡ self.old) }
        ensures no_memory { spec.is_fetchable self.old.life.held ≡ false → IsOk result }
    {
        if !is_fetchable(self.life.holding()) {
            return Ok(Step::Skipped);
        }
        let Ok(()) = self.fetched.push(self.row) else {
            return Err(Memory);
        };
        Ok(Step::Applied)
    }

    // The platform takes the answer to a Poll together with that to a Fetch.
    fn take_fetched(&mut self, alloc: Global, at: usize, fetched: usize) -> Result<Step, Memory>
        ensures cell { OnOk result (self.new ≡ spec.taken_with self.old at (slice_get self.old.fetched fetched)) }
        ensures applied { IfOk result (λ s. s ≡ step_of (happening.takes_fetched self.old at fetched
            && applies self.old.life (Event.Take at))) }
        ensures err { OnErr result (self.new ≡ self.old) }
        ensures no_memory { happening.takes_fetched self.old at fetched ≡ false → IsOk result }
    {
        let Some(credentials) = self.fetched.get(fetched).copied() else {
            return Ok(Step::Skipped);
        };
        if !needs_fetch(&self.life, at) {
            return Ok(Step::Skipped);
        }
        let step = self.live(alloc, Event::Take { at }, 0)?;
        self.recorded = credentials;
        Ok(step)
    }

    // The broker deletes the tombstone.
    fn forget(&mut self, ended: bool) -> Step
        ensures cell { self.new ≡ spec.forgot ended self.old }
        ensures applied { result ≡ step_of (ended && self.old.life.held.tombstone) }
    {
        if !ended || !self.life.holding().has_tombstone() {
            return Step::Skipped;
        }
        self.forgotten = true;
        Step::Applied
    }

    pub(crate) fn step(
        &mut self,
        alloc: Global,
        allowed: Allowed,
        event: BindingEvent,
    ) -> Result<Step, Memory>
        ensures cell { OnOk result (self.new
            ≡ spec.binding_step allowed.create allowed.work allowed.ended self.old event) }
        ensures applied { IfOk result (λ s. s ≡ step_of (happening.binding_applies
            allowed.create allowed.work allowed.ended self.old event)) }
        ensures err { OnErr result (self.new ≡ self.old) }
        ensures no_memory { happening.binding_takes_memory allowed.create allowed.work self.old event ≡ false
            → IsOk result }
    {
        match event {
            BindingEvent::Life { event, credentials } => {
                self.lives_if(alloc, allowed, event, credentials)
            }
            BindingEvent::Fetch => self.fetch(),
            BindingEvent::TakeFetched { at, fetched } => self.take_fetched(alloc, at, fetched),
            BindingEvent::Forget => Ok(self.forget(allowed.ended)),
        }
    }

    // ---- fault-free rounds

    // An event of the life, after which the credentials are what they should be.
    fn lives(&mut self, alloc: Global, event: Event, chosen: u64) -> Result<(), Memory>
        ensures life { OnOk result (self.new.life ≡ cell_step self.old.life event) }
        ensures err { OnErr result (self.new.life ≡ self.old.life) }
        ensures well { IsWell self.old → IsWell self.new }
        ensures forgotten { self.new.forgotten ≡ self.old.forgotten }
        ensures retrievable { self.new.retrievable ≡ self.old.retrievable }
    {
        self.live(alloc, event, chosen)?;
        Ok(())
    }

    // The pending work, or the operation that runs, has gone well for the resource, and left its credentials.
    fn go_well(&mut self, alloc: Global) -> Result<(), Memory>
        ensures life { OnOk result (self.new.life ≡ with_good self.old.life) }
        ensures err { OnErr result (self.new.life ≡ self.old.life) }
        ensures well { IsWell self.old → IsWell self.new }
        ensures forgotten { self.new.forgotten ≡ self.old.forgotten }
        ensures retrievable { self.new.retrievable ≡ self.old.retrievable }
    {
        let event = self.life.good_work();
        self.lives(alloc, event, self.resource)
    }

    // The pending work ends well, if there is some.
    fn work_well(&mut self, alloc: Global) -> Result<(), Memory>
        ensures life { OnOk result (self.new.life ≡ worked_well self.old.life) }
        ensures err { OnErr result (IsPartWay work_events self.old.life self.new.life) }
        ensures well { IsWell self.old → IsWell self.new }
        ensures forgotten { self.new.forgotten ≡ self.old.forgotten }
        ensures retrievable { self.new.retrievable ≡ self.old.retrievable }
    {
        self.go_well(alloc)?;
        let outcome = WorkOutcome::Done;
        self.lives(alloc, Event::End { outcome }, 0)
    }

    // The operation that runs ends well, if one does.
    fn operate_well(&mut self, alloc: Global) -> Result<(), Memory>
        ensures life { OnOk result (self.new.life ≡ operated_well self.old.life) }
        ensures err { OnErr result (IsPartWay operation_events self.old.life self.new.life) }
        ensures well { IsWell self.old → IsWell self.new }
        ensures forgotten { self.new.forgotten ≡ self.old.forgotten }
        ensures retrievable { self.new.retrievable ≡ self.old.retrievable }
    {
        self.go_well(alloc)?;
        self.lives(alloc, Event::Finish { ok: true }, 0)
    }

    // What is out arrives.
    fn arrive_out(&mut self, alloc: Global) -> Result<(), Memory>
        ensures life { OnOk result (self.new.life ≡ with_arrival self.old.life) }
        ensures err { OnErr result (self.new.life ≡ self.old.life) }
        ensures well { IsWell self.old → IsWell self.new }
        ensures forgotten { self.new.forgotten ≡ self.old.forgotten }
        ensures retrievable { self.new.retrievable ≡ self.old.retrievable }
    {
        let event = self.life.arrival();
        self.lives(alloc, event, 0)
    }

    // The place of the latest answer to a Fetch.
    fn latest_fetched(&self) -> usize
        ensures at { result ≡ length self.now.fetched - 1 }
    {
        self.fetched.len().saturating_sub(1)
    }

    // The answer at the place is taken together with that to a Fetch, which arrives before.
    fn take_with_fetch(&mut self, alloc: Global, at: usize) -> Result<(), Memory>
        requires needed { needs_fetch self.old.life at ≡ true }
        ensures life { OnOk result (self.new.life ≡ cell_step self.old.life (Event.Take at)) }
        ensures err { OnErr result (self.new.life ≡ self.old.life) }
        ensures well { IsWell self.old → IsWell self.new }
        ensures forgotten { self.new.forgotten ≡ self.old.forgotten }
        ensures retrievable { self.new.retrievable ≡ self.old.retrievable }
    {
        self.life.agreement();
        self.fetch()?;
        let fetched = self.latest_fetched();
        self.take_fetched(alloc, at, fetched)?;
        Ok(())
    }

    // The latest answer is taken, with a Fetch's if that is needed.
    fn take_latest(&mut self, alloc: Global) -> Result<(), Memory>
        ensures life { OnOk result (self.new.life ≡ with_answer self.old.life) }
        ensures err { OnErr result (self.new.life ≡ self.old.life) }
        ensures well { IsWell self.old → IsWell self.new }
        ensures forgotten { self.new.forgotten ≡ self.old.forgotten }
        ensures retrievable { self.new.retrievable ≡ self.old.retrievable }
    {
        let at = self.life.given().len().saturating_sub(1);
        if needs_fetch(&self.life, at) {
            return self.take_with_fetch(alloc, at);
        }
        self.lives(alloc, Event::Take { at }, 0)
    }

    // What is under way ends well, and the request that is due is sent, done and answered.
    fn go_free(&mut self, alloc: Global) -> Result<(), Memory>
        ensures life { OnOk result (self.new.life ≡ after_free self.old.life) }
        ensures err { OnErr result (IsPartWay free_events self.old.life self.new.life) }
        ensures well { IsWell self.old → IsWell self.new }
        ensures forgotten { self.new.forgotten ≡ self.old.forgotten }
        ensures retrievable { self.new.retrievable ≡ self.old.retrievable }
    {
        self.work_well(alloc)?;
        self.operate_well(alloc)?;
        self.lives(alloc, Event::Send, 0)?;
        self.arrive_out(alloc)?;
        self.work_well(alloc)?;
        self.take_latest(alloc)
    }

    // A fault-free round.
    fn round(&mut self, alloc: Global) -> Result<(), Memory>
        ensures life { OnOk result (self.new.life ≡ after_round self.old.life) }
        ensures err { OnErr result (IsPartWay round_events self.old.life self.new.life) }
        ensures well { IsWell self.old → IsWell self.new }
        ensures forgotten { self.new.forgotten ≡ self.old.forgotten }
        ensures retrievable { self.new.retrievable ≡ self.old.retrievable }
    {
        self.lives(alloc, Event::Timeout, 0)?;
        self.go_free(alloc)
    }

    // A fault-free round in which the binding is removed if it may be.
    fn removing_round(&mut self, alloc: Global) -> Result<(), Memory>
        ensures life { OnOk result (self.new.life ≡ after_removing_round self.old.life) }
        ensures err { OnErr result (IsPartWay removing_round_events self.old.life self.new.life) }
        ensures well { IsWell self.old → IsWell self.new }
        ensures forgotten { self.new.forgotten ≡ self.old.forgotten }
        ensures retrievable { self.new.retrievable ≡ self.old.retrievable }
    {
        self.lives(alloc, Event::Timeout, 0)?;
        self.lives(alloc, Event::Remove, 0)?;
        self.go_free(alloc)
    }

    // Three fault-free rounds.
    pub(crate) fn rounds(&mut self, alloc: Global) -> Result<(), Memory>
        ensures life { OnOk result (self.new.life ≡ settled_cell self.old.life) }
        ensures err { OnErr result (IsPartWay settling_events self.old.life self.new.life) }
        ensures well { IsWell self.old → IsWell self.new }
        ensures forgotten { self.new.forgotten ≡ self.old.forgotten }
        ensures retrievable { self.new.retrievable ≡ self.old.retrievable }
    {
        self.round(alloc)?;
        self.round(alloc)?;
        self.round(alloc)?;
        Ok(())
    }

    // Three removing rounds.
    pub(crate) fn removing_rounds(&mut self, alloc: Global) -> Result<(), Memory>
        ensures life { OnOk result (self.new.life ≡ removed_cell self.old.life) }
        ensures err { OnErr result (IsPartWay removing_events self.old.life self.new.life) }
        ensures well { IsWell self.old → IsWell self.new }
        ensures forgotten { self.new.forgotten ≡ self.old.forgotten }
        ensures retrievable { self.new.retrievable ≡ self.old.retrievable }
    {
        self.removing_round(alloc)?;
        self.removing_round(alloc)?;
        self.removing_round(alloc)?;
        Ok(())
    }
}

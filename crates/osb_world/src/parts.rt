//! The two cores and the messages between them: one method for each event.
//!
//! Each method says the same: where its event applies, the cell of its instance is one step further,
//! and every other cell and the catalogue are as before. A restart is a step of every cell. They take
//! for granted what holds of every world, and leave it to the world that it holds again.
ghost use Rattle.std.specs.Prelude.{◌≡◌, ◌≢◌, ℕ, false, IsOk, IfOk, OnOk, OnErr};
ghost use Rattle.osb_world.specs.Cell.{empty_cell};
ghost use Rattle.osb_world.specs.Events.{applies_at, next_cell, takes_memory_at};
ghost use Rattle.osb_world.specs.Settling.{after_round, settled_cell};
ghost use Rattle.osb_world.specs.Steps.{applies, cell_step, takes_memory};
ghost use Rattle.osb_world.specs.Views.{catalogue_of, cell_at, step_of};
ghost use Rattle.osb_world.specs.Views.{IsPlaced, IsSame, IsSound, IsStepOf};

use crate::{Cell, Event, Step};
use osb_broker::{Broker, Outcome};
use osb_in_flight::{MessageList, Messages, SILENCE};
use osb_message::{Answer, Body, Catalogue, InstanceId, Memory, PlanId, ServiceId};
use osb_platform::{CreateFault, LoadFault, Platform};
use std::alloc::Global;
use std::marker::Model;

// What a world is made of.
#[derive(Drop)]
pub(crate) struct Parts {
    pub(crate) broker: Broker,
    pub(crate) platform: Platform,
    pub(crate) messages: MessageList,
}

impl Model for Parts {
    ghost use Rattle.osb_world.specs.Views.{WorldState, world_code};

    ghost Value = { WorldState };

    ghost coded = { world_code };

    ghost view = { λ p. record { platform = p.platform; broker = p.broker; messages = p.messages } };
}

impl Parts {
    #[tactic(auto, using(osb_message::proofs::Maps::row_steps))]
    pub(crate) fn new(alloc: Global, catalogue: Catalogue) -> Self
        ensures cells { (id : ℕ) → cell_at result id ≡ empty_cell }
        ensures catalogue { catalogue_of result ≡ catalogue }
        ensures placed { IsPlaced result }
    {
        Parts {
            broker: Broker::new(alloc, catalogue),
            platform: Platform::new(alloc),
            messages: MessageList::new(alloc),
        }
    }

    pub(crate) fn cell(&self, id: InstanceId) -> Cell
        ensures cell { result ≡ cell_at self.now id }
    {
        let messages = self.messages.get(id).unwrap_or(SILENCE);
        Cell {
            platform: self.platform.row(id),
            broker: self.broker.row(id),
            out: messages.out,
            travelling: messages.travelling,
        }
    }

    // The entry for the messages comes first, so that a refusal leaves every cell and no later event
    // of the instance asks for memory.
    #[tactic(auto, using(osb_message::proofs::Maps::row_steps))]
    fn create(
        &mut self,
        id: InstanceId,
        service: ServiceId,
        plan: PlanId,
        accepts: bool,
    ) -> Result<Step, Memory>
        requires sound { IsSound self.old }
        ensures cells { OnOk result
            (IsStepOf self.old self.new id (Event.Create id service plan accepts)) }
        ensures placed { IsPlaced self.new }
        ensures step { IfOk result (λ step. step ≡
            step_of (applies (cell_at self.old id) (Event.Create id service plan accepts))) }
        ensures err { OnErr result (IsSame self.old self.new) }
        ensures no_memory { takes_memory (catalogue_of self.old) (cell_at self.old id)
            (Event.Create id service plan accepts) ≡ false → IsOk result }
    {
        if self.platform.row(id).is_some() {
            return Ok(Step::Skipped);
        }
        self.messages.insert(id, SILENCE)?;
        let request = match self.platform.create(id, service, plan, accepts) {
            Ok(request) => request,
            Err(CreateFault::Memory) => return Err(Memory),
            Err(CreateFault::IdUsed) => unreachable!(),
        };
        let messages = Messages {
            out: Some(request),
            travelling: None,
        };
        self.messages.replace(id, messages);
        Ok(Step::Applied)
    }

    #[tactic(auto, using(osb_message::proofs::Maps::row_steps))]
    fn remove(&mut self, id: InstanceId) -> Step
        requires sound { IsSound self.old }
        ensures cells { IsStepOf self.old self.new id (Event.Remove id) }
        ensures placed { IsPlaced self.new }
        ensures step { result ≡ step_of (applies (cell_at self.old id) (Event.Remove id)) }
    {
        match self.platform.remove(id) {
            Ok(()) => Step::Applied,
            Err(_) => Step::Skipped,
        }
    }

    #[tactic(auto, using(osb_message::proofs::Maps::row_steps))]
    fn send(&mut self, id: InstanceId) -> Step
        requires sound { IsSound self.old }
        ensures cells { IsStepOf self.old self.new id (Event.Send id) }
        ensures placed { IsPlaced self.new }
        ensures step { result ≡ step_of (applies (cell_at self.old id) (Event.Send id)) }
    {
        let Ok(request) = self.platform.send(id) else {
            return Step::Skipped;
        };
        let messages = Messages {
            out: Some(request),
            travelling: None,
        };
        self.messages.replace(id, messages);
        Step::Applied
    }

    #[tactic(auto, using(osb_message::proofs::Maps::row_steps))]
    fn deliver(&mut self, id: InstanceId, outcome: Outcome) -> Result<Step, Memory>
        requires sound { IsSound self.old }
        ensures cells { OnOk result (IsStepOf self.old self.new id (Event.Deliver id outcome)) }
        ensures placed { IsPlaced self.new }
        ensures step { IfOk result (λ step. step ≡
            step_of (applies (cell_at self.old id) (Event.Deliver id outcome))) }
        ensures err { OnErr result (IsSame self.old self.new) }
        ensures no_memory { takes_memory (catalogue_of self.old) (cell_at self.old id)
            (Event.Deliver id outcome) ≡ false → IsOk result }
    {
        let Some(messages) = self.messages.get(id) else {
            return Ok(Step::Skipped);
        };
        let Some(request) = messages.out else {
            return Ok(Step::Skipped);
        };
        let answer = self.broker.handle(&request, outcome)?;
        let delivered = Messages {
            out: Some(request),
            travelling: Some(answer),
        };
        self.messages.replace(id, delivered);
        Ok(Step::Applied)
    }

    #[tactic(auto, using(osb_message::proofs::Maps::row_steps))]
    fn repeat(&mut self, id: InstanceId, outcome: Outcome) -> Result<Step, Memory>
        requires sound { IsSound self.old }
        ensures cells { OnOk result (IsStepOf self.old self.new id (Event.Repeat id outcome)) }
        ensures placed { IsPlaced self.new }
        ensures step { IfOk result (λ step. step ≡
            step_of (applies (cell_at self.old id) (Event.Repeat id outcome))) }
        ensures err { OnErr result (IsSame self.old self.new) }
        ensures no_memory { takes_memory (catalogue_of self.old) (cell_at self.old id)
            (Event.Repeat id outcome) ≡ false → IsOk result }
    {
        let Some(messages) = self.messages.get(id) else {
            return Ok(Step::Skipped);
        };
        if messages.travelling.is_none() {
            return Ok(Step::Skipped);
        }
        let Some(request) = messages.out else {
            unreachable!()
        };
        let _ = self.broker.handle(&request, outcome)?;
        Ok(Step::Applied)
    }

    #[tactic(auto, using(osb_message::proofs::Maps::row_steps))]
    fn lose(&mut self, id: InstanceId) -> Step
        requires sound { IsSound self.old }
        ensures cells { IsStepOf self.old self.new id (Event.Lose id) }
        ensures placed { IsPlaced self.new }
        ensures step { result ≡ step_of (applies (cell_at self.old id) (Event.Lose id)) }
    {
        let Some(messages) = self.messages.get(id) else {
            return Step::Skipped;
        };
        if messages.travelling.is_none() {
            return Step::Skipped;
        }
        let lost = Messages {
            out: messages.out,
            travelling: None,
        };
        self.messages.replace(id, lost);
        Step::Applied
    }

    #[tactic(auto, using(osb_message::proofs::Maps::row_steps))]
    fn garble(&mut self, id: InstanceId) -> Step
        requires sound { IsSound self.old }
        ensures cells { IsStepOf self.old self.new id (Event.Garble id) }
        ensures placed { IsPlaced self.new }
        ensures step { result ≡ step_of (applies (cell_at self.old id) (Event.Garble id)) }
    {
        let Some(messages) = self.messages.get(id) else {
            return Step::Skipped;
        };
        let Some(answer) = messages.travelling else {
            return Step::Skipped;
        };
        let garbled = Messages {
            out: messages.out,
            travelling: Some(Answer {
                status: answer.status,
                body: Body::Malformed,
            }),
        };
        self.messages.replace(id, garbled);
        Step::Applied
    }

    #[tactic(auto, using(osb_message::proofs::Maps::row_steps))]
    fn gateway(&mut self, id: InstanceId, status: u16) -> Step
        requires sound { IsSound self.old }
        ensures cells { IsStepOf self.old self.new id (Event.Gateway id status) }
        ensures placed { IsPlaced self.new }
        ensures step { result ≡ step_of (applies (cell_at self.old id) (Event.Gateway id status)) }
    {
        let Some(messages) = self.messages.get(id) else {
            return Step::Skipped;
        };
        if messages.out.is_none() || status < 500 || status > 599 {
            return Step::Skipped;
        }
        let answered = Messages {
            out: messages.out,
            travelling: Some(Answer {
                status,
                body: Body::Malformed,
            }),
        };
        self.messages.replace(id, answered);
        Step::Applied
    }

    #[tactic(auto, using(osb_message::proofs::Maps::row_steps))]
    fn answer(&mut self, id: InstanceId) -> Step
        requires sound { IsSound self.old }
        ensures cells { IsStepOf self.old self.new id (Event.Answer id) }
        ensures placed { IsPlaced self.new }
        ensures step { result ≡ step_of (applies (cell_at self.old id) (Event.Answer id)) }
    {
        let Some(messages) = self.messages.get(id) else {
            return Step::Skipped;
        };
        let Some(answer) = messages.travelling else {
            return Step::Skipped;
        };
        let Ok(()) = self.platform.answer(id, answer) else {
            unreachable!()
        };
        self.messages.replace(id, SILENCE);
        Step::Applied
    }

    #[tactic(auto, using(osb_message::proofs::Maps::row_steps))]
    fn timeout(&mut self, id: InstanceId) -> Step
        requires sound { IsSound self.old }
        ensures cells { IsStepOf self.old self.new id (Event.Timeout id) }
        ensures placed { IsPlaced self.new }
        ensures step { result ≡ step_of (applies (cell_at self.old id) (Event.Timeout id)) }
    {
        let Ok(()) = self.platform.timeout(id) else {
            return Step::Skipped;
        };
        self.messages.replace(id, SILENCE);
        Step::Applied
    }

    #[tactic(auto, using(osb_message::proofs::Maps::row_steps))]
    fn expire(&mut self, id: InstanceId) -> Step
        requires sound { IsSound self.old }
        ensures cells { IsStepOf self.old self.new id (Event.Expire id) }
        ensures placed { IsPlaced self.new }
        ensures step { result ≡ step_of (applies (cell_at self.old id) (Event.Expire id)) }
    {
        match self.platform.expire(id) {
            Ok(()) => Step::Applied,
            Err(_) => Step::Skipped,
        }
    }

    #[tactic(auto, using(osb_message::proofs::Maps::row_steps))]
    fn finish(&mut self, id: InstanceId, ok: bool) -> Step
        requires sound { IsSound self.old }
        ensures cells { IsStepOf self.old self.new id (Event.Finish id ok) }
        ensures placed { IsPlaced self.new }
        ensures step { result ≡ step_of (applies (cell_at self.old id) (Event.Finish id ok)) }
    {
        match self.broker.finish(id, ok) {
            Ok(()) => Step::Applied,
            Err(_) => Step::Skipped,
        }
    }

    // A refusal comes before anything has changed.
    #[tactic(auto, using(osb_message::proofs::Maps::row_steps))]
    fn restart(&mut self, alloc: Global) -> Result<Step, Memory>
        requires sound { IsSound self.old }
        ensures cells { OnOk result ((id : ℕ) → cell_at self.new id
            ≡ cell_step (catalogue_of self.old) (cell_at self.old id) Event.Restart) }
        ensures catalogue { catalogue_of self.new ≡ catalogue_of self.old }
        ensures placed { IsPlaced self.new }
        ensures step { IfOk result (λ step. step ≡ Step.Applied) }
        ensures err { OnErr result (self.new ≡ self.old) }
    {
        let Ok(saved) = self.platform.save(alloc) else {
            return Err(Memory);
        };
        let loaded = match Platform::load(alloc, saved.as_str()) {
            Ok(loaded) => loaded,
            Err(LoadFault::Memory) => return Err(Memory),
            // The record that `save` gives has no other fault.
            Err(_) => unreachable!(),
        };
        self.platform = loaded;
        self.messages.silence_all();
        Ok(Step::Applied)
    }

    pub(crate) fn step(&mut self, alloc: Global, event: Event) -> Result<Step, Memory>
        requires sound { IsSound self.old }
        ensures cells { OnOk result ((id : ℕ) →
            cell_at self.new id ≡ next_cell (catalogue_of self.old) id (cell_at self.old id) event) }
        ensures catalogue { catalogue_of self.new ≡ catalogue_of self.old }
        ensures placed { IsPlaced self.new }
        ensures step { IfOk result (λ step. step ≡ step_of (applies_at (cell_at self.old) event)) }
        ensures err { OnErr result (IsSame self.old self.new) }
        ensures no_memory { takes_memory_at (catalogue_of self.old) (cell_at self.old) event ≡ false
            → IsOk result }
    {
        match event {
            Event::Create {
                id,
                service,
                plan,
                accepts,
            } => self.create(id, service, plan, accepts),
            Event::Remove { id } => Ok(self.remove(id)),
            Event::Send { id } => Ok(self.send(id)),
            Event::Deliver { id, outcome } => self.deliver(id, outcome),
            Event::Repeat { id, outcome } => self.repeat(id, outcome),
            Event::Lose { id } => Ok(self.lose(id)),
            Event::Garble { id } => Ok(self.garble(id)),
            Event::Gateway { id, status } => Ok(self.gateway(id, status)),
            Event::Answer { id } => Ok(self.answer(id)),
            Event::Timeout { id } => Ok(self.timeout(id)),
            Event::Expire { id } => Ok(self.expire(id)),
            Event::Finish { id, ok } => Ok(self.finish(id, ok)),
            Event::Restart => self.restart(alloc),
        }
    }

    // A fault-free round of an instance. After the Timeout no Provision is out, and no other request
    // makes a broker's row: so the delivery doesn't run out of memory.
    pub(crate) fn round(&mut self, id: InstanceId)
        requires sound { IsSound self.old }
        ensures here { cell_at self.new id ≡ after_round (catalogue_of self.old) id (cell_at self.old id) }
        ensures others { (other : ℕ) → other ≢ id → cell_at self.new other ≡ cell_at self.old other }
        ensures catalogue { catalogue_of self.new ≡ catalogue_of self.old }
        ensures sound { IsSound self.new }
    {
        self.timeout(id);
        self.finish(id, true);
        self.send(id);
        let Ok(_) = self.deliver(id, Outcome::Done) else {
            unreachable!()
        };
        self.answer(id);
    }

    // Three fault-free rounds of an instance.
    pub(crate) fn settle(&mut self, id: InstanceId)
        requires sound { IsSound self.old }
        ensures cell { cell_at self.new id ≡ settled_cell (catalogue_of self.old) id (cell_at self.old id) }
        ensures others { (other : ℕ) → other ≢ id → cell_at self.new other ≡ cell_at self.old other }
        ensures catalogue { catalogue_of self.new ≡ catalogue_of self.old }
        ensures sound { IsSound self.new }
    {
        self.round(id);
        self.round(id);
        self.round(id);
    }
}

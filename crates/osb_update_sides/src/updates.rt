//! The updates of one instance, and all that can happen to them.
ghost use Rattle.std.specs.Prelude.{◌≡◌, Ok, IfOk, IsOk, OnOk, OnErr, true, false};
ghost use Rattle.osb_network.specs.Steps.{step_of};
ghost use Rattle.osb_network.specs.declared.step.Step.{Step};
ghost use Rattle.osb_update_sides.specs.Agreement.{is_of_update, AgreesOnSettings};
ghost use Rattle.osb_update_sides.specs.Cell.{no_updates};
ghost use Rattle.osb_update_sides.specs.Possible.{IsPossible};
ghost use Rattle.osb_update_sides.specs.Rounds.{OneRoundSettles, TwoRoundsSettle};
ghost use Rattle.osb_update_sides.specs.Steps.{takes_memory, updates_applies, updates_step, updates_steps};

use crate::parts::Parts;
use crate::{Life, UpdateAsked, UpdateGiven, UpdatesEvent};
use osb_message::{Memory, ServiceId};
use osb_network::Step;
use osb_update::{Settings, UpdateHolding, UpdateRecord};
use std::alloc::Global;
use std::marker::Model;

/// The updates of one instance: what the platform records and the broker holds of them, the settings of the resource,
/// every request ever sent and every answer ever given; and what is seen of the instance itself (this project's choice,
/// and so are its calls).
///
/// Contracts see its cell, which can come about (`IsPossible`). So both sides and the resource agree on the settings,
/// whatever has happened, in the sense of the [crate](crate)'s first page.
#[derive(Drop)]
pub struct Updates {
    parts: Parts,
}

impl Model for Updates {
    ghost use Rattle.osb_update_sides.specs.Cell.{UpdatesCell};
    ghost use Rattle.osb_update_sides.specs.Possible.{IsPossible};

    ghost Value = { UpdatesCell };

    ghost view = { λ u. u.parts };

    ghost invariant = { λ u. IsPossible u.parts };
}

impl Updates {
    /// The updates of an instance that nothing has happened to, with the settings of its Provision. It keeps the
    /// allocator for what is sent and answered, and takes no memory.
    pub fn new(alloc: Global, service: ServiceId, settings: &Settings) -> Self
        ensures empty { result ≡ no_updates service settings.now }
    {
        Updates {
            parts: Parts::new(alloc, service, settings),
        }
    }

    /// Lets an event happen: [`Step::Applied`] exactly if it applies, and the updates are then one step further.
    /// [`Step::Skipped`] has changed nothing.
    ///
    /// # Errors
    ///
    /// [`Memory`] if an allocation failed. Only these events ask for memory: an Update, a Send and a Fetch that apply,
    /// an Arrive and a PutOff of a request that was sent, and an End that applies, if its Update is to be answered. The
    /// updates are then as before.
    pub fn step(&mut self, event: &UpdatesEvent) -> Result<Step, Memory>
        ensures cell { OnOk result (self.new ≡ updates_step self.old event.now) }
        ensures applied { IfOk result (λ s. s ≡ step_of (updates_applies self.old event.now)) }
        ensures skipped { result ≡ Ok Step.Skipped → self.new ≡ self.old }
        ensures err { OnErr result (self.new ≡ self.old) }
        ensures no_memory { takes_memory self.old event.now ≡ false → IsOk result }
        ensures agrees { AgreesOnSettings self.new }
        ensures service { self.new.service ≡ self.old.service }
        ensures life { is_of_update event.now ≡ true → self.new.life ≡ self.old.life }
    {
        self.parts.step(event)
    }

    /// What is seen of the instance itself. It takes no memory.
    pub fn life(&self) -> Life
        ensures life { result ≡ self.now.life }
    {
        self.parts.life
    }

    /// What the platform records. It takes no memory.
    pub fn recorded(&self) -> UpdateRecord
        ensures recorded { result ≡ self.now.recorded }
    {
        self.parts.recorded
    }

    /// What the broker holds. It takes no memory.
    pub fn held(&self) -> UpdateHolding
        ensures held { result ≡ self.now.held }
    {
        self.parts.held
    }

    /// The settings of the resource, or none while they are between. It takes no memory.
    pub fn settings(&self) -> Option<Settings>
        ensures settings { result ≡ self.now.settings }
    {
        self.parts.settings
    }

    /// Every request ever sent, in their order. It takes no memory.
    pub fn sent(&self) -> &[UpdateAsked]
        ensures sent { result.now ≡ self.now.sent }
    {
        self.parts.sent.as_slice()
    }

    /// Every answer ever given, in their order. It takes no memory.
    pub fn given(&self) -> &[UpdateGiven]
        ensures given { result.now ≡ self.now.given }
    {
        self.parts.given.as_slice()
    }

    /// Does nothing: its contract is that the cell can come about, and that both sides and the resource agree on the
    /// settings. It takes no memory.
    pub fn agreement(&self)
        ensures possible { IsPossible self.now }
        ensures agrees { AgreesOnSettings self.now }
    {
        let _ = &self.parts;
    }

    /// Does nothing: its contract is that two rounds without a fault settle the updates of an instance that is recorded
    /// `ready`, whatever has happened (`TwoRoundsSettle`, in `specs/Rounds.antt`). The record is then settled, or
    /// somebody has to choose settings, and no request is out. In a round, the request that is out times out, what is
    /// under way goes well, and the request that is due is sent, done and answered. Two numbers of requests have to be
    /// left. If no Update is due, one round is enough, and one number (`OneRoundSettles`). It takes no memory.
    pub fn rounds(&self)
        ensures always { TwoRoundsSettle }
        ensures one { OneRoundSettles }
    {
        let _ = &self.parts;
    }
}

/// New updates, stepped through the events: whatever they are, and in whatever order, both sides and the resource agree
/// on the settings then (this project's choice). `alloc` is for what is sent and answered.
///
/// # Errors
///
/// [`Memory`] at the first step at which an allocation failed.
pub fn run(
    alloc: Global,
    service: ServiceId,
    settings: &Settings,
    events: &[UpdatesEvent],
) -> Result<Updates, Memory>
    ensures cell { IfOk result (λ updates. updates ≡ updates_steps (no_updates service settings.now) events.now) }
    ensures agrees { IfOk result (λ updates. AgreesOnSettings updates) }
    ensures always { AgreesOnSettings (updates_steps (no_updates service settings.now) events.now) }
{
    let mut updates = Updates::new(alloc, service, settings);
    for event in events {
        updates.step(event)?;
    }
    updates.agreement();
    Ok(updates)
}

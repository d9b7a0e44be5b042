//! A broker alone whose instance can be updated, and any platform.
ghost use Rattle.std.specs.Prelude.{◌≡◌, true};
ghost use Rattle.osb_network.specs.AnyPlatform.{StaysGone};
ghost use Rattle.osb_network.specs.Steps.{step_of};
ghost use Rattle.osb_network.specs.declared.step.Step.{Step};
ghost use Rattle.osb_update_network.specs.AnyPlatform as spec;
ghost use Rattle.osb_update_network.specs.AnyPlatform.{updated_applies, updated_empty, updated_step, updated_steps};
ghost use Rattle.osb_update_network.specs.Promises.{is_of_update, AnswersInPlace, IsPromised, IsStepOf, KeepsRuleD, RejectsTruly, StaysReported};

use crate::parts::{Parts, Terms};
use crate::{Reported, UpdateEvent};
use osb_message::{Catalogue, Mode};
use osb_network::{AnyPlatform as AnyInstance, Step};
use osb_update::{Settings, UpdateHolding};
use std::alloc::Global;
use std::marker::Model;

/// One instance that can be updated at a broker, and any platform: the instance as `osb_network` has it, what the broker
/// holds of its updates, the settings that the resource has, and what the broker has reported of them (this project's
/// choice, and so are its calls).
///
/// Whatever happens, the promises hold ([the crate](crate)'s first page).
#[derive(Drop)]
pub struct AnyPlatform {
    catalogue: Catalogue,
    first_poll: bool,
    parts: Parts,
}

impl Model for AnyPlatform {
    ghost use Rattle.std.specs.Prelude.{◌≡◌};
    ghost use Rattle.osb_update_network.specs.AnyPlatform.{UpdatedCell, updated_code};
    ghost use Rattle.osb_update_network.specs.Promises.{IsUpdated};

    ghost Value = { UpdatedCell };

    ghost coded = { updated_code };

    ghost view = { λ a. a.parts };

    ghost invariant = { λ a. (IsUpdated a.parts)
        × ((a.catalogue ≡ a.parts.instance.catalogue) × (a.first_poll ≡ a.parts.instance.first_poll)) };
}

impl AnyPlatform {
    /// An instance that nothing has happened to, at a broker that sells these plans, with the rule of the first Poll or
    /// without ([`Holding::begin`](osb_instance::Holding::begin)). `again` is the same catalogue once more. The settings
    /// count for nothing: a Provision brings its own. It takes no memory.
    pub fn new(
        catalogue: Catalogue,
        again: Catalogue,
        first_poll: bool,
        settings: &Settings,
    ) -> Self
        requires same { again ≡ catalogue }
        ensures empty { result ≡ updated_empty catalogue first_poll settings.now }
    {
        AnyPlatform {
            catalogue: again,
            first_poll,
            parts: Parts {
                instance: AnyInstance::new(catalogue, first_poll),
                change: UpdateHolding::new(*settings),
                settings: None,
                before: None,
                reported: Reported::nothing(),
            },
        }
    }

    // How the plan of a request works that comes or whose work ends.
    fn mode_for(&self, event: &UpdateEvent) -> Option<Mode>
        ensures mode { result ≡ spec.mode_for self.now event.now }
    {
        match event {
            UpdateEvent::Arrive { request, .. } => {
                self.catalogue.mode(request.service, request.plan)
            }
            UpdateEvent::End { .. } => {
                let request = self.parts.instance.holding().work()?;
                self.catalogue.mode(request.service, request.plan)
            }
            _ => None,
        }
    }

    /// Lets an event happen: [`Step::Applied`] exactly if it applies, and the instance is then one step further.
    /// [`Step::Skipped`] has changed nothing. It takes no memory.
    pub fn step(&mut self, alloc: Global, event: &UpdateEvent) -> Step
        ensures cell { self.new ≡ updated_step self.old event.now }
        ensures applied { result ≡ step_of (updated_applies self.old event.now) }
        ensures skipped { result ≡ Step.Skipped → self.new ≡ self.old }
        ensures promised { IsPromised self.new }
        ensures stays_reported { StaysReported self.old event.now }
        ensures rejected { RejectsTruly self.old event.now }
        ensures unchanged { is_of_update event.now ≡ true → self.new.instance ≡ self.old.instance }
        ensures one_event { IsStepOf self.old.instance self.new.instance }
        ensures stays_gone { StaysGone self.old.instance self.new.instance }
        ensures rule_d { KeepsRuleD self.old event.now }
        ensures in_place { AnswersInPlace self.old event.now }
    {
        let terms = Terms {
            mode: self.mode_for(event),
            first_poll: self.first_poll,
        };
        self.parts.step(alloc, terms, event)
    }

    /// The instance itself. It takes no memory.
    pub fn instance(&self) -> &AnyInstance
        ensures instance { result.now ≡ self.now.instance }
    {
        &self.parts.instance
    }

    /// What the broker holds of the updates. It takes no memory.
    pub fn change(&self) -> UpdateHolding
        ensures held { result ≡ self.now.change }
    {
        self.parts.change
    }

    /// The settings of the resource, or none while they are between. It takes no memory.
    pub fn settings(&self) -> Option<Settings>
        ensures settings { result ≡ self.now.settings }
    {
        self.parts.settings
    }

    /// What the broker has reported of the settings. It takes no memory.
    pub fn reported(&self) -> Reported
        ensures reported { result ≡ self.now.reported }
    {
        self.parts.reported
    }

    /// Does nothing: its contract is that the promises hold. It takes no memory.
    pub fn promised(&self)
        ensures promised { IsPromised self.now }
    {
        let _ = &self.parts;
    }
}

/// What becomes of an instance and its updates at a broker once these events have happened, one after another. For every
/// list of events the promises hold. `again` and `settings` are as at [`AnyPlatform::new`] (this project's choice). It
/// takes no memory.
pub fn run_any(
    alloc: Global,
    catalogue: Catalogue,
    again: Catalogue,
    first_poll: bool,
    settings: &Settings,
    events: &[UpdateEvent],
) -> AnyPlatform
    requires same { again ≡ catalogue }
    ensures cell { result ≡ updated_steps (updated_empty catalogue first_poll settings.now) events.now }
    ensures always { IsPromised (updated_steps (updated_empty catalogue first_poll settings.now) events.now) }
{
    let mut any = AnyPlatform::new(catalogue, again, first_poll, settings);
    for event in events {
        any.step(alloc, event);
    }
    any
}

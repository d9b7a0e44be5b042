//! An instance with its bindings and its updates.
ghost use Rattle.std.specs.Prelude.{◌≡◌, true, false, Ok, IfOk, IsOk, OnOk, OnErr, ℕ};
ghost use Rattle.std.specs.FinMap as finite;
ghost use Rattle.osb_network.specs.Steps.{step_of};
ghost use Rattle.osb_network.specs.declared.step.Step.{Step};
ghost use Rattle.osb_update.specs.Begun.{is_available};
ghost use Rattle.osb_update_service.specs.Agreement.{UpdatedAgrees};
ghost use Rattle.osb_update_service.specs.Steps as spec;
ghost use Rattle.osb_update_service.specs.Steps.{AreUpdated, IsUpdatedStep};
ghost use Rattle.osb_update_service.specs.Tied.{life_of, new_updated, IsTied};
ghost use Rattle.osb_update_service.specs.declared.event.UpdatedEvent.{UpdatedEvent};
ghost use Rattle.osb_update_sides.specs.Steps as step;

use crate::UpdatedEvent;
use crate::rules::{is_of_update, let_service, settings_then};
use osb_binding_network::{Rules, ServiceEvent, ServiceInstance};
use osb_message::Memory;
use osb_network::{Order, Step};
use osb_update::Settings;
use osb_update_sides::{Life, Updates, UpdatesEvent};
use std::alloc::Global;
use std::marker::Model;

/// An instance with its bindings, and its updates (this project's choice, and so are its calls).
///
/// Contracts see the cells of both. What the updates see of the instance is the instance itself: so the instance, its
/// bindings and its updates agree, whatever has happened.
#[derive(Drop)]
pub struct UpdatedInstance {
    service: ServiceInstance,
    updates: Updates,
}

impl Model for UpdatedInstance {
    ghost use Rattle.osb_update_service.specs.Tied.{IsTied, UpdatedCells, updated_code};

    ghost Value = { UpdatedCells };

    ghost coded = { updated_code };

    ghost view = { λ u. record { service = u.service; updates = u.updates } };

    ghost invariant = { λ u. IsTied u.service.instance u.updates };
}

// The updates see what the instance has become.
fn follow(updates: &mut Updates, service: &ServiceInstance, settings: &Option<Settings>)
    requires may { step.may_live updates.old (life_of service.now.instance)
        (spec.settings_then (is_available service.now.instance.held) updates.old.held.phase updates.old settings.now)
        ≡ true }
    ensures updates { updates.new ≡ spec.followed updates.old service.now.instance settings.now }
{
    let instance = service.instance();
    let life = Life {
        recorded: instance.record(),
        holding: instance.holding(),
    };
    let settings = settings_then(updates, life.is_available(), settings);
    let Ok(_) = updates.step(&UpdatesEvent::Live { life, settings }) else {
        unreachable!()
    };
}

impl UpdatedInstance {
    /// An instance that nothing has happened to, with no bindings, and with the settings of its Provision. It takes no
    /// memory.
    pub fn new(alloc: Global, rules: Rules, order: Order, settings: &Settings) -> Self
        ensures empty { result ≡ new_updated rules order settings.now }
    {
        let updates = Updates::new(alloc, order.service, settings);
        let service = ServiceInstance::new(alloc, rules, order);
        UpdatedInstance { service, updates }
    }

    /// The instance with its bindings. It takes no memory.
    pub fn service(&self) -> &ServiceInstance
        ensures service { result.now ≡ self.now.service }
    {
        &self.service
    }

    /// Its updates. It takes no memory.
    pub fn updates(&self) -> &Updates
        ensures updates { result.now ≡ self.now.updates }
    {
        &self.updates
    }

    // An event of the instance or of a binding, as the rules let it happen.
    fn step_service(
        &mut self,
        alloc: Global,
        event: ServiceEvent,
        settings: &Option<Settings>,
    ) -> Result<Step, Memory>
        ensures step { OnOk result (IsUpdatedStep self.old (UpdatedEvent.Service event settings.now) self.new) }
        ensures applied { IfOk result (λ s. s
            ≡ step_of (spec.updated_applies self.old (UpdatedEvent.Service event settings.now))) }
        ensures no_memory { spec.updated_takes_memory self.old (UpdatedEvent.Service event settings.now) ≡ false
            → IsOk result }
        ensures err { OnErr result ((self.new.service.instance ≡ self.old.service.instance)
            × (self.new.updates ≡ self.old.updates)) }
    {
        self.updates.agreement();
        self.service.instance().agreement();
        let Some(event) = let_service(&self.updates, self.service.instance(), event) else {
            return Ok(Step::Skipped);
        };
        let step = self.service.step(alloc, event)?;
        self.service.instance().agreement();
        follow(&mut self.updates, &self.service, settings);
        Ok(step)
    }

    // An event of the updates alone.
    fn step_updates(&mut self, event: &UpdatesEvent) -> Result<Step, Memory>
        ensures step { OnOk result (IsUpdatedStep self.old (UpdatedEvent.Update event.now) self.new) }
        ensures applied { IfOk result (λ s. s
            ≡ step_of (spec.updated_applies self.old (UpdatedEvent.Update event.now))) }
        ensures no_memory { spec.updated_takes_memory self.old (UpdatedEvent.Update event.now) ≡ false → IsOk result }
        ensures err { OnErr result ((self.new.service.instance ≡ self.old.service.instance)
            × (self.new.updates ≡ self.old.updates)) }
        ensures service { self.new.service ≡ self.old.service }
    {
        if !is_of_update(event) {
            return Ok(Step::Skipped);
        }
        self.updates.step(event)
    }

    /// Lets an event happen, as the rules let it: [`Step::Applied`] exactly if it applies, and else [`Step::Skipped`].
    ///
    /// # Errors
    ///
    /// [`Memory`] if an allocation failed. Only the events at which [`ServiceInstance::step`] or [`Updates::step`]
    /// takes memory ask for it. The instance and the updates are then as before.
    pub fn step(&mut self, alloc: Global, event: &UpdatedEvent) -> Result<Step, Memory>
        ensures step { OnOk result (IsUpdatedStep self.old event.now self.new) }
        ensures applied { IfOk result (λ s. s ≡ step_of (spec.updated_applies self.old event.now)) }
        ensures no_memory { spec.updated_takes_memory self.old event.now ≡ false → IsOk result }
        ensures err { OnErr result ((self.new.service.instance ≡ self.old.service.instance)
            × (self.new.updates ≡ self.old.updates)) }
        ensures agrees { UpdatedAgrees self.new }
    {
        let step = match event {
            UpdatedEvent::Service { event, settings } => {
                self.step_service(alloc, *event, settings)
            }
            UpdatedEvent::Update(event) => self.step_updates(event),
        };
        self.agreement();
        step
    }

    /// Does nothing: its contract is that the instance, its bindings and its updates agree. It takes no memory.
    pub fn agreement(&self)
        ensures agrees { UpdatedAgrees self.now }
    {
        self.service.agreement();
        self.updates.agreement();
    }
}

/// A new instance without bindings, stepped through the events one after the other (`AreUpdated`, in
/// `specs/Steps.antt`). Whatever they are, and in whatever order, the instance, its bindings and its updates agree
/// then, in the sense of the [crate](crate)'s first page (this project's choice). `settings` are those of its
/// Provision. `alloc` is for all that is written.
///
/// # Errors
///
/// [`Memory`] at the first step at which an allocation failed.
pub fn run(
    alloc: Global,
    rules: Rules,
    order: Order,
    settings: &Settings,
    events: &[UpdatedEvent],
) -> Result<UpdatedInstance, Memory>
    ensures cells { IfOk result (λ updated. AreUpdated (new_updated rules order settings.now) events.now updated) }
    ensures agrees { IfOk result (λ updated. UpdatedAgrees updated) }
{
    let mut updated = UpdatedInstance::new(alloc, rules, order, settings);
    for event in events {
        updated.step(alloc, event)?;
    }
    updated.agreement();
    Ok(updated)
}

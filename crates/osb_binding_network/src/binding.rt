//! A binding with its credentials.
ghost use Rattle.std.specs.Prelude.{◌≡◌, false, IfOk, IsOk, OnOk, OnErr};
ghost use Rattle.osb_network.specs.Agreement.{Agrees};
ghost use Rattle.osb_network.specs.Cell.{IsPossible};
ghost use Rattle.osb_network.specs.Removing.{removed_cell, removing_events, IsRemoved};
ghost use Rattle.osb_network.specs.Settling.{settled_cell, settling_events, HasNumbers, IsPartWay, IsSettled};
ghost use Rattle.osb_network.specs.Steps.{step_of};
ghost use Rattle.osb_binding_network.specs.Binding as spec;
ghost use Rattle.osb_binding_network.specs.Binding.{CredentialsAgree};
ghost use Rattle.osb_binding_network.specs.Happening.{binding_applies, binding_takes_memory};
ghost use Rattle.osb_binding_network.specs.Well.{IsWell};

use crate::BindingEvent;
use crate::allowed::Allowed;
use crate::binding_parts::BindingParts;
use osb_binding::{BindingHolding, BindingRecord};
use osb_message::Memory;
use osb_network::{Given, Instance, Order, Resource, Step};
use std::alloc::Global;
use std::marker::Model;

/// A binding: its life, and its credentials as numbers that the backend chooses, anew each time that the resource changes
/// (this project's choice).
///
/// The row that is `ready` keeps the credentials that the resource had when the row became so. The answer to a Bind
/// carries those of the row, and so does the answer to a Fetch. The platform records those of the answer that makes its
/// record `ready`.
#[derive(Drop)]
pub struct ServiceBinding {
    parts: BindingParts,
}

impl Model for ServiceBinding {
    ghost use Rattle.osb_binding_network.specs.Binding.{BindingCell};
    ghost use Rattle.osb_binding_network.specs.Well.{IsWell};

    ghost Value = { BindingCell };

    ghost view = { λ b. b.parts };

    ghost invariant = { λ b. IsWell b.parts };
}

impl ServiceBinding {
    // A binding that nothing has happened to.
    pub(crate) fn new(alloc: Global, order: Order, retrievable: bool) -> Self
        ensures empty { result ≡ spec.empty_binding order retrievable }
    {
        ServiceBinding {
            parts: BindingParts::new(alloc, order, retrievable),
        }
    }

    // Lets an event happen, as its instance lets it.
    pub(crate) fn step(
        &mut self,
        alloc: Global,
        allowed: Allowed,
        event: BindingEvent,
    ) -> Result<Step, Memory>
        ensures cell { OnOk result (self.new
            ≡ spec.binding_step allowed.create allowed.work allowed.ended self.old event) }
        ensures applied { IfOk result (λ s. s ≡ step_of (binding_applies
            allowed.create allowed.work allowed.ended self.old event)) }
        ensures err { OnErr result (self.new ≡ self.old) }
        ensures no_memory { binding_takes_memory allowed.create allowed.work self.old event ≡ false → IsOk result }
        ensures well { IsWell self.new }
    {
        self.parts.step(alloc, allowed, event)
    }

    // Three fault-free rounds.
    pub(crate) fn settle(&mut self, alloc: Global) -> Result<(), Memory>
        ensures life { OnOk result (self.new.life ≡ settled_cell self.old.life) }
        ensures err { OnErr result (IsPartWay settling_events self.old.life self.new.life) }
        ensures well { IsWell self.new }
        ensures forgotten { self.new.forgotten ≡ self.old.forgotten }
        ensures retrievable { self.new.retrievable ≡ self.old.retrievable }
        ensures settled { HasNumbers 3 self.old.life → OnOk result (IsSettled self.new.life) }
    {
        self.agreement();
        self.parts.rounds(alloc)
    }

    // Three removing rounds.
    pub(crate) fn remove(&mut self, alloc: Global) -> Result<(), Memory>
        ensures life { OnOk result (self.new.life ≡ removed_cell self.old.life) }
        ensures err { OnErr result (IsPartWay removing_events self.old.life self.new.life) }
        ensures well { IsWell self.new }
        ensures forgotten { self.new.forgotten ≡ self.old.forgotten }
        ensures retrievable { self.new.retrievable ≡ self.old.retrievable }
        ensures removed { HasNumbers 3 self.old.life → OnOk result (IsRemoved self.new.life) }
    {
        self.agreement();
        self.parts.removing_rounds(alloc)
    }

    // Its life.
    pub(crate) fn life(&self) -> &Instance
        ensures life { result.now ≡ self.now.life }
    {
        &self.parts.life
    }

    /// What the platform records, or none before the Create. It takes no memory.
    pub fn record(&self) -> Option<BindingRecord>
        ensures recorded { result ≡ self.now.life.recorded }
    {
        match self.parts.life.record() {
            None => None,
            Some(record) => Some(BindingRecord::of(record)),
        }
    }

    /// What the broker holds: nothing, once it has deleted the binding's tombstone. It takes no memory.
    pub fn holding(&self) -> BindingHolding
        ensures held { result ≡ spec.held_now self.now }
    {
        if self.parts.forgotten {
            BindingHolding::NONE
        } else {
            BindingHolding::of(self.parts.life.holding())
        }
    }

    /// What there is in the backend. It takes no memory.
    pub fn resource(&self) -> Resource
        ensures resource { result ≡ self.now.life.resource }
    {
        self.parts.life.resource()
    }

    /// Every answer ever given to a request of its life, in their order. It takes no memory.
    pub fn given(&self) -> &[Given]
        ensures given { result.now ≡ self.now.life.given }
    {
        self.parts.life.given()
    }

    /// The credentials that the resource in the backend has. They mean something only while there is one. It takes no
    /// memory.
    pub fn credentials(&self) -> u64
        ensures credentials { result ≡ self.now.resource }
    {
        self.parts.resource
    }

    /// The credentials that the platform records. They mean something only while it records `ready`. It takes no memory.
    pub fn recorded_credentials(&self) -> u64
        ensures recorded { result ≡ self.now.recorded }
    {
        self.parts.recorded
    }

    /// Does nothing: its contract is that platform, broker and backend agree on the binding, on its credentials too. It
    /// takes no memory.
    pub fn agreement(&self)
        ensures possible { IsPossible self.now.life }
        ensures agrees { Agrees self.now.life }
        ensures credentials { CredentialsAgree self.now }
        ensures well { IsWell self.now }
    {
        self.parts.life.agreement();
    }
}

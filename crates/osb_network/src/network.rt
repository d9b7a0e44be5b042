//! Many instances.
ghost use Rattle.std.specs.Prelude.{◌≡◌, ◌≢◌, ℕ, Some, None, Ok, false, IfOk, IfSome, IsOk, IsSome, OnOk, OnErr, is_none};
ghost use Rattle.std.specs.Prelude.{option_copied};
ghost use Rattle.std.specs.FinMap as finite;
ghost use Rattle.std.specs.BTreeMap as tree;
ghost use Rattle.std.specs.Ordering.{nat_cmp};
ghost use Rattle.osb_network.specs.Agreement.{Agrees};
ghost use Rattle.osb_network.specs.Cell.{empty_cell};
ghost use Rattle.osb_network.specs.Many.{applies_to, asks_memory, stepped_by, stepped_through, ArePartWay};
ghost use Rattle.osb_network.specs.Steps.{step_of};

use crate::{Event, Instance, InstanceEvent, Order, Step};
use osb_message::{InstanceId, Memory};
use std::alloc::Global;
use std::collections::BTreeMap;
use std::marker::Model;

/// Many instances, each by itself (this project's choice, and so are its calls).
///
/// Contracts see a finite map from ids to the cells of the instances.
#[derive(Drop)]
pub struct Network {
    instances: BTreeMap<InstanceId, Instance>,
}

impl Model for Network {
    ghost use Rattle.std.specs.FinMap as map;
    ghost use Rattle.std.specs.Ordering.{nat_cmp};
    ghost use Rattle.std.specs.Coded.{coded_ℕ};
    ghost use Rattle.osb_network.specs.Cell.{Cell};
    ghost use Rattle.osb_network.specs.contracts.instance.Instance as one;

    ghost Value = { map.FinMap nat_cmp Cell };

    ghost coded = { map.code coded_ℕ one.the_row.coded };

    ghost view = { λ n. map.from_entries n.instances.entries };
}

// Steps the instance at a key, if there is one.
fn step_at(
    instances: &mut BTreeMap<InstanceId, Instance>,
    alloc: Global,
    id: InstanceId,
    event: Event,
) -> Result<Step, Memory>
    ensures here { OnOk result
        (tree.get nat_cmp instances.new id ≡ stepped_by event (tree.get nat_cmp instances.old id)) }
    ensures others { (other : ℕ) → other ≢ id
        → tree.get nat_cmp instances.new other ≡ tree.get nat_cmp instances.old other }
    ensures applied { IfOk result (λ s.
        s ≡ step_of (applies_to event (tree.get nat_cmp instances.old id))) }
    ensures skipped { result ≡ Ok Step.Skipped
        → tree.get nat_cmp instances.new id ≡ tree.get nat_cmp instances.old id }
    ensures err { OnErr result (tree.get nat_cmp instances.new id ≡ tree.get nat_cmp instances.old id) }
    ensures no_memory { asks_memory event (tree.get nat_cmp instances.old id) ≡ false → IsOk result }
{
    let Some(instance) = instances.get_mut(&id) else {
        return Ok(Step::Skipped);
    };
    instance.step(alloc, event)
}

#[tactic(auto, using(osb_message::proofs::Maps::tree_steps))]
impl Network {
    /// No instances. It keeps the allocator for later ones, and takes no memory.
    pub fn new(alloc: Global) -> Self
        ensures empty { result ≡ finite.empty }
    {
        Network {
            instances: BTreeMap::new(alloc),
        }
    }

    /// Takes an instance in to which nothing has happened yet: [`Step::Applied`]. Where there is one with the order's
    /// id, nothing changes: [`Step::Skipped`]. The instance keeps `alloc` for what is sent and answered.
    ///
    /// # Errors
    ///
    /// [`Memory`] where an allocation failed, which only an instance more asks for. Nothing has changed then.
    pub fn order(&mut self, alloc: Global, order: Order) -> Result<Step, Memory>
        ensures taken_in { finite.get self.old order.id ≡ None
            → OnOk result (finite.get self.new order.id ≡ Some (empty_cell order)) }
        ensures known { IsSome (finite.get self.old order.id)
            → (result ≡ Ok Step.Skipped) × (finite.get self.new order.id ≡ finite.get self.old order.id) }
        ensures word { IfOk result (λ s. s ≡ step_of (is_none (finite.get self.old order.id))) }
        ensures others { (other : ℕ) → other ≢ order.id
            → finite.get self.new other ≡ finite.get self.old other }
        ensures err { OnErr result (finite.get self.new order.id ≡ finite.get self.old order.id) }
    {
        if self.instances.get(&order.id).is_some() {
            return Ok(Step::Skipped);
        }
        let Ok(_) = self.instances.insert(order.id, Instance::new(alloc, order)) else {
            return Err(Memory);
        };
        Ok(Step::Applied)
    }

    /// The instance with the id, or none. Both sides and the backend agree on it, in the sense of the
    /// [crate](crate)'s first page. It takes no memory.
    pub fn instance(&self, id: InstanceId) -> Option<&Instance>
        ensures found { option_copied result ≡ finite.get self.now id }
        ensures agrees { IfSome result (λ instance. Agrees instance.now) }
    {
        let instance = self.instances.get(&id)?;
        instance.agreement();
        Some(instance)
    }

    /// Lets an event of one instance happen: [`Instance::step`]. Every other instance is as before. Where there is
    /// none with the id, nothing changes: [`Step::Skipped`]. `alloc` is for the texts of a crash.
    ///
    /// # Errors
    ///
    /// [`Memory`] where an allocation failed, as at [`Instance::step`]. Every instance is then as before.
    pub fn step(&mut self, alloc: Global, id: InstanceId, event: Event) -> Result<Step, Memory>
        ensures here { OnOk result
            (finite.get self.new id ≡ stepped_by event (finite.get self.old id)) }
        ensures others { (other : ℕ) → other ≢ id → finite.get self.new other ≡ finite.get self.old other }
        ensures applied { IfOk result (λ s. s ≡ step_of (applies_to event (finite.get self.old id))) }
        ensures skipped { result ≡ Ok Step.Skipped → finite.get self.new id ≡ finite.get self.old id }
        ensures err { OnErr result (finite.get self.new id ≡ finite.get self.old id) }
        ensures no_memory { asks_memory event (finite.get self.old id) ≡ false → IsOk result }
    {
        step_at(&mut self.instances, alloc, id, event)
    }

    /// Lets a list of events happen, each to its instance, one after the other.
    ///
    /// Each instance is then where its own events alone lead it, whatever stands between them: instances are
    /// independent. So any number of processes may serve them from one database, each instance by one at a time, and a
    /// log of many may be read instance by instance. `alloc` is for the texts of crashes.
    ///
    /// # Errors
    ///
    /// [`Memory`] at the first event where an allocation failed. The events before it have happened then, and none
    /// after them: each instance is where its own events among these lead it. The call doesn't say how many these are.
    /// If you need the number, let the events happen one by one, by [`Network::step`].
    pub fn steps(&mut self, alloc: Global, events: &[InstanceEvent]) -> Result<(), Memory>
        ensures cells { OnOk result ((id : ℕ) →
            finite.get self.new id ≡ stepped_through id events.now (finite.get self.old id)) }
        ensures err { OnErr result (ArePartWay events.now (finite.get self.old) (finite.get self.new)) }
    {
        for named in events {
            self.step(alloc, named.id, named.event)?;
        }
        Ok(())
    }
}

//! The instances that were taken in, each with its bindings.
ghost use Rattle.std.specs.Prelude.{◌≡◌, ◌≢◌, ℕ, false, IfOk, IsOk, OnErr, OnOk, IfSome, None, option_copied, option_map};
ghost use Rattle.std.specs.Prelude.{is_none};
ghost use Rattle.std.specs.BTreeMap as tree;
ghost use Rattle.std.specs.FinMap as finite;
ghost use Rattle.std.specs.Ordering.{nat_cmp};
ghost use Rattle.osb_binding_network.specs.Agreement.{ServiceAgrees};
ghost use Rattle.osb_binding_network.specs.Happening.{service_applies, service_takes_memory};
ghost use Rattle.osb_network.specs.Steps.{step_of};
ghost use Rattle.osb_network_run.specs.Network as spec;
ghost use Rattle.osb_network_run.specs.Settling.{SettlesEach, SettlesPartly};

use crate::settling::{ids_of, settle_each};
use osb_binding_network::{Rules, ServiceEvent, ServiceInstance};
use osb_message::{InstanceId, Memory};
use osb_network::{Order, Step};
use osb_network_language::NetworkEvent;
use std::alloc::Global;
use std::collections::BTreeMap;
use std::collections::btree_map::Iter;
use std::marker::Model;

/// The instances that were taken in, each by its id and with its bindings (this project's choice).
///
/// Contracts see a finite map from ids to an instance's cells and those of its bindings.
#[derive(Drop)]
pub struct Network {
    services: BTreeMap<InstanceId, ServiceInstance>,
}

impl Model for Network {
    ghost use Rattle.std.specs.Coded.{coded_ℕ};
    ghost use Rattle.std.specs.FinMap as map;
    ghost use Rattle.std.specs.Ordering.{nat_cmp};
    ghost use Rattle.osb_binding_network.specs.Service.{ServiceCells};
    ghost use Rattle.osb_binding_network.specs.contracts.service.ServiceInstance as service;

    ghost Value = { map.FinMap nat_cmp ServiceCells };

    ghost coded = { map.code coded_ℕ service.the_row.coded };

    ghost view = { λ n. map.from_entries n.services.entries };
}

// Lets an event happen to an instance or to one of its bindings.
fn step_service(
    service: &mut ServiceInstance,
    alloc: Global,
    event: ServiceEvent,
) -> Result<Step, Memory>
    ensures service { OnOk result (service.new ≡ spec.service_by service.old event) }
    ensures applied { IfOk result (λ s. s ≡ step_of (service_applies service.old event)) }
    ensures err { OnErr result (service.new ≡ service.old) }
    ensures no_memory { service_takes_memory service.old event ≡ false → IsOk result }
{
    service.step(alloc, event)
}

// Lets an event happen to the instance at a key, if there is one.
fn step_at(
    services: &mut BTreeMap<InstanceId, ServiceInstance>,
    alloc: Global,
    id: InstanceId,
    event: ServiceEvent,
) -> Result<Step, Memory>
    ensures here { OnOk result (tree.get nat_cmp services.new id
        ≡ option_map (λ s. spec.service_by s event) (tree.get nat_cmp services.old id)) }
    ensures others { (other : ℕ) → other ≢ id
        → tree.get nat_cmp services.new other ≡ tree.get nat_cmp services.old other }
    ensures applied { IfOk result (λ s. s ≡ step_of (spec.some_applies (tree.get nat_cmp services.old id) event)) }
    ensures err { OnErr result (tree.get nat_cmp services.new id ≡ tree.get nat_cmp services.old id) }
    ensures no_memory { spec.some_takes_memory (tree.get nat_cmp services.old id) event ≡ false → IsOk result }
{
    let Some(service) = services.get_mut(&id) else {
        return Ok(Step::Skipped);
    };
    step_service(service, alloc, event)
}

// The instances, in ascending order of their keys.
fn entries_of(
    services: &BTreeMap<InstanceId, ServiceInstance>,
) -> Iter<'_, InstanceId, ServiceInstance>
    ensures entries { result ≡ services.now.entries }
    ensures ordered { tree.IsOrdered nat_cmp services.now }
{
    services.iter()
}

#[tactic(auto, using(osb_message::proofs::Maps::tree_steps))]
impl Network {
    /// A network without instances. It takes no memory.
    pub fn new(alloc: Global) -> Network
        ensures empty { result ≡ finite.empty }
    {
        Network {
            services: BTreeMap::new(alloc),
        }
    }

    /// The instance with the id, with its bindings, or none if it wasn't taken in. It takes no memory.
    pub fn get(&self, id: InstanceId) -> Option<&ServiceInstance>
        ensures found { option_copied result ≡ finite.get self.now id }
        ensures agrees { IfSome result (λ service. ServiceAgrees service.now) }
    {
        let service = self.services.get(&id)?;
        service.agreement();
        Some(service)
    }

    /// The instances, in ascending order of their ids. It takes no memory.
    pub fn iter(&self) -> Iter<'_, InstanceId, ServiceInstance>
        ensures entries { result ≡ finite.entries self.now }
    {
        entries_of(&self.services)
    }

    // Takes an instance in. If there is one with the id, nothing changes.
    fn take_in(&mut self, alloc: Global, order: Order, rules: Rules) -> Result<Step, Memory>
        ensures network { OnOk result (self.new ≡ spec.with_instance self.old order rules) }
        ensures applied { IfOk result (λ s. s ≡ step_of (is_none (finite.get self.old order.id))) }
        ensures err { OnErr result (self.new ≡ self.old) }
        ensures no_memory { is_none (finite.get self.old order.id) ≡ false → IsOk result }
    {
        if self.services.get(&order.id).is_some() {
            return Ok(Step::Skipped);
        }
        let service = ServiceInstance::new(alloc, rules, order);
        let Ok(_) = self.services.insert(order.id, service) else {
            return Err(Memory);
        };
        Ok(Step::Applied)
    }

    // Lets an event of an instance happen.
    fn happen(&mut self, alloc: Global, id: InstanceId, event: ServiceEvent) -> Result<Step, Memory>
        ensures network { OnOk result (self.new ≡ spec.with_event self.old id event) }
        ensures applied { IfOk result (λ s. s ≡ step_of (spec.some_applies (finite.get self.old id) event)) }
        ensures err { OnErr result (self.new ≡ self.old) }
        ensures no_memory { spec.some_takes_memory (finite.get self.old id) event ≡ false → IsOk result }
    {
        step_at(&mut self.services, alloc, id, event)
    }

    /// Lets an event happen: [`Step::Applied`] exactly if it applies, and else [`Step::Skipped`]. An event of an
    /// instance that wasn't taken in is skipped.
    ///
    /// # Errors
    ///
    /// [`Memory`] if an allocation failed. Only these ask for memory: an instance that is taken in, and an event of a known
    /// one at which [`ServiceInstance::step`] asks for some. The network is then as before.
    pub fn step(&mut self, alloc: Global, event: NetworkEvent) -> Result<Step, Memory>
        ensures network { OnOk result (self.new ≡ spec.network_by self.old event) }
        ensures applied { IfOk result (λ s. s ≡ step_of (spec.network_applies self.old event)) }
        ensures err { OnErr result (self.new ≡ self.old) }
        ensures no_memory { spec.network_takes_memory self.old event ≡ false → IsOk result }
    {
        match event {
            NetworkEvent::Instance { order, rules } => self.take_in(alloc, order, rules),
            NetworkEvent::Happening { id, event } => self.happen(alloc, id, event),
        }
    }

    /// Cleans up after each instance and then after each of its bindings, as
    /// [`settle`](ServiceInstance::settle) and [`settle_binding`](ServiceInstance::settle_binding) do.
    ///
    /// # Errors
    ///
    /// [`Memory`] if an allocation failed. Of each instance and of each binding, the first few events of the three rounds
    /// have happened then, from none to all of them, and no other event. If the platform of an instance doesn't keep its
    /// rules, nothing has happened to the instance and its bindings. Settle the network again to go on from there.
    pub fn settle(&mut self, alloc: Global) -> Result<(), Memory>
        ensures settled { OnOk result (SettlesEach self.old self.new) }
        ensures err { OnErr result (SettlesPartly self.old self.new) }
    {
        let ids = ids_of(alloc, &self.services)?;
        settle_each(&mut self.services, alloc, ids.as_slice())
    }
}

//! An instance and its bindings.
ghost use Rattle.std.specs.Prelude.{◌≡◌, ◌≢◌, ℕ, true, false, None, Some, Ok, IfOk, IfSome, IsOk, IsSome, OnOk, OnErr};
ghost use Rattle.std.specs.Prelude.{◌&&◌, is_none, is_some, option_copied, option_map};
ghost use Rattle.std.specs.BTreeMap as tree;
ghost use Rattle.std.specs.FinMap as finite;
ghost use Rattle.std.specs.Ordering.{nat_cmp};
ghost use Rattle.osb_network.specs.Cell.{IsPossible, empty_cell};
ghost use Rattle.osb_network.specs.Removing.{removed_cell, removing_events, twice_removed_cell, IsRemoved};
ghost use Rattle.osb_network.specs.Settling.{settled_cell, settling_events, HasNumbers, IsPartWay, IsSettled};
ghost use Rattle.osb_network.specs.Steps.{step_of};
ghost use Rattle.osb_network.specs.declared.step.Step.{Step};
ghost use Rattle.osb_binding_network.specs.declared.event.ServiceEvent.{ServiceEvent};
ghost use Rattle.osb_binding_network.specs.Settled.{FiveRoundsRemove, RemovesAt, SettlesAt};
ghost use Rattle.osb_binding_network.specs.Agreement.{BindingAgrees, ServiceAgrees};
ghost use Rattle.osb_binding_network.specs.Allowed as allowed;
ghost use Rattle.osb_binding_network.specs.Binding.{binding_step, empty_binding};
ghost use Rattle.osb_binding_network.specs.Happening as happening;
ghost use Rattle.osb_binding_network.specs.Rounds.{RoundsHappen};
ghost use Rattle.osb_binding_network.specs.Service.{binding_after, binding_by, each_of, every, instance_after, instance_by};
ghost use Rattle.osb_binding_network.specs.Service.{life_order, new_service, AreStepped};
ghost use Rattle.osb_binding_network.specs.Well.{IsWell};

use crate::allowed::{Allowed, may_bind, may_create, may_remove, may_work, of_instance};
use crate::{BindingEvent, BindingOrder, Rules, ServiceBinding, ServiceEvent};
use osb_binding::BindingId;
use osb_message::{InstanceId, Memory};
use osb_network::{Event, Instance, Order, Step};
use std::alloc::Global;
use std::collections::BTreeMap;
use std::collections::btree_map::Iter;
use std::marker::Model;

/// An instance and its bindings, each by its id: as many lives as there are bindings, and one more, tied by the
/// [`Rules`] that the two sides keep (this project's choice, and so are its calls).
///
/// Contracts see its cells, which can come about together. So each life agrees, and they go together, in the sense of
/// the [crate](crate)'s first page.
#[derive(Drop)]
pub struct ServiceInstance {
    rules: Rules,
    instance: Instance,
    bindings: BTreeMap<BindingId, ServiceBinding>,
}

impl Model for ServiceInstance {
    ghost use Rattle.std.specs.BTreeMap as tree;
    ghost use Rattle.std.specs.FinMap as map;
    ghost use Rattle.std.specs.Ordering.{nat_cmp};
    ghost use Rattle.osb_binding_network.specs.Possible.{IsService};
    ghost use Rattle.osb_binding_network.specs.Service.{ServiceCells, service_code};

    ghost Value = { ServiceCells };

    ghost coded = { service_code };

    ghost view = { λ s. record { rules = s.rules; instance = s.instance; bindings = map.from_entries s.bindings.entries } };

    ghost invariant = { λ s. IsService s.rules s.instance (tree.get nat_cmp s.bindings) };
}

// Whether the instance may be removed, by each binding.
fn all_may_remove(rules: Rules, bindings: &BTreeMap<BindingId, ServiceBinding>) -> bool
    ensures is { result ≡ every (λ b. allowed.may_remove rules b) (tree.values bindings.now) }
    ensures ordered { tree.IsOrdered nat_cmp bindings.now }
{
    for binding in bindings.values() {
        if !may_remove(rules, binding.life()) {
            return false;
        }
    }
    true
}

// Whether something of the instance may begin, by each binding.
fn all_may_work(rules: Rules, bindings: &BTreeMap<BindingId, ServiceBinding>) -> bool
    ensures is { result ≡ every (λ b. allowed.may_work rules b) (tree.values bindings.now) }
    ensures ordered { tree.IsOrdered nat_cmp bindings.now }
{
    for binding in bindings.values() {
        if !may_work(rules, binding.life()) {
            return false;
        }
    }
    true
}

// Steps the binding at a key, if there is one, by what its instance lets it do.
fn step_at(
    bindings: &mut BTreeMap<BindingId, ServiceBinding>,
    alloc: Global,
    id: BindingId,
    allowed: Allowed,
    event: BindingEvent,
) -> Result<Step, Memory>
    ensures here { OnOk result (tree.get nat_cmp bindings.new id
        ≡ option_map (λ b. binding_step allowed.create allowed.work allowed.ended b event)
        (tree.get nat_cmp bindings.old id)) }
    ensures applied { IfOk result (λ s. s ≡ step_of (happening.some_applies
        allowed.create allowed.work allowed.ended (tree.get nat_cmp bindings.old id) event)) }
    ensures no_memory { happening.some_takes_memory allowed.create allowed.work
        (tree.get nat_cmp bindings.old id) event ≡ false → IsOk result }
    ensures others { (other : ℕ) → other ≢ id
        → tree.get nat_cmp bindings.new other ≡ tree.get nat_cmp bindings.old other }
    ensures err { OnErr result (tree.get nat_cmp bindings.new id ≡ tree.get nat_cmp bindings.old id) }
    ensures well { IfSome (tree.get nat_cmp bindings.new id) IsWell }
{
    let Some(binding) = bindings.get_mut(&id) else {
        return Ok(Step::Skipped);
    };
    binding.step(alloc, allowed, event)
}

// The bindings, in ascending order of their keys.
fn entries_of(bindings: &BTreeMap<BindingId, ServiceBinding>) -> Iter<'_, BindingId, ServiceBinding>
    ensures entries { result ≡ bindings.now.entries }
    ensures ordered { tree.IsOrdered nat_cmp bindings.now }
{
    bindings.iter()
}

// Settles the instance by itself.
fn settle_life(instance: &mut Instance, alloc: Global) -> Result<Step, Memory>
    ensures instance { OnOk result (instance.new ≡ settled_cell instance.old) }
    ensures err { OnErr result (IsPartWay settling_events instance.old instance.new) }
    ensures settled { HasNumbers 3 instance.old → OnOk result (IsSettled instance.new) }
    ensures applied { IfOk result (λ s. s ≡ Step.Applied) }
    ensures possible { IsPossible instance.new }
{
    let settled = instance.settle(alloc);
    instance.agreement();
    match settled {
        Ok(()) => Ok(Step::Applied),
        Err(fault) => Err(fault),
    }
}

// Removes the instance by itself.
fn remove_life(instance: &mut Instance, alloc: Global) -> Result<Step, Memory>
    ensures instance { OnOk result (instance.new ≡ removed_cell instance.old) }
    ensures err { OnErr result (IsPartWay removing_events instance.old instance.new) }
    ensures removed { HasNumbers 3 instance.old → OnOk result (IsRemoved instance.new) }
    ensures settled { IsSettled instance.old → HasNumbers 2 instance.old → IsRemoved (twice_removed_cell instance.old) }
    ensures applied { IfOk result (λ s. s ≡ Step.Applied) }
    ensures possible { IsPossible instance.new }
{
    instance.agreement();
    let removed = instance.remove(alloc);
    instance.agreement();
    match removed {
        Ok(()) => Ok(Step::Applied),
        Err(fault) => Err(fault),
    }
}

// Settles the binding at a key, if there is one.
fn settle_at(
    bindings: &mut BTreeMap<BindingId, ServiceBinding>,
    alloc: Global,
    id: BindingId,
) -> Result<Step, Memory>
    ensures here { SettlesAt result (tree.get nat_cmp bindings.old id) (tree.get nat_cmp bindings.new id) }
    ensures applied { IfOk result (λ s. s ≡ step_of (is_some (tree.get nat_cmp bindings.old id))) }
    ensures unknown { tree.get nat_cmp bindings.old id ≡ None → result ≡ Ok Step.Skipped }
    ensures others { (other : ℕ) → other ≢ id
        → tree.get nat_cmp bindings.new other ≡ tree.get nat_cmp bindings.old other }
    ensures well { IfSome (tree.get nat_cmp bindings.new id) IsWell }
{
    let Some(binding) = bindings.get_mut(&id) else {
        return Ok(Step::Skipped);
    };
    binding.settle(alloc)?;
    Ok(Step::Applied)
}

// Removes the binding at a key, if there is one.
fn remove_at(
    bindings: &mut BTreeMap<BindingId, ServiceBinding>,
    alloc: Global,
    id: BindingId,
) -> Result<Step, Memory>
    ensures here { RemovesAt result (tree.get nat_cmp bindings.old id) (tree.get nat_cmp bindings.new id) }
    ensures applied { IfOk result (λ s. s ≡ step_of (is_some (tree.get nat_cmp bindings.old id))) }
    ensures unknown { tree.get nat_cmp bindings.old id ≡ None → result ≡ Ok Step.Skipped }
    ensures others { (other : ℕ) → other ≢ id
        → tree.get nat_cmp bindings.new other ≡ tree.get nat_cmp bindings.old other }
    ensures well { IfSome (tree.get nat_cmp bindings.new id) IsWell }
{
    let Some(binding) = bindings.get_mut(&id) else {
        return Ok(Step::Skipped);
    };
    binding.remove(alloc)?;
    Ok(Step::Applied)
}

#[tactic(auto, using(osb_message::proofs::Maps::tree_steps))]
impl ServiceInstance {
    /// An instance that nothing has happened to, with no bindings. It takes no memory.
    pub fn new(alloc: Global, rules: Rules, order: Order) -> Self
        ensures rules { result.rules ≡ rules }
        ensures instance { result.instance ≡ empty_cell order }
        ensures bindings { result.bindings ≡ finite.empty }
    {
        ServiceInstance {
            rules,
            instance: Instance::new(alloc, order),
            bindings: BTreeMap::new(alloc),
        }
    }

    /// The instance. It takes no memory.
    pub fn instance(&self) -> &Instance
        ensures instance { result.now ≡ self.now.instance }
    {
        &self.instance
    }

    /// The binding with the id, or none. It takes no memory.
    pub fn binding(&self, id: BindingId) -> Option<&ServiceBinding>
        ensures found { option_copied result ≡ finite.get self.now.bindings id }
        ensures agrees { IfSome result (λ binding.
            BindingAgrees self.now.rules self.now.instance binding.now) }
    {
        let binding = self.bindings.get(&id)?;
        binding.agreement();
        Some(binding)
    }

    /// The bindings, each with its id, in ascending order of the ids. It takes no memory.
    pub fn bindings(&self) -> Iter<'_, BindingId, ServiceBinding>
        ensures entries { result ≡ finite.entries self.now.bindings }
    {
        entries_of(&self.bindings)
    }

    /// Does nothing: its contract is that the instance and its bindings agree, in the sense of the [crate](crate)'s first
    /// page. It takes no memory.
    pub fn agreement(&self)
        ensures agrees { ServiceAgrees self.now }
    {
        let _ = &self.instance;
    }

    /// Does nothing: its contract is that no rule of either side stops or puts off an event of the rounds, if the platform
    /// keeps its rules (`RoundsHappen`, in `specs/Rounds.antt`). The rounds are those that
    /// [`settle`](ServiceInstance::settle), [`settle_binding`](ServiceInstance::settle_binding),
    /// [`remove`](ServiceInstance::remove) and [`remove_binding`](ServiceInstance::remove_binding) let happen. It takes no
    /// memory.
    ///
    /// Each event of the instance happens as it is, with the bindings as they are. If the instance is removed, each
    /// binding has to let it be removed. Each event of a binding happens as it is, with the instance as it is. One answer
    /// is taken together with another: that to a Poll that makes the record `ready`, with that to a Fetch. The broker
    /// answers the Fetch with credentials then.
    pub fn progress(&self)
        ensures rounds { self.now.rules.platform ≡ true → RoundsHappen self.now }
    {
        let _ = &self.instance;
    }

    /// Lets an event happen, as the rules let it: [`Step::Applied`] exactly if it applies, and else [`Step::Skipped`].
    ///
    /// # Errors
    ///
    /// [`Memory`] if an allocation failed. Only these ask for memory: what [`Instance::step`] asks for at an event of the
    /// instance, an order that applies, an event of a binding's life that the rules let happen, and a Fetch and a taken
    /// Fetch that apply. The instance and all bindings are then as before.
    pub fn step(&mut self, alloc: Global, event: ServiceEvent) -> Result<Step, Memory>
        ensures rules { self.new.rules ≡ self.old.rules }
        ensures instance { OnOk result (self.new.instance ≡ instance_by self.old event) }
        ensures bindings { OnOk result ((id : ℕ) →
            finite.get self.new.bindings id ≡ binding_by self.old event id) }
        ensures applied { IfOk result (λ s. s ≡ step_of (happening.service_applies self.old event)) }
        ensures no_memory { happening.service_takes_memory self.old event ≡ false → IsOk result }
        ensures err { OnErr result ((self.new.instance ≡ self.old.instance)
            × ((id : ℕ) → finite.get self.new.bindings id ≡ finite.get self.old.bindings id)) }
        ensures agrees { ServiceAgrees self.new }
    {
        let step = match event {
            ServiceEvent::Instance(event) => self.step_instance(alloc, event),
            ServiceEvent::Order(order) => self.order(alloc, order),
            ServiceEvent::Binding { id, event } => self.step_binding(alloc, id, event),
        };
        self.agreement();
        step
    }

    /// Cleans up after the instance, as it ends once nothing goes wrong any more: three fault-free rounds of the instance,
    /// as at [`Instance::settle`]. If the platform keeps its rules, the call returns [`Step::Applied`], and no rule stops
    /// or puts off an event of the rounds ([`ServiceInstance::progress`]). If the platform doesn't keep its rules, nothing
    /// happens: [`Step::Skipped`].
    ///
    /// The instance has converged then: the platform records `ready`, `gone` or `unsettled`, or nothing as before. That
    /// needs three numbers for requests.
    ///
    /// # Errors
    ///
    /// [`Memory`] if an allocation failed. The first few of the events of three rounds have happened then. Settle the
    /// instance again to go on from there.
    pub fn settle(&mut self, alloc: Global) -> Result<Step, Memory>
        ensures rules { self.new.rules ≡ self.old.rules }
        ensures bindings { self.new.bindings ≡ self.old.bindings }
        ensures skipped { self.old.rules.platform ≡ false
            → (result ≡ Ok Step.Skipped) × (self.new.instance ≡ self.old.instance) }
        ensures instance { self.old.rules.platform ≡ true
            → OnOk result (self.new.instance ≡ settled_cell self.old.instance) }
        ensures applied { IfOk result (λ s. s ≡ step_of self.old.rules.platform) }
        ensures err { OnErr result (IsPartWay settling_events self.old.instance self.new.instance) }
        ensures settled { self.old.rules.platform ≡ true → HasNumbers 3 self.old.instance
            → OnOk result (IsSettled self.new.instance) }
        ensures agrees { ServiceAgrees self.new }
    {
        if !self.rules.platform {
            self.agreement();
            return Ok(Step::Skipped);
        }
        let settled = settle_life(&mut self.instance, alloc);
        self.agreement();
        settled
    }

    /// Cleans up after the binding with the id: three fault-free rounds of the binding, as at
    /// [`ServiceInstance::settle`]. If a Poll says that its making has succeeded, a Fetch follows. A Bind that is out is
    /// given up first, and the rounds send none: no answer to a Bind is taken in them. If there is no binding with the id,
    /// or the platform doesn't keep its rules, nothing happens: [`Step::Skipped`]. Otherwise the call returns
    /// [`Step::Applied`], and no rule stops or puts off an event of the rounds ([`ServiceInstance::progress`]).
    ///
    /// # Errors
    ///
    /// As at [`ServiceInstance::settle`].
    pub fn settle_binding(&mut self, alloc: Global, id: BindingId) -> Result<Step, Memory>
        ensures rules { self.new.rules ≡ self.old.rules }
        ensures instance { self.new.instance ≡ self.old.instance }
        ensures others { (other : ℕ) → other ≢ id
            → finite.get self.new.bindings other ≡ finite.get self.old.bindings other }
        ensures skipped { self.old.rules.platform ≡ false → (result ≡ Ok Step.Skipped)
            × (finite.get self.new.bindings id ≡ finite.get self.old.bindings id) }
        ensures here { self.old.rules.platform ≡ true → SettlesAt result
            (finite.get self.old.bindings id) (finite.get self.new.bindings id) }
        ensures applied { IfOk result (λ s.
            s ≡ step_of (self.old.rules.platform && is_some (finite.get self.old.bindings id))) }
        ensures unknown { finite.get self.old.bindings id ≡ None → result ≡ Ok Step.Skipped }
        ensures agrees { ServiceAgrees self.new }
    {
        if !self.rules.platform {
            self.agreement();
            return Ok(Step::Skipped);
        }
        let settled = settle_at(&mut self.bindings, alloc, id);
        self.agreement();
        settled
    }

    /// Ends the instance, as it ends where an operator wants it deleted and nothing goes wrong any more: three rounds, in
    /// each of which it is removed if it may be, as at [`Instance::remove`]. If a binding is recorded and isn't `gone`, or
    /// the platform doesn't keep its rules, nothing happens: [`Step::Skipped`]. Otherwise the call returns
    /// [`Step::Applied`], and no rule stops or puts off an event of the rounds ([`ServiceInstance::progress`]).
    ///
    /// The platform records the instance `gone` then, or nothing as before. That needs three numbers for requests; an
    /// instance that was settled is `gone` after two of the rounds. So five rounds end an instance with its bindings,
    /// whatever state they are in: three in which the instance is settled and each binding removed, and two of these
    /// (`FiveRoundsRemove`, in `specs/Settled.antt`). That needs five numbers for requests of the instance, and three for
    /// those of each binding.
    ///
    /// # Errors
    ///
    /// [`Memory`] if an allocation failed. The first few of the events of three rounds have happened then. Remove the
    /// instance again to go on from there.
    pub fn remove(&mut self, alloc: Global) -> Result<Step, Memory>
        ensures rules { self.new.rules ≡ self.old.rules }
        ensures bindings { self.new.bindings ≡ self.old.bindings }
        ensures skipped { self.old.rules.platform ≡ false
            → (result ≡ Ok Step.Skipped) × (self.new.instance ≡ self.old.instance) }
        ensures bound { each_of (λ b. allowed.may_remove self.old.rules b) self.old.bindings ≡ false
            → (result ≡ Ok Step.Skipped) × (self.new.instance ≡ self.old.instance) }
        ensures instance { self.old.rules.platform ≡ true
            → each_of (λ b. allowed.may_remove self.old.rules b) self.old.bindings ≡ true
            → OnOk result (self.new.instance ≡ removed_cell self.old.instance) }
        ensures applied { IfOk result (λ s. s ≡ step_of (self.old.rules.platform
            && each_of (λ b. allowed.may_remove self.old.rules b) self.old.bindings)) }
        ensures err { OnErr result (IsPartWay removing_events self.old.instance self.new.instance) }
        ensures removed { self.old.rules.platform ≡ true
            → each_of (λ b. allowed.may_remove self.old.rules b) self.old.bindings ≡ true
            → HasNumbers 3 self.old.instance → OnOk result (IsRemoved self.new.instance) }
        // So it is of all that can come about.
        ensures five { FiveRoundsRemove self.old }
        ensures agrees { ServiceAgrees self.new }
    {
        if !self.rules.platform {
            self.agreement();
            return Ok(Step::Skipped);
        }
        let may_remove = all_may_remove(self.rules, &self.bindings);
        if !may_remove {
            self.agreement();
            return Ok(Step::Skipped);
        }
        let removed = remove_life(&mut self.instance, alloc);
        self.agreement();
        removed
    }

    /// Ends the binding with the id: three rounds of the binding, in each of which it is removed if it may be, as at
    /// [`ServiceInstance::remove`]. No answer to a Bind is taken in them, as at [`ServiceInstance::settle_binding`]. If
    /// there is no binding with the id, or the platform doesn't keep its rules, nothing happens: [`Step::Skipped`].
    /// Otherwise the call returns [`Step::Applied`], and no rule stops or puts off an event of the rounds
    /// ([`ServiceInstance::progress`]).
    ///
    /// # Errors
    ///
    /// As at [`ServiceInstance::remove`].
    pub fn remove_binding(&mut self, alloc: Global, id: BindingId) -> Result<Step, Memory>
        ensures rules { self.new.rules ≡ self.old.rules }
        ensures instance { self.new.instance ≡ self.old.instance }
        ensures others { (other : ℕ) → other ≢ id
            → finite.get self.new.bindings other ≡ finite.get self.old.bindings other }
        ensures skipped { self.old.rules.platform ≡ false → (result ≡ Ok Step.Skipped)
            × (finite.get self.new.bindings id ≡ finite.get self.old.bindings id) }
        ensures here { self.old.rules.platform ≡ true → RemovesAt result
            (finite.get self.old.bindings id) (finite.get self.new.bindings id) }
        ensures applied { IfOk result (λ s.
            s ≡ step_of (self.old.rules.platform && is_some (finite.get self.old.bindings id))) }
        ensures unknown { finite.get self.old.bindings id ≡ None → result ≡ Ok Step.Skipped }
        ensures agrees { ServiceAgrees self.new }
    {
        if !self.rules.platform {
            self.agreement();
            return Ok(Step::Skipped);
        }
        let removed = remove_at(&mut self.bindings, alloc, id);
        self.agreement();
        removed
    }

    // Takes a binding in to which nothing has happened yet. If there is one with the id, nothing changes.
    fn order(&mut self, alloc: Global, order: BindingOrder) -> Result<Step, Memory>
        ensures rules { self.new.rules ≡ self.old.rules }
        ensures instance { self.new.instance ≡ self.old.instance }
        ensures taken_in { finite.get self.old.bindings order.id ≡ None
            → OnOk result (finite.get self.new.bindings order.id
            ≡ Some (empty_binding (life_order self.old.instance.order order) order.retrievable)) }
        ensures known { IsSome (finite.get self.old.bindings order.id)
            → finite.get self.new.bindings order.id ≡ finite.get self.old.bindings order.id }
        ensures others { (other : ℕ) → other ≢ order.id
            → finite.get self.new.bindings other ≡ finite.get self.old.bindings other }
        ensures applied { IfOk result (λ s. s ≡ step_of (is_none (finite.get self.old.bindings order.id))) }
        ensures no_memory { is_none (finite.get self.old.bindings order.id) ≡ false → IsOk result }
        ensures err { OnErr result (finite.get self.new.bindings order.id ≡ finite.get self.old.bindings order.id) }
    {
        if self.bindings.get(&order.id).is_some() {
            return Ok(Step::Skipped);
        }
        let binding = ServiceBinding::new(
            alloc,
            life_order(self.instance.order(), order),
            order.retrievable,
        );
        let Ok(_) = self.bindings.insert(order.id, binding) else {
            return Err(Memory);
        };
        Ok(Step::Applied)
    }

    // Lets an event of the instance happen, as the rules and all bindings let it.
    fn step_instance(&mut self, alloc: Global, event: Event) -> Result<Step, Memory>
        ensures instance { OnOk result (self.new.instance ≡ instance_after self.old event) }
        ensures rules { self.new.rules ≡ self.old.rules }
        ensures bindings { self.new.bindings ≡ self.old.bindings }
        ensures applied { IfOk result (λ s. s ≡ step_of (happening.applies_if self.old.instance
            (happening.let_instance self.old event))) }
        ensures no_memory { happening.takes_memory_if self.old.instance (happening.let_instance self.old event) ≡ false
            → IsOk result }
        ensures err { OnErr result (self.new.instance ≡ self.old.instance) }
    {
        self.instance.agreement();
        let remove = all_may_remove(self.rules, &self.bindings);
        let work = all_may_work(self.rules, &self.bindings);
        let Some(event) = of_instance(remove, work, &self.instance, event) else {
            return Ok(Step::Skipped);
        };
        self.instance.step(alloc, event)
    }

    // Lets an event of a binding happen, as the rules and the instance let it.
    fn step_binding(
        &mut self,
        alloc: Global,
        id: BindingId,
        event: BindingEvent,
    ) -> Result<Step, Memory>
        ensures here { OnOk result
            (finite.get self.new.bindings id ≡ binding_after self.old event (finite.get self.old.bindings id)) }
        ensures others { (other : ℕ) → other ≢ id
            → finite.get self.new.bindings other ≡ finite.get self.old.bindings other }
        ensures rules { self.new.rules ≡ self.old.rules }
        ensures instance { self.new.instance ≡ self.old.instance }
        ensures applied { IfOk result (λ s. s ≡ step_of (happening.service_applies self.old
            (ServiceEvent.Binding id event))) }
        ensures no_memory { happening.service_takes_memory self.old (ServiceEvent.Binding id event) ≡ false
            → IsOk result }
        ensures err { OnErr result (finite.get self.new.bindings id ≡ finite.get self.old.bindings id) }
    {
        let allowed = Allowed {
            create: may_create(self.rules, &self.instance),
            work: may_bind(self.rules, &self.instance),
            ended: self.instance.holding().has_tombstone(),
        };
        step_at(&mut self.bindings, alloc, id, allowed, event)
    }
}

/// A new instance without bindings, stepped through the events one after the other (`AreStepped`, in
/// `specs/Service.antt`). Whatever they are, and in whatever order, it agrees with its bindings then, in the sense of the
/// [crate](crate)'s first page (this project's choice). `alloc` is for all that is written.
///
/// # Errors
///
/// [`Memory`] at the first step at which an allocation failed. Only the events at which [`ServiceInstance::step`] takes
/// memory ask for it.
pub fn run(
    alloc: Global,
    rules: Rules,
    order: Order,
    events: &[ServiceEvent],
) -> Result<ServiceInstance, Memory>
    ensures rules { IfOk result (λ service. service.rules ≡ rules) }
    ensures cells { IfOk result (λ service. AreStepped (new_service rules order) events.now service) }
    ensures no_memory { happening.TakeNoMemory (new_service rules order) events.now → IsOk result }
    ensures agrees { IfOk result (λ service. ServiceAgrees service) }
{
    let mut service = ServiceInstance::new(alloc, rules, order);
    for event in events {
        service.step(alloc, *event)?;
    }
    service.agreement();
    Ok(service)
}

// The order of a binding's life: it has the service and plan of its instance.
fn life_order(instance: Order, order: BindingOrder) -> Order
    ensures order { result ≡ life_order instance order }
{
    Order {
        id: InstanceId::from_value(order.id.value()),
        service: instance.service,
        plan: instance.plan,
        mode: order.mode,
        accepts: order.accepts,
        first_poll: order.first_poll,
        attributes: order.attributes,
    }
}

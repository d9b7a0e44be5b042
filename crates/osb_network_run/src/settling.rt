//! Each instance is settled, and then each of its bindings.
ghost use Rattle.std.specs.Prelude.{◌≡◌, ◌≢◌, ℕ, length, IfOk, OnErr, OnOk};
ghost use Rattle.std.specs.BTreeMap as tree;
ghost use Rattle.std.specs.FinMap as finite;
ghost use Rattle.std.specs.List.Sorted.{IsStrictlySortedBy};
ghost use Rattle.std.specs.Ordering.{nat_cmp};
ghost use Rattle.osb_binding_network.specs.Agreement.{ServiceAgrees};
ghost use Rattle.osb_network_run.specs.Settling as spec;

use osb_binding::BindingId;
use osb_binding_network::ServiceInstance;
use osb_message::{InstanceId, Memory};
use std::alloc::Global;
use std::collections::BTreeMap;

// The keys, ascending.
pub fn ids_of(
    alloc: Global,
    services: &BTreeMap<InstanceId, ServiceInstance>,
) -> Result<Vec<InstanceId>, Memory>
    ensures keys { IfOk result (λ ids. ids.items ≡ tree.keys services.now) }
    ensures ordered { tree.IsOrdered nat_cmp services.now }
{
    let mut ids = Vec::with_capacity(alloc, services.len())?;
    for id in services.keys() {
        ids.push(*id)?;
    }
    Ok(ids)
}

// The ids of the bindings, ascending.
fn binding_ids(alloc: Global, service: &ServiceInstance) -> Result<Vec<BindingId>, Memory>
    ensures keys { IfOk result (λ ids. ids.items ≡ finite.keys service.now.bindings) }
{
    let mut ids = Vec::new(alloc);
    for (id, _) in service.bindings() {
        ids.push(*id)?;
    }
    Ok(ids)
}

// Settles the binding with the id, if there is one.
fn settle_binding(service: &mut ServiceInstance, alloc: Global, id: BindingId) -> Result<(), Memory>
    ensures here { OnOk result (spec.IsSettledBy service.old.rules.platform
        (finite.get service.old.bindings id) (finite.get service.new.bindings id)) }
    ensures err { OnErr result (spec.IsPartlySettledBy service.old.rules.platform
        (finite.get service.old.bindings id) (finite.get service.new.bindings id)) }
    ensures others { (other : ℕ) → other ≢ id
        → finite.get service.new.bindings other ≡ finite.get service.old.bindings other }
    ensures rules { service.new.rules ≡ service.old.rules }
    ensures instance { service.new.instance ≡ service.old.instance }
{
    service.settle_binding(alloc, id)?;
    Ok(())
}

// Settles the bindings of these ids.
fn settle_bindings(
    service: &mut ServiceInstance,
    alloc: Global,
    ids: &[BindingId],
) -> Result<(), Memory>
    requires ascending { IsStrictlySortedBy nat_cmp ids.now }
    ensures settled { OnOk result (spec.AreDone (spec.IsSettledBy service.old.rules.platform) ids.now (length ids.now)
        (finite.get service.old.bindings) (finite.get service.new.bindings)) }
    ensures err { OnErr result ((id : ℕ) → spec.IsPartlySettledBy service.old.rules.platform
        (finite.get service.old.bindings id) (finite.get service.new.bindings id)) }
    ensures rules { service.new.rules ≡ service.old.rules }
    ensures instance { service.new.instance ≡ service.old.instance }
{
    for id in ids {
        settle_binding(service, alloc, *id)?;
    }
    Ok(())
}

// Settles an instance by itself.
fn settle_instance(service: &mut ServiceInstance, alloc: Global) -> Result<(), Memory>
    ensures instance { OnOk result (service.new.instance
        ≡ spec.settled_if service.old.rules.platform service.old.instance) }
    ensures err { OnErr result (spec.IsPartlySettledIf service.old.rules.platform
        service.old.instance service.new.instance) }
    ensures bindings { service.new.bindings ≡ service.old.bindings }
    ensures rules { service.new.rules ≡ service.old.rules }
{
    service.settle(alloc)?;
    Ok(())
}

// Settles an instance, and then each of its bindings.
fn settle_service(service: &mut ServiceInstance, alloc: Global) -> Result<(), Memory>
    ensures settled { OnOk result (spec.IsSettledService service.old service.new) }
    ensures err { OnErr result (spec.IsPartlySettled service.old service.new) }
{
    settle_instance(service, alloc)?;
    let ids = binding_ids(alloc, service)?;
    settle_bindings(service, alloc, ids.as_slice())?;
    service.agreement();
    Ok(())
}

// Settles the instance at a key, if there is one.
fn settle_at(
    services: &mut BTreeMap<InstanceId, ServiceInstance>,
    alloc: Global,
    id: InstanceId,
) -> Result<(), Memory>
    ensures here { OnOk result
        (spec.SettlesService (tree.get nat_cmp services.old id) (tree.get nat_cmp services.new id)) }
    ensures err { OnErr result
        (spec.SettlesPartlyAt (tree.get nat_cmp services.old id) (tree.get nat_cmp services.new id)) }
    ensures others { (other : ℕ) → other ≢ id
        → tree.get nat_cmp services.new other ≡ tree.get nat_cmp services.old other }
{
    let Some(service) = services.get_mut(&id) else {
        return Ok(());
    };
    settle_service(service, alloc)
}

// Settles the instances at these keys.
pub fn settle_each(
    services: &mut BTreeMap<InstanceId, ServiceInstance>,
    alloc: Global,
    ids: &[InstanceId],
) -> Result<(), Memory>
    requires ascending { IsStrictlySortedBy nat_cmp ids.now }
    ensures settled { OnOk result (spec.AreDone spec.SettlesService ids.now (length ids.now)
        (tree.get nat_cmp services.old) (tree.get nat_cmp services.new)) }
    ensures err { OnErr result ((id : ℕ) →
        spec.SettlesPartlyAt (tree.get nat_cmp services.old id) (tree.get nat_cmp services.new id)) }
{
    for id in ids {
        settle_at(services, alloc, *id)?;
    }
    Ok(())
}

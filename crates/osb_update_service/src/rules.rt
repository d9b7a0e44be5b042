//! The rules that tie the updates of an instance to the instance itself.
ghost use Rattle.std.specs.Prelude.{◌≡◌};
ghost use Rattle.osb_binding_network.specs.Allowed as allowed;
ghost use Rattle.osb_network.specs.Steps as network;
ghost use Rattle.osb_update_service.specs.Steps as spec;
ghost use Rattle.osb_update_sides.specs.Agreement as sides;

use osb_binding_network::ServiceEvent;
use osb_instance::Sent;
use osb_network::{Event, Instance};
use osb_update::{Settings, UpdatePhase};
use osb_update_sides::{Updates, UpdatesEvent};

// The request of this attempt, if it was ever sent.
fn sent_as(instance: &Instance, attempt: u64) -> Option<Sent>
    ensures sent { result ≡ network.sent_as instance.now.sent attempt }
{
    if attempt == 0 {
        return None;
    }
    let at = usize::try_from(attempt - 1).ok()?;
    instance.sent().get(at).copied()
}

// Whether something of the instance begins when the request arrives.
fn begins(instance: &Instance, attempt: u64) -> bool
    ensures begins { result ≡ allowed.begins instance.now attempt }
{
    match sent_as(instance, attempt) {
        None => false,
        Some(sent) => {
            let order = instance.order();
            instance
                .holding()
                .begins(order.mode, &sent.request, order.attributes)
        }
    }
}

// An event of the instance as its updates let it happen.
pub(crate) fn let_instance(updates: &Updates, instance: &Instance, event: Event) -> Option<Event>
    ensures event { result ≡ spec.let_instance updates.now instance.now event }
{
    match event {
        Event::Remove if updates.recorded().out.is_some() => None,
        Event::Arrive { attempt } if updates.held().is_under_way() && begins(instance, attempt) => {
            Some(Event::PutOff { attempt })
        }
        event => Some(event),
    }
}

// The same of an event of the instance or of a binding.
pub(crate) fn let_service(
    updates: &Updates,
    instance: &Instance,
    event: ServiceEvent,
) -> Option<ServiceEvent>
    ensures event { result ≡ spec.let_service updates.now instance.now event }
{
    match event {
        ServiceEvent::Instance(event) => {
            let event = let_instance(updates, instance, event)?;
            Some(ServiceEvent::Instance(event))
        }
        event => Some(event),
    }
}

// Whether the event is one of the updates, and not of the instance itself.
pub(crate) fn is_of_update(event: &UpdatesEvent) -> bool
    ensures is { result ≡ sides.is_of_update event.now }
{
    match event {
        UpdatesEvent::Live { .. } => false,
        _ => true,
    }
}

// The settings that the resource has once the instance is available again, or isn't.
pub(crate) fn settings_then(
    updates: &Updates,
    available: bool,
    settings: &Option<Settings>,
) -> Option<Settings>
    ensures then { result ≡ spec.settings_then available updates.now.held.phase updates.now settings.now }
{
    if !available {
        return updates.settings();
    }
    let held = updates.held();
    match &held.phase {
        UpdatePhase::Settled => Some(held.settings),
        UpdatePhase::Pending(_)
        | UpdatePhase::Updating(_)
        | UpdatePhase::Failed
        | UpdatePhase::Mending(_) => *settings,
    }
}

//! The ids that the parts speak of, and what happens to their instances.
use osb_broker::Outcome;
use osb_message::{AddFault, Catalogue, InstanceId, Mode, PlanId, ServiceId};
use osb_world::Event;
use std::alloc::Global;

pub fn service() -> ServiceId {
    ServiceId::from_value(0xa0)
}

pub fn synchronous() -> PlanId {
    PlanId::from_value(0xb1)
}

pub fn asynchronous() -> PlanId {
    PlanId::from_value(0xb2)
}

pub fn first() -> InstanceId {
    InstanceId::from_value(1)
}

pub fn second() -> InstanceId {
    InstanceId::from_value(2)
}

pub fn third() -> InstanceId {
    InstanceId::from_value(3)
}

// The two plans on sale.
pub fn catalogue(alloc: Global) -> Result<Catalogue, AddFault> {
    let mut catalogue = Catalogue::new(alloc);
    catalogue.add(service(), synchronous(), Mode::Sync)?;
    catalogue.add(service(), asynchronous(), Mode::Async)?;
    Ok(catalogue)
}

pub fn create(id: InstanceId) -> Event {
    Event::Create {
        id,
        service: service(),
        plan: synchronous(),
        accepts: false,
    }
}

pub fn deliver(id: InstanceId) -> Event {
    Event::Deliver {
        id,
        outcome: Outcome::Done,
    }
}

// The first instance is made.
pub fn made() -> [Event; 3] {
    [
        create(first()),
        deliver(first()),
        Event::Answer { id: first() },
    ]
}

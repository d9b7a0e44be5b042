//! `run` of `osb_world`.
use anyhow::{Context, Result};
use osb_message::{Catalogue, InstanceId, Mode, PlanId, ServiceId};
use osb_world::{Event, run};
use std::alloc::Global;

// `world COUNT`: how many instances are recorded after a Create of as many, in one call, and what is recorded of the
// last.
pub(crate) fn run_creates(rt: &impl Print, alloc: Global, count: &str) -> Result<()> {
    let count: u128 = count.parse::<u128>()?;
    let (service, plan) = (ServiceId::from_value(2), PlanId::from_value(3));
    let mut catalogue = Catalogue::new(alloc);
    catalogue.add(service, plan, Mode::Sync)?;
    let mut events = Vec::new(alloc);
    for value in 1..=count {
        events.push(Event::Create {
            id: InstanceId::from_value(value),
            service,
            plan,
            accepts: false,
        })?;
    }
    let world = run(alloc, catalogue, events.as_slice())?;
    let row = world.platform_row(InstanceId::from_value(count));
    let state = row.context("no instance")?.state;
    Ok(println!(rt; "  {} {state:?}", world.ids(alloc)?.len())?)
}

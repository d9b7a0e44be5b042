//! A Poll of `osb_broker`. From C every Poll has the outcome `Done`, and in `osb-replay` it is of the row's plan.
use anyhow::Result;
use osb_broker::{Broker, Outcome};
use osb_message::{Catalogue, InstanceId, Kind, Mode, PlanId, Request, ServiceId};
use std::alloc::Global;

fn request(kind: Kind, plan: PlanId) -> Request {
    Request {
        kind,
        id: InstanceId::from_value(1),
        service: ServiceId::from_value(2),
        plan,
        accepts_incomplete: true,
    }
}

// `poll-of-another-plan`: what a broker answers to a Provision that works, and then to Polls of another plan that fail
// before and after their work; and its row after each.
pub(crate) fn poll_of_another_plan(rt: &impl Print, alloc: Global) -> Result<()> {
    let (plan, another) = (PlanId::from_value(3), PlanId::from_value(4));
    let mut catalogue = Catalogue::new(alloc);
    catalogue.add(ServiceId::from_value(2), plan, Mode::Async)?;
    catalogue.add(ServiceId::from_value(2), another, Mode::Async)?;
    let mut broker = Broker::new(alloc, catalogue);
    let calls = [
        (request(Kind::Provision, plan), Outcome::Done),
        (request(Kind::Poll, another), Outcome::Before),
        (request(Kind::Poll, another), Outcome::After),
    ];
    for &(request, outcome) in &calls {
        let answer = broker.handle(&request, outcome)?;
        let phase = broker.row(request.id).map(|row| row.phase);
        println!(rt; "  {} {:?} {phase:?}", answer.status, answer.body)?;
    }
    Ok(())
}

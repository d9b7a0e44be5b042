//! The plan lines of a schedule.
ghost use Rattle.std.specs.Prelude.{◌≡◌, None, IfErr, OnErr, OnOk};
ghost use Rattle.std.specs.FinMap as map;
ghost use Rattle.osb_lines.specs.Sink.{IsLineFault};
ghost use Rattle.osb_lines.specs.Schedule.{plan_fault};

use osb_language::{LineFault, ScheduleFault};
use osb_message::{AddFault, Catalogue, Mode, PlanId, ServiceId};

/// Adds the plan of the line of this number, which is late where an event stands before it (this project's
/// choice). It takes memory.
///
/// # Errors
///
/// [`LineFault::LatePlan`] if it is late, and [`LineFault::DuplicatePlan`] if the catalogue has it, each as
/// [`ScheduleFault::At`]. [`ScheduleFault::Memory`] if an allocation failed. After any of these the catalogue is as
/// before.
pub fn add_plan(
    catalogue: &mut Catalogue,
    is_late: bool,
    number: u32,
    service: ServiceId,
    plan: PlanId,
    mode: Mode,
) -> Result<(), ScheduleFault>
    ensures good { OnOk result ((plan_fault is_late catalogue.old service plan ≡ None)
        × (catalogue.new ≡ map.insert catalogue.old (service, plan) mode)) }
    ensures refused { IfErr result (IsLineFault number (plan_fault is_late catalogue.old service plan)) }
    ensures err { OnErr result (catalogue.new ≡ catalogue.old) }
{
    if is_late {
        return Err(ScheduleFault::At {
            line: number,
            fault: LineFault::LatePlan,
        });
    }
    match catalogue.add(service, plan, mode) {
        Ok(()) => Ok(()),
        Err(AddFault::AlreadyThere) => Err(ScheduleFault::At {
            line: number,
            fault: LineFault::DuplicatePlan,
        }),
        Err(AddFault::Memory) => Err(ScheduleFault::Memory),
    }
}

//! When a worker tells the truth of the resource.
ghost use Rattle.std.specs.Prelude.{◌≡◌, Some};
ghost use Rattle.osb_network.specs.Settling as settling;
ghost use Rattle.osb_network.specs.Truth as spec;

use crate::Resource;
use osb_broker::{BrokerRow, Phase};
use osb_instance::{Holding, WorkOutcome};
use osb_message::{Kind, Mode, Request};

// The row that the broker's tables have for that of a holding.
#[tactic(auto, using(osb_instance::proofs::HoldingBack::shown_back))]
pub(crate) fn table_row(holding: Holding) -> Option<BrokerRow>
    ensures row { result ≡ holding.row }
{
    match holding.row() {
        None => None,
        Some(row) => Some(row.in_tables()),
    }
}

// Whether work that ended so may have left this resource.
pub(crate) fn is_true_end(
    mode: Option<Mode>,
    kind: Kind,
    outcome: WorkOutcome,
    resource: Resource,
) -> bool
    ensures is { result ≡ spec.is_true_end mode kind outcome resource }
{
    match (mode, kind, outcome, resource) {
        (_, Kind::Provision, WorkOutcome::Before | WorkOutcome::Refused(_), Resource::Absent) =>
            true,
        (_, Kind::Provision, WorkOutcome::Before | WorkOutcome::Refused(_), _) => false,
        (Some(Mode::Sync), Kind::Provision, _, Resource::Whole) => true,
        (Some(Mode::Sync), Kind::Provision, _, _) => false,
        (_, Kind::Poll | Kind::Deprovision, WorkOutcome::Refused(_), _) => false,
        (_, Kind::Deprovision, WorkOutcome::Before, _) => true,
        (Some(Mode::Sync), Kind::Deprovision, _, Resource::Absent) => true,
        (Some(Mode::Sync), Kind::Deprovision, _, _) => false,
        _ => true,
    }
}

// Whether an operation that is said to have ended well, or badly, may have left this resource.
pub(crate) fn is_true_finish(row: Option<BrokerRow>, ok: bool, resource: Resource) -> bool
    ensures is { result ≡ spec.is_true_finish_of row ok resource }
{
    let Some(row) = row else {
        return true;
    };
    match (row.phase, ok, resource) {
        (Phase::Making, true, Resource::Whole) => true,
        (Phase::Making, true, _) => false,
        (Phase::Deleting, true, Resource::Absent) => true,
        (Phase::Deleting, true, _) => false,
        _ => true,
    }
}

// Whether something goes on that may change the resource.
pub(crate) fn is_under_way(holding: Holding) -> bool
    ensures is { result ≡ spec.is_under_way holding }
{
    match holding.work() {
        Some(_) => true,
        None => holding.is_operating(),
    }
}

// What there is of the resource once the pending work has gone well, or the operation that runs.
pub(crate) fn good_resource(work: Option<Request>, row: Option<BrokerRow>) -> Resource
    ensures resource { result ≡ settling.good_resource work row }
{
    match (work, row) {
        (Some(request), _) => match request.kind {
            Kind::Provision => Resource::Whole,
            Kind::Poll | Kind::Deprovision => Resource::Absent,
        },
        (None, Some(row)) => match row.phase {
            Phase::Making => Resource::Whole,
            _ => Resource::Absent,
        },
        (None, None) => Resource::Absent,
    }
}

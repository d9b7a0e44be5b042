//! The table of the section Provisioning.
ghost use Rattle.std.specs.Prelude.{◌≡◌};
ghost use Rattle.osb_broker.specs.Change.{row_after};
ghost use Rattle.osb_broker.specs.Provision as spec;

use crate::answers::{empty, error};
use crate::decision::{Change, Decision, unchanged};
use crate::{BrokerRow, Outcome, Phase};
use osb_message::{Answer, ErrorCode, Mode, Request};

// A new row with the request's service and plan, and an answer.
fn made(mode: Mode, request: &Request, answer: Answer) -> Decision
    ensures change { result.change ≡ Change.Put (spec.new_row mode request.now) }
    ensures answer { result.answer ≡ answer }
{
    let row = BrokerRow {
        service: request.service,
        plan: request.plan,
        phase: match mode {
            Mode::Sync => Phase::Ready,
            Mode::Async => Phase::Making,
        },
    };
    Decision {
        change: Change::Put(row),
        answer,
    }
}

// What is decided on a Provision, where the catalogue has the request's pair with this mode: the
// first rule that fits.
pub(crate) fn provision(
    mode: Option<Mode>,
    row: Option<BrokerRow>,
    request: &Request,
    outcome: Outcome,
) -> Decision
    ensures row { row_after result.change row
        ≡ (spec.provision_at mode row request.now outcome).row }
    ensures answer { result.answer ≡ (spec.provision_at mode row request.now outcome).answer }
{
    match (mode, row, outcome) {
        (None, _, _) => unchanged(error(400, ErrorCode::Other)),
        (Some(Mode::Async), _, _) if !request.accepts_incomplete => {
            unchanged(error(422, ErrorCode::AsyncRequired))
        }
        (_, Some(old), _) if !old.is_of_plan(request) => unchanged(error(409, ErrorCode::Other)),
        (_, Some(old), _) => match old.phase {
            Phase::Making => unchanged(empty(202)),
            Phase::Ready => unchanged(empty(200)),
            Phase::Deleting => unchanged(error(422, ErrorCode::ConcurrencyError)),
            Phase::Failed | Phase::DeleteFailed => unchanged(error(500, ErrorCode::Other)),
        },
        (_, None, Outcome::Before) => unchanged(error(500, ErrorCode::Other)),
        (Some(mode), None, Outcome::After) => made(mode, request, error(500, ErrorCode::Other)),
        (Some(Mode::Sync), None, Outcome::Done) => made(Mode::Sync, request, empty(201)),
        (Some(Mode::Async), None, Outcome::Done) => made(Mode::Async, request, empty(202)),
    }
}

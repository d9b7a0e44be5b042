//! The table of the section Deprovisioning.
ghost use Rattle.std.specs.Prelude.{◌≡◌};
ghost use Rattle.osb_broker.specs.Change.{row_after};
ghost use Rattle.osb_broker.specs.Deprovision as spec;

use crate::answers::{empty, error};
use crate::decision::{Change, Decision, unchanged};
use crate::{BrokerRow, Outcome, Phase};
use osb_message::{Answer, ErrorCode, Mode, Request};

// The row goes, or at an asynchronous plan starts to go; and an answer.
fn deleted(mode: Mode, row: BrokerRow, answer: Answer) -> Decision
    ensures row { row_after result.change (Some row) ≡ spec.row_after_deletion mode row }
    ensures answer { result.answer ≡ answer }
{
    let change = match mode {
        Mode::Sync => Change::Remove,
        Mode::Async => Change::Put(BrokerRow {
            phase: Phase::Deleting,
            ..row
        }),
    };
    Decision { change, answer }
}

// What is decided on a Deprovision of an instance that is there, with its own service and plan, which
// works in this mode and as the request accepts: rules 4 to 9.
fn accepted(mode: Mode, row: BrokerRow, outcome: Outcome) -> Decision
    ensures row { row_after result.change (Some row)
        ≡ (spec.accepted_deprovision mode row row.phase outcome).row }
    ensures answer { result.answer ≡ (spec.accepted_deprovision mode row row.phase outcome).answer }
{
    match (row.phase, outcome, mode) {
        (Phase::Making, _, _) => unchanged(error(422, ErrorCode::ConcurrencyError)),
        (Phase::Deleting, _, _) => unchanged(empty(202)),
        (_, Outcome::Before, _) => unchanged(error(500, ErrorCode::Other)),
        (_, Outcome::After, _) => deleted(mode, row, error(500, ErrorCode::Other)),
        (_, Outcome::Done, Mode::Sync) => deleted(mode, row, empty(200)),
        (_, Outcome::Done, Mode::Async) => deleted(mode, row, empty(202)),
    }
}

// What is decided on a Deprovision, where the catalogue has the request's pair with this mode: the
// first rule that fits. The pair of a row is never missing there, so no rule speaks of that; it is
// answered as at a Provision.
pub(crate) fn deprovision(
    mode: Option<Mode>,
    row: Option<BrokerRow>,
    request: &Request,
    outcome: Outcome,
) -> Decision
    ensures row { row_after result.change row
        ≡ (spec.deprovision_at mode row request.now outcome).row }
    ensures answer { result.answer ≡ (spec.deprovision_at mode row request.now outcome).answer }
{
    match (row, mode) {
        (None, _) => unchanged(error(410, ErrorCode::Other)),
        (Some(old), _) if !old.is_of_plan(request) => unchanged(error(400, ErrorCode::Other)),
        (_, None) => unchanged(error(400, ErrorCode::Other)),
        (_, Some(Mode::Async)) if !request.accepts_incomplete => {
            unchanged(error(422, ErrorCode::AsyncRequired))
        }
        (Some(old), Some(mode)) => accepted(mode, old, outcome),
    }
}

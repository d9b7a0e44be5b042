//! The table of the section Polling Last Operation for Service Instances.
ghost use Rattle.std.specs.Prelude.{◌≡◌};
ghost use Rattle.osb_broker.specs.Poll.{polled};

use crate::answers::{error, last_operation};
use crate::{BrokerRow, Outcome, Phase};
use osb_message::{Answer, ErrorCode, LastState, Request};

// What is answered to a Poll, which changes no row: the first rule that fits.
pub(crate) fn poll(row: Option<BrokerRow>, request: &Request, outcome: Outcome) -> Answer
    ensures answer { result ≡ polled row request.now outcome }
{
    match row {
        None => error(410, ErrorCode::Other),
        Some(row) if !row.is_of_plan(request) => error(400, ErrorCode::Other),
        Some(row) => match (outcome, row.phase) {
            (Outcome::Before | Outcome::After, _) => error(500, ErrorCode::Other),
            (_, Phase::Making | Phase::Deleting) => last_operation(LastState::InProgress),
            (_, Phase::Ready) => last_operation(LastState::Succeeded),
            (_, Phase::Failed | Phase::DeleteFailed) => last_operation(LastState::Failed),
        },
    }
}

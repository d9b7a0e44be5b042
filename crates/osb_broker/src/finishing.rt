//! How a running operation ends.
ghost use Rattle.std.specs.Prelude.{◌≡◌, ◌↔◌, IsOk, IsTrue, IfOk};
ghost use Rattle.osb_broker.specs.Finished as spec;

use crate::{BrokerRow, Phase};

/// No operation runs on the instance: it is neither being made nor being deleted, so there is
/// nothing to finish, and nothing has changed (this project's choice).
#[derive(Clone, Copy, Debug, PartialEq, Eq)]
pub struct NothingRunning;

/// The row, or none, after the operation that runs on its instance has ended well (`ok`) or badly: the table
/// of [`Broker::finish`](crate::Broker::finish), for who keeps the rows elsewhere. It takes no memory.
///
/// # Errors
///
/// [`NothingRunning`] exactly where the instance is neither being made nor being deleted.
pub fn finished(row: BrokerRow, ok: bool) -> Result<Option<BrokerRow>, NothingRunning>
    ensures running { IsOk result ↔ IsTrue (spec.is_running_in row.phase) }
    ensures row { IfOk result (λ after. after ≡ spec.finished_in row.phase row ok) }
{
    let phase = match (row.phase, ok) {
        (Phase::Making, true) => Phase::Ready,
        (Phase::Making, false) => Phase::Failed,
        (Phase::Deleting, true) => return Ok(None),
        (Phase::Deleting, false) => Phase::DeleteFailed,
        (Phase::Ready | Phase::Failed | Phase::DeleteFailed, _) => return Err(NothingRunning),
    };
    Ok(Some(BrokerRow { phase, ..row }))
}

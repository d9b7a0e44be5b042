//! The row of an instance that a broker holds, as it crosses.
ghost use Rattle.std.specs.Prelude.{◌≡◌, Some};
ghost use Rattle.osb_c_instance.specs.RowNumbers.{phase_of, row_of};

use osb_c_types::{OsbId, id_from, id_out};
use osb_instance::{HoldingPhase, HoldingRow};

/// The row of an instance that a broker holds.
#[repr(C)]
#[derive(Clone, Copy)]
pub struct OsbBrokerRow {
    /// The instance's service (`service_id`).
    pub service: OsbId,
    /// The instance's plan (`plan_id`).
    pub plan: OsbId,
    /// The number of the phase.
    pub phase: u8,
}

// The number of a phase.
fn phase_out(phase: HoldingPhase) -> u8
    ensures phase { phase_of result ≡ Some phase }
{
    match phase {
        HoldingPhase::Making => 0,
        HoldingPhase::Ready => 1,
        HoldingPhase::Failed => 2,
        HoldingPhase::Deleting => 3,
        HoldingPhase::DeleteFailed => 4,
        HoldingPhase::Waiting => 5,
    }
}

// The phase that a number stands for.
fn phase_from(code: u8) -> Option<HoldingPhase>
    ensures phase { result ≡ phase_of code }
{
    match code {
        0 => Some(HoldingPhase::Making),
        1 => Some(HoldingPhase::Ready),
        2 => Some(HoldingPhase::Failed),
        3 => Some(HoldingPhase::Deleting),
        4 => Some(HoldingPhase::DeleteFailed),
        5 => Some(HoldingPhase::Waiting),
        _ => None,
    }
}

// The row as it crosses.
pub(crate) fn row_out(row: HoldingRow) -> OsbBrokerRow
    ensures row { row_of result ≡ Some row }
{
    OsbBrokerRow {
        service: id_out(row.service),
        plan: id_out(row.plan),
        phase: phase_out(row.phase),
    }
}

// The row that crossed, if its number stands for a phase.
pub(crate) fn row_from(row: OsbBrokerRow) -> Option<HoldingRow>
    ensures row { result ≡ row_of row }
{
    let phase = phase_from(row.phase)?;
    Some(HoldingRow {
        service: id_from(row.service),
        plan: id_from(row.plan),
        phase,
    })
}

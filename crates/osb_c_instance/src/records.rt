//! What a platform records of one instance, as it crosses.
ghost use Rattle.std.specs.Prelude.{◌≡◌, Some};
ghost use Rattle.osb_c_instance.specs.Records.{platform_row_of, recorded_of};

use osb_c_types::{OsbId, OsbPlatformRow, record_from, record_out};
use osb_instance::Record;
use osb_platform::PlatformRow;

/// What a platform records of an instance, and the number of its latest request.
#[repr(C)]
#[derive(Clone, Copy)]
pub struct OsbRecord {
    /// The instance's service (`service_id`).
    pub service: OsbId,
    /// The instance's plan (`plan_id`).
    pub plan: OsbId,
    /// The number of the latest request, and 0 before the first.
    pub attempt: u64,
    /// The number of the state.
    pub state: u8,
    /// The number of the kind of the request that is out, or 255 where none is.
    pub out: u8,
}

/// The record that crossed, if a call gives such a one. It takes no memory.
pub fn recorded_from(kept: &OsbRecord) -> Option<Record>
    ensures recorded { result ≡ recorded_of kept.now }
{
    let row = OsbPlatformRow {
        service: kept.service,
        plan: kept.plan,
        state: kept.state,
        out: kept.out,
    };
    let row = record_from(&row)?;
    Record::from_parts(row, kept.attempt)
}

/// The record as it crosses. It takes no memory.
#[tactic(auto, using(osb_instance::proofs::RecordBack::sound_can_be))]
pub fn recorded_out(recorded: Record) -> OsbRecord
    ensures recorded { recorded_of result ≡ Some recorded }
{
    let row = record_out(recorded.row());
    OsbRecord {
        service: row.service,
        plan: row.plan,
        attempt: recorded.attempt(),
        state: row.state,
        out: row.out,
    }
}

// The platform's row that crossed, if a platform gives such a one. As a record has it whose latest request is its
// first: the rule for records is the only one.
pub(crate) fn platform_row_from(row: &OsbPlatformRow) -> Option<PlatformRow>
    ensures row { result ≡ platform_row_of row.now }
{
    let row = record_from(row)?;
    let recorded = Record::from_parts(row, 1)?;
    Some(recorded.row())
}

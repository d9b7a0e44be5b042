//! What a platform records of an instance, as it crosses.
ghost use Rattle.std.specs.Prelude.{◌≡◌, Some};
ghost use Rattle.osb_c_types.specs.Rows.{record_of};

use crate::ids::{OsbId, id_from, id_out};
use crate::kinds::{out_from, out_out};
use crate::states::{state_from, state_out};
use osb_platform::PlatformRow;

/// What a platform records of an instance.
#[repr(C)]
#[derive(Clone, Copy)]
pub struct OsbPlatformRow {
    /// The instance's service (`service_id`).
    pub service: OsbId,
    /// The instance's plan (`plan_id`).
    pub plan: OsbId,
    /// The number of the state.
    pub state: u8,
    /// The number of the kind of the request that is out, or 255 where none is.
    pub out: u8,
}

/// A platform's record as it crosses.
pub fn record_out(row: PlatformRow) -> OsbPlatformRow
    ensures row { record_of result ≡ Some row }
{
    OsbPlatformRow {
        service: id_out(row.service),
        plan: id_out(row.plan),
        state: state_out(row.state),
        out: out_out(row.out),
    }
}

/// The platform's record that crossed, if its numbers stand for something.
pub fn record_from(row: &OsbPlatformRow) -> Option<PlatformRow>
    ensures row { result ≡ record_of row.now }
{
    let state = state_from(row.state)?;
    let out = out_from(row.out)?;
    Some(PlatformRow {
        service: id_from(row.service),
        plan: id_from(row.plan),
        state,
        out,
    })
}

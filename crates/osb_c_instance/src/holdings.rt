//! What a broker holds of one instance, and what comes of a request, as they cross.
ghost use Rattle.std.specs.Prelude.{◌≡◌, ◌≢◌, ◌↔◌, Some, IfSome, IfNone, is_some};
ghost use Rattle.osb_instance.specs.Begin.{IsWork};
ghost use Rattle.osb_c_types.specs.Requests.{request_of};
ghost use Rattle.osb_c_instance.specs.RowNumbers.{row_of};
ghost use Rattle.osb_c_instance.specs.Holdings.{IsPlain, IsPlainBegun, begun_of, held_of, row_in, work_in};
ghost use Rattle.osb_c_instance.specs.Holdings.{zero_request, zero_row};

use crate::broker_rows::{OsbBrokerRow, row_from, row_out};
use crate::works::some_work_out;
use osb_c_types::{OsbAnswer, OsbId, OsbRequest, answer_out, request_from, request_out};
use osb_instance::{Begun, Digest, Holding, HoldingRow};
use osb_message::Request;

/// What a broker holds of an instance. One of zeroes holds nothing.
#[repr(C)]
#[derive(Clone, Copy)]
pub struct OsbHolding {
    /// The instance's row, which counts if `has_row` is true.
    pub row: OsbBrokerRow,
    /// The request whose work is pending, which counts if `has_work` is true.
    pub work: OsbRequest,
    /// Whether the broker has a row of the instance.
    pub has_row: bool,
    /// Whether work is pending.
    pub has_work: bool,
    /// Whether the instance has ended.
    pub has_tombstone: bool,
    /// The digest of the attributes of row and work, zeroes for none.
    pub attributes: [u8; 32],
}

/// What comes of a request at once.
#[repr(C)]
#[derive(Clone, Copy)]
pub struct OsbBegun {
    /// The answer to send, which counts if no work is due.
    pub answer: OsbAnswer,
    /// The number of the work that is due and pending, and 0 for none.
    pub work: u8,
}

const ZERO_ID: OsbId = OsbId { high: 0, low: 0 };

// Its row, or none; none of either where the row's numbers stand for nothing.
fn some_row_from(holding: &OsbHolding) -> Option<Option<HoldingRow>>
    ensures row { result ≡ row_in holding.now }
{
    if holding.has_row {
        let row = row_from(holding.row)?;
        Some(Some(row))
    } else {
        Some(None)
    }
}

// The request whose work is pending, or none; none of either where its numbers stand for nothing.
fn some_work_from(holding: &OsbHolding) -> Option<Option<Request>>
    ensures work { result ≡ work_in holding.now }
{
    if holding.has_work {
        let work = request_from(&holding.work)?;
        Some(Some(work))
    } else {
        Some(None)
    }
}

/// The holding that crossed, if a call gives such a one. It takes no memory.
pub fn held_from(holding: &OsbHolding) -> Option<Holding>
    ensures held { result ≡ held_of holding.now }
{
    let row = some_row_from(holding)?;
    let work = some_work_from(holding)?;
    let attributes = Digest {
        bytes: holding.attributes,
    };
    Holding::from_parts(row, work, holding.has_tombstone, attributes)
}

// The row as it crosses, or zeroes.
fn some_row_out(row: Option<HoldingRow>) -> OsbBrokerRow
    ensures row { IfSome row (λ r. row_of result ≡ Some r) }
    ensures none { IfNone row (result ≡ zero_row) }
{
    match row {
        Some(row) => row_out(row),
        None => OsbBrokerRow {
            service: ZERO_ID,
            plan: ZERO_ID,
            phase: 0,
        },
    }
}

// The request as it crosses, or zeroes.
fn some_request_out(request: Option<Request>) -> OsbRequest
    ensures request { IfSome request (λ r. request_of result ≡ Some r) }
    ensures none { IfNone request (result ≡ zero_request) }
{
    match request {
        Some(request) => request_out(request),
        None => OsbRequest {
            kind: 0,
            accepts_incomplete: false,
            id: ZERO_ID,
            service: ZERO_ID,
            plan: ZERO_ID,
        },
    }
}

/// The holding as it crosses. It takes no memory.
pub fn held_out(held: Holding) -> OsbHolding
    ensures held { held_of result ≡ Some held }
    ensures row { result.has_row ≡ is_some held.row }
    ensures tombstone { result.has_tombstone ≡ held.tombstone }
    ensures plain { IsPlain result }
{
    let row = held.row();
    let has_row = row.is_some();
    let work = held.work();
    let has_work = work.is_some();
    let Digest { bytes } = held.attributes();
    OsbHolding {
        row: some_row_out(row),
        work: some_request_out(work),
        has_row,
        has_work,
        has_tombstone: held.has_tombstone(),
        attributes: bytes,
    }
}

/// What comes of a request as it crosses. It takes no memory.
pub fn begun_out(begun: Begun) -> OsbBegun
    ensures begun { begun_of result ≡ Some begun }
    ensures due { (result.work ≢ 0) ↔ IsWork begun }
    ensures plain { IsPlainBegun result }
{
    match begun {
        Begun::Answered(answer) => OsbBegun {
            answer: answer_out(answer),
            work: some_work_out(None),
        },
        Begun::Work(work) => OsbBegun {
            answer: OsbAnswer { status: 0, body: 0 },
            work: some_work_out(Some(work)),
        },
    }
}

//! Requests as they cross.
ghost use Rattle.std.specs.Prelude.{◌≡◌, Some};
ghost use Rattle.osb_c_types.specs.Requests.{request_of};

use crate::ids::{OsbId, id_from, id_out};
use crate::kinds::{kind_from, kind_out};
use osb_message::Request;

/// A request from the platform to the broker.
#[repr(C)]
#[derive(Clone, Copy)]
pub struct OsbRequest {
    /// The number of its kind.
    pub kind: u8,
    /// Whether the platform takes an asynchronous operation (`accepts_incomplete`).
    pub accepts_incomplete: bool,
    /// The instance that it is asked of (`instance_id`).
    pub id: OsbId,
    /// The instance's service (`service_id`).
    pub service: OsbId,
    /// The instance's plan (`plan_id`).
    pub plan: OsbId,
}

/// The request as it crosses.
pub fn request_out(request: Request) -> OsbRequest
    ensures request { request_of result ≡ Some request }
{
    OsbRequest {
        kind: kind_out(request.kind),
        accepts_incomplete: request.accepts_incomplete,
        id: id_out(request.id),
        service: id_out(request.service),
        plan: id_out(request.plan),
    }
}

/// The request that crossed, if its kind is one.
pub fn request_from(request: &OsbRequest) -> Option<Request>
    ensures request { result ≡ request_of request.now }
{
    let kind = kind_from(request.kind)?;
    Some(Request {
        kind,
        id: id_from(request.id),
        service: id_from(request.service),
        plan: id_from(request.plan),
        accepts_incomplete: request.accepts_incomplete,
    })
}

//! The record after the answer to a Provision (section Provisioning).
ghost use Rattle.std.specs.Prelude.{◌≡◌, ◌↔◌, IsTrue};
ghost use Rattle.osb_platform.specs.Mitigation.{mitigate};
ghost use Rattle.osb_platform.specs.State.{state_after_provision};

use crate::State;
use osb_message::{Answer, Body, ErrorCode, Kind, well_formed};

/// The record of a `wanted` instance after the answer to its Provision.
///
/// It takes any status with any body, and no memory. What the statuses mean is the standard's
/// (sections Provisioning and Orphan Mitigation); the records are this project's choice. The record
/// is `cleaning` exactly where the orphan mitigation table says yes.
pub fn decide_provision(answer: Answer) -> State
    ensures state { result ≡ state_after_provision answer }
    ensures mitigated { (result ≡ State.Cleaning) ↔ IsTrue (mitigate answer) }
{
    match (answer.status, answer.body) {
        (200 | 201, _) if well_formed(Kind::Provision, answer) => State::Ready,
        (202, _) if well_formed(Kind::Provision, answer) => State::Polling,
        (200 | 408 | 409, _) => State::Unsettled,
        (422, Body::Error(ErrorCode::AsyncRequired)) => State::Gone,
        (422, _) => State::Unsettled,
        (400..=499, _) => State::Gone,
        _ => State::Cleaning,
    }
}

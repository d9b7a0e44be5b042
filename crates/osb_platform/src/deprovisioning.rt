//! The record after the answer to a Deprovision (section Deprovisioning).
ghost use Rattle.std.specs.Prelude.{◌≡◌};
ghost use Rattle.osb_platform.specs.State.{state_after_deprovision};

use crate::State;
use osb_message::{Answer, Kind, well_formed};

/// The record of a `cleaning` instance after the answer to its Deprovision.
///
/// It takes any status with any body, and no memory. What the statuses mean is the standard's
/// (section Deprovisioning); the records, and that the platform sends the Deprovision again after
/// every other answer, are this project's choice.
pub fn decide_deprovision(answer: Answer) -> State
    ensures state { result ≡ state_after_deprovision answer }
{
    match answer.status {
        200 if well_formed(Kind::Deprovision, answer) => State::Gone,
        202 if well_formed(Kind::Deprovision, answer) => State::CleaningPolling,
        410 => State::Gone,
        _ => State::Cleaning,
    }
}

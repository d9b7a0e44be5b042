//! The record after the answer to a Poll (section Polling Last Operation for Service Instances).
ghost use Rattle.std.specs.Prelude.{◌≡◌};
ghost use Rattle.osb_platform.specs.State.{state_after_poll};

use crate::State;
use osb_message::{Answer, Body, LastState};

/// The record of an instance in this state after the answer to its Poll.
///
/// It takes any status with any body, and no memory. A state that isn't polled stays. That a 410
/// ends the polling of a deletion, and that the platform goes on polling while it isn't told the
/// end, is the standard's (section Polling Last Operation for Service Instances); the records are
/// this project's choice.
pub fn decide_poll(state: State, answer: Answer) -> State
    ensures state { result ≡ state_after_poll state answer }
{
    match (state, answer.status, answer.body) {
        (State::Polling, 200, Body::State(LastState::Succeeded)) => State::Ready,
        (State::Polling, 200, Body::State(LastState::Failed)) => State::Cleaning,
        (State::CleaningPolling, 200, Body::State(LastState::Succeeded)) => State::Gone,
        (State::CleaningPolling, 200, Body::State(LastState::Failed)) => State::Cleaning,
        (State::CleaningPolling, 410, _) => State::Gone,
        (state, _, _) => state,
    }
}

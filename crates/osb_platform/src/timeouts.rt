//! The record after a request that gets no answer (section Orphan Mitigation).
ghost use Rattle.std.specs.Prelude.{◌≡◌};
ghost use Rattle.osb_platform.specs.State.{after_timeout};

use crate::State;

/// The record of an instance in this state after a request that got no answer: `cleaning` for
/// `wanted`, since the Provision may have made an instance, and the same state for every other.
///
/// That a Provision's timeout is mitigated is the standard's (section Orphan Mitigation); that the
/// other requests are sent again is this project's choice. It takes no memory.
pub fn decide_timeout(state: State) -> State
    ensures state { result ≡ after_timeout state }
{
    match state {
        State::Wanted => State::Cleaning,
        other => other,
    }
}

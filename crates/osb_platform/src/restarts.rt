//! The record after a restart from what the platform had recorded.
ghost use Rattle.std.specs.Prelude.{◌≡◌};
ghost use Rattle.osb_platform.specs.State.{after_restart};

use crate::State;

/// The record of an instance in this state after the platform was restarted from what it had
/// recorded: `cleaning` for `wanted`, whose answer nobody waits for any more, and the same state for
/// every other (this project's choice). It takes no memory.
pub fn decide_restart(state: State) -> State
    ensures state { result ≡ after_restart state }
{
    match state {
        State::Wanted => State::Cleaning,
        other => other,
    }
}

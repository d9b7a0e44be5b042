//! The numbers that stand for the states of a record.
ghost use Rattle.std.specs.Prelude.{◌≡◌};
ghost use Rattle.osb_c_types.specs.States.{state_code, state_of};

use osb_platform::State;

/// Stands for no state.
pub const NO_STATE: u8 = 255;

/// The number of a state.
pub fn state_out(state: State) -> u8
    ensures code { result ≡ state_code state }
{
    match state {
        State::Wanted => 0,
        State::Polling => 1,
        State::Ready => 2,
        State::Cleaning => 3,
        State::CleaningPolling => 4,
        State::Gone => 5,
        State::Unsettled => 6,
    }
}

/// The state that a number stands for.
pub fn state_from(code: u8) -> Option<State>
    ensures state { result ≡ state_of code }
{
    match code {
        0 => Some(State::Wanted),
        1 => Some(State::Polling),
        2 => Some(State::Ready),
        3 => Some(State::Cleaning),
        4 => Some(State::CleaningPolling),
        5 => Some(State::Gone),
        6 => Some(State::Unsettled),
        _ => None,
    }
}

//! The state of an instance, as the platform records it.
ghost use Rattle.std.specs.Prelude.{◌≡◌};
ghost use Rattle.osb_platform.specs.State.{state_word, state_named};

use std::fmt;

/// What a platform records of an instance (this project's choice; the standard leaves the record to
/// the platform).
#[derive(Clone, Copy, Debug, PartialEq, Eq, Hash)]
pub enum State {
    /// A Provision was sent, and nothing is known yet.
    Wanted,
    /// The broker makes the instance, and is polled.
    Polling,
    /// The instance is there, complete.
    Ready,
    /// The instance is to be deleted, or may be an orphan: a Deprovision is sent until the broker
    /// says that there is none (section Orphan Mitigation).
    Cleaning,
    /// The broker deletes the instance, and is polled.
    CleaningPolling,
    /// There is no such instance. Its id isn't used again.
    Gone,
    /// The Provision failed, and nothing is sent until an operator has the instance removed.
    Unsettled,
}

impl State {
    /// The word of the state, as it is saved and printed: `wanted`, `polling`, `ready`, `cleaning`,
    /// `cleaning-polling`, `gone` or `unsettled` (this project's choice). It takes no memory.
    pub fn word(self) -> &'static str
        ensures word { result.now ≡ state_word self }
    {
        match self {
            State::Wanted => "wanted",
            State::Polling => "polling",
            State::Ready => "ready",
            State::Cleaning => "cleaning",
            State::CleaningPolling => "cleaning-polling",
            State::Gone => "gone",
            State::Unsettled => "unsettled",
        }
    }

    /// The state that a word names, as [`State::word`] gives it; none for every other text (this project's
    /// choice). It takes no memory.
    pub fn from_word(word: &str) -> Option<State>
        ensures state { result ≡ state_named word.now }
    {
        match word {
            "wanted" => Some(State::Wanted),
            "polling" => Some(State::Polling),
            "ready" => Some(State::Ready),
            "cleaning" => Some(State::Cleaning),
            "cleaning-polling" => Some(State::CleaningPolling),
            "gone" => Some(State::Gone),
            "unsettled" => Some(State::Unsettled),
            _ => None,
        }
    }
}

/// Writes the state's word, as [`State::word`] gives it (this project's choice).
impl fmt::Display for State {
    ghost use Rattle.std.specs.Prelude.{Some};
    ghost use Rattle.std.specs.Fmt.{styled_text};
    ghost use Rattle.osb_platform.specs.State.{state_word};

    ghost output = { λ state. Some (state_word state) };

    ghost styled_output = { λ state style. Some (styled_text style (state_word state)) };

    fn fmt<W: fmt::Write>(&self, f: &mut fmt::Formatter<W>) -> fmt::Result {
        f.pad(self.word())
    }
}

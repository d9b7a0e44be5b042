//! What the driver of an instance, or of a binding, does with what is reported to it.
ghost use Rattle.std.specs.Prelude.{◌≡◌};
ghost use Rattle.osb_binding_platform_driver.specs.Driver as spec;

use osb_instance::Sent;
use osb_message::{Answer, Kind};
use osb_platform::{State, decide_answer};

/// Where a driver stands: the one action that the program around it carries out next (this project's choice, and so is
/// all of this crate).
#[derive(Clone, Copy, Debug, PartialEq, Eq)]
pub enum PlatformStage {
    /// Run the first transaction.
    Claim,
    /// Send the request, and wait for its answer.
    Send {
        /// The request, and its attempt. That of a binding has the binding's id.
        sent: Sent,
        /// Whether an answer that the binding is ready is taken only together with that to a Fetch.
        fetches: bool,
    },
    /// Send a Fetch of the binding, and wait for its answer.
    Fetch {
        /// The attempt.
        attempt: u64,
        /// The answer to the Poll.
        answer: Answer,
    },
    /// Run the last transaction.
    Take {
        /// The attempt.
        attempt: u64,
        /// The answer; none if none came, or none that is surely the broker's.
        answer: Option<Answer>,
        /// Whether the credentials of the binding came, and are sealed.
        has_credentials: bool,
    },
    /// Run the last transaction, since nobody knows whether the first one was committed.
    Unsure {
        /// The attempt.
        attempt: u64,
    },
    /// Nothing is left to do.
    Done,
}

/// The way of one request of a platform, of an instance that may have bindings or of a binding.
#[derive(Clone, Copy, Debug, PartialEq, Eq)]
pub struct PlatformDriver {
    /// Whether it is of a binding.
    pub is_binding: bool,
    /// Where the driver stands.
    pub stage: PlatformStage,
}

/// Whether an answer to a Poll makes a binding ready that polls. It takes no memory.
pub fn ends_polling(answer: Answer) -> bool
    ensures ends { result ≡ spec.ends_polling answer }
{
    decide_answer(State::Polling, Kind::Poll, answer) == State::Ready
}

// The stage once the request was answered, or with `None` once the answer was lost.
fn heard(
    is_binding: bool,
    fetches: bool,
    attempt: u64,
    answer: Option<Answer>,
    has_credentials: bool,
) -> PlatformStage
    ensures stage { result ≡ spec.heard is_binding fetches attempt answer has_credentials }
{
    match answer {
        None => PlatformStage::Take {
            attempt,
            answer: None,
            has_credentials: false,
        },
        Some(answer) if fetches && ends_polling(answer) => PlatformStage::Fetch { attempt, answer },
        Some(answer) => PlatformStage::Take {
            attempt,
            answer: Some(answer),
            has_credentials: is_binding && has_credentials,
        },
    }
}

impl PlatformDriver {
    /// Returns a driver that has done nothing yet.
    pub fn new(is_binding: bool) -> PlatformDriver
        ensures driver { result ≡ spec.new_driver is_binding }
    {
        PlatformDriver {
            is_binding,
            stage: PlatformStage::Claim,
        }
    }

    /// Returns the driver whose request was answered, or with `None` whose answer was lost: none came in time, or none
    /// that is surely the broker's to this request. `has_credentials` is whether the answer had the credentials of the
    /// binding, and they are sealed. At any other stage, nothing changes.
    pub fn answered(self, answer: Option<Answer>, has_credentials: bool) -> PlatformDriver
        ensures driver { result ≡ spec.answered answer has_credentials self }
    {
        let PlatformDriver { is_binding, stage } = self;
        let stage = match stage {
            PlatformStage::Send { sent, fetches } => {
                heard(is_binding, fetches, sent.attempt, answer, has_credentials)
            }
            stage => stage,
        };
        PlatformDriver { is_binding, stage }
    }

    /// Returns the driver whose Fetch was answered or lost. `has_credentials` is whether the answer had the credentials
    /// of the binding, and they are sealed. At any other stage, nothing changes.
    pub fn fetched(self, has_credentials: bool) -> PlatformDriver
        ensures driver { result ≡ spec.fetched has_credentials self }
    {
        let PlatformDriver { is_binding, stage } = self;
        let stage = match stage {
            PlatformStage::Fetch { attempt, answer } => PlatformStage::Take {
                attempt,
                answer: Some(answer),
                has_credentials,
            },
            stage => stage,
        };
        PlatformDriver { is_binding, stage }
    }
}

//! The answers of a broker.
ghost use Rattle.std.specs.Prelude.{◌≡◌};
ghost use Rattle.osb_broker.specs.Answers as answers;
ghost use Rattle.osb_update.specs.Begun.{busy};

use osb_message::{Answer, Body, ErrorCode, LastState};

// An answer with an error.
pub(crate) fn error(status: u16, code: ErrorCode) -> Answer
    ensures answer { result ≡ answers.error status code }
{
    Answer {
        status,
        body: Body::Error(code),
    }
}

// An answer in which nothing more is read.
pub(crate) fn empty(status: u16) -> Answer
    ensures answer { result ≡ answers.empty status }
{
    Answer {
        status,
        body: Body::Empty,
    }
}

// The answer with the state of the last operation.
pub(crate) fn last_operation(state: LastState) -> Answer
    ensures answer { result ≡ answers.last_operation state }
{
    Answer {
        status: 200,
        body: Body::State(state),
    }
}

// The answer to a request that another operation is in the way of.
pub(crate) fn busy() -> Answer
    ensures answer { result ≡ busy }
{
    error(422, ErrorCode::ConcurrencyError)
}

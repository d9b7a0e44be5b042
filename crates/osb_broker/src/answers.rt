//! The answers of the tables.
ghost use Rattle.std.specs.Prelude.{◌≡◌};
ghost use Rattle.osb_broker.specs.Answers as spec;

use osb_message::{Answer, Body, ErrorCode, LastState};

// An answer with nothing to read in it.
pub(crate) fn empty(status: u16) -> Answer
    ensures answer { result ≡ spec.empty status }
{
    Answer {
        status,
        body: Body::Empty,
    }
}

// A service broker error with a code.
pub(crate) fn error(status: u16, code: ErrorCode) -> Answer
    ensures answer { result ≡ spec.error status code }
{
    Answer {
        status,
        body: Body::Error(code),
    }
}

// How the last operation goes.
pub(crate) fn last_operation(state: LastState) -> Answer
    ensures answer { result ≡ spec.last_operation state }
{
    Answer {
        status: 200,
        body: Body::State(state),
    }
}

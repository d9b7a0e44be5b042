//! Answers, and the numbers that stand for their bodies.
ghost use Rattle.std.specs.Prelude.{◌≡◌};
ghost use Rattle.osb_c_types.specs.Answers.{IsNumbered, answer_of, body_code, body_of};

use osb_message::{Answer, Body, ErrorCode, LastState};

/// An answer: its HTTP status, any number, and the number of its body. Each number with no other meaning
/// stands for a body that can't be read.
#[repr(C)]
#[derive(Clone, Copy)]
pub struct OsbAnswer {
    /// The HTTP status.
    pub status: u16,
    /// The number of the body.
    pub body: u8,
}

// The body that a number stands for.
fn body_from(code: u8) -> Body
    ensures body { result ≡ body_of code }
{
    match code {
        1 => Body::Empty,
        2 => Body::State(LastState::InProgress),
        3 => Body::State(LastState::Succeeded),
        4 => Body::State(LastState::Failed),
        5 => Body::Error(ErrorCode::AsyncRequired),
        6 => Body::Error(ErrorCode::ConcurrencyError),
        7 => Body::Error(ErrorCode::Other),
        _ => Body::Malformed,
    }
}

// The number of a body.
fn body_out(body: Body) -> u8
    ensures code { result ≡ body_code body }
    ensures body { body_of result ≡ body }
{
    match body {
        Body::Malformed => 0,
        Body::Empty => 1,
        Body::State(LastState::InProgress) => 2,
        Body::State(LastState::Succeeded) => 3,
        Body::State(LastState::Failed) => 4,
        Body::Error(ErrorCode::AsyncRequired) => 5,
        Body::Error(ErrorCode::ConcurrencyError) => 6,
        Body::Error(ErrorCode::Other) => 7,
    }
}

/// The answer that crossed.
pub fn answer_from(answer: OsbAnswer) -> Answer
    ensures answer { result ≡ answer_of answer }
{
    Answer {
        status: answer.status,
        body: body_from(answer.body),
    }
}

/// The answer as it crosses.
pub fn answer_out(answer: Answer) -> OsbAnswer
    ensures answer { answer_of result ≡ answer }
    ensures numbered { IsNumbered result }
{
    OsbAnswer {
        status: answer.status,
        body: body_out(answer.body),
    }
}

//! Work that a request means, and when it is due.
ghost use Rattle.std.specs.Prelude.{◌≡◌, Some};
ghost use Rattle.osb_broker.specs.Answers.{empty, same_plan};
ghost use Rattle.osb_instance.specs.Begin.{busy, conflict, ends, failed_row, is_provision, kept_attributes};
ghost use Rattle.osb_instance.specs.Begin.{names_held, too_late, waits_for_poll};
ghost use Rattle.osb_instance.specs.Due.{work_due, work_of};

use crate::Digest;
use osb_broker::{BrokerRow, Outcome, Phase, decide};
use osb_message::{Answer, Body, ErrorCode, Kind, LastState, Mode, Request};

/// The work that a request means (this project's choice; the standard has a request and its answer).
#[derive(Clone, Copy, Debug, PartialEq, Eq, Hash)]
pub enum Work {
    /// The instance is made, complete, before the answer: a Provision of a synchronous plan.
    Make,
    /// Its making is started, and goes on after the answer: a Provision of an asynchronous plan.
    StartMaking,
    /// The instance is deleted before the answer: a Deprovision of a synchronous plan.
    Delete,
    /// Its deletion is started, and goes on after the answer: a Deprovision of an asynchronous plan.
    StartDeleting,
}

impl Work {
    /// The work that a request of the kind means at a plan of the mode; none for a Poll, and if the plan isn't on sale.
    /// A broker that starts again learns from this what the pending request of a [`Holding`](crate::Holding) means. It
    /// takes no memory.
    pub fn of(kind: Kind, mode: Option<Mode>) -> Option<Work>
        ensures work { result ≡ work_of kind mode }
    {
        match (kind, mode) {
            (Kind::Provision, Some(Mode::Sync)) => Some(Work::Make),
            (Kind::Provision, Some(Mode::Async)) => Some(Work::StartMaking),
            (Kind::Deprovision, Some(Mode::Sync)) => Some(Work::Delete),
            (Kind::Deprovision, Some(Mode::Async)) => Some(Work::StartDeleting),
            (Kind::Poll, _) | (_, None) => None,
        }
    }
}

/// What comes of a request at once.
#[derive(Clone, Copy, Debug, PartialEq, Eq, Hash)]
pub enum Begun {
    /// No work is due: this is the answer to send.
    Answered(Answer),
    /// This work is due and pending. Do it once the holding is written to the database, and then call
    /// [`Holding::end`](crate::Holding::end).
    Work(Work),
}

// The work that is due, if some is: where the broker's table tells by its status how the work goes.
pub(crate) fn work_due(
    mode: Option<Mode>,
    row: Option<BrokerRow>,
    request: &Request,
) -> Option<Work>
    ensures work { result ≡ work_due mode row request.now }
{
    let kept = &row;
    let failed = decide(mode, *kept, request, Outcome::Before);
    let done = decide(mode, *kept, request, Outcome::Done);
    if failed.answer.status == done.answer.status {
        None
    } else {
        Work::of(request.kind, mode)
    }
}

/// The answer to a request that is put off, as while work of the instance is pending: 503 to a Provision, 422
/// `ConcurrencyError` to a Deprovision, 200, in progress, to a Poll. A broker may always answer so, whatever it holds, and
/// changes nothing then (this project's choice). It takes no memory.
pub fn busy(kind: Kind) -> Answer
    ensures answer { result ≡ busy kind }
{
    match kind {
        Kind::Provision => Answer {
            status: 503,
            body: Body::Error(ErrorCode::Other),
        },
        Kind::Deprovision => Answer {
            status: 422,
            body: Body::Error(ErrorCode::ConcurrencyError),
        },
        Kind::Poll => Answer {
            status: 200,
            body: Body::State(LastState::InProgress),
        },
    }
}

// The answer to a Provision of an instance that has ended.
pub(crate) fn too_late() -> Answer
    ensures answer { result ≡ too_late }
{
    Answer {
        status: 409,
        body: Body::Error(ErrorCode::Other),
    }
}

// The answer to a Provision of the same service and plan with other attributes.
pub(crate) fn conflict() -> Answer
    ensures answer { result ≡ conflict }
{
    Answer {
        status: 409,
        body: Body::Error(ErrorCode::Other),
    }
}

// The answer to a Deprovision of a row that waits: it is gone.
pub(crate) fn deleted() -> Answer
    ensures answer { result ≡ empty 200 }
{
    Answer {
        status: 200,
        body: Body::Empty,
    }
}

// Whether a request of the kind that leaves this row, or none, ends its instance.
pub(crate) fn ends(kind: Kind, row: Option<BrokerRow>) -> bool
    ensures ends { result ≡ ends kind row }
{
    match (kind, row) {
        (Kind::Deprovision, None) => true,
        _ => false,
    }
}

pub(crate) fn is_provision(kind: Kind) -> bool
    ensures is { result ≡ is_provision kind }
{
    match kind {
        Kind::Provision => true,
        Kind::Poll | Kind::Deprovision => false,
    }
}

// Whether the request names this service and plan.
pub(crate) fn names(row: &BrokerRow, request: &Request) -> bool
    ensures names { result ≡ same_plan row.now request.now }
{
    row.service == request.service && row.plan == request.plan
}

// Whether the request names the service and plan of the row, or, if there is none, of the pending work.
pub(crate) fn names_held(row: Option<BrokerRow>, work: Option<Request>, request: &Request) -> bool
    ensures names { result ≡ names_held row work request.now }
{
    match (row, work) {
        (Some(row), _) => names(&row, request),
        (None, Some(working)) => {
            working.service == request.service && working.plan == request.plan
        }
        (None, None) => false,
    }
}

// Whether work that is due waits for the first Poll.
pub(crate) fn waits_for_poll(kind: Kind, mode: Option<Mode>, first_poll: bool) -> bool
    ensures waits { result ≡ waits_for_poll kind mode first_poll }
{
    match (kind, mode) {
        (Kind::Provision, Some(Mode::Async)) => first_poll,
        _ => false,
    }
}

// The row once it has failed.
pub(crate) fn failed_row(row: Option<BrokerRow>) -> Option<BrokerRow>
    ensures row { result ≡ failed_row row }
{
    match row {
        None => None,
        Some(row) => Some(BrokerRow {
            phase: Phase::Failed,
            ..row
        }),
    }
}

// The attributes, if a row is left.
pub(crate) fn kept_attributes(row: Option<BrokerRow>, attributes: Digest) -> Digest
    ensures attributes { result ≡ kept_attributes row attributes }
{
    match row {
        None => Digest::NONE,
        Some(_) => attributes,
    }
}

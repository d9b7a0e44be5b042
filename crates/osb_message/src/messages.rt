//! Requests and answers, as far as the life of a service instance needs them.
ghost use Rattle.std.specs.Prelude.{◌≡◌, Some};
ghost use Rattle.std.specs.Fmt.{styled_text};
ghost use Rattle.osb_message.specs.Messages.{well_formed};
ghost use Rattle.osb_message.specs.Words.{kind_word, kind_named};

use crate::{InstanceId, PlanId, ServiceId};
use std::fmt;

/// Which of the three requests a platform makes.
#[derive(Clone, Copy, Debug, PartialEq, Eq, Hash)]
pub enum Kind {
    /// `PUT` on the service instance (section Provisioning).
    Provision,
    /// `GET` on the service instance's last operation (section Polling Last Operation for Service
    /// Instances).
    Poll,
    /// `DELETE` on the service instance (section Deprovisioning).
    Deprovision,
}

impl Kind {
    /// The word of the kind: `provision`, `poll` or `deprovision` (this project's choice). It takes no memory.
    pub fn word(self) -> &'static str
        ensures word { result.now ≡ kind_word self }
    {
        match self {
            Kind::Provision => "provision",
            Kind::Poll => "poll",
            Kind::Deprovision => "deprovision",
        }
    }

    /// The kind that a word names, as [`Kind::word`] gives it; none for every other text (this project's choice).
    /// It takes no memory.
    pub fn from_word(word: &str) -> Option<Kind>
        ensures kind { result ≡ kind_named word.now }
    {
        match word {
            "provision" => Some(Kind::Provision),
            "poll" => Some(Kind::Poll),
            "deprovision" => Some(Kind::Deprovision),
            _ => None,
        }
    }
}

/// Writes the kind's word, as [`Kind::word`] gives it (this project's choice).
impl fmt::Display for Kind {
    ghost output = { λ kind. Some (kind_word kind) };

    ghost styled_output = { λ kind style. Some (styled_text style (kind_word kind)) };

    fn fmt<W: fmt::Write>(&self, f: &mut fmt::Formatter<W>) -> fmt::Result {
        f.pad(self.word())
    }
}

/// A request from the platform to the broker.
///
/// The attributes of an instance are its service and its plan; parameters, context, organization
/// and space are left out (this project's choice).
#[derive(Clone, Copy, Debug, PartialEq, Eq, Hash)]
pub struct Request {
    /// What is asked for.
    pub kind: Kind,
    /// The instance that it is asked of (`instance_id`).
    pub id: InstanceId,
    /// The instance's service (`service_id`).
    pub service: ServiceId,
    /// The instance's plan (`plan_id`).
    pub plan: PlanId,
    /// Whether the platform takes an asynchronous operation (`accepts_incomplete`).
    pub accepts_incomplete: bool,
}

/// The broker's answer to a request, or what arrived of it.
///
/// The status and the body are the standard's (sections Provisioning, Polling Last Operation for
/// Service Instances and Deprovisioning); that nothing else of an answer is read is this project's
/// choice.
#[derive(Clone, Copy, Debug, PartialEq, Eq, Hash)]
pub struct Answer {
    /// The HTTP status. Any number can arrive.
    pub status: u16,
    /// What the body says.
    pub body: Body,
}

/// The body of an answer, as far as it is read.
#[derive(Clone, Copy, Debug, PartialEq, Eq, Hash)]
pub enum Body {
    /// It can't be read.
    Malformed,
    /// It can be read, and nothing in it is (an operation or a dashboard URL, say).
    Empty,
    /// The `state` of a last operation (section Polling Last Operation for Service Instances).
    State(LastState),
    /// A service broker error (section Service Broker Errors).
    Error(ErrorCode),
}

/// The `state` of a last operation (section Polling Last Operation for Service Instances).
#[derive(Clone, Copy, Debug, PartialEq, Eq, Hash)]
pub enum LastState {
    /// `in progress`
    InProgress,
    /// `succeeded`
    Succeeded,
    /// `failed`
    Failed,
}

/// The `error` code of a service broker error (section Service Broker Errors).
#[derive(Clone, Copy, Debug, PartialEq, Eq, Hash)]
pub enum ErrorCode {
    /// `AsyncRequired`: the plan works asynchronously alone, and the request doesn't accept that.
    AsyncRequired,
    /// `ConcurrencyError`: another operation on the instance is in progress.
    ConcurrencyError,
    /// Any other code, or none.
    Other,
}

/// Whether an answer to a request of this kind has a status of success and a body that can be read
/// whole. A last operation that failed is read whole too.
///
/// It is for status 200, 201 or 202 with body [`Body::Empty`] where the kind is Provision or
/// Deprovision, and for status 200 with body [`Body::State`] where the kind is Poll (sections
/// Provisioning, Deprovisioning and Polling Last Operation for Service Instances; that nothing else
/// in a body is read is this project's choice). It takes no memory.
pub fn well_formed(kind: Kind, answer: Answer) -> bool
    ensures readable { result ≡ well_formed kind answer }
{
    match (kind, answer.status, answer.body) {
        (Kind::Provision | Kind::Deprovision, 200..=202, Body::Empty) => true,
        (Kind::Poll, 200, Body::State(_)) => true,
        _ => false,
    }
}

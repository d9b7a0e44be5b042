//! Why a broker refuses a request before it looks at any instance.
ghost use Rattle.std.specs.Prelude.{◌≡◌, Some};
ghost use Rattle.serde_json.specs.Written.{compact_text};
ghost use Rattle.osb_message.specs.declared.messages.Kind.{Kind};
ghost use Rattle.osb_wire.specs.Answers.{answer_in};
ghost use Rattle.osb_wire.specs.Bodies.{object_in};
ghost use Rattle.osb_wire.specs.Refusals as refusals;

use thiserror::Error;

/// Why a broker refuses a request before it looks at any instance. It answers with
/// [`status`](Refusal::status) and [`body`](Refusal::body), and nothing has changed.
#[derive(Clone, Copy, Debug, PartialEq, Eq, Hash, Error)]
pub enum Refusal {
    /// The path is no instance's, and no last operation's: 404.
    #[error("there is no such target")]
    NoSuchTarget,
    /// The method isn't one of the target's: 405, beside which HTTP wants the header `Allow`.
    #[error("the target has no such method")]
    NoSuchMethod,
    /// The version that the platform names isn't 2.x, or it names none: 412.
    #[error("the version must be 2.0 or a later 2.x")]
    BadVersion,
    /// The body is longer than the broker allows: 413.
    #[error("the body is too long")]
    TooLong,
    /// The id of the instance isn't UTF-8, is empty or longer than 255 bytes, or is `.` or `..`: 400.
    #[error("the instance id must be UTF-8 of 1 to 255 bytes, and no dot segment")]
    BadInstance,
    /// A parameter of the query stands twice: 400.
    #[error("a parameter stands twice")]
    Repeated,
    /// `service_id` is missing, no string, empty or longer than 255 bytes: 400.
    #[error("service_id must be a string of 1 to 255 bytes")]
    BadService,
    /// `plan_id` is missing, no string, empty or longer than 255 bytes: 400.
    #[error("plan_id must be a string of 1 to 255 bytes")]
    BadPlan,
    /// `accepts_incomplete` is neither `true` nor `false`: 400.
    #[error("accepts_incomplete must be true or false")]
    BadAcceptsIncomplete,
    /// The body isn't UTF-8, isn't JSON, or is no object: 400.
    #[error("the body must be a JSON object")]
    NotAnObject,
    /// `organization_guid` is missing, no string, or empty: 400.
    #[error("organization_guid must be a string that is not empty")]
    BadOrganization,
    /// `space_guid` is missing, no string, or empty: 400.
    #[error("space_guid must be a string that is not empty")]
    BadSpace,
    /// An allocation failed: 503.
    #[error("the broker has no memory left")]
    Memory,
}

impl Refusal {
    /// The status to answer with (this project's choice where the standard names none: it has 400, 412
    /// and 422). It takes no memory.
    pub fn status(self) -> u16
        ensures status { result ≡ refusals.status_of self }
    {
        match self {
            Refusal::NoSuchTarget => 404,
            Refusal::NoSuchMethod => 405,
            Refusal::BadVersion => 412,
            Refusal::TooLong => 413,
            Refusal::Memory => 503,
            Refusal::BadInstance
            | Refusal::Repeated
            | Refusal::BadService
            | Refusal::BadPlan
            | Refusal::BadAcceptsIncomplete
            | Refusal::NotAnObject
            | Refusal::BadOrganization
            | Refusal::BadSpace => 400,
        }
    }

    /// The body to answer with: an object with `error` and a `description` for a person (section Service
    /// Broker Errors), with no spaces. It takes no memory, so that want of it can be told.
    ///
    /// A platform that reads it by [`read_answer`](crate::read_answer) takes 404, 405, 412 and 413 to a
    /// Provision for a gateway's, and cleans up; 400 and 503 it takes for the broker's error.
    pub fn body(self) -> &'static str
        ensures text { result.now ≡ compact_text (refusals.object_of self) }
        ensures reads { object_in result.now ≡ Some (refusals.object_of self) }
        ensures taken { (kind : Kind) → answer_in kind (refusals.status_of self) result.now
            ≡ refusals.taken_for kind self }
    {
        match self {
            Refusal::NoSuchTarget => {
                "{\"description\":\"There is no such target.\",\"error\":\"NotFound\"}"
            }
            Refusal::NoSuchMethod => {
                "{\"description\":\"The target has no such method.\",\"error\":\"MethodNotAllowed\"}"
            }
            Refusal::BadVersion => {
                "{\"description\":\"The version must be 2.0 or a later 2.x.\",\"error\":\"PreconditionFailed\"}"
            }
            Refusal::TooLong => {
                "{\"description\":\"The body is too long.\",\"error\":\"ContentTooLarge\"}"
            }
            Refusal::BadInstance => {
                "{\"description\":\"The instance id must be UTF-8 of 1 to 255 bytes, and no dot segment.\",\"error\":\"BadRequest\"}"
            }
            Refusal::Repeated => {
                "{\"description\":\"A parameter stands twice.\",\"error\":\"BadRequest\"}"
            }
            Refusal::BadService => {
                "{\"description\":\"service_id must be a string of 1 to 255 bytes.\",\"error\":\"BadRequest\"}"
            }
            Refusal::BadPlan => {
                "{\"description\":\"plan_id must be a string of 1 to 255 bytes.\",\"error\":\"BadRequest\"}"
            }
            Refusal::BadAcceptsIncomplete => {
                "{\"description\":\"accepts_incomplete must be true or false.\",\"error\":\"BadRequest\"}"
            }
            Refusal::NotAnObject => {
                "{\"description\":\"The body must be a JSON object.\",\"error\":\"BadRequest\"}"
            }
            Refusal::BadOrganization => {
                "{\"description\":\"organization_guid must be a string that is not empty.\",\"error\":\"BadRequest\"}"
            }
            Refusal::BadSpace => {
                "{\"description\":\"space_guid must be a string that is not empty.\",\"error\":\"BadRequest\"}"
            }
            Refusal::Memory => {
                "{\"description\":\"The broker has no memory left.\",\"error\":\"ServiceUnavailable\"}"
            }
        }
    }
}

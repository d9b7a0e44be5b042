//! What a broker holds of one instance.
ghost use Rattle.std.specs.Prelude.{◌≡◌, Some};
ghost use Rattle.std.specs.Fmt.{styled_text};
ghost use Rattle.osb_broker.specs.Answers.{same_plan};
ghost use Rattle.osb_broker.specs.Words.{phase_word, phase_named};

use osb_message::{PlanId, Request, ServiceId};
use std::fmt;

/// How far an instance is in its life. It is printed as [`Phase::word`] says.
///
/// A Poll is told of it as the state of the last operation (section Polling Last Operation for
/// Service Instances). That a broker goes on holding an instance that failed, is being deleted or
/// could not be deleted is this project's choice; the platform has it deleted (section Orphan
/// Mitigation).
#[derive(Clone, Copy, Debug, PartialEq, Eq, Hash)]
pub enum Phase {
    /// It is being made. The plan is asynchronous, as in all phases but `Ready`.
    Making,
    /// It is there, complete.
    Ready,
    /// It could not be made. What is left of it waits for a Deprovision.
    Failed,
    /// It is being deleted.
    Deleting,
    /// It could not be deleted. What is left of it waits for another Deprovision.
    DeleteFailed,
}

impl Phase {
    /// The word of the phase: `making`, `ready`, `failed`, `deleting` or `delete-failed` (this
    /// project's choice). It takes no memory.
    pub fn word(self) -> &'static str
        ensures word { result.now ≡ phase_word self }
    {
        match self {
            Phase::Making => "making",
            Phase::Ready => "ready",
            Phase::Failed => "failed",
            Phase::Deleting => "deleting",
            Phase::DeleteFailed => "delete-failed",
        }
    }

    /// The phase that a word names, as [`Phase::word`] gives it; none for every other text (this project's
    /// choice). It takes no memory.
    pub fn from_word(word: &str) -> Option<Phase>
        ensures phase { result ≡ phase_named word.now }
    {
        match word {
            "making" => Some(Phase::Making),
            "ready" => Some(Phase::Ready),
            "failed" => Some(Phase::Failed),
            "deleting" => Some(Phase::Deleting),
            "delete-failed" => Some(Phase::DeleteFailed),
            _ => None,
        }
    }
}

impl fmt::Display for Phase {
    ghost output = { λ phase. Some (phase_word phase) };

    ghost styled_output = { λ phase style. Some (styled_text style (phase_word phase)) };

    fn fmt<W: fmt::Write>(&self, f: &mut fmt::Formatter<W>) -> fmt::Result {
        f.pad(self.word())
    }
}

/// What a broker holds of an instance: the service and plan that it was made with, and its phase
/// (this project's choice; the standard leaves to the broker what it keeps).
#[derive(Clone, Copy, Debug, PartialEq, Eq, Hash)]
pub struct BrokerRow {
    /// The instance's service (`service_id`).
    pub service: ServiceId,
    /// The instance's plan (`plan_id`).
    pub plan: PlanId,
    /// How far the instance is in its life.
    pub phase: Phase,
}

impl BrokerRow {
    // Whether the request names the service and plan that the instance was made with.
    pub(crate) fn is_of_plan(&self, request: &Request) -> bool
        ensures same { result ≡ same_plan self.now request.now }
    {
        self.service == request.service && self.plan == request.plan
    }
}

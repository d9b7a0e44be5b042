//! The row of an instance that a broker holds.
ghost use Rattle.std.specs.Prelude.{◌≡◌, Some};
ghost use Rattle.osb_instance.specs.Rows.{broker_row, held_row, is_waiting, phase_in, phase_named, phase_word, row_phase};

use osb_broker::{BrokerRow, Phase};
use osb_message::{PlanId, ServiceId};

/// The phase of an instance that a broker holds: those of the broker's tables, and `waiting` (this project's choice).
#[derive(Clone, Copy, Debug, PartialEq, Eq, Hash)]
pub enum HoldingPhase {
    /// A Provision was accepted, and the making begins with the first Poll.
    Waiting,
    /// It is being made.
    Making,
    /// It exists, complete.
    Ready,
    /// It could not be made.
    Failed,
    /// It is being deleted.
    Deleting,
    /// It could not be deleted.
    DeleteFailed,
}

impl HoldingPhase {
    /// The word of the phase: `waiting`, or that of [`Phase::word`](osb_broker::Phase::word). It takes no memory.
    pub fn word(self) -> &'static str
        ensures word { result.now ≡ phase_word self }
    {
        match self {
            HoldingPhase::Waiting => "waiting",
            _ => self.in_tables().word(),
        }
    }

    /// The phase that a word names, as [`HoldingPhase::word`] gives it; none for every other text. It takes no memory.
    pub fn from_word(word: &str) -> Option<HoldingPhase>
        ensures phase { result ≡ phase_named word.now }
    {
        if word == "waiting" {
            return Some(HoldingPhase::Waiting);
        }
        match Phase::from_word(word) {
            None => None,
            Some(phase) => Some(HoldingPhase::of(phase, false)),
        }
    }

    // The phase of a row that may wait.
    pub(crate) fn of(phase: Phase, waiting: bool) -> HoldingPhase
        ensures phase { result ≡ phase_in phase waiting }
    {
        match (phase, waiting) {
            (Phase::Making, true) => HoldingPhase::Waiting,
            (Phase::Making, false) => HoldingPhase::Making,
            (Phase::Ready, _) => HoldingPhase::Ready,
            (Phase::Failed, _) => HoldingPhase::Failed,
            (Phase::Deleting, _) => HoldingPhase::Deleting,
            (Phase::DeleteFailed, _) => HoldingPhase::DeleteFailed,
        }
    }

    // The phase that the broker's tables have in its place.
    pub(crate) fn in_tables(self) -> Phase
        ensures phase { result ≡ row_phase self }
    {
        match self {
            HoldingPhase::Waiting | HoldingPhase::Making => Phase::Making,
            HoldingPhase::Ready => Phase::Ready,
            HoldingPhase::Failed => Phase::Failed,
            HoldingPhase::Deleting => Phase::Deleting,
            HoldingPhase::DeleteFailed => Phase::DeleteFailed,
        }
    }
}

/// The row of an instance that a broker holds: the service and plan that the instance was made with, and its phase.
#[derive(Clone, Copy, Debug, PartialEq, Eq, Hash)]
pub struct HoldingRow {
    /// The service.
    pub service: ServiceId,
    /// The plan.
    pub plan: PlanId,
    /// The phase.
    pub phase: HoldingPhase,
}

impl HoldingRow {
    // The row of the broker's tables, if it waits for its first Poll or doesn't.
    pub(crate) fn of(row: BrokerRow, waiting: bool) -> HoldingRow
        ensures row { Some result ≡ held_row (Some row) waiting }
    {
        HoldingRow {
            service: row.service,
            plan: row.plan,
            phase: HoldingPhase::of(row.phase, waiting),
        }
    }

    /// The row that the broker's tables have in its place: that of an instance in `waiting` is `making` there. It takes
    /// no memory.
    pub fn in_tables(&self) -> BrokerRow
        ensures row { result ≡ broker_row self.now }
    {
        BrokerRow {
            service: self.service,
            plan: self.plan,
            phase: self.phase.in_tables(),
        }
    }

    // Whether it waits for its first Poll.
    pub(crate) fn is_waiting(&self) -> bool
        ensures waiting { result ≡ is_waiting self.now.phase }
    {
        matches!(self.phase, HoldingPhase::Waiting)
    }
}

//! Why an event is skipped (this project's choice).
ghost use Rattle.std.specs.Prelude.{◌≡◌, false, is_some, if◌then◌else◌};
ghost use Rattle.osb_platform.specs.State.{due, is_polling, is_removable};
ghost use Rattle.osb_trace.specs.declared.reason.Reason.TheVariants.{Busy, NothingDue, NotPolling, NotRemovable};
ghost use Rattle.osb_trace.specs.Reasons.{known_reason, reason_of, reason_word, IsReason, IsSpoken};
ghost use Rattle.osb_world.specs.Steps.{applies};

use osb_event::Event;
use osb_platform::{PlatformRow, State, kind_due};
use osb_world::Cell;

/// Why an event was skipped (this project's choice).
#[derive(Clone, Copy, Debug, PartialEq, Eq)]
pub enum Reason {
    /// No instance of the id was ever asked for.
    Unknown,
    /// An instance of the id was asked for before.
    IdUsed,
    /// In this state it could be, were no request out.
    Busy,
    /// No request is out.
    NothingOut,
    /// No answer travels.
    NothingTravels,
    /// In this state no request is due.
    NothingDue,
    /// The platform isn't polling until the instance is made.
    NotPolling,
    /// In this state an operator can't have the instance removed.
    NotRemovable,
    /// The broker isn't at work on the instance.
    NothingRunning,
}

impl Reason {
    /// The word of the reason, as it is printed (this project's choice). It takes no memory.
    pub fn word(self) -> &'static str
        ensures word { result.now ≡ reason_word self }
    {
        match self {
            Reason::Unknown => "unknown",
            Reason::IdUsed => "id-used",
            Reason::Busy => "busy",
            Reason::NothingOut => "nothing-out",
            Reason::NothingTravels => "nothing-travels",
            Reason::NothingDue => "nothing-due",
            Reason::NotPolling => "not-polling",
            Reason::NotRemovable => "not-removable",
            Reason::NothingRunning => "nothing-running",
        }
    }
}

// Why an operator doesn't have the instance removed, in this state.
fn not_removed(state: State) -> Reason
    ensures reason { result ≡ if is_removable state then Busy else NotRemovable }
{
    match state {
        State::Polling | State::Ready | State::Unsettled => Reason::Busy,
        _ => Reason::NotRemovable,
    }
}

// Why the platform sends nothing, in this state.
fn not_sent(state: State) -> Reason
    ensures reason { result ≡ if is_some (due state) then Busy else NothingDue }
{
    match kind_due(state) {
        Some(_) => Reason::Busy,
        None => Reason::NothingDue,
    }
}

// Why the maximum polling duration doesn't pass, in this state.
fn not_expired(state: State) -> Reason
    ensures reason { result ≡ if is_polling state then Busy else NotPolling }
{
    match state {
        State::Polling => Reason::Busy,
        _ => Reason::NotPolling,
    }
}

// Why an event of an instance with this record is skipped.
fn known_reason(row: PlatformRow, event: Event) -> Reason
    ensures reason { result ≡ known_reason row event }
{
    match event {
        Event::Create { .. } => Reason::IdUsed,
        Event::Remove { .. } => not_removed(row.state),
        Event::Send { .. } => not_sent(row.state),
        Event::Expire { .. } => not_expired(row.state),
        Event::Deliver { .. } | Event::Gateway { .. } | Event::Timeout { .. } => Reason::NothingOut,
        Event::Repeat { .. } | Event::Lose { .. } | Event::Garble { .. } | Event::Answer { .. } => {
            Reason::NothingTravels
        }
        Event::Finish { .. } => Reason::NothingRunning,
        // It is never skipped.
        Event::Restart => Reason::Unknown,
    }
}

/// Why an event is skipped where there is this of its instance (this project's choice). Of an event that doesn't
/// apply, what it says is so. It says nothing of an event that applies, nor of a [`Event::Gateway`] whose status is
/// none of 500 to 599, as no schedule has. It takes no memory.
pub fn reason_of(cell: &Cell, event: Event) -> Reason
    ensures reason { result ≡ reason_of cell.now event }
    ensures so { applies cell.now event ≡ false → IsSpoken event → IsReason cell.now event result }
{
    match cell.platform {
        Some(row) => known_reason(row, event),
        None => Reason::Unknown,
    }
}

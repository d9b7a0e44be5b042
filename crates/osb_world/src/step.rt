//! What became of an event.

/// What became of an event (this project's choice).
#[derive(Clone, Copy, Debug, PartialEq, Eq, Hash)]
pub enum Step {
    /// The event applied: its instance, or at a restart each of them, has taken the event's step.
    Applied,
    /// The event didn't apply, and nothing has changed.
    Skipped,
}

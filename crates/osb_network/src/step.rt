//! What became of an event.

/// What became of an event (this project's choice).
#[derive(Clone, Copy, Debug, PartialEq, Eq, Hash)]
pub enum Step {
    /// The event applied, and the instance has taken its step.
    Applied,
    /// The event didn't apply, and nothing has changed.
    Skipped,
}

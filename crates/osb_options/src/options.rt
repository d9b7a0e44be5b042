//! What a replay does besides running the schedule and reporting, and which events a trace tells of.
use osb_message::InstanceId;

/// What a replay does besides running the schedule and reporting (this project's choice).
#[derive(Clone, Copy, Debug, PartialEq, Eq)]
pub struct Options {
    /// Whether each recorded instance is settled after the last event, in ascending order of the ids,
    /// as by `World::settle` of `osb_world`. The report tells what stands then; the counts
    /// stay those of the schedule's events.
    pub settle: bool,
    /// Whether a last line follows: the platform's saved record, as by
    /// `World::save` of `osb_world`.
    pub saved: bool,
}

/// Which events a trace tells of (this project's choice).
#[derive(Clone, Copy, Debug, PartialEq, Eq)]
pub struct TraceOptions {
    /// The instance whose events it tells of, and the restarts; every instance's, where there is none.
    pub instance: Option<InstanceId>,
    /// Whether the fault-free rounds follow in which each created instance is settled after the last event, in
    /// ascending order of the ids, as by `World::settle` of `osb_world`.
    pub settle: bool,
}

/// What is written of a network schedule: a report or a trace (this project's choice).
#[derive(Clone, Copy, Debug, PartialEq, Eq)]
pub enum NetworkOptions {
    /// The report at the end.
    Report {
        /// Whether each instance, and then each of its bindings, is settled after the last event. The counts stay those
        /// of the schedule's events.
        settle: bool,
    },
    /// A line for each event.
    Trace {
        /// The instance whose events it reports, with those of its bindings; every instance's, if there is none.
        instance: Option<InstanceId>,
    },
}

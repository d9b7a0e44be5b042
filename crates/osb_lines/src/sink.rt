//! What takes the lines of a schedule.
ghost use Rattle.std.specs.Prelude.{◌≡◌, ◌+◌, ◌<◌, ◌≤◌, ℕ, List, [], ◌∷◌, ◌++◌, length, None, IfErr, OnErr, OnOk};
ghost use Rattle.osb_lines.specs.Limits.{most_lines};
ghost use Rattle.osb_lines.specs.Schedule.{said_fault};
ghost use Rattle.osb_lines.specs.Sink.{IsLineFault};

use osb_language::ScheduleFault;

/// What takes the lines of a schedule, one after another (this project's choice). A
/// [`LineReader`](crate::LineReader) gives them to it.
///
/// Contracts know of a sink which lines it has taken, and how many events it has let happen.
pub trait Sink: Drop {
    // Holds where the sink has taken these lines, and no others.
    ghost has_taken: { List (List ℕ) → Self → Type 0 };

    // How many events the sink has let happen.
    ghost happened: { Self → ℕ };

    /// Takes the line of this number, from 1, without its line feed, of a sink that has let fewer than 100,000
    /// events happen. It may take memory.
    ///
    /// # Errors
    ///
    /// [`ScheduleFault::At`] with the fault of what the line says, after those that were taken before.
    /// [`ScheduleFault::Memory`] where an allocation failed. No event has happened then, and the sink is given no
    /// further line.
    fn take_line(&mut self, number: u32, line: &[u8]) -> Result<(), ScheduleFault>
        requires room { happened self.old < most_lines }
        ensures good { (earlier : List (List ℕ)) → has_taken earlier self.old → number ≡ length earlier + 1
            → OnOk result ((said_fault earlier line.now ≡ None) × has_taken (earlier ++ line.now ∷ []) self.new) }
        ensures refused { (earlier : List (List ℕ)) → has_taken earlier self.old
            → IfErr result (IsLineFault number (said_fault earlier line.now)) }
        ensures counted { OnOk result (happened self.new ≤ happened self.old + 1) }
        ensures uncounted { OnErr result (happened self.new ≡ happened self.old) };
}

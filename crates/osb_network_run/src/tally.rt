//! A network, and how many events happened to it.
ghost use Rattle.std.specs.Prelude.{◌≡◌, ◌≢◌, ◌+◌, ◌<◌, ◌≤◌, length, IfErr, IfOk, None, OnErr, OnOk};
ghost use Rattle.std.specs.FinMap as finite;
ghost use Rattle.osb_language.specs.declared.replay_fault.ScheduleFault.TheVariants as Why;
ghost use Rattle.osb_lines.specs.Sink.{IsLineFault};
ghost use Rattle.osb_network.specs.Steps.{step_of};
ghost use Rattle.osb_network_run.specs.Faults.{fault_of, IsJudgedAs};
ghost use Rattle.osb_network_run.specs.Network.{network_applies};
ghost use Rattle.osb_network_run.specs.Tally as spec;

use crate::network::Network;
use osb_language::{LONGEST_LINE, LineFault, ScheduleFault};
use osb_lines::MOST_LINES;
use osb_message::Memory;
use osb_network::Step;
use osb_network_language::{NetworkEvent, read_network_line};
use std::alloc::Global;

/// A network, and how many events applied to it and were skipped (this project's choice).
#[derive(Drop)]
pub struct Tally {
    /// The network after the events.
    pub network: Network,
    /// How many events applied.
    pub applied: u32,
    /// How many were skipped.
    pub skipped: u32,
}

/// What the line says after so many others, if it has no fault (this project's choice). It takes no memory.
///
/// # Errors
///
/// [`ScheduleFault::At`] with the number of the line, from 1, and its fault.
pub fn judge_line(before: u32, line: &[u8]) -> Result<Option<NetworkEvent>, ScheduleFault>
    requires few { before ≤ MOST_LINES }
    ensures said { IfOk result (IsJudgedAs before line.now) }
    ensures refused { IfErr result (IsLineFault (before + 1) (fault_of before line.now)) }
    ensures no_memory { IfErr result (λ fault. fault ≢ Why.Memory) }
    ensures within { OnOk result ((before < MOST_LINES) × (length line.now ≤ LONGEST_LINE)) }
{
    let number = before + 1;
    if before == MOST_LINES {
        return Err(ScheduleFault::At {
            line: number,
            fault: LineFault::TooManyLines,
        });
    }
    match read_network_line(line) {
        Ok(said) => Ok(said),
        Err(fault) => Err(ScheduleFault::At {
            line: number,
            fault,
        }),
    }
}

impl Tally {
    /// A network without instances, to which nothing has happened. It takes no memory.
    pub fn new(alloc: Global) -> Tally
        ensures none { result ≡ spec.no_tally }
    {
        Tally {
            network: Network::new(alloc),
            applied: 0,
            skipped: 0,
        }
    }

    /// Lets an event happen, and counts it.
    ///
    /// # Errors
    ///
    /// [`Memory`] if an allocation failed. Network and counts are then as before.
    pub fn take_event(&mut self, alloc: Global, event: NetworkEvent) -> Result<Step, Memory>
        requires room { self.old.applied + self.old.skipped < MOST_LINES }
        ensures tally { OnOk result (self.new ≡ spec.with_event self.old event) }
        ensures applied { IfOk result (λ s. s ≡ step_of (network_applies self.old.network event)) }
        ensures err { OnErr result (self.new ≡ self.old) }
        ensures counted { OnOk result (self.new.applied + self.new.skipped ≡ self.old.applied + self.old.skipped + 1) }
    {
        let step = self.network.step(alloc, event)?;
        match step {
            Step::Applied => self.applied += 1,
            Step::Skipped => self.skipped += 1,
        }
        Ok(step)
    }

    // Lets an event happen that a line says.
    fn count(&mut self, alloc: Global, event: NetworkEvent) -> Result<(), ScheduleFault>
        requires room { self.old.applied + self.old.skipped < MOST_LINES }
        ensures tally { OnOk result (self.new ≡ spec.with_event self.old event) }
        ensures memory { IfErr result (λ fault. fault ≡ Why.Memory) }
        ensures err { OnErr result (self.new ≡ self.old) }
        ensures counted { OnOk result (self.new.applied + self.new.skipped ≡ self.old.applied + self.old.skipped + 1) }
    {
        match self.take_event(alloc, event) {
            Ok(_) => Ok(()),
            Err(Memory) => Err(ScheduleFault::Memory),
        }
    }

    /// Takes a line after so many others: what it says happens.
    ///
    /// # Errors
    ///
    /// [`ScheduleFault::At`] with the number of the line, from 1, and its fault. [`ScheduleFault::Memory`] if an
    /// allocation failed. Network and counts are then as before.
    pub fn take_line(
        &mut self,
        alloc: Global,
        before: u32,
        line: &[u8],
    ) -> Result<(), ScheduleFault>
        requires few { before ≤ MOST_LINES }
        requires counted { self.old.applied + self.old.skipped ≤ before }
        ensures tally { OnOk result ((fault_of before line.now ≡ None)
            × (self.new ≡ spec.with_line self.old line.now)) }
        ensures refused { IfErr result (IsLineFault (before + 1) (fault_of before line.now)) }
        ensures err { OnErr result (self.new ≡ self.old) }
        ensures counted { OnOk result (self.new.applied + self.new.skipped ≤ before + 1) }
        ensures within { OnOk result ((before < MOST_LINES) × (length line.now ≤ LONGEST_LINE)) }
    {
        match judge_line(before, line) {
            Ok(Some(event)) => self.count(alloc, event),
            Ok(None) => Ok(()),
            Err(fault) => Err(fault),
        }
    }
}

//! What is written of a schedule that stands in memory.
ghost use Rattle.std.specs.Prelude.{◌≡◌, ◌<◌, length, IfErr, IfOk, None, OnOk};
ghost use Rattle.osb_lines.specs.Lines.{lines};
ghost use Rattle.osb_network_run.specs.Faults.{first_fault, IsWhyRefused};
ghost use Rattle.osb_network_run.specs.Tally.{tally_of};
ghost use Rattle.osb_network_replay.specs.Replay.{IsWritten};
ghost use Rattle.osb_network_replay.specs.Report.{IsReport};

use crate::report::report;
use crate::trace::trace;
use osb_language::ScheduleFault;
use osb_lines::MOST_BYTES;
use osb_message::Memory;
use osb_network_run::run_lines;
use osb_options::NetworkOptions;
use std::alloc::Global;

// The report of a text.
fn report_text(alloc: Global, text: &[u8], settle: bool) -> Result<Vec<u8>, ScheduleFault>
    ensures report { IfOk result (λ report. IsReport settle (tally_of (lines text.now)) report.items) }
    ensures faultless { OnOk result (first_fault 0 (lines text.now) ≡ None) }
    ensures fault { IfErr result (IsWhyRefused (lines text.now)) }
    ensures bound { OnOk result (length text.now < MOST_BYTES) }
{
    let tally = run_lines(alloc, text)?;
    match report(alloc, tally, settle) {
        Ok(report) => Ok(report),
        Err(Memory) => Err(ScheduleFault::Memory),
    }
}

/// The report or the trace of a network schedule that stands in memory (this project's choice).
///
/// # Errors
///
/// [`ScheduleFault::At`] with the first line that has a fault. [`ScheduleFault::Memory`] if an allocation failed.
pub fn write_network(
    alloc: Global,
    text: &[u8],
    options: NetworkOptions,
) -> Result<Vec<u8>, ScheduleFault>
    ensures written { IfOk result (λ written. IsWritten options text.now written.items) }
    ensures faultless { OnOk result (first_fault 0 (lines text.now) ≡ None) }
    ensures fault { IfErr result (IsWhyRefused (lines text.now)) }
    ensures bound { OnOk result (length text.now < MOST_BYTES) }
{
    match options {
        NetworkOptions::Report { settle } => report_text(alloc, text, settle),
        NetworkOptions::Trace { instance } => trace(alloc, text, instance),
    }
}

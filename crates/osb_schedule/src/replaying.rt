//! A schedule is read and run line by line, and its report is written.
ghost use Rattle.std.specs.Prelude.{◌≡◌, ◌≢◌, ℕ, List, false, IfErr, IfOk, OnOk};
ghost use Rattle.osb_lines.specs.Reads.{IsWhyUnread, ReadsFew, ReadsWhole};
ghost use Rattle.osb_schedule.specs.Report.{IsReport};
ghost use Rattle.osb_schedule.specs.Replay.{WritesReport};
ghost use Rattle.osb_language.specs.declared.replay_fault.ReplayFault.TheVariants.{Write};

use crate::report::report;
use osb_device::{DeviceFault, Input, Output};
use osb_language::ReplayFault;
use osb_lines::read_lines;
use osb_message::Memory;
use osb_options::Options;
use osb_run::Run;
use std::alloc::Global;
use std::io::{Read, Write};

// The report of the input, once it is read to its end.
fn report_input<R: Read>(
    alloc: Global,
    reader: &mut Input<R>,
    options: Options,
) -> Result<Vec<u8>, ReplayFault>
    ensures ok { IfOk result (λ text. (bytes : List ℕ)
        × ReadsWhole (R.remaining reader.old.device) (R.remaining reader.new.device) bytes
        × IsReport options bytes text.items × (reader.new.refused ≡ false)) }
    ensures fault { IfErr result (λ fault. IsWhyUnread (R.remaining reader.old.device)
        (R.remaining reader.new.device) reader.new.refused false fault) }
    ensures bound { ReadsFew (R.remaining reader.old.device) (R.remaining reader.new.device) }
{
    let run = read_lines(Run::new(alloc), reader)?;
    match report(alloc, run.end(), options) {
        Ok(text) => Ok(text),
        Err(Memory) => Err(ReplayFault::Memory),
    }
}

/// Reads a schedule, lets its events happen one after another, and at its end writes the report:
/// a line for each created instance, ascending, with what the platform records and what the broker
/// holds, then how many events applied and how many didn't. Where the options say so, each created
/// instance is settled before, which counts as no event, and the platform's saved record follows. The
/// language of schedules and the report are this project's choice.
///
/// It asks for at most 4,096 bytes in one read, and keeps none of those that it has run; what takes
/// memory is the world of the instances, and the report. What is read before a fault stays read. It
/// ends on every reader: at the end of the input, where the reader fails, at the first faulty line,
/// and before the 51,300,002nd byte, since among so many some line has a fault.
///
/// # Errors
///
/// [`ReplayFault::Schedule`] with the first faulty line among those that were judged: a line is
/// judged as soon as its line feed is read, or its 513th byte, or the first byte of line 100,001,
/// and the last one at the end of the input. [`ReplayFault::Read`] where the reader failed and no
/// line that was judged before has a fault. [`ReplayFault::Write`] where the schedule has no fault
/// and the writer failed; nothing is said then of how much went out. [`ReplayFault::Memory`] where
/// an allocation failed. On every fault but `Write` nothing has been written.
pub fn replay<R: Read, W: Write>(
    alloc: Global,
    reader: &mut Input<R>,
    writer: &mut Output<W>,
    options: Options,
) -> Result<(), ReplayFault>
    ensures ok { OnOk result ((bytes : List ℕ)
        × ReadsWhole (R.remaining reader.old.device) (R.remaining reader.new.device) bytes
        × WritesReport options (W.contents writer.old.device) (W.contents writer.new.device) bytes) }
    ensures answered { OnOk result ((reader.new.refused ≡ false) × (writer.new.refused ≡ false)) }
    ensures fault { IfErr result (λ fault. IsWhyUnread (R.remaining reader.old.device)
        (R.remaining reader.new.device) reader.new.refused writer.new.refused fault) }
    ensures bound { ReadsFew (R.remaining reader.old.device) (R.remaining reader.new.device) }
    ensures unwritten { IfErr result (λ fault. fault ≢ Write → writer.new ≡ writer.old) }
{
    let text = report_input(alloc, reader, options)?;
    match writer.write_out(text.as_slice()) {
        Ok(()) => Ok(()),
        Err(DeviceFault) => Err(ReplayFault::Write),
    }
}

//! A schedule is read and run line by line, and what each line did is written.
ghost use Rattle.std.specs.Prelude.{◌≡◌, ℕ, List, false, IfErr, IfOk, OnOk};
ghost use Rattle.std.specs.Io.KnownBytes.{append_known};
ghost use Rattle.osb_lines.specs.Lines.{lines};
ghost use Rattle.osb_lines.specs.Reads.{ReadsFew, ReadsWhole};
ghost use Rattle.osb_run.specs.Run.{HasRun};
ghost use Rattle.osb_trace.specs.Trace.{IsWhyUntold, TellsTrace, WritesLines};

use crate::reading::tell_input;
use crate::settling::tell_settling;
use crate::teller::Teller;
use crate::tracer::Tracer;
use osb_device::{Input, Output};
use osb_language::ReplayFault;
use osb_lines::LineReader;
use osb_options::TraceOptions;
use osb_run::Run;
use std::alloc::Global;
use std::io::{Read, Write};

// Tells of the lines of the whole input, and gives their run.
fn tell_lines<R: Read, W: Write>(
    alloc: Global,
    reader: &mut Input<R>,
    teller: &mut Teller,
    writer: &mut Output<W>,
) -> Result<Run, ReplayFault>
    ensures ok { IfOk result (λ run. (bytes : List ℕ)
        × ReadsWhole (R.remaining reader.old.device) (R.remaining reader.new.device) bytes × HasRun (lines bytes) run
        × WritesLines teller.old.instance (append_known (W.contents writer.old.device) teller.old.buffer)
        (append_known (W.contents writer.new.device) teller.new.buffer) (lines bytes)) }
    ensures answered { OnOk result (reader.new.refused ≡ false) }
    ensures fault { IfErr result (IsWhyUntold teller.old.instance (R.remaining reader.old.device)
        (R.remaining reader.new.device) reader.new.refused
        (append_known (W.contents writer.old.device) teller.old.buffer)
        (append_known (W.contents writer.new.device) teller.new.buffer) writer.new.refused) }
    ensures bound { ReadsFew (R.remaining reader.old.device) (R.remaining reader.new.device) }
    ensures instance { teller.new.instance ≡ teller.old.instance }
{
    teller.tell_header(writer)?;
    let mut lines = LineReader::new(Tracer::new(alloc));
    tell_input(&mut lines, reader, teller, writer)?;
    if lines.take_last()? {
        teller.tell(lines.sink(), writer)?;
    }
    let Tracer { run, .. } = lines.into_sink();
    Ok(run)
}

// Tells of the whole input. What the writer hasn't got then is left in the teller's buffer.
fn tell_all<R: Read, W: Write>(
    alloc: Global,
    reader: &mut Input<R>,
    teller: &mut Teller,
    writer: &mut Output<W>,
    settle: bool,
) -> Result<(), ReplayFault>
    ensures ok { OnOk result ((bytes : List ℕ)
        × ReadsWhole (R.remaining reader.old.device) (R.remaining reader.new.device) bytes
        × TellsTrace teller.old.instance settle (append_known (W.contents writer.old.device) teller.old.buffer)
        (append_known (W.contents writer.new.device) teller.new.buffer) bytes) }
    ensures answered { OnOk result (reader.new.refused ≡ false) }
    ensures fault { IfErr result (IsWhyUntold teller.old.instance (R.remaining reader.old.device)
        (R.remaining reader.new.device) reader.new.refused
        (append_known (W.contents writer.old.device) teller.old.buffer)
        (append_known (W.contents writer.new.device) teller.new.buffer) writer.new.refused) }
    ensures bound { ReadsFew (R.remaining reader.old.device) (R.remaining reader.new.device) }
{
    let run = tell_lines(alloc, reader, teller, writer)?;
    if !settle {
        return Ok(());
    }
    tell_settling(alloc, run, teller, writer)
}

/// Reads a schedule, lets its events happen one after another, and writes what each did, as it is read: a header, and
/// a line for each event with the number of its line and its words, whether it applied or why it was skipped, and
/// what there is of its instance then. Where the options name an instance, the lines of its events and of the
/// restarts alone; and where they say so, the fault-free rounds in which each created instance is settled follow.
/// What a line says is parted by tabs. All of it is this project's choice.
///
/// It asks for at most 4,096 bytes in one read, and before each read the writer has got all lines of the events before
/// it; it writes through a buffer of a fixed size. What takes memory is the world of the instances, a line, and, at a
/// restart and in the end, a list of the ids. It ends on every reader: as `replay` of `osb_schedule` does.
///
/// # Errors
///
/// As those of `replay` of `osb_schedule`. On [`ReplayFault::Schedule`] and on [`ReplayFault::Read`] the writer
/// has got exactly the header and the lines of the events before it. [`ReplayFault::Write`] where the writer failed,
/// at whatever line; nothing is said then of how much went out.
pub fn trace<R: Read, W: Write>(
    alloc: Global,
    reader: &mut Input<R>,
    writer: &mut Output<W>,
    options: TraceOptions,
) -> Result<(), ReplayFault>
    ensures ok { OnOk result ((bytes : List ℕ)
        × ReadsWhole (R.remaining reader.old.device) (R.remaining reader.new.device) bytes
        × TellsTrace options.instance options.settle (W.contents writer.old.device) (W.contents writer.new.device)
        bytes) }
    ensures answered { OnOk result ((reader.new.refused ≡ false) × (writer.new.refused ≡ false)) }
    ensures fault { IfErr result (IsWhyUntold options.instance (R.remaining reader.old.device)
        (R.remaining reader.new.device) reader.new.refused (W.contents writer.old.device)
        (W.contents writer.new.device) writer.new.refused) }
    ensures bound { ReadsFew (R.remaining reader.old.device) (R.remaining reader.new.device) }
{
    let mut teller = Teller::new(alloc, options.instance);
    let outcome = tell_all(alloc, reader, &mut teller, writer, options.settle);
    // What was told before a fault of the schedule goes out too.
    match outcome {
        Err(ReplayFault::Write) => {}
        _ => teller.flush(writer)?,
    }
    outcome
}

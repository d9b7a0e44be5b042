//! What the program does of what its words ask for, and how it ends (this project's choice).
ghost use Rattle.std.specs.Prelude.{◌≡◌, ◌≢◌, IfErr, IsOkUnless, OnOk};
ghost use Rattle.std.specs.Io.KnownBytes.{Appends};
ghost use Rattle.std.specs.Process.{exit_status};
ghost use Rattle.osb_lines.specs.Reads.{ReadsFew};
ghost use Rattle.osb_language.specs.declared.replay_fault.ReplayFault.TheVariants.{Write as WriteFault};
ghost use Rattle.osb_command_line.specs.Program.{ending, IsAnswered, IsDone, IsUnwritten, IsWhyUndone};
ghost use Rattle.osb_words.specs.declared.command_line.Asked.TheVariants.{Table};

use osb_device::{Input, Output};
use osb_language::{ReplayFault, status_of};
use osb_network_replay::replay_network;
use osb_schedule::replay;
use osb_table::write_table;
use osb_trace::trace;
use osb_words::Asked;
use std::alloc::Global;
use std::io::{Read, Write};
use std::process::ExitCode;

// The status of a command line that is refused (this project's choice).
const REFUSED: u8 = 2;

/// Does what was asked for, from the reader to the writer. It takes no memory for the table.
///
/// # Errors
///
/// Those of [`replay`], of [`write_table`], of [`trace`] and of [`replay_network`].
pub fn carry_out<R: Read, W: Write>(
    alloc: Global,
    asked: Asked,
    reader: &mut Input<R>,
    writer: &mut Output<W>,
) -> Result<(), ReplayFault>
    ensures done { OnOk result (IsDone asked (R.remaining reader.old.device)
        (R.remaining reader.new.device) (W.contents writer.old.device)
        (W.contents writer.new.device)) }
    ensures fault { IfErr result (IsWhyUndone asked (R.remaining reader.old.device) (R.remaining reader.new.device)
        reader.new.refused (W.contents writer.old.device) (W.contents writer.new.device) writer.new.refused) }
    ensures answered { OnOk result (IsAnswered asked reader.new.refused writer.new.refused) }
    ensures bound { asked ≢ Table → ReadsFew (R.remaining reader.old.device) (R.remaining reader.new.device) }
    ensures unread { asked ≡ Table → reader.new ≡ reader.old }
    ensures unwritten { IfErr result (λ fault. fault ≢ WriteFault → IsUnwritten asked writer.old writer.new) }
{
    match asked {
        Asked::Replay(options) => replay(alloc, reader, writer, options),
        Asked::Table => write_table(writer),
        Asked::Trace(options) => trace(alloc, reader, writer, options),
        Asked::Network(options) => replay_network(alloc, reader, writer, options),
    }
}

/// Writes the help. It takes no memory.
///
/// # Errors
///
/// [`ReplayFault::Write`] where the writer failed; nothing is said then of how much went out.
pub fn show_help<W: Write>(writer: &mut W, text: &str) -> Result<(), ReplayFault>
    ensures text { OnOk result (Appends (W.contents writer.old) (W.contents writer.new) text.now) }
    ensures fault { IsOkUnless result WriteFault }
{
    match writer.write_all(text.as_bytes()) {
        Ok(()) => Ok(()),
        Err(_) => Err(ReplayFault::Write),
    }
}

/// Says on standard error why the command line is refused, and returns the status for that. Where
/// standard error fails too, the status says it all. It takes no memory.
pub fn refuse(rt: &impl Eprint, text: &str) -> ExitCode
    ensures status { exit_status result ≡ 2 }
{
    let _ = eprint!(rt; "{text}");
    ExitCode::from(REFUSED)
}

/// Says on standard error what went wrong, if anything did, and returns the status for it. Where
/// standard error fails too, the status says it all. It takes no memory.
pub fn end(rt: &impl Eprint, outcome: Result<(), ReplayFault>) -> ExitCode
    ensures status { exit_status result ≡ ending outcome }
{
    match outcome {
        Ok(()) => ExitCode::SUCCESS,
        Err(fault) => {
            let _ = eprintln!(rt; "osb-replay: {fault}");
            ExitCode::from(status_of(&fault))
        }
    }
}

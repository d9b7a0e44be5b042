//! A schedule is read to its end, piece by piece.
ghost use Rattle.std.specs.Prelude.{◌≡◌, ◌≤◌, ℕ, [], List, false, length, IfErr, IfOk, OnOk};
ghost use Rattle.std.specs.Io.KnownBytes.{Consumes, IsAtEnd};
ghost use Rattle.osb_lines.specs.Lines.{lines};
ghost use Rattle.osb_lines.specs.Reading.{HasRead};
ghost use Rattle.osb_lines.specs.Reads.{IsWhyUnread, ReadsFew, ReadsWhole};

use crate::limits::{LARGEST_READ, MOST_BYTES};
use crate::line_reader::LineReader;
use crate::sink::Sink;
use osb_device::Input;
use osb_language::ReplayFault;
use std::io::Read;

// Reads the input to its end, piece by piece, and takes its lines.
fn take_input<R: Read, S: Sink>(
    lines: &mut LineReader<S>,
    input: &mut Input<R>,
) -> Result<(), ReplayFault>
    requires nothing { HasRead S.has_taken [] lines.old }
    ensures ok { OnOk result ((bytes : List ℕ)
        × Consumes (R.remaining input.old.device) (R.remaining input.new.device) bytes
        × IsAtEnd (R.remaining input.new.device) × HasRead S.has_taken bytes lines.new × (input.new.refused ≡ false)) }
    ensures fault { IfErr result (λ fault. IsWhyUnread (R.remaining input.old.device)
        (R.remaining input.new.device) input.new.refused false fault) }
    ensures bound { ReadsFew (R.remaining input.old.device) (R.remaining input.new.device) }
{
    let mut piece = [0u8; LARGEST_READ];
    let mut left = MOST_BYTES;
    'pieces: while left > 0 {
        let room = &mut piece[..LARGEST_READ.min(left)];
        let Ok(count) = input.read(room) else {
            return Err(ReplayFault::Read);
        };
        if count == 0 {
            return Ok(());
        }
        left -= count;
        lines.take_piece(&room[..count])?;
    }
    // Some line of so many bytes has a fault.
    unreachable!()
}

/// Reads a schedule to its end, gives its lines to a sink that has taken none, one after another, and returns
/// the sink. How a line is judged, and how many bytes are read, is this project's choice.
///
/// It asks for at most 4,096 bytes in one read, and keeps none of a line that the sink has taken. What is read
/// before a fault stays read. It ends on every reader: at the end of the input, where the reader fails, at the
/// first faulty line, and before the 51,300,002nd byte, since among so many some line has a fault. It takes no
/// memory but what the sink takes.
///
/// # Errors
///
/// [`ReplayFault::Schedule`] with the first faulty line among those that were judged: a line is judged as soon
/// as its line feed is read, or its 513th byte, or the first byte of line 100,001, and the last one at the end
/// of the input. [`ReplayFault::Read`] where the reader failed and no line that was judged before has a fault.
/// [`ReplayFault::Memory`] where the sink found none.
pub fn read_lines<R: Read, S: Sink>(sink: S, input: &mut Input<R>) -> Result<S, ReplayFault>
    requires nothing { S.has_taken [] sink }
    requires none { S.happened sink ≡ 0 }
    ensures ok { IfOk result (λ took. (bytes : List ℕ)
        × ReadsWhole (R.remaining input.old.device) (R.remaining input.new.device) bytes
        × S.has_taken (lines bytes) took × (input.new.refused ≡ false)) }
    ensures fault { IfErr result (λ fault. IsWhyUnread (R.remaining input.old.device)
        (R.remaining input.new.device) input.new.refused false fault) }
    ensures bound { ReadsFew (R.remaining input.old.device) (R.remaining input.new.device) }
{
    let mut lines = LineReader::new(sink);
    take_input(&mut lines, input)?;
    Ok(lines.end()?)
}

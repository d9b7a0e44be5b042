//! A schedule is read to its end, piece by piece, and each of its lines is told of.
ghost use Rattle.std.specs.Prelude.{◌≡◌, ℕ, ◌+◌, ◌≤◌, false, List, [], ◌++◌, length, IfErr, OnOk};
ghost use Rattle.std.specs.Io.KnownBytes.{append_known, Consumes, IsAtEnd};
ghost use Rattle.osb_lines.specs.Reading.{most_read, HasReadAs};
ghost use Rattle.osb_lines.specs.Reads.{ReadsFew};
ghost use Rattle.osb_trace.specs.Heard.{HasTraced};
ghost use Rattle.osb_trace.specs.Passing.{HasTold, IsWhyStopped, IsWhyStuck};

use crate::teller::Teller;
use crate::tracer::Tracer;
use osb_device::{Input, Output};
use osb_language::ReplayFault;
use osb_lines::{LARGEST_READ, LineReader, MOST_BYTES};
use std::io::{Read, Write};

// Takes the next piece of the input, and tells of each line that it ends.
fn tell_piece<W: Write>(
    lines: &mut LineReader<Tracer>,
    piece: &[u8],
    teller: &mut Teller,
    writer: &mut Output<W>,
) -> Result<(), ReplayFault>
    ensures told { (bytes : List ℕ) (ended : List (List ℕ)) → HasReadAs HasTraced bytes lines.old ended
        → OnOk result (HasTold teller.old.instance (bytes ++ piece.now) lines.new ended
        (append_known (W.contents writer.old.device) teller.old.buffer)
        (append_known (W.contents writer.new.device) teller.new.buffer)) }
    ensures fault { (bytes : List ℕ) (ended : List (List ℕ)) → HasReadAs HasTraced bytes lines.old ended
        → IfErr result (IsWhyStuck teller.old.instance (bytes ++ piece.now) ended
        (append_known (W.contents writer.old.device) teller.old.buffer)
        (append_known (W.contents writer.new.device) teller.new.buffer) writer.new.refused) }
    ensures moves { OnOk result (most_read lines.old + length piece.now ≤ most_read lines.new) }
    ensures instance { teller.new.instance ≡ teller.old.instance }
{
    let mut rest = piece;
    while let Some(count) = lines.take_next(rest)? {
        teller.tell(lines.sink(), writer)?;
        rest = &rest[count..];
    }
    Ok(())
}

// Reads the input to its end, piece by piece, and tells of its lines: before each read of those that came before it.
pub fn tell_input<R: Read, W: Write>(
    lines: &mut LineReader<Tracer>,
    input: &mut Input<R>,
    teller: &mut Teller,
    writer: &mut Output<W>,
) -> Result<(), ReplayFault>
    requires nothing { HasReadAs HasTraced [] lines.old [] }
    ensures ok { OnOk result ((bytes : List ℕ)
        × Consumes (R.remaining input.old.device) (R.remaining input.new.device) bytes
        × IsAtEnd (R.remaining input.new.device) × HasTold teller.old.instance bytes lines.new []
        (append_known (W.contents writer.old.device) teller.old.buffer)
        (append_known (W.contents writer.new.device) teller.new.buffer)) }
    ensures answered { OnOk result (input.new.refused ≡ false) }
    ensures fault { IfErr result (IsWhyStopped teller.old.instance (R.remaining input.old.device)
        (R.remaining input.new.device) input.new.refused
        (append_known (W.contents writer.old.device) teller.old.buffer)
        (append_known (W.contents writer.new.device) teller.new.buffer) writer.new.refused) }
    ensures bound { ReadsFew (R.remaining input.old.device) (R.remaining input.new.device) }
    ensures instance { teller.new.instance ≡ teller.old.instance }
{
    let mut piece = [0u8; LARGEST_READ];
    let mut left = MOST_BYTES;
    'pieces: while left > 0 {
        let room = &mut piece[..LARGEST_READ.min(left)];
        let Ok(count) = input.read(room) else {
            return Err(ReplayFault::Read);
        };
        if count == 0 {
            return Ok(());
        }
        left -= count;
        tell_piece(lines, &room[..count], teller, writer)?;
        teller.flush(writer)?;
    }
    // Some line of so many bytes has a fault.
    unreachable!()
}

//! A network schedule is read to its end, and then its report or its trace is written.
ghost use Rattle.std.specs.Prelude.{◌≡◌, ◌≢◌, ◌++◌, false, IfErr, IfOk, OnOk};
ghost use Rattle.osb_language.specs.declared.replay_fault.ReplayFault.TheVariants as Why;
ghost use Rattle.osb_lines.specs.Reads.{ReadsFew};
ghost use Rattle.osb_network_replay.specs.Replay.{HasReadAll, IsReplayed, IsWhyUnread, IsWhyUnreplayed};

use crate::writing::write_network;
use osb_device::{DeviceFault, Input, Output};
use osb_language::ReplayFault;
use osb_lines::{LARGEST_READ, MOST_BYTES};
use osb_options::NetworkOptions;
use std::alloc::Global;
use std::io::{Read, Write};

// Adds a piece.
fn keep(text: &mut Vec<u8>, piece: &[u8]) -> Result<(), ReplayFault>
    ensures added { OnOk result (text.new.items ≡ text.old.items ++ piece.now) }
    ensures memory { IfErr result (λ fault. fault ≡ Why.Memory) }
{
    match text.extend_from_slice(piece) {
        Ok(()) => Ok(()),
        Err(_) => Err(ReplayFault::Memory),
    }
}

// Reads the input to its end, piece by piece, or so much of it that some line has a fault.
fn read_all<R: Read>(alloc: Global, reader: &mut Input<R>) -> Result<Vec<u8>, ReplayFault>
    ensures read { IfOk result (λ text.
        HasReadAll (R.remaining reader.old.device) (R.remaining reader.new.device) text.items) }
    ensures answered { OnOk result (reader.new.refused ≡ false) }
    ensures fault { IfErr result (IsWhyUnread reader.new.refused) }
    ensures bound { ReadsFew (R.remaining reader.old.device) (R.remaining reader.new.device) }
{
    let mut text = Vec::new(alloc);
    let mut piece = [0u8; LARGEST_READ];
    let mut left = MOST_BYTES;
    'pieces: while left > 0 {
        let room = &mut piece[..LARGEST_READ.min(left)];
        let Ok(count) = reader.read(room) else {
            return Err(ReplayFault::Read);
        };
        if count == 0 {
            return Ok(text);
        }
        left -= count;
        keep(&mut text, &room[..count])?;
    }
    Ok(text)
}

/// Reads a network schedule to its end, lets its events happen one after another, and then writes its report or its
/// trace (this project's choice).
///
/// It asks for at most 4,096 bytes in one read, and keeps the whole input in memory: at most 51,300,001 bytes, since
/// among so many some line has a fault.
///
/// # Errors
///
/// [`ReplayFault::Read`] if the reader failed, whatever stands in the lines before. [`ReplayFault::Schedule`] with the
/// first faulty line. [`ReplayFault::Write`] if the writer failed; nothing is said then of how much went out.
/// [`ReplayFault::Memory`] if an allocation failed. On every fault but `Write` nothing has been written.
pub fn replay_network<R: Read, W: Write>(
    alloc: Global,
    reader: &mut Input<R>,
    writer: &mut Output<W>,
    options: NetworkOptions,
) -> Result<(), ReplayFault>
    ensures ok { OnOk result (IsReplayed options (R.remaining reader.old.device) (R.remaining reader.new.device)
        (W.contents writer.old.device) (W.contents writer.new.device)) }
    ensures answered { OnOk result ((reader.new.refused ≡ false) × (writer.new.refused ≡ false)) }
    ensures fault { IfErr result (IsWhyUnreplayed (R.remaining reader.old.device) (R.remaining reader.new.device)
        reader.new.refused writer.new.refused) }
    ensures bound { ReadsFew (R.remaining reader.old.device) (R.remaining reader.new.device) }
    ensures unwritten { IfErr result (λ fault. fault ≢ Why.Write → writer.new ≡ writer.old) }
{
    let text = read_all(alloc, reader)?;
    let written = write_network(alloc, text.as_slice(), options)?;
    match writer.write_out(written.as_slice()) {
        Ok(()) => Ok(()),
        Err(DeviceFault) => Err(ReplayFault::Write),
    }
}

//! A schedule is replayed, and the table is written, to a writer that counts.
use crate::schedules::MADE;
use crate::telling::{Case, Returned, tell};
use anyhow::Result;
use osb_schedule::{DeviceFault, Input, Options, Output, ReplayFault, replay, write_table};
use std::alloc::Global;
use std::io::Write;
use std::{io, mem};

// The report alone.
const PLAIN: Options = Options {
    settle: false,
    saved: false,
};

#[derive(Clone, Copy)]
enum Call {
    Replay,
    Table,
    WriteNothing,
}

// A writer that takes all that it is given, and counts. It claims nothing of its bytes.
#[derive(Drop)]
struct Counting {
    bytes: usize,
    flushes: usize,
    fails_to_flush: bool,
}

impl Counting {
    fn new(fails_to_flush: bool) -> Counting {
        Counting {
            bytes: 0,
            flushes: 0,
            fails_to_flush,
        }
    }
}

impl Write for Counting {
    fn write(&mut self, bytes: &[u8]) -> io::Result<usize> {
        self.bytes = self.bytes.saturating_add(bytes.len());
        Ok(bytes.len())
    }

    fn flush(&mut self) -> io::Result<()> {
        self.flushes = self.flushes.saturating_add(1);
        if self.fails_to_flush {
            return Err(io::Error::from(io::ErrorKind::Other));
        }
        Ok(())
    }
}

#[derive(Drop)]
struct WriterCase {
    device: Counting,
    refused: bool,
    call: Call,
    alloc: Global,
}

impl WriterCase {
    fn call_over(&self, writer: &mut Output<Counting>) -> Returned {
        match self.call {
            Call::Replay => {
                let mut reader = Input::new(MADE.as_bytes());
                replayed(replay(self.alloc, &mut reader, writer, PLAIN))
            }
            Call::Table => replayed(write_table(writer)),
            Call::WriteNothing => match writer.write(b"") {
                Ok(0) => Returned::Word("0"),
                Ok(_) => Returned::Word("more"),
                Err(DeviceFault) => Returned::Word("DeviceFault"),
            },
        }
    }
}

fn replayed(returned: Result<(), ReplayFault>) -> Returned {
    match returned {
        Ok(()) => Returned::Word("Ok"),
        Err(ReplayFault::Memory) => Returned::Memory,
        Err(ReplayFault::Write) => Returned::Word("write failed"),
        Err(_) => Returned::Word("another fault"),
    }
}

impl Case for WriterCase {
    fn state(&self, alloc: Global) -> Result<String> {
        let (bytes, flushes, refused) = (self.device.bytes, self.device.flushes, self.refused);
        Ok(format!(in alloc; "bytes {bytes}, flushes {flushes}, refused {refused}")?)
    }

    fn call(&mut self) -> Returned {
        let device = mem::replace(&mut self.device, Counting::new(false));
        let mut writer = Output::new(device);
        let returned = self.call_over(&mut writer);
        self.refused = writer.refused();
        self.device = writer.into_inner();
        returned
    }
}

fn case_of(alloc: Global, call: Call, fails_to_flush: bool) -> WriterCase {
    WriterCase {
        device: Counting::new(fails_to_flush),
        refused: false,
        call,
        alloc,
    }
}

// To a writer of its own each.
pub fn tell_all(rt: &impl Print, alloc: Global) -> Result<()> {
    let mut case = case_of(alloc, Call::Replay, false);
    tell(rt, alloc, "replay", &mut case)?;
    let mut case = case_of(alloc, Call::Replay, true);
    tell(
        rt,
        alloc,
        "replay to a writer that can't be flushed",
        &mut case,
    )?;
    let mut case = case_of(alloc, Call::Table, false);
    tell(rt, alloc, "write_table, without memory", &mut case)?;
    let mut case = case_of(alloc, Call::Table, true);
    tell(
        rt,
        alloc,
        "write_table to a writer that can't be flushed, without memory",
        &mut case,
    )?;
    let mut case = case_of(alloc, Call::WriteNothing, false);
    tell(
        rt,
        alloc,
        "Output::write of no bytes, without memory",
        &mut case,
    )
}

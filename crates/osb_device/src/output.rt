//! A writer that is asked no more once it has failed.
ghost use Rattle.std.specs.Prelude.{◌≡◌, false, true, length, IfOk, IsTrue, OnErr, OnOk, is_err};
ghost use Rattle.std.specs.Io.{WritesAtMost};
ghost use Rattle.std.specs.Io.KnownBytes.{Appends, Keeps, WriteAppends};

use crate::fault::DeviceFault;
use std::io::Write;
use std::marker::Model;

/// A writer that is asked no more once it has returned an error or taken nothing (this project's
/// choice). Its calls take no memory.
///
/// Contracts see the writer, and whether it has refused.
#[derive(Drop)]
pub struct Output<W> {
    writer: W,
    refused: bool,
}

impl<W> Model for Output<W> {
    ghost use Rattle.osb_device.specs.Device.{Device};

    ghost Value = { Device W };

    ghost view = { λ d. record { device = d.writer; refused = d.refused } };
}

impl<W> Output<W> {
    /// An output over a writer, which hasn't refused.
    pub fn new(writer: W) -> Output<W>
        ensures device { result.device ≡ writer }
        ensures refused { result.refused ≡ false }
    {
        Output {
            writer,
            refused: false,
        }
    }

    /// Whether the writer has returned an error or taken nothing.
    pub fn refused(&self) -> bool
        ensures refused { result ≡ self.now.refused }
    {
        self.refused
    }

    fn refuse(&mut self) -> DeviceFault
        ensures device { self.new.device ≡ self.old.device }
        ensures refused { self.new.refused ≡ true }
    {
        self.refused = true;
        DeviceFault
    }

    /// The writer, as the calls so far left it.
    pub fn into_inner(self) -> W
        ensures device { result ≡ self.device }
    {
        self.writer
    }
}

impl<W: Write> Output<W> {
    /// Gives the bytes to the writer once, and returns how many it took, from the front: 0 only where
    /// there were none.
    ///
    /// # Errors
    ///
    /// [`DeviceFault`] where the writer returns an error, of whatever kind, or takes none of the
    /// bytes. From then on each call returns it and asks nothing.
    pub fn write(&mut self, bytes: &[u8]) -> Result<usize, DeviceFault>
        ensures bound { WritesAtMost result bytes.now }
        ensures bytes { WriteAppends (W.contents self.old.device) (W.contents self.new.device)
            result bytes.now }
        ensures took { IfOk result (λ count. count ≡ 0 → length bytes.now ≡ 0) }
        ensures refused { self.new.refused ≡ is_err result }
        ensures stays { IsTrue self.old.refused → self.new ≡ self.old }
    {
        if self.refused {
            return Err(DeviceFault);
        }
        match self.writer.write(bytes) {
            Ok(count) if count > 0 || bytes.is_empty() => Ok(count),
            _ => Err(self.refuse()),
        }
    }

    /// Asks the writer once to pass on what it has taken.
    ///
    /// # Errors
    ///
    /// [`DeviceFault`] where the writer returns an error, of whatever kind. From then on each call
    /// returns it and asks nothing.
    pub fn flush(&mut self) -> Result<(), DeviceFault>
        ensures bytes { Keeps (W.contents self.old.device) (W.contents self.new.device) }
        ensures refused { self.new.refused ≡ is_err result }
        ensures stays { IsTrue self.old.refused → self.new ≡ self.old }
    {
        if self.refused {
            return Err(DeviceFault);
        }
        match self.writer.flush() {
            Ok(()) => Ok(()),
            Err(_) => Err(self.refuse()),
        }
    }

    /// Gives all of the bytes to the writer, by as many calls as it takes.
    ///
    /// # Errors
    ///
    /// [`DeviceFault`] where a call returns it; nothing is said then of how much went out.
    pub fn write_all(&mut self, bytes: &[u8]) -> Result<(), DeviceFault>
        ensures bytes { OnOk result (Appends (W.contents self.old.device) (W.contents self.new.device)
            bytes.now) }
        ensures refused { OnErr result (IsTrue self.new.refused) }
    {
        let mut rest = bytes;
        while !rest.is_empty() {
            let count = self.write(rest)?;
            rest = &rest[count..];
        }
        Ok(())
    }

    /// Gives all of the bytes to the writer, and asks it to pass them on.
    ///
    /// # Errors
    ///
    /// [`DeviceFault`] where a call returns it; nothing is said then of how much went out.
    pub fn write_out(&mut self, bytes: &[u8]) -> Result<(), DeviceFault>
        ensures bytes { OnOk result (Appends (W.contents self.old.device) (W.contents self.new.device) bytes.now) }
        ensures refused { self.new.refused ≡ is_err result }
    {
        self.write_all(bytes)?;
        self.flush()
    }
}

//! A reader that is asked no more once it has failed.
ghost use Rattle.std.specs.Prelude.{◌≡◌, false, true, IsTrue, is_err};
ghost use Rattle.std.specs.Io.{ReadsAtMost};
ghost use Rattle.std.specs.Io.KnownBytes.{ReadConsumes};

use crate::fault::DeviceFault;
use std::io::Read;
use std::marker::Model;

/// A reader that is asked no more once it has returned an error (this project's choice). Its calls
/// take no memory.
///
/// Contracts see the reader, and whether it has refused.
#[derive(Drop)]
pub struct Input<R> {
    reader: R,
    refused: bool,
}

impl<R> Model for Input<R> {
    ghost use Rattle.osb_device.specs.Device.{Device};

    ghost Value = { Device R };

    ghost view = { λ d. record { device = d.reader; refused = d.refused } };
}

impl<R> Input<R> {
    /// An input over a reader, which hasn't refused.
    pub fn new(reader: R) -> Input<R>
        ensures device { result.device ≡ reader }
        ensures refused { result.refused ≡ false }
    {
        Input {
            reader,
            refused: false,
        }
    }

    /// Whether the reader has returned an error.
    pub fn refused(&self) -> bool
        ensures refused { result ≡ self.now.refused }
    {
        self.refused
    }

    /// The reader, as the calls so far left it.
    pub fn into_inner(self) -> R
        ensures device { result ≡ self.device }
    {
        self.reader
    }
}

impl<R: Read> Input<R> {
    /// Asks the reader once, for at most as many bytes as the buffer has room for, and returns how
    /// many were read, which stand at the front of the buffer. 0 is the end of the input, unless the
    /// buffer is empty.
    ///
    /// # Errors
    ///
    /// [`DeviceFault`] where the reader returns an error, of whatever kind. From then on each call
    /// returns it, asks nothing, and leaves the buffer as it was.
    pub fn read(&mut self, buffer: &mut [u8]) -> Result<usize, DeviceFault>
        ensures bound { ReadsAtMost result buffer.new }
        ensures bytes { ReadConsumes (R.remaining self.old.device) (R.remaining self.new.device)
            result buffer.new }
        ensures refused { self.new.refused ≡ is_err result }
        ensures stays { IsTrue self.old.refused → self.new ≡ self.old }
        ensures untouched { IsTrue self.old.refused → buffer.new ≡ buffer.old }
    {
        if self.refused {
            return Err(DeviceFault);
        }
        match self.reader.read(buffer) {
            Ok(count) => Ok(count),
            Err(_) => {
                self.refused = true;
                Err(DeviceFault)
            }
        }
    }
}

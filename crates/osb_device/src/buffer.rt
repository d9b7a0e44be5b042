//! What stands between many short texts and an output.
ghost use Rattle.std.specs.Prelude.{◌≡◌, ◌+◌, ◌≤◌, ◌++◌, [], length, IsTrue, OnErr, OnOk, is_err};
ghost use Rattle.std.specs.Io.KnownBytes.{append_known, Appends};

use crate::fault::DeviceFault;
use crate::output::Output;
use std::io::Write;
use std::marker::Model;

// How many bytes a buffer holds.
const SIZE: usize = 8192;

/// What many short texts are gathered in, of a fixed size, before an output takes them (this project's choice). Its
/// calls take no memory.
///
/// Contracts see the bytes that it holds: those that the output hasn't been given yet.
#[derive(Drop)]
pub struct Buffer {
    bytes: [u8; SIZE],
    len: usize,
}

impl Model for Buffer {
    ghost use Rattle.std.specs.Prelude.{ℕ, List, ◌≤◌, take};

    ghost Value = { List ℕ };

    ghost view = { λ b. take b.len b.bytes };

    ghost invariant = { λ b. b.len ≤ 8192 };
}

impl Buffer {
    /// A buffer that holds nothing.
    pub fn new() -> Buffer
        ensures empty { result ≡ [] }
    {
        Buffer {
            bytes: [0; SIZE],
            len: 0,
        }
    }

    // Whether there is room for the text.
    fn has_room(&self, text: &[u8]) -> bool
        ensures room { IsTrue result → length self.now + length text.now ≤ SIZE }
    {
        text.len() <= SIZE - self.len
    }

    // Holds the text after what it holds.
    fn append(&mut self, text: &[u8])
        requires room { length self.old + length text.now ≤ SIZE }
        ensures held { self.new ≡ self.old ++ text.now }
    {
        let end = self.len + text.len();
        self.bytes[self.len..end].copy_from_slice(text);
        self.len = end;
    }

    /// Gives all that it holds to the output, and asks it to pass that on. It holds nothing then.
    ///
    /// # Errors
    ///
    /// [`DeviceFault`] where the output returns it; nothing is said then of how much went out.
    pub fn flush<W: Write>(&mut self, output: &mut Output<W>) -> Result<(), DeviceFault>
        ensures bytes { OnOk result (Appends (W.contents output.old.device) (W.contents output.new.device) self.old) }
        ensures empty { OnOk result (self.new ≡ []) }
        ensures refused { output.new.refused ≡ is_err result }
    {
        output.write_out(&self.bytes[..self.len])?;
        self.len = 0;
        Ok(())
    }

    /// Takes a text: holds it after what it holds, or, where there is no room for it, gives what it holds to the
    /// output first; a text that is longer than the buffer goes to the output at once.
    ///
    /// # Errors
    ///
    /// [`DeviceFault`] where the output returns it; nothing is said then of how much went out.
    pub fn push<W: Write>(&mut self, text: &[u8], output: &mut Output<W>) -> Result<(), DeviceFault>
        ensures bytes { OnOk result (Appends (append_known (W.contents output.old.device) self.old)
            (append_known (W.contents output.new.device) self.new) text.now) }
        ensures refused { OnErr result (IsTrue output.new.refused) }
    {
        if self.has_room(text) {
            self.append(text);
            return Ok(());
        }
        self.flush(output)?;
        if !self.has_room(text) {
            return output.write_out(text);
        }
        self.append(text);
        Ok(())
    }
}

//! Texts, written into a buffer of the caller's.
ghost use Rattle.std.specs.Prelude.{◌≡◌, ◌≢◌, ◌↔◌, ◌⊎◌, ◌<◌, length, take, drop};

use crate::status::Status;

/// Writes a text at the front of the buffer, if that is long enough, and its length to `needed` in either case. The
/// rest of the buffer is as before.
pub fn write_text(text: &str, buffer: &mut [u8], needed: &mut usize) -> Status
    ensures done { result ≡ Status.Done → take (length text.now) buffer.new ≡ text.now }
    ensures rest { drop (length text.now) buffer.new ≡ drop (length text.now) buffer.old }
    ensures needed { needed.new ≡ length text.now }
    ensures too_small { (result ≡ Status.TooSmall) ↔ (length buffer.old < length text.now) }
    ensures statuses { (result ≡ Status.Done) ⊎ (result ≡ Status.TooSmall) }
    ensures unwritten { result ≢ Status.Done → buffer.new ≡ buffer.old }
{
    let bytes = text.as_bytes();
    *needed = bytes.len();
    if buffer.len() < bytes.len() {
        return Status::TooSmall;
    }
    buffer[..bytes.len()].copy_from_slice(bytes);
    Status::Done
}

//! The number of an id's text.
ghost use Rattle.std.specs.Prelude.{◌≡◌};
ghost use Rattle.osb_wire.specs.IdTexts as texts;

use osb_message::Id;
use sha2::{Digest, Sha256};

/// The longest text of an id, in bytes.
pub const LONGEST_ID: usize = 255;

// The first 128 bits of a text's SHA-256.
#[tactic(auto, unfolding(crate::specs::IdTexts::hashed))]
fn hashed(text: &str) -> u128
    ensures number { result ≡ texts.hashed text.now }
{
    let digest: [u8; 32] = Sha256::digest(text);
    let mut front = [0u8; 16];
    front.copy_from_slice(&digest[..16]);
    u128::from_be_bytes(front)
}

/// The id that a text names, by its number; none of an empty text, and of one longer than 255 bytes.
///
/// The standard takes any text that isn't empty as an id and compares texts byte by byte. A GUID in lower case is its
/// own number, as [`Id::from_lower_text`] reads it. Any other text, one with a digit in upper case among them, has the
/// first 128 bits of its SHA-256 as its number. Two texts with one number are two ids that can't be told apart:
/// [`catalogue_document`](crate::catalogue_document) rejects a catalogue in which that happens, and for instances it
/// is assumed not to happen. It takes no memory. The numbers and the longest length are this project's choice.
#[tactic(auto, unfolding(crate::specs::IdTexts::number_of))]
pub fn id_of_text<K>(text: &str) -> Option<Id<K>>
    ensures id { result ≡ texts.number_of text.now }
{
    if text.is_empty() || text.len() > LONGEST_ID {
        return None;
    }
    match Id::from_lower_text(text) {
        Some(id) => Some(id),
        None => Some(Id::from_value(hashed(text))),
    }
}

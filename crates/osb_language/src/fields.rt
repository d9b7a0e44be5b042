//! What stands in a line after its first word: ids and choices.
ghost use Rattle.std.specs.Prelude.{◌≡◌, ℕ, List, Result};
ghost use Rattle.osb_language.specs.Fields.{choice, consents, endings, four_fields, id_field, modes, no_fields};
ghost use Rattle.osb_language.specs.Fields.{one_field, outcomes, status_field, three_fields, two_fields};
ghost use Rattle.osb_language.specs.Words.{words_in};
ghost use Rattle.osb_language.specs.declared.fault.LineFault.{LineFault as Fault};

use crate::fault::LineFault;
use crate::words::{four_words, one_word, split_word, three_words, two_words};
use osb_broker::Outcome;
use osb_message::{Id, Mode};

/// What a word may stand for (this project's choice).
pub trait Field: Copy {
    ghost field: { List ℕ → Result Self Fault };

    /// Reads a word. It takes no memory.
    ///
    /// # Errors
    ///
    /// [`LineFault::BadId`] or [`LineFault::BadChoice`] if the word stands for nothing of this kind.
    fn read(word: &[u8]) -> Result<Self, LineFault>
        ensures field { result ≡ field word.now };
}

impl<K> Field for Id<K> {
    ghost field = { id_field };

    fn read(word: &[u8]) -> Result<Self, LineFault> {
        match Id::from_bytes(word) {
            Ok(id) => Ok(id),
            Err(_) => Err(LineFault::BadId),
        }
    }
}

impl Field for Mode {
    ghost field = { choice modes };

    fn read(word: &[u8]) -> Result<Self, LineFault> {
        match word {
            b"sync" => Ok(Mode::Sync),
            b"async" => Ok(Mode::Async),
            _ => Err(LineFault::BadChoice),
        }
    }
}

impl Field for Outcome {
    ghost field = { choice outcomes };

    fn read(word: &[u8]) -> Result<Self, LineFault> {
        if word == b"done".as_slice() {
            Ok(Outcome::Done)
        } else if word == b"before".as_slice() {
            Ok(Outcome::Before)
        } else if word == b"after".as_slice() {
            Ok(Outcome::After)
        } else {
            Err(LineFault::BadChoice)
        }
    }
}

/// Whether a Provision accepts an asynchronous operation: `yes` or `no`.
#[derive(Clone, Copy)]
pub struct Accepts(pub bool);

impl Field for Accepts {
    ghost field = { choice consents };

    fn read(word: &[u8]) -> Result<Self, LineFault> {
        match word {
            b"yes" => Ok(Accepts(true)),
            b"no" => Ok(Accepts(false)),
            _ => Err(LineFault::BadChoice),
        }
    }
}

/// Whether an operation ends well: `ok` or `fail`.
#[derive(Clone, Copy)]
pub struct EndsWell(pub bool);

impl Field for EndsWell {
    ghost field = { choice endings };

    fn read(word: &[u8]) -> Result<Self, LineFault> {
        match word {
            b"ok" => Ok(EndsWell(true)),
            b"fail" => Ok(EndsWell(false)),
            _ => Err(LineFault::BadChoice),
        }
    }
}

/// A status that a gateway answers: `500` to `599`.
#[derive(Clone, Copy)]
pub struct GatewayStatus(pub u16);

impl Field for GatewayStatus {
    ghost field = { status_field };

    fn read(word: &[u8]) -> Result<Self, LineFault> {
        match word {
            [b'5', tens @ b'0'..=b'9', ones @ b'0'..=b'9'] => Ok(GatewayStatus(
                500 + 10 * u16::from(*tens - b'0') + u16::from(*ones - b'0'),
            )),
            _ => Err(LineFault::BadChoice),
        }
    }
}

// No word after the first.
pub fn read_none(words: &[u8]) -> Result<(), LineFault>
    ensures fields { result ≡ no_fields (words_in words.now) }
{
    match split_word(words) {
        None => Ok(()),
        Some(_) => Err(LineFault::WordCount),
    }
}

/// The one word after the first. It takes no memory.
///
/// # Errors
///
/// [`LineFault::WordCount`] if there are more or fewer, or else the first fault from the left.
pub fn read_one<A: Field>(words: &[u8]) -> Result<A, LineFault>
    ensures fields { result ≡ one_field A.field (words_in words.now) }
{
    let Some(word) = one_word(words) else {
        return Err(LineFault::WordCount);
    };
    A::read(word)
}

/// The two words after the first. It takes no memory.
///
/// # Errors
///
/// [`LineFault::WordCount`] if there are more or fewer, or else the first fault from the left.
pub fn read_two<A: Field, B: Field>(words: &[u8]) -> Result<(A, B), LineFault>
    ensures fields { result ≡ two_fields A.field B.field (words_in words.now) }
{
    let Some((first, second)) = two_words(words) else {
        return Err(LineFault::WordCount);
    };
    Ok((A::read(first)?, B::read(second)?))
}

/// The three words after the first. It takes no memory.
///
/// # Errors
///
/// [`LineFault::WordCount`] if there are more or fewer, or else the first fault from the left.
pub fn read_three<A: Field, B: Field, C: Field>(words: &[u8]) -> Result<(A, B, C), LineFault>
    ensures fields { result ≡ three_fields A.field B.field C.field (words_in words.now) }
{
    let Some((first, second, third)) = three_words(words) else {
        return Err(LineFault::WordCount);
    };
    Ok((A::read(first)?, B::read(second)?, C::read(third)?))
}

// The four words after the first.
pub fn read_four<A: Field, B: Field, C: Field, D: Field>(
    words: &[u8],
) -> Result<(A, B, C, D), LineFault>
    ensures fields { result ≡ four_fields A.field B.field C.field D.field (words_in words.now) }
{
    let Some((first, second, third, fourth)) = four_words(words) else {
        return Err(LineFault::WordCount);
    };
    Ok((
        A::read(first)?,
        B::read(second)?,
        C::read(third)?,
        D::read(fourth)?,
    ))
}

//! The words that are numbers.
ghost use Rattle.std.specs.Prelude.{◌≡◌, List, ℕ, Result};
ghost use Rattle.osb_network_language.specs.Numbers as spec;

use osb_language::{Field, LineFault};

// The number after one more decimal digit, if the byte is one and the number is below 2^64.
fn with_digit(number: u64, byte: u8) -> Option<u64>
    ensures number { result ≡ spec.with_digit number byte }
{
    if !byte.is_ascii_digit() {
        return None;
    }
    number.checked_mul(10)?.checked_add(u64::from(byte - b'0'))
}

// The number that decimal digits write, if it is below 2^64.
fn read_number(word: &[u8]) -> Option<u64>
    ensures number { result ≡ spec.number_from 0 word.now }
{
    let mut number = 0;
    let mut rest = word;
    while let [byte, digits @ ..] = rest {
        number = with_digit(number, *byte)?;
        rest = digits;
    }
    Some(number)
}

// An attempt, or the number that stands for credentials.
#[derive(Clone, Copy)]
pub struct Number(pub u64);

impl Field for Number {
    ghost field = { spec.number_field };

    fn read(word: &[u8]) -> Result<Number, LineFault> {
        if word.is_empty() {
            return Err(LineFault::BadChoice);
        }
        match read_number(word) {
            Some(number) => Ok(Number(number)),
            None => Err(LineFault::BadChoice),
        }
    }
}

// Which of the answers, from 0.
#[derive(Clone, Copy)]
pub struct Place(pub usize);

impl Field for Place {
    ghost field = { spec.place_field };

    fn read(word: &[u8]) -> Result<Place, LineFault> {
        let Number(number) = Number::read(word)?;
        match usize::try_from(number) {
            Ok(place) => Ok(Place(place)),
            Err(_) => Err(LineFault::BadChoice),
        }
    }
}

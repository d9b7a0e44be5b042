//! Ids as two halves of a number.
ghost use Rattle.std.specs.Prelude.{◌≡◌};
ghost use Rattle.osb_c_types.specs.Ids.{number_of};

use osb_message::Id;

/// An id: the halves of its number of 128 bits. Any two halves are an id's.
#[repr(C)]
#[derive(Clone, Copy)]
pub struct OsbId {
    /// The first 16 digits of the text.
    pub high: u64,
    /// The last 16 digits of the text.
    pub low: u64,
}

const HALF: u128 = 0x1_0000_0000_0000_0000;

/// The id that crossed.
pub fn id_from<K>(id: OsbId) -> Id<K>
    ensures id { result ≡ number_of id }
{
    Id::from_value(id.high as u128 * HALF + id.low as u128)
}

/// The id as it crosses.
pub fn id_out<K>(id: Id<K>) -> OsbId
    ensures id { number_of result ≡ id }
{
    let number = id.value();
    OsbId {
        high: (number / HALF) as u64,
        low: (number % HALF) as u64,
    }
}

//! The words that name an instance or a binding.
ghost use Rattle.std.specs.Prelude.{◌≡◌, List, ℕ, Result};
ghost use Rattle.osb_network_language.specs.Lives.{binding_field, life_field, pair_of};

use crate::event::Life;
use osb_binding::BindingId;
use osb_language::{Field, LineFault};
use osb_message::InstanceId;

// How many bytes the text of an id has, and that of two ids with a slash between.
const ID_LENGTH: usize = 36;

const PAIR_LENGTH: usize = 73;

// A binding of an instance: two ids with a slash between.
#[derive(Clone, Copy)]
pub struct Bound {
    pub instance: InstanceId,
    pub id: BindingId,
}

// A binding of an instance, whose texts have this byte between them.
fn read_pair(instance: &[u8], slash: u8, id: &[u8]) -> Result<Bound, LineFault>
    ensures pair { result ≡ pair_of instance.now slash id.now }
{
    if slash != b'/' {
        return Err(LineFault::BadId);
    }
    let instance = InstanceId::read(instance)?;
    let id = BindingId::read(id)?;
    Ok(Bound { instance, id })
}

impl Field for Bound {
    ghost field = { binding_field };

    fn read(word: &[u8]) -> Result<Bound, LineFault> {
        if word.len() != PAIR_LENGTH {
            return Err(LineFault::BadId);
        }
        read_pair(&word[..ID_LENGTH], word[ID_LENGTH], &word[ID_LENGTH + 1..])
    }
}

impl Field for Life {
    ghost field = { life_field };

    fn read(word: &[u8]) -> Result<Life, LineFault> {
        if word.len() == ID_LENGTH {
            let instance = InstanceId::read(word)?;
            return Ok(Life {
                instance,
                binding: None,
            });
        }
        let bound = Bound::read(word)?;
        Ok(Life {
            instance: bound.instance,
            binding: Some(bound.id),
        })
    }
}

//! The text of ids.
ghost use Rattle.std.specs.Prelude.{◌≡◌, ◌≢◌, ◌↔◌, ◌<◌, [], ◌∷◌, ℕ, Some, None, IsTrue};
ghost use Rattle.std.specs.Cmp.Lexicographic.{slice_cmp};
ghost use Rattle.std.specs.Ordering.{nat_cmp};
ghost use Rattle.std.specs.declared.cmp.Ordering.TheVariants.{Less};
ghost use Rattle.osb_message.specs.IdText.{id_of, id_text};
ghost use Rattle.osb_c_types.specs.Ids.{number_of};
ghost use Rattle.osb_c_types.specs.Status.{code, is_one_of};

use osb_c_types::{OsbId, Status, id_from, id_out};
use osb_message::InstanceId;

/// Reads the text form of an id that is a GUID, in either case: 36 bytes, which may be anything. `osb_id_of_text` reads
/// every text that an id may have. It takes no memory.
///
/// It returns `Done`, or `NotAnId` exactly where the bytes aren't 8, 4, 4, 4 and 12 hexadecimal digits that
/// are joined by hyphens; the id is then as before. This form is this project's choice.
#[unsafe(no_mangle)]
pub extern "C" fn osb_id_from_text(text: &[u8], id: &mut OsbId) -> u32
    ensures reads { result ≡ code Status.Done → id_of text.now ≡ Some (number_of id.new) }
    ensures not_an_id { (result ≡ code Status.NotAnId) ↔ (id_of text.now ≡ None) }
    ensures statuses { IsTrue (is_one_of (Status.Done ∷ Status.NotAnId ∷ []) result) }
    ensures unwritten { result ≢ code Status.Done → id.new ≡ id.old }
{
    match InstanceId::from_bytes(text) {
        Ok(read) => {
            *id = id_out(read);
            Status::Done.code()
        }
        Err(_) => Status::NotAnId.code(),
    }
}

/// Writes the text form of an id, in lower case: 36 bytes, and no NUL after them. They read as the id again,
/// and stand in the order of the ids. It takes no memory.
#[unsafe(no_mangle)]
pub extern "C" fn osb_id_to_text(id: OsbId, text: &mut [u8; 36])
    ensures text { text.new ≡ id_text (number_of id) }
    ensures reads { id_of text.new ≡ Some (number_of id) }
    ensures ordered { (below : ℕ) → below < number_of id
        → slice_cmp nat_cmp (id_text below) text.new ≡ Less }
{
    let id: InstanceId = id_from(id);
    *text = id.to_text();
}

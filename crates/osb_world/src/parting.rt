//! What the events of some instances alone leave.
ghost use Rattle.std.specs.Prelude.{◌≡◌, ℕ, Bool, true, List, length};
ghost use Rattle.osb_world.specs.Counts.{applied_count};
ghost use Rattle.osb_world.specs.Events.{cell_after, events_of};
ghost use Rattle.osb_world.specs.Parting.{applied_by_id, applied_in_parts, length_in_parts, part_of, restart_count};
ghost use Rattle.osb_world.specs.Parting.{AreListed, AreParted, IsSum};

use crate::Event;
use osb_message::Catalogue;

/// Does nothing: its contract is that a list of events may be parted by instance, and each part be [`run`](crate::run)
/// by itself (this project's choice). It takes no memory.
///
/// [`run`](crate::run) says that the cell of an id is `cell_after` all events. That is `cell_after` those events
/// alone that name the id, or are restarts; and so it is after any part that has them all, in their order.
///
/// The number of events that apply is the sum over the ids, or over parts each of which has the events of its own
/// instances, with the restarts once, which every part has and which always apply; and so is the number of all events.
pub fn by_instance(catalogue: &Catalogue, events: &[Event])
    ensures alone { (id : ℕ) →
        cell_after catalogue.now id (events_of id events.now) ≡ cell_after catalogue.now id events.now }
    ensures part { (test : ℕ → Bool) (id : ℕ) → test id ≡ true →
        cell_after catalogue.now id (part_of test events.now) ≡ cell_after catalogue.now id events.now }
    ensures ids { (ids : List ℕ) → AreListed ids events.now →
        IsSum (applied_count catalogue.now events.now) (length ids) (applied_by_id catalogue.now ids events.now)
        (restart_count events.now) }
    ensures applied { (tests : List (ℕ → Bool)) → AreParted tests events.now →
        IsSum (applied_count catalogue.now events.now) (length tests)
        (applied_in_parts catalogue.now tests events.now) (restart_count events.now) }
    ensures all { (tests : List (ℕ → Bool)) → AreParted tests events.now →
        IsSum (length events.now) (length tests) (length_in_parts tests events.now) (restart_count events.now) }
{
    let _ = catalogue;
    let _ = events;
}

//! A world after a list of events.
ghost use Rattle.std.specs.Prelude.{◌≡◌, ℕ, IfOk, IsOk};
ghost use Rattle.osb_world.specs.Agreement.{Agrees};
ghost use Rattle.osb_world.specs.Cell.{empty_cell};
ghost use Rattle.osb_world.specs.Events.{cell_after, TakeNoMemory};
ghost use Rattle.osb_world.specs.Views.{catalogue_of, cell_at};

use crate::{Event, World};
use osb_message::{Catalogue, Memory};
use std::alloc::Global;

/// A new world with this catalogue, stepped through the events (this project's choice).
///
/// The cell of each id is that of its own events alone. Whatever the events are, and in whatever
/// order, platform and broker agree on every id then, in the sense of the [crate](crate)'s first
/// page.
///
/// # Errors
///
/// [`Memory`](osb_message::Memory) at the first step where an allocation failed. Only the events at
/// which [`World::step`] takes memory ask for it.
pub fn run(alloc: Global, catalogue: Catalogue, events: &[Event]) -> Result<World, Memory>
    ensures cells { IfOk result (λ world. (id : ℕ) →
        cell_at world id ≡ cell_after catalogue id events.now) }
    ensures catalogue { IfOk result (λ world. catalogue_of world ≡ catalogue) }
    ensures no_memory { TakeNoMemory catalogue (λ _. empty_cell) events.now → IsOk result }
    ensures agrees { IfOk result (λ world. (id : ℕ) → Agrees (cell_at world id)) }
    ensures always { (id : ℕ) → Agrees (cell_after catalogue id events.now) }
{
    let mut world = World::new(alloc, catalogue);
    for event in events {
        world.step(alloc, *event)?;
    }
    world.agreement();
    Ok(world)
}

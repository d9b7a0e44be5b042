//! Both cores, and the messages between them.
ghost use Rattle.std.specs.Prelude.{string_bytes, ◌≡◌, ◌≢◌, ◌↔◌, ℕ, false, Ok, Contains};
ghost use Rattle.std.specs.Prelude.{IsOk, IsSome, IfOk, OnOk, OnErr};
ghost use Rattle.std.specs.FinMap as map;
ghost use Rattle.std.specs.List.Sorted.{IsStrictlySortedBy};
ghost use Rattle.std.specs.Ordering.{nat_cmp};
ghost use Rattle.osb_platform.specs.SavedRecord.{saved_text};
ghost use Rattle.osb_world.specs.Agreement.{Agrees};
ghost use Rattle.osb_world.specs.Cell.{empty_cell};
ghost use Rattle.osb_world.specs.Events.{applies_at, next_cell, takes_memory_at};
ghost use Rattle.osb_world.specs.Possible.{IsPossible};
ghost use Rattle.osb_world.specs.Settling.{settled_cell, IsSettled, ThreeRoundsSettle};
ghost use Rattle.osb_world.specs.Views.{catalogue_of, cell_at, records_of, step_of, IsSame, IsSound};

use crate::parts::Parts;
use crate::{Cell, Event, Step};
use osb_broker::BrokerRow;
use osb_message::{Catalogue, InstanceId, Memory};
use osb_platform::{PlatformRow, SaveFault};
use std::alloc::Global;
use std::collections::btree_map::Iter;
use std::marker::Model;

/// A platform, a broker, and the messages between them (this project's choice, and so are its calls).
///
/// Contracts see the cell of each id (`cell_at`) and the broker's catalogue (`catalogue_of`). Each
/// cell of a world can come about (`IsPossible`), and so platform and broker agree on each id.
#[derive(Drop)]
pub struct World {
    parts: Parts,
}

impl Model for World {
    ghost use Rattle.osb_world.specs.Views.{IsSound, WorldState, world_code};

    ghost Value = { WorldState };

    ghost coded = { world_code };

    ghost view = { λ w. w.parts };

    ghost invariant = { λ w. IsSound w.parts };
}

impl World {
    /// A world with no instances, whose broker sells the plans of the catalogue. It keeps the
    /// allocator for later instances, and takes no memory.
    pub fn new(alloc: Global, catalogue: Catalogue) -> Self
        ensures cells { (id : ℕ) → cell_at result id ≡ empty_cell }
        ensures catalogue { catalogue_of result ≡ catalogue }
    {
        World {
            parts: Parts::new(alloc, catalogue),
        }
    }

    /// Lets an event happen: [`Step::Applied`] exactly where it applies to the cell of the instance
    /// that it names, which is then one step further. Every other cell and the catalogue are as
    /// before. [`Step::Skipped`] has changed nothing.
    ///
    /// A [`Event::Restart`] steps the cell of every id. `alloc` is for its saved text and the platform
    /// that is read from it; what the other events write, the world's own allocator serves.
    ///
    /// # Errors
    ///
    /// [`Memory`] where an allocation failed, which only a Create that applies asks for, a Deliver or
    /// a Repeat that makes a broker's row, and a Restart; or where a Create would record one instance more
    /// than 2^32. Every cell is then as before.
    pub fn step(&mut self, alloc: Global, event: Event) -> Result<Step, Memory>
        ensures cells { OnOk result ((id : ℕ) →
            cell_at self.new id ≡ next_cell (catalogue_of self.old) id (cell_at self.old id) event) }
        ensures applied { IfOk result (λ step. step ≡ step_of (applies_at (cell_at self.old) event)) }
        ensures not_applied { applies_at (cell_at self.old) event ≡ false → result ≡ Ok Step.Skipped }
        ensures skipped { result ≡ Ok Step.Skipped
            → (id : ℕ) → cell_at self.new id ≡ cell_at self.old id }
        ensures catalogue { catalogue_of self.new ≡ catalogue_of self.old }
        ensures err { OnErr result ((id : ℕ) → cell_at self.new id ≡ cell_at self.old id) }
        ensures no_memory { takes_memory_at (catalogue_of self.old) (cell_at self.old) event ≡ false
            → IsOk result }
    {
        self.parts.step(alloc, event)
    }

    /// All that there is of an instance. It takes no memory.
    ///
    /// Platform and broker agree on it, in the sense of the [crate](crate)'s first page.
    pub fn cell(&self, id: InstanceId) -> Cell
        ensures cell { result ≡ cell_at self.now id }
        ensures possible { IsPossible (catalogue_of self.now) id result }
        ensures agrees { Agrees result }
    {
        self.parts.cell(id)
    }

    /// What the platform records of an instance, or none. It takes no memory.
    pub fn platform_row(&self, id: InstanceId) -> Option<PlatformRow>
        ensures row { result ≡ (cell_at self.now id).platform }
    {
        self.parts.platform.row(id)
    }

    /// What the broker holds of an instance, or none. It takes no memory.
    pub fn broker_row(&self, id: InstanceId) -> Option<BrokerRow>
        ensures row { result ≡ (cell_at self.now id).broker }
    {
        self.parts.broker.row(id)
    }

    /// The ids of the instances that the platform records, ascending.
    ///
    /// # Errors
    ///
    /// [`Memory`] where an allocation failed.
    pub fn ids(&self, alloc: Global) -> Result<Vec<InstanceId>, Memory>
        ensures recorded { IfOk result (λ ids. (id : ℕ) →
            Contains ids.items id ↔ IsSome (cell_at self.now id).platform) }
        ensures ascending { IfOk result (λ ids. IsStrictlySortedBy nat_cmp ids.items) }
    {
        self.parts.platform.ids(alloc)
    }

    /// Each recorded id with what the platform records of it, in ascending order of the ids (this
    /// project's choice). It takes no memory.
    pub fn records(&self) -> Iter<'_, InstanceId, PlatformRow>
        ensures records { result ≡ map.entries (records_of self.now) }
    {
        self.parts.platform.rows()
    }

    /// The platform's saved record, the text that [`Platform::load`](osb_platform::Platform::load)
    /// reads (this project's choice).
    ///
    /// # Errors
    ///
    /// [`SaveFault::Memory`] where an allocation failed.
    pub fn save(&self, alloc: Global) -> Result<String, SaveFault>
        ensures saved { IfOk result (λ text. string_bytes text ≡ saved_text (records_of self.now)) }
    {
        self.parts.platform.save(alloc)
    }

    /// Cleans up after an instance, as it ends once nothing goes wrong any more: three fault-free rounds
    /// (this project's choice). In a round the request that is out is given up, an operation that runs
    /// at the broker ends well, and the request that is due is sent, delivered and answered; each of
    /// these is passed over where it doesn't apply.
    ///
    /// The instance is settled then: the platform records `ready`, `gone` or `unsettled`, or nothing as
    /// before. Platform and broker agree on it, and every other cell and the catalogue are as before.
    /// It takes no memory: once the Timeout has come, no Provision is out, and no other request makes
    /// a broker's row.
    pub fn settle(&mut self, id: InstanceId)
        ensures cell { cell_at self.new id ≡ settled_cell (catalogue_of self.old) id (cell_at self.old id) }
        ensures settled { IsSettled (cell_at self.new id) }
        ensures possible { IsPossible (catalogue_of self.new) id (cell_at self.new id) }
        ensures agrees { Agrees (cell_at self.new id) }
        ensures others { (other : ℕ) → other ≢ id → cell_at self.new other ≡ cell_at self.old other }
        ensures catalogue { catalogue_of self.new ≡ catalogue_of self.old }
        // So it is from every cell that can come about.
        ensures always { ThreeRoundsSettle }
    {
        self.parts.settle(id);
    }

    /// Does nothing: its contract is that the cell of every id can come about, and that platform and
    /// broker agree on it, in the words of [`World::cell`]. It takes no memory.
    pub fn agreement(&self)
        ensures possible { (id : ℕ) → IsPossible (catalogue_of self.now) id (cell_at self.now id) }
        ensures agrees { (id : ℕ) → Agrees (cell_at self.now id) }
    {
        let _ = &self.parts;
    }
}

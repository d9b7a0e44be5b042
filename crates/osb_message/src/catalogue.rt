//! The catalogue: which plans a broker sells, and how each of them works (section Catalog Management).
ghost use Rattle.std.specs.Prelude.{◌≡◌, ◌↔◌, OnOk, OnErr, IsSome, map as each};
ghost use Rattle.osb_message.specs.Catalogue.{pair_cmp};
ghost use Rattle.std.specs.FinMap as map;
ghost use Rattle.std.specs.BTreeMap as tree;
ghost use Rattle.std.specs.List.Sorted.{IsStrictlySortedBy};

use crate::{PlanId, ServiceId};
use std::alloc::Global;
use std::collections::BTreeMap;
use std::collections::btree_map::Iter;
use std::marker::Model;
use thiserror::Error;

/// Whether a plan's operations are done when the broker answers (sections Synchronous and
/// Asynchronous Operations).
#[derive(Clone, Copy, Debug, PartialEq, Eq, Hash)]
pub enum Mode {
    /// An instance is made or deleted before the broker answers.
    Sync,
    /// The broker answers at once and works on; the platform polls the last operation.
    Async,
}

/// Why a plan isn't added to a catalogue, which is then as before (this project's choice).
#[derive(Clone, Copy, Debug, PartialEq, Eq, Error)]
pub enum AddFault {
    /// The pair of service and plan is there, with either mode.
    #[error("AlreadyThere")]
    AlreadyThere = 1,
    /// An allocation failed.
    #[error("Memory")]
    Memory = 2,
}

// The entries, in ascending order of their pairs.
fn entries_of(modes: &BTreeMap<(ServiceId, PlanId), Mode>) -> Iter<'_, (ServiceId, PlanId), Mode>
    ensures entries { result ≡ modes.now.entries }
    ensures ordered { tree.IsOrdered pair_cmp modes.now }
{
    modes.iter()
}

/// The plans that a broker sells, under pairs of service and plan (section Catalog Management; that
/// a plan works in one way, whatever is asked of it, is this project's choice, and so are its calls).
///
/// Contracts see a finite map from pairs of ids to modes.
#[derive(Drop)]
pub struct Catalogue {
    modes: BTreeMap<(ServiceId, PlanId), Mode>,
}

impl Model for Catalogue {
    ghost use Rattle.std.specs.FinMap as map;
    ghost use Rattle.std.specs.Coded.{coded_ℕ, coded×};
    ghost use Rattle.osb_message.specs.Catalogue.{pair_cmp};
    ghost use Rattle.osb_message.specs.declared.catalogue.Mode.{Mode};
    ghost use Rattle.osb_message.specs.contracts.catalogue.Mode as mode;

    ghost Value = { map.FinMap pair_cmp Mode };

    ghost coded = { map.code (coded× coded_ℕ coded_ℕ) mode.the_row.coded };

    ghost view = { λ a. map.from_entries a.modes.entries };
}

#[tactic(auto, using(crate::proofs::Maps::tree_steps))]
impl Catalogue {
    /// A catalogue with no plans. It keeps the allocator for later additions, and takes no memory.
    pub fn new(alloc: Global) -> Self
        ensures empty { result ≡ map.empty }
    {
        Catalogue {
            modes: BTreeMap::new(alloc),
        }
    }

    /// Adds a plan of a service, with its mode. Where that succeeds, it may have taken memory.
    ///
    /// # Errors
    ///
    /// [`AddFault::AlreadyThere`] exactly where the pair is there, with either mode: it takes no
    /// memory to say so. [`AddFault::Memory`] where an allocation failed. The catalogue is then as
    /// before.
    pub fn add(&mut self, service: ServiceId, plan: PlanId, mode: Mode) -> Result<(), AddFault>
        ensures ok { OnOk result (self.new ≡ map.insert self.old (service, plan) mode) }
        ensures already_there { (result ≡ Err AddFault.AlreadyThere)
            ↔ IsSome (map.get self.old (service, plan)) }
        ensures err { OnErr result (self.new ≡ self.old) }
    {
        if self.mode(service, plan).is_some() {
            return Err(AddFault::AlreadyThere);
        }
        let Ok(_) = self.modes.insert((service, plan), mode) else {
            return Err(AddFault::Memory);
        };
        Ok(())
    }

    /// The mode of a plan of a service, or none where the pair isn't in the catalogue. It takes no
    /// memory.
    pub fn mode(&self, service: ServiceId, plan: PlanId) -> Option<Mode>
        ensures found { result ≡ map.get self.now (service, plan) }
    {
        self.modes.get(&(service, plan)).copied()
    }

    /// The plans, each with its mode, in ascending order of service and plan. It takes no memory.
    pub fn plans(&self) -> Iter<'_, (ServiceId, PlanId), Mode>
        ensures entries { result ≡ map.entries self.now }
        ensures ascending { IsStrictlySortedBy pair_cmp (each (λ entry. entry.0) result) }
    {
        entries_of(&self.modes)
    }
}

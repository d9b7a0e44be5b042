//! A finite map from instance ids, in which both sides keep what they know of each instance.
ghost use Rattle.std.specs.Prelude.{◌≡◌, OnOk, OnErr, IsSome, IsOk, IfOk, Some};
ghost use Rattle.std.specs.FinMap as finite;
ghost use Rattle.std.specs.BTreeMap as tree;
ghost use Rattle.std.specs.List.Sorted.{IsStrictlySortedBy};
ghost use Rattle.std.specs.Ordering.{nat_cmp};

use crate::{InstanceId, Memory};
use std::alloc::Global;
use std::collections::BTreeMap;
use std::collections::btree_map::Iter;
use std::marker::Model;

// Writes over the value at a key that is there.
fn write_at<V: Copy>(rows: &mut BTreeMap<InstanceId, V>, id: InstanceId, value: V)
    requires present { IsSome (tree.get nat_cmp rows.old id) }
    ensures written { tree.Updates nat_cmp rows.old rows.new id (Some value) }
{
    if let Some(place) = rows.get_mut(&id) {
        *place = value;
    }
}

// The entries, in ascending order of their keys.
fn entries_of<V>(rows: &BTreeMap<InstanceId, V>) -> Iter<'_, InstanceId, V>
    ensures entries { result ≡ rows.now.entries }
    ensures ordered { tree.IsOrdered nat_cmp rows.now }
{
    rows.iter()
}

// The keys, ascending. `collect` would go on where its first allocation fails, and allocate piece by piece.
fn keys_of<V>(alloc: Global, rows: &BTreeMap<InstanceId, V>) -> Result<Vec<InstanceId>, Memory>
    ensures keys { IfOk result (λ ids. ids.items ≡ tree.keys rows.now) }
    ensures ordered { tree.IsOrdered nat_cmp rows.now }
{
    let mut ids = Vec::with_capacity(alloc, rows.len())?;
    for id in rows.keys() {
        ids.push(*id)?;
    }
    Ok(ids)
}

/// What is kept for each of some instances: at most one value for an id (this project's choice, and so
/// are its calls; the standard leaves to both sides what they keep).
///
/// Contracts see a finite map from ids to values.
#[derive(Drop)]
pub struct Rows<V> {
    tree: BTreeMap<InstanceId, V>,
}

impl<V> Model for Rows<V> {
    ghost use Rattle.std.specs.FinMap as map;
    ghost use Rattle.std.specs.Ordering.{nat_cmp};
    ghost use Rattle.std.specs.Coded.{coded_ℕ};

    ghost Value = { map.FinMap nat_cmp V };

    ghost coded = { map.code coded_ℕ V.code };

    ghost view = { λ a. map.from_entries a.tree.entries };
}

#[tactic(auto, using(crate::proofs::Maps::tree_steps))]
impl<V: Copy> Rows<V> {
    /// A map with nothing in it. It keeps the allocator for later entries, and takes no memory.
    pub fn new(alloc: Global) -> Self
        ensures empty { result ≡ finite.empty }
    {
        Rows {
            tree: BTreeMap::new(alloc),
        }
    }

    /// The value at the id, or none. It takes no memory.
    pub fn get(&self, id: InstanceId) -> Option<V>
        ensures found { result ≡ finite.get self.now id }
    {
        self.tree.get(&id).copied()
    }

    /// Puts a value at the id, in place of any other.
    ///
    /// # Errors
    ///
    /// [`Memory`] where an allocation failed, which only a new entry asks for. The map is then as
    /// before.
    pub fn insert(&mut self, id: InstanceId, value: V) -> Result<(), Memory>
        ensures ok { OnOk result (self.new ≡ finite.insert self.old id value) }
        ensures err { OnErr result (self.new ≡ self.old) }
        ensures written { IsSome (finite.get self.old id) → IsOk result }
    {
        let Ok(_) = self.tree.insert(id, value) else {
            return Err(Memory);
        };
        Ok(())
    }

    /// Puts a value in the place of the one that is at the id. It takes no memory.
    pub fn replace(&mut self, id: InstanceId, value: V)
        requires present { IsSome (finite.get self.old id) }
        ensures replaced { self.new ≡ finite.insert self.old id value }
    {
        write_at(&mut self.tree, id, value);
    }

    /// Takes away what is at the id, if there is anything. It takes no memory.
    pub fn remove(&mut self, id: InstanceId)
        ensures removed { self.new ≡ finite.remove self.old id }
    {
        self.tree.remove(&id);
    }

    /// The ids that have a value, ascending.
    ///
    /// The clause `ascending` follows from `keys`. It stands for callers that promise it on.
    ///
    /// # Errors
    ///
    /// [`Memory`] where an allocation failed.
    pub fn ids(&self, alloc: Global) -> Result<Vec<InstanceId>, Memory>
        ensures keys { IfOk result (λ ids. ids.items ≡ finite.keys self.now) }
        ensures ascending { IfOk result (λ ids. IsStrictlySortedBy nat_cmp ids.items) }
    {
        keys_of(alloc, &self.tree)
    }

    /// The ids that have a value, each with its value, in ascending order of the ids. It takes no
    /// memory.
    pub fn iter(&self) -> Iter<'_, InstanceId, V>
        ensures entries { result ≡ finite.entries self.now }
    {
        entries_of(&self.tree)
    }
}

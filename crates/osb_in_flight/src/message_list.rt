//! The messages of each instance: a list of entries, and what finds the entry of an id in it.
//!
//! The entries stand as they came, and keep their places. Ids often come in ascending order: as many of
//! the first entries as ascend by their ids are found by binary search, and need nothing else. A tree
//! has the places of the entries after those. So an insert below others shifts none of them.
//!
//! Contracts see a finite map from ids to messages.
ghost use Rattle.std.specs.Prelude.{◌≡◌, ℕ, OnOk, OnErr, IsSome, IsOk, IfOk, IfErr, IfSome, IfNone, IsTrue};
ghost use Rattle.std.specs.Prelude.{length, map, option_map};
ghost use Rattle.std.specs.FinMap as finite;
ghost use Rattle.osb_in_flight.specs.Keys.{IsAbove, IsAbsent, IsAscending, IsAt};
ghost use Rattle.osb_in_flight.specs.Entries.{IsIndexed, id_of, messages_in, silence, silenced};

use crate::messages::{Messages, SILENCE};
use osb_message::{InstanceId, Memory, Rows};
use std::alloc::Global;
use std::marker::Model;

// An instance, and what is between the platform and the broker about it.
#[derive(Clone, Copy)]
struct Entry {
    id: InstanceId,
    messages: Messages,
}

// Where the id is among entries that ascend by their ids.
fn search(entries: &[Entry], id: InstanceId) -> Result<usize, usize>
    requires ascending { IsAscending id_of entries.now }
    ensures found { IfOk result (IsAt id_of entries.now id) }
    ensures absent { IfErr result (λ _. IsAbsent id_of entries.now id) }
{
    entries.binary_search_by_key(&id, |entry| entry.id)
}

// Whether all entries ascend, and the id is above them.
fn rises(entries: &[Entry], ascending: usize, id: InstanceId) -> bool
    requires ascending { ascending ≡ length entries.now → IsAscending id_of entries.now }
    ensures above { IsTrue result → IsAbove id_of entries.now id }
    ensures ascending { IsTrue result → ascending ≡ length entries.now }
{
    if ascending != entries.len() {
        return false;
    }
    match entries.last() {
        Some(last) => last.id < id,
        None => true,
    }
}

// The place of the entry of the id. The last is looked at first, since the events of an instance often
// follow each other.
fn place(entries: &[Entry], ascending: usize, places: &Rows<usize>, id: InstanceId) -> Option<usize>
    requires indexed { IsIndexed entries.now ascending places.now }
    ensures found { IfSome result (IsAt id_of entries.now id) }
    ensures absent { IfNone result (IsAbsent id_of entries.now id) }
{
    if rises(entries, ascending, id) {
        return None;
    }
    if let Some(last) = entries.last() {
        if last.id == id {
            return Some(entries.len() - 1);
        }
    }
    match search(&entries[..ascending], id) {
        Ok(at) => Some(at),
        Err(_) => places.get(id),
    }
}

// Makes the entry of an id that has none. Memory for it is taken first, so that nothing is written where
// an allocation fails.
fn add(
    entries: &mut Vec<Entry>,
    ascending: &mut usize,
    places: &mut Rows<usize>,
    id: InstanceId,
    messages: Messages,
) -> Result<(), Memory>
    requires indexed { IsIndexed entries.old.items ascending.old places.old }
    requires absent { IsAbsent id_of entries.old.items id }
    ensures indexed { IsIndexed entries.new.items ascending.new places.new }
    ensures ok { OnOk result (messages_in entries.new.items
        ≡ finite.insert (messages_in entries.old.items) id messages) }
    ensures err { OnErr result (messages_in entries.new.items ≡ messages_in entries.old.items) }
{
    entries.reserve(1)?;
    if rises(entries, *ascending, id) {
        entries.push(Entry { id, messages })?;
        *ascending = entries.len();
        return Ok(());
    }
    places.insert(id, entries.len())?;
    Ok(entries.push(Entry { id, messages })?)
}

// Silences each entry in its place.
fn silence_entries(entries: &mut Vec<Entry>)
    ensures silenced { entries.new.items ≡ map silenced entries.old.items }
{
    for i in 0..entries.len() {
        entries[i].messages = SILENCE;
    }
}

/// What is between the platform and the broker, for each instance that has an entry (this project's
/// choice).
#[derive(Drop)]
pub struct MessageList {
    // As they came.
    entries: Vec<Entry>,
    // So many of the first entries ascend by their ids.
    ascending: usize,
    // The place in `entries` of each id that came after those.
    places: Rows<usize>,
}

impl Model for MessageList {
    ghost use Rattle.std.specs.FinMap as map;
    ghost use Rattle.std.specs.Ordering.{nat_cmp};
    ghost use Rattle.std.specs.Coded.{coded_ℕ};
    ghost use Rattle.osb_in_flight.specs.declared.messages.Messages.{Messages};
    ghost use Rattle.osb_in_flight.specs.contracts.messages.Messages as messages;
    ghost use Rattle.osb_in_flight.specs.Entries.{IsIndexed, messages_in};

    ghost Value = { map.FinMap nat_cmp Messages };

    ghost coded = { map.code coded_ℕ messages.the_row.coded };

    ghost view = { λ a. messages_in a.entries.items };

    ghost invariant = { λ a. IsIndexed a.entries.items a.ascending a.places };
}

impl MessageList {
    /// A list with no entries. It keeps the allocator for later ones, and takes no memory.
    pub fn new(alloc: Global) -> Self
        ensures empty { result ≡ finite.empty }
    {
        MessageList {
            entries: Vec::new(alloc),
            ascending: 0,
            places: Rows::new(alloc),
        }
    }

    /// The messages of the instance, or none where it has no entry. It takes no memory.
    pub fn get(&self, id: InstanceId) -> Option<Messages>
        ensures found { result ≡ finite.get self.now id }
    {
        match place(&self.entries, self.ascending, &self.places, id) {
            Some(at) => Some(self.entries[at].messages),
            None => None,
        }
    }

    /// Writes the instance's messages, in place of any that are there; else it makes its entry, which
    /// alone takes memory.
    ///
    /// # Errors
    ///
    /// [`Memory`] where an allocation failed, and the list is as before. It comes only of an instance
    /// that has no entry.
    pub fn insert(&mut self, id: InstanceId, messages: Messages) -> Result<(), Memory>
        ensures ok { OnOk result (self.new ≡ finite.insert self.old id messages) }
        ensures err { OnErr result (self.new ≡ self.old) }
        ensures written { IsSome (finite.get self.old id) → IsOk result }
    {
        match place(&self.entries, self.ascending, &self.places, id) {
            Some(at) => {
                self.entries[at] = Entry { id, messages };
                Ok(())
            }
            None => add(
                &mut self.entries,
                &mut self.ascending,
                &mut self.places,
                id,
                messages,
            ),
        }
    }

    /// Writes the messages of an instance that has an entry, which the caller sees to. It takes no
    /// memory.
    pub fn replace(&mut self, id: InstanceId, messages: Messages)
        requires present { IsSome (finite.get self.old id) }
        ensures replaced { self.new ≡ finite.insert self.old id messages }
    {
        let Some(at) = place(&self.entries, self.ascending, &self.places, id) else {
            unreachable!()
        };
        self.entries[at] = Entry { id, messages };
    }

    /// Silences every instance, in its entry. It takes no memory.
    pub fn silence_all(&mut self)
        ensures silenced { (id : ℕ) → finite.get self.new id
            ≡ option_map (λ _. silence) (finite.get self.old id) }
    {
        silence_entries(&mut self.entries);
    }
}

//! Ids of service instances, services and plans, as numbers of 128 bits. The text of a number is a GUID in the
//! hyphenated form.
//!
//! The standard recommends GUIDs and allows other strings. The calls of this crate read GUIDs alone, and `osb_wire`
//! gives every other string a number (this project's choice).
ghost use Rattle.std.specs.Prelude.{◌≡◌, ◌==◌, ◌<◌, ◌^◌, ℕ, Some, None, MatchResult};
ghost use Rattle.std.specs.Cmp.Lexicographic.{slice_cmp};
ghost use Rattle.std.proofs.Common.{rules};
ghost use Rattle.std.specs.Cmp.{partial_order_from_own_ties};
ghost use Rattle.std.specs.Cmp.Rules.{comparing, hashing};
ghost use Rattle.std.specs.Fmt.{styled_text};
ghost use Rattle.std.specs.Hash as fed;
ghost use Rattle.std.specs.Ordering.{as_partial_cmp, nat_cmp};
ghost use Rattle.std.specs.declared.cmp.Ordering.TheVariants.{Less};
ghost use Rattle.osb_message.specs.IdText.{id_of, id_of_lower, id_text};

use std::cmp::Ordering;
use std::fmt;
use std::hash::{Hash, Hasher};
use std::marker::{Model, PhantomData};
use thiserror::Error;
use uuid::Uuid;

/// Why a text is no id: this project's choice, as the standard allows any text.
#[derive(Clone, Copy, Debug, PartialEq, Eq, Error)]
pub enum IdFault {
    /// The text isn't 32 hexadecimal digits, joined by hyphens as 8-4-4-4-12.
    #[error("NotAnId")]
    NotAnId = 1,
}

/// Marks the ids of service instances (this project's choice). It has no values.
pub enum Instance {}

/// Marks the ids of services (this project's choice). It has no values.
pub enum Service {}

/// Marks the ids of plans (this project's choice). It has no values.
pub enum Plan {}

/// An id of what `K` marks: a number of 128 bits, equal and ordered as that number, and printed as a GUID in the text
/// form of [`Id::to_text`], by `{}` as by `{:?}`.
///
/// The standard recommends a GUID for `instance_id`, `service_id` and `plan_id` (sections
/// Provisioning and Catalog Management); that one type serves for all three is this project's choice,
/// and so are its calls.
/// Contracts see an id as its number. The order of the numbers is the byte order of the texts.
#[derive_where(Clone, Copy)]
pub struct Id<K> {
    number: u128,
    kind: PhantomData<K>,
}

impl<K> Model for Id<K> {
    ghost Value = { ℕ };

    ghost view = { λ i. i.number };

    ghost inverse = { λ n. record { number = n; kind = record {} } };
}

impl<K> PartialEq for Id<K> {
    ghost eq = { ◌==◌ };

    ghost laws = { Prim.search (comparing, rules) };

    fn eq(&self, other: &Id<K>) -> bool {
        self.value() == other.value()
    }
}

impl<K> Eq for Id<K> {
    ghost laws = { Prim.search (comparing, rules) };
}

impl<K> Ord for Id<K> {
    ghost cmp = { nat_cmp };

    ghost total = { Prim.search (comparing, rules) };

    ghost matches_partial_cmp = { Prim.search (comparing, rules) };

    ghost matches_eq = { Prim.search (comparing, rules) };

    fn cmp(&self, other: &Id<K>) -> Ordering {
        self.value().cmp(&other.value())
    }
}

impl<K> PartialOrd for Id<K> {
    ghost partial_cmp = { as_partial_cmp nat_cmp };

    ghost laws = { partial_order_from_own_ties (Prim.search (comparing, rules)) (Prim.search (comparing, rules)) };

    fn partial_cmp(&self, other: &Id<K>) -> Option<Ordering> {
        Some(self.cmp(other))
    }
}

impl<K> Hash for Id<K> {
    ghost hash_input = { fed.u128 };

    ghost respects_eq = { Prim.search (hashing, rules) };

    fn hash<H: Hasher>(&self, state: &mut H) {
        self.value().hash(state);
    }
}

impl<K> fmt::Display for Id<K> {
    ghost output = { λ id. Some (id_text id) };

    ghost styled_output = { λ id style. Some (styled_text style (id_text id)) };

    fn fmt<W: fmt::Write>(&self, f: &mut fmt::Formatter<W>) -> fmt::Result {
        let mut buffer = [0u8; 36];
        f.pad(self.text_in(&mut buffer))
    }
}

impl<K> fmt::Debug for Id<K> {
    ghost debug_output = { λ id. Some (id_text id) };

    fn fmt<W: fmt::Write>(&self, f: &mut fmt::Formatter<W>) -> fmt::Result {
        fmt::Display::fmt(self, f)
    }
}

/// The id of a service instance (`instance_id`).
pub type InstanceId = Id<Instance>;

/// The id of a service (`service_id`).
pub type ServiceId = Id<Service>;

/// The id of a plan (`plan_id`).
pub type PlanId = Id<Plan>;

#[tactic(auto, using(crate::proofs::IdLemmas::text_steps))]
impl<K> Id<K> {
    /// The id with this number. It takes no memory.
    pub fn from_value(number: u128) -> Self
        ensures id { result ≡ number }
    {
        Id {
            number,
            kind: PhantomData,
        }
    }

    /// The number of the id. The first digit of the text is the most significant. It takes no memory.
    pub fn value(&self) -> u128
        ensures number { result ≡ self.now }
    {
        self.number
    }

    /// Reads the text form of an id: 8, 4, 4, 4 and 12 hexadecimal digits in either case, joined by
    /// hyphens.
    ///
    /// # Errors
    ///
    /// [`IdFault::NotAnId`] for every other text, the braced, URN and unhyphenated forms of a GUID
    /// among them. It takes no memory.
    pub fn from_text(text: &str) -> Result<Self, IdFault>
        ensures reads { MatchResult result (λ id. id_of text.now ≡ Some id) (λ _. id_of text.now ≡ None) }
    {
        Id::from_bytes(text.as_bytes())
    }

    /// The same as [`Id::from_text`], for the bytes of a text that may not be UTF-8.
    ///
    /// # Errors
    ///
    /// [`IdFault::NotAnId`] for all bytes that aren't the text form of an id. It takes no memory.
    pub fn from_bytes(text: &[u8]) -> Result<Self, IdFault>
        ensures reads { MatchResult result (λ id. id_of text.now ≡ Some id) (λ _. id_of text.now ≡ None) }
    {
        if text.len() != 36 {
            return Err(IdFault::NotAnId);
        }
        match Uuid::try_parse_ascii(text) {
            Ok(uuid) => Ok(Id::from_value(uuid.as_u128())),
            Err(_) => Err(IdFault::NotAnId),
        }
    }

    /// Reads the text form of an id in lower case alone: exactly the texts that [`Id::to_text`] returns.
    ///
    /// It returns none for every other text, one with a digit in upper case among them, and takes no
    /// memory.
    pub fn from_lower_text(text: &str) -> Option<Self>
        ensures reads { result ≡ id_of_lower text.now }
    {
        let Ok(id) = Self::from_text(text) else {
            return None;
        };
        let mut buffer = [0u8; 36];
        if text == id.text_in(&mut buffer) {
            Some(id)
        } else {
            None
        }
    }

    /// The text form of the id, in lower case, written into the given bytes. It takes no memory.
    ///
    /// The clauses `reads` and `fits` follow from `text` and from what an id is. They stand for callers
    /// that write ids into texts.
    pub fn text_in<'b>(&self, buffer: &'b mut [u8; 36]) -> &'b str
        ensures text { result.now ≡ id_text self.now }
        ensures reads { id_of_lower result.now ≡ Some self.now }
        ensures fits { self.now < 2 ^ 128 }
    {
        Uuid::from_u128(self.number)
            .hyphenated()
            .encode_lower(buffer)
    }

    /// The text form of the id, in lower case: 36 bytes of ASCII, which read as the id again and
    /// stand in the order of the ids. It takes no memory.
    ///
    /// The clauses `reads` and `ordered` follow from `text`. They stand for callers that keep texts, or
    /// sort them, in place of ids.
    pub fn to_text(&self) -> [u8; 36]
        ensures text { result ≡ id_text self.now }
        ensures reads { id_of result ≡ Some self.now }
        ensures ordered { (below : ℕ) → below < self.now
            → slice_cmp nat_cmp (id_text below) result ≡ Less }
    {
        let mut buffer = [0u8; 36];
        let mut text = [0u8; 36];
        text.copy_from_slice(self.text_in(&mut buffer).as_bytes());
        text
    }
}

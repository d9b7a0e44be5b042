//! The platform: what it records of each instance, and the requests that it makes.
ghost use Rattle.std.specs.Prelude.{◌≡◌, ◌≢◌, ◌↔◌, ◌⊎◌, ◌&&◌, not, ℕ, Some, Ok, Err, string_bytes, Contains};
ghost use Rattle.std.specs.Prelude.{IsTrue, IsSome, IsNone, IfSome, IsOk, IfOk, IfErr, OnOk, OnErr};
ghost use Rattle.std.specs.FinMap as map;
ghost use Rattle.std.specs.List.Sorted.{IsStrictlySortedBy};
ghost use Rattle.std.specs.Ordering.{nat_cmp};
ghost use Rattle.osb_platform.specs.State.{state_after, due};
ghost use Rattle.osb_platform.specs.PlatformRow.{IsSound, IsRestarted};
ghost use Rattle.osb_platform.specs.PlatformRow.{kind_out, is_idle, can_send, can_expire, can_remove};
ghost use Rattle.osb_platform.specs.PlatformRow.{wanted_row, sent, answered, timed_out, cleaned_up};
ghost use Rattle.osb_platform.specs.PlatformRow.{first_request, next_request};
ghost use Rattle.osb_platform.specs.SavedRecord.{saved_value, saved_text, rows_in, IsRecordOf};
ghost use Rattle.serde_json.specs.Read.{read};

use crate::{
    CreateFault, ExpireFault, LoadFault, NoRequest, PlatformRow, RemoveFault, SaveFault, SendFault,
    State, decide_deprovision, decide_poll, decide_provision, decide_timeout, loading, saving,
};
use osb_message::{Answer, InstanceId, Kind, Memory, PlanId, Request, Rows, ServiceId};
use std::alloc::Global;
use std::collections::btree_map::Iter;
use std::marker::Model;

/// The kind of the request that is due in a state, or none: a Poll in `polling` and `cleaning-polling`, a
/// Deprovision in `cleaning`. What is due when is this project's choice. It takes no memory.
pub fn kind_due(state: State) -> Option<Kind>
    ensures kind { result ≡ due state }
{
    match state {
        State::Polling | State::CleaningPolling => Some(Kind::Poll),
        State::Cleaning => Some(Kind::Deprovision),
        State::Wanted | State::Ready | State::Gone | State::Unsettled => None,
    }
}

/// What is recorded after this answer to a request of this kind, which was sent in this state: by
/// [`decide_provision`](crate::decide_provision), [`decide_poll`](crate::decide_poll) or
/// [`decide_deprovision`](crate::decide_deprovision). It takes no memory.
pub fn decide_answer(state: State, kind: Kind, answer: Answer) -> State
    ensures state { result ≡ state_after state kind answer }
{
    match kind {
        Kind::Provision => decide_provision(answer),
        Kind::Poll => decide_poll(state, answer),
        Kind::Deprovision => decide_deprovision(answer),
    }
}

/// What a platform records of its instances. It is the source of truth: the broker is expected to
/// hold all that the platform knows, and none that it doesn't (section Orphan Mitigation). What is
/// recorded is this project's choice.
///
/// Contracts see a finite map from ids to records. A `wanted` instance always has its Provision out; in
/// every other state nothing is out, or the request that is due there.
#[derive(Drop)]
pub struct Platform {
    rows: Rows<PlatformRow>,
}

impl Model for Platform {
    ghost use Rattle.std.specs.Ordering.{nat_cmp};
    ghost use Rattle.std.specs.FinMap as map;
    ghost use Rattle.std.specs.Coded.{coded_ℕ};
    ghost use Rattle.osb_platform.specs.declared.row.PlatformRow.{PlatformRow};
    ghost use Rattle.osb_platform.specs.contracts.row.PlatformRow as row;
    ghost use Rattle.osb_platform.specs.PlatformRow.{IsSound};

    ghost Value = { map.FinMap nat_cmp PlatformRow };

    ghost coded = { map.code coded_ℕ row.the_row.coded };

    ghost view = { λ p. p.rows };

    ghost invariant = { λ p. IsSound p.rows };
}

impl Platform {
    /// A platform with no instances (this project's choice). It keeps the allocator for later
    /// instances, and takes no memory.
    #[tactic(auto, using(osb_message::proofs::Maps::row_steps))]
    pub fn new(alloc: Global) -> Self
        ensures empty { result ≡ map.empty }
    {
        Platform {
            rows: Rows::new(alloc),
        }
    }

    /// What is recorded of the instance, or none where its id was never recorded (this project's
    /// choice). It takes no memory.
    pub fn row(&self, id: InstanceId) -> Option<PlatformRow>
        ensures row { result ≡ map.get self.now id }
        ensures sound { IsSound self.now }
    {
        self.rows.get(id)
    }

    /// Each recorded id with what is recorded of it, in ascending order of the ids (this project's
    /// choice). It takes no memory.
    pub fn rows(&self) -> Iter<'_, InstanceId, PlatformRow>
        ensures rows { result ≡ map.entries self.now }
    {
        self.rows.iter()
    }

    /// The recorded ids, ascending (this project's choice).
    ///
    /// The clauses `recorded` and `ascending` follow from `keys`. They stand for callers that know a
    /// platform by what is recorded of each id.
    ///
    /// # Errors
    ///
    /// [`Memory`] where an allocation failed.
    pub fn ids(&self, alloc: Global) -> Result<Vec<InstanceId>, Memory>
        ensures keys { IfOk result (λ ids. ids.items ≡ map.keys self.now) }
        ensures recorded { IfOk result (λ ids.
            (q : ℕ) → Contains ids.items q ↔ IsSome (map.get self.now q)) }
        ensures ascending { IfOk result (λ ids. IsStrictlySortedBy nat_cmp ids.items) }
    {
        self.rows.ids(alloc)
    }

    /// The saved record of the platform: what is recorded of each instance, as JSON text.
    ///
    /// The text is one object with no spaces and two members, `instances` and `version`, the number 2.
    /// `instances` is an object with a member for each recorded id, in ascending order: the name is the
    /// id's text in lower case, and the value an object of the texts `plan` and `service`, the ids in
    /// lower case, and `state`, the word of the state. Which request is out isn't saved. A platform with
    /// no instances is saved as `{"instances":{},"version":2}`. All of this is this project's choice.
    ///
    /// When to save is told in docs/saved-record.md.
    ///
    /// # Errors
    ///
    /// [`SaveFault::Memory`] where an allocation failed.
    pub fn save(&self, alloc: Global) -> Result<String, SaveFault>
        ensures text { IfOk result (λ text. string_bytes text ≡ saved_text self.now) }
        ensures reads { IfOk result (λ text.
            read (string_bytes text) ≡ Some (saved_value self.now)) }
        ensures record { IfOk result (λ text. IsRecordOf self.now (string_bytes text)) }
    {
        let Ok(text) = saving::write_rows(alloc, &self.rows) else {
            return Err(SaveFault::Memory);
        };
        Ok(text)
    }

    /// The platform that a saved record names, after a restart: each state is taken through
    /// [`decide_restart`](crate::decide_restart), and nothing is out.
    ///
    /// The text may have any spacing, and members in any order. A text without a member `version` is
    /// read as one of format 1, which has the members of `instances` alone. The platform keeps the
    /// allocator for later instances. The record of [`Platform::save`] is refused only where
    /// memory runs out. All of this is this project's choice.
    ///
    /// # Errors
    ///
    /// The first of these that fits. [`LoadFault::NotJson`] where the text has no reading as JSON,
    /// [`LoadFault::NotAnObject`] where the value isn't an object, [`LoadFault::BadVersion`] where it has
    /// a `version` that isn't 2 written as an integer, [`LoadFault::BadOuter`] where it has a `version`
    /// and not exactly one further member, the object `instances`, [`LoadFault::BadKey`] where some
    /// instance's name isn't the text of an id in lower case, [`LoadFault::BadMember`] where some
    /// instance isn't an object with the members `plan`, `service` and `state` and no other, two texts
    /// of ids in lower case and one of the seven words. [`LoadFault::Memory`] in place of any other where
    /// an allocation failed.
    pub fn load(alloc: Global, text: &str) -> Result<Platform, LoadFault>
        ensures ok { IfOk result (λ platform. (named : map.FinMap nat_cmp PlatformRow)
            × (rows_in text.now ≡ Ok named) × IsRestarted named platform) }
        ensures err { IfErr result (λ fault.
            (fault ≡ LoadFault.Memory) ⊎ (rows_in text.now ≡ Err fault)) }

        ensures reload_err { (saved : map.FinMap nat_cmp PlatformRow) → IsRecordOf saved text.now
            → IfErr result (λ fault. fault ≡ LoadFault.Memory) }
        ensures reload { (saved : map.FinMap nat_cmp PlatformRow) → IsRecordOf saved text.now
            → IfOk result (λ platform. IsRestarted saved platform) }
    {
        let rows = loading::read_rows(alloc, text)?;
        Ok(Platform { rows })
    }

    /// Records a new instance as `wanted` and returns its Provision, which is then out (section
    /// Provisioning).
    ///
    /// `accepts` says whether the platform takes an asynchronous operation.
    ///
    /// # Errors
    ///
    /// [`CreateFault::IdUsed`] exactly where the id is recorded, in any state: an id is never used
    /// again (this project's choice). It takes no memory to say so. [`CreateFault::Memory`] where an
    /// allocation failed. The platform is then as before.
    #[tactic(auto, using(osb_message::proofs::Maps::row_steps))]
    pub fn create(
        &mut self,
        id: InstanceId,
        service: ServiceId,
        plan: PlanId,
        accepts: bool,
    ) -> Result<Request, CreateFault>
        ensures request { IfOk result (λ r. r ≡ first_request id service plan accepts) }
        ensures row { OnOk result (map.get self.new id ≡ Some (wanted_row service plan)) }
        ensures others { (q : ℕ) → q ≢ id → map.get self.new q ≡ map.get self.old q }

        ensures id_used { (result ≡ Err CreateFault.IdUsed) ↔ IsSome (map.get self.old id) }
        ensures err { OnErr result (self.new ≡ self.old) }
    {
        if self.row(id).is_some() {
            return Err(CreateFault::IdUsed);
        }
        let row = PlatformRow {
            service,
            plan,
            state: State::Wanted,
            out: Some(Kind::Provision),
        };
        let Ok(()) = self.rows.insert(id, row) else {
            return Err(CreateFault::Memory);
        };
        Ok(Request {
            kind: Kind::Provision,
            id,
            service,
            plan,
            accepts_incomplete: accepts,
        })
    }

    /// Returns the request that is due, which is then out: a Poll in `polling` and
    /// `cleaning-polling` (section Polling Last Operation for Service Instances), a Deprovision in
    /// `cleaning` (section Deprovisioning). It has the recorded service and plan, and always accepts an
    /// asynchronous operation (this project's choice). It takes no memory.
    ///
    /// # Errors
    ///
    /// In this order, with the platform as before: [`SendFault::Unknown`] where the id isn't recorded,
    /// [`SendFault::Busy`] where a request is out, [`SendFault::NothingDue`] in `ready`, `gone`
    /// and `unsettled`.
    #[tactic(auto, using(osb_message::proofs::Maps::row_steps))]
    pub fn send(&mut self, id: InstanceId) -> Result<Request, SendFault>
        ensures request { IfOk result (λ r. next_request id (map.get self.old id) ≡ Some r) }
        ensures row { OnOk result (map.get self.new id ≡ sent (map.get self.old id)) }
        ensures others { (q : ℕ) → q ≢ id → map.get self.new q ≡ map.get self.old q }

        ensures ok { IsOk result ↔ IsTrue (can_send (map.get self.old id)) }
        ensures unknown { (result ≡ Err SendFault.Unknown) ↔ IsNone (map.get self.old id) }
        ensures busy { (result ≡ Err SendFault.Busy) ↔ IsSome (kind_out (map.get self.old id)) }
        ensures nothing_due { (result ≡ Err SendFault.NothingDue)
            ↔ IsTrue (is_idle (map.get self.old id) && not (can_send (map.get self.old id))) }
        ensures err { OnErr result (self.new ≡ self.old) }
    {
        let Some(row) = self.row(id) else {
            return Err(SendFault::Unknown);
        };
        if row.out.is_some() {
            return Err(SendFault::Busy);
        }
        let Some(kind) = kind_due(row.state) else {
            return Err(SendFault::NothingDue);
        };
        self.rows.replace(
            id,
            PlatformRow {
                out: Some(kind),
                ..row
            },
        );
        Ok(Request {
            kind,
            id,
            service: row.service,
            plan: row.plan,
            accepts_incomplete: true,
        })
    }

    /// Takes the answer to the request that is out: the state becomes what the table of its kind gives,
    /// and nothing is out. It takes no memory.
    ///
    /// The tables are [`decide_provision`](crate::decide_provision) (section Provisioning),
    /// [`decide_poll`](crate::decide_poll) (section Polling Last Operation for Service Instances) and
    /// [`decide_deprovision`](crate::decide_deprovision) (section Deprovisioning). What a status means
    /// is the standard's; the records are this project's choice.
    ///
    /// # Errors
    ///
    /// [`NoRequest`] exactly where the id isn't recorded or no request is out. The platform is then as
    /// before.
    #[tactic(auto, using(osb_message::proofs::Maps::row_steps))]
    pub fn answer(&mut self, id: InstanceId, answer: Answer) -> Result<(), NoRequest>
        ensures row { IfSome (kind_out (map.get self.old id)) (λ kind.
            map.get self.new id ≡ answered kind answer (map.get self.old id)) }
        ensures others { (q : ℕ) → q ≢ id → map.get self.new q ≡ map.get self.old q }

        ensures ok { IsOk result ↔ IsSome (kind_out (map.get self.old id)) }
        ensures err { OnErr result (self.new ≡ self.old) }
    {
        let Some(row) = self.row(id) else {
            return Err(NoRequest);
        };
        let Some(kind) = row.out else {
            return Err(NoRequest);
        };
        self.rows
            .replace(id, row.in_state(decide_answer(row.state, kind, answer)));
        Ok(())
    }

    /// Gives up the request that is out: `wanted` becomes `cleaning`, since its Provision may have made
    /// an instance (section Orphan Mitigation), every other state stays (this project's choice), and
    /// nothing is out. It takes no memory.
    ///
    /// # Errors
    ///
    /// [`NoRequest`] exactly where the id isn't recorded or no request is out. The platform is then as
    /// before.
    #[tactic(auto, using(osb_message::proofs::Maps::row_steps))]
    pub fn timeout(&mut self, id: InstanceId) -> Result<(), NoRequest>
        ensures row { OnOk result (map.get self.new id ≡ timed_out (map.get self.old id)) }
        ensures others { (q : ℕ) → q ≢ id → map.get self.new q ≡ map.get self.old q }

        ensures ok { IsOk result ↔ IsSome (kind_out (map.get self.old id)) }
        ensures err { OnErr result (self.new ≡ self.old) }
    {
        let Some(row) = self.row(id) else {
            return Err(NoRequest);
        };
        if row.out.is_none() {
            return Err(NoRequest);
        }
        self.rows
            .replace(id, row.in_state(decide_timeout(row.state)));
        Ok(())
    }

    /// Gives up polling: the maximum polling duration has passed, and `polling` becomes `cleaning`
    /// (sections Polling Last Operation for Service Instances and Orphan Mitigation). It takes no
    /// memory.
    ///
    /// # Errors
    ///
    /// In this order, with the platform as before: [`ExpireFault::Unknown`] where the id isn't
    /// recorded, [`ExpireFault::Busy`] where a request is out, [`ExpireFault::NotPolling`] in
    /// every state but `polling`.
    #[tactic(auto, using(osb_message::proofs::Maps::row_steps))]
    pub fn expire(&mut self, id: InstanceId) -> Result<(), ExpireFault>
        ensures row { OnOk result (map.get self.new id ≡ cleaned_up (map.get self.old id)) }
        ensures others { (q : ℕ) → q ≢ id → map.get self.new q ≡ map.get self.old q }

        ensures ok { IsOk result ↔ IsTrue (can_expire (map.get self.old id)) }
        ensures unknown { (result ≡ Err ExpireFault.Unknown) ↔ IsNone (map.get self.old id) }
        ensures busy { (result ≡ Err ExpireFault.Busy) ↔ IsSome (kind_out (map.get self.old id)) }
        ensures not_polling { (result ≡ Err ExpireFault.NotPolling)
            ↔ IsTrue (is_idle (map.get self.old id) && not (can_expire (map.get self.old id))) }
        ensures err { OnErr result (self.new ≡ self.old) }
    {
        let Some(row) = self.row(id) else {
            return Err(ExpireFault::Unknown);
        };
        if row.out.is_some() {
            return Err(ExpireFault::Busy);
        }
        match row.state {
            State::Polling => {}
            _ => return Err(ExpireFault::NotPolling),
        }
        self.rows.replace(id, row.in_state(State::Cleaning));
        Ok(())
    }

    /// Has an instance deleted, as an operator asks: `polling`, `ready` and `unsettled` become
    /// `cleaning` (section Deprovisioning; from which states is this project's choice). It takes no
    /// memory.
    ///
    /// # Errors
    ///
    /// In this order, with the platform as before: [`RemoveFault::Unknown`] where the id isn't
    /// recorded, [`RemoveFault::Busy`] where a request is out, [`RemoveFault::NotRemovable`] in
    /// every other state.
    #[tactic(auto, using(osb_message::proofs::Maps::row_steps))]
    pub fn remove(&mut self, id: InstanceId) -> Result<(), RemoveFault>
        ensures row { OnOk result (map.get self.new id ≡ cleaned_up (map.get self.old id)) }
        ensures others { (q : ℕ) → q ≢ id → map.get self.new q ≡ map.get self.old q }

        ensures ok { IsOk result ↔ IsTrue (can_remove (map.get self.old id)) }
        ensures unknown { (result ≡ Err RemoveFault.Unknown) ↔ IsNone (map.get self.old id) }
        ensures busy { (result ≡ Err RemoveFault.Busy) ↔ IsSome (kind_out (map.get self.old id)) }
        ensures not_removable { (result ≡ Err RemoveFault.NotRemovable)
            ↔ IsTrue (is_idle (map.get self.old id) && not (can_remove (map.get self.old id))) }
        ensures err { OnErr result (self.new ≡ self.old) }
    {
        let Some(row) = self.row(id) else {
            return Err(RemoveFault::Unknown);
        };
        if row.out.is_some() {
            return Err(RemoveFault::Busy);
        }
        match row.state {
            State::Polling | State::Ready | State::Unsettled => {}
            _ => return Err(RemoveFault::NotRemovable),
        }
        self.rows.replace(id, row.in_state(State::Cleaning));
        Ok(())
    }
}

//! A broker: its catalogue, and the rows of the instances that it holds.
ghost use Rattle.std.specs.Prelude.{◌≡◌, ◌≢◌, ◌↔◌, ◌&&◌, ℕ, false, IsTrue, is_none, is_some};
ghost use Rattle.std.specs.Prelude.{IsOk, IfOk, OnOk, OnErr, IfSome};
ghost use Rattle.std.specs.FinMap as map;
ghost use Rattle.osb_message.specs.declared.messages.Kind.TheVariants.{Provision};
ghost use Rattle.osb_broker.specs.Change.{row_after};
ghost use Rattle.osb_broker.specs.Finished.{finished, is_running};
ghost use Rattle.osb_broker.specs.Handled.{handled_by, makes_row};
ghost use Rattle.osb_broker.specs.Held.{IsHeld, IsHeldAt};

use crate::decision::{Change, decide_in};
use crate::{BrokerRow, NothingRunning, Outcome, finishing};
use osb_message::{Answer, Catalogue, InstanceId, Memory, Request, Rows};
use std::alloc::Global;
use std::marker::Model;

/// A broker: the plans that it sells, and a row for each instance that it holds, by instance id (this
/// project's choice; the standard leaves to the broker what it keeps).
///
/// The pair of service and plan of each row stands in the catalogue, and a row of a synchronous
/// plan is [`Ready`](crate::Phase::Ready): such an instance is made and deleted within one call.
///
/// Contracts see the catalogue's finite map and a finite map from instance ids to rows.
#[derive(Drop)]
pub struct Broker {
    catalogue: Catalogue,
    rows: Rows<BrokerRow>,
}

impl Model for Broker {
    ghost use Rattle.std.specs.Prelude.{ℕ};
    ghost use Rattle.osb_broker.specs.Held.{IsHeldAt};
    ghost use Rattle.osb_broker.specs.Holding.{Holding, holding_code};

    ghost Value = { Holding };

    ghost coded = { holding_code };

    ghost view = { λ b. record { catalogue = b.catalogue; rows = b.rows } };

    ghost invariant = { λ b. (id : ℕ) → IsHeldAt b.catalogue b.rows id };
}

// Makes the change at an instance.
#[tactic(auto, using(osb_message::proofs::Maps::row_steps))]
fn apply(rows: &mut Rows<BrokerRow>, id: InstanceId, change: Change) -> Result<(), Memory>
    ensures row { OnOk result (map.get rows.new id ≡ row_after change (map.get rows.old id)) }
    ensures others { (other : ℕ) → other ≢ id → map.get rows.new other ≡ map.get rows.old other }
    ensures err { OnErr result (rows.new ≡ rows.old) }
    ensures no_new_row { (is_none (map.get rows.old id)
        && is_some (row_after change (map.get rows.old id))) ≡ false → IsOk result }
{
    match change {
        Change::Nothing => Ok(()),
        Change::Put(row) => rows.insert(id, row),
        Change::Remove => {
            rows.remove(id);
            Ok(())
        }
    }
}

impl Broker {
    /// A broker that sells the plans of the catalogue and holds no instance. That no call changes
    /// the catalogue is this project's choice. The broker keeps the allocator for later rows; this
    /// call takes no memory.
    #[tactic(auto, using(osb_message::proofs::Maps::row_steps))]
    pub fn new(alloc: Global, catalogue: Catalogue) -> Self
        ensures catalogue { result.catalogue ≡ catalogue }
        ensures rows { result.rows ≡ map.empty }
    {
        Broker {
            catalogue,
            rows: Rows::new(alloc),
        }
    }

    /// Handles a request, with the outcome of the work behind it, and returns the answer to send. Of
    /// the rules for its kind the first that fits counts; the order of the rules is this project's
    /// choice. A status of 200, 201 or 202 comes with an empty body where no state is named, 422
    /// with the error code named, and every other error with the code [`ErrorCode::Other`], which
    /// is this project's choice. Where no row is named, none changes; the row of another instance
    /// never does.
    ///
    /// A Provision (section Provisioning):
    ///
    /// 1. The catalogue doesn't have the pair of service and plan: 400.
    /// 2. The plan is asynchronous, and the request doesn't accept that: 422 `AsyncRequired`.
    /// 3. The instance has another service or plan: 409.
    /// 4. It is being made: 202.
    /// 5. It is ready: 200.
    /// 6. It is being deleted (this project's choice): 422 `ConcurrencyError`.
    /// 7. It could not be made or not be deleted (this project's choice): 500.
    /// 8. There is no row, and the work fails before the change: 500.
    /// 9. There is no row, and the work fails after the change: 500, and a new row.
    /// 10. There is no row, and the work of a synchronous plan is done: 201, and a new row.
    /// 11. There is no row, and the work of an asynchronous plan is started: 202, and a new row.
    ///
    /// The new row has the request's service and plan; it is ready where the plan is synchronous,
    /// and is being made where it is asynchronous.
    ///
    /// A Deprovision (section Deprovisioning):
    ///
    /// 1. There is no row: 410.
    /// 2. The instance has another service or plan (this project's choice): 400.
    /// 3. The plan is asynchronous, and the request doesn't accept that: 422 `AsyncRequired`.
    /// 4. It is being made (this project's choice): 422 `ConcurrencyError`.
    /// 5. It is being deleted: 202.
    /// 6. The work fails before the change: 500.
    /// 7. The work fails after the change: 500, and the change.
    /// 8. The work of a synchronous plan is done: 200, and the change.
    /// 9. The work of an asynchronous plan is started: 202, and the change.
    ///
    /// The change takes the row away where the plan is synchronous; where it is asynchronous, the
    /// instance is being deleted from then on.
    ///
    /// A Poll (section Polling Last Operation for Service Instances), which changes nothing and
    /// takes `accepts_incomplete` either way:
    ///
    /// 1. There is no row (this project's choice; the standard has it for an asynchronous deletion
    ///    alone): 410.
    /// 2. The instance has another service or plan (this project's choice): 400.
    /// 3. The work fails, before or after (this project's choice): 500.
    /// 4. It is being made or deleted: 200, in progress.
    /// 5. It is ready: 200, succeeded.
    /// 6. It could not be made or not be deleted: 200, failed.
    ///
    /// # Errors
    ///
    /// [`Memory`] where an allocation failed, which only a new row asks for: every other request
    /// takes no memory. The broker is then as before.
    ///
    /// The clause `other_kinds` follows from `no_new_row`. It stands for callers that know the kind of a
    /// request and nothing of the row. The clauses `held`, here, of [`Broker::finish`] and of
    /// [`Broker::row`], say what holds of every broker, for callers whose own contracts want it.
    ///
    /// [`ErrorCode::Other`]: osb_message::ErrorCode::Other
    #[tactic(auto, using(osb_message::proofs::Maps::row_steps, crate::proofs::MemoryLemmas::makes_row_other))]
    pub fn handle(&mut self, request: &Request, outcome: Outcome) -> Result<Answer, Memory>
        ensures answer { let after = handled_by self.old request.now outcome in
            IfOk result (λ answer. answer ≡ after.answer) }
        ensures row { let after = handled_by self.old request.now outcome in
            OnOk result (map.get self.new.rows request.now.id ≡ after.row) }
        ensures others { (id : ℕ) → id ≢ request.now.id
            → map.get self.new.rows id ≡ map.get self.old.rows id }
        ensures catalogue { self.new.catalogue ≡ self.old.catalogue }
        ensures err { OnErr result (self.new ≡ self.old) }
        ensures no_new_row { makes_row self.old.catalogue
            (map.get self.old.rows request.now.id) request.now outcome ≡ false → IsOk result }
        ensures other_kinds { request.now.kind ≢ Provision → IsOk result }
        ensures held { (id : ℕ) → IsHeldAt self.new.catalogue self.new.rows id }
    {
        let row = self.rows.get(request.id);
        let decision = decide_in(&self.catalogue, row, request, outcome);
        apply(&mut self.rows, request.id, decision.change)?;
        Ok(decision.answer)
    }

    /// Ends the operation that runs on the instance, well (`ok`) or badly. An instance that is
    /// being made is ready then, or has failed; one that is being deleted has no row, or could not
    /// be deleted. The row of another instance never changes.
    ///
    /// From then on a Poll says that the operation succeeded or failed, or that the instance is
    /// gone (section Polling Last Operation for Service Instances). That the caller says when the
    /// work ends, and what a failure leaves, are this project's choice. It takes no memory.
    ///
    /// # Errors
    ///
    /// [`NothingRunning`] exactly where the instance is neither being made nor being deleted: it
    /// has no row, or one in another phase. The broker is then as before.
    #[tactic(auto, using(osb_message::proofs::Maps::row_steps))]
    pub fn finish(&mut self, id: InstanceId, ok: bool) -> Result<(), NothingRunning>
        ensures running { IsOk result ↔ IsTrue (is_running (map.get self.old.rows id)) }
        ensures row { map.get self.new.rows id ≡ finished (map.get self.old.rows id) ok }
        ensures others { (other : ℕ) → other ≢ id
            → map.get self.new.rows other ≡ map.get self.old.rows other }
        ensures catalogue { self.new.catalogue ≡ self.old.catalogue }
        ensures err { OnErr result (self.new ≡ self.old) }
        ensures held { (other : ℕ) → IsHeldAt self.new.catalogue self.new.rows other }
    {
        let Some(row) = self.row(id) else {
            return Err(NothingRunning);
        };
        match finishing::finished(row, ok)? {
            Some(after) => self.rows.replace(id, after),
            None => self.rows.remove(id),
        }
        Ok(())
    }

    /// What the broker holds of the instance, or none (this project's choice: the standard's
    /// fetching of an instance isn't part of it). The row's pair of service and plan stands in the
    /// catalogue, and where the plan is synchronous the row is ready. It takes no memory.
    pub fn row(&self, id: InstanceId) -> Option<BrokerRow>
        ensures row { result ≡ map.get self.now.rows id }
        ensures held { IfSome result (IsHeld self.now.catalogue) }
    {
        self.rows.get(id)
    }
}

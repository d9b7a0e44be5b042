//! What a platform records of one binding.
ghost use Rattle.std.specs.Prelude.{◌≡◌, ◌≢◌, ◌↔◌, ◌⊎◌, ◌&&◌, not, true, false, Some, Ok, Err};
ghost use Rattle.std.specs.Prelude.{IsTrue, IsSome, IsOk, IfOk, IfErr, string_bytes};
ghost use Rattle.osb_message.specs.declared.messages.Request.{Request};
ghost use Rattle.osb_platform.specs.PlatformRow.{wanted_row, first_request};
ghost use Rattle.osb_platform.specs.PlatformRow.{can_send, can_expire, can_remove, is_idle};
ghost use Rattle.osb_instance.specs.RecordText.{possible};
ghost use Rattle.osb_instance.specs.Recorded.{Recorded, IsRecordedSound, IsSentAfter, IsAnsweredAfter};
ghost use Rattle.osb_instance.specs.Recorded.{IsGivenUpAfter, IsCleanedUpAfter, can_retry, is_gone_in, is_ready_in};
ghost use Rattle.osb_binding.specs.Answers.{is_useless};
ghost use Rattle.osb_binding.specs.Requests.{binding_request};
ghost use Rattle.osb_binding.specs.Texts.{binding_record_in, binding_record_text};

use crate::{BindingId, BindingRequest, BindingSent, NotReady};
use osb_instance::{
    ExpireRefused, NotOut, Record, RemoveRefused, RetryRefused, SendRefused, Sent, TextFault,
};
use osb_message::{Answer, InstanceId, Kind, Memory};
use osb_platform::PlatformRow;
use std::alloc::Global;
use std::marker::Model;

// The number of the format of the text.
const VERSION: u64 = 1;

/// What a platform records of one binding: as a [`Record`] has it of an instance (this project's choice; the standard
/// leaves the record to the platform).
///
/// Credentials stand beside the record, in a column of their own. Write them in the transaction in which the record
/// becomes `ready`, and forget them once it leaves `ready`.
#[derive(Clone, Copy, Debug, PartialEq, Eq)]
pub struct BindingRecord {
    life: Record,
}

impl Model for BindingRecord {
    ghost use Rattle.osb_instance.specs.Recorded.{Recorded, IsRecordedSound};

    ghost Value = { Recorded };

    ghost view = { λ r. r.life };

    ghost invariant = { λ r. IsRecordedSound r.life };

    ghost inverse = { λ r. record { life = r } };
}

// The request of a binding of the instance.
fn sent_of(instance: InstanceId, sent: Sent) -> BindingSent
    ensures sent { result ≡ record { request = binding_request instance sent.request; attempt = sent.attempt } }
{
    BindingSent {
        request: BindingRequest::of(instance, sent.request),
        attempt: sent.attempt,
    }
}

impl BindingRecord {
    /// A new binding of an instance, `wanted`, with the instance's service and plan, and its Bind, which is then out with
    /// the number 1 (section Binding). `instance` is what is recorded of the instance, read and locked in the transaction
    /// that writes this record.
    ///
    /// `accepts` says whether the platform takes an asynchronous operation. Accept one only if the broker serves the
    /// Fetch of a binding (`bindings_retrievable`): without it the credentials of an asynchronous Bind can't be had. The
    /// pair of ids is used once and never again. Write the record to the database before the request is sent (this
    /// project's choice). It takes no memory.
    ///
    /// # Errors
    ///
    /// [`NotReady`] exactly if the instance isn't recorded `ready`.
    pub fn create(
        instance: Record,
        instance_id: InstanceId,
        id: BindingId,
        accepts: bool,
    ) -> Result<(BindingRecord, BindingSent), NotReady>
        ensures ok { IsOk result ↔ (is_ready_in instance.row.state ≡ true) }
        ensures record { IfOk result (λ created. created.0
            ≡ record { row = wanted_row instance.row.service instance.row.plan; attempt = 1 }) }
        ensures sent { IfOk result (λ created. created.1 ≡ record {
          request = binding_request instance_id
              (first_request id instance.row.service instance.row.plan accepts);
          attempt = 1;
        }) }
    {
        if !instance.is_ready() {
            return Err(NotReady);
        }
        let PlatformRow { service, plan, .. } = instance.row();
        let life_id = InstanceId::from_value(id.value());
        let (life, sent) = Record::create(life_id, service, plan, accepts);
        Ok((BindingRecord { life }, sent_of(instance_id, sent)))
    }

    /// The binding's record from that of its life. It takes no memory.
    pub fn of(life: Record) -> BindingRecord
        ensures life { result ≡ life }
    {
        BindingRecord { life }
    }

    /// The record as the tables of instances have it. It takes no memory.
    pub fn as_record(self) -> Record
        ensures life { result ≡ self }
    {
        self.life
    }

    /// The record of these parts, as at [`Record::from_parts`]. It takes no memory.
    pub fn from_parts(row: PlatformRow, attempt: u64) -> Option<BindingRecord>
        ensures parts { result ≡ possible (record { row = row; attempt = attempt }) }
        ensures sound { IsSome result ↔ IsRecordedSound (record { row = row; attempt = attempt }) }
    {
        let life = Record::from_parts(row, attempt)?;
        Some(BindingRecord { life })
    }

    /// Service, plan, state, and the kind of the request that is out. It takes no memory.
    pub fn row(self) -> PlatformRow
        ensures row { result ≡ self.row }
    {
        self.life.row()
    }

    /// The number of the latest request, and 0 before the first. It takes no memory.
    pub fn attempt(self) -> u64
        ensures attempt { result ≡ self.attempt }
    {
        self.life.attempt()
    }

    /// Whether `ready` is recorded. It takes no memory.
    pub fn is_ready(self) -> bool
        ensures ready { result ≡ is_ready_in self.row.state }
    {
        self.life.is_ready()
    }

    /// Whether `gone` is recorded. It takes no memory.
    pub fn is_gone(self) -> bool
        ensures gone { result ≡ is_gone_in self.row.state }
    {
        self.life.is_gone()
    }

    /// The request that is due, as at [`Record::send`]: a Poll of the binding's last operation, or an Unbind (sections
    /// Polling Last Operation for Service Bindings and Unbinding). It takes no memory.
    ///
    /// # Errors
    ///
    /// As at [`Record::send`], with the record as before.
    pub fn send(
        self,
        instance_id: InstanceId,
        id: BindingId,
    ) -> Result<(BindingRecord, BindingSent), SendRefused>
        ensures ok { IsOk result ↔ (IsTrue (can_send (Some self.row)) × (self.attempt ≢ u64.MAX)) }
        ensures sent { IfOk result (λ after. (request : Request)
            × ((after.1.request ≡ binding_request instance_id request)
            × IsSentAfter id self after.0 request after.1.attempt)) }
        ensures busy { (result ≡ Err SendRefused.Busy) ↔ IsSome self.row.out }
        ensures nothing_due { (result ≡ Err SendRefused.NothingDue)
            ↔ IsTrue (is_idle (Some self.row) && not (can_send (Some self.row))) }
        ensures used_up { (result ≡ Err SendRefused.AttemptsUsedUp)
            ↔ (IsTrue (can_send (Some self.row)) × (self.attempt ≡ u64.MAX)) }
        ensures sound { IfOk result (λ after. IsRecordedSound after.0) }
    {
        let life_id = InstanceId::from_value(id.value());
        let (life, sent) = self.life.send(life_id)?;
        Ok((BindingRecord { life }, sent_of(instance_id, sent)))
    }

    /// Takes the answer to the request of this number, as at [`Record::answer`], with one difference: if the binding
    /// can't be fetched (`retrievable` is false), a 202 to a Bind is cleaned up, since its credentials can never be had
    /// (this project's choice).
    ///
    /// A Poll that says `succeeded` in `polling` is taken only together with the credentials. Send a Fetch first, and
    /// call this once the Fetch was answered 200 with an object. If it was answered otherwise, or not at all, call
    /// [`BindingRecord::timeout`] for the Poll. It takes no memory.
    ///
    /// # Errors
    ///
    /// [`NotOut`] exactly if no request is out, or one of another number. The record is as before.
    pub fn answer(
        self,
        attempt: u64,
        answer: Answer,
        retrievable: bool,
    ) -> Result<BindingRecord, NotOut>
        ensures out { IsOk result ↔ (IsSome self.row.out × (attempt ≡ self.attempt)) }
        ensures answered { is_useless retrievable self.row.out answer ≡ false
            → IfOk result (λ after. IsAnsweredAfter answer self after) }
        ensures useless { is_useless retrievable self.row.out answer ≡ true
            → IfOk result (λ after. IsGivenUpAfter self after) }
        ensures sound { IfOk result (λ after. IsRecordedSound after) }
    {
        let life = if is_useless(retrievable, self.life.row().out, answer) {
            self.life.timeout(attempt)?
        } else {
            self.life.answer(attempt, answer)?
        };
        Ok(BindingRecord { life })
    }

    /// Gives up the request of this number, as at [`Record::timeout`]: a Bind that is given up may have left credentials,
    /// so it is cleaned up (section Orphan Mitigation). It takes no memory.
    ///
    /// # Errors
    ///
    /// [`NotOut`] exactly if no request is out, or one of another number. The record is as before.
    pub fn timeout(self, attempt: u64) -> Result<BindingRecord, NotOut>
        ensures out { IsOk result ↔ (IsSome self.row.out × (attempt ≡ self.attempt)) }
        ensures given_up { IfOk result (λ after. IsGivenUpAfter self after) }
        ensures sound { IfOk result (λ after. IsRecordedSound after) }
    {
        let life = self.life.timeout(attempt)?;
        Ok(BindingRecord { life })
    }

    /// Gives up polling, as at [`Record::expire`]. It takes no memory.
    ///
    /// # Errors
    ///
    /// As at [`Record::expire`], with the record as before.
    pub fn expire(self) -> Result<BindingRecord, ExpireRefused>
        ensures cleaned_up { IfOk result (λ after. IsCleanedUpAfter self after) }
        ensures ok { IsOk result ↔ IsTrue (can_expire (Some self.row)) }
        ensures busy { (result ≡ Err ExpireRefused.Busy) ↔ IsSome self.row.out }
        ensures not_polling { (result ≡ Err ExpireRefused.NotPolling)
            ↔ IsTrue (is_idle (Some self.row) && not (can_expire (Some self.row))) }
    {
        let life = self.life.expire()?;
        Ok(BindingRecord { life })
    }

    /// Sends an Unbind again, as at [`Record::retry`]. It takes no memory.
    ///
    /// # Errors
    ///
    /// As at [`Record::retry`], with the record as before.
    pub fn retry(self) -> Result<BindingRecord, RetryRefused>
        ensures cleaned_up { IfOk result (λ after. IsCleanedUpAfter self after) }
        ensures ok { IsOk result ↔ IsTrue (can_retry (Some self.row)) }
        ensures busy { (result ≡ Err RetryRefused.Busy) ↔ IsSome self.row.out }
        ensures not_polling { (result ≡ Err RetryRefused.NotPolling)
            ↔ IsTrue (is_idle (Some self.row) && not (can_retry (Some self.row))) }
    {
        let life = self.life.retry()?;
        Ok(BindingRecord { life })
    }

    /// Has the binding deleted, as at [`Record::remove`]. It takes no memory.
    ///
    /// # Errors
    ///
    /// As at [`Record::remove`], with the record as before.
    pub fn remove(self) -> Result<BindingRecord, RemoveRefused>
        ensures cleaned_up { IfOk result (λ after. IsCleanedUpAfter self after) }
        ensures ok { IsOk result ↔ IsTrue (can_remove (Some self.row)) }
        ensures busy { (result ≡ Err RemoveRefused.Busy) ↔ IsSome self.row.out }
        ensures not_removable { (result ≡ Err RemoveRefused.NotRemovable)
            ↔ IsTrue (is_idle (Some self.row) && not (can_remove (Some self.row))) }
    {
        let life = self.life.remove()?;
        Ok(BindingRecord { life })
    }

    /// The text of the record, for a column of a database: with the members of [`Record::to_text`], and a `version` of
    /// its own, the number 1 (this project's choice).
    ///
    /// # Errors
    ///
    /// [`Memory`] if an allocation failed.
    pub fn to_text(self, alloc: Global) -> Result<String, Memory>
        ensures text { IfOk result (λ text. string_bytes text ≡ binding_record_text self) }
        ensures back { IfOk result (λ text. binding_record_in (string_bytes text) ≡ Ok self) }
    {
        self.life.to_text_with_version(alloc, VERSION)
    }

    /// The record that a text names, as [`BindingRecord::to_text`] writes it and [`Record::from_text`] reads one (this
    /// project's choice).
    ///
    /// # Errors
    ///
    /// As at [`Record::from_text`], [`TextFault::Memory`] in place of any other if an allocation failed.
    pub fn from_text(alloc: Global, text: &str) -> Result<BindingRecord, TextFault>
        ensures ok { IfOk result (λ r. binding_record_in text.now ≡ Ok r) }
        ensures err { IfErr result (λ fault.
            (fault ≡ TextFault.Memory) ⊎ (binding_record_in text.now ≡ Err fault)) }
        ensures back { (written : Recorded) → binding_record_in text.now ≡ Ok written
            → IfOk result (λ r. r ≡ written) }
        ensures back_err { (written : Recorded) → binding_record_in text.now ≡ Ok written
            → IfErr result (λ fault. fault ≡ TextFault.Memory) }
    {
        let life = Record::from_text_with_version(alloc, VERSION, text)?;
        Ok(BindingRecord { life })
    }
}

/// Whether the answer to what is out promises credentials that can't be fetched: a 202 to a Bind, if the binding isn't
/// `retrievable`. A platform cleans up after it (this project's choice). It takes no memory.
pub fn is_useless(retrievable: bool, out: Option<Kind>, answer: Answer) -> bool
    ensures is { result ≡ is_useless retrievable out answer }
{
    !retrievable && out == Some(Kind::Provision) && answer.status == 202
}

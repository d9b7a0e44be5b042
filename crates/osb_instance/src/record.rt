//! What a platform records of one instance.
ghost use Rattle.std.specs.Prelude.{◌≡◌, ◌≢◌, ◌↔◌, ◌⊎◌, ◌&&◌, not, Some, Ok, Err};
ghost use Rattle.std.specs.Prelude.{IsTrue, IsSome, IsOk, IfOk, IfErr, string_bytes};
ghost use Rattle.osb_platform.specs.PlatformRow.{wanted_row, first_request, restarted_row};
ghost use Rattle.osb_platform.specs.PlatformRow.{can_send, can_expire, can_remove, is_idle};
ghost use Rattle.osb_instance.specs.RecordText.{record_text, record_text_of, record_in, record_in_of, possible};
ghost use Rattle.osb_instance.specs.Recorded.{Recorded, IsRecordedSound, IsSentAfter, IsAnsweredAfter};
ghost use Rattle.osb_instance.specs.Recorded.{IsGivenUpAfter, IsCleanedUpAfter, can_retry, is_gone_in, is_ready_in};

use crate::record_text::{VERSION, can_be, read_record, write_record};
use crate::{ExpireRefused, NotOut, RemoveRefused, RetryRefused, SendRefused, TextFault};
use osb_message::{Answer, InstanceId, Kind, Memory, PlanId, Request, ServiceId};
use osb_platform::{PlatformRow, State, decide_answer, decide_restart, decide_timeout, kind_due};
use std::alloc::Global;
use std::marker::Model;

/// A request to send, and its number among those of its instance.
#[derive(Clone, Copy, Debug, PartialEq, Eq, Hash)]
pub struct Sent {
    /// The request.
    pub request: Request,
    /// Its number, which [`Record::answer`] and [`Record::timeout`] ask for. The first is 1, and each further one is
    /// the next.
    pub attempt: u64,
}

/// What a platform records of one instance: service, plan and state, the kind of the request that is out, and the
/// number of the latest request (this project's choice; the standard leaves the record to the platform).
///
/// A `wanted` instance has its Provision out, whose number is 1, and in every other state nothing is out or the
/// request that is due there. What is out has a number.
#[derive(Clone, Copy, Debug, PartialEq, Eq)]
pub struct Record {
    row: PlatformRow,
    attempt: u64,
}

impl Model for Record {
    ghost use Rattle.osb_instance.specs.Recorded.{Recorded, IsRecordedSound};

    ghost Value = { Recorded };

    ghost view = { λ r. record { row = r.row; attempt = r.attempt } };

    ghost invariant = { λ r. IsRecordedSound (record { row = r.row; attempt = r.attempt }) };

    ghost inverse = { λ r. record { row = r.row; attempt = r.attempt } };
}

impl Record {
    /// A new instance, `wanted`, and its Provision, which is then out with the number 1 (section Provisioning).
    ///
    /// `accepts` says whether the platform takes an asynchronous operation. An id is used once and never again: it is
    /// the key of the record's row, and the database has to refuse a second. The record is written there before the
    /// request is sent, and never deleted (this project's choice). It takes no memory.
    pub fn create(id: InstanceId, service: ServiceId, plan: PlanId, accepts: bool) -> (Record, Sent)
        ensures record { result.0 ≡ record { row = wanted_row service plan; attempt = 1 } }
        ensures sent { result.1
            ≡ record { request = first_request id service plan accepts; attempt = 1 } }
    {
        let row = PlatformRow {
            service,
            plan,
            state: State::Wanted,
            out: Some(Kind::Provision),
        };
        let request = Request {
            kind: Kind::Provision,
            id,
            service,
            plan,
            accepts_incomplete: accepts,
        };
        (
            Record { row, attempt: 1 },
            Sent {
                request,
                attempt: 1,
            },
        )
    }

    /// The first record of an instance that a [`Platform`](osb_platform::Platform) has recorded until now, as after a
    /// restart: `wanted` becomes `cleaning`, every other state stays, nothing is out, and no request has a number yet.
    /// So a platform that kept its records in one file moves to a database: it loads the file
    /// ([`Platform::load`](osb_platform::Platform::load)), and writes for each id what this gives of its row.
    ///
    /// It is called once for an instance, and never for a record that is in the database: the numbers would begin
    /// again, and the answer to an old request be taken for that to a new one. What was out there when a platform
    /// crashed is given up by [`Record::timeout`].
    ///
    /// The answer to a request that was sent before isn't taken any more. That a restart forgets what was out is this
    /// project's choice. It takes no memory.
    #[tactic(auto, using(osb_platform::proofs::Sound::timed_out_sound))]
    pub fn from_platform(row: PlatformRow) -> Record
        ensures record { result ≡ record { row = restarted_row row; attempt = 0 } }
    {
        Record {
            row: row.in_state(decide_restart(row.state)),
            attempt: 0,
        }
    }

    /// The record of these parts, as [`Record::row`] and [`Record::attempt`] give them, if it can come about: for who
    /// keeps them in columns of their own, or takes them from another language. None exactly where `wanted` stands
    /// without its Provision or with another number than 1, another request is out than the one that is due, or one is
    /// out with the number 0 (this project's choice). It takes no memory.
    #[tactic(auto, using(crate::proofs::RecordBack::can_be_sound, crate::proofs::RecordBack::sound_can_be))]
    pub fn from_parts(row: PlatformRow, attempt: u64) -> Option<Record>
        ensures parts { result ≡ possible (record { row = row; attempt = attempt }) }
        ensures sound { IsSome result ↔ IsRecordedSound (record { row = row; attempt = attempt }) }
    {
        if !can_be(&row, attempt) {
            return None;
        }
        Some(Record { row, attempt })
    }

    /// Service, plan, state, and the kind of the request that is out. It takes no memory.
    pub fn row(self) -> PlatformRow
        ensures row { result ≡ self.row }
    {
        self.row
    }

    /// The number of the latest request, and 0 before the first. It takes no memory.
    pub fn attempt(self) -> u64
        ensures attempt { result ≡ self.attempt }
    {
        self.attempt
    }

    /// Whether `ready` is recorded. It takes no memory.
    pub fn is_ready(self) -> bool
        ensures ready { result ≡ is_ready_in self.row.state }
    {
        matches!(self.row.state, State::Ready)
    }

    /// Whether `gone` is recorded. It takes no memory.
    pub fn is_gone(self) -> bool
        ensures gone { result ≡ is_gone_in self.row.state }
    {
        matches!(self.row.state, State::Gone)
    }

    /// The request that is due, which is then out with the next number: a Poll in `polling` and `cleaning-polling`
    /// (section Polling Last Operation for Service Instances), a Deprovision in `cleaning` (section Deprovisioning).
    /// It has the recorded service and plan, and always accepts an asynchronous operation (this project's choice).
    /// The record is written to the database before the request is sent. It takes no memory.
    ///
    /// `id` is that of [`Record::create`], the key of the record's row: the record doesn't hold it.
    ///
    /// # Errors
    ///
    /// In this order, with the record as before: [`SendRefused::Busy`] where a request is out,
    /// [`SendRefused::NothingDue`] in `ready`, `gone` and `unsettled`, [`SendRefused::AttemptsUsedUp`] where the
    /// latest number is 2^64 - 1.
    pub fn send(self, id: InstanceId) -> Result<(Record, Sent), SendRefused>
        ensures ok { IsOk result ↔ (IsTrue (can_send (Some self.row)) × (self.attempt ≢ u64.MAX)) }
        ensures sent { IfOk result (λ after.
            IsSentAfter id self after.0 after.1.request after.1.attempt) }
        ensures busy { (result ≡ Err SendRefused.Busy) ↔ IsSome self.row.out }
        ensures nothing_due { (result ≡ Err SendRefused.NothingDue)
            ↔ IsTrue (is_idle (Some self.row) && not (can_send (Some self.row))) }
        ensures used_up { (result ≡ Err SendRefused.AttemptsUsedUp)
            ↔ (IsTrue (can_send (Some self.row)) × (self.attempt ≡ u64.MAX)) }
        ensures sound { IfOk result (λ after. IsRecordedSound after.0) }
    {
        let row = self.row;
        if row.out.is_some() {
            return Err(SendRefused::Busy);
        }
        let Some(kind) = kind_due(row.state) else {
            return Err(SendRefused::NothingDue);
        };
        if self.attempt == u64::MAX {
            return Err(SendRefused::AttemptsUsedUp);
        }
        let attempt = self.attempt + 1;
        let request = Request {
            kind,
            id,
            service: row.service,
            plan: row.plan,
            accepts_incomplete: true,
        };
        let row = PlatformRow {
            out: Some(kind),
            ..row
        };
        Ok((Record { row, attempt }, Sent { request, attempt }))
    }

    /// Takes the answer to the request of this number: the state becomes what the table of its kind gives
    /// ([`decide_answer`](osb_platform::decide_answer)), and nothing is out. The record is written to the database
    /// before it is shown to anyone.
    ///
    /// What a status means is the standard's (sections Provisioning, Polling Last Operation for Service Instances and
    /// Deprovisioning); the records, and that an answer is taken by its number, are this project's choice. The answer
    /// to a request that was given up, which comes late, is refused so. A 4xx to a Provision that isn't surely the
    /// broker's is no answer but a timeout (`read_answer` of `osb_wire` gives none for it). It takes no memory.
    ///
    /// # Errors
    ///
    /// [`NotOut`] exactly where no request is out, or one of another number. The record is as before.
    #[tactic(auto, using(osb_platform::proofs::Sound::answered_sound))]
    pub fn answer(self, attempt: u64, answer: Answer) -> Result<Record, NotOut>
        ensures out { IsOk result ↔ (IsSome self.row.out × (attempt ≡ self.attempt)) }
        ensures answered { IfOk result (λ after. IsAnsweredAfter answer self after) }
        ensures sound { IfOk result (λ after. IsRecordedSound after) }
    {
        let row = self.row;
        let Some(kind) = row.out else {
            return Err(NotOut);
        };
        if attempt != self.attempt {
            return Err(NotOut);
        }
        let state = decide_answer(row.state, kind, answer);
        Ok(Record {
            row: row.in_state(state),
            attempt,
        })
    }

    /// Gives up the request of this number: `wanted` becomes `cleaning`, since its Provision may have made an
    /// instance (section Orphan Mitigation), every other state stays (this project's choice), and nothing is out. So
    /// is done with what was out when a platform crashed, at any later moment. It takes no memory.
    ///
    /// # Errors
    ///
    /// [`NotOut`] exactly where no request is out, or one of another number. The record is as before.
    #[tactic(auto, using(osb_platform::proofs::Sound::timed_out_sound))]
    pub fn timeout(self, attempt: u64) -> Result<Record, NotOut>
        ensures out { IsOk result ↔ (IsSome self.row.out × (attempt ≡ self.attempt)) }
        ensures given_up { IfOk result (λ after. IsGivenUpAfter self after) }
        ensures sound { IfOk result (λ after. IsRecordedSound after) }
    {
        let row = self.row;
        if row.out.is_none() || attempt != self.attempt {
            return Err(NotOut);
        }
        let state = decide_timeout(row.state);
        Ok(Record {
            row: row.in_state(state),
            attempt,
        })
    }

    /// Gives up polling: the maximum polling duration has passed, and `polling` becomes `cleaning` (sections Polling
    /// Last Operation for Service Instances and Orphan Mitigation). It takes no memory.
    ///
    /// # Errors
    ///
    /// In this order, with the record as before: [`ExpireRefused::Busy`] where a request is out,
    /// [`ExpireRefused::NotPolling`] in every state but `polling`.
    pub fn expire(self) -> Result<Record, ExpireRefused>
        ensures cleaned_up { IfOk result (λ after. IsCleanedUpAfter self after) }
        ensures ok { IsOk result ↔ IsTrue (can_expire (Some self.row)) }
        ensures busy { (result ≡ Err ExpireRefused.Busy) ↔ IsSome self.row.out }
        ensures not_polling { (result ≡ Err ExpireRefused.NotPolling)
            ↔ IsTrue (is_idle (Some self.row) && not (can_expire (Some self.row))) }
    {
        let row = self.row;
        if row.out.is_some() {
            return Err(ExpireRefused::Busy);
        }
        match row.state {
            State::Polling => {}
            _ => return Err(ExpireRefused::NotPolling),
        }
        Ok(Record {
            row: row.in_state(State::Cleaning),
            attempt: self.attempt,
        })
    }

    /// Sends a deletion again: `cleaning-polling` becomes `cleaning`, so a Deprovision is due. For a deletion whose
    /// maximum polling duration has passed, which has failed then (section Polling Last Operation for Service
    /// Instances), and for a broker that answers every Poll of it with another status than 200 and 410 (this project's
    /// choice). It takes no memory.
    ///
    /// # Errors
    ///
    /// In this order, with the record as before: [`RetryRefused::Busy`] if a request is out,
    /// [`RetryRefused::NotPolling`] in every state but `cleaning-polling`.
    pub fn retry(self) -> Result<Record, RetryRefused>
        ensures cleaned_up { IfOk result (λ after. IsCleanedUpAfter self after) }
        ensures ok { IsOk result ↔ IsTrue (can_retry (Some self.row)) }
        ensures busy { (result ≡ Err RetryRefused.Busy) ↔ IsSome self.row.out }
        ensures not_polling { (result ≡ Err RetryRefused.NotPolling)
            ↔ IsTrue (is_idle (Some self.row) && not (can_retry (Some self.row))) }
    {
        let row = self.row;
        if row.out.is_some() {
            return Err(RetryRefused::Busy);
        }
        match row.state {
            State::CleaningPolling => {}
            _ => return Err(RetryRefused::NotPolling),
        }
        Ok(Record {
            row: row.in_state(State::Cleaning),
            attempt: self.attempt,
        })
    }

    /// Has the instance deleted, as an operator asks: `polling`, `ready` and `unsettled` become `cleaning` (section
    /// Deprovisioning; from which states is this project's choice). It takes no memory.
    ///
    /// # Errors
    ///
    /// In this order, with the record as before: [`RemoveRefused::Busy`] where a request is out,
    /// [`RemoveRefused::NotRemovable`] in every other state.
    pub fn remove(self) -> Result<Record, RemoveRefused>
        ensures cleaned_up { IfOk result (λ after. IsCleanedUpAfter self after) }
        ensures ok { IsOk result ↔ IsTrue (can_remove (Some self.row)) }
        ensures busy { (result ≡ Err RemoveRefused.Busy) ↔ IsSome self.row.out }
        ensures not_removable { (result ≡ Err RemoveRefused.NotRemovable)
            ↔ IsTrue (is_idle (Some self.row) && not (can_remove (Some self.row))) }
    {
        let row = self.row;
        if row.out.is_some() {
            return Err(RemoveRefused::Busy);
        }
        match row.state {
            State::Polling | State::Ready | State::Unsettled => {}
            _ => return Err(RemoveRefused::NotRemovable),
        }
        Ok(Record {
            row: row.in_state(State::Cleaning),
            attempt: self.attempt,
        })
    }

    /// The text of the record, for a column of a database: a JSON object with no spaces and the members `attempt`,
    /// the number of the latest request, `out`, the word of the kind of the request that is out, or `null`, `plan`
    /// and `service`, the ids in lower case, `state`, the word of the state, and `version`, the number 1. All of this
    /// is this project's choice.
    ///
    /// # Errors
    ///
    /// [`Memory`] where an allocation failed.
    pub fn to_text(self, alloc: Global) -> Result<String, Memory>
        ensures text { IfOk result (λ text. string_bytes text ≡ record_text self) }
        ensures back { IfOk result (λ text. record_in (string_bytes text) ≡ Ok self) }
    {
        self.to_text_with_version(alloc, VERSION)
    }

    /// The text of a record of something else than an instance, such as a binding, whose texts have a number of their
    /// own: as [`Record::to_text`], with this number under `version` (this project's choice).
    ///
    /// # Errors
    ///
    /// [`Memory`] if an allocation failed.
    pub fn to_text_with_version(self, alloc: Global, version: u64) -> Result<String, Memory>
        ensures text { IfOk result (λ text. string_bytes text ≡ record_text_of version self) }
        ensures back { IfOk result (λ text. record_in_of version (string_bytes text) ≡ Ok self) }
    {
        let Record { row, attempt } = self;
        write_record(alloc, version, &row, attempt)
    }

    /// The record that a text names, as [`Record::to_text`] writes it. The text may have any spacing, and members in
    /// any order; of a member that stands twice the last counts. What [`Record::to_text`] gave is refused for want of
    /// memory alone. All of this is this project's choice.
    ///
    /// # Errors
    ///
    /// The first of these that fits. [`TextFault::NotJson`] where the text has no reading as JSON,
    /// [`TextFault::NotAnObject`] where the value isn't an object, [`TextFault::BadVersion`] where `version` isn't 1
    /// written as an integer, [`TextFault::BadOuter`] where the members aren't exactly `attempt`, `out`, `plan`,
    /// `service`, `state` and `version`, [`TextFault::BadMember`] where one of them isn't as [`Record::to_text`] has
    /// it, [`TextFault::Impossible`] where `wanted` stands without its Provision or with another number than 1,
    /// another request is out than the one that is due, or one is out with the number 0. [`TextFault::Memory`] in
    /// place of any other where an allocation failed.
    pub fn from_text(alloc: Global, text: &str) -> Result<Record, TextFault>
        ensures ok { IfOk result (λ r. record_in text.now ≡ Ok r) }
        ensures err { IfErr result (λ fault.
            (fault ≡ TextFault.Memory) ⊎ (record_in text.now ≡ Err fault)) }
        ensures back { (written : Recorded) → record_in text.now ≡ Ok written
            → IfOk result (λ r. r ≡ written) }
        ensures back_err { (written : Recorded) → record_in text.now ≡ Ok written
            → IfErr result (λ fault. fault ≡ TextFault.Memory) }
    {
        Record::from_text_with_version(alloc, VERSION, text)
    }

    /// The record that a text names, as [`Record::to_text_with_version`] writes it with this number: as
    /// [`Record::from_text`], with this number in place of 1 (this project's choice).
    ///
    /// # Errors
    ///
    /// As at [`Record::from_text`]; [`TextFault::BadVersion`] if `version` isn't this number, written as an integer.
    pub fn from_text_with_version(
        alloc: Global,
        version: u64,
        text: &str,
    ) -> Result<Record, TextFault>
        ensures ok { IfOk result (λ r. record_in_of version text.now ≡ Ok r) }
        ensures err { IfErr result (λ fault.
            (fault ≡ TextFault.Memory) ⊎ (record_in_of version text.now ≡ Err fault)) }
        ensures back { (written : Recorded) → record_in_of version text.now ≡ Ok written
            → IfOk result (λ r. r ≡ written) }
        ensures back_err { (written : Recorded) → record_in_of version text.now ≡ Ok written
            → IfErr result (λ fault. fault ≡ TextFault.Memory) }
    {
        let (row, attempt) = read_record(alloc, version, text)?;
        Ok(Record { row, attempt })
    }
}

//! What a platform records of the updates of one instance.
ghost use Rattle.std.specs.Prelude.{◌≡◌, ◌≢◌, ◌+◌, ◌↔◌, true, false, Option, Some, None, Ok, Err};
ghost use Rattle.std.specs.Prelude.{IfOk, IsOk, IsSome, IsTrue};
ghost use Rattle.osb_instance.specs.Recorded.{is_ready_in};
ghost use Rattle.osb_update.specs.Recorded as spec;
ghost use Rattle.osb_update.specs.Recorded.{can_be, is_asked, is_fetched, is_polling, may_fetch, may_send};

use crate::{
    Aim, Settings, StopRefused, UpdateKind, UpdateRefused, UpdateRequest, UpdateSent, UpdateState,
};
use osb_instance::{NotOut, Record, SendRefused};
use osb_message::{Answer, Body, ErrorCode, LastState};

/// What a platform records of the updates of one instance (this project's choice).
///
/// Keep it in a column of the instance's row that is null until the first Update is sent. It counts as long as the
/// instance is recorded `ready`: once the instance is to be removed, nothing of it is sent any more. Remove an instance
/// only while no request of an update is out.
#[derive(Clone, Copy, Debug, PartialEq, Eq, Hash)]
pub struct UpdateRecord {
    /// The settings that the instance had when the record was last settled.
    pub settings: Settings,
    /// The number of the latest Update, or 0.
    pub number: u64,
    /// The attempt of the latest request, or 0.
    pub attempt: u64,
    /// How far the latest update has come.
    pub state: UpdateState,
    /// The request that is out, or none.
    pub out: Option<UpdateKind>,
}

// The aim of an Update to these settings.
fn aimed(state: &UpdateState, to: &Settings) -> Aim
    ensures aim { result ≡ spec.aimed state.now to.now }
{
    match state {
        UpdateState::Settled => Aim {
            to: *to,
            mixed: false,
        },
        UpdateState::Updating(aim) | UpdateState::Polling(aim) | UpdateState::Unsure(aim) => Aim {
            to: *to,
            mixed: aim.mixed || !aim.to.is_same(to),
        },
    }
}

// Whether a status from 400 to 499 is one that gateways, proxies and servers answer of themselves.
fn may_be_a_gateways(status: u16) -> bool
    ensures gateways { result ≡ spec.may_be_a_gateways status }
{
    matches!(
        status,
        401 | 403 | 404 | 405 | 407 | 408 | 412 | 413 | 414 | 415 | 429 | 431
    )
}

// Whether the broker has surely rejected the Update.
fn says_rejected(answer: &Answer) -> bool
    ensures rejected { result ≡ spec.says_rejected answer.now }
{
    answer.status >= 400
        && answer.status <= 499
        && answer.body != Body::Malformed
        && !may_be_a_gateways(answer.status)
}

// What is recorded once the broker has rejected the Update.
fn after_rejection(settings: &Settings, aim: &Aim) -> (Settings, UpdateState)
    ensures after { result ≡ spec.after_rejection settings.now aim.now }
{
    if aim.mixed {
        (*settings, UpdateState::Unsure(*aim))
    } else {
        (*settings, UpdateState::Settled)
    }
}

// What is recorded after the answer to an Update.
fn after_update(settings: &Settings, aim: &Aim, answer: &Answer) -> (Settings, UpdateState)
    ensures after { result ≡ spec.after_update settings.now aim.now answer.now }
{
    match (answer.status, answer.body) {
        (200, Body::Empty) => (aim.to, UpdateState::Settled),
        (202, Body::Empty) => (*settings, UpdateState::Polling(*aim)),
        (422, Body::Error(ErrorCode::ConcurrencyError)) => (*settings, UpdateState::Updating(*aim)),
        _ if says_rejected(answer) => after_rejection(settings, aim),
        _ => (*settings, UpdateState::Updating(*aim)),
    }
}

// What is recorded after the answer to a Poll.
fn after_poll(settings: &Settings, aim: &Aim, answer: &Answer) -> (Settings, UpdateState)
    ensures after { result ≡ spec.after_poll settings.now aim.now answer.now }
{
    match (answer.status, answer.body) {
        (200, Body::State(LastState::Succeeded)) => (aim.to, UpdateState::Settled),
        (200, Body::State(LastState::Failed)) => (*settings, UpdateState::Unsure(*aim)),
        _ => (*settings, UpdateState::Polling(*aim)),
    }
}

impl UpdateRecord {
    /// The record of an instance of which no Update was sent, with the settings of its Provision. It takes no memory.
    pub fn new(settings: Settings) -> UpdateRecord
        ensures settled { result ≡ record { settings = settings; number = 0; attempt = 0; state = UpdateState.Settled; out = None } }
        ensures possible { can_be result ≡ true }
    {
        UpdateRecord {
            settings,
            number: 0,
            attempt: 0,
            state: UpdateState::Settled,
            out: None,
        }
    }

    /// Whether such a record can come about: an Update is out only in `updating`, a Poll only in `polling`, a Fetch only in
    /// `updating` or `unsure`, and what is out has an attempt of at least 1. Ask this of what comes from a database. Each
    /// call keeps it so. It takes no memory.
    pub fn can_be(&self) -> bool
        ensures can { result ≡ can_be self.now }
    {
        match (&self.state, self.out) {
            (_, None) => true,
            (UpdateState::Updating(_), Some(UpdateKind::Update))
            | (UpdateState::Polling(_), Some(UpdateKind::Poll))
            | (UpdateState::Updating(_) | UpdateState::Unsure(_), Some(UpdateKind::Fetch)) => {
                self.attempt >= 1
            }
            (_, Some(_)) => false,
        }
    }

    /// Sends an Update to these settings, the first or another one: the record in which it is out, under the next attempt,
    /// which is its number. `instance` is the record of the instance, read and locked in the transaction that writes this
    /// one. From `settled` and `unsure` it is the choice of settings; from `updating` it takes the place of the Update
    /// before. It takes no memory.
    ///
    /// The Update names what [`Settings::change_to`] has: each part that differs from the recorded settings, and all if an
    /// Update to other settings may have been done. Write the record to the database before the request is sent (section
    /// Updating a Service Instance; the rest is this project's choice).
    ///
    /// # Errors
    ///
    /// In this order, with the record as before: [`UpdateRefused::Busy`] if a request is out, [`UpdateRefused::NotReady`]
    /// if the instance isn't recorded `ready`, [`UpdateRefused::NotNow`] in `polling`, [`UpdateRefused::AttemptsUsedUp`] if
    /// the latest attempt is 2^64 - 1.
    pub fn update(
        &self,
        instance: Record,
        to: &Settings,
    ) -> Result<(UpdateRecord, UpdateSent), UpdateRefused>
        ensures ok { IsOk result ↔ ((self.now.out ≡ None) × (is_ready_in instance.row.state ≡ true)
            × (is_polling self.now.state ≡ false) × (self.now.attempt ≢ u64.MAX)) }
        ensures updated { IfOk result (λ after. after ≡ spec.updated self.now to.now) }
        ensures busy { (result ≡ Err UpdateRefused.Busy) ↔ IsSome self.now.out }
        ensures not_ready { (result ≡ Err UpdateRefused.NotReady)
            ↔ ((self.now.out ≡ None) × (is_ready_in instance.row.state ≡ false)) }
        ensures not_now { (result ≡ Err UpdateRefused.NotNow) ↔ ((self.now.out ≡ None)
            × (is_ready_in instance.row.state ≡ true) × (is_polling self.now.state ≡ true)) }
        ensures possible { IfOk result (λ after. can_be after.0 ≡ true) }
    {
        if self.out.is_some() {
            return Err(UpdateRefused::Busy);
        }
        if !instance.is_ready() {
            return Err(UpdateRefused::NotReady);
        }
        if matches!(&self.state, UpdateState::Polling(_)) {
            return Err(UpdateRefused::NotNow);
        }
        if self.attempt == u64::MAX {
            return Err(UpdateRefused::AttemptsUsedUp);
        }
        Ok(self.updates(&aimed(&self.state, to), self.attempt + 1))
    }

    // The record with this Update out, whose number is its attempt, and the request.
    fn updates(&self, aim: &Aim, attempt: u64) -> (UpdateRecord, UpdateSent)
        ensures updates { result.0 ≡ spec.updates self.now aim.now attempt }
        ensures request { result.1 ≡ spec.update_of self.now.settings aim.now attempt }
    {
        let after = UpdateRecord {
            settings: self.settings,
            number: attempt,
            attempt,
            state: UpdateState::Updating(*aim),
            out: Some(UpdateKind::Update),
        };
        let request = UpdateRequest::Update(self.settings.change_to(&aim.to, aim.mixed));
        (after, UpdateSent { request, attempt })
    }

    // The record with this request out, and the request.
    fn sends(
        &self,
        kind: UpdateKind,
        request: UpdateRequest,
        attempt: u64,
    ) -> (UpdateRecord, UpdateSent)
        ensures sends { result.0 ≡ spec.sends self.now kind attempt }
        ensures request { result.1 ≡ record { request = request; attempt = attempt } }
    {
        let after = UpdateRecord {
            settings: self.settings,
            number: self.number,
            attempt,
            state: self.state,
            out: Some(kind),
        };
        (after, UpdateSent { request, attempt })
    }

    // The record with nothing out.
    fn rests(&self, settings: &Settings, state: &UpdateState) -> UpdateRecord
        ensures rests { result ≡ spec.rests self.now (settings.now, state.now) }
        ensures possible { can_be result ≡ true }
    {
        UpdateRecord {
            settings: *settings,
            number: self.number,
            attempt: self.attempt,
            state: *state,
            out: None,
        }
    }

    /// Sends the request that is due: in `updating` the Update again, under the next attempt, which is its number; in
    /// `polling` a Poll with the recorded plan (sections Updating a Service Instance and Polling Last Operation for Service
    /// Instances). Write the record to the database before the request is sent. It takes no memory.
    ///
    /// # Errors
    ///
    /// In this order, with the record as before: [`SendRefused::Busy`] if a request is out, [`SendRefused::NothingDue`] in
    /// `settled` and `unsure`, [`SendRefused::AttemptsUsedUp`] if the latest attempt is 2^64 - 1.
    pub fn send(&self) -> Result<(UpdateRecord, UpdateSent), SendRefused>
        ensures ok { IsOk result ↔ ((self.now.out ≡ None) × (may_send self.now.state ≡ true)
            × (self.now.attempt ≢ u64.MAX)) }
        ensures sent { IfOk result (λ after. Some after ≡ spec.sent self.now) }
        ensures busy { (result ≡ Err SendRefused.Busy) ↔ IsSome self.now.out }
        ensures nothing_due { (result ≡ Err SendRefused.NothingDue)
            ↔ ((self.now.out ≡ None) × (may_send self.now.state ≡ false)) }
        ensures possible { IfOk result (λ after. can_be after.0 ≡ true) }
    {
        if self.out.is_some() {
            return Err(SendRefused::Busy);
        }
        if matches!(&self.state, UpdateState::Settled | UpdateState::Unsure(_)) {
            return Err(SendRefused::NothingDue);
        }
        if self.attempt == u64::MAX {
            return Err(SendRefused::AttemptsUsedUp);
        }
        let attempt = self.attempt + 1;
        match &self.state {
            UpdateState::Updating(aim) => Ok(self.updates(aim, attempt)),
            UpdateState::Polling(_) => {
                let request = UpdateRequest::Poll(self.settings.plan);
                Ok(self.sends(UpdateKind::Poll, request, attempt))
            }
            UpdateState::Settled | UpdateState::Unsure(_) => Err(SendRefused::NothingDue),
        }
    }

    /// Takes the answer to the Update or the Poll that is out, by its attempt. Nothing is out then. After an Update, the
    /// first line that fits:
    ///
    /// 1. 200, well formed: `settled`, with the settings that it asked for.
    /// 2. 202, well formed: `polling`.
    /// 3. 422 `ConcurrencyError`: `updating`, so it is sent again.
    /// 4. Another status from 400 to 499 that is surely the broker's: `settled`, with the settings of before; `unsure` if an
    ///    Update to other settings may have been done. The body is an object, and the status is none that gateways, proxies
    ///    and servers answer of themselves (401, 403, 404, 405, 407, 408, 412 to 415, 429 and 431).
    /// 5. Any other: `updating`.
    ///
    /// After a Poll, 200 with `succeeded` leads to `settled` with these settings, 200 with `failed` to `unsure`, and any
    /// other answer, also a 410, to `polling`.
    ///
    /// Write the record to the database before it is shown to anyone (sections Updating a Service Instance, Polling Last
    /// Operation for Service Instances and Service Broker Errors; the states are this project's choice). It takes no
    /// memory.
    ///
    /// # Errors
    ///
    /// [`NotOut`] exactly if neither an Update nor a Poll is out, or one of another attempt. The record is as before.
    pub fn answer(&self, attempt: u64, answer: Answer) -> Result<UpdateRecord, NotOut>
        ensures out { IsOk result ↔ ((is_asked self.now.out ≡ true) × (attempt ≡ self.now.attempt)) }
        ensures answered { IfOk result (λ after. after ≡ spec.answered self.now answer) }
        ensures possible { IfOk result (λ after. can_be after ≡ true) }
    {
        let kind = match self.out {
            None | Some(UpdateKind::Fetch) => return Err(NotOut),
            Some(kind) => kind,
        };
        if attempt != self.attempt {
            return Err(NotOut);
        }
        let (settings, state) = match (&self.state, kind) {
            (UpdateState::Updating(aim), UpdateKind::Update) => {
                after_update(&self.settings, aim, &answer)
            }
            (UpdateState::Polling(aim), UpdateKind::Poll) => {
                after_poll(&self.settings, aim, &answer)
            }
            _ => (self.settings, self.state),
        };
        Ok(self.rests(&settings, &state))
    }

    /// Gives up the request that is out, by its attempt, whichever it is: nothing is out then, and the state stays. So is
    /// done with what was out when a platform crashed. It takes no memory.
    ///
    /// # Errors
    ///
    /// [`NotOut`] exactly if no request is out, or one of another attempt. The record is as before.
    pub fn timeout(&self, attempt: u64) -> Result<UpdateRecord, NotOut>
        ensures out { IsOk result ↔ (IsSome self.now.out × (attempt ≡ self.now.attempt)) }
        ensures rested { IfOk result (λ after. after ≡ spec.rested self.now) }
        ensures possible { IfOk result (λ after. can_be after ≡ true) }
    {
        if self.out.is_none() || attempt != self.attempt {
            return Err(NotOut);
        }
        Ok(self.rests(&self.settings, &self.state))
    }

    /// Stops the update: `updating` and `polling` become `unsure`. For somebody who doesn't want to wait any longer, and if
    /// the maximum polling duration has passed (section Polling Last Operation for Service Instances). It takes no memory.
    ///
    /// # Errors
    ///
    /// In this order, with the record as before: [`StopRefused::Busy`] if a request is out, [`StopRefused::NothingDue`] in
    /// `settled` and `unsure`.
    pub fn stop(&self) -> Result<UpdateRecord, StopRefused>
        ensures ok { IsOk result ↔ ((self.now.out ≡ None) × (may_send self.now.state ≡ true)) }
        ensures stopped { IfOk result (λ after. after ≡ spec.stopped self.now) }
        ensures busy { (result ≡ Err StopRefused.Busy) ↔ IsSome self.now.out }
        ensures possible { IfOk result (λ after. can_be after ≡ true) }
    {
        if self.out.is_some() {
            return Err(StopRefused::Busy);
        }
        match &self.state {
            UpdateState::Updating(aim) | UpdateState::Polling(aim) => {
                Ok(self.rests(&self.settings, &UpdateState::Unsure(*aim)))
            }
            UpdateState::Settled | UpdateState::Unsure(_) => Err(StopRefused::NothingDue),
        }
    }

    /// Sends a Fetch: it is out under the next attempt, and the number of the latest Update stays (section Fetching a
    /// Service Instance). Write the record to the database before the request is sent. It takes no memory.
    ///
    /// # Errors
    ///
    /// In this order, with the record as before: [`SendRefused::Busy`] if a request is out, [`SendRefused::NothingDue`] in
    /// `settled` and `polling`, [`SendRefused::AttemptsUsedUp`] if the latest attempt is 2^64 - 1.
    pub fn fetch(&self) -> Result<(UpdateRecord, UpdateSent), SendRefused>
        ensures ok { IsOk result ↔ ((self.now.out ≡ None) × (may_fetch self.now.state ≡ true)
            × (self.now.attempt ≢ u64.MAX)) }
        ensures sent { IfOk result (λ after. after ≡ spec.fetch_sent self.now) }
        ensures busy { (result ≡ Err SendRefused.Busy) ↔ IsSome self.now.out }
        ensures nothing_due { (result ≡ Err SendRefused.NothingDue)
            ↔ ((self.now.out ≡ None) × (may_fetch self.now.state ≡ false)) }
        ensures possible { IfOk result (λ after. can_be after.0 ≡ true) }
    {
        if self.out.is_some() {
            return Err(SendRefused::Busy);
        }
        if matches!(&self.state, UpdateState::Settled | UpdateState::Polling(_)) {
            return Err(SendRefused::NothingDue);
        }
        if self.attempt == u64::MAX {
            return Err(SendRefused::AttemptsUsedUp);
        }
        Ok(self.sends(UpdateKind::Fetch, UpdateRequest::Fetch, self.attempt + 1))
    }

    /// Takes the answer to the Fetch that is out, by its attempt. `reported` is what a 200 has: the settings and the number
    /// (`x-osb-update`); none for any other answer, and for a 200 without a number. If the number is that of the latest
    /// Update, the record is `settled` with the settings that were reported: the broker has judged that Update, so no
    /// earlier one can be done any more. Otherwise the record is as before, and nothing is out (section Fetching a Service
    /// Instance; the number is this project's choice). It takes no memory.
    ///
    /// # Errors
    ///
    /// [`NotOut`] exactly if no Fetch is out, or one of another attempt. The record is as before.
    pub fn fetched(
        &self,
        attempt: u64,
        reported: Option<(Settings, u64)>,
    ) -> Result<UpdateRecord, NotOut>
        ensures out { IsOk result ↔ ((is_fetched self.now.out ≡ true) × (attempt ≡ self.now.attempt)) }
        ensures found { IfOk result (λ after. after ≡ spec.found self.now reported) }
        ensures possible { IfOk result (λ after. can_be after ≡ true) }
    {
        if !matches!(self.out, Some(UpdateKind::Fetch)) || attempt != self.attempt {
            return Err(NotOut);
        }
        match &reported {
            Some((settings, number)) if *number == self.number => {
                Ok(self.rests(settings, &UpdateState::Settled))
            }
            _ => Ok(self.rests(&self.settings, &self.state)),
        }
    }
}

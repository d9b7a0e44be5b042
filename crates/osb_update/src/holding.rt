//! What a broker holds of the updates of one instance.
ghost use Rattle.std.specs.Prelude.{◌≡◌, ◌≤◌, ◌≢◌, ◌↔◌, true, false, None, Some, IsTrue, IsOk, IfOk, IsSome};
ghost use Rattle.osb_instance.specs.Begin.{begun_if, is_held, IsWork as IsWorkOfInstance};
ghost use Rattle.osb_instance.specs.Fits.{fits};
ghost use Rattle.osb_instance.specs.Held.{IsHeldSound};
ghost use Rattle.osb_update.specs.Begun as spec;
ghost use Rattle.osb_update.specs.Begun.{is_available, is_pending, is_running, is_under_way, IsRejected, IsWork};
ghost use Rattle.osb_update.specs.Ended.{before, done, done_status, ended, finished, refused_answer, worked};
ghost use Rattle.osb_update.specs.Reported.{fetched, polled};

use crate::answers::{busy, empty, error, last_operation};
use crate::{
    Allowed, Fetched, NothingPending, NothingUpdating, Settings, Update, UpdateBegun,
    UpdateOutcome, UpdatePhase,
};
use osb_instance::{Begun, Digest, Holding, HoldingPhase, Rejection};
use osb_message::{Answer, ErrorCode, LastState, Mode, Request, ServiceId};

/// What a broker holds of the updates of one instance: the settings, the greatest number of an Update that was judged, 0
/// for none, and how far the latest update has come (this project's choice; the standard leaves to the broker what it
/// keeps).
///
/// Keep it in a column of the instance's row that is null until the first Update is judged, and write it in the
/// transaction that has read the [`Holding`] of the instance. Any parts make a holding.
///
/// *Under way* means that work of an Update is pending or its operation runs. The instance is *available* if its row is
/// [`Ready`](HoldingPhase::Ready) and no work of it is pending.
#[derive(Clone, Copy, Debug, PartialEq, Eq, Hash)]
pub struct UpdateHolding {
    /// The settings: those of the Provision, or of the last update that has succeeded.
    pub settings: Settings,
    /// The greatest number of an Update that was judged, or 0.
    pub number: u64,
    /// How far the latest update has come.
    pub phase: UpdatePhase,
}

// The answer to a request of an instance that isn't available, or has another service.
fn unavailable(instance: Holding, service: ServiceId) -> Option<Answer>
    ensures answer { result ≡ spec.unavailable instance service }
    ensures available { (result ≡ None) → is_available instance ≡ true }
{
    match (instance.row(), instance.work()) {
        (None, None) => Some(error(404, ErrorCode::Other)),
        (Some(row), None) if row.phase == HoldingPhase::Ready => {
            if row.service == service {
                None
            } else {
                Some(error(400, ErrorCode::Other))
            }
        }
        _ => Some(busy()),
    }
}

// Whether the row is ready, and no work is pending.
fn is_available(instance: Holding) -> bool
    ensures available { result ≡ is_available instance }
{
    match (instance.row(), instance.work()) {
        (Some(row), None) => row.phase == HoldingPhase::Ready,
        _ => false,
    }
}

// The answer to an Update that comes while an operation to these settings runs.
fn updating(goal: &Settings, number: u64, to: &Settings) -> Answer
    ensures answer { result ≡ spec.updating goal.now number to.now }
{
    if number == 0 && goal.is_same(to) {
        empty(202)
    } else {
        busy()
    }
}

// What comes of an Update that the catalogue rejects, or that has to be asynchronous.
fn refusal(allowed: Allowed, accepts: bool) -> Option<UpdateBegun>
    ensures refusal { result ≡ spec.refusal allowed accepts }
{
    match allowed {
        Allowed::Rejected(rejection) => Some(UpdateBegun::Answered(error(
            rejection.status(),
            ErrorCode::Other,
        ))),
        Allowed::MaintenanceInfoConflict => Some(UpdateBegun::MaintenanceInfoConflict),
        Allowed::Mode(Mode::Async) if !accepts => Some(UpdateBegun::Answered(error(
            422,
            ErrorCode::AsyncRequired,
        ))),
        Allowed::Mode(_) => None,
    }
}

fn done_status(mode: Mode) -> u16
    ensures status { result ≡ done_status mode }
{
    match mode {
        Mode::Sync => 200,
        Mode::Async => 202,
    }
}

fn refused_answer(rejection: Rejection, failed: bool) -> Answer
    ensures answer { result ≡ refused_answer rejection failed }
{
    if failed {
        error(500, ErrorCode::Other)
    } else {
        error(rejection.status(), ErrorCode::Other)
    }
}

impl UpdateHolding {
    /// The holding of an instance of which no Update was judged, with the settings of its Provision. It takes no memory.
    pub fn new(settings: Settings) -> UpdateHolding
        ensures settled { result ≡ record { settings = settings; number = 0; phase = UpdatePhase.Settled } }
    {
        UpdateHolding {
            settings,
            number: 0,
            phase: UpdatePhase::Settled,
        }
    }

    /// Whether the work of an Update is pending, or its operation runs. No deletion of the instance begins then
    /// ([`UpdateHolding::begin_instance`]). It takes no memory.
    pub fn is_under_way(&self) -> bool
        ensures under_way { result ≡ is_under_way self.now.phase }
    {
        match &self.phase {
            UpdatePhase::Settled | UpdatePhase::Failed => false,
            UpdatePhase::Pending(_) | UpdatePhase::Updating(_) | UpdatePhase::Mending(_) => true,
        }
    }

    // With the number of an Update that was judged.
    fn numbered(&self, number: u64) -> UpdateHolding
        ensures numbered { result ≡ spec.numbered self.now number }
    {
        let number = if number == 0 { self.number } else { number };
        UpdateHolding {
            settings: self.settings,
            number,
            phase: self.phase,
        }
    }

    // In another phase.
    fn in_phase(&self, phase: UpdatePhase) -> UpdateHolding
        ensures phase { result ≡ spec.in_phase self.now phase }
    {
        UpdateHolding {
            settings: self.settings,
            number: self.number,
            phase,
        }
    }

    /// An Update comes. `instance` is the holding of the instance, read and locked in the transaction that writes this
    /// one. `allowed` is what the catalogue has for the settings that are asked for: those of the holding with what the
    /// Update names ([`Settings::with`]). The first line that fits:
    ///
    /// 1. The instance has neither a row nor pending work: 404, and nothing changes.
    /// 2. The instance isn't available: 422 `ConcurrencyError`, and nothing changes.
    /// 3. The row has another service: 400, and nothing changes.
    /// 4. The Update has a number that is lower than the one that is kept: 409, and nothing changes.
    /// 5. It has the number that is kept, whose work is pending: 422 `ConcurrencyError`, and nothing changes.
    /// 6. It has the number that is kept, and the operation that runs is to the settings that are asked for: 202, and
    ///    nothing changes.
    /// 7. It has the number that is kept, and the resource has the settings that are asked for: 200, and nothing changes.
    /// 8. It has the number that is kept: 500, and nothing changes.
    /// 9. It has no number, and the operation that runs is to the settings that are asked for: 202, and nothing changes.
    /// 10. An update is under way: 422 `ConcurrencyError`, and nothing changes.
    /// 11. The resource has the settings that are asked for: 200, and the number is kept.
    /// 12. `allowed` is [`Allowed::Rejected`] with 400, since the plan that is asked for isn't on sale: 400, and the number
    ///     is kept.
    /// 13. `allowed` is [`Allowed::Rejected`] with 422, since the plan that the instance has can't be changed: 422, and the
    ///     number is kept.
    /// 14. `allowed` is [`Allowed::MaintenanceInfoConflict`]: 422 `MaintenanceInfoConflict`, and the number is kept.
    /// 15. The update is asynchronous, and the Update doesn't accept that: 422 `AsyncRequired`, and the number is kept.
    /// 16. If the latest update has failed, lines 12 to 15 are answered with 500 instead, since a rejection says that the
    ///     resource has the settings of before. The number is kept.
    /// 17. The work is due and pending, and the number is kept.
    ///
    /// If the holding changed, write it to the database before the work begins or the answer is sent. The statuses are the
    /// standard's (sections Updating a Service Instance, Maintenance Info Object and Service Broker Errors); numbers, lines
    /// 2, 5 to 10 and 16, and that work is pending are this project's choice. It takes no memory.
    pub fn begin(
        &self,
        instance: Holding,
        allowed: Allowed,
        update: &Update,
    ) -> (UpdateHolding, UpdateBegun)
        ensures begun { result ≡ spec.begun instance allowed self.now update.now }
        ensures settings { result.0.settings ≡ self.now.settings }
        ensures newer { update.now.number ≢ 0 → update.now.number ≤ self.now.number
            → result.0 ≡ self.now }
        ensures rejected { IsRejected result.1 → result.0.phase ≡ self.now.phase }
        ensures works { IsWork result.1
            → (is_available instance ≡ true) × (is_under_way self.now.phase ≡ false) }
    {
        if let Some(answer) = unavailable(instance, update.service) {
            return (*self, UpdateBegun::Answered(answer));
        }
        let number = update.number;
        if number != 0 && number < self.number {
            return (*self, UpdateBegun::Answered(error(409, ErrorCode::Other)));
        }
        let to = self.settings.with(&update.change);
        if number != 0 && number == self.number {
            return (*self, UpdateBegun::Answered(self.again(&to)));
        }
        self.fresh(allowed, update, &to)
    }

    // The answer to the Update that was judged last.
    fn again(&self, to: &Settings) -> Answer
        ensures answer { result ≡ spec.again self.now to.now }
    {
        match &self.phase {
            UpdatePhase::Settled if self.settings.is_same(to) => empty(200),
            UpdatePhase::Updating(goal) if goal.is_same(to) => empty(202),
            UpdatePhase::Settled | UpdatePhase::Failed | UpdatePhase::Updating(_) => error(
                500,
                ErrorCode::Other,
            ),
            UpdatePhase::Pending(_) | UpdatePhase::Mending(_) => busy(),
        }
    }

    // An Update that is newer than what was judged, or has no number.
    fn fresh(
        &self,
        allowed: Allowed,
        update: &Update,
        to: &Settings,
    ) -> (UpdateHolding, UpdateBegun)
        ensures fresh { result ≡ spec.fresh allowed self.now update.now to.now }
        ensures settings { result.0.settings ≡ self.now.settings }
        ensures rejected { IsRejected result.1 → result.0.phase ≡ self.now.phase }
        ensures works { IsWork result.1 → is_under_way self.now.phase ≡ false }
    {
        match &self.phase {
            UpdatePhase::Settled => self.fresh_settled(allowed, update, to),
            UpdatePhase::Failed => self.fresh_failed(allowed, update, to),
            UpdatePhase::Updating(goal) => (
                *self,
                UpdateBegun::Answered(updating(goal, update.number, to)),
            ),
            UpdatePhase::Pending(_) | UpdatePhase::Mending(_) => {
                (*self, UpdateBegun::Answered(busy()))
            }
        }
    }

    // The same, if the resource has the settings of the holding.
    fn fresh_settled(
        &self,
        allowed: Allowed,
        update: &Update,
        to: &Settings,
    ) -> (UpdateHolding, UpdateBegun)
        ensures fresh { result ≡ spec.fresh_settled allowed self.now update.now to.now }
        ensures settings { result.0.settings ≡ self.now.settings }
        ensures rejected { IsRejected result.1 → result.0.phase ≡ self.now.phase }
    {
        let judged = self.numbered(update.number);
        if self.settings.is_same(to) {
            return (judged, UpdateBegun::Answered(empty(200)));
        }
        if let Some(begun) = refusal(allowed, update.accepts_incomplete) {
            return (judged, begun);
        }
        judged.works(UpdatePhase::Pending(*to), allowed, to)
    }

    // The same, if the latest update has failed.
    fn fresh_failed(
        &self,
        allowed: Allowed,
        update: &Update,
        to: &Settings,
    ) -> (UpdateHolding, UpdateBegun)
        ensures fresh { result ≡ spec.fresh_failed allowed self.now update.now to.now }
        ensures settings { result.0.settings ≡ self.now.settings }
        ensures rejected { IsRejected result.1 → ⊥ }
    {
        let judged = self.numbered(update.number);
        if refusal(allowed, update.accepts_incomplete).is_some() {
            return (judged, UpdateBegun::Answered(error(500, ErrorCode::Other)));
        }
        judged.works(UpdatePhase::Mending(*to), allowed, to)
    }

    // The work to these settings is pending.
    fn works(
        &self,
        phase: UpdatePhase,
        allowed: Allowed,
        to: &Settings,
    ) -> (UpdateHolding, UpdateBegun)
        ensures works { result ≡ spec.works self.now phase allowed to.now }
        ensures settings { result.0.settings ≡ self.now.settings }
        ensures accepted { IsRejected result.1 → ⊥ }
    {
        match allowed {
            Allowed::Mode(mode) => (self.in_phase(phase), UpdateBegun::Work(mode, *to)),
            Allowed::Rejected(_) | Allowed::MaintenanceInfoConflict => {
                (*self, UpdateBegun::Answered(error(500, ErrorCode::Other)))
            }
        }
    }

    /// The pending work has ended with this outcome: what is held then, and the answer to its Update. `mode` is that of
    /// [`UpdateBegun::Work`].
    ///
    /// - `Done`: the holding is settled with the settings of the work, and the answer is 200; or, if the mode is
    ///   asynchronous, the operation to them runs, and the answer is 202.
    /// - `After`: the same, and the answer is 500.
    /// - `Before`: the holding is as before the work, and the answer is 500.
    /// - `Refused`: the holding is as before the work, and the answer is 400 or 422; 500 if the update before had failed.
    /// - `Failed`: the holding is failed, and the answer is 500.
    ///
    /// The number stays. Write the holding to the database before the answer is sent (section Updating a Service Instance
    /// has the statuses; the rest is this project's choice). It takes no memory.
    ///
    /// # Errors
    ///
    /// [`NothingPending`] exactly if no work is pending. The holding is as before.
    pub fn end(
        &self,
        mode: Mode,
        outcome: UpdateOutcome,
    ) -> Result<(UpdateHolding, Answer), NothingPending>
        ensures ok { IsOk result ↔ IsTrue (is_pending self.now.phase) }
        ensures worked { IfOk result (λ after. Some after ≡ worked mode self.now outcome) }
        ensures number { IfOk result (λ after. after.0.number ≡ self.now.number) }
    {
        match &self.phase {
            UpdatePhase::Pending(to) => Ok(self.ended(mode, outcome, to, false)),
            UpdatePhase::Mending(to) => Ok(self.ended(mode, outcome, to, true)),
            UpdatePhase::Settled | UpdatePhase::Updating(_) | UpdatePhase::Failed => Err(
                NothingPending,
            ),
        }
    }

    // The work to these settings has ended, over a row that had failed or was settled.
    fn ended(
        &self,
        mode: Mode,
        outcome: UpdateOutcome,
        to: &Settings,
        failed: bool,
    ) -> (UpdateHolding, Answer)
        ensures ended { result ≡ ended mode self.now outcome to.now failed }
        ensures number { result.0.number ≡ self.now.number }
    {
        match outcome {
            UpdateOutcome::Done => (self.done(mode, to), empty(done_status(mode))),
            UpdateOutcome::After => (self.done(mode, to), error(500, ErrorCode::Other)),
            UpdateOutcome::Before => (self.before(failed), error(500, ErrorCode::Other)),
            UpdateOutcome::Refused(rejection) => (
                self.before(failed),
                refused_answer(rejection, failed),
            ),
            UpdateOutcome::Failed => (
                self.in_phase(UpdatePhase::Failed),
                error(500, ErrorCode::Other),
            ),
        }
    }

    // What is held once the work to these settings is done, or started.
    fn done(&self, mode: Mode, to: &Settings) -> UpdateHolding
        ensures done { result ≡ done mode self.now to.now }
        ensures number { result.number ≡ self.now.number }
    {
        match mode {
            Mode::Sync => UpdateHolding {
                settings: *to,
                number: self.number,
                phase: UpdatePhase::Settled,
            },
            Mode::Async => self.in_phase(UpdatePhase::Updating(*to)),
        }
    }

    // What is held if the work has changed nothing.
    fn before(&self, failed: bool) -> UpdateHolding
        ensures before { result ≡ before self.now failed }
        ensures number { result.number ≡ self.now.number }
    {
        if failed {
            self.in_phase(UpdatePhase::Failed)
        } else {
            self.in_phase(UpdatePhase::Settled)
        }
    }

    /// The operation that runs has succeeded (`ok`) or failed. If it has succeeded, the holding is settled with its
    /// settings, and else it is failed. The number stays. Write the holding to the database before a Poll is answered by
    /// it (this project's choice). It takes no memory.
    ///
    /// # Errors
    ///
    /// [`NothingUpdating`] exactly if no operation of an Update runs. The holding is as before.
    pub fn finish(&self, ok: bool) -> Result<UpdateHolding, NothingUpdating>
        ensures running { IsOk result ↔ IsTrue (is_running self.now.phase) }
        ensures finished { IfOk result (λ after. Some after ≡ finished self.now ok) }
        ensures number { IfOk result (λ after. after.number ≡ self.now.number) }
    {
        match &self.phase {
            UpdatePhase::Updating(to) if ok => Ok(self.done(Mode::Sync, to)),
            UpdatePhase::Updating(_) => Ok(self.in_phase(UpdatePhase::Failed)),
            UpdatePhase::Settled
            | UpdatePhase::Pending(_)
            | UpdatePhase::Failed
            | UpdatePhase::Mending(_) => Err(NothingUpdating),
        }
    }

    /// The answer to a Poll of an instance that is available (section Polling Last Operation for Service Instances): 200,
    /// in progress while an update is under way, succeeded if the holding is settled, failed if the latest update has
    /// failed. None if the instance isn't available: [`Holding::begin`] answers then. It takes no memory.
    pub fn poll(&self, instance: Holding) -> Option<Answer>
        ensures polled { result ≡ polled instance self.now.phase }
        ensures available { IsSome result ↔ (is_available instance ≡ true) }
    {
        if !is_available(instance) {
            return None;
        }
        let state = match &self.phase {
            UpdatePhase::Settled => LastState::Succeeded,
            UpdatePhase::Failed => LastState::Failed,
            UpdatePhase::Pending(_) | UpdatePhase::Updating(_) | UpdatePhase::Mending(_) => {
                LastState::InProgress
            }
        };
        Some(last_operation(state))
    }

    /// What comes of a Fetch of the instance that its service and plan allow (section Fetching a Service Instance): the
    /// settings and the number that is kept, if the instance is available and the holding is settled; 422
    /// `ConcurrencyError` if the instance is available and the holding isn't settled; else 404. Nothing changes. It takes
    /// no memory.
    pub fn fetch(&self, instance: Holding) -> Fetched
        ensures fetched { result ≡ fetched instance self.now }
    {
        if !is_available(instance) {
            return Fetched::Answered(error(404, ErrorCode::Other));
        }
        match &self.phase {
            UpdatePhase::Settled => Fetched::Found(self.settings, self.number),
            _ => Fetched::Answered(busy()),
        }
    }

    /// A request of the instance itself comes, as at [`Holding::begin`]. `any_held` is whether the broker holds a binding
    /// of the instance, as at [`Holding::begin_if`]. If it does, or while an update is under way, nothing begins: a
    /// Deprovision whose work would be due is answered with 422 `ConcurrencyError`, and nothing changes (this project's
    /// choice). `instance` is read and locked in the transaction that writes it. It takes no memory.
    pub fn begin_instance(
        &self,
        instance: Holding,
        mode: Option<Mode>,
        first_poll: bool,
        request: &Request,
        attributes: Digest,
        any_held: bool,
    ) -> (Holding, Begun)
        ensures begun { result ≡ begun_if (spec.may_begin any_held self.now.phase) mode first_poll
            instance request.now attributes }
        ensures nothing_begins { is_under_way self.now.phase ≡ true → IsWorkOfInstance result.1 → ⊥ }
        ensures unheld { is_under_way self.now.phase ≡ true → is_held instance ≡ false
            → is_held result.0 ≡ false }
        ensures fits { fits mode instance ≡ true → fits mode result.0 ≡ true }
        ensures sound { IsHeldSound result.0 }
    {
        let may_begin = !any_held && !self.is_under_way();
        instance.begin_if(mode, first_poll, request, attributes, may_begin)
    }
}

//! What the updates of an instance are made of: one method for each event, by the calls of `osb_update`.
ghost use Rattle.std.specs.Prelude.{◌≡◌, ◌≢◌, ◌&&◌, not, false, true, Option, Some, None, is_some, slice_get};
ghost use Rattle.std.specs.Prelude.{IfOk, IsOk, OnOk, OnErr};
ghost use Rattle.osb_network.specs.Steps.{step_of};
ghost use Rattle.osb_network.specs.declared.step.Step.{Step};
ghost use Rattle.osb_update.specs.Begun.{busy};
ghost use Rattle.osb_update.specs.Ended.{ended};
ghost use Rattle.osb_update.specs.Recorded as platform;
ghost use Rattle.osb_update.specs.Reported.{fetched, polled};
ghost use Rattle.osb_update.specs.declared.phase.UpdateBegun.{UpdateBegun};
ghost use Rattle.osb_update.specs.declared.settings.Settings.{Settings};
ghost use Rattle.osb_update_sides.specs.declared.asked.Asked.{Asked};
ghost use Rattle.osb_update_sides.specs.Cell.{no_updates};
ghost use Rattle.osb_update_sides.specs.Steps as spec;
ghost use Rattle.osb_update_sides.specs.declared.event.UpdatesEvent.{UpdatesEvent};

use crate::asked::asked_by;
use crate::truth::{is_at, is_settled, is_true_end, may_be_anothers};
use crate::{Asked, Life, Said, UpdateAsked, UpdateGiven, UpdatesEvent};
use osb_instance::Holding;
use osb_message::{Answer, Body, ErrorCode, Memory, Mode, PlanId, ServiceId};
use osb_network::Step;
use osb_update::{
    Allowed, Change, Fetched, Settings, Update, UpdateBegun, UpdateHolding, UpdateKind,
    UpdateOutcome, UpdatePhase, UpdateRecord,
};
use std::alloc::Global;
use std::marker::Model;

// All that there is of the updates of one instance.
#[derive(Drop)]
pub(crate) struct Parts {
    pub(crate) service: ServiceId,
    pub(crate) life: Life,
    pub(crate) recorded: UpdateRecord,
    pub(crate) held: UpdateHolding,
    pub(crate) worker: Option<u64>,
    pub(crate) settings: Option<Settings>,
    pub(crate) sent: Vec<UpdateAsked>,
    pub(crate) given: Vec<UpdateGiven>,
}

impl Model for Parts {
    ghost use Rattle.osb_update_sides.specs.Cell.{UpdatesCell};

    ghost Value = { UpdatesCell };

    ghost view = { λ p. record {
      service = p.service;
      life = p.life;
      recorded = p.recorded;
      held = p.held;
      worker = p.worker;
      settings = p.settings;
      sent = p.sent.items;
      given = p.given.items;
    } };
}

fn conflict() -> Answer
    ensures answer { result ≡ spec.conflict }
{
    Answer {
        status: 422,
        body: Body::Error(ErrorCode::Other),
    }
}

fn busy() -> Answer
    ensures answer { result ≡ busy }
{
    Answer {
        status: 422,
        body: Body::Error(ErrorCode::ConcurrencyError),
    }
}

// What a Fetch is answered with.
fn said_by(fetched: &Fetched) -> Said
    ensures said { result ≡ spec.said_by fetched.now }
{
    match fetched {
        Fetched::Found(settings, number) => Said::Found(*settings, *number),
        Fetched::Answered(answer) => Said::Answer(*answer),
    }
}

impl Parts {
    pub(crate) fn new(alloc: Global, service: ServiceId, settings: &Settings) -> Self
        ensures empty { result ≡ no_updates service settings.now }
    {
        Parts {
            service,
            life: Life {
                recorded: None,
                holding: Holding::NONE,
            },
            recorded: UpdateRecord::new(*settings),
            held: UpdateHolding::new(*settings),
            worker: None,
            settings: None,
            sent: Vec::new(alloc),
            given: Vec::new(alloc),
        }
    }

    // ---- the platform

    // A request more.
    fn sends(&mut self, after: &UpdateRecord, asked: UpdateAsked) -> Result<(), Memory>
        ensures cell { OnOk result (self.new ≡ spec.with_asked self.old after.now asked) }
        ensures err { OnErr result (self.new ≡ self.old) }
    {
        // The proof of the push needs these types in the function itself: without them the prover doesn't find them.
        let _plan: Option<PlanId> = None;
        let _names: Option<Change> = None;
        let _asked: Option<Asked> = None;
        let Ok(()) = self.sent.push(asked) else {
            return Err(Memory);
        };
        self.recorded = *after;
        Ok(())
    }

    fn update(&mut self, to: &Settings) -> Result<Step, Memory>
        ensures cell { OnOk result (self.new ≡ spec.updates_step self.old (UpdatesEvent.Update to.now)) }
        ensures step { IfOk result (λ s. s ≡ step_of (spec.updates_applies self.old (UpdatesEvent.Update to.now))) }
        ensures err { OnErr result (self.new ≡ self.old) }
        ensures no_memory { spec.takes_memory self.old (UpdatesEvent.Update to.now) ≡ false → IsOk result }
    {
        let Some(instance) = self.life.recorded else {
            return Ok(Step::Skipped);
        };
        let Ok((after, sent)) = self.recorded.update(instance, to) else {
            return Ok(Step::Skipped);
        };
        self.sends(&after, asked_by(&sent))?;
        Ok(Step::Applied)
    }

    fn send(&mut self) -> Result<Step, Memory>
        ensures cell { OnOk result (self.new ≡ spec.updates_step self.old UpdatesEvent.Send) }
        ensures step { IfOk result (λ s. s ≡ step_of (spec.updates_applies self.old UpdatesEvent.Send)) }
        ensures err { OnErr result (self.new ≡ self.old) }
        ensures no_memory { spec.takes_memory self.old UpdatesEvent.Send ≡ false → IsOk result }
    {
        if !self.life.is_ready() {
            return Ok(Step::Skipped);
        }
        let Ok((after, sent)) = self.recorded.send() else {
            return Ok(Step::Skipped);
        };
        self.sends(&after, asked_by(&sent))?;
        Ok(Step::Applied)
    }

    fn fetch(&mut self) -> Result<Step, Memory>
        ensures cell { OnOk result (self.new ≡ spec.updates_step self.old UpdatesEvent.Fetch) }
        ensures step { IfOk result (λ s. s ≡ step_of (spec.updates_applies self.old UpdatesEvent.Fetch)) }
        ensures err { OnErr result (self.new ≡ self.old) }
        ensures no_memory { spec.takes_memory self.old UpdatesEvent.Fetch ≡ false → IsOk result }
    {
        if !self.life.is_ready() {
            return Ok(Step::Skipped);
        }
        let Ok((after, sent)) = self.recorded.fetch() else {
            return Ok(Step::Skipped);
        };
        self.sends(&after, asked_by(&sent))?;
        Ok(Step::Applied)
    }

    fn stop(&mut self) -> Step
        ensures cell { self.new ≡ spec.updates_step self.old UpdatesEvent.Stop }
        ensures step { result ≡ step_of (spec.updates_applies self.old UpdatesEvent.Stop) }
    {
        let Ok(after) = self.recorded.stop() else {
            return Step::Skipped;
        };
        self.recorded = after;
        Step::Applied
    }

    fn timeout(&mut self) -> Step
        ensures cell { self.new ≡ spec.updates_step self.old UpdatesEvent.Timeout }
        ensures step { result ≡ step_of (spec.updates_applies self.old UpdatesEvent.Timeout) }
    {
        let Ok(after) = self.recorded.timeout(self.recorded.attempt) else {
            return Step::Skipped;
        };
        self.recorded = after;
        Step::Applied
    }

    // What is recorded after an answer to the request that is out.
    fn said_to(&self, kind: UpdateKind, said: &Said) -> UpdateRecord
        requires out { self.now.recorded.out ≡ Some kind }
        ensures after { result ≡ spec.said_to (Some kind) self.now.recorded said.now }
    {
        let attempt = self.recorded.attempt;
        let after = match (kind, said) {
            (UpdateKind::Fetch, Said::Found(settings, number)) => {
                self.recorded.fetched(attempt, Some((*settings, *number)))
            }
            (UpdateKind::Fetch, Said::Answer(_)) => self.recorded.fetched(attempt, None),
            (_, Said::Answer(answer)) => self.recorded.answer(attempt, *answer),
            (_, Said::Found(_, _)) => self.recorded.timeout(attempt),
        };
        let Ok(after) = after else { unreachable!() };
        after
    }

    fn take(&mut self, at: usize) -> Step
        ensures cell { self.new ≡ spec.take self.old (slice_get self.old.given at) }
        ensures step { result ≡ step_of (spec.may_take self.old (slice_get self.old.given at)) }
    {
        let Some(given) = self.given.get(at).copied() else {
            return Step::Skipped;
        };
        let Some(kind) = self.recorded.out else {
            return Step::Skipped;
        };
        if given.attempt != self.recorded.attempt {
            return Step::Skipped;
        }
        self.recorded = self.said_to(kind, &given.said);
        Step::Applied
    }

    fn take_anothers(&mut self, answer: Answer) -> Step
        ensures cell { self.new ≡ spec.take_anothers self.old answer }
        ensures step { result ≡ step_of (spec.may_take_anothers self.old answer) }
    {
        let Some(kind) = self.recorded.out else {
            return Step::Skipped;
        };
        if !may_be_anothers(&answer) {
            return Step::Skipped;
        }
        self.recorded = self.said_to(kind, &Said::Answer(answer));
        Step::Applied
    }

    // ---- requests that arrive

    // An answer more.
    fn give(&mut self, attempt: u64, said: &Said) -> Result<(), Memory>
        ensures cell { OnOk result (self.new ≡ spec.with_given self.old attempt said.now) }
        ensures err { OnErr result (self.new ≡ self.old) }
    {
        let given = UpdateGiven {
            attempt,
            said: *said,
        };
        let Ok(()) = self.given.push(given) else {
            return Err(Memory);
        };
        Ok(())
    }

    // The broker holds this, and answers.
    fn holds(&mut self, attempt: u64, held: &UpdateHolding, answer: Answer) -> Result<(), Memory>
        ensures cell { OnOk result (self.new
            ≡ spec.update_begun self.old attempt held.now (UpdateBegun.Answered answer)) }
        ensures err { OnErr result (self.new ≡ self.old) }
    {
        self.give(attempt, &Said::Answer(answer))?;
        self.held = *held;
        Ok(())
    }

    fn update_begun(
        &mut self,
        attempt: u64,
        held: &UpdateHolding,
        begun: &UpdateBegun,
    ) -> Result<(), Memory>
        ensures cell { OnOk result (self.new ≡ spec.update_begun self.old attempt held.now begun.now) }
        ensures err { OnErr result (self.new ≡ self.old) }
    {
        match begun {
            UpdateBegun::Answered(answer) => self.holds(attempt, held, *answer),
            UpdateBegun::MaintenanceInfoConflict => self.holds(attempt, held, conflict()),
            UpdateBegun::Work(_, _) => {
                self.held = *held;
                self.worker = Some(attempt);
                Ok(())
            }
        }
    }

    fn arrive_update(
        &mut self,
        names: &Change,
        attempt: u64,
        allowed: Allowed,
        accepts: bool,
    ) -> Result<(), Memory>
        ensures cell { OnOk result (self.new
            ≡ spec.arrive_as (Asked.Update names.now) self.old attempt allowed accepts) }
        ensures err { OnErr result (self.new ≡ self.old) }
    {
        let update = Update {
            service: self.service,
            change: *names,
            number: attempt,
            accepts_incomplete: accepts,
        };
        let (held, begun) = self.held.begin(self.life.holding, allowed, &update);
        self.update_begun(attempt, &held, &begun)
    }

    fn arrive_poll(&mut self, attempt: u64) -> Result<Step, Memory>
        ensures cell { OnOk result (self.new
            ≡ spec.poll_answered self.old attempt (polled self.old.life.holding self.old.held.phase)) }
        ensures step { IfOk result (λ s. s ≡ step_of (is_some (polled self.old.life.holding self.old.held.phase))) }
        ensures err { OnErr result (self.new ≡ self.old) }
    {
        let Some(answer) = self.held.poll(self.life.holding) else {
            return Ok(Step::Skipped);
        };
        self.give(attempt, &Said::Answer(answer))?;
        Ok(Step::Applied)
    }

    fn arrive_fetch(&mut self, attempt: u64) -> Result<(), Memory>
        ensures cell { OnOk result (self.new
            ≡ spec.with_given self.old attempt (spec.said_by (fetched self.old.life.holding self.old.held))) }
        ensures err { OnErr result (self.new ≡ self.old) }
    {
        let fetched = self.held.fetch(self.life.holding);
        self.give(attempt, &said_by(&fetched))
    }

    fn arrive_as(
        &mut self,
        sent: &UpdateAsked,
        allowed: Allowed,
        accepts: bool,
    ) -> Result<Step, Memory>
        ensures cell { OnOk result (self.new
            ≡ spec.arrive_as sent.now.asked self.old sent.now.attempt allowed accepts) }
        ensures step { IfOk result (λ s. s ≡ step_of (spec.arrive_applies sent.now.asked self.old)) }
        ensures err { OnErr result (self.new ≡ self.old) }
    {
        match &sent.asked {
            Asked::Update(names) => {
                self.arrive_update(names, sent.attempt, allowed, accepts)?;
                Ok(Step::Applied)
            }
            Asked::Poll => self.arrive_poll(sent.attempt),
            Asked::Fetch => {
                self.arrive_fetch(sent.attempt)?;
                Ok(Step::Applied)
            }
        }
    }

    fn arrive(&mut self, at: usize, allowed: Allowed, accepts: bool) -> Result<Step, Memory>
        ensures cell { OnOk result (self.new ≡ spec.arrive self.old (slice_get self.old.sent at) allowed accepts) }
        ensures step { IfOk result (λ s. s ≡ step_of (spec.may_arrive self.old (slice_get self.old.sent at))) }
        ensures err { OnErr result (self.new ≡ self.old) }
        ensures no_memory { is_some (slice_get self.old.sent at) ≡ false → IsOk result }
    {
        let Some(sent) = self.sent.get(at).copied() else {
            return Ok(Step::Skipped);
        };
        self.arrive_as(&sent, allowed, accepts)
    }

    fn put_off(&mut self, at: usize) -> Result<Step, Memory>
        ensures cell { OnOk result (self.new ≡ spec.put_off self.old (slice_get self.old.sent at)) }
        ensures step { IfOk result (λ s. s ≡ step_of (is_some (slice_get self.old.sent at))) }
        ensures err { OnErr result (self.new ≡ self.old) }
        ensures no_memory { is_some (slice_get self.old.sent at) ≡ false → IsOk result }
    {
        let Some(sent) = self.sent.get(at).copied() else {
            return Ok(Step::Skipped);
        };
        self.give(sent.attempt, &Said::Answer(busy()))?;
        Ok(Step::Applied)
    }

    // ---- work and operations

    // Whether the pending work to these settings may end so, over an update that has failed or not.
    fn may_end(&self, mode: Mode, outcome: UpdateOutcome, to: &Settings, failed: bool) -> bool
        ensures may { result ≡ spec.may_end self.now mode outcome to.now failed }
    {
        let done = is_at(&self.settings, to);
        let unchanged = failed || is_at(&self.settings, &self.held.settings);
        is_true_end(mode, outcome, done, unchanged)
    }

    // The pending work has ended.
    fn end_answered(&mut self, held: &UpdateHolding, answer: Answer) -> Result<(), Memory>
        ensures cell { OnOk result (self.new ≡ spec.end_answered self.old held.now answer self.old.worker) }
        ensures err { OnErr result (self.new ≡ self.old) }
        ensures no_memory { is_some self.old.worker ≡ false → IsOk result }
    {
        match self.worker {
            None => {
                self.held = *held;
                Ok(())
            }
            Some(attempt) => {
                self.give(attempt, &Said::Answer(answer))?;
                self.held = *held;
                self.worker = None;
                Ok(())
            }
        }
    }

    // The pending work to these settings ends.
    fn end_to(
        &mut self,
        mode: Mode,
        outcome: UpdateOutcome,
        to: &Settings,
        failed: bool,
        after: &(UpdateHolding, Answer),
    ) -> Result<Step, Memory>
        requires after { after.now ≡ ended mode self.old.held outcome to.now failed }
        ensures cell { OnOk result (self.new ≡ spec.end_to self.old mode outcome to.now failed) }
        ensures step { IfOk result (λ s. s ≡ step_of (spec.may_end self.old mode outcome to.now failed)) }
        ensures err { OnErr result (self.new ≡ self.old) }
        ensures no_memory { (spec.may_end self.old mode outcome to.now failed && is_some self.old.worker) ≡ false
            → IsOk result }
    {
        if !self.may_end(mode, outcome, to, failed) {
            return Ok(Step::Skipped);
        }
        self.end_answered(&after.0, after.1)?;
        Ok(Step::Applied)
    }

    fn end(&mut self, mode: Mode, outcome: UpdateOutcome) -> Result<Step, Memory>
        ensures cell { OnOk result (self.new ≡ spec.end_by self.old.held.phase self.old mode outcome) }
        ensures step { IfOk result (λ s. s ≡ step_of (spec.may_end_by self.old.held.phase self.old mode outcome)) }
        ensures err { OnErr result (self.new ≡ self.old) }
        ensures no_memory { spec.takes_memory self.old (UpdatesEvent.End mode outcome) ≡ false → IsOk result }
    {
        let Ok(after) = self.held.end(mode, outcome) else {
            return Ok(Step::Skipped);
        };
        let phase = self.held.phase;
        match &phase {
            UpdatePhase::Pending(to) => self.end_to(mode, outcome, to, false, &after),
            UpdatePhase::Mending(to) => self.end_to(mode, outcome, to, true, &after),
            UpdatePhase::Settled | UpdatePhase::Updating(_) | UpdatePhase::Failed => {
                Ok(Step::Skipped)
            }
        }
    }

    // Whether the operation that runs may end so.
    fn may_finish(&self, ok: bool) -> bool
        ensures may { result ≡ spec.may_finish self.now.held.phase self.now ok }
    {
        match &self.held.phase {
            UpdatePhase::Updating(to) => !ok || is_at(&self.settings, to),
            UpdatePhase::Settled
            | UpdatePhase::Pending(_)
            | UpdatePhase::Failed
            | UpdatePhase::Mending(_) => false,
        }
    }

    fn finish(&mut self, ok: bool) -> Step
        ensures cell { self.new ≡ spec.finish_by self.old.held.phase self.old ok }
        ensures step { result ≡ step_of (spec.may_finish self.old.held.phase self.old ok) }
    {
        if !self.may_finish(ok) {
            return Step::Skipped;
        }
        let Ok(held) = self.held.finish(ok) else {
            unreachable!()
        };
        self.held = held;
        Step::Applied
    }

    fn work(&mut self, settings: &Option<Settings>) -> Step
        ensures cell { self.new ≡ spec.work self.old settings.now }
        ensures step { result ≡ step_of (spec.updates_applies self.old (UpdatesEvent.Work settings.now)) }
    {
        if !self.held.is_under_way() {
            return Step::Skipped;
        }
        self.settings = *settings;
        Step::Applied
    }

    fn crash(&mut self)
        ensures cell { self.new ≡ spec.crash self.old }
    {
        self.worker = None;
    }

    // ---- the instance itself

    fn settings_left(&self, settings: &Option<Settings>) -> Option<Settings>
        ensures left { result ≡ spec.settings_left self.now settings.now }
    {
        if self.life.is_available() {
            self.settings
        } else {
            *settings
        }
    }

    // Whether the instance may go on so.
    fn may_live(&self, life: &Life, left: &Option<Settings>) -> bool
        ensures may { (settings : Option Settings) → left.now ≡ spec.settings_left self.now settings
            → result ≡ spec.may_live self.now life.now settings }
    {
        let under_way = self.held.is_under_way();
        life.is_of(self.service)
            && self.life.goes_on(life)
            && (!(self.life.is_kept() && self.recorded.out.is_some()) || life.is_kept())
            && (!under_way || life.is_available())
            && (!(life.is_available() && is_settled(&self.held.phase))
                || is_at(left, &self.held.settings))
    }

    fn live(&mut self, life: &Life, settings: &Option<Settings>) -> Step
        ensures cell { self.new ≡ spec.live self.old life.now settings.now }
        ensures step { result ≡ step_of (spec.may_live self.old life.now settings.now) }
    {
        let left = self.settings_left(settings);
        if !self.may_live(life, &left) {
            return Step::Skipped;
        }
        self.life = *life;
        self.settings = left;
        Step::Applied
    }

    // ---- any event

    pub(crate) fn step(&mut self, event: &UpdatesEvent) -> Result<Step, Memory>
        ensures cell { OnOk result (self.new ≡ spec.updates_step self.old event.now) }
        ensures step { IfOk result (λ s. s ≡ step_of (spec.updates_applies self.old event.now)) }
        ensures err { OnErr result (self.new ≡ self.old) }
        ensures no_memory { spec.takes_memory self.old event.now ≡ false → IsOk result }
    {
        match event {
            UpdatesEvent::Update { to } => self.update(to),
            UpdatesEvent::Send => self.send(),
            UpdatesEvent::Fetch => self.fetch(),
            UpdatesEvent::Stop => Ok(self.stop()),
            UpdatesEvent::Timeout => Ok(self.timeout()),
            UpdatesEvent::Take { at } => Ok(self.take(*at)),
            UpdatesEvent::TakeAnothers { answer } => Ok(self.take_anothers(*answer)),
            UpdatesEvent::Arrive {
                at,
                allowed,
                accepts,
            } => self.arrive(*at, *allowed, *accepts),
            UpdatesEvent::PutOff { at } => self.put_off(*at),
            UpdatesEvent::End { mode, outcome } => self.end(*mode, *outcome),
            UpdatesEvent::Finish { ok } => Ok(self.finish(*ok)),
            UpdatesEvent::Work { settings } => Ok(self.work(settings)),
            UpdatesEvent::Crash => {
                self.crash();
                Ok(Step::Applied)
            }
            UpdatesEvent::Live { life, settings } => Ok(self.live(life, settings)),
        }
    }
}

//! What an instance with its updates is made of: one method for each event, by the calls of `osb_instance` and `osb_update`.
ghost use Rattle.std.specs.Prelude.{◌≡◌, false, Some};
ghost use Rattle.osb_message.specs.declared.messages.ErrorCode.TheVariants.{Other};
ghost use Rattle.osb_broker.specs.Answers.{error, mode_of};
ghost use Rattle.osb_network.specs.AnyPlatform.{any_step, any_takes_memory, may_become};
ghost use Rattle.osb_network.specs.Steps.{step_of};
ghost use Rattle.osb_network.specs.declared.any_platform.BrokerEvent.{BrokerEvent};
ghost use Rattle.osb_network.specs.declared.step.Step.{Step};
ghost use Rattle.osb_update.specs.Begun.{is_available};
ghost use Rattle.osb_update.specs.Ended.{ended};
ghost use Rattle.osb_update_network.specs.AnyPlatform as spec;
ghost use Rattle.osb_update_network.specs.declared.event.UpdateEvent.{UpdateEvent};

use crate::truth::{is_at, is_failed, is_true_end, is_unchanged};
use crate::{Reported, UpdateEvent};
use osb_instance::{Digest, Holding, HoldingPhase, WorkOutcome, busy};
use osb_message::{Answer, Body, ErrorCode, Kind, Mode, Request};
use osb_network::{AnyPlatform, BrokerEvent, Resource, Step};
use osb_update::{
    Allowed, Settings, Update, UpdateBegun, UpdateHolding, UpdateOutcome, UpdatePhase,
};
use std::alloc::Global;
use std::marker::Model;

// The instance, what the broker holds of its updates, the settings of the resource and those that it had as the work of the
// latest Update began, and what was reported.
#[derive(Drop)]
pub(crate) struct Parts {
    pub(crate) instance: AnyPlatform,
    pub(crate) change: UpdateHolding,
    pub(crate) settings: Option<Settings>,
    pub(crate) before: Option<Settings>,
    pub(crate) reported: Reported,
}

impl Model for Parts {
    ghost use Rattle.osb_update_network.specs.AnyPlatform.{UpdatedCell, updated_code};

    ghost Value = { UpdatedCell };

    ghost coded = { updated_code };

    ghost view = { λ p. record {
      instance = p.instance;
      change = p.change;
      settings = p.settings;
      before = p.before;
      reported = p.reported;
    } };
}

// How the plan of a request works, and whether the broker has the rule of the first Poll.
#[derive(Clone, Copy, Debug, PartialEq, Eq)]
pub(crate) struct Terms {
    pub(crate) mode: Option<Mode>,
    pub(crate) first_poll: bool,
}

// The settings that a Provision asks for.
fn asked_by(request: &Request, parameters: Digest, version: Digest) -> Settings
    ensures asked { result ≡ spec.asked_by request.now parameters version }
{
    Settings {
        plan: request.plan,
        parameters,
        version,
    }
}

// Lets an event of the instance happen that takes no memory.
fn happen(instance: &mut AnyPlatform, alloc: Global, event: BrokerEvent)
    requires no_memory { any_takes_memory event ≡ false }
    ensures instance { instance.new ≡ any_step instance.old event }
{
    let Ok(_) = instance.step(alloc, event) else {
        unreachable!()
    };
}

// Whether the instance is available: its row is ready, and no work of it is pending.
fn is_available(instance: Holding) -> bool
    ensures available { result ≡ is_available instance }
{
    match (instance.row(), instance.work()) {
        (Some(row), None) => row.phase == HoldingPhase::Ready,
        _ => false,
    }
}

// An answer with an error.
fn error(status: u16) -> Answer
    ensures answer { result ≡ error status Other }
{
    Answer {
        status,
        body: Body::Error(ErrorCode::Other),
    }
}

// The answer to a Provision of the settings that the row has.
fn provision_by(phase: &UpdatePhase) -> Option<Answer>
    ensures answer { result ≡ spec.provision_by phase.now }
{
    match phase {
        UpdatePhase::Settled => None,
        UpdatePhase::Failed => Some(error(500)),
        UpdatePhase::Pending(_) | UpdatePhase::Updating(_) | UpdatePhase::Mending(_) => {
            Some(busy(Kind::Provision))
        }
    }
}

impl Parts {
    // ---- requests of the instance itself

    fn provision_in_place(&self, instance: Holding, asked: &Settings) -> Option<Answer>
        ensures answer { result ≡ spec.provision_in_place instance.row self.now.change instance asked.now }
    {
        if instance.row().is_none() {
            return None;
        }
        if !self.change.settings.is_same(asked) {
            return Some(error(409));
        }
        if is_available(instance) {
            provision_by(&self.change.phase)
        } else {
            None
        }
    }

    fn poll_in_place(&self, instance: Holding) -> Option<Answer>
        ensures answer { result ≡ spec.poll_in_place self.now.change.phase instance }
    {
        match &self.change.phase {
            UpdatePhase::Settled => None,
            UpdatePhase::Failed
            | UpdatePhase::Pending(_)
            | UpdatePhase::Updating(_)
            | UpdatePhase::Mending(_) => self.change.poll(instance),
        }
    }

    // The answer in the place of the instance's table, if there is one.
    fn in_place(&self, kind: Kind, instance: Holding, asked: &Settings) -> Option<Answer>
        ensures answer { result ≡ spec.in_place kind self.now.change instance asked.now }
    {
        match kind {
            Kind::Provision => self.provision_in_place(instance, asked),
            Kind::Poll => self.poll_in_place(instance),
            Kind::Deprovision => None,
        }
    }

    // Rule d: what the request does to the instance.
    fn let_in(
        &self,
        mode: Option<Mode>,
        instance: Holding,
        request: &Request,
        attributes: Digest,
    ) -> BrokerEvent
        ensures event { result ≡ spec.let_in self.now.change.phase mode instance request.now attributes }
        ensures no_memory { any_takes_memory result ≡ false }
    {
        if self.change.is_under_way() && instance.begins(mode, request, attributes) {
            BrokerEvent::PutOff { kind: request.kind }
        } else {
            BrokerEvent::Arrive {
                request: *request,
                attributes,
            }
        }
    }

    fn put_off(&mut self, alloc: Global, kind: Kind)
        ensures cell { self.new ≡ spec.put_off self.old kind }
    {
        happen(&mut self.instance, alloc, BrokerEvent::PutOff { kind });
        self.reported = self.reported.heard(kind);
    }

    // A Provision that finds nothing brings its own settings.
    fn make_with(&mut self, kind: Kind, asked: &Settings)
        ensures cell { self.new ≡ spec.made_with (spec.is_new kind self.old.instance.held) self.old asked.now }
    {
        let is_provision = match kind {
            Kind::Provision => true,
            Kind::Poll | Kind::Deprovision => false,
        };
        if is_provision && !self.instance.holding().is_held() {
            self.change = UpdateHolding::new(*asked);
            self.reported = self.reported.made_anew();
        }
    }

    fn handle(
        &mut self,
        alloc: Global,
        terms: Terms,
        request: &Request,
        attributes: Digest,
        asked: &Settings,
    )
        requires first { terms.first_poll ≡ self.old.instance.first_poll }
        ensures cell { self.new ≡ spec.handled self.old terms.mode request.now attributes asked.now }
    {
        let holding = self.instance.holding();
        let (_, begun) = self.change.begin_instance(
            holding,
            terms.mode,
            terms.first_poll,
            request,
            attributes,
            false,
        );
        let leaving = self.instance.told().leaving;
        let event = self.let_in(terms.mode, holding, request, attributes);
        happen(&mut self.instance, alloc, event);
        self.reported = self
            .reported
            .heard(request.kind)
            .by_begun(begun, request.kind, leaving, asked);
    }

    fn arrive(
        &mut self,
        alloc: Global,
        terms: Terms,
        request: &Request,
        attributes: Digest,
        asked: &Settings,
    )
        requires mode { terms.mode ≡ mode_of self.old.instance.catalogue request.now }
        requires first { terms.first_poll ≡ self.old.instance.first_poll }
        ensures cell { self.new ≡ spec.arrive self.old request.now attributes asked.now }
    {
        let in_place = self.in_place(request.kind, self.instance.holding(), asked);
        if in_place.is_some() {
            self.put_off(alloc, request.kind);
            return;
        }
        self.make_with(request.kind, asked);
        self.handle(alloc, terms, request, attributes, asked);
    }

    // ---- the instance's own work and operations

    // Whether the work of a request of the kind may have left these settings.
    fn is_right(&self, available: bool, kind: Kind) -> bool
        ensures is { result ≡ spec.is_right available kind self.now }
    {
        if !available {
            return true;
        }
        match kind {
            Kind::Provision => is_at(&self.settings, &self.change.settings),
            Kind::Poll | Kind::Deprovision => is_unchanged(
                is_failed(&self.change.phase),
                &self.settings,
                &self.change.settings,
            ),
        }
    }

    // An event of the instance after which it is available or not, by the work of a request of the kind.
    fn go_on(&mut self, alloc: Global, available: bool, kind: Kind, event: BrokerEvent) -> Step
        requires no_memory { any_takes_memory event ≡ false }
        ensures cell { self.new ≡ spec.gone_on available kind self.old event }
        ensures step { result ≡ step_of (spec.may_go_on available kind self.old event) }
        ensures skipped { result ≡ Step.Skipped → self.new ≡ self.old }
    {
        if !self.is_right(available, kind) {
            return Step::Skipped;
        }
        let Ok(step) = self.instance.step(alloc, event) else {
            unreachable!()
        };
        step
    }

    fn end(&mut self, alloc: Global, mode: Option<Mode>, outcome: WorkOutcome) -> Step
        requires mode { mode ≡ spec.mode_of_work self.old.instance.catalogue self.old.instance.held.work }
        ensures cell { self.new ≡ spec.end_by self.old.instance.held.work self.old outcome }
        ensures step { result ≡ step_of (spec.may_end self.old.instance.held.work self.old outcome) }
    {
        let holding = self.instance.holding();
        let Some(request) = holding.work() else {
            return Step::Skipped;
        };
        let Ok((after, answer)) = holding.end(mode, outcome) else {
            return Step::Skipped;
        };
        self.end_with(alloc, after, answer, &request, outcome)
    }

    // The same, by what is held then, and the answer.
    #[tactic(auto, using(crate::proofs::Bodies::skipped, crate::proofs::Bodies::applied))]
    fn end_with(
        &mut self,
        alloc: Global,
        after: Holding,
        answer: Answer,
        request: &Request,
        outcome: WorkOutcome,
    ) -> Step
        ensures cell { self.new ≡ spec.end_with (after, answer) request.now self.old outcome }
        ensures step { result ≡ step_of (spec.may_go_on (is_available after) request.now.kind self.old
            (BrokerEvent.End outcome)) }
    {
        let leaving = self.instance.told().leaving;
        let event = BrokerEvent::End { outcome };
        match self.go_on(alloc, is_available(after), request.kind, event) {
            Step::Skipped => Step::Skipped,
            Step::Applied => {
                self.reported = self
                    .reported
                    .by_answer(request.kind, leaving, answer, &self.change.settings);
                Step::Applied
            }
        }
    }

    fn finish(&mut self, alloc: Global, ok: bool) -> Step
        ensures cell { self.new ≡ spec.updated_step self.old (UpdateEvent.Finish ok) }
        ensures step { result ≡ step_of (spec.updated_applies self.old (UpdateEvent.Finish ok)) }
    {
        let Ok(after) = self.instance.holding().finish(ok) else {
            return Step::Skipped;
        };
        let event = BrokerEvent::Finish { ok };
        self.go_on(alloc, is_available(after), Kind::Provision, event)
    }

    fn give_up_waiting(&mut self, alloc: Global) -> Step
        ensures cell { self.new ≡ spec.updated_step self.old UpdateEvent.GiveUpWaiting }
        ensures step { result ≡ step_of (spec.updated_applies self.old UpdateEvent.GiveUpWaiting) }
    {
        let Ok(step) = self.instance.step(alloc, BrokerEvent::GiveUpWaiting) else {
            unreachable!()
        };
        step
    }

    fn work(&mut self, alloc: Global, resource: Resource, settings: &Option<Settings>) -> Step
        ensures cell { self.new ≡ spec.updated_step self.old (UpdateEvent.Work resource settings.now) }
        ensures step { result ≡ step_of (may_become self.old.instance resource) }
    {
        let Ok(step) = self.instance.step(alloc, BrokerEvent::Work { resource }) else {
            unreachable!()
        };
        if step == Step::Applied {
            self.settings = *settings;
        }
        step
    }

    // ---- updates

    #[tactic(auto, using(crate::proofs::Bodies::comes))]
    fn update(&mut self, allowed: Allowed, update: &Update)
        ensures cell { self.new ≡ spec.update self.old allowed update.now }
    {
        let to = self.change.settings.with(&update.change);
        let (change, begun) = self.change.begin(self.instance.holding(), allowed, update);
        self.update_by(&change, &begun, &to);
    }

    // The same, by what comes of the Update.
    fn update_by(&mut self, change: &UpdateHolding, begun: &UpdateBegun, to: &Settings)
        ensures cell { self.new ≡ spec.update_by change.now begun.now self.old to.now }
    {
        self.before = self.begun_before(begun);
        self.reported = self.reported.by_update(begun, to);
        self.change = *change;
    }

    // The settings that the resource had as the work of the latest Update began.
    fn begun_before(&self, begun: &UpdateBegun) -> Option<Settings>
        ensures before { result ≡ spec.begun_before begun.now self.now }
    {
        match begun {
            UpdateBegun::Work(_, _) => self.settings,
            UpdateBegun::Answered(_) | UpdateBegun::MaintenanceInfoConflict => self.before,
        }
    }

    // Whether the pending work to these settings may end so, over an update that has failed or not.
    fn may_end_update(
        &self,
        failed: bool,
        to: &Settings,
        mode: Mode,
        outcome: UpdateOutcome,
    ) -> bool
        ensures may { result ≡ spec.may_end_update failed to.now mode outcome self.now }
    {
        let done = is_at(&self.settings, to);
        let unchanged = is_unchanged(failed, &self.settings, &self.change.settings);
        is_true_end(mode, outcome, done, unchanged)
    }

    // The settings of the pending work, and whether an update before it had failed.
    fn pending(&self) -> Option<(Settings, bool)>
        ensures pending { result ≡ spec.pending_to self.now.change.phase }
    {
        match &self.change.phase {
            UpdatePhase::Pending(to) => Some((*to, false)),
            UpdatePhase::Mending(to) => Some((*to, true)),
            UpdatePhase::Settled | UpdatePhase::Updating(_) | UpdatePhase::Failed => None,
        }
    }

    // What is held once the pending work to these settings has ended, and the answer.
    #[tactic(auto, using(crate::proofs::Bodies::pending_ends))]
    fn ended(
        &self,
        to: &Settings,
        failed: bool,
        mode: Mode,
        outcome: UpdateOutcome,
    ) -> (UpdateHolding, Answer)
        requires pending { Some (to.now, failed) ≡ spec.pending_to self.now.change.phase }
        ensures ended { result ≡ ended mode self.now.change outcome to.now failed }
    {
        let Ok(after) = self.change.end(mode, outcome) else {
            unreachable!()
        };
        after
    }

    fn update_end(&mut self, mode: Mode, outcome: UpdateOutcome) -> Step
        ensures cell { self.new ≡ spec.update_end_by (spec.pending_to self.old.change.phase) mode outcome self.old }
        ensures step { result ≡ step_of (spec.may_update_end (spec.pending_to self.old.change.phase) mode outcome self.old) }
    {
        let Some((to, failed)) = self.pending() else {
            return Step::Skipped;
        };
        if !self.may_end_update(failed, &to, mode, outcome) {
            return Step::Skipped;
        }
        let (change, answer) = self.ended(&to, failed, mode, outcome);
        self.reported = self.reported.by_end(answer, &to);
        self.change = change;
        Step::Applied
    }

    // Whether the operation that runs may end so.
    fn may_finish_update(&self, ok: bool) -> bool
        ensures may { result ≡ spec.may_finish_in self.now.change.phase ok self.now }
    {
        match &self.change.phase {
            UpdatePhase::Updating(to) => !ok || is_at(&self.settings, to),
            UpdatePhase::Settled
            | UpdatePhase::Pending(_)
            | UpdatePhase::Failed
            | UpdatePhase::Mending(_) => false,
        }
    }

    fn update_finish(&mut self, ok: bool) -> Step
        ensures cell { self.new ≡ spec.update_finish_by self.old.change.phase ok self.old }
        ensures step { result ≡ step_of (spec.may_finish_in self.old.change.phase ok self.old) }
    {
        if !self.may_finish_update(ok) {
            return Step::Skipped;
        }
        let Ok(change) = self.change.finish(ok) else {
            unreachable!()
        };
        self.change = change;
        Step::Applied
    }

    fn update_work(&mut self, settings: &Option<Settings>) -> Step
        ensures cell { self.new ≡ spec.updated_step self.old (UpdateEvent.UpdateWork settings.now) }
        ensures step { result ≡ step_of (spec.updated_applies self.old (UpdateEvent.UpdateWork settings.now)) }
    {
        if !self.change.is_under_way() {
            return Step::Skipped;
        }
        self.settings = *settings;
        Step::Applied
    }

    fn fetch(&mut self)
        ensures cell { self.new ≡ spec.updated_step self.old UpdateEvent.Fetch }
    {
        let fetched = self.change.fetch(self.instance.holding());
        self.reported = self.reported.by_fetch(&fetched);
    }

    // ---- any event

    // Does nothing: what is held is in the database.
    fn crash(&mut self) -> Step
        ensures cell { self.new ≡ spec.updated_step self.old UpdateEvent.Crash }
        ensures step { result ≡ Step.Applied }
    {
        let _ = &self.change;
        Step::Applied
    }

    pub(crate) fn step(&mut self, alloc: Global, terms: Terms, event: &UpdateEvent) -> Step
        requires mode { terms.mode ≡ spec.mode_for self.old event.now }
        requires first { terms.first_poll ≡ self.old.instance.first_poll }
        ensures cell { self.new ≡ spec.updated_step self.old event.now }
        ensures step { result ≡ step_of (spec.updated_applies self.old event.now) }
    {
        match event {
            UpdateEvent::Arrive {
                request,
                attributes,
                parameters,
                version,
            } => {
                let asked = asked_by(request, *parameters, *version);
                self.arrive(alloc, terms, request, *attributes, &asked);
                Step::Applied
            }
            UpdateEvent::PutOff { kind } => {
                self.put_off(alloc, *kind);
                Step::Applied
            }
            UpdateEvent::End { outcome } => self.end(alloc, terms.mode, *outcome),
            UpdateEvent::Finish { ok } => self.finish(alloc, *ok),
            UpdateEvent::GiveUpWaiting => self.give_up_waiting(alloc),
            UpdateEvent::Work { resource, settings } => self.work(alloc, *resource, settings),
            UpdateEvent::Crash => self.crash(),
            UpdateEvent::Update { allowed, update } => {
                self.update(*allowed, update);
                Step::Applied
            }
            UpdateEvent::UpdateEnd { mode, outcome } => self.update_end(*mode, *outcome),
            UpdateEvent::UpdateFinish { ok } => self.update_finish(*ok),
            UpdateEvent::UpdateWork { settings } => self.update_work(settings),
            UpdateEvent::Fetch => {
                self.fetch();
                Step::Applied
            }
        }
    }
}

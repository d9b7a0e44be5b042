//! What a broker alone is made of: one method for each event, by the calls of `osb_instance`.
ghost use Rattle.std.specs.Prelude.{◌≡◌, false, IfOk, IsOk, OnOk, OnErr};
ghost use Rattle.osb_network.specs.AnyPlatform as spec;
ghost use Rattle.osb_network.specs.Steps.{step_of};

use crate::parts::holding_read_back;
use crate::truth::{is_true_end, is_true_finish, is_under_way, table_row};
use crate::{BrokerEvent, Resource, Step, Told};
use osb_broker::{BrokerRow, Phase};
use osb_instance::{Begun, Digest, Holding, WorkOutcome, busy};
use osb_message::{Answer, Body, Catalogue, Kind, LastState, Memory, Mode, Request};
use std::alloc::Global;
use std::marker::Model;

// What the broker sells and holds, the resource, and what was reported.
#[derive(Drop)]
pub(crate) struct AnyParts {
    pub(crate) catalogue: Catalogue,
    pub(crate) first_poll: bool,
    pub(crate) holding: Holding,
    pub(crate) resource: Resource,
    pub(crate) told: Told,
}

impl Model for AnyParts {
    ghost use Rattle.osb_network.specs.AnyPlatform.{AnyCell, any_code};

    ghost Value = { AnyCell };

    ghost coded = { any_code };

    ghost view = { λ p. record {
      catalogue = p.catalogue;
      first_poll = p.first_poll;
      held = p.holding;
      resource = p.resource;
      told = p.told;
    } };
}

// A request arrives: what was reported ready counts until a Deprovision does.
fn heard(kind: Kind, told: Told) -> Told
    ensures told { result ≡ spec.heard kind told }
{
    match kind {
        Kind::Provision => told,
        Kind::Poll => Told {
            polled: true,
            ..told
        },
        Kind::Deprovision => Told {
            ready: false,
            ..told
        },
    }
}

fn is_succeeded(body: Body) -> bool
    ensures is { result ≡ spec.is_succeeded body }
{
    match body {
        Body::State(LastState::Succeeded) => true,
        _ => false,
    }
}

fn told_ready(told: Told) -> Told
    ensures told { result ≡ spec.told_ready told }
{
    Told {
        ready: true,
        ..told
    }
}

fn told_gone(told: Told) -> Told
    ensures told { result ≡ spec.told_gone told }
{
    Told {
        ready: false,
        gone: true,
        ..told
    }
}

// What the answer to a Poll reports.
fn believed_poll(answer: Answer, told: Told) -> Told
    ensures told { result ≡ spec.believed_poll told.leaving answer told }
{
    if told.leaving {
        if answer.status == 410 {
            told_gone(told)
        } else {
            told
        }
    } else if answer.status == 200 && is_succeeded(answer.body) {
        told_ready(told)
    } else {
        told
    }
}

// What an answer to a request of the kind reports.
fn believed(kind: Kind, answer: Answer, told: Told) -> Told
    ensures told { result ≡ spec.believed kind answer told }
{
    match kind {
        Kind::Provision => {
            if answer.status == 200 || answer.status == 201 {
                told_ready(told)
            } else {
                told
            }
        }
        Kind::Poll => believed_poll(answer, told),
        Kind::Deprovision => {
            if answer.status == 200 || answer.status == 410 {
                told_gone(told)
            } else if answer.status == 202 {
                Told {
                    leaving: true,
                    ..told
                }
            } else {
                told
            }
        }
    }
}

// What is reported at once.
fn reported(begun: Begun, kind: Kind, told: Told) -> Told
    ensures told { result ≡ spec.reported begun kind told }
{
    match begun {
        Begun::Answered(answer) => believed(kind, answer, told),
        Begun::Work(_) => told,
    }
}

fn is_ready_row(row: Option<BrokerRow>) -> bool
    ensures is { result ≡ spec.is_ready_row row }
{
    match row {
        None => false,
        Some(row) => matches!(row.phase, Phase::Ready),
    }
}

// Whether pending work of the kind that ended so may have left this resource.
fn is_sure_end(
    mode: Option<Mode>,
    row: Option<BrokerRow>,
    kind: Kind,
    outcome: WorkOutcome,
    resource: Resource,
) -> bool
    ensures is { result ≡ spec.is_sure_end mode row kind outcome resource }
{
    match (kind, outcome) {
        (Kind::Deprovision, WorkOutcome::Before) => {
            matches!(resource, Resource::Whole) || !is_ready_row(row)
        }
        _ => is_true_end(mode, kind, outcome, resource),
    }
}

// Whether what goes on creates the resource, and doesn't delete it.
fn creates(work: Option<Request>, row: Option<BrokerRow>) -> bool
    ensures is { result ≡ spec.creates_by work row }
{
    match (work, row) {
        (Some(request), _) => matches!(request.kind, Kind::Provision),
        (None, Some(row)) => matches!(row.phase, Phase::Making),
        (None, None) => false,
    }
}

// Whether a deletion may make this of the resource.
fn is_less(before: Resource, after: Resource) -> bool
    ensures is { result ≡ spec.is_less before after }
{
    match (before, after) {
        (_, Resource::Absent) => true,
        (Resource::Absent, _) => false,
        (_, Resource::Part) => true,
        (_, Resource::Whole) => false,
    }
}

impl AnyParts {
    pub(crate) fn new(catalogue: Catalogue, first_poll: bool) -> Self
        ensures empty { result ≡ spec.any_empty catalogue first_poll }
    {
        AnyParts {
            catalogue,
            first_poll,
            holding: Holding::NONE,
            resource: Resource::Absent,
            told: Told {
                ready: false,
                gone: false,
                leaving: false,
                polled: false,
            },
        }
    }

    fn arrive(&mut self, request: Request, attributes: Digest)
        ensures cell { self.new ≡ spec.any_arrive self.old request attributes }
    {
        let mode = self.catalogue.mode(request.service, request.plan);
        let (holding, begun) = self
            .holding
            .begin(mode, self.first_poll, &request, attributes);
        self.told = reported(begun, request.kind, heard(request.kind, self.told));
        self.holding = holding;
    }

    fn put_off(&mut self, kind: Kind)
        ensures cell { self.new ≡ spec.any_put_off self.old kind }
    {
        self.told = believed(kind, busy(kind), heard(kind, self.told));
    }

    fn end(&mut self, outcome: WorkOutcome) -> Step
        ensures cell { self.new ≡ spec.any_step self.old (BrokerEvent.End outcome) }
        ensures step { result ≡ step_of (spec.any_applies self.old (BrokerEvent.End outcome)) }
    {
        let Some(request) = self.holding.work() else {
            return Step::Skipped;
        };
        let mode = self.catalogue.mode(request.service, request.plan);
        let row = table_row(self.holding);
        if !is_sure_end(mode, row, request.kind, outcome, self.resource) {
            return Step::Skipped;
        }
        let Ok((holding, answer)) = self.holding.end(mode, outcome) else {
            unreachable!()
        };
        self.told = believed(request.kind, answer, self.told);
        self.holding = holding;
        Step::Applied
    }

    fn finish(&mut self, ok: bool) -> Step
        ensures cell { self.new ≡ spec.any_step self.old (BrokerEvent.Finish ok) }
        ensures step { result ≡ step_of (spec.any_applies self.old (BrokerEvent.Finish ok)) }
    {
        if !is_true_finish(table_row(self.holding), ok, self.resource) {
            return Step::Skipped;
        }
        let Ok(after) = self.holding.finish(ok) else {
            return Step::Skipped;
        };
        self.holding = after;
        Step::Applied
    }

    fn give_up_waiting(&mut self) -> Step
        ensures cell { self.new ≡ spec.any_step self.old BrokerEvent.GiveUpWaiting }
        ensures step { result ≡ step_of (spec.any_applies self.old BrokerEvent.GiveUpWaiting) }
    {
        let Ok(after) = self.holding.give_up_waiting() else {
            return Step::Skipped;
        };
        self.holding = after;
        Step::Applied
    }

    fn work(&mut self, resource: Resource) -> Step
        ensures cell { self.new ≡ spec.any_step self.old (BrokerEvent.Work resource) }
        ensures step { result ≡ step_of (spec.any_applies self.old (BrokerEvent.Work resource)) }
    {
        if !is_under_way(self.holding) {
            return Step::Skipped;
        }
        if !creates(self.holding.work(), table_row(self.holding))
            && !is_less(self.resource, resource)
        {
            return Step::Skipped;
        }
        self.resource = resource;
        Step::Applied
    }

    fn crash(&mut self, alloc: Global) -> Result<Step, Memory>
        ensures cell { self.new ≡ self.old }
        ensures step { IfOk result (λ s. s ≡ Step.Applied) }
    {
        let read = holding_read_back(alloc, self.holding)?;
        self.holding = read;
        Ok(Step::Applied)
    }

    pub(crate) fn step(&mut self, alloc: Global, event: BrokerEvent) -> Result<Step, Memory>
        ensures cell { OnOk result (self.new ≡ spec.any_step self.old event) }
        ensures step { IfOk result (λ s. s ≡ step_of (spec.any_applies self.old event)) }
        ensures err { OnErr result (self.new ≡ self.old) }
        ensures no_memory { spec.any_takes_memory event ≡ false → IsOk result }
    {
        match event {
            BrokerEvent::Arrive {
                request,
                attributes,
            } => {
                self.arrive(request, attributes);
                Ok(Step::Applied)
            }
            BrokerEvent::PutOff { kind } => {
                self.put_off(kind);
                Ok(Step::Applied)
            }
            BrokerEvent::End { outcome } => Ok(self.end(outcome)),
            BrokerEvent::Finish { ok } => Ok(self.finish(ok)),
            BrokerEvent::GiveUpWaiting => Ok(self.give_up_waiting()),
            BrokerEvent::Work { resource } => Ok(self.work(resource)),
            BrokerEvent::Crash => self.crash(alloc),
        }
    }
}

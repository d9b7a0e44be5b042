//! What a broker holds of one instance.
ghost use Rattle.std.specs.Prelude.{◌≡◌, ◌≢◌, ◌↔◌, ◌⊎◌, ◌&&◌, Option, Some, None, Ok, Err, true, false};
ghost use Rattle.std.specs.Prelude.{IsTrue, IsSome, IsOk, IfOk, IfErr, IfSome, IsSomeAnd, List, string_bytes};
ghost use Rattle.osb_instance.specs.Begin.{begins, begun, begun_by, begun_if, begun_waiting, busy, can_end, conflict};
ghost use Rattle.osb_instance.specs.Begin.{conflicts, finished_held, given_up, is_held_outcome, is_operating};
ghost use Rattle.osb_instance.specs.Begin.{is_held, is_provision, is_there, waits_for_poll, worked, worked_as};
ghost use Rattle.osb_instance.specs.Begin.{IsWork, IsAnsweredBy};
ghost use Rattle.osb_instance.specs.Due.{IsDue, work_due};
ghost use Rattle.osb_instance.specs.Fits.{fits};
ghost use Rattle.osb_instance.specs.Held.{Held, IsHeldSound};
ghost use Rattle.osb_instance.specs.HoldingText.{held_of, holding_text, holding_text_of, holding_in, holding_in_of};
ghost use Rattle.osb_instance.specs.HoldingText.{possible};
ghost use Rattle.osb_instance.specs.Rows.{held_of_parts, held_row};
ghost use Rattle.osb_message.specs.declared.catalogue.Mode.{Mode};
ghost use Rattle.osb_message.specs.declared.messages.Kind.TheVariants.{Provision, Deprovision};

use crate::holding_text::{Parts, VERSION, can_be, read_holding, read_holding_of, write_holding};
use crate::work::{
    busy, conflict, deleted, ends, failed_row, is_provision, kept_attributes, names_held, too_late,
    waits_for_poll, work_due,
};
use crate::{Begun, Digest, EndRefused, HoldingRow, NotWaiting, TextFault, Work, WorkOutcome};
use osb_broker::{BrokerRow, NothingRunning, Outcome, Phase, decide, finished};
use osb_message::{Answer, Body, ErrorCode, Kind, Memory, Mode, PlanId, Request, ServiceId};
use std::alloc::Global;
use std::marker::Model;

/// What a broker holds of one instance: its row, or none; the request whose work is pending, or none; the tombstone of
/// an instance that has ended; and the digest of the attributes of row and work (this project's choice; the standard
/// leaves to the broker what it keeps).
///
/// Beside a tombstone there is neither a row nor pending work. The pending request is one whose work the broker's
/// tables have: a Provision of an instance without a row, or a Deprovision of one that exists and that no operation
/// runs on, with its own service and plan. Beside a row in the phase `waiting` no work is pending. Without a row and
/// pending work there are no attributes.
///
/// A holding doesn't know how its plan works. The calls that need that take the mode of the request's plan, and none
/// if the plan isn't on sale. [`Holding::fits`] returns whether what was read fits the plan.
#[derive(Clone, Copy, Debug, PartialEq, Eq)]
pub struct Holding {
    row: Option<BrokerRow>,
    work: Option<Request>,
    tombstone: bool,
    // Whether the row waits for its first Poll. Its phase is `Making` then, and its operation hasn't begun.
    waiting: bool,
    attributes: Digest,
}

impl Model for Holding {
    ghost use Rattle.osb_instance.specs.Held.{Held, IsHeldSound};

    ghost Value = { Held };

    ghost view = { λ h. record { row = h.row; work = h.work; tombstone = h.tombstone; waiting = h.waiting; attributes = h.attributes } };

    ghost invariant = { λ h. IsHeldSound (record { row = h.row; work = h.work; tombstone = h.tombstone; waiting = h.waiting; attributes = h.attributes }) };

    ghost inverse = { λ h. record { row = h.row; work = h.work; tombstone = h.tombstone; waiting = h.waiting; attributes = h.attributes } };
}

impl Holding {
    /// Nothing: of an id that no request has come for.
    pub const NONE: Holding = Holding {
        row: None,
        work: None,
        tombstone: false,
        waiting: false,
        attributes: Digest::NONE,
    };

    // What is left of an instance that has ended.
    const ENDED: Holding = Holding {
        tombstone: true,
        ..Holding::NONE
    };

    /// The holding of these parts, as [`Holding::row`], [`Holding::work`], [`Holding::has_tombstone`] and
    /// [`Holding::attributes`] return them, if it can come about. For programs that keep the parts in columns of their
    /// own, or take them from another language. None exactly if a row or work stands beside a tombstone, work beside a
    /// row in `waiting`, attributes without row and work, or a request whose work no plan's table has (this project's
    /// choice). It takes no memory.
    #[tactic(auto, using(crate::proofs::HoldingBack::can_be_sound, crate::proofs::HoldingBack::sound_can_be))]
    pub fn from_parts(
        row: Option<HoldingRow>,
        work: Option<Request>,
        tombstone: bool,
        attributes: Digest,
    ) -> Option<Holding>
        ensures parts { result ≡ possible (held_of_parts row work tombstone attributes) }
        ensures sound { IsSome result ↔ IsHeldSound (held_of_parts row work tombstone attributes) }
    {
        let parts = Parts::of(row, work, tombstone, attributes);
        if !can_be(&parts) {
            return None;
        }
        Some(Holding::of(&parts))
    }

    /// The instance's row, or none. It takes no memory.
    pub fn row(self) -> Option<HoldingRow>
        ensures row { result ≡ held_row self.row self.waiting }
    {
        let Holding { row, waiting, .. } = self;
        match row {
            None => None,
            Some(row) => Some(HoldingRow::of(row, waiting)),
        }
    }

    /// The request whose work is pending, or none. A broker that needs more of a request than this to do its work again
    /// writes it beside the holding, in the same transaction. It takes no memory.
    pub fn work(self) -> Option<Request>
        ensures work { result ≡ self.work }
    {
        self.work
    }

    /// Whether the instance has ended: a Deprovision was answered with 410, a deletion has succeeded, or the backend
    /// refused the Provision. A tombstone never goes, and an instance that has one is never made again. So never delete
    /// a holding that has one from the database. It takes no memory.
    pub fn has_tombstone(self) -> bool
        ensures tombstone { result ≡ self.tombstone }
    {
        self.tombstone
    }

    /// The digest of the attributes of row and pending work, and [`Digest::NONE`] if there are neither. It takes no
    /// memory.
    pub fn attributes(self) -> Digest
        ensures attributes { result ≡ self.attributes }
    {
        self.attributes
    }

    // The holding of parts that can come about.
    fn of(parts: &Parts) -> Holding
        requires sound { IsHeldSound (held_of parts.now) }
        ensures parts { result ≡ held_of parts.now }
    {
        let Parts {
            row,
            work,
            tombstone,
            waiting,
            attributes,
        } = *parts;
        Holding {
            row,
            work,
            tombstone,
            waiting,
            attributes,
        }
    }

    /// Whether this can come about at a plan of the mode (none: not on sale). The plan is the row's, or the pending
    /// request's if there is no row. It has to be on sale, a row of a synchronous plan has to be `ready`, and the
    /// pending request has to be one whose work is due at it. Without a row and work, it is true for each mode.
    ///
    /// Ask this of what comes from a database. What fits goes on fitting, through requests of that plan, as the clauses
    /// `fits` of [`Holding::begin`], [`Holding::end`], [`Holding::finish`] and [`Holding::give_up_waiting`] say.
    /// Requests of another plan change nothing. It takes no memory.
    pub fn fits(self, mode: Option<Mode>) -> bool
        ensures fits { result ≡ fits mode self }
    {
        let Holding { row, work, .. } = self;
        let kept = &row;
        let row_fits = match (*kept, mode) {
            (None, _) | (Some(_), Some(Mode::Async)) => true,
            (Some(row), Some(Mode::Sync)) => row.phase == Phase::Ready,
            (Some(_), None) => false,
        };
        let work_fits = match work {
            None => true,
            Some(request) => work_due(mode, *kept, &request).is_some(),
        };
        row_fits && work_fits
    }

    /// Whether an operation runs on the instance: its row is in `making` or `deleting`. It takes no memory.
    pub fn is_operating(self) -> bool
        ensures operating { result ≡ is_operating self }
    {
        let Holding { row, waiting, .. } = self;
        match row {
            None => false,
            Some(row) => matches!(row.phase, Phase::Making | Phase::Deleting) && !waiting,
        }
    }

    /// Whether anything is held: there is a row, or work is pending. It takes no memory.
    pub fn is_held(self) -> bool
        ensures held { result ≡ is_held self }
    {
        self.row.is_some() || self.work.is_some()
    }

    /// Whether the resource exists, complete, and stays for now: the row is `ready`, with this service and plan, and no
    /// work is pending. It takes no memory.
    pub fn is_there(self, service: ServiceId, plan: PlanId) -> bool
        ensures there { result ≡ is_there self service plan }
    {
        match (self.row, self.work) {
            (Some(row), None) => {
                row.phase == Phase::Ready && row.service == service && row.plan == plan
            }
            _ => false,
        }
    }

    // Whether the request is a Provision of what is held, by service and plan, with other attributes.
    fn conflicts(self, request: &Request, attributes: Digest) -> bool
        ensures conflicts { result ≡ conflicts self request.now attributes }
    {
        is_provision(request.kind)
            && names_held(self.row, self.work, request)
            && !self.attributes.is_same(attributes)
    }

    /// A request comes. It is answered at once, or its work is due, which is pending then. The mode is that of the
    /// request's plan. `attributes` is the digest of what a Provision asks for; for other requests it doesn't count.
    /// The first line that fits:
    ///
    /// 1. The request is a Provision of the service and plan of the row, or of the pending work, with other attributes:
    ///    409, and nothing changes.
    /// 2. Work is pending. A Provision is answered with 503, a Deprovision with 422 `ConcurrencyError`, a Poll with
    ///    200, in progress, and nothing changes.
    /// 3. The instance has a tombstone, and the request is a Provision: 409, and nothing changes.
    /// 4. The row is in `waiting`. A Poll of its service and plan makes it `making`, so its operation begins: 200, in
    ///    progress. A Deprovision that would begin a deletion removes the row and leaves the tombstone: 200. Every other
    ///    request is answered by the broker's table, as of a row in `making` (a Deprovision: of one in `failed`), and
    ///    nothing changes.
    /// 5. The request is no Poll, and the broker's table has another answer or another row by the outcome of the work.
    ///    If it is the Provision of an asynchronous plan, and `first_poll` is true, the instance gets a row in
    ///    `waiting`, and the answer is 202. Else the work is due, and the request is pending.
    /// 6. The answer is that of the broker's table ([`Broker::handle`](osb_broker::Broker::handle)) with the outcome
    ///    `Done`. No row changes. A Deprovision that finds no row, which is answered with 410, leaves the tombstone.
    ///
    /// `first_poll` is the rule of the first Poll: an asynchronous plan's resource is created only once the platform
    /// has polled the instance, since a Poll shows that the platform has a record of it. A Poll that makes the row
    /// `making` is answered once that is written; from then on the operation runs, and [`Holding::finish`] ends it.
    ///
    /// If the holding changed, write it to the database before the work begins or the answer is sent. The statuses are
    /// the standard's (sections Provisioning, Polling Last Operation for Service Instances, Deprovisioning and Service
    /// Broker Errors); lines 2 to 5 and the tombstone are this project's choice. It takes no memory.
    #[tactic(auto, using(crate::proofs::Dues::due_is_work, crate::proofs::Dues::work_is_due, crate::proofs::Ends::gone_ends))]
    pub fn begin(
        self,
        mode: Option<Mode>,
        first_poll: bool,
        request: &Request,
        attributes: Digest,
    ) -> (Holding, Begun)
        ensures begun { result ≡ begun mode first_poll self request.now attributes }
        ensures due { IsWork result.1 ↔
            ((conflicts self request.now attributes ≡ false) × (self.work ≡ None)
            × ((self.tombstone && is_provision request.now.kind) ≡ false) × (self.waiting ≡ false)
            × (waits_for_poll request.now.kind mode first_poll ≡ false)
            × IsDue mode self.row request.now) }
        ensures conflict { conflicts self request.now attributes ≡ true
            → result ≡ (self, Begun.Answered conflict) }
        ensures busy { conflicts self request.now attributes ≡ false → IsSome self.work
            → result ≡ (self, Begun.Answered (busy request.now.kind)) }
        ensures row { self.waiting ≡ false → result.0.waiting ≡ false → result.0.row ≡ self.row }
        ensures tombstone { self.tombstone ≡ true → result.0 ≡ self }
        ensures gone { IsAnsweredBy result.1 request.now.kind 410 → result.0.tombstone ≡ true }
        ensures fits { fits mode self ≡ true → fits mode result.0 ≡ true }
        ensures sound { IsHeldSound result.0 }
    {
        if self.conflicts(request, attributes) {
            return (self, Begun::Answered(conflict()));
        }
        if self.work.is_some() {
            return (self, Begun::Answered(busy(request.kind)));
        }
        if self.tombstone && is_provision(request.kind) {
            return (self, Begun::Answered(too_late()));
        }
        if self.waiting {
            return self.begin_waiting(mode, request);
        }
        if let Some(work) = work_due(mode, self.row, request) {
            return self.begin_work(work, mode, first_poll, request, attributes);
        }
        let after = decide(mode, self.row, request, Outcome::Done);
        let tombstone = self.tombstone || ends(request.kind, self.row);
        (Holding { tombstone, ..self }, Begun::Answered(after.answer))
    }

    /// Whether the request would begin something in [`Holding::begin`]: its work is due, or it would make a row in
    /// `waiting` (line 5 there). The mode and the attributes are as there. It takes no memory.
    pub fn begins(self, mode: Option<Mode>, request: &Request, attributes: Digest) -> bool
        ensures begins { result ≡ begins mode self request.now attributes }
    {
        !self.conflicts(request, attributes)
            && self.work.is_none()
            && !(self.tombstone && is_provision(request.kind))
            && !self.waiting
            && work_due(mode, self.row, request).is_some()
    }

    /// As [`Holding::begin`], but if `may_begin` is false, nothing begins: a request that would begin something
    /// ([`Holding::begins`]) is answered as if work were pending, and nothing changes. For a broker that lets work begin
    /// only while something else is so, which it reads in the same transaction (this project's choice). It takes no
    /// memory.
    pub fn begin_if(
        self,
        mode: Option<Mode>,
        first_poll: bool,
        request: &Request,
        attributes: Digest,
        may_begin: bool,
    ) -> (Holding, Begun)
        ensures begun { result ≡ begun_if may_begin mode first_poll self request.now attributes }
        ensures may { may_begin ≡ true → result ≡ begun mode first_poll self request.now attributes }
        ensures put_off { may_begin ≡ false → begins mode self request.now attributes ≡ true
            → result ≡ (self, Begun.Answered (busy request.now.kind)) }
        ensures nothing_begins { may_begin ≡ false → IsWork result.1 → ⊥ }
        ensures unheld { may_begin ≡ false → is_held self ≡ false → is_held result.0 ≡ false }
        ensures fits { fits mode self ≡ true → fits mode result.0 ≡ true }
        ensures sound { IsHeldSound result.0 }
    {
        if !may_begin && self.begins(mode, request, attributes) {
            let answer = busy(request.kind);
            return (self, Begun::Answered(answer));
        }
        self.begin(mode, first_poll, request, attributes)
    }

    // A request of an instance whose row waits for its first Poll.
    fn begin_waiting(self, mode: Option<Mode>, request: &Request) -> (Holding, Begun)
        requires waits { self.waiting ≡ true }
        ensures begun { result ≡ begun_waiting mode self request.now }
        ensures answered { IsAnsweredBy result.1 request.now.kind 410 → ⊥ }
        ensures no_work { IsWork result.1 → ⊥ }
        ensures fits { fits mode self ≡ true → fits mode result.0 ≡ true }
        ensures sound { IsHeldSound result.0 }
    {
        match request.kind {
            Kind::Provision => {
                let after = decide(mode, self.row, request, Outcome::Done);
                (self, Begun::Answered(after.answer))
            }
            Kind::Poll => {
                let after = decide(mode, self.row, request, Outcome::Done);
                let waiting = !names_held(self.row, None, request);
                (Holding { waiting, ..self }, Begun::Answered(after.answer))
            }
            Kind::Deprovision => self.deprovision_waiting(mode, request),
        }
    }

    // A Deprovision of an instance whose row waits for its first Poll.
    #[tactic(auto, using(crate::proofs::Ends::failed_there))]
    fn deprovision_waiting(self, mode: Option<Mode>, request: &Request) -> (Holding, Begun)
        requires waits { self.waiting ≡ true }
        requires deletes { request.now.kind ≡ Deprovision }
        ensures begun { result ≡ begun_waiting mode self request.now }
        ensures answered { IsAnsweredBy result.1 Deprovision 410 → ⊥ }
        ensures no_work { IsWork result.1 → ⊥ }
        ensures fits { fits mode self ≡ true → fits mode result.0 ≡ true }
        ensures sound { IsHeldSound result.0 }
    {
        let failed = failed_row(self.row);
        let kept = &failed;
        if work_due(mode, *kept, request).is_some() {
            return (Holding::ENDED, Begun::Answered(deleted()));
        }
        let after = decide(mode, *kept, request, Outcome::Done);
        (self, Begun::Answered(after.answer))
    }

    // The work of a request is due, unless it waits for the first Poll.
    #[tactic(auto, using(crate::proofs::Waiting::put_off_row, crate::proofs::Fitting::put_off_fits, crate::proofs::Fitting::pending_fits))]
    fn begin_work(
        self,
        work: Work,
        mode: Option<Mode>,
        first_poll: bool,
        request: &Request,
        attributes: Digest,
    ) -> (Holding, Begun)
        requires idle { (self.work ≡ None) × ((self.tombstone && is_provision request.now.kind) ≡ false)
            × (self.waiting ≡ false) }
        requires due { Some work ≡ work_due mode self.row request.now }
        ensures begun { result ≡ begun_by (Some work) mode first_poll self request.now attributes }
        ensures due { IsWork result.1 ↔ (waits_for_poll request.now.kind mode first_poll ≡ false) }
        ensures row { result.0.waiting ≡ false → result.0.row ≡ self.row }
        ensures not_410 { IsAnsweredBy result.1 request.now.kind 410 → ⊥ }
        ensures fits { fits mode self ≡ true → fits mode result.0 ≡ true }
        ensures sound { IsHeldSound result.0 }
    {
        let attributes = match self.row {
            None => attributes,
            Some(_) => self.attributes,
        };
        if waits_for_poll(request.kind, mode, first_poll) {
            let after = decide(mode, self.row, request, Outcome::Done);
            let waiting = Holding {
                row: after.row,
                waiting: true,
                attributes,
                ..self
            };
            return (waiting, Begun::Answered(after.answer));
        }
        let begun = Holding {
            work: Some(*request),
            attributes,
            ..self
        };
        (begun, Begun::Work(work))
    }

    /// The pending work has ended with this outcome: the answer to its request, and what is held then. The mode is that
    /// of the pending request's plan, which has to fit ([`Holding::fits`]). With another one the table rejects the
    /// request whatever the outcome, and what was created is held no more.
    ///
    /// Answer and row are those of the broker's table ([`Broker::handle`](osb_broker::Broker::handle)) for that request
    /// and that outcome. No work is pending any more, and a Deprovision that leaves no row leaves the tombstone.
    /// [`WorkOutcome::Refused`] of a Provision is answered with the status of the rejection and `Error(Other)`. There
    /// is no row then, and the tombstone stays, so that no copy of the request can succeed after the platform has
    /// recorded `gone`.
    ///
    /// Write the holding to the database before the answer is sent. That work is pending, and ends by a call, is this
    /// project's choice. It takes no memory.
    ///
    /// If nobody knows how the work went, it hasn't ended. Answer the request with 500 or not at all, and call this
    /// once it is known.
    ///
    /// # Errors
    ///
    /// In this order, with the holding as before: [`EndRefused::NothingBegun`] exactly if no work is pending,
    /// [`EndRefused::NotAProvision`] exactly if the outcome is `Refused` and the pending request is no Provision.
    pub fn end(
        self,
        mode: Option<Mode>,
        outcome: WorkOutcome,
    ) -> Result<(Holding, Answer), EndRefused>
        ensures ok { IsOk result ↔ IsSomeAnd self.work (λ request. can_end request.kind outcome ≡ true) }
        ensures worked { IfSome self.work (λ request. can_end request.kind outcome ≡ true
            → result ≡ Ok (worked mode self request outcome)) }
        ensures nothing_begun { (result ≡ Err EndRefused.NothingBegun) ↔ (self.work ≡ None) }
        ensures not_a_provision { (result ≡ Err EndRefused.NotAProvision)
            ↔ IsSomeAnd self.work (λ request. can_end request.kind outcome ≡ false) }
        ensures fits { fits mode self ≡ true → IfOk result (λ after. fits mode after.0 ≡ true) }
        ensures made { fits mode self ≡ true → is_held_outcome outcome ≡ true → IfSome self.work (λ request.
            request.kind ≡ Provision → IfOk result (λ after. IsSome after.0.row)) }
        ensures sound { IfOk result (λ after. IsHeldSound after.0) }
    {
        let Holding { work, .. } = self;
        let Some(request) = work else {
            return Err(EndRefused::NothingBegun);
        };
        match outcome {
            WorkOutcome::Done => Ok(self.ended(mode, &request, Outcome::Done)),
            WorkOutcome::Before => Ok(self.ended(mode, &request, Outcome::Before)),
            WorkOutcome::After => Ok(self.ended(mode, &request, Outcome::After)),
            WorkOutcome::Refused(rejection) => {
                if !is_provision(request.kind) {
                    return Err(EndRefused::NotAProvision);
                }
                let answer = Answer {
                    status: rejection.status(),
                    body: Body::Error(ErrorCode::Other),
                };
                Ok((Holding::ENDED, answer))
            }
        }
    }

    // The pending work has ended as the broker's table has it.
    #[tactic(auto, using(crate::proofs::Fitting::worked_fits))]
    fn ended(self, mode: Option<Mode>, request: &Request, outcome: Outcome) -> (Holding, Answer)
        requires pending { self.work ≡ Some request.now }
        ensures worked { result ≡ worked_as mode self request.now outcome }
        ensures fits { fits mode self ≡ true → fits mode result.0 ≡ true }
        ensures made { fits mode self ≡ true → outcome ≢ Outcome.Before → request.now.kind ≡ Provision
            → IsSome result.0.row }
        ensures sound { IsHeldSound result.0 }
    {
        let Holding {
            row,
            attributes,
            ..
        } = self;
        let after = decide(mode, row, request, outcome);
        let tombstone = ends(request.kind, after.row);
        let held = Holding {
            row: after.row,
            work: None,
            tombstone,
            waiting: false,
            attributes: kept_attributes(after.row, attributes),
        };
        (held, after.answer)
    }

    /// The operation that runs on the instance has succeeded (`ok`) or failed. The row is that of
    /// [`Broker::finish`](osb_broker::Broker::finish): an instance that is being made is `ready` then, or has failed;
    /// one that is being deleted is gone and leaves the tombstone, or could not be deleted. Write the holding to the
    /// database before anyone is told.
    ///
    /// Call it once, of the operation that runs now. Whether that makes or deletes is the row's phase, read in the same
    /// transaction.
    ///
    /// That the caller says when an operation ends, and the tombstone, are this project's choice (section Polling Last
    /// Operation for Service Instances has the states). It takes no memory.
    ///
    /// # Errors
    ///
    /// [`NothingRunning`] exactly if the instance is neither being made nor being deleted: so always while work is
    /// pending, in `waiting`, and beside a tombstone. The holding is as before.
    #[tactic(auto, using(crate::proofs::Fitting::finished_fits))]
    pub fn finish(self, ok: bool) -> Result<Holding, NothingRunning>
        ensures running { IsOk result ↔ IsTrue (is_operating self) }
        ensures finished { IfOk result (λ held. held ≡ finished_held self ok) }
        ensures busy { IsSome self.work → result ≡ Err (record {}) }
        ensures tombstone { self.tombstone ≡ true → result ≡ Err (record {}) }
        ensures fits { (mode : Option Mode) → fits mode self ≡ true
            → IfOk result (λ held. fits mode held ≡ true) }
        ensures sound { IfOk result (λ held. IsHeldSound held) }
    {
        let Holding {
            row,
            waiting,
            attributes,
            ..
        } = self;
        let Some(row) = row else {
            return Err(NothingRunning);
        };
        if waiting {
            return Err(NothingRunning);
        }
        let after = finished(row, ok)?;
        Ok(Holding {
            row: after,
            work: None,
            tombstone: after.is_none(),
            waiting: false,
            attributes: kept_attributes(after, attributes),
        })
    }

    /// The instance has waited too long for its first Poll: its row is `failed` then. So a platform that polls late is
    /// told so, and cleans up. Nothing was created. Write the holding to the database before anyone is told. The rule
    /// of the first Poll, and its end, are this project's choice. It takes no memory.
    ///
    /// # Errors
    ///
    /// [`NotWaiting`] exactly if there is no row in `waiting`. The holding is as before.
    pub fn give_up_waiting(self) -> Result<Holding, NotWaiting>
        ensures waiting { IsOk result ↔ (self.waiting ≡ true) }
        ensures given_up { IfOk result (λ held. held ≡ given_up self) }
        ensures fits { (mode : Option Mode) → fits mode self ≡ true
            → IfOk result (λ held. fits mode held ≡ true) }
        ensures sound { IfOk result (λ held. IsHeldSound held) }
    {
        if !self.waiting {
            return Err(NotWaiting);
        }
        Ok(Holding {
            row: failed_row(self.row),
            waiting: false,
            ..self
        })
    }

    /// The text of the holding, for a column of a database: a JSON object with no spaces and the members `attributes`,
    /// the digest in 64 hex digits, `row`, an object with `phase`, `plan` and `service`, or `null`, `tombstone`, a
    /// boolean, `version`, the number 2, and `work`, an object with `accepts_incomplete`, `id`, `kind`, `plan` and
    /// `service`, or `null`. Ids and digits are in lower case, phases and kinds by their words. All of this is this
    /// project's choice.
    ///
    /// # Errors
    ///
    /// [`Memory`] if an allocation failed.
    pub fn to_text(self, alloc: Global) -> Result<String, Memory>
        ensures text { IfOk result (λ text. string_bytes text ≡ holding_text self) }
        ensures back { IfOk result (λ text. holding_in (string_bytes text) ≡ Ok self) }
    {
        self.to_text_with_version(alloc, VERSION)
    }

    /// The text of a holding of something else than an instance, such as a binding, whose texts have a number of their
    /// own: as [`Holding::to_text`], with this number under `version` (this project's choice).
    ///
    /// # Errors
    ///
    /// [`Memory`] if an allocation failed.
    pub fn to_text_with_version(self, alloc: Global, version: u64) -> Result<String, Memory>
        ensures text { IfOk result (λ text. string_bytes text ≡ holding_text_of version self) }
        ensures back { IfOk result (λ text. holding_in_of version (string_bytes text) ≡ Ok self) }
    {
        write_holding(alloc, version, &self.parts())
    }

    // Its parts.
    fn parts(self) -> Parts
        ensures parts { held_of result ≡ self }
    {
        Parts {
            row: self.row,
            work: self.work,
            tombstone: self.tombstone,
            waiting: self.waiting,
            attributes: self.attributes,
        }
    }

    /// The holding that a text names, as [`Holding::to_text`] writes it. The text may have any spacing, members in any
    /// order, and hex digits in either case; of a member that stands twice the last counts. What [`Holding::to_text`]
    /// returned is rejected only if memory runs out. A text of version 1, which versions before 0.3.0 wrote, has
    /// `marked` in place of `tombstone` and no `attributes`: it is read with [`Digest::NONE`]. All of this is this
    /// project's choice.
    ///
    /// # Errors
    ///
    /// The first of these that fits. [`TextFault::NotJson`] if the text has no reading as JSON,
    /// [`TextFault::NotAnObject`] if the value isn't an object, [`TextFault::BadVersion`] if `version` is neither 1 nor
    /// 2 written as an integer, [`TextFault::BadOuter`] if the members aren't exactly those of its version,
    /// [`TextFault::BadMember`] if one of them isn't as [`Holding::to_text`] has it, with no further member inside,
    /// [`TextFault::Impossible`] if [`Holding::from_parts`] has no holding of these. [`TextFault::Memory`] in place of
    /// any other if an allocation failed.
    pub fn from_text(alloc: Global, text: &str) -> Result<Holding, TextFault>
        ensures ok { IfOk result (λ holding. holding_in text.now ≡ Ok holding) }
        ensures err { IfErr result (λ fault.
            (fault ≡ TextFault.Memory) ⊎ (holding_in text.now ≡ Err fault)) }
        ensures back { (written : Held) → holding_in text.now ≡ Ok written
            → IfOk result (λ holding. holding ≡ written) }
        ensures back_err { (written : Held) → holding_in text.now ≡ Ok written
            → IfErr result (λ fault. fault ≡ TextFault.Memory) }
    {
        let parts = read_holding(alloc, text)?;
        Ok(Holding::of(&parts))
    }

    /// The holding that a text names, as [`Holding::to_text_with_version`] writes it with this number: as
    /// [`Holding::from_text`], with this one number of a format, whose members are those of version 2 (this project's
    /// choice).
    ///
    /// # Errors
    ///
    /// As at [`Holding::from_text`]; [`TextFault::BadVersion`] if `version` isn't this number, written as an integer.
    pub fn from_text_with_version(
        alloc: Global,
        version: u64,
        text: &str,
    ) -> Result<Holding, TextFault>
        ensures ok { IfOk result (λ holding. holding_in_of version text.now ≡ Ok holding) }
        ensures err { IfErr result (λ fault.
            (fault ≡ TextFault.Memory) ⊎ (holding_in_of version text.now ≡ Err fault)) }
        ensures back { (written : Held) → holding_in_of version text.now ≡ Ok written
            → IfOk result (λ holding. holding ≡ written) }
        ensures back_err { (written : Held) → holding_in_of version text.now ≡ Ok written
            → IfErr result (λ fault. fault ≡ TextFault.Memory) }
    {
        let parts = read_holding_of(alloc, version, text)?;
        Ok(Holding::of(&parts))
    }
}

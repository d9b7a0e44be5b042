//! What a broker holds of one binding.
ghost use Rattle.std.specs.Prelude.{◌≡◌, ◌↔◌, ◌⊎◌, true, false, Option, None, Ok, Err};
ghost use Rattle.std.specs.Prelude.{IsTrue, IsSome, IsOk, IfOk, IfErr, IfSome, IsSomeAnd, string_bytes};
ghost use Rattle.osb_message.specs.declared.catalogue.Mode.{Mode};
ghost use Rattle.osb_instance.specs.Begin.{busy, can_end, finished_held, given_up, is_held, is_operating};
ghost use Rattle.osb_instance.specs.Begin.{begins, worked, IsWork};
ghost use Rattle.osb_instance.specs.Fits.{fits};
ghost use Rattle.osb_instance.specs.Held.{Held, IsHeldSound, nothing_held};
ghost use Rattle.osb_instance.specs.HoldingText.{possible};
ghost use Rattle.osb_instance.specs.Rows.{held_of_parts, held_row};
ghost use Rattle.osb_binding.specs.Begun.{binding_begun, fetched, forgotten_answer, may_begin};
ghost use Rattle.osb_binding.specs.Requests.{life_request};
ghost use Rattle.osb_binding.specs.Texts.{binding_holding_in, binding_holding_text};

use crate::BindingRequest;
use osb_broker::{NothingRunning, Outcome, decide};
use osb_instance::{
    Begun, Digest, EndRefused, Holding, HoldingPhase, HoldingRow, NotWaiting, TextFault,
    WorkOutcome, busy,
};
use osb_message::{Answer, Body, ErrorCode, Kind, Memory, Mode, Request};
use std::alloc::Global;
use std::marker::Model;

// The number of the format of the text.
const VERSION: u64 = 1;

/// What a broker holds of one binding: as a [`Holding`] has it of an instance. The pending request is that of
/// [`BindingRequest::as_request`]. The mode of its calls is that of binding at the plan, and none if the plan isn't
/// bindable (this project's choice).
///
/// Credentials stand beside the holding, in a column of their own. Write them in the transaction in which the row
/// becomes `ready`, and never again.
#[derive(Clone, Copy, Debug, PartialEq, Eq)]
pub struct BindingHolding {
    life: Holding,
}

impl Model for BindingHolding {
    ghost use Rattle.osb_instance.specs.Held.{Held, IsHeldSound};

    ghost Value = { Held };

    ghost view = { λ h. h.life };

    ghost invariant = { λ h. IsHeldSound h.life };

    ghost inverse = { λ h. record { life = h } };
}

// The answer to a request of a binding of which nothing is kept, and whose instance has ended.
fn forgotten_answer(mode: Option<Mode>, request: &Request) -> Answer
    ensures answer { result ≡ forgotten_answer mode request.now }
{
    match request.kind {
        Kind::Provision => busy(request.kind),
        Kind::Poll | Kind::Deprovision => decide(mode, None, request, Outcome::Done).answer,
    }
}

impl BindingHolding {
    /// Nothing: of a binding that no request has come for.
    pub const NONE: BindingHolding = BindingHolding {
        life: Holding::NONE,
    };

    /// The binding's holding from that of its life. It takes no memory.
    pub fn of(life: Holding) -> BindingHolding
        ensures life { result ≡ life }
    {
        BindingHolding { life }
    }

    /// The holding as the tables of instances have it. It takes no memory.
    pub fn as_holding(self) -> Holding
        ensures life { result ≡ self }
    {
        self.life
    }

    /// The holding of these parts, as at [`Holding::from_parts`]. It takes no memory.
    pub fn from_parts(
        row: Option<HoldingRow>,
        work: Option<Request>,
        tombstone: bool,
        attributes: Digest,
    ) -> Option<BindingHolding>
        ensures parts { result ≡ possible (held_of_parts row work tombstone attributes) }
        ensures sound { IsSome result ↔ IsHeldSound (held_of_parts row work tombstone attributes) }
    {
        let life = Holding::from_parts(row, work, tombstone, attributes)?;
        Some(BindingHolding { life })
    }

    /// The binding's row, or none. It takes no memory.
    pub fn row(self) -> Option<HoldingRow>
        ensures row { result ≡ held_row self.row self.waiting }
    {
        self.life.row()
    }

    /// The request whose work is pending, as [`BindingRequest::as_request`] has it, or none. It takes no memory.
    pub fn work(self) -> Option<Request>
        ensures work { result ≡ self.work }
    {
        self.life.work()
    }

    /// Whether the binding has ended. It never comes back while its instance lasts. A holding that has a tombstone may
    /// be deleted from the database once that of the instance has one. It takes no memory.
    pub fn has_tombstone(self) -> bool
        ensures tombstone { result ≡ self.tombstone }
    {
        self.life.has_tombstone()
    }

    /// The digest of the attributes of row and pending work, and [`Digest::NONE`] if there are neither. It takes no
    /// memory.
    pub fn attributes(self) -> Digest
        ensures attributes { result ≡ self.attributes }
    {
        self.life.attributes()
    }

    /// Whether there is a row, or work is pending: the instance isn't deleted then. It takes no memory.
    pub fn is_held(self) -> bool
        ensures held { result ≡ is_held self }
    {
        self.life.is_held()
    }

    /// Whether this can come about at a plan of the mode, as at [`Holding::fits`]. It takes no memory.
    pub fn fits(self, mode: Option<Mode>) -> bool
        ensures fits { result ≡ fits mode self }
    {
        self.life.fits(mode)
    }

    /// Whether an operation runs on the binding. It takes no memory.
    pub fn is_operating(self) -> bool
        ensures operating { result ≡ is_operating self }
    {
        self.life.is_operating()
    }

    /// A request comes, as at [`Holding::begin`] for the request of [`BindingRequest::as_request`], with two
    /// differences. `instance` is the holding of the binding's instance, read and locked in the transaction that writes
    /// this one.
    ///
    /// 1. If the instance isn't there ([`Holding::is_there`], with the request's service and plan), no Bind begins: one
    ///    whose work would be due is answered with 503, and nothing changes.
    /// 2. If the instance has a tombstone, and nothing is kept of the binding, nothing changes: every Bind is answered
    ///    with 503, and an Unbind with 410, which leaves no tombstone. So tombstones of bindings may be deleted once
    ///    their instance has one.
    ///
    /// If the holding changed, write it to the database before the work begins or the answer is sent (sections Binding,
    /// Unbinding and Polling Last Operation for Service Bindings have the statuses; the rest is this project's choice).
    /// It takes no memory.
    pub fn begin(
        self,
        instance: Holding,
        mode: Option<Mode>,
        first_poll: bool,
        request: &BindingRequest,
        attributes: Digest,
    ) -> (BindingHolding, Begun)
        ensures begun { result ≡ binding_begun instance mode first_poll self request.now attributes }
        ensures put_off { may_begin instance request.now ≡ false
            → begins mode self (life_request request.now) attributes ≡ true
            → result ≡ (self, Begun.Answered (busy request.now.kind)) }
        ensures nothing_begins { may_begin instance request.now ≡ false → IsWork result.1 → ⊥ }
        ensures unheld { may_begin instance request.now ≡ false → is_held self ≡ false
            → is_held result.0 ≡ false }
        ensures forgotten { instance.tombstone ≡ true → self ≡ nothing_held → result.0 ≡ nothing_held }
        ensures fits { fits mode self ≡ true → fits mode result.0 ≡ true }
        ensures sound { IsHeldSound result.0 }
    {
        let asked = request.as_request();
        if instance.has_tombstone() && !self.life.is_held() && !self.life.has_tombstone() {
            return (self, Begun::Answered(forgotten_answer(mode, &asked)));
        }
        let may_begin = request.kind != Kind::Provision
            || instance.is_there(request.service, request.plan);
        let (life, begun) = self
            .life
            .begin_if(mode, first_poll, &asked, attributes, may_begin);
        (BindingHolding { life }, begun)
    }

    /// The pending work has ended with this outcome, as at [`Holding::end`]. If the row becomes `ready`, the credentials
    /// are written in the same transaction. It takes no memory.
    ///
    /// # Errors
    ///
    /// As at [`Holding::end`], with the holding as before.
    pub fn end(
        self,
        mode: Option<Mode>,
        outcome: WorkOutcome,
    ) -> Result<(BindingHolding, Answer), EndRefused>
        ensures ok { IsOk result ↔ IsSomeAnd self.work (λ request. can_end request.kind outcome ≡ true) }
        ensures worked { IfSome self.work (λ request. can_end request.kind outcome ≡ true
            → result ≡ Ok (worked mode self request outcome)) }
        ensures nothing_begun { (result ≡ Err EndRefused.NothingBegun) ↔ (self.work ≡ None) }
        ensures not_a_provision { (result ≡ Err EndRefused.NotAProvision)
            ↔ IsSomeAnd self.work (λ request. can_end request.kind outcome ≡ false) }
        ensures fits { fits mode self ≡ true → IfOk result (λ after. fits mode after.0 ≡ true) }
        ensures sound { IfOk result (λ after. IsHeldSound after.0) }
    {
        let (life, answer) = self.life.end(mode, outcome)?;
        Ok((BindingHolding { life }, answer))
    }

    /// The operation that runs on the binding has succeeded (`ok`) or failed, as at [`Holding::finish`]. If the row
    /// becomes `ready`, the credentials are written in the same transaction. It takes no memory.
    ///
    /// # Errors
    ///
    /// [`NothingRunning`] exactly if the binding is neither being made nor being deleted. The holding is as before.
    pub fn finish(self, ok: bool) -> Result<BindingHolding, NothingRunning>
        ensures running { IsOk result ↔ IsTrue (is_operating self) }
        ensures finished { IfOk result (λ held. held ≡ finished_held self ok) }
        ensures fits { (mode : Option Mode) → fits mode self ≡ true
            → IfOk result (λ held. fits mode held ≡ true) }
        ensures sound { IfOk result (λ held. IsHeldSound held) }
    {
        let life = self.life.finish(ok)?;
        Ok(BindingHolding { life })
    }

    /// The binding has waited too long for its first Poll, as at [`Holding::give_up_waiting`]. It takes no memory.
    ///
    /// # Errors
    ///
    /// [`NotWaiting`] exactly if there is no row in `waiting`. The holding is as before.
    pub fn give_up_waiting(self) -> Result<BindingHolding, NotWaiting>
        ensures waiting { IsOk result ↔ (self.waiting ≡ true) }
        ensures given_up { IfOk result (λ held. held ≡ given_up self) }
        ensures fits { (mode : Option Mode) → fits mode self ≡ true
            → IfOk result (λ held. fits mode held ≡ true) }
        ensures sound { IfOk result (λ held. IsHeldSound held) }
    {
        let life = self.life.give_up_waiting()?;
        Ok(BindingHolding { life })
    }

    /// The answer to a Fetch, without its credentials (section Fetching a Service Binding): 200 if the row is `ready`
    /// and no work is pending, else 404 with `Error(Other)`. Nothing changes. A 200 carries the credentials that are
    /// stored beside the row. It takes no memory.
    pub fn fetch(self) -> Answer
        ensures fetched { result ≡ fetched self }
    {
        match (self.life.row(), self.life.work()) {
            (Some(row), None) if row.phase == HoldingPhase::Ready => Answer {
                status: 200,
                body: Body::Empty,
            },
            _ => Answer {
                status: 404,
                body: Body::Error(ErrorCode::Other),
            },
        }
    }

    /// The text of the holding, for a column of a database: with the members of [`Holding::to_text`], and a `version`
    /// of its own, the number 1. The `id` of pending work is the binding's. All of this is this project's choice.
    ///
    /// # Errors
    ///
    /// [`Memory`] if an allocation failed.
    pub fn to_text(self, alloc: Global) -> Result<String, Memory>
        ensures text { IfOk result (λ text. string_bytes text ≡ binding_holding_text self) }
        ensures back { IfOk result (λ text. binding_holding_in (string_bytes text) ≡ Ok self) }
    {
        self.life.to_text_with_version(alloc, VERSION)
    }

    /// The holding that a text names, as [`BindingHolding::to_text`] writes it and [`Holding::from_text`] reads one; no
    /// other version is read (this project's choice).
    ///
    /// # Errors
    ///
    /// As at [`Holding::from_text`], [`TextFault::Memory`] in place of any other if an allocation failed.
    pub fn from_text(alloc: Global, text: &str) -> Result<BindingHolding, TextFault>
        ensures ok { IfOk result (λ holding. binding_holding_in text.now ≡ Ok holding) }
        ensures err { IfErr result (λ fault.
            (fault ≡ TextFault.Memory) ⊎ (binding_holding_in text.now ≡ Err fault)) }
        ensures back { (written : Held) → binding_holding_in text.now ≡ Ok written
            → IfOk result (λ holding. holding ≡ written) }
        ensures back_err { (written : Held) → binding_holding_in text.now ≡ Ok written
            → IfErr result (λ fault. fault ≡ TextFault.Memory) }
    {
        let life = Holding::from_text_with_version(alloc, VERSION, text)?;
        Ok(BindingHolding { life })
    }
}

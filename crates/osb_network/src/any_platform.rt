//! A broker alone, and any platform.
ghost use Rattle.std.specs.Prelude.{◌≡◌, ℕ, All, Ok, true, false, IfOk, IsOk, OnOk, OnErr, take};
ghost use Rattle.osb_network.specs.AnyPlatform.{IsAlone, IsPromised, StaysGone, any_applies, any_empty, any_step};
ghost use Rattle.osb_network.specs.AnyPlatform.{any_steps, any_takes_memory};
ghost use Rattle.osb_network.specs.Steps.{step_of};

use crate::any_parts::AnyParts;
use crate::{Resource, Step};
use osb_instance::{Digest, Holding, WorkOutcome};
use osb_message::{Catalogue, Kind, Memory, Request};
use std::alloc::Global;
use std::marker::Model;

/// What a broker has reported of an instance, and any platform may believe (this project's choice).
#[derive(Clone, Copy, Debug, PartialEq, Eq, Hash)]
pub struct Told {
    /// It is ready: a Provision was answered with 200 or 201, or a Poll with `succeeded` while no Deprovision was
    /// accepted; and no Deprovision has arrived since.
    pub ready: bool,
    /// It is gone: a Deprovision was answered with 200 or 410, or a Poll with 410 after one was accepted. This stays so.
    pub gone: bool,
    /// A Deprovision was accepted: answered with 202.
    pub leaving: bool,
    /// A Poll has arrived.
    pub polled: bool,
}

/// What can happen to an instance at its broker, whatever the platform and the network do (this project's choice).
/// Every answer may be believed, when and as often as it may be. If the text below says "applies" and that isn't so,
/// the event changes nothing.
#[derive(Clone, Copy, Debug, PartialEq, Eq, Hash)]
pub enum BrokerEvent {
    /// A request arrives, of any kind and plan: for the first time or again, in time or late. It always applies.
    Arrive {
        /// The request.
        request: Request,
        /// The digest of its attributes.
        attributes: Digest,
    },
    /// A request of the kind arrives and is put off ([`busy`](osb_instance::busy)). It always applies.
    PutOff {
        /// Its kind.
        kind: Kind,
    },
    /// The pending work ends so, and its request is answered. It applies if work is pending, and may have left the
    /// resource that exists: as at [`Event::End`](crate::Event::End), and a Deprovision that ends with `Before` is
    /// reported only of a resource that is still whole, or if the row wasn't `ready`.
    End {
        /// How it ends.
        outcome: WorkOutcome,
    },
    /// The operation that runs ends. It applies as [`Event::Finish`](crate::Event::Finish).
    Finish {
        /// Whether it succeeds.
        ok: bool,
    },
    /// The broker gives up a row that waits for its first Poll. It applies if one does.
    GiveUpWaiting,
    /// The resource becomes this. It applies if work is pending or an operation runs. A deletion creates nothing: by one
    /// the resource may become absent, or a part of what exists, and never whole.
    Work {
        /// What exists of it then.
        resource: Resource,
    },
    /// The broker crashes and starts again: what it holds goes through its text and back. It always applies.
    Crash,
}

/// One instance at a broker, and any platform: what the broker sells and holds, the resource in the backend, and what
/// the broker has reported (this project's choice, and so are its calls).
///
/// Whatever happens, the promises hold (`IsPromised` and `StaysGone`, in `specs/AnyPlatform.antt`): what was reported
/// ready is whole until a Deprovision arrives; of what was reported gone there is no resource, no row and no pending
/// work, ever again; with the rule of the first Poll, a resource of an asynchronous plan exists only if the instance was
/// polled.
#[derive(Drop)]
pub struct AnyPlatform {
    parts: AnyParts,
}

impl Model for AnyPlatform {
    ghost use Rattle.osb_network.specs.AnyPlatform.{AnyCell, IsAlone, any_code};

    ghost Value = { AnyCell };

    ghost coded = { any_code };

    ghost view = { λ a. a.parts };

    ghost invariant = { λ a. IsAlone a.parts };
}

impl AnyPlatform {
    /// An instance that nothing has happened to, at a broker that sells these plans, with the rule of the first Poll or
    /// without ([`Holding::begin`]). It takes no memory.
    pub fn new(catalogue: Catalogue, first_poll: bool) -> Self
        ensures empty { result ≡ any_empty catalogue first_poll }
    {
        AnyPlatform {
            parts: AnyParts::new(catalogue, first_poll),
        }
    }

    /// Lets an event happen: [`Step::Applied`] exactly if it applies, and the instance is then one step further.
    /// [`Step::Skipped`] has changed nothing. Only a crash takes memory, from `alloc`.
    ///
    /// # Errors
    ///
    /// [`Memory`] if an allocation failed. The instance is then as before.
    pub fn step(&mut self, alloc: Global, event: BrokerEvent) -> Result<Step, Memory>
        ensures cell { OnOk result (self.new ≡ any_step self.old event) }
        ensures applied { IfOk result (λ s. s ≡ step_of (any_applies self.old event)) }
        ensures skipped { result ≡ Ok Step.Skipped → self.new ≡ self.old }
        ensures err { OnErr result (self.new ≡ self.old) }
        ensures no_memory { any_takes_memory event ≡ false → IsOk result }
        ensures promised { IsPromised self.new }
        ensures stays_gone { StaysGone self.old self.new }
    {
        self.parts.step(alloc, event)
    }

    /// What the broker holds. It takes no memory.
    pub fn holding(&self) -> Holding
        ensures held { result ≡ self.now.held }
    {
        self.parts.holding
    }

    /// What exists in the backend. It takes no memory.
    pub fn resource(&self) -> Resource
        ensures resource { result ≡ self.now.resource }
    {
        self.parts.resource
    }

    /// What the broker has reported. It takes no memory.
    pub fn told(&self) -> Told
        ensures told { result ≡ self.now.told }
    {
        self.parts.told
    }

    /// Does nothing: its contract is that the promises hold. It takes no memory.
    pub fn promised(&self)
        ensures promised { IsPromised self.now }
    {
        let _ = &self.parts;
    }
}

/// What becomes of an instance at a broker once these events have happened, one after another. For every list of events
/// the promises hold, and what was reported gone after the first few of them still counts after all, also if memory runs
/// out (this project's choice).
///
/// # Errors
///
/// [`Memory`] if an allocation failed. Only crashes ask for memory.
pub fn run_any(
    alloc: Global,
    catalogue: Catalogue,
    first_poll: bool,
    events: &[BrokerEvent],
) -> Result<AnyPlatform, Memory>
    ensures cell { IfOk result (λ any. any ≡ any_steps (any_empty catalogue first_poll) events.now) }
    ensures no_memory { All (λ event. any_takes_memory event ≡ false) events.now → IsOk result }
    ensures promised { IfOk result (λ any. IsPromised any) }
    ensures always { IsPromised (any_steps (any_empty catalogue first_poll) events.now) }
    ensures stays_gone { (count : ℕ) → StaysGone
        (any_steps (any_empty catalogue first_poll) (take count events.now))
        (any_steps (any_empty catalogue first_poll) events.now) }
{
    let mut any = AnyPlatform::new(catalogue, first_poll);
    for event in events {
        any.step(alloc, *event)?;
    }
    any.promised();
    Ok(any)
}

//! What can happen to an instance.
use crate::Resource;
use osb_instance::WorkOutcome;
use osb_message::{Answer, InstanceId};

/// An answer that was given, and the number of the request that it answers.
#[derive(Clone, Copy, Debug, PartialEq, Eq, Hash)]
pub struct Given {
    /// The request's number.
    pub attempt: u64,
    /// The answer.
    pub answer: Answer,
}

/// What can happen to an instance: what the two sides do, what a network does to what they send, what the work does to
/// the resource, and the crashes (this project's choice). Where it says "applies" below and that isn't so, the event
/// changes nothing.
#[derive(Clone, Copy, Debug, PartialEq, Eq, Hash)]
pub enum Event {
    /// The platform orders the instance, and sends the Provision. It applies where there is no record yet.
    Create,
    /// The platform sends the request that is due, under the next number. It applies where one is due, none is out,
    /// and the latest number is below 2^64 - 1.
    Send,
    /// The platform gives up polling. It applies in `polling` with nothing out.
    Expire,
    /// The platform sends a deletion again. It applies in `cleaning-polling` with nothing out.
    Retry,
    /// An operator has it deleted. It applies in `polling`, `ready` and `unsettled` with nothing out.
    Remove,
    /// The platform gives up the request that is out. It applies where one is.
    Timeout,
    /// The request of this number arrives at the broker: for the first time or again, in time or long after it was
    /// given up. It applies where it was ever sent.
    Arrive {
        /// The number, from 1.
        attempt: u64,
    },
    /// The request of this number arrives at the broker, as at [`Event::Arrive`], and is put off: it is answered as if
    /// work were pending, whatever is held, and nothing else changes. So a broker answers that lets no work begin for a
    /// reason of its own. It applies if the request was ever sent.
    PutOff {
        /// The number, from 1.
        attempt: u64,
    },
    /// An answer arrives at the platform: for the first time or again, in time or late. It applies where it was ever
    /// given, and is to the request that is out.
    Take {
        /// Which of all that were given, from 0.
        at: usize,
    },
    /// As [`Event::Take`], but of the answer only the status arrives, and a body that can't be read.
    TakeGarbled {
        /// Which of all that were given, from 0.
        at: usize,
    },
    /// A gateway answers the request that is out, with a body that can't be read. It applies where one is out and the
    /// status is from 500 to 599. Whatever else a gateway says has to be told from what the broker says, and is a
    /// [`Event::Timeout`]: an assumption.
    TakeGateway {
        /// The status.
        status: u16,
    },
    /// The pending work ends so, and its request is answered, unless the broker has crashed since it arrived or has
    /// reported an unknown outcome. It applies if work is pending, and may have left the resource that exists: a
    /// Provision that ends with `Before` or `Refused` has left none; with a synchronous plan one that ends otherwise has
    /// left all of it, and a Deprovision that ends with `Done` or `After` none. A Deprovision isn't refused.
    End {
        /// How it ends.
        outcome: WorkOutcome,
    },
    /// Nobody knows how the work went: its request is answered with 500, and the work stays recorded. It applies where
    /// work goes on whose request isn't answered yet.
    EndUnknown,
    /// The operation that runs ends. It applies if one runs and no work is pending, and the resource is there whole
    /// where a making ends well, and none is there where a deletion ends well.
    Finish {
        /// Whether it ends well.
        ok: bool,
    },
    /// The broker gives up a row that waits for its first Poll. It applies if one does.
    GiveUpWaiting,
    /// The resource becomes this: it is made or deleted, a part of it or all, or what was done is undone. It applies where
    /// work is pending or an operation runs. Nothing else changes the resource: an assumption.
    Work {
        /// What there is of it then.
        resource: Resource,
    },
    /// The broker crashes and starts again: what it holds goes through its text and back, and a request whose work
    /// goes on is never answered. It always applies.
    CrashBroker,
    /// The platform crashes and starts again: what it records goes through its text and back. It always applies. The
    /// request that was out is given up at some later moment, by a [`Event::Timeout`].
    CrashPlatform,
}

/// An event of one of many instances.
#[derive(Clone, Copy, Debug, PartialEq, Eq, Hash)]
pub struct InstanceEvent {
    /// The instance's id.
    pub id: InstanceId,
    /// What happens to it.
    pub event: Event,
}

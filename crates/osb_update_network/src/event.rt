//! What can happen to an instance and its updates at a broker.
use osb_instance::{Digest, WorkOutcome};
use osb_message::{Kind, Mode, Request};
use osb_network::Resource;
use osb_update::{Allowed, Settings, Update, UpdateOutcome};

/// What can happen to an instance and its updates at their broker, whatever the platform and the network do (this
/// project's choice). Every answer may be believed, when and as often as it may be. If the text below says "applies" and
/// that isn't so, the event changes nothing.
///
/// The first seven are those of [`BrokerEvent`](osb_network::BrokerEvent) of `osb_network`. The others are of updates. An
/// answer that reports nothing and changes nothing is no event: such as 500 to an Update whose outcome nobody knows, or
/// 422 `ConcurrencyError` to an Update that is put off, since a binding of the instance is in the way.
#[derive(Clone, Copy, Debug, PartialEq, Eq, Hash)]
pub enum UpdateEvent {
    /// A request of the instance itself arrives, of any kind and plan: for the first time or again, in time or late. It
    /// always applies.
    ///
    /// A Provision asks for the settings of its plan and of the two digests. The digest of its attributes is one of all
    /// that it asks for: so a Provision with the same plan and attributes asks for the same settings (an assumption).
    Arrive {
        /// The request. A broker may read a Poll or a Deprovision as naming the plan of the row: then that request
        /// arrives.
        request: Request,
        /// The digest of its attributes.
        attributes: Digest,
        /// The digest of the parameters that a Provision asks for.
        parameters: Digest,
        /// The digest of the version of the maintenance that a Provision asks for.
        version: Digest,
    },
    /// A request of the kind arrives and is put off ([`busy`](osb_instance::busy)). It always applies.
    PutOff {
        /// Its kind.
        kind: Kind,
    },
    /// The pending work of the instance ends so, and its request is answered. It applies as
    /// [`BrokerEvent::End`](osb_network::BrokerEvent::End). If the instance is available afterwards, it applies only if the
    /// resource has the right settings (an assumption): after a creation those that were asked for, and after a deletion
    /// that has changed nothing those of the row, unless an update had failed.
    End {
        /// How it ends.
        outcome: WorkOutcome,
    },
    /// The operation of the instance that runs ends. It applies as
    /// [`BrokerEvent::Finish`](osb_network::BrokerEvent::Finish). A creation that succeeds has brought about the settings
    /// that its Provision asked for (an assumption).
    Finish {
        /// Whether it succeeds.
        ok: bool,
    },
    /// The broker gives up a row that waits for its first Poll. It applies if one does.
    GiveUpWaiting,
    /// The resource and its settings become this by the work or the operation of the instance. It applies as
    /// [`BrokerEvent::Work`](osb_network::BrokerEvent::Work).
    Work {
        /// What exists of the resource then.
        resource: Resource,
        /// Its settings, or none while they are between.
        settings: Option<Settings>,
    },
    /// The broker crashes and starts again. What it holds is in its database, and is as before. It always applies.
    Crash,
    /// An Update arrives, any one, for the first time or again, in time or late. It always applies.
    Update {
        /// What the catalogue has for it: anything, at any time.
        allowed: Allowed,
        /// The Update.
        update: Update,
    },
    /// The pending work of an Update ends so, and the Update is answered. It applies if work of an Update is pending, and
    /// may have left the settings that the resource has (an assumption). A synchronous update that is reported as done has
    /// brought about its settings. Work that is reported to have changed nothing, or is refused, has left those of before,
    /// unless an update before it had failed.
    UpdateEnd {
        /// How the update is done.
        mode: Mode,
        /// How its work ends.
        outcome: UpdateOutcome,
    },
    /// The operation of an update ends. It applies if one runs, and has brought about its settings if it succeeds.
    UpdateFinish {
        /// Whether it succeeds.
        ok: bool,
    },
    /// The settings become these by the work or the operation of an update. It applies while an update is under way. It
    /// creates and deletes nothing (an assumption).
    UpdateWork {
        /// The settings, or none while they are between.
        settings: Option<Settings>,
    },
    /// A Fetch of the instance arrives, and is answered. It always applies.
    Fetch,
}

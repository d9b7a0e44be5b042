//! What can happen to the updates of an instance.
use crate::Life;
use osb_message::{Answer, Mode};
use osb_update::{Allowed, Settings, UpdateOutcome};

/// What can happen to the updates of an instance, on both sides and between them (this project's choice). If the text
/// below says "applies" and that isn't so, the event changes nothing.
///
/// Whatever was sent may arrive at any time, in any order and any number of times, or never. So may whatever was
/// answered.
#[derive(Clone, Copy, Debug, PartialEq, Eq)]
pub enum UpdatesEvent {
    /// The platform sends an Update to these settings ([`UpdateRecord::update`](osb_update::UpdateRecord::update)). It
    /// applies if the instance is recorded `ready`, no request is out, the state isn't `polling`, and there is a
    /// number.
    Update {
        /// The settings.
        to: Settings,
    },
    /// The platform sends the request that is due ([`UpdateRecord::send`](osb_update::UpdateRecord::send)). It applies
    /// if the instance is recorded `ready`, no request is out, one is due, and there is a number.
    Send,
    /// The platform sends a Fetch ([`UpdateRecord::fetch`](osb_update::UpdateRecord::fetch)). It applies if the
    /// instance is recorded `ready`, no request is out, the update isn't settled and isn't polled, and there is a
    /// number.
    Fetch,
    /// The platform stops the update. It applies as [`UpdateRecord::stop`](osb_update::UpdateRecord::stop).
    Stop,
    /// The platform gives up the request that is out. It applies if one is.
    Timeout,
    /// The platform takes an answer that was given. It applies if it is to the request that is out.
    Take {
        /// Its place among all that were given.
        at: usize,
    },
    /// The platform takes an answer that may be another's than the broker's, such as a gateway's, or garbled: its body
    /// can't be read, its status is 500 or greater, or it is one that gateways, proxies and servers answer of
    /// themselves. It applies if it is one and a request is out.
    TakeAnothers {
        /// The answer.
        answer: Answer,
    },
    /// A request that was sent arrives at the broker. It applies if there is one at that place; if it is a Poll, the
    /// instance has to be available too: otherwise the instance's own table answers, and nobody waits for that.
    Arrive {
        /// Its place among all that were sent.
        at: usize,
        /// What the catalogue has for it, if it is an Update: anything, at any time.
        allowed: Allowed,
        /// Whether it accepts an asynchronous operation, if it is an Update.
        accepts: bool,
    },
    /// A request that was sent arrives, and the broker puts it off for a reason of its own: 422 `ConcurrencyError`. It
    /// applies if there is one at that place.
    PutOff {
        /// Its place among all that were sent.
        at: usize,
    },
    /// The pending work of an Update ends so, and the Update is answered. It applies if work is pending, and may have
    /// left the settings that the resource has (an assumption).
    End {
        /// How the update is done.
        mode: Mode,
        /// How its work ends.
        outcome: UpdateOutcome,
    },
    /// The operation of an update ends. It applies if one runs, and has brought about its settings if it succeeds.
    Finish {
        /// Whether it succeeds.
        ok: bool,
    },
    /// The settings become these by the work or the operation of an update. It applies while an update is under way.
    Work {
        /// The settings, or none while they are between.
        settings: Option<Settings>,
    },
    /// The broker crashes and starts again, or reports that nobody knows how the work goes on: the Update whose work is
    /// pending isn't answered by it any more. It always applies. What a broker holds is in its database, and what a
    /// platform records is in its own: so a crash of the platform is no event, and what was out is given up by a
    /// [`UpdatesEvent::Timeout`].
    Crash,
    /// The instance itself goes on: this is recorded and held of it then. It applies if both sides agree on it, it
    /// isn't removed while a request of an update is out, and nothing of it begins while an update is under way. If it
    /// is available then, its resource has to have the settings of a settled row (an assumption).
    Live {
        /// What is seen of it then.
        life: Life,
        /// The settings that its own work has left. They count only if it wasn't available before.
        settings: Option<Settings>,
    },
}

//! What a driver of an instance's updates does next: pure decisions over the row that its transaction reads.
ghost use Rattle.std.specs.Prelude.{◌≡◌, Some, true};
ghost use Rattle.osb_update_platform_driver.specs.Driver as spec;

use osb_instance::Record;
use osb_update::{Settings, UpdateKind, UpdateRecord, UpdateSent};
use osb_update_sides::Said;

/// A request of an update that a program wishes to send (this project's choice, and so is all of this crate).
#[derive(Clone, Copy, Debug, PartialEq, Eq)]
pub enum UpdateWish {
    /// An Update to these settings: [`UpdateRecord::update`].
    Update {
        /// The settings.
        to: Settings,
    },
    /// The request that is due: [`UpdateRecord::send`].
    Send,
    /// A Fetch: [`UpdateRecord::fetch`].
    Fetch,
}

/// What the program wishes of the updates of an instance. A driver does only what the row allows.
#[derive(Clone, Copy, Debug, PartialEq, Eq)]
pub struct PlatformUpdateWishes {
    /// To stop the update: [`UpdateRecord::stop`].
    pub stop: bool,
    /// To send a request, once the update is stopped, if that is wished too.
    pub request: Option<UpdateWish>,
}

/// Where a driver stands: the one action that the program around it carries out next.
#[derive(Clone, Copy, Debug, PartialEq, Eq)]
pub enum PlatformUpdateStage {
    /// Run the first transaction: [`PlatformUpdateDriver::claim`].
    Claim,
    /// Send the request, and wait for its answer.
    Send {
        /// The request, and its attempt.
        sent: UpdateSent,
    },
    /// Run the last transaction: [`PlatformUpdateDriver::take`].
    Take {
        /// The attempt.
        attempt: u64,
        /// The answer; none if none came, or none that is surely the broker's.
        said: Option<Said>,
    },
    /// Run the last transaction, since nobody knows whether the first one was committed:
    /// [`PlatformUpdateDriver::resume`].
    Unsure {
        /// The attempt.
        attempt: u64,
    },
    /// Nothing is left to do.
    Done,
}

/// What a transaction writes, and what follows. The record of the instance itself stays.
#[derive(Clone, Copy, Debug, PartialEq, Eq)]
pub struct PlatformUpdateTransaction {
    /// What to write of the updates; none if no Update was ever sent.
    pub change: Option<UpdateRecord>,
    /// Whether the number of the driver becomes that of the row.
    pub takes_over: bool,
    /// The stage once the commit has returned.
    pub stage: PlatformUpdateStage,
    /// The stage if nobody knows whether it was committed.
    pub unsure: PlatformUpdateStage,
    /// The stage if it wasn't committed.
    pub failed: PlatformUpdateStage,
}

/// The way of one request of an update at a platform.
#[derive(Clone, Copy, Debug, PartialEq, Eq)]
pub struct PlatformUpdateDriver {
    /// Where the driver stands.
    pub stage: PlatformUpdateStage,
}

/// Returns whether the instance may be cleaned up or removed: no request of an update is in flight. `change` is what
/// the row of the instance has of its updates, or `None` if no Update was ever sent. Ask this in the transaction that
/// runs the instance's own driver. If it returns false, pass that driver no wish to clean up, and try again later. The
/// next [`PlatformUpdateDriver::claim`] gives up a request that a crash has left in flight, whatever is wished. It
/// takes no memory.
pub fn may_remove(change: &Option<UpdateRecord>) -> bool
    ensures may { result ≡ spec.may_remove change.now }
{
    match change {
        Some(change) => change.out.is_none(),
        None => true,
    }
}

// Whether a request of an update may be sent: the instance is recorded ready, and no request of the instance itself is
// in flight.
fn may_ask(instance: Record) -> bool
    ensures may { result ≡ spec.may_ask (Some instance) }
{
    instance.is_ready() && instance.row().out.is_none()
}

// The record once what a crash has left in flight is given up.
fn brought_up(change: &UpdateRecord) -> UpdateRecord
    ensures up { result ≡ spec.brought_up change.now }
{
    match change.timeout(change.attempt) {
        Ok(after) => after,
        Err(_) => *change,
    }
}

// The record once the update is stopped, if that is wished and the record allows it.
fn stopped(change: &UpdateRecord, stop: bool) -> UpdateRecord
    ensures stopped { result ≡ spec.stopped_if stop change.now }
{
    if !stop {
        return *change;
    }
    match change.stop() {
        Ok(after) => after,
        Err(_) => *change,
    }
}

// The record with an Update in flight, and the request; none if the record doesn't allow it.
fn updated(
    instance: Record,
    change: &UpdateRecord,
    to: &Settings,
) -> Option<(UpdateRecord, UpdateSent)>
    requires { spec.may_ask (Some instance) ≡ true }
    ensures updated { result ≡ spec.requested (Some instance) (UpdateWish.Update to.now) change.now }
{
    match change.update(instance, to) {
        Ok(after) => Some(after),
        Err(_) => None,
    }
}

// The record with the request that is wished in flight, and the request; none if the records don't allow it.
fn requested(
    instance: Option<Record>,
    change: &UpdateRecord,
    wish: &UpdateWish,
) -> Option<(UpdateRecord, UpdateSent)>
    ensures requested { result ≡ spec.requested instance wish.now change.now }
{
    let instance = instance?;
    if !may_ask(instance) {
        return None;
    }
    let after = match wish {
        UpdateWish::Update { to } => return updated(instance, change, to),
        UpdateWish::Send => change.send(),
        UpdateWish::Fetch => change.fetch(),
    };
    match after {
        Ok(after) => Some(after),
        Err(_) => None,
    }
}

// A transaction after which nothing is sent.
fn resting(change: &Option<UpdateRecord>) -> PlatformUpdateTransaction
    ensures tx { result ≡ spec.resting change.now }
{
    PlatformUpdateTransaction {
        change: *change,
        takes_over: false,
        stage: PlatformUpdateStage::Done,
        unsure: PlatformUpdateStage::Done,
        failed: PlatformUpdateStage::Done,
    }
}

// A request is in flight, and the row has the driver's number. If nobody knows whether that was written, nothing is
// sent.
fn claimed(change: &UpdateRecord, sent: &UpdateSent) -> PlatformUpdateTransaction
    ensures tx { result ≡ spec.claimed change.now sent.now }
{
    let number = sent.attempt;
    PlatformUpdateTransaction {
        change: Some(*change),
        takes_over: true,
        stage: PlatformUpdateStage::Send { sent: *sent },
        unsure: PlatformUpdateStage::Unsure { attempt: number },
        failed: PlatformUpdateStage::Done,
    }
}

// The request that is wished is in flight, if one is and the record allows it. Otherwise `rest` is written.
fn asked(
    instance: Option<Record>,
    change: &UpdateRecord,
    wish: &Option<UpdateWish>,
    rest: &Option<UpdateRecord>,
) -> PlatformUpdateTransaction
    ensures tx { result ≡ spec.asked instance wish.now change.now rest.now }
{
    match wish {
        None => resting(rest),
        Some(wish) => match requested(instance, change, wish) {
            Some((after, sent)) => claimed(&after, &sent),
            None => resting(rest),
        },
    }
}

// The record after the answer, if the request of the attempt is in flight.
fn said_to(change: &UpdateRecord, attempt: u64, said: &Said) -> UpdateRecord
    ensures after { result ≡ spec.taken attempt (Some said.now) change.now }
{
    let after = match (change.out, said) {
        (Some(UpdateKind::Fetch), Said::Found(settings, number)) => {
            change.fetched(attempt, Some((*settings, *number)))
        }
        (Some(UpdateKind::Fetch), Said::Answer(_)) => change.fetched(attempt, None),
        (_, Said::Answer(answer)) => change.answer(attempt, *answer),
        (_, Said::Found(_, _)) => change.timeout(attempt),
    };
    match after {
        Ok(after) => after,
        Err(_) => *change,
    }
}

// The record after the answer, or after a timeout if there is none, if the request of the attempt is in flight.
fn taken(change: &UpdateRecord, attempt: u64, said: &Option<Said>) -> UpdateRecord
    ensures after { result ≡ spec.taken attempt said.now change.now }
{
    let Some(said) = said else {
        return match change.timeout(attempt) {
            Ok(after) => after,
            Err(_) => *change,
        };
    };
    said_to(change, attempt, said)
}

// The stage of a driver that runs its last transaction.
fn taking(attempt: u64, said: &Option<Said>) -> PlatformUpdateStage
    ensures stage { result ≡ PlatformUpdateStage.Take attempt said.now }
{
    PlatformUpdateStage::Take {
        attempt,
        said: *said,
    }
}

impl PlatformUpdateDriver {
    /// Returns a driver that has done nothing yet.
    pub fn new() -> PlatformUpdateDriver
        ensures driver { result ≡ spec.new_driver }
    {
        PlatformUpdateDriver {
            stage: PlatformUpdateStage::Claim,
        }
    }

    /// Returns the first transaction, by what it reads and locks: the record of the instance, and what the row has of
    /// its updates (`None` if no Update was ever sent). A request of an update in flight is given up, since its sender
    /// is gone. Then the wishes are fulfilled that the records allow: to stop the update, and to send a request. A
    /// request is sent only if the instance is recorded ready and no request of the instance itself is in flight. So
    /// once the instance is to be removed, what is recorded of its updates counts no more. `first` has the settings of
    /// the instance's Provision. It takes no memory.
    pub fn claim(
        instance: Option<Record>,
        change: &Option<UpdateRecord>,
        wishes: &PlatformUpdateWishes,
        first: &Settings,
    ) -> PlatformUpdateTransaction
        ensures tx { result ≡ spec.claim wishes.now first.now instance change.now }
    {
        let Some(change) = change else {
            return asked(instance, &UpdateRecord::new(*first), &wishes.request, &None);
        };
        let change = stopped(&brought_up(change), wishes.stop);
        let rest = Some(change);
        asked(instance, &change, &wishes.request, &rest)
    }

    /// Returns the driver whose request was answered, or with `None` whose answer was lost: none came in time, or none
    /// that is surely the broker's to this request. At any other stage, nothing changes. It takes no memory.
    pub fn answered(&self, said: &Option<Said>) -> PlatformUpdateDriver
        ensures driver { result ≡ spec.answered said.now self.now }
    {
        match &self.stage {
            PlatformUpdateStage::Send { sent } => PlatformUpdateDriver {
                stage: taking(sent.attempt, said),
            },
            _ => *self,
        }
    }

    /// Returns the last transaction, by what it reads of the updates: the answer to the request of the attempt is
    /// taken, or the request is given up. If that request isn't in flight any more, nothing is written. If the
    /// transaction fails, or nobody knows whether it was committed, it is tried again. It takes no memory.
    pub fn take(
        change: &Option<UpdateRecord>,
        attempt: u64,
        said: &Option<Said>,
    ) -> PlatformUpdateTransaction
        ensures tx { result ≡ spec.take attempt said.now change.now }
    {
        let change = match change {
            None => None,
            Some(change) => Some(taken(change, attempt, said)),
        };
        PlatformUpdateTransaction {
            change,
            takes_over: false,
            stage: PlatformUpdateStage::Done,
            unsure: taking(attempt, said),
            failed: taking(attempt, said),
        }
    }

    /// Returns the last transaction of a driver that doesn't know whether its first one was committed, by what it reads
    /// of the updates. If the row has the driver's number (`is_owner`), the request of the attempt is given up: it
    /// wasn't sent. Otherwise nothing is written: a request of this attempt is another driver's. If the transaction
    /// fails, or nobody knows whether it was committed, it is tried again. It takes no memory.
    pub fn resume(
        change: &Option<UpdateRecord>,
        is_owner: bool,
        attempt: u64,
    ) -> PlatformUpdateTransaction
        ensures tx { result ≡ spec.resume is_owner attempt change.now }
    {
        let change = match change {
            Some(change) if is_owner => Some(taken(change, attempt, &None)),
            change => *change,
        };
        PlatformUpdateTransaction {
            change,
            takes_over: false,
            stage: PlatformUpdateStage::Done,
            unsure: PlatformUpdateStage::Unsure { attempt },
            failed: PlatformUpdateStage::Unsure { attempt },
        }
    }
}

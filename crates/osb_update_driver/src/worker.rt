//! What the worker of an update does next, and what it reports: by the settings that the resource has in the end, and
//! by nothing else.
ghost use Rattle.std.specs.Prelude.{◌≡◌};
ghost use Rattle.osb_update_driver.specs.Worker as spec;
ghost use Rattle.osb_update_driver.specs.Worker.{IsTruthful};

use osb_instance::Rejection;
use osb_update::{Settings, UpdateOutcome};

/// A call of the backend (this project's choice, and so is all of this file).
#[derive(Clone, Copy, Debug, PartialEq, Eq)]
pub enum UpdateCall {
    /// Return which settings the resource has.
    Look,
    /// Write to disk what the resource is.
    Sync,
    /// Change the settings to those of the update.
    Update,
}

/// Which settings a look has found.
#[derive(Clone, Copy, Debug, PartialEq, Eq)]
pub enum Seen {
    /// The resource is complete, and has these settings.
    Has(Settings),
    /// The resource is absent, or its settings are between.
    Part,
}

/// One of the looks of a worker.
#[derive(Clone, Copy, Debug, PartialEq, Eq)]
pub enum UpdateLook {
    /// Before anything is done.
    First,
    /// Since the settings are as they should be, once that is on disk.
    Again,
    /// After the update was tried.
    Tried,
}

/// Where a worker stands.
#[derive(Clone, Copy, Debug, PartialEq, Eq)]
pub enum UpdateWorkerStage {
    /// It looks.
    Look(UpdateLook),
    /// It writes to disk what the resource is, before this look.
    Sync(UpdateLook),
    /// It changes the settings.
    Try,
    /// It knows how the work ended.
    Ended(UpdateOutcome),
    /// Nobody knows how the work ended.
    Unknown,
}

/// A worker of the update of a resource, under the lock.
#[derive(Clone, Copy, Debug, PartialEq, Eq)]
pub struct UpdateWorker {
    /// The settings that the update is to.
    pub to: Settings,
    /// The settings of the row; none if an update before has failed, since nobody knows them then.
    pub before: Option<Settings>,
    /// With which status the backend has rejected the update.
    pub rejection: Option<Rejection>,
    /// Where it stands.
    pub stage: UpdateWorkerStage,
}

// Whether these settings were found.
fn is_seen(seen: &Seen, settings: &Settings) -> bool
    ensures seen { result ≡ spec.is_seen seen.now settings.now }
{
    match seen {
        Seen::Has(has) => has.is_same(settings),
        Seen::Part => false,
    }
}

// Whether the settings of before were found.
fn is_unchanged(seen: &Seen, before: &Option<Settings>) -> bool
    ensures unchanged { result ≡ spec.is_unchanged seen.now before.now }
{
    match before {
        Some(settings) => is_seen(seen, settings),
        None => false,
    }
}

// How work ended that was tried, and hasn't brought about its settings.
fn undone(unchanged: bool, rejection: Option<Rejection>) -> UpdateOutcome
    ensures outcome { result ≡ spec.undone unchanged rejection }
{
    match rejection {
        _ if !unchanged => UpdateOutcome::Failed,
        Some(rejection) => UpdateOutcome::Refused(rejection),
        None => UpdateOutcome::Before,
    }
}

// The stage after a look: `done`, it has found the settings of the update; `unchanged`, those of before.
fn found(
    look: UpdateLook,
    done: bool,
    unchanged: bool,
    rejection: Option<Rejection>,
) -> UpdateWorkerStage
    ensures stage { result ≡ spec.found look done unchanged rejection }
{
    match look {
        UpdateLook::First if done => UpdateWorkerStage::Sync(UpdateLook::Again),
        UpdateLook::Again | UpdateLook::Tried if done => {
            UpdateWorkerStage::Ended(UpdateOutcome::Done)
        }
        UpdateLook::First | UpdateLook::Again => UpdateWorkerStage::Try,
        UpdateLook::Tried => UpdateWorkerStage::Ended(undone(unchanged, rejection)),
    }
}

impl UpdateWorker {
    /// Returns a worker that has done nothing yet, of an update to the settings `to`. `before` are the settings of the
    /// row, or none if an update before has failed.
    pub fn new(to: &Settings, before: &Option<Settings>) -> UpdateWorker
        ensures worker { result ≡ spec.new_worker to.now before.now }
    {
        UpdateWorker {
            to: *to,
            before: *before,
            rejection: None,
            stage: UpdateWorkerStage::Look(UpdateLook::First),
        }
    }

    // The worker at another stage.
    fn at(&self, stage: UpdateWorkerStage) -> UpdateWorker
        ensures worker { result ≡ spec.at self.now stage }
    {
        UpdateWorker {
            to: self.to,
            before: self.before,
            rejection: self.rejection,
            stage,
        }
    }

    /// Returns the call to make next; none if the work has ended, or if nobody knows how.
    pub fn call(&self) -> Option<UpdateCall>
        ensures call { result ≡ spec.call_of self.now.stage }
    {
        match self.stage {
            UpdateWorkerStage::Look(_) => Some(UpdateCall::Look),
            UpdateWorkerStage::Sync(_) => Some(UpdateCall::Sync),
            UpdateWorkerStage::Try => Some(UpdateCall::Update),
            UpdateWorkerStage::Ended(_) | UpdateWorkerStage::Unknown => None,
        }
    }

    /// Returns the worker once a look has found this. A look ends the work only with an outcome that is true of what it
    /// has found, however the update is done. Settings between are reported as [`UpdateOutcome::Failed`]. At a stage
    /// without a look, nothing changes.
    pub fn looked(&self, seen: &Seen) -> UpdateWorker
        ensures worker { result ≡ spec.looked self.now seen.now }
        ensures truthful { IsTruthful self.now seen.now result.stage }
    {
        match self.stage {
            UpdateWorkerStage::Look(look) => {
                let done = is_seen(seen, &self.to);
                let unchanged = is_unchanged(seen, &self.before);
                self.at(found(look, done, unchanged, self.rejection))
            }
            stage => self.at(stage),
        }
    }

    /// Returns the worker once what the resource is is on disk. At a stage without a sync, nothing changes.
    pub fn synced(&self) -> UpdateWorker
        ensures worker { result ≡ spec.synced self.now }
    {
        match self.stage {
            UpdateWorkerStage::Sync(look) => self.at(UpdateWorkerStage::Look(look)),
            stage => self.at(stage),
        }
    }

    /// Returns the worker once its update has returned: it has failed if `ok` is false, and what it did may not be on
    /// disk. `rejection` says with which status the backend has rejected it. At any other stage, nothing changes.
    pub fn called(&self, ok: bool, rejection: Option<Rejection>) -> UpdateWorker
        ensures worker { result ≡ spec.called self.now ok rejection }
    {
        match self.stage {
            UpdateWorkerStage::Try if ok => self.at(UpdateWorkerStage::Look(UpdateLook::Tried)),
            UpdateWorkerStage::Try => UpdateWorker {
                to: self.to,
                before: self.before,
                rejection,
                stage: UpdateWorkerStage::Sync(UpdateLook::Tried),
            },
            stage => self.at(stage),
        }
    }

    /// Returns the worker whose look or sync has failed: nobody knows how the work ended. If the work has ended,
    /// nothing changes.
    pub fn lost(&self) -> UpdateWorker
        ensures worker { result ≡ spec.lost self.now }
    {
        match self.stage {
            UpdateWorkerStage::Ended(outcome) => self.at(UpdateWorkerStage::Ended(outcome)),
            _ => self.at(UpdateWorkerStage::Unknown),
        }
    }
}

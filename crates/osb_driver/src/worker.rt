//! What a worker does next, and what it reports: by what exists in the end, and by nothing else.
ghost use Rattle.std.specs.Prelude.{◌≡◌};
ghost use Rattle.osb_driver.specs.Worker as spec;
ghost use Rattle.osb_driver.specs.Worker.{IsTruthful};

use osb_instance::{Rejection, WorkOutcome};
use osb_network::Resource;

/// A call of the backend (this project's choice, and so is all of this file).
#[derive(Clone, Copy, Debug, PartialEq, Eq)]
pub enum Call {
    /// Return what exists.
    Look,
    /// Write to disk what exists.
    Sync,
    /// Create the resource.
    Create,
    /// Delete the resource.
    Delete,
}

/// One of the looks of a worker.
#[derive(Clone, Copy, Debug, PartialEq, Eq)]
pub enum Look {
    /// Before anything is done.
    First,
    /// Since all is as it should be, once that is on disk.
    Again,
    /// After the work was tried.
    Tried,
    /// After a part was deleted.
    Undone,
}

/// Where a worker stands.
#[derive(Clone, Copy, Debug, PartialEq, Eq)]
pub enum WorkerStage {
    /// It looks.
    Look {
        /// Which look it is.
        look: Look,
    },
    /// It writes to disk what exists, before this look.
    Sync {
        /// The look that follows.
        look: Look,
    },
    /// It creates or deletes.
    Try,
    /// It deletes a part of what it created.
    Undo,
    /// It knows how the work ended.
    Ended {
        /// How it ended.
        outcome: WorkOutcome,
    },
    /// Nobody knows how the work ended.
    Unknown,
}

/// A worker of one creation or one deletion, under the lock.
#[derive(Clone, Copy, Debug, PartialEq, Eq)]
pub struct Worker {
    /// Whether it creates the resource. Otherwise, it deletes it.
    pub creates: bool,
    /// With which status the backend has rejected the creation.
    pub rejection: Option<Rejection>,
    /// Where it stands.
    pub stage: WorkerStage,
}

// How a creation ended after which nothing exists.
fn nothing_made(rejection: Option<Rejection>) -> WorkOutcome
    ensures outcome { result ≡ spec.nothing_made rejection }
{
    match rejection {
        Some(rejection) => WorkOutcome::Refused(rejection),
        None => WorkOutcome::Before,
    }
}

// The stage of a worker that creates, by what a look has found.
fn creation(look: Look, there: Resource, rejection: Option<Rejection>) -> WorkerStage
    ensures stage { result ≡ spec.creation look there rejection }
{
    match (look, there) {
        (Look::First, Resource::Whole) => WorkerStage::Sync { look: Look::Again },
        (Look::First, _) => WorkerStage::Try,
        (_, Resource::Whole) => WorkerStage::Ended {
            outcome: WorkOutcome::Done,
        },
        (Look::Again, _) => WorkerStage::Try,
        (_, Resource::Absent) => {
            let outcome = nothing_made(rejection);
            WorkerStage::Ended { outcome }
        }
        (Look::Tried, Resource::Part) => WorkerStage::Undo,
        (Look::Undone, Resource::Part) => WorkerStage::Unknown,
    }
}

// The stage of a worker that deletes, by what a look has found.
fn deletion(look: Look, there: Resource) -> WorkerStage
    ensures stage { result ≡ spec.deletion look there }
{
    match (look, there) {
        (Look::First, Resource::Absent) => WorkerStage::Sync { look: Look::Again },
        (Look::First, _) => WorkerStage::Try,
        (_, Resource::Absent) => WorkerStage::Ended {
            outcome: WorkOutcome::Done,
        },
        (Look::Again, _) => WorkerStage::Try,
        (_, Resource::Whole) => WorkerStage::Ended {
            outcome: WorkOutcome::Before,
        },
        (_, Resource::Part) => WorkerStage::Unknown,
    }
}

impl Worker {
    /// Returns a worker that has done nothing yet, of a creation or of a deletion.
    pub fn new(creates: bool) -> Worker
        ensures worker { result ≡ spec.new_worker creates }
    {
        Worker {
            creates,
            rejection: None,
            stage: WorkerStage::Look { look: Look::First },
        }
    }

    /// Returns the call to make next; none if the work has ended, or if nobody knows how.
    pub fn call(&self) -> Option<Call>
        ensures call { result ≡ spec.call_of self.now.creates self.now.stage }
    {
        match self.stage {
            WorkerStage::Look { .. } => Some(Call::Look),
            WorkerStage::Sync { .. } => Some(Call::Sync),
            WorkerStage::Try if self.creates => Some(Call::Create),
            WorkerStage::Try | WorkerStage::Undo => Some(Call::Delete),
            WorkerStage::Ended { .. } | WorkerStage::Unknown => None,
        }
    }

    /// Returns the worker once a look has found this. A look ends the work only with an outcome that is true of what it
    /// has found: for any mode, also for a broker alone, and for an operation. A part is no outcome. At a stage without a
    /// look, nothing changes.
    pub fn looked(self, there: Resource) -> Worker
        ensures worker { result ≡ spec.looked self there }
        ensures truthful { IsTruthful self there result.stage }
    {
        let WorkerStage::Look { look } = self.stage else {
            return self;
        };
        let stage = if self.creates {
            creation(look, there, self.rejection)
        } else {
            deletion(look, there)
        };
        Worker { stage, ..self }
    }

    /// Returns the worker once what exists is on disk. At a stage without a sync, nothing changes.
    pub fn synced(self) -> Worker
        ensures worker { result ≡ spec.synced self }
    {
        let WorkerStage::Sync { look } = self.stage else {
            return self;
        };
        Worker {
            stage: WorkerStage::Look { look },
            ..self
        }
    }

    /// Returns the worker once its creation or deletion has returned: it has failed if `ok` is false, and what it did may
    /// not be on disk. `rejection` says with which status the backend has rejected a creation. At any other stage, nothing
    /// changes.
    pub fn called(self, ok: bool, rejection: Option<Rejection>) -> Worker
        ensures worker { result ≡ spec.called self ok rejection }
    {
        let (look, rejection) = match self.stage {
            WorkerStage::Try if ok || !self.creates => (Look::Tried, self.rejection),
            WorkerStage::Try => (Look::Tried, rejection),
            WorkerStage::Undo => (Look::Undone, self.rejection),
            _ => return self,
        };
        let stage = if ok {
            WorkerStage::Look { look }
        } else {
            WorkerStage::Sync { look }
        };
        Worker {
            rejection,
            stage,
            ..self
        }
    }

    /// Returns the worker whose look or sync has failed: nobody knows how the work ended. If the work has ended, nothing
    /// changes.
    pub fn lost(self) -> Worker
        ensures worker { result ≡ spec.lost self }
    {
        match self.stage {
            WorkerStage::Ended { .. } => self,
            _ => Worker {
                stage: WorkerStage::Unknown,
                ..self
            },
        }
    }
}

//! What can happen to a worker and the resource in its backend: the words of `specs/Backend.antt`.
ghost use Rattle.osb_driver.specs.Backend.{EndsTruly};

use osb_instance::Rejection;
use osb_network::Resource;

/// What can happen while a worker creates or deletes a resource, under the lock. One that can't happen at the worker's
/// stage changes nothing (this project's choice, and so is all of this file).
#[derive(Clone, Copy, Debug, PartialEq, Eq)]
pub enum BackendEvent {
    /// A creation or a deletion that was begun changes what exists: the worker waits for it, or it has failed and goes on.
    Change {
        /// What exists then.
        there: Resource,
    },
    /// The creation or the deletion for which the worker waits returns. Once it has succeeded, what exists is on disk.
    Return {
        /// Whether it has succeeded.
        ok: bool,
        /// With which status the backend has rejected it.
        rejection: Option<Rejection>,
        /// Whether it has failed and goes on all the same.
        goes_on: bool,
    },
    /// What goes on has ended. A look and a sync wait for that.
    Rest,
    /// The look of the worker returns what exists.
    Look,
    /// The sync of the worker returns: what exists is on disk.
    Sync,
    /// The look or the sync of the worker fails.
    Fail,
    /// The worker's process is killed, and another worker begins. What it called goes on.
    Kill,
    /// The power is cut, and another worker begins.
    PowerCut {
        /// What exists then: what was on disk, what existed, or something between.
        there: Resource,
    },
}

/// Does nothing: its contract is what is proved of the world of `specs/Backend.antt`. An outcome that a worker reports is
/// true of what exists and of what is on disk, and nothing goes on that could change either, however calls fail and
/// whatever an earlier worker has left.
pub fn ends_truly()
    ensures truly { EndsTruly }
{}

//! One service instance with its bindings and its updates, between both sides, over a network that keeps nothing in
//! order and loses nothing for good.
//!
//! An [`UpdatedInstance`] has a [`ServiceInstance`](osb_binding_network::ServiceInstance), which is an instance with
//! its bindings, and its [`Updates`](osb_update_sides::Updates). What the updates see of the instance is the instance
//! itself. [`UpdatedInstance::step`] lets an [`UpdatedEvent`] happen, and [`run`] goes through a list of them. Whatever
//! happens (`UpdatedAgrees`, in `specs/Agreement.antt`):
//!
//! 1. If the platform records the instance `ready` and its updates settled, the instance is there, complete. The broker
//!    holds it, `ready`, with the recorded settings, and nothing of it is pending or runs. The resource has exactly
//!    these settings.
//! 2. The instance and its bindings agree as without updates. Each event of theirs is one of the events of
//!    `osb_binding_network`, or none, and an event of the updates leaves both as they are (`IsUpdatedStep`, in
//!    `specs/Steps.antt`). So no Update, and no answer to one, makes the platform delete anything.
//!
//! Two rules tie the updates to the instance (`let_instance`). Rule *r* is the platform's: an instance isn't removed
//! while a request of an update is out. Rule *d* is the broker's: nothing of an instance begins while an update is
//! under way. Rules *u* and the rest of *r* are those of `osb_update`: the work of an Update begins only of an instance
//! that is available, and an Update is sent only while the instance is recorded `ready`.
//!
//! One assumption is added to those of both crates: if the instance becomes available by its own work, its resource has
//! the settings of a settled row. These are those of its Provision after a creation, and those of before after a
//! deletion that has changed nothing. All of this is this project's choice: the standard says nothing of a network, of
//! work or of crashes.
#![tactic(auto)]

mod event;
mod rules;
mod updated;

pub use event::UpdatedEvent;
pub use updated::{UpdatedInstance, run};

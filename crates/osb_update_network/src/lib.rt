//! The updates of one service instance over a network. Here: at a broker alone, whatever platform it serves.
//!
//! An [`AnyPlatform`] has an instance as [`AnyPlatform`](osb_network::AnyPlatform) of `osb_network` has it, and beside it
//! what the broker holds of its updates, an [`UpdateHolding`](osb_update::UpdateHolding), the settings that the resource
//! has, and what the broker has [`Reported`] of them. [`AnyPlatform::step`] lets an [`UpdateEvent`] happen, and [`run_any`]
//! goes through a list of them. Any requests and any Updates arrive, with numbers or without, at any time, in any order and
//! any number of times. Work takes its time, and the broker crashes.
//!
//! Whatever happens, a broker keeps these promises to any platform (`specs/Promises.antt`):
//!
//! 1. If the broker has reported that an instance has some settings, the resource is complete and has exactly these
//!    settings, until a Deprovision arrives or the work of another Update begins (`IsAsReported` and `StaysReported`). The broker
//!    reports settings by 200 to an Update, by 200 or 201 to a Provision, by `succeeded` to a Poll after a 202 to either, and
//!    by 200 to a Fetch. The resource of an available instance has the settings of the row, unless the row says that an
//!    update is under way or has failed (`IsWhole`).
//! 2. If the broker answers an Update with 4xx, the settings of the resource are those of before, and what was reported
//!    before counts (`RejectsTruly`).
//! 3. An Update never creates or deletes an instance. An event of an update leaves the instance, its resource and what was
//!    reported of it as they are, and every other event is one of the events of `osb_network`, or none (`IsStepOf`). So the
//!    promises about *ready*, *gone* and the first Poll hold as they are. While an update is under way, the broker holds the
//!    instance, its row is `ready`, and its resource is complete (`IsThere`).
//!
//! Work or an operation of the instance and work or an operation of an update are never there together (`IsOneAtATime`).
//! So one number of the work and one lock serve both.
//!
//! Two rules of the broker bring this about. The first is rule *u*: the work of an Update begins only while the instance is
//! available ([`UpdateHolding::begin`](osb_update::UpdateHolding::begin)). The second is rule *d*: while an update is under
//! way, nothing of the instance begins ([`UpdateHolding::begin_instance`](osb_update::UpdateHolding::begin_instance), and
//! `KeepsRuleD`). Three more rules make the reports true: a Provision is compared with the settings of the row, a Poll of an
//! instance that is available is answered by the update, and no two updates are under way at once.
//!
//! A broker may put off any request of the instance, and any Update, for a reason of its own, such as a binding of the
//! instance. It may read a Poll or a Deprovision as naming the plan of the row. Neither changes what is promised.
//!
//! The events are defined so that they satisfy these assumptions: a creation that is reported complete has brought about
//! the settings that were asked for, work of an update that is reported as done has brought about its settings, work that
//! is reported to have changed nothing has left those of before, and an update creates and deletes nothing.
//!
//! What the broker answers is that of the tables of its crates, by the Open Service Broker API Specification 2.17. The rest
//! is this project's choice: the standard says nothing of a network, of work or of crashes.
#![tactic(auto)]

mod any_platform;
mod event;
mod parts;
mod reported;
mod truth;

pub use any_platform::{AnyPlatform, run_any};
pub use event::UpdateEvent;
pub use reported::Reported;

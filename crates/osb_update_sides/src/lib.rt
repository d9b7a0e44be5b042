//! The updates of one service instance between both sides, over a network that keeps nothing in order and loses nothing
//! for good.
//!
//! An [`Updates`] has what the platform records of the updates of an instance, an
//! [`UpdateRecord`](osb_update::UpdateRecord), and what the broker holds of them, an
//! [`UpdateHolding`](osb_update::UpdateHolding). It has the settings of the resource, every Update, Poll and Fetch that
//! was ever sent, and every answer ever given. [`Updates::step`] lets an [`UpdatesEvent`] happen, and [`run`] goes
//! through a list of them. Whatever was sent may arrive at any time, in any order and any number of times, or never,
//! and so may every answer. Work takes its time, and both sides crash.
//!
//! Whatever happens, if the platform records the instance `ready` and its updates settled, the broker holds the
//! instance, settled, with the recorded settings, and the resource has exactly these (`AgreesOnSettings`, in
//! `specs/Agreement.antt`). No Update that was ever sent can begin anything any more.
//!
//! Of the instance itself its updates see a [`Life`]: what is recorded and what is held of it. How it goes on is an
//! event, [`UpdatesEvent::Live`], which applies only if both sides agree on the instance and keep the rules that tie it
//! to its updates. `osb_update_service` ties the updates to the instance, and lets it go on by its own events.
//!
//! What brings this about (`specs/Possible.antt`): an Update has a number, and once the broker has judged the latest,
//! nothing begins any more. So what is under way ends, and every answer that was given stays true. A rejection is
//! believed only if no Update to other settings may have been done, and what a Fetch reports only with the latest
//! number.
//!
//! The events are defined so that they satisfy the assumptions on a backend: work of an update that is reported as done
//! has brought about its settings, and work that is reported to have changed nothing has left those of before. All of
//! this is this project's choice: the standard says nothing of numbers, of a network, of work or of crashes.
#![tactic(auto)]

mod asked;
mod event;
mod given;
mod life;
mod parts;
mod truth;
mod updates;

pub use asked::{Asked, UpdateAsked};
pub use event::UpdatesEvent;
pub use given::{Said, UpdateGiven};
pub use life::Life;
pub use updates::{Updates, run};

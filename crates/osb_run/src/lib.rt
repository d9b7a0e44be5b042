//! What the lines of a schedule do to a platform and a broker, one after another.
//!
//! A [`Run`] takes the lines that `osb_lines` gives it: its plan lines make a catalogue, and from the first event on
//! there is a [`World`](osb_world::World) with it, in which the events happen. [`Run::cell`] is what there is of an
//! instance then, and [`Run::end`] what all lines have left, in [`Ended`].
//!
//! ```
//! let mut run = Run::new(rt.alloc());
//! let step = run.take_event(Event::Send { id: InstanceId::from_value(1) })?;
//! assert_eq!(rt; step, Step::Skipped);
//! assert_eq!(rt; run.cell(InstanceId::from_value(1)).platform, None);
//! ```
//!
//! All of it is this project's choice.
#![tactic(auto)]

mod run;

pub use run::{Ended, Run};

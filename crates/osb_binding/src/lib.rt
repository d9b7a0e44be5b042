//! One service binding as a value: what a platform records of it, and what a broker holds of it. For programs that keep
//! them in a database, a row for each binding.
//!
//! A binding is one more life of the kind that an instance has: Bind stands for Provision, Unbind for Deprovision, and
//! the Poll of a binding's last operation for Poll. So a [`BindingRecord`] goes on as a
//! [`Record`](osb_instance::Record), and a [`BindingHolding`] as a [`Holding`](osb_instance::Holding), with the same
//! states, phases and tables. Its key in the database is the pair of the instance's id and the binding's.
//!
//! Three rules tie a binding to its instance (this project's choice):
//!
//! 1. A broker begins a Bind only while the instance is there: its row is `ready`, with the service and plan of the
//!    request, and no work is pending ([`BindingHolding::begin`]).
//! 2. A broker begins the deletion of an instance only while it holds none of its bindings ([`begin_instance`]).
//! 3. A platform creates a binding only while it records the instance `ready` ([`BindingRecord::create`]), and removes
//!    an instance only once it records each of its bindings `gone` ([`remove_instance`]).
//!
//! What a rule lets not begin is answered as if work were pending. `osb_binding_network` has the theorem, and
//! docs/binding.md says what to write when. Sections are those of the Open Service Broker API Specification 2.17.
#![tactic(auto)]

mod faults;
mod holding;
mod instance;
mod record;
mod request;

pub use faults::{NotReady, RemoveFault};
pub use holding::BindingHolding;
pub use instance::{begin_instance, remove_instance};
pub use record::{BindingRecord, is_useless};
pub use request::{Binding, BindingId, BindingRequest, BindingSent};

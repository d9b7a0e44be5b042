//! One service instance and its bindings over a network that keeps nothing in order and loses nothing for good.
//!
//! A binding is one more life of the kind that an instance has: Bind for Provision, Unbind for Deprovision. Each life is
//! an [`Instance`](osb_network::Instance) of `osb_network`, and agrees by itself. A [`ServiceInstance`] is an instance
//! with any number of bindings, tied by the [`Rules`] that the two sides keep. Whatever happens:
//!
//! - If either side keeps its rules, an instance that is gone has no bindings, and there is something of a binding only
//!   while the broker holds its instance, `ready`, with no work pending.
//! - If the platform keeps its rules, there is something of a binding only while its instance is there, whole.
//! - If the platform records a binding `ready`, it records the credentials that the resource in the backend has.
//!
//! docs/binding.md has the theorem in words, and docs/premises.md its assumptions. All of this is this project's choice:
//! the standard says nothing about a network, about work or about crashes.
#![tactic(auto)]

mod allowed;
mod binding;
mod binding_parts;
mod event;
mod order;
mod rules;
mod service;

pub use binding::ServiceBinding;
pub use event::{BindingEvent, ServiceEvent};
pub use order::BindingOrder;
pub use rules::Rules;
pub use service::{ServiceInstance, run};

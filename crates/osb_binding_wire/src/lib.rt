//! Requests and answers of service bindings as the bytes of HTTP and JSON, both ways: what one side writes, the other
//! reads. Bind, Unbind, Poll of a binding's last operation, and Fetch of a binding (sections Binding, Unbinding, Polling
//! Last Operation for Service Bindings and Fetching a Service Binding).
//!
//! A platform sends what [`write_binding_request`] and [`write_fetch`] return, and takes what [`read_binding_answer`] and
//! [`read_fetched`] make of the response. [`write_binding_target`] and [`write_binding_body`] write a part of the first.
//! A broker takes what [`read_binding_request`] makes of the request. It answers a Bind with 200 or 201, and a Fetch with
//! 200, by what [`write_binding`] returns, and everything else by [`write_answer`](osb_wire::write_answer).
//!
//! A binding is one more life of the kind that an instance has: Bind stands for Provision, Unbind for Deprovision. So a
//! request is an [`Asked`](osb_wire::Asked) under the binding's id, beside the id of the instance. Ids are texts, and
//! [`id_of_text`](osb_wire::id_of_text) gives each the number that the other crates know it by.
//!
//! The object of a binding (`credentials`, `syslog_drain_url`, `route_service_url`, `volume_mounts`, `endpoints`,
//! `metadata`) is passed on as it stands. The parts of a Bind's body ([`BindingParts`]) are JSON with no spaces, numbers
//! as they are written, and members in their order.
//!
//! [`binding_modes`] returns how each plan binds, by the catalogue, and [`bindings_retrievable`] whether the bindings of a
//! service can be fetched. [`requires_app`] judges whether a Bind lacks the
//! application that its plan needs.
#![tactic(auto)]

mod answers;
mod app;
mod asked;
mod bind_body;
mod catalogue;
mod names;
mod parts;
mod place;
mod reading;
mod received;
mod refusal;
mod retrievable;
mod target;
mod writing;

pub use answers::{BindingAnswer, read_binding_answer, read_fetched, write_binding};
pub use app::{REQUIRES_APP_STATUS, requires_app, requires_app_body};
pub use asked::BindingAsked;
pub use catalogue::{BindingModeFault, binding_modes};
pub use names::{BindingNameFault, BindingNames};
pub use parts::{BindingParts, binding_parts};
pub use reading::read_binding_request;
pub use received::BindingReceived;
pub use refusal::BindingRefusal;
pub use retrievable::bindings_retrievable;
pub use target::{Target, read_target};
pub use writing::{write_binding_body, write_binding_request, write_binding_target, write_fetch};

//! What is ordered.
use osb_binding::BindingId;
use osb_instance::Digest;
use osb_message::Mode;

/// A binding that a platform orders, how binding works at its plan, and what its broker does (this project's choice; the
/// ids, the attributes and whether an asynchronous operation is accepted are those of section Binding). Its service and
/// plan are its instance's.
///
/// The order stands for all of the binding's life. That the mode doesn't change, that a plan which wasn't bindable isn't
/// bindable later, that a pair of ids is used once, and that it is sent with one digest of attributes, are assumptions.
#[derive(Clone, Copy, Debug, PartialEq, Eq, Hash)]
pub struct BindingOrder {
    /// The binding's id.
    pub id: BindingId,
    /// How binding works at the plan, or none if the plan isn't bindable.
    pub mode: Option<Mode>,
    /// Whether the Bind accepts an asynchronous operation.
    pub accepts: bool,
    /// Whether the broker has the rule of the first Poll.
    pub first_poll: bool,
    /// The digest of what the Bind asks for besides service and plan.
    pub attributes: Digest,
    /// Whether the broker serves a Fetch of a binding. If it doesn't, the platform cleans up after a 202 to a Bind.
    pub retrievable: bool,
}

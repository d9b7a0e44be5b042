//! What a broker takes from a request of a binding.
use crate::{BindingAsked, BindingParts};

/// What a broker takes from a request of a binding: what is asked, by the numbers of ids, the texts of those ids, and the
/// parts of the body.
#[derive(Drop)]
pub struct BindingReceived {
    /// What is asked, with each id's number.
    pub asked: BindingAsked,
    /// The text of the instance's id, as the path has it, decoded.
    pub instance: String,
    /// The text of the binding's id, as the path has it, decoded.
    pub binding: String,
    /// The text of the service's id, where the request names it.
    pub service: Option<String>,
    /// The text of the plan's id, where the request names it.
    pub plan: Option<String>,
    /// The parts of the body of a Bind; of other requests, none.
    pub parts: BindingParts,
}

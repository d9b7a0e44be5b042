//! What a broker takes from an Update or a Fetch.
use crate::{UpdateAsked, UpdateParts};

/// What a broker takes from an Update or a Fetch: what is asked, by the numbers of ids, the texts of those ids, and the
/// parts of the body.
#[derive(Drop)]
pub struct UpdateReceived {
    /// What is asked, with each id's number.
    pub asked: UpdateAsked,
    /// The text of the instance's id, as the path has it, decoded.
    pub instance: String,
    /// The text of the service's id, if the request names it.
    pub service: Option<String>,
    /// The text of the plan's id, if the request names it.
    pub plan: Option<String>,
    /// The parts of the body of an Update. A Fetch has none.
    pub parts: UpdateParts,
}

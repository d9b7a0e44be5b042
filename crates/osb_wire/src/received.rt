//! What a broker takes from a request.
use crate::{Asked, Parts};

/// What a broker takes from a request: what is asked, by the numbers of ids, the texts of those ids, and the parts of the
/// body.
#[derive(Drop)]
pub struct Received {
    /// What is asked, with each id's number.
    pub asked: Asked,
    /// The text of the instance's id, as the path has it, decoded.
    pub instance: String,
    /// The text of the service's id, where the request names it.
    pub service: Option<String>,
    /// The text of the plan's id, where the request names it.
    pub plan: Option<String>,
    /// The parts of the body of a Provision; of other requests, none.
    pub parts: Parts,
}

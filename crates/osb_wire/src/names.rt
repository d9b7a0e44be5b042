//! The texts of a request's ids.
ghost use Rattle.std.specs.Prelude.{◌≡◌};
ghost use Rattle.osb_wire.specs.Names as naming;

use crate::id_texts::id_of_text;
use crate::path_reading::is_dots;
use osb_message::{Id, Request};
use thiserror::Error;

/// The texts of the ids of a request, as the platform and the catalogue have them.
#[derive(Clone, Copy, Debug)]
pub struct Names<'t> {
    /// The instance's (`instance_id`).
    pub instance: &'t str,
    /// The service's (`service_id`).
    pub service: &'t str,
    /// The plan's (`plan_id`).
    pub plan: &'t str,
}

/// Why a request isn't written: this project's choice.
#[derive(Clone, Copy, Debug, PartialEq, Eq, Hash, Error)]
pub enum NameFault {
    /// The instance's text hasn't the number of the request's instance, or is `.` or `..`, which no path can carry.
    #[error("the text is not that of the request's instance")]
    BadInstance,
    /// The service's text hasn't the number of the request's service.
    #[error("the text is not that of the request's service")]
    BadService,
    /// The plan's text hasn't the number of the request's plan.
    #[error("the text is not that of the request's plan")]
    BadPlan,
    /// An allocation failed.
    #[error("no memory left")]
    Memory,
}

/// Whether this is the id that a text names. It takes no memory.
pub fn is_id_of<K>(text: &str, id: Id<K>) -> bool
    ensures is { result ≡ naming.is_number text.now id }
{
    match id_of_text::<K>(text) {
        Some(named) => named == id,
        None => false,
    }
}

// Whether the texts are those of the request's ids.
pub(crate) fn judge_names(request: &Request, names: &Names) -> Result<(), NameFault>
    ensures judged { result ≡ naming.names_judged request.now (naming.texts_of names.now) }
{
    if !is_id_of(names.instance, request.id) || is_dots(names.instance) {
        return Err(NameFault::BadInstance);
    }
    if !is_id_of(names.service, request.service) {
        return Err(NameFault::BadService);
    }
    if !is_id_of(names.plan, request.plan) {
        return Err(NameFault::BadPlan);
    }
    Ok(())
}

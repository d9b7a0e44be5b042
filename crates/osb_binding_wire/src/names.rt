//! The texts of the ids of a binding's request.
ghost use Rattle.std.specs.Prelude.{◌≡◌};
ghost use Rattle.osb_binding_wire.specs.Names as naming;

use osb_binding::BindingRequest;
use osb_wire::names::is_id_of;
use osb_wire::path_reading::is_dots;
use thiserror::Error;

/// The texts of the ids of a binding's request, as the platform and the catalogue have them.
#[derive(Clone, Copy, Debug)]
pub struct BindingNames<'t> {
    /// The instance's (`instance_id`).
    pub instance: &'t str,
    /// The binding's (`binding_id`).
    pub binding: &'t str,
    /// The service's (`service_id`).
    pub service: &'t str,
    /// The plan's (`plan_id`).
    pub plan: &'t str,
}

/// Why a request of a binding isn't written: this project's choice.
#[derive(Clone, Copy, Debug, PartialEq, Eq, Hash, Error)]
pub enum BindingNameFault {
    /// The instance's text hasn't the number of the request's instance, or is `.` or `..`, which no path can carry.
    #[error("the text is not that of the request's instance")]
    BadInstance,
    /// The binding's text hasn't the number of the request's binding, or is `.` or `..`.
    #[error("the text is not that of the request's binding")]
    BadBinding,
    /// The service's text hasn't the number of the request's service.
    #[error("the text is not that of the request's service")]
    BadService,
    /// The plan's text hasn't the number of the request's plan.
    #[error("the text is not that of the request's plan")]
    BadPlan,
    /// An allocation failed.
    #[error("no memory left")]
    Memory,
}

// Whether the texts are those of the request's ids.
pub(crate) fn judge_names(
    request: &BindingRequest,
    names: &BindingNames,
) -> Result<(), BindingNameFault>
    ensures judged { result ≡ naming.names_judged request.now (naming.texts_of names.now) }
{
    if !is_id_of(names.instance, request.instance) || is_dots(names.instance) {
        return Err(BindingNameFault::BadInstance);
    }
    if !is_id_of(names.binding, request.binding) || is_dots(names.binding) {
        return Err(BindingNameFault::BadBinding);
    }
    if !is_id_of(names.service, request.service) {
        return Err(BindingNameFault::BadService);
    }
    if !is_id_of(names.plan, request.plan) {
        return Err(BindingNameFault::BadPlan);
    }
    Ok(())
}

//! Which settings the work may have left.
ghost use Rattle.std.specs.Prelude.{◌≡◌};
ghost use Rattle.osb_update_network.specs.AnyPlatform as spec;

use osb_message::Mode;
use osb_update::{Settings, UpdateOutcome, UpdatePhase};

// Whether the resource has these settings.
pub(crate) fn is_at(resource: &Option<Settings>, settings: &Settings) -> bool
    ensures at { result ≡ spec.is_at resource.now settings.now }
{
    match resource {
        None => false,
        Some(has) => has.is_same(settings),
    }
}

pub(crate) fn is_failed(phase: &UpdatePhase) -> bool
    ensures is { result ≡ spec.is_failed phase.now }
{
    match phase {
        UpdatePhase::Failed => true,
        UpdatePhase::Settled
        | UpdatePhase::Pending(_)
        | UpdatePhase::Updating(_)
        | UpdatePhase::Mending(_) => false,
    }
}

// Whether the resource has its settings as before, if that has to be so.
pub(crate) fn is_unchanged(failed: bool, resource: &Option<Settings>, settings: &Settings) -> bool
    ensures is { result ≡ spec.is_unchanged failed resource.now settings.now }
{
    failed || is_at(resource, settings)
}

// Whether the work of an Update may have ended so: `done`, the resource has the settings of the Update; `unchanged`, it is
// as it was.
pub(crate) fn is_true_end(mode: Mode, outcome: UpdateOutcome, done: bool, unchanged: bool) -> bool
    ensures is { result ≡ spec.is_true_end outcome mode done unchanged }
{
    match (outcome, mode) {
        (UpdateOutcome::Done | UpdateOutcome::After, Mode::Sync) => done,
        (UpdateOutcome::Done | UpdateOutcome::After, Mode::Async) => true,
        (UpdateOutcome::Before | UpdateOutcome::Refused(_), _) => unchanged,
        (UpdateOutcome::Failed, _) => true,
    }
}

//! Which settings the work of an Update may have left, and which answers may be another's.
ghost use Rattle.std.specs.Prelude.{◌≡◌};
ghost use Rattle.osb_update.specs.Recorded as platform;
ghost use Rattle.osb_update_sides.specs.Steps as spec;

use osb_message::{Answer, Body, Mode};
use osb_update::{Settings, UpdateOutcome, UpdatePhase};

// Whether the resource has these settings.
pub(crate) fn is_at(resource: &Option<Settings>, settings: &Settings) -> bool
    ensures at { result ≡ spec.is_at resource.now settings.now }
{
    match resource {
        None => false,
        Some(has) => has.is_same(settings),
    }
}

// Whether the work of an Update may have ended so: `done`, the resource has the settings of the Update; `unchanged`, it
// is as it was.
pub(crate) fn is_true_end(mode: Mode, outcome: UpdateOutcome, done: bool, unchanged: bool) -> bool
    ensures is { result ≡ spec.is_true_end outcome mode done unchanged }
{
    match (outcome, mode) {
        (UpdateOutcome::Done | UpdateOutcome::After, Mode::Sync) => done,
        (UpdateOutcome::Done | UpdateOutcome::After, Mode::Async) => true,
        (UpdateOutcome::Before | UpdateOutcome::Refused(_), _) => unchanged,
        (UpdateOutcome::Failed, _) => true,
    }
}

pub(crate) fn is_settled(phase: &UpdatePhase) -> bool
    ensures is { result ≡ spec.is_settled phase.now }
{
    match phase {
        UpdatePhase::Settled => true,
        UpdatePhase::Pending(_)
        | UpdatePhase::Updating(_)
        | UpdatePhase::Failed
        | UpdatePhase::Mending(_) => false,
    }
}

// Whether a status is one that gateways, proxies and servers answer of themselves.
fn may_be_a_gateways(status: u16) -> bool
    ensures gateways { result ≡ platform.may_be_a_gateways status }
{
    matches!(
        status,
        401 | 403 | 404 | 405 | 407 | 408 | 412 | 413 | 414 | 415 | 429 | 431
    )
}

// Whether an answer may be another's than the broker's, or garbled.
pub(crate) fn may_be_anothers(answer: &Answer) -> bool
    ensures is { result ≡ spec.may_be_anothers answer.now }
{
    answer.body == Body::Malformed || answer.status >= 500 || may_be_a_gateways(answer.status)
}

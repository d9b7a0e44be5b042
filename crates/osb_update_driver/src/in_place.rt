//! What an update answers in the place of the instance's table: the words of `osb_update_network`.
ghost use Rattle.std.specs.Prelude.{◌≡◌};
ghost use Rattle.osb_message.specs.declared.messages.ErrorCode.TheVariants.{Other};
ghost use Rattle.osb_broker.specs.Answers.{error};
ghost use Rattle.osb_update.specs.Begun.{is_available};
ghost use Rattle.osb_update_network.specs.AnyPlatform as network;

use osb_instance::{Holding, HoldingPhase, busy};
use osb_message::{Answer, Body, ErrorCode, Kind};
use osb_update::{Settings, UpdateHolding, UpdatePhase};

// An answer with an error that has no code.
fn error(status: u16) -> Answer
    ensures answer { result ≡ error status Other }
{
    Answer {
        status,
        body: Body::Error(ErrorCode::Other),
    }
}

// Whether the instance is available: its row is ready, and no work of it is pending.
fn is_available(instance: Holding) -> bool
    ensures available { result ≡ is_available instance }
{
    match (instance.row(), instance.work()) {
        (Some(row), None) => row.phase == HoldingPhase::Ready,
        _ => false,
    }
}

// The answer to a Provision of the settings that the row has.
fn to_same(phase: &UpdatePhase) -> Option<Answer>
    ensures answer { result ≡ network.provision_by phase.now }
{
    match phase {
        UpdatePhase::Settled => None,
        UpdatePhase::Failed => Some(error(500)),
        UpdatePhase::Pending(_) | UpdatePhase::Updating(_) | UpdatePhase::Mending(_) => {
            Some(busy(Kind::Provision))
        }
    }
}

// The answer to a Provision.
fn to_provision(change: &UpdateHolding, instance: Holding, asked: &Settings) -> Option<Answer>
    ensures answer { result ≡ network.provision_in_place instance.row change.now instance asked.now }
{
    if instance.row().is_none() {
        return None;
    }
    if !change.settings.is_same(asked) {
        return Some(error(409));
    }
    if is_available(instance) {
        to_same(&change.phase)
    } else {
        None
    }
}

// The answer to a Poll.
fn to_poll(change: &UpdateHolding, instance: Holding) -> Option<Answer>
    ensures answer { result ≡ network.poll_in_place change.now.phase instance }
{
    match &change.phase {
        UpdatePhase::Settled => None,
        UpdatePhase::Failed
        | UpdatePhase::Pending(_)
        | UpdatePhase::Updating(_)
        | UpdatePhase::Mending(_) => change.poll(instance),
    }
}

/// The answer to a request of the kind in the place of the instance's table, if there is one.
pub(crate) fn in_place(
    kind: Kind,
    change: &UpdateHolding,
    instance: Holding,
    asked: &Settings,
) -> Option<Answer>
    ensures answer { result ≡ network.in_place kind change.now instance asked.now }
{
    match kind {
        Kind::Provision => to_provision(change, instance, asked),
        Kind::Poll => to_poll(change, instance),
        Kind::Deprovision => None,
    }
}

//! What is decided on a request for one instance.
ghost use Rattle.std.specs.Prelude.{◌≡◌};
ghost use Rattle.osb_broker.specs.Change.{row_after};
ghost use Rattle.osb_broker.specs.Decided.{decided};
ghost use Rattle.osb_broker.specs.Handled.{handled};

use crate::deprovision::deprovision;
use crate::poll::poll;
use crate::provision::provision;
use crate::{BrokerRow, Outcome};
use osb_message::{Answer, Catalogue, Kind, Mode, Request};

// What a request changes at its instance.
#[derive(Clone, Copy)]
pub(crate) enum Change {
    Nothing,
    Put(BrokerRow),
    Remove,
}

// The row after the change, or none.
fn changed(row: Option<BrokerRow>, change: Change) -> Option<BrokerRow>
    ensures row { result ≡ row_after change row }
{
    match change {
        Change::Nothing => row,
        Change::Put(new) => Some(new),
        Change::Remove => None,
    }
}

// What a request changes, and what is answered.
#[derive(Clone, Copy)]
pub(crate) struct Decision {
    pub(crate) change: Change,
    pub(crate) answer: Answer,
}

/// What a broker does with a request for an instance, as [`decide`] gives it.
#[derive(Clone, Copy, Debug, PartialEq, Eq, Hash)]
pub struct Decided {
    /// The instance's row from then on, or none.
    pub row: Option<BrokerRow>,
    /// The answer to send.
    pub answer: Answer,
}

// An answer that changes nothing.
pub(crate) fn unchanged(answer: Answer) -> Decision
    ensures change { result.change ≡ Change.Nothing }
    ensures answer { result.answer ≡ answer }
{
    Decision {
        change: Change::Nothing,
        answer,
    }
}

// What is decided on a request for an instance with this row, or with none, where the request's plan works
// in this mode, or isn't on sale.
pub(crate) fn decide_change(
    mode: Option<Mode>,
    row: Option<BrokerRow>,
    request: &Request,
    outcome: Outcome,
) -> Decision
    ensures row { row_after result.change row ≡ (decided mode row request.now outcome).row }
    ensures answer { result.answer ≡ (decided mode row request.now outcome).answer }
{
    match request.kind {
        Kind::Provision => provision(mode, row, request, outcome),
        Kind::Deprovision => deprovision(mode, row, request, outcome),
        Kind::Poll => unchanged(poll(row, request, outcome)),
    }
}

// What is decided by the mode that the catalogue has.
#[tactic(auto, using(crate::proofs::Modes::decided_handled))]
pub(crate) fn decide_in(
    catalogue: &Catalogue,
    row: Option<BrokerRow>,
    request: &Request,
    outcome: Outcome,
) -> Decision
    ensures row { row_after result.change row
        ≡ (handled catalogue.now row request.now outcome).row }
    ensures answer { result.answer ≡ (handled catalogue.now row request.now outcome).answer }
{
    let mode = catalogue.mode(request.service, request.plan);
    decide_change(mode, row, request, outcome)
}

/// What a broker does with a request for an instance with this row, or with none, and with this outcome of
/// the work behind it: the tables of [`Broker::handle`](crate::Broker::handle), for who keeps the rows
/// elsewhere.
///
/// The mode is that of the request's plan, and none where the catalogue doesn't have its pair of service and
/// plan. A row whose plan isn't on sale, which no [`Broker`](crate::Broker) has, is answered with 400 where a
/// Deprovision asks for it with its own service and plan, and stays (this project's choice). It takes no
/// memory.
pub fn decide(
    mode: Option<Mode>,
    row: Option<BrokerRow>,
    request: &Request,
    outcome: Outcome,
) -> Decided
    ensures row { result.row ≡ (decided mode row request.now outcome).row }
    ensures answer { result.answer ≡ (decided mode row request.now outcome).answer }
{
    let kept = &row;
    let decision = decide_change(mode, *kept, request, outcome);
    Decided {
        row: changed(*kept, decision.change),
        answer: decision.answer,
    }
}

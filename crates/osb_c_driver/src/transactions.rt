//! What a transaction of a driver comes to, as it crosses.
ghost use Rattle.std.specs.Prelude.{◌≡◌, ◌↔◌, ◌⊎◌, ◌≢◌, Some, true, IfSome};
ghost use Rattle.osb_c_instance.specs.Outcomes.{outcome_of};
ghost use Rattle.osb_c_driver.specs.Drivers.{can_be, driver_of};
ghost use Rattle.osb_c_driver.specs.Transactions.{IsPlainEffect, IsWritten, effect_code, effect_of, number_after};
ghost use Rattle.osb_c_driver.specs.Transactions.{operation_of, work_at};

use crate::drivers::{OsbDriver, moved, outcome_out};
use crate::workers::{worked, worker_for};
use osb_c_instance::{OsbHolding, held_out};
use osb_driver::{Driver, Effect, Stage, Task, Transaction};
use osb_instance::{Holding, HoldingPhase, HoldingRow, Work};
use osb_message::Mode;

/// What a transaction of a driver comes to.
#[repr(C)]
#[derive(Clone, Copy)]
pub struct OsbTransaction {
    /// The holding that the row has to have.
    pub holding: OsbHolding,
    /// The number that the row has to have.
    pub number: [u8; 16],
    /// The driver once the commit has returned.
    pub committed: OsbDriver,
    /// The driver if nobody knows whether the transaction was committed.
    pub unsure: OsbDriver,
    /// The number of the event.
    pub effect: u8,
    /// Of `End`: the number of the outcome.
    pub outcome: u8,
    /// Of `Finish`: whether the operation succeeded.
    pub ok: bool,
    /// Whether the row or its number has to be written: one of them changed.
    pub writes: bool,
}

/// The number of an event. It takes no memory.
pub fn effect_out(effect: Effect) -> u8
    ensures code { result ≡ effect_code effect }
{
    match effect {
        Effect::Nothing => 0,
        Effect::Arrive => 1,
        Effect::PutOff => 2,
        Effect::End(_) => 3,
        Effect::Finish(_) => 4,
        Effect::GiveUpWaiting => 5,
    }
}

// The work of an operation that runs on the row.
fn operation_of(row: Option<HoldingRow>) -> Option<Work>
    ensures work { result ≡ operation_of row }
{
    match row?.phase {
        HoldingPhase::Making => Some(Work::Make),
        HoldingPhase::Deleting => Some(Work::Delete),
        _ => None,
    }
}

/// The work to do at a stage. It takes no memory.
pub fn work_at(mode: Option<Mode>, row: Holding, stage: Stage) -> Option<Work>
    ensures work { result ≡ work_at mode row stage }
{
    match stage {
        Stage::Work {
            task: Task::Pending(request),
        } => Work::of(request.kind, mode),
        Stage::Work {
            task: Task::Operation,
        } => operation_of(row.row()),
        _ => None,
    }
}

// Whether the transaction writes anything to the row that was read, or to its number.
fn writes(read: Holding, transaction: &Transaction) -> bool
    ensures writes { (result ≡ true) ↔ ((transaction.now.takes_over ≡ true) ⊎ (transaction.now.row ≢ read)) }
{
    transaction.takes_over || transaction.row != read
}

/// The number that the row has after the transaction. It takes no memory.
pub fn number_after(takes_over: bool, own: [u8; 16], number: [u8; 16]) -> [u8; 16]
    ensures number { result ≡ number_after takes_over own number }
{
    if takes_over { own } else { number }
}

// The event, with what else a transaction comes to beside it.
fn with_effect(
    effect: Effect,
    holding: OsbHolding,
    number: [u8; 16],
    committed: OsbDriver,
    unsure: OsbDriver,
    writes: bool,
) -> OsbTransaction
    ensures effect { effect_of result ≡ Some effect }
    ensures plain { IsPlainEffect result }
    ensures holding { result.holding ≡ holding }
    ensures number { result.number ≡ number }
    ensures committed { result.committed ≡ committed }
    ensures unsure { result.unsure ≡ unsure }
    ensures writes { result.writes ≡ writes }
{
    let outcome = match effect {
        Effect::End(outcome) => outcome_out(outcome),
        _ => 0,
    };
    OsbTransaction {
        holding,
        number,
        committed,
        unsure,
        effect: effect_out(effect),
        outcome,
        ok: matches!(effect, Effect::Finish(true)),
        writes,
    }
}

// What a transaction comes to: of the driver that crossed, `read`, and of the row that it read, `held`, with its number.
pub(crate) fn write(
    driver: &OsbDriver,
    read: Driver,
    mode: Option<Mode>,
    held: Holding,
    number: [u8; 16],
    written: &Transaction,
) -> OsbTransaction
    ensures written { driver_of driver.now ≡ Some read → can_be read.attempt written.now.stage ≡ true
        → IsWritten driver.now read mode held number written.now result }
{
    let committed = Driver {
        attempt: read.attempt,
        stage: written.stage,
    };
    let unsure = Driver {
        attempt: read.attempt,
        stage: read.unsure(written),
    };
    let worker = worker_for(work_at(mode, written.row, written.stage));
    with_effect(
        written.effect,
        held_out(written.row),
        number_after(written.takes_over, driver.number, number),
        worked(driver, committed, worker),
        moved(driver, unsure),
        writes(held, written),
    )
}

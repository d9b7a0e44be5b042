//! What a transaction of a driver comes to, as it crosses.
ghost use Rattle.std.specs.Prelude.{◌≡◌, ◌≢◌, ◌↔◌, ◌⊎◌, Some, true};
ghost use Rattle.osb_c_driver.specs.Drivers.{attempt_of, is_number};
ghost use Rattle.osb_c_update_driver.specs.Drivers.{can_be};
ghost use Rattle.osb_c_update_driver.specs.Transactions as spec;
ghost use Rattle.osb_c_update_driver.specs.Workers.{can_work};

use crate::drivers::{OsbUpdateDriver, driver_out, outcome_out as update_outcome_out, worked};
use crate::readings::{Given, mode_for, way_for};
use crate::workers::{DriverWorker, idle, instance_worker_for, update_worker_for};
use osb_c_driver::{effect_out as instance_effect_out, number_after, outcome_out, work_at};
use osb_c_instance::{OsbHolding, held_out};
use osb_c_update::{OsbUpdateHolding, holding_out};
use osb_driver::Effect;
use osb_instance::Holding;
use osb_message::Mode;
use osb_update::UpdateHolding;
use osb_update_driver::{UpdateDriver, UpdateEffect, UpdateStage, UpdateTransaction};

/// What a transaction of a driver comes to.
#[repr(C)]
#[derive(Clone, Copy)]
pub struct OsbUpdateTransaction {
    /// What the row has to have of the instance.
    pub holding: OsbHolding,
    /// What the row has to have of its updates.
    pub change: OsbUpdateHolding,
    /// The number that the row has to have.
    pub number: [u8; 16],
    /// The driver once the commit has returned.
    pub committed: OsbUpdateDriver,
    /// The driver if nobody knows whether the transaction was committed.
    pub unsure: OsbUpdateDriver,
    /// The number of the event.
    pub effect: u8,
    /// Of `End` of the instance: the number of the outcome.
    pub outcome: u8,
    /// Of `End` of an update: the number of the outcome.
    pub update_outcome: u8,
    /// Of `Finish`, of the instance or of an update: whether the operation succeeded.
    pub ok: bool,
    /// Whether anything has to be written: a part of the row or its number changed.
    pub writes: bool,
    /// Whether what is held of the updates changed. If it didn't, a row that keeps nothing of updates goes on so.
    pub writes_change: bool,
}

// The number of an event.
fn effect_out(effect: &UpdateEffect) -> u8
    ensures code { result ≡ spec.effect_code effect.now }
{
    match effect {
        UpdateEffect::Instance(effect) => instance_effect_out(*effect),
        UpdateEffect::Update(_) => 6,
        UpdateEffect::End(_, _) => 7,
        UpdateEffect::Finish(_) => 8,
    }
}

// How work of the instance ended, by the event, or 0.
fn effect_outcome(effect: &UpdateEffect) -> u8
    ensures outcome { spec.IsOutcome effect.now result }
{
    match effect {
        UpdateEffect::Instance(Effect::End(outcome)) => outcome_out(*outcome),
        _ => 0,
    }
}

// How work of an update ended, by the event, or 0.
fn effect_update_outcome(effect: &UpdateEffect) -> u8
    ensures outcome { spec.IsUpdateOutcome effect.now result }
{
    match effect {
        UpdateEffect::End(_, outcome) => update_outcome_out(*outcome),
        _ => 0,
    }
}

// Whether an operation ended and succeeded, by the event.
fn effect_ok(effect: &UpdateEffect) -> bool
    ensures ok { result ≡ spec.effect_ok effect.now }
{
    match effect {
        UpdateEffect::Instance(Effect::Finish(ok)) | UpdateEffect::Finish(ok) => *ok,
        _ => false,
    }
}

// Whether what is held of the updates changes.
fn writes_change(read: &UpdateHolding, written: &UpdateHolding) -> bool
    ensures writes { (result ≡ true) ↔ (written.now ≢ read.now) }
{
    *written != *read
}

// Whether the transaction changes a part of the row, or its number: `changes`, it changes what is held of the updates.
fn writes(instance: Holding, changes: bool, transaction: &UpdateTransaction) -> bool
    ensures writes { (result ≡ true) ↔ ((transaction.now.takes_over ≡ true)
        ⊎ ((transaction.now.instance ≢ instance) ⊎ (changes ≡ true))) }
{
    transaction.takes_over || transaction.instance != instance || changes
}

// The worker of the work to do at a stage.
fn worker_by(
    mode: Option<Mode>,
    way: Mode,
    written: &UpdateTransaction,
    stage: &UpdateStage,
) -> DriverWorker
    ensures worker { result ≡ spec.worker_by mode way written.now stage.now }
    ensures can { can_work result ≡ true }
{
    match stage {
        UpdateStage::Instance(stage) => {
            instance_worker_for(work_at(mode, written.instance, *stage))
        }
        UpdateStage::Work(task) => update_worker_for(task, way, &written.change),
        UpdateStage::End { .. } | UpdateStage::Finish(_) | UpdateStage::Conflict => idle(),
    }
}

// What a transaction comes to: of the driver that crossed, `read`, and of the row that it read, with its number.
pub(crate) fn write(
    driver: &OsbUpdateDriver,
    read: &UpdateDriver,
    given: &Given,
    number: [u8; 16],
    written: &UpdateTransaction,
) -> OsbUpdateTransaction
    ensures written { is_number driver.now.driver.number ≡ true
        → read.now.attempt ≡ attempt_of driver.now.driver.is_request
        → can_be read.now.attempt written.now.stage ≡ true
        → spec.IsWritten driver.now read.now given.now number written.now result }
{
    let own = driver.driver.number;
    let committed = UpdateDriver {
        attempt: read.attempt,
        stage: written.stage,
    };
    let worker = worker_by(
        mode_for(read, given),
        way_for(read, given),
        written,
        &written.stage,
    );
    let changes = writes_change(&given.change, &written.change);
    OsbUpdateTransaction {
        holding: held_out(written.instance),
        change: holding_out(&written.change),
        number: number_after(written.takes_over, own, number),
        committed: worked(driver, &committed, &worker),
        unsure: driver_out(own, driver.driver.is_request, &read.unsure(written)),
        effect: effect_out(&written.effect),
        outcome: effect_outcome(&written.effect),
        update_outcome: effect_update_outcome(&written.effect),
        ok: effect_ok(&written.effect),
        writes: writes(given.instance, changes, written),
        writes_change: changes,
    }
}

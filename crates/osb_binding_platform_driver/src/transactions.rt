//! The transactions of a driver: pure decisions over what they read.
ghost use Rattle.std.specs.Prelude.{◌≡◌, Some, true};
ghost use Rattle.osb_network.specs.Steps.{has_out, is_out};
ghost use Rattle.osb_platform_driver.specs.Driver.{brought_up, states_of};
ghost use Rattle.osb_binding_network.specs.Allowed.{is_ready, makes_ready};
ghost use Rattle.osb_binding_platform_driver.specs.Driver as spec;

use crate::{PlatformDriver, PlatformStage};
use osb_binding::is_useless;
use osb_instance::Record;
use osb_message::{Answer, InstanceId, PlanId, ServiceId};
use osb_platform::{PlatformRow, State, decide_answer};
use osb_platform_driver::{CleanUp, Driver, Stage, Transaction, Wishes, brought_up, cleaned};

/// What a transaction reads and locks, and what the program wishes. At the last transaction, only the record, the
/// number (`is_owner`) and `retrievable` count.
#[derive(Clone, Copy, Debug, PartialEq, Eq)]
pub struct PlatformReading {
    /// The record; none if nothing is recorded. That of a binding is that of its life
    /// ([`BindingRecord::as_record`](osb_binding::BindingRecord::as_record)).
    pub recorded: Option<Record>,
    /// Whether the row has the driver's number.
    pub is_owner: bool,
    /// The record of a binding's instance; none if the instance isn't recorded.
    pub instance: Option<Record>,
    /// Whether each binding of an instance that is recorded is gone.
    pub all_gone: bool,
    /// What the program wishes.
    pub wishes: Wishes,
    /// The id of the instance, or of the binding.
    pub id: InstanceId,
    /// The service with which an instance is created.
    pub service: ServiceId,
    /// The plan with which an instance is created.
    pub plan: PlanId,
    /// Whether an asynchronous creation is accepted.
    pub accepts: bool,
    /// Whether a binding can be fetched.
    pub retrievable: bool,
}

/// What a transaction writes, what it did to the record, and what follows.
#[derive(Clone, Copy, Debug, PartialEq, Eq)]
pub struct PlatformTransaction {
    /// The record to write.
    pub recorded: Option<Record>,
    /// Whether the number of the driver becomes that of the row: a request is in flight by this transaction.
    pub takes_over: bool,
    /// Whether a request in flight is given up.
    pub times_out: bool,
    /// How the record is cleaned up.
    pub cleans_up: Option<CleanUp>,
    /// Whether an answer is taken.
    pub takes: bool,
    /// The stage once the commit has returned.
    pub stage: PlatformStage,
    /// The stage if nobody knows whether it was committed.
    pub unsure: PlatformStage,
    /// The stage if it wasn't committed.
    pub failed: PlatformStage,
}

// ---- the first transaction

// The wishes at an instance: it is removed only once all of its bindings are gone.
fn wishes_of_instance(wishes: &Wishes, all_gone: bool) -> Wishes
    ensures wishes { result ≡ spec.wishes_of_instance all_gone wishes.now }
{
    let clean_up = match wishes.clean_up {
        Some(CleanUp::Remove) if !all_gone => None,
        wish => wish,
    };
    Wishes {
        create: wishes.create,
        clean_up,
        send: wishes.send,
    }
}

// Whether the instance is recorded ready.
fn is_ready(instance: Option<Record>) -> bool
    ensures ready { result ≡ is_ready instance }
{
    match instance {
        Some(instance) => instance.is_ready(),
        None => false,
    }
}

// The wishes at a binding: it is created only while its instance is recorded ready.
fn wishes_of_binding(wishes: &Wishes, instance: Option<Record>) -> Wishes
    ensures wishes { result ≡ spec.wishes_of_binding instance wishes.now }
{
    Wishes {
        create: wishes.create && is_ready(instance),
        clean_up: wishes.clean_up,
        send: wishes.send,
    }
}

// The service and plan of a binding: those of its instance.
fn plan_of_binding(reading: &PlatformReading) -> (ServiceId, PlanId)
    ensures service { result.0 ≡ spec.service_of_binding reading.now.instance reading.now.service }
    ensures plan { result.1 ≡ spec.plan_of_binding reading.now.instance reading.now.plan }
{
    match reading.instance {
        Some(instance) => {
            let PlatformRow { service, plan, .. } = instance.row();
            (service, plan)
        }
        None => (reading.service, reading.plan),
    }
}

// Whether a request is in flight.
fn has_out(recorded: &Option<Record>) -> bool
    ensures out { result ≡ has_out recorded.now }
{
    match *recorded {
        Some(recorded) => recorded.row().out.is_some(),
        None => false,
    }
}

// How the record is cleaned up: as is wished, if that changes it.
fn cleaned_by(recorded: Option<Record>, wish: Option<CleanUp>) -> Option<CleanUp>
    ensures by { result ≡ spec.cleaned_by wish recorded }
{
    let recorded = brought_up(recorded?);
    if cleaned(recorded, wish) == recorded {
        None
    } else {
        wish
    }
}

// Whether a Fetch follows the request in flight: it is of a binding whose record polls for its creation.
fn fetches(is_binding: bool, recorded: &Option<Record>) -> bool
    ensures fetches { result ≡ spec.fetches is_binding recorded.now }
{
    match *recorded {
        Some(recorded) => is_binding && recorded.row().state == State::Polling,
        None => false,
    }
}

// The stage after the first transaction.
fn after_claim(stage: Stage, fetches: bool) -> PlatformStage
    ensures stage { result ≡ spec.after_claim fetches stage }
{
    match stage {
        Stage::Claim => PlatformStage::Claim,
        Stage::Send { sent } => PlatformStage::Send { sent, fetches },
        Stage::Take { attempt, answer } => PlatformStage::Take {
            attempt,
            answer,
            has_credentials: false,
        },
        Stage::Unsure { attempt } => PlatformStage::Unsure { attempt },
        Stage::Done => PlatformStage::Done,
    }
}

// The first transaction, of the record that it reads.
fn claimed(
    is_binding: bool,
    recorded: Option<Record>,
    wish: Option<CleanUp>,
    claim: Transaction,
) -> PlatformTransaction
    ensures tx { result ≡ spec.claimed is_binding recorded wish claim }
{
    let Transaction {
        recorded: after,
        takes_over,
        stage,
        unsure,
        failed,
    } = claim;
    let fetches = fetches(is_binding, &after);
    let times_out = has_out(&recorded);
    PlatformTransaction {
        recorded: after,
        takes_over,
        times_out,
        cleans_up: cleaned_by(recorded, wish),
        takes: false,
        stage: after_claim(stage, fetches),
        unsure: after_claim(unsure, fetches),
        failed: after_claim(failed, fetches),
    }
}

// The first transaction of an instance.
fn claim_of_instance(reading: &PlatformReading) -> PlatformTransaction
    ensures tx { result ≡ spec.claim_of_instance reading.now }
{
    let wishes = wishes_of_instance(&reading.wishes, reading.all_gone);
    let claim = Driver::claim(
        reading.recorded,
        wishes,
        reading.id,
        reading.service,
        reading.plan,
        reading.accepts,
    );
    claimed(false, reading.recorded, wishes.clean_up, claim)
}

// The first transaction of a binding.
fn claim_of_binding(reading: &PlatformReading) -> PlatformTransaction
    ensures tx { result ≡ spec.claim_of_binding reading.now }
{
    let wishes = wishes_of_binding(&reading.wishes, reading.instance);
    let (service, plan) = plan_of_binding(reading);
    let claim = Driver::claim(
        reading.recorded,
        wishes,
        reading.id,
        service,
        plan,
        reading.accepts,
    );
    claimed(true, reading.recorded, wishes.clean_up, claim)
}

// ---- the last transaction

// Whether the request of the attempt is in flight.
fn is_out(recorded: Option<Record>, attempt: u64) -> bool
    ensures out { result ≡ is_out recorded attempt }
{
    match recorded {
        Some(recorded) => recorded.row().out.is_some() && attempt == recorded.attempt(),
        None => false,
    }
}

// Whether the answer to what is in flight makes the record ready.
fn makes_ready(row: PlatformRow, answer: Answer) -> bool
    ensures ready { result ≡ makes_ready row.out row.state answer }
{
    match row.out {
        Some(kind) => decide_answer(row.state, kind, answer) == State::Ready,
        None => false,
    }
}

// Whether an answer counts as lost, since nobody would have the binding's credentials.
fn lacks_credentials(
    retrievable: bool,
    has_credentials: bool,
    row: PlatformRow,
    answer: Answer,
) -> bool
    ensures lacks { result ≡ spec.lacks_credentials retrievable has_credentials row answer }
{
    is_useless(retrievable, row.out, answer) || (!has_credentials && makes_ready(row, answer))
}

// The answer that counts.
fn counted(
    is_binding: bool,
    retrievable: bool,
    has_credentials: bool,
    recorded: Option<Record>,
    answer: Option<Answer>,
) -> Option<Answer>
    ensures counted { result ≡ spec.counted is_binding retrievable has_credentials recorded answer }
{
    match (recorded, answer) {
        (Some(recorded), Some(answer))
            if is_binding
                && lacks_credentials(retrievable, has_credentials, recorded.row(), answer) => {
            None
        }
        (_, answer) => answer,
    }
}

// A last transaction of the record that it reads. If it isn't surely committed, it is tried again.
fn ended(
    after: Option<Record>,
    times_out: bool,
    takes: bool,
    stage: PlatformStage,
) -> PlatformTransaction
    ensures tx { result ≡ spec.ended after times_out takes stage }
{
    let again = stage;
    PlatformTransaction {
        recorded: after,
        takes_over: false,
        times_out,
        cleans_up: None,
        takes,
        stage: PlatformStage::Done,
        unsure: stage,
        failed: again,
    }
}

// Takes the answer of a driver, or gives its request up.
fn take(
    is_binding: bool,
    attempt: u64,
    answer: Option<Answer>,
    has_credentials: bool,
    reading: &PlatformReading,
) -> PlatformTransaction
    ensures tx { result ≡ spec.take is_binding attempt answer has_credentials reading.now }
{
    let counted = counted(
        is_binding,
        reading.retrievable,
        has_credentials,
        reading.recorded,
        answer,
    );
    let is_out = is_out(reading.recorded, attempt);
    let stage = PlatformStage::Take {
        attempt,
        answer,
        has_credentials,
    };
    ended(
        Driver::take(reading.recorded, attempt, counted).recorded,
        is_out && counted.is_none(),
        is_out && counted.is_some(),
        stage,
    )
}

// Gives the request of a driver up that doesn't know whether its first transaction was committed.
fn resume(attempt: u64, reading: &PlatformReading) -> PlatformTransaction
    ensures tx { result ≡ spec.resume attempt reading.now }
{
    let times_out = reading.is_owner && is_out(reading.recorded, attempt);
    ended(
        Driver::resume(reading.recorded, reading.is_owner, attempt).recorded,
        times_out,
        false,
        PlatformStage::Unsure { attempt },
    )
}

impl PlatformDriver {
    /// Returns the transaction of the driver, by what it reads; `None` at a stage that has none. It takes no memory.
    ///
    /// The first one is [`Driver::claim`], with two rules. An instance is removed only if each of its bindings that is
    /// recorded is gone. A binding is created only if its instance is recorded ready, with the service and plan of its
    /// instance.
    ///
    /// The last one is [`Driver::take`] or [`Driver::resume`]. But the answer to a request of a binding counts as lost if
    /// nobody would have the credentials: if it promises some that can't be fetched
    /// ([`is_useless`]), or if it would make the record ready and `has_credentials` is false.
    pub fn transaction(self, reading: &PlatformReading) -> Option<PlatformTransaction>
        ensures tx { result ≡ spec.transaction self reading.now }
    {
        match self.stage {
            PlatformStage::Claim => Some(if self.is_binding {
                claim_of_binding(reading)
            } else {
                claim_of_instance(reading)
            }),
            PlatformStage::Take {
                attempt,
                answer,
                has_credentials,
            } => Some(take(self.is_binding, attempt, answer, has_credentials, reading)),
            PlatformStage::Unsure { attempt } => Some(resume(attempt, reading)),
            _ => None,
        }
    }
}

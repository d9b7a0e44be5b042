//! A driver as it crosses.
ghost use Rattle.std.specs.Prelude.{◌≡◌, Some, IfSome, IfNone, true, is_some};
ghost use Rattle.osb_c_types.specs.Answers.{IsNumbered, answer_of};
ghost use Rattle.osb_c_instance.specs.Holdings.{zero_answer};
ghost use Rattle.osb_c_instance.specs.Outcomes.{outcome_of};
ghost use Rattle.osb_c_driver.specs.Drivers.{IsPlainDriver, attempt_of, before_of, can_be, driver_of, is_number};
ghost use Rattle.osb_c_driver.specs.Drivers.{possible, stage_code, stage_of, task_of};
ghost use Rattle.osb_c_driver.specs.Workers.{has_worker, unknown, worker_of, working};
ghost use Rattle.osb_c_driver.specs.Reads.{is_owner};

use crate::workers::worker_from;
use osb_c_instance::outcome_from;
use osb_c_types::{
    OsbAnswer, OsbId, OsbRequest, answer_from, answer_out, request_from, request_out,
};
use osb_driver::{Driver, Stage, Task};
use osb_instance::{Rejection, WorkOutcome};
use osb_message::Answer;

/// The way of one request through a broker, or of one take-up. It says the one action that the program carries out
/// next.
#[repr(C)]
#[derive(Clone, Copy)]
pub struct OsbDriver {
    /// The driver's own number: 128 random bits that the program draws. Never zeroes.
    pub number: [u8; 16],
    /// At `Work`, if the work is pending: its request.
    pub task: OsbRequest,
    /// At `Answer` the answer to send; at `End`, if `has_answer` is true, the answer of an earlier try.
    pub answer: OsbAnswer,
    /// At `Work`: the status with which the backend has rejected the creation, or 0.
    pub rejection: u16,
    /// The number of the stage.
    pub stage: u8,
    /// At `End`: the number of the outcome.
    pub outcome: u8,
    /// At `Work`: the number of the call of the backend to make next. It is 0 if nobody knows how the work ended.
    pub call: u8,
    /// At `Work`, if the call is a look or a sync: the number of the look that is made, or that follows.
    pub look: u8,
    /// Whether the driver answers a request; if not, it is of a take-up.
    pub is_request: bool,
    /// At `Begin`: whether the driver has the lock.
    pub is_locked: bool,
    /// At `Work`: whether the work is pending; if not, it is the operation that runs.
    pub is_pending: bool,
    /// At `Work`: whether the work is a creation; if not, it is a deletion.
    pub creates: bool,
    /// At `End`: whether nobody knows if an earlier try was committed.
    pub has_answer: bool,
    /// At `Finish`: whether the operation succeeded.
    pub ok: bool,
}

/// The number of nobody.
pub const NOBODY: [u8; 16] = [0; 16];

const ZERO_ID: OsbId = OsbId { high: 0, low: 0 };

const ZERO_REQUEST: OsbRequest = OsbRequest {
    kind: 0,
    accepts_incomplete: false,
    id: ZERO_ID,
    service: ZERO_ID,
    plan: ZERO_ID,
};

const ZERO_ANSWER: OsbAnswer = OsbAnswer { status: 0, body: 0 };

// The number of a stage.
fn stage_out(stage: &Stage) -> u8
    ensures code { result ≡ stage_code stage.now }
{
    match *stage {
        Stage::TryLock => 0,
        Stage::Begin { .. } => 1,
        Stage::AwaitLock => 2,
        Stage::Work { .. } => 3,
        Stage::End { .. } => 4,
        Stage::Finish { .. } => 5,
        Stage::Unsure => 6,
        Stage::Answer { .. } => 7,
        Stage::Done => 8,
    }
}

/// The number of an outcome. It takes no memory.
pub fn outcome_out(outcome: WorkOutcome) -> u8
    ensures outcome { outcome_of result ≡ Some outcome }
{
    match outcome {
        WorkOutcome::Done => 0,
        WorkOutcome::Before => 1,
        WorkOutcome::After => 2,
        WorkOutcome::Refused(Rejection::BadRequest) => 3,
        WorkOutcome::Refused(Rejection::UnprocessableEntity) => 4,
    }
}

// The work that crossed.
fn task_from(driver: &OsbDriver) -> Option<Task>
    ensures task { result ≡ task_of driver.now }
{
    if !driver.is_pending {
        return Some(Task::Operation);
    }
    let request = request_from(&driver.task)?;
    Some(Task::Pending(request))
}

/// The answer of an earlier try that crossed, or none. It takes no memory.
pub fn before_from(driver: &OsbDriver) -> Option<Answer>
    ensures before { result ≡ before_of driver.now }
{
    if driver.has_answer {
        Some(answer_from(driver.answer))
    } else {
        None
    }
}

/// The stage that crossed, if its numbers stand for something. It takes no memory.
pub fn stage_from(driver: &OsbDriver) -> Option<Stage>
    ensures stage { result ≡ stage_of driver.now }
{
    match driver.stage {
        0 => Some(Stage::TryLock),
        1 => Some(Stage::Begin {
            locked: driver.is_locked,
        }),
        2 => Some(Stage::AwaitLock),
        3 => {
            let task = task_from(driver)?;
            Some(Stage::Work { task })
        }
        4 => {
            let outcome = outcome_from(driver.outcome)?;
            let before = before_from(driver);
            Some(Stage::End { outcome, before })
        }
        5 => Some(Stage::Finish { ok: driver.ok }),
        6 => Some(Stage::Unsure),
        7 => Some(Stage::Answer {
            answer: answer_from(driver.answer),
        }),
        8 => Some(Stage::Done),
        _ => None,
    }
}

/// Whether a driver of a request (`attempt`) or of a take-up can be at a stage. It takes no memory.
pub fn can_be(attempt: Option<u64>, stage: Stage) -> bool
    ensures can { result ≡ can_be attempt stage }
{
    match (attempt, stage) {
        (_, Stage::TryLock) => false,
        (Some(_), Stage::Finish { .. }) => false,
        (Some(_), Stage::Work { task }) => task != Task::Operation,
        (Some(_), _) => true,
        (None, Stage::Begin { locked }) => locked,
        (None, Stage::End { before, .. }) => before.is_none(),
        (None, Stage::AwaitLock | Stage::Unsure | Stage::Answer { .. }) => false,
        (None, _) => true,
    }
}

/// The attempt of the driver of a request, which a broker doesn't know, or none of a take-up. It takes no memory.
pub fn attempt_from(is_request: bool) -> Option<u64>
    ensures attempt { result ≡ attempt_of is_request }
{
    if is_request { Some(0) } else { None }
}

// The driver, if it can come about.
fn possible(driver: Driver) -> Option<Driver>
    ensures possible { result ≡ possible driver.attempt driver.stage }
    ensures can { IfSome result (λ d. can_be d.attempt d.stage ≡ true) }
{
    if can_be(driver.attempt, driver.stage) {
        Some(driver)
    } else {
        None
    }
}

// Whether the driver has a worker if it is at `Work`.
fn has_worker(driver: &OsbDriver) -> bool
    ensures has { result ≡ has_worker driver.now }
{
    driver.stage != 3 || worker_from(driver).is_some()
}

/// The driver that crossed, if a call gives such a one. It takes no memory.
pub fn driver_from(driver: &OsbDriver) -> Option<Driver>
    ensures driver { result ≡ driver_of driver.now }
    ensures can { IfSome result (λ d. can_be d.attempt d.stage ≡ true) }
{
    if driver.number == NOBODY || !has_worker(driver) {
        return None;
    }
    let stage = stage_from(driver)?;
    let attempt = attempt_from(driver.is_request);
    possible(Driver { attempt, stage })
}

/// Whether a row has the driver's number. It takes no memory.
pub fn is_owner(driver: &OsbDriver, number: &[u8; 16]) -> bool
    ensures owner { result ≡ is_owner driver.now number.now }
{
    driver.number == *number
}

/// Whether there is an answer. It takes no memory.
pub fn is_there(answer: Option<Answer>) -> bool
    ensures there { result ≡ is_some answer }
{
    answer.is_some()
}

/// The answer as it crosses, or zeroes. It takes no memory.
pub fn some_answer_out(answer: Option<Answer>) -> OsbAnswer
    ensures answer { IfSome answer (λ a. answer_of result ≡ a) }
    ensures none { IfNone answer (result ≡ zero_answer) }
    ensures numbered { IsNumbered result }
{
    match answer {
        Some(answer) => answer_out(answer),
        None => ZERO_ANSWER,
    }
}

// A driver with the members of a stage, each of which is zeroes before. Its number is the stage's. At `Work` nobody knows
// how the work ended: the worker is `unknown`.
fn with_stage(number: [u8; 16], is_request: bool, code: u8, stage: Stage) -> OsbDriver
    ensures stage { code ≡ stage_code stage → stage_of result ≡ Some stage }
    ensures number { result.number ≡ number }
    ensures request { result.is_request ≡ is_request }
    ensures code { result.stage ≡ code }
    ensures worker { code ≡ stage_code stage → worker_of result ≡ working stage unknown }
    ensures has_worker { code ≡ stage_code stage → has_worker result ≡ true }
    ensures plain { code ≡ stage_code stage → IsPlainDriver result }
{
    let plain = OsbDriver {
        number,
        task: ZERO_REQUEST,
        answer: ZERO_ANSWER,
        rejection: 0,
        stage: code,
        outcome: 0,
        call: 0,
        look: 0,
        is_request,
        is_locked: false,
        is_pending: false,
        creates: false,
        has_answer: false,
        ok: false,
    };
    match stage {
        Stage::Begin { locked } => OsbDriver {
            is_locked: locked,
            ..plain
        },
        Stage::Work {
            task: Task::Pending(request),
        } => OsbDriver {
            task: request_out(request),
            is_pending: true,
            ..plain
        },
        Stage::End { outcome, before } => OsbDriver {
            answer: some_answer_out(before),
            outcome: outcome_out(outcome),
            has_answer: is_there(before),
            ..plain
        },
        Stage::Finish { ok } => OsbDriver { ok, ..plain },
        Stage::Answer { answer } => OsbDriver {
            answer: answer_out(answer),
            ..plain
        },
        _ => plain,
    }
}

/// The driver of a request or of a take-up at a stage, as it crosses. It takes no memory.
pub fn stage_of_driver(number: [u8; 16], is_request: bool, stage: Stage) -> OsbDriver
    ensures stage { stage_of result ≡ Some stage }
    ensures number { result.number ≡ number }
    ensures request { result.is_request ≡ is_request }
    ensures code { result.stage ≡ stage_code stage }
    ensures worker { worker_of result ≡ working stage unknown }
    ensures has_worker { has_worker result ≡ true }
    ensures plain { IsPlainDriver result }
{
    let code = stage_out(&stage);
    with_stage(number, is_request, code, stage)
}

// The driver at its next stage, as it crosses: of the one that crossed, with its number. At `Work` nobody knows how the
// work ended.
pub(crate) fn moved(driver: &OsbDriver, after: Driver) -> OsbDriver
    ensures moved { (before : Driver) → driver_of driver.now ≡ Some before → after.attempt ≡ before.attempt
        → can_be after.attempt after.stage ≡ true → driver_of result ≡ Some after }
    ensures number { result.number ≡ driver.now.number }
    ensures request { result.is_request ≡ driver.now.is_request }
    ensures stage { stage_of result ≡ Some after.stage }
    ensures code { result.stage ≡ stage_code after.stage }
    ensures worker { worker_of result ≡ working after.stage unknown }
    ensures plain { IsPlainDriver result }
{
    stage_of_driver(driver.number, driver.is_request, after.stage)
}

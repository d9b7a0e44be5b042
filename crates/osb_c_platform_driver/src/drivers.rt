//! A driver as it crosses.
ghost use Rattle.std.specs.Prelude.{◌≡◌, Some, IfSome, IfNone, true, is_some};
ghost use Rattle.osb_binding_platform_driver.specs.Driver.{at};
ghost use Rattle.osb_c_types.specs.Answers.{IsNumbered, answer_of};
ghost use Rattle.osb_c_instance.specs.Holdings.{zero_answer};
ghost use Rattle.osb_c_platform_driver.specs.Drivers.{IsPlainDriver, can_be, driver_of, heard_of, is_number};
ghost use Rattle.osb_c_platform_driver.specs.Drivers.{possible, stage_code, stage_of};

use osb_binding_platform_driver::{PlatformDriver, PlatformStage, ends_polling};
use osb_c_types::{
    OsbAnswer, OsbId, OsbRequest, answer_from, answer_out, request_from, request_out,
};
use osb_instance::Sent;
use osb_message::{Answer, Kind};

/// The way of one request of a platform. It says the one action that the program carries out next.
#[repr(C)]
#[derive(Clone, Copy)]
pub struct OsbPlatformDriver {
    /// The driver's own number: 128 random bits that the program draws. Never zeroes.
    pub number: [u8; 16],
    /// At `Send`, `Fetch`, `Take` and `Unsure`: the number of the request.
    pub attempt: u64,
    /// At `Send`: the request to send. That of a binding has the binding's id.
    pub request: OsbRequest,
    /// At `Fetch`, and at `Take` if `has_answer` is true: the answer.
    pub answer: OsbAnswer,
    /// The number of the stage.
    pub stage: u8,
    /// Whether the driver is of a binding; if not, it is of an instance.
    pub is_binding: bool,
    /// At `Take`: whether there is an answer.
    pub has_answer: bool,
    /// At `Take`, of a binding: whether the credentials came, and are sealed.
    pub has_credentials: bool,
    /// At `Send`, of a binding: whether an answer that the binding is ready is taken only together with a Fetch's.
    pub fetches: bool,
}

// The number of nobody.
pub(crate) const NOBODY: [u8; 16] = [0; 16];

const ZERO_ID: OsbId = OsbId { high: 0, low: 0 };

const ZERO_REQUEST: OsbRequest = OsbRequest {
    kind: 0,
    accepts_incomplete: false,
    id: ZERO_ID,
    service: ZERO_ID,
    plan: ZERO_ID,
};

const ZERO_ANSWER: OsbAnswer = OsbAnswer { status: 0, body: 0 };

// The number of a stage.
fn stage_out(stage: &PlatformStage) -> u8
    ensures code { result ≡ stage_code stage.now }
{
    match *stage {
        PlatformStage::Claim => 0,
        PlatformStage::Send { .. } => 1,
        PlatformStage::Fetch { .. } => 2,
        PlatformStage::Take { .. } => 3,
        PlatformStage::Unsure { .. } => 4,
        PlatformStage::Done => 5,
    }
}

// The answer that crossed, or none.
fn heard_from(driver: &OsbPlatformDriver) -> Option<Answer>
    ensures heard { result ≡ heard_of driver.now }
{
    if driver.has_answer {
        Some(answer_from(driver.answer))
    } else {
        None
    }
}

// The stage that crossed, if its numbers stand for something.
fn stage_from(driver: &OsbPlatformDriver) -> Option<PlatformStage>
    ensures stage { result ≡ stage_of driver.now }
{
    let attempt = driver.attempt;
    match driver.stage {
        0 => Some(PlatformStage::Claim),
        1 => {
            let request = request_from(&driver.request)?;
            Some(PlatformStage::Send {
                sent: Sent { request, attempt },
                fetches: driver.fetches,
            })
        }
        2 => Some(PlatformStage::Fetch {
            attempt,
            answer: answer_from(driver.answer),
        }),
        3 => {
            let answer = heard_from(driver);
            Some(PlatformStage::Take {
                attempt,
                answer,
                has_credentials: driver.has_credentials,
            })
        }
        4 => Some(PlatformStage::Unsure { attempt }),
        5 => Some(PlatformStage::Done),
        _ => None,
    }
}

// Whether a driver of a binding or of an instance can be at a stage.
fn can_be(is_binding: bool, stage: &PlatformStage) -> bool
    ensures can { result ≡ can_be is_binding stage.now }
{
    match *stage {
        PlatformStage::Send { sent, fetches } => {
            sent.attempt != 0 && (!fetches || (is_binding && sent.request.kind == Kind::Poll))
        }
        PlatformStage::Fetch { attempt, answer } => {
            attempt != 0 && (is_binding && ends_polling(answer))
        }
        PlatformStage::Take {
            attempt,
            answer,
            has_credentials,
        } => attempt != 0 && (!has_credentials || (is_binding && answer.is_some())),
        PlatformStage::Unsure { attempt } => attempt != 0,
        _ => true,
    }
}

// The driver, if it can come about.
fn possible(is_binding: bool, stage: PlatformStage) -> Option<PlatformDriver>
    ensures possible { result ≡ possible is_binding stage }
    ensures can { IfSome result (λ d. can_be d.is_binding d.stage ≡ true) }
{
    if can_be(is_binding, &stage) {
        Some(PlatformDriver { is_binding, stage })
    } else {
        None
    }
}

/// The driver that crossed, if a call gives such a one. It takes no memory.
pub fn driver_from(driver: &OsbPlatformDriver) -> Option<PlatformDriver>
    ensures driver { result ≡ driver_of driver.now }
    ensures can { IfSome result (λ d. can_be d.is_binding d.stage ≡ true) }
{
    if driver.number == NOBODY {
        return None;
    }
    let stage = stage_from(driver)?;
    possible(driver.is_binding, stage)
}

// Whether there is an answer.
fn is_there(answer: Option<Answer>) -> bool
    ensures there { result ≡ is_some answer }
{
    answer.is_some()
}

// The answer as it crosses, or zeroes.
fn some_answer_out(answer: Option<Answer>) -> OsbAnswer
    ensures answer { IfSome answer (λ a. answer_of result ≡ a) }
    ensures none { IfNone answer (result ≡ zero_answer) }
    ensures numbered { IsNumbered result }
{
    match answer {
        Some(answer) => answer_out(answer),
        None => ZERO_ANSWER,
    }
}

// A driver with the members of a stage, each of which is zeroes before. Its number is the stage's.
fn with_stage(
    number: [u8; 16],
    is_binding: bool,
    code: u8,
    stage: PlatformStage,
) -> OsbPlatformDriver
    ensures stage { code ≡ stage_code stage → stage_of result ≡ Some stage }
    ensures number { result.number ≡ number }
    ensures binding { result.is_binding ≡ is_binding }
    ensures plain { code ≡ stage_code stage → IsPlainDriver result }
{
    let plain = OsbPlatformDriver {
        number,
        attempt: 0,
        request: ZERO_REQUEST,
        answer: ZERO_ANSWER,
        stage: code,
        is_binding,
        has_answer: false,
        has_credentials: false,
        fetches: false,
    };
    match stage {
        PlatformStage::Send { sent, fetches } => OsbPlatformDriver {
            attempt: sent.attempt,
            request: request_out(sent.request),
            fetches,
            ..plain
        },
        PlatformStage::Fetch { attempt, answer } => OsbPlatformDriver {
            attempt,
            answer: answer_out(answer),
            ..plain
        },
        PlatformStage::Take {
            attempt,
            answer,
            has_credentials,
        } => OsbPlatformDriver {
            attempt,
            answer: some_answer_out(answer),
            has_answer: is_there(answer),
            has_credentials,
            ..plain
        },
        PlatformStage::Unsure { attempt } => OsbPlatformDriver { attempt, ..plain },
        _ => plain,
    }
}

// The driver of this number at a stage, as it crosses.
pub(crate) fn driver_at(
    number: [u8; 16],
    is_binding: bool,
    stage: PlatformStage,
) -> OsbPlatformDriver
    ensures stage { stage_of result ≡ Some stage }
    ensures number { result.number ≡ number }
    ensures binding { result.is_binding ≡ is_binding }
    ensures plain { IsPlainDriver result }
{
    let code = stage_out(&stage);
    with_stage(number, is_binding, code, stage)
}

/// The driver at another stage, as it crosses: of the one that crossed, with its number. It takes no memory.
pub fn moved(driver: &OsbPlatformDriver, stage: PlatformStage) -> OsbPlatformDriver
    ensures moved { (before : PlatformDriver) → driver_of driver.now ≡ Some before
        → can_be before.is_binding stage ≡ true → driver_of result ≡ Some (at before stage) }
    ensures number { result.number ≡ driver.now.number }
    ensures plain { IsPlainDriver result }
{
    driver_at(driver.number, driver.is_binding, stage)
}

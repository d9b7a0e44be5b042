//! The numbers that stand for how the pending work of an Update ends, and for how it is done.
ghost use Rattle.std.specs.Prelude.{◌≡◌, Some};
ghost use Rattle.osb_c_update.specs.Outcomes.{outcome_of, way_of};

use osb_instance::Rejection;
use osb_message::Mode;
use osb_update::UpdateOutcome;

/// The outcome that a number stands for. It takes no memory.
pub fn outcome_from(code: u8) -> Option<UpdateOutcome>
    ensures outcome { result ≡ outcome_of code }
{
    match code {
        0 => Some(UpdateOutcome::Done),
        1 => Some(UpdateOutcome::Before),
        2 => Some(UpdateOutcome::After),
        3 => Some(UpdateOutcome::Refused(Rejection::BadRequest)),
        4 => Some(UpdateOutcome::Refused(Rejection::UnprocessableEntity)),
        5 => Some(UpdateOutcome::Failed),
        _ => None,
    }
}

/// How work is done, by the number of the mode. It takes no memory.
pub fn way_from(code: u8) -> Option<Mode>
    ensures way { result ≡ way_of code }
{
    match code {
        0 => Some(Mode::Sync),
        1 => Some(Mode::Async),
        _ => None,
    }
}

/// The number of how work is done. It takes no memory.
pub fn way_out(mode: Mode) -> u8
    ensures way { way_of result ≡ Some mode }
{
    match mode {
        Mode::Sync => 0,
        Mode::Async => 1,
    }
}

//! The numbers that stand for how pending work ends.
ghost use Rattle.std.specs.Prelude.{◌≡◌};
ghost use Rattle.osb_c_instance.specs.Outcomes.{outcome_of};

use osb_instance::{Rejection, WorkOutcome};

/// The outcome that a number stands for. It takes no memory.
pub fn outcome_from(code: u8) -> Option<WorkOutcome>
    ensures outcome { result ≡ outcome_of code }
{
    match code {
        0 => Some(WorkOutcome::Done),
        1 => Some(WorkOutcome::Before),
        2 => Some(WorkOutcome::After),
        3 => Some(WorkOutcome::Refused(Rejection::BadRequest)),
        4 => Some(WorkOutcome::Refused(Rejection::UnprocessableEntity)),
        _ => None,
    }
}

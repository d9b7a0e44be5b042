//! What a record becomes by the answer to a Poll or to a Deprovision. Neither call takes memory.
ghost use Rattle.std.specs.Prelude.{◌≡◌};
ghost use Rattle.osb_platform.specs.State.{state_after_poll, state_after_deprovision};
ghost use Rattle.osb_c_types.specs.Answers.{answer_of};
ghost use Rattle.osb_c_types.specs.States.{state_code, code_after};

use osb_c_types::{NO_STATE, OsbAnswer, answer_from, state_from, state_out};

/// The number of the record of an instance in this state after the answer to its Poll (section Polling Last
/// Operation for Service Instances; the records are this project's choice), and 255 where the number stands
/// for no state.
#[unsafe(no_mangle)]
pub extern "C" fn osb_decide_poll(state: u8, answer: OsbAnswer) -> u8
    ensures state { result ≡ code_after (λ s. state_after_poll s (answer_of answer)) state }
{
    match state_from(state) {
        Some(state) => state_out(osb_platform::decide_poll(state, answer_from(answer))),
        None => NO_STATE,
    }
}

/// The number of the record of a `cleaning` instance after the answer to its Deprovision (section
/// Deprovisioning; the records are this project's choice).
#[unsafe(no_mangle)]
pub extern "C" fn osb_decide_deprovision(answer: OsbAnswer) -> u8
    ensures state { result ≡ state_code (state_after_deprovision (answer_of answer)) }
{
    state_out(osb_platform::decide_deprovision(answer_from(answer)))
}

//! What comes of an Update at once, as it crosses.
ghost use Rattle.std.specs.Prelude.{◌≡◌, ◌↔◌, Some, true};
ghost use Rattle.osb_update.specs.Begun.{IsWork};
ghost use Rattle.osb_c_update.specs.Begun.{IsPlainBegun, begun_of};

use crate::outcomes::way_out;
use crate::settings::{OsbSettings, no_settings, settings_out};
use osb_c_types::{OsbAnswer, answer_out};
use osb_update::UpdateBegun;

/// What comes of an Update at once.
#[repr(C)]
#[derive(Clone, Copy)]
pub struct OsbUpdateBegun {
    /// The settings to which the work leads, which count if `has_work` is true.
    pub to: OsbSettings,
    /// The answer to send, which counts if both others are false.
    pub answer: OsbAnswer,
    /// The number of the mode in which the work is done, which counts if `has_work` is true.
    pub mode: u8,
    /// Whether work is due and pending.
    pub has_work: bool,
    /// Whether the answer is 422 `MaintenanceInfoConflict`.
    pub is_maintenance_conflict: bool,
}

const ZERO_ANSWER: OsbAnswer = OsbAnswer { status: 0, body: 0 };

/// What comes of an Update as it crosses. It takes no memory.
pub fn begun_out(begun: &UpdateBegun) -> OsbUpdateBegun
    ensures begun { begun_of result ≡ Some begun.now }
    ensures work { (result.has_work ≡ true) ↔ IsWork begun.now }
    ensures plain { IsPlainBegun result }
{
    match begun {
        UpdateBegun::Answered(answer) => OsbUpdateBegun {
            to: no_settings(),
            answer: answer_out(*answer),
            mode: 0,
            has_work: false,
            is_maintenance_conflict: false,
        },
        UpdateBegun::MaintenanceInfoConflict => OsbUpdateBegun {
            to: no_settings(),
            answer: ZERO_ANSWER,
            mode: 0,
            has_work: false,
            is_maintenance_conflict: true,
        },
        UpdateBegun::Work(mode, to) => OsbUpdateBegun {
            to: settings_out(to),
            answer: ZERO_ANSWER,
            mode: way_out(*mode),
            has_work: true,
            is_maintenance_conflict: false,
        },
    }
}

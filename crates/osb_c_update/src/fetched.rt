//! What comes of a Fetch of the instance, as it crosses.
ghost use Rattle.std.specs.Prelude.{◌≡◌};
ghost use Rattle.osb_c_update.specs.Begun.{IsPlainFetched, fetched_of};

use crate::settings::{OsbSettings, no_settings, settings_out};
use osb_c_types::{OsbAnswer, answer_out};
use osb_update::Fetched;

/// What comes of a Fetch of the instance.
#[repr(C)]
#[derive(Clone, Copy)]
pub struct OsbUpdateFetched {
    /// The settings to report with the status 200, which count if `is_found` is true.
    pub settings: OsbSettings,
    /// The number of the newest Update that was judged, or 0, which counts if `is_found` is true.
    pub number: u64,
    /// The answer, which counts if `is_found` is false.
    pub answer: OsbAnswer,
    /// Whether the answer has the status 200, with the settings and the number.
    pub is_found: bool,
}

/// What comes of a Fetch as it crosses. It takes no memory.
pub fn fetched_out(fetched: &Fetched) -> OsbUpdateFetched
    ensures fetched { fetched_of result ≡ fetched.now }
    ensures plain { IsPlainFetched result }
{
    match fetched {
        Fetched::Found(settings, number) => OsbUpdateFetched {
            settings: settings_out(settings),
            number: *number,
            answer: OsbAnswer { status: 0, body: 0 },
            is_found: true,
        },
        Fetched::Answered(answer) => OsbUpdateFetched {
            settings: no_settings(),
            number: 0,
            answer: answer_out(*answer),
            is_found: false,
        },
    }
}

//! The orphan mitigation table of the standard (section Orphan Mitigation).
ghost use Rattle.std.specs.Prelude.{◌≡◌};
ghost use Rattle.osb_platform.specs.Mitigation.{mitigate};

use osb_message::{Answer, Kind, well_formed};

/// Whether the platform has to clean up after this answer to a Provision: the broker may hold an
/// instance that nobody knows of (section Orphan Mitigation).
///
/// It takes any status with any body, and no memory. That a 200 which can't be read isn't mitigated,
/// that a 201 which can't be read is, as a 202 like it, that 408 isn't, and that every status which
/// the standard doesn't name is, are this project's choice. The Provision that gets no answer at all
/// is [`decide_timeout`](crate::decide_timeout)'s.
pub fn mitigates(answer: Answer) -> bool
    ensures mitigated { result ≡ mitigate answer }
{
    match answer.status {
        200 => false,
        201 | 202 => !well_formed(Kind::Provision, answer),
        203..=299 => true,
        400..=499 => false,
        500..=599 => true,
        // No answer of the standard: the instance may be there.
        _ => true,
    }
}

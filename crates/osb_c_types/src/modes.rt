//! The numbers that stand for how a plan works.
ghost use Rattle.std.specs.Prelude.{◌≡◌};
ghost use Rattle.osb_c_types.specs.Modes.{mode_of};

use osb_message::Mode;

/// The mode that a number stands for, none of a plan that isn't on sale.
pub fn mode_from(code: u8) -> Option<Option<Mode>>
    ensures mode { result ≡ mode_of code }
{
    match code {
        0 => Some(Some(Mode::Sync)),
        1 => Some(Some(Mode::Async)),
        255 => Some(None),
        _ => None,
    }
}

//! What the target of a request names.
ghost use Rattle.std.specs.Prelude.{◌≡◌};
ghost use Rattle.std.specs.Str.{IsUtf8};
ghost use Rattle.form_urlencoded.specs.Form.{split_once};
ghost use Rattle.osb_binding_wire.specs.Places.{target_in};
ghost use Rattle.osb_c_binding_wire.specs.Targets.{code_or_none, target_code};

use osb_binding_wire::{Target, read_target};

// Stands for nothing that a broker serves.
const NO_TARGET: u8 = 0;

// The number of what a target names.
fn target_out(target: Target) -> u8
    ensures code { result ≡ target_code target }
{
    match target {
        Target::Catalogue => 1,
        Target::Instance => 2,
        Target::InstanceOperation => 3,
        Target::Binding => 4,
        Target::BindingOperation => 5,
    }
}

/// What a target (the path and the query, as the request line has them) names, after the broker's prefix, which is empty
/// or what the broker's own URL has before `/v2`: whatever the method is and the ids are. The path may be in absolute
/// form, and have more slashes at its front and one at its end; the query counts for nothing (which forms of the path are
/// taken is this project's choice). It is 0 where the target names nothing that a broker serves: then
/// `osb_receive_request` and `osb_receive_binding_request` return `RefusedTarget`. It is 0 too where the prefix isn't
/// UTF-8. It takes no memory.
#[unsafe(no_mangle)]
pub extern "C" fn osb_read_target(prefix: &[u8], target: &[u8]) -> u8
    ensures target { IsUtf8 prefix.now
        → result ≡ code_or_none (target_in prefix.now ((split_once 63 target.now).0)) }
    ensures not_utf8 { ¬ (IsUtf8 prefix.now) → result ≡ 0 }
{
    let Ok(prefix) = std::str::from_utf8(prefix) else {
        return NO_TARGET;
    };
    match read_target(prefix, target) {
        Some(target) => target_out(target),
        None => NO_TARGET,
    }
}

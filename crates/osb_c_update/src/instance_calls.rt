//! What an update under way asks of the requests of its instance.
ghost use Rattle.std.specs.Prelude.{◌≡◌, ◌≢◌, ◌↔◌, ◌⊎◌, [], ◌∷◌, Some, true, false};
ghost use Rattle.std.specs.Prelude.{IsTrue, IsSome, IsNone, IsSomeAnd};
ghost use Rattle.osb_instance.specs.Begin.{begun_if, is_held};
ghost use Rattle.osb_instance.specs.Fits.{fits};
ghost use Rattle.osb_update.specs.Begun.{is_under_way, may_begin};
ghost use Rattle.osb_c_types.specs.Kinds.{kind_of};
ghost use Rattle.osb_c_types.specs.Modes.{mode_of};
ghost use Rattle.osb_c_types.specs.Status.{code, is_one_of};
ghost use Rattle.osb_c_instance.specs.Holdings.{IsPlain, IsPlainBegun, begun_of, digest_of, held_of};
ghost use Rattle.osb_c_update.specs.Holdings.{holding_of};
ghost use Rattle.osb_c_update.specs.Instances.{IsAskedOf};

use crate::holdings::{OsbUpdateHolding, holding_from};
use osb_c_instance::{OsbBegun, OsbHolding, begun_out, held_from, held_out};
use osb_c_types::{OsbRequest, Status, mode_from, request_from};
use osb_instance::Digest;

/// Begins with a request to an instance of which an update may be under way, as `osb_holding_begin_if` does. `any_held`
/// is whether the broker holds a binding of the instance (`osb_holding_is_held`). If it does, or while an update is
/// under way, nothing begins: a Deprovision whose work would be due is answered with 422 `ConcurrencyError`, and
/// nothing changes (this project's choice). `holding` and whether bindings are held are read in the transaction that
/// writes `instance`. It takes no memory.
///
/// It returns `Done`, or the first of these that fits: `BadHolding` if one of the holdings is none that a call gives,
/// `BadMode` if the number stands for no mode, `BadKind` if that of the request's kind stands for none. If it isn't
/// `Done`, the instance's holding and what comes of the request are as before.
#[unsafe(no_mangle)]
pub extern "C" fn osb_update_begin_instance(
    holding: &OsbUpdateHolding,
    instance: &mut OsbHolding,
    mode: u8,
    first_poll: bool,
    request: &OsbRequest,
    attributes: &[u8; 32],
    any_held: bool,
    given: &mut OsbBegun,
) -> u32
    ensures begun { result ≡ code Status.Done
        → IsAskedOf holding.now instance.old mode request.now (λ held i m asked.
        (held_of instance.new ≡ Some
        (begun_if (may_begin any_held held.phase) m first_poll i asked (digest_of attributes.now)).0)
        × (begun_of given.new ≡ Some
        (begun_if (may_begin any_held held.phase) m first_poll i asked (digest_of attributes.now)).1)) }
    ensures nothing_begins { result ≡ code Status.Done
        → IsAskedOf holding.now instance.old mode request.now (λ held i m asked.
        is_under_way held.phase ≡ true → given.new.work ≡ 0) }
    ensures unheld { result ≡ code Status.Done
        → IsAskedOf holding.now instance.old mode request.now (λ held i m asked.
        is_under_way held.phase ≡ true → is_held i ≡ false
        → IsSomeAnd (held_of instance.new) (λ after. is_held after ≡ false)) }
    ensures fits { result ≡ code Status.Done
        → IsAskedOf holding.now instance.old mode request.now (λ held i m asked.
        fits m i ≡ true → IsSomeAnd (held_of instance.new) (λ after. fits m after ≡ true)) }
    ensures plain { result ≡ code Status.Done → IsPlain instance.new × IsPlainBegun given.new }

    ensures bad_holding { (result ≡ code Status.BadHolding)
        ↔ (IsNone (holding_of holding.now) ⊎ IsNone (held_of instance.old)) }
    ensures bad_mode { (result ≡ code Status.BadMode)
        ↔ (IsSome (holding_of holding.now) × IsSome (held_of instance.old) × IsNone (mode_of mode)) }
    ensures bad_kind { (result ≡ code Status.BadKind) ↔ (IsSome (holding_of holding.now)
        × IsSome (held_of instance.old) × IsSome (mode_of mode) × IsNone (kind_of request.now.kind)) }
    ensures statuses { IsTrue (is_one_of
        (Status.Done ∷ Status.BadHolding ∷ Status.BadMode ∷ Status.BadKind ∷ []) result) }
    ensures unwritten { result ≢ code Status.Done → instance.new ≡ instance.old }
    ensures ungiven { result ≢ code Status.Done → given.new ≡ given.old }
{
    let Some(held) = holding_from(holding) else {
        return Status::BadHolding.code();
    };
    let Some(before) = held_from(instance) else {
        return Status::BadHolding.code();
    };
    let Some(mode) = mode_from(mode) else {
        return Status::BadMode.code();
    };
    let Some(asked) = request_from(request) else {
        return Status::BadKind.code();
    };
    let digest = Digest { bytes: *attributes };
    let (after, begun) = held.begin_instance(before, mode, first_poll, &asked, digest, any_held);
    *instance = held_out(after);
    *given = begun_out(begun);
    Status::Done.code()
}

//! What a driver of a binding does next.
ghost use Rattle.std.specs.Prelude.{◌≡◌, false};
ghost use Rattle.osb_binding.specs.Begun.{is_forgotten, may_begin};
ghost use Rattle.osb_binding.specs.Requests.{life_request};
ghost use Rattle.osb_driver.specs.Driver as instances;
ghost use Rattle.osb_binding_driver.specs.Driver.{binding_transaction, is_put_off, permit};

use osb_binding::{BindingHolding, BindingRequest};
use osb_driver::{Driver, Permit, Stage, Transaction};
use osb_instance::{Digest, Holding};
use osb_message::{Kind, Mode};

// Whether the instance lets something of the binding begin.
fn may_begin(instance: Holding, request: &BindingRequest) -> bool
    ensures may { result ≡ may_begin instance request.now }
{
    request.kind != Kind::Provision || instance.is_there(request.service, request.plan)
}

// Whether nothing is kept of the binding, and its instance has ended.
fn is_forgotten(instance: Holding, row: BindingHolding) -> bool
    ensures forgotten { result ≡ is_forgotten instance row }
{
    instance.has_tombstone() && !row.is_held() && !row.has_tombstone()
}

// Whether the request is put off.
fn is_put_off(
    instance: Holding,
    mode: Option<Mode>,
    row: BindingHolding,
    request: &BindingRequest,
    attributes: Digest,
) -> bool
    ensures put_off { result ≡ is_put_off instance mode row request.now attributes }
{
    if is_forgotten(instance, row) {
        return request.kind == Kind::Provision;
    }
    let asked = request.as_request();
    !may_begin(instance, request) && row.as_holding().begins(mode, &asked, attributes)
}

/// Returns the transaction of this driver of a binding by the two rows that it reads and locks; `None` at a stage that
/// has none. As [`Driver::transaction`], but by what comes of a request at a binding ([`BindingHolding::begin`]): a
/// Bind begins only while its instance is there, and after the end of the instance nothing is written of a binding of
/// which nothing is kept. `may_give_up` is whether the binding has waited too long for its first Poll.
pub fn transaction(
    driver: &Driver,
    is_owner: bool,
    may_give_up: bool,
    mode: Option<Mode>,
    first_poll: bool,
    row: BindingHolding,
    instance: Holding,
    request: &BindingRequest,
    attributes: Digest,
) -> Option<Transaction>
    ensures tx { result ≡ binding_transaction driver.now.attempt driver.now.stage is_owner may_give_up mode first_poll
        row instance request.now attributes }
    ensures permitted { is_forgotten instance row ≡ false
        → result ≡ instances.transaction driver.now.attempt driver.now.stage is_owner
        (permit instance request.now may_give_up) mode first_poll row (life_request request.now) attributes }
{
    let asked = request.as_request();
    match (driver.stage, driver.attempt) {
        (Stage::Begin { locked }, Some(_)) => {
            let put_off = is_put_off(instance, mode, row, request, attributes);
            let (after, begun) = row.begin(instance, mode, first_poll, request, attributes);
            Some(Driver::begun(
                locked,
                is_owner,
                put_off,
                row.as_holding(),
                &asked,
                (after.as_holding(), begun),
            ))
        }
        _ => {
            let permit = Permit {
                begin: may_begin(instance, request),
                give_up: may_give_up,
            };
            driver.transaction(
                is_owner,
                permit,
                mode,
                first_poll,
                row.as_holding(),
                &asked,
                attributes,
            )
        }
    }
}

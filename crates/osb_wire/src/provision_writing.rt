//! The body of a Provision, written.
ghost use Rattle.std.specs.Prelude.{◌≡◌, ◌≢◌, ◌≤◌, ℕ, List, [], Some, Ok, IfOk, OnOk, OnErr, codes, option_and_then, string_bytes};
ghost use Rattle.serde_json.specs.Data.{string, object, put, depth};
ghost use Rattle.serde_json.specs.Find.{get, get_member};
ghost use Rattle.serde_json.specs.Read.{read, max_depth};
ghost use Rattle.serde_json.specs.View.{view, members_view};
ghost use Rattle.serde_json.specs.Written.{IsInOrder};
ghost use Rattle.osb_json.specs.Members.{text_at};
ghost use Rattle.osb_wire.specs.Bodies.{object_in};
ghost use Rattle.osb_wire.specs.IdTexts.{number_of};
ghost use Rattle.osb_wire.specs.Provisions as provisions;

use osb_message::Memory;
use serde_json::{Map, Value};
use std::alloc::{AllocError, Global};

/// Puts a text under a name.
///
/// # Errors
///
/// [`AllocError`] if an allocation failed. The members are then as before.
pub fn put_text(
    alloc: Global,
    members: &mut Map<String, Value>,
    name: &str,
    text: &str,
) -> Result<(), AllocError>
    ensures put { OnOk result (members_view members.new.entries
        ≡ put name.now (string text.now) (members_view members.old.entries)) }
    ensures err { OnErr result (members.new.entries ≡ members.old.entries) }
{
    let value = Value::try_from_str(alloc, text)?;
    serde_json::put(members, alloc, name, value)
}

// The value of a body.
fn provision_value(
    alloc: Global,
    service: &str,
    plan: &str,
    organization: &str,
    space: &str,
    further: Map<String, Value>,
) -> Result<Value, AllocError>
    ensures value { IfOk result (λ value. view value ≡ object (provisions.members_with
        service.now plan.now organization.now space.now (members_view further.entries))) }
{
    let mut members = further;
    put_text(alloc, &mut members, "service_id", service)?;
    put_text(alloc, &mut members, "plan_id", plan)?;
    put_text(alloc, &mut members, "organization_guid", organization)?;
    put_text(alloc, &mut members, "space_guid", space)?;
    Ok(Value::Object(members))
}

// The body of a Provision: an object of `service_id`, `plan_id`, `organization_guid`, `space_guid` and
// the further members, of which none stands in place of the first four.
pub(crate) fn write_provision(
    alloc: Global,
    service: &str,
    plan: &str,
    organization: &str,
    space: &str,
    further: Map<String, Value>,
) -> Result<String, Memory>
    ensures object { depth (object (members_view further.entries)) ≤ max_depth
        → IfOk result (λ text. read (string_bytes text) ≡ Some (object (provisions.members_with
        service.now plan.now organization.now space.now (members_view further.entries)))) }
    ensures back { (s p : ℕ) → number_of service.now ≡ Some s → number_of plan.now ≡ Some p
        → depth (object (members_view further.entries)) ≤ max_depth
        → organization.now ≢ [] → space.now ≢ []
        → IfOk result (λ text. provisions.provision_in (string_bytes text) ≡ Ok (s, p)) }
    ensures texts { depth (object (members_view further.entries)) ≤ max_depth → IfOk result
        (λ text. (option_and_then (text_at (codes "service_id")) (object_in (string_bytes text)) ≡ Some service.now)
        × (option_and_then (text_at (codes "plan_id")) (object_in (string_bytes text)) ≡ Some plan.now)) }
    ensures kept { (name : List ℕ) → provisions.IsFurther name
        → depth (object (members_view further.entries)) ≤ max_depth
        → IfOk result (λ text. option_and_then (get name) (read (string_bytes text))
        ≡ get_member name (members_view further.entries)) }
    ensures order { IfOk result (λ text. IsInOrder (string_bytes text) (object (provisions.members_with
        service.now plan.now organization.now space.now (members_view further.entries)))) }
{
    let value = provision_value(alloc, service, plan, organization, space, further)?;
    let text = value.to_string(alloc)?;
    Ok(text)
}

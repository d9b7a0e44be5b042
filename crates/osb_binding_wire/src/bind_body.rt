//! The body of a Bind, read and written.
ghost use Rattle.std.specs.Prelude.{◌≡◌, ◌≤◌, ◌⊎◌, ℕ, List, Some, Ok, Err, IfOk, IfErr, codes, option_and_then, string_bytes};
ghost use Rattle.serde_json.specs.Data.{object, depth};
ghost use Rattle.serde_json.specs.Find.{get, get_member};
ghost use Rattle.serde_json.specs.Read.{read, max_depth};
ghost use Rattle.serde_json.specs.View.{view, members_view};
ghost use Rattle.serde_json.specs.Written.{IsInOrder};
ghost use Rattle.osb_json.specs.Members.{text_at};
ghost use Rattle.osb_wire.specs.Bodies.{object_in};
ghost use Rattle.osb_wire.specs.IdTexts.{number_of};
ghost use Rattle.osb_binding_wire.specs.Binds as binds;

use osb_message::{Memory, PlanId, ServiceId};
use osb_wire::Refusal;
use osb_wire::json_body::read_object;
use osb_wire::provision_reading::member_id;
use osb_wire::provision_writing::put_text;
use serde_json::{Map, Value};
use std::alloc::{AllocError, Global};

// The service and the plan that an object names.
fn read_members(object: &Value) -> Result<(ServiceId, PlanId), Refusal>
    ensures named { result ≡ binds.named_in (view object.now) }
{
    let service = match member_id(object, "service_id", Refusal::BadService) {
        Ok(service) => service,
        Err(fault) => return Err(fault),
    };
    match member_id(object, "plan_id", Refusal::BadPlan) {
        Ok(plan) => Ok((service, plan)),
        Err(fault) => Err(fault),
    }
}

// The service and the plan that the body of a Bind names.
pub(crate) fn read_bind(alloc: Global, body: &[u8]) -> Result<(ServiceId, PlanId), Refusal>
    ensures ok { IfOk result (λ named. binds.bind_in body.now ≡ Ok named) }
    ensures err { IfErr result (λ fault. (fault ≡ Refusal.Memory) ⊎ (binds.bind_in body.now ≡ Err fault)) }
{
    let Ok(object) = read_object(alloc, body) else {
        return Err(Refusal::Memory);
    };
    match &object {
        Some(object) => read_members(object),
        None => Err(Refusal::NotAnObject),
    }
}

// The value of a body.
fn bind_value(
    alloc: Global,
    service: &str,
    plan: &str,
    further: Map<String, Value>,
) -> Result<Value, AllocError>
    ensures value { IfOk result (λ value. view value
        ≡ object (binds.members_with service.now plan.now (members_view further.entries))) }
{
    let mut members = further;
    put_text(alloc, &mut members, "service_id", service)?;
    put_text(alloc, &mut members, "plan_id", plan)?;
    Ok(Value::Object(members))
}

// The body of a Bind: an object of `service_id`, `plan_id` and the further members, of which none stands in the place of
// the first two.
pub(crate) fn write_bind(
    alloc: Global,
    service: &str,
    plan: &str,
    further: Map<String, Value>,
) -> Result<String, Memory>
    ensures object { depth (object (members_view further.entries)) ≤ max_depth
        → IfOk result (λ text. read (string_bytes text)
        ≡ Some (object (binds.members_with service.now plan.now (members_view further.entries)))) }
    ensures back { (s p : ℕ) → number_of service.now ≡ Some s → number_of plan.now ≡ Some p
        → depth (object (members_view further.entries)) ≤ max_depth
        → IfOk result (λ text. binds.bind_in (string_bytes text) ≡ Ok (s, p)) }
    ensures texts { depth (object (members_view further.entries)) ≤ max_depth → IfOk result
        (λ text. (option_and_then (text_at (codes "service_id")) (object_in (string_bytes text)) ≡ Some service.now)
        × (option_and_then (text_at (codes "plan_id")) (object_in (string_bytes text)) ≡ Some plan.now)) }
    ensures kept { (name : List ℕ) → binds.IsFurther name
        → depth (object (members_view further.entries)) ≤ max_depth
        → IfOk result (λ text. option_and_then (get name) (read (string_bytes text))
        ≡ get_member name (members_view further.entries)) }
    ensures order { IfOk result (λ text. IsInOrder (string_bytes text)
        (object (binds.members_with service.now plan.now (members_view further.entries)))) }
{
    let value = bind_value(alloc, service, plan, further)?;
    let text = value.to_string(alloc)?;
    Ok(text)
}

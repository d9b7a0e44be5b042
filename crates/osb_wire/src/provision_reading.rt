//! The body of a Provision, read.
ghost use Rattle.std.specs.Prelude.{◌≡◌, ◌⊎◌, Ok, Err, IfOk, IfErr};
ghost use Rattle.serde_json.specs.View.{view};
ghost use Rattle.osb_wire.specs.Provisions as provisions;

use crate::Refusal;
use crate::id_texts::id_of_text;
use crate::json_body::read_object;
use osb_json::text_at;
use osb_message::{Id, PlanId, ServiceId};
use serde_json::Value;
use std::alloc::Global;

/// The id whose text stands under a name.
///
/// # Errors
///
/// The fault that is given, where no text of an id stands there.
pub fn member_id<K>(object: &Value, name: &str, fault: Refusal) -> Result<Id<K>, Refusal>
    ensures id { result ≡ provisions.id_member fault name.now (view object.now) }
{
    let Some(text) = text_at(object, name) else {
        return Err(fault);
    };
    match id_of_text(text) {
        Some(id) => Ok(id),
        None => Err(fault),
    }
}

// Whether a string that isn't empty stands under a name.
fn has_text(object: &Value, name: &str) -> bool
    ensures has { result ≡ provisions.has_text name.now (view object.now) }
{
    match text_at(object, name) {
        Some(text) => !text.is_empty(),
        None => false,
    }
}

// The service and the plan that an object names.
fn read_members(object: &Value) -> Result<(ServiceId, PlanId), Refusal>
    ensures named { result ≡ provisions.named_in (view object.now) }
{
    let service = match member_id(object, "service_id", Refusal::BadService) {
        Ok(service) => service,
        Err(fault) => return Err(fault),
    };
    let plan = match member_id(object, "plan_id", Refusal::BadPlan) {
        Ok(plan) => plan,
        Err(fault) => return Err(fault),
    };
    if !has_text(object, "organization_guid") {
        return Err(Refusal::BadOrganization);
    }
    if !has_text(object, "space_guid") {
        return Err(Refusal::BadSpace);
    }
    Ok((service, plan))
}

// The service and the plan that the body of a Provision names.
pub(crate) fn read_provision(alloc: Global, body: &[u8]) -> Result<(ServiceId, PlanId), Refusal>
    ensures ok { IfOk result (λ named. provisions.provision_in body.now ≡ Ok named) }
    ensures err { IfErr result (λ fault. (fault ≡ Refusal.Memory)
        ⊎ (provisions.provision_in body.now ≡ Err fault)) }
{
    let Ok(object) = read_object(alloc, body) else {
        return Err(Refusal::Memory);
    };
    match &object {
        Some(object) => read_members(object),
        None => Err(Refusal::NotAnObject),
    }
}

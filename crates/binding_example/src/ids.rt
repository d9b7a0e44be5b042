//! The ids of the story.
use osb_binding::BindingId;
use osb_message::{InstanceId, PlanId, ServiceId};

pub(crate) fn instance_id() -> InstanceId {
    InstanceId::from_value(1)
}

pub(crate) fn service_id() -> ServiceId {
    ServiceId::from_value(0xa0)
}

pub(crate) fn plan_id() -> PlanId {
    PlanId::from_value(0xb1)
}

pub(crate) fn first_binding() -> BindingId {
    BindingId::from_value(1)
}

pub(crate) fn second_binding() -> BindingId {
    BindingId::from_value(2)
}

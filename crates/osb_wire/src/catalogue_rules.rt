//! What a document has to have so that its catalogue can be kept.
ghost use Rattle.std.specs.Prelude.{◌≡◌, ◌⊎◌, [], codes, Ok, Err, OnOk, IfErr, map, option_map};
ghost use Rattle.serde_json.specs.Find as json;
ghost use Rattle.serde_json.specs.Find.{as_bool};
ghost use Rattle.serde_json.specs.View.{view, items_view};
ghost use Rattle.osb_wire.specs.CatalogueRules as rules;

use osb_json::text_at;
use serde_json::Value;
use std::alloc::Global;
use thiserror::Error;

/// The endpoints that a broker serves besides those of Provision, Deprovision and Poll: without one, no flag of its
/// catalogue may promise it.
#[derive(Clone, Copy, Debug, PartialEq, Eq, Hash)]
pub struct Endpoints {
    /// Updating a Service Instance, which `plan_updateable` promises.
    pub updating: bool,
    /// Binding and unbinding, which `bindable` promises.
    pub bindings: bool,
    /// Fetching a Service Instance, which `instances_retrievable` promises.
    pub fetching_instances: bool,
    /// Fetching a Service Binding, which `bindings_retrievable` promises.
    pub fetching_bindings: bool,
}

/// Why a catalogue can't be kept.
#[derive(Clone, Copy, Debug, PartialEq, Eq, Hash, Error)]
pub enum RuleFault {
    /// The `name` of a service or of a plan is missing, no string, or empty.
    #[error("each service and each plan must have a name")]
    NoName,
    /// Two services, or two plans of a service, have one name.
    #[error("two services, or two plans of a service, have one name")]
    NameTwice,
    /// The `description` of a service or of a plan is missing, no string, or empty.
    #[error("each service and each plan must have a description")]
    NoDescription,
    /// A flag is neither `true` nor `false`.
    #[error("bindable, plan_updateable, instances_retrievable and bindings_retrievable must be true or false")]
    NotABoolean,
    /// A service doesn't say whether it is `bindable`.
    #[error("each service must say whether it is bindable")]
    NoBindable,
    /// A service has no plan.
    #[error("each service must have a plan")]
    NoPlan,
    /// `bindable` is `true`, and bindings aren't served.
    #[error("bindable must be false: bindings are not served")]
    Bindable,
    /// `plan_updateable` is `true`, and updating isn't served.
    #[error("plan_updateable must be false: updating is not served")]
    PlanUpdateable,
    /// `instances_retrievable` is `true`, and fetching an instance isn't served.
    #[error("instances_retrievable must be false: fetching an instance is not served")]
    InstancesRetrievable,
    /// `bindings_retrievable` is `true`, and fetching a binding isn't served.
    #[error("bindings_retrievable must be false: fetching a binding is not served")]
    BindingsRetrievable,
    /// Two different texts of ids have one number.
    #[error("two ids have one number")]
    SameNumber,
    /// An allocation failed.
    #[error("no memory left")]
    Memory,
}

// A text that isn't empty, under a name.
fn some_text_at<'v>(value: &'v Value, name: &str) -> Option<&'v str>
    ensures text { option_map (λ text. text.now) result ≡ rules.some_text_at name.now (view value.now) }
{
    let text = text_at(value, name)?;
    if text.is_empty() { None } else { Some(text) }
}

// Whether a flag that says so promises what is served.
fn judge_flag(value: &Value, served: bool, fault: RuleFault) -> Result<(), RuleFault>
    ensures judged { result ≡ rules.flag_said served fault (as_bool (view value.now)) }
{
    match value.as_bool() {
        Some(true) => { if served { Ok(()) } else { Err(fault) } }
        Some(false) => Ok(()),
        None => Err(RuleFault::NotABoolean),
    }
}

// A flag that may be missing.
fn judge_flag_at(value: &Value, name: &str, served: bool, fault: RuleFault) -> Result<(), RuleFault>
    ensures judged { result ≡ rules.flag_judged served fault (json.get name.now (view value.now)) }
{
    match value.get(name) {
        Some(flag) => judge_flag(flag, served, fault),
        None => Ok(()),
    }
}

// The flags of a plan.
fn judge_plan_flags(plan: &Value, serves: Endpoints) -> Result<(), RuleFault>
    ensures judged { result ≡ rules.plan_flags serves (view plan.now) }
{
    judge_flag_at(plan, "bindable", serves.bindings, RuleFault::Bindable)?;
    judge_flag_at(
        plan,
        "plan_updateable",
        serves.updating,
        RuleFault::PlanUpdateable,
    )
}

// Whether a service is bindable, which it has to say.
fn judge_bindable(service: &Value, serves: Endpoints) -> Result<(), RuleFault>
    ensures judged { result
        ≡ rules.flag_needed serves.bindings RuleFault.Bindable (json.get (codes "bindable") (view service.now)) }
{
    match service.get("bindable") {
        Some(flag) => judge_flag(flag, serves.bindings, RuleFault::Bindable),
        None => Err(RuleFault::NoBindable),
    }
}

// The flags of a service.
fn judge_service_flags(service: &Value, serves: Endpoints) -> Result<(), RuleFault>
    ensures judged { result ≡ rules.service_flags serves (view service.now) }
{
    judge_bindable(service, serves)?;
    judge_flag_at(
        service,
        "plan_updateable",
        serves.updating,
        RuleFault::PlanUpdateable,
    )?;
    judge_flag_at(
        service,
        "instances_retrievable",
        serves.fetching_instances,
        RuleFault::InstancesRetrievable,
    )?;
    judge_flag_at(
        service,
        "bindings_retrievable",
        serves.fetching_bindings,
        RuleFault::BindingsRetrievable,
    )
}

// Whether a service or a plan is described.
fn judge_description(value: &Value) -> Result<(), RuleFault>
    ensures judged { result ≡ rules.described (view value.now) }
{
    match some_text_at(value, "description") {
        Some(_) => Ok(()),
        None => Err(RuleFault::NoDescription),
    }
}

// Whether a name is among these.
fn is_among(names: &Vec<&str>, name: &str) -> bool
    ensures among { result ≡ rules.is_among (map (λ other. other.now) names.now.items) name.now }
{
    for other in names {
        if *other == name {
            return true;
        }
    }
    false
}

// Adds the name of a service or of a plan, which none before has.
fn add_name<'v>(names: &mut Vec<&'v str>, value: &'v Value) -> Result<(), RuleFault>
    ensures ok { OnOk result (rules.new_name (map (λ name. name.now) names.old.items) (rules.name_of (view value.now))
        ≡ Ok (map (λ name. name.now) names.new.items)) }
    ensures err { IfErr result (λ fault. (fault ≡ RuleFault.Memory)
        ⊎ (rules.new_name (map (λ name. name.now) names.old.items) (rules.name_of (view value.now)) ≡ Err fault)) }
{
    let Some(name) = some_text_at(value, "name") else {
        return Err(RuleFault::NoName);
    };
    if is_among(names, name) {
        return Err(RuleFault::NameTwice);
    }
    match names.push(name) {
        Ok(()) => Ok(()),
        Err(_) => Err(RuleFault::Memory),
    }
}

// A plan, after those with these names.
fn judge_plan<'v>(
    names: &mut Vec<&'v str>,
    plan: &'v Value,
    serves: Endpoints,
) -> Result<(), RuleFault>
    ensures ok { OnOk result (rules.plan_judged serves (map (λ name. name.now) names.old.items) (view plan.now)
        ≡ Ok (map (λ name. name.now) names.new.items)) }
    ensures err { IfErr result (λ fault. (fault ≡ RuleFault.Memory)
        ⊎ (rules.plan_judged serves (map (λ name. name.now) names.old.items) (view plan.now) ≡ Err fault)) }
{
    match add_name(names, plan) {
        Ok(()) => {}
        Err(fault) => return Err(fault),
    }
    match judge_description(plan) {
        Ok(()) => {}
        Err(fault) => return Err(fault),
    }
    judge_plan_flags(plan, serves)
}

// The plans of a service.
fn judge_plans(alloc: Global, plans: &Vec<Value>, serves: Endpoints) -> Result<(), RuleFault>
    ensures ok { OnOk result (rules.plans_judged serves [] (items_view plans.now.items) ≡ Ok tt) }
    ensures err { IfErr result (λ fault. (fault ≡ RuleFault.Memory)
        ⊎ (rules.plans_judged serves [] (items_view plans.now.items) ≡ Err fault)) }
{
    let mut names = Vec::new(alloc);
    for plan in plans {
        match judge_plan(&mut names, plan, serves) {
            Ok(()) => {}
            Err(fault) => return Err(fault),
        }
    }
    Ok(())
}

// The plans of a service, which has to have one.
#[tactic(auto, using(crate::proofs::JudgedRules::given_steps))]
fn judge_plan_list(alloc: Global, service: &Value, serves: Endpoints) -> Result<(), RuleFault>
    ensures ok { OnOk result (rules.plans_given serves (rules.plans_of (view service.now)) ≡ Ok tt) }
    ensures err { IfErr result (λ fault. (fault ≡ RuleFault.Memory)
        ⊎ (rules.plans_given serves (rules.plans_of (view service.now)) ≡ Err fault)) }
{
    let Some(plans) = service.get("plans").and_then(Value::as_array) else {
        return Err(RuleFault::NoPlan);
    };
    if plans.is_empty() {
        return Err(RuleFault::NoPlan);
    }
    judge_plans(alloc, plans, serves)
}

// A service, after those with these names.
fn judge_service<'v>(
    alloc: Global,
    names: &mut Vec<&'v str>,
    service: &'v Value,
    serves: Endpoints,
) -> Result<(), RuleFault>
    ensures ok { OnOk result (rules.service_judged serves (map (λ name. name.now) names.old.items) (view service.now)
        ≡ Ok (map (λ name. name.now) names.new.items)) }
    ensures err { IfErr result (λ fault. (fault ≡ RuleFault.Memory)
        ⊎ (rules.service_judged serves (map (λ name. name.now) names.old.items) (view service.now) ≡ Err fault)) }
{
    match add_name(names, service) {
        Ok(()) => {}
        Err(fault) => return Err(fault),
    }
    match judge_description(service) {
        Ok(()) => {}
        Err(fault) => return Err(fault),
    }
    match judge_service_flags(service, serves) {
        Ok(()) => {}
        Err(fault) => return Err(fault),
    }
    judge_plan_list(alloc, service, serves)
}

// The services of a document.
pub(crate) fn judge_services(
    alloc: Global,
    services: &Vec<Value>,
    serves: Endpoints,
) -> Result<(), RuleFault>
    ensures ok { OnOk result (rules.services_judged serves [] (items_view services.now.items) ≡ Ok tt) }
    ensures err { IfErr result (λ fault. (fault ≡ RuleFault.Memory)
        ⊎ (rules.services_judged serves [] (items_view services.now.items) ≡ Err fault)) }
{
    let mut names = Vec::new(alloc);
    for service in services {
        match judge_service(alloc, &mut names, service, serves) {
            Ok(()) => {}
            Err(fault) => return Err(fault),
        }
    }
    Ok(())
}

//! The catalogue of a document that can be kept.
ghost use Rattle.std.specs.Prelude.{◌≡◌, ◌⊎◌, [], All, Some, Ok, Err, OnOk, IfOk, IfErr, option_map, option_and_then};
ghost use Rattle.osb_json.specs.Members.{text_at};
ghost use Rattle.serde_json.specs.View.{view, items_view};
ghost use Rattle.osb_wire.specs.CatalogueRules as rules;
ghost use Rattle.osb_wire.specs.SoldDocuments as sold;

use crate::catalogue_reading::{CatalogueFault, catalogue_plans};
use crate::catalogue_rules::{Endpoints, RuleFault, judge_services};
use crate::id_texts::id_of_text;
use crate::json_body::read_value;
use osb_json::{flag_at, text_at};
use osb_message::{Catalogue, Id, PlanId, ServiceId};
use serde_json::Value;
use std::alloc::Global;
use thiserror::Error;

/// The catalogue of a document, with the texts of the ids beside their numbers.
#[derive(Drop)]
pub struct CatalogueDocument {
    /// The plans that are sold, by the numbers of their ids.
    pub catalogue: Catalogue,
    /// The texts of the services' ids, each beside its number.
    pub services: Vec<(ServiceId, String)>,
    /// The texts of the plans' ids, each beside its number.
    pub plans: Vec<(PlanId, String)>,
    /// Whether the broker says, by `x-osb-tombstones`, that it never creates an id again.
    pub tombstones: bool,
}

/// Why a document's catalogue can't be kept.
#[derive(Clone, Copy, Debug, PartialEq, Eq, Hash, Error)]
pub enum DocumentFault {
    /// It names no plans, or one that can't be read.
    #[error("{0}")]
    Plans(CatalogueFault),
    /// It breaks a rule of the standard, or promises what isn't served.
    #[error("{0}")]
    Rule(RuleFault),
}

/// The text of an id among these; none where the id isn't among them. It takes no memory.
pub fn text_of_id<K>(texts: &Vec<(Id<K>, String)>, id: Id<K>) -> Option<&str>
    ensures text { option_map (λ text. text.now) result ≡ rules.known_text id (sold.known_of texts.now.items) }
{
    for entry in texts {
        if entry.0 == id {
            return Some(entry.1.as_str());
        }
    }
    None
}

// Adds the text of an id, which no other text may have the number of.
fn learn_text<K>(
    alloc: Global,
    texts: &mut Vec<(Id<K>, String)>,
    text: &str,
) -> Result<(), RuleFault>
    ensures ok { OnOk result (rules.learn_text (sold.known_of texts.old.items) text.now
        ≡ Ok (sold.known_of texts.new.items)) }
    ensures err { IfErr result (λ fault. (fault ≡ RuleFault.Memory)
        ⊎ (rules.learn_text (sold.known_of texts.old.items) text.now ≡ Err fault)) }
{
    let Some(id) = id_of_text::<K>(text) else {
        return Ok(());
    };
    let number = id.value();
    if let Some(other) = text_of_id(texts, id) {
        if other == text {
            return Ok(());
        }
        return Err(RuleFault::SameNumber);
    }
    let Ok(text) = String::from_str(alloc, text) else {
        return Err(RuleFault::Memory);
    };
    match texts.push((Id::from_value(number), text)) {
        Ok(()) => Ok(()),
        Err(_) => Err(RuleFault::Memory),
    }
}

// Adds the texts of the ids of services or of plans.
fn learn_ids<K>(
    alloc: Global,
    texts: &mut Vec<(Id<K>, String)>,
    list: &Vec<Value>,
) -> Result<(), RuleFault>
    ensures ok { OnOk result (rules.learn_ids (sold.known_of texts.old.items) (items_view list.now.items)
        ≡ Ok (sold.known_of texts.new.items)) }
    ensures err { IfErr result (λ fault. (fault ≡ RuleFault.Memory)
        ⊎ (rules.learn_ids (sold.known_of texts.old.items) (items_view list.now.items) ≡ Err fault)) }
{
    for item in list {
        if let Some(text) = text_at(item, "id") {
            match learn_text(alloc, texts, text) {
                Ok(()) => {}
                Err(fault) => return Err(fault),
            }
        }
    }
    Ok(())
}

// Adds the texts of the ids of a service's plans.
fn learn_list(
    alloc: Global,
    texts: &mut Vec<(PlanId, String)>,
    service: &Value,
) -> Result<(), RuleFault>
    ensures ok { OnOk result (rules.learn_list (sold.known_of texts.old.items) (rules.plans_of (view service.now))
        ≡ Ok (sold.known_of texts.new.items)) }
    ensures err { IfErr result (λ fault. (fault ≡ RuleFault.Memory)
        ⊎ (rules.learn_list (sold.known_of texts.old.items) (rules.plans_of (view service.now)) ≡ Err fault)) }
{
    match service.get("plans").and_then(Value::as_array) {
        Some(plans) => learn_ids(alloc, texts, plans),
        None => Ok(()),
    }
}

// Adds the texts of the ids of the services' plans.
fn learn_plans(
    alloc: Global,
    texts: &mut Vec<(PlanId, String)>,
    services: &Vec<Value>,
) -> Result<(), RuleFault>
    ensures ok { OnOk result (rules.learn_plans (sold.known_of texts.old.items) (items_view services.now.items)
        ≡ Ok (sold.known_of texts.new.items)) }
    ensures err { IfErr result (λ fault. (fault ≡ RuleFault.Memory)
        ⊎ (rules.learn_plans (sold.known_of texts.old.items) (items_view services.now.items) ≡ Err fault)) }
{
    for service in services {
        match learn_list(alloc, texts, service) {
            Ok(()) => {}
            Err(fault) => return Err(fault),
        }
    }
    Ok(())
}

// The texts of the services' ids and of the plans', where the rules allow the services.
fn judge_texts(
    alloc: Global,
    services: &Vec<Value>,
    serves: Endpoints,
    service_texts: &mut Vec<(ServiceId, String)>,
    plan_texts: &mut Vec<(PlanId, String)>,
) -> Result<(), RuleFault>
    requires services { service_texts.old.items ≡ [] }
    requires plans { plan_texts.old.items ≡ [] }
    ensures ok { OnOk result (sold.texts_of serves (items_view services.now.items)
        ≡ Ok (sold.known_of service_texts.new.items, sold.known_of plan_texts.new.items)) }
    ensures err { IfErr result (λ fault. (fault ≡ RuleFault.Memory)
        ⊎ (sold.texts_of serves (items_view services.now.items) ≡ Err fault)) }
{
    match judge_services(alloc, services, serves) {
        Ok(()) => {}
        Err(fault) => return Err(fault),
    }
    match learn_ids(alloc, service_texts, services) {
        Ok(()) => {}
        Err(fault) => return Err(fault),
    }
    learn_plans(alloc, plan_texts, services)
}

/// The catalogue of a document that can be kept, given the endpoints that the broker serves, with the texts of the ids
/// beside their numbers (section Catalog Management). What [`catalogue_plans`] reads of its plans, and then:
///
/// - Each service and each plan has a `name`, which no other service has, or no other plan of the service, and a
///   `description`; both are strings that aren't empty.
/// - Each service says by `bindable` whether it is, and has at least one plan.
/// - `bindable`, `plan_updateable`, `instances_retrievable` and `bindings_retrievable`, where they are there, are `true` or
///   `false`, and `true` only where their endpoints are served. A plan may have the first two.
/// - No two different texts of the services' ids have one number, and none of the plans'.
///
/// # Errors
///
/// [`DocumentFault::Plans`] with the first fault of [`catalogue_plans`]; else [`DocumentFault::Rule`] with the first fault
/// of the services in their order: of each its name, its description, its flags, and then of each of its plans the same;
/// and at last [`RuleFault::SameNumber`]. Either has its `Memory` where an allocation failed; the same call may be made
/// again.
pub fn catalogue_document(
    alloc: Global,
    text: &[u8],
    serves: Endpoints,
) -> Result<CatalogueDocument, DocumentFault>
    ensures ok { IfOk result (λ document. sold.sold_in serves text.now ≡ Ok (
      document.catalogue,
      (sold.known_of document.services.items, sold.known_of document.plans.items),
    )) }
    ensures services { IfOk result (λ document.
        All (rules.IsKnown (sold.known_of document.services.items)) (sold.service_texts_in text.now)) }
    ensures plans { IfOk result (λ document.
        All (rules.IsKnown (sold.known_of document.plans.items)) (sold.plan_texts_in text.now)) }
    ensures injective { IfOk result (λ _. sold.AreInjective (sold.service_texts_in text.now)
        × sold.AreInjective (sold.plan_texts_in text.now)) }
    ensures tombstones { IfOk result (λ document. document.tombstones ≡ sold.tombstones_in text.now) }
    ensures err { IfErr result (λ fault. sold.IsMemory fault ⊎ (sold.sold_in serves text.now ≡ Err fault)) }
{
    let catalogue = match catalogue_plans(alloc, text) {
        Ok(catalogue) => catalogue,
        Err(fault) => return Err(DocumentFault::Plans(fault)),
    };
    let Ok(value) = read_value(alloc, text) else {
        return Err(DocumentFault::Rule(RuleFault::Memory));
    };
    let Some(document) = value else {
        return Err(DocumentFault::Plans(CatalogueFault::NoServices));
    };
    let Some(services) = document.get("services").and_then(Value::as_array) else {
        return Err(DocumentFault::Plans(CatalogueFault::NoServices));
    };
    let mut service_texts = Vec::new(alloc);
    let mut plan_texts = Vec::new(alloc);
    match judge_texts(alloc, services, serves, &mut service_texts, &mut plan_texts) {
        Ok(()) => {}
        Err(fault) => return Err(DocumentFault::Rule(fault)),
    }
    Ok(CatalogueDocument {
        catalogue,
        services: service_texts,
        plans: plan_texts,
        tombstones: flag_at(&document, "x-osb-tombstones").unwrap_or(false),
    })
}

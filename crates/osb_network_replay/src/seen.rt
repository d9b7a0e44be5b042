//! What there is of an instance or a binding, as the report and the trace have it.
ghost use Rattle.std.specs.Prelude.{◌≡◌};
ghost use Rattle.osb_network_replay.specs.Seen as spec;

use osb_binding_network::ServiceBinding;
use osb_instance::{Holding, Record};
use osb_message::Answer;
use osb_network::{Given, Instance, Resource};
use osb_network_language::Life;
use osb_network_run::Network;

// What there is of an instance or a binding.
#[derive(Clone, Copy)]
pub struct Seen {
    // What the platform records.
    pub recorded_by: Option<Record>,
    // What the broker holds.
    pub holding: Holding,
    // What there is in the backend.
    pub resource: Resource,
    // The credentials that the platform records with `ready`.
    pub recorded: Option<u64>,
    // The credentials of a resource that is whole.
    pub credentials: Option<u64>,
    // How many answers were given.
    pub given: usize,
    // The last of them.
    pub answer: Option<Answer>,
}

// Nothing: of a life that wasn't taken in.
const UNSEEN: Seen = Seen {
    recorded_by: None,
    holding: Holding::NONE,
    resource: Resource::Absent,
    recorded: None,
    credentials: None,
    given: 0,
    answer: None,
};

// The last answer.
fn last_answer(given: &[Given]) -> Option<Answer>
    ensures answer { result ≡ spec.last_answer given.now }
{
    match given.get(given.len().saturating_sub(1)) {
        Some(last) => Some(last.answer),
        None => None,
    }
}

// What there is of an instance.
pub fn see_instance(instance: &Instance) -> Seen
    ensures seen { result ≡ spec.seen_instance instance.now }
{
    Seen {
        recorded_by: instance.record(),
        holding: instance.holding(),
        resource: instance.resource(),
        recorded: None,
        credentials: None,
        given: instance.given().len(),
        answer: last_answer(instance.given()),
    }
}

// The credentials that the platform records with `ready`.
fn recorded_credentials(binding: &ServiceBinding) -> Option<u64>
    ensures credentials { result ≡ spec.recorded_credentials binding.now }
{
    match binding.record() {
        Some(record) if record.is_ready() => Some(binding.recorded_credentials()),
        _ => None,
    }
}

// The credentials of a resource that is whole.
fn existing_credentials(binding: &ServiceBinding) -> Option<u64>
    ensures credentials { result ≡ spec.existing_credentials binding.now }
{
    match binding.resource() {
        Resource::Whole => Some(binding.credentials()),
        Resource::Absent | Resource::Part => None,
    }
}

// The record of a binding as an instance has it.
fn record_of(binding: &ServiceBinding) -> Option<Record>
    ensures record { result ≡ binding.now.life.recorded }
{
    match binding.record() {
        Some(record) => Some(record.as_record()),
        None => None,
    }
}

// What there is of a binding.
pub fn see_binding(binding: &ServiceBinding) -> Seen
    ensures seen { result ≡ spec.seen_binding binding.now }
{
    Seen {
        recorded_by: record_of(binding),
        holding: binding.holding().as_holding(),
        resource: binding.resource(),
        recorded: recorded_credentials(binding),
        credentials: existing_credentials(binding),
        given: binding.given().len(),
        answer: last_answer(binding.given()),
    }
}

// What there is of a life.
pub fn see(network: &Network, life: &Life) -> Seen
    ensures seen { result ≡ spec.seen_of network.now life.now }
{
    let Some(service) = network.get(life.instance) else {
        return UNSEEN;
    };
    let Some(id) = life.binding else {
        return see_instance(service.instance());
    };
    match service.binding(id) {
        Some(binding) => see_binding(binding),
        None => UNSEEN,
    }
}

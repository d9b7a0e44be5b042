//! The report of a network schedule.
ghost use Rattle.std.specs.Prelude.{◌≡◌, ◌++◌, true, IfOk, OnOk};
ghost use Rattle.osb_network_replay.specs.Report as spec;

use crate::columns::{push_columns, push_credentials, push_life};
use crate::seen::{see_binding, see_instance};
use osb_binding::BindingId;
use osb_binding_network::{ServiceBinding, ServiceInstance};
use osb_message::{InstanceId, Memory};
use osb_network_language::Life;
use osb_network_run::{Network, Tally};
use osb_trace::push_number;
use std::alloc::Global;

// Adds the line of an instance.
#[tactic(auto, unfolding(crate::specs::Report::instance_line))]
fn push_instance_line(
    text: &mut Vec<u8>,
    id: InstanceId,
    service: &ServiceInstance,
) -> Result<(), Memory>
    ensures added { OnOk result (text.new.items ≡ text.old.items ++ spec.instance_line id service.now.instance) }
{
    push_life(
        text,
        Life {
            instance: id,
            binding: None,
        },
    )?;
    push_columns(text, b' ', &see_instance(service.instance()))?;
    text.push(b'\n')?;
    Ok(())
}

// Adds the line of a binding.
#[tactic(auto, unfolding(crate::specs::Report::binding_line))]
fn push_binding_line(
    text: &mut Vec<u8>,
    instance: InstanceId,
    id: BindingId,
    binding: &ServiceBinding,
) -> Result<(), Memory>
    ensures added { OnOk result (text.new.items ≡ text.old.items ++ spec.binding_line instance id binding.now) }
{
    push_life(
        text,
        Life {
            instance,
            binding: Some(id),
        },
    )?;
    let seen = see_binding(binding);
    push_columns(text, b' ', &seen)?;
    push_credentials(text, b' ', &seen)?;
    text.push(b'\n')?;
    Ok(())
}

// Adds the lines of the bindings of an instance.
fn push_binding_lines(
    text: &mut Vec<u8>,
    id: InstanceId,
    service: &ServiceInstance,
) -> Result<(), Memory>
    ensures added { OnOk result (text.new.items ≡ text.old.items ++ spec.binding_lines id service.now.bindings) }
{
    for (binding_id, binding) in service.bindings() {
        push_binding_line(text, id, *binding_id, binding)?;
    }
    Ok(())
}

// Adds the line of an instance, and those of its bindings.
#[tactic(auto, unfolding(crate::specs::Report::service_lines))]
fn push_service_lines(
    text: &mut Vec<u8>,
    id: InstanceId,
    service: &ServiceInstance,
) -> Result<(), Memory>
    ensures added { OnOk result (text.new.items ≡ text.old.items ++ spec.service_lines id service.now) }
{
    push_instance_line(text, id, service)?;
    push_binding_lines(text, id, service)
}

// The lines of all instances.
fn network_lines(alloc: Global, network: &Network) -> Result<Vec<u8>, Memory>
    ensures lines { IfOk result (λ text. text.items ≡ spec.network_lines network.now) }
{
    let mut text = Vec::new(alloc);
    for (id, service) in network.iter() {
        push_service_lines(&mut text, *id, service)?;
    }
    Ok(text)
}

// Adds the line of a count.
fn push_count_line(text: &mut Vec<u8>, name: &str, count: u32) -> Result<(), Memory>
    ensures added { OnOk result (text.new.items ≡ text.old.items ++ spec.count_line name.now count) }
{
    text.extend_from_slice(name.as_bytes())?;
    text.push(b' ')?;
    push_number(text, count as usize)?;
    text.push(b'\n')?;
    Ok(())
}

// The report of a network and its counts.
fn report_of(alloc: Global, tally: &Tally) -> Result<Vec<u8>, Memory>
    ensures report { IfOk result (λ text. text.items ≡ spec.report_text tally.now) }
{
    let mut text = network_lines(alloc, &tally.network)?;
    push_count_line(&mut text, "applied", tally.applied)?;
    push_count_line(&mut text, "skipped", tally.skipped)?;
    Ok(text)
}

// The report, once each instance and each binding is settled.
fn settled_report(alloc: Global, tally: Tally) -> Result<Vec<u8>, Memory>
    ensures report { IfOk result (λ text. spec.IsReport true tally text.items) }
{
    let mut tally = tally;
    tally.network.settle(alloc)?;
    report_of(alloc, &tally)
}

// The report, once each instance and each binding is settled if that is asked for.
pub fn report(alloc: Global, tally: Tally, settle: bool) -> Result<Vec<u8>, Memory>
    ensures report { IfOk result (λ text. spec.IsReport settle tally text.items) }
{
    if settle {
        return settled_report(alloc, tally);
    }
    report_of(alloc, &tally)
}

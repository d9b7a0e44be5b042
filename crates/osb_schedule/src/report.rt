//! The report: what the platform records and what the broker holds (this project's choice).
ghost use Rattle.std.specs.Prelude.{◌≡◌, ◌++◌, ℕ, List, IfOk, OnOk};
ghost use Rattle.std.specs.FinMap as map;
ghost use Rattle.std.specs.List.{flat_map};
ghost use Rattle.std.specs.List.Sorted.{IsStrictlySortedBy};
ghost use Rattle.std.specs.Ordering.{nat_cmp};
ghost use Rattle.osb_lines.specs.Lines.{lines};
ghost use Rattle.osb_schedule.specs.Report.{broker_word, count_line, id_line, instance_line, saved_line};
ghost use Rattle.osb_schedule.specs.Report.{AreSettled, IsReport, IsSettledAs};
ghost use Rattle.osb_run.specs.Run.{IsEndOf};
ghost use Rattle.osb_world.specs.Views.{cell_at, records_of};

use osb_broker::BrokerRow;
use osb_message::{InstanceId, Memory};
use osb_options::Options;
use osb_platform::SaveFault;
use osb_run::Ended;
use osb_world::World;
use std::alloc::Global;

fn broker_word(row: Option<BrokerRow>) -> &'static str
    ensures word { result.now ≡ broker_word row }
{
    match row {
        Some(row) => row.phase.word(),
        None => "none",
    }
}

// Adds the line of an instance.
fn push_id_line(
    text: &mut Vec<u8>,
    id: InstanceId,
    recorded: &str,
    held: &str,
) -> Result<(), Memory>
    ensures added { OnOk result (text.new.items ≡ text.old.items ++ instance_line id recorded.now held.now) }
{
    text.extend_from_slice(&id.to_text())?;
    text.push(b' ')?;
    text.extend_from_slice(recorded.as_bytes())?;
    text.push(b' ')?;
    text.extend_from_slice(held.as_bytes())?;
    text.push(b'\n')?;
    Ok(())
}

// Adds the line of a count.
fn push_count_line(alloc: Global, text: &mut Vec<u8>, name: &str, count: u32) -> Result<(), Memory>
    ensures added { OnOk result (text.new.items ≡ text.old.items ++ count_line name.now count) }
{
    text.extend_from_slice(name.as_bytes())?;
    text.push(b' ')?;
    text.extend_from_slice(count.to_string(alloc)?.as_bytes())?;
    text.push(b'\n')?;
    Ok(())
}

// A line for each recorded instance, in ascending order of the ids.
fn id_lines(alloc: Global, world: &World) -> Result<Vec<u8>, Memory>
    ensures lines { IfOk result (λ text. text.items
        ≡ flat_map (λ id. id_line id (cell_at world.now id)) (map.keys (records_of world.now))) }
{
    let mut text = Vec::new(alloc);
    for (id, row) in world.records() {
        let held = broker_word(world.broker_row(*id));
        push_id_line(&mut text, *id, row.state.word(), held)?;
    }
    Ok(text)
}

// Settles the instances of these ids.
fn settle_each(world: &mut World, ids: &[InstanceId])
    requires ascending { IsStrictlySortedBy nat_cmp ids.now }
    ensures settled { AreSettled ids.now world.old world.new }
{
    for id in ids {
        world.settle(*id);
    }
}

// Settles each recorded instance, where that is asked for.
fn settle_all(alloc: Global, world: &mut World, asked: bool) -> Result<(), Memory>
    ensures settled { OnOk result (IsSettledAs asked world.old world.new) }
{
    if !asked {
        return Ok(());
    }
    let ids = world.ids(alloc)?;
    settle_each(world, ids.as_slice());
    Ok(())
}

// Adds the line of the saved record, where it is asked for.
fn push_saved_line(
    alloc: Global,
    text: &mut Vec<u8>,
    world: &World,
    saved: bool,
) -> Result<(), Memory>
    ensures added { OnOk result (text.new.items ≡ text.old.items ++ saved_line saved (records_of world.now)) }
{
    if !saved {
        return Ok(());
    }
    match world.save(alloc) {
        Ok(record) => text.extend_from_slice(record.as_bytes())?,
        Err(SaveFault::Memory) => return Err(Memory),
    }
    text.push(b'\n')?;
    Ok(())
}

// The report of what the lines have left.
pub fn report(alloc: Global, ended: Ended, options: Options) -> Result<Vec<u8>, Memory>
    ensures report { (bytes : List ℕ) → IsEndOf (lines bytes) ended
        → IfOk result (λ text. IsReport options bytes text.items) }
{
    let Ended {
        mut world,
        applied,
        skipped,
    } = ended;
    settle_all(alloc, &mut world, options.settle)?;
    let mut text = id_lines(alloc, &world)?;
    push_count_line(alloc, &mut text, "applied", applied)?;
    push_count_line(alloc, &mut text, "skipped", skipped)?;
    push_saved_line(alloc, &mut text, &world, options.saved)?;
    Ok(text)
}

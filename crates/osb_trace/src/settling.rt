//! What is told of the fault-free rounds in which the instances are settled.
ghost use Rattle.std.specs.Prelude.{◌≡◌, ℕ, true, List, Some, map, IfErr, OnOk};
ghost use Rattle.std.specs.Io.KnownBytes.{append_known, Appends};
ghost use Rattle.std.specs.List.{AllByRecursion};
ghost use Rattle.std.specs.List.Sorted.{IsStrictlySortedBy};
ghost use Rattle.std.specs.Ordering.{nat_cmp};
ghost use Rattle.osb_event.specs.Naming.{event_id};
ghost use Rattle.osb_lines.specs.Schedule.{catalogue_in, events_in};
ghost use Rattle.osb_run.specs.Run.{HasRun};
ghost use Rattle.osb_trace.specs.Passing.{IsUntold};
ghost use Rattle.osb_trace.specs.Settling.{round_events, round_head, spelled, told_each, told_round, told_rounds};
ghost use Rattle.osb_trace.specs.Settling.{told_steps, HasCell, IsSettlingTold};
ghost use Rattle.osb_trace.specs.Telling.{told_event};
ghost use Rattle.osb_world.specs.Events.{cell_steps};
ghost use Rattle.osb_world.specs.Settling.{after_round, settled_cell};
ghost use Rattle.osb_world.specs.Steps.{cell_step};
ghost use Rattle.osb_world.specs.Views.{catalogue_of, cell_at};

use crate::teller::{Teller, is_asked};
use osb_broker::Outcome;
use osb_device::Output;
use osb_event::Event;
use osb_language::ReplayFault;
use osb_message::InstanceId;
use osb_run::{Ended, Run};
use osb_world::World;
use std::alloc::Global;
use std::io::Write;

// An event of a fault-free round, and the words before and after the id by which a schedule spells it.
#[derive(Clone, Copy)]
pub struct RoundEvent {
    pub verb: &'static str,
    pub event: Event,
    pub rest: &'static str,
}

// The events of a fault-free round.
fn round_events(id: InstanceId) -> [RoundEvent; 5]
    ensures spelled { map (spelled id) result ≡ round_events id }
    ensures named { AllByRecursion (λ of. event_id of.event ≡ Some id) result }
{
    [
        RoundEvent {
            verb: "timeout ",
            event: Event::Timeout { id },
            rest: "",
        },
        RoundEvent {
            verb: "finish ",
            event: Event::Finish { id, ok: true },
            rest: " ok",
        },
        RoundEvent {
            verb: "send ",
            event: Event::Send { id },
            rest: "",
        },
        RoundEvent {
            verb: "deliver ",
            event: Event::Deliver {
                id,
                outcome: Outcome::Done,
            },
            rest: " done",
        },
        RoundEvent {
            verb: "answer ",
            event: Event::Answer { id },
            rest: "",
        },
    ]
}

// Lets an event of a fault-free round of an instance happen, and tells of it.
fn tell_event<W: Write>(
    alloc: Global,
    world: &mut World,
    id: InstanceId,
    number: u32,
    of: &RoundEvent,
    teller: &mut Teller,
    writer: &mut Output<W>,
) -> Result<(), ReplayFault>
    requires named { event_id of.now.event ≡ Some id }
    ensures world { OnOk result (HasCell world.old world.new id
        (cell_step (catalogue_of world.old) (cell_at world.old id) of.now.event)) }
    ensures told { OnOk result (Appends (append_known (W.contents writer.old.device) teller.old.buffer)
        (append_known (W.contents writer.new.device) teller.new.buffer)
        (told_event (round_head number (spelled id of.now).0) of.now.event (cell_at world.old id)
        (cell_step (catalogue_of world.old) (cell_at world.old id) of.now.event))) }
    ensures refused { IfErr result (IsUntold writer.new.refused) }
    ensures instance { teller.new.instance ≡ teller.old.instance }
{
    let Ok(step) = world.step(alloc, of.event) else {
        return Err(ReplayFault::Memory);
    };
    let made = teller.make_round_line(id, number, of, step, &world.cell(id));
    teller.push_line(made, writer)
}

// Lets these events of a fault-free round of an instance happen, and tells of them.
fn tell_events<W: Write>(
    alloc: Global,
    world: &mut World,
    id: InstanceId,
    number: u32,
    events: &[RoundEvent],
    teller: &mut Teller,
    writer: &mut Output<W>,
) -> Result<(), ReplayFault>
    requires named { AllByRecursion (λ of. event_id of.event ≡ Some id) events.now }
    ensures world { OnOk result (HasCell world.old world.new id
        (cell_steps (catalogue_of world.old) (cell_at world.old id) (map (λ of. of.event) events.now))) }
    ensures told { OnOk result (Appends (append_known (W.contents writer.old.device) teller.old.buffer)
        (append_known (W.contents writer.new.device) teller.new.buffer)
        (told_steps number (catalogue_of world.old) (cell_at world.old id) (map (spelled id) events.now))) }
    ensures refused { IfErr result (IsUntold writer.new.refused) }
    ensures instance { teller.new.instance ≡ teller.old.instance }
{
    for of in events {
        tell_event(alloc, world, id, number, of, teller, writer)?;
    }
    Ok(())
}

// Lets a fault-free round of an instance happen, and tells of it.
fn tell_round<W: Write>(
    alloc: Global,
    world: &mut World,
    id: InstanceId,
    number: u32,
    teller: &mut Teller,
    writer: &mut Output<W>,
) -> Result<(), ReplayFault>
    ensures world { OnOk result (HasCell world.old world.new id
        (after_round (catalogue_of world.old) id (cell_at world.old id))) }
    ensures told { OnOk result (Appends (append_known (W.contents writer.old.device) teller.old.buffer)
        (append_known (W.contents writer.new.device) teller.new.buffer)
        (told_round number (catalogue_of world.old) id (cell_at world.old id))) }
    ensures refused { IfErr result (IsUntold writer.new.refused) }
    ensures instance { teller.new.instance ≡ teller.old.instance }
{
    tell_events(alloc, world, id, number, &round_events(id), teller, writer)
}

// Settles an instance in three fault-free rounds, and tells of them.
fn tell_rounds<W: Write>(
    alloc: Global,
    world: &mut World,
    id: InstanceId,
    teller: &mut Teller,
    writer: &mut Output<W>,
) -> Result<(), ReplayFault>
    ensures world { OnOk result (HasCell world.old world.new id
        (settled_cell (catalogue_of world.old) id (cell_at world.old id))) }
    ensures told { OnOk result (Appends (append_known (W.contents writer.old.device) teller.old.buffer)
        (append_known (W.contents writer.new.device) teller.new.buffer)
        (told_rounds (catalogue_of world.old) id (cell_at world.old id))) }
    ensures refused { IfErr result (IsUntold writer.new.refused) }
    ensures instance { teller.new.instance ≡ teller.old.instance }
{
    tell_round(alloc, world, id, 1, teller, writer)?;
    tell_round(alloc, world, id, 2, teller, writer)?;
    tell_round(alloc, world, id, 3, teller, writer)
}

// Settles each of these instances that is asked for, and tells of its rounds.
fn tell_each<W: Write>(
    alloc: Global,
    world: &mut World,
    ids: &[InstanceId],
    teller: &mut Teller,
    writer: &mut Output<W>,
) -> Result<(), ReplayFault>
    requires ascending { IsStrictlySortedBy nat_cmp ids.now }
    ensures told { OnOk result (Appends (append_known (W.contents writer.old.device) teller.old.buffer)
        (append_known (W.contents writer.new.device) teller.new.buffer)
        (told_each teller.old.instance (catalogue_of world.old) (cell_at world.old) ids.now)) }
    ensures refused { IfErr result (IsUntold writer.new.refused) }
    ensures instance { teller.new.instance ≡ teller.old.instance }
{
    for id in ids {
        if is_asked(teller.instance, *id) {
            tell_rounds(alloc, world, *id, teller, writer)?;
        }
    }
    Ok(())
}

// Settles each created instance that is asked for, and tells of its rounds.
pub fn tell_settling<W: Write>(
    alloc: Global,
    run: Run,
    teller: &mut Teller,
    writer: &mut Output<W>,
) -> Result<(), ReplayFault>
    ensures told { (lines : List (List ℕ)) → HasRun lines run → OnOk result ((text : List ℕ)
        × IsSettlingTold teller.old.instance true (catalogue_in lines) (events_in lines) text
        × Appends (append_known (W.contents writer.old.device) teller.old.buffer)
        (append_known (W.contents writer.new.device) teller.new.buffer) text) }
    ensures refused { IfErr result (IsUntold writer.new.refused) }
    ensures instance { teller.new.instance ≡ teller.old.instance }
{
    let Ended { mut world, .. } = run.end();
    let Ok(ids) = world.ids(alloc) else {
        return Err(ReplayFault::Memory);
    };
    tell_each(alloc, &mut world, ids.as_slice(), teller, writer)
}

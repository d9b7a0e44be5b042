//! A world is stepped, restarted, listed, saved, and made by a run.
use crate::instances::{catalogue, create, deliver, first, made, second};
use crate::telling::{Case, Returned, listed, saved, tell};
use anyhow::Result;
use osb_message::{Catalogue, InstanceId, Memory};
use osb_world::{Event, Step, World, run};
use std::alloc::Global;

#[derive(Clone, Copy)]
enum Call {
    Step(Event),
    Ids,
    Save,
    Run,
}

#[derive(Drop)]
struct WorldCase {
    world: World,
    call: Call,
    alloc: Global,
}

// What the platform records of an instance, what the broker holds, the request that is out and the
// answer that travels.
fn cell_text(alloc: Global, world: &World, id: InstanceId) -> Result<String> {
    let record = world.platform_row(id).map(|row| row.state);
    let row = world.broker_row(id).map(|row| row.phase);
    let cell = world.cell(id);
    let out = cell.out.map(|request| request.kind);
    let answer = cell.travelling;
    Ok(format!(in alloc; "{record:?} {row:?} {out:?} {answer:?}")?)
}

fn stepped(returned: Result<Step, Memory>) -> Returned {
    match returned {
        Ok(Step::Applied) => Returned::Word("Applied"),
        Ok(Step::Skipped) => Returned::Word("Skipped"),
        Err(Memory) => Returned::Memory,
    }
}

impl WorldCase {
    // Of an empty catalogue, which takes no memory.
    fn run(&mut self) -> Returned {
        match run(self.alloc, Catalogue::new(self.alloc), &made()) {
            Ok(world) => {
                self.world = world;
                Returned::Word("Ok")
            }
            Err(Memory) => Returned::Memory,
        }
    }
}

impl Case for WorldCase {
    fn state(&self, alloc: Global) -> Result<String> {
        let one = cell_text(alloc, &self.world, first())?;
        let two = cell_text(alloc, &self.world, second())?;
        Ok(format!(in alloc; "{one}; {two}")?)
    }

    fn call(&mut self) -> Returned {
        match self.call {
            Call::Step(event) => stepped(self.world.step(self.alloc, event)),
            Call::Ids => listed(self.world.ids(self.alloc)),
            Call::Save => saved(self.world.save(self.alloc)),
            Call::Run => self.run(),
        }
    }
}

// Two instances are made, the answer of one is garbled, the platform restarts and cleans that one up.
fn steps(rt: &impl Print, alloc: Global, case: &mut WorldCase) -> Result<()> {
    let events = [
        (create(first()), "World::step, Create of a first instance"),
        (
            create(second()),
            "World::step, Create of a second instance, for which there is room, without memory",
        ),
        (deliver(first()), "World::step, Deliver of a first row"),
        (
            deliver(second()),
            "World::step, Deliver of a second row, without memory",
        ),
        (
            Event::Garble { id: first() },
            "World::step, Garble, without memory",
        ),
        (
            Event::Answer { id: first() },
            "World::step, Answer, without memory",
        ),
        (
            Event::Answer { id: second() },
            "World::step, Answer, without memory",
        ),
        (Event::Restart, "World::step, Restart"),
        (
            Event::Send { id: first() },
            "World::step, Send, without memory",
        ),
        (
            deliver(first()),
            "World::step, Deliver of a deletion, without memory",
        ),
        (
            Event::Answer { id: first() },
            "World::step, Answer, without memory",
        ),
    ];
    for &(event, name) in &events {
        case.call = Call::Step(event);
        tell(rt, alloc, name, case)?;
    }
    Ok(())
}

pub fn calls(rt: &impl Print, alloc: Global) -> Result<()> {
    let mut case = WorldCase {
        world: World::new(alloc, catalogue(alloc)?),
        call: Call::Ids,
        alloc,
    };
    steps(rt, alloc, &mut case)?;
    for (call, name) in [
        (Call::Ids, "World::ids"),
        (Call::Save, "World::save"),
        (Call::Run, "run"),
    ] {
        case.call = call;
        tell(rt, alloc, name, &mut case)?;
    }
    Ok(())
}

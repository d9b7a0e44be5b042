//! The lines of a schedule are run, and the last of them is remembered.
ghost use Rattle.std.specs.Prelude.{◌≡◌, ◌+◌, ◌<◌, ◌≤◌, List, [], ◌∷◌, ◌++◌, None, Ok, IfErr, OnErr, OnOk};
ghost use Rattle.osb_event.specs.Naming.{event_id};
ghost use Rattle.osb_event.specs.declared.event.Event.{Event as Happening};
ghost use Rattle.osb_language.specs.declared.replay_fault.ScheduleFault.TheVariants as Why;
ghost use Rattle.osb_lines.specs.Schedule.{event_in, fault_after, with_plan};
ghost use Rattle.osb_lines.specs.Sink.{IsLineFault};
ghost use Rattle.osb_message.specs.Plans.{Catalogue as Plans};
ghost use Rattle.osb_run.specs.Run.{happened, IsRunOf};
ghost use Rattle.osb_trace.specs.Heard.{HasTraced, IsNamedHeard, IsSaidHeard};
ghost use Rattle.osb_trace.specs.Telling.{head};

use crate::line::push_head;
use osb_event::Event;
use osb_language::{Line, ScheduleFault, read_line};
use osb_lines::{MOST_LINES, Sink};
use osb_message::{InstanceId, Memory};
use osb_run::Run;
use osb_world::Step;
use std::alloc::Global;

// What was heard of a line.
#[derive(Clone, Copy)]
pub enum Heard {
    // Nothing has happened.
    Nothing,
    // This happened to an instance.
    Event(InstanceId, Event, Step),
    // The platform was restarted, which changed so many instances.
    Restart(usize),
}

// The run of the lines so far, what was heard of the last of them, and the first two columns of what is told of it.
#[derive(Drop)]
pub struct Tracer {
    alloc: Global,
    pub run: Run,
    pub heard: Heard,
    pub head: Vec<u8>,
}

impl Tracer {
    // The trace of no lines.
    pub fn new(alloc: Global) -> Tracer
        ensures none { HasTraced [] result }
        ensures counted { happened result.run ≡ 0 }
    {
        Tracer {
            alloc,
            run: Run::new(alloc),
            heard: Heard::Nothing,
            head: Vec::new(alloc),
        }
    }

    // Lets an event happen.
    fn hear_event(&mut self, event: Event) -> Result<(), ScheduleFault>
        requires room { happened self.old.run < MOST_LINES }
        ensures good { (cat : Plans) (events : List Happening) → IsRunOf cat events self.old.run
            → OnOk result (IsRunOf cat (events ++ event ∷ []) self.new.run
            × IsNamedHeard cat events event (event_id event) self.new.heard) }
        ensures head { self.new.head ≡ self.old.head }
        ensures memory { IfErr result (λ fault. fault ≡ Why.Memory) }
        ensures counted { OnOk result (happened self.new.run ≡ happened self.old.run + 1) }
        ensures uncounted { OnErr result (happened self.new.run ≡ happened self.old.run) }
    {
        let Some(id) = event.id() else {
            let changed = match self.run.outs(self.alloc) {
                Ok(changed) => changed,
                Err(Memory) => return Err(ScheduleFault::Memory),
            };
            self.run.take_event(event)?;
            self.heard = Heard::Restart(changed);
            return Ok(());
        };
        let step = self.run.take_event(event)?;
        self.heard = Heard::Event(id, event, step);
        Ok(())
    }

    // Takes what the line of this number says.
    fn hear(&mut self, number: u32, line: &[u8], said: Line) -> Result<(), ScheduleFault>
        requires room { happened self.old.run < MOST_LINES }
        ensures good { (cat : Plans) (events : List Happening) → IsRunOf cat events self.old.run
            → OnOk result ((fault_after cat events (Ok said) ≡ None)
            × IsRunOf (with_plan cat (Ok said)) (events ++ event_in (Ok said)) self.new.run
            × IsSaidHeard cat events (Ok said) (head number line.now) self.new.heard self.new.head.items) }
        ensures refused { (cat : Plans) (events : List Happening) → IsRunOf cat events self.old.run
            → IfErr result (IsLineFault number (fault_after cat events (Ok said))) }
        ensures counted { OnOk result (happened self.new.run ≤ happened self.old.run + 1) }
        ensures uncounted { OnErr result (happened self.new.run ≡ happened self.old.run) }
    {
        let Line::Event(event) = said else {
            self.heard = Heard::Nothing;
            return self.run.take_said(number, said);
        };
        self.head.clear();
        match push_head(&mut self.head, number, line) {
            Ok(()) => self.hear_event(event),
            Err(Memory) => Err(ScheduleFault::Memory),
        }
    }
}

impl Sink for Tracer {
    ghost use Rattle.osb_run.specs.Run.{happened};
    ghost use Rattle.osb_trace.specs.Heard.{HasTraced};

    ghost has_taken = { HasTraced };

    ghost happened = { λ tracer. happened tracer.run };

    fn take_line(&mut self, number: u32, line: &[u8]) -> Result<(), ScheduleFault> {
        match read_line(line) {
            Ok(said) => self.hear(number, line, said),
            Err(fault) => Err(ScheduleFault::At {
                line: number,
                fault,
            }),
        }
    }
}

//! A schedule that stands in memory: its plans and its events.
ghost use Rattle.std.specs.Prelude.{◌≡◌, ◌++◌, None, Ok, IfErr, IfOk, OnOk, true};
ghost use Rattle.osb_lines.specs.Faults.{HasNoFault};
ghost use Rattle.osb_lines.specs.Lines.{lines};
ghost use Rattle.osb_lines.specs.Reading.{Refuses};
ghost use Rattle.osb_lines.specs.Schedule.{event_in, fault_after, with_plan, IsScheduleOf};
ghost use Rattle.osb_lines.specs.Sink.{IsLineFault};

use crate::line_reader::LineReader;
use crate::plans::add_plan;
use crate::sink::Sink;
use osb_event::Event;
use osb_language::{Line, ScheduleFault, read_line};
use osb_message::Catalogue;
use std::alloc::Global;

/// What a schedule says, line by line (this project's choice). `run` of `osb_world` takes both.
#[derive(Drop)]
pub struct Schedule {
    /// The plans that the broker sells.
    pub catalogue: Catalogue,
    /// The events, in the order of their lines.
    pub events: Vec<Event>,
}

impl Schedule {
    // Takes what the line of this number says, unless it has a fault or finds no memory.
    fn take_said(&mut self, number: u32, said: Line) -> Result<(), ScheduleFault>
        ensures good { OnOk result
            ((fault_after self.old.catalogue self.old.events.items (Ok said) ≡ None)
            × (self.new.catalogue ≡ with_plan self.old.catalogue (Ok said))
            × (self.new.events.items ≡ self.old.events.items ++ event_in (Ok said))) }
        ensures refused { IfErr result
            (IsLineFault number (fault_after self.old.catalogue self.old.events.items (Ok said))) }
    {
        match said {
            Line::Nothing => Ok(()),
            Line::Plan {
                service,
                plan,
                mode,
            } => {
                let is_late = !self.events.is_empty();
                add_plan(&mut self.catalogue, is_late, number, service, plan, mode)
            }
            Line::Event(event) => match self.events.push(event) {
                Ok(()) => Ok(()),
                Err(_) => Err(ScheduleFault::Memory),
            },
        }
    }
}

impl Sink for Schedule {
    ghost use Rattle.osb_lines.specs.Schedule.{IsScheduleOf};

    ghost has_taken = { IsScheduleOf };

    // It keeps its events, and lets none happen.
    ghost happened = { λ _. 0 };

    fn take_line(&mut self, number: u32, line: &[u8]) -> Result<(), ScheduleFault> {
        match read_line(line) {
            Ok(said) => self.take_said(number, said),
            Err(fault) => Err(ScheduleFault::At {
                line: number,
                fault,
            }),
        }
    }
}

/// Reads a whole schedule that stands in memory, without letting its events happen (this project's
/// choice). Its plans and its events are kept, so it takes memory.
///
/// # Errors
///
/// [`ScheduleFault::At`] with the first faulty line, its number from 1. [`ScheduleFault::Memory`] where
/// an allocation failed, whatever stands in the lines that follow.
pub fn read_schedule(alloc: Global, text: &[u8]) -> Result<Schedule, ScheduleFault>
    ensures schedule { IfOk result (λ read. HasNoFault text.now true × IsScheduleOf (lines text.now) read) }
    ensures fault { IfErr result (Refuses text.now true) }
{
    let mut lines = LineReader::new(Schedule {
        catalogue: Catalogue::new(alloc),
        events: Vec::new(alloc),
    });
    lines.take_piece(text)?;
    lines.end()
}

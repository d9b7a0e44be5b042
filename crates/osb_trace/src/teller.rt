//! What is told of each line goes through a buffer to the writer.
ghost use Rattle.std.specs.Prelude.{◌≡◌, ℕ, false, List, ◌∷◌, ◌++◌, [], IfErr, IsOk, OnOk};
ghost use Rattle.std.specs.Io.KnownBytes.{append_known, Appends};
ghost use Rattle.osb_event.specs.declared.event.Event.{Event as Happening};
ghost use Rattle.osb_message.specs.IdText.{id_text};
ghost use Rattle.osb_message.specs.Plans.{Catalogue as Plans};
ghost use Rattle.osb_run.specs.Run.{IsRunOf};
ghost use Rattle.osb_trace.specs.Columns.{columns, header};
ghost use Rattle.osb_trace.specs.Heard.{HasTraced};
ghost use Rattle.osb_trace.specs.Passing.{IsUntold};
ghost use Rattle.osb_trace.specs.Settling.{round_head};
ghost use Rattle.osb_trace.specs.Telling.{asked_columns, is_asked, said_step, told_restart, IsLineTold};
ghost use Rattle.osb_world.specs.Events.{cell_after};

use crate::line::{push_columns, push_number};
use crate::reason::reason_of;
use crate::settling::RoundEvent;
use crate::tracer::{Heard, Tracer};
use osb_device::{Buffer, DeviceFault, Output};
use osb_event::Event;
use osb_language::ReplayFault;
use osb_message::{InstanceId, Memory};
use osb_run::Run;
use osb_world::{Cell, Step};
use std::alloc::Global;
use std::io::Write;

// What the columns are.
const HEADER: &[u8] = b"line\tevent\tstep\tplatform\tbroker\tout\tanswer\n";

// Tells of events: the instance that is asked for, the line under construction, and the buffer before the writer.
#[derive(Drop)]
pub struct Teller {
    pub instance: Option<InstanceId>,
    line: Vec<u8>,
    pub buffer: Buffer,
}

// Whether the instance is one that is asked for.
pub fn is_asked(instance: Option<InstanceId>, id: InstanceId) -> bool
    ensures asked { result ≡ is_asked instance id }
{
    match instance {
        Some(asked) => asked == id,
        None => true,
    }
}

impl Teller {
    pub fn new(alloc: Global, instance: Option<InstanceId>) -> Teller
        ensures instance { result.instance ≡ instance }
        ensures empty { result.buffer ≡ [] }
    {
        Teller {
            instance,
            line: Vec::new(alloc),
            buffer: Buffer::new(),
        }
    }

    // Ends the line of an event of an instance, which has this cell after it.
    fn end_event_line(&mut self, event: Event, step: Step, after: &Cell) -> Result<(), Memory>
        ensures line { OnOk result (self.new.line.items
            ≡ self.old.line.items ++ said_step step after.now event ++ 9 ∷ columns after.now) }
        ensures buffer { self.new.buffer ≡ self.old.buffer }
        ensures instance { self.new.instance ≡ self.old.instance }
    {
        let word = match step {
            Step::Applied => "applied",
            Step::Skipped => reason_of(after, event).word(),
        };
        self.line.extend_from_slice(word.as_bytes())?;
        self.line.push(b'\t')?;
        push_columns(&mut self.line, after)
    }

    // Makes the line of an event of an instance, which has this cell after it.
    fn make_event_line(
        &mut self,
        head: &[u8],
        event: Event,
        step: Step,
        after: &Cell,
    ) -> Result<(), Memory>
        ensures line { OnOk result (self.new.line.items
            ≡ head.now ++ said_step step after.now event ++ 9 ∷ columns after.now) }
        ensures buffer { self.new.buffer ≡ self.old.buffer }
        ensures instance { self.new.instance ≡ self.old.instance }
    {
        self.line.clear();
        self.line.extend_from_slice(head)?;
        self.end_event_line(event, step, after)
    }

    // Makes the line of a restart that changed so many instances.
    fn make_restart_line(&mut self, head: &[u8], changed: usize, run: &Run) -> Result<(), Memory>
        ensures line { (cat : Plans) (events : List Happening) → IsRunOf cat events run.now
            → OnOk result (self.new.line.items
            ≡ told_restart head.now changed (asked_columns self.old.instance (λ id. cell_after cat id events))) }
        ensures buffer { self.new.buffer ≡ self.old.buffer }
        ensures instance { self.new.instance ≡ self.old.instance }
    {
        self.line.clear();
        self.line.extend_from_slice(head)?;
        self.line.extend_from_slice(b"applied, ")?;
        push_number(&mut self.line, changed)?;
        self.line.extend_from_slice(b" changed\t")?;
        match self.instance {
            Some(id) => push_columns(&mut self.line, &run.cell(id)),
            None => {
                self.line.extend_from_slice(b"-\t-\t-\t-\n")?;
                Ok(())
            }
        }
    }

    // Makes the line of an event of a fault-free round of an instance, which has this cell after it.
    pub fn make_round_line(
        &mut self,
        id: InstanceId,
        number: u32,
        of: &RoundEvent,
        step: Step,
        after: &Cell,
    ) -> Result<(), Memory>
        ensures line { OnOk result (self.new.line.items
            ≡ round_head number (of.now.verb.now ++ id_text id ++ of.now.rest.now)
            ++ said_step step after.now of.now.event ++ 9 ∷ columns after.now) }
        ensures buffer { self.new.buffer ≡ self.old.buffer }
        ensures instance { self.new.instance ≡ self.old.instance }
    {
        self.line.clear();
        self.line.extend_from_slice(b"round ")?;
        push_number(&mut self.line, number as usize)?;
        self.line.push(b'\t')?;
        self.line.extend_from_slice(of.verb.as_bytes())?;
        self.line.extend_from_slice(&id.to_text())?;
        self.line.extend_from_slice(of.rest.as_bytes())?;
        self.line.push(b'\t')?;
        self.end_event_line(of.event, step, after)
    }

    // Gives the header to the buffer.
    pub fn tell_header<W: Write>(&mut self, writer: &mut Output<W>) -> Result<(), ReplayFault>
        ensures told { OnOk result (Appends (append_known (W.contents writer.old.device) self.old.buffer)
            (append_known (W.contents writer.new.device) self.new.buffer) header) }
        ensures refused { IfErr result (IsUntold writer.new.refused) }
        ensures instance { self.new.instance ≡ self.old.instance }
    {
        match self.buffer.push(HEADER, writer) {
            Ok(()) => Ok(()),
            Err(DeviceFault) => Err(ReplayFault::Write),
        }
    }

    // Gives the line that was made to the buffer.
    pub fn push_line<W: Write>(
        &mut self,
        made: Result<(), Memory>,
        writer: &mut Output<W>,
    ) -> Result<(), ReplayFault>
        ensures told { OnOk result (Appends (append_known (W.contents writer.old.device) self.old.buffer)
            (append_known (W.contents writer.new.device) self.new.buffer) self.old.line.items) }
        ensures made { OnOk result (IsOk made) }
        ensures refused { IfErr result (IsUntold writer.new.refused) }
        ensures instance { self.new.instance ≡ self.old.instance }
    {
        let Ok(()) = made else {
            return Err(ReplayFault::Memory);
        };
        match self.buffer.push(self.line.as_slice(), writer) {
            Ok(()) => Ok(()),
            Err(DeviceFault) => Err(ReplayFault::Write),
        }
    }

    // Tells of the line that the tracer took last.
    pub fn tell<W: Write>(
        &mut self,
        tracer: &Tracer,
        writer: &mut Output<W>,
    ) -> Result<(), ReplayFault>
        ensures told { (earlier : List (List ℕ)) (line : List ℕ) → HasTraced (earlier ++ line ∷ []) tracer.now
            → OnOk result ((text : List ℕ) × IsLineTold self.old.instance earlier line text
            × Appends (append_known (W.contents writer.old.device) self.old.buffer)
            (append_known (W.contents writer.new.device) self.new.buffer) text) }
        ensures refused { IfErr result (IsUntold writer.new.refused) }
        ensures instance { self.new.instance ≡ self.old.instance }
    {
        let made = match tracer.heard {
            Heard::Nothing => return Ok(()),
            Heard::Event(id, event, step) => {
                if !is_asked(self.instance, id) {
                    return Ok(());
                }
                self.make_event_line(tracer.head.as_slice(), event, step, &tracer.run.cell(id))
            }
            Heard::Restart(changed) => {
                self.make_restart_line(tracer.head.as_slice(), changed, &tracer.run)
            }
        };
        self.push_line(made, writer)
    }

    // Gives all that was told to the writer.
    pub fn flush<W: Write>(&mut self, writer: &mut Output<W>) -> Result<(), ReplayFault>
        ensures passed { OnOk result (Appends (append_known (W.contents writer.old.device) self.old.buffer)
            (W.contents writer.new.device) []) }
        ensures empty { OnOk result (self.new.buffer ≡ []) }
        ensures answered { OnOk result (writer.new.refused ≡ false) }
        ensures refused { IfErr result (IsUntold writer.new.refused) }
        ensures instance { self.new.instance ≡ self.old.instance }
    {
        match self.buffer.flush(writer) {
            Ok(()) => Ok(()),
            Err(DeviceFault) => Err(ReplayFault::Write),
        }
    }
}

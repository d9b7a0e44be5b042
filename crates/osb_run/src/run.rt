//! What the lines of a schedule do, one after another (this project's choice).
ghost use Rattle.std.specs.Prelude.{◌≡◌, ◌≢◌, ◌↔◌, ◌+◌, ◌<◌, ◌≤◌, ℕ, List, [], ◌∷◌, ◌++◌, None, Ok, IfErr, IfOk, IfSome};
ghost use Rattle.std.specs.Prelude.{count_by, is_some, IsSome, OnErr, OnOk};
ghost use Rattle.std.specs.FinMap as map;
ghost use Rattle.osb_message.specs.Plans.{Catalogue as Plans};
ghost use Rattle.osb_lines.specs.Schedule.{event_in, fault_after, has_begun, plan_fault, with_plan};
ghost use Rattle.osb_lines.specs.Sink.{IsLineFault};
ghost use Rattle.osb_run.specs.Restart.{IsChangeCount, IsChanged};
ghost use Rattle.osb_run.specs.Run.{happened, IsEndOf, IsRunOf, IsWorldAfter, HasRun};
ghost use Rattle.osb_world.specs.Events.{applies_at, cell_after};
ghost use Rattle.osb_world.specs.Views.{cell_at, step_of};
ghost use Rattle.osb_event.specs.declared.event.Event.{Event as Happening};
ghost use Rattle.osb_language.specs.declared.replay_fault.ScheduleFault.TheVariants as Why;

use osb_event::Event;
use osb_language::{Line, ScheduleFault, read_line};
use osb_lines::{MOST_LINES, Sink, add_plan};
use osb_message::{Catalogue, InstanceId, Memory, Mode, PlanId, ServiceId};
use osb_world::{Cell, Step, World};
use std::alloc::Global;
use std::mem;

/// The run of the lines of a schedule so far (this project's choice): the catalogue of its plan lines, from the
/// first event on a world with it, and how many events applied and didn't.
#[derive(Drop)]
pub struct Run {
    alloc: Global,
    pub(crate) catalogue: Catalogue,
    pub(crate) world: Option<World>,
    pub(crate) applied: u32,
    pub(crate) skipped: u32,
}

/// What all lines of a schedule have left (this project's choice).
#[derive(Drop)]
pub struct Ended {
    /// The world after all events.
    pub world: World,
    /// How many events applied.
    pub applied: u32,
    /// How many didn't.
    pub skipped: u32,
}

// The cell of an id that was never recorded.
const EMPTY_CELL: Cell = Cell {
    platform: None,
    broker: None,
    out: None,
    travelling: None,
};

// How many of these instances have a request out.
fn count_out(world: &World, ids: &[InstanceId]) -> usize
    ensures count { result ≡ count_by (λ id. is_some (cell_at world.now id).out) ids.now }
{
    let mut count = 0;
    for id in ids {
        if world.cell(*id).out.is_some() {
            count += 1;
        }
    }
    count
}

impl Run {
    /// The run of no lines. It takes no memory.
    pub fn new(alloc: Global) -> Run
        ensures none { HasRun [] result }
        ensures counted { happened result ≡ 0 }
    {
        Run {
            alloc,
            catalogue: Catalogue::new(alloc),
            world: None,
            applied: 0,
            skipped: 0,
        }
    }

    // Whether an event has happened.
    fn any_happened(&self) -> bool
        ensures begun { (cat : Plans) (events : List Happening) → IsRunOf cat events self.now
            → result ≡ has_begun events }
    {
        self.applied > 0 || self.skipped > 0
    }

    fn add_plan(
        &mut self,
        number: u32,
        service: ServiceId,
        plan: PlanId,
        mode: Mode,
    ) -> Result<(), ScheduleFault>
        ensures good { (cat : Plans) (events : List Happening) → IsRunOf cat events self.old
            → OnOk result ((plan_fault (has_begun events) cat service plan ≡ None)
            × IsRunOf (map.insert cat (service, plan) mode) events self.new) }
        ensures refused { (cat : Plans) (events : List Happening) → IsRunOf cat events self.old
            → IfErr result (IsLineFault number (plan_fault (has_begun events) cat service plan)) }
        ensures err { (cat : Plans) (events : List Happening) → IsRunOf cat events self.old
            → OnErr result (IsRunOf cat events self.new) }
        ensures counted { happened self.new ≡ happened self.old }
    {
        let is_late = self.any_happened();
        if self.world.is_some() && !is_late {
            // The world has the catalogue already.
            return Err(ScheduleFault::Memory);
        }
        add_plan(&mut self.catalogue, is_late, number, service, plan, mode)
    }

    // Makes the world of the catalogue, where there is none yet.
    fn begin(&mut self)
        ensures begun { IsSome self.new.world }
        ensures world { (cat : Plans) (events : List Happening) → IsRunOf cat events self.old
            → IfSome self.new.world (IsWorldAfter cat events) }
        ensures applied { self.new.applied ≡ self.old.applied }
        ensures skipped { self.new.skipped ≡ self.old.skipped }
    {
        if self.world.is_none() {
            let catalogue = mem::replace(&mut self.catalogue, Catalogue::new(self.alloc));
            self.world = Some(World::new(self.alloc, catalogue));
        }
    }

    /// Lets an event happen, of a run that has let fewer than 100,000 happen, and says whether it applied. It
    /// takes memory.
    ///
    /// # Errors
    ///
    /// [`ScheduleFault::Memory`] if an allocation failed. The event hasn't happened then and isn't counted: the run is
    /// still that of the events before it, and takes the event again.
    pub fn take_event(&mut self, event: Event) -> Result<Step, ScheduleFault>
        requires room { happened self.old < MOST_LINES }
        ensures good { (cat : Plans) (events : List Happening) → IsRunOf cat events self.old
            → OnOk result (IsRunOf cat (events ++ event ∷ []) self.new) }
        ensures step { (cat : Plans) (events : List Happening) → IsRunOf cat events self.old
            → IfOk result (λ step. step ≡ step_of (applies_at (λ id. cell_after cat id events) event)) }
        ensures memory { IfErr result (λ fault. fault ≡ Why.Memory) }
        ensures err { (cat : Plans) (events : List Happening) → IsRunOf cat events self.old
            → OnErr result (IsRunOf cat events self.new) }
        ensures counted { OnOk result (happened self.new ≡ happened self.old + 1) }
        ensures uncounted { OnErr result (happened self.new ≡ happened self.old) }
    {
        self.begin();
        let Some(world) = &mut self.world else {
            unreachable!()
        };
        match world.step(self.alloc, event) {
            Ok(Step::Applied) => {
                self.applied += 1;
                Ok(Step::Applied)
            }
            Ok(Step::Skipped) => {
                self.skipped += 1;
                Ok(Step::Skipped)
            }
            Err(Memory) => Err(ScheduleFault::Memory),
        }
    }

    /// Takes what the line of this number says, from 1, of a run that has let fewer than 100,000 events happen. It
    /// may take memory.
    ///
    /// # Errors
    ///
    /// [`ScheduleFault::At`] with the fault of what the line says, after those that were taken before.
    /// [`ScheduleFault::Memory`] if an allocation failed; and for a plan, if an allocation failed for the first event,
    /// since the catalogue is in use by then. After any of these the run is still that of the lines before, with the
    /// same catalogue and the same events.
    pub fn take_said(&mut self, number: u32, said: Line) -> Result<(), ScheduleFault>
        requires room { happened self.old < MOST_LINES }
        ensures good { (cat : Plans) (events : List Happening) → IsRunOf cat events self.old
            → OnOk result ((fault_after cat events (Ok said) ≡ None)
            × IsRunOf (with_plan cat (Ok said)) (events ++ event_in (Ok said)) self.new) }
        ensures refused { (cat : Plans) (events : List Happening) → IsRunOf cat events self.old
            → IfErr result (IsLineFault number (fault_after cat events (Ok said))) }
        ensures err { (cat : Plans) (events : List Happening) → IsRunOf cat events self.old
            → OnErr result (IsRunOf cat events self.new) }
        ensures counted { OnOk result (happened self.new ≤ happened self.old + 1) }
        ensures uncounted { OnErr result (happened self.new ≡ happened self.old) }
    {
        match said {
            Line::Nothing => Ok(()),
            Line::Plan {
                service,
                plan,
                mode,
            } => self.add_plan(number, service, plan, mode),
            Line::Event(event) => match self.take_event(event) {
                Ok(_) => Ok(()),
                Err(fault) => Err(fault),
            },
        }
    }

    /// All that there is of an instance after the lines so far. It takes no memory.
    pub fn cell(&self, id: InstanceId) -> Cell
        ensures cell { (cat : Plans) (events : List Happening) → IsRunOf cat events self.now
            → result ≡ cell_after cat id events }
    {
        match &self.world {
            Some(world) => world.cell(id),
            None => EMPTY_CELL,
        }
    }

    /// How many instances a restart would change after the lines so far: those that have a request out.
    ///
    /// # Errors
    ///
    /// [`Memory`] where an allocation failed.
    pub fn outs(&self, alloc: Global) -> Result<usize, Memory>
        ensures outs { (cat : Plans) (events : List Happening) → IsRunOf cat events self.now
            → IfOk result (IsChangeCount cat events) }
        // Whatever happened before, a restart changes the instance exactly where a request is out.
        ensures changed { (cat : Plans) (events : List Happening) (id : ℕ) → IsSome (cell_after cat id events).out
            ↔ IsChanged cat events id }
    {
        let Some(world) = &self.world else {
            return Ok(0);
        };
        let ids = world.ids(alloc)?;
        Ok(count_out(world, ids.as_slice()))
    }

    /// What the lines have left, once there are no more. It takes no memory.
    pub fn end(mut self) -> Ended
        ensures ended { (lines : List (List ℕ)) → HasRun lines self → IsEndOf lines result }
    {
        self.begin();
        let Run {
            world,
            applied,
            skipped,
            ..
        } = self;
        let Some(world) = world else { unreachable!() };
        Ended {
            world,
            applied,
            skipped,
        }
    }
}

impl Sink for Run {
    ghost use Rattle.osb_run.specs.Run.{happened, HasRun};

    ghost has_taken = { HasRun };

    ghost happened = { happened };

    fn take_line(&mut self, number: u32, line: &[u8]) -> Result<(), ScheduleFault> {
        match read_line(line) {
            Ok(said) => self.take_said(number, said),
            Err(fault) => Err(ScheduleFault::At {
                line: number,
                fault,
            }),
        }
    }
}

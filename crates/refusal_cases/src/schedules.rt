//! Schedules that stand in memory are read.
use crate::telling::{Case, Returned, tell};
use anyhow::Result;
use osb_schedule::{Schedule, ScheduleFault, read_schedule};
use std::alloc::Global;

// An instance of a synchronous plan is made: three events.
pub const MADE: &str = "\
plan 00000000-0000-0000-0000-0000000000a0 00000000-0000-0000-0000-0000000000b1 sync
plan 00000000-0000-0000-0000-0000000000a0 00000000-0000-0000-0000-0000000000b2 async
create 00000000-0000-0000-0000-000000000001 00000000-0000-0000-0000-0000000000a0 \
00000000-0000-0000-0000-0000000000b1 no
deliver 00000000-0000-0000-0000-000000000001 done
answer 00000000-0000-0000-0000-000000000001
";

// A plan that stands twice.
const TWICE: &str = "\
plan 00000000-0000-0000-0000-0000000000a0 00000000-0000-0000-0000-0000000000b1 sync
plan 00000000-0000-0000-0000-0000000000a0 00000000-0000-0000-0000-0000000000b1 async
";

// How many lines a schedule has at most.
const MOST_LINES: u32 = 100_000;

#[derive(Drop)]
struct ScheduleCase {
    text: String,
    schedule: Option<Schedule>,
    alloc: Global,
}

impl Case for ScheduleCase {
    fn state(&self, alloc: Global) -> Result<String> {
        match &self.schedule {
            Some(schedule) => {
                let count = schedule.events.len();
                Ok(format!(in alloc; "{count} events")?)
            }
            None => Ok(format!(in alloc; "no schedule")?),
        }
    }

    fn call(&mut self) -> Returned {
        match read_schedule(self.alloc, self.text.as_bytes()) {
            Ok(schedule) => {
                self.schedule = Some(schedule);
                Returned::Word("Ok")
            }
            Err(ScheduleFault::Memory) => Returned::Memory,
            Err(fault) => Returned::Fault(fault),
        }
    }
}

fn tell_read(rt: &impl Print, alloc: Global, name: &str, text: String) -> Result<()> {
    let mut case = ScheduleCase {
        text,
        schedule: None,
        alloc,
    };
    tell(rt, alloc, name, &mut case)
}

// As many of this line as there may be.
fn most_lines(alloc: Global, line: &str) -> Result<String> {
    let mut text = String::new(alloc);
    for _ in 0..MOST_LINES {
        text.push_str(line)?;
    }
    Ok(text)
}

pub fn read(rt: &impl Print, alloc: Global) -> Result<()> {
    let made = String::from_str(alloc, MADE)?;
    tell_read(rt, alloc, "read_schedule", made)?;
    let twice = String::from_str(alloc, TWICE)?;
    tell_read(rt, alloc, "read_schedule of a plan twice", twice)?;
    let restarts = most_lines(alloc, "restart\n")?;
    tell_read(rt, alloc, "read_schedule of 100,000 events", restarts)?;
    let feeds = most_lines(alloc, "\n")?;
    tell_read(
        rt,
        alloc,
        "read_schedule of 100,000 empty lines, without memory",
        feeds,
    )?;
    let mut more = most_lines(alloc, "\n")?;
    more.push('#')?;
    tell_read(
        rt,
        alloc,
        "read_schedule of a line more, without memory",
        more,
    )
}

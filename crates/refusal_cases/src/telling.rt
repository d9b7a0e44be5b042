//! What is told of a call.
use anyhow::Result;
use osb_message::{InstanceId, Memory};
use osb_platform::SaveFault;
use osb_schedule::ScheduleFault;
use std::alloc::Global;

// How often a call is made: once more after a refusal.
const TRIES: u32 = 2;

// What a call returned.
#[derive(Drop)]
pub enum Returned {
    Memory,
    Word(&'static str),
    Fault(ScheduleFault),
    Ids(Vec<InstanceId>),
    Text(String),
}

pub fn done(returned: Result<(), Memory>) -> Returned {
    match returned {
        Ok(()) => Returned::Word("Ok"),
        Err(Memory) => Returned::Memory,
    }
}

pub fn listed(returned: Result<Vec<InstanceId>, Memory>) -> Returned {
    match returned {
        Ok(ids) => Returned::Ids(ids),
        Err(Memory) => Returned::Memory,
    }
}

pub fn saved(returned: Result<String, SaveFault>) -> Returned {
    match returned {
        Ok(text) => Returned::Text(text),
        Err(SaveFault::Memory) => Returned::Memory,
    }
}

// Something with a call that is made on it.
pub trait Case {
    // What can be seen of it.
    fn state(&self, alloc: Global) -> Result<String>;

    fn call(&mut self) -> Returned;
}

fn tell_returned(rt: &impl Print, returned: &Returned) -> Result<()> {
    match returned {
        Returned::Memory => println!(rt; "returned Memory")?,
        Returned::Word(word) => println!(rt; "returned {word}")?,
        Returned::Fault(fault) => println!(rt; "returned {fault}")?,
        Returned::Ids(ids) => println!(rt; "returned {ids:?}")?,
        Returned::Text(text) => println!(rt; "returned {text}")?,
    }
    Ok(())
}

// Makes the call, until it finds memory, and tells of it.
pub fn tell<C: Case>(rt: &impl Print, alloc: Global, name: &str, case: &mut C) -> Result<()> {
    for _ in 0..TRIES {
        let before = case.state(alloc)?;
        println!(rt; "before {before}")?;
        println!(rt; "call {name}")?;
        let returned = case.call();
        tell_returned(rt, &returned)?;
        let after = case.state(alloc)?;
        println!(rt; "after {after}")?;
        if !matches!(returned, Returned::Memory) {
            break;
        }
    }
    Ok(())
}

//! The library calls that may run out of memory and that neither C nor `osb-replay` makes: each made where a check
//! refuses one of its allocations, and made again after the refusal.
//!
//! `refusal_cases PART ..` tells these parts, and `refusal_cases parts` names all of them. Four lines tell of a call: what
//! there is before it (`before`), its name (`call`), what it returned (`returned`), and what there is then (`after`). The
//! name of a call that takes no memory ends in `without memory`.
#![tactic(auto)]

mod instances;
mod network;
mod platform;
mod replays;
mod schedules;
mod telling;
mod update_wire;
mod updates;
mod world;

use anyhow::{Result, bail};
use std::alloc::Global;
use std::env;

// The parts, in the order in which they are told.
const PARTS: [&str; 8] = [
    "load-format-1",
    "world",
    "read-schedule",
    "replay",
    "network-steps",
    "network-calls",
    "update-texts",
    "update-wire",
];

fn tell(rt: &impl Print, alloc: Global, part: &str) -> Result<()> {
    match part {
        "parts" => list(rt),
        "load-format-1" => platform::load(rt, alloc),
        "world" => world::calls(rt, alloc),
        "read-schedule" => schedules::read(rt, alloc),
        "replay" => replays::tell_all(rt, alloc),
        "network-steps" => network::steps(rt, alloc),
        "network-calls" => network::calls(rt, alloc),
        "update-texts" => updates::calls(rt, alloc),
        "update-wire" => update_wire::calls(rt, alloc),
        _ => bail!("no part has this name"),
    }
}

// Names the parts, for the check that goes through them.
fn list(rt: &impl Print) -> Result<()> {
    for &part in &PARTS {
        println!(rt; "{part}")?;
    }
    Ok(())
}

fn main(rt: HostRuntime) -> Result<()> {
    let mut words = env::args(&rt)?;
    let _program = words.next();
    for word in words {
        tell(&rt, rt.alloc(), word.as_str())?;
    }
    Ok(())
}

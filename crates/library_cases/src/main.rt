//! Prints what the libraries return for each line of its input: what can be seen neither from C nor from `osb-replay`,
//! nor in the cases of the crates `service_cases` and `refusal_cases`. A line is the name of a call and its arguments.
//! The program writes the line again, and behind it, after two blanks, what came of it. What takes further lines stands
//! below. Empty lines, and comments, which begin with `#`, are written as they are.
#![tactic(auto)]

mod broker;
mod faults;
mod message;
mod platform;
mod update_broker;
mod update_instances;
mod update_platform;
mod update_texts;
mod update_values;
mod update_wire;
mod update_wire_bodies;
mod update_wire_catalogues;
mod update_wire_words;
mod updates;
mod wire;
mod world;

use anyhow::Result;
use osb_platform::Platform;
use std::alloc::Global;

// The first word, and what follows the blank after it.
pub(crate) fn first(text: &str) -> (&str, &str) {
    text.split_once(' ').unwrap_or((text, ""))
}

// What a call makes of its arguments, and of the platform that the lines before have left.
fn tell(rt: &impl Print, alloc: Global, platform: &mut Platform, line: &str) -> Result<()> {
    let (call, rest) = first(line);
    match call {
        "id" => message::id(rt, rest),
        "ids" => message::ids(rt, alloc, rest),
        "word" => message::word(rt, rest),
        "poll-of-another-plan" => broker::poll_of_another_plan(rt, alloc),
        "world" => world::run_creates(rt, alloc, rest),
        "bind" => wire::bind(rt, alloc, rest),
        "provision" => wire::provision(rt, alloc, rest),
        "constants" => wire::constants(rt),
        "faults" => faults::tell_of(rt, alloc, rest),
        "update" => updates::tell(rt, alloc, rest),
        "update-wire" => update_wire::tell(rt, alloc, rest),
        _ => platform::tell(rt, alloc, platform, call, rest),
    }
}

fn main(rt: HostRuntime) -> Result<()> {
    let mut platform = Platform::new(rt.alloc());
    for line in rt.lines(rt.alloc()) {
        let line = line?;
        let text = line.as_str();
        if text.is_empty() || text.starts_with('#') {
            println!(rt; "{text}")?;
        } else {
            print!(rt; "{text}")?;
            tell(&rt, rt.alloc(), &mut platform, text)?;
        }
    }
    Ok(())
}

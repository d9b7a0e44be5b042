//! What osb_update and osb_update_text return: lines of the form `update CALL ARGUMENTS`. The words of a holding and of
//! a record are in `update_values.rt`, those of an instance in `update_instances.rt`.
//!
//! - `begin ALLOWED accepts|refuses SERVICE NAMES NUMBER INSTANCE HOLDING`: an Update comes (`update_broker.rt`).
//! - `end MODE OUTCOME HOLDING` and `finish ok|failed HOLDING`: its work or its operation ends.
//! - `poll INSTANCE HOLDING` and `fetch INSTANCE HOLDING`: what the broker reports.
//! - `begin-instance MODE RULE KIND accepts|refuses ATTRIBUTES held|- INSTANCE HOLDING`: a request of the instance
//!   comes.
//! - `update STATE TO RECORD`, `send RECORD`, `send-fetch RECORD`: what a platform sends (`update_platform.rt`).
//! - `answer ATTEMPT STATUS BODY RECORD`, `fetched ATTEMPT SETTINGS NUMBER RECORD`, `timeout ATTEMPT RECORD` and `stop
//!   RECORD`: what it records then.
//! - `can-be RECORD`: whether such a record can come about.
//! - `new SETTINGS` and `change-to SETTINGS TO all|-`: what an instance begins with, and what an Update names.
//! - `write-holding HOLDING` and `write-record RECORD`: the text (`update_texts.rt`).
//! - `holding TEXT` and `record TEXT`: the text that is written of what was read, or the fault.
//!
//! `checks/update` compares many more such lines with a model.
use crate::{first, update_broker, update_platform, update_texts};
use anyhow::Result;
use std::alloc::Global;

// What a call makes of its arguments.
fn tell_call(rt: &impl Print, alloc: Global, call: &str, words: &str) -> Result<()> {
    match call {
        "begin" => update_broker::begin(rt, words),
        "end" => update_broker::end(rt, words),
        "finish" => update_broker::finish(rt, words),
        "poll" => update_broker::poll(rt, words),
        "fetch" => update_broker::fetch(rt, words),
        "begin-instance" => update_broker::begin_instance(rt, words),
        "write-holding" => update_texts::write_a_holding(rt, alloc, words),
        "write-record" => update_texts::write_a_record(rt, alloc, words),
        "holding" => update_texts::read_a_holding(rt, alloc, words),
        "record" => update_texts::read_a_record(rt, alloc, words),
        _ => update_platform::tell(rt, call, words),
    }
}

pub(crate) fn tell(rt: &impl Print, alloc: Global, rest: &str) -> Result<()> {
    let (call, words) = first(rest);
    print!(rt; "  ")?;
    tell_call(rt, alloc, call, words)?;
    Ok(println!(rt;)?)
}

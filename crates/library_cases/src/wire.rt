//! Requests with members that are values, and what stands in headers. `checks/wire` and `checks/binding_wire` compare
//! all that C can see with Python's `json` and `urllib`.
use crate::first;
use anyhow::{Context, Result};
use osb_binding::{BindingId, BindingRequest};
use osb_binding_wire::{BindingNames, read_binding_request, write_binding_request};
use osb_message::{InstanceId, Kind, PlanId, Request, ServiceId};
use osb_wire::{
    API_VERSION, API_VERSION_HEADER, CONTENT_TYPE, Names, ORIGINATING_IDENTITY_HEADER,
    REQUEST_IDENTITY_HEADER, asked_operation, id_of_text, read_request, write_body, write_request,
    write_target,
};
use serde_json::{Map, Value};
use std::alloc::Global;

// `constants`: the names of the headers, the version, and the type of a body.
pub(crate) fn constants(rt: &impl Print) -> Result<()> {
    println!(rt; "  {}: {}", API_VERSION_HEADER, API_VERSION)?;
    println!(rt; "  Content-Type: {}", CONTENT_TYPE)?;
    println!(rt; "  {}", ORIGINATING_IDENTITY_HEADER)?;
    Ok(println!(rt; "  {}", REQUEST_IDENTITY_HEADER)?)
}

// A text of as many letters.
fn letters(alloc: Global, length: &str) -> Result<String> {
    let length: usize = length.parse().ok().context("no length")?;
    let mut text = String::new(alloc);
    for _ in 0..length {
        text.push('a')?;
    }
    Ok(text)
}

// The text in lists as deep within one another.
fn nested(alloc: Global, depth: &str, text: String) -> Result<Value> {
    let depth: usize = depth.parse().ok().context("no depth")?;
    let mut value = Value::String(text);
    for _ in 0..depth {
        let mut list = Vec::new(alloc);
        list.push(value)?;
        value = Value::Array(list);
    }
    Ok(value)
}

// The further members of `DEPTH LENGTH`: a text of as many letters, in lists as deep, and a hundred numbers.
fn members(alloc: Global, words: &str) -> Result<Map<String, Value>> {
    let (depth, length) = first(words);
    let value = nested(alloc, depth, letters(alloc, length)?)?;
    let mut further = Map::new(alloc);
    serde_json::put(&mut further, alloc, "parameters", value)?;
    for number in 0..100u64 {
        let name = format!(in alloc; "member {number}")?;
        serde_json::put(&mut further, alloc, name.as_str(), Value::from(number))?;
    }
    Ok(further)
}

// `provision DEPTH LENGTH`: the status and the body with which a broker refuses a Provision with these members, or
// `read`; and the body of the Provision.
pub(crate) fn provision(rt: &impl Print, alloc: Global, words: &str) -> Result<()> {
    let names = Names {
        instance: "i",
        service: "s",
        plan: "p",
    };
    let asked = Request {
        kind: Kind::Provision,
        id: id_of_text(names.instance).context("no id")?,
        service: id_of_text(names.service).context("no id")?,
        plan: id_of_text(names.plan).context("no id")?,
        accepts_incomplete: true,
    };
    let further = members(alloc, words)?;
    let sent = write_request(alloc, "", &asked, &names, None, "o", "s", further)?;
    let (target, body) = (sent.target.as_bytes(), sent.body.as_bytes());
    match read_request(alloc, "", body.len(), sent.method, target, body) {
        Ok(_) => println!(rt; "  read {}", sent.body)?,
        Err(refusal) => println!(rt; "  {} {} {}", refusal.status(), refusal.body(), sent.body)?,
    }
    of_guids(rt, alloc, words)
}

// The operation that a broker reads from a target.
fn operation_in(rt: &impl Print, alloc: Global, target: &str) -> Result<()> {
    if let Some(operation) = asked_operation(alloc, target.as_bytes())? {
        println!(rt; "  {}", operation.as_str())?;
    }
    Ok(())
}

// The target of a Poll whose ids are GUIDs in lower case, with an operation of LENGTH letters; the operation that a
// broker reads from it; and the body of a Provision of the same ids with the same members.
fn of_guids(rt: &impl Print, alloc: Global, words: &str) -> Result<()> {
    let poll = Request {
        kind: Kind::Poll,
        id: InstanceId::from_value(1),
        service: ServiceId::from_value(0xa0),
        plan: PlanId::from_value(0xb1),
        accepts_incomplete: true,
    };
    let (_, length) = first(words);
    let operation = letters(alloc, length)?;
    let target = write_target(alloc, "", &poll, Some(operation.as_str()))?;
    println!(rt; "  {target}")?;
    operation_in(rt, alloc, target.as_str())?;
    let asked = Request {
        kind: Kind::Provision,
        ..poll
    };
    let body = write_body(alloc, &asked, "o", "s", members(alloc, words)?)?;
    Ok(println!(rt; "  {body}")?)
}

// `bind DEPTH LENGTH`: the status with which a broker refuses a Bind with these members, or `read`; and its body.
pub(crate) fn bind(rt: &impl Print, alloc: Global, words: &str) -> Result<()> {
    let names = BindingNames {
        instance: "i",
        binding: "b",
        service: "s",
        plan: "p",
    };
    let binding: BindingId = id_of_text(names.binding).context("no id")?;
    let asked = BindingRequest {
        kind: Kind::Provision,
        instance: id_of_text(names.instance).context("no id")?,
        binding,
        service: id_of_text(names.service).context("no id")?,
        plan: id_of_text(names.plan).context("no id")?,
        accepts_incomplete: true,
    };
    let sent = write_binding_request(alloc, "", &asked, &names, None, members(alloc, words)?)?;
    let (target, body) = (sent.target.as_bytes(), sent.body.as_bytes());
    match read_binding_request(alloc, "", body.len(), sent.method, target, body) {
        Ok(_) => Ok(println!(rt; "  read {}", sent.body)?),
        Err(refusal) => Ok(println!(rt; "  {} {}", refusal.status(), sent.body)?),
    }
}

//! Updates and Fetches are written and read as HTTP and JSON.
use crate::telling::{Case, Returned, tell};
use anyhow::Result;
use osb_message::{Answer, Body, ErrorCode, Memory, PlanId, ServiceId};
use osb_update_wire::{
    FETCH_METHOD, InstanceTexts, TextFault, UPDATE_METHOD, UpdateReceived, UpdateRefusal,
    UpdateTexts, numbers_updates, plan_updates, read_fetched, read_update_answer,
    read_update_request, served_updates, update_flags_are_sound, update_parts, version_digest,
    write_failure, write_fetch, write_fetched, write_success, write_update,
};
use osb_wire::{Names, Refusal};
use std::alloc::Global;

const TARGET: &[u8] =
    b"/v2/service_instances/i%20j?service_id=00000000-0000-0000-0000-000000000001&plan_id=p";

const BODY: &[u8] =
    b"{\"service_id\":\"s\",\"plan_id\":\"p\",\"parameters\":{\"a\":[1]},\"context\":{},\
\"previous_values\":{},\"maintenance_info\":{\"version\":\"1.0\"},\"x-osb-update\":5,\
\"dashboard_url\":\"u\",\"metadata\":{},\"operation\":\"o\"}";

const DOCUMENT: &[u8] =
    b"{\"x-osb-updates\":true,\"services\":[{\"id\":\"00000000-0000-0000-0000-000000000001\",\
\"plans\":[{\"id\":\"00000000-0000-0000-0000-000000000002\",\"maintenance_info\":{\"version\":\"1.0\"}}]}]}";

// The calls of the crate.
#[derive(Clone, Copy)]
enum Called {
    WriteUpdate,
    WriteFetch,
    ReadUpdate,
    ReadFetch,
    Parts,
    ReadAnswer,
    WriteSuccess,
    WriteFailure,
    WriteFetched,
    ReadFetched,
    Plan,
    Numbers,
    Flags,
    Served,
    Digest,
}

// How many bytes a call returned, or how often something was there, or why not.
type Counted = Result<usize, Returned>;

fn of_text(made: Result<String, Memory>) -> Counted {
    match made {
        Ok(text) => Ok(text.len()),
        Err(Memory) => Err(Returned::Memory),
    }
}

fn of_flag(found: Result<bool, Memory>) -> Counted {
    match found {
        Ok(says) => Ok(usize::from(says)),
        Err(Memory) => Err(Returned::Memory),
    }
}

fn of_fault(fault: TextFault) -> Returned {
    match fault {
        TextFault::Memory => Returned::Memory,
        _ => Returned::Word("another fault"),
    }
}

fn of_received(received: Result<UpdateReceived, UpdateRefusal>) -> Counted {
    match received {
        Ok(received) => Ok(received.instance.len()),
        Err(UpdateRefusal::Refused(Refusal::Memory)) => Err(Returned::Memory),
        Err(_) => Err(Returned::Word("another fault")),
    }
}

fn update_written(alloc: Global) -> Counted {
    let (plan, parameters) = (Some("p"), Some("{\"a\":[1]}"));
    let (version, context) = (Some("1.0"), Some("{}"));
    let texts = UpdateTexts {
        instance: "i j",
        service: "s",
        plan,
        parameters,
        version,
        context,
    };
    match write_update(alloc, "", &texts, 5, true) {
        Ok(sent) => Ok(sent.target.len()),
        Err(fault) => Err(of_fault(fault)),
    }
}

fn fetch_written(alloc: Global) -> Counted {
    let names = Names {
        instance: "i j",
        service: "s",
        plan: "p",
    };
    match write_fetch(alloc, "", &names) {
        Ok(target) => Ok(target.len()),
        Err(fault) => Err(of_fault(fault)),
    }
}

fn parts_read(alloc: Global) -> Counted {
    match update_parts(alloc, BODY, 5) {
        Ok(parts) => Ok(parts.parameters.map_or(0, |text| text.len())),
        Err(Memory) => Err(Returned::Memory),
    }
}

fn answer_read(alloc: Global) -> Counted {
    match read_update_answer(alloc, 202, BODY) {
        Ok(answer) => Ok(usize::from(answer.is_some())),
        Err(Memory) => Err(Returned::Memory),
    }
}

fn failure_written(alloc: Global) -> Counted {
    let answer = Answer {
        status: 500,
        body: Body::Error(ErrorCode::Other),
    };
    let description = Some("It failed.");
    of_text(write_failure(alloc, answer, description, Some(true), Some(false)))
}

fn success_written(alloc: Global) -> Counted {
    let (operation, address, metadata) = (Some("o"), Some("u"), Some("{\"labels\":{}}"));
    of_text(write_success(alloc, 202, operation, address, metadata))
}

fn fetched_written(alloc: Global) -> Counted {
    let (parameters, version) = (Some("{\"a\":[1]}"), Some("1.0"));
    let (dashboard_url, metadata) = (Some("u"), Some("{}"));
    let texts = InstanceTexts {
        service: "s",
        plan: "p",
        parameters,
        version,
        dashboard_url,
        metadata,
    };
    of_text(write_fetched(alloc, &texts, 5))
}

fn fetched_read(alloc: Global) -> Counted {
    match read_fetched(alloc, 200, BODY) {
        Ok(found) => Ok(found.parameters.map_or(0, |text| text.len())),
        Err(Memory) => Err(Returned::Memory),
    }
}

fn plan_read(alloc: Global) -> Counted {
    let (service, plan) = (ServiceId::from_value(1), PlanId::from_value(2));
    match plan_updates(alloc, DOCUMENT, service, plan) {
        Ok(found) => Ok(usize::from(found.is_some())),
        Err(Memory) => Err(Returned::Memory),
    }
}

fn served_written(alloc: Global) -> Counted {
    match served_updates(alloc, DOCUMENT) {
        Ok(told) => Ok(told.map_or(0, |text| text.len())),
        Err(Memory) => Err(Returned::Memory),
    }
}

fn request_read(alloc: Global, method: &str) -> Counted {
    of_received(read_update_request(alloc, "", BODY.len(), method, TARGET, BODY))
}

fn counted(alloc: Global, called: Called) -> Counted {
    match called {
        Called::WriteUpdate => update_written(alloc),
        Called::WriteFetch => fetch_written(alloc),
        Called::ReadUpdate => request_read(alloc, UPDATE_METHOD),
        Called::ReadFetch => request_read(alloc, FETCH_METHOD),
        Called::Parts => parts_read(alloc),
        Called::ReadAnswer => answer_read(alloc),
        Called::WriteSuccess => success_written(alloc),
        Called::WriteFailure => failure_written(alloc),
        Called::WriteFetched => fetched_written(alloc),
        Called::ReadFetched => fetched_read(alloc),
        Called::Plan => plan_read(alloc),
        Called::Numbers => of_flag(numbers_updates(alloc, DOCUMENT)),
        Called::Flags => of_flag(update_flags_are_sound(alloc, DOCUMENT)),
        Called::Served => served_written(alloc),
        Called::Digest => Ok(version_digest("1.0").bytes.len()),
    }
}

// What a call returned last.
#[derive(Drop)]
struct Calling {
    called: Called,
    last: Option<usize>,
    alloc: Global,
}

impl Case for Calling {
    fn state(&self, alloc: Global) -> Result<String> {
        let last = self.last;
        Ok(format!(in alloc; "{last:?}")?)
    }

    fn call(&mut self) -> Returned {
        match counted(self.alloc, self.called) {
            Ok(count) => {
                self.last = Some(count);
                Returned::Word("Ok")
            }
            Err(why) => why,
        }
    }
}

const CALLS: [(&str, Called); 15] = [
    ("write_update", Called::WriteUpdate),
    ("write_fetch", Called::WriteFetch),
    ("read_update_request", Called::ReadUpdate),
    ("read_update_request of a Fetch", Called::ReadFetch),
    ("update_parts", Called::Parts),
    ("read_update_answer", Called::ReadAnswer),
    ("write_success", Called::WriteSuccess),
    ("write_failure", Called::WriteFailure),
    ("write_fetched", Called::WriteFetched),
    ("read_fetched", Called::ReadFetched),
    ("plan_updates", Called::Plan),
    ("numbers_updates", Called::Numbers),
    ("update_flags_are_sound", Called::Flags),
    ("served_updates", Called::Served),
    ("version_digest, without memory", Called::Digest),
];

// Each call is made.
pub fn calls(rt: &impl Print, alloc: Global) -> Result<()> {
    for &(name, called) in &CALLS {
        let mut calling = Calling {
            called,
            last: None,
            alloc,
        };
        tell(rt, alloc, name, &mut calling)?;
    }
    Ok(())
}

//! A platform's loop: the answer to a Provision is lost, and the platform cleans up what the broker
//! may have made. When it saves its records is told in docs/saved-record.md.
#![tactic(auto)]

use osb_message::{Answer, Body, InstanceId, Kind, LastState, PlanId, Request, ServiceId};
use osb_platform::{CreateFault, NoRequest, Platform, SaveFault, SendFault};
use std::alloc::Global;
use std::io;
use thiserror::Error;

/// Why the loop stops before its time.
#[derive(Debug, Drop, Error)]
enum LoopFault {
    #[error("no instance was created: {0:?}")]
    Create(#[from] CreateFault),
    #[error("no request was sent: {0:?}")]
    Send(#[from] SendFault),
    #[error("no request was out: {0:?}")]
    Answer(#[from] NoRequest),
    #[error("the records weren't saved: {0:?}")]
    Save(#[from] SaveFault),
    #[error("nothing could be printed: {0}")]
    Print(#[from] io::Error),
}

// How many requests the platform makes before it lets the instance rest.
const TURNS: u32 = 8;

// Stands for the HTTP client, the network and the broker: what arrives for the request of this turn,
// or none where the answer is lost.
fn carry(request: &Request, turn: u32) -> Option<Answer> {
    let (status, body) = match (request.kind, turn) {
        (Kind::Provision, _) => return None,
        (Kind::Deprovision, _) => (202, Body::Empty),
        (Kind::Poll, 2) => (200, Body::State(LastState::InProgress)),
        (Kind::Poll, _) => (410, Body::Empty),
    };
    Some(Answer { status, body })
}

// Stands for writing the text into a new file that then takes the old one's name.
fn save(rt: &impl Print, alloc: Global, platform: &Platform) -> Result<(), LoopFault> {
    let text = platform.save(alloc)?;
    println!(rt; "saved {} bytes", text.len())?;
    Ok(())
}

fn main(rt: HostRuntime) -> Result<(), LoopFault> {
    let id = InstanceId::from_value(1);
    let (service, plan) = (ServiceId::from_value(0xa0), PlanId::from_value(0xb2));
    let mut platform = Platform::new(rt.alloc());
    let mut request = platform.create(id, service, plan, true)?;
    save(&rt, rt.alloc(), &platform)?;
    for turn in 0..TURNS {
        println!(rt; "{:?}", request.kind)?;
        let arrived = carry(&request, turn);
        match arrived {
            Some(answer) => platform.answer(id, answer)?,
            None => platform.timeout(id)?,
        }
        save(&rt, rt.alloc(), &platform)?;
        match arrived {
            Some(answer) => println!(rt; "  answered {} {:?}", answer.status, answer.body)?,
            None => println!(rt; "  timed out")?,
        }
        if let Some(row) = platform.row(id) {
            println!(rt; "  recorded {}", row.state.word())?;
        }
        request = match platform.send(id) {
            Ok(request) => request,
            Err(SendFault::NothingDue) => break,
            Err(fault) => return Err(fault.into()),
        };
        save(&rt, rt.alloc(), &platform)?;
    }
    Ok(())
}

//! What a broker holds of the instance of an update: `PHASE WORK TOMBSTONE`. PHASE is the row's, WORK the kind of the
//! pending work, and TOMBSTONE `tombstone`. Each of them may be `-`, for none. The service is 7, and the plan is `p`.
//! What is held has 1 in each byte of the digest of its attributes.
use crate::first;
use crate::update_values::is_word;
use anyhow::{Context, Result};
use osb_instance::{Digest, Holding, HoldingPhase, HoldingRow};
use osb_message::{InstanceId, Kind, PlanId, Request, ServiceId};

const SERVICE: u128 = 7;

const PLAN: u128 = 112;

pub(crate) fn attributes(number: u8) -> Digest {
    Digest {
        bytes: [number; 32],
    }
}

// A request of this kind.
pub(crate) fn request(kind: Kind, accepts_incomplete: bool) -> Request {
    Request {
        kind,
        id: InstanceId::from_value(9),
        service: ServiceId::from_value(SERVICE),
        plan: PlanId::from_value(PLAN),
        accepts_incomplete,
    }
}

pub(crate) fn kind(word: &str) -> Result<Kind> {
    Kind::from_word(word).context("no such kind")
}

fn row(word: &str) -> Result<Option<HoldingRow>> {
    if word == "-" {
        return Ok(None);
    }
    Ok(Some(HoldingRow {
        service: ServiceId::from_value(SERVICE),
        plan: PlanId::from_value(PLAN),
        phase: HoldingPhase::from_word(word).context("no such phase")?,
    }))
}

fn work(word: &str) -> Result<Option<Request>> {
    if word == "-" {
        return Ok(None);
    }
    Ok(Some(request(kind(word)?, true)))
}

// What the first three words name.
pub(crate) fn instance(words: &str) -> Result<Holding> {
    let (phase_word, rest) = first(words);
    let (work_word, rest) = first(rest);
    let (tombstone, _) = first(rest);
    let (row, work) = (row(phase_word)?, work(work_word)?);
    let digest = if row.is_some() || work.is_some() {
        attributes(1)
    } else {
        Digest::NONE
    };
    let held = Holding::from_parts(row, work, is_word(tombstone, "tombstone")?, digest);
    held.context("no such instance")
}

// The words after the first three.
pub(crate) fn after_instance(words: &str) -> &str {
    let (_, rest) = first(words);
    let (_, rest) = first(rest);
    first(rest).1
}

pub(crate) fn tell_instance(rt: &impl Print, held: Holding) -> Result<()> {
    let phase = held.row().map_or("-", |row| row.phase.word());
    let work = held.work().map_or("-", |request| request.kind.word());
    let tombstone = if held.has_tombstone() {
        "tombstone"
    } else {
        "-"
    };
    Ok(print!(rt; "{phase} {work} {tombstone}")?)
}

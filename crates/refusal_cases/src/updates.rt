//! The texts of updates are written and read.
use crate::telling::{Case, Returned, tell};
use anyhow::Result;
use osb_instance::{Digest, TextFault};
use osb_message::{Memory, PlanId};
use osb_update::{
    Aim, Settings, UpdateHolding, UpdateKind, UpdatePhase, UpdateRecord, UpdateState,
};
use osb_update_text::{read_holding, read_record, write_holding, write_record};
use std::alloc::Global;

// Settings whose plan has this number, and whose digests have it in each byte.
fn settings(number: u8) -> Settings {
    let digest = Digest {
        bytes: [number; 32],
    };
    Settings {
        plan: PlanId::from_value(u128::from(number)),
        parameters: digest,
        version: digest,
    }
}

fn held() -> UpdateHolding {
    UpdateHolding {
        settings: settings(1),
        number: 5,
        phase: UpdatePhase::Pending(settings(2)),
    }
}

fn recorded() -> UpdateRecord {
    let aim = Aim {
        to: settings(2),
        mixed: true,
    };
    UpdateRecord {
        settings: settings(1),
        number: 5,
        attempt: 6,
        state: UpdateState::Updating(aim),
        out: Some(UpdateKind::Fetch),
    }
}

// The text that was written last.
#[derive(Drop)]
struct Writing {
    text: String,
    record: bool,
    alloc: Global,
}

impl Writing {
    fn new(alloc: Global, record: bool) -> Writing {
        Writing {
            text: String::new(alloc),
            record,
            alloc,
        }
    }
}

impl Case for Writing {
    fn state(&self, alloc: Global) -> Result<String> {
        Ok(format!(in alloc; "{} bytes", self.text.len())?)
    }

    fn call(&mut self) -> Returned {
        let written = if self.record {
            write_record(self.alloc, &recorded())
        } else {
            write_holding(self.alloc, &held())
        };
        match written {
            Ok(text) => {
                self.text = text;
                Returned::Word("Ok")
            }
            Err(Memory) => Returned::Memory,
        }
    }
}

fn refused(fault: TextFault) -> Returned {
    match fault {
        TextFault::Memory => Returned::Memory,
        _ => Returned::Word("another fault"),
    }
}

// The number of the holding, or the attempt of the record, that was read last.
#[derive(Drop)]
struct Reading {
    text: String,
    read: Option<u64>,
    record: bool,
    alloc: Global,
}

impl Reading {
    // Of the text that was written.
    fn of(writing: Writing) -> Reading {
        Reading {
            text: writing.text,
            read: None,
            record: writing.record,
            alloc: writing.alloc,
        }
    }
}

// The number of the holding that a text names.
fn number_of(alloc: Global, text: &str) -> Result<u64, TextFault> {
    match read_holding(alloc, text) {
        Ok(held) => Ok(held.number),
        Err(fault) => Err(fault),
    }
}

// The attempt of the record that a text names.
fn attempt_of(alloc: Global, text: &str) -> Result<u64, TextFault> {
    match read_record(alloc, text) {
        Ok(recorded) => Ok(recorded.attempt),
        Err(fault) => Err(fault),
    }
}

impl Case for Reading {
    fn state(&self, alloc: Global) -> Result<String> {
        let read = self.read;
        Ok(format!(in alloc; "{read:?}")?)
    }

    fn call(&mut self) -> Returned {
        let read = if self.record {
            attempt_of(self.alloc, self.text.as_str())
        } else {
            number_of(self.alloc, self.text.as_str())
        };
        match read {
            Ok(number) => {
                self.read = Some(number);
                Returned::Word("Ok")
            }
            Err(TextFault::Memory) => Returned::Memory,
            Err(_) => Returned::Word("another fault"),
        }
    }
}

// Each text is written, and then read.
pub fn calls(rt: &impl Print, alloc: Global) -> Result<()> {
    let mut writing = Writing::new(alloc, false);
    tell(rt, alloc, "write_holding", &mut writing)?;
    let mut reading = Reading::of(writing);
    tell(rt, alloc, "read_holding", &mut reading)?;
    let mut writing = Writing::new(alloc, true);
    tell(rt, alloc, "write_record", &mut writing)?;
    let mut reading = Reading::of(writing);
    tell(rt, alloc, "read_record", &mut reading)
}

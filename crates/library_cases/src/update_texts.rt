//! The texts of updates.
use crate::update_values::{holding, record};
use anyhow::Result;
use osb_update_text::{read_holding, read_record, write_holding, write_record};
use std::alloc::Global;

pub(crate) fn write_a_holding(rt: &impl Print, alloc: Global, words: &str) -> Result<()> {
    let text = write_holding(alloc, &holding(words)?)?;
    Ok(print!(rt; "{text}")?)
}

pub(crate) fn write_a_record(rt: &impl Print, alloc: Global, words: &str) -> Result<()> {
    let text = write_record(alloc, &record(words)?)?;
    Ok(print!(rt; "{text}")?)
}

// The text that is written of the holding that was read, or the fault.
pub(crate) fn read_a_holding(rt: &impl Print, alloc: Global, text: &str) -> Result<()> {
    match read_holding(alloc, text) {
        Ok(read) => {
            let written = write_holding(alloc, &read)?;
            Ok(print!(rt; "{written}")?)
        }
        Err(fault) => Ok(print!(rt; "{fault:?}")?),
    }
}

pub(crate) fn read_a_record(rt: &impl Print, alloc: Global, text: &str) -> Result<()> {
    match read_record(alloc, text) {
        Ok(read) => {
            let written = write_record(alloc, &read)?;
            Ok(print!(rt; "{written}")?)
        }
        Err(fault) => Ok(print!(rt; "{fault:?}")?),
    }
}

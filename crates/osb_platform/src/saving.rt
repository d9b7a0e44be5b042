//! The text of the saved record.
ghost use Rattle.std.specs.Prelude.{◌≡◌, Some, IfOk, string_bytes};
ghost use Rattle.std.specs.FinMap as map;
ghost use Rattle.std.specs.List.{AllByRecursion};
ghost use Rattle.serde_json.specs.Read.{read};
ghost use Rattle.serde_json.specs.View.{view};
ghost use Rattle.osb_platform.specs.SavedRecord as saved;

use crate::PlatformRow;
use crate::row_json::row_value;
use osb_message::Rows;
use serde_json::{Map, Value, json};
use std::alloc::{AllocError, Global};

// The number of the format that is written.
pub(crate) const VERSION: u64 = 2;

// The JSON object of the records.
fn instances_value(alloc: Global, rows: &Rows<PlatformRow>) -> Result<Value, AllocError>
    ensures value { IfOk result (λ v. view v ≡ saved.instances_value rows.now) }
    ensures readable { IfOk result (λ _. AllByRecursion saved.IsReadable (map.entries rows.now)) }
{
    let mut members = Map::new(alloc);
    for (id, row) in rows.iter() {
        let mut text = [0u8; 36];
        let name = id.text_in(&mut text);
        let value = row_value(alloc, row)?;
        serde_json::put(&mut members, alloc, name, value)?;
    }
    Ok(Value::Object(members))
}

// The records, and the number of the format.
fn saved_value(alloc: Global, rows: &Rows<PlatformRow>) -> Result<Value, AllocError>
    ensures value { IfOk result (λ v. view v ≡ saved.saved_value rows.now) }
    ensures readable { IfOk result (λ _. AllByRecursion saved.IsReadable (map.entries rows.now)) }
{
    let instances = instances_value(alloc, rows)?;
    json!(in alloc; {"instances": instances, "version": VERSION})
}

// The text that is saved of the records.
pub(crate) fn write_rows(alloc: Global, rows: &Rows<PlatformRow>) -> Result<String, AllocError>
    ensures text { IfOk result (λ text. string_bytes text ≡ saved.saved_text rows.now) }
    ensures reads { IfOk result (λ text.
        read (string_bytes text) ≡ Some (saved.saved_value rows.now)) }
    ensures record { IfOk result (λ text. saved.IsRecordOf rows.now (string_bytes text)) }
{
    let value = saved_value(alloc, rows)?;
    let text = value.to_string(alloc)?;
    Ok(text)
}

//! The records that the text of a saved record names.
ghost use Rattle.std.specs.Prelude.{◌≡◌, ◌⊎◌, true, None, Some, Ok, Err, List, IfOk, IfErr};
ghost use Rattle.std.specs.FinMap as map;
ghost use Rattle.std.specs.Ordering.{nat_cmp};
ghost use Rattle.serde_json.specs.View.{view, members_view};
ghost use Rattle.osb_platform.specs.PlatformRow.{IsRestarted};
ghost use Rattle.osb_platform.specs.SavedRecord as saved;

use crate::row_json::read_row;
use crate::saving::VERSION;
use crate::{LoadFault, PlatformRow, decide_restart};
use osb_json::{member_count, read_value};
use osb_message::{InstanceId, Rows};
use serde_json::{Map, Value};
use std::alloc::Global;

// The members that stand for instances. A text without a version is of format 1, in which they are the
// object's own.
fn instances_of(value: &Value) -> Result<&Map<String, Value>, LoadFault>
    ensures ok { IfOk result (λ members.
        saved.instances_in (view value.now) ≡ Ok (members_view members.now.entries)) }
    ensures err { IfErr result (λ fault. saved.instances_in (view value.now) ≡ Err fault) }
{
    let Some(version) = value.get("version") else {
        return value.as_object().ok_or(LoadFault::NotAnObject);
    };
    if version.as_u64() != Some(VERSION) {
        return Err(LoadFault::BadVersion);
    }
    if member_count(value) != 2 {
        return Err(LoadFault::BadOuter);
    }
    let instances = value.get("instances").and_then(Value::as_object);
    instances.ok_or(LoadFault::BadOuter)
}

// Whether each name is the text of an id, in lower case.
fn are_named_by_ids(members: &Map<String, Value>) -> bool
    ensures named { result ≡ saved.are_named_by_ids (members_view members.now.entries) }
{
    for (name, _) in members {
        if InstanceId::from_lower_text(name.as_str()).is_none() {
            return false;
        }
    }
    true
}

// The records that the members name, after a restart.
fn read_members(alloc: Global, members: &Map<String, Value>) -> Result<Rows<PlatformRow>, LoadFault>
    requires named { saved.are_named_by_ids (members_view members.now.entries) ≡ true }
    ensures rows { IfOk result (λ rows. (named : List saved.Entry)
        × (saved.entries_named (members_view members.now.entries) ≡ Some named)
        × IsRestarted (map.from_entries named) rows) }
    ensures err { IfErr result (λ fault. (fault ≡ LoadFault.Memory) ⊎ ((fault ≡ LoadFault.BadMember)
        × (saved.entries_named (members_view members.now.entries) ≡ None))) }
{
    let mut rows = Rows::new(alloc);
    for (name, value) in members {
        let Some(id) = InstanceId::from_lower_text(name.as_str()) else {
            unreachable!()
        };
        let Some(row) = read_row(value) else {
            return Err(LoadFault::BadMember);
        };
        let Ok(()) = rows.insert(id, row.in_state(decide_restart(row.state))) else {
            return Err(LoadFault::Memory);
        };
    }
    Ok(rows)
}

// The records that a text names, after a restart.
pub(crate) fn read_rows(alloc: Global, text: &str) -> Result<Rows<PlatformRow>, LoadFault>
    ensures rows { IfOk result (λ rows. (named : map.FinMap nat_cmp PlatformRow)
        × (saved.rows_in text.now ≡ Ok named) × IsRestarted named rows) }
    ensures err { IfErr result (λ fault.
        (fault ≡ LoadFault.Memory) ⊎ (saved.rows_in text.now ≡ Err fault)) }
{
    let Ok(read) = read_value(alloc, text) else {
        return Err(LoadFault::Memory);
    };
    let Some(value) = read else {
        return Err(LoadFault::NotJson);
    };
    let members = instances_of(&value)?;
    // Every name is judged before any value, so that an operator first hears of a bad name.
    if !are_named_by_ids(members) {
        return Err(LoadFault::BadKey);
    }
    read_members(alloc, members)
}

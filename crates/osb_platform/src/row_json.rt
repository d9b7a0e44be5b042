//! What is saved of one instance as a JSON value, written and read.
ghost use Rattle.std.specs.Prelude.{◌≡◌, Some, IfOk};
ghost use Rattle.serde_json.specs.View.{view};
ghost use Rattle.osb_platform.specs.PlatformRow.{at_rest};
ghost use Rattle.osb_platform.specs.SavedRecord as saved;

use crate::{PlatformRow, State};
use osb_json::{id_at, member_count, text_at};
use serde_json::{Value, json};
use std::alloc::{AllocError, Global};

// The JSON value of what is recorded.
pub(crate) fn row_value(alloc: Global, row: &PlatformRow) -> Result<Value, AllocError>
    ensures value { IfOk result (λ v. view v ≡ saved.row_value row.now) }
    ensures reads { IfOk result (λ _.
        saved.row_named (saved.row_value row.now) ≡ Some (at_rest row.now)) }
{
    let mut plan_text = [0u8; 36];
    let plan = row.plan.text_in(&mut plan_text);
    let mut service_text = [0u8; 36];
    let service = row.service.text_in(&mut service_text);
    let state = row.state.word();
    json!(in alloc; {"plan": plan, "service": service, "state": state})
}

// The state whose word stands under the name.
fn read_state(value: &Value, name: &str) -> Option<State>
    ensures state { result ≡ saved.state_at name.now (view value.now) }
{
    text_at(value, name).and_then(State::from_word)
}

// What a value says of an instance, with nothing out.
#[tactic(auto, unfolding(crate::specs::SavedRecord::row_named))]
pub(crate) fn read_row(value: &Value) -> Option<PlatformRow>
    ensures row { result ≡ saved.row_named (view value.now) }
{
    if member_count(value) != 3 {
        return None;
    }
    let plan = id_at(value, "plan");
    let service = id_at(value, "service");
    let state = read_state(value, "state");
    match (plan, service, state) {
        (Some(plan), Some(service), Some(state)) => Some(PlatformRow {
            service,
            plan,
            state,
            out: None,
        }),
        _ => None,
    }
}

//! The parameters of a query.
ghost use Rattle.std.specs.Prelude.{◌≡◌, ◌⊎◌, Ok, Err, IfOk, IfErr, option_map};
ghost use Rattle.std.specs.Cow.{cow_str_bytes};
ghost use Rattle.osb_wire.specs.Targets as targets;

use crate::Refusal;
use crate::id_texts::id_of_text;
use osb_message::Id;
use std::alloc::Global;
use std::borrow::CowStr;

/// The value of the parameter with a name.
///
/// # Errors
///
/// [`Refusal::Repeated`] where it stands twice, and [`Refusal::Memory`] where an allocation failed.
pub fn read_value<'q>(
    alloc: Global,
    query: &'q [u8],
    name: &str,
) -> Result<Option<CowStr<'q>>, Refusal>
    ensures ok { IfOk result (λ found. targets.value_in name.now (targets.parameters_in query.now)
        ≡ Ok (option_map cow_str_bytes found)) }
    ensures err { IfErr result (λ fault. (fault ≡ Refusal.Memory)
        ⊎ (targets.value_in name.now (targets.parameters_in query.now) ≡ Err fault)) }
{
    let mut found = None;
    for pair in form_urlencoded::parse(alloc, query) {
        let Ok((other, value)) = pair else {
            return Err(Refusal::Memory);
        };
        if other.as_str() == name {
            if found.is_some() {
                return Err(Refusal::Repeated);
            }
            found = Some(value);
        }
    }
    Ok(found)
}

/// An id that a query may lack.
///
/// # Errors
///
/// As of [`read_value`], and the fault that is given where the value is no text of an id.
pub fn read_id<K>(
    alloc: Global,
    query: &[u8],
    name: &str,
    fault: Refusal,
) -> Result<Option<Id<K>>, Refusal>
    ensures ok { IfOk result (λ id. targets.id_in fault name.now (targets.parameters_in query.now) ≡ Ok id) }
    ensures err { IfErr result (λ first. (first ≡ Refusal.Memory)
        ⊎ (targets.id_in fault name.now (targets.parameters_in query.now) ≡ Err first)) }
{
    let Some(text) = read_value(alloc, query, name)? else {
        return Ok(None);
    };
    match id_of_text(text.as_str()) {
        Some(id) => Ok(Some(id)),
        None => Err(fault),
    }
}

/// An id that a query must have.
///
/// # Errors
///
/// As of [`read_id`], and the fault that is given where there is no value.
pub fn read_needed_id<K>(
    alloc: Global,
    query: &[u8],
    name: &str,
    fault: Refusal,
) -> Result<Id<K>, Refusal>
    ensures ok { IfOk result (λ id. targets.needed_id_in fault name.now (targets.parameters_in query.now) ≡ Ok id) }
    ensures err { IfErr result (λ first. (first ≡ Refusal.Memory)
        ⊎ (targets.needed_id_in fault name.now (targets.parameters_in query.now) ≡ Err first)) }
{
    let Some(text) = read_value(alloc, query, name)? else {
        return Err(fault);
    };
    match id_of_text(text.as_str()) {
        Some(id) => Ok(id),
        None => Err(fault),
    }
}

/// Whether an asynchronous operation is accepted.
///
/// # Errors
///
/// As of [`read_value`], and [`Refusal::BadAcceptsIncomplete`].
pub fn read_flag(alloc: Global, query: &[u8]) -> Result<bool, Refusal>
    ensures ok { IfOk result (λ flag. targets.flag_in (targets.parameters_in query.now) ≡ Ok flag) }
    ensures err { IfErr result (λ fault. (fault ≡ Refusal.Memory)
        ⊎ (targets.flag_in (targets.parameters_in query.now) ≡ Err fault)) }
{
    let Some(text) = read_value(alloc, query, "accepts_incomplete")? else {
        return Ok(false);
    };
    match text.as_str() {
        "true" => Ok(true),
        "false" => Ok(false),
        _ => Err(Refusal::BadAcceptsIncomplete),
    }
}

//! Ids, and the words that are printed.
use crate::first;
use anyhow::{Context, Result};
use osb_broker::Phase;
use osb_message::{InstanceId, Kind, PlanId};
use osb_platform::State;
use std::alloc::Global;
use std::collections::HashMap;

// `id TEXT`: the id of a text, as `{}` and `{:?}` print it, and in 38 places, to their right and their left.
pub(crate) fn id(rt: &impl Print, text: &str) -> Result<()> {
    let id = InstanceId::from_text(text)?;
    Ok(println!(rt; "  {id} {id:?} {id:>38}|{id:<38}|")?)
}

// `ids ID ID ID`: how the first compares with the second, whether it is below it, and what stands under each of the
// three in a hash map that has the first two.
pub(crate) fn ids(rt: &impl Print, alloc: Global, words: &str) -> Result<()> {
    let (one, rest) = first(words);
    let (other, third) = first(rest);
    let (one, other) = (PlanId::from_text(one)?, PlanId::from_text(other)?);
    let (ordering, is_below) = (one.partial_cmp(&other), one < other);
    print!(rt; "  {ordering:?} {is_below}")?;
    let mut names = HashMap::new(alloc);
    names.insert(one, 'a')?;
    names.insert(other, 'b')?;
    for id in &[one, other, PlanId::from_text(third)?] {
        let name = names.get(id);
        print!(rt; " {name:?}")?;
    }
    Ok(println!(rt;)?)
}

// `word TYPE WORD`: the word of a kind, of a broker's phase, or of a platform's state; and at the right of 10 places.
pub(crate) fn word(rt: &impl Print, words: &str) -> Result<()> {
    let (of, word) = first(words);
    match of {
        "kind" => {
            let kind = Kind::from_word(word).context("no such kind")?;
            Ok(println!(rt; "  {kind} {kind:>10}|")?)
        }
        "phase" => {
            let phase = Phase::from_word(word).context("no such phase")?;
            Ok(println!(rt; "  {phase} {phase:>10}|")?)
        }
        "state" => {
            let state = State::from_word(word).context("no such state")?;
            Ok(println!(rt; "  {state} {state:>10}|")?)
        }
        _ => anyhow::bail!("no such type: {of}"),
    }
}

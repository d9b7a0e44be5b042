//! The bodies of answers to an Update and to a Fetch.
use crate::first;
use crate::update_values::{body, number, tell_answer};
use crate::update_wire_words::{bytes, given, tell_digest, tell_given, tell_text, text};
use anyhow::{Context, Result};
use osb_message::Answer;
use osb_update::Settings;
use osb_update_wire::{
    FetchedInstance, InstanceTexts, read_fetched, read_update_answer, write_failure, write_fetched,
    write_success,
};
use std::alloc::Global;

fn status(word: &str) -> Result<u16> {
    word.parse().ok().context("no status")
}

pub(crate) fn answer(rt: &impl Print, alloc: Global, words: &str) -> Result<()> {
    let (status_word, body_word) = first(words);
    let body = bytes(alloc, body_word)?;
    match read_update_answer(alloc, status(status_word)?, &body)? {
        Some(answer) => {
            print!(rt; " ")?;
            tell_answer(rt, answer)
        }
        None => Ok(print!(rt; " none")?),
    }
}

pub(crate) fn success(rt: &impl Print, alloc: Global, words: &str) -> Result<()> {
    let (status_word, rest) = first(words);
    let (operation, rest) = first(rest);
    let (address, metadata) = first(rest);
    let operation = given(alloc, operation)?;
    let address = given(alloc, address)?;
    let metadata = given(alloc, metadata)?;
    let operation_text = operation.as_ref().map(|text| text.as_str());
    let address_text = address.as_ref().map(|text| text.as_str());
    let metadata_text = metadata.as_ref().map(|text| text.as_str());
    let status = status(status_word)?;
    let told = write_success(alloc, status, operation_text, address_text, metadata_text)?;
    tell_text(rt, alloc, told.as_str())
}

// A flag, which may be missing.
fn flag(word: &str) -> Result<Option<bool>> {
    match word {
        "-" => Ok(None),
        "true" => Ok(Some(true)),
        "false" => Ok(Some(false)),
        _ => anyhow::bail!("neither true, false nor -: {word}"),
    }
}

pub(crate) fn failure(rt: &impl Print, alloc: Global, words: &str) -> Result<()> {
    let (status_word, rest) = first(words);
    let (body_word, rest) = first(rest);
    let (description, rest) = first(rest);
    let (usable, repeatable) = first(rest);
    let answer = Answer {
        status: status(status_word)?,
        body: body(body_word)?,
    };
    let description = given(alloc, description)?;
    let description_text = description.as_ref().map(|text| text.as_str());
    let (usable, repeatable) = (flag(usable)?, flag(repeatable)?);
    let told = write_failure(alloc, answer, description_text, usable, repeatable)?;
    tell_text(rt, alloc, told.as_str())
}

pub(crate) fn written_fetched(rt: &impl Print, alloc: Global, words: &str) -> Result<()> {
    let (number_word, rest) = first(words);
    let (service, rest) = first(rest);
    let (plan, rest) = first(rest);
    let (parameters, rest) = first(rest);
    let (version, rest) = first(rest);
    let (address, metadata) = first(rest);
    let service = text(alloc, service)?;
    let plan = text(alloc, plan)?;
    let parameters = given(alloc, parameters)?;
    let version = given(alloc, version)?;
    let address = given(alloc, address)?;
    let metadata = given(alloc, metadata)?;
    let parameters_text = parameters.as_ref().map(|text| text.as_str());
    let version_text = version.as_ref().map(|text| text.as_str());
    let address_text = address.as_ref().map(|text| text.as_str());
    let metadata_text = metadata.as_ref().map(|text| text.as_str());
    let texts = InstanceTexts {
        service: service.as_str(),
        plan: plan.as_str(),
        parameters: parameters_text,
        version: version_text,
        dashboard_url: address_text,
        metadata: metadata_text,
    };
    let told = write_fetched(alloc, &texts, number(number_word)?)?;
    tell_text(rt, alloc, told.as_str())
}

// The settings and the number of the newest Update, or `-`.
fn tell_reported(rt: &impl Print, alloc: Global, reported: Option<(Settings, u64)>) -> Result<()> {
    match reported {
        Some((settings, number)) => {
            print!(rt; " {}", settings.plan)?;
            tell_digest(rt, alloc, &settings.parameters)?;
            tell_digest(rt, alloc, &settings.version)?;
            Ok(print!(rt; " {number}")?)
        }
        None => Ok(print!(rt; " -")?),
    }
}

fn tell_fetched(rt: &impl Print, alloc: Global, fetched: &FetchedInstance) -> Result<()> {
    tell_reported(rt, alloc, fetched.reported)?;
    tell_given(rt, alloc, &fetched.service)?;
    tell_given(rt, alloc, &fetched.plan)?;
    tell_given(rt, alloc, &fetched.parameters)?;
    tell_given(rt, alloc, &fetched.version)?;
    tell_given(rt, alloc, &fetched.dashboard_url)?;
    tell_given(rt, alloc, &fetched.metadata)
}

pub(crate) fn fetched(rt: &impl Print, alloc: Global, words: &str) -> Result<()> {
    let (status_word, body_word) = first(words);
    let body = bytes(alloc, body_word)?;
    let found = read_fetched(alloc, status(status_word)?, &body)?;
    tell_fetched(rt, alloc, &found)
}

//! The lines that are printed.
use anyhow::Result;
use osb_binding::BindingId;
use osb_instance::{Holding, Record};
use osb_message::{Answer, Body, ErrorCode, Kind};

// What a line is about.
#[derive(Clone, Copy)]
pub(crate) enum Of {
    Instance,
    Binding(BindingId),
}

// An answer, and the credentials that a 200 or 201 to a Bind has.
#[derive(Clone, Copy)]
pub(crate) struct Answered {
    pub(crate) answer: Answer,
    pub(crate) credentials: Option<u64>,
}

// An answer that has no credentials.
pub(crate) fn bare(answer: Answer) -> Answered {
    Answered {
        answer,
        credentials: None,
    }
}

// A request by the name that it has of an instance, or of a binding.
fn name(of: &Of, kind: Kind) -> &'static str {
    match (of, kind) {
        (Of::Instance, Kind::Provision) => "Provision",
        (Of::Instance, Kind::Deprovision) => "Deprovision",
        (Of::Binding(_), Kind::Provision) => "Bind",
        (Of::Binding(_), Kind::Deprovision) => "Unbind",
        (_, Kind::Poll) => "Poll",
    }
}

// The error code of an answer, behind its status.
fn code(body: Body) -> &'static str {
    match body {
        Body::Error(ErrorCode::AsyncRequired) => " AsyncRequired",
        Body::Error(ErrorCode::ConcurrencyError) => " ConcurrencyError",
        _ => "",
    }
}

// The beginning of a line. `who` has as many columns as the longest one.
pub(crate) fn begin(rt: &impl Print, who: &str, of: &Of) -> Result<()> {
    match of {
        Of::Instance => Ok(print!(rt; "{who} instance: ")?),
        Of::Binding(id) => Ok(print!(rt; "{who} binding {}: ", id.value())?),
    }
}

// The end of a line, with the credentials if there are some.
pub(crate) fn end(rt: &impl Print, credentials: Option<u64>) -> Result<()> {
    match credentials {
        Some(credentials) => Ok(println!(rt; ", credentials {credentials}")?),
        None => Ok(println!(rt;)?),
    }
}

// What the platform records.
pub(crate) fn tell_record(
    rt: &impl Print,
    of: Of,
    record: Record,
    credentials: Option<u64>,
) -> Result<()> {
    begin(rt, "platform", &of)?;
    print!(rt; "{} ({})", record.row().state.word(), record.attempt())?;
    end(rt, credentials)
}

// A request that the platform sends.
pub(crate) fn tell_request(rt: &impl Print, of: Of, kind: Kind, attempt: u64) -> Result<()> {
    begin(rt, "request ", &of)?;
    Ok(println!(rt; "{} ({attempt})", name(&of, kind))?)
}

// A row by its phase; if there is none, whether the instance or the binding has ended.
fn row_word(holding: Holding) -> &'static str {
    match holding.row() {
        Some(row) => row.phase.word(),
        None if holding.has_tombstone() => "tombstone",
        None => "no row",
    }
}

// What the broker holds.
pub(crate) fn tell_holding(
    rt: &impl Print,
    of: Of,
    holding: Holding,
    credentials: Option<u64>,
) -> Result<()> {
    begin(rt, "broker  ", &of)?;
    print!(rt; "{}", row_word(holding))?;
    if let Some(request) = holding.work() {
        print!(rt; ", {} pending", name(&of, request.kind))?;
    }
    end(rt, credentials)
}

// An answer that arrives. The number is that of its request, if the platform has sent it.
pub(crate) fn tell_answer(
    rt: &impl Print,
    of: Of,
    attempt: Option<u64>,
    answered: Answered,
) -> Result<()> {
    begin(rt, "answer  ", &of)?;
    let answer = answered.answer;
    print!(rt; "{}{}", answer.status, code(answer.body))?;
    if let Some(attempt) = attempt {
        print!(rt; " ({attempt})")?;
    }
    end(rt, answered.credentials)
}

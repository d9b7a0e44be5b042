//! What a line of a trace says, parted by tabs (this project's choice).
ghost use Rattle.std.specs.Prelude.{◌≡◌, ◌∷◌, ◌++◌, ℕ, OnOk};
ghost use Rattle.std.specs.Fmt.{decimal};
ghost use Rattle.std.specs.Str.Lines.{strip_carriage_return};
ghost use Rattle.osb_language.specs.Words.{words_in};
ghost use Rattle.osb_trace.specs.Columns.{answer_word, body_word, columns, held_word, out_word, recorded_word};
ghost use Rattle.osb_trace.specs.Telling.{head, joined, spaced};

use itoa::Buffer;
use osb_broker::BrokerRow;
use osb_language::{split_word, without_carriage_return};
use osb_message::{Answer, Body, ErrorCode, LastState, Memory, Request};
use osb_platform::PlatformRow;
use osb_world::Cell;

// What the platform records of an instance.
fn recorded_word(row: Option<PlatformRow>) -> &'static str
    ensures word { result.now ≡ recorded_word row }
{
    match row {
        Some(row) => row.state.word(),
        None => "none",
    }
}

// What the broker holds of an instance.
fn held_word(row: Option<BrokerRow>) -> &'static str
    ensures word { result.now ≡ held_word row }
{
    match row {
        Some(row) => row.phase.word(),
        None => "none",
    }
}

// The kind of the request that is out.
fn out_word(out: Option<Request>) -> &'static str
    ensures word { result.now ≡ out_word out }
{
    match out {
        Some(request) => request.kind.word(),
        None => "-",
    }
}

// What can be read of an answer beside its status.
fn body_word(body: Body) -> &'static str
    ensures word { result.now ≡ body_word body }
{
    match body {
        Body::Empty => "",
        Body::Malformed => "-malformed",
        Body::State(LastState::InProgress) => "-in-progress",
        Body::State(LastState::Succeeded) => "-succeeded",
        Body::State(LastState::Failed) => "-failed",
        Body::Error(ErrorCode::AsyncRequired) => "-AsyncRequired",
        Body::Error(ErrorCode::ConcurrencyError) => "-ConcurrencyError",
        Body::Error(ErrorCode::Other) => "-Other",
    }
}

/// Adds a number, in decimal. It takes memory (this project's choice).
///
/// # Errors
///
/// [`Memory`] if an allocation failed.
pub fn push_number(text: &mut Vec<u8>, number: usize) -> Result<(), Memory>
    ensures added { OnOk result (text.new.items ≡ text.old.items ++ decimal number) }
{
    let mut digits = Buffer::new();
    text.extend_from_slice(digits.format(number).as_bytes())?;
    Ok(())
}

/// Adds an answer: its status and what can be read of it, or `-` if there is none. It takes memory (this project's choice).
///
/// # Errors
///
/// [`Memory`] if an allocation failed.
pub fn push_answer(text: &mut Vec<u8>, travelling: Option<Answer>) -> Result<(), Memory>
    ensures added { OnOk result (text.new.items ≡ text.old.items ++ answer_word travelling) }
{
    match travelling {
        Some(answer) => {
            push_number(text, usize::from(answer.status))?;
            text.extend_from_slice(body_word(answer.body).as_bytes())?;
        }
        None => text.push(b'-')?,
    }
    Ok(())
}

/// Adds the four columns of an instance, and the end of the line.
pub fn push_columns(text: &mut Vec<u8>, cell: &Cell) -> Result<(), Memory>
    ensures added { OnOk result (text.new.items ≡ text.old.items ++ columns cell.now) }
{
    text.extend_from_slice(recorded_word(cell.platform).as_bytes())?;
    text.push(b'\t')?;
    text.extend_from_slice(held_word(cell.broker).as_bytes())?;
    text.push(b'\t')?;
    text.extend_from_slice(out_word(cell.out).as_bytes())?;
    text.push(b'\t')?;
    push_answer(text, cell.travelling)?;
    text.push(b'\n')?;
    Ok(())
}

// Adds the words of a line, a space between each two.
fn push_words(text: &mut Vec<u8>, line: &[u8]) -> Result<(), Memory>
    ensures added { OnOk result (text.new.items ≡ text.old.items ++ joined (words_in line.now)) }
{
    let Some((first, after)) = split_word(line) else {
        return Ok(());
    };
    text.extend_from_slice(first)?;
    let mut rest = after;
    while let Some((word, after)) = split_word(rest) {
        text.push(b' ')?;
        text.extend_from_slice(word)?;
        rest = after;
    }
    Ok(())
}

/// Adds the first two columns: the number of a line of a schedule, and its words. It takes memory (this project's choice).
///
/// # Errors
///
/// [`Memory`] if an allocation failed.
pub fn push_head(text: &mut Vec<u8>, number: u32, line: &[u8]) -> Result<(), Memory>
    ensures added { OnOk result (text.new.items ≡ text.old.items ++ head number line.now) }
{
    push_number(text, number as usize)?;
    text.push(b'\t')?;
    push_words(text, without_carriage_return(line))?;
    text.push(b'\t')?;
    Ok(())
}

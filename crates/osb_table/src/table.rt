//! The orphan mitigation table, printed from the calls that decide (sections Provisioning and Orphan
//! Mitigation). Which answers it shows, and the form of a line, are this project's choice.
ghost use Rattle.std.specs.Prelude.{◌≡◌, is_err, IsOkUnless, IsTrue, OnErr, OnOk};
ghost use Rattle.std.specs.List.{flat_map};
ghost use Rattle.std.specs.Io.KnownBytes.{Appends};
ghost use Rattle.osb_table.specs.MitigationTable.{answer_line, table_line, table_text, timeout_line};
ghost use Rattle.osb_language.specs.declared.replay_fault.ReplayFault.TheVariants.{Write as WriteFault};

use osb_device::{DeviceFault, Output};
use osb_language::ReplayFault;
use osb_message::{Answer, Body, ErrorCode};
use osb_platform::{State, decide_provision, decide_timeout, mitigates};
use std::io::Write;

const ASYNC_REQUIRED: Body = Body::Error(ErrorCode::AsyncRequired);

const CONCURRENCY_ERROR: Body = Body::Error(ErrorCode::ConcurrencyError);

const OTHER: Body = Body::Error(ErrorCode::Other);

// The answers to a Provision that are shown, each under its name.
const SHOWN: [(&str, u16, Body); 20] = [
    ("100", 100, Body::Empty),
    ("200", 200, Body::Empty),
    ("200-malformed", 200, Body::Malformed),
    ("201", 201, Body::Empty),
    ("201-malformed", 201, Body::Malformed),
    ("202", 202, Body::Empty),
    ("202-malformed", 202, Body::Malformed),
    ("204", 204, Body::Empty),
    ("302", 302, Body::Empty),
    ("400", 400, OTHER),
    ("408", 408, OTHER),
    ("409", 409, OTHER),
    ("422-AsyncRequired", 422, ASYNC_REQUIRED),
    ("422-ConcurrencyError", 422, CONCURRENCY_ERROR),
    ("422-Other", 422, OTHER),
    ("422-malformed", 422, Body::Malformed),
    ("429", 429, OTHER),
    ("500", 500, OTHER),
    ("503", 503, OTHER),
    ("600", 600, Body::Empty),
];

// Writes a line: a name, the word of a state, and whether the platform cleans up.
fn write_line<W: Write>(
    output: &mut Output<W>,
    name: &str,
    state: State,
    mitigated: bool,
) -> Result<(), DeviceFault>
    ensures bytes { OnOk result (Appends (W.contents output.old.device)
        (W.contents output.new.device) (table_line name.now state mitigated)) }
    ensures refused { OnErr result (IsTrue output.new.refused) }
{
    let ending = if mitigated { " yes\n" } else { " no\n" };
    output.write_all(name.as_bytes())?;
    output.write_all(b" ")?;
    output.write_all(state.word().as_bytes())?;
    output.write_all(ending.as_bytes())
}

// Writes a line for each of these answers.
fn write_answers<W: Write>(
    output: &mut Output<W>,
    shown: &[(&str, u16, Body)],
) -> Result<(), DeviceFault>
    ensures bytes { OnOk result (Appends (W.contents output.old.device)
        (W.contents output.new.device)
        (flat_map (λ a. answer_line (a.0.now, record { status = a.1; body = a.2 })) shown.now)) }
    ensures refused { OnErr result (IsTrue output.new.refused) }
{
    for (name, status, body) in shown {
        let answer = Answer {
            status: *status,
            body: *body,
        };
        write_line(output, name, decide_provision(answer), mitigates(answer))?;
    }
    Ok(())
}

// Writes the line of a Provision that gets no answer, which is mitigated where its record is to be
// cleaned up.
fn write_timeout<W: Write>(output: &mut Output<W>) -> Result<(), DeviceFault>
    ensures bytes { OnOk result (Appends (W.contents output.old.device)
        (W.contents output.new.device) timeout_line) }
    ensures refused { OnErr result (IsTrue output.new.refused) }
{
    let state = decide_timeout(State::Wanted);
    write_line(output, "timeout", state, state == State::Cleaning)
}

// Writes all lines.
fn write_lines<W: Write>(output: &mut Output<W>) -> Result<(), DeviceFault>
    ensures bytes { OnOk result (Appends (W.contents output.old.device)
        (W.contents output.new.device) table_text) }
    ensures refused { OnErr result (IsTrue output.new.refused) }
{
    write_answers(output, &SHOWN)?;
    write_timeout(output)
}

// Writes the whole table and flushes.
fn write_text<W: Write>(output: &mut Output<W>) -> Result<(), DeviceFault>
    ensures bytes { OnOk result (Appends (W.contents output.old.device)
        (W.contents output.new.device) table_text) }
    ensures refused { output.new.refused ≡ is_err result }
{
    write_lines(output)?;
    output.flush()
}

/// Writes the orphan mitigation table (sections Provisioning and Orphan Mitigation): a line
/// `ANSWER STATE MITIGATED` for each of twenty answers to a Provision, and one for none, parted by
/// single spaces, each ended by a line feed.
///
/// The answer is shown by its status, and by its body where that matters; the state is the word of
/// what [`decide_provision`] returns for it, and then stands `yes` or `no` by [`mitigates`]. The line
/// `timeout` has the state that [`decide_timeout`] returns for a wanted instance, and `yes` where that
/// is to be cleaned up. The writer is flushed in the end. Which answers are shown, and the form of a
/// line, are this project's choice. It takes no memory.
///
/// # Errors
///
/// [`ReplayFault::Write`], and no other, where the writer failed or took nothing, now or before;
/// nothing is said then of how much went out.
pub fn write_table<W: Write>(writer: &mut Output<W>) -> Result<(), ReplayFault>
    ensures text { OnOk result (Appends (W.contents writer.old.device)
        (W.contents writer.new.device) table_text) }
    ensures fault { IsOkUnless result WriteFault }
    ensures refused { writer.new.refused ≡ is_err result }
{
    match write_text(writer) {
        Ok(()) => Ok(()),
        Err(DeviceFault) => Err(ReplayFault::Write),
    }
}

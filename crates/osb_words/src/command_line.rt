//! The command line (this project's choice).
ghost use Rattle.std.specs.Prelude.{◌≡◌, [], codes, false, map, IfErr, IfOk, OnOk, string_bytes};
ghost use Rattle.osb_words.specs.CommandLine.{asked_of, asked_words, command, flag, is_set, program};
ghost use Rattle.osb_words.specs.CommandLine.{instance_named, network_command, network_of, network_options};
ghost use Rattle.osb_words.specs.CommandLine.{replay_command, replaying, table_command, trace_command, valued};
ghost use Rattle.osb_words.specs.CommandLine.{trace_of, IsNoHelp, IsWordsFault, IsTold};
ghost use Rattle.clap.specs.Faults.{fault_of};
ghost use Rattle.clap.specs.Words.{app_of, first_of, found_of, kind_of, rows_of, rule_of, subcommand_rows_of};
ghost use Rattle.clap.specs.declared.builder.command.Command.TheViews.{out-Command};

use crate::help;
use clap::error::ErrorKind;
use clap::{Arg, ArgAction, ArgMatches, Command};
use osb_message::InstanceId;
use osb_options::{NetworkOptions, Options, TraceOptions};
use std::alloc::{AllocError, Global};
use thiserror::Error;

/// What the words of a command line ask for (this project's choice).
#[derive(Clone, Copy, Debug, PartialEq, Eq)]
pub enum Asked {
    /// To replay the schedule on standard input, with these options.
    Replay(Options),
    /// To write the orphan mitigation table.
    Table,
    /// To trace the schedule on standard input, with these options.
    Trace(TraceOptions),
    /// To run the network schedule on standard input, and to write what these options ask for.
    Network(NetworkOptions),
}

/// Why the words of a command line ask for nothing that can be done (this project's choice).
#[derive(Debug, Drop, Error)]
pub enum WordsFault {
    /// They ask for help, which is this text.
    #[error("Help")]
    Help(String),
    /// They are refused. The text says why, and how to get help.
    #[error("Refused")]
    Refused(String),
    /// An allocation failed.
    #[error("Memory")]
    Memory,
}

// An option without a value.
fn make_flag<'a>(alloc: Global, name: &'a str, text: &'a str) -> Arg<'a>
    ensures rule { rule_of result ≡ flag name.now }
    ensures local { result.global ≡ false }
{
    Arg::new(alloc, name)
        .long(name)
        .action(ArgAction::SetTrue)
        .help(text)
}

fn make_replay<'a>(alloc: Global) -> Result<Command<'a>, AllocError>
    ensures shape { IfOk result (λ c. app_of c ≡ replay_command) }
    ensures local { IfOk result (λ c. (out-Command c).has_globals ≡ false) }
{
    let replay = Command::new(alloc, "replay")
        .about(help::REPLAY)
        .override_usage(help::REPLAY_USAGE)
        .after_help(help::REPLAY_OUTPUT)
        .arg(make_flag(alloc, "settle", help::SETTLE))?
        .arg(make_flag(alloc, "saved", help::SAVED))?;
    Ok(replay)
}

// An option with a value, which help calls this.
fn make_valued<'a>(alloc: Global, name: &'a str, value: &'a str, text: &'a str) -> Arg<'a>
    ensures rule { rule_of result ≡ valued name.now }
    ensures local { result.global ≡ false }
{
    Arg::new(alloc, name)
        .long(name)
        .action(ArgAction::Set)
        .value_name(value)
        .help(text)
}

fn make_trace<'a>(alloc: Global) -> Result<Command<'a>, AllocError>
    ensures shape { IfOk result (λ c. app_of c ≡ trace_command) }
    ensures local { IfOk result (λ c. (out-Command c).has_globals ≡ false) }
{
    let trace = Command::new(alloc, "trace")
        .about(help::TRACE)
        .override_usage(help::TRACE_USAGE)
        .after_help(help::TRACE_OUTPUT)
        .arg(make_valued(alloc, "instance", "ID", help::INSTANCE))?
        .arg(make_flag(alloc, "settle", help::TRACE_SETTLE))?;
    Ok(trace)
}

fn make_network<'a>(alloc: Global) -> Result<Command<'a>, AllocError>
    ensures shape { IfOk result (λ c. app_of c ≡ network_command) }
    ensures local { IfOk result (λ c. (out-Command c).has_globals ≡ false) }
{
    let network = Command::new(alloc, "network")
        .about(help::NETWORK)
        .override_usage(help::NETWORK_USAGE)
        .after_help(help::NETWORK_OUTPUT)
        .arg(make_flag(alloc, "settle", help::NETWORK_SETTLE))?
        .arg(make_flag(alloc, "trace", help::NETWORK_TRACE))?
        .arg(make_valued(alloc, "instance", "ID", help::NETWORK_INSTANCE))?;
    Ok(network)
}

fn make_table<'a>(alloc: Global) -> Command<'a>
    ensures shape { app_of result ≡ table_command }
    ensures local { (out-Command result).has_globals ≡ false }
{
    Command::new(alloc, "table")
        .about(help::TABLE)
        .after_help(help::TABLE_OUTPUT)
}

// The program's own part of the command. Help has this name, whatever file the program is in.
fn make_program<'a>(alloc: Global) -> Result<Command<'a>, AllocError>
    ensures shape { IfOk result (λ c. app_of c ≡ program) }
{
    let program = Command::new(alloc, "osb-replay")
        .about(help::PROGRAM)
        .override_usage(help::PROGRAM_USAGE)
        .after_help(help::PROGRAM_START)
        .subcommand_required(true)
        .bin_name("osb-replay")?;
    Ok(program)
}

// The program with the commands for schedules of one broker.
fn make_replaying<'a>(alloc: Global) -> Result<Command<'a>, AllocError>
    ensures shape { IfOk result (λ c. app_of c ≡ replaying) }
{
    let replay = make_replay(alloc)?;
    let trace = make_trace(alloc)?;
    let command = make_program(alloc)?.subcommand(replay)?.subcommand(trace)?;
    Ok(command)
}

fn make_command<'a>(alloc: Global) -> Result<Command<'a>, AllocError>
    ensures shape { IfOk result (λ c. app_of c ≡ command) }
{
    let network = make_network(alloc)?;
    let command = make_replaying(alloc)?
        .subcommand(network)?
        .subcommand(make_table(alloc))?;
    Ok(command)
}

// Whether the flag was given.
fn read_flag(matches: &ArgMatches<'_>, name: &str) -> bool
    ensures value { result ≡ is_set name.now (rows_of (found_of matches.now)) }
{
    match matches.get_one::<bool>(name) {
        Some(value) => value,
        None => false,
    }
}

// The instance that is asked for, if one is; none of both where what stands for it is no id.
fn read_instance(matches: &ArgMatches<'_>) -> Option<Option<InstanceId>>
    ensures instance { result ≡ instance_named (first_of (codes "instance") (rows_of (found_of matches.now))) }
{
    let Some(text) = matches.get_str("instance") else {
        return Some(None);
    };
    match InstanceId::from_text(text) {
        Ok(id) => Some(Some(id)),
        Err(_) => None,
    }
}

// The trace that is asked for.
fn read_trace(matches: &ArgMatches<'_>) -> Option<Asked>
    ensures trace { result ≡ trace_of (rows_of (found_of matches.now)) }
{
    let instance = read_instance(matches)?;
    Some(Asked::Trace(TraceOptions {
        instance,
        settle: read_flag(matches, "settle"),
    }))
}

// The report or the trace that is asked for: `--settle` goes with a report alone, and `--instance` with a trace.
fn network_options(
    settle: bool,
    trace: bool,
    instance: Option<InstanceId>,
) -> Option<NetworkOptions>
    ensures options { result ≡ network_options settle trace instance }
{
    match (settle, trace, instance) {
        (false, true, instance) => Some(NetworkOptions::Trace { instance }),
        (settle, false, None) => Some(NetworkOptions::Report { settle }),
        _ => None,
    }
}

// What is asked for of a network schedule.
fn read_network(matches: &ArgMatches<'_>) -> Option<Asked>
    ensures network { result ≡ network_of (rows_of (found_of matches.now)) }
{
    let instance = read_instance(matches)?;
    let settle = read_flag(matches, "settle");
    let trace = read_flag(matches, "trace");
    let options = network_options(settle, trace, instance)?;
    Some(Asked::Network(options))
}

// What the matched words ask for.
fn asked_by(matches: &ArgMatches<'_>) -> Option<Asked>
    ensures asked { result ≡ asked_of (subcommand_rows_of matches.now) }
{
    match matches.subcommand() {
        Some(("replay", inner)) => Some(Asked::Replay(Options {
            settle: read_flag(inner, "settle"),
            saved: read_flag(inner, "saved"),
        })),
        Some(("trace", inner)) => read_trace(inner),
        Some(("network", inner)) => read_network(inner),
        Some(("table", _)) => Some(Asked::Table),
        _ => None,
    }
}

// What is said of an instance that is no id.
const NO_ID: &str = "\
error: what stands after '--instance' is no GUID, as 00000000-0000-0000-0000-000000000001 is one

For more information, try 'osb-replay trace --help'.
";

// What is said of options of a network schedule that don't go together, or of an instance that is no id.
const NO_NETWORK: &str = "\
error: '--instance' needs '--trace' and a GUID, and '--settle' doesn't go with '--trace'

For more information, try 'osb-replay network --help'.
";

// Whether the words are those of a network schedule.
fn is_network(matches: &ArgMatches<'_>) -> bool {
    matches!(matches.subcommand(), Some(("network", _)))
}

// The fault of a command line that `clap` takes and that asks for nothing that can be done: its instance is no id, or
// its options don't go together.
fn not_asked(alloc: Global, matches: &ArgMatches<'_>) -> WordsFault
    ensures no_help { IsNoHelp result }
{
    let text = if is_network(matches) {
        NO_NETWORK
    } else {
        NO_ID
    };
    match String::from_str(alloc, text) {
        Ok(text) => WordsFault::Refused(text),
        Err(_) => WordsFault::Memory,
    }
}

// The fault that an error of `clap` is told as.
fn fault_by(alloc: Global, error: &clap::Error) -> WordsFault
    ensures kind { IsTold (kind_of error.now) result }
{
    let Ok(text) = error.to_string(alloc) else {
        return WordsFault::Memory;
    };
    match error.kind() {
        ErrorKind::OutOfMemory => WordsFault::Memory,
        ErrorKind::DisplayHelp => WordsFault::Help(text),
        _ => WordsFault::Refused(text),
    }
}

/// What the words of a command line ask for (this project's choice).
///
/// The first word is the program's name, whatever it is. Then stands `replay`, and after it
/// `--settle`, `--saved`, both or neither, in either order; or `trace`, and after it `--instance` with an id,
/// `--settle`, both or neither, in either order; or `network`, and after it `--settle`, or `--trace` with or without
/// `--instance` and an id, or nothing; or `table`. The words are read by `clap`,
/// so what they ask for is what its definition of the matches gives for them under this command. It
/// takes memory, and changes nothing.
///
/// # Errors
///
/// [`WordsFault::Help`] with the help where they ask for it: by `--help` or `-h`, of the program or of
/// a subcommand, or by the word `help`. [`WordsFault::Refused`] with a text for the user where they
/// are none of these. [`WordsFault::Memory`] where an allocation failed, but for one by which `clap` gathers
/// the letters of a word for the hint in that text: it goes on letter by letter, and the text is the same.
pub fn read_words(alloc: Global, words: &[String]) -> Result<Asked, WordsFault>
    ensures asked { IfOk result (λ asked. asked_words (map string_bytes words.now) ≡ Some asked) }
    ensures faultless { OnOk result (fault_of command (map string_bytes words.now) ≡ []) }
    ensures fault { IfErr result (IsWordsFault (map string_bytes words.now)) }
{
    let Ok(command) = make_command(alloc) else {
        return Err(WordsFault::Memory);
    };
    match command.try_get_matches_from(words) {
        Ok(matches) => match asked_by(&matches) {
            Some(asked) => Ok(asked),
            None => Err(not_asked(alloc, &matches)),
        },
        Err(error) => Err(fault_by(alloc, &error)),
    }
}

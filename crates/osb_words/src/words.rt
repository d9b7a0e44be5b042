//! The words of the command line.
ghost use Rattle.std.specs.Prelude.{IfErr};
ghost use Rattle.osb_words.specs.CommandLine.{IsNoHelp};

use crate::command_line::WordsFault;
use std::alloc::Global;
use std::env;
use std::env::Env;
use std::io::ErrorKind;

// What is said of a word that isn't UTF-8: `clap` takes texts alone.
const NOT_UTF_8: &str = "\
error: a word of the command line isn't UTF-8

For more information, try 'osb-replay --help'.
";

// The fault of a command line with a word that isn't UTF-8.
fn not_utf_8(alloc: Global) -> WordsFault
    ensures no_help { IsNoHelp result }
{
    match String::from_str(alloc, NOT_UTF_8) {
        Ok(text) => WordsFault::Refused(text),
        Err(_) => WordsFault::Memory,
    }
}

/// The words of the command line, the program's name first. No contract can say which they are.
///
/// # Errors
///
/// [`WordsFault::Refused`] where a word isn't UTF-8, and [`WordsFault::Memory`] where an allocation
/// failed.
pub fn words_of<R: Env + AllocGlobal>(rt: &R) -> Result<Vec<String>, WordsFault>
    ensures fault { IfErr result IsNoHelp }
{
    let words = match env::args(rt) {
        Ok(words) => words,
        Err(error) if error.kind() == ErrorKind::InvalidData => return Err(not_utf_8(rt.alloc())),
        Err(_) => return Err(WordsFault::Memory),
    };
    // `collect` would go on where its first allocation fails.
    let mut texts = Vec::new(rt.alloc());
    for word in words {
        let Ok(()) = texts.push(word) else {
            return Err(WordsFault::Memory);
        };
    }
    Ok(texts)
}

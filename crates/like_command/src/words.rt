ghost use Rattle.std.specs.Prelude.{◌≡◌, List, IfErr, IfOk, MatchResult, map};
ghost use Rattle.clap.specs.Words.{Text};
ghost use Rattle.clap.specs.Walk.{texts};
ghost use Rattle.clap.specs.Kinds.{HasKind};
ghost use Rattle.like_command.specs.Asked.{Asks, IsParseFault, faults_of, spelled_out};

use crate::asked::Asked;
use crate::command::likes_command;
use crate::fault::ParseFault;
use crate::matches::matched;
use clap::Error;
use clap::error::ErrorKind;
use std::alloc::{AllocError, Global};
use std::convert::AsStr;

/// What the words after the program's name ask for.
/// A request for help or for the version is no fault, and its text is `Help`. Out of memory is `Memory`, and all else
/// that `clap` refuses is `Usage`.
pub fn parse<S: AsStr>(alloc: Global, words: &[S]) -> Result<Asked, ParseFault>
    ensures asked { IfOk result (Asks (map S.text words.now)) }
    ensures fault { IfErr result (IsParseFault (map S.text words.now)) }
{
    let spelled = spelled_out(alloc, words)?;
    match likes_command(alloc)?.try_get_matches_from(spelled.as_slice()) {
        Ok(matches) => Ok(matched(alloc, &matches)?),
        Err(error) => refused(alloc, &error),
    }
}

// The words as `clap` reads them: `help run` is another spelling of `run --help`.
fn spelled_out<'w, S: AsStr>(alloc: Global, words: &'w [S]) -> Result<Vec<&'w str>, AllocError>
    ensures { IfOk result (λ spelled. texts spelled.items ≡ spelled_out (map S.text words.now)) }
{
    match words.split_first() {
        Some((first, rest)) if first.as_str() == "help" => {
            let mut spelled = texts_of(alloc, &rest[..rest.len().min(1)])?;
            spelled.push("--help")?;
            Ok(spelled)
        }
        _ => texts_of(alloc, words),
    }
}

// The text of each word.
fn texts_of<'w, S: AsStr>(alloc: Global, words: &'w [S]) -> Result<Vec<&'w str>, AllocError>
    ensures { IfOk result (λ list. texts list.items ≡ map S.text words.now) }
{
    let mut list = Vec::new(alloc);
    for word in words {
        list.push(word.as_str())?;
    }
    Ok(list)
}

// What words ask for that have no matches: help, the version, or nothing.
fn refused(alloc: Global, error: &Error) -> Result<Asked, ParseFault>
    ensures { (words : List Text)
        → HasKind (faults_of words) error.now
        → MatchResult result (Asks words) (IsParseFault words) }
{
    if error.kind() == ErrorKind::OutOfMemory {
        return Err(ParseFault::Memory);
    }
    let text = format!(in alloc; "{error}")?;
    if error.use_stderr() {
        Err(ParseFault::Usage(text))
    } else {
        Ok(Asked::Help(text))
    }
}

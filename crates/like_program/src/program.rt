ghost use Rattle.std.specs.Prelude.{◌≡◌, true, IfErr, IfOk, MatchResult, OnOk, map, string_bytes};
ghost use Rattle.std.specs.Io.KnownBytes.{Appends};
ghost use Rattle.like_files.specs.StandardInput.{names_of, names_twice};
ghost use Rattle.like_replies.specs.Output.{TellsCall};
ghost use Rattle.like_program.specs.Fault.{program_status};
ghost use Rattle.like_program.specs.Program.{Ends, HasServed, IsServeFault, NamesInputOnce, TellsProgram};
ghost use Rattle.like_program.specs.declared.fault.ProgramFault.TheVariants as program;

use crate::example::replay_example;
use crate::fault::{ProgramFault, with_options};
use crate::named::{replay_named, run_named};
use crate::stopwatch::Stopwatch;
use like_command::{Asked, Options, parse};
use like_files::{Disk, names_input_twice};
use like_replies::{Notice, Output};
use std::alloc::Global;
use std::fs::Files;
use std::io;
use std::io::{Input, Write};
use std::rt::Clock;
use std::sync::Wait;
use std::thread::Threads;

/// Does what the words after the program's name ask for: it runs or replays the files that they name, or prints help,
/// onto `out`. Without words it replays a built-in example. Onto `errors` it writes a fault, the summary or the number
/// of refused requests, and progress if that is asked for. Answers the exit status.
pub fn serve_words<R: Files + Input + Threads + Wait + Clock + Sync, W: Output, E: Write>(
    rt: &R,
    alloc: Global,
    words: &[String],
    out: &mut W,
    errors: &mut E,
) -> u8
where
    R::File: Send,
    R::Reader: Send,
    ensures { Ends W.held W.is_flushed W.has_failed (map string_bytes words.now) out.old out.new result }
{
    let mut watch = Stopwatch::new(rt, errors);
    match serve(rt, alloc, words, out, &mut watch) {
        Ok(None) => 0,
        Ok(Some(notice)) => {
            // If this can't be written, the report is whole without it.
            let _ = give_notice(&notice, &mut watch);
            0
        }
        Err(fault) => tell(&fault, watch.errors()),
    }
}

// Writes the notice on a report, and after a summary how long each part took.
fn give_notice<C: Clock, E: Write>(
    notice: &Notice,
    watch: &mut Stopwatch<'_, C, E>,
) -> io::Result<()> {
    notice.write(watch.errors())?;
    match notice {
        Notice::Summed(_) => watch.write(),
        Notice::Refused(_) => Ok(()),
    }
}

/// Writes a fault, and answers the exit status.
pub fn tell<E: Write>(fault: &ProgramFault, errors: &mut E) -> u8
    ensures { result ≡ program_status fault.now }
{
    // If this can't be written either, the exit status alone tells of the fault.
    let _ = fault.line(errors);
    fault.status()
}

// Does what the words ask for, and gives the notice on the report.
fn serve<R: Files + Input + Threads + Wait + Clock + Sync, W: Output, E: Write>(
    rt: &R,
    alloc: Global,
    words: &[String],
    out: &mut W,
    watch: &mut Stopwatch<'_, R, E>,
) -> Result<Option<Notice>, ProgramFault>
where
    R::File: Send,
    R::Reader: Send,
    ensures served { IfOk result
        (HasServed (map string_bytes words.now) (W.held out.old) (W.held out.new)) }
    ensures fault { IfErr result
        (IsServeFault (map string_bytes words.now) (W.held out.old) (W.held out.new)) }
    ensures flushed { OnOk result (W.is_flushed out.new) }
    ensures told { MatchResult result (λ _. W.has_failed out.new → W.has_failed out.old)
        (TellsProgram W.has_failed out.old out.new) }
{
    if words.is_empty() {
        return replay_example(rt, alloc, out);
    }
    match parse(alloc, words)? {
        Asked::Run(options) => {
            begin(&options, watch)?;
            let done = run_named(rt, &mut Disk { files: rt }, alloc, &options, out, watch);
            with_options(done, options)
        }
        Asked::Replay(options) => {
            begin(&options, watch)?;
            let done = replay_named(rt, &mut Disk { files: rt }, alloc, &options, out, watch);
            with_options(done, options)
        }
        Asked::Help(text) => {
            show(&text, out)?;
            Ok(None)
        }
    }
}

// Refuses options that name standard input twice, and lets the watch tell of progress if they ask for it.
fn begin<C: Clock, E: Write>(
    options: &Options,
    watch: &mut Stopwatch<'_, C, E>,
) -> Result<(), ProgramFault>
    ensures once { OnOk result (NamesInputOnce options.now) }
    ensures twice { IfErr result
        (λ fault. (fault ≡ program.Inputs) × (names_twice (names_of options.now) ≡ true)) }
{
    if names_input_twice(options) {
        return Err(ProgramFault::Inputs);
    }
    watch.follow(options.progress);
    Ok(())
}

// Prints help.
fn show<W: Output>(text: &str, out: &mut W) -> Result<(), ProgramFault>
    ensures shown { OnOk result (Appends (W.held out.old) (W.held out.new) text.now) }
    ensures flushed { OnOk result (W.is_flushed out.new) }
    ensures fault { IfErr result (λ fault. fault ≡ program.Output) }
    ensures told { TellsCall W.has_failed out.old out.new result }
{
    if out.append(text.as_bytes()).is_ok() && out.flush_all().is_ok() {
        return Ok(());
    }
    Err(ProgramFault::Output)
}

ghost use Rattle.std.specs.Prelude.{◌≡◌, ◌≤◌, IfErr, IfOk, IsSomeAnd, List, MatchResult, OnErr, Option, is_some, length, option_map};
ghost use Rattle.like_promises.specs.Workload.{lists_of};
ghost use Rattle.like_records.specs.Reading.{ReadFailed};
ghost use Rattle.like_limits.specs.Limits.{max_entries};
ghost use Rattle.like_requests.specs.PagesFile.{IsPagesFile};
ghost use Rattle.like_files.specs.FailedReads.{TellsRead};
ghost use Rattle.like_files.specs.Inputs.{BeginsReport, BeginsReportOf, GivesPlans, GivesScript, Inputs, OfRecords, RefusesScript, inputs_in};
ghost use Rattle.like_files.specs.Outcome.{IsOutcome, LeavesFront, LeavesOutput};
ghost use Rattle.like_files.specs.Replay.{HasReplayed, HasReplayedLists, IsReplayFilesFault, IsReplayListsFault};
ghost use Rattle.like_replies.specs.declared.notice.Notice.{Notice};

use crate::asked::{extent_of, with_pages};
use crate::fault::DriverFault;
use crate::opened::Opened;
use crate::plans::{read_plans, read_plans_in_parallel};
use crate::progress::{NoProgress, Part, Progress};
use like_command::Options;
use like_replies::{Notice, Output, Text};
use like_requests::{Pages, Request, Setup, read_pages};
use like_run::{ScriptFault, Turned, read_script, replay_noting};
use std::alloc::Global;
use std::io::Read;
use std::thread::Threads;

/// Reads the pages file, the request files in their order and the script file; replays the run that they ask for; and
/// writes its report. The options say whether that has the totals alone, and whether it has places. Without a script,
/// no turn comes before the rounds. After `Write` and `Memory` the front of the report may have been written.
pub fn replay_files<R: Read + Drop, W: Output>(
    alloc: Global,
    options: &Options,
    pages: R,
    requests: Vec<R>,
    script: Option<R>,
    out: &mut W,
) -> Result<(), DriverFault>
    requires request_names { length requests.items ≡ length options.now.requests.items }
    requires script_name { is_some script ≡ is_some options.now.script }
    ensures replayed { let inputs = inputs_in R.remaining (record { pages = pages; requests = requests; script = script }) in
        IsOutcome (λ old new _. (notice : Option Notice) × HasReplayed options.now inputs old new notice)
        (IsReplayFilesFault options.now inputs) W.held out.old out.new result }
    ensures begun { let inputs = inputs_in R.remaining (record { pages = pages; requests = requests; script = script }) in
        OnErr result (LeavesFront (BeginsReportOf options.now inputs) W.held out.old out.new) }
    ensures output { LeavesOutput W.is_flushed W.has_failed out.old out.new result }
    ensures read { IfErr result (TellsRead pages requests.items script) }
{
    let pages = read_pages(alloc, pages)?;
    let plans = read_plans(alloc, &pages, requests)?;
    replay_read(alloc, options, pages, plans, script, out, &mut NoProgress)?;
    Ok(())
}

/// Replays the run that open files ask for, and writes its report, with the notice on it. The request files are read in
/// parallel, and `progress` hears of each part. The replay itself is the calling thread's work.
pub fn replay_opened<T: Threads + Sync, R: Read + Drop + Send, W: Output, P: Progress>(
    rt: &T,
    alloc: Global,
    options: &Options,
    files: Opened<R>,
    out: &mut W,
    progress: &mut P,
) -> Result<Option<Notice>, DriverFault>
    requires request_names { length files.requests.items ≡ length options.now.requests.items }
    requires script_name { is_some files.script ≡ is_some options.now.script }
    ensures replayed { let inputs = inputs_in R.remaining files in
        IsOutcome (HasReplayed options.now inputs) (IsReplayFilesFault options.now inputs)
        W.held out.old out.new result }
    ensures begun { let inputs = inputs_in R.remaining files in
        OnErr result (LeavesFront (BeginsReportOf options.now inputs) W.held out.old out.new) }
    ensures output { LeavesOutput W.is_flushed W.has_failed out.old out.new result }
    ensures read { IfErr result (TellsRead files.pages files.requests.items files.script) }
{
    let Opened {
        pages,
        requests,
        script,
    } = files;
    let pages = read_pages(alloc, pages)?;
    let plans = read_plans_in_parallel(rt, alloc, &pages, requests)?;
    replay_read(alloc, options, pages, plans, script, out, progress)
}

// Reads the script, and replays it with what the other files gave.
fn replay_read<R: Read + Drop, W: Output, P: Progress>(
    alloc: Global,
    options: &Options,
    pages: Pages,
    plans: Vec<Vec<Request>>,
    script: Option<R>,
    out: &mut W,
    progress: &mut P,
) -> Result<Option<Notice>, DriverFault>
    ensures replayed { (inputs : Inputs) → OfRecords inputs.pages (λ rows. IsPagesFile rows pages)
        → GivesPlans pages inputs.requests (lists_of plans.items)
        → inputs.script ≡ option_map R.remaining script
        → IsOutcome (HasReplayed options.now inputs) (IsReplayFilesFault options.now inputs)
        W.held out.old out.new result }
    ensures begun { (inputs : Inputs) → OfRecords inputs.pages (λ rows. IsPagesFile rows pages)
        → GivesPlans pages inputs.requests (lists_of plans.items)
        → OnErr result (LeavesFront (BeginsReportOf options.now inputs) W.held out.old out.new) }
    ensures output { LeavesOutput W.is_flushed W.has_failed out.old out.new result }
    ensures read { (file : R) (files : List R) → IfErr result (TellsRead file files script) }
{
    let script = read_turns(alloc, script)?;
    progress.done(Part::Reading);
    let setup = with_pages(options, pages);
    replay_lists(alloc, options, &setup, plans, &script, out, progress)
}

// Replays what the files gave, and writes the report.
fn replay_lists<W: Output, P: Progress>(
    alloc: Global,
    options: &Options,
    setup: &Setup,
    plans: Vec<Vec<Request>>,
    script: &[Turned],
    out: &mut W,
    progress: &mut P,
) -> Result<Option<Notice>, DriverFault>
    requires { length script.now ≤ max_entries }
    ensures replayed { IsOutcome (HasReplayedLists options.now setup.now (lists_of plans.items) script.now)
        (IsReplayListsFault setup.now (lists_of plans.items) script.now) W.held out.old out.new result }
    ensures begun { OnErr result (LeavesFront
        (BeginsReport options.now setup.now (lists_of plans.items)) W.held out.old out.new) }
    ensures output { LeavesOutput W.is_flushed W.has_failed out.old out.new result }
{
    let report = replay_noting(alloc, setup, plans, script, options.places)?;
    progress.done(Part::Running);
    let text = Text::new(alloc, extent_of(options), &report, &setup.pages)?;
    text.write(alloc, out)?;
    progress.done(Part::Writing);
    Ok(Notice::of(&report, options.summary))
}

// The entries of the script: none if there is no script.
fn read_turns<R: Read + Drop>(alloc: Global, script: Option<R>) -> Result<Vec<Turned>, ScriptFault>
    ensures few { IfOk result (λ entries. length entries.items ≤ max_entries) }
    ensures given { MatchResult result
        (λ entries. GivesScript (option_map R.remaining script) entries.items)
        (RefusesScript (option_map R.remaining script)) }
    ensures read { IfErr result (λ fault. fault ≡ ScriptFault.Read
        → IsSomeAnd script (λ reader. ReadFailed reader)) }
{
    match script {
        None => Ok(Vec::new(alloc)),
        Some(reader) => read_script(alloc, reader),
    }
}

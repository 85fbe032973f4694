ghost use Rattle.std.specs.Prelude.{◌≡◌, IfErr, None, OnErr, Option, length};
ghost use Rattle.like_promises.specs.Workload.{lists_of};
ghost use Rattle.like_files.specs.FailedReads.{TellsRead};
ghost use Rattle.like_files.specs.Inputs.{BeginsReport, BeginsReportOf, inputs_in};
ghost use Rattle.like_files.specs.Outcome.{IsOutcome, LeavesFront, LeavesOutput};
ghost use Rattle.like_files.specs.Run.{HasRun, HasRunLists, IsRunFilesFault, IsRunListsFault};
ghost use Rattle.like_replies.specs.declared.notice.Notice.{Notice};

use crate::asked::{extent_of, with_pages};
use crate::fault::DriverFault;
use crate::opened::Opened;
use crate::plans::read_plans_in_parallel;
use crate::progress::{NoProgress, Part, Progress};
use like_command::Options;
use like_replies::{Notice, Output, Text};
use like_requests::{Request, Setup, read_pages};
use like_roles::NoGate;
use like_run::run_noting;
use std::alloc::Global;
use std::io::Read;
use std::sync::Wait;
use std::thread::Threads;

/// Reads the pages file, and the request files in parallel; makes their run on threads; and writes its report. The options
/// say whether that has the totals alone, and whether it has places. The fault is that of the first file at fault, though
/// later ones may have been read by then. After `Write` and `Memory` the front of the report may have been written.
/// Threads take the readers, so they are `Send`.
pub fn run_files<T: Threads + Wait + Sync, R: Read + Drop + Send, W: Output>(
    rt: &T,
    alloc: Global,
    options: &Options,
    pages: R,
    requests: Vec<R>,
    out: &mut W,
) -> Result<(), DriverFault>
    requires { length requests.items ≡ length options.now.requests.items }
    ensures run { let inputs = inputs_in R.remaining (record { pages = pages; requests = requests; script = None }) in
        IsOutcome (λ old new _. (notice : Option Notice) × HasRun options.now inputs old new notice)
        (IsRunFilesFault options.now inputs) W.held out.old out.new result }
    ensures begun { let inputs = inputs_in R.remaining (record { pages = pages; requests = requests; script = None }) in
        OnErr result (LeavesFront (BeginsReportOf options.now inputs) W.held out.old out.new) }
    ensures output { LeavesOutput W.is_flushed W.has_failed out.old out.new result }
    ensures read { IfErr result (TellsRead pages requests.items None) }
{
    let files = Opened {
        pages,
        requests,
        script: None,
    };
    run_opened(rt, alloc, options, files, out, &mut NoProgress)?;
    Ok(())
}

/// Makes the run that open files ask for, on threads, and writes its report, with the notice on it. `progress` hears of
/// each part. A script is left unread.
pub fn run_opened<T: Threads + Wait + Sync, R: Read + Drop + Send, W: Output, P: Progress>(
    rt: &T,
    alloc: Global,
    options: &Options,
    files: Opened<R>,
    out: &mut W,
    progress: &mut P,
) -> Result<Option<Notice>, DriverFault>
    requires { length files.requests.items ≡ length options.now.requests.items }
    ensures run { let inputs = inputs_in R.remaining files in
        IsOutcome (HasRun options.now inputs) (IsRunFilesFault options.now inputs) W.held out.old out.new result }
    ensures begun { let inputs = inputs_in R.remaining files in
        OnErr result (LeavesFront (BeginsReportOf options.now inputs) W.held out.old out.new) }
    ensures output { LeavesOutput W.is_flushed W.has_failed out.old out.new result }
    ensures read { IfErr result (TellsRead files.pages files.requests.items files.script) }
{
    let pages = read_pages(alloc, files.pages)?;
    let plans = read_plans_in_parallel(rt, alloc, &pages, files.requests)?;
    progress.done(Part::Reading);
    let setup = with_pages(options, pages);
    run_lists(rt, alloc, options, &setup, plans, out, progress)
}

// Runs what the files gave, and writes the report.
fn run_lists<T: Threads + Wait + Sync, W: Output, P: Progress>(
    rt: &T,
    alloc: Global,
    options: &Options,
    setup: &Setup,
    plans: Vec<Vec<Request>>,
    out: &mut W,
    progress: &mut P,
) -> Result<Option<Notice>, DriverFault>
    ensures run { IsOutcome (HasRunLists options.now setup.now (lists_of plans.items))
        (IsRunListsFault setup.now (lists_of plans.items)) W.held out.old out.new result }
    ensures begun { OnErr result (LeavesFront
        (BeginsReport options.now setup.now (lists_of plans.items)) W.held out.old out.new) }
    ensures output { LeavesOutput W.is_flushed W.has_failed out.old out.new result }
{
    let report = run_noting(rt, alloc, setup, plans, &NoGate, u32::MAX, options.places)?;
    progress.done(Part::Running);
    let text = Text::new(alloc, extent_of(options), &report, &setup.pages)?;
    text.write_in_parallel(rt, alloc, out)?;
    progress.done(Part::Writing);
    Ok(Notice::of(&report, options.summary))
}

ghost use Rattle.std.specs.Prelude.{OnErr};
ghost use Rattle.like_files.specs.Outcome.{IsOutcome, LeavesFront, LeavesOutput};
ghost use Rattle.like_files.specs.Inputs.{BeginsReportOf, inputs_in};
ghost use Rattle.like_files.specs.Replay.{HasReplayed, IsReplayFilesFault};
ghost use Rattle.like_files.specs.Run.{HasRun, IsRunFilesFault};
ghost use Rattle.like_program.specs.Named.{IsNamedFault, OfNamed};

use like_command::Options;
use like_files::{DriverFault, Opener, Progress, open_files, replay_opened, run_opened};
use like_replies::{Notice, Output};
use std::alloc::Global;
use std::io::Read;
use std::sync::Wait;
use std::thread::Threads;

/// Opens the files that the options name, and makes the run that they ask for, on threads, onto `out`. Gives the notice
/// on the report, if there is one. After `Write` and `Memory` the front of the report may have been written.
pub fn run_named<T: Threads + Wait + Sync, O: Opener, W: Output, P: Progress>(
    rt: &T,
    opener: &mut O,
    alloc: Global,
    options: &Options,
    out: &mut W,
    progress: &mut P,
) -> Result<Option<Notice>, DriverFault>
where
    O::Reader: Read + Drop + Send,
    ensures run { IsOutcome
        (λ old new notice. OfNamed (O.tries opener.old) (O.tries opener.new) options.now
        (λ files. HasRun options.now (inputs_in O.Reader.remaining files) old new notice))
        (IsNamedFault (O.tries opener.old) (O.tries opener.new) options.now
        (λ files. IsRunFilesFault options.now (inputs_in O.Reader.remaining files)))
        W.held out.old out.new result }
    ensures begun { OnErr result (LeavesFront
        (λ old new. OfNamed (O.tries opener.old) (O.tries opener.new) options.now
        (λ files. BeginsReportOf options.now (inputs_in O.Reader.remaining files) old new))
        W.held out.old out.new) }
    ensures output { LeavesOutput W.is_flushed W.has_failed out.old out.new result }
{
    let files = open_files(opener, alloc, options)?;
    run_opened(rt, alloc, options, files, out, progress)
}

/// Opens the files that the options name, and replays them onto `out`. Gives the notice on the report, if there is one.
/// After `Write` and `Memory` the front of the report may have been written.
pub fn replay_named<T: Threads + Sync, O: Opener, W: Output, P: Progress>(
    rt: &T,
    opener: &mut O,
    alloc: Global,
    options: &Options,
    out: &mut W,
    progress: &mut P,
) -> Result<Option<Notice>, DriverFault>
where
    O::Reader: Read + Drop + Send,
    ensures replayed { IsOutcome
        (λ old new notice. OfNamed (O.tries opener.old) (O.tries opener.new) options.now
        (λ files. HasReplayed options.now (inputs_in O.Reader.remaining files) old new notice))
        (IsNamedFault (O.tries opener.old) (O.tries opener.new) options.now
        (λ files. IsReplayFilesFault options.now (inputs_in O.Reader.remaining files)))
        W.held out.old out.new result }
    ensures begun { OnErr result (LeavesFront
        (λ old new. OfNamed (O.tries opener.old) (O.tries opener.new) options.now
        (λ files. BeginsReportOf options.now (inputs_in O.Reader.remaining files) old new))
        W.held out.old out.new) }
    ensures output { LeavesOutput W.is_flushed W.has_failed out.old out.new result }
{
    let files = open_files(opener, alloc, options)?;
    replay_opened(rt, alloc, options, files, out, progress)
}

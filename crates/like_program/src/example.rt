ghost use Rattle.std.specs.Prelude.{◌≡◌, ◌∷◌, [], IfErr, IfOk, MatchResult, None, OnOk, Some, length, map};
ghost use Rattle.like_program.specs.Program.{HasServed, IsExample, IsExampleFault, TellsProgram, example_requests};

use crate::fault::{ProgramFault, with_options};
use like_command::Options;
use like_files::{NoProgress, Opened, replay_opened};
use like_replies::{Notice, Output};
use std::alloc::{AllocError, Global};
use std::thread::Threads;

// The pages file of the example.
const PAGES: &str = "name,count,split\na,10,no\n";

// Its request file.
const REQUESTS: &str = "op,user,page\nlike,0,a\nlike,1,a\nlike,0,a\n";

/// Replays the built-in example onto `out`.
pub fn replay_example<T: Threads + Sync, W: Output>(
    rt: &T,
    alloc: Global,
    out: &mut W,
) -> Result<Option<Notice>, ProgramFault>
    ensures replayed { IfOk result (HasServed [] (W.held out.old) (W.held out.new)) }
    ensures fault { IfErr result (IsExampleFault (W.held out.old) (W.held out.new)) }
    ensures flushed { OnOk result (W.is_flushed out.new) }
    ensures told { MatchResult result (λ _. W.has_failed out.new → W.has_failed out.old)
        (TellsProgram W.has_failed out.old out.new) }
{
    let options = example_options(alloc)?;
    let requests = request_files(alloc)?;
    let pages = PAGES.as_bytes();
    let files = Opened {
        pages,
        requests,
        script: None,
    };
    let done = replay_opened(rt, alloc, &options, files, out, &mut NoProgress);
    with_options(done, options)
}

// The options of the example.
fn example_options(alloc: Global) -> Result<Options, AllocError>
    ensures numbers { IfOk result IsExample }
    ensures names { IfOk result (λ options. length options.requests.items ≡ 1) }
    ensures unscripted { IfOk result (λ options. options.script ≡ None) }
{
    let mut requests = Vec::new(alloc);
    requests.push(String::from_str(alloc, "requests.csv")?)?;
    Ok(Options {
        workers: 1,
        users: 2,
        stash: 256,
        turns: 1_000,
        hot: None,
        places: false,
        totals: false,
        summary: false,
        progress: false,
        pages: String::from_str(alloc, "pages.csv")?,
        requests,
        script: None,
    })
}

// The bytes of its request files.
fn request_files(alloc: Global) -> Result<Vec<&'static [u8]>, AllocError>
    ensures { IfOk result (λ files.
        map (λ file. Some file.now) files.items ≡ Some example_requests ∷ []) }
{
    let mut requests = Vec::new(alloc);
    requests.push(REQUESTS.as_bytes())?;
    Ok(requests)
}

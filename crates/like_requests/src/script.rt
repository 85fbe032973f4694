ghost use Rattle.std.specs.Prelude.{◌≤◌, All, IsTrue, ◌↔◌, MatchResult, length};
ghost use Rattle.like_limits.specs.Limits.{max_entries};
ghost use Rattle.like_requests.specs.Script.{IsFirstAway, IsInRun};

use crate::setup::SettingsFault;

/// One entry of a script: what is done next in a replay.
#[derive(Clone, Copy, Debug, PartialEq, Eq)]
pub enum Turned {
    /// One item more of this submitter's list is opened to its worker.
    OpenOne(u32),
    /// This worker makes a turn.
    Worker(u32),
    /// The coordinator makes a turn.
    Coordinator,
}

/// Tests a script, and names the first entry whose submitter or worker doesn't exist.
pub fn check_script(script: &[Turned], workers: u32, submitters: usize) -> Result<(), SettingsFault>
    requires { length script.now ≤ max_entries }
    ensures { MatchResult result
        (λ _. All (IsInRun workers submitters) script.now)
        (IsFirstAway workers submitters script.now) }
{
    for (at, entry) in script.iter().enumerate() {
        if !is_there(entry, workers, submitters) {
            return Err(SettingsFault::Script { at: at as u32 });
        }
    }
    Ok(())
}

// Whether the submitter or the worker of an entry exists.
fn is_there(entry: &Turned, workers: u32, submitters: usize) -> bool
    ensures { IsTrue result ↔ IsInRun workers submitters entry.now }
{
    match *entry {
        Turned::OpenOne(submitter) => (submitter as usize) < submitters,
        Turned::Worker(worker) => worker < workers,
        Turned::Coordinator => true,
    }
}

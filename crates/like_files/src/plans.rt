ghost use Rattle.std.specs.Prelude.{◌≡◌, [], ◌∷◌, ◌++◌, IfErr, MatchResult, Ok, OnOk, length, map};
ghost use Rattle.like_records.specs.Reading.{ReadFailed};
ghost use Rattle.like_files.specs.FailedReads.{ReadsRequests};
ghost use Rattle.like_files.specs.Inputs.{GivesPlan, RefusesPlan};
ghost use Rattle.like_files.specs.Plans.{IsFirstStop, Stops};

use crate::fault::DriverFault;
use like_requests::{MAX_SUBMITTERS, Pages, Request, RequestsFault, read_requests};
use std::alloc::Global;
use std::io::Read;
use std::thread;
use std::thread::Threads;

/// The plans of the submitters, each read from its file. If there is no memory for one more plan, the fault is its
/// file's `Memory`.
pub fn read_plans<R: Read + Drop>(
    alloc: Global,
    pages: &Pages,
    requests: Vec<R>,
) -> Result<Vec<Vec<Request>>, DriverFault>
    ensures { ReadsRequests R.remaining pages.now requests.items result }
{
    let mut plans = Vec::new(alloc);
    for reader in requests {
        add_plan(&mut plans, read_requests(alloc, reader, pages))?;
    }
    Ok(plans)
}

/// The plans of the submitters, read in parallel, with a thread for each file. The fault is that of the first file at
/// fault, as if they were read in order. A thread that can't be started is no fault: the caller's thread does its work.
/// More files than a run takes are read by the caller's thread alone.
pub fn read_plans_in_parallel<T: Threads + Sync, R: Read + Drop + Send>(
    rt: &T,
    alloc: Global,
    pages: &Pages,
    requests: Vec<R>,
) -> Result<Vec<Vec<Request>>, DriverFault>
    ensures { ReadsRequests R.remaining pages.now requests.items result }
{
    if requests.len() < 2 || requests.len() > MAX_SUBMITTERS {
        return read_plans(alloc, pages, requests);
    }
    let read = |reader: R| -> Result<Vec<Request>, RequestsFault>
        ensures plan { MatchResult result
            (λ plan. GivesPlan pages.entry.now (R.remaining reader) plan.items)
            (RefusesPlan (R.remaining reader)) }
        ensures read { IfErr result (λ fault. fault ≡ RequestsFault.Read → ReadFailed reader) }
    { read_requests(alloc, reader, pages) };
    match thread::map_vec(rt, requests, &read) {
        Ok(answers) => gather(alloc, answers),
        Err(_) => Err(DriverFault::of_requests(0, RequestsFault::Memory)),
    }
}

// The plans that the files gave, in the order of the files, or the fault of the first that gave none.
fn gather(
    alloc: Global,
    answers: Vec<Result<Vec<Request>, RequestsFault>>,
) -> Result<Vec<Vec<Request>>, DriverFault>
    ensures { MatchResult result
        (λ plans. answers.items ≡ map Ok plans.items)
        (IsFirstStop answers.items) }
{
    let mut plans = Vec::new(alloc);
    for answer in answers {
        add_plan(&mut plans, answer)?;
    }
    Ok(plans)
}

// Adds the plan that the next file gave. If there is no memory for it, the fault is its file's `Memory`.
fn add_plan(
    plans: &mut Vec<Vec<Request>>,
    answer: Result<Vec<Request>, RequestsFault>,
) -> Result<(), DriverFault>
    ensures added { OnOk result (map Ok plans.new.items ≡ map Ok plans.old.items ++ answer ∷ []) }
    ensures stopped { IfErr result (Stops answer (length plans.old.items)) }
{
    let place = plans.len();
    let plan = match answer {
        Ok(plan) => plan,
        Err(fault) => return Err(DriverFault::of_requests(place, fault)),
    };
    if plans.push(plan).is_err() {
        return Err(DriverFault::of_requests(place, RequestsFault::Memory));
    }
    Ok(())
}

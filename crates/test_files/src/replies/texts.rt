//! The text of a report.
ghost use Rattle.std.specs.Prelude.{◌≡◌, ◌∷◌, List, [], false, length, map};
ghost use Rattle.like_requests.specs.Pages.{Page};
ghost use Rattle.like_promises.specs.declared.reply.Reply.TheVariants.{Refused};
ghost use Rattle.like_replies.specs.Reported.{Reported, reported};
ghost use Rattle.like_replies.specs.Rows.{IsWritable};

use super::written::{Part, assert_appended, assert_written};
use crate::files::{list, list_of, pair_of};
use like_replies::{Answer, Replies, Report};
use like_requests::Verdict;
use like_roles::{Chosen, Reply};
use std::alloc::Global;
use std::process::Abort;

/// The header row.
pub const HEADER: &str = "row,id,number,phase,answer,page,count\n";

// A report on one page of this count.
fn report(
    rt: &impl Abort,
    alloc: Global,
    rows: Vec<Vec<Answer>>,
    count: u64,
    last: &[Option<u32>],
    phases: u32,
    hot: &[Chosen],
) -> Report
    ensures { let replies = map (λ row. row.items) rows.items in
        let shown : Reported =
        record { replies = replies; counts = count ∷ []; last = last.now; hot = hot.now } in
        reported result ≡ shown }
{
    Report {
        logs: Vec::new(alloc),
        replies: Replies { rows },
        counts: list_of(rt, alloc, count),
        last: list(rt, alloc, last),
        phases,
        hot: list(rt, alloc, hot),
        places: Vec::new(alloc),
    }
}

/// The answer of a request that ran at once in this phase.
pub fn answer(phase: u32, reply: Reply) -> Answer
    ensures { result ≡ record { phase = phase; stashed = false; reply = reply } }
{
    Answer {
        phase,
        stashed: false,
        reply,
    }
}

// An answer of phase 0.
fn refused(verdict: Verdict) -> Answer
    ensures { result ≡ record { phase = 0; stashed = false; reply = Refused verdict } }
{
    answer(0, Reply::Refused(verdict))
}

// The report on four requests that are refused.
fn verdicts_report(rt: &impl Abort, alloc: Global) -> Report
    ensures { (pages : List Page) → length pages ≡ 1 → IsWritable pages (reported result) }
{
    let refused = [
        refused(Verdict::UnknownUser),
        refused(Verdict::OtherHome),
        refused(Verdict::UnknownPage),
        refused(Verdict::UnknownUser),
    ];
    let rows = pair_of(rt, alloc, list(rt, alloc, &refused), Vec::new(alloc));
    report(rt, alloc, rows, 10, &[None, None], 0, &[])
}

// The report on a like in this phase. There are this many phases, and these had hot pages.
fn like_report(rt: &impl Abort, alloc: Global, phase: u32, phases: u32, hot: &[Chosen]) -> Report
    ensures { (pages : List Page) → length pages ≡ 1 → IsWritable pages (reported result) }
{
    let first = list_of(rt, alloc, answer(phase, Reply::Liked));
    let rows = list_of(rt, alloc, first);
    report(rt, alloc, rows, 1, &[Some(0)], phases, hot)
}

// The report on a like in phase 1, and on a look that waited for phase 2.
fn stashed_report(rt: &impl Abort, alloc: Global) -> Report
    ensures { (pages : List Page) → length pages ≡ 1 → IsWritable pages (reported result) }
{
    let last = Some(0);
    let seen = Answer {
        phase: 2,
        stashed: true,
        reply: Reply::Seen { last, count: 11 },
    };
    let first = pair_of(rt, alloc, answer(1, Reply::Liked), seen);
    let rows = list_of(rt, alloc, first);
    report(rt, alloc, rows, 11, &[last, None], 4, &[])
}

#[test]
fn verdicts(rt: HostRuntime) {
    let text =
        "row,id,number,phase,answer,page,count\nreply,0,1,0,unknown-user,,\nreply,0,2,0,other-home,,\n\
         reply,0,3,0,unknown-page,,\nreply,0,4,0,unknown-user,,\npage,0,,,,a,10\n";
    let report = verdicts_report(&rt, rt.alloc());
    let file = "name,count,split\na,10,no\n";
    assert_written(&rt, rt.alloc(), file, Part::Text, report, text);
}

#[test]
fn quoted_names(rt: HostRuntime) {
    let file = "name,count,split\r\n\"x,\"\"y\"\"\",0,no\r\n";
    let text = "row,id,number,phase,answer,page,count\nreply,0,1,0,liked,,\n\
         page,0,,,,\"x,\"\"y\"\"\",1\nuser,0,,,,\"x,\"\"y\"\"\",\n";
    let report = like_report(&rt, rt.alloc(), 0, 0, &[]);
    assert_written(&rt, rt.alloc(), file, Part::Text, report, text);
}

#[test]
fn split_and_stash(rt: HostRuntime) {
    let text = "row,id,number,phase,answer,page,count\nreply,0,1,1,liked,,\nreply,0,2,2,seen,a,11\n\
         page,0,,,,a,11\nuser,0,,,,a,\n";
    let report = stashed_report(&rt, rt.alloc());
    let file = "name,count,split\na,10,yes\n";
    assert_written(&rt, rt.alloc(), file, Part::Text, report, text);
}

#[test]
fn hot_pages(rt: HostRuntime) {
    let text =
        "row,id,number,phase,answer,page,count\nreply,0,1,1,liked,,\npage,0,,,,a,1\nuser,0,,,,a,\n\
         hot,0,,3,,a,\nhot,0,,5,,a,\n";
    let hot = [Chosen { phase: 3, mask: 1 }, Chosen { phase: 5, mask: 1 }];
    let report = like_report(&rt, rt.alloc(), 1, 6, &hot);
    let file = "name,count,split\na,0,no\n";
    assert_written(&rt, rt.alloc(), file, Part::Text, report, text);
}

#[test]
fn appends(rt: HostRuntime) {
    let text =
        "before\nrow,id,number,phase,answer,page,count\nreply,0,1,0,liked,,\npage,0,,,,a,1\nuser,0,,,,a,\n";
    let report = like_report(&rt, rt.alloc(), 0, 0, &[]);
    let file = "name,count,split\na,10,no\n";
    assert_appended(&rt, rt.alloc(), file, Part::Text, report, text);
}

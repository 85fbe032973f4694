//! The cases of replays as data, with `;` between them. Each has six cells with `|` between them: its name; its workers,
//! users, places of the stash and turns, likes that make a page hot (`-`: no page is hot), and whether places are
//! written, or totals alone; the pages file; the request files, each with `&` behind it; the script (`-`: there is
//! none); and what it ends in.

/// The worked examples. Each ends in a report, whose header row is left out.
///
/// - `answers` has each answer that one submitter can have, and a look before any like.
/// - `split-and-stash`: in phase 1 a like goes into the slice and a look waits; after the merge it sees 11.
/// - `late-worker`: worker 0 has not looked at phase 2 when its end is announced, and goes through it all the same.
/// - `stash-then-like`: a like of a page that is not split overtakes a look that waits, whose user likes it then.
/// - `full-stash`: the stash of one is full, so the second look is taken in phase 2.
/// - `two-slices`: two workers like one page in their slices, and a look sees both likes.
/// - `place-rows`: of `plain-likes` and of `two-slices`, a place for each like that was added at once; then three likes in
///   phase 1, which the worker merges at once, and one place for all of them.
/// - `totals`: `answers` and the first of `place-rows` with totals alone, so without the rows of their replies.
/// - `idle-workers`: three of four workers have no submitter.
/// - `filled-stash` and `stash-with-room`: a like behind two looks that wait. Where they fill the stash it is taken after
///   the merge, else before it.
/// - `hot-choice`: two likes in phases 1 and 2 make the page hot in phase 3, where the look waits; 3 in its place would take
///   one more.
/// - `counts-turns`: three likes, in phases that the number of turns decides.
///
/// A function that takes them from here has none of their text in its proof.
pub fn examples() -> &'static str {
    EXAMPLES
}

const EXAMPLES: &str = "\
plain-likes|1 2 256 1000|name,count,split\na,10,no\n|op,user,page\nlike,0,a\nlike,1,a\nlike,0,a\n&|-|\
reply,0,1,0,liked,,\nreply,0,2,0,liked,,\nreply,0,3,0,liked,,\npage,0,,,,a,13\nuser,0,,,,a,\nuser,1,,,,a,\n;\
no-requests|1 2 256 1000|name,count,split\na,10,no\n|op,user,page\n&|-|page,0,,,,a,10\n;\
verdicts|1 2 256 1000|name,count,split\na,10,no\n|\
op,user,page\nlike,2,a\nlook,1,a\nlike,0,zz\nlike,3,zz\n&op,user,page\n&|-|\
reply,0,1,0,unknown-user,,\nreply,0,2,0,other-home,,\nreply,0,3,0,unknown-page,,\nreply,0,4,0,unknown-user,,\n\
page,0,,,,a,10\n;\
quoted-names|1 1 256 1000|name,count,split\r\n\"x,\"\"y\"\"\",0,no\r\n|\
op,user,page\r\nlike,0,\"x,\"\"y\"\"\"\r\n&|-|\
reply,0,1,0,liked,,\npage,0,,,,\"x,\"\"y\"\"\",1\nuser,0,,,,\"x,\"\"y\"\"\",\n;\
high-count|1 1 256 1000|name,count,split\na,1000000000000000000,no\n|\
op,user,page\nlike,0,a\nlike,0,a\nlook,0,a\n&|-|\
reply,0,1,0,liked,,\nreply,0,2,0,liked,,\nreply,0,3,0,seen,a,1000000000000000002\n\
page,0,,,,a,1000000000000000002\nuser,0,,,,a,\n;\
answers|1 2 256 1000|name,count,split\na,10,no\nb,7,yes\n|\
op,user,page\nlook,1,a\nlike,2,a\nlike,0,zz\nlike,1,b\nlook,1,a\n&|-|\
reply,0,1,0,seen,,10\nreply,0,2,0,unknown-user,,\nreply,0,3,0,unknown-page,,\nreply,0,4,0,liked,,\n\
reply,0,5,0,seen,b,10\npage,0,,,,a,10\npage,1,,,,b,8\nuser,1,,,,b,\n;\
totals|1 2 256 1000 - totals|name,count,split\na,10,no\nb,7,yes\n|\
op,user,page\nlook,1,a\nlike,2,a\nlike,0,zz\nlike,1,b\nlook,1,a\n&|-|\
page,0,,,,a,10\npage,1,,,,b,8\nuser,1,,,,b,\n;\
totals|1 2 256 1000 - places totals|name,count,split\na,10,no\n|op,user,page\nlike,0,a\nlike,1,a\nlike,0,a\n&|-|\
page,0,,,,a,13\nuser,0,,,,a,\nuser,1,,,,a,\nplace,0,0,0,10,a,1\nplace,0,0,0,11,a,1\nplace,0,0,0,12,a,1\n;\
split-and-stash|1 2 256 0|name,count,split\na,10,yes\n|op,user,page\nlike,0,a\nlook,0,a\n&|\
turn,index\nopen,0\nopen,0\ncoordinator,0\nworker,0\ncoordinator,0\nworker,0\nworker,0\ncoordinator,0\n\
worker,0\ncoordinator,0\nworker,0\n|reply,0,1,1,liked,,\nreply,0,2,2,seen,a,11\npage,0,,,,a,11\nuser,0,,,,a,\n;\
late-worker|2 2 256 0|name,count,split\na,0,yes\n|op,user,page\n&op,user,page\nlook,1,a\nlook,1,a\n&|\
turn,index\nopen,1\nopen,1\ncoordinator,0\nworker,0\nworker,1\ncoordinator,0\nworker,1\nworker,1\n\
coordinator,0\nworker,0\nworker,1\ncoordinator,0\ncoordinator,0\nworker,1\nworker,1\nworker,1\n|\
reply,1,1,2,seen,,0\nreply,1,2,2,seen,,0\npage,0,,,,a,0\n;\
stash-then-like|1 1 256 0|name,count,split\na,5,yes\nb,0,no\n|op,user,page\nlook,0,a\nlike,0,b\n&|\
turn,index\nopen,0\nopen,0\ncoordinator,0\nworker,0\ncoordinator,0\nworker,0\nworker,0\ncoordinator,0\n\
worker,0\ncoordinator,0\nworker,0\n|\
reply,0,1,2,seen,b,5\nreply,0,2,1,liked,,\npage,0,,,,a,5\npage,1,,,,b,1\nuser,0,,,,b,\n;\
full-stash|1 1 1 0|name,count,split\na,0,yes\n|op,user,page\nlook,0,a\nlook,0,a\n&|\
turn,index\nopen,0\nopen,0\ncoordinator,0\nworker,0\ncoordinator,0\nworker,0\nworker,0\ncoordinator,0\n\
worker,0\ncoordinator,0\nworker,0\nworker,0\n|reply,0,1,2,seen,,0\nreply,0,2,2,seen,,0\npage,0,,,,a,0\n;\
unsplit-in-split-phase|1 1 256 0|name,count,split\na,7,no\n|op,user,page\nlike,0,a\nlook,0,a\n&|\
turn,index\nopen,0\nopen,0\ncoordinator,0\nworker,0\ncoordinator,0\nworker,0\nworker,0\n|\
reply,0,1,1,liked,,\nreply,0,2,1,seen,a,8\npage,0,,,,a,8\nuser,0,,,,a,\n;\
two-slices|2 2 256 0|name,count,split\na,100,yes\n|\
op,user,page\nlike,0,a\nlook,0,a\n&op,user,page\nlike,1,a\n&|\
turn,index\nopen,0\nopen,0\nopen,1\ncoordinator,0\nworker,0\nworker,1\ncoordinator,0\nworker,0\nworker,1\n\
worker,0\ncoordinator,0\nworker,0\ncoordinator,0\nworker,0\nworker,1\ncoordinator,0\nworker,0\n|\
reply,0,1,1,liked,,\nreply,0,2,2,seen,a,102\nreply,1,1,1,liked,,\npage,0,,,,a,102\nuser,0,,,,a,\nuser,1,,,,a,\n;\
place-rows|1 2 256 1000 - places|name,count,split\na,10,no\n|op,user,page\nlike,0,a\nlike,1,a\nlike,0,a\n&|-|\
reply,0,1,0,liked,,\nreply,0,2,0,liked,,\nreply,0,3,0,liked,,\npage,0,,,,a,13\nuser,0,,,,a,\nuser,1,,,,a,\n\
place,0,0,0,10,a,1\nplace,0,0,0,11,a,1\nplace,0,0,0,12,a,1\n;\
place-rows|2 2 256 0 - places|name,count,split\na,100,yes\n|\
op,user,page\nlike,0,a\nlook,0,a\n&op,user,page\nlike,1,a\n&|\
turn,index\nopen,0\nopen,0\nopen,1\ncoordinator,0\nworker,0\nworker,1\ncoordinator,0\nworker,0\nworker,1\n\
worker,0\ncoordinator,0\nworker,0\ncoordinator,0\nworker,0\nworker,1\ncoordinator,0\nworker,0\n|\
reply,0,1,1,liked,,\nreply,0,2,2,seen,a,102\nreply,1,1,1,liked,,\npage,0,,,,a,102\nuser,0,,,,a,\nuser,1,,,,a,\n\
place,0,0,1,100,a,1\nplace,0,1,1,101,a,1\n;\
place-rows|1 1 256 0|name,count,split\na,10,yes\n|op,user,page\nlike,0,a\nlike,0,a\nlike,0,a\n&|\
turn,index\nopen,0\nopen,0\nopen,0\ncoordinator,0\nworker,0\ncoordinator,0\nworker,0\nworker,0\nworker,0\n\
coordinator,0\nworker,0\ncoordinator,0\n|\
reply,0,1,1,liked,,\nreply,0,2,1,liked,,\nreply,0,3,1,liked,,\npage,0,,,,a,13\nuser,0,,,,a,\n;\
place-rows|1 1 256 0 - places|name,count,split\na,10,yes\n|op,user,page\nlike,0,a\nlike,0,a\nlike,0,a\n&|\
turn,index\nopen,0\nopen,0\nopen,0\ncoordinator,0\nworker,0\ncoordinator,0\nworker,0\nworker,0\nworker,0\n\
coordinator,0\nworker,0\ncoordinator,0\n|\
reply,0,1,1,liked,,\nreply,0,2,1,liked,,\nreply,0,3,1,liked,,\npage,0,,,,a,13\nuser,0,,,,a,\n\
place,0,0,1,10,a,3\n;\
idle-workers|4 1 256 0|name,count,split\na,0,yes\n|op,user,page\nlike,0,a\n&|-|\
reply,0,1,1,liked,,\npage,0,,,,a,1\nuser,0,,,,a,\n;\
filled-stash|1 1 2 0|name,count,split\na,0,yes\nb,0,no\n|op,user,page\nlook,0,a\nlook,0,a\nlike,0,b\n&|\
turn,index\nopen,0\nopen,0\nopen,0\ncoordinator,0\nworker,0\ncoordinator,0\nworker,0\nworker,0\nworker,0\n\
coordinator,0\nworker,0\ncoordinator,0\nworker,0\nworker,0\nworker,0\n|\
reply,0,1,2,seen,,0\nreply,0,2,2,seen,,0\nreply,0,3,2,liked,,\npage,0,,,,a,0\npage,1,,,,b,1\nuser,0,,,,b,\n;\
stash-with-room|1 1 3 0|name,count,split\na,0,yes\nb,0,no\n|op,user,page\nlook,0,a\nlook,0,a\nlike,0,b\n&|\
turn,index\nopen,0\nopen,0\nopen,0\ncoordinator,0\nworker,0\ncoordinator,0\nworker,0\nworker,0\nworker,0\n\
coordinator,0\nworker,0\ncoordinator,0\nworker,0\nworker,0\nworker,0\n|\
reply,0,1,2,seen,b,0\nreply,0,2,2,seen,b,0\nreply,0,3,1,liked,,\npage,0,,,,a,0\npage,1,,,,b,1\nuser,0,,,,b,\n;\
hot-choice|1 1 256 0 2|name,count,split\na,0,no\n|op,user,page\nlike,0,a\nlike,0,a\nlook,0,a\n&|-|\
reply,0,1,1,liked,,\nreply,0,2,2,liked,,\nreply,0,3,4,seen,a,2\npage,0,,,,a,2\nuser,0,,,,a,\nhot,0,,3,,a,\n;\
hot-choice|1 1 256 0 3|name,count,split\na,0,no\n|op,user,page\nlike,0,a\nlike,0,a\nlook,0,a\n&|-|\
reply,0,1,1,liked,,\nreply,0,2,2,liked,,\nreply,0,3,3,seen,a,2\npage,0,,,,a,2\nuser,0,,,,a,\n;\
counts-turns|1 1 256 0|name,count,split\na,0,no\n|op,user,page\nlike,0,a\nlike,0,a\nlike,0,a\n&|-|\
reply,0,1,1,liked,,\nreply,0,2,2,liked,,\nreply,0,3,3,liked,,\npage,0,,,,a,3\nuser,0,,,,a,\n;\
counts-turns|1 1 256 1|name,count,split\na,0,no\n|op,user,page\nlike,0,a\nlike,0,a\nlike,0,a\n&|-|\
reply,0,1,0,liked,,\nreply,0,2,1,liked,,\nreply,0,3,1,liked,,\npage,0,,,,a,3\nuser,0,,,,a,\n;\
counts-turns|1 1 256 2|name,count,split\na,0,no\n|op,user,page\nlike,0,a\nlike,0,a\nlike,0,a\n&|-|\
reply,0,1,0,liked,,\nreply,0,2,0,liked,,\nreply,0,3,1,liked,,\npage,0,,,,a,3\nuser,0,,,,a,\n";

/// Replays that are refused. Each ends in a fault with its status, and writes nothing; some end in a report.
///
/// - `scripts`: as files, and then by the run.
/// - `faults-in-order`: what is told where every file and the settings are at fault, and then as each fault in turn is
///   mended.
/// - `reader-faults`: where the pages file is at fault, the request file is too.
pub fn refusals() -> &'static str {
    REFUSALS
}

const REFUSALS: &str = "\
settings|1 2 256 0|name,count,split\na,10,no\n|op,user,page\nlike,0,a\nlike,1,a\nlike,0,a\n&|-|a report;\
settings|0 0 0 0|name,count,split\na,10,no\n||-|Settings(Workers) 2;\
settings|17 2 256 1000|name,count,split\na,10,no\n|op,user,page\nlike,0,a\nlike,1,a\nlike,0,a\n&|-|\
Settings(Workers) 2;\
settings|1 0 0 0|name,count,split\na,10,no\n||-|Settings(Submitters) 2;\
settings|1 0 0 0|name,count,split\na,10,no\n|op,user,page\nlike,0,a\nlike,1,a\nlike,0,a\n&|-|Settings(Users) 2;\
settings|1 2 0 1000001|name,count,split\na,10,no\n|op,user,page\nlike,0,a\nlike,1,a\nlike,0,a\n&|-|\
Settings(Stash) 2;\
settings|1 2 256 1000001|name,count,split\na,10,no\n|op,user,page\nlike,0,a\nlike,1,a\nlike,0,a\n&|-|\
Settings(Turns) 2;\
settings|1 2 256 1000 0|name,count,split\na,10,no\n|op,user,page\nlike,0,a\nlike,1,a\nlike,0,a\n&|-|Settings(Hot) 2;\
scripts|2 2 256 1000|name,count,split\na,10,no\n|op,user,page\nlike,0,a\nlike,1,a\nlike,0,a\n&\
op,user,page\nlike,0,a\nlike,1,a\nlike,0,a\n&||Script(Line { row: 0 }) 3;\
scripts|2 2 256 1000|name,count,split\na,10,no\n|op,user,page\nlike,0,a\nlike,1,a\nlike,0,a\n&\
op,user,page\nlike,0,a\nlike,1,a\nlike,0,a\n&|turn,index\nworker,0\nfly,1\n|Script(Line { row: 2 }) 3;\
scripts|2 2 256 1000|name,count,split\na,10,no\n|op,user,page\nlike,0,a\nlike,1,a\nlike,0,a\n&\
op,user,page\nlike,0,a\nlike,1,a\nlike,0,a\n&|turn,index\nworker,0\nworker,5\n|Settings(Script { at: 1 }) 3;\
scripts|2 2 256 1000|name,count,split\na,10,no\n|op,user,page\nlike,0,a\nlike,1,a\nlike,0,a\n&\
op,user,page\nlike,0,a\nlike,1,a\nlike,0,a\n&|turn,index\nopen,2\n|Settings(Script { at: 0 }) 3;\
faults-in-order|0 2 256 1000||&&||Pages(Header) 3;\
faults-in-order|0 2 256 1000|name,count,split\na,10,no\n|&&||Requests { submitter: 0, fault: Header } 3;\
faults-in-order|0 2 256 1000|name,count,split\na,10,no\n|op,user,page\nlike,0,a\nlike,1,a\nlike,0,a\n&\
op,user,page\nlike,0,a\nlike,1,a\nlike,0,a\n&||Script(Line { row: 0 }) 3;\
faults-in-order|0 2 256 1000|name,count,split\na,10,no\n|op,user,page\nlike,0,a\nlike,1,a\nlike,0,a\n&\
op,user,page\nlike,0,a\nlike,1,a\nlike,0,a\n&|turn,index\nworker,0\n|Settings(Workers) 2;\
faults-in-order|1 2 256 1000|name,count,split\na,10,no\n|op,user,page\nlike,0,a\nlike,1,a\nlike,0,a\n&\
op,user,page\nlike,0,a\nlike,1,a\nlike,0,a\n&|turn,index\nworker,0\n|a report;\
reader-faults|1 2 256 1000|name,count,split\na,10,no\n|op,user,page\npush,0,a\n&|-|\
Requests { submitter: 0, fault: Op { row: 1 } } 3;\
reader-faults|1 2 256 1000|name,count,split\na,10,no\n|op,user,page\nlike,4294967296,a\n&|-|\
Requests { submitter: 0, fault: User { row: 1 } } 3;\
reader-faults|1 2 256 1000|name,count,split\na,10,no\n|&|-|Requests { submitter: 0, fault: Header } 3;\
reader-faults|1 2 256 1000|name,count,split\na,1,no\na,2,no\n|&|-|Pages(Duplicate { row: 2 }) 3;\
reader-faults|1 2 256 1000|name,count,split\na,1000000000000000001,no\n|&|-|Pages(Count { row: 1 }) 3;\
reader-faults|1 2 256 1000|name,count,split\na,1\n|&|-|Pages(Fields { row: 1 }) 3;\
reader-faults|1 2 256 1000|name,count,split\na,1,maybe\n|&|-|Pages(Split { row: 1 }) 3;\
reader-faults|1 2 256 1000|name,count,split\n,1,no\n|&|-|Pages(Name { row: 1 }) 3;\
reader-faults|1 2 256 1000|name,count,split\n|&|-|Pages(Empty) 3;\
reader-faults|1 2 256 1000||&|-|Pages(Header) 3";

//! Starts of the program as data.

/// Starts, with `;` between them. Each has six cells with `|` between them: its name; the files that are there, as
/// `NAME>TEXT` with `&` behind each; the words; the status; and what is written to the output and the errors, where
/// `..` means any more.
///
/// - `replays-by-the-options`: the files of `late-worker` with a request of an unknown user, by the options and the
///   script that are named: with other numbers, in another order or without the script, the requests would run in other
///   phases.
/// - `runs-files`: three submitters, each with the likes of its own user: in another order, they would be refused. And
///   `plain-likes`, which is done in phase 0 long before the coordinator has counted a million turns.
/// - `runs-with-places`, `runs-no-requests`, `runs-verdicts`, `runs-quoted-names`, `runs-from-a-high-count`: the worked
///   examples that one worker runs in phase 0, on threads.
/// - `runs-on-80-threads`: 16 workers and 64 submitters, whose file is one without requests.
/// - `writes-a-summary`: each number but the seconds. And `tells-refused-requests`: those files without a summary.
/// - `tells-no-progress`: of work that takes less than two seconds, nothing is told.
/// - `tells-two-inputs`: standard input is two files, and none is opened.
/// - `opens-in-order`: all files are opened before one is read, and the first that can't be opened is told.
///
/// A function that takes them from here has none of their text in its proof.
pub fn starts() -> &'static str {
    STARTS
}

const STARTS: &str = "\
replays-files|\
replays-p.csv>name,count,split\na,10,no\n&replays-0.csv>op,user,page\nlike,0,a\nlook,1,b\n&\
replays-1.csv>op,user,page\nlike,1,a\n&replays-2.csv>op,user,page\nlook,2,a\n&|\
replay --users 3 replays-p.csv replays-0.csv replays-1.csv replays-2.csv|0|\
row,id,number,phase,answer,page,count\nreply,0,1,0,liked,,\nreply,0,2,0,other-home,,\nreply,1,1,0,liked,,\n\
reply,2,1,0,seen,,12\npage,0,,,,a,12\nuser,0,,,,a,\nuser,1,,,,a,\n|\
likes: refused 1 of 4 requests: 0 unknown-user, 1 other-home, 0 unknown-page\n;\
replays-by-the-options|\
late-p.csv>name,count,split\na,0,yes\n&late-0.csv>op,user,page\n&\
late-1.csv>op,user,page\nlook,1,a\nlook,1,a\nlook,3,a\n&\
late-s.csv>turn,index\nopen,1\nopen,1\ncoordinator,0\nworker,0\nworker,1\ncoordinator,0\nworker,1\nworker,1\n\
coordinator,0\nworker,0\nworker,1\ncoordinator,0\ncoordinator,0\nworker,1\nworker,1\nworker,1\n&|\
replay --workers 2 --users 2 --turns 0 --script late-s.csv late-p.csv late-0.csv late-1.csv|0|\
row,id,number,phase,answer,page,count\nreply,1,1,2,seen,,0\nreply,1,2,2,seen,,0\nreply,1,3,3,unknown-user,,\n\
page,0,,,,a,0\n|\
likes: refused 1 of 3 requests: 1 unknown-user, 0 other-home, 0 unknown-page\n;\
runs-files|\
runs-p.csv>name,count,split\na,10,no\n&runs-0.csv>op,user,page\nlike,0,a\nlook,1,b\n&\
runs-1.csv>op,user,page\nlike,1,a\n&runs-2.csv>op,user,page\nlike,2,a\n&|\
run --users 3 runs-p.csv runs-0.csv runs-1.csv runs-2.csv|0|\
..page,0,,,,a,13\nuser,0,,,,a,\nuser,1,,,,a,\nuser,2,,,,a,\n|\
likes: refused 1 of 4 requests: 0 unknown-user, 1 other-home, 0 unknown-page\n;\
runs-files|\
plain-p.csv>name,count,split\na,10,no\n&plain-r.csv>op,user,page\nlike,0,a\nlike,1,a\nlike,0,a\n&|\
run --workers 1 --users 2 --turns 1000000 plain-p.csv plain-r.csv|0|\
row,id,number,phase,answer,page,count\nreply,0,1,0,liked,,\nreply,0,2,0,liked,,\nreply,0,3,0,liked,,\n\
page,0,,,,a,13\nuser,0,,,,a,\nuser,1,,,,a,\n|;\
runs-with-places|\
plain-p.csv>name,count,split\na,10,no\n&plain-r.csv>op,user,page\nlike,0,a\nlike,1,a\nlike,0,a\n&|\
run --workers 1 --users 2 --turns 1000000 --places plain-p.csv plain-r.csv|0|\
row,id,number,phase,answer,page,count\nreply,0,1,0,liked,,\nreply,0,2,0,liked,,\nreply,0,3,0,liked,,\n\
page,0,,,,a,13\nuser,0,,,,a,\nuser,1,,,,a,\n\
place,0,0,0,10,a,1\nplace,0,0,0,11,a,1\nplace,0,0,0,12,a,1\n|;\
runs-no-requests|\
none-p.csv>name,count,split\na,10,no\n&none-r.csv>op,user,page\n&|\
run --workers 1 --users 2 none-p.csv none-r.csv|0|\
row,id,number,phase,answer,page,count\npage,0,,,,a,10\n|;\
runs-verdicts|\
verdicts-p.csv>name,count,split\na,10,no\n&\
verdicts-0.csv>op,user,page\nlike,2,a\nlook,1,a\nlike,0,zz\nlike,3,zz\n&verdicts-1.csv>op,user,page\n&|\
run --workers 1 --users 2 --turns 1000000 verdicts-p.csv verdicts-0.csv verdicts-1.csv|0|\
row,id,number,phase,answer,page,count\nreply,0,1,0,unknown-user,,\nreply,0,2,0,other-home,,\n\
reply,0,3,0,unknown-page,,\nreply,0,4,0,unknown-user,,\npage,0,,,,a,10\n|\
likes: refused 4 of 4 requests: 2 unknown-user, 1 other-home, 1 unknown-page\n;\
runs-quoted-names|\
quoted-p.csv>name,count,split\r\n\"x,\"\"y\"\"\",0,no\r\n&\
quoted-r.csv>op,user,page\r\nlike,0,\"x,\"\"y\"\"\"\r\n&|\
run --workers 1 --users 1 --turns 1000000 quoted-p.csv quoted-r.csv|0|\
row,id,number,phase,answer,page,count\nreply,0,1,0,liked,,\npage,0,,,,\"x,\"\"y\"\"\",1\n\
user,0,,,,\"x,\"\"y\"\"\",\n|;\
runs-from-a-high-count|\
high-p.csv>name,count,split\na,1000000000000000000,no\n&high-r.csv>op,user,page\nlike,0,a\nlike,0,a\nlook,0,a\n&|\
run --workers 1 --users 1 --turns 1000000 high-p.csv high-r.csv|0|\
row,id,number,phase,answer,page,count\nreply,0,1,0,liked,,\nreply,0,2,0,liked,,\n\
reply,0,3,0,seen,a,1000000000000000002\npage,0,,,,a,1000000000000000002\nuser,0,,,,a,\n|;\
runs-on-80-threads|\
many.csv>name,count,split\na,10,no\n&r>op,user,page\n&|\
run --workers 16 many.csv r r r r r r r r r r r r r r r r r r r r r r r r r r r r r r r r \
r r r r r r r r r r r r r r r r r r r r r r r r r r r r r r r r|0|\
row,id,number,phase,answer,page,count\npage,0,,,,a,10\n|;\
writes-a-summary|\
summary-p.csv>name,count,split\na,10,no\n&\
summary-0.csv>op,user,page\nlike,0,a\nlook,0,a\nlike,0,a\nlook,1,a\n&\
summary-1.csv>op,user,page\nlook,3,a\nlike,9,a\nlike,9,a\nlook,1,b\n&|\
replay --summary --users 3 summary-p.csv summary-0.csv summary-1.csv|0|\
..page,0,,,,a,12\nuser,0,,,,a,\n|\
requests: 8\nliked: 2\nseen: 1\nunknown-user: 3\nother-home: 1\nunknown-page: 1\nphases: 1\n\
phases with hot pages: 0\nhot pages: 0\nreading: 0...;\
tells-refused-requests|\
refused-p.csv>name,count,split\na,10,no\n&\
refused-0.csv>op,user,page\nlike,0,a\nlook,0,a\nlike,0,a\nlook,1,a\n&\
refused-1.csv>op,user,page\nlook,3,a\nlike,9,a\nlike,9,a\nlook,1,b\n&|\
replay --users 3 refused-p.csv refused-0.csv refused-1.csv|0|\
..page,0,,,,a,12\nuser,0,,,,a,\n|\
likes: refused 5 of 8 requests: 3 unknown-user, 1 other-home, 1 unknown-page\n;\
opens-in-order|opens-bad.csv>no,header\n&|replay none-p.csv none-r.csv|3||likes: none-p.csv: read failed\n;\
opens-in-order|opens-bad.csv>no,header\n&|run opens-bad.csv none-r.csv|3||likes: none-r.csv: read failed\n;\
opens-in-order|opens-bad.csv>no,header\n&|replay opens-bad.csv opens-bad.csv none-r.csv --script none-s.csv|3||\
likes: none-r.csv: read failed\n;\
opens-in-order|opens-bad.csv>no,header\n&|replay opens-bad.csv opens-bad.csv --script none-s.csv|3||\
likes: none-s.csv: read failed\n;\
opens-in-order|opens-bad.csv>no,header\n&|replay opens-bad.csv opens-bad.csv|3||\
likes: opens-bad.csv: the header is not name,count,split\n;\
opens-in-order|opens-bad.csv>no,header\n&|replay . opens-bad.csv|3||likes: .: read failed\n;\
tells-no-progress|\
progress-p.csv>name,count,split\na,10,no\n&progress-r.csv>op,user,page\nlike,0,a\n&|\
replay --progress progress-p.csv progress-r.csv|0|\
row,id,number,phase,answer,page,count\nreply,0,1,0,liked,,\npage,0,,,,a,11\nuser,0,,,,a,\n|;\
tells-two-inputs||replay - -|2||likes: only one file can be -, which is standard input\n;\
tells-two-inputs||run p.csv - r.csv -|2||likes: only one file can be -, which is standard input\n;\
tells-two-inputs||replay p.csv - --script -|2||likes: only one file can be -, which is standard input\n;\
shows-help||replay --help|0|Runs the requests on one thread..|;\
shows-help||help replay|0|Runs the requests on one thread..|;\
shows-its-version||--version|0|likes 0.6 (logic dac8208d650f15bf)\n|;\
tells-wrong-words||walk p.csv r.csv|2||error: unrecognized subcommand 'walk'..;\
tells-wrong-words||replay --places p.csv --places r.csv|2||\
error: the argument '--places' cannot be used multiple times..";

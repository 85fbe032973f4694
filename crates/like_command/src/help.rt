//! The texts of help.

/// The program's version, which is that of the repository and its library, and the logic hash of the kit that proves it.
pub const VERSION: &str = "0.6 (logic dac8208d650f15bf)";

pub const LIKES: &str = "\
Counts likes and looks from CSV files, exactly, on several threads. Reads a file
of pages and files of requests, and prints a reply to each request, each page's
final count and each user's last like.";

pub const RUN: &str = "\
Runs the requests in parallel, with a thread for each worker and each
file. Phases, and what looks show, may differ from run to run.";

pub const REPLAY: &str = "\
Runs the requests on one thread, in rounds, and prints the same report
every time: for tests and for comparing.";

pub const WORKERS: &str = "\
Number of workers, 1 to 16. File s goes to worker s mod
N. Workers beyond the number of files stay idle. If N is
too small, each worker has more to do, and a replay may
run out of rounds";

pub const USERS: &str = "\
Number of users, 1 to 1000000, numbered from 0. Requests
of users from U on are answered unknown-user and are not
counted";

pub const STASH: &str = "\
How many looks may wait with a worker, 1 to 4096. A
worker with a full stash takes no request until the
phase ends: that costs time, but no answer is
lost";

pub const TURNS: &str = "\
How many of its turns the coordinator counts in a phase,
0 to 1000000; a replay has one in each round. If T is
small, changes of phase take more of the time. If it is
large, looks wait longer, and files that are done within
T turns are done in phase 0, where no page is split and
no look waits";

pub const HOT: &str = "\
How many likes make a page hot, 1 to 1000000. Before each
split phase, those of the first 64 pages that got H likes
or more in the last two phases become hot, and are split
as if PAGES said so. After 1024 phases with hot pages, no
page is hot any more. If H is small, looks at many pages
wait. Without this option, only PAGES says which pages
are split";

pub const PLACES: &str = "\
Appends a row to the report for each addition to a page's
count: its worker, its phase, the count it found, and how
many likes it added. With these rows every count can be
checked";

pub const TOTALS: &str = "\
Leaves the replies out of the report. The rows of pages
and users stay, and so do those that --hot and --places
add";

pub const SUMMARY: &str = "\
After the report, also writes to standard error how many
requests were liked, seen and refused, how many phases
there were, and how long it took. Without this option,
one line tells the refused requests, if there are any";

pub const PROGRESS: &str = "\
Where the work takes over two seconds, writes a line to
standard error after reading, running and writing, with
the seconds that it took";

pub const SCRIPT: &str = "\
A file of turns to take before the rounds: CSV with the
header turn,index and up to 1000000 rows
open,S         submitter S hands over its next request
worker,W       worker W takes a turn
coordinator,0  the coordinator takes a turn
After them, all requests are handed over";

pub const PAGES: &str = "\
The file of pages: CSV with the header name,count,split and
1 to 1024 rows
name   1 to 64 bytes of UTF-8, each name once
count  its likes at the start, up to 1000000000000000000
split  yes if the page is so popular that each worker should
       count its likes separately for a while, else no";

pub const REQUESTS: &str = "\
1 to 64 files of requests, of submitters 0, 1 and so on: CSV
with the header op,user,page and up to 1000000 rows each
op    like or look
user  the user's number; all requests of user u belong in
      file u mod M, where M is the number of files
page  the page's name";

pub const REPORT: &str = "\
A like adds one to the page's count and becomes its user's last like. A look
asks for its user's last like and for the page's count.

In a joined phase (0, 2, 4, ..) all requests run on the shared counts. In a
split phase (1, 3, 5, ..) each worker counts the likes of split pages on its
own, and looks at these pages wait. All other requests run as in a joined phase.
At the end of a split phase, the workers add what they counted to the shared
counts. In the next joined phase they first run the looks that waited. With
--hot, the pages that are most popular at the moment are split too.

The report is CSV with the header row,id,number,phase,answer,page,count:
  row     reply for each request, unless --totals leaves them out, then page for
          each page, then user for each user with a last like, then hot for each
          page that was hot in a phase, and with --places a place for each
          addition to a page's count
  id      of a reply, its submitter; of a page, a hot page or a place, the
          page's number; of a user, its number: all from 0
  number  of a reply, the number of the request in its file, from 1; of a place,
          the worker, from 0
  phase   of a reply, the phase in which the request ran; of a hot page, the
          phase in which it was hot; of a place, the phase of the addition
  answer  of a reply, one of the five below; of a place, the count it found
  page    of a look, the page of its user's last like at that moment, empty if
          there is none; of a page, a hot page or a place, the page's name; of a
          user, the page of its last like
  count   of a look, the count of the page that it asked for; of a page, its
          final count; of a place, how many likes were added

The answers:
  liked         the like is counted
  seen          the look is answered; a look that waited shows its user's last
                like at the moment when it ran
  unknown-user  the user's number is not below U: give a larger --users
  other-home    the user's requests belong in another file: that of user u is
                file u mod M
  unknown-page  PAGES has no such page: add it, or correct its name

If requests are refused (one of the last three answers), one line on standard
error says how many, and the status is still 0.

One of the files can be -, which is standard input.

A replay makes a round for each request of its busiest worker, and more for
looks that wait and for changes of phase, but at most 1000000. If it ends with
'not finished after 1000000 rounds', use more workers, fewer requests for each,
or run.

Memory: about 100 bytes for each request, and 16 for each user.
Time: about half a second for a million requests.

Example:
  printf 'name,count,split\\nnews,10,yes\\n' > pages.csv
  printf 'op,user,page\\nlike,0,news\\nlook,0,news\\n' > requests.csv
  likes run pages.csv requests.csv
  likes run --summary pages.csv requests.csv > report.csv
  likes run --totals pages.csv requests.csv
  likes replay --workers 1 pages.csv requests.csv
  likes replay --workers 1 --turns 0 --hot 1 pages.csv requests.csv
  likes replay --workers 1 --places pages.csv requests.csv";

pub const STATUSES: &str = "\
Use run to use all processors, and replay to get the same report every time.
Final counts and last likes are the same from both. Without any word, the
program replays a built-in example.

'likes help run' and 'likes help replay' explain the files, the options and the
report, as 'likes run --help' and 'likes replay --help' do.

Example:
  printf 'name,count,split\\nnews,10,yes\\n' > pages.csv
  printf 'op,user,page\\nlike,0,news\\nlook,0,news\\n' > requests.csv
  likes run pages.csv requests.csv

Exit statuses. A nonzero status comes with an error line:
  0  done
  2  wrong words, or not 1 to 64 request files
  3  a file is wrong or can't be read, or the output can't be written
  4  out of memory, or a thread could not be started: use fewer requests at a
     time, or replay, which needs no threads
  5  a replay is not finished after 1000000 rounds: use more workers, fewer
     requests for each, or run";

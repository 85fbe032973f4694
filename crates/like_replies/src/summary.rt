ghost use Rattle.std.specs.Prelude.{◌≡◌, ◌<◌, ◌^◌, OnOk, count_by};
ghost use Rattle.std.specs.Io.KnownBytes.{Appends};
ghost use Rattle.std.specs.Str.{bytes_eq};
ghost use Rattle.like_replies.specs.Rows.{answer_word};
ghost use Rattle.like_replies.specs.Summary.{answered, count_replies, hot_pages, is_refusal, number_line, requests_in, summary_of, summary_text};

use like_promises::{Answer, Chosen, Replies, Reply, Report};
use like_requests::Verdict;
use std::io;
use std::io::Write;

/// The numbers of a report: how many requests had each answer, how many phases there were, and how many pages were hot.
#[derive(Clone, Copy, PartialEq, Eq)]
pub struct Summary {
    pub requests: u64,
    pub refused: u64,
    pub liked: u64,
    pub seen: u64,
    pub unknown_user: u64,
    pub other_home: u64,
    pub unknown_page: u64,
    pub phases: u64,
    /// In how many phases some page was hot.
    pub hot_phases: u64,
    /// How many pages were hot in some phase.
    pub hot_pages: u64,
}

impl Summary {
    /// The summary of a report.
    pub fn of(report: &Report) -> Self
        requires { requests_in report.now.replies < 2 ^ 64 }
        ensures { result ≡ summary_of report.now }
    {
        let replies = &report.replies;
        Summary {
            requests: requests_in(replies),
            refused: refused_in(replies),
            liked: answered(replies, "liked"),
            seen: answered(replies, "seen"),
            unknown_user: answered(replies, "unknown-user"),
            other_home: answered(replies, "other-home"),
            unknown_page: answered(replies, "unknown-page"),
            phases: u64::from(report.phases) + 1,
            hot_phases: report.hot.len() as u64,
            hot_pages: hot_pages(&report.hot),
        }
    }

    /// Writes the numbers, with a line for each.
    pub fn write<W: Write>(&self, out: &mut W) -> io::Result<()>
        ensures { OnOk result (Appends (W.contents out.old) (W.contents out.new)
            (summary_text self.now)) }
    {
        write_line(out, "requests", self.requests)?;
        write_line(out, "liked", self.liked)?;
        write_line(out, "seen", self.seen)?;
        write_line(out, "unknown-user", self.unknown_user)?;
        write_line(out, "other-home", self.other_home)?;
        write_line(out, "unknown-page", self.unknown_page)?;
        write_line(out, "phases", self.phases)?;
        write_line(out, "phases with hot pages", self.hot_phases)?;
        write_line(out, "hot pages", self.hot_pages)
    }
}

// Writes a line with a name and a number.
fn write_line<W: Write>(out: &mut W, name: &str, number: u64) -> io::Result<()>
    ensures { OnOk result (Appends (W.contents out.old) (W.contents out.new)
        (number_line name.now number)) }
{
    writeln!(out, "{name}: {number}")
}

// How many requests have a reply.
fn requests_in(replies: &Replies) -> u64
    requires { requests_in replies.now < 2 ^ 64 }
    ensures { result ≡ requests_in replies.now }
{
    replies.rows.iter().map(|row| row.len() as u64).sum()
}

// How many replies have this word as their answer.
fn answered(replies: &Replies, word: &str) -> u64
    requires { answered word.now replies.now < 2 ^ 64 }
    ensures { result ≡ answered word.now replies.now }
{
    replies
        .rows
        .iter()
        .map(|row| answered_in(row, word) as u64)
        .sum()
}

// How many of a submitter's replies have this word as their answer.
fn answered_in(row: &[Answer], word: &str) -> usize
    ensures { result ≡ count_by (λ a. bytes_eq (answer_word a.reply) word.now) row.now }
{
    row.iter()
        .filter(|answer| word_of(answer.reply) == word)
        .count()
}

/// How many requests were refused.
pub fn refused_in(replies: &Replies) -> u64
    requires { count_replies is_refusal replies.now < 2 ^ 64 }
    ensures { result ≡ count_replies is_refusal replies.now }
{
    replies.rows.iter().map(|row| refused_of(row) as u64).sum()
}

// How many of a submitter's requests were refused.
fn refused_of(row: &[Answer]) -> usize
    ensures { result ≡ count_by (λ a. is_refusal a.reply) row.now }
{
    row.iter().filter(|answer| is_refusal(answer.reply)).count()
}

// Whether a reply refuses its request.
fn is_refusal(reply: Reply) -> bool
    ensures { result ≡ is_refusal reply }
{
    matches!(reply, Reply::Refused(_))
}

// The word of an answer. No accepted request is refused.
fn word_of(reply: Reply) -> &'static str
    ensures { result.now ≡ answer_word reply }
{
    match reply {
        Reply::Liked => "liked",
        Reply::Seen { .. } => "seen",
        Reply::Refused(Verdict::Accepted) => "",
        Reply::Refused(Verdict::UnknownUser) => "unknown-user",
        Reply::Refused(Verdict::OtherHome) => "other-home",
        Reply::Refused(Verdict::UnknownPage) => "unknown-page",
    }
}

// How many pages were hot in some phase.
fn hot_pages(hot: &[Chosen]) -> u64
    ensures { result ≡ hot_pages hot.now }
{
    let mask = hot.iter().fold(0u64, |mask, chosen| mask | chosen.mask);
    u64::from(mask.count_ones())
}

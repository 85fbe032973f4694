ghost use Rattle.std.specs.Prelude.{OnOk};
ghost use Rattle.std.specs.Io.KnownBytes.{Appends};
ghost use Rattle.like_replies.specs.Refusals.{kind_text, refusals_line, refused_text};

use crate::summary::Summary;
use std::io;
use std::io::Write;

/// Writes the line on the refused requests: how many there were, and why.
pub fn write_refusals<W: Write>(summary: &Summary, out: &mut W) -> io::Result<()>
    ensures { OnOk result (Appends (W.contents out.old) (W.contents out.new)
        (refusals_line summary.now)) }
{
    write_refused(out, summary.refused, summary.requests)?;
    write_kind(out, summary.unknown_user, "unknown-user", ", ")?;
    write_kind(out, summary.other_home, "other-home", ", ")?;
    write_kind(out, summary.unknown_page, "unknown-page", "\n")
}

// Writes how many of the requests were refused.
fn write_refused<W: Write>(out: &mut W, refused: u64, requests: u64) -> io::Result<()>
    ensures { OnOk result (Appends (W.contents out.old) (W.contents out.new)
        (refused_text refused requests)) }
{
    write!(out, "likes: refused {refused} of {requests} requests: ")
}

// Writes how many requests were answered with a word.
fn write_kind<W: Write>(out: &mut W, number: u64, word: &str, end: &str) -> io::Result<()>
    ensures { OnOk result (Appends (W.contents out.old) (W.contents out.new)
        (kind_text number word.now end.now)) }
{
    write!(out, "{number} {word}{end}")
}

ghost use Rattle.std.specs.Prelude.{◌≡◌, ◌<◌, ◌^◌, OnOk};
ghost use Rattle.std.specs.Io.KnownBytes.{Appends};
ghost use Rattle.like_replies.specs.Notices.{notice_of, notice_text};
ghost use Rattle.like_replies.specs.Summary.{requests_in};

use crate::refusals::write_refusals;
use crate::summary::{Summary, refused_in};
use like_promises::Report;
use std::io;
use std::io::Write;

/// A notice on a report, beside it.
#[derive(Clone, Copy, PartialEq, Eq)]
pub enum Notice {
    /// Its summary, which was asked for.
    Summed(Summary),
    /// The same numbers, for its refused requests, so that they don't go unseen.
    Refused(Summary),
}

impl Notice {
    /// The summary of a report if it is asked for, else its refused requests if there are any.
    pub fn of(report: &Report, is_asked: bool) -> Option<Self>
        requires { requests_in report.now.replies < 2 ^ 64 }
        ensures { result ≡ notice_of is_asked report.now }
    {
        if is_asked {
            return Some(Notice::Summed(Summary::of(report)));
        }
        if refused_in(&report.replies) == 0 {
            return None;
        }
        Some(Notice::Refused(Summary::of(report)))
    }

    /// Writes its text.
    pub fn write<W: Write>(&self, out: &mut W) -> io::Result<()>
        ensures { OnOk result (Appends (W.contents out.old) (W.contents out.new)
            (notice_text self.now)) }
    {
        match self {
            Notice::Summed(summary) => summary.write(out),
            Notice::Refused(summary) => write_refusals(summary, out),
        }
    }
}

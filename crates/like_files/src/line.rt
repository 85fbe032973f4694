//! The status and the line of a fault.
ghost use Rattle.std.specs.Prelude.{◌≡◌, None, IsTrue, option_map};
ghost use Rattle.like_files.specs.Lines.{ShowsLine, file_of, told};

use crate::fault::DriverFault;
use like_command::{OUT_OF_MEMORY, Options};
use like_requests::{PagesFault, RequestsFault, SettingsFault};
use like_run::ScriptFault;
use std::fmt::InlineText;
use std::io::Write;

/// The line of an output that failed.
pub const WRITE_FAILED: &str = "likes: standard output: write failed\n";

// The most bytes of what a line says of a file.
const ROOM: usize = 128;

impl DriverFault {
    /// Writes the fault's line, with the name of the file at fault from the options: an empty name where they have none.
    /// `false`: a write failed, and a part may have been written.
    pub fn line<W: Write>(&self, options: &Options, out: &mut W) -> bool
        ensures { IsTrue result
            → ShowsLine options.now self.now (W.contents out.old) (W.contents out.new) }
    {
        match self.told().1 {
            Some(line) => out.write_all(line.as_bytes()).is_ok(),
            None => {
                let (file, text) = (self.file(options), self.text());
                let text = text.as_str();
                writeln!(out, "likes: {file}: {text}").is_ok()
            }
        }
    }

    // The exit status, and the line of a fault that names no file.
    pub(crate) fn told(&self) -> (u8, Option<&'static str>)
        ensures status { result.0 ≡ (told self.now).0 }
        ensures line { option_map (λ line. line.now) result.1 ≡ (told self.now).1 }
    {
        match self {
            DriverFault::Pages(PagesFault::Memory)
            | DriverFault::Requests {
                fault: RequestsFault::Memory,
                ..
            }
            | DriverFault::Script(ScriptFault::Memory)
            | DriverFault::Memory => (4, Some(OUT_OF_MEMORY)),
            DriverFault::Settings(SettingsFault::Submitters) => {
                (2, Some("likes: between 1 and 64 request files\n"))
            }
            DriverFault::Settings(SettingsFault::Script { .. })
            | DriverFault::Pages(_)
            | DriverFault::Requests { .. }
            | DriverFault::Script(_) => (3, None),
            DriverFault::Settings(_) => (2, Some("likes: settings\n")),
            DriverFault::Start => (4, Some("likes: a thread could not be started\n")),
            DriverFault::Unfinished => (5, Some("likes: not finished after 1000000 rounds\n")),
            DriverFault::Write => (3, Some(WRITE_FAILED)),
        }
    }

    // The name of the file at fault, or nothing where there is none.
    fn file<'a>(&self, options: &'a Options) -> &'a str
        ensures { result.now ≡ file_of options.now self.now }
    {
        match self {
            DriverFault::Pages(_) => options.pages.as_str(),
            DriverFault::Requests { submitter, .. } => {
                match options.requests.get(*submitter as usize) {
                    Some(name) => name.as_str(),
                    None => "",
                }
            }
            DriverFault::Script(_) | DriverFault::Settings(SettingsFault::Script { .. }) => {
                match &options.script {
                    Some(name) => name.as_str(),
                    None => "",
                }
            }
            _ => "",
        }
    }

    // What the line says of the file.
    fn text(&self) -> InlineText<ROOM> {
        let fault = *self;
        match self {
            DriverFault::Settings(SettingsFault::Script { at }) => {
                let row = u64::from(*at) + 1;
                InlineText::of(format_args!("row {row}: {fault}"))
            }
            _ => InlineText::of(fault),
        }
    }
}

ghost use Rattle.std.specs.Prelude.{◌∷◌, [], List, None, Option};
ghost use Rattle.like_files.specs.Tries.{Tries, Try};

use crate::source::Source;
use crate::standard_input::is_input;
use std::fs;
use std::fs::Files;
use std::io::{Input, Read};

/// Opens files by their names.
pub trait Opener {
    /// Reads an open file.
    type Reader: Read + Drop;

    // What it was asked to open so far, in order, where that is known.
    ghost tries: { Self → Option (List (Try Self.Reader)) } = { λ _. None };

    /// Opens the file of this name to read it, if it can be opened.
    fn open(&mut self, name: &str) -> Option<Self::Reader>
        ensures { Tries (tries self.old) (tries self.new)
            (record { name = name.now; opened = result } ∷ []) };
}

/// Opens the files of the system, and standard input under the name `-`. It doesn't tell what it was asked to open,
/// since the kit says nothing about an opened file.
#[derive(Drop)]
pub struct Disk<'a, F: Files + Input> {
    pub files: &'a F,
}

impl<F: Files + Input> Opener for Disk<'_, F> {
    type Reader = Source<F::File, F::Reader>;

    fn open(&mut self, name: &str) -> Option<Source<F::File, F::Reader>> {
        if is_input(name) {
            return Some(Source::Input(self.files.reader()));
        }
        match fs::open(self.files, name) {
            Ok(file) => Some(Source::File(file)),
            Err(_) => None,
        }
    }
}

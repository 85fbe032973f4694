use std::io;
use std::io::Read;

/// Reads a file, or standard input.
#[derive(Drop)]
pub enum Source<F, I> {
    File(F),
    Input(I),
}

impl<F: Read, I: Read> Read for Source<F, I> {
    ghost use Rattle.like_files.specs.Source.{left_in};

    ghost remaining = { λ s. left_in F.remaining I.remaining s };

    fn read(&mut self, buf: &mut [u8]) -> io::Result<usize> {
        match self {
            Source::File(file) => file.read(buf),
            Source::Input(input) => input.read(buf),
        }
    }
}

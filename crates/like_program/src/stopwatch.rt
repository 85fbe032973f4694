//! How long the parts of a run or a replay took, and a line after each if they take long.

use like_files::{Part, Progress};
use std::io;
use std::io::Write;
use std::rt::Clock;
use std::time::{Duration, Instant};

/// How long each part took, by a clock. It tells no seconds where the clock can't be read.
#[derive(Drop)]
pub struct Stopwatch<'a, C: Clock, E: Write> {
    clock: &'a C,
    errors: &'a mut E,
    // Whether lines tell how far long work is.
    tells: bool,
    // When the first part began.
    first: Option<Instant>,
    // When the last part ended, or the first began, as long as the clock can be read.
    last: Option<Instant>,
    reading: Duration,
    running: Duration,
    writing: Duration,
}

impl<'a, C: Clock, E: Write> Stopwatch<'a, C, E> {
    /// A stopwatch whose first part begins now, and which writes onto `errors`.
    pub fn new(clock: &'a C, errors: &'a mut E) -> Self {
        let now = Instant::now(clock).ok();
        Stopwatch {
            clock,
            errors,
            tells: false,
            first: now,
            last: now,
            reading: Duration::ZERO,
            running: Duration::ZERO,
            writing: Duration::ZERO,
        }
    }

    /// From now on, writes a line for each part that ends two seconds or more after the start, if progress is asked
    /// for.
    pub fn follow(&mut self, progress: bool) {
        self.tells = progress;
    }

    /// The writer, for faults too.
    pub fn errors(&mut self) -> &mut E {
        self.errors
    }

    // The time since the last part ended.
    fn lap(&mut self) -> Duration {
        let Some(last) = self.last else {
            return Duration::ZERO;
        };
        self.last = Instant::now(self.clock).ok();
        match self.last {
            Some(now) => now.duration_since(last),
            None => Duration::ZERO,
        }
    }

    // Whether the parts that are done took two seconds or more.
    fn is_long(&self) -> bool {
        match (self.first, self.last) {
            (Some(first), Some(last)) => last.duration_since(first).as_secs() >= 2,
            _ => false,
        }
    }

    /// Writes the seconds of each part, with a line for each, where the clock could be read.
    pub fn write(&mut self) -> io::Result<()> {
        if self.last.is_none() {
            return Ok(());
        }
        self.write_line("reading", self.reading)?;
        self.write_line("running", self.running)?;
        self.write_line("writing", self.writing)
    }

    // Writes the line of a part.
    fn write_line(&mut self, part: &str, took: Duration) -> io::Result<()> {
        let (seconds, millis) = (took.as_secs(), took.subsec_millis());
        writeln!(self.errors, "{part}: {seconds}.{millis:03} seconds")
    }

    // Writes that a part is done, and which one begins.
    fn tell(&mut self, part: Part, took: Duration) -> io::Result<()> {
        let (seconds, millis) = (took.as_secs(), took.subsec_millis());
        match part {
            Part::Reading => writeln!(
                self.errors,
                "likes: running, after reading for {seconds}.{millis:03} seconds"
            ),
            Part::Running => writeln!(
                self.errors,
                "likes: writing, after running for {seconds}.{millis:03} seconds"
            ),
            Part::Writing => writeln!(
                self.errors,
                "likes: done, after writing for {seconds}.{millis:03} seconds"
            ),
        }
    }
}

impl<C: Clock, E: Write> Progress for Stopwatch<'_, C, E> {
    fn done(&mut self, part: Part) {
        let took = self.lap();
        match part {
            Part::Reading => self.reading = took,
            Part::Running => self.running = took,
            Part::Writing => self.writing = took,
        }
        if self.tells && self.is_long() {
            // Where this can't be written, the work goes on without it.
            let _ = self.tell(part, took);
        }
    }
}

// The records of a CSV file, one at a time.
ghost use Rattle.std.specs.Prelude.{◌≡◌, ◌<◌, ◌↔◌, [], Err, None, IsTrue, Some, length, map, option_map, slice_get};
ghost use Rattle.std.specs.Option.{ForSome};
ghost use Rattle.like_records.specs.Reading.{NextRecord, records_of};

use crate::fault::RecordsFault;
use csv::{ByteRecord, Reader, ReaderBuilder};
use std::alloc::Global;
use std::io::Read;
use std::marker::Model;

// How far a file has been read.
#[derive(Clone, Copy)]
enum Progress {
    // There may be more records.
    Open,
    // The last record was read.
    Ended,
    // A record could not be read.
    Failed(RecordsFault),
}

/// The records of a CSV file, one at a time, each in the memory of the one before, so that no file is held whole.
/// Fields are separated by commas, and in double quotes where they need them. A record ends with CR, LF or CRLF. Empty
/// lines are skipped, and nothing is trimmed. A header row is the first record, and records may differ in length.
#[derive(Drop)]
pub struct Records<R: Read> {
    reader: Reader<R>,
    present: ByteRecord,
    progress: Progress,
}

impl<R: Read> Model for Records<R> {
    ghost use Rattle.like_records.specs.Reading.{Reading, records_left, stopped_by, IsKept};
    ghost use Rattle.csv.specs.Reading.{source_of, reader_state};
    ghost use Rattle.csv.specs.Records.{fields_of};

    ghost Value = { Reading };

    ghost view = { λ s. record {
      left = records_left s.progress (reader_state s.reader) (source_of R.remaining s.reader);
      fields = fields_of s.present;
      stopped = stopped_by s.progress;
    } };

    ghost invariant = { λ s. IsKept s.progress s.reader (fields_of s.present) };
}

impl<R: Read> Records<R> {
    /// The records of what `reader` gives, before the first.
    pub fn new(alloc: Global, reader: R) -> Self
        ensures { result ≡ record {
          left = option_map records_of (R.remaining reader);
          fields = [];
          stopped = None;
        } }
    {
        let reader = ReaderBuilder::new()
            .has_headers(false)
            .flexible(true)
            .from_reader(alloc, reader);
        Records {
            reader,
            present: ByteRecord::new(alloc),
            progress: Progress::Open,
        }
    }

    /// Reads the next record, and says whether there was one. At the end there is none from then
    /// on, and after a fault there is the same fault from then on.
    pub fn read_next(&mut self) -> Result<bool, RecordsFault>
        ensures next { NextRecord self.old result self.new }
        ensures stays { ForSome self.old.stopped (λ fault. result ≡ Err fault) }
    {
        match self.progress {
            Progress::Open => {}
            Progress::Ended => return Ok(false),
            Progress::Failed(fault) => return Err(fault),
        }
        match self.reader.read_byte_record(&mut self.present) {
            Ok(true) => Ok(true),
            Ok(false) => {
                self.present.clear();
                self.progress = Progress::Ended;
                Ok(false)
            }
            Err(error) => {
                let fault = RecordsFault::of(error.kind());
                self.present.clear();
                self.progress = Progress::Failed(fault);
                Err(fault)
            }
        }
    }

    /// How many fields the present record has.
    pub fn field_count(&self) -> usize
        ensures { result ≡ length self.now.fields }
    {
        self.present.len()
    }

    /// The field of the present record at this place, from 0.
    pub fn field(&self, index: usize) -> &[u8]
        requires { index < length self.now.fields }
        ensures { slice_get self.now.fields index ≡ Some result.now }
    {
        match self.present.get(index) {
            Some(field) => field,
            None => unreachable!(),
        }
    }

    /// Whether the present record is of just these fields.
    pub fn fields_are(&self, texts: &[&str]) -> bool
        ensures { IsTrue result ↔ (self.now.fields ≡ map (λ text. text.now) texts.now) }
    {
        if self.field_count() != texts.len() {
            return false;
        }
        for (index, text) in texts.iter().enumerate() {
            if self.field(index) != text.as_bytes() {
                return false;
            }
        }
        true
    }
}

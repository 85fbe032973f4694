// Why a record could not be read.
ghost use Rattle.std.specs.Prelude.{◌≡◌, true};
ghost use Rattle.csv.specs.Reading.{stops_reader};
ghost use Rattle.like_records.specs.Fault.{fault_of};

use csv::ErrorKind;
use thiserror::Error;

/// Why the next record could not be read.
#[derive(Debug, Clone, Copy, PartialEq, Eq, Error)]
pub enum RecordsFault {
    /// The reader underneath failed.
    #[error("read failed")]
    Read,
    /// Memory ran out.
    #[error("out of memory")]
    Memory,
}

impl RecordsFault {
    // The fault for an error that stops a CSV reader.
    pub(crate) fn of(error: &ErrorKind) -> RecordsFault
        requires { stops_reader error.now ≡ true }
        ensures { result ≡ fault_of error.now }
    {
        match error {
            ErrorKind::Io(_) => RecordsFault::Read,
            ErrorKind::OutOfMemory => RecordsFault::Memory,
            ErrorKind::Utf8 { .. }
            | ErrorKind::UnequalLengths { .. }
            | ErrorKind::Serialize(_)
            | ErrorKind::Deserialize { .. } => unreachable!(),
        }
    }
}

// Files of records: a header, and behind it rows that are tested and taken one after another.
ghost use Rattle.std.specs.Prelude.{◌≡◌, ◌⊎◌, ◌+◌, ◌≤◌, ℕ, List, [], ◌∷◌, ◌++◌, IfErr, IfOk, MatchResult, OnOk, Some, length, map, option_map};
ghost use Rattle.std.specs.List.{AllByRecursion};
ghost use Rattle.like_records.specs.First.{FailsFirst};
ghost use Rattle.like_records.specs.Reading.{ReadFailed, records_of};
ghost use Rattle.like_records.specs.Rows.{Behind, EndsReading, Excuses, FailsSome, IsFirstFailed, IsHeadless, MadeOf, PassAll, Record, max_rows};
ghost use Rattle.like_records.specs.declared.fault.RecordsFault.{RecordsFault};

use crate::fault::RecordsFault;
use crate::records::Records;
use std::alloc::Global;
use std::io::Read;

/// The most rows that any kind of file may have.
const MAX_ROWS: u32 = 1_000_000;

/// A kind of file: how its rows are tested, and what they make.
pub trait FileKind {
    /// What the rows of a file make together.
    type Made: Drop;
    /// Why a file makes nothing.
    type Fault: Drop;

    ghost asks: { List Record → Record → Self.Fault → Type 0 };

    ghost tests: { ℕ → List Self.Fault };

    ghost fault_of: { RecordsFault → Self.Fault };

    ghost holds: { Self → Self.Made → List Record → Type 0 };

    /// The fault of a file when a record could not be read.
    fn fault(why: RecordsFault) -> Self::Fault
        ensures { result ≡ fault_of why };

    /// Adds what the present record makes as the row with this number, from 1.
    fn take<R: Read>(
        &self,
        made: &mut Self::Made,
        records: &Records<R>,
        row: u32,
    ) -> Result<(), Self::Fault>
        requires { (done : List Record) × holds self.now made.old done × (row ≡ length done + 1) }
        ensures few { OnOk result (row ≤ max_rows) }
        ensures row { (done : List Record) → holds self.now made.old done → row ≡ length done + 1
            → MatchResult result
            (λ _. AllByRecursion (asks done records.now.fields) (tests row)
            × holds self.now made.new (done ++ records.now.fields ∷ []))
            (λ why. (why ≡ fault_of RecordsFault.Memory)
            ⊎ FailsFirst (asks done records.now.fields) (tests row) why) };
}

/// Reads a file of this kind: the header, and the rows after it. If the first record isn't the header, the fault is
/// `headless`. The first row that fails a test ends it.
pub fn read_file<R: Read + Drop, K: FileKind>(
    alloc: Global,
    reader: R,
    kind: &K,
    header: &[&str],
    headless: K::Fault,
    made: K::Made,
) -> Result<K::Made, K::Fault>
    requires { K.holds kind.now made [] }
    ensures made { IfOk result (λ made. MadeOf K.asks K.tests (K.holds kind.now made)) }
    ensures file { let first = map (λ text. text.now) header.now in
        (rows : List Record) → option_map records_of (R.remaining reader) ≡ Some rows
        → MatchResult result
        (λ made. Behind first
        (λ body. PassAll K.asks K.tests body × K.holds kind.now made body) rows)
        (λ fault. Excuses K.fault_of fault ⊎ IsHeadless first headless rows fault
        ⊎ Behind first (λ body. IsFirstFailed K.asks K.tests body fault) rows) }
    ensures ends { IfErr result (λ fault. (fault ≡ headless)
        ⊎ EndsReading K.fault_of (ReadFailed reader) (FailsSome K.asks K.tests) fault) }
{
    let mut records = Records::new(alloc, reader);
    read_records(&mut records, kind, header, headless, made)
}

// Reads the header, and the rows behind it.
fn read_records<R: Read, K: FileKind>(
    records: &mut Records<R>,
    kind: &K,
    header: &[&str],
    headless: K::Fault,
    made: K::Made,
) -> Result<K::Made, K::Fault>
    requires { K.holds kind.now made [] }
    ensures made { IfOk result (λ made. MadeOf K.asks K.tests (K.holds kind.now made)) }
    ensures file { let first = map (λ text. text.now) header.now in
        (rows : List Record) → records.old.left ≡ Some rows
        → MatchResult result
        (λ made. Behind first
        (λ body. PassAll K.asks K.tests body × K.holds kind.now made body) rows)
        (λ fault. Excuses K.fault_of fault ⊎ IsHeadless first headless rows fault
        ⊎ Behind first (λ body. IsFirstFailed K.asks K.tests body fault) rows) }
    ensures ends { IfErr result (λ fault. (fault ≡ headless)
        ⊎ EndsReading K.fault_of (records.new.stopped ≡ Some RecordsFault.Read) (FailsSome K.asks K.tests) fault) }
{
    match records.read_next() {
        Ok(found) => {
            if !found || !records.fields_are(header) {
                return Err(headless);
            }
            read_rows(records, kind, made)
        }
        Err(why) => Err(K::fault(why)),
    }
}

// Reads the rows that are left.
fn read_rows<R: Read, K: FileKind>(
    records: &mut Records<R>,
    kind: &K,
    mut made: K::Made,
) -> Result<K::Made, K::Fault>
    requires { K.holds kind.now made [] }
    ensures made { IfOk result (λ made. MadeOf K.asks K.tests (K.holds kind.now made)) }
    ensures rows { (body : List Record) → records.old.left ≡ Some body
        → MatchResult result
        (λ made. PassAll K.asks K.tests body × K.holds kind.now made body)
        (λ fault. Excuses K.fault_of fault ⊎ IsFirstFailed K.asks K.tests body fault) }
    ensures ends { IfErr result
        (EndsReading K.fault_of (records.new.stopped ≡ Some RecordsFault.Read) (FailsSome K.asks K.tests)) }
{
    for row in 1..MAX_ROWS + 2 {
        match records.read_next() {
            Ok(true) => kind.take(&mut made, records, row)?,
            Ok(false) => return Ok(made),
            Err(why) => return Err(K::fault(why)),
        }
    }
    unreachable!()
}

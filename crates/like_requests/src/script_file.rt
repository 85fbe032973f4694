ghost use Rattle.std.specs.Prelude.{◌≡◌, ◌-◌, ◌<◌, ◌≤◌, IfErr, IfOk, List, MatchOption, MatchResult, Some, length, map, option_map};
ghost use Rattle.std.specs.List.{AllByRecursion};
ghost use Rattle.like_records.specs.Decimal.{decimal_value};
ghost use Rattle.like_records.specs.Reading.{ReadFailed, records_of};
ghost use Rattle.like_records.specs.First.{FailsFirst};
ghost use Rattle.like_records.specs.Rows.{Record};
ghost use Rattle.like_limits.specs.Limits.{max_entries};
ghost use Rattle.like_requests.specs.ScriptFile.{AsksEntry, AsksEntryRecord, IsEntry, IsIndex, IsScriptFault, IsScriptFile, Names, turned_of, entry_tests, fault_of, named};

use crate::script::Turned;
use like_records::{FileKind, Records, RecordsFault, decimal, read_file};
use std::alloc::Global;
use std::io::Read;
use thiserror::Error;

/// The most entries of a script.
pub const MAX_ENTRIES: u32 = 1_000_000;

/// The greatest number that a script file may give a submitter or a worker.
pub const MAX_INDEX: u64 = 4_294_967_295;

/// Why a script file has no entries. Rows count records; the header is row 0.
#[derive(Clone, Copy, Debug, PartialEq, Eq, Error)]
pub enum ScriptFault {
    /// The reader failed.
    #[error("read failed")]
    Read,
    /// The record is no entry; at row 0, the first record isn't the header, or there is none.
    #[error("row {row}: not a turn")]
    Line { row: u32 },
    /// There is a 1,000,001st record, which is an entry.
    #[error("more than 1000000 turns")]
    TooMany,
    /// Memory was refused.
    #[error("out of memory")]
    Memory,
}

// A script file.
#[derive(Drop)]
struct ScriptFile;

impl FileKind for ScriptFile {
    ghost use Rattle.std.specs.Prelude.{◌≡◌, map};
    ghost use Rattle.like_requests.specs.ScriptFile.{AsksEntryRecord, turned_of, entry_tests, fault_of};

    type Made = Vec<Turned>;

    type Fault = ScriptFault;

    ghost asks = { AsksEntryRecord };

    ghost tests = { entry_tests };

    ghost fault_of = { fault_of };

    ghost holds = { λ _ entries done. entries.items ≡ map turned_of done };

    fn fault(why: RecordsFault) -> ScriptFault
        ensures { result ≡ fault_of why }
    {
        match why {
            RecordsFault::Read => ScriptFault::Read,
            RecordsFault::Memory => ScriptFault::Memory,
        }
    }

    fn take<R: Read>(
        &self,
        entries: &mut Vec<Turned>,
        records: &Records<R>,
        row: u32,
    ) -> Result<(), ScriptFault> {
        let entry = entry_at(records, row)?;
        entries.push(entry).or(Err(ScriptFault::Memory))
    }
}

/// Reads a script file: CSV by the default settings, the header `turn,index`, and a record for each entry. The first
/// record that is no entry ends it, or else the 1,000,001st.
pub fn read_script<R: Read + Drop>(alloc: Global, reader: R) -> Result<Vec<Turned>, ScriptFault>
    ensures few { IfOk result (λ entries. length entries.items ≤ max_entries) }
    ensures file { (rows : List Record) → option_map records_of (R.remaining reader) ≡ Some rows
        → MatchResult result (λ entries. IsScriptFile rows entries.items) (IsScriptFault rows) }
    ensures read { IfErr result (λ fault. fault ≡ ScriptFault.Read → ReadFailed reader) }
{
    read_file(
        alloc,
        reader,
        &ScriptFile,
        &["turn", "index"],
        ScriptFault::Line { row: 0 },
        Vec::new(alloc),
    )
}

// The entry that the present record makes at this row.
fn entry_at<R: Read>(records: &Records<R>, row: u32) -> Result<Turned, ScriptFault>
    requires { 0 < row }
    ensures { MatchResult result
        (λ entry. AllByRecursion (AsksEntry (row - 1) records.now.fields) (entry_tests row)
        × (entry ≡ turned_of records.now.fields))
        (FailsFirst (AsksEntry (row - 1) records.now.fields) (entry_tests row)) }
{
    let Some(entry) = entry_in(records) else {
        return Err(ScriptFault::Line { row });
    };
    if row > MAX_ENTRIES {
        return Err(ScriptFault::TooMany);
    }
    Ok(entry)
}

// The entry that the present record makes, if it makes one.
fn entry_in<R: Read>(records: &Records<R>) -> Option<Turned>
    ensures { MatchOption result (¬ IsEntry records.now.fields)
        (λ entry. IsEntry records.now.fields × (entry ≡ turned_of records.now.fields)) }
{
    if records.field_count() != 2 {
        return None;
    }
    entry_named(records.field(0), records.field(1))
}

// The entry that two fields name, if they name one.
fn entry_named(turn: &[u8], index: &[u8]) -> Option<Turned>
    ensures { MatchOption result (¬ Names turn.now index.now)
        (λ entry. Names turn.now index.now × (entry ≡ named turn.now index.now)) }
{
    if turn == b"open".as_slice() {
        return Some(Turned::OpenOne(index_named(index)?));
    }
    if turn == b"worker".as_slice() {
        return Some(Turned::Worker(index_named(index)?));
    }
    if turn == b"coordinator".as_slice() && index == b"0".as_slice() {
        return Some(Turned::Coordinator);
    }
    None
}

// The number of a submitter or a worker that a field writes, if it writes one.
fn index_named(index: &[u8]) -> Option<u32>
    ensures { MatchOption result (¬ IsIndex index.now)
        (λ number. IsIndex index.now × (number ≡ decimal_value index.now)) }
{
    decimal(index, 10, MAX_INDEX).map(|number| number as u32)
}

ghost use Rattle.std.specs.Prelude.{◌≡◌, ◌+◌, ◌<◌, List, IfErr, MatchOption, MatchResult, Some, Ok, Err, bytes_eq, codes, length, map, option_map};
ghost use Rattle.std.specs.List.{AllByRecursion};
ghost use Rattle.like_records.specs.Reading.{ReadFailed, records_of};
ghost use Rattle.like_records.specs.First.{FailsFirst};
ghost use Rattle.like_requests.specs.Pages.{IsName, names};
ghost use Rattle.like_requests.specs.PagesFile.{AsksPage, AsksPageRecord, IsPagesFault, IsPagesFile, IsSplitMark, fault_of, page_of, page_tests};
ghost use Rattle.like_records.specs.Rows.{Record};

use crate::entries::{Entries, Initial};
use crate::pages::{MAX_COUNT, MAX_NAME, MAX_PAGES, Pages};
use like_records::{FileKind, Records, RecordsFault, decimal, read_file};
use std::alloc::Global;
use std::io::Read;
use std::str;
use thiserror::Error;

/// Why a pages file has no pages. Rows count records; the header is row 0.
#[derive(Clone, Copy, Debug, PartialEq, Eq, Error)]
pub enum PagesFault {
    /// The reader failed.
    #[error("read failed")]
    Read,
    /// The first record isn't the header, or there is none.
    #[error("the header is not name,count,split")]
    Header,
    #[error("row {row}: not three fields")]
    Fields { row: u32 },
    #[error("row {row}: page name is not 1 to 64 bytes of UTF-8")]
    Name { row: u32 },
    /// An earlier page has this name, byte for byte.
    #[error("row {row}: page name appears twice")]
    Duplicate { row: u32 },
    #[error("row {row}: count is not a whole number up to 1000000000000000000")]
    Count { row: u32 },
    #[error("row {row}: split is not yes or no")]
    Split { row: u32 },
    /// There is a 1,025th record, which passes all other tests.
    #[error("more than 1024 pages")]
    TooMany,
    /// No record follows the header.
    #[error("no page")]
    Empty,
    /// Memory was refused.
    #[error("out of memory")]
    Memory,
}

// A pages file.
#[derive(Drop)]
struct PagesFile {
    alloc: Global,
}

impl FileKind for PagesFile {
    ghost use Rattle.std.specs.Prelude.{◌≡◌, map};
    ghost use Rattle.like_requests.specs.PagesFile.{AsksPageRecord, fault_of, page_of, page_tests};

    type Made = Entries;

    type Fault = PagesFault;

    ghost asks = { AsksPageRecord };

    ghost tests = { page_tests };

    ghost fault_of = { fault_of };

    ghost holds = { λ _ entries done. entries ≡ map page_of done };

    fn fault(why: RecordsFault) -> PagesFault
        ensures { result ≡ fault_of why }
    {
        match why {
            RecordsFault::Read => PagesFault::Read,
            RecordsFault::Memory => PagesFault::Memory,
        }
    }

    fn take<R: Read>(
        &self,
        entries: &mut Entries,
        records: &Records<R>,
        row: u32,
    ) -> Result<(), PagesFault> {
        let (name, initial) = entry_at(records, entries, row)?;
        let added = entries.add(self.alloc, name, initial);
        added.or(Err(PagesFault::Memory))
    }
}

/// Reads a pages file: CSV by the default settings, the header `name,count,split`, and a record for each page.
/// Each record is tested in the order of `PagesFault`'s variants, and the first one that fails a test ends it.
pub fn read_pages<R: Read + Drop>(alloc: Global, reader: R) -> Result<Pages, PagesFault>
    ensures file { (rows : List Record) → option_map records_of (R.remaining reader) ≡ Some rows
        → MatchResult result (IsPagesFile rows) (IsPagesFault rows) }
    ensures read { IfErr result (λ fault. fault ≡ PagesFault.Read → ReadFailed reader) }
{
    let entries = read_file(
        alloc,
        reader,
        &PagesFile { alloc },
        &["name", "count", "split"],
        PagesFault::Header,
        Entries::new(alloc),
    )?;
    Pages::of(entries).ok_or(PagesFault::Empty)
}

// The page that the present record lists at this row, after these entries.
fn entry_at<'r, R: Read>(
    records: &'r Records<R>,
    entries: &Entries,
    row: u32,
) -> Result<(&'r str, Initial), PagesFault>
    requires { row ≡ length entries.now + 1 }
    ensures { MatchResult result
        (λ page. AllByRecursion (AsksPage (names entries.now) records.now.fields) (page_tests row)
        × (page_of records.now.fields
        ≡ record { name = page.0.now; count = page.1.count; split = page.1.split }))
        (FailsFirst (AsksPage (names entries.now) records.now.fields) (page_tests row)) }
{
    if records.field_count() != 3 {
        return Err(PagesFault::Fields { row });
    }
    let Some(name) = page_name(records.field(0)) else {
        return Err(PagesFault::Name { row });
    };
    if entries.find(name.as_bytes()).is_some() {
        return Err(PagesFault::Duplicate { row });
    }
    let Some(count) = decimal(records.field(1), 19, MAX_COUNT) else {
        return Err(PagesFault::Count { row });
    };
    let Some(split) = split_mark(records.field(2)) else {
        return Err(PagesFault::Split { row });
    };
    if row > MAX_PAGES {
        return Err(PagesFault::TooMany);
    }
    Ok((name, Initial { count, split }))
}

// The name that a field writes, if it may be a page's.
fn page_name(field: &[u8]) -> Option<&str>
    ensures { MatchOption result (¬ IsName field.now)
        (λ name. IsName field.now × (name.now ≡ field.now)) }
{
    if field.is_empty() || field.len() > MAX_NAME {
        return None;
    }
    str::from_utf8(field).ok()
}

// Whether a page is marked split, by a field that says so.
fn split_mark(field: &[u8]) -> Option<bool>
    ensures { MatchOption result
        (¬ IsSplitMark field.now)
        (λ split. IsSplitMark field.now × (split ≡ bytes_eq field.now (codes "yes"))) }
{
    match field {
        b"yes" => Some(true),
        b"no" => Some(false),
        _ => None,
    }
}

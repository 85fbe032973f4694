ghost use Rattle.std.specs.Prelude.{◌≡◌, ◌+◌, ◌-◌, ◌<◌, List, IfErr, MatchOption, MatchResult, Some, map, option_map};
ghost use Rattle.std.specs.List.{AllByRecursion};
ghost use Rattle.like_records.specs.Reading.{ReadFailed, records_of};
ghost use Rattle.like_records.specs.First.{FailsFirst};
ghost use Rattle.like_requests.specs.Pages.{number_of};
ghost use Rattle.like_requests.specs.RequestsFile.{AsksRequest, AsksRequestRecord, IsOp, IsRequestsFault, IsRequestsFile, fault_of, op_of, page_ref, request_made, request_tests};
ghost use Rattle.like_records.specs.Rows.{Record};

use crate::pages::Pages;
use crate::request::{Op, PageRef, Request};
use crate::setup::MAX_REQUESTS;
use like_records::{FileKind, Records, RecordsFault, decimal, read_file};
use std::alloc::Global;
use std::io::Read;
use thiserror::Error;

/// The greatest number that a requests file may give a user.
pub const MAX_USER: u64 = 4_294_967_295;

/// Why a requests file has no requests. Rows count records; the header is row 0.
#[derive(Clone, Copy, Debug, PartialEq, Eq, Error)]
pub enum RequestsFault {
    /// The reader failed.
    #[error("read failed")]
    Read,
    /// The first record isn't the header, or there is none.
    #[error("the header is not op,user,page")]
    Header,
    #[error("row {row}: not three fields")]
    Fields { row: u32 },
    #[error("row {row}: op is not like or look")]
    Op { row: u32 },
    #[error("row {row}: user is not a whole number up to 4294967295")]
    User { row: u32 },
    /// There is a 1,000,001st record, which passes all other tests.
    #[error("more than 1000000 requests")]
    TooMany,
    /// Memory was refused.
    #[error("out of memory")]
    Memory,
}

// A requests file, where these are the pages.
#[derive(Drop)]
struct RequestsFile<'p> {
    pages: &'p Pages,
}

impl FileKind for RequestsFile<'_> {
    ghost use Rattle.std.specs.Prelude.{◌≡◌, map};
    ghost use Rattle.like_requests.specs.RequestsFile.{AsksRequestRecord, fault_of, request_made, request_tests};

    type Made = Vec<Request>;

    type Fault = RequestsFault;

    ghost asks = { AsksRequestRecord };

    ghost tests = { request_tests };

    ghost fault_of = { fault_of };

    ghost holds = { λ file requests done. requests.items ≡ map (request_made file.pages.now) done };

    fn fault(why: RecordsFault) -> RequestsFault
        ensures { result ≡ fault_of why }
    {
        match why {
            RecordsFault::Read => RequestsFault::Read,
            RecordsFault::Memory => RequestsFault::Memory,
        }
    }

    fn take<R: Read>(
        &self,
        requests: &mut Vec<Request>,
        records: &Records<R>,
        row: u32,
    ) -> Result<(), RequestsFault> {
        let request = request_at(records, self.pages, row)?;
        requests.push(request).or(Err(RequestsFault::Memory))
    }
}

/// Reads a submitter's requests file: CSV by the default settings, the header `op,user,page`, and a record for each
/// request. Each record is tested in the order of `RequestsFault`'s variants, and the first one that fails a test ends
/// it. A page that is not in `pages` is no fault.
pub fn read_requests<R: Read + Drop>(
    alloc: Global,
    reader: R,
    pages: &Pages,
) -> Result<Vec<Request>, RequestsFault>
    ensures file { (rows : List Record) → option_map records_of (R.remaining reader) ≡ Some rows
        → MatchResult result
        (λ requests. IsRequestsFile pages.now rows requests.items) (IsRequestsFault rows) }
    ensures read { IfErr result (λ fault. fault ≡ RequestsFault.Read → ReadFailed reader) }
{
    read_file(
        alloc,
        reader,
        &RequestsFile { pages },
        &["op", "user", "page"],
        RequestsFault::Header,
        Vec::new(alloc),
    )
}

// The request that the present record makes at this row.
fn request_at<R: Read>(
    records: &Records<R>,
    pages: &Pages,
    row: u32,
) -> Result<Request, RequestsFault>
    requires { 0 < row }
    ensures { MatchResult result
        (λ request. AllByRecursion (AsksRequest (row - 1) records.now.fields) (request_tests row)
        × (request ≡ request_made pages.now records.now.fields))
        (FailsFirst (AsksRequest (row - 1) records.now.fields) (request_tests row)) }
{
    if records.field_count() != 3 {
        return Err(RequestsFault::Fields { row });
    }
    let Some(op) = op_named(records.field(0)) else {
        return Err(RequestsFault::Op { row });
    };
    let Some(user) = decimal(records.field(1), 10, MAX_USER) else {
        return Err(RequestsFault::User { row });
    };
    if row > MAX_REQUESTS {
        return Err(RequestsFault::TooMany);
    }
    Ok(Request {
        op,
        user: user as u32,
        page: page_named(pages, records.field(2)),
    })
}

// The page that a field names.
fn page_named(pages: &Pages, field: &[u8]) -> PageRef
    ensures { result ≡ page_ref (number_of pages.now field.now) }
{
    match pages.find(field) {
        Some(number) => PageRef::Known(number),
        None => PageRef::Unknown,
    }
}

// The operation that a field names.
fn op_named(field: &[u8]) -> Option<Op>
    ensures { MatchOption result (¬ IsOp field.now)
        (λ op. IsOp field.now × (op ≡ op_of field.now)) }
{
    match field {
        b"like" => Some(Op::Like),
        b"look" => Some(Op::Look),
        _ => None,
    }
}

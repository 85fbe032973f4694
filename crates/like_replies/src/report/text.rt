ghost use Rattle.std.specs.Prelude.{◌≡◌, if◌then◌else◌, true, [], IfErr, IfOk, OnOk, length, map};
ghost use Rattle.like_promises.specs.Collected.{rows_of};
ghost use Rattle.like_promises.specs.places.Places.{lists_in};
ghost use Rattle.like_replies.specs.Output.{TellsOutput, Writes};
ghost use Rattle.like_replies.specs.PlaceRows.{place_rows, text_of};
ghost use Rattle.like_replies.specs.Reported.{reported};
ghost use Rattle.like_replies.specs.Rows.{IsWritable, report_rows, rows_text};
ghost use Rattle.like_replies.specs.declared.write_fault.WriteFault.TheVariants.{Memory};

use crate::extent::Extent;
use crate::output::Output;
use crate::report::names::Names;
use crate::report::section::Section;
use crate::report::sections::{asked_sections, place_sections, report_sections};
use crate::report::sheet::Sheet;
use crate::report::sheets::{room_for, sheets_with, write_rows, write_rows_in_parallel};
use crate::write_fault::WriteFault;
use like_promises::{Answer, Report};
use like_requests::Pages;
use std::alloc::Global;
use std::marker::Model;
use std::thread::Threads;

/// The text of a report, or of its totals alone, and behind it the rows of its places, if they are asked for. It is
/// divided into sections, which are made when they are written. After a fault the front of it may have been written.
#[derive(Drop)]
pub struct Text<'a> {
    names: Names<'a>,
    report: Vec<Section<'a>>,
    places: Vec<Section<'a>>,
}

impl<'a> Model for Text<'a> {
    ghost use Rattle.std.specs.Prelude.{◌++◌, ℕ, All, List};
    ghost use Rattle.like_replies.specs.Rows.{rows_text};
    ghost use Rattle.like_replies.specs.Sections.{HasRows, rows_in};

    ghost Value = { List ℕ };

    ghost view = { λ t. rows_text (rows_in t.names t.report.items) ++ rows_text (rows_in t.names t.places.items) };

    ghost invariant = { λ t. All (HasRows t.names) t.report.items × All (HasRows t.names) t.places.items };
}

impl<'a> Text<'a> {
    /// The text of this extent of a report.
    pub fn new(
        alloc: Global,
        extent: Extent,
        report: &'a Report,
        pages: &'a Pages,
    ) -> Result<Text<'a>, WriteFault>
        requires writable { IsWritable pages.now (reported report.now) }
        requires placed { extent.places ≡ true → length report.now.places.items ≡ length pages.now }
        ensures text { IfOk result (λ text. text ≡ text_of extent pages.now report.now) }
        ensures memory { IfErr result (λ fault. fault ≡ Memory) }
    {
        let names = Names::new(alloc, pages)?;
        let replies = shown_replies(extent.totals, report);
        let shown = report_sections(alloc, replies, report)?;
        let places = asked_sections(alloc, extent.places, names.len(), &report.places)?;
        Ok(Text {
            names,
            report: shown,
            places,
        })
    }

    /// Writes it, one section after the other. All memory is taken before the first byte is written.
    pub fn write<W: Output>(&self, alloc: Global, out: &mut W) -> Result<(), WriteFault>
        ensures written { Writes (W.held out.old) (W.held out.new) result self.now }
        ensures flushed { OnOk result (W.is_flushed out.new) }
        ensures told { TellsOutput W.has_failed out.old out.new result }
    {
        let mut sheet = Sheet::with_room(alloc, self.room())?;
        write_rows(&self.names, &self.report, &mut sheet, out)?;
        write_rows(&self.names, &self.places, &mut sheet, out)
    }

    /// Writes it, with sections made in parallel. A thread that can't be started is no fault: the caller's own does its
    /// work.
    pub fn write_in_parallel<T: Threads + Sync, W: Output>(
        &self,
        rt: &T,
        alloc: Global,
        out: &mut W,
    ) -> Result<(), WriteFault>
        ensures written { Writes (W.held out.old) (W.held out.new) result self.now }
        ensures flushed { OnOk result (W.is_flushed out.new) }
        ensures told { TellsOutput W.has_failed out.old out.new result }
    {
        let count = self.report.len().max(self.places.len());
        let mut sheets = sheets_with(alloc, count, self.room())?;
        write_rows_in_parallel(rt, &self.names, &self.report, &mut sheets, out)?;
        write_rows_in_parallel(rt, &self.names, &self.places, &mut sheets, out)
    }

    // Room for the text of any of its sections.
    fn room(&self) -> usize {
        room_for(&self.names, &self.report).max(room_for(&self.names, &self.places))
    }
}

// The replies of a report, or none with totals alone.
fn shown_replies(totals: bool, report: &Report) -> &[Vec<Answer>]
    ensures { map (λ row. row.items) result.now
        ≡ (if totals then [] else rows_of report.now.replies) }
{
    if totals {
        return &[];
    }
    &report.replies.rows
}

/// Writes the text of a report, without places. After a fault the front of it may have been written.
pub fn write_report<W: Output>(
    alloc: Global,
    report: &Report,
    pages: &Pages,
    out: &mut W,
) -> Result<(), WriteFault>
    requires { IsWritable pages.now (reported report.now) }
    ensures written { Writes (W.held out.old) (W.held out.new) result
        (rows_text (report_rows pages.now (reported report.now))) }
    ensures flushed { OnOk result (W.is_flushed out.new) }
    ensures told { TellsOutput W.has_failed out.old out.new result }
{
    let extent = Extent {
        totals: false,
        places: false,
    };
    Text::new(alloc, extent, report, pages)?.write(alloc, out)
}

/// Writes a row for each place of each page, with no header. After a fault the front of it may have been written.
pub fn write_places<W: Output>(
    alloc: Global,
    report: &Report,
    pages: &Pages,
    out: &mut W,
) -> Result<(), WriteFault>
    requires { length report.now.places.items ≡ length pages.now }
    ensures written { Writes (W.held out.old) (W.held out.new) result
        (rows_text (place_rows pages.now (lists_in report.now.places.items))) }
    ensures flushed { OnOk result (W.is_flushed out.new) }
    ensures told { TellsOutput W.has_failed out.old out.new result }
{
    let names = Names::new(alloc, pages)?;
    let sections = place_sections(alloc, names.len(), &report.places)?;
    let mut sheet = Sheet::with_room(alloc, room_for(&names, &sections))?;
    write_rows(&names, &sections, &mut sheet, out)
}

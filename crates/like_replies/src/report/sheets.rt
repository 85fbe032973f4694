ghost use Rattle.std.specs.Prelude.{◌≡◌, ◌<◌, ◌≤◌, ℕ, All, IfOk, List, MatchResult, Ok, OnOk, Some, length, map, max, min, slice_get, take};
ghost use Rattle.std.specs.List.{flat_map};
ghost use Rattle.std.specs.Io.KnownBytes.{Appends, Keeps};
ghost use Rattle.like_replies.specs.Output.{HasBegun, TellsOutput, Writes};
ghost use Rattle.like_replies.specs.Rows.{rows_text};
ghost use Rattle.like_replies.specs.Sections.{HasRows, rows_in, section_rows};
ghost use Rattle.like_replies.specs.declared.report.section.Section.{Section};

use crate::output::Output;
use crate::report::names::Names;
use crate::report::section::{Section, add_section};
use crate::report::sheet::Sheet;
use crate::write_fault::WriteFault;
use std::alloc::{AllocError, Global};
use std::thread;
use std::thread::Threads;

// How many sections are made in parallel.
const AT_ONCE: usize = 8;

/// Room for the text of any of these sections.
pub fn room_for(names: &Names, sections: &[Section]) -> usize {
    let longest = names.longest();
    sections.iter().fold(0, |room: usize, section| {
        room.max(section.room(longest))
    })
}

/// Sheets with this much room, one for each of so many sections, but at least one and at most eight.
pub fn sheets_with(
    alloc: Global,
    count: usize,
    room: usize,
) -> Result<Vec<Result<Sheet, AllocError>>, AllocError>
    ensures { IfOk result (λ sheets. length sheets.items ≡ max 1 (min count 8)) }
{
    let count = count.clamp(1, AT_ONCE);
    let mut sheets = Vec::with_capacity(alloc, count)?;
    for _sheet in 0..count {
        sheets.push(Ok(Sheet::with_room(alloc, room)?))?;
    }
    Ok(sheets)
}

/// Writes the rows of sections by a sheet that has room for each.
pub fn write_rows<W: Output>(
    names: &Names,
    sections: &[Section],
    sheet: &mut Sheet,
    out: &mut W,
) -> Result<(), WriteFault>
    requires { All (HasRows names.now) sections.now }
    ensures written { Writes (W.held out.old) (W.held out.new) result
        (rows_text (rows_in names.now sections.now)) }
    ensures flushed { OnOk result (W.is_flushed out.new) }
    ensures told { TellsOutput W.has_failed out.old out.new result }
{
    for section in sections {
        sheet.clear();
        add_section(sheet, names, section)?;
        sheet.write(out)?;
    }
    flush(out)
}

/// Writes sections by these sheets, as many in parallel as there are sheets.
pub fn write_rows_in_parallel<T: Threads + Sync, W: Output>(
    rt: &T,
    names: &Names,
    sections: &[Section],
    sheets: &mut [Result<Sheet, AllocError>],
    out: &mut W,
) -> Result<(), WriteFault>
    requires has { All (HasRows names.now) sections.now }
    requires some { 0 < length sheets.old }
    ensures written { Writes (W.held out.old) (W.held out.new) result
        (rows_text (rows_in names.now sections.now)) }
    ensures flushed { OnOk result (W.is_flushed out.new) }
    ensures told { TellsOutput W.has_failed out.old out.new result }
    ensures sheets { length sheets.new ≡ length sheets.old }
{
    for group in sections.chunks(sheets.len()) {
        write_group(rt, names, group, sheets, out)?;
    }
    flush(out)
}

// Writes the rows of a few sections, which are made in parallel.
fn write_group<T: Threads + Sync, W: Output>(
    rt: &T,
    names: &Names,
    group: &[Section],
    sheets: &mut [Result<Sheet, AllocError>],
    out: &mut W,
) -> Result<(), WriteFault>
    requires has { All (HasRows names.now) group.now }
    requires enough { length group.now ≤ length sheets.old }
    ensures written { Writes (W.held out.old) (W.held out.new) result
        (rows_text (rows_in names.now group.now)) }
    ensures told { TellsOutput W.has_failed out.old out.new result }
    ensures sheets { length sheets.new ≡ length sheets.old }
{
    let made = |at: usize, sheet: &mut Result<Sheet, AllocError>|
        requires { (at < length group.now) × All (HasRows names.now) group.now }
        ensures { (section : Section) → slice_get group.entry.now at ≡ Some section
            → IfOk sheet.new (λ text. text ≡ rows_text (section_rows names.entry.now section)) }
    { make(sheet, names, &group[at]) };
    let (sheets, _) = sheets.split_at_mut(group.len());
    thread::for_each_mut(rt, sheets, AT_ONCE, &made);
    write_all(out, sheets)
}

// Makes the text of a section on a sheet, or leaves none where there is no room for it.
fn make(sheet: &mut Result<Sheet, AllocError>, names: &Names, section: &Section)
    requires { HasRows names.now section.now }
    ensures { IfOk sheet.new (λ text. text ≡ rows_text (section_rows names.now section.now)) }
{
    let Ok(text) = sheet else {
        return;
    };
    text.clear();
    if add_section(text, names, section).is_err() {
        *sheet = Err(AllocError);
    }
}

// Writes the text of the sheets, in their order, up to the first that could not be made.
fn write_all<W: Output>(out: &mut W, sheets: &[Result<Sheet, AllocError>]) -> Result<(), WriteFault>
    ensures written { MatchResult result
        (λ _. (texts : List (List ℕ)) × (sheets.now ≡ map Ok texts)
        × Appends (W.held out.old) (W.held out.new) (flat_map (λ text. text) texts))
        (λ _. (texts : List (List ℕ)) × (count : ℕ) × (take count sheets.now ≡ map Ok texts)
        × HasBegun (W.held out.old) (W.held out.new) (flat_map (λ text. text) texts)) }
    ensures told { TellsOutput W.has_failed out.old out.new result }
{
    for sheet in sheets {
        match sheet {
            Ok(sheet) => sheet.write(out)?,
            Err(_) => return Err(WriteFault::Memory),
        }
    }
    Ok(())
}

// Flushes the writer.
fn flush<W: Output>(out: &mut W) -> Result<(), WriteFault>
    ensures kept { Keeps (W.held out.old) (W.held out.new) }
    ensures flushed { OnOk result (W.is_flushed out.new) }
    ensures told { TellsOutput W.has_failed out.old out.new result }
{
    match out.flush_all() {
        Ok(()) => Ok(()),
        Err(_) => Err(WriteFault::Write),
    }
}

//! What `stat --map` prints: a character for each extent.
ghost use Rattle.std.specs.Prelude.{◌≡◌, ◌≤◌, ◌<◌, ◌*◌, OnOk, flat_map, length};
ghost use Rattle.std.specs.Io.KnownBytes.{Appends};
ghost use Rattle.cs_tools.specs.ExtentMaps.{eighths, line_text, map_text, mark_of, mark_text, row_count, row_in, rows_before};

use cs_inspect::ExtentUse;
use std::io;
use std::io::Write;

/// How many extents a row has.
pub const ROW: usize = 64;

/// Prints the map of these extents of so many pages, 64 a line, and what its characters mean.
pub fn print_map<W: Write>(writer: &mut W, pages: usize, uses: &[ExtentUse]) -> io::Result<()>
    requires some { 1 ≤ pages }
    requires short { pages ≤ 65535 }
    requires few { length uses.now ≤ 7680 }
    ensures { OnOk result (Appends (W.contents writer.old) (W.contents writer.new) (map_text pages uses.now)) }
{
    print_rows(writer, pages, uses)?;
    writeln!(
        writer,
        ". empty, 0 to 8 eighths of its pages live, r runs of the index, ! a header cannot be read"
    )
}

/// The rows of the map.
fn print_rows<W: Write>(writer: &mut W, pages: usize, uses: &[ExtentUse]) -> io::Result<()>
    requires some { 1 ≤ pages }
    requires short { pages ≤ 65535 }
    requires few { length uses.now ≤ 7680 }
    ensures { OnOk result (Appends (W.contents writer.old) (W.contents writer.new) (rows_before pages (row_count uses.now) uses.now)) }
{
    for number in 0..uses.len().div_ceil(ROW) {
        print_row(writer, pages, row_in(uses, number))?;
    }
    Ok(())
}

/// The row of this number: 64 extents, or fewer if it is the last one.
fn row_in(uses: &[ExtentUse], number: usize) -> &[ExtentUse]
    requires there { 64 * number < length uses.now }
    requires few { length uses.now ≤ 7680 }
    ensures { result.now ≡ row_in number uses.now }
{
    let start = ROW * number;
    let end = (start + ROW).min(uses.len());
    &uses[start..end]
}

/// A row of the map, and the end of its line.
fn print_row<W: Write>(writer: &mut W, pages: usize, row: &[ExtentUse]) -> io::Result<()>
    requires some { 1 ≤ pages }
    requires short { pages ≤ 65535 }
    ensures { OnOk result (Appends (W.contents writer.old) (W.contents writer.new) (line_text pages row.now)) }
{
    print_marks(writer, pages, row)?;
    writeln!(writer)
}

/// The characters of a row.
fn print_marks<W: Write>(writer: &mut W, pages: usize, row: &[ExtentUse]) -> io::Result<()>
    requires some { 1 ≤ pages }
    requires short { pages ≤ 65535 }
    ensures { OnOk result (Appends (W.contents writer.old) (W.contents writer.new) (flat_map (mark_text pages) row.now)) }
{
    for used in row {
        print_mark(writer, pages, *used)?;
    }
    Ok(())
}

/// The character of an extent.
fn print_mark<W: Write>(writer: &mut W, pages: usize, used: ExtentUse) -> io::Result<()>
    requires some { 1 ≤ pages }
    requires short { pages ≤ 65535 }
    ensures { OnOk result (Appends (W.contents writer.old) (W.contents writer.new) (mark_text pages used)) }
{
    writer.write_all(&[mark_of(pages, used)])
}

/// The character of an extent of so many pages.
fn mark_of(pages: usize, used: ExtentUse) -> u8
    requires some { 1 ≤ pages }
    requires short { pages ≤ 65535 }
    ensures { result ≡ mark_of pages used }
{
    if used.unreadable > 0 {
        return b'!';
    }
    if used.holds_runs {
        return b'r';
    }
    if used.pointer == 0 {
        return b'.';
    }
    b'0' + eighths(pages, used.live)
}

/// How many eighths so many of an extent's pages are, rounded down, and eight at most.
fn eighths(pages: usize, some: usize) -> u8
    requires some { 1 ≤ pages }
    requires short { pages ≤ 65535 }
    ensures eighths { result ≡ eighths pages some }
    ensures most { result ≤ 8 }
{
    if some >= pages {
        return 8;
    }
    (8 * some / pages) as u8
}

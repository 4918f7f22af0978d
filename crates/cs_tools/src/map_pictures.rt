//! What `stat --map-svg` draws: a bar for each extent.
ghost use Rattle.std.specs.Prelude.{◌≡◌, ◌≤◌, ◌<◌, ◌*◌, ◌+◌, OnOk, flat_map, length};
ghost use Rattle.std.specs.Io.KnownBytes.{Appends};
ghost use Rattle.std.specs.List.{enumerate_from};
ghost use Rattle.cs_tools.specs.MapPictures.{bar_text, pixels, extent_text, head_text, key_line, key_text, label_text, lower_colour, lower_pages, number_line, part_text, picture_text, rect_line, top_of, word_line};

use crate::extent_maps::ROW;
use cs_inspect::ExtentUse;
use std::io;
use std::io::Write;

/// Draws these extents of so many pages as a picture in SVG: a bar for each, 64 a row, in colours for what lives there,
/// what is dead and what is empty.
pub fn draw_map<W: Write>(writer: &mut W, pages: usize, uses: &[ExtentUse]) -> io::Result<()>
    requires some { 1 ≤ pages }
    requires short { pages ≤ 65535 }
    requires few { length uses.now ≤ 7680 }
    ensures { OnOk result (Appends (W.contents writer.old) (W.contents writer.new) (picture_text pages uses.now)) }
{
    draw_head(writer, 40 + 72 * uses.len().div_ceil(ROW))?;
    draw_key(writer)?;
    draw_extents(writer, pages, uses)?;
    writeln!(writer, "</svg>")
}

/// The beginning of a picture that is so many pixels high.
fn draw_head<W: Write>(writer: &mut W, height: usize) -> io::Result<()>
    ensures { OnOk result (Appends (W.contents writer.old) (W.contents writer.new) (head_text height)) }
{
    writeln!(
        writer,
        "<svg xmlns='http://www.w3.org/2000/svg' version='1.1' width='808' height='{height}' font-family='sans-serif' font-size='12'><rect width='808' height='100%' fill='white'/>"
    )
}

/// What the colours mean.
fn draw_key<W: Write>(writer: &mut W) -> io::Result<()>
    ensures { OnOk result (Appends (W.contents writer.old) (W.contents writer.new) key_text) }
{
    draw_meaning(writer, 40, "steelblue", "live")?;
    draw_meaning(writer, 110, "orange", "dead")?;
    draw_meaning(writer, 180, "lightgrey", "empty")?;
    draw_meaning(writer, 260, "seagreen", "runs of the index")?;
    draw_meaning(writer, 400, "crimson", "a header cannot be read")
}

/// A colour, and what it means.
fn draw_meaning<W: Write>(writer: &mut W, left: usize, colour: &str, word: &str) -> io::Result<()>
    requires { left ≤ 808 }
    ensures { OnOk result (Appends (W.contents writer.old) (W.contents writer.new) (key_line left colour.now word.now)) }
{
    draw_rect(writer, left, 10, 10, colour)?;
    draw_word(writer, left + 14, 19, word)
}

/// The extents, each with its number.
fn draw_extents<W: Write>(writer: &mut W, pages: usize, uses: &[ExtentUse]) -> io::Result<()>
    requires some { 1 ≤ pages }
    requires short { pages ≤ 65535 }
    requires few { length uses.now ≤ 7680 }
    ensures { OnOk result (Appends (W.contents writer.old) (W.contents writer.new) (flat_map (extent_text pages) (enumerate_from 0 uses.now))) }
{
    for number in 0..uses.len() {
        draw_extent(writer, pages, number, uses[number])?;
    }
    Ok(())
}

/// The extent of this number.
fn draw_extent<W: Write>(
    writer: &mut W,
    pages: usize,
    number: usize,
    used: ExtentUse,
) -> io::Result<()>
    requires some { 1 ≤ pages }
    requires short { pages ≤ 65535 }
    requires few { number < 7680 }
    ensures { OnOk result (Appends (W.contents writer.old) (W.contents writer.new) (extent_text pages (number, used))) }
{
    let lower = pixels(pages, lower_pages(pages, used));
    let given = lower.max(pixels(pages, used.pointer));
    draw_label(writer, number)?;
    draw_bar(writer, number, lower_colour(used), lower, given)
}

/// The number of this extent, if it is the first one of a row.
fn draw_label<W: Write>(writer: &mut W, number: usize) -> io::Result<()>
    requires { number < 7680 }
    ensures { OnOk result (Appends (W.contents writer.old) (W.contents writer.new) (label_text number)) }
{
    if number % ROW == 0 {
        draw_number(writer, 4, top_of(number) + 36, number)
    } else {
        Ok(())
    }
}

/// The bar of this extent: so many pixels of it in this colour, and what is given up to so many.
fn draw_bar<W: Write>(
    writer: &mut W,
    number: usize,
    colour: &str,
    lower: usize,
    given: usize,
) -> io::Result<()>
    requires few { number < 7680 }
    requires lower { lower ≤ 64 }
    requires given { given ≤ 64 }
    ensures { OnOk result (Appends (W.contents writer.old) (W.contents writer.new) (bar_text number colour.now lower given)) }
{
    draw_part(writer, number, colour, 0, lower)?;
    draw_part(writer, number, "orange", lower, given)?;
    draw_part(writer, number, "lightgrey", given, 64)
}

/// The part of the bar of this extent from so many pixels above its foot to so many, unless it has none.
fn draw_part<W: Write>(
    writer: &mut W,
    number: usize,
    colour: &str,
    from: usize,
    to: usize,
) -> io::Result<()>
    requires few { number < 7680 }
    requires within { to ≤ 64 }
    ensures { OnOk result (Appends (W.contents writer.old) (W.contents writer.new) (part_text number colour.now from to)) }
{
    if from < to {
        let left = 40 + 12 * (number % ROW);
        draw_rect(writer, left, top_of(number) + (64 - to), to - from, colour)
    } else {
        Ok(())
    }
}

/// A rectangle.
fn draw_rect<W: Write>(
    writer: &mut W,
    left: usize,
    top: usize,
    height: usize,
    colour: &str,
) -> io::Result<()>
    ensures { OnOk result (Appends (W.contents writer.old) (W.contents writer.new) (rect_line left top height colour.now)) }
{
    writeln!(
        writer,
        "<rect x='{left}' y='{top}' width='10' height='{height}' fill='{colour}'/>"
    )
}

/// A word.
fn draw_word<W: Write>(writer: &mut W, left: usize, bottom: usize, word: &str) -> io::Result<()>
    ensures { OnOk result (Appends (W.contents writer.old) (W.contents writer.new) (word_line left bottom word.now)) }
{
    writeln!(writer, "<text x='{left}' y='{bottom}'>{word}</text>")
}

/// A number.
fn draw_number<W: Write>(writer: &mut W, left: usize, bottom: usize, n: usize) -> io::Result<()>
    ensures { OnOk result (Appends (W.contents writer.old) (W.contents writer.new) (number_line left bottom n)) }
{
    writeln!(writer, "<text x='{left}' y='{bottom}'>{n}</text>")
}

/// Where the bar of this extent begins, in pixels from the top.
fn top_of(number: usize) -> usize
    requires { number < 7680 }
    ensures top { result ≡ top_of number }
    ensures small { result ≤ 8680 }
{
    40 + 72 * (number / ROW)
}

/// How many pixels so many of an extent's pages are, rounded up.
fn pixels(pages: usize, some: usize) -> usize
    requires some { 1 ≤ pages }
    requires short { pages ≤ 65535 }
    ensures pixels { result ≡ pixels pages some }
    ensures most { result ≤ 64 }
{
    if some >= pages {
        return 64;
    }
    (64 * some + (pages - 1)) / pages
}

/// How many pages the lower part of an extent's bar stands for.
fn lower_pages(pages: usize, used: ExtentUse) -> usize
    ensures { result ≡ lower_pages pages used }
{
    if used.unreadable > 0 {
        return pages;
    }
    if used.holds_runs {
        used.pointer
    } else {
        used.live
    }
}

/// The colour of the lower part of an extent's bar.
fn lower_colour(used: ExtentUse) -> &'static str
    ensures { result.now ≡ lower_colour used }
{
    if used.unreadable > 0 {
        return "crimson";
    }
    if used.holds_runs {
        "seagreen"
    } else {
        "steelblue"
    }
}

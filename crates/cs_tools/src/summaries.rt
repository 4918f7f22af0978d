//! What `stat --summary` prints.
ghost use Rattle.std.specs.Prelude.{◌≡◌, ◌≤◌, OnOk, Some};
ghost use Rattle.std.specs.Io.KnownBytes.{Appends};
ghost use Rattle.cs_tools.specs.Summaries.{cost_line, empties_line, great_line, great_text, index_line, live_line, more_bytes, more_text, no_room_line, room_text, share_of, shards_line, small_line, summary_text, unread_line, unread_text};

use crate::chunk_rooms::ChunkRoom;
use crate::costs::cost_at;
use std::io;
use std::io::Write;

/// The figures of a summary.
#[derive(Clone, Copy)]
pub struct Figures {
    /// How many shards there are.
    pub shards: usize,
    /// The room for chunks. None in formats 1 and 2, where extents may hold both chunks and runs.
    pub room: Option<ChunkRoom>,
    /// How many extents are empty.
    pub empty: usize,
    /// How many headers of chunks couldn't be read.
    pub unreadable: usize,
}

/// Prints a few lines of these figures.
pub fn print_summary<W: Write>(writer: &mut W, figures: Figures) -> io::Result<()>
    ensures { OnOk result (Appends (W.contents writer.old) (W.contents writer.new) (summary_text figures)) }
{
    print_shards(writer, figures.shards)?;
    print_chunk_room(writer, figures.room)?;
    print_empties(writer, figures.empty)?;
    print_unread(writer, figures.unreadable)
}

/// The line of how many shards there are.
fn print_shards<W: Write>(writer: &mut W, shards: usize) -> io::Result<()>
    ensures { OnOk result (Appends (W.contents writer.old) (W.contents writer.new) (shards_line shards)) }
{
    writeln!(writer, "shards {shards}")
}

/// The lines of the room for chunks, or the one that says why there are none.
fn print_chunk_room<W: Write>(writer: &mut W, room: Option<ChunkRoom>) -> io::Result<()>
    ensures { OnOk result (Appends (W.contents writer.old) (W.contents writer.new) (room_text room)) }
{
    match room {
        Some(room) => print_room_lines(writer, room),
        None => print_no_room(writer),
    }
}

/// The line that says why there are none of the room.
fn print_no_room<W: Write>(writer: &mut W) -> io::Result<()>
    ensures { OnOk result (Appends (W.contents writer.old) (W.contents writer.new) no_room_line) }
{
    writeln!(
        writer,
        "the room is not reported in format 2, where chunks and runs share extents"
    )
}

/// The lines of the room for chunks.
fn print_room_lines<W: Write>(writer: &mut W, room: ChunkRoom) -> io::Result<()>
    ensures { OnOk result (Appends (W.contents writer.old) (W.contents writer.new) (room_text (Some room))) }
{
    let share = share_of(room);
    print_live(writer, room.all, share)?;
    print_more(writer, room)?;
    print_index(writer, room.identifiers)?;
    print_cost(writer, cost_at(share))
}

/// How much of the room for chunks lives, in tenths of a per cent.
fn share_of(room: ChunkRoom) -> usize
    ensures { result ≡ share_of room }
{
    1000 * room.live / room.all.max(1)
}

/// How many bytes more can be put in full chunks of so many pages, if what is dead is swept between the puts.
fn more_bytes(room: ChunkRoom, chunk: usize) -> usize
    requires some { 1 ≤ chunk }
    requires fits { chunk ≤ room.pages }
    ensures { result ≡ more_bytes room chunk }
{
    let pages = (room.extents * (room.pages - chunk + 1)).saturating_sub(room.live);
    pages / chunk * (4096 * chunk - 75)
}

/// The line of how much of the room for chunks lives.
fn print_live<W: Write>(writer: &mut W, all: usize, share: usize) -> io::Result<()>
    ensures { OnOk result (Appends (W.contents writer.old) (W.contents writer.new) (live_line all share)) }
{
    let whole = share / 10;
    let tenths = share % 10;
    writeln!(writer, "live {whole}.{tenths} % of {all} pages for chunks")
}

/// The lines of how much more can be put.
fn print_more<W: Write>(writer: &mut W, room: ChunkRoom) -> io::Result<()>
    ensures { OnOk result (Appends (W.contents writer.old) (W.contents writer.new) (more_text room)) }
{
    print_more_small(writer, more_bytes(room, 1))?;
    print_more_great(writer, room)
}

/// The line of how much more can be put in full chunks of one page.
fn print_more_small<W: Write>(writer: &mut W, bytes: usize) -> io::Result<()>
    ensures { OnOk result (Appends (W.contents writer.old) (W.contents writer.new) (small_line bytes)) }
{
    writeln!(
        writer,
        "room for {bytes} more bytes in full chunks of one page"
    )
}

/// The line of how much more can be put in full chunks like the greatest, unless that has one page.
fn print_more_great<W: Write>(writer: &mut W, room: ChunkRoom) -> io::Result<()>
    ensures { OnOk result (Appends (W.contents writer.old) (W.contents writer.new) (great_text room)) }
{
    if room.greatest == 1 {
        return Ok(());
    }
    print_great(writer, more_bytes(room, room.greatest), room.greatest)
}

/// The line of how much more can be put in full chunks of so many pages.
fn print_great<W: Write>(writer: &mut W, bytes: usize, pages: usize) -> io::Result<()>
    ensures { OnOk result (Appends (W.contents writer.old) (W.contents writer.new) (great_line bytes pages)) }
{
    writeln!(
        writer,
        "room for {bytes} more bytes in full chunks of {pages} pages, like the greatest"
    )
}

/// The line of how many identifiers the index has room for.
fn print_index<W: Write>(writer: &mut W, identifiers: usize) -> io::Result<()>
    ensures { OnOk result (Appends (W.contents writer.old) (W.contents writer.new) (index_line identifiers)) }
{
    writeln!(
        writer,
        "room in the index for {identifiers} more identifiers of one chunk"
    )
}

/// The line of what a page put costs, in hundredths of a page written.
fn print_cost<W: Write>(writer: &mut W, cost: usize) -> io::Result<()>
    ensures { OnOk result (Appends (W.contents writer.old) (W.contents writer.new) (cost_line cost)) }
{
    let whole = cost / 100;
    let tenths = cost / 10 % 10;
    let hundredths = cost % 10;
    writeln!(
        writer,
        "a further page put costs about {whole}.{tenths}{hundredths} pages written"
    )
}

/// The line of how many extents are empty.
fn print_empties<W: Write>(writer: &mut W, empty: usize) -> io::Result<()>
    ensures { OnOk result (Appends (W.contents writer.old) (W.contents writer.new) (empties_line empty)) }
{
    writeln!(writer, "empty extents {empty}")
}

/// The line of how many headers couldn't be read, if there are any.
fn print_unread<W: Write>(writer: &mut W, unreadable: usize) -> io::Result<()>
    ensures { OnOk result (Appends (W.contents writer.old) (W.contents writer.new) (unread_text unreadable)) }
{
    if unreadable == 0 {
        return Ok(());
    }
    print_unread_line(writer, unreadable)
}

/// The line of how many headers couldn't be read.
fn print_unread_line<W: Write>(writer: &mut W, unreadable: usize) -> io::Result<()>
    ensures { OnOk result (Appends (W.contents writer.old) (W.contents writer.new) (unread_line unreadable)) }
{
    writeln!(
        writer,
        "unreadable headers {unreadable}: scrub names the shards"
    )
}

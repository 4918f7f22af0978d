//! What `stat` prints as one JSON object.
ghost use Rattle.std.specs.Prelude.{◌<◌, OnOk};
ghost use Rattle.std.specs.Io.KnownBytes.{Appends};
ghost use Rattle.cs_frame.specs.FormatNumbers.{counted_as, number_in};
ghost use Rattle.cs_advice.specs.Members.{BeginsWith, GoesOn};
ghost use Rattle.cs_tools.specs.Stats.{dimensions_text, geometry_text, store_text};
ghost use Rattle.cs_advice.specs.declared.outputs.Style.TheVariants.{Json};

use crate::stats::{Kept, Room, bytes_of, is_low, room_of, word_where};
use cs_advice::{print_identity, print_number};
use cs_frame::{Geometry, StoreId};
use cs_inspect::{ExtentUse, Quota, RunUse, Stats};
use std::io;
use std::io::Write;

/// All of it as one JSON object.
pub fn print_object<W: Write>(
    writer: &mut W,
    geometry: Geometry,
    kept: Kept,
    stats: &Stats,
) -> io::Result<()>
    ensures { OnOk result (BeginsWith (W.contents writer.old) (W.contents writer.new) (geometry_text Json geometry.extents geometry.pages geometry.sections geometry.format)) }
{
    print_geometry_members(writer, geometry)?;
    print_figure_members(writer, room_of(geometry, &stats.extents), kept, stats)
}

/// The members after those of the geometry and of the identity.
fn print_figure_members<W: Write>(
    writer: &mut W,
    room: Room,
    kept: Kept,
    stats: &Stats,
) -> io::Result<()>
    ensures { OnOk result (GoesOn (W.contents writer.old) (W.contents writer.new)) }
{
    print_room_member(writer, room)?;
    print_uses(writer, &stats.extents)?;
    print_empty_members(writer, stats.empty, kept.quota)?;
    print_runs(writer, &stats.runs)?;
    print_count_members(writer, kept, stats)?;
    writer.flush()
}

/// The members of the geometry and of the identity.
fn print_geometry_members<W: Write>(writer: &mut W, geometry: Geometry) -> io::Result<()>
    ensures { OnOk result (Appends (W.contents writer.old) (W.contents writer.new) (geometry_text Json geometry.extents geometry.pages geometry.sections geometry.format)) }
{
    print_dimension_members(writer, geometry)?;
    match geometry.format().store() {
        Some(store) => print_store_member(writer, store),
        None => Ok(()),
    }
}

/// The member of the identity of a store.
fn print_store_member<W: Write>(writer: &mut W, store: StoreId) -> io::Result<()>
    ensures { OnOk result (Appends (W.contents writer.old) (W.contents writer.new) (store_text Json store.0)) }
{
    write!(writer, "\"id\":\"")?;
    print_identity(writer, store)?;
    write!(writer, "\",")
}

/// The members of the geometry.
fn print_dimension_members<W: Write>(writer: &mut W, geometry: Geometry) -> io::Result<()>
    ensures { OnOk result (Appends (W.contents writer.old) (W.contents writer.new)
        (dimensions_text Json geometry.extents geometry.pages geometry.sections (counted_as (number_in geometry.format)))) }
{
    let extents = u64::from(geometry.extents());
    let pages = u64::from(geometry.pages());
    let sections = u64::from(geometry.sections());
    let format = u64::from(geometry.format().number().value());
    print_number(writer, "{\"extents\":", extents)?;
    print_number(writer, ",\"pages\":", pages)?;
    print_number(writer, ",\"sections\":", sections)?;
    print_number(writer, ",\"format\":", format)?;
    write!(writer, ",")
}

/// The member of the bytes, and the beginning of the extents.
fn print_room_member<W: Write>(writer: &mut W, room: Room) -> io::Result<()>
    ensures { OnOk result (GoesOn (W.contents writer.old) (W.contents writer.new)) }
{
    let used = bytes_of(room.used);
    let live = bytes_of(room.live);
    let dead = used.saturating_sub(live);
    let total = bytes_of(room.total);
    let free = total.saturating_sub(used);
    write!(
        writer,
        "\"bytes\":{{\"used\":{used},\"live\":{live},\"dead\":{dead},\"free\":{free},\"total\":{total}}},\"uses\":["
    )
}

/// A JSON object for each extent that isn't empty.
fn print_uses<W: Write>(writer: &mut W, extents: &[ExtentUse]) -> io::Result<()>
    ensures { OnOk result (GoesOn (W.contents writer.old) (W.contents writer.new)) }
{
    let mut printed: usize = 0;
    for number in 0..extents.len() {
        printed = print_use(writer, number, extents[number], printed)?;
    }
    Ok(())
}

/// Prints the JSON object of an extent after so many others, unless the extent is empty. It returns how many are
/// printed then.
fn print_use<W: Write>(
    writer: &mut W,
    number: usize,
    used: ExtentUse,
    printed: usize,
) -> io::Result<usize>
    ensures { OnOk result (GoesOn (W.contents writer.old) (W.contents writer.new)) }
{
    if used.pointer == 0 {
        return Ok(printed);
    }
    print_comma(writer, printed)?;
    print_use_object(writer, number, used)?;
    Ok(printed.saturating_add(1))
}

/// A comma, if an object was printed before.
fn print_comma<W: Write>(writer: &mut W, printed: usize) -> io::Result<()>
    ensures { OnOk result (GoesOn (W.contents writer.old) (W.contents writer.new)) }
{
    let comma = word_where(printed > 0, ",");
    write!(writer, "{comma}")
}

/// The JSON object of an extent.
fn print_use_object<W: Write>(writer: &mut W, number: usize, used: ExtentUse) -> io::Result<()>
    ensures { OnOk result (GoesOn (W.contents writer.old) (W.contents writer.new)) }
{
    let dead = used.dead();
    let ExtentUse {
        pointer,
        generation,
        is_open,
        is_swept,
        live,
        unreadable,
        ..
    } = used;
    write!(
        writer,
        "{{\"extent\":{number},\"pointer\":{pointer},\"live\":{live},\"dead\":{dead},\"unreadable\":{unreadable},\"generation\":{generation},\"open\":{is_open},\"swept\":{is_swept}}}"
    )
}

/// The end of the extents, how many are empty and whether they are few, how many may hold what, and the beginning of
/// the runs.
fn print_empty_members<W: Write>(
    writer: &mut W,
    empty: usize,
    quota: Option<Quota>,
) -> io::Result<()>
    ensures { OnOk result (GoesOn (W.contents writer.old) (W.contents writer.new)) }
{
    let low = is_low(empty);
    write!(writer, "],\"empty\":{empty},\"low\":{low},")?;
    print_quota_member(writer, quota)?;
    write!(writer, "\"runs\":[")
}

/// The member of the quota, if the store has one.
fn print_quota_member<W: Write>(writer: &mut W, quota: Option<Quota>) -> io::Result<()>
    ensures { OnOk result (GoesOn (W.contents writer.old) (W.contents writer.new)) }
{
    let Some(quota) = quota else {
        return Ok(());
    };
    let Quota {
        chunks,
        most_chunks,
        runs,
        most_runs,
    } = quota;
    write!(
        writer,
        "\"quota\":{{\"chunks\":{chunks},\"most_chunks\":{most_chunks},\"runs\":{runs},\"most_runs\":{most_runs}}},"
    )
}

/// A JSON object for each run.
fn print_runs<W: Write>(writer: &mut W, runs: &[RunUse]) -> io::Result<()>
    ensures { OnOk result (GoesOn (W.contents writer.old) (W.contents writer.new)) }
{
    for number in 0..runs.len() {
        print_run_object(writer, number, runs[number])?;
    }
    Ok(())
}

/// The JSON object of a run, after a comma unless it is the first one.
fn print_run_object<W: Write>(writer: &mut W, number: usize, run: RunUse) -> io::Result<()>
    ensures { OnOk result (GoesOn (W.contents writer.old) (W.contents writer.new)) }
{
    let comma = word_where(number > 0, ",");
    let extent = run.place.extent;
    let page = run.place.page;
    let entries = run.entries;
    write!(
        writer,
        "{comma}{{\"extent\":{extent},\"page\":{page},\"entries\":{entries}}}"
    )
}

/// The end of the runs, the counts, and the end of the object.
fn print_count_members<W: Write>(writer: &mut W, kept: Kept, stats: &Stats) -> io::Result<()>
    ensures { OnOk result (GoesOn (W.contents writer.old) (W.contents writer.new)) }
{
    print_named_members(writer, kept.by_names, stats)?;
    writeln!(
        writer,
        "\"shards\":{},\"chunks\":{},\"events\":{},\"events_limit\":{}}}",
        stats.shards, stats.chunks, kept.events, kept.limit
    )
}

/// The end of the runs, and the members of how many identifiers are named, how many may be if their number is limited,
/// what their entries weigh, and what they may weigh.
fn print_named_members<W: Write>(writer: &mut W, by_names: bool, stats: &Stats) -> io::Result<()>
    ensures { OnOk result (GoesOn (W.contents writer.old) (W.contents writer.new)) }
{
    let Stats {
        named,
        weight,
        weight_limit,
        ..
    } = stats;
    if by_names {
        write!(
            writer,
            "],\"named\":{named},\"limit\":{weight_limit},\"weight\":{weight},\"weight_limit\":{weight_limit},"
        )
    } else {
        write!(
            writer,
            "],\"named\":{named},\"weight\":{weight},\"weight_limit\":{weight_limit},"
        )
    }
}

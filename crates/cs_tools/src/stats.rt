//! The command `stat`.
ghost use Rattle.std.specs.Prelude.{◌≡◌, ◌⊎◌, ◌↔◌, ◌<◌, IsTrue, OnOk};
ghost use Rattle.std.specs.Io.KnownBytes.{Appends};
ghost use Rattle.cs_disk.specs.Reads.{OnlyReads};
ghost use Rattle.cs_extent.specs.State.{shape};
ghost use Rattle.law_machine.specs.Device.{Shape};
ghost use Rattle.cs_frame.specs.FormatNumbers.{counted_as, number_in};
ghost use Rattle.cs_tools.specs.Headers.{AreReadable, HasUnreadable, NoneIsUnreadable, SomeIsUnreadable};
ghost use Rattle.cs_advice.specs.Members.{BeginsWith, GoesOn, number_text};
ghost use Rattle.cs_tools.specs.Stats.{dimensions_text, geometry_text, store_text};
ghost use Rattle.cs_advice.specs.declared.outcomes.Outcome.TheVariants.{Damaged, Done, Failed, Refused};
ghost use Rattle.cs_advice.specs.declared.outputs.Style.TheVariants.{Json, Text};

use crate::headers::count_unreadable;
use crate::stat_objects::print_object;
use cs_advice::{Outcome, Style, print_identity, print_number};
use cs_disk::PageDisk;
use cs_frame::{Geometry, StoreId};
use cs_inspect::{ExtentUse, Quota, RunUse, Stats};
use cs_refusal::Refusal;
use cs_store::mount::the_core::Core;
use std::alloc::Global;
use std::io;
use std::io::Write;

/// What is read of a core beside its `Stats`.
#[derive(Clone, Copy)]
pub struct Kept {
    /// How many events its history has.
    pub events: usize,
    /// How many it may have.
    pub limit: usize,
    pub quota: Option<Quota>,
    /// Whether each entry of the index weighs one, as in formats 1 and 2. Then the weight is the number of identifiers.
    pub by_names: bool,
}

/// The pages of a store's extents, counted by their use.
#[derive(Clone, Copy)]
pub struct Room {
    /// Those below the write pointers.
    pub used: usize,
    /// Those with frames of live chunks.
    pub live: usize,
    /// All pages.
    pub total: usize,
}

/// The pages of these extents, counted by their use.
pub fn room_of(geometry: Geometry, extents: &[ExtentUse]) -> Room {
    let mut room = Room {
        used: 0,
        live: 0,
        total: usize::from(geometry.extents()).saturating_mul(usize::from(geometry.pages())),
    };
    for used in extents {
        room.used = room.used.saturating_add(used.pointer);
        room.live = room.live.saturating_add(used.live);
    }
    room
}

/// So many pages in bytes.
pub fn bytes_of(pages: usize) -> usize {
    pages.saturating_mul(4096)
}

/// Prints how a store lies on its disk and how full it is. It ends as damaged if the header of a chunk couldn't be read.
pub fn stat<D: PageDisk, W: Write>(
    alloc: Global,
    core: &mut Core<D>,
    style: Style,
    writer: &mut W,
) -> Outcome
    ensures ends { (result ≡ Done) ⊎ (result ≡ Damaged) ⊎ (result ≡ Refused Refusal.OutOfMemory) ⊎ (result ≡ Failed) }
    // It is done only if the headers of all live chunks can be read.
    ensures readable { result ≡ Done → AreReadable D.PageDisk core.old }
    // It ends as damaged only if one can't be read, or a read failed.
    ensures unreadable { result ≡ Damaged → HasUnreadable D.PageDisk core.old core.new }
    ensures same { core.new ≡ record core.old { disk = core.new.disk } }
    ensures disk { OnlyReads D.PageDisk core.old.disk core.new.disk }
    // What is printed begins with the dimensions of the store, its format among them, and with its identity.
    ensures geometry { (result ≡ Done) ⊎ (result ≡ Damaged) → let S : Shape = shape core.old.store.extents in
        BeginsWith (W.contents writer.old) (W.contents writer.new) (geometry_text style S.extents S.pages S.sections S.format) }
{
    let geometry = core.extents().geometry();
    let kept = Kept {
        events: core.history().len(),
        limit: core.limit(),
        quota: Quota::of(core.extents()),
        by_names: !geometry.format().has_marks(),
    };
    match Stats::of(alloc, core) {
        Ok(stats) => report(geometry, kept, &stats, style, writer),
        Err(_) => Outcome::Refused(Refusal::OutOfMemory),
    }
}

/// Prints these figures.
fn report<W: Write>(
    geometry: Geometry,
    kept: Kept,
    stats: &Stats,
    style: Style,
    writer: &mut W,
) -> Outcome
    ensures ends { (result ≡ Done) ⊎ (result ≡ Damaged) ⊎ (result ≡ Failed) }
    ensures readable { result ≡ Done → NoneIsUnreadable stats.now.extents.items }
    ensures unreadable { result ≡ Damaged → SomeIsUnreadable stats.now.extents.items }
    ensures geometry { (result ≡ Done) ⊎ (result ≡ Damaged) → BeginsWith (W.contents writer.old) (W.contents writer.new) (geometry_text style geometry.extents geometry.pages geometry.sections geometry.format) }
{
    match print_all(geometry, kept, stats, style, writer) {
        Ok(()) => outcome_of(&stats.extents),
        Err(_) => Outcome::Failed,
    }
}

/// How `stat` ends whose lines were written: as damaged if a header on these extents couldn't be read.
pub fn outcome_of(uses: &[ExtentUse]) -> Outcome
    ensures { ((result ≡ Done) × NoneIsUnreadable uses.now) ⊎ ((result ≡ Damaged) × SomeIsUnreadable uses.now) }
{
    if count_unreadable(uses) == 0 {
        Outcome::Done
    } else {
        Outcome::Damaged
    }
}

/// The same, with the writer's error.
fn print_all<W: Write>(
    geometry: Geometry,
    kept: Kept,
    stats: &Stats,
    style: Style,
    writer: &mut W,
) -> io::Result<()>
    ensures { OnOk result (BeginsWith (W.contents writer.old) (W.contents writer.new) (geometry_text style geometry.extents geometry.pages geometry.sections geometry.format)) }
{
    match style {
        Style::Text => print_lines(writer, geometry, kept, stats),
        Style::Json => print_object(writer, geometry, kept, stats),
    }
}

/// A line each: the geometry, the identity, the extents that aren't empty, how many are, how many may hold what, the
/// runs, and the counts.
fn print_lines<W: Write>(
    writer: &mut W,
    geometry: Geometry,
    kept: Kept,
    stats: &Stats,
) -> io::Result<()>
    ensures { OnOk result (BeginsWith (W.contents writer.old) (W.contents writer.new) (geometry_text Text geometry.extents geometry.pages geometry.sections geometry.format)) }
{
    print_geometry(writer, geometry)?;
    print_figures(writer, room_of(geometry, &stats.extents), kept, stats)
}

/// The lines after those of the geometry.
fn print_figures<W: Write>(writer: &mut W, room: Room, kept: Kept, stats: &Stats) -> io::Result<()>
    ensures { OnOk result (GoesOn (W.contents writer.old) (W.contents writer.new)) }
{
    print_room(writer, room)?;
    print_extents(writer, &stats.extents)?;
    print_empty(writer, stats.empty)?;
    print_quota(writer, kept.quota)?;
    print_run_lines(writer, &stats.runs)?;
    print_counts(writer, kept, stats)?;
    writer.flush()
}

/// The lines of the geometry and of the identity.
fn print_geometry<W: Write>(writer: &mut W, geometry: Geometry) -> io::Result<()>
    ensures { OnOk result (Appends (W.contents writer.old) (W.contents writer.new) (geometry_text Text geometry.extents geometry.pages geometry.sections geometry.format)) }
{
    print_dimensions(writer, geometry)?;
    match geometry.format().store() {
        Some(store) => print_store(writer, store),
        None => Ok(()),
    }
}

/// The line of the identity of a store.
fn print_store<W: Write>(writer: &mut W, store: StoreId) -> io::Result<()>
    ensures { OnOk result (Appends (W.contents writer.old) (W.contents writer.new) (store_text Text store.0)) }
{
    write!(writer, "id ")?;
    print_identity(writer, store)?;
    writeln!(writer)
}

/// The line of the geometry.
fn print_dimensions<W: Write>(writer: &mut W, geometry: Geometry) -> io::Result<()>
    ensures { OnOk result (Appends (W.contents writer.old) (W.contents writer.new)
        (dimensions_text Text geometry.extents geometry.pages geometry.sections (counted_as (number_in geometry.format)))) }
{
    let extents = u64::from(geometry.extents());
    let pages = u64::from(geometry.pages());
    let sections = u64::from(geometry.sections());
    let format = u64::from(geometry.format().number().value());
    print_number(writer, "geometry extents ", extents)?;
    print_number(writer, " pages ", pages)?;
    print_number(writer, " sections ", sections)?;
    print_number(writer, " format ", format)?;
    writeln!(writer)
}

/// The line of the bytes: used, those of them that are live or dead, free, and in all.
fn print_room<W: Write>(writer: &mut W, room: Room) -> io::Result<()>
    ensures { OnOk result (GoesOn (W.contents writer.old) (W.contents writer.new)) }
{
    let used = bytes_of(room.used);
    let live = bytes_of(room.live);
    let dead = used.saturating_sub(live);
    let total = bytes_of(room.total);
    let free = total.saturating_sub(used);
    writeln!(
        writer,
        "bytes used {used} live {live} dead {dead} free {free} of {total}"
    )
}

/// The lines of the runs.
fn print_run_lines<W: Write>(writer: &mut W, runs: &[RunUse]) -> io::Result<()>
    ensures { OnOk result (GoesOn (W.contents writer.old) (W.contents writer.new)) }
{
    for number in 0..runs.len() {
        print_run(writer, runs[number])?;
    }
    Ok(())
}

/// The line of how many extents are empty, and a warning if they are few.
fn print_empty<W: Write>(writer: &mut W, empty: usize) -> io::Result<()>
    ensures { OnOk result (GoesOn (W.contents writer.old) (W.contents writer.new)) }
{
    let warning = if is_low(empty) {
        "low on room: reclaim, or export into a larger store\n"
    } else {
        ""
    };
    write!(writer, "empty {empty}\n{warning}")
}

/// Whether so few extents are empty that a store may run out of room for good: a put leaves two of them empty, and a
/// sweep may take two.
pub fn is_low(empty: usize) -> bool
    ensures { IsTrue result ↔ (empty < 4) }
{
    empty < 4
}

/// The line of the quota, if the store has one: how many extents hold chunks and how many runs, and how many may.
fn print_quota<W: Write>(writer: &mut W, quota: Option<Quota>) -> io::Result<()>
    ensures { OnOk result (GoesOn (W.contents writer.old) (W.contents writer.new)) }
{
    let Some(quota) = quota else {
        return Ok(());
    };
    let Quota {
        chunks,
        most_chunks,
        runs,
        most_runs,
    } = quota;
    writeln!(
        writer,
        "quota: chunks {chunks} of {most_chunks}, runs {runs} of {most_runs}"
    )
}

/// The lines of the extents that aren't empty.
fn print_extents<W: Write>(writer: &mut W, extents: &[ExtentUse]) -> io::Result<()>
    ensures { OnOk result (GoesOn (W.contents writer.old) (W.contents writer.new)) }
{
    for number in 0..extents.len() {
        print_extent(writer, number, extents[number])?;
    }
    Ok(())
}

/// The line of an extent that isn't empty.
fn print_extent<W: Write>(writer: &mut W, number: usize, used: ExtentUse) -> io::Result<()>
    ensures { OnOk result (GoesOn (W.contents writer.old) (W.contents writer.new)) }
{
    if used.pointer == 0 {
        return Ok(());
    }
    print_pages(writer, number, used)?;
    print_marks(writer, used)
}

/// Of an extent's line how many of its pages are given and live, and how often it was reset.
fn print_pages<W: Write>(writer: &mut W, number: usize, used: ExtentUse) -> io::Result<()>
    ensures { OnOk result (GoesOn (W.contents writer.old) (W.contents writer.new)) }
{
    let dead = used.dead();
    let ExtentUse {
        pointer,
        generation,
        live,
        ..
    } = used;
    write!(
        writer,
        "extent {number} pointer {pointer} live {live} dead {dead} generation {generation}"
    )
}

/// Of an extent's line whether it is open and swept, and how many headers can't be read.
fn print_marks<W: Write>(writer: &mut W, used: ExtentUse) -> io::Result<()>
    ensures { OnOk result (GoesOn (W.contents writer.old) (W.contents writer.new)) }
{
    let open = word_where(used.is_open, " open");
    let swept = word_where(used.is_swept, " swept");
    match used.unreadable {
        0 => writeln!(writer, "{open}{swept}"),
        unreadable => writeln!(writer, "{open}{swept} unreadable {unreadable}"),
    }
}

/// This word if something is so, else the empty text.
pub fn word_where(is_so: bool, word: &str) -> &str {
    if is_so { word } else { "" }
}

/// The line of a run.
fn print_run<W: Write>(writer: &mut W, run: RunUse) -> io::Result<()>
    ensures { OnOk result (GoesOn (W.contents writer.old) (W.contents writer.new)) }
{
    let extent = run.place.extent;
    let page = run.place.page;
    let entries = run.entries;
    writeln!(writer, "run extent {extent} page {page} entries {entries}")
}

/// The lines of the counts.
fn print_counts<W: Write>(writer: &mut W, kept: Kept, stats: &Stats) -> io::Result<()>
    ensures { OnOk result (GoesOn (W.contents writer.old) (W.contents writer.new)) }
{
    print_named(writer, kept.by_names, stats)?;
    writeln!(
        writer,
        "shards {}\nchunks {}\nevents {} of {}",
        stats.shards, stats.chunks, kept.events, kept.limit
    )
}

/// How many identifiers are named, and of how many that may be; or what their entries weigh, and how much they may.
fn print_named<W: Write>(writer: &mut W, by_names: bool, stats: &Stats) -> io::Result<()>
    ensures { OnOk result (GoesOn (W.contents writer.old) (W.contents writer.new)) }
{
    let Stats {
        named,
        weight,
        weight_limit,
        ..
    } = stats;
    if by_names {
        writeln!(writer, "named {named} of {weight_limit}")
    } else {
        writeln!(writer, "named {named}\nweight {weight} of {weight_limit}")
    }
}

//! The command `scrub`.
ghost use Rattle.std.specs.Prelude.{◌≡◌, ◌≢◌, ◌⊎◌, ◌++◌, ℕ, List, [], OnOk, flat_map};
ghost use Rattle.std.specs.Io.KnownBytes.{Appends};
ghost use Rattle.cs_chunk.specs.Newest.{AreNewest};
ghost use Rattle.cs_disk.specs.Disk.{seen};
ghost use Rattle.cs_disk.specs.Reads.{OnlyReads};
ghost use Rattle.cs_inspect.specs.Scrubs.{IsScrubbed};
ghost use Rattle.cs_tools.specs.Pages.{AreLeftWhole, pages_text};
ghost use Rattle.cs_tools.specs.Scrubs.{Scrubs, chunk_text, damage_line, found_text, place_text, read_line, run_text, scrub_text};
ghost use Rattle.cs_advice.specs.declared.outcomes.Outcome.TheVariants.{Damaged, Done, Failed};
ghost use Rattle.cs_advice.specs.declared.outputs.Style.TheVariants.{Json, Text};

use crate::pages::{FoundPages, count_all_left, print_all_pages};
use cs_advice::{Outcome, Style, print_id, print_refusal};
use cs_disk::PageDisk;
use cs_frame::{Locator, ShardId};
use cs_inspect::{Damage, Progress, Scrubbed, scrub as find_damages};
use cs_refusal::Refusal;
use cs_store::mount::the_core::Core;
use std::alloc::Global;
use std::io;
use std::io::Write;

/// Reads each frame that the index names, prints those that can't be read, one a line, and then how many were read.
/// Before them it prints the pages that aren't whole, of those that the store has twice, and then those on which a
/// section was lost. A page that was written anew is no damage any more.
pub fn scrub<D: PageDisk, P: Progress, W: Write>(
    alloc: Global,
    core: &mut Core<D>,
    pages: &FoundPages,
    progress: &P,
    style: Style,
    writer: &mut W,
) -> Outcome
    // What is printed is what was found. On an honest disk that is what a scrub of the index finds.
    ensures found { Scrubs (λ found. D.honest core.old.disk → (view : ℕ → List ℕ) → AreNewest core.old.store.graph (seen (D.state core.old.disk)) view → IsScrubbed core.old.store.extents view core.old.store.index found)
        pages.now style (D.failure_count core.old.disk) (D.failure_count core.new.disk) (W.contents writer.old) (W.contents writer.new) result }
    ensures same { core.new ≡ record core.old { disk = core.new.disk } }
    ensures disk { OnlyReads D.PageDisk core.old.disk core.new.disk }
{
    match find_damages(alloc, core, progress) {
        Ok(found) => report(&found, pages, style, writer),
        Err(_) => Outcome::Refused(Refusal::OutOfMemory),
    }
}

/// Prints what was found.
fn report<W: Write>(found: &Scrubbed, pages: &FoundPages, style: Style, writer: &mut W) -> Outcome
    ensures ends { ((result ≡ Done) × (found.now.damages.items ≡ []) × AreLeftWhole pages.now) ⊎ ((result ≡ Damaged) × ((found.now.damages.items ≢ []) ⊎ (¬ AreLeftWhole pages.now))) ⊎ (result ≡ Failed) }
    ensures printed { (result ≡ Done) ⊎ (result ≡ Damaged) → Appends (W.contents writer.old) (W.contents writer.new) (scrub_text style pages.now found.now) }
{
    let left = count_all_left(pages);
    match print_all(found, pages, left, style, writer) {
        Ok(()) if found.damages.is_empty() && left == 0 => Outcome::Done,
        Ok(()) => Outcome::Damaged,
        Err(_) => Outcome::Failed,
    }
}

/// Prints the pages that weren't whole, of which so many are left so, and then what was found, with the writer's error.
fn print_all<W: Write>(
    found: &Scrubbed,
    pages: &FoundPages,
    left: usize,
    style: Style,
    writer: &mut W,
) -> io::Result<()>
    ensures { OnOk result (Appends (W.contents writer.old) (W.contents writer.new) (pages_text style pages.now ++ found_text style found.now left)) }
{
    print_all_pages(writer, pages, style)?;
    print_found(found, left, style, writer)
}

/// Prints what was found, with the writer's error. So many pages are left that aren't whole.
fn print_found<W: Write>(
    found: &Scrubbed,
    left: usize,
    style: Style,
    writer: &mut W,
) -> io::Result<()>
    ensures { OnOk result (Appends (W.contents writer.old) (W.contents writer.new) (found_text style found.now left)) }
{
    print_damages(writer, &found.damages, style)?;
    let damaged = found.damages.len().saturating_add(left);
    print_read(writer, found.chunks, found.runs, damaged, style)?;
    writer.flush()
}

/// Prints the lines of the frames that can't be read.
fn print_damages<W: Write>(writer: &mut W, damages: &[Damage], style: Style) -> io::Result<()>
    ensures { OnOk result (Appends (W.contents writer.old) (W.contents writer.new) (flat_map (damage_line style) damages.now)) }
{
    for damage in damages {
        print_damage(writer, *damage, style)?;
    }
    Ok(())
}

/// Prints how many chunks and runs were read, and how many of what is looked at is damaged.
fn print_read<W: Write>(
    writer: &mut W,
    chunks: usize,
    runs: usize,
    damaged: usize,
    style: Style,
) -> io::Result<()>
    ensures { OnOk result (Appends (W.contents writer.old) (W.contents writer.new) (read_line style chunks runs damaged)) }
{
    match style {
        Style::Text => writeln!(
            writer,
            "read {chunks} chunks and {runs} runs, {damaged} damaged"
        ),
        Style::Json => writeln!(
            writer,
            "{{\"chunks\":{chunks},\"runs\":{runs},\"damaged\":{damaged}}}"
        ),
    }
}

/// Prints the line of a frame that can't be read.
fn print_damage<W: Write>(writer: &mut W, damage: Damage, style: Style) -> io::Result<()>
    ensures { OnOk result (Appends (W.contents writer.old) (W.contents writer.new) (damage_line style damage)) }
{
    match damage {
        Damage::Chunk {
            id,
            chunk,
            place,
            refusal,
        } => print_damaged_chunk(writer, id, chunk, place, refusal, style),
        Damage::Run { place, refusal } => print_damaged_run(writer, place, refusal, style),
    }
}

/// Prints the line of a chunk that can't be read.
fn print_damaged_chunk<W: Write>(
    writer: &mut W,
    id: ShardId,
    chunk: usize,
    place: Locator,
    refusal: Refusal,
    style: Style,
) -> io::Result<()>
    ensures { OnOk result (Appends (W.contents writer.old) (W.contents writer.new) (chunk_text style id chunk ++ place_text style place refusal)) }
{
    print_chunk(writer, id, chunk, style)?;
    print_place(writer, place, refusal, style)
}

/// Prints the line of a run that can't be read.
fn print_damaged_run<W: Write>(
    writer: &mut W,
    place: Locator,
    refusal: Refusal,
    style: Style,
) -> io::Result<()>
    ensures { OnOk result (Appends (W.contents writer.old) (W.contents writer.new) (run_text style ++ place_text style place refusal)) }
{
    print_run(writer, style)?;
    print_place(writer, place, refusal, style)
}

/// Of the line of a chunk what stands before its place.
fn print_chunk<W: Write>(writer: &mut W, id: ShardId, chunk: usize, style: Style) -> io::Result<()>
    ensures { OnOk result (Appends (W.contents writer.old) (W.contents writer.new) (chunk_text style id chunk)) }
{
    match style {
        Style::Text => print_chunk_words(writer, id, chunk),
        Style::Json => print_chunk_members(writer, id, chunk),
    }
}

/// The same in words.
fn print_chunk_words<W: Write>(writer: &mut W, id: ShardId, chunk: usize) -> io::Result<()>
    ensures { OnOk result (Appends (W.contents writer.old) (W.contents writer.new) (chunk_text Text id chunk)) }
{
    write!(writer, "shard ")?;
    print_id(writer, id)?;
    write!(writer, " chunk {chunk}")
}

/// The same as members of a JSON object.
fn print_chunk_members<W: Write>(writer: &mut W, id: ShardId, chunk: usize) -> io::Result<()>
    ensures { OnOk result (Appends (W.contents writer.old) (W.contents writer.new) (chunk_text Json id chunk)) }
{
    write!(writer, "{{\"id\":\"")?;
    print_id(writer, id)?;
    write!(writer, "\",\"chunk\":{chunk},")
}

/// Of the line of a run what stands before its place.
fn print_run<W: Write>(writer: &mut W, style: Style) -> io::Result<()>
    ensures { OnOk result (Appends (W.contents writer.old) (W.contents writer.new) (run_text style)) }
{
    match style {
        Style::Text => write!(writer, "run"),
        Style::Json => write!(writer, "{{"),
    }
}

/// Where a frame begins, and why it can't be read.
fn print_place<W: Write>(
    writer: &mut W,
    place: Locator,
    refusal: Refusal,
    style: Style,
) -> io::Result<()>
    ensures { OnOk result (Appends (W.contents writer.old) (W.contents writer.new) (place_text style place refusal)) }
{
    match style {
        Style::Text => print_place_words(writer, place, refusal),
        Style::Json => print_place_members(writer, place, refusal),
    }
}

/// The same in words.
fn print_place_words<W: Write>(writer: &mut W, place: Locator, refusal: Refusal) -> io::Result<()>
    ensures { OnOk result (Appends (W.contents writer.old) (W.contents writer.new) (place_text Text place refusal)) }
{
    let Locator { extent, page, .. } = place;
    write!(writer, " at extent {extent} page {page} ")?;
    print_refusal(writer, refusal)?;
    writeln!(writer)
}

/// The same as members of a JSON object, and its end.
fn print_place_members<W: Write>(writer: &mut W, place: Locator, refusal: Refusal) -> io::Result<()>
    ensures { OnOk result (Appends (W.contents writer.old) (W.contents writer.new) (place_text Json place refusal)) }
{
    let Locator { extent, page, .. } = place;
    let number = refusal.number();
    let name = refusal.name();
    writeln!(
        writer,
        "\"extent\":{extent},\"page\":{page},\"refused\":{number},\"name\":\"{name}\"}}"
    )
}

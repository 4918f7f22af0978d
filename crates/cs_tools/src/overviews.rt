//! What `stat` prints for a person: a summary, a map of the extents, or a picture of them.
ghost use Rattle.std.specs.Prelude.{◌≡◌, ◌⊎◌, ◌-◌, ◌^◌, ◌≤◌, ℕ, List, MatchOption, OnOk, length, min};
ghost use Rattle.std.specs.Io.KnownBytes.{Appends};
ghost use Rattle.cs_disk.specs.Reads.{OnlyReads};
ghost use Rattle.cs_extent.specs.State.{shape};
ghost use Rattle.cs_inspect.specs.Kinds.{LieTogether};
ghost use Rattle.cs_inspect.specs.declared.surveys.ExtentUse.{ExtentUse as Used};
ghost use Rattle.cs_tools.specs.Headers.{AreReadable, HasUnreadable};
ghost use Rattle.cs_tools.specs.Overviews.{AreFigures, IsChunkRoom, IsSeen, identifiers_left, live_pages, overview_text};
ghost use Rattle.cs_tools.specs.ExtentMaps.{map_text};
ghost use Rattle.cs_tools.specs.MapPictures.{picture_text};
ghost use Rattle.cs_tools.specs.Summaries.{summary_text};
ghost use Rattle.cs_advice.specs.declared.outcomes.Outcome.TheVariants.{Damaged, Done, Failed, Refused};
ghost use Rattle.cs_tools.specs.declared.summaries.Figures.{Figures as Told};

use crate::chunk_rooms::ChunkRoom;
use crate::extent_maps::print_map;
use crate::headers::count_unreadable;
use crate::map_pictures::draw_map;
use crate::stats::outcome_of;
use crate::summaries::{Figures, print_summary};
use cs_advice::Outcome;
use cs_disk::PageDisk;
use cs_index::Index;
use cs_inspect::{ExtentUse, Quota, survey_extents};
use cs_refusal::Refusal;
use cs_store::mount::the_core::Core;
use std::alloc::Global;
use std::io;
use std::io::Write;

/// What of a store is shown to a person.
#[derive(Clone, Copy, Debug, PartialEq, Eq)]
pub enum Overview {
    /// A few lines of figures.
    Summary,
    /// A character for each extent.
    Map,
    /// The lines, and then the map.
    SummaryAndMap,
    /// A picture of the extents, as SVG.
    Picture,
}

/// Prints what of a store is shown to a person. It ends as damaged if the header of a chunk couldn't be read. It costs
/// what `uses` of cs_inspect costs: a read for each live chunk.
pub fn show_store<D: PageDisk, W: Write>(
    alloc: Global,
    core: &mut Core<D>,
    what: Overview,
    writer: &mut W,
) -> Outcome
    ensures ends { (result ≡ Done) ⊎ (result ≡ Damaged) ⊎ (result ≡ Refused Refusal.OutOfMemory) ⊎ (result ≡ Failed) }
    // It is done only if the headers of all live chunks can be read.
    ensures readable { result ≡ Done → AreReadable D.PageDisk core.old }
    // It ends as damaged only if one can't be read, or a read failed.
    ensures unreadable { result ≡ Damaged → HasUnreadable D.PageDisk core.old core.new }
    ensures same { core.new ≡ record core.old { disk = core.new.disk } }
    ensures disk { OnlyReads D.PageDisk core.old.disk core.new.disk }
    // What is printed is the text of the figures of the store, and of its extents as the headers of their chunks were
    // read.
    ensures text { (result ≡ Done) ⊎ (result ≡ Damaged) → (uses : List Used) × (greatest : ℕ) × (figures : Told)
        × IsSeen D.PageDisk core.old core.new uses greatest × AreFigures core.old.store uses greatest figures
        × Appends (W.contents writer.old) (W.contents writer.new) (overview_text what (shape core.old.store.extents).pages figures uses) }
{
    let Ok(survey) = survey_extents(alloc, core) else {
        return Outcome::Refused(Refusal::OutOfMemory);
    };
    let figures = figures_of(core, &survey.uses, survey.greatest);
    match print_overview(core, writer, what, figures, &survey.uses) {
        Ok(()) => outcome_of(&survey.uses),
        Err(_) => Outcome::Failed,
    }
}

/// Prints these figures, and these extents of the store.
fn print_overview<D: PageDisk, W: Write>(
    core: &Core<D>,
    writer: &mut W,
    what: Overview,
    figures: Figures,
    uses: &[ExtentUse],
) -> io::Result<()>
    requires { length uses.now ≡ (shape core.now.store.extents).extents }
    ensures { OnOk result (Appends (W.contents writer.old) (W.contents writer.new) (overview_text what (shape core.now.store.extents).pages figures uses.now)) }
{
    let extents = core.extents();
    // Called for its contract alone: what all extents keep.
    extents.extent_count();
    print_what(writer, what, extents.extent_pages(), figures, uses)
}

/// Prints these figures, and these extents of so many pages.
fn print_what<W: Write>(
    writer: &mut W,
    what: Overview,
    pages: usize,
    figures: Figures,
    uses: &[ExtentUse],
) -> io::Result<()>
    requires some { 1 ≤ pages }
    requires short { pages ≤ 65535 }
    requires few { length uses.now ≤ 7680 }
    ensures { OnOk result (Appends (W.contents writer.old) (W.contents writer.new) (overview_text what pages figures uses.now)) }
{
    match what {
        Overview::Summary => print_flushed(writer, figures),
        Overview::Map => print_map_flushed(writer, pages, uses),
        Overview::SummaryAndMap => {
            print_summary(writer, figures)?;
            print_map_flushed(writer, pages, uses)
        }
        Overview::Picture => draw_flushed(writer, pages, uses),
    }
}

/// Prints the summary.
fn print_flushed<W: Write>(writer: &mut W, figures: Figures) -> io::Result<()>
    ensures { OnOk result (Appends (W.contents writer.old) (W.contents writer.new) (summary_text figures)) }
{
    print_summary(writer, figures)?;
    writer.flush()
}

/// Prints the map.
fn print_map_flushed<W: Write>(writer: &mut W, pages: usize, uses: &[ExtentUse]) -> io::Result<()>
    requires some { 1 ≤ pages }
    requires short { pages ≤ 65535 }
    requires few { length uses.now ≤ 7680 }
    ensures { OnOk result (Appends (W.contents writer.old) (W.contents writer.new) (map_text pages uses.now)) }
{
    print_map(writer, pages, uses)?;
    writer.flush()
}

/// Draws the picture.
fn draw_flushed<W: Write>(writer: &mut W, pages: usize, uses: &[ExtentUse]) -> io::Result<()>
    requires some { 1 ≤ pages }
    requires short { pages ≤ 65535 }
    requires few { length uses.now ≤ 7680 }
    ensures { OnOk result (Appends (W.contents writer.old) (W.contents writer.new) (picture_text pages uses.now)) }
{
    draw_map(writer, pages, uses)?;
    writer.flush()
}

/// The figures of a store whose extents are used so, and whose greatest live chunk has so many pages.
fn figures_of<D: PageDisk>(core: &Core<D>, uses: &[ExtentUse], greatest: usize) -> Figures
    ensures { AreFigures core.now.store uses.now greatest result }
{
    Figures {
        shards: core.index().live_count(),
        room: chunk_room(core, uses, greatest),
        empty: core.extents().empty_count(),
        unreadable: count_unreadable(uses),
    }
}

/// The room for chunks of a store whose extents are used so. None in formats 1 and 2.
fn chunk_room<D: PageDisk>(core: &Core<D>, uses: &[ExtentUse], greatest: usize) -> Option<ChunkRoom>
    ensures { MatchOption result (LieTogether (shape core.now.store.extents)) (IsChunkRoom core.now.store uses.now greatest) }
{
    let extents = core.extents();
    // Called for its contract alone: what all extents keep.
    extents.extent_count();
    match Quota::of(extents) {
        Some(quota) => Some(ChunkRoom::new(
            quota.most_chunks,
            extents.extent_pages(),
            live_pages(uses),
            greatest,
            identifiers_left(core.index()),
        )),
        None => None,
    }
}

/// How many pages live on these extents. `usize::MAX` stands for more.
fn live_pages(uses: &[ExtentUse]) -> usize
    ensures { result ≡ min (live_pages uses.now) (2 ^ 64 - 1) }
{
    let mut live: usize = 0;
    for used in uses {
        live = live.saturating_add(used.live);
    }
    live
}

/// How many identifiers of one chunk an index has room for still: each weighs 33.
fn identifiers_left(index: &Index) -> usize
    ensures { result ≡ identifiers_left index.now }
{
    index.limit().saturating_sub(index.weight()) / 33
}

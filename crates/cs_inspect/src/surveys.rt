//! The use of all extents.
ghost use Rattle.std.specs.Prelude.{◌≡◌, ◌≢◌, ◌<◌, ℕ, IfOk, List, MatchBool, None, Option, length, map, ◌+◌, ◌-◌, ◌^◌, ◌∷◌, ◌++◌, [], min, slice_index, slice_set, ◌↔◌, IsTrue};
ghost use Rattle.std.specs.List.{AllByRecursion};
ghost use Rattle.cs_chunk.specs.Newest.{AreNewest};
ghost use Rattle.cs_disk.specs.Disk.{Rises, seen};
ghost use Rattle.cs_disk.specs.Reads.{OnlyReads};
ghost use Rattle.cs_extent.specs.State.{extents_of, shape};
ghost use Rattle.cs_inspect.specs.Brim.{AreSurveyed, greatest_in, sure_on};
ghost use Rattle.cs_inspect.specs.Chunks.{BeginsInside, Chunk, chunk_of};
ghost use Rattle.cs_inspect.specs.Uses.{AreBounded, AreCounted, AreCountedAsRead, AreExtents, AreRead, AreTallied, Head, HoldsOfHeads, IsReadAs, heads_of, pages_said, AreUses};
ghost use Rattle.cs_inspect.specs.Fewest.{IsMovable};

use crate::listings::live_chunks;
use cs_core::Core;
use cs_disk::PageDisk;
use cs_extent::Extents;
use cs_frame::{FrameKind, Locator, frame_pages};
use cs_index::LiveChunk;
use cs_refusal::Refusal;
use std::alloc::{AllocError, Global};

/// How the pages of an extent are used, as the chunks say that are there.
#[derive(Clone, Copy, Debug)]
pub struct ExtentUse {
    /// How many of its pages are given: its write pointer.
    pub pointer: usize,
    /// How often it was reset.
    pub generation: u32,
    /// Whether frames are appended to it.
    pub is_open: bool,
    /// Whether it is being swept.
    pub is_swept: bool,
    /// Whether it holds runs of the index, and so no chunks. False in format 2, where an extent may hold both.
    pub holds_runs: bool,
    /// How many pages the frames of the live chunks that begin there have together, by their headers. `usize::MAX`
    /// stands for more.
    pub live: usize,
    /// How many live chunks begin there whose header couldn't be read. Their pages don't count as live.
    pub unreadable: usize,
}

impl ExtentUse {
    /// The given pages that aren't live. Those of the index's runs are among them. It is 0 if damaged headers count
    /// more pages than are given.
    ///
    /// The pages above the pointer aren't given, so they don't count here: a frame that fits there may still be
    /// appended. In format 2 some of them are given up, as the store is opened or as a frame doesn't fit there: nothing
    /// is written to them until the extent is emptied.
    pub fn dead(&self) -> usize
        ensures { result ≡ self.now.pointer - self.now.live }
    {
        self.pointer.saturating_sub(self.live)
    }

    /// How many pages of copies are sure to go there, if all that lives there may be moved, and no chunk has more pages
    /// than the greatest: all that are left, but one fewer than the greatest has.
    pub(crate) fn sure_pages(&self, pages: usize, greatest: usize) -> usize
        ensures { result ≡ sure_on pages greatest self.now }
    {
        if self.holds_runs {
            return 0;
        }
        if self.is_swept {
            return 0;
        }
        if self.pointer == 0 {
            return 0;
        }
        if self.unreadable == 0 {
            let left = pages.saturating_sub(self.pointer);
            return left.saturating_sub(greatest.saturating_sub(1));
        }
        0
    }

    /// Whether all that lives there may be moved off it: chunks lie there, none has an unreadable header, and no sweep
    /// goes on there.
    pub(crate) fn is_movable(&self) -> bool
        ensures { IsTrue result ↔ IsMovable self.now }
    {
        self.pointer > 0 && !self.holds_runs && !self.is_swept && self.unreadable == 0
    }
}

/// How each extent is used, in the order of the extents. A chunk counts on the extent where it begins. The page of its
/// header is read once, from the newest write to it that waits, else from the device, unless the core knows the chunk's
/// length. If the header fails a test, or the device refuses the read, the chunk counts as unreadable. It costs a read
/// for each live chunk of which the core doesn't know the length, and memory for all of them and for the extents.
pub fn uses<D: PageDisk>(alloc: Global, core: &mut Core<D>) -> Result<Vec<ExtentUse>, AllocError>
    ensures extents { IfOk result (λ uses. AreExtents (shape core.old.store.extents).extents (extents_of core.old.store.extents) uses.items) }
    // Whatever reads failed, the counts are those of what was read.
    ensures read { D.honest core.old.disk
        → HoldsOfHeads D.PageDisk core.old (λ heads. IfOk result (λ uses. AreCountedAsRead (D.failure_count core.old.disk) (D.failure_count core.new.disk) heads uses.items)) }
    // So where none failed they are those of the headers.
    ensures counted { D.honest core.old.disk → ¬ Rises (D.failure_count core.old.disk) (D.failure_count core.new.disk)
        → HoldsOfHeads D.PageDisk core.old (λ heads. IfOk result (λ uses. AreCounted heads uses.items)) }
    // And else a chunk whose read failed isn't live, and counts as unreadable.
    ensures bounded { D.honest core.old.disk
        → HoldsOfHeads D.PageDisk core.old (λ heads. IfOk result (λ uses. AreBounded heads uses.items)) }
    ensures same { core.new ≡ record core.old { disk = core.new.disk } }
    ensures disk { OnlyReads D.PageDisk core.old.disk core.new.disk }
{
    let chunks = live_chunks(alloc, core.index())?;
    let tally = tally_chunks(alloc, core, &chunks)?;
    uses_with(alloc, core.extents(), &tally.live, &tally.unreadable)
}

/// How each extent is used, and the greatest chunk of all.
#[derive(Drop)]
pub struct Survey {
    /// The use of each extent, in their order.
    pub uses: Vec<ExtentUse>,
    /// How many pages the greatest live chunk has, by its header. Those that couldn't be read don't count.
    pub greatest: usize,
}

/// The use of each extent, as `uses` gives it, and the greatest live chunk, by the same reads. It costs what `uses`
/// costs.
pub fn survey_extents<D: PageDisk>(alloc: Global, core: &mut Core<D>) -> Result<Survey, AllocError>
    ensures extents { IfOk result (λ survey. AreExtents (shape core.old.store.extents).extents (extents_of core.old.store.extents) survey.uses.items) }
    // Whatever reads failed, both are those of what was read.
    ensures read { D.honest core.old.disk → HoldsOfHeads D.PageDisk core.old
        (λ heads. IfOk result (λ survey. AreSurveyed (D.failure_count core.old.disk) (D.failure_count core.new.disk) heads survey.uses.items survey.greatest)) }
    ensures same { core.new ≡ record core.old { disk = core.new.disk } }
    ensures disk { OnlyReads D.PageDisk core.old.disk core.new.disk }
{
    let chunks = live_chunks(alloc, core.index())?;
    let tally = tally_chunks(alloc, core, &chunks)?;
    let uses = uses_with(alloc, core.extents(), &tally.live, &tally.unreadable)?;
    Ok(Survey {
        uses,
        greatest: tally.greatest,
    })
}

/// What is counted of each extent, and the greatest chunk of all.
#[derive(Drop)]
struct Tally {
    live: Vec<usize>,
    unreadable: Vec<usize>,
    greatest: usize,
}

/// Counts chunks, each on the extent where it begins.
fn tally_chunks<D: PageDisk>(
    alloc: Global,
    core: &mut Core<D>,
    chunks: &[LiveChunk],
) -> Result<Tally, AllocError>
    requires inside { AllByRecursion (BeginsInside (shape core.old.store.extents)) (map chunk_of chunks.now) }
    ensures live { IfOk result (λ tally. length tally.live.items ≡ (shape core.old.store.extents).extents) }
    ensures unreadable { IfOk result (λ tally. length tally.unreadable.items ≡ (shape core.old.store.extents).extents) }
    ensures tallied { IfOk result (λ tally. (read : List Head) × AreTallied read tally.live.items tally.unreadable.items
        × (D.honest core.old.disk → (view : ℕ → List ℕ) → AreNewest core.old.store.graph (seen (D.state core.old.disk)) view
        → AreRead (D.failure_count core.old.disk) (D.failure_count core.new.disk) (heads_of core.old.store.extents view (map chunk_of chunks.now)) read)
        × (tally.greatest ≡ greatest_in read)) }
    ensures same { core.new ≡ record core.old { disk = core.new.disk } }
    ensures disk { OnlyReads D.PageDisk core.old.disk core.new.disk }
{
    let extents = core.extents().extent_count();
    let mut live = vec![in alloc; 0; extents]?;
    let mut unreadable = vec![in alloc; 0; extents]?;
    let mut greatest: usize = 0;
    for k in 0..chunks.len() {
        let place = chunks[k].place;
        let pages = pages_at(core, place)?;
        count(&mut live, &mut unreadable, usize::from(place.extent), pages);
        greatest = greatest.max(pages.unwrap_or(0));
    }
    Ok(Tally {
        live,
        unreadable,
        greatest,
    })
}

/// How many pages the chunk has that begins at a place, by its header. None if the header fails a test, or can't be
/// read.
fn pages_at<D: PageDisk>(core: &mut Core<D>, place: Locator) -> Result<Option<usize>, AllocError>
    requires extent { place.extent < (shape core.old.store.extents).extents }
    requires page { place.page < (shape core.old.store.extents).pages }
    ensures read { D.honest core.old.disk → (view : ℕ → List ℕ) → AreNewest core.old.store.graph (seen (D.state core.old.disk)) view
        → IfOk result (IsReadAs (Rises (D.failure_count core.old.disk) (D.failure_count core.new.disk)) (pages_said core.old.store.extents view place)) }
    ensures same { core.new ≡ record core.old { disk = core.new.disk } }
    ensures disk { OnlyReads D.PageDisk core.old.disk core.new.disk }
{
    match core.read_length(FrameKind::Chunk, place) {
        Ok(count) => Ok(Some(frame_pages(count as usize))),
        Err(refusal) => if is_memory(refusal) {
            Err(AllocError)
        } else {
            Ok(None)
        },
    }
}

/// Whether memory was refused.
fn is_memory(refusal: Refusal) -> bool
    ensures { MatchBool result (refusal ≡ Refusal.OutOfMemory) (refusal ≢ Refusal.OutOfMemory) }
{
    match refusal {
        Refusal::OutOfMemory => true,
        _ => false,
    }
}

/// Adds to one of the counts.
fn add(counts: &mut [usize], k: usize, amount: usize)
    requires { k < length counts.old }
    ensures { counts.new ≡ slice_set counts.old k (min (slice_index counts.old k + amount) (2 ^ 64 - 1)) }
{
    counts[k] = counts[k].saturating_add(amount);
}

/// Counts a chunk that begins on this extent: its pages, or None if its header can't be read.
fn count(live: &mut [usize], unreadable: &mut [usize], extent: usize, pages: Option<usize>)
    requires live { extent < length live.old }
    requires unreadable { extent < length unreadable.old }
    ensures { (heads : List (ℕ × Option ℕ)) → AreTallied heads live.old unreadable.old → AreTallied (heads ++ (extent, pages) ∷ []) live.new unreadable.new }
{
    match pages {
        Some(amount) => add(live, extent, amount),
        None => add(unreadable, extent, 1),
    }
}

/// The use of each extent, with these counts.
fn uses_with(
    alloc: Global,
    extents: &Extents,
    live: &[usize],
    unreadable: &[usize],
) -> Result<Vec<ExtentUse>, AllocError>
    requires live { length live.now ≡ (shape extents.now).extents }
    requires unreadable { length unreadable.now ≡ (shape extents.now).extents }
    ensures { IfOk result (λ uses. AreUses (shape extents.now).extents (extents_of extents.now) live.now unreadable.now uses.items) }
{
    let mut uses = Vec::new(alloc);
    for extent in 0..extents.extent_count() {
        let used = ExtentUse {
            pointer: extents.pointer(extent),
            generation: extents.generation(extent),
            is_open: extents.is_open(extent),
            is_swept: extents.is_swept(extent),
            holds_runs: extents.holds_runs(extent),
            live: live[extent],
            unreadable: unreadable[extent],
        };
        uses.push(used)?;
    }
    Ok(uses)
}

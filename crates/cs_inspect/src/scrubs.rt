//! Scrubs.
ghost use Rattle.std.specs.Prelude.{◌≡◌, ◌≢◌, ℕ, Err, IfOk, IsOk, List, MatchOption, length, map, MatchBool};
ghost use Rattle.cs_chunk.specs.Newest.{AreNewest};
ghost use Rattle.cs_disk.specs.Disk.{LeavesOnly, seen, Rises};
ghost use Rattle.cs_disk.specs.Reads.{OnlyReads};
ghost use Rattle.cs_extent.specs.State.{shape, State as ExtentsState};
ghost use Rattle.cs_frame.specs.Formats.{place_of};
ghost use Rattle.cs_inspect.specs.Chunks.{chunk_of};
ghost use Rattle.cs_inspect.specs.Failures.{RisesBy};
ghost use Rattle.cs_inspect.specs.Scrubs.{AreCaused, AreNamed, IsScrubbed, OfChunk, OfRun, device_faults, IsInside, TellsFrame, HidesNothing, NamesNoOther};
ghost use Rattle.cs_chunk.specs.Reads.{IsCaused};
ghost use Rattle.cs_index.specs.State.{State as Index};
ghost use Rattle.cs_inspect.specs.declared.scrubs.Scrubbed.{Scrubbed};
ghost use Rattle.cs_core.specs.Prefixes.{IsPrefixOf};

use crate::listings::live_chunks;
use cs_core::Core;
use cs_disk::PageDisk;
use cs_extent::Extents;
use cs_frame::{FrameKind, Locator, ShardId};
use cs_index::{LiveChunk, StoredRun};
use cs_refusal::Refusal;
use std::alloc::{AllocError, Global};

/// A frame that can't be read, and the refusal of its read.
#[derive(Clone, Copy, Debug, PartialEq, Eq)]
pub enum Damage {
    /// The frame of a chunk: its shard, its number among the shard's chunks, counted from 0, and where it begins.
    Chunk {
        id: ShardId,
        chunk: usize,
        place: Locator,
        refusal: Refusal,
    },
    /// The frame of a run of the index, and where it begins.
    Run {
        place: Locator,
        refusal: Refusal,
    },
}

/// What a scrub read, and what it found.
#[derive(Debug, Drop)]
pub struct Scrubbed {
    /// How many chunks there are. The frame of each was read.
    pub chunks: usize,
    /// How many runs the index has. The frame of each was read.
    pub runs: usize,
    /// The frames that can't be read: those of chunks by identifier and number, then those of runs, oldest first.
    pub damages: Vec<Damage>,
}

/// Receives the reports.
pub trait Progress {
    /// So many steps are done, of so many in all.
    fn tell(&self, done: usize, all: usize);
}

/// Ignores the reports.
#[derive(Clone, Copy, Debug)]
pub struct Nobody;

impl Progress for Nobody {
    fn tell(&self, _done: usize, _all: usize) {}
}

/// Where the frames of these runs begin.
fn run_places(alloc: Global, runs: &[StoredRun]) -> Result<Vec<Locator>, AllocError>
    ensures { IfOk result (λ found. found.items ≡ map (λ run. run.place) runs.now) }
{
    let mut found = Vec::with_capacity(alloc, runs.len())?;
    for run in runs {
        found.push_reserved(run.place);
    }
    Ok(found)
}

/// The refusal of a frame that can't be read, None if it was read. If memory was refused, nothing is known of the
/// frame.
fn why(read: Result<(), Refusal>) -> Result<Option<Refusal>, AllocError>
    ensures { IfOk result (λ found. MatchOption found (IsOk read) (λ r. (read ≡ Err r) × (r ≢ Refusal.OutOfMemory))) }
{
    match read {
        Ok(()) => Ok(None),
        Err(Refusal::OutOfMemory) => Err(AllocError),
        Err(refusal) => Ok(Some(refusal)),
    }
}

/// Those of these chunks whose frames can't be read.
fn damaged_chunks<D: PageDisk, P: Progress>(
    alloc: Global,
    core: &mut Core<D>,
    chunks: &[LiveChunk],
    progress: &P,
) -> Result<Vec<Damage>, AllocError>
    ensures named { D.honest core.old.disk → (view : ℕ → List ℕ) → AreNewest core.old.store.graph (seen (D.state core.old.disk)) view
        → IfOk result (λ damages. AreNamed core.old.store.extents view (map OfChunk (map chunk_of chunks.now)) damages.items) }
    ensures caused { IfOk result (λ damages. AreCaused (D.failure_count core.old.disk) (D.failure_count core.new.disk) damages.items) }
    ensures counted { IfOk result (λ damages. RisesBy (device_faults damages.items) (D.failure_count core.old.disk) (D.failure_count core.new.disk)) }
    ensures same { core.new ≡ record core.old { disk = core.new.disk } }
    ensures disk { OnlyReads D.PageDisk core.old.disk core.new.disk }
{
    let mut damages = Vec::new(alloc);
    for k in 0..chunks.len() {
        progress.tell(k, chunks.len());
        let chunk = chunks[k];
        if let Some(refusal) = why(read_chunk(core, &chunk))? {
            damages.push(Damage::Chunk {
                id: chunk.id,
                chunk: chunk.chunk,
                place: chunk.place,
                refusal,
            })?;
        }
    }
    Ok(damages)
}

/// Those of the runs at these places whose frames can't be read.
fn damaged_runs<D: PageDisk>(
    alloc: Global,
    core: &mut Core<D>,
    runs: &[Locator],
) -> Result<Vec<Damage>, AllocError>
    ensures named { D.honest core.old.disk → (view : ℕ → List ℕ) → AreNewest core.old.store.graph (seen (D.state core.old.disk)) view
        → IfOk result (λ damages. AreNamed core.old.store.extents view (map OfRun (map place_of runs.now)) damages.items) }
    ensures caused { IfOk result (λ damages. AreCaused (D.failure_count core.old.disk) (D.failure_count core.new.disk) damages.items) }
    ensures counted { IfOk result (λ damages. RisesBy (device_faults damages.items) (D.failure_count core.old.disk) (D.failure_count core.new.disk)) }
    ensures same { core.new ≡ record core.old { disk = core.new.disk } }
    ensures disk { OnlyReads D.PageDisk core.old.disk core.new.disk }
{
    let mut damages = Vec::new(alloc);
    for k in 0..runs.len() {
        let place = runs[k];
        if let Some(refusal) = why(read_run(core, place))? {
            damages.push(Damage::Run { place, refusal })?;
        }
    }
    Ok(damages)
}

/// Reads the frame of each live chunk and of each run of the index, and lists those that can't be read. It goes on
/// after each of them. Each page is read once, from the newest write to it that waits, else from the device. Nothing is
/// changed or kept in the history, and a halted core is scrubbed too. It takes memory for the list of all live chunks,
/// for the damages, and for one frame at a time. It reports its progress before each chunk.
///
/// A damage has the refusal of the first test of the frame that fails: 20 BadMagic, 21 BadDigest, 22 BadLength, 23
/// BadPadding, 24 BadVersion, or 26 Misplaced if another frame lies there. Then 22 if the payload of a chunk is shorter
/// than a head. In format 2 there are neither 26 nor heads. A run whose place is on no extent has 43 NotAStore.
///
/// 1 DeviceFault: the device refused a read, and the frame may be whole. `AllocError` ends the scrub if memory was
/// refused.
pub fn scrub<D: PageDisk, P: Progress>(
    alloc: Global,
    core: &mut Core<D>,
    progress: &P,
) -> Result<Scrubbed, AllocError>
    ensures named { D.honest core.old.disk → (view : ℕ → List ℕ) → AreNewest core.old.store.graph (seen (D.state core.old.disk)) view
        → IfOk result (IsScrubbed core.old.store.extents view core.old.store.index) }
    ensures runs { IfOk result (λ found. found.runs ≡ length core.old.store.index.runs) }
    ensures caused { IfOk result (λ found. AreCaused (D.failure_count core.old.disk) (D.failure_count core.new.disk) found.damages.items) }
    // It rose by as many as are named 1 at least: no frame is named so for the read of another.
    ensures counted { IfOk result (λ found. RisesBy (device_faults found.damages.items) (D.failure_count core.old.disk) (D.failure_count core.new.disk)) }
    ensures same { core.new ≡ record core.old { disk = core.new.disk } }
    ensures disk { OnlyReads D.PageDisk core.old.disk core.new.disk }
    // A crash meanwhile leaves what one before it might have left.
    ensures crash { D.honest core.old.disk → LeavesOnly D.moment D.left_since core.old.disk core.new.disk (IsPrefixOf core.old) }
{
    // Called for its contract alone: what a crash leaves before it.
    core.progress();
    let chunks = live_chunks(alloc, core.index())?;
    let runs = run_places(alloc, core.index().runs())?;
    let mut damages = damaged_chunks(alloc, core, &chunks, progress)?;
    let mut of_runs = damaged_runs(alloc, core, &runs)?;
    damages.append(&mut of_runs)?;
    Ok(Scrubbed {
        chunks: chunks.len(),
        runs: runs.len(),
        damages,
    })
}

/// Whether a place is on an extent.
fn is_inside(extents: &Extents, place: Locator) -> bool
    ensures { MatchBool result (IsInside (shape extents.now) place) (¬ IsInside (shape extents.now) place) }
{
    usize::from(place.extent) < extents.extent_count()
        && usize::from(place.page) < extents.extent_pages()
}

/// Reads the frame of this kind that begins at a place, and tells why it can't be read.
fn read_place<D: PageDisk>(
    core: &mut Core<D>,
    kind: FrameKind,
    place: Locator,
) -> Result<(), Refusal>
    ensures told { D.honest core.old.disk → (view : ℕ → List ℕ) → AreNewest core.old.store.graph (seen (D.state core.old.disk)) view
        → TellsFrame core.old.store.extents view kind place result }
    ensures same { core.new ≡ record core.old { disk = core.new.disk } }
    ensures disk { OnlyReads D.PageDisk core.old.disk core.new.disk }
    ensures cause { IsCaused (D.failure_count core.old.disk) (D.failure_count core.new.disk) result }
{
    if !is_inside(core.extents(), place) {
        return Err(Refusal::NotAStore);
    }
    match core.read_frame(kind, place) {
        Ok(_) => Ok(()),
        Err(refusal) => Err(refusal),
    }
}

/// Reads the frame of a chunk, to see whether it can be read. Reads each of its pages once, and takes memory for them.
/// No event is kept of it, and a halted core answers it too.
///
/// It is refused 20 BadMagic, 21 BadDigest, 22 BadLength, 23 BadPadding or 24 BadVersion if the frame is damaged, by
/// the first test that fails. 26 Misplaced: another frame lies there, and is whole. Then 22 if the payload is shorter
/// than a head. In format 2 there are neither 26 nor heads.
///
/// 1 DeviceFault: a read failed. 9 OutOfMemory. 43 NotAStore: the place is on no extent, which no chunk of the core's
/// index is.
pub fn read_chunk<D: PageDisk>(core: &mut Core<D>, chunk: &LiveChunk) -> Result<(), Refusal>
    ensures told { D.honest core.old.disk → (view : ℕ → List ℕ) → AreNewest core.old.store.graph (seen (D.state core.old.disk)) view
        → TellsFrame core.old.store.extents view FrameKind.Chunk chunk.now.place result }
    ensures same { core.new ≡ record core.old { disk = core.new.disk } }
    ensures disk { OnlyReads D.PageDisk core.old.disk core.new.disk }
    ensures cause { IsCaused (D.failure_count core.old.disk) (D.failure_count core.new.disk) result }
    // A crash meanwhile leaves what one before it might have left.
    ensures crash { D.honest core.old.disk → LeavesOnly D.moment D.left_since core.old.disk core.new.disk (IsPrefixOf core.old) }
{
    // Called for its contract alone: what a crash leaves before it.
    core.progress();
    read_place(core, FrameKind::Chunk, chunk.place)
}

/// Reads the frame of the run of the index at a place, as `read_chunk` does that of a chunk, with the same refusals.
pub fn read_run<D: PageDisk>(core: &mut Core<D>, place: Locator) -> Result<(), Refusal>
    ensures told { D.honest core.old.disk → (view : ℕ → List ℕ) → AreNewest core.old.store.graph (seen (D.state core.old.disk)) view
        → TellsFrame core.old.store.extents view FrameKind.Run place result }
    ensures same { core.new ≡ record core.old { disk = core.new.disk } }
    ensures disk { OnlyReads D.PageDisk core.old.disk core.new.disk }
    ensures cause { IsCaused (D.failure_count core.old.disk) (D.failure_count core.new.disk) result }
    // A crash meanwhile leaves what one before it might have left.
    ensures crash { D.honest core.old.disk → LeavesOnly D.moment D.left_since core.old.disk core.new.disk (IsPrefixOf core.old) }
{
    // Called for its contract alone: what a crash leaves before it.
    core.progress();
    read_place(core, FrameKind::Run, place)
}

/// Whatever reads failed, a scrub names each shard that has a damaged chunk; where the device refused no read, it names
/// no other.
pub fn damaged_shards_are_named()
    ensures hides { (x : ExtentsState) (view : ℕ → List ℕ) (index : Index) (found : Scrubbed) → IsScrubbed x view index found → HidesNothing x view index found.damages.items }
    ensures others { (x : ExtentsState) (view : ℕ → List ℕ) (index : Index) (found : Scrubbed) (before after : ℕ) → IsScrubbed x view index found
        → AreCaused before after found.damages.items → ¬ Rises before after → NamesNoOther x view index found.damages.items }
{}

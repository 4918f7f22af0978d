//! The figures of a store, and how many extents may hold chunks and runs.
ghost use Rattle.std.specs.Prelude.{◌≡◌, ◌≢◌, IfOk, [], List, ℕ, false, length, map, MatchOption};
ghost use Rattle.cs_disk.specs.Disk.{Rises};
ghost use Rattle.cs_disk.specs.Reads.{OnlyReads};
ghost use Rattle.cs_extent.specs.State.{extents_of, shape};
ghost use Rattle.cs_index.specs.State.{index_of, newest_first};
ghost use Rattle.law_machine.specs.Extents.{empties};
ghost use Rattle.law_machine.specs.Geometry.{marks_in, weigh_in};
ghost use Rattle.law_machine.specs.Index.{live_at, named_weight, names};
ghost use Rattle.cs_inspect.specs.Chunks.{AreLiveChunks, Chunk};
ghost use Rattle.cs_inspect.specs.Listings.{AreAll};
ghost use Rattle.cs_inspect.specs.Stats.{newest_uses, run_figure, IsQuota};
ghost use Rattle.cs_inspect.specs.Uses.{AreBounded, AreCounted, AreCountedAsRead, AreExtents, HoldsOfHeads};
ghost use Rattle.cs_inspect.specs.Kinds.{LieApart, LieTogether};

use crate::listings::{ids, live_chunks};
use crate::surveys::{ExtentUse, uses};
use cs_core::Core;
use cs_disk::PageDisk;
use cs_extent::Extents;
use cs_frame::Locator;
use cs_index::{Index, StoredRun};
use std::alloc::{AllocError, Global};

/// A run of the index.
#[derive(Clone, Copy, Debug)]
pub struct RunUse {
    /// Where its frame begins.
    pub place: Locator,
    /// How many entries it has.
    pub entries: usize,
}

/// How full a store is.
#[derive(Debug, Drop)]
pub struct Stats {
    /// How each extent is used, in the order of the extents.
    pub extents: Vec<ExtentUse>,
    /// How many extents are empty.
    pub empty: usize,
    /// The runs of the index, oldest first.
    pub runs: Vec<RunUse>,
    /// How many identifiers have an entry, deletions included.
    pub named: usize,
    /// What the newest entry of each weighs, all together. In format 2 each weighs one.
    pub weight: usize,
    /// What they may weigh.
    pub weight_limit: usize,
    /// How many shards are there.
    pub shards: usize,
    /// How many chunks they have together.
    pub chunks: usize,
}

impl Stats {
    /// The figures of a store. Costs what `uses` costs, and two passes over the entries of the index.
    pub fn of<D: PageDisk>(alloc: Global, core: &mut Core<D>) -> Result<Self, AllocError>
        ensures extents { IfOk result (λ stats. AreExtents (shape core.old.store.extents).extents (extents_of core.old.store.extents) stats.extents.items) }
        // Whatever reads failed, the counts are those of what was read.
        ensures read { D.honest core.old.disk
            → HoldsOfHeads D.PageDisk core.old (λ heads. IfOk result (λ stats. AreCountedAsRead (D.failure_count core.old.disk) (D.failure_count core.new.disk) heads stats.extents.items)) }
        // So where none failed they are those of the headers.
        ensures counted { D.honest core.old.disk → ¬ Rises (D.failure_count core.old.disk) (D.failure_count core.new.disk)
            → HoldsOfHeads D.PageDisk core.old (λ heads. IfOk result (λ stats. AreCounted heads stats.extents.items)) }
        // And else a chunk whose read failed isn't live, and counts as unreadable.
        ensures bounded { D.honest core.old.disk
            → HoldsOfHeads D.PageDisk core.old (λ heads. IfOk result (λ stats. AreBounded heads stats.extents.items)) }
        ensures empty { IfOk result (λ stats. stats.empty ≡ empties (extents_of core.old.store.extents).pointer (shape core.old.store.extents).extents) }
        ensures runs { IfOk result (λ stats. newest_uses stats.runs.items ≡ map run_figure core.old.store.index.runs) }
        ensures named { IfOk result (λ stats. stats.named ≡ names (index_of core.old.store.index)) }
        ensures weight { IfOk result (λ stats. stats.weight ≡ named_weight (weigh_in core.old.store.index.format) (index_of core.old.store.index)) }
        // Where each entry weighs one that is how many identifiers have one.
        ensures ones { marks_in core.old.store.index.format ≡ false → IfOk result (λ stats. stats.weight ≡ stats.named) }
        ensures limit { IfOk result (λ stats. stats.weight_limit ≡ core.old.store.index.limit) }
        ensures shards { IfOk result (λ stats. (ids : List ℕ) → AreAll (λ id. live_at (index_of core.old.store.index) id ≢ []) ids → stats.shards ≡ length ids) }
        ensures chunks { IfOk result (λ stats. (chunks : List Chunk) → AreLiveChunks (index_of core.old.store.index) chunks → stats.chunks ≡ length chunks) }
        ensures same { core.new ≡ record core.old { disk = core.new.disk } }
        ensures disk { OnlyReads D.PageDisk core.old.disk core.new.disk }
    {
        let entries = entry_figures(alloc, core.index())?;
        let empty = core.extents().empty_count();
        let extents = uses(alloc, core)?;
        Ok(Stats {
            extents,
            empty,
            runs: entries.runs,
            named: entries.named,
            weight: entries.weight,
            weight_limit: entries.limit,
            shards: entries.shards,
            chunks: entries.chunks,
        })
    }
}

/// What the index says by itself.
#[derive(Drop)]
struct EntryFigures {
    runs: Vec<RunUse>,
    named: usize,
    weight: usize,
    limit: usize,
    shards: usize,
    chunks: usize,
}

/// The figures of an index.
fn entry_figures(alloc: Global, index: &Index) -> Result<EntryFigures, AllocError>
    ensures runs { IfOk result (λ figures. newest_uses figures.runs.items ≡ map run_figure index.now.runs) }
    ensures named { IfOk result (λ figures. figures.named ≡ names (index_of index.now)) }
    ensures weight { IfOk result (λ figures. figures.weight ≡ named_weight (weigh_in index.now.format) (index_of index.now)) }
    ensures ones { marks_in index.now.format ≡ false → IfOk result (λ figures. figures.weight ≡ figures.named) }
    ensures limit { IfOk result (λ figures. figures.limit ≡ index.now.limit) }
    ensures shards { IfOk result (λ figures. (ids : List ℕ) → AreAll (λ id. live_at (index_of index.now) id ≢ []) ids → figures.shards ≡ length ids) }
    ensures chunks { IfOk result (λ figures. (chunks : List Chunk) → AreLiveChunks (index_of index.now) chunks → figures.chunks ≡ length chunks) }
{
    let shards = ids(alloc, index)?.len();
    let chunks = live_chunks(alloc, index)?.len();
    let runs = run_uses(alloc, index.runs())?;
    Ok(EntryFigures {
        runs,
        named: index.named_count(),
        weight: index.weight(),
        limit: index.limit(),
        shards,
        chunks,
    })
}

/// The use of each run.
fn run_uses(alloc: Global, runs: &[StoredRun]) -> Result<Vec<RunUse>, AllocError>
    ensures { IfOk result (λ uses. newest_uses uses.items ≡ map run_figure (newest_first runs.now)) }
{
    let mut uses = Vec::new(alloc);
    for k in 0..runs.len() {
        let run = &runs[k];
        uses.push(RunUse {
            place: run.place,
            entries: run.entries.len(),
        })?;
    }
    Ok(uses)
}

/// How many extents hold chunks and how many hold runs, and how many may once no sweep is unfinished.
#[derive(Clone, Copy, Debug)]
pub struct Quota {
    /// How many extents hold chunks.
    pub chunks: usize,
    /// How many may.
    pub most_chunks: usize,
    /// How many extents hold runs.
    pub runs: usize,
    /// How many may.
    pub most_runs: usize,
}

impl Quota {
    /// The quota of a store, None in format 2, where an extent may hold both. It costs two passes over the extents.
    pub fn of(extents: &Extents) -> Option<Self>
        ensures { MatchOption result (LieTogether (shape extents.now)) (λ quota. LieApart (shape extents.now) × IsQuota (shape extents.now) (extents_of extents.now) quota) }
    {
        if !extents.is_apart() {
            return None;
        }
        let most_runs = most_run_extents(extents);
        Some(Quota {
            chunks: extents.chunk_extent_count(),
            most_chunks: extents
                .extent_count()
                .saturating_sub(most_runs)
                .saturating_sub(2),
            runs: extents.run_extent_count(),
            most_runs,
        })
    }
}

/// How many extents may hold runs.
fn most_run_extents(extents: &Extents) -> usize
    ensures { result ≡ (shape extents.now).run_extents }
{
    if 16 <= extents.extent_count() { 2 } else { 1 }
}

//! How a sweep goes in format 2, where chunks and runs may lie on one extent: a chunk that is moved counts at once
//! where it is moved to.
ghost use Rattle.std.specs.Prelude.{◌≡◌, ◌↔◌, ◌⊎◌, ◌+◌, ◌*◌, ◌^◌, ◌<◌, ◌≤◌, ℕ, List, IfErr, IfOk, IsTrue, MatchOption, MatchResult, None, OnErr, OnOk, Some, false, length, map, true};
ghost use Rattle.cs_chunk.specs.Chunks.{IsFrameIn};
ghost use Rattle.cs_chunk.specs.Newest.{AreNewest};
ghost use Rattle.cs_chunk.specs.Reads.{IsCaused, IsReadRefusal, fault_in};
ghost use Rattle.cs_disk.specs.Disk.{seen};
ghost use Rattle.cs_disk.specs.Reads.{OnlyReads};
ghost use Rattle.cs_extent.specs.Appended.{IsReady};
ghost use Rattle.cs_extent.specs.State.{extents_of, shape};
ghost use Rattle.cs_frame.specs.declared.frames.FrameKind.TheVariants.{Chunk};
ghost use Rattle.cs_frame.specs.Formats.{as_locator, place_of};
ghost use Rattle.cs_frame.specs.Locators.{KeepFormat};
ghost use Rattle.cs_index.specs.Staged.{IsExact, IsWhy};
ghost use Rattle.cs_index.specs.State.{IsSet, id_number, index_of};
ghost use Rattle.law_machine.specs.Element.{Locator as Place};
ghost use Rattle.law_machine.specs.Extents.{marked};
ghost use Rattle.law_machine.specs.Formats.{ChunkFrame};
ghost use Rattle.law_machine.specs.Index.{FirstLive, NothingLive, live_at};
ghost use Rattle.law_machine.specs.Lists.{◌∈◌};
ghost use Rattle.cs_reclaim.specs.Moves.{AnswersMove, AnswersPlace, IsMoveFull, IsMoveWorn, IsMoved};
ghost use Rattle.cs_reclaim.specs.Retired.{IsRetireFull, IsRetireWorn, IsRetired};
ghost use Rattle.cs_reclaim.specs.Sweeps.{IsMarked, IsNotMarked, IsNotSweepable, IsSwept};

use crate::moves::append_again;
use cs_deps::Graph;
use cs_disk::PageDisk;
use cs_extent::{Extents, LAST_GENERATION, Purpose};
use cs_frame::{Places, ShardId};
use cs_index::Index;
use cs_refusal::Refusal;
use std::alloc::{AllocError, Global};
use std::marker::Model;

/// A sweep of one extent, which is marked as being swept until the sweep is abandoned or has retired it.
#[derive(Debug, Drop)]
pub struct Sweep {
    pub(crate) extent: usize,
}

impl Model for Sweep {
    ghost use Rattle.std.specs.Prelude.{ℕ};

    ghost Value = { ℕ };

    ghost view = { λ x. x.extent };
}

impl Sweep {
    /// Begins to sweep an extent. 33 `NotSweepable` if it is open, empty or being swept, or there is no such extent.
    pub fn begin(extents: &mut Extents, extent: usize) -> Result<Sweep, Refusal>
        ensures sweep { IfOk result (λ s. s ≡ extent) }
        ensures marked { OnOk result (extents_of extents.new ≡ marked (extents_of extents.old) extent true) }
        ensures swept { OnOk result (IsSwept (shape extents.new) (extents_of extents.new) extent) }
        ensures shape { shape extents.new ≡ shape extents.old }
        ensures refused { (result ≡ Err Refusal.NotSweepable) ↔ IsNotSweepable (shape extents.old) (extents_of extents.old) extent }
        ensures refusals { IfErr result (λ r. r ≡ Refusal.NotSweepable) }
        ensures same { OnErr result (extents.new ≡ extents.old) }
    {
        if !is_sweepable(extents, extent) {
            return Err(Refusal::NotSweepable);
        }
        extents.set_swept(extent, true);
        Ok(Sweep { extent })
    }

    /// The sweep of an extent that is marked, None if it isn't marked or isn't there. The mark is all there is to a
    /// sweep, so a caller keeps either the value from `begin` or the number alone, as the core does.
    pub fn resume(extents: &Extents, extent: usize) -> Option<Sweep>
        ensures { MatchOption result (IsNotMarked (shape extents.now) (extents_of extents.now) extent) (λ s. (s ≡ extent) × IsMarked (shape extents.now) (extents_of extents.now) extent) }
    {
        if extent < extents.extent_count() && extents.is_swept(extent) {
            Some(Sweep { extent })
        } else {
            None
        }
    }

    /// The extent that is swept.
    pub fn extent(&self) -> usize
        ensures { result ≡ self.now }
    {
        self.extent
    }

    /// Moves the first live chunk, by identifier and then by chunk, off the extent: appends a frame of the same
    /// bytes with `Purpose::Move`, and points the shard at it. Returns the identifier and the number of the chunk,
    /// counted from 0, or None if nothing is live there. Frames of other extents aren't read. The search goes on in the
    /// index from where the last one on this extent ended, as `Index::first_live` does.
    ///
    /// 1 `DeviceFault`, 20 to 24 and 26 as `read_frame`, then 30 `Full`, then 35 `WornOut`; 9 `OutOfMemory` may come
    /// instead of any. After a refusal nothing has changed but room for more.
    pub fn move_one<D: PageDisk>(
        &self,
        alloc: Global,
        index: &mut Index,
        extents: &mut Extents,
        graph: &mut Graph,
        disk: &mut D,
    ) -> Result<Option<(ShardId, usize)>, Refusal>
        requires together { (shape extents.old).apart ≡ false }
        requires swept { IsSwept (shape extents.old) (extents_of extents.old) self.now }
        requires format { index.old.format ≡ (shape extents.old).format }
        requires there { (id : ℕ) (l : Place) → l ∈ live_at (index_of index.old) id → (l.extent < (shape extents.old).extents) × (l.page < (shape extents.old).pages) }
        requires device { 2 + (shape extents.old).extents * (shape extents.old).pages ≤ D.page_count disk.old }
        requires ready { IsReady extents.old graph.old.staging }

        // Nothing is moved exactly where nothing is live there, and then nothing changes.
        ensures none { (result ≡ Ok None) ↔ NothingLive (index_of index.old) self.now }
        ensures unchanged { result ≡ Ok None → (index.new ≡ index.old) × (extents.new ≡ extents.old) × (graph.new ≡ graph.old) × (disk.new ≡ disk.old) }

        // Else the first live chunk is moved, byte for byte.
        ensures moved { (id : ShardId) (chunk : ℕ) → result ≡ Ok (Some (id, chunk))
            → (payload : List ℕ) × (move : IsMoved index.old extents.old graph.old self.now (id_number id) chunk payload index.new extents.new graph.new)
            × (D.honest disk.old → (view : ℕ → List ℕ) → AreNewest graph.old (seen (D.state disk.old)) view → IsFrameIn extents.old view ChunkFrame (as_locator move.from) payload) }

        // The refusals of a frame are those of the first live chunk's, and the others come where it has no fault.
        ensures damaged { D.honest disk.old → (view : ℕ → List ℕ) → AreNewest graph.old (seen (D.state disk.old)) view
            → (id chunk : ℕ) (from : Place) → FirstLive (index_of index.old) self.now id chunk from → AnswersMove (fault_in extents.old view Chunk (as_locator from)) result }
        ensures why { D.honest disk.old → (view : ℕ → List ℕ) → AreNewest graph.old (seen (D.state disk.old)) view
            → (id chunk : ℕ) (from : Place) (payload : List ℕ) → FirstLive (index_of index.old) self.now id chunk from
            → IsFrameIn extents.old view ChunkFrame (as_locator from) payload → AnswersPlace extents.old graph.old.staging payload result }
        // Whatever the device returns, 30 and 35 come only where the frame of some payload finds no place, or no
        // numbers.
        ensures full { IfErr result (λ r. r ≡ Refusal.Full → IsMoveFull extents.old) }
        ensures worn { IfErr result (λ r. r ≡ Refusal.WornOut → IsMoveWorn extents.old graph.old.staging) }
        ensures refusals { IfErr result (λ r. IsReadRefusal r ⊎ (r ≡ Refusal.Full) ⊎ (r ≡ Refusal.WornOut)) }
        ensures refused { OnErr result (index.new ≡ record index.old { room = index.new.room }) }
        ensures unwritten { OnErr result (extents.new ≡ extents.old) }
        ensures unstaged { OnErr result (graph.new ≡ record graph.old { room = graph.new.room }) }

        // Whatever the answer, the sweep goes on, and the next append may be made.
        ensures still { IsSwept (shape extents.new) (extents_of extents.new) self.now }
        ensures ready { IsReady extents.new graph.new.staging }
        ensures shape { shape extents.new ≡ shape extents.old }
        ensures format { index.new.format ≡ index.old.format }
        ensures limit { index.new.limit ≡ index.old.limit }

        // The disk is only read.
        ensures disk { OnlyReads D.PageDisk disk.old disk.new }
        ensures cause { IsCaused (D.failure_count disk.old) (D.failure_count disk.new) result }
    {
        let Some(live) = index.first_live(self.extent) else {
            return Ok(None);
        };
        let Ok(mut places) = places_with_room(alloc, index, live.id) else {
            return Err(Refusal::OutOfMemory);
        };
        match append_again(alloc, extents, graph, disk, live.place) {
            Ok(to) => {
                places.set(live.chunk, to);
                point_at(index, live.id, places);
                Ok(Some((live.id, live.chunk)))
            }
            Err(refusal) => Err(refusal),
        }
    }

    /// Retires the extent, on which nothing may be live: stages one run of all that is live, with `Purpose::Move`, and
    /// the root over it, and empties the extent under that root. Returns the root's version. The extent isn't being
    /// swept any more. `commands` is how many puts and deletes the root includes.
    ///
    /// 34 `StillLive` if something is live there, then 30 `Full` if no extent takes the run, then 35 `WornOut`, also
    /// if the extent's generation is the greatest; 9 `OutOfMemory` may come instead of any. After a refusal nothing has
    /// changed but room for more, and the sweep comes back.
    pub fn retire(
        self,
        index: &mut Index,
        extents: &mut Extents,
        graph: &mut Graph,
        commands: u64,
    ) -> Result<u64, (Refusal, Sweep)>
        requires together { (shape extents.old).apart ≡ false }
        requires swept { IsSwept (shape extents.old) (extents_of extents.old) self }
        requires format { index.old.format ≡ (shape extents.old).format }
        requires limit { index.old.limit ≡ (shape extents.old).most_weight }
        requires ready { IsReady extents.old graph.old.staging }
        requires commands { commands < 2 ^ 63 }
        ensures retired { IfOk result (λ v. IsRetired index.old extents.old graph.old self v commands index.new extents.new graph.new) }

        // The map stays.
        ensures map { (id : ℕ) → live_at (index_of index.new) id ≡ live_at (index_of index.old) id }

        // Which refusal comes, and 9 may come instead of the others.
        ensures nothing { OnOk result (NothingLive (index_of index.old) self) }
        ensures alive { (result ≡ Err (Refusal.StillLive, self)) ↔ ¬ NothingLive (index_of index.old) self }
        ensures why { NothingLive (index_of index.old) self
            → MatchResult result (λ _. (IsRetireFull index.old extents.old → ⊥) × (IsRetireWorn index.old extents.old graph.old.staging self → ⊥)) (λ r. IsWhy r.0 (IsRetireFull index.old extents.old) (IsRetireWorn index.old extents.old graph.old.staging self)) }
        ensures refusals { IfErr result (λ r. (r.0 ≡ Refusal.StillLive) ⊎ (r.0 ≡ Refusal.Full) ⊎ (r.0 ≡ Refusal.WornOut) ⊎ (r.0 ≡ Refusal.OutOfMemory)) }
        ensures back { IfErr result (λ r. r.1 ≡ self) }
        ensures refused { OnErr result (index.new ≡ index.old) }
        ensures unwritten { OnErr result (extents.new ≡ extents.old) }
        ensures unstaged { OnErr result (graph.new ≡ record graph.old { room = graph.new.room }) }

        // Whatever the answer, the next append may be made.
        ensures ready { IsReady extents.new graph.new.staging }
        ensures shape { shape extents.new ≡ shape extents.old }
        ensures format { index.new.format ≡ index.old.format }
        ensures limit { index.new.limit ≡ index.old.limit }
    {
        match retire_extent(self.extent, index, extents, graph, commands) {
            Ok(root) => Ok(root),
            Err(refusal) => Err((refusal, self)),
        }
    }

    /// Ends the sweep; what was moved stays where it is now.
    pub fn abandon(self, extents: &mut Extents)
        requires inside { self < (shape extents.old).extents }
        ensures marked { extents_of extents.new ≡ marked (extents_of extents.old) self false }
        ensures shape { shape extents.new ≡ shape extents.old }
    {
        extents.set_swept(self.extent, false);
    }
}

/// Whether an extent may be swept: it is there, and neither open, empty nor being swept.
pub fn is_sweepable(extents: &Extents, extent: usize) -> bool
    ensures may { IsTrue result → ¬ IsNotSweepable (shape extents.now) (extents_of extents.now) extent }
    ensures not { ¬ (IsTrue result) → IsNotSweepable (shape extents.now) (extents_of extents.now) extent }
{
    extent < extents.extent_count()
        && extents.pointer(extent) > 0
        && !extents.is_open(extent)
        && !extents.is_swept(extent)
}

/// Where the chunks of a shard are, with room in the index for another entry of it.
fn places_with_room(alloc: Global, index: &mut Index, id: ShardId) -> Result<Places, AllocError>
    ensures places { IfOk result (λ places. map place_of places.items ≡ live_at (index_of index.old) (id_number id)) }
    ensures short { IfOk result (λ places. length places.items ≤ 8) }
    ensures marks { IfOk result (λ places. KeepFormat index.old.format places.items) }
    ensures room { OnOk result (0 < index.new.room) }
    ensures rest { index.new ≡ record index.old { room = index.new.room } }
{
    index.reserve(1)?;
    match index.lookup(id) {
        Some(places) => Places::from_slice(alloc, places),
        None => Ok(Places::none()),
    }
}

/// Gives a shard as many places as it has, once the index has room for the entry.
fn point_at(index: &mut Index, id: ShardId, places: Places)
    requires some { (1 ≤ length places.items) × (length places.items ≤ 8) }
    requires marks { KeepFormat index.old.format places.items }
    requires as_many { length (live_at (index_of index.old) (id_number id)) ≡ length places.items }
    requires room { 0 < index.old.room }
    ensures { IsSet index.old (id_number id) (map place_of places.items) index.new }
{
    // Called for its contract alone: what every index keeps.
    index.run_count();
    match index.set(id, places) {
        Ok(()) => {}
        Err(_) => unreachable!(),
    }
}

/// Stages the merged run and its root, and empties the extent under that root.
pub(crate) fn retire_extent(
    extent: usize,
    index: &mut Index,
    extents: &mut Extents,
    graph: &mut Graph,
    commands: u64,
) -> Result<u64, Refusal>
    requires together { (shape extents.old).apart ≡ false }
    requires swept { IsSwept (shape extents.old) (extents_of extents.old) extent }
    requires format { index.old.format ≡ (shape extents.old).format }
    requires limit { index.old.limit ≡ (shape extents.old).most_weight }
    requires ready { IsReady extents.old graph.old.staging }
    requires commands { commands < 2 ^ 63 }
    ensures retired { IfOk result (λ v. IsRetired index.old extents.old graph.old extent v commands index.new extents.new graph.new) }
    ensures map { (id : ℕ) → live_at (index_of index.new) id ≡ live_at (index_of index.old) id }
    ensures nothing { OnOk result (NothingLive (index_of index.old) extent) }
    ensures alive { (result ≡ Err Refusal.StillLive) ↔ ¬ NothingLive (index_of index.old) extent }
    ensures why { NothingLive (index_of index.old) extent → IsExact result (IsRetireFull index.old extents.old) (IsRetireWorn index.old extents.old graph.old.staging extent) }
    ensures refusals { IfErr result (λ r. (r ≡ Refusal.StillLive) ⊎ (r ≡ Refusal.Full) ⊎ (r ≡ Refusal.WornOut) ⊎ (r ≡ Refusal.OutOfMemory)) }
    ensures refused { OnErr result (index.new ≡ index.old) }
    ensures unwritten { OnErr result (extents.new ≡ extents.old) }
    ensures unstaged { OnErr result (graph.new ≡ record graph.old { room = graph.new.room }) }
    ensures ready { IsReady extents.new graph.new.staging }
    ensures shape { shape extents.new ≡ shape extents.old }
    ensures format { index.new.format ≡ index.old.format }
    ensures limit { index.new.limit ≡ index.old.limit }
{
    let _extents = extents.extent_count();
    if index.first_live(extent).is_some() {
        return Err(Refusal::StillLive);
    }
    if extents.generation(extent) == LAST_GENERATION {
        return Err(why_worn(index, extents));
    }
    let root = index.stage_merged(extents, graph, commands, Purpose::Move)?;
    match extents.reset(extent, root) {
        Ok(()) => {}
        Err(_) => unreachable!(),
    }
    extents.set_swept(extent, false);
    Ok(root)
}

/// Why an extent of the greatest generation isn't retired: 30 `Full` comes before 35 `WornOut`, and 9 if memory ran
/// out.
fn why_worn(index: &Index, extents: &Extents) -> Refusal
    requires together { (shape extents.now).apart ≡ false }
    requires format { index.now.format ≡ (shape extents.now).format }
    requires limit { index.now.limit ≡ (shape extents.now).most_weight }
    ensures { ((result ≡ Refusal.WornOut) × (IsRetireFull index.now extents.now → ⊥)) ⊎ ((result ≡ Refusal.Full) × IsRetireFull index.now extents.now) ⊎ (result ≡ Refusal.OutOfMemory) }
{
    match index.merged_fits(extents, Purpose::Move) {
        Ok(true) => Refusal::WornOut,
        Ok(false) => Refusal::Full,
        Err(_) => Refusal::OutOfMemory,
    }
}

//! The sweeps of a store: what lives on an extent goes elsewhere chunk by chunk, and then the extent is emptied.
ghost use Rattle.std.specs.Prelude.{◌≡◌, ◌↔◌, ◌⊎◌, ◌+◌, ◌*◌, ◌<◌, ◌≤◌, ◌^◌, ℕ, List, [], IfErr, IfOk, IsTrue, MatchBool, None, OnErr, OnOk, Some, false, length, option_map, true};
ghost use Rattle.cs_chunk.specs.Chunks.{IsFrameIn};
ghost use Rattle.cs_chunk.specs.Newest.{AreNewest};
ghost use Rattle.cs_chunk.specs.Reads.{IsCaused, IsReadRefusal, fault_in};
ghost use Rattle.cs_disk.specs.Disk.{seen};
ghost use Rattle.cs_disk.specs.Reads.{OnlyReads};
ghost use Rattle.cs_extent.specs.Appended.{IsReady};
ghost use Rattle.cs_extent.specs.State.{extents_of, shape};
ghost use Rattle.cs_frame.specs.declared.frames.FrameKind.TheVariants.{Chunk};
ghost use Rattle.cs_frame.specs.Formats.{as_locator, place_of};
ghost use Rattle.cs_index.specs.Copies.{numbered};
ghost use Rattle.cs_index.specs.Merges.{deletions_go, stage_takes};
ghost use Rattle.cs_index.specs.Staged.{IsExact};
ghost use Rattle.cs_index.specs.State.{id_number, index_of};
ghost use Rattle.law_machine.specs.Element.{Locator as Place};
ghost use Rattle.law_machine.specs.Extents.{marked};
ghost use Rattle.law_machine.specs.Formats.{ChunkFrame};
ghost use Rattle.law_machine.specs.Index.{live_at, lookup};
ghost use Rattle.law_machine.specs.Lists.{◌∈◌};
ghost use Rattle.cs_reclaim.specs.ByRule.{IsBegunIn, IsMovedIn, IsNextIn, IsRetireExactIn, IsRetiredIn, IsSweepFullIn, IsSweepStagedIn, IsSweepWornIn, IsSweptIn, MayNotBeginIn, MayStageIn, NothingToMoveIn, StaysIn, is_left_over_in};
ghost use Rattle.cs_reclaim.specs.Copied.{AllUpTo, AreInOrder, last_of, last_place_of};
ghost use Rattle.cs_reclaim.specs.Moves.{AnswersMove, AnswersPlace, IsMoveFull, IsMoveWorn};
ghost use Rattle.cs_reclaim.specs.Sweeps.{IsMarked, IsNotMarked};

use crate::roots::is_any_swept;
use crate::sweeps_v2::{Sweep, is_sweepable, retire_extent};
use cs_deps::Graph;
use cs_disk::PageDisk;
use cs_extent::Extents;
use cs_frame::{Locator, ShardId};
use cs_index::{ChunkCopy, Index};
use cs_refusal::Refusal;
use std::alloc::Global;
use std::marker::Model;

/// What the sweeps of a store copied, until a root after their end. Its value lists the copies newest first.
///
/// One sweep goes on at a time. It copies what lives on its extent, and a chunk that was copied counts where it lay
/// until the extent is retired. In format 2 a chunk that is moved counts at once where it is now, and no copy is noted.
#[derive(Debug, Drop)]
pub struct Sweeps {
    /// Oldest first.
    pub(crate) copies: Vec<ChunkCopy>,
}

impl Model for Sweeps {
    ghost use Rattle.std.specs.Prelude.{◌<◌, List};
    ghost use Rattle.std.specs.List.{AllByRecursion};
    ghost use Rattle.cs_index.specs.Copies.{newest_copies};
    ghost use Rattle.law_machine.specs.Element.{Copy};

    ghost Value = { List Copy };

    ghost view = { λ x. newest_copies x.copies.items };

    ghost invariant = { λ x. AllByRecursion (λ c. c.chunk < 8) x.copies.items };
}

impl Sweeps {
    /// No copies. Asks for no memory.
    pub fn none(alloc: Global) -> Sweeps
        ensures { result ≡ [] }
    {
        Sweeps {
            copies: Vec::new(alloc),
        }
    }

    /// Whether no copy is noted.
    pub fn is_empty(&self) -> bool
        ensures { IsTrue result ↔ (self.now ≡ []) }
    {
        self.copies.is_empty()
    }

    /// How many copies are noted.
    pub fn len(&self) -> usize
        ensures { result ≡ length self.now }
    {
        self.copies.len()
    }

    /// Where the last copy lies.
    pub fn last_place(&self) -> Option<Locator>
        ensures { option_map place_of result ≡ last_place_of self.now }
    {
        match self.copies.last() {
            Some(copy) => Some(copy.to),
            None => None,
        }
    }

    /// Which chunk was copied last, by identifier and number, counted from 0.
    pub fn last(&self) -> Option<(ShardId, usize)>
        ensures { option_map numbered result ≡ last_of self.now }
    {
        match self.copies.last() {
            Some(copy) => Some((copy.id, copy.chunk)),
            None => None,
        }
    }

    /// Begins to sweep an extent, which is marked. It is neither the open extent any more nor the one that the next
    /// copy goes to. In format 2 it is only marked.
    ///
    /// 33 `NotSweepable` if the sweep may not begin, as `may_begin` has it.
    pub fn begin(&self, extents: &mut Extents, extent: usize) -> Result<(), Refusal>
        ensures begun { OnOk result (IsBegunIn extents.old self.now extent extents.new) }
        ensures swept { OnOk result (IsSweptIn extents.new extent) }
        ensures shape { shape extents.new ≡ shape extents.old }
        ensures refused { (result ≡ Err Refusal.NotSweepable) ↔ MayNotBeginIn extents.old self.now extent }
        ensures refusals { IfErr result (λ r. r ≡ Refusal.NotSweepable) }
        ensures same { OnErr result (extents.new ≡ extents.old) }
    {
        if !self.may_begin(extents, extent) {
            return Err(Refusal::NotSweepable);
        }
        extents.set_swept(extent, true);
        if extents.is_apart() {
            extents.set_aside(extent);
        }
        Ok(())
    }

    /// Whether a sweep of an extent may begin: no other goes on or left copies, and the extent is there, isn't empty
    /// and holds chunks. Costs a pass over the extents. In format 2: the extent is there, and neither open, empty nor
    /// being swept.
    pub fn may_begin(&self, extents: &Extents, extent: usize) -> bool
        ensures may { IsTrue result → ¬ MayNotBeginIn extents.now self.now extent }
        ensures not { ¬ (IsTrue result) → MayNotBeginIn extents.now self.now extent }
    {
        if !extents.is_apart() {
            return is_sweepable(extents, extent);
        }
        self.is_empty()
            && extent < extents.extent_count()
            && extents.pointer(extent) > 0
            && !extents.holds_runs(extent)
            && !is_any_swept(extents)
    }

    /// Whether an extent is being swept.
    pub fn is_swept(&self, extents: &Extents, extent: usize) -> bool
        ensures { MatchBool result (IsMarked (shape extents.now) (extents_of extents.now) extent) (IsNotMarked (shape extents.now) (extents_of extents.now) extent) }
    {
        extent < extents.extent_count() && extents.is_swept(extent)
    }

    /// Gives the sweep of an extent up: what was copied is left over until the next root. What was moved in format 2
    /// stays where it is now.
    ///
    /// 33 `NotSweepable` if the extent isn't being swept.
    pub fn abandon(&self, extents: &mut Extents, extent: usize) -> Result<(), Refusal>
        ensures marked { OnOk result (IsMarked (shape extents.old) (extents_of extents.old) extent) }
        ensures ended { OnOk result (extents_of extents.new ≡ marked (extents_of extents.old) extent false) }
        ensures refused { IfErr result (λ r. (r ≡ Refusal.NotSweepable) × IsNotMarked (shape extents.old) (extents_of extents.old) extent) }
        ensures same { OnErr result (extents.new ≡ extents.old) }
        ensures shape { shape extents.new ≡ shape extents.old }
    {
        if !self.is_swept(extents, extent) {
            return Err(Refusal::NotSweepable);
        }
        extents.set_swept(extent, false);
        Ok(())
    }

    /// Moves the next chunk off an extent, by identifier and then by chunk: appends a frame of the same bytes with
    /// `Purpose::Move`. Returns the identifier and the number of the chunk, counted from 0, or None if nothing is left
    /// to move.
    ///
    /// The chunk is copied: it counts where it lay, the copy is noted, and the search goes on in the index after the
    /// last copy. In format 2 the shard names the new place at once, and the search goes on as `Index::first_live`
    /// does.
    ///
    /// 1 `DeviceFault`, 20 to 24 and 26 as `read_frame`, then 30 `Full`, then 35 `WornOut`; 9 `OutOfMemory` may come
    /// instead of any. After a refusal nothing has changed but room for more.
    pub fn move_one<D: PageDisk>(
        &mut self,
        alloc: Global,
        extent: usize,
        index: &mut Index,
        extents: &mut Extents,
        graph: &mut Graph,
        disk: &mut D,
    ) -> Result<Option<(ShardId, usize)>, Refusal>
        requires swept { IsSweptIn extents.old extent }
        requires order { (shape extents.old).apart ≡ true → AreInOrder self.old }
        requires up_to { (shape extents.old).apart ≡ true → AllUpTo (index_of index.old) self.old extent }
        requires format { index.old.format ≡ (shape extents.old).format }
        requires there { (id : ℕ) (l : Place) → l ∈ live_at (index_of index.old) id → (l.extent < (shape extents.old).extents) × (l.page < (shape extents.old).pages) }
        requires device { 2 + (shape extents.old).extents * (shape extents.old).pages ≤ D.page_count disk.old }
        requires ready { IsReady extents.old graph.old.staging }

        // Nothing is moved exactly where nothing is left to move, and then nothing changes.
        ensures none { (result ≡ Ok None) ↔ NothingToMoveIn extents.old (index_of index.old) self.old extent }
        ensures unchanged { result ≡ Ok None → (self.new ≡ self.old) × (index.new ≡ index.old) × (extents.new ≡ extents.old) × (graph.new ≡ graph.old) × (disk.new ≡ disk.old) }

        // Else the next chunk is moved, byte for byte.
        ensures moved { (id : ShardId) (chunk : ℕ) → result ≡ Ok (Some (id, chunk)) → (payload : List ℕ) × (from : Place)
            × IsMovedIn index.old extents.old graph.old self.old extent (id_number id) chunk from payload index.new extents.new graph.new self.new
            × (D.honest disk.old → (view : ℕ → List ℕ) → AreNewest graph.old (seen (D.state disk.old)) view → IsFrameIn extents.old view ChunkFrame (as_locator from) payload) }

        // The refusals of a frame are those of the next chunk's, and the others come where it has no fault.
        ensures damaged { D.honest disk.old → (view : ℕ → List ℕ) → AreNewest graph.old (seen (D.state disk.old)) view
            → (id chunk : ℕ) (from : Place) → IsNextIn extents.old (index_of index.old) self.old extent id chunk from → AnswersMove (fault_in extents.old view Chunk (as_locator from)) result }
        ensures why { D.honest disk.old → (view : ℕ → List ℕ) → AreNewest graph.old (seen (D.state disk.old)) view
            → (id chunk : ℕ) (from : Place) (payload : List ℕ) → IsNextIn extents.old (index_of index.old) self.old extent id chunk from
            → IsFrameIn extents.old view ChunkFrame (as_locator from) payload → AnswersPlace extents.old graph.old.staging payload result }
        // Whatever the device returns, 30 and 35 come only where the frame of some payload finds no place, or no
        // numbers.
        ensures full { IfErr result (λ r. r ≡ Refusal.Full → IsMoveFull extents.old) }
        ensures worn { IfErr result (λ r. r ≡ Refusal.WornOut → IsMoveWorn extents.old graph.old.staging) }
        ensures refusals { IfErr result (λ r. IsReadRefusal r ⊎ (r ≡ Refusal.Full) ⊎ (r ≡ Refusal.WornOut)) }
        ensures refused { OnErr result (StaysIn extents.old index.old index.new) }
        ensures kept { OnErr result (self.new ≡ self.old) }
        ensures unwritten { OnErr result (extents.new ≡ extents.old) }
        ensures unstaged { OnErr result (graph.new ≡ record graph.old { room = graph.new.room }) }

        // Whatever the answer, the sweep goes on, and the next append may be made.
        ensures still { IsSweptIn extents.new extent }
        ensures order { (shape extents.old).apart ≡ true → AreInOrder self.new }
        ensures up_to { (shape extents.old).apart ≡ true → AllUpTo (index_of index.new) self.new extent }
        ensures ready { IsReady extents.new graph.new.staging }
        ensures shape { shape extents.new ≡ shape extents.old }
        ensures format { index.new.format ≡ index.old.format }
        ensures limit { index.new.limit ≡ index.old.limit }

        // The disk is only read.
        ensures disk { OnlyReads D.PageDisk disk.old disk.new }
        ensures cause { IsCaused (D.failure_count disk.old) (D.failure_count disk.new) result }
    {
        if !extents.is_apart() {
            let sweep = Sweep { extent };
            return sweep.move_one(alloc, index, extents, graph, disk);
        }
        self.copy_one(alloc, extent, index, extents, graph, disk)
    }

    /// Retires an extent that is swept, on which nothing is left to move: it isn't being swept any more, a root is
    /// staged, and the extent is emptied under it. Returns the root's version. `commands` is how many puts and deletes
    /// the root includes.
    ///
    /// What was copied counts, if the chunk still lies where it was copied from, the root is staged as by `stage`, and
    /// no copy is noted after it. The extent is emptied with the other blank ones. In format 2 one run of all that is
    /// live is staged with `Purpose::Move`, and the root over it.
    ///
    /// 34 `StillLive` if a chunk is left to move, then 30 `Full` if no extent takes a run, then 35 `WornOut`, also
    /// if the extent's generation is the greatest; 9 `OutOfMemory` may come instead of any. After a refusal nothing has
    /// changed but room for more.
    pub fn retire(
        &mut self,
        extent: usize,
        index: &mut Index,
        extents: &mut Extents,
        graph: &mut Graph,
        commands: u64,
    ) -> Result<u64, Refusal>
        requires swept { IsSweptIn extents.old extent }
        requires order { (shape extents.old).apart ≡ true → AreInOrder self.old }
        requires up_to { (shape extents.old).apart ≡ true → AllUpTo (index_of index.old) self.old extent }
        requires runs { (shape extents.old).apart ≡ true → length index.old.runs ≤ (shape extents.old).most_runs }
        requires format { index.old.format ≡ (shape extents.old).format }
        requires limit { index.old.limit ≡ (shape extents.old).most_weight }
        requires ready { IsReady extents.old graph.old.staging }
        requires commands { commands < 2 ^ 63 }
        ensures retired { IfOk result (λ v. IsRetiredIn index.old extents.old graph.old self.old extent v commands index.new extents.new graph.new self.new) }

        // If no copy is to count, the map stays.
        ensures map { (shape extents.old).apart ≡ false → (id : ℕ) → live_at (index_of index.new) id ≡ live_at (index_of index.old) id }

        // Which refusal comes, and 9 may come instead of the others.
        ensures all { OnOk result (NothingToMoveIn extents.old (index_of index.old) self.old extent) }
        ensures left { (result ≡ Err Refusal.StillLive) ↔ ¬ NothingToMoveIn extents.old (index_of index.old) self.old extent }
        ensures why { NothingToMoveIn extents.old (index_of index.old) self.old extent → IsRetireExactIn result index.old extents.old graph.old self.old extent }
        ensures refusals { IfErr result (λ r. (r ≡ Refusal.StillLive) ⊎ (r ≡ Refusal.Full) ⊎ (r ≡ Refusal.WornOut) ⊎ (r ≡ Refusal.OutOfMemory)) }
        ensures refused { OnErr result (index.new ≡ index.old) }
        ensures kept { OnErr result (self.new ≡ self.old) }
        ensures unwritten { OnErr result (extents.new ≡ extents.old) }
        ensures unstaged { OnErr result (graph.new ≡ record graph.old { room = graph.new.room }) }

        // Whatever the answer, the next append may be made.
        ensures ready { IsReady extents.new graph.new.staging }
        ensures shape { shape extents.new ≡ shape extents.old }
        ensures format { index.new.format ≡ index.old.format }
        ensures limit { index.new.limit ≡ index.old.limit }
    {
        if !extents.is_apart() {
            return retire_extent(extent, index, extents, graph, commands);
        }
        self.retire_copied(extent, index, extents, graph, commands)
    }

    /// Stages the table and as many of the newest runs as a Stage merges as one run, and the root over what stands
    /// then. `commands` is how many puts and deletes the root includes. Returns the version of the root, or None if
    /// there is nothing to stage: then nothing changes.
    ///
    /// All become one run if that of the newest goes nowhere. If the table is empty a root alone is staged if copies of
    /// a sweep that was given up are noted. If no sweep is unfinished no copy is noted after it, and blank extents are
    /// emptied under the root. None of this happens in format 2.
    ///
    /// 30 `Full` if no extent takes a run, then 35 `WornOut` if a number would pass 2^63 - 1; 9 `OutOfMemory` may
    /// come instead of either. After a refusal nothing has changed but the graph's room.
    pub fn stage(
        &mut self,
        index: &mut Index,
        extents: &mut Extents,
        graph: &mut Graph,
        commands: u64,
    ) -> Result<Option<u64>, Refusal>
        requires runs { (shape extents.old).apart ≡ true → length index.old.runs ≤ (shape extents.old).most_runs }
        requires format { index.old.format ≡ (shape extents.old).format }
        requires limit { index.old.limit ≡ (shape extents.old).most_weight }
        requires ready { IsReady extents.old graph.old.staging }
        requires commands { commands < 2 ^ 63 }

        // What is staged.
        ensures none { IfOk result (λ staged. (staged ≡ None) ↔ ¬ MayStageIn extents.old index.old self.old) }
        ensures unchanged { result ≡ Ok None → (self.new ≡ self.old) × (index.new ≡ index.old) × (extents.new ≡ extents.old) × (graph.new ≡ graph.old) }
        ensures staged { (v : ℕ) → result ≡ Ok (Some v) → IsSweepStagedIn index.old extents.old graph.old self.old v commands index.new extents.new graph.new self.new }

        // The map stays: in format 2 every entry if no merge takes deletions away, and all that is live in any case.
        ensures lookups { (shape extents.old).apart ≡ false → deletions_go (shape extents.old) index.old (stage_takes (shape extents.old) index.old) ≡ false → (id : ℕ) → lookup id (index_of index.new) ≡ lookup id (index_of index.old) }
        ensures map { (id : ℕ) → live_at (index_of index.new) id ≡ live_at (index_of index.old) id }

        // Whatever the answer, the next append may be made.
        ensures ready { IsReady extents.new graph.new.staging }
        ensures shape { shape extents.new ≡ shape extents.old }
        ensures format { index.new.format ≡ index.old.format }
        ensures limit { index.new.limit ≡ index.old.limit }

        ensures why { IsExact result (IsSweepFullIn index.old extents.old self.old) (IsSweepWornIn index.old extents.old graph.old.staging self.old) }
        ensures refused { OnErr result (index.new ≡ index.old) }
        ensures kept { OnErr result (self.new ≡ self.old) }
        ensures unwritten { OnErr result (extents.new ≡ extents.old) }
        ensures unstaged { OnErr result (graph.new ≡ record graph.old { room = graph.new.room }) }
    {
        if !self.may_stage(index, extents) {
            return Ok(None);
        }
        if !extents.is_apart() {
            return match index.stage_v2(extents, graph, commands) {
                Ok(root) => Ok(Some(root)),
                Err(refusal) => Err(refusal),
            };
        }
        match index.stage_root(extents, graph, commands) {
            Ok(root) => {
                self.end_root(index, extents, root);
                Ok(Some(root))
            }
            Err(refusal) => Err(refusal),
        }
    }

    /// Whether copies of a sweep that was given up are noted still. In format 2 none are.
    pub fn are_left_over(&self, extents: &Extents) -> bool
        ensures { result ≡ is_left_over_in extents.now self.now }
    {
        extents.is_apart() && !self.is_empty() && !is_any_swept(extents)
    }

    /// Whether there is something to stage a root for.
    fn may_stage(&self, index: &Index, extents: &Extents) -> bool
        ensures { IsTrue result ↔ MayStageIn extents.now index.now self.now }
    {
        !index.is_table_empty() || self.are_left_over(extents)
    }
}

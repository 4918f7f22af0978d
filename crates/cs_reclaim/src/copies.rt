//! How a sweep goes where chunks and runs lie apart: what lives on an extent is copied chunk by chunk, and the copies
//! count once it is retired.
ghost use Rattle.std.specs.Prelude.{◌≡◌, ◌↔◌, ◌⊎◌, ◌+◌, ◌*◌, ◌<◌, ◌≤◌, ◌^◌, ℕ, List, [], IfErr, IfOk, None, OnErr, OnOk, Some, false, length, true};
ghost use Rattle.cs_chunk.specs.Chunks.{IsFrameIn};
ghost use Rattle.cs_chunk.specs.Newest.{AreNewest};
ghost use Rattle.cs_chunk.specs.Reads.{IsCaused, IsReadRefusal, fault_in};
ghost use Rattle.cs_disk.specs.Disk.{seen};
ghost use Rattle.cs_disk.specs.Reads.{OnlyReads};
ghost use Rattle.cs_extent.specs.Appended.{IsReady};
ghost use Rattle.cs_extent.specs.State.{IsWhole, State as ExtentsState, extents_of, shape};
ghost use Rattle.cs_frame.specs.declared.frames.FrameKind.TheVariants.{Chunk};
ghost use Rattle.cs_frame.specs.Formats.{as_locator};
ghost use Rattle.cs_index.specs.State.{id_number, index_of};
ghost use Rattle.law_machine.specs.Apart.{AllCopied, FirstUncopied};
ghost use Rattle.law_machine.specs.Element.{Locator as Place};
ghost use Rattle.law_machine.specs.Formats.{ChunkFrame};
ghost use Rattle.law_machine.specs.Index.{live_at};
ghost use Rattle.law_machine.specs.Lists.{◌∈◌};
ghost use Rattle.cs_reclaim.specs.Copied.{AllUpTo, AreInOrder, IsCopyMade};
ghost use Rattle.cs_reclaim.specs.Moves.{AnswersMove, AnswersPlace, IsMoveFull, IsMoveWorn};
ghost use Rattle.cs_reclaim.specs.Rooted.{IsRetireExact, IsRetiredApart, IsUnmarked};
ghost use Rattle.cs_reclaim.specs.Sweeps.{IsSweptApart};

use crate::moves::append_again;
use crate::sweeps::Sweeps;
use cs_deps::Graph;
use cs_disk::PageDisk;
use cs_extent::{Extents, LAST_GENERATION};
use cs_frame::ShardId;
use cs_index::{ChunkCopy, Index};
use cs_refusal::Refusal;
use std::alloc::Global;

impl Sweeps {
    /// Moves the next chunk as `move_one` does: copies the first that lives on the extent and isn't copied. It counts
    /// where it lay. The search goes on in the index after the last copy.
    pub(crate) fn copy_one<D: PageDisk>(
        &mut self,
        alloc: Global,
        extent: usize,
        index: &Index,
        extents: &mut Extents,
        graph: &mut Graph,
        disk: &mut D,
    ) -> Result<Option<(ShardId, usize)>, Refusal>
        requires apart { (shape extents.old).apart ≡ true }
        requires swept { IsSweptApart (shape extents.old) (extents_of extents.old) extent }
        requires order { AreInOrder self.old }
        requires up_to { AllUpTo (index_of index.now) self.old extent }
        requires there { (id : ℕ) (l : Place) → l ∈ live_at (index_of index.now) id → (l.extent < (shape extents.old).extents) × (l.page < (shape extents.old).pages) }
        requires device { 2 + (shape extents.old).extents * (shape extents.old).pages ≤ D.page_count disk.old }
        requires ready { IsReady extents.old graph.old.staging }
        ensures none { (result ≡ Ok None) ↔ AllCopied (index_of index.now) self.old extent }
        ensures unchanged { result ≡ Ok None → (self.new ≡ self.old) × (extents.new ≡ extents.old) × (graph.new ≡ graph.old) × (disk.new ≡ disk.old) }
        ensures copied { (id : ShardId) (chunk : ℕ) → result ≡ Ok (Some (id, chunk))
            → (payload : List ℕ) × (copy : IsCopyMade index.now extents.old graph.old self.old extent (id_number id) chunk payload self.new extents.new graph.new)
            × (D.honest disk.old → (view : ℕ → List ℕ) → AreNewest graph.old (seen (D.state disk.old)) view → IsFrameIn extents.old view ChunkFrame (as_locator copy.from) payload) }
        ensures damaged { D.honest disk.old → (view : ℕ → List ℕ) → AreNewest graph.old (seen (D.state disk.old)) view
            → (id chunk : ℕ) (from : Place) → FirstUncopied (index_of index.now) self.old extent id chunk from → AnswersMove (fault_in extents.old view Chunk (as_locator from)) result }
        ensures why { D.honest disk.old → (view : ℕ → List ℕ) → AreNewest graph.old (seen (D.state disk.old)) view
            → (id chunk : ℕ) (from : Place) (payload : List ℕ) → FirstUncopied (index_of index.now) self.old extent id chunk from
            → IsFrameIn extents.old view ChunkFrame (as_locator from) payload → AnswersPlace extents.old graph.old.staging payload result }
        ensures full { IfErr result (λ r. r ≡ Refusal.Full → IsMoveFull extents.old) }
        ensures worn { IfErr result (λ r. r ≡ Refusal.WornOut → IsMoveWorn extents.old graph.old.staging) }
        ensures refusals { IfErr result (λ r. IsReadRefusal r ⊎ (r ≡ Refusal.Full) ⊎ (r ≡ Refusal.WornOut)) }
        ensures refused { OnErr result (self.new ≡ self.old) }
        ensures unwritten { OnErr result (extents.new ≡ extents.old) }
        ensures unstaged { OnErr result (graph.new ≡ record graph.old { room = graph.new.room }) }
        ensures still { IsSweptApart (shape extents.new) (extents_of extents.new) extent }
        ensures order { AreInOrder self.new }
        ensures up_to { AllUpTo (index_of index.now) self.new extent }
        ensures ready { IsReady extents.new graph.new.staging }
        ensures shape { shape extents.new ≡ shape extents.old }
        ensures disk { OnlyReads D.PageDisk disk.old disk.new }
        ensures cause { IsCaused (D.failure_count disk.old) (D.failure_count disk.new) result }
    {
        // Called for its contract alone: what every index keeps.
        index.run_count();
        let Some(live) = index.first_behind(extent, self.last()) else {
            return Ok(None);
        };
        match self.copies.reserve(1) {
            Ok(()) => {}
            Err(_) => return Err(Refusal::OutOfMemory),
        }
        match append_again(alloc, extents, graph, disk, live.place) {
            Ok(to) => {
                self.copies.push_reserved(ChunkCopy {
                    id: live.id,
                    chunk: live.chunk,
                    from: live.place,
                    to,
                });
                Ok(Some((live.id, live.chunk)))
            }
            Err(refusal) => Err(refusal),
        }
    }

    /// Retires an extent as `retire` does, once all that lives there is copied: what was copied counts, where the chunk
    /// still lies where it was copied from. With the other blank extents this one is emptied under the root, after
    /// which no copy is noted.
    pub(crate) fn retire_copied(
        &mut self,
        extent: usize,
        index: &mut Index,
        extents: &mut Extents,
        graph: &mut Graph,
        commands: u64,
    ) -> Result<u64, Refusal>
        requires swept { IsSweptApart (shape extents.old) (extents_of extents.old) extent }
        requires order { AreInOrder self.old }
        requires up_to { AllUpTo (index_of index.old) self.old extent }
        requires apart { (shape extents.old).apart ≡ true }
        requires format { index.old.format ≡ (shape extents.old).format }
        requires limit { index.old.limit ≡ (shape extents.old).most_weight }
        requires runs { length index.old.runs ≤ (shape extents.old).most_runs }
        requires ready { IsReady extents.old graph.old.staging }
        requires commands { commands < 2 ^ 63 }
        ensures retired { IfOk result (λ v. IsRetiredApart index.old extents.old graph.old self.old extent v commands index.new extents.new graph.new self.new × (self.new ≡ [])) }
        ensures all { OnOk result (AllCopied (index_of index.old) self.old extent) }
        ensures left { (result ≡ Err Refusal.StillLive) ↔ ¬ AllCopied (index_of index.old) self.old extent }
        ensures why { AllCopied (index_of index.old) self.old extent → IsRetireExact result index.old extents.old graph.old self.old extent }
        ensures refusals { IfErr result (λ r. (r ≡ Refusal.StillLive) ⊎ (r ≡ Refusal.Full) ⊎ (r ≡ Refusal.WornOut) ⊎ (r ≡ Refusal.OutOfMemory)) }
        ensures refused { OnErr result (index.new ≡ index.old) }
        ensures kept { OnErr result (self.new ≡ self.old) }
        ensures unwritten { OnErr result (extents.new ≡ extents.old) }
        ensures unstaged { OnErr result (graph.new ≡ record graph.old { room = graph.new.room }) }
        ensures ready { IsReady extents.new graph.new.staging }
        ensures shape { shape extents.new ≡ shape extents.old }
        ensures format { index.new.format ≡ index.old.format }
        ensures limit { index.new.limit ≡ index.old.limit }
    {
        // Called for its contract alone: what all extents keep.
        extents.extent_count();
        if index.first_behind(extent, self.last()).is_some() {
            return Err(Refusal::StillLive);
        }
        let generation_worn = extents.generation(extent) == LAST_GENERATION;
        unmark(extents, extent);
        match index.stage_settled(extents, graph, commands, &self.copies, generation_worn) {
            Ok(root) => {
                self.copies.clear();
                self.end_root(index, extents, root);
                Ok(root)
            }
            Err(refusal) => {
                mark_again(extents, extent);
                Err(refusal)
            }
        }
    }
}

/// Takes the mark off an extent that is to be retired, before the root is staged: with it the extent would count as
/// held by an unfinished sweep, and wouldn't be emptied under that root.
fn unmark(extents: &mut Extents, extent: usize)
    requires { extent < (shape extents.old).extents }
    ensures { IsUnmarked extents.old extent extents.new }
{
    extents.set_swept(extent, false);
    // Called for its contract alone: what all extents keep.
    extents.extent_count();
}

/// Marks it again once the root was refused, after which the extents are as they were and the sweep goes on.
fn mark_again(extents: &mut Extents, extent: usize)
    requires { extent < (shape extents.old).extents }
    ensures { (before : ExtentsState) → IsWhole before → (extents_of before).swept extent ≡ true → IsUnmarked before extent extents.old → extents.new ≡ before }
{
    extents.set_swept(extent, true);
    // Called for its contract alone: what all extents keep.
    extents.extent_count();
}

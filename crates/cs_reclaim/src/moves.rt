//! How a chunk that lives on an extent is written again elsewhere.
ghost use Rattle.std.specs.Prelude.{◌≡◌, ◌⊎◌, ◌+◌, ◌*◌, ◌<◌, ◌≤◌, ℕ, List, IfErr, IfOk, OnErr, length};
ghost use Rattle.cs_chunk.specs.Chunks.{IsFrameIn};
ghost use Rattle.cs_chunk.specs.Newest.{AreNewest};
ghost use Rattle.cs_chunk.specs.Reads.{IsCaused, IsReadRefusal, fault_in};
ghost use Rattle.cs_disk.specs.Disk.{seen};
ghost use Rattle.cs_disk.specs.Reads.{OnlyReads};
ghost use Rattle.cs_extent.specs.Appended.{IsAppended, IsReady};
ghost use Rattle.cs_extent.specs.State.{shape};
ghost use Rattle.cs_extent.specs.Worn.{IsFrameWorn};
ghost use Rattle.cs_frame.specs.declared.frames.FrameKind.TheVariants.{Chunk};
ghost use Rattle.cs_index.specs.Staged.{IsExact};
ghost use Rattle.law_machine.specs.Extents.{ForMove};
ghost use Rattle.law_machine.specs.Formats.{ChunkFrame};
ghost use Rattle.cs_reclaim.specs.Moves.{AnswersMove, AnswersPlace, IsMoveFull, IsMoveWorn, Nowhere, chunk_frame};

use cs_chunk::frame_at;
use cs_deps::Graph;
use cs_disk::PageDisk;
use cs_extent::{Extents, Purpose};
use cs_frame::{FrameKind, Locator, encode_frame};
use cs_refusal::Refusal;
use std::alloc::Global;

/// Reads the frame of a chunk, and appends it again. Returns where it is now.
pub(crate) fn append_again<D: PageDisk>(
    alloc: Global,
    extents: &mut Extents,
    graph: &mut Graph,
    disk: &mut D,
    from: Locator,
) -> Result<Locator, Refusal>
    requires extent { from.extent < (shape extents.old).extents }
    requires page { from.page < (shape extents.old).pages }
    requires device { 2 + (shape extents.old).extents * (shape extents.old).pages ≤ D.page_count disk.old }
    requires ready { IsReady extents.old graph.old.staging }
    ensures appended { IfOk result (λ to. (payload : List ℕ) × IsAppended extents.old graph.old ForMove (chunk_frame extents.old payload) to extents.new graph.new
        × (to.mark ≡ from.mark)
        × (D.honest disk.old → (view : ℕ → List ℕ) → AreNewest graph.old (seen (D.state disk.old)) view → IsFrameIn extents.old view ChunkFrame from payload)) }
    ensures damaged { D.honest disk.old → (view : ℕ → List ℕ) → AreNewest graph.old (seen (D.state disk.old)) view → AnswersMove (fault_in extents.old view Chunk from) result }
    ensures why { D.honest disk.old → (view : ℕ → List ℕ) (payload : List ℕ) → AreNewest graph.old (seen (D.state disk.old)) view
        → IsFrameIn extents.old view ChunkFrame from payload → AnswersPlace extents.old graph.old.staging payload result }
    ensures full { IfErr result (λ r. r ≡ Refusal.Full → IsMoveFull extents.old) }
    ensures worn { IfErr result (λ r. r ≡ Refusal.WornOut → IsMoveWorn extents.old graph.old.staging) }
    ensures refusals { IfErr result (λ r. IsReadRefusal r ⊎ (r ≡ Refusal.Full) ⊎ (r ≡ Refusal.WornOut)) }
    ensures unwritten { OnErr result (extents.new ≡ extents.old) }
    ensures unstaged { OnErr result (graph.new ≡ record graph.old { room = graph.new.room }) }
    ensures ready { IsReady extents.new graph.new.staging }
    ensures shape { shape extents.new ≡ shape extents.old }
    ensures disk { OnlyReads D.PageDisk disk.old disk.new }
    ensures cause { IsCaused (D.failure_count disk.old) (D.failure_count disk.new) result }
{
    match frame_at(alloc, extents, graph, disk, FrameKind::Chunk, from) {
        Ok(frame) => append_chunk(alloc, extents, graph, frame.payload()),
        Err(refusal) => Err(refusal),
    }
}

/// Appends the frame of a chunk of this payload.
fn append_chunk(
    alloc: Global,
    extents: &mut Extents,
    graph: &mut Graph,
    payload: &[u8],
) -> Result<Locator, Refusal>
    requires size { length (chunk_frame extents.old payload.now) ≤ (shape extents.old).pages }
    requires ready { IsReady extents.old graph.old.staging }
    ensures appended { IfOk result (λ to. IsAppended extents.old graph.old ForMove (chunk_frame extents.old payload.now) to extents.new graph.new) }
    ensures why { IsExact result (Nowhere extents.old (length (chunk_frame extents.old payload.now))) (IsFrameWorn extents.old ForMove graph.old.staging (length (chunk_frame extents.old payload.now))) }
    ensures unwritten { OnErr result (extents.new ≡ extents.old) }
    ensures unstaged { OnErr result (graph.new ≡ record graph.old { room = graph.new.room }) }
    ensures ready { IsReady extents.new graph.new.staging }
    ensures shape { shape extents.new ≡ shape extents.old }
{
    let number = extents.geometry().format().number();
    let frame = match encode_frame(alloc, number, FrameKind::Chunk, payload) {
        Ok(frame) => frame,
        Err(_) => return Err(Refusal::OutOfMemory),
    };
    match extents.append(graph, &frame, Purpose::Move) {
        Ok((place, _)) => Ok(place),
        Err(refusal) => Err(refusal),
    }
}

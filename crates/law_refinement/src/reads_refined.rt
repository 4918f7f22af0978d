//! What the pages of a store read as, and what reading shards gives.
ghost use Rattle.std.specs.Prelude.{◌≡◌, ◌≢◌, ◌≤◌, ℕ, List, [], None, Some, length, slice_get, take};
ghost use Rattle.cs_reclaim.specs.cs_chunk.Chunks.{AreChunksIn, IsFrameIn};
ghost use Rattle.cs_reclaim.specs.cs_chunk.Newest.{AreNewest};
ghost use Rattle.cs_reclaim.specs.cs_chunk.Reads.{fault_in};
ghost use Rattle.cs_deps.specs.State.{IsWhole as IsWholeGraph, State as GraphState};
ghost use Rattle.cs_disk.specs.Disk.{Image};
ghost use Rattle.cs_extent.specs.State.{IsWhole, State as ExtentsState, shape};
ghost use Rattle.cs_frame.specs.declared.faults.FormatFault.{FormatFault};
ghost use Rattle.cs_frame.specs.declared.frames.FrameKind.TheVariants.{Chunk};
ghost use Rattle.cs_frame.specs.declared.locators.Locator.{Locator};
ghost use Rattle.cs_frame.specs.Formats.{as_locator, formats_of, refusal_of};
ghost use Rattle.cs_reader.specs.ImageReads.{page_total};
ghost use Rattle.cs_index.specs.State.{State as IndexState, index_of};
ghost use Rattle.law_machine.specs.Element.{Bytes, Damaged, Locator as Place};
ghost use Rattle.law_machine.specs.Formats.{ChunkFrame};
ghost use Rattle.law_machine.specs.Index.{joined_bodies, live_at};
ghost use Rattle.law_machine.specs.Lists.{◌∈◌};
ghost use Rattle.law_machine.specs.State.{State, map_now};
ghost use Rattle.law_refinement.specs.Devices.{IsDeviceOf, pages_now};
ghost use Rattle.law_refinement.specs.Stores.{IsWorldOf};
ghost use Rattle.law_refinement.specs.Parts.{AgreesWith, locators_of};
ghost use Rattle.law_refinement.specs.Machines.{HasChunkAt, SoundFor};

/// Where the device has what is persistent and was issued, each page of frames reads as it was staged last: by the newest
/// write to it that waits, and by the device where none does.
pub fn pages_are_read()
    ensures { (x : ExtentsState) (g : GraphState) (s : State) (held : Image)
        → IsWhole x → IsWholeGraph g → IsWorldOf x g s.world → SoundFor x s
        → IsDeviceOf (shape x) (formats_of (shape x)) s held → page_total (shape x) ≤ length held
        → AreNewest g held (pages_now (shape x) s held) }
{}

/// By extents in which as much was found as in the machine's: a live chunk is damaged exactly where reading its frame fails, with the refusal of that fault; else what is read is what
/// the machine reads.
pub fn live_chunks_are_read()
    // Where a test of the frame fails, the machine has the chunk as damaged, with the refusal of that fault.
    ensures damaged { (x : ExtentsState) (i : IndexState) (s : State) (held : Image) (id : ℕ) (l : Place) (f : FormatFault)
        → AgreesWith x i s → l ∈ live_at (index_of i) id
        → fault_in x (pages_now (shape x) s held) Chunk (as_locator l) ≡ Some f → s.opening.damage l ≡ Some (refusal_of f) }
    // Where none fails, the machine doesn't have it as damaged.
    ensures whole { (x : ExtentsState) (i : IndexState) (s : State) (held : Image) (id : ℕ) (l : Place)
        → AgreesWith x i s → l ∈ live_at (index_of i) id
        → fault_in x (pages_now (shape x) s held) Chunk (as_locator l) ≡ None → s.opening.damage l ≡ None }
    // Where the frame of a payload lies there, the machine reads that payload.
    ensures payload { (x : ExtentsState) (i : IndexState) (s : State) (held : Image) (id : ℕ) (l : Place) (payload : List ℕ)
        → AgreesWith x i s → l ∈ live_at (index_of i) id
        → IsFrameIn x (pages_now (shape x) s held) ChunkFrame (as_locator l) payload → HasChunkAt x s l payload }
{}

/// By such extents the payloads of a shard's chunks, without their heads, are the bytes that the map has. The first chunk
/// that is damaged is the damage that the map has.
pub fn get_refines_get()
    // The shard has chunks, and the frames of all of them are there: the map has their bytes.
    ensures found { (x : ExtentsState) (i : IndexState) (s : State) (held : Image) (id : ℕ) (chunks : List (List ℕ))
        → AgreesWith x i s → live_at (index_of i) id ≢ [] → AreChunksIn x (pages_now (shape x) s held) (locators_of i id) chunks
        → map_now s id ≡ Some (Bytes (joined_bodies (formats_of (shape x)) chunks)) }
    // The chunks before place k are there, and a test of the frame at k fails: the map has the refusal of that fault.
    ensures damaged { (x : ExtentsState) (i : IndexState) (s : State) (held : Image) (id k : ℕ) (l : Locator)
        (chunks : List (List ℕ)) (f : FormatFault) → AgreesWith x i s → slice_get (locators_of i id) k ≡ Some l
        → AreChunksIn x (pages_now (shape x) s held) (take k (locators_of i id)) chunks
        → fault_in x (pages_now (shape x) s held) Chunk l ≡ Some f
        → map_now s id ≡ Some (Damaged (refusal_of f)) }
{}

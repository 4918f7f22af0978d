//! Why the calls of a store's parts are refused, as why the machine's events are.
ghost use Rattle.std.specs.Prelude.{◌≡◌, ◌≢◌, ◌⊎◌, ◌↔◌, ◌<◌, ◌≤◌, ℕ, true, false, List, [], Some, None, length};
ghost use Rattle.cs_reclaim.specs.cs_chunk.Reads.{fault_in};
ghost use Rattle.cs_frame.specs.Refusals.{refusal_for as refusal_of_fault};
ghost use Rattle.cs_refusal.specs.Refusals.{number_of};
ghost use Rattle.cs_deps.specs.State.{State as GraphState};
ghost use Rattle.cs_extent.specs.State.{IsWhole, State as ExtentsState, extents_of, shape};
ghost use Rattle.cs_extent.specs.Worn.{IsFrameWornBy};
ghost use Rattle.cs_frame.specs.declared.faults.FormatFault.{FormatFault};
ghost use Rattle.cs_frame.specs.declared.frames.FrameKind.{FrameKind};
ghost use Rattle.cs_frame.specs.declared.locators.Locator.{Locator};
ghost use Rattle.cs_frame.specs.Formats.{formats_of, refusal_of};
ghost use Rattle.cs_index.specs.Staged.{IsFull, IsStageWorn, WritesRun};
ghost use Rattle.cs_index.specs.State.{State as IndexState, index_of};
ghost use Rattle.law_machine.specs.Element.{Locator as Place, Copy};
ghost use Rattle.law_machine.specs.Extents.{ForMove, ForRun};
ghost use Rattle.law_machine.specs.Formats.{Formats};
ghost use Rattle.law_machine.specs.Grounds.{NoRoomForRun, NoRoomForTable, NoRoomToMove, NoRoomToPut, NoRoomToStage, Refuses, NoRoomApart};
ghost use Rattle.law_machine.specs.Index.{FirstLive, NothingLive};
ghost use Rattle.law_machine.specs.Numbers.{number_of as number_in_machine};
ghost use Rattle.law_machine.specs.Refusal.{NotSweepable, Refusal as Ground};
ghost use Rattle.law_machine.specs.State.{Abandon, BeginSweep, Delete, MoveOne, Put, Retire, Stage, State, map_now};
ghost use Rattle.cs_reclaim.specs.Retired.{IsRetireFull, IsRetireWorn};
ghost use Rattle.cs_reclaim.specs.Sweeps.{IsNotSweepable};
ghost use Rattle.law_refinement.specs.Parts.{ArePartsOf, IsSoundTogether, LiesTogether};
ghost use Rattle.law_refinement.specs.Refusals.{refusal_for};
ghost use Rattle.law_refinement.specs.Machines.{AreChunksWornBy, AreCommandsWorn, AreNextPayloads, BoundedFor, ChunksFitBy, GoesNowhereBy, HasChunkAt, HasWholeChunkAt, SoundFor, WouldPassFor, frame_pages, IsExtentWorn};
ghost use Rattle.law_machine.specs.Apart.{AllCopied, DamagedLeft, FirstLeft, FirstUncopied, MayNotBegin, NoRoomToCopy, NothingLeft, MayStage, settled};
ghost use Rattle.law_refinement.specs.Copying.{AreAllPartsOf, IsSoundApart, EndsSweep, LiesApart};
ghost use Rattle.cs_index.specs.Apart.{IsStageFullApart, IsStageWornApart};
ghost use Rattle.law_machine.specs.Append.{ResetWorn};
ghost use Rattle.law_machine.specs.Events.{mark};
ghost use Rattle.cs_reclaim.specs.Rooted.{MayStageRoot};

/// Where chunks and runs may lie on one extent there is no room for a put where its chunks don't fit, and it would take a number past its
/// greatest where its writes, its versions of a section or the commands would.
pub fn put_refusals_agree()
    // The machine has no room exactly where, in whatever payloads of the next command the bytes are, their frames don't fit.
    ensures full { (x : ExtentsState) (g : GraphState) (i : IndexState) (s : State) (id : ℕ) (bytes : List ℕ) → LiesTogether x g i s
        → NoRoomToPut (shape x) (formats_of (shape x)) s id bytes
        ↔ ((chunks : List (List ℕ)) → AreNextPayloads x s id bytes chunks → ¬ ChunksFitBy false x chunks) }
    // A number would pass its greatest exactly where the frames fit, and one of theirs or that of the commands would.
    ensures worn { (x : ExtentsState) (g : GraphState) (i : IndexState) (s : State) (id : ℕ) (bytes : List ℕ)
        → IsSoundTogether x g i s → WouldPassFor x s (Put id bytes)
        ↔ ((chunks : List (List ℕ)) × AreNextPayloads x s id bytes chunks × ChunksFitBy false x chunks
        × (AreChunksWornBy false x g.staging chunks ⊎ AreCommandsWorn s)) }
{}

/// A delete would take a number past its greatest where there is something to delete, and the commands would.
pub fn delete_refusals_agree()
    ensures { (x : ExtentsState) (s : State) (id : ℕ) → SoundFor x s → BoundedFor x s → WouldPassFor x s (Delete id)
        ↔ ((map_now s id ≢ None) × AreCommandsWorn s) }
{}

/// There is no room for a Stage where there is no place for the run that it writes. Where there is room, and chunks and runs may lie on
/// one extent, it would take a number past its greatest where the root would, or what is staged with the run.
pub fn stage_refusals_agree()
    // Where a Stage doesn't merge by size, the machine has no room for the run that it writes exactly where no extent takes that of the
    // index.
    ensures full { (x : ExtentsState) (g : GraphState) (i : IndexState) (s : State) → LiesTogether x g i s
        → (shape x).by_size ≡ false
        → ((s.table ≢ []) × (((length s.runs < 4) × NoRoomForTable (shape x) (formats_of (shape x)) s)
        ⊎ ((4 ≤ length s.runs) × NoRoomForRun (shape x) (formats_of (shape x)) s ForRun)))
        ↔ IsFull (WritesRun (shape x) i) x ForRun }
    // By either rule that is the machine's ground: where the table isn't empty, what a Stage merges doesn't fit as a run.
    ensures no_room { (x : ExtentsState) (g : GraphState) (i : IndexState) (s : State) → IsWhole x → ArePartsOf x g i s
        → ((s.table ≢ []) × NoRoomToStage (shape x) (formats_of (shape x)) s) ↔ IsFull (WritesRun (shape x) i) x ForRun }
    // Where there is room, a number would pass its greatest exactly where the table isn't empty and one that is staged would.
    ensures worn { (x : ExtentsState) (g : GraphState) (i : IndexState) (s : State) → IsSoundTogether x g i s
        → ¬ IsFull (WritesRun (shape x) i) x ForRun
        → WouldPassFor x s Stage ↔ ((i.table ≢ []) × IsStageWorn (WritesRun (shape x) i) x ForRun g.staging) }
{}

/// There is no room for a Retire where there is no place for the run of all that is live. Where there is room, and chunks and runs may lie
/// on one extent, it would take a number past its greatest where the root would, what is staged with the run, or the generation of the
/// extent.
pub fn retire_refusals_agree()
    ensures full { (x : ExtentsState) (g : GraphState) (i : IndexState) (s : State) → IsWhole x → ArePartsOf x g i s
        → NoRoomForRun (shape x) (formats_of (shape x)) s ForMove ↔ IsRetireFull i x }
    // The extent is being swept, nothing is live on it, and there is room.
    ensures worn { (x : ExtentsState) (g : GraphState) (i : IndexState) (s : State) (e : ℕ) → IsSoundTogether x g i s
        → s.world.extents.swept e ≡ true → NothingLive (index_of i) e → ¬ IsRetireFull i x
        → WouldPassFor x s (Retire e) ↔ IsRetireWorn i x g.staging e }
{}

/// There is no room for a MoveOne where there is no place for the frame of the chunk that is moved. Where there is room, and chunks and
/// runs may lie on one extent, it would take a number past its greatest where what is staged with the frame, by the section of the extent
/// that it goes to, would.
pub fn move_refusals_agree()
    // There is no room exactly where no extent takes the frame of the first live chunk, which can be read.
    ensures full { (x : ExtentsState) (g : GraphState) (i : IndexState) (s : State) (e id chunk : ℕ) (l : Place) (payload : List ℕ)
        → IsWhole x → ArePartsOf x g i s → FirstLive (index_of i) e id chunk l → HasChunkAt x s l payload
        → NoRoomToMove (shape x) (formats_of (shape x)) s e ↔ GoesNowhereBy false x payload }
    // The extent is being swept, its first live chunk can be read and isn't damaged, and there is room.
    ensures worn { (x : ExtentsState) (g : GraphState) (i : IndexState) (s : State) (e id chunk : ℕ) (l : Place) (payload : List ℕ)
        → IsSoundTogether x g i s → FirstLive (index_of i) e id chunk l → HasWholeChunkAt x s l payload
        → s.world.extents.swept e ≡ true → ¬ GoesNowhereBy false x payload
        → WouldPassFor x s (MoveOne e) ↔ IsFrameWornBy false x ForMove g.staging (frame_pages x payload) }
{}

/// Where the store isn't halted: BeginSweep is refused exactly where the extent can't be swept, where chunks and runs may lie on one extent; MoveOne, Retire and Abandon are refused 33
/// where it isn't being swept, and Abandon for nothing else.
pub fn sweep_refusals_agree()
    ensures begin_sweep { (F : Formats) (x : ExtentsState) (g : GraphState) (i : IndexState) (s : State) (e : ℕ) (f : Ground)
        → (shape x).apart ≡ false → ArePartsOf x g i s → s.halted ≡ false
        → Refuses (shape x) F s (BeginSweep e) f ↔ (IsNotSweepable (shape x) (extents_of x) e × (f ≡ NotSweepable)) }
    ensures move_one { (F : Formats) (x : ExtentsState) (g : GraphState) (i : IndexState) (s : State) (e : ℕ) (f : Ground)
        → ArePartsOf x g i s → s.halted ≡ false → (extents_of x).swept e ≡ false
        → Refuses (shape x) F s (MoveOne e) f ↔ (f ≡ NotSweepable) }
    ensures retire { (F : Formats) (x : ExtentsState) (g : GraphState) (i : IndexState) (s : State) (e : ℕ) (f : Ground)
        → ArePartsOf x g i s → s.halted ≡ false → (extents_of x).swept e ≡ false
        → Refuses (shape x) F s (Retire e) f ↔ (f ≡ NotSweepable) }
    ensures abandon { (F : Formats) (x : ExtentsState) (g : GraphState) (i : IndexState) (s : State) (e : ℕ) (f : Ground)
        → ArePartsOf x g i s → s.halted ≡ false
        → Refuses (shape x) F s (Abandon e) f ↔ (((extents_of x).swept e ≡ false) × (f ≡ NotSweepable)) }
{}

/// The refusals of the store's calls have the numbers of the machine's, and a frame's fault is one refusal by both.
pub fn refusals_keep_their_numbers()
    ensures number { (f : Ground) → number_of (refusal_for f) ≡ number_in_machine f }
    ensures frames { (x : ExtentsState) (view : ℕ → List ℕ) (kind : FrameKind) (l : Locator) (f : FormatFault)
        → fault_in x view kind l ≡ Some f → refusal_of_fault f ≡ refusal_for (refusal_of f) }
{}

/// Where chunks and runs lie apart a put is refused for room where its chunks don't fit, and for a number where one of its writes, of its
/// versions of a section or of the commands would pass its greatest.
pub fn put_apart_refusals_agree()
    // In whatever payloads of the next command the bytes are, their frames don't fit.
    ensures full { (x : ExtentsState) (g : GraphState) (i : IndexState) (s : State) (id : ℕ) (bytes : List ℕ)
        → (shape x).apart ≡ true → IsWhole x → ArePartsOf x g i s
        → NoRoomToPut (shape x) (formats_of (shape x)) s id bytes
        ↔ ((chunks : List (List ℕ)) → AreNextPayloads x s id bytes chunks → ¬ ChunksFitBy true x chunks) }
    // The frames fit, and one of their numbers or that of the commands would pass.
    ensures worn { (x : ExtentsState) (g : GraphState) (i : IndexState) (s : State) (id : ℕ) (bytes : List ℕ)
        → (shape x).apart ≡ true → IsWhole x → ArePartsOf x g i s → SoundFor x s → BoundedFor x s → WouldPassFor x s (Put id bytes)
        ↔ ((chunks : List (List ℕ)) × AreNextPayloads x s id bytes chunks × ChunksFitBy true x chunks
        × (AreChunksWornBy true x g.staging chunks ⊎ AreCommandsWorn s)) }
{}

/// Where chunks and runs lie apart: BeginSweep is refused 33 exactly where the extent may not be swept. What a sweep has left to copy is
/// that of the index and of the copies; the first chunk that is left is refused as it is damaged, for room where no extent takes its frame,
/// and for a number where one that is staged with it would pass its greatest.
pub fn sweep_apart_refusals_agree()
    ensures begin_sweep { (F : Formats) (x : ExtentsState) (g : GraphState) (i : IndexState) (copies : List Copy) (s : State) (e : ℕ) (f : Ground)
        → (shape x).apart ≡ true → AreAllPartsOf x g i copies s → s.halted ≡ false
        → Refuses (shape x) F s (BeginSweep e) f ↔ (MayNotBegin (shape x) (extents_of x) copies e × (f ≡ NotSweepable)) }
    ensures nothing_left { (x : ExtentsState) (g : GraphState) (i : IndexState) (copies : List Copy) (s : State) (e : ℕ) → AreAllPartsOf x g i copies s
        → NothingLeft s e ↔ AllCopied (index_of i) copies e }
    ensures first_left { (x : ExtentsState) (g : GraphState) (i : IndexState) (copies : List Copy) (s : State) (e id chunk : ℕ) (l : Place)
        → AreAllPartsOf x g i copies s → FirstLeft s e id chunk l ↔ FirstUncopied (index_of i) copies e id chunk l }
    // What is left is damaged exactly where its first chunk is, with its refusal.
    ensures damaged { (x : ExtentsState) (g : GraphState) (i : IndexState) (copies : List Copy) (s : State) (e id chunk : ℕ) (l : Place) (f : Ground)
        → IsWhole x → AreAllPartsOf x g i copies s → FirstUncopied (index_of i) copies e id chunk l
        → DamagedLeft (shape x) (formats_of (shape x)) s e f ↔ (s.opening.damage l ≡ Some f) }
    // The first chunk that is left can be read.
    ensures full { (x : ExtentsState) (g : GraphState) (i : IndexState) (copies : List Copy) (s : State) (e id chunk : ℕ) (l : Place) (payload : List ℕ)
        → IsWhole x → AreAllPartsOf x g i copies s → FirstUncopied (index_of i) copies e id chunk l → HasChunkAt x s l payload
        → NoRoomToCopy (shape x) (formats_of (shape x)) s e ↔ GoesNowhereBy true x payload }
    // So can it, it isn't damaged, the extent is being swept, and there is room.
    ensures worn { (x : ExtentsState) (g : GraphState) (i : IndexState) (copies : List Copy) (s : State) (e id chunk : ℕ) (l : Place) (payload : List ℕ)
        → IsSoundApart x g i copies s → FirstUncopied (index_of i) copies e id chunk l → HasWholeChunkAt x s l payload
        → s.world.extents.swept e ≡ true → ¬ GoesNowhereBy true x payload
        → WouldPassFor x s (MoveOne e) ↔ IsFrameWornBy true x ForMove g.staging (frame_pages x payload) }
{}

/// Where chunks and runs lie apart a Stage is refused for room where neither of its runs goes anywhere, and for a number where there is
/// something to stage and one that is staged would pass its greatest.
pub fn stage_apart_refusals_agree()
    // There is something to stage a root for: the table isn't empty, or a sweep was given up.
    ensures may { (x : ExtentsState) (g : GraphState) (i : IndexState) (copies : List Copy) (s : State) → AreAllPartsOf x g i copies s
        → MayStage (shape x) s ↔ MayStageRoot (shape x) (extents_of x) i copies }
    ensures full { (x : ExtentsState) (g : GraphState) (i : IndexState) (s : State) → ArePartsOf x g i s
        → NoRoomApart (shape x) (formats_of (shape x)) s ↔ IsStageFullApart i x }
    ensures worn { (x : ExtentsState) (g : GraphState) (i : IndexState) (copies : List Copy) (s : State)
        → IsSoundApart x g i copies s → ¬ IsStageFullApart i x
        → WouldPassFor x s Stage ↔ (MayStageRoot (shape x) (extents_of x) i copies × IsStageWornApart i x g.staging) }
{}

/// Where chunks and runs lie apart a Retire is refused as a Stage of what counts then, and for a number also where the generation of the
/// extent is the greatest.
pub fn retire_apart_refusals_agree()
    ensures full { (x unmarked : ExtentsState) (g : GraphState) (i counted : IndexState) (copies : List Copy) (s : State) (e : ℕ)
        → LiesApart x g i copies s → EndsSweep x i copies e unmarked counted
        → NoRoomApart (shape x) (formats_of (shape x)) (settled (mark s e false)) ↔ IsStageFullApart counted unmarked }
    // The extent is being swept, all that lives on it is copied, and there is room.
    ensures worn { (x unmarked : ExtentsState) (g : GraphState) (i counted : IndexState) (copies : List Copy) (s : State) (e : ℕ)
        → IsSoundApart x g i copies s → EndsSweep x i copies e unmarked counted
        → s.world.extents.swept e ≡ true → NothingLeft s e → ¬ IsStageFullApart counted unmarked
        → (WouldPassFor x s (Retire e) ⊎ ResetWorn (shape x) s.world.extents e)
        ↔ (IsStageWornApart counted unmarked g.staging ⊎ IsExtentWorn x e) }
{}

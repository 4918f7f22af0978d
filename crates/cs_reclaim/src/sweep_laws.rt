//! Laws of sweeps.
ghost use Rattle.std.specs.Prelude.{◌≡◌, ◌≢◌, Bool, ℕ, List, ◌==◌, [], Some, if◌then◌else◌, true};
ghost use Rattle.cs_chunk.specs.Chunks.{AreChunksIn, AreMeant, IsFrameIn};
ghost use Rattle.cs_chunk.specs.Newest.{AreNewest};
ghost use Rattle.cs_deps.specs.State.{IsWhole as IsWholeGraph, State as GraphState};
ghost use Rattle.cs_disk.specs.Disk.{Image};
ghost use Rattle.cs_extent.specs.State.{IsWhole, State, extents_of, shape};
ghost use Rattle.cs_frame.specs.declared.locators.Locator.{Locator as Spot};
ghost use Rattle.cs_frame.specs.Formats.{as_locator};
ghost use Rattle.cs_index.specs.State.{State as IndexState, index_of};
ghost use Rattle.law_machine.specs.Device.{Shape};
ghost use Rattle.law_machine.specs.Extents.{Extents, Placed, Purpose, emptied, marked, taken, GoesApart, taken_by};
ghost use Rattle.law_machine.specs.Formats.{ChunkFrame};
ghost use Rattle.law_machine.specs.Index.{NothingLive, live_at, lookup};
ghost use Rattle.cs_reclaim.specs.Keeps.{AreBelow, places_at, AreCopiesRead};
ghost use Rattle.cs_reclaim.specs.Moves.{IsMoved, chunk_frame};
ghost use Rattle.cs_reclaim.specs.Retired.{IsRetired};
ghost use Rattle.cs_reclaim.specs.Sweeps.{IsSwept, IsSweptApart};
ghost use Rattle.cs_chunk.specs.Stays.{IsBelow};
ghost use Rattle.law_machine.specs.Element.{Copy, Entry, Locator as Place};
ghost use Rattle.law_machine.specs.Lists.{nth};
ghost use Rattle.cs_reclaim.specs.Copied.{AllUpTo, IsCopyMade};
ghost use Rattle.cs_reclaim.specs.Rooted.{IsRetiredApart, IsSweepStaged, extents_at_rest, freed_under};

/// An extent that is being swept gets no frame, and is being swept still whatever goes elsewhere: what is appended, and
/// which other extent is emptied or marked.
pub fn a_swept_extent_stays()
    ensures elsewhere { (S : Shape) (x : Extents) (e d k : ℕ) (purpose : Purpose) → IsSwept S x e → Placed S x purpose k d → d ≢ e }
    ensures append { (S : Shape) (x : Extents) (e d k : ℕ) (purpose : Purpose) → IsSwept S x e → Placed S x purpose k d → IsSwept S (taken S x d k) e }
    ensures reset { (S : Shape) (x : Extents) (e d root : ℕ) → IsSwept S x e → d ≢ e → IsSwept S (emptied x d root) e }
    ensures mark { (S : Shape) (x : Extents) (e d : ℕ) (b : Bool) → IsSwept S x e → d ≢ e → IsSwept S (marked x d b) e }
{}

/// A move keeps the chunks of every shard, and so do a retire and a mark that is set or taken off: what was read at
/// their places before is read where they are afterwards, as far as it lay below the pointers of its extents, in their
/// generations, and there it lies again. A frame that lay across its pointer as the store was opened isn't spoken of
/// here.
pub fn a_sweep_keeps_every_shard()
    ensures moved { (s t : IndexState) (x y : State) (g h : GraphState) (e id chunk : ℕ) (payload : List ℕ) (image : Image) (view now : ℕ → List ℕ)
        → IsWhole x → (move : IsMoved s x g e id chunk payload t y h) → IsWholeGraph h → AreNewest g image view → AreNewest h image now
        → IsFrameIn x view ChunkFrame (as_locator move.from) payload
        → (d : ℕ) (cs : List (List ℕ)) → AreChunksIn x view (places_at s d) cs → AreBelow (shape x) (extents_of x) (places_at s d) cs
        → AreChunksIn y now (places_at t d) cs × AreBelow (shape y) (extents_of y) (places_at t d) cs }
    ensures retired { (s t : IndexState) (x y : State) (g h : GraphState) (e v commands : ℕ) (image : Image) (view now : ℕ → List ℕ)
        → IsWhole x → IsRetired s x g e v commands t y h → IsWholeGraph h → AreNewest g image view → AreNewest h image now
        → NothingLive (index_of s) e → ((id : ℕ) → live_at (index_of t) id ≡ live_at (index_of s) id)
        → (d : ℕ) (cs : List (List ℕ)) → AreChunksIn x view (places_at s d) cs → AreBelow (shape x) (extents_of x) (places_at s d) cs
        → AreChunksIn y now (places_at t d) cs × AreBelow (shape y) (extents_of y) (places_at t d) cs }
    ensures marked { (S : Shape) (x y : Extents) (e : ℕ) (b : Bool) → y ≡ marked x e b
        → (ls : List Spot) (cs : List (List ℕ)) → AreBelow S x ls cs → AreBelow S y ls cs }
    ensures read { (x y : State) (e : ℕ) (b : Bool) (view : ℕ → List ℕ) → extents_of y ≡ marked (extents_of x) e b → shape y ≡ shape x
        → (ls : List Spot) (cs : List (List ℕ)) → AreChunksIn x view ls cs → AreChunksIn y view ls cs }
{}

/// A move leaves each chunk of each shard its mark, whatever the disk answered to the read. So what the places mean
/// afterwards they meant before.
pub fn moves_keep_marks()
    ensures { (s t : IndexState) (x y : State) (g h : GraphState) (e id chunk : ℕ) (payload : List ℕ) → IsMoved s x g e id chunk payload t y h
        → (d : ℕ) (cs : List (List ℕ)) → AreMeant (shape x) (places_at t d) cs → AreMeant (shape x) (places_at s d) cs }
{}

/// Of an extent all is copied up to the last copy still where an index changes, if no chunk lives there that didn't
/// live there before: where an identifier gets other places, none of them there, and where what lives stays. Before the
/// first copy it is so of every index.
pub fn copies_stay()
    ensures nothing { (index : List Entry) (e : ℕ) → AllUpTo index [] e }
    ensures lived { (old new : List Entry) (copies : List Copy) (e : ℕ)
        → ((id chunk : ℕ) (l : Place) → nth (live_at new id) chunk ≡ Some l → l.extent ≡ e → nth (live_at old id) chunk ≡ Some l)
        → AllUpTo old copies e → AllUpTo new copies e }
    ensures put { (old new : List Entry) (copies : List Copy) (e id : ℕ) (ls : List Place) → ((d : ℕ) → lookup d new ≡ (if id == d then Some ls else lookup d old))
        → ((k : ℕ) (l : Place) → nth ls k ≡ Some l → l.extent ≢ e) → AllUpTo old copies e → AllUpTo new copies e }
    ensures map { (old new : List Entry) (copies : List Copy) (e : ℕ) → ((id : ℕ) → live_at new id ≡ live_at old id) → AllUpTo old copies e → AllUpTo new copies e }
{}

/// Where chunks and runs lie apart, an extent that is being swept gets no frame, and is being swept still whatever goes
/// elsewhere: what is appended, which other extent is marked, and which blank extents are emptied.
pub fn a_swept_extent_stays_apart()
    ensures elsewhere { (S : Shape) (x : Extents) (e : ℕ) → IsSweptApart S x e → (purpose : Purpose) (k d : ℕ) → GoesApart S x purpose k d → d ≢ e }
    ensures append { (S : Shape) (x : Extents) (e : ℕ) → IsSweptApart S x e → (purpose : Purpose) (k d : ℕ) → GoesApart S x purpose k d → IsSweptApart S (taken_by S true purpose x d k) e }
    ensures mark { (S : Shape) (x : Extents) (e : ℕ) → IsSweptApart S x e → (d : ℕ) (b : Bool) → d ≢ e → IsSweptApart S (marked x d b) e }
    ensures rest { (S : Shape) (x : Extents) (e : ℕ) → IsSweptApart S x e → IsSweptApart S (extents_at_rest S x) e }
    ensures freed { (S : Shape) (x : Extents) (e : ℕ) → IsSweptApart S x e → (s : IndexState) (copies : List Copy) (root : ℕ) → IsSweptApart S (freed_under S x s copies root) e }
    ensures stage { (s t : IndexState) (x y : State) (g h : GraphState) (copies after : List Copy) (v commands e : ℕ)
        → IsSweepStaged s x g copies v commands t y h after → IsSweptApart (shape x) (extents_of x) e → IsSweptApart (shape y) (extents_of y) e }
{}

/// Where chunks and runs lie apart a copy keeps the chunks of every shard, and so do a Stage and a Retire: what was
/// read at their places before is read where they are afterwards, as far as it lay below the pointers of its extents,
/// in their generations, and there it lies again. A further copy keeps what was copied before it, too. A frame that lay
/// across its pointer as the store was opened isn't spoken of here.
pub fn a_sweep_apart_keeps_every_shard()
    ensures copied { (s : IndexState) (x y : State) (g h : GraphState) (copies after : List Copy) (e id chunk : ℕ) (payload : List ℕ) (image : Image) (view now : ℕ → List ℕ)
        → IsWhole x → IsCopyMade s x g copies e id chunk payload after y h → IsWholeGraph h → AreNewest g image view → AreNewest h image now
        → (d : ℕ) (cs : List (List ℕ)) → AreChunksIn x view (places_at s d) cs → AreBelow (shape x) (extents_of x) (places_at s d) cs
        → AreChunksIn y now (places_at s d) cs × AreBelow (shape y) (extents_of y) (places_at s d) cs }
    ensures copies { (s : IndexState) (x y : State) (g h : GraphState) (copies after : List Copy) (e id chunk : ℕ) (payload : List ℕ) (image : Image) (view now : ℕ → List ℕ)
        → IsWhole x → (copy : IsCopyMade s x g copies e id chunk payload after y h) → IsWholeGraph h → AreNewest g image view → AreNewest h image now
        → IsFrameIn x view ChunkFrame (as_locator copy.from) payload → IsBelow (extents_of x) (as_locator copy.from) (chunk_frame x payload)
        → AreCopiesRead x view copies → AreCopiesRead y now after }
    ensures staged { (s t : IndexState) (x y : State) (g h : GraphState) (copies after : List Copy) (v commands : ℕ) (image : Image) (view now : ℕ → List ℕ)
        → IsWhole x → IsSweepStaged s x g copies v commands t y h after → IsWholeGraph h → AreNewest g image view → AreNewest h image now
        → ((id : ℕ) → live_at (index_of t) id ≡ live_at (index_of s) id)
        → (d : ℕ) (cs : List (List ℕ)) → AreChunksIn x view (places_at s d) cs → AreBelow (shape x) (extents_of x) (places_at s d) cs
        → AreChunksIn y now (places_at t d) cs × AreBelow (shape y) (extents_of y) (places_at t d) cs }
    ensures retired { (s t : IndexState) (x y : State) (g h : GraphState) (copies after : List Copy) (e v commands : ℕ) (image : Image) (view now : ℕ → List ℕ)
        → IsWhole x → (retired : IsRetiredApart s x g copies e v commands t y h after) → IsWholeGraph h → AreNewest g image view → AreNewest h image now
        → AreCopiesRead x view copies → ((id : ℕ) → live_at (index_of t) id ≡ live_at (index_of retired.counted) id)
        → (d : ℕ) (cs : List (List ℕ)) → AreChunksIn x view (places_at s d) cs → AreBelow (shape x) (extents_of x) (places_at s d) cs
        → AreChunksIn y now (places_at t d) cs × AreBelow (shape y) (extents_of y) (places_at t d) cs }
{}

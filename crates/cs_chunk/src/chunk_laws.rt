//! Laws of what is read.
ghost use Rattle.std.specs.Prelude.{◌≡◌, ◌≢◌, ◌⊎◌, ℕ, false, true, List};
ghost use Rattle.cs_chunk.specs.Chunks.{AgreeInDigests, AreMeant, TwoAgree};
ghost use Rattle.cs_chunk.specs.Newest.{AreNewest};
ghost use Rattle.cs_chunk.specs.Stays.{IsBelow, StandAt};
ghost use Rattle.cs_deps.specs.State.{IsWhole as IsWholeGraph, State as GraphState};
ghost use Rattle.cs_disk.specs.Disk.{Image};
ghost use Rattle.cs_extent.specs.Appended.{IsAppendedBy};
ghost use Rattle.cs_extent.specs.State.{IsWhole, State, extents_of, shape};
ghost use Rattle.cs_frame.specs.declared.locators.Locator.{Locator as Place};
ghost use Rattle.law_machine.specs.Extents.{Extents as Given, Purpose, emptied};
ghost use Rattle.law_machine.specs.Geometry.{marks_in};

/// Each page reads as one list of bytes.
pub fn pages_have_one_newest()
    ensures { (g : GraphState) (image : Image) (v w : ℕ → List ℕ) → AreNewest g image v → AreNewest g image w → (p : ℕ) → v p ≡ w p }
{}

/// A frame below the pointer of its extent, of the generation that the extent has, stands as it stood if anything is
/// appended. It stays below the pointer if another extent is reset. A round that goes out leaves what pages read as:
/// that is for `law_refinement::pages_are_read`, which knows in which order a page's writes may go.
pub fn what_was_put_stays()
    ensures append { (x y : State) (g h : GraphState) (reason : Purpose) (frame old : List (List ℕ)) (l k : Place) (image : Image) (view now : ℕ → List ℕ)
        → IsWhole x → IsAppendedBy false x g reason frame l y h → IsWholeGraph h → AreNewest g image view → AreNewest h image now
        → IsBelow (extents_of x) k old → StandAt x view k old
        → StandAt x now k old × IsBelow (extents_of y) k old }
    // So it is where chunks and runs lie apart.
    ensures apart { (x y : State) (g h : GraphState) (reason : Purpose) (frame old : List (List ℕ)) (l k : Place) (image : Image) (view now : ℕ → List ℕ)
        → IsWhole x → IsAppendedBy true x g reason frame l y h → IsWholeGraph h → AreNewest g image view → AreNewest h image now
        → IsBelow (extents_of x) k old → StandAt x view k old
        → StandAt x now k old × IsBelow (extents_of y) k old }
    ensures reset { (x : Given) (e root : ℕ) (k : Place) (old : List (List ℕ)) → k.extent ≢ e → IsBelow x k old → IsBelow (emptied x e root) k old }
{}

/// In a format that has marks, chunks that the same places mean have digests that begin with the same eight bytes,
/// chunk by chunk. So their payloads are the same, or at one place they are two different texts that agree in eight
/// bytes of their digests. With that exception, what is read at the places of chunks that were put is what was put, for
/// any answer of the disk.
pub fn places_tell_digests()
    ensures digests { (x : State) (ls : List Place) (cs ds : List (List ℕ)) → marks_in x.format ≡ true
        → AreMeant (shape x) ls cs → AreMeant (shape x) ls ds → AgreeInDigests cs ds }
    ensures bytes { (cs ds : List (List ℕ)) → AgreeInDigests cs ds
        → (cs ≡ ds) ⊎ TwoAgree cs ds }
{}

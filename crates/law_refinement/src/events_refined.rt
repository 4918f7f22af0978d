//! What the calls of a store's parts do, as what the machine's events do.
ghost use Rattle.std.specs.Prelude.{◌≡◌, ◌≢◌, ◌↔◌, ◌+◌, ◌<◌, ◌≤◌, ◌++◌, ℕ, true, false, List, [], None, length, map, nat_le, Bool};
ghost use Rattle.cs_deps.specs.State.{State as GraphState};
ghost use Rattle.cs_extent.specs.Appended.{AreAppendedBy};
ghost use Rattle.cs_extent.specs.State.{State as ExtentsState, extents_of, shape, IsWhole};
ghost use Rattle.cs_frame.specs.declared.locators.Locator.{Locator};
ghost use Rattle.cs_frame.specs.Formats.{place_of};
ghost use Rattle.cs_index.specs.Merges.{reached, stage_takes};
ghost use Rattle.cs_index.specs.Staged.{IsMergeStaged, IsNewestStaged, IsPartStagedBy, IsTableStaged};
ghost use Rattle.cs_index.specs.State.{IsSet, State as IndexState, index_of};
ghost use Rattle.law_machine.specs.Device.{Shape};
ghost use Rattle.law_machine.specs.Element.{Entry, Locator as Place, Run, Copy};
ghost use Rattle.law_machine.specs.Events.{mark};
ghost use Rattle.law_machine.specs.Extents.{ForPut, ForRun, marked, Purpose as Reason};
ghost use Rattle.law_machine.specs.Formats.{Formats};
ghost use Rattle.law_machine.specs.Index.{FirstLive, IsMergedRun, IsTableRun, NothingLive, entries_of, live_at, lookup, named_weight, names, weight_with};
ghost use Rattle.law_machine.specs.Sound.{Sound};
ghost use Rattle.law_machine.specs.State.{Abandon, Abandoned, BeginSweep, Delete, MoveOne, Moved, Put, Retire, Retired, Stage, Staged, State, Sweeping, map_now, Event, NoneLive, Reply, Unchanged};
ghost use Rattle.cs_reclaim.specs.Moves.{IsMoved};
ghost use Rattle.cs_reclaim.specs.Retired.{IsRetired};
ghost use Rattle.cs_reclaim.specs.Sweeps.{IsNotSweepable};
ghost use Rattle.law_refinement.specs.Parts.{ArePartsOf, IsIndexOf, LeadsToParts, LiesTogether};
ghost use Rattle.law_refinement.specs.Machines.{AreNextPayloads, DoesFor, HasWholeChunkAt, frames_for, next_accepted};
ghost use Rattle.law_machine.specs.Apart.{AllCopied, MayNotBegin, reset_all, swept_aside, sweeping};
ghost use Rattle.law_machine.specs.Append.{AppendAllBy};
ghost use Rattle.law_machine.specs.Machine.{World};
ghost use Rattle.law_machine.specs.Step.{Step};
ghost use Rattle.law_refinement.specs.Copying.{AreAllPartsOf, LeadsToAllParts, LiesApart};
ghost use Rattle.law_refinement.specs.Stores.{IsWorldOf};
ghost use Rattle.cs_reclaim.specs.Copied.{IsCopyMade};
ghost use Rattle.cs_reclaim.specs.Rooted.{IsRetiredApart, IsSweepStaged, MayStageRoot};

/// What is asked of an index is asked of the machine's: what each identifier has, how many are named and what their entries weigh, what its
/// runs would be, and what lives on an extent.
pub fn index_queries_agree()
    ensures lookups { (i : IndexState) (table : List Entry) (runs : List Run) → IsIndexOf i table runs
        → (id : ℕ) → lookup id (index_of i) ≡ lookup id (table ++ entries_of runs) }
    ensures named { (i : IndexState) (table : List Entry) (runs : List Run) → IsIndexOf i table runs
        → names (index_of i) ≡ names (table ++ entries_of runs) }
    // By any rule of how much an entry weighs the newest ones weigh as much,
    ensures weight { (weigh : (chunks : ℕ) → ℕ) (i : IndexState) (table : List Entry) (runs : List Run) → IsIndexOf i table runs
        → named_weight weigh (index_of i) ≡ named_weight weigh (table ++ entries_of runs) }
    // and so do they with an entry of so many chunks in place of what an identifier has.
    ensures entered { (weigh : (chunks : ℕ) → ℕ) (i : IndexState) (table : List Entry) (runs : List Run) (id chunks : ℕ) → IsIndexOf i table runs
        → weight_with weigh (index_of i) id chunks ≡ weight_with weigh (table ++ entries_of runs) id chunks }
    // The table of the one is empty exactly where that of the other is.
    ensures empty { (i : IndexState) (table : List Entry) (runs : List Run) → IsIndexOf i table runs
        → (i.table ≡ []) ↔ (table ≡ []) }
    // The same entries are those of the run of the table.
    ensures table_run { (i : IndexState) (table : List Entry) (runs : List Run) (entries : List Entry) → IsIndexOf i table runs
        → IsTableRun i.table entries ↔ IsTableRun table entries }
    // The same entries are those of the run of all that is live.
    ensures merged_run { (i : IndexState) (table : List Entry) (runs : List Run) (entries : List Entry) → IsIndexOf i table runs
        → IsMergedRun (index_of i) entries ↔ IsMergedRun (table ++ entries_of runs) entries }
    // The same chunk is the first live one on an extent.
    ensures first { (i : IndexState) (table : List Entry) (runs : List Run) (e id chunk : ℕ) (l : Place) → IsIndexOf i table runs
        → FirstLive (index_of i) e id chunk l ↔ FirstLive (table ++ entries_of runs) e id chunk l }
    // No live chunk is on an extent by the one exactly where none is by the other.
    ensures nothing { (i : IndexState) (table : List Entry) (runs : List Run) (e : ℕ) → IsIndexOf i table runs
        → NothingLive (index_of i) e ↔ NothingLive (table ++ entries_of runs) e }
{}

/// Where chunks and runs may lie on one extent the frames of a put and its entry are the machine's Put. The payloads are those of the command
/// that is accepted next.
pub fn put_refines_put()
    ensures { (x y : ExtentsState) (g h : GraphState) (i j : IndexState) (s : State) (id : ℕ) (bytes : List ℕ)
        (chunks : List (List ℕ)) (ls : List Locator) → LiesTogether x g i s → AreNextPayloads x s id bytes chunks
        → AreAppendedBy false x g ForPut (frames_for x chunks) ls y h → IsSet i id (map place_of ls) j
        → LeadsToParts x s (Put id bytes) (next_accepted s) y h j }
{}

/// An entry without locators is the machine's Delete, and an identifier has locators exactly where the map has it.
pub fn delete_refines_delete()
    // An identifier that the map has gets an entry without locators: that is the machine's Delete.
    ensures deleted { (x : ExtentsState) (g : GraphState) (i j : IndexState) (s : State) (id : ℕ)
        → ArePartsOf x g i s → map_now s id ≢ None → IsSet i id [] j → LeadsToParts x s (Delete id) (next_accepted s) x g j }
    ensures absent { (S : Shape) (F : Formats) (i : IndexState) (s : State) (id : ℕ)
        → Sound S F s → IsIndexOf i s.table s.runs → (live_at (index_of i) id ≡ []) ↔ (map_now s id ≡ None) }
{}

/// Where chunks and runs may lie on one extent the run and the root that an index stages are the machine's Stage.
pub fn stage_refines_stage()
    // The table and as many of the newest runs as a Stage of the index merges become one run, or none where it would have no entry.
    ensures newest { (x y : ExtentsState) (g h : GraphState) (i j : IndexState) (s : State) (v : ℕ)
        → LiesTogether x g i s → i.table ≢ [] → IsNewestStaged (stage_takes (shape x) i) i x g v (s.count + length s.commands) j y h
        → LeadsToParts x s Stage (Staged v) y h j }
    // Where a Stage merges by size, these are as many as are reached, and deletions go where that is all.
    ensures sized { (x y : ExtentsState) (g h : GraphState) (i j : IndexState) (s : State) (v : ℕ)
        → LiesTogether x g i s → (shape x).by_size ≡ true → i.table ≢ []
        → IsPartStagedBy false (nat_le (length i.runs) (reached (shape x) i)) (reached (shape x) i) i x g ForRun v (s.count + length s.commands) j y h
        → LeadsToParts x s Stage (Staged v) y h j }
    // Where it doesn't and there are fewer than four runs, the table becomes one.
    ensures table { (x y : ExtentsState) (g h : GraphState) (i j : IndexState) (s : State) (v : ℕ)
        → LiesTogether x g i s → (shape x).by_size ≡ false → i.table ≢ [] → length i.runs < 4
        → IsTableStaged i x g v (s.count + length s.commands) j y h → LeadsToParts x s Stage (Staged v) y h j }
    // Where there are four or more then, one run of all that is live takes the place of everything, or none where nothing is live.
    ensures merged { (x y : ExtentsState) (g h : GraphState) (i j : IndexState) (s : State) (v : ℕ)
        → LiesTogether x g i s → (shape x).by_size ≡ false → i.table ≢ [] → 4 ≤ length i.runs
        → IsMergeStaged i x g ForRun v (s.count + length s.commands) j y h → LeadsToParts x s Stage (Staged v) y h j }
{}

/// Where chunks and runs may lie on one extent a chunk that a sweep moves is the machine's MoveOne, where what lay there could be read.
pub fn move_refines_move()
    ensures { (x y : ExtentsState) (g h : GraphState) (i j : IndexState) (s : State) (e id chunk : ℕ) (payload : List ℕ)
        → LiesTogether x g i s → s.world.extents.swept e ≡ true → (moved : IsMoved i x g e id chunk payload j y h)
        → HasWholeChunkAt x s moved.from payload → LeadsToParts x s (MoveOne e) (Moved id chunk) y h j }
{}

/// Where chunks and runs may lie on one extent a retired extent is the machine's Retire.
pub fn retire_refines_retire()
    ensures { (x y : ExtentsState) (g h : GraphState) (i j : IndexState) (s : State) (e v : ℕ)
        → LiesTogether x g i s → s.world.extents.swept e ≡ true → e < (shape x).extents → shape y ≡ shape x
        → NothingLive (index_of i) e → IsRetired i x g e v (s.count + length s.commands) j y h
        → LeadsToParts x s (Retire e) (Retired v) y h j }
{}

/// A mark that is set where an extent may be swept is the machine's BeginSweep where chunks and runs may lie on one extent, and one that is
/// taken off its Abandon by either rule.
pub fn marks_refine_sweeps()
    ensures begun { (x y : ExtentsState) (g : GraphState) (i : IndexState) (s : State) (e : ℕ)
        → (shape x).apart ≡ false → ArePartsOf x g i s → ¬ IsNotSweepable (shape x) (extents_of x) e → shape y ≡ shape x → extents_of y ≡ marked (extents_of x) e true
        → DoesFor x s (BeginSweep e) Sweeping (mark s e true) × ArePartsOf y g i (mark s e true) }
    ensures abandoned { (x y : ExtentsState) (g : GraphState) (i : IndexState) (s : State) (e : ℕ)
        → ArePartsOf x g i s → s.world.extents.swept e ≡ true → shape y ≡ shape x → extents_of y ≡ marked (extents_of x) e false
        → DoesFor x s (Abandon e) Abandoned (mark s e false) × ArePartsOf y g i (mark s e false) }
{}

/// Frames that are appended one after another, where chunks and runs lie apart or not, are appended so in the machine; extents that
/// are reset one after another under the last version of the root are reset so in its world.
pub fn worlds_apart_agree()
    ensures appended { (apart : Bool) (x y : ExtentsState) (g h : GraphState) (w : World) (reason : Reason) (frames : List (List (List ℕ))) (ls : List Locator)
        → IsWhole x → IsWorldOf x g w → AreAppendedBy apart x g reason frames ls y h
        → (after : World) × AppendAllBy (shape x) apart w reason frames (map place_of ls) after × IsWorldOf y h after }
    // Those below n that pass a test are reset.
    ensures freed { (x y : ExtentsState) (g : GraphState) (w : World) (test : ℕ → Bool) (n : ℕ)
        → IsWorldOf x g w → shape y ≡ shape x → extents_of y ≡ reset_all (shape x) (extents_of x) w.root test n
        → IsWorldOf y g (record w { extents = reset_all (shape x) w.extents w.root test n }) }
{}

/// Where chunks and runs lie apart the frames of a put and its entry are the machine's Put.
pub fn put_apart_refines_put()
    ensures { (x y : ExtentsState) (g h : GraphState) (i j : IndexState) (copies : List Copy) (s : State) (id : ℕ) (bytes : List ℕ)
        (chunks : List (List ℕ)) (ls : List Locator) → LiesApart x g i copies s → AreNextPayloads x s id bytes chunks
        → AreAppendedBy true x g ForPut (frames_for x chunks) ls y h → IsSet i id (map place_of ls) j
        → LeadsToAllParts x s (Put id bytes) (next_accepted s) y h j copies }
{}

/// Where chunks and runs lie apart: an extent that may be swept and is swept aside is the machine's BeginSweep; its mark that is taken
/// off is Abandon, which leaves the copies; and a sweep that finds nothing left is MoveOne.
pub fn sweeps_apart_refine_sweeps()
    ensures begun { (x y : ExtentsState) (g : GraphState) (i : IndexState) (copies : List Copy) (s : State) (e : ℕ)
        → (shape x).apart ≡ true → AreAllPartsOf x g i copies s → ¬ MayNotBegin (shape x) (extents_of x) copies e
        → shape y ≡ shape x → extents_of y ≡ swept_aside (shape x) (extents_of x) e
        → DoesFor x s (BeginSweep e) Sweeping (sweeping (shape x) s e) × AreAllPartsOf y g i copies (sweeping (shape x) s e) }
    ensures abandoned { (x y : ExtentsState) (g : GraphState) (i : IndexState) (copies : List Copy) (s : State) (e : ℕ)
        → AreAllPartsOf x g i copies s → (extents_of x).swept e ≡ true
        → shape y ≡ shape x → extents_of y ≡ marked (extents_of x) e false
        → DoesFor x s (Abandon e) Abandoned (mark s e false) × AreAllPartsOf y g i copies (mark s e false) }
    // Each chunk that lives on the extent is copied.
    ensures done { (x : ExtentsState) (g : GraphState) (i : IndexState) (copies : List Copy) (s : State) (e : ℕ)
        → (shape x).apart ≡ true → AreAllPartsOf x g i copies s → (extents_of x).swept e ≡ true → AllCopied (index_of i) copies e
        → DoesFor x s (MoveOne e) NoneLive s }
{}

/// What a sweep copied stays through every event but a Stage, a MoveOne and a Retire, whether it is refused or not.
pub fn copies_stay()
    ensures { (S : Shape) (F : Formats) (s t : State) (event : Event) (reply : Reply)
        → Step S F s event reply t → event ≢ Stage → ((e : ℕ) → event ≢ MoveOne e) → ((e : ℕ) → event ≢ Retire e) → t.copies ≡ s.copies }
{}

/// Where chunks and runs lie apart a chunk that a sweep copies is the machine's MoveOne, where what lay there could be read.
pub fn copies_apart_refine_moves()
    ensures { (x y : ExtentsState) (g h : GraphState) (i : IndexState) (copies after : List Copy) (s : State) (e id chunk : ℕ) (payload : List ℕ)
        → LiesApart x g i copies s → (extents_of x).swept e ≡ true → (made : IsCopyMade i x g copies e id chunk payload after y h)
        → HasWholeChunkAt x s made.from payload → LeadsToAllParts x s (MoveOne e) (Moved id chunk) y h i after }
{}

/// Where chunks and runs lie apart: what a Stage of the parts does is the machine's Stage, where the table isn't empty or a sweep was
/// given up, and else nothing changes; what a Retire does is its Retire, where all that lives on the extent is copied.
pub fn stages_apart_refine_stages()
    ensures staged { (x y : ExtentsState) (g h : GraphState) (i j : IndexState) (copies after : List Copy) (s : State) (v : ℕ)
        → LiesApart x g i copies s → MayStageRoot (shape x) (extents_of x) i copies
        → IsSweepStaged i x g copies v (s.count + length s.commands) j y h after
        → LeadsToAllParts x s Stage (Staged v) y h j after }
    ensures idle { (x : ExtentsState) (g : GraphState) (i : IndexState) (copies : List Copy) (s : State)
        → (shape x).apart ≡ true → AreAllPartsOf x g i copies s → ¬ MayStageRoot (shape x) (extents_of x) i copies
        → DoesFor x s Stage Unchanged s }
    ensures retired { (x y : ExtentsState) (g h : GraphState) (i j : IndexState) (copies after : List Copy) (s : State) (e v : ℕ)
        → LiesApart x g i copies s → (extents_of x).swept e ≡ true → AllCopied (index_of i) copies e
        → IsRetiredApart i x g copies e v (s.count + length s.commands) j y h after
        → LeadsToAllParts x s (Retire e) (Retired v) y h j after }
{}

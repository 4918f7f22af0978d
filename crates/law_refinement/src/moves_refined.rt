//! The machine's world, and the extents and the graph that a store has: the same appends, resets, roots and rounds, and what waits.
ghost use Rattle.std.specs.Prelude.{false, ◌≡◌, ◌++◌, ℕ, Bool, true, List, map, Some, ◌↔◌, ◌∷◌, suc};
ghost use Rattle.cs_deps.specs.declared.elements.Element.{Element as Name};
ghost use Rattle.cs_deps.specs.Named.{Named, Names};
ghost use Rattle.cs_deps.specs.Pending.{WaitsAt, Pending, Closed as IsClosed};
ghost use Rattle.cs_deps.specs.declared.elements.Element.TheVariants.{Version, Plain};
ghost use Rattle.cs_deps.specs.Staging.{settled, staged_after};
ghost use Rattle.law_machine.specs.Machine.{World, BeginRound, EndRound, ResetExtent, StageRoot, happens, root_now, StagePage, write_now};
ghost use Rattle.law_machine.specs.Element.{Element, Map, Run, A_write, A_superblock, A_root, Superblock, Root, log_of};
ghost use Rattle.law_machine.specs.Device.{Shape, Page};
ghost use Rattle.law_machine.specs.Formats.{Formats};
ghost use Rattle.law_machine.specs.Cut.{Cut, Closed};
ghost use Rattle.law_machine.specs.State.{State};
ghost use Rattle.law_machine.specs.Sound.{Sound};
ghost use Rattle.law_machine.specs.Append.{Append, AppendAll};
ghost use Rattle.law_machine.specs.Extents.{Purpose as Reason, emptied, forgotten, marked};
ghost use Rattle.cs_deps.specs.State.{AddsNone, IsWhole as IsWholeGraph, KeepsBytes, State as GraphState, write_of};
ghost use Rattle.cs_frame.specs.declared.locators.Locator.{Locator};
ghost use Rattle.cs_extent.specs.Appended.{AreAppendedBy, IsAppendedBy};
ghost use Rattle.cs_extent.specs.Frames.{IsSectionNeed, family_of};
ghost use Rattle.law_machine.specs.Open.{extents_read, opened_world};
ghost use Rattle.law_machine.specs.Recovery.{Recovers};
ghost use Rattle.cs_frame.specs.Formats.{place_of};
ghost use Rattle.cs_extent.specs.State.{State as ExtentsState, IsWhole, extents_of, need_of, shape};
ghost use Rattle.law_refinement.specs.Stores.{AreMemberNames, IsWorldOf, AreListed, StagesRoot};
ghost use Rattle.law_refinement.specs.Bridge.{name, AreNames, IsWaiting, AreNeedsOf, NeedsName, IsPendingOf, IsCutOf, NamesAll, AreExactNeeds, AreNextNeeds};
ghost use Rattle.cs_reader.specs.Loads.{graph_at};
ghost use Rattle.law_refinement.specs.Machines.{write_for};
ghost use Rattle.cs_deps.specs.Rounds.{IsTaken};
ghost use Rattle.law_machine.specs.Lists.{◌∈◌};
ghost use Rattle.law_machine.specs.Round.{IsRound, IsMember};

/// What an append does to the extents and the graph of a store is what the machine's append does to its world.
pub fn append_refines_append()
    ensures { (x y : ExtentsState) (g h : GraphState) (w : World) (reason : Reason) (frame : List (List ℕ)) (l : Locator)
        → IsWhole x → IsWorldOf x g w → IsAppendedBy false x g reason frame l y h
        → (after : World) × Append (shape x) w reason frame (place_of l) after × IsWorldOf y h after }
{}

/// What a reset does to the extents of a store, under the last version of the root, the machine's reset does to its world; where chunks
/// and runs lie apart nothing is noted of the extent then.
pub fn reset_refines_reset()
    ensures { (x y : ExtentsState) (g : GraphState) (w : World) (e : ℕ) → IsWorldOf x g w → shape y ≡ shape x
        → extents_of y ≡ forgotten (shape x).apart (emptied (extents_of x) e w.root) e
        → IsWorldOf y g (happens (shape x) w (ResetExtent e)) }
{}

/// A version of the root that is staged in the graph, and needs the versions of all sections so far and, where page writes don't come
/// first, all plain writes so far, is the machine's root.
pub fn root_refines_root()
    ensures { (x : ExtentsState) (g h : GraphState) (w : World) (v n : ℕ) (runs : List Run) (m : Map) (pointers : ℕ → ℕ)
        → IsWhole x → IsWorldOf x g w → StagesRoot x g v (root_now (shape x) w n runs m pointers) h
        → IsWorldOf x h (happens (shape x) w (StageRoot n runs m pointers)) }
{}

/// Frames that are appended one after another are appended one after another in the machine.
pub fn appends_refine_appends()
    ensures { (x y : ExtentsState) (g h : GraphState) (w : World) (reason : Reason) (frames : List (List (List ℕ))) (ls : List Locator)
        → IsWhole x → IsWorldOf x g w → AreAppendedBy false x g reason frames ls y h
        → (after : World) × AppendAll (shape x) w reason frames (map place_of ls) after × IsWorldOf y h after }
{}

/// A store keeps its world as a round goes out and ends, and as an extent is marked.
pub fn stores_keep_their_worlds()
    // A round goes out: what was staged stays as it is, and no write is kept that wasn't kept before.
    ensures begun { (x : ExtentsState) (g h : GraphState) (w : World) (R : Cut) → IsWorldOf x g w → h.staging ≡ g.staging → AddsNone g h → IsWorldOf x h (happens (shape x) w (BeginRound R)) }
    // A round ends: its members are settled, and no write is kept that wasn't kept before.
    ensures ended { (F : Formats) (s : State) (x : ExtentsState) (g h : GraphState) (round : List Name) → Sound (shape x) F s → IsWorldOf x g s.world → AreMemberNames (shape x) s.world round
        → h.staging ≡ record { pending = settled g.staging.pending round; staged = g.staging.staged; latest = g.staging.latest } → AddsNone g h → IsWorldOf x h (happens (shape x) s.world EndRound) }
    // The names of those left of a round that is out and of those issued are the names of its members.
    ensures members { (S : Shape) (F : Formats) (s : State) (round : List Name) → Sound S F s → s.round_out ≡ true → AreNames (s.left ++ s.issued) round → AreMemberNames S s.world round }
    // An extent is marked as being swept, or no longer.
    ensures marked { (x y : ExtentsState) (g : GraphState) (w : World) (e : ℕ) (mark : Bool) → IsWorldOf x g w → shape y ≡ shape x → extents_of y ≡ marked (extents_of x) e mark
        → IsWorldOf y g (record w { extents = marked w.extents e mark }) }
{}

/// What is kept for an element that waits and keeps its bytes is what the machine writes for it, and each version of a section
/// that waits needs staged plain writes, and no later version of the root than the section's next one.
pub fn what_waits_is_of_the_world()
    ensures writes { (x : ExtentsState) (g : GraphState) (w : World) (element : Element) → IsWorldOf x g w → IsWholeGraph g → IsWaiting w element → KeepsBytes g (name element)
        → write_of g (name element) ≡ Some (write_for x element) }
    ensures needs { (x : ExtentsState) (g : GraphState) (w : World) (section k v : ℕ) (d : Named) (z : Name) → IsWorldOf x g w
        → WaitsAt g.staging.pending k (Version (family_of section) v) d → Names d z → IsSectionNeed 1 g.staging.staged (need_of x section) z }
{}

/// A store that is opened, where nothing waits and no extent was reset, has the machine's world at open.
pub fn opened_stores_have_worlds()
    ensures { (x : ExtentsState) (g : GraphState) (F : Formats) (img : ℕ → Page) (n : ℕ) (m : Map) (found : Recovers (shape x) F img n m) (versions : List ℕ)
        → IsWhole x → AreListed (shape x).sections found.versions versions → extents_of x ≡ extents_read (shape x) F img n m found
        → g.staging ≡ (graph_at versions found.version).staging → IsWorldOf x g (opened_world (shape x) F img n m found) }
{}

/// What a round of the machine takes is the first round of the plan of all that waits.
pub fn rounds_are_first_rounds()
    ensures { (S : Shape) (F : Formats) (s : State) (R : Cut) (g : Pending) (target : Named) (z : Name)
        → Sound S F s → IsPendingOf S s.world g → NamesAll g target → IsRound S s.world R
        → IsTaken g target 1 z ↔ ((member : Element) × IsMember S (record s.world { round = R }) member × (name member ≡ z)) }
{}

/// What is closed in the machine is closed in the graph, and the other way round.
pub fn closed_sets_agree()
    ensures { (S : Shape) (F : Formats) (s : State) (g : Pending) (members : List Element) (names : List Name) (X : Cut)
        → Sound S F s → IsPendingOf S s.world g → ((member : Element) → member ∈ members → IsWaiting s.world member) → IsCutOf s.world.persistent members X → AreNames members names
        → Closed S (log_of s.world.elements) X ↔ IsClosed g names }
{}

/// What the machine stages is staged in the graph, last, with its needs.
pub fn staging_refines_staging()
    // A page of a frame is staged as the next plain write, with needs that name exactly what it needs.
    ensures page { (S : Shape) (F : Formats) (s : State) (g : Pending) (p : ℕ) (bytes : Page) (d : Named) → Sound S F s → IsPendingOf S s.world g
        → AreExactNeeds S s.world (A_write (write_now S s.world p bytes)) d
        → IsPendingOf S (happens S s.world (StagePage p bytes)) (staged_after g (Plain (suc s.world.written)) d) }
    // The next version of a section of the superblock is staged as that of the section's family, with its needs, of which it may leave out
    // plain writes that are persistent where there are several sections.
    ensures superblock { (S : Shape) (F : Formats) (s : State) (g : Pending) (u : Superblock) (d : Named) (next : World) → Sound S F s → IsPendingOf S s.world g
        → u.version ≡ suc (s.world.superblocks u.section) → next.elements ≡ A_superblock u ∷ s.world.elements → next.persistent ≡ s.world.persistent
        → AreNextNeeds S s.world (A_superblock u) d
        → IsPendingOf S next (staged_after g (Version (family_of u.section) u.version) d) }
    // The next version of the root is staged as that of family 1, with its needs.
    ensures root { (S : Shape) (F : Formats) (s : State) (g : Pending) (r : Root) (d : Named) (next : World) → Sound S F s → IsPendingOf S s.world g
        → r.version ≡ suc s.world.root → next.elements ≡ A_root r ∷ s.world.elements → next.persistent ≡ s.world.persistent
        → AreExactNeeds S s.world (A_root r) d → IsPendingOf S next (staged_after g (Version 1 r.version) d) }
    // Where there is one section nothing is left out: needs name exactly what the element needs.
    ensures exact { (S : Shape) (P : Cut) (staged : List Element) (element : Element) (d : Named) (z : Name) → S.sections ≡ 1
        → AreNeedsOf S P staged element d → Names d z ↔ NeedsName S staged element z }
{}

/// A round that is persistent in the machine is settled in the graph.
pub fn rounds_are_settled()
    ensures { (S : Shape) (F : Formats) (s : State) (g : Pending) (round : List Name) → Sound S F s → IsPendingOf S s.world g → AreMemberNames S s.world round
        → IsPendingOf S (happens S s.world EndRound) (settled g round) }
{}

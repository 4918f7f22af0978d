//! What a Stage merges, by size and otherwise.
ghost use Rattle.std.specs.Prelude.{◌≡◌, ◌≢◌, ◌⊎◌, ◌↔◌, ◌<◌, ◌≤◌, ℕ, true, false, List, [], length, nat_le};
ghost use Rattle.cs_deps.specs.State.{State as GraphState};
ghost use Rattle.cs_extent.specs.State.{State as ExtentsState, shape};
ghost use Rattle.cs_index.specs.Merges.{reached, stage_takes};
ghost use Rattle.cs_index.specs.Staged.{IsMergeStaged, IsNewestStaged, IsPartStagedBy, IsTableStaged, WritesMerged, WritesPart, WritesRun};
ghost use Rattle.cs_index.specs.State.{State};
ghost use Rattle.law_machine.specs.Device.{Shape};
ghost use Rattle.law_machine.specs.Element.{Entry};
ghost use Rattle.law_machine.specs.Extents.{ForRun};
ghost use Rattle.law_machine.specs.Index.{IsTableRun};

/// If a Stage doesn't merge by size, it makes the table the newest run while there are fewer than four, and else one
/// run of all that is live.
pub fn stages_without_sizes()
    ensures table { (s t : State) (x y : ExtentsState) (g h : GraphState) (v commands : ℕ)
        → (shape x).by_size ≡ false → s.table ≢ [] → length s.runs < 4
        → IsNewestStaged (stage_takes (shape x) s) s x g v commands t y h ↔ IsTableStaged s x g v commands t y h }
    ensures merged { (s t : State) (x y : ExtentsState) (g h : GraphState) (v commands : ℕ)
        → (shape x).by_size ≡ false → 4 ≤ length s.runs
        → IsNewestStaged (stage_takes (shape x) s) s x g v commands t y h ↔ IsMergeStaged s x g ForRun v commands t y h }
    // So it is one of these runs that is written.
    ensures writes { (S : Shape) (s : State) (entries : List Entry) → S.by_size ≡ false
        → WritesRun S s entries ↔ ((s.table ≢ []) × (((length s.runs < 4) × IsTableRun s.table entries)
        ⊎ ((4 ≤ length s.runs) × WritesMerged s entries))) }
{}

/// If a Stage merges by size, it makes one run of the table and of as many of the newest runs as are reached, and
/// deletions go if these are all runs.
pub fn stages_by_sizes()
    ensures newest { (s t : State) (x y : ExtentsState) (g h : GraphState) (v commands : ℕ) → (shape x).by_size ≡ true
        → IsNewestStaged (stage_takes (shape x) s) s x g v commands t y h
        ↔ IsPartStagedBy false (nat_le (length s.runs) (reached (shape x) s)) (reached (shape x) s) s x g ForRun v commands t y h }
    // So that is the run that is written.
    ensures writes { (S : Shape) (s : State) (entries : List Entry) → S.by_size ≡ true
        → WritesRun S s entries ↔ ((s.table ≢ []) × WritesPart (nat_le (length s.runs) (reached S s)) s (reached S s) entries) }
{}

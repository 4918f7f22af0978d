//! What staging the index does in format 2, where chunks and runs may lie on one extent.
ghost use Rattle.std.specs.Prelude.{◌≡◌, ◌≢◌, ℕ, ◌^◌, ◌⊎◌, ◌<◌, ◌≤◌, [], IfOk, MatchBool, OnErr, drop, false, length, true};
ghost use Rattle.cs_extent.specs.Appended.{IsReady};
ghost use Rattle.cs_extent.specs.Purposes.{reason_of};
ghost use Rattle.cs_extent.specs.State.{shape};
ghost use Rattle.cs_index.specs.Merges.{deletions_go, stage_takes};
ghost use Rattle.cs_index.specs.Staged.{IsExact, IsFull, IsMergeStaged, IsNewestStaged, IsPartStagedBy, IsStageWorn, WritesMerged, WritesPart, WritesRun};
ghost use Rattle.cs_index.specs.State.{index_of};
ghost use Rattle.law_machine.specs.Extents.{ForRun};
ghost use Rattle.law_machine.specs.Geometry.{most_runs_in};
ghost use Rattle.law_machine.specs.Index.{live_at, lookup};

use crate::indexes::Index;
use crate::mergers::{Chosen, Portion};
use crate::stages::{run_fits, stage_run};
use crate::stored_runs::StoredRun;
use cs_deps::Graph;
use cs_extent::{Extents, Purpose};
use cs_refusal::Refusal;
use std::alloc::AllocError;
use std::mem::replace;

impl Index {
    /// Stages the table, which isn't empty, and as many of the newest runs as a Stage merges as one run, with
    /// `Purpose::Run`, and the root over it and the older runs, after which the table is empty. The table alone is
    /// moved and not copied. `commands` is how many puts and deletes the root includes. Returns the version of the
    /// root.
    ///
    /// 30 `Full` if no extent takes the run, then 35 `WornOut` if a number would pass 2^63 - 1; 9 `OutOfMemory` may
    /// come instead of either. After a refusal nothing has changed but the graph's room.
    pub fn stage_v2(
        &mut self,
        extents: &mut Extents,
        graph: &mut Graph,
        commands: u64,
    ) -> Result<u64, Refusal>
        requires some { self.old.table ≢ [] }
        requires together { (shape extents.old).apart ≡ false }
        requires format { self.old.format ≡ (shape extents.old).format }
        requires limit { self.old.limit ≡ (shape extents.old).most_weight }
        requires ready { IsReady extents.old graph.old.staging }
        requires commands { commands < 2 ^ 63 }
        ensures staged { IfOk result (λ v. IsNewestStaged (stage_takes (shape extents.old) self.old) self.old extents.old graph.old v commands self.new extents.new graph.new) }
        ensures lookups { deletions_go (shape extents.old) self.old (stage_takes (shape extents.old) self.old) ≡ false → (id : ℕ) → lookup id (index_of self.new) ≡ lookup id (index_of self.old) }
        ensures map { (id : ℕ) → live_at (index_of self.new) id ≡ live_at (index_of self.old) id }
        ensures ready { IsReady extents.new graph.new.staging }
        ensures why { IsExact result (IsFull (WritesRun (shape extents.old) self.old) extents.old ForRun) (IsStageWorn (WritesRun (shape extents.old) self.old) extents.old ForRun graph.old.staging) }
        ensures refused { OnErr result (self.new ≡ self.old) }
        ensures unwritten { OnErr result (extents.new ≡ extents.old) }
        ensures unstaged { OnErr result (graph.new ≡ record graph.old { room = graph.new.room }) }
    {
        let portion = self.newest_portion(extents);
        if portion.newest == 0 && !portion.without_deletions {
            return self.stage_table(extents, graph, commands);
        }
        self.stage_newest(extents, graph, commands, Purpose::Run, portion)
    }

    /// Stages the table as one run more.
    fn stage_table(
        &mut self,
        extents: &mut Extents,
        graph: &mut Graph,
        commands: u64,
    ) -> Result<u64, Refusal>
        requires some { self.old.table ≢ [] }
        requires few { length self.old.runs < most_runs_in extents.old.format }
        requires together { (shape extents.old).apart ≡ false }
        requires format { self.old.format ≡ (shape extents.old).format }
        requires limit { self.old.limit ≡ (shape extents.old).most_weight }
        requires ready { IsReady extents.old graph.old.staging }
        requires commands { commands < 2 ^ 63 }
        ensures staged { IfOk result (λ v. IsPartStagedBy false false 0 self.old extents.old graph.old ForRun v commands self.new extents.new graph.new) }
        ensures ready { IsReady extents.new graph.new.staging }
        ensures why { IsExact result (IsFull (WritesPart false self.old 0) extents.old ForRun) (IsStageWorn (WritesPart false self.old 0) extents.old ForRun graph.old.staging) }
        ensures refused { OnErr result (self.new ≡ self.old) }
        ensures unwritten { OnErr result (extents.new ≡ extents.old) }
        ensures unstaged { OnErr result (graph.new ≡ record graph.old { room = graph.new.room }) }
    {
        let alloc = *self.table.entries.allocator();
        let _extents = extents.extent_count();
        if !run_fits(extents, &self.table, Purpose::Run) {
            return Err(Refusal::Full);
        }
        self.runs.reserve(1)?;
        match stage_run(
            extents,
            graph,
            &self.table,
            &self.runs,
            commands,
            Purpose::Run,
        ) {
            Ok((place, version)) => {
                let entries = replace(&mut self.table.entries, Vec::new(alloc));
                self.runs.push_reserved(StoredRun { place, entries });
                self.room = 0;
                Ok(version)
            }
            Err(refusal) => Err(refusal),
        }
    }

    /// Stages all that is live as one run, for this purpose, and the root over it, after which there is no other entry.
    /// If nothing is live no run is staged, and the root has none. Returns the version of the root.
    ///
    /// 30 `Full` if no extent takes the run, then 35 `WornOut` if a number would pass 2^63 - 1; 9 `OutOfMemory` may
    /// come instead of either. After a refusal nothing has changed but the graph's room. Takes memory for all that is
    /// live, and time for all entries.
    pub fn stage_merged(
        &mut self,
        extents: &mut Extents,
        graph: &mut Graph,
        commands: u64,
        purpose: Purpose,
    ) -> Result<u64, Refusal>
        requires together { (shape extents.old).apart ≡ false }
        requires format { self.old.format ≡ (shape extents.old).format }
        requires limit { self.old.limit ≡ (shape extents.old).most_weight }
        requires ready { IsReady extents.old graph.old.staging }
        requires commands { commands < 2 ^ 63 }
        ensures staged { IfOk result (λ v. IsMergeStaged self.old extents.old graph.old (reason_of purpose) v commands self.new extents.new graph.new) }

        // The map stays.
        ensures map { (id : ℕ) → live_at (index_of self.new) id ≡ live_at (index_of self.old) id }

        // Whatever the answer, the next append may be made.
        ensures ready { IsReady extents.new graph.new.staging }

        ensures why { IsExact result (IsFull (WritesMerged self.old) extents.old (reason_of purpose)) (IsStageWorn (WritesMerged self.old) extents.old (reason_of purpose) graph.old.staging) }
        ensures refused { OnErr result (self.new ≡ self.old) }
        ensures unwritten { OnErr result (extents.new ≡ extents.old) }
        ensures unstaged { OnErr result (graph.new ≡ record graph.old { room = graph.new.room }) }
    {
        let all = Portion {
            newest: self.run_count(),
            without_deletions: true,
        };
        self.stage_newest(extents, graph, commands, purpose, all)
    }

    /// Stages the table and so much more as one run, for this purpose, and the root over it and the older runs. If it
    /// would have no entry no run is staged.
    fn stage_newest(
        &mut self,
        extents: &mut Extents,
        graph: &mut Graph,
        commands: u64,
        purpose: Purpose,
        portion: Portion,
    ) -> Result<u64, Refusal>
        requires some { (portion.without_deletions ≡ true) ⊎ (self.old.table ≢ []) }
        requires inside { portion.newest ≤ length self.old.runs }
        requires left { length (drop portion.newest self.old.runs) < most_runs_in extents.old.format }
        requires alone { portion.without_deletions ≡ true → drop portion.newest self.old.runs ≡ [] }
        requires together { (shape extents.old).apart ≡ false }
        requires format { self.old.format ≡ (shape extents.old).format }
        requires limit { self.old.limit ≡ (shape extents.old).most_weight }
        requires ready { IsReady extents.old graph.old.staging }
        requires commands { commands < 2 ^ 63 }
        ensures staged { IfOk result (λ v. IsPartStagedBy false portion.without_deletions portion.newest self.old extents.old graph.old (reason_of purpose) v commands self.new extents.new graph.new) }
        ensures ready { IsReady extents.new graph.new.staging }
        ensures why { IsExact result (IsFull (WritesPart portion.without_deletions self.old portion.newest) extents.old (reason_of purpose)) (IsStageWorn (WritesPart portion.without_deletions self.old portion.newest) extents.old (reason_of purpose) graph.old.staging) }
        ensures refused { OnErr result (self.new ≡ self.old) }
        ensures unwritten { OnErr result (extents.new ≡ extents.old) }
        ensures unstaged { OnErr result (graph.new ≡ record graph.old { room = graph.new.room }) }
    {
        let alloc = *self.table.entries.allocator();
        let run = self.merged_newest(alloc, portion)?;
        if !run_fits(extents, &run, purpose) {
            return Err(Refusal::Full);
        }
        let chosen = Chosen {
            run,
            purpose,
            portion,
        };
        self.stage_chosen(extents, graph, chosen, commands)
    }

    /// Whether an extent would take the run that `stage_merged` writes for this purpose, true also if it writes none.
    /// Takes memory for all that is live, and time for all entries.
    pub fn merged_fits(&self, extents: &Extents, purpose: Purpose) -> Result<bool, AllocError>
        requires together { (shape extents.now).apart ≡ false }
        requires format { self.now.format ≡ (shape extents.now).format }
        requires limit { self.now.limit ≡ (shape extents.now).most_weight }
        ensures { IfOk result (λ fits. MatchBool fits (IsFull (WritesMerged self.now) extents.now (reason_of purpose) → ⊥) (IsFull (WritesMerged self.now) extents.now (reason_of purpose))) }
    {
        let alloc = *self.table.entries.allocator();
        let all = Portion {
            newest: self.run_count(),
            without_deletions: true,
        };
        let run = self.merged_newest(alloc, all)?;
        Ok(run_fits(extents, &run, purpose))
    }
}

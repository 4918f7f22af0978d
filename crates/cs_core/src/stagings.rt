//! Runs and roots.
ghost use Rattle.std.specs.Prelude.{◌≡◌, ◌≢◌, ◌+◌, ◌⊎◌, [], IfErr, IfOk, MatchBool, MatchOption, OnErr, OnOk, false, true};
ghost use Rattle.cs_extent.specs.State.{shape};
ghost use Rattle.law_machine.specs.State.{Stage};
ghost use Rattle.cs_core.specs.Puts.{MeansTheSame};
ghost use Rattle.cs_core.specs.Replies.{MayRefuse};
ghost use Rattle.cs_core.specs.Steps.{Answers, staged_or_not};
ghost use Rattle.cs_core.specs.Stored.{but_for_room};
ghost use Rattle.cs_core.specs.Unstaged.{MayStage, NothingToStage, are_left_over};
ghost use Rattle.cs_core.specs.Writebacks.{KeepsRound, Stages};

use crate::events::Event;
use crate::histories::Root;
use crate::stores::Store;
use cs_refusal::Refusal;

impl Store {
    /// Whether `stage` stages a root: the index has changes that aren't staged, or a sweep that was given up left
    /// copies.
    pub fn may_stage(&self) -> bool
        ensures { MatchBool result (MayStage self.now) (NothingToStage self.now) }
    {
        if self.index.is_table_empty() {
            return self.are_left_over();
        }
        true
    }

    /// Whether a sweep that was given up left copies.
    fn are_left_over(&self) -> bool
        ensures { result ≡ are_left_over self.now }
    {
        self.sweeps.are_left_over(&self.extents)
    }

    /// Stages the index's changes as a run, and the next root over all runs. Returns that root's version, or None if
    /// nothing has changed.
    ///
    /// The run replaces as many of the newest runs as their sizes ask for, or all of them if such a run finds no place.
    /// If only a sweep that was given up left copies, the root is staged alone. Under each root the extents on which
    /// nothing lives are emptied. In format 2 one run of all that is live replaces four runs, and nothing else is done.
    pub fn stage(&mut self) -> Result<Option<u64>, Refusal>
        ensures step { self.old.halted ≡ false → Answers self.old Stage staged_or_not result self.new }
        ensures staged { IfOk result (λ staged. MatchOption staged ((self.old.index.table ≡ []) × (but_for_room self.new ≡ but_for_room self.old)) (λ v. self.new.index.table ≡ [])) }
        ensures round { KeepsRound self.old self.new }
        ensures behind { OnOk result (Stages self.old self.new) }
        ensures meaning { OnOk result (MeansTheSame self.old.index self.new.index) }
        ensures refused { OnErr result (but_for_room self.new ≡ but_for_room self.old) }
        ensures refusals { IfErr result (λ r. (r ≡ Refusal.OutOfMemory) ⊎ MayRefuse Event.Stage r) }
        ensures shape { shape self.new.extents ≡ shape self.old.extents }
        ensures frontier { self.new.frontier ≡ self.old.frontier }
        ensures no_fault { IfErr result (λ r. r ≢ Refusal.DeviceFault) }
        ensures unlimited { IfErr result (λ r. r ≢ Refusal.HistoryFull) }
    {
        // Called for their contracts alone: what all extents and every graph keep.
        self.extents.extent_count();
        self.graph.families();
        if self.roots.reserve(1).is_err() {
            return Err(Refusal::OutOfMemory);
        }
        // The root's page counts all commands; `roots` counts those since open.
        let commands = self.base + self.accepted;
        match self.sweeps.stage(
            &mut self.index,
            &mut self.extents,
            &mut self.graph,
            commands,
        ) {
            Ok(Some(version)) => {
                self.roots.push_back_reserved(Root {
                    version,
                    commands: self.accepted,
                });
                Ok(Some(version))
            }
            Ok(None) => Ok(None),
            Err(refusal) => Err(refusal),
        }
    }
}

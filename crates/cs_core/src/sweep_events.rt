//! Sweeps: an extent is marked, what lives on it goes elsewhere chunk by chunk, and it is emptied or given up.
ghost use Rattle.std.specs.Prelude.{◌≡◌, ◌≢◌, ◌⊎◌, IfErr, IsTrue, OnErr, OnOk, false, None, []};
ghost use Rattle.cs_extent.specs.State.{shape};
ghost use Rattle.law_machine.specs.State.{Abandon, Abandoned, BeginSweep, Sweeping, Retire, Retired};
ghost use Rattle.cs_core.specs.Puts.{MeansTheSame};
ghost use Rattle.cs_core.specs.Replies.{MayRefuse};
ghost use Rattle.cs_core.specs.Steps.{Answers};
ghost use Rattle.cs_core.specs.Stored.{but_for_room};
ghost use Rattle.cs_core.specs.Sweepable.{IsUnsweepable};
ghost use Rattle.cs_core.specs.Writebacks.{KeepsRound, KeepsStaging, Stages};
ghost use Rattle.cs_chunk.specs.Reads.{IsCaused};
ghost use Rattle.cs_disk.specs.Reads.{OnlyReads};
ghost use Rattle.cs_core.specs.Reads.{MoveAnswers};
ghost use Rattle.cs_reader.specs.ImageReads.{page_total};

use crate::events::Event;
use crate::histories::Root;
use crate::stores::Store;
use cs_disk::PageDisk;
use cs_frame::ShardId;
use cs_refusal::Refusal;

impl Store {
    /// Marks an extent as being swept. `Event::BeginSweep` says when that is refused.
    pub fn begin_sweep(&mut self, extent: usize) -> Result<(), Refusal>
        ensures step { self.old.halted ≡ false → Answers self.old (BeginSweep extent) (λ _. Sweeping) result self.new }
        ensures round { KeepsRound self.old self.new }
        ensures staging { KeepsStaging self.old self.new }
        ensures meaning { OnOk result (MeansTheSame self.old.index self.new.index) }
        ensures refused { OnErr result (but_for_room self.new ≡ but_for_room self.old) }
        ensures refusals { IfErr result (λ r. (r ≡ Refusal.OutOfMemory) ⊎ MayRefuse (Event.BeginSweep extent) r) }
        ensures shape { shape self.new.extents ≡ shape self.old.extents }
        ensures frontier { self.new.frontier ≡ self.old.frontier }
        ensures no_fault { IfErr result (λ r. r ≢ Refusal.DeviceFault) }
        ensures unlimited { IfErr result (λ r. r ≢ Refusal.HistoryFull) }
    {
        // Called for its contract alone: what all extents keep.
        self.extents.extent_count();
        self.sweeps.begin(&mut self.extents, extent)
    }

    /// Gives the sweep of an extent up. 33 `NotSweepable` if it isn't being swept.
    pub fn abandon(&mut self, extent: usize) -> Result<(), Refusal>
        ensures step { self.old.halted ≡ false → Answers self.old (Abandon extent) (λ _. Abandoned) result self.new }
        ensures round { KeepsRound self.old self.new }
        ensures staging { KeepsStaging self.old self.new }
        ensures meaning { OnOk result (MeansTheSame self.old.index self.new.index) }
        ensures refused { OnErr result (but_for_room self.new ≡ but_for_room self.old) }
        ensures refusals { IfErr result (λ r. (r ≡ Refusal.OutOfMemory) ⊎ MayRefuse (Event.Abandon extent) r) }
        ensures shape { shape self.new.extents ≡ shape self.old.extents }
        ensures frontier { self.new.frontier ≡ self.old.frontier }
        ensures no_fault { IfErr result (λ r. r ≢ Refusal.DeviceFault) }
        ensures unlimited { IfErr result (λ r. r ≢ Refusal.HistoryFull) }
    {
        // Called for its contract alone: what all extents keep.
        self.extents.extent_count();
        self.sweeps.abandon(&mut self.extents, extent)
    }

    /// Whether the sweep of an extent may begin.
    pub fn is_sweepable(&self, extent: usize) -> bool
        ensures may { IsTrue result → ¬ IsUnsweepable self.now extent }
        ensures not { ¬ (IsTrue result) → IsUnsweepable self.now extent }
    {
        self.sweeps.may_begin(&self.extents, extent)
    }

    /// Copies the first live chunk that isn't copied yet off an extent that is being swept. Returns which it was, or
    /// None if all are copied. In format 2 it is moved, and None means that no chunk lives there.
    /// `Event::MoveOne` has the refusals.
    pub fn move_one<D: PageDisk>(
        &mut self,
        disk: &mut D,
        extent: usize,
    ) -> Result<Option<(ShardId, usize)>, Refusal>
        requires device { page_total (shape self.old.extents) ≡ D.page_count disk.old }
        ensures none { result ≡ Ok None → but_for_room self.new ≡ but_for_room self.old }
        ensures step { self.old.halted ≡ false → D.honest disk.old → MoveAnswers self.old (D.state disk.old) extent result self.new }
        ensures round { KeepsRound self.old self.new }
        ensures behind { OnOk result (Stages self.old self.new) }
        ensures meaning { OnOk result (MeansTheSame self.old.index self.new.index) }
        ensures refused { OnErr result (but_for_room self.new ≡ but_for_room self.old) }
        ensures refusals { IfErr result (λ r. (r ≡ Refusal.OutOfMemory) ⊎ MayRefuse (Event.MoveOne extent) r) }
        ensures shape { shape self.new.extents ≡ shape self.old.extents }
        ensures frontier { self.new.frontier ≡ self.old.frontier }
        ensures disk { OnlyReads D.PageDisk disk.old disk.new }
        ensures cause { IsCaused (D.failure_count disk.old) (D.failure_count disk.new) result }
        ensures unlimited { IfErr result (λ r. r ≢ Refusal.HistoryFull) }
    {
        // Called for their contracts alone: what all extents and every graph keep.
        self.extents.extent_count();
        self.graph.families();
        if !self.sweeps.is_swept(&self.extents, extent) {
            return Err(Refusal::NotSweepable);
        }
        self.sweeps.move_one(
            self.alloc,
            extent,
            &mut self.index,
            &mut self.extents,
            &mut self.graph,
            disk,
        )
    }

    /// Ends the sweep of an extent: what was copied counts, a root is staged as by `stage`, and the extent is emptied
    /// under it. Returns the root's version. `Event::Retire` has the refusals. In format 2 one run of all that is live
    /// is staged with the root.
    pub fn retire(&mut self, extent: usize) -> Result<u64, Refusal>
        ensures staged { OnOk result (self.new.index.table ≡ []) }
        ensures step { self.old.halted ≡ false → Answers self.old (Retire extent) (λ v. Retired v) result self.new }
        ensures round { KeepsRound self.old self.new }
        ensures behind { OnOk result (Stages self.old self.new) }
        ensures meaning { OnOk result (MeansTheSame self.old.index self.new.index) }
        ensures refused { OnErr result (but_for_room self.new ≡ but_for_room self.old) }
        ensures refusals { IfErr result (λ r. (r ≡ Refusal.OutOfMemory) ⊎ MayRefuse (Event.Retire extent) r) }
        ensures shape { shape self.new.extents ≡ shape self.old.extents }
        ensures frontier { self.new.frontier ≡ self.old.frontier }
        ensures no_fault { IfErr result (λ r. r ≢ Refusal.DeviceFault) }
        ensures unlimited { IfErr result (λ r. r ≢ Refusal.HistoryFull) }
    {
        // Called for their contracts alone: what all extents and every graph keep.
        self.extents.extent_count();
        self.graph.families();
        if !self.sweeps.is_swept(&self.extents, extent) {
            return Err(Refusal::NotSweepable);
        }
        if self.roots.reserve(1).is_err() {
            return Err(Refusal::OutOfMemory);
        }
        let commands = self.base + self.accepted;
        match self.sweeps.retire(
            extent,
            &mut self.index,
            &mut self.extents,
            &mut self.graph,
            commands,
        ) {
            Ok(version) => {
                self.roots.push_back_reserved(Root {
                    version,
                    commands: self.accepted,
                });
                Ok(version)
            }
            Err(refusal) => Err(refusal),
        }
    }
}

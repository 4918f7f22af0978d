//! Rounds of writeback and their plans, what of them is persistent, and whether any of it is left to do.
ghost use Rattle.std.specs.Prelude.{◌≡◌, ◌≢◌, ◌+◌, ◌^◌, ◌<◌, ◌≤◌, ◌⊎◌, [], IfOk, IfErr, IfSome, MatchBool, MatchOption, MatchResult, OnErr, IsErrOf, None, Some, false, true, length, slice_get, ◌↔◌, ◌∷◌, List, IsTrue, slice_index, ℕ, IsSome};
ghost use Rattle.cs_extent.specs.State.{shape, extents_of};
ghost use Rattle.cs_core.specs.Disks.{TakesNext, WritesAsTold};
ghost use Rattle.cs_disk.specs.Disk.{StaysSound};
ghost use Rattle.cs_core.specs.Replies.{MayRefuse};
ghost use Rattle.cs_core.specs.Rounds.{BeginAnswers, EndAnswers, IssueAnswers};
ghost use Rattle.cs_core.specs.Stored.{members_of, but_for_room};
ghost use Rattle.cs_core.specs.Writebacks.{IsMemberIssued, IsRoundBegun, IsRoundEnded, StaysRefused};
ghost use Rattle.cs_reader.specs.ImageReads.{page_total};
ghost use Rattle.cs_extent.specs.Frames.{root_family};
ghost use Rattle.cs_core.specs.declared.histories.Root.{Root};
ghost use Rattle.cs_core.specs.Frontiers.{LetsGo};
ghost use Rattle.cs_core.specs.Checkpoints.{IsSettled};
ghost use Rattle.cs_deps.specs.Named.{IsWithin};
ghost use Rattle.cs_deps.specs.Staging.{IsKept};
ghost use Rattle.cs_deps.specs.State.{everything};
ghost use Rattle.cs_deps.specs.View.{rounds_of};
ghost use Rattle.cs_plan.specs.Best.{IsBestPlan};

use crate::events::{Event, Reply};
use crate::histories::Root;
use crate::stores::Store;
use cs_deps::{Dependency, Element, Graph, Plan};
use cs_disk::{DiskFault, PageDisk};
use cs_extent::ROOT;
use cs_plan::{next_round, plan_all};
use cs_refusal::Refusal;
use std::alloc::Global;
use std::collections::VecDeque;

impl Store {
    /// Takes the next round of the plan of all that waits. Returns its members twice, or None if nothing waits.
    pub fn begin(&mut self) -> Result<Option<(Vec<Element>, Vec<Element>)>, Refusal>
        ensures begun { IfOk result (λ begun. MatchOption begun ((self.old.graph.staging.pending.waiting ≡ []) × (self.old.out ≡ None) × (but_for_room self.new ≡ but_for_room self.old)) (λ r. IsRoundBegun r.0.items (but_for_room self.old) (but_for_room self.new))) }
        ensures twice { IfOk result (λ begun. IfSome begun (λ r. r.0.items ≡ r.1.items)) }
        ensures step { self.old.halted ≡ false → BeginAnswers self.old result self.new }
        ensures refused { OnErr result (but_for_room self.new ≡ but_for_room self.old) }
        ensures refusals { IfErr result (λ r. (r ≡ Refusal.OutOfMemory) ⊎ MayRefuse Event.Begin r) }
        ensures shape { shape self.new.extents ≡ shape self.old.extents }
        ensures frontier { self.new.frontier ≡ self.old.frontier }
        ensures no_fault { IfErr result (λ r. r ≢ Refusal.DeviceFault) }
        ensures unlimited { IfErr result (λ r. r ≢ Refusal.HistoryFull) }
        ensures stays { IfErr result (λ r. StaysRefused Event.Begin r (but_for_room self.old) (but_for_room self.new)) }
    {
        // Called for their contracts alone: what all extents and every graph keep.
        self.extents.extent_count();
        self.graph.families();
        let round = match next_round(self.alloc, &self.graph) {
            Ok(round) => round,
            Err(refusal) => return Err(refusal),
        };
        if round.is_empty() {
            return Ok(None);
        }
        let told = Vec::from_slice(self.alloc, &round)?;
        let noted = Vec::from_slice(self.alloc, &round)?;
        self.graph.take_round(round);
        self.issued = 0;
        Ok(Some((told, noted)))
    }

    /// Writes the next member of the round to its page. Returns the member and the page. 1 `DeviceFault` halts the
    /// store.
    pub fn issue<D: PageDisk>(&mut self, disk: &mut D) -> Result<(Element, u64), Refusal>
        requires device { page_total (shape self.old.extents) ≡ D.page_count disk.old }
        ensures issued { MatchResult result (λ r. IsMemberIssued r.0 (but_for_room self.old) (but_for_room self.new)) (λ r. StaysRefused Event.Issue r (but_for_room self.old) (but_for_room self.new)) }
        ensures step { self.old.halted ≡ false → D.honest disk.old → IssueAnswers self.old (D.state disk.old) result self.new (D.state disk.new) }
        ensures memory { IsErrOf result Refusal.OutOfMemory → (self.new ≡ self.old) × (D.honest disk.old → D.state disk.new ≡ D.state disk.old) }
        ensures refusals { IfErr result (λ r. (r ≡ Refusal.OutOfMemory) ⊎ MayRefuse Event.Issue r) }
        ensures shape { shape self.new.extents ≡ shape self.old.extents }
        ensures frontier { self.new.frontier ≡ self.old.frontier }
        ensures disk { WritesAsTold D.PageDisk self.old disk.old Event.Issue (λ r. Reply.Issued r.0 r.1) result disk.new }
        ensures taken { self.old.halted ≡ false → D.honest disk.old → D.sound disk.old → TakesNext D.PageDisk (but_for_room self.old) disk.old → D.refusal_count disk.new ≡ D.refusal_count disk.old }
        ensures sound { D.sound disk.old → MatchResult result (λ _. D.sound disk.new) (λ r. (r ≡ Refusal.DeviceFault) ⊎ (r ≡ Refusal.OutOfMemory) ⊎ D.sound disk.new) }
    {
        // Called for their contracts alone: what all extents and every graph keep.
        self.extents.extent_count();
        self.graph.families();
        let Some(member) = self.next_member() else {
            return Err(Refusal::NoRound);
        };
        // A member of the round that is out keeps its page and its bytes.
        let page = self.graph.page_of(member).unwrap();
        let bytes = self.graph.bytes_of(member).unwrap();
        match disk.write(page, bytes) {
            Ok(()) => {
                self.issued += 1;
                Ok((member, page))
            }
            Err(DiskFault::DeviceFault) => {
                self.halted = true;
                Err(Refusal::DeviceFault)
            }
            Err(DiskFault::OutOfMemory) => Err(Refusal::OutOfMemory),
        }
    }

    /// The member of the round that is written next.
    fn next_member(&self) -> Option<Element>
        ensures member { result ≡ slice_get (members_of self.now.out) self.now.issued }
        ensures fits { IfSome result (λ _. self.now.issued + 1 < 2 ^ 64) }
    {
        match self.graph.round() {
            Some(round) => {
                if self.issued < round.len() {
                    Some(round[self.issued])
                } else {
                    None
                }
            }
            None => None,
        }
    }

    /// Flushes, after which the round is persistent. Returns how many commands are persistent then. 1 `DeviceFault`
    /// halts the store.
    pub fn end<D: PageDisk>(&mut self, disk: &mut D) -> Result<u64, Refusal>
        requires device { page_total (shape self.old.extents) ≡ D.page_count disk.old }
        ensures ended { MatchResult result (λ n. IsRoundEnded n (but_for_room self.old) (but_for_room self.new)) (λ r. StaysRefused Event.End r (but_for_room self.old) (but_for_room self.new)) }
        ensures step { self.old.halted ≡ false → D.honest disk.old → EndAnswers self.old (D.state disk.old) result self.new (D.state disk.new) }
        ensures memory { IsErrOf result Refusal.OutOfMemory → (self.new ≡ self.old) × (D.honest disk.old → D.state disk.new ≡ D.state disk.old) }
        ensures refusals { IfErr result (λ r. (r ≡ Refusal.OutOfMemory) ⊎ MayRefuse Event.End r) }
        ensures shape { shape self.new.extents ≡ shape self.old.extents }
        ensures number { IfOk result (λ n. self.new.frontier ≡ n) }
        ensures rises { self.old.frontier ≤ self.new.frontier }
        ensures disk { WritesAsTold D.PageDisk self.old disk.old Event.End (λ n. Reply.Ended n) result disk.new }
        ensures sound { StaysSound D.sound D.refusal_count disk.old disk.new }
    {
        // Called for their contracts alone: what all extents and every graph keep.
        self.extents.extent_count();
        self.graph.families();
        if !self.is_issued() {
            return Err(Refusal::NoRound);
        }
        match disk.flush() {
            Ok(()) => {
                self.graph.settle_round();
                self.issued = 0;
                let_go(self.alloc, &self.graph, &mut self.roots);
                self.frontier = self.roots[0].commands;
                Ok(self.frontier)
            }
            Err(DiskFault::DeviceFault) => {
                self.halted = true;
                Err(Refusal::DeviceFault)
            }
            Err(DiskFault::OutOfMemory) => Err(Refusal::OutOfMemory),
        }
    }

    /// Whether a round is out, and all of it was written.
    fn is_issued(&self) -> bool
        ensures { MatchBool result ((self.now.out ≢ None) × (self.now.issued ≡ length (members_of self.now.out))) ((self.now.out ≡ None) ⊎ (self.now.issued < length (members_of self.now.out))) }
    {
        match self.graph.round() {
            Some(round) => self.issued == round.len(),
            None => false,
        }
    }
}

/// Drops the roots before the newest one that is persistent. The first root is persistent.
pub fn let_go(alloc: Global, graph: &Graph, roots: &mut VecDeque<Root>)
    requires some { 0 < length roots.old.items }
    requires settled { (r : Root) (rs : List Root) → roots.old.items ≡ r ∷ rs → r.version ≤ slice_index graph.now.staging.pending.persistent root_family }
    ensures { LetsGo (slice_index graph.now.staging.pending.persistent root_family) roots.old.items roots.new.items }
{
    for _ in 1..roots.len() {
        if !is_persistent(alloc, graph, roots[1]) {
            return;
        }
        roots.pop_front();
    }
}

/// Whether a root is persistent.
fn is_persistent(alloc: Global, graph: &Graph, root: Root) -> bool
    ensures { IsTrue result ↔ (root.version ≤ slice_index graph.now.staging.pending.persistent root_family) }
{
    // Called for its contract alone: what every graph keeps.
    graph.families();
    match Dependency::on_version(alloc, ROOT, root.version) {
        Ok(version) => graph.is_persistent(&version),
        Err(_) => unreachable!(),
    }
}

impl Store {
    /// Whether nothing waits, no round is out, the index has no change that isn't staged, and no extent is being swept.
    pub fn is_settled(&self) -> bool
        ensures { MatchBool result (IsSettled self.now) (¬ IsSettled self.now) }
    {
        self.is_at_rest() && self.swept_extent().is_none()
    }

    /// Whether nothing waits, no round is out, and the index has no change that isn't staged.
    fn is_at_rest(&self) -> bool
        ensures { IsTrue result ↔ ((self.now.graph.staging.pending.waiting ≡ []) × (self.now.out ≡ None) × (self.now.index.table ≡ [])) }
    {
        match self.graph.round() {
            Some(_) => false,
            None => !self.graph.has_waiting() && self.index.is_table_empty(),
        }
    }

    /// The lowest extent that is being swept, or None if none is.
    pub fn swept_extent(&self) -> Option<usize>
        ensures { MatchOption result ((e : ℕ) → (extents_of self.now.extents).swept e ≡ false)
            (λ e. ((extents_of self.now.extents).swept e ≡ true) × ((k : ℕ) → k < e → (extents_of self.now.extents).swept k ≡ false)) }
    {
        for extent in 0..self.extents.extent_count() {
            if self.extents.is_swept(extent) {
                return Some(extent);
            }
        }
        None
    }
}

impl Store {
    /// The plan of all that waits. 5 `InFlight` if a round is out; 9 `OutOfMemory`.
    pub fn plan(&self, alloc: Global) -> Result<Plan, Refusal>
        ensures kept { IsKept self.now.graph.staging }
        ensures out { self.now.out ≡ self.now.graph.round }
        ensures best { IfOk result (λ plan. IsBestPlan self.now.graph.staging.pending (everything self.now.graph.staging) (rounds_of plan) plan.chain.items) }
        ensures in_flight { (result ≡ Err Refusal.InFlight) ↔ IsSome self.now.graph.round }
        ensures refusals { IfErr result (λ r. (r ≡ Refusal.InFlight) ⊎ (r ≡ Refusal.OutOfMemory)) }
    {
        // Called for its contract alone: what every graph keeps.
        self.graph.families();
        plan_all(alloc, &self.graph)
    }

    /// The plan that makes a dependency persistent. 4 `NotStaged`, then 5 `InFlight` if a round is out; 9
    /// `OutOfMemory`.
    pub fn plan_for(&self, alloc: Global, target: &Dependency) -> Result<Plan, Refusal>
        ensures best { IfOk result (λ plan. IsBestPlan self.now.graph.staging.pending target.now (rounds_of plan) plan.chain.items) }
        ensures not_staged { (result ≡ Err Refusal.NotStaged) ↔ ¬ IsWithin target.now self.now.graph.staging.staged self.now.graph.staging.latest }
        ensures in_flight { (result ≡ Err Refusal.InFlight) ↔ (IsWithin target.now self.now.graph.staging.staged self.now.graph.staging.latest × IsSome self.now.graph.round) }
        ensures refusals { IfErr result (λ r. (r ≡ Refusal.NotStaged) ⊎ (r ≡ Refusal.InFlight) ⊎ (r ≡ Refusal.OutOfMemory)) }
    {
        cs_plan::plan(alloc, &self.graph, target)
    }
}

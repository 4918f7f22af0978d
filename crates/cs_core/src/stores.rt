//! A store without its disk: extents, the graph of what waits, the index, and how far the round that is out has come;
//! and how it serves an event.
ghost use Rattle.std.specs.Prelude.{◌≡◌, ◌+◌, ◌^◌, ◌<◌, ◌≤◌, MatchBool, MatchOption, None, Some, ◌≢◌, IfOk, OnErr, false};
ghost use Rattle.cs_deps.specs.State.{AreCounted, IsWhole as IsWholeGraph};
ghost use Rattle.cs_extent.specs.State.{IsWhole, shape};
ghost use Rattle.cs_core.specs.Stored.{AreInside, IsKept, Stored, but_for_room};
ghost use Rattle.cs_disk.specs.Disk.{State as DiskState};
ghost use Rattle.cs_disk.specs.Reads.{OnlyReads};
ghost use Rattle.cs_core.specs.Answered.{IsAnswered, IsAlone, IsForDevice};
ghost use Rattle.cs_core.specs.Served.{IsServed};
ghost use Rattle.cs_core.specs.Views.{Serves};
ghost use Rattle.cs_reader.specs.ImageReads.{page_total};

use crate::events::{Elements, Event, OutOfMemory, Reply, found, refused};
use crate::histories::Root;
use cs_deps::{Element, Graph, LAST_NUMBER};
use cs_disk::PageDisk;
use cs_extent::Extents;
use cs_frame::ShardId;
use cs_index::Index;
use cs_refusal::Refusal;
use law_refinement::reclaim::Sweeps;
use std::alloc::Global;
use std::collections::VecDeque;
use std::marker::Model;

/// A store without its disk. The round that is out is the one of its graph.
#[derive(Drop)]
pub struct Store {
    pub alloc: Global,
    pub graph: Graph,
    pub extents: Extents,
    pub index: Index,
    /// What a sweep copied that doesn't count yet. Nothing in format 2, in which a chunk that is moved counts at once.
    pub sweeps: Sweeps,
    /// The newest root that is persistent, and after it those that were staged since and wait.
    pub roots: VecDeque<Root>,
    /// How many members of the round that is out were written.
    pub issued: usize,
    /// The commands of the root that was read at open.
    pub base: u64,
    /// The commands that were accepted since.
    pub accepted: u64,
    /// How many of these are persistent.
    pub frontier: u64,
    /// Whether a write or a flush failed.
    pub halted: bool,
}

impl Model for Store {
    ghost use Rattle.cs_core.specs.Stored.{IsKept, Stored};

    ghost Value = { Stored };

    ghost view = { λ s. record { graph = s.graph; extents = s.extents; index = s.index; copies = s.sweeps; roots = s.roots.items; out = s.graph.round; issued = s.issued; base = s.base; accepted = s.accepted; frontier = s.frontier; halted = s.halted } };

    ghost invariant = { λ s. IsKept (record { graph = s.graph; extents = s.extents; index = s.index; copies = s.sweeps; roots = s.roots.items; out = s.graph.round; issued = s.issued; base = s.base; accepted = s.accepted; frontier = s.frontier; halted = s.halted }) };
}

impl Store {
    /// Whether a write or a flush failed.
    pub fn is_halted(&self) -> bool
        ensures { result ≡ self.now.halted }
    {
        self.halted
    }

    /// How many commands were accepted since the store was opened.
    pub fn accepted(&self) -> u64
        ensures count { result ≡ self.now.accepted }
        ensures fits { self.now.base + result < 2 ^ 63 }
    {
        self.accepted
    }

    /// How many of these are persistent.
    pub fn frontier(&self) -> u64
        ensures frontier { result ≡ self.now.frontier }
        ensures within { result ≤ self.now.accepted }
    {
        self.frontier
    }

    /// The members of the round that is out, and how many of them were issued.
    pub fn round(&self) -> Option<(&[Element], usize)>
        ensures { MatchOption result (self.now.out ≡ None) (λ r. (self.now.out ≡ Some r.0.now) × (self.now.issued ≡ r.1)) }
    {
        match self.graph.round() {
            Some(round) => Some((round, self.issued)),
            None => None,
        }
    }

    /// How many page writes are kept.
    pub fn kept_pages(&self) -> usize
        ensures { self.now.out ≡ None → AreCounted self.now.graph result }
    {
        self.graph.kept_pages()
    }

    /// How many extents there are. Its contract says what all stores keep of them.
    pub fn extent_count(&self) -> usize
        ensures count { result ≡ (shape self.now.extents).extents }
        ensures whole { IsWhole self.now.extents }
    {
        self.extents.extent_count()
    }

    /// Called for its contract alone: what all stores keep of their extents and of what waits.
    pub fn keeps_whole(&self)
        ensures extents { IsWhole self.now.extents }
        ensures graph { IsWholeGraph self.now.graph }
    {
        self.extents.extent_count();
        self.graph.families();
    }

    /// The index. Its contract says what all stores keep of it.
    pub fn index(&self) -> &Index
        ensures index { result.now ≡ self.now.index }
        ensures places { AreInside (shape self.now.extents) result.now }
    {
        &self.index
    }

    /// Whether the number of commands is the greatest.
    pub fn is_worn(&self) -> bool
        ensures { MatchBool result (2 ^ 63 ≤ self.now.base + self.now.accepted + 1) (self.now.base + self.now.accepted + 1 < 2 ^ 63) }
    {
        LAST_NUMBER <= self.base + self.accepted
    }
}

impl Store {
    /// Does one event. Returns its reply twice: to answer it, and to keep it in the history. A store that is halted
    /// refuses all but Get and Settle, 40 `Halted`. After `OutOfMemory` nothing has changed but what memory is
    /// reserved.
    pub fn serve<D: PageDisk>(
        &mut self,
        disk: &mut D,
        event: &Event,
    ) -> Result<(Reply, Reply), OutOfMemory>
        requires device { page_total (shape self.old.extents) ≡ D.page_count disk.old }
        ensures served { IsServed D.PageDisk self.old disk.old event.now result self.new disk.new }
    {
        match event {
            Event::Get(id) => self.serve_get(disk, *id),
            Event::Settle(n) => Ok(self.serve_settle(*n)),
            _ => {
                if self.is_halted() {
                    return refused(Refusal::Halted);
                }
                if event.is_for_device() {
                    self.serve_device(disk, event)
                } else {
                    self.serve_alone(event)
                }
            }
        }
    }

    /// The reply to a Settle, twice: `Persistent` for 1 to the frontier, else `NotYet` with the frontier.
    fn serve_settle(&self, n: u64) -> (Reply, Reply)
        ensures twice { result.0 ≡ result.1 }
        ensures answered { IsAnswered (but_for_room self.now) (Event.Settle n) result.0 (but_for_room self.now) }
        ensures step { (disk : DiskState) → Serves self.now disk (Event.Settle n) result.0 self.now disk }
        ensures unlimited { result.0 ≢ Reply.Refused Refusal.HistoryFull }
    {
        let frontier = self.frontier();
        if 1 <= n && n <= frontier {
            (Reply::Persistent, Reply::Persistent)
        } else {
            (Reply::NotYet(frontier), Reply::NotYet(frontier))
        }
    }

    /// Gets a shard. Returns the reply twice.
    fn serve_get<D: PageDisk>(
        &self,
        disk: &mut D,
        id: ShardId,
    ) -> Result<(Reply, Reply), OutOfMemory>
        requires device { page_total (shape self.now.extents) ≡ D.page_count disk.old }
        ensures served { IsServed D.PageDisk self.now disk.old (Event.Get id) result self.now disk.new }
        ensures disk { OnlyReads D.PageDisk disk.old disk.new }
    {
        let bytes = match self.get(disk, id) {
            Ok(Some(bytes)) => bytes,
            Ok(None) => return Ok((Reply::Absent, Reply::Absent)),
            Err(refusal) => return refused(refusal),
        };
        found(self.alloc, bytes)
    }
}

impl Store {
    /// Does an event that asks nothing of the disk, in a store that isn't halted. Returns its reply twice.
    fn serve_alone(&mut self, event: &Event) -> Result<(Reply, Reply), OutOfMemory>
        requires alone { IsAlone event.now }
        requires running { self.old.halted ≡ false }
        ensures twice { IfOk result (λ r. r.0 ≡ r.1) }
        ensures answered { IfOk result (λ r. IsAnswered (but_for_room self.old) event.now r.0 (but_for_room self.new)) }
        ensures rises { self.old.frontier ≤ self.new.frontier }
        ensures step { (disk : DiskState) → IfOk result (λ r. Serves self.old disk event.now r.0 self.new disk) }
        ensures refused { OnErr result (but_for_room self.new ≡ but_for_room self.old) }
        ensures shape { shape self.new.extents ≡ shape self.old.extents }
        ensures no_fault { IfOk result (λ r. r.0 ≢ Reply.Refused Refusal.DeviceFault) }
        ensures unlimited { IfOk result (λ r. r.0 ≢ Reply.Refused Refusal.HistoryFull) }
    {
        match event {
            Event::Put(id, bytes) => match self.put(*id, bytes.as_slice()) {
                Ok(n) => Ok((Reply::Accepted(n), Reply::Accepted(n))),
                Err(refusal) => refused(refusal),
            },
            Event::Delete(id) => match self.delete(*id) {
                Ok(Some(n)) => Ok((Reply::Accepted(n), Reply::Accepted(n))),
                Ok(None) => Ok((Reply::Absent, Reply::Absent)),
                Err(refusal) => refused(refusal),
            },
            Event::Stage => match self.stage() {
                Ok(Some(v)) => Ok((Reply::Staged(v), Reply::Staged(v))),
                Ok(None) => Ok((Reply::Unchanged, Reply::Unchanged)),
                Err(refusal) => refused(refusal),
            },
            Event::Begin => match self.begin() {
                Ok(Some((told, noted))) => Ok((
                    Reply::Begun(Elements::new(told)),
                    Reply::Begun(Elements::new(noted)),
                )),
                Ok(None) => Ok((Reply::Nothing, Reply::Nothing)),
                Err(refusal) => refused(refusal),
            },
            Event::BeginSweep(e) => match self.begin_sweep(*e) {
                Ok(()) => Ok((Reply::Sweeping, Reply::Sweeping)),
                Err(refusal) => refused(refusal),
            },
            Event::Retire(e) => match self.retire(*e) {
                Ok(v) => Ok((Reply::Retired(v), Reply::Retired(v))),
                Err(refusal) => refused(refusal),
            },
            Event::Abandon(e) => match self.abandon(*e) {
                Ok(()) => Ok((Reply::Abandoned, Reply::Abandoned)),
                Err(refusal) => refused(refusal),
            },
            _ => unreachable!(),
        }
    }

    /// Does an event that reads, writes or flushes the disk, in a store that isn't halted. Returns its reply twice.
    fn serve_device<D: PageDisk>(
        &mut self,
        disk: &mut D,
        event: &Event,
    ) -> Result<(Reply, Reply), OutOfMemory>
        requires device { page_total (shape self.old.extents) ≡ D.page_count disk.old }
        requires kind { IsForDevice event.now }
        requires running { self.old.halted ≡ false }
        ensures served { IsServed D.PageDisk self.old disk.old event.now result self.new disk.new }
    {
        match event {
            Event::Issue => match self.issue(disk) {
                Ok((x, p)) => Ok((Reply::Issued(x, p), Reply::Issued(x, p))),
                Err(refusal) => refused(refusal),
            },
            Event::End => match self.end(disk) {
                Ok(n) => Ok((Reply::Ended(n), Reply::Ended(n))),
                Err(refusal) => refused(refusal),
            },
            Event::MoveOne(e) => match self.move_one(disk, *e) {
                Ok(Some((id, chunk))) => Ok((Reply::Moved(id, chunk), Reply::Moved(id, chunk))),
                Ok(None) => Ok((Reply::NoneLive, Reply::NoneLive)),
                Err(refusal) => refused(refusal),
            },
            _ => unreachable!(),
        }
    }
}

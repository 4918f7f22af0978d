//! The event machine over one disk.
//!
//! **What a crash leaves.** Take a core over an honest disk, opened on an image in which no shard is damaged, and any
//! events and checkpoints. It may stop at any moment, within a call or between two. What the crash leaves on the disk
//! can be opened again, unless memory or the device refuses. The store is then the map after the first n of the
//! commands accepted since, and counts n more commands than the image did. n isn't below the frontier, which no
//! acknowledged number exceeds, and not above the number of accepted commands.
//!
//! The clauses `crash` and `left` of `Core::apply` say that the image is such a one, and
//! `a_crash_of_a_run_leaves_a_prefix` says it of many calls in a row. `recovers` of `Core::open` says that such an
//! image is opened so.
ghost use Rattle.std.specs.Prelude.{IfErr, IfOk, IsOk, IsSome, IsTrue, MatchBool, MatchOption, MatchResult, None, OnErr, OnOk, Some, [], false, length, take, true, ℕ, ◌+◌, ◌<◌, ◌^◌, ◌↔◌, ◌≡◌, ◌≢◌, ◌≤◌, ◌⊎◌};
ghost use Rattle.cs_chunk.specs.Reads.{IsNoAnswer};
ghost use Rattle.cs_deps.specs.Named.{IsWithin};
ghost use Rattle.cs_deps.specs.Staging.{IsKept};
ghost use Rattle.cs_deps.specs.State.{AreCounted, IsWhole as IsWholeGraph, everything};
ghost use Rattle.cs_deps.specs.View.{pending_of, rounds_of};
ghost use Rattle.cs_disk.specs.Disk.{GoesOn, Leaves, LeavesOnly, MayLeave, Rises, StaysSound, flushed, page, seen};
ghost use Rattle.cs_extent.specs.State.{IsWhole, extents_of, shape};
ghost use Rattle.cs_frame.specs.Formats.{formats_of};
ghost use Rattle.cs_frame.specs.Geometries.{device_pages};
ghost use Rattle.law_machine.specs.Recovery.{Recovers};
ghost use Rattle.law_machine.specs.State.{State};
ghost use Rattle.cs_plan.specs.Best.{IsBestPlan};
ghost use Rattle.cs_core.specs.Answered.{TellsMeant};
ghost use Rattle.cs_core.specs.Sweepable.{IsUnsweepable};
ghost use Rattle.cs_core.specs.Checkpoints.{IsNotReplaced, IsSettled, Replaces};
ghost use Rattle.cs_core.specs.Disks.{CountsCalls, IsDiskAfter, TakesNext};
ghost use Rattle.cs_reader.specs.Openings.{IsOpeningRefusal, IsWhyNotOpened};
ghost use Rattle.cs_core.specs.Openings.{IsOpened, IfStoreOn, IsOpenedAs};
ghost use Rattle.cs_core.specs.Replays.{replayed};
ghost use Rattle.cs_core.specs.Replies.{MayAnswer};
ghost use Rattle.cs_core.specs.Unstaged.{MayStage, NothingToStage};
ghost use Rattle.cs_core.specs.Started.{IsHeadWritten, IsNewOn, TakesNew, new_stored};
ghost use Rattle.cs_core.specs.Views.{Applies, IsCore, IsFull, IsUntouched, IsFound, IsIn, kept};
ghost use Rattle.cs_core.specs.Writebacks.{WritesBack};
ghost use Rattle.cs_core.specs.Prefixes.{IsPrefixOf};

use crate::core_openings::{flush_and_read, start_store};
use crate::events::{Bytes, Event, OutOfMemory, Reply};
use crate::histories::{History, replay_events};
use crate::lengths::Lengths;
use crate::stores::Store;
use cs_deps::{Dependency, Element, GraphView, LAST_NUMBER, Plan};
use cs_disk::PageDisk;
use cs_frame::{Geometry, ShardId};
use cs_refusal::Refusal;
use std::alloc::{AllocError, Global};
use std::marker::Model;
use std::snapshot::Snapshot;

/// What bounds a core.
#[derive(Clone, Copy, Debug, PartialEq, Eq)]
pub struct Limits {
    /// How many events it may keep. With so many, a further Put, Get, Delete, Settle, BeginSweep or MoveOne is refused
    /// 41 `HistoryFull` until a checkpoint replaces them. All other events are done, so that what was accepted can
    /// always be written back. The limit bounds the memory of the history but for those. The program takes 65,536.
    pub history: usize,
}

/// The event machine of a shard store over its disk.
#[derive(Drop)]
pub struct Core<D: PageDisk> {
    alloc: Global,
    pub(crate) disk: D,
    // the disk as it was when the core was opened
    opened: Snapshot<D>,
    // how many commands the root counted then, and how many shards there were
    found: (u64, usize),
    pub(crate) store: Store,
    history: History,
    limit: usize,
    // how long the chunks are that were read, put or moved, which contracts don't see
    pub(crate) lengths: Lengths,
}

impl<D: PageDisk> Model for Core<D> {
    ghost use Rattle.std.specs.Prelude.{◌≤◌, length};
    ghost use Rattle.cs_core.specs.Stored.{but_for_room};
    ghost use Rattle.cs_core.specs.Known.{KeepsKnown};
    ghost use Rattle.cs_core.specs.Views.{View};

    ghost Value = { View D };

    ghost view = { λ c. record { disk = c.disk; opened = (D.state c.opened.value).durable; found = c.found; store = but_for_room c.store; history = c.history.all; base = c.history.base; limit = c.limit } };

    ghost invariant = { λ c. KeepsKnown D.PageDisk (record { disk = c.disk; opened = (D.state c.opened.value).durable; found = c.found; store = but_for_room c.store; history = c.history.all; base = c.history.base; limit = c.limit }) c.lengths };
}

impl<D: PageDisk> Core<D> {
    /// Makes a new store of this geometry on a disk: writes all sections of its superblock and its root, and makes them
    /// durable.
    ///
    /// 43 `NotAStore` if the disk doesn't have the geometry's pages; 1 `DeviceFault`; 9 `OutOfMemory`. A refusal
    /// returns the disk.
    pub fn format(
        alloc: Global,
        disk: D,
        geometry: Geometry,
        limits: Limits,
    ) -> Result<Self, (Refusal, D)>
        ensures new { IfOk result (λ core. (core.history ≡ []) × (core.base ≡ 0) × (core.limit ≡ limits.history)) }
        ensures store { IfOk result (λ core. core.store ≡ new_stored geometry.format geometry.extents geometry.pages geometry.sections) }
        // What it starts on recovers no command and no shard.
        ensures found { IfOk result (λ core. core.found ≡ (0, 0)) }
        ensures start { IfOk result (λ core. D.honest disk → Recovers (shape core.store.extents) (formats_of (shape core.store.extents)) (page core.opened) 0 (λ id. None)) }
        // The sections of the superblock and the root are written, and no page of an extent. If 43 is refused the disk
        // isn't asked for anything.
        ensures written { D.honest disk → MatchResult result (λ core. IsNewOn geometry.format geometry.extents geometry.pages geometry.sections (D.state disk) (D.state core.disk)) (λ refused. IsHeadWritten geometry.extents geometry.pages (D.state disk) (D.state refused.1)) }
        ensures same { D.page_count disk ≢ device_pages geometry.format geometry.extents geometry.pages geometry.sections → result ≡ Err (Refusal.NotAStore, disk) }
        ensures pages { MatchResult result (λ core. D.page_count core.disk ≡ D.page_count disk) (λ refused. D.page_count refused.1 ≡ D.page_count disk) }
        ensures honest { MatchResult result (λ core. D.honest disk ↔ D.honest core.disk) (λ refused. D.honest disk ↔ D.honest refused.1) }
        ensures not_a_store { IfErr result (λ refused. (refused.0 ≡ Refusal.NotAStore) ↔ (D.page_count disk ≢ device_pages geometry.format geometry.extents geometry.pages geometry.sections)) }
        ensures sized { OnOk result (D.page_count disk ≡ device_pages geometry.format geometry.extents geometry.pages geometry.sections) }
        ensures refusals { IfErr result (λ refused. (refused.0 ≡ Refusal.NotAStore) ⊎ (refused.0 ≡ Refusal.DeviceFault) ⊎ (refused.0 ≡ Refusal.OutOfMemory)) }
        ensures cause { IfErr result (λ refused. refused.0 ≡ Refusal.DeviceFault → Rises (D.failure_count disk) (D.failure_count refused.1)) }
        // The disk's count of failures doesn't fall, whether the store is made or not.
        ensures later { MatchResult result (λ core. D.failure_count disk ≤ D.failure_count core.disk) (λ refused. D.failure_count disk ≤ D.failure_count refused.1) }
        // A disk that takes what is written of a new store refuses none of it itself.
        ensures taken { D.honest disk → D.sound disk → TakesNew D.PageDisk geometry.format geometry.extents geometry.pages geometry.sections 0 disk → MatchResult result (λ core. D.refusal_count core.disk ≡ D.refusal_count disk) (λ refused. D.refusal_count refused.1 ≡ D.refusal_count disk) }
    {
        if disk.pages() != geometry.device_pages() {
            return Err((Refusal::NotAStore, disk));
        }
        let mut disk = disk;
        let made = start_store(alloc, &mut disk, geometry);
        match made {
            Ok(store) => Ok(Core {
                alloc,
                opened: Snapshot::of(&disk),
                disk,
                found: (0, 0),
                store,
                history: History::new(alloc),
                limit: limits.history,
                lengths: Lengths::none(alloc),
            }),
            Err(fault) => Err((fault, disk)),
        }
    }

    /// Opens the store on a disk: flushes, and reads the superblock section by section, the root and the runs. The
    /// pages of shards aren't read.
    ///
    /// The superblock's pointers, the root's numbers and the index are kept in memory. The extents on which nothing
    /// that counts lies are emptied there. In format 2 they aren't.
    ///
    /// A refusal returns the disk. It is that of the first test that fails, but 1 `DeviceFault` and 9 `OutOfMemory` may
    /// come in place of any but the first:
    /// - 43 `NotAStore` if there are fewer than 10 pages, before the disk is asked for anything;
    /// - 20 to 24 for page 0; 43 if it has another section than the first, then if the disk doesn't have the
    ///   superblock's pages;
    /// - for each further section 20 to 24 for its page, and 43 if it has another section, or one of another superblock
    ///   or store;
    /// - 20 to 24 for page 1; 43 if it has the root of another store; 27 `RootLost` if a section records a later root,
    ///   since commands that were acknowledged would be missed;
    /// - for each run, the oldest first, 43 if its locator is of no frame, and 20 to 26 for its pages;
    /// - 43 if a locator of the newest entry of an identifier is of no frame (in format 2 one of any entry), or if the
    ///   newest entries weigh more than those of one run may.
    pub fn open(alloc: Global, disk: D, limits: Limits) -> Result<Self, (Refusal, D)>
        ensures new { IfOk result (λ core. (core.history ≡ []) × (core.base ≡ 0) × (core.limit ≡ limits.history)) }
        ensures image { IfOk result (λ core. D.honest disk → (core.opened ≡ seen (D.state disk)) × (D.state core.disk ≡ flushed (D.state disk))) }
        ensures store { IfOk result (λ core. IsOpened (D.honest disk) core.opened core.found core.store) }
        // If the disk reads as a store of some geometry, that store is opened.
        ensures recovers { D.honest disk → IfStoreOn (D.page_count disk) (page (seen (D.state disk)))
            (λ S n m. MatchResult result (λ core. IsOpenedAs S n m core.store core.found) (λ refused. IsNoAnswer refused.0)) }
        ensures refusals { IfErr result (λ refused. D.honest disk → IsNoAnswer refused.0 ⊎ IsWhyNotOpened (D.page_count disk) (page (seen (D.state disk))) refused.0) }
        // Whatever the disk does: 1, 9, 20 to 27, or 43.
        ensures number { IfErr result (λ refused. IsOpeningRefusal refused.0) }
        ensures small { D.page_count disk < 10 → result ≡ Err (Refusal.NotAStore, disk) }
        // Nothing is written, to what the disk shows or to the device below it. A crash during this call leaves what a
        // crash before it may leave.
        ensures kept { IfErr result (λ refused. D.honest disk → (D.state refused.1 ≡ D.state disk) ⊎ (D.state refused.1 ≡ flushed (D.state disk))) }
        ensures unwritten { D.honest disk → MatchResult result (λ core. D.device core.disk ≡ flushed (D.device disk)) (λ refused. (D.device refused.1 ≡ D.device disk) ⊎ (D.device refused.1 ≡ flushed (D.device disk))) }
        // One flush, and no write; at most one flush if it is refused.
        ensures calls { D.honest disk → MatchResult result (λ core. D.moment core.disk ≡ D.moment disk + 1) (λ refused. D.moment refused.1 ≤ D.moment disk + 1) }
        ensures crash { D.honest disk → MatchResult result (λ core. LeavesOnly D.moment D.left_since disk core.disk (MayLeave (D.state disk))) (λ refused. LeavesOnly D.moment D.left_since disk refused.1 (MayLeave (D.state disk))) }
        ensures honest { MatchResult result (λ core. D.honest disk ↔ D.honest core.disk) (λ refused. D.honest disk ↔ D.honest refused.1) }
        ensures pages { MatchResult result (λ core. D.page_count core.disk ≡ D.page_count disk) (λ refused. D.page_count refused.1 ≡ D.page_count disk) }
        ensures cause { IfErr result (λ refused. refused.0 ≡ Refusal.DeviceFault → Rises (D.failure_count disk) (D.failure_count refused.1)) }
        // The disk's count of failures doesn't fall, whether the store is opened or not.
        ensures later { MatchResult result (λ core. D.failure_count disk ≤ D.failure_count core.disk) (λ refused. D.failure_count disk ≤ D.failure_count refused.1) }
        ensures sound { MatchResult result (λ core. StaysSound D.sound D.refusal_count disk core.disk) (λ refused. StaysSound D.sound D.refusal_count disk refused.1) }
    {
        if disk.pages() < 10 {
            return Err((Refusal::NotAStore, disk));
        }
        let mut disk = disk;
        let read = flush_and_read(alloc, &mut disk);
        match read {
            Ok(found) => Ok(Core {
                alloc,
                opened: Snapshot::of(&disk),
                disk,
                found: (found.commands, found.live),
                store: found.store,
                history: History::new(alloc),
                limit: limits.history,
                lengths: Lengths::none(alloc),
            }),
            Err(refusal) => Err((refusal, disk)),
        }
    }

    /// Does one event, and keeps it with its reply in the history, also if it is refused. Two answers are kept nowhere:
    /// 41 `HistoryFull`, if as many events are kept as may be, and `OutOfMemory`, the only `Err`. After either nothing
    /// has changed but what memory is reserved.
    ///
    /// 41 `HistoryFull` comes first, for Put, Get, Delete, Settle, BeginSweep and MoveOne. Then comes 40 `Halted` if a
    /// write or a flush failed, but for Get and Settle. Then the refusals come as `Event` says. `step` says that a core
    /// goes by two tables of law_machine: `Does` (specs/Events.antt), what each event does, and `Refuses`
    /// (specs/Grounds.antt), the grounds of its refusals in their order.
    pub fn apply(&mut self, event: &Event) -> Result<Reply, OutOfMemory>
        ensures step { IfOk result (λ reply. Applies D.PageDisk self.old event.now reply self.new) }
        ensures memory { OnErr result (IsUntouched D.PageDisk self.old self.new) }
        ensures answers { IfOk result (λ reply. MayAnswer event.now reply) }
        // Whatever the disk does, 41 comes only of a full history. Then nothing has changed, so 41 is never recorded.
        ensures full { IfOk result (λ reply. reply ≡ Reply.Refused Refusal.HistoryFull → IsFull self.old event.now reply self.new) }
        ensures writeback { IfOk result (λ reply. WritesBack self.old.store event.now reply self.new.store) }
        // Whatever the disk reads as, the bytes that a Get returns are those that the places of the identifier mean.
        ensures meant { IfOk result (λ reply. TellsMeant self.old.store event.now reply) }
        ensures rises { self.old.store.frontier ≤ self.new.store.frontier }
        // How many writes and flushes it makes, and which, by what the disk holds then.
        ensures calls { D.honest self.old.disk → IfOk result (λ reply. CountsCalls event.now reply (D.moment self.old.disk) (D.moment self.new.disk)) }
        ensures device { D.honest self.old.disk → IfOk result (λ reply. IsDiskAfter self.old.store (D.state self.old.disk) event.now reply (D.state self.new.disk)) }
        ensures cause { IfOk result (λ reply. reply ≡ Reply.Refused Refusal.DeviceFault → Rises (D.failure_count self.old.disk) (D.failure_count self.new.disk)) }
        // The disk's count of failures doesn't fall, whatever the answer.
        ensures later { D.failure_count self.old.disk ≤ D.failure_count self.new.disk }
        // A sound disk that takes what an Issue writes next refuses nothing itself. So a 1 is an answer of the device.
        ensures taken { D.honest self.old.disk → D.sound self.old.disk → TakesNext D.PageDisk self.old.store self.old.disk → D.refusal_count self.new.disk ≡ D.refusal_count self.old.disk }
        // It stays sound in each event but an Issue, and in an Issue, unless that is answered 1 or `OutOfMemory`.
        ensures sound { D.sound self.old.disk → (event.now ≡ Event.Issue) ⊎ D.sound self.new.disk }
        ensures issued { D.sound self.old.disk → IfOk result (λ reply. (reply ≡ Reply.Refused Refusal.DeviceFault) ⊎ D.sound self.new.disk) }
        // A crash at any moment of the event leaves the map after some of the commands, as before it.
        ensures crash { D.honest self.old.disk → LeavesOnly D.moment D.left_since self.old.disk self.new.disk (IsPrefixOf self.old) }
        // A crash after it does so for the commands and the frontier then.
        ensures left { D.honest self.old.disk → Leaves (D.state self.new.disk) (IsPrefixOf self.new) }
        // Its calls of the disk come after those before it.
        ensures time { GoesOn D.honest D.state D.moment D.left_since self.old.disk self.new.disk }
        ensures honest { D.honest self.old.disk ↔ D.honest self.new.disk }
        ensures pages { D.page_count self.new.disk ≡ D.page_count self.old.disk }
    {
        self.store.keeps_whole();
        if event.is_limited() && self.limit <= self.history.kept().len() {
            return Ok(Reply::Refused(Refusal::HistoryFull));
        }
        self.history.reserve()?;
        let kept = event.copy()?;
        let (reply, noted) = self.store.serve(&mut self.disk, event)?;
        self.store.keeps_whole();
        // If memory is refused some lengths aren't noted, and have to be read.
        let _ = self.store.note_done(&mut self.lengths, event, &reply);
        self.history.push(kept, noted);
        Ok(reply)
    }

    /// How many commands the root counted and how many shards there were when the core was opened. Contracts call this
    /// `found`, and the image then `opened`.
    pub fn opened(&self) -> (u64, usize)
        ensures found { result ≡ self.now.found }
        ensures image { D.honest self.now.disk → IsFound (shape self.now.store.extents) self.now.opened result }
    {
        self.found
    }

    /// The disk.
    pub fn disk(&self) -> &D
        ensures { result.now ≡ self.now.disk }
    {
        &self.disk
    }

    /// How many of the commands accepted since the core was opened are persistent.
    pub fn frontier(&self) -> u64
        ensures { result ≡ self.now.store.frontier }
    {
        self.store.frontier()
    }

    /// How many commands were accepted since the core was opened.
    pub fn accepted(&self) -> u64
        ensures { result ≡ self.now.store.accepted }
    {
        self.store.accepted()
    }

    /// Whether a write or a flush failed.
    pub fn is_halted(&self) -> bool
        ensures { result ≡ self.now.store.halted }
    {
        self.store.is_halted()
    }

    /// The members of the round that is out, in the order in which they are issued, and how many of them were.
    pub fn round(&self) -> Option<(&[Element], usize)>
        ensures { MatchOption result (self.now.store.out ≡ None) (λ r. (self.now.store.out ≡ Some r.0.now) × (self.now.store.issued ≡ r.1)) }
    {
        self.store.round()
    }

    /// The events that are kept with their replies, the first one first: those since the last checkpoint, or since the
    /// core was opened if there was none.
    pub fn history(&self) -> &[(Event, Reply)]
        ensures kept { result.now ≡ kept self.now }
        ensures replaced { self.now.base ≤ length self.now.history }
    {
        self.history.kept()
    }

    /// How many events checkpoints replaced. Event k of those that are kept, counted from 0, is event `base() + k` of
    /// all.
    pub fn base(&self) -> u64
        ensures base { result ≡ self.now.base }
        ensures fits { result < 2 ^ 63 }
    {
        self.history.base()
    }

    /// Replaces the events that are kept by the state that they led to, and drops their bytes. Returns how many they
    /// were. All else stays: the map, the numbers of commands, what is persistent, the extents and the disk, and the
    /// numbers of later commands. It takes no memory, and time for each event.
    ///
    /// 40 `Halted` if a write or a flush failed. Then 44 `Unsettled` if something waits, a round is out, the index has
    /// changes that aren't staged, or an extent is being swept. Then 35 `WornOut` after 2^63 - 1 events.
    pub fn checkpoint(&mut self) -> Result<u64, Refusal>
        ensures ok { IfOk result (λ n. Replaces self.old n self.new) }
        ensures err { IfErr result (λ refusal. IsNotReplaced self.old refusal × (self.new ≡ self.old)) }
        ensures settled { OnOk result ((self.old.store.halted ≡ false) × IsSettled self.old.store) }
        // It is refused for no other reason.
        ensures always { self.old.store.halted ≡ false → IsSettled self.old.store → length self.old.history < 2 ^ 63 → IsOk result }
        // A crash during this call leaves what a crash before it may leave.
        ensures crash { D.honest self.old.disk → LeavesOnly D.moment D.left_since self.old.disk self.new.disk (IsPrefixOf self.old) }
    {
        // Called for its contract alone: what all extents keep.
        self.store.extent_count();
        if self.store.is_halted() {
            return Err(Refusal::Halted);
        }
        if !self.store.is_settled() {
            return Err(Refusal::Unsettled);
        }
        if LAST_NUMBER < self.history.total() {
            return Err(Refusal::WornOut);
        }
        Ok(self.history.replace())
    }

    /// What the first k events that are kept put or deleted, or all of them if there are fewer: each identifier with
    /// its bytes or None, in order. It goes through k events, and takes memory for the list alone, since bytes are
    /// shared.
    pub fn replay(&self, k: usize) -> Result<Vec<(ShardId, Option<Bytes>)>, AllocError>
        ensures { IfOk result (λ changes. changes.items ≡ replayed (take k (kept self.now))) }
    {
        replay_events(self.alloc, self.history.kept(), k)
    }

    /// Whether something waits.
    pub fn has_waiting(&self) -> bool
        ensures { IsTrue result ↔ (self.now.store.graph.staging.pending.waiting ≢ []) }
    {
        self.store.graph.has_waiting()
    }

    /// With how many kept events a further Put, Get, Delete, Settle, BeginSweep or MoveOne is refused 41 `HistoryFull`.
    pub fn limit(&self) -> usize
        ensures { result ≡ self.now.limit }
    {
        self.limit
    }

    /// Names all that was staged.
    pub fn everything(&self) -> Result<Dependency, AllocError>
        ensures { IfOk result (λ d. d ≡ everything self.now.store.graph.staging) }
    {
        self.store.graph.everything()
    }

    /// What is persistent and what waits, as plain data. It takes memory for all that waits, and the time of
    /// `Graph::view`.
    pub fn view(&self) -> Result<GraphView, AllocError>
        ensures view { IfOk result (λ view. pending_of view ≡ self.now.store.graph.staging.pending) }
        ensures kept { IsOk result → IsKept self.now.store.graph.staging }
    {
        // Called for its contract alone: what every graph keeps.
        self.store.graph.families();
        self.store.graph.view()
    }

    /// The plan of all that waits. 5 `InFlight` if a round is out; 9 `OutOfMemory`. Time and memory grow with what
    /// waits.
    pub fn plan(&self) -> Result<Plan, Refusal>
        ensures kept { IsKept self.now.store.graph.staging }
        ensures out { self.now.store.out ≡ self.now.store.graph.round }
        ensures best { IfOk result (λ plan. IsBestPlan self.now.store.graph.staging.pending (everything self.now.store.graph.staging) (rounds_of plan) plan.chain.items) }
        ensures in_flight { (result ≡ Err Refusal.InFlight) ↔ IsSome self.now.store.graph.round }
        ensures refusals { IfErr result (λ r. (r ≡ Refusal.InFlight) ⊎ (r ≡ Refusal.OutOfMemory)) }
    {
        self.store.plan(self.alloc)
    }

    /// The plan that makes a dependency persistent. 4 `NotStaged`, then 5 `InFlight` if a round is out; 9
    /// `OutOfMemory`. Time and memory grow with what waits.
    pub fn plan_for(&self, target: &Dependency) -> Result<Plan, Refusal>
        ensures best { IfOk result (λ plan. IsBestPlan self.now.store.graph.staging.pending target.now (rounds_of plan) plan.chain.items) }
        ensures not_staged { (result ≡ Err Refusal.NotStaged) ↔ ¬ IsWithin target.now self.now.store.graph.staging.staged self.now.store.graph.staging.latest }
        ensures in_flight { (result ≡ Err Refusal.InFlight) ↔ (IsWithin target.now self.now.store.graph.staging.staged self.now.store.graph.staging.latest × IsSome self.now.store.graph.round) }
        ensures refusals { IfErr result (λ r. (r ≡ Refusal.NotStaged) ⊎ (r ≡ Refusal.InFlight) ⊎ (r ≡ Refusal.OutOfMemory)) }
    {
        self.store.plan_for(self.alloc, target)
    }

    /// The disk. The core ends.
    pub fn into_disk(self) -> D
        ensures { result ≡ self.disk }
    {
        let (disk, _) = self.into_parts();
        disk
    }
}

/// What those that drive a core ask of it.
impl<D: PageDisk> Core<D> {
    /// How many commands were accepted since the core was opened, and how many of these are persistent.
    pub fn progress(&self) -> (u64, u64)
        ensures accepted { result.0 ≡ self.now.store.accepted }
        ensures frontier { result.1 ≡ self.now.store.frontier }
        ensures fits { result.0 < 2 ^ 63 }
        ensures within { result.1 ≤ result.0 }
        // The laws of cores ask for these.
        ensures core { IsCore D.PageDisk self.now }
        ensures whole { IsWhole self.now.store.extents }
        ensures graph { IsWholeGraph self.now.store.graph }
        // If the disk is honest the history led to a state of the machine in which disk and store are.
        ensures legal { D.honest self.now.disk → (s : State) × IsIn D.state self.now s }
        // A crash now leaves the map after some of the commands, none of the persistent ones left out.
        ensures left { D.honest self.now.disk → Leaves (D.state self.now.disk) (IsPrefixOf self.now) }
    {
        // Called for their contracts alone: what all extents and all graphs keep.
        self.store.extent_count();
        self.store.graph.families();
        (self.store.accepted(), self.store.frontier())
    }

    /// Whether a Stage stages a root: the index has changes that aren't staged, or a sweep that was given up left
    /// copies.
    pub fn may_stage(&self) -> bool
        ensures { MatchBool result (MayStage self.now.store) (NothingToStage self.now.store) }
    {
        self.store.may_stage()
    }

    /// How many extents there are.
    pub fn extent_count(&self) -> usize
        ensures { result ≡ (shape self.now.store.extents).extents }
    {
        self.store.extent_count()
    }

    /// Whether an extent may be swept: it is there, isn't empty and holds chunks, and no sweep goes on or left copies.
    /// In format 2: it is there, and neither open, empty nor being swept.
    pub fn is_sweepable(&self, extent: usize) -> bool
        ensures may { IsTrue result → ¬ IsUnsweepable self.now.store extent }
        ensures not { ¬ (IsTrue result) → IsUnsweepable self.now.store extent }
    {
        self.store.is_sweepable(extent)
    }

    /// How many page writes are kept in memory. If no round is out, that is one for each plain write that waits, and at
    /// each height one for each family of which a version waits there. It takes no memory.
    pub fn kept_pages(&self) -> usize
        ensures { self.now.store.out ≡ None → AreCounted self.now.store.graph result }
    {
        self.store.kept_pages()
    }

    /// The lowest extent that is being swept, or None if none is.
    pub fn swept_extent(&self) -> Option<usize>
        ensures { MatchOption result ((e : ℕ) → (extents_of self.now.store.extents).swept e ≡ false)
            (λ e. ((extents_of self.now.store.extents).swept e ≡ true) × ((k : ℕ) → k < e → (extents_of self.now.store.extents).swept k ≡ false)) }
    {
        self.store.swept_extent()
    }

    /// The disk, and the events that are kept with their replies, the first one first.
    pub fn into_parts(self) -> (D, Vec<(Event, Reply)>)
        ensures disk { result.0 ≡ self.disk }
        ensures history { result.1.items ≡ kept self }
        // If the disk is honest the history led to a state of the machine in which disk and store are.
        ensures legal { D.honest self.disk → (s : State) × IsIn D.state self s }
    {
        let Core {
            alloc: _,
            disk,
            opened: _,
            found: _,
            store: _,
            history,
            limit: _,
            lengths: _,
        } = self;
        (disk, history.into_kept())
    }
}

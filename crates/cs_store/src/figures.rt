//! What a store reports of itself: its figures, its extents, and whether what it keeps can be read.
ghost use Rattle.std.specs.Prelude.{◌<◌, ◌^◌, ◌↔◌, ◌≡◌, ◌≢◌, ◌≤◌, IfOk, IfSome, IsTrue, List, None, Some, false, length, map, ℕ};
ghost use Rattle.cs_chunk.specs.Newest.{AreNewest};
ghost use Rattle.cs_core.specs.Meanings.{commands_said};
ghost use Rattle.cs_core.specs.Prefixes.{IsPrefixOf};
ghost use Rattle.cs_core.specs.Views.{IsCore, IsIn, kept};
ghost use Rattle.cs_deps.specs.State.{IsWhole as IsWholeGraph};
ghost use Rattle.cs_disk.specs.Disk.{Leaves, LeavesOnly, Rises, seen};
ghost use Rattle.cs_disk.specs.Reads.{OnlyReads};
ghost use Rattle.cs_extent.specs.State.{IsWhole, extents_of, shape};
ghost use Rattle.cs_index.specs.State.{index_of};
ghost use Rattle.cs_inspect.specs.Chunks.{AreLiveChunks, Chunk};
ghost use Rattle.cs_inspect.specs.Failures.{RisesBy};
ghost use Rattle.cs_inspect.specs.Scrubs.{AreCaused, IsScrubbed, device_faults};
ghost use Rattle.cs_inspect.specs.Stats.{newest_uses, run_figure};
ghost use Rattle.cs_inspect.specs.Uses.{AreBounded, AreCounted, AreCountedAsRead, AreExtents, heads_of};
ghost use Rattle.cs_reader.specs.Counts.{HasCount};
ghost use Rattle.cs_store.specs.Maps.{HasMap};
ghost use Rattle.law_machine.specs.Element.{Map};
ghost use Rattle.law_machine.specs.Extents.{empties};
ghost use Rattle.law_machine.specs.Geometry.{marks_in, weigh_in};
ghost use Rattle.law_machine.specs.Index.{named_weight, names};
ghost use Rattle.law_machine.specs.State.{State, map_now};

use crate::stores::Store;
use cs_disk::PageDisk;
use cs_frame::Geometry;
use cs_inspect::{Nobody, Scrubbed, Stats, scrub};
use std::alloc::AllocError;

/// How full a store is, and how far it has come.
#[derive(Debug, Drop)]
pub struct StoreStats {
    /// How full its disk and its index are.
    pub space: Stats,
    /// How many events are kept.
    pub events: usize,
    /// How many may be kept.
    pub limit: usize,
    /// How many puts and deletes were accepted since it was opened.
    pub accepted: u64,
    /// How many of them are persistent.
    pub persistent: u64,
}

impl<D: PageDisk> Store<D> {
    /// The figures of the store. Reads the first page of each live chunk, and goes through the index twice; takes
    /// memory for a list of all live chunks. Where a header can't be read its chunk counts as unreadable. No event is
    /// kept of it, and a halted store answers it too.
    ///
    /// `AllocError` is 9 OutOfMemory.
    pub fn stats(&mut self) -> Result<StoreStats, AllocError>
        ensures extents { IfOk result (λ stats. AreExtents (shape self.old.store.extents).extents (extents_of self.old.store.extents) stats.space.extents.items) }
        // Whatever reads failed, the counts are those of what was read.
        ensures read { D.honest self.old.disk
            → (view : ℕ → List ℕ) (chunks : List Chunk) → AreNewest self.old.store.graph (seen (D.state self.old.disk)) view → AreLiveChunks (index_of self.old.store.index) chunks
            → IfOk result (λ stats. AreCountedAsRead (D.failure_count self.old.disk) (D.failure_count self.new.disk) (heads_of self.old.store.extents view chunks) stats.space.extents.items) }
        // So where none failed they are those of the headers.
        ensures counted { D.honest self.old.disk → ¬ Rises (D.failure_count self.old.disk) (D.failure_count self.new.disk)
            → (view : ℕ → List ℕ) (chunks : List Chunk) → AreNewest self.old.store.graph (seen (D.state self.old.disk)) view → AreLiveChunks (index_of self.old.store.index) chunks
            → IfOk result (λ stats. AreCounted (heads_of self.old.store.extents view chunks) stats.space.extents.items) }
        // And else a chunk whose read failed isn't live, and counts as unreadable.
        ensures bounded { D.honest self.old.disk
            → (view : ℕ → List ℕ) (chunks : List Chunk) → AreNewest self.old.store.graph (seen (D.state self.old.disk)) view → AreLiveChunks (index_of self.old.store.index) chunks
            → IfOk result (λ stats. AreBounded (heads_of self.old.store.extents view chunks) stats.space.extents.items) }
        ensures empty { IfOk result (λ stats. stats.space.empty ≡ empties (extents_of self.old.store.extents).pointer (shape self.old.store.extents).extents) }
        ensures runs { IfOk result (λ stats. newest_uses stats.space.runs.items ≡ map run_figure self.old.store.index.runs) }
        ensures named { IfOk result (λ stats. stats.space.named ≡ names (index_of self.old.store.index)) }
        ensures weight { IfOk result (λ stats. stats.space.weight ≡ named_weight (weigh_in self.old.store.index.format) (index_of self.old.store.index)) }
        // Where each entry weighs one that is how many identifiers have one.
        ensures ones { marks_in self.old.store.index.format ≡ false → IfOk result (λ stats. stats.space.weight ≡ stats.space.named) }
        ensures weight_limit { IfOk result (λ stats. stats.space.weight_limit ≡ self.old.store.index.limit) }
        // There are as many shards as the map has.
        ensures map { (m : Map) → HasMap self.old m → D.honest self.old.disk → IfOk result (λ stats. HasCount (λ id. m id ≢ None) stats.space.shards) }
        ensures chunks { IfOk result (λ stats. (chunks : List Chunk) → AreLiveChunks (index_of self.old.store.index) chunks → stats.space.chunks ≡ length chunks) }
        ensures events { IfOk result (λ stats. (stats.events ≡ length (kept self.old)) × (stats.limit ≡ self.old.limit)) }
        ensures commands { IfOk result (λ stats. (stats.accepted ≡ self.old.store.accepted) × (stats.persistent ≡ self.old.store.frontier)) }
        ensures same { self.new ≡ record self.old { disk = self.new.disk } }
        ensures disk { OnlyReads D.PageDisk self.old.disk self.new.disk }
        // A crash meanwhile leaves what one before it might have left.
        ensures crash { D.honest self.old.disk → LeavesOnly D.moment D.left_since self.old.disk self.new.disk (IsPrefixOf self.old) }
    {
        let events = self.events_kept();
        let limit = self.limit();
        let (accepted, persistent) = self.core.progress();
        // Called for its contract alone: what all extents keep.
        self.core.extents().extent_count();
        let space = Stats::of(self.alloc, &mut self.core)?;
        Ok(StoreStats {
            space,
            events,
            limit,
            accepted,
            persistent,
        })
    }

    /// How many commands the root counted, and how many shards there were, as the store was opened.
    pub fn found(&self) -> (u64, usize)
        ensures found { result ≡ self.now.found }
        // Over an honest disk the store has a map.
        ensures map { D.honest self.now.disk → (m : Map) × HasMap self.now m }
        // What the laws of cores ask for.
        ensures core { IsCore D.PageDisk self.now }
        ensures whole { IsWhole self.now.store.extents }
        ensures graph { IsWholeGraph self.now.store.graph }
        // In whatever state of the machine it is, the map there is the one that it has.
        ensures machine { (m : Map) → HasMap self.now m → (s : State) → IsIn D.state self.now s → (id : ℕ) → map_now s id ≡ m id }
    {
        // Called for their contracts alone: what all cores and all extents keep.
        self.core.progress();
        self.core.extents().extent_count();
        self.core.opened()
    }

    /// How many puts and deletes were accepted since the store was opened.
    pub fn accepted(&self) -> u64
        ensures accepted { result ≡ self.now.store.accepted }
        ensures fits { result < 2 ^ 63 }
        // Over an honest disk they are those that the history has.
        ensures commands { D.honest self.now.disk → result ≡ length (commands_said self.now.history) }
    {
        self.core.progress().0
    }

    /// How many of them are persistent: a crash never loses these.
    pub fn persistent(&self) -> u64
        ensures frontier { result ≡ self.now.store.frontier }
        ensures within { result ≤ self.now.store.accepted }
        // A crash now leaves the map after some of the commands, none of the persistent ones left out.
        ensures left { D.honest self.now.disk → Leaves (D.state self.now.disk) (IsPrefixOf self.now) }
    {
        self.core.progress().1
    }

    /// Whether a write or a flush failed. Nothing is accepted or written any more then; what is there can be got.
    pub fn is_halted(&self) -> bool
        ensures { result ≡ self.now.store.halted }
    {
        self.core.is_halted()
    }

    /// How many events are kept: those since the last checkpoint, each put with its bytes.
    pub fn events_kept(&self) -> usize
        ensures { result ≡ length (kept self.now) }
    {
        self.core.history().len()
    }

    /// How many events may be kept.
    pub fn limit(&self) -> usize
        ensures { result ≡ self.now.limit }
    {
        self.core.limit()
    }
}

/// What is known of one extent.
#[derive(Clone, Copy, Debug, PartialEq, Eq)]
pub struct ExtentLook {
    /// How many of its pages are given, from the first on; 0 where it is empty.
    pub pointer: usize,
    /// How often it was emptied.
    pub generation: u32,
    /// Whether it is being filled.
    pub is_open: bool,
    /// Whether it is marked as being swept.
    pub is_swept: bool,
}

impl<D: PageDisk> Store<D> {
    /// How the store lies on its disk.
    pub fn geometry(&self) -> Geometry
        ensures format { result.format ≡ (shape self.now.store.extents).format }
        ensures extents { result.extents ≡ (shape self.now.store.extents).extents }
        ensures pages { result.pages ≡ (shape self.now.store.extents).pages }
        ensures sections { result.sections ≡ (shape self.now.store.extents).sections }
    {
        self.core.extents().geometry()
    }

    /// How many extents are empty. Puts leave two of them empty and syncs one, so that there is room for a sweep. It
    /// goes through all extents.
    pub fn empty_extents(&self) -> usize
        ensures { result ≡ empties (extents_of self.now.store.extents).pointer (shape self.now.store.extents).extents }
    {
        self.core.extents().empty_count()
    }

    /// What is known of an extent, None where there is none of that number. They are numbered from 0.
    pub fn extent(&self, extent: usize) -> Option<ExtentLook>
        ensures there { (result ≡ None) ↔ ((shape self.now.store.extents).extents ≤ extent) }
        ensures pointer { IfSome result (λ look. look.pointer ≡ (extents_of self.now.store.extents).pointer extent) }
        ensures generation { IfSome result (λ look. look.generation ≡ (extents_of self.now.store.extents).generation extent) }
        ensures open { IfSome result (λ look. IsTrue look.is_open ↔ ((extents_of self.now.store.extents).open_extent ≡ Some extent)) }
        ensures swept { IfSome result (λ look. look.is_swept ≡ (extents_of self.now.store.extents).swept extent) }
    {
        let extents = self.core.extents();
        if extents.extent_count() <= extent {
            return None;
        }
        Some(ExtentLook {
            pointer: extents.pointer(extent),
            generation: extents.generation(extent),
            is_open: extents.is_open(extent),
            is_swept: extents.is_swept(extent),
        })
    }

    /// Reads each live chunk and each run of the index, and names those that can't be read, each with its refusal: 20
    /// BadMagic to 24 BadVersion or 26 Misplaced where it is damaged, 1 DeviceFault where the device refused a read,
    /// when it may be whole. It goes on after each of them. Each page is read once; it takes memory for a list of all
    /// live chunks, for the damages, and for one chunk at a time. No event is kept of it, and a halted store is
    /// scrubbed too.
    ///
    /// `AllocError` is 9 OutOfMemory.
    pub fn scrub(&mut self) -> Result<Scrubbed, AllocError>
        ensures named { D.honest self.old.disk → (view : ℕ → List ℕ) → AreNewest self.old.store.graph (seen (D.state self.old.disk)) view
            → IfOk result (IsScrubbed self.old.store.extents view self.old.store.index) }
        ensures runs { IfOk result (λ found. found.runs ≡ length self.old.store.index.runs) }
        ensures caused { IfOk result (λ found. AreCaused (D.failure_count self.old.disk) (D.failure_count self.new.disk) found.damages.items) }
        // It rose by as many as are named 1 at least: no frame is named so for the read of another.
        ensures counted { IfOk result (λ found. RisesBy (device_faults found.damages.items) (D.failure_count self.old.disk) (D.failure_count self.new.disk)) }
        ensures same { self.new ≡ record self.old { disk = self.new.disk } }
        ensures disk { OnlyReads D.PageDisk self.old.disk self.new.disk }
        // A crash meanwhile leaves what one before it might have left.
        ensures crash { D.honest self.old.disk → LeavesOnly D.moment D.left_since self.old.disk self.new.disk (IsPrefixOf self.old) }
    {
        scrub(self.alloc, &mut self.core, &Nobody)
    }
}

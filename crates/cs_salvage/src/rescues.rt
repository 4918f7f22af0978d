//! A store over its disk, read for what can be got of it, and why a shard isn't got.
ghost use Rattle.std.specs.Prelude.{◌*◌, ◌+◌, ◌<◌, ◌↔◌, ◌≡◌, ◌≢◌, ◌≤◌, ◌⊎◌, Err, IfErr, IfOk, IfSome, List, MatchResult, None, Ok, OnOk, Some, length, map, option_map, ℕ};
ghost use Rattle.std.specs.List.{AllByRecursion, AllZip};
ghost use Rattle.cs_chunk.specs.Chunks.{AreChunksIn, AreMeant};
ghost use Rattle.cs_chunk.specs.Reads.{IsCaused, IsNoAnswer, IsReadRefusal};
ghost use Rattle.cs_disk.specs.Disk.{Rises, page, seen};
ghost use Rattle.cs_disk.specs.Reads.{OnlyReads};
ghost use Rattle.cs_extent.specs.State.{shape};
ghost use Rattle.cs_frame.specs.Formats.{formats_of};
ghost use Rattle.cs_frame.specs.Locators.{KeepFormat};
ghost use Rattle.cs_frame.specs.Runs.{IsRun};
ghost use Rattle.cs_index.specs.State.{id_number, newest_first};
ghost use Rattle.cs_reader.specs.Heads.{IsHeadRead};
ghost use Rattle.cs_reader.specs.ImageReads.{IsLocated};
ghost use Rattle.cs_reader.specs.Loads.{index_at};
ghost use Rattle.cs_reader.specs.Openings.{IsOpeningRefusal};
ghost use Rattle.cs_salvage.specs.Answers.{AreMeantBytes, AreReadBytes, IsAbsent, IsUnknown, IsWhyNoChunks, WhereTheyLie, places_of};
ghost use Rattle.cs_salvage.specs.Founds.{IsRoomFor, NothingWaits};
ghost use Rattle.cs_salvage.specs.Namings.{IsNaming};
ghost use Rattle.cs_salvage.specs.Refusals.{name_of, number_of};
ghost use Rattle.cs_salvage.specs.Rescued.{IsRescued, IsWhyNotRescued, most_taken};
ghost use Rattle.cs_salvage.specs.Runs.{IsDamageCaused};
ghost use Rattle.law_machine.specs.Geometry.{weigh_in};
ghost use Rattle.law_machine.specs.Index.{entries_of, joined_bodies, named_weight};

use crate::namings::Naming;
use crate::rescued_runs::{DamagedRun, read_newest};
use crate::whole_shards::WholeShard;
use cs_chunk::read_chunks;
use cs_deps::Graph;
use cs_disk::PageDisk;
use cs_extent::Extents;
use cs_frame::{Locator, Root, ShardId};
use cs_index::{Index, StoredRun};
use cs_reader::{Head, are_places_located, read_head};
use cs_refusal::Refusal;
use std::alloc::{AllocError, Global};
use std::marker::Model;
use thiserror::Error;

/// A store over its disk, read for what can be got of it. All that is done to the disk is reads.
#[derive(Drop)]
pub struct Rescue<D: PageDisk> {
    disk: D,
    found: Found,
}

impl<D: PageDisk> Model for Rescue<D> {
    ghost use Rattle.cs_salvage.specs.Founds.{IsRoomFor, View};

    ghost Value = { View D };

    ghost view = { λ r. record { disk = r.disk; found = r.found } };

    ghost invariant = { λ r. IsRoomFor r.found (D.page_count r.disk) };
}

impl<D: PageDisk> Rescue<D> {
    /// Reads the superblock section by section, then the root, whatever the sections record of it. Then reads its runs,
    /// the newest first, up to one that can't be read. If only the zeros after a run's payload are damaged, the run is
    /// read: an opening is refused 23 for it. Chunks aren't read, and it isn't tested whether the places that entries
    /// name are located.
    ///
    /// If the call is refused, it returns the disk. It is refused by the first test that fails:
    ///
    /// - 43 NotAStore if there are fewer than 10 pages, before the disk is asked for anything.
    /// - 20 to 24 for page 0, then 43 if it has another section than the first.
    /// - 43 if the disk has another number of pages than the superblock says.
    /// - For each further section 20 to 24 for its page, then 43 if that has another section, or one of another
    ///   superblock or store.
    /// - 20 to 24 for page 1, then 43 if it has the root of another store.
    /// - 43 if the newest entries weigh more than any index takes, which no store has.
    ///
    /// 1 DeviceFault, but for a run, and 9 OutOfMemory may come in place of any but the first.
    pub fn open(alloc: Global, disk: D) -> Result<Self, (Refusal, D)>
        // Of an honest disk this is what was read; of any the index is that of the runs that were read.
        ensures found { IfOk result (λ r. IsRescued (D.honest disk) (D.page_count disk) (page (seen (D.state disk))) r.found) }
        ensures why { IfErr result (λ refused. D.honest disk → IsNoAnswer refused.0 ⊎ IsWhyNotRescued (D.page_count disk) (page (seen (D.state disk))) refused.0) }
        ensures number { IfErr result (λ refused. IsOpeningRefusal refused.0) }
        ensures small { D.page_count disk < 10 → result ≡ Err (Refusal.NotAStore, disk) }
        // The disk is only read.
        ensures disk { MatchResult result (λ r. OnlyReads D.PageDisk disk r.disk) (λ refused. OnlyReads D.PageDisk disk refused.1) }
        ensures cause { IfErr result (λ refused. refused.0 ≡ Refusal.DeviceFault → Rises (D.failure_count disk) (D.failure_count refused.1)) }
        // 1 that is told of a run has its cause too.
        ensures failed { IfOk result (λ r. IsDamageCaused (D.failure_count disk) (D.failure_count r.disk) r.found.damaged) }
    {
        if disk.pages() < 10 {
            return Err((Refusal::NotAStore, disk));
        }
        let mut disk = disk;
        let read = read_store(alloc, &mut disk);
        match read {
            Ok(found) => Ok(Rescue { disk, found }),
            Err(refusal) => Err((refusal, disk)),
        }
    }

    /// Whether a section records a later root than the one that was read. Then commands that were acknowledged are
    /// missing, and all that is answered is as of the root.
    pub fn root_lost(&self) -> bool
        ensures { result ≡ self.now.found.lost }
    {
        self.found.lost
    }

    /// The run that couldn't be read, the newest of those that are damaged. It and the older ones aren't in the index.
    /// None if all were read.
    pub fn damaged(&self) -> Option<DamagedRun>
        ensures { result ≡ self.now.found.damaged }
    {
        self.found.damaged
    }

    /// How many runs the root has.
    pub fn run_count(&self) -> usize
        ensures { result ≡ length self.now.found.places }
    {
        self.found.root.runs.len()
    }

    /// How many commands the root counts.
    pub fn commands(&self) -> u64
        ensures { result ≡ self.now.found.commands }
    {
        self.found.root.commands
    }

    /// The version of the root.
    pub fn version(&self) -> u64
        ensures { result ≡ self.now.found.root }
    {
        self.found.root.version
    }

    /// The index of the runs that were read.
    pub fn index(&self) -> &Index
        ensures { result.now ≡ self.now.found.index }
    {
        &self.found.index
    }

    /// The disk.
    pub fn disk(&self) -> &D
        ensures { result.now ≡ self.now.disk }
    {
        &self.disk
    }

    /// The bytes of a shard, as the runs that were read have it: the newest of them that names it. None if that names
    /// it as deleted, or if none names it and all were read. The call is refused by the first test that fails:
    ///
    /// - 28 RunLost if none names it and one couldn't be read.
    /// - 26 Misplaced if one of its places isn't located any more, as its extent was emptied since. Then the disk isn't
    ///   asked.
    /// - The refusal of its first chunk that can't be read: 20 to 24, or 26 if another frame lies at its place.
    ///
    /// 1 DeviceFault and 9 OutOfMemory may come in place of the last.
    pub fn get(&mut self, alloc: Global, id: ShardId) -> Result<Option<Vec<u8>>, RescueRefusal>
        ensures absent { (result ≡ Ok None) ↔ IsAbsent self.old.found (id_number id) }
        ensures run_lost { (result ≡ Err RescueRefusal.RunLost) ↔ IsUnknown self.old.found (id_number id) }
        // Whatever the disk answers, the bytes are those that the places of the identifier mean.
        ensures meant { IfOk result (λ found. IfSome found (λ bytes. AreMeantBytes self.old.found (id_number id) bytes.items)) }
        ensures bytes { D.honest self.old.disk → IfOk result (λ found. IfSome found (λ bytes. AreReadBytes self.old.found (page (seen (D.state self.old.disk))) (id_number id) bytes.items)) }
        // Where chunks lie at its places they are read, unless the device or memory refuses.
        ensures read { D.honest self.old.disk → WhereTheyLie self.old.found (page (seen (D.state self.old.disk))) (id_number id)
            (λ cs. MatchResult result (λ found. option_map (λ bytes. bytes.items) found ≡ Some (joined_bodies (formats_of (shape self.old.found.extents)) cs)) (λ refused. (r : Refusal) × (refused ≡ RescueRefusal.Refused r) × IsNoAnswer r)) }
        ensures why { D.honest self.old.disk → IfErr result (λ refused. (r : Refusal) → refused ≡ RescueRefusal.Refused r → IsWhyNoChunks self.old.found.extents (page (seen (D.state self.old.disk))) (places_of self.old.found (id_number id)) r) }
        ensures refusals { IfErr result (λ refused. (refused ≡ RescueRefusal.RunLost) ⊎ ((r : Refusal) × (refused ≡ RescueRefusal.Refused r) × IsReadRefusal r)) }
        // The disk is only read, and nothing else changes.
        ensures disk { OnlyReads D.PageDisk self.old.disk self.new.disk }
        ensures same { self.new.found ≡ self.old.found }
        ensures cause { result ≡ Err (RescueRefusal.Refused Refusal.DeviceFault) → Rises (D.failure_count self.old.disk) (D.failure_count self.new.disk) }
    {
        self.found.get(alloc, &mut self.disk, id)
    }

    /// What the runs that were read say of a shard whose parts were found. Nothing is read.
    pub fn naming(&self, shard: &WholeShard) -> Naming
        ensures { IsNaming self.now.found shard.now result }
    {
        self.found.naming(shard)
    }

    /// What the runs that were read say of each of these shards, in order. Nothing is read.
    pub fn namings(&self, alloc: Global, shards: &[WholeShard]) -> Result<Vec<Naming>, AllocError>
        ensures { IfOk result (λ namings. AllZip (IsNaming self.now.found) shards.now namings.items) }
    {
        self.found.namings(alloc, shards)
    }

    /// The disk and what was read of the store, with which the rescue ends.
    pub fn into_parts(self) -> (D, Found)
        ensures disk { result.0 ≡ self.disk }
        ensures found { result.1 ≡ self.found }
    {
        let Rescue { disk, found } = self;
        (disk, found)
    }

    /// The disk, with which the rescue ends.
    pub fn into_disk(self) -> D
        ensures { result ≡ self.disk }
    {
        let Rescue { disk, found: _ } = self;
        disk
    }
}

/// What the newest entries may weigh together: as much as any index takes.
const MOST_TAKEN: usize = 536_870_911;

/// The index of runs that were read. Refused 43 NotAStore if their newest entries weigh more than any index takes, and
/// 9 OutOfMemory.
fn load_runs(alloc: Global, extents: &Extents, runs: Vec<StoredRun>) -> Result<Index, Refusal>
    requires few { length runs.items ≤ 24 }
    requires runs { AllByRecursion (λ run. IsRun (shape extents.now).format (record { entries = run.entries })) runs.items }
    requires marks { KeepFormat (shape extents.now).format (map (λ run. run.place) runs.items) }
    ensures loaded { IfOk result (λ index. index ≡ index_at (newest_first runs.items) (shape extents.now).format most_taken) }
    ensures why { IfErr result (λ r. (r ≡ Refusal.OutOfMemory) ⊎ ((r ≡ Refusal.NotAStore) × (most_taken < named_weight (weigh_in (shape extents.now).format) (entries_of (newest_first runs.items))))) }
{
    match Index::load(alloc, extents.geometry().format(), MOST_TAKEN, runs) {
        Ok(index) => Ok(index),
        Err(refusal) => Err(refusal),
    }
}

/// Reads what can be read of the root's runs.
fn read_index<D: PageDisk>(alloc: Global, disk: &mut D, head: Head) -> Result<Found, Refusal>
    requires { IsHeadRead (D.honest disk.old) (D.page_count disk.old) (page (seen (D.state disk.old))) head }
    ensures found { IfOk result (IsRescued (D.honest disk.old) (D.page_count disk.old) (page (seen (D.state disk.old)))) }
    ensures why { D.honest disk.old → IfErr result (λ r. IsNoAnswer r ⊎ IsWhyNotRescued (D.page_count disk.old) (page (seen (D.state disk.old))) r) }
    ensures number { IfErr result IsOpeningRefusal }
    ensures disk { OnlyReads D.PageDisk disk.old disk.new }
    ensures cause { IsCaused (D.failure_count disk.old) (D.failure_count disk.new) result }
    ensures failed { IfOk result (λ found. IsDamageCaused (D.failure_count disk.old) (D.failure_count disk.new) found.damaged) }
{
    let newest = match read_newest(alloc, &head.extents, &head.graph, disk, &head.root.runs) {
        Ok(newest) => newest,
        Err(refusal) => return Err(refusal),
    };
    let index = match load_runs(alloc, &head.extents, newest.runs) {
        Ok(index) => index,
        Err(refusal) => return Err(refusal),
    };
    Ok(Found {
        extents: head.extents,
        graph: head.graph,
        root: head.root,
        lost: head.root_lost,
        index,
        damaged: newest.damaged,
    })
}

/// Reads what can be read of a store.
pub fn read_store<D: PageDisk>(alloc: Global, disk: &mut D) -> Result<Found, Refusal>
    requires { 10 ≤ D.page_count disk.old }
    ensures found { IfOk result (IsRescued (D.honest disk.old) (D.page_count disk.old) (page (seen (D.state disk.old)))) }
    ensures why { D.honest disk.old → IfErr result (λ r. IsNoAnswer r ⊎ IsWhyNotRescued (D.page_count disk.old) (page (seen (D.state disk.old))) r) }
    ensures number { IfErr result IsOpeningRefusal }
    ensures disk { OnlyReads D.PageDisk disk.old disk.new }
    ensures cause { IsCaused (D.failure_count disk.old) (D.failure_count disk.new) result }
    ensures failed { IfOk result (λ found. IsDamageCaused (D.failure_count disk.old) (D.failure_count disk.new) found.damaged) }
{
    match read_head(alloc, disk) {
        Ok(head) => read_index(alloc, disk, head),
        Err(refusal) => Err(refusal),
    }
}

/// What was read of a store.
#[derive(Drop)]
pub struct Found {
    pub extents: Extents,
    /// Nothing waits in it.
    pub graph: Graph,
    pub root: Root,
    /// Whether a section records a later root.
    pub lost: bool,
    /// That of the runs that were read.
    pub index: Index,
    pub damaged: Option<DamagedRun>,
}

impl Model for Found {
    ghost use Rattle.cs_salvage.specs.Founds.{Found, NothingWaits};

    ghost Value = { Found };

    ghost view = { λ f. record { extents = f.extents; root = f.root.version; commands = f.root.commands; places = f.root.runs.items; lost = f.lost; index = f.index; damaged = f.damaged } };

    ghost invariant = { λ f. NothingWaits f.graph };
}

/// The bytes of a shard whose chunks lie at these places, while nothing waits. Refused 26 Misplaced if one of them
/// isn't located any more, before the device is asked. Else refused as `read_chunks` of cs_chunk.
fn read_places<D: PageDisk>(
    alloc: Global,
    extents: &Extents,
    graph: &Graph,
    disk: &mut D,
    places: &[Locator],
) -> Result<Vec<u8>, Refusal>
    requires device { 2 + (shape extents.now).extents * (shape extents.now).pages ≤ D.page_count disk.old }
    requires none { NothingWaits graph.now }
    ensures bytes { D.honest disk.old → IfOk result (λ bytes. (cs : List (List ℕ)) × AreChunksIn extents.now (page (seen (D.state disk.old))) places.now cs × (bytes.items ≡ joined_bodies (formats_of (shape extents.now)) cs)) }
    ensures read { D.honest disk.old → (cs : List (List ℕ)) → AllByRecursion (IsLocated extents.now) places.now → AreChunksIn extents.now (page (seen (D.state disk.old))) places.now cs
        → MatchResult result (λ bytes. bytes.items ≡ joined_bodies (formats_of (shape extents.now)) cs) IsNoAnswer }
    ensures why { D.honest disk.old → IfErr result (IsWhyNoChunks extents.now (page (seen (D.state disk.old))) places.now) }
    ensures meant { IfOk result (λ bytes. (cs : List (List ℕ)) × AreMeant (shape extents.now) places.now cs × (bytes.items ≡ joined_bodies (formats_of (shape extents.now)) cs)) }
    ensures refusals { IfErr result IsReadRefusal }
    ensures disk { OnlyReads D.PageDisk disk.old disk.new }
    ensures cause { IsCaused (D.failure_count disk.old) (D.failure_count disk.new) result }
{
    // Called for its contract alone: what all extents keep.
    extents.extent_count();
    if !are_places_located(extents, places) {
        return Err(Refusal::Misplaced);
    }
    read_chunks(alloc, extents, graph, disk, places)
}

impl Found {
    /// What is answered of an identifier that no run names which was read.
    fn unnamed(&self) -> Result<Option<Vec<u8>>, RescueRefusal>
        ensures whole { OnOk result (self.now.damaged ≡ None) }
        ensures none { IfOk result (λ found. found ≡ None) }
        ensures lost { IfErr result (λ r. (r ≡ RescueRefusal.RunLost) × (self.now.damaged ≢ None)) }
    {
        match self.damaged {
            Some(_) => Err(RescueRefusal::RunLost),
            None => Ok(None),
        }
    }

    /// The bytes of a shard by the runs that were read.
    pub fn get<D: PageDisk>(
        &self,
        alloc: Global,
        disk: &mut D,
        id: ShardId,
    ) -> Result<Option<Vec<u8>>, RescueRefusal>
        requires { IsRoomFor self.now (D.page_count disk.old) }
        ensures absent { (result ≡ Ok None) ↔ IsAbsent self.now (id_number id) }
        ensures run_lost { (result ≡ Err RescueRefusal.RunLost) ↔ IsUnknown self.now (id_number id) }
        ensures meant { IfOk result (λ found. IfSome found (λ bytes. AreMeantBytes self.now (id_number id) bytes.items)) }
        ensures bytes { D.honest disk.old → IfOk result (λ found. IfSome found (λ bytes. AreReadBytes self.now (page (seen (D.state disk.old))) (id_number id) bytes.items)) }
        // Where chunks lie at its places they are read, unless the device or memory refuses.
        ensures read { D.honest disk.old → WhereTheyLie self.now (page (seen (D.state disk.old))) (id_number id)
            (λ cs. MatchResult result (λ found. option_map (λ bytes. bytes.items) found ≡ Some (joined_bodies (formats_of (shape self.now.extents)) cs)) (λ refused. (r : Refusal) × (refused ≡ RescueRefusal.Refused r) × IsNoAnswer r)) }
        ensures why { D.honest disk.old → IfErr result (λ refused. (r : Refusal) → refused ≡ RescueRefusal.Refused r → IsWhyNoChunks self.now.extents (page (seen (D.state disk.old))) (places_of self.now (id_number id)) r) }
        ensures refusals { IfErr result (λ refused. (refused ≡ RescueRefusal.RunLost) ⊎ ((r : Refusal) × (refused ≡ RescueRefusal.Refused r) × IsReadRefusal r)) }
        ensures disk { OnlyReads D.PageDisk disk.old disk.new }
        ensures cause { result ≡ Err (RescueRefusal.Refused Refusal.DeviceFault) → Rises (D.failure_count disk.old) (D.failure_count disk.new) }
    {
        let Some(places) = self.index.lookup(id) else {
            return self.unnamed();
        };
        if places.is_empty() {
            return Ok(None);
        }
        match read_places(alloc, &self.extents, &self.graph, disk, places) {
            Ok(bytes) => Ok(Some(bytes)),
            Err(refusal) => Err(RescueRefusal::Refused(refusal)),
        }
    }
}

/// Why a shard isn't got.
#[derive(Clone, Copy, Debug, PartialEq, Eq, Error)]
pub enum RescueRefusal {
    /// Its chunks can't be read, the device failed, or memory was refused.
    #[error("{0}")]
    Refused(Refusal),
    /// 28: no run that was read names it, and what it has may be in one that is damaged, or in an older one.
    #[error("what it has may be in a run that is damaged")]
    RunLost,
}

impl RescueRefusal {
    /// The number that operators see.
    pub fn number(self) -> u8
        ensures { result ≡ number_of self }
    {
        match self {
            RescueRefusal::Refused(refusal) => refusal.number(),
            RescueRefusal::RunLost => 28,
        }
    }

    /// The name that operators see, in ASCII.
    pub fn name(self) -> &'static str
        ensures { result.now ≡ name_of self }
    {
        match self {
            RescueRefusal::Refused(refusal) => refusal.name(),
            RescueRefusal::RunLost => "RunLost",
        }
    }
}

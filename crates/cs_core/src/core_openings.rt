//! Stores that are read from their disk, and new ones.
ghost use Rattle.std.specs.Prelude.{◌≡◌, ◌+◌, ◌≤◌, ◌⊎◌, ◌↔◌, ℕ, List, IfErr, IfOk, MatchResult, length, ◌≢◌, ◌^◌, ◌<◌, [], ◌∷◌, OnOk, map, ◌||◌, OnErr, replicate};
ghost use Rattle.cs_chunk.specs.Reads.{IsCaused, IsNoAnswer};
ghost use Rattle.cs_disk.specs.Disk.{LeavesOnly, MayLeave, StaysSound, flushed, page, seen, HasCause, Rises, written};
ghost use Rattle.cs_disk.specs.Reads.{OnlyReads};
ghost use Rattle.cs_frame.specs.Geometries.{device_pages, IsGeometry, section_length};
ghost use Rattle.cs_reader.specs.Heads.{IsHeadRead};
ghost use Rattle.cs_reader.specs.Openings.{IsOpeningRefusal, IsWhyNotOpened, AreLocatedBy};
ghost use Rattle.cs_core.specs.Openings.{AreExtentsOpened, IsLoaded, IsStoreFound};
ghost use Rattle.std.specs.List.{AllByRecursion};
ghost use Rattle.cs_extent.specs.State.{extents_at, extents_of, shape};
ghost use Rattle.cs_frame.specs.Locators.{KeepFormat};
ghost use Rattle.cs_frame.specs.Runs.{IsRun};
ghost use Rattle.cs_reader.specs.Counts.{HasCount};
ghost use Rattle.cs_reader.specs.Loads.{graph_at, index_at};
ghost use Rattle.cs_reader.specs.ImageReads.{IsLocated};
ghost use Rattle.cs_index.specs.State.{newest_first};
ghost use Rattle.law_machine.specs.Index.{entries_of, live_at, named_weight};
ghost use Rattle.law_machine.specs.Apart.{any_run_on};
ghost use Rattle.cs_core.specs.Started.{AreNew, AreNewWritten, IsHeadWritten, IsNewOn, IsNewSection, TakesNew, new_stored, SpellsNew, head_page};

use crate::histories::{Root as Noted, first_root};
use crate::stores::Store;
use cs_deps::Graph;
use cs_disk::{DiskFault, PageDisk, refusal_of_disk};
use cs_extent::{Extents, Kind};
use cs_frame::{Geometry, Root, Superblock, encode_root, encode_superblock};
use cs_index::{Index, StoredRun};
use cs_reader::{Head, live_count, load_index, new_graph, read_head, read_runs};
use cs_refusal::Refusal;
use law_refinement::reclaim::{Sweeps, free_blank};
use std::alloc::{AllocError, Global};
use std::collections::VecDeque;
use std::mem;

/// Reads the runs of a root, and makes a store of them. 27 `RootLost`, before they are read, if a section records a
/// later root.
fn read_rest<D: PageDisk>(alloc: Global, disk: &mut D, head: Head) -> Result<OpenedStore, Refusal>
    requires { IsHeadRead (D.honest disk.old) (D.page_count disk.old) (page (seen (D.state disk.old))) head }
    ensures made { IfOk result (λ found. IsStoreFound (D.honest disk.old) (D.page_count disk.old) (page (seen (D.state disk.old))) found.commands found.live found.store) }
    ensures why { D.honest disk.old → IfErr result (λ r. IsNoAnswer r ⊎ IsWhyNotOpened (D.page_count disk.old) (page (seen (D.state disk.old))) r) }
    ensures number { IfErr result IsOpeningRefusal }
    ensures disk { OnlyReads D.PageDisk disk.old disk.new }
    ensures cause { IsCaused (D.failure_count disk.old) (D.failure_count disk.new) result }
{
    if head.root_lost {
        return Err(Refusal::RootLost);
    }
    match read_runs(alloc, &head.extents, &head.graph, disk, &head.root.runs) {
        Ok(runs) => load_store(alloc, head.extents, head.graph, &head.root, runs),
        Err(refusal) => Err(refusal),
    }
}

/// Reads the whole store.
fn read_store<D: PageDisk>(alloc: Global, disk: &mut D) -> Result<OpenedStore, Refusal>
    requires { 10 ≤ D.page_count disk.old }
    ensures made { IfOk result (λ found. IsStoreFound (D.honest disk.old) (D.page_count disk.old) (page (seen (D.state disk.old))) found.commands found.live found.store) }
    ensures why { D.honest disk.old → IfErr result (λ r. IsNoAnswer r ⊎ IsWhyNotOpened (D.page_count disk.old) (page (seen (D.state disk.old))) r) }
    ensures number { IfErr result IsOpeningRefusal }
    ensures disk { OnlyReads D.PageDisk disk.old disk.new }
    ensures cause { IsCaused (D.failure_count disk.old) (D.failure_count disk.new) result }
{
    match read_head(alloc, disk) {
        Ok(head) => read_rest(alloc, disk, head),
        Err(refusal) => Err(refusal),
    }
}

/// Flushes, and reads the store.
pub fn flush_and_read<D: PageDisk>(alloc: Global, disk: &mut D) -> Result<OpenedStore, Refusal>
    requires { 10 ≤ D.page_count disk.old }
    ensures made { IfOk result (λ found. IsStoreFound (D.honest disk.old) (D.page_count disk.old) (page (seen (D.state disk.old))) found.commands found.live found.store) }
    ensures why { D.honest disk.old → IfErr result (λ r. IsNoAnswer r ⊎ IsWhyNotOpened (D.page_count disk.old) (page (seen (D.state disk.old))) r) }
    ensures number { IfErr result IsOpeningRefusal }
    ensures state { D.honest disk.old → MatchResult result (λ _. D.state disk.new ≡ flushed (D.state disk.old)) (λ _. (D.state disk.new ≡ D.state disk.old) ⊎ (D.state disk.new ≡ flushed (D.state disk.old))) }
    ensures unwritten { D.honest disk.old → MatchResult result (λ _. D.device disk.new ≡ flushed (D.device disk.old)) (λ _. (D.device disk.new ≡ D.device disk.old) ⊎ (D.device disk.new ≡ flushed (D.device disk.old))) }
    ensures calls { D.honest disk.old → MatchResult result (λ _. D.moment disk.new ≡ D.moment disk.old + 1) (λ _. D.moment disk.new ≤ D.moment disk.old + 1) }
    ensures crash { D.honest disk.old → LeavesOnly D.moment D.left_since disk.old disk.new (MayLeave (D.state disk.old)) }
    ensures honest { D.honest disk.old ↔ D.honest disk.new }
    ensures pages { D.page_count disk.new ≡ D.page_count disk.old }
    ensures cause { IsCaused (D.failure_count disk.old) (D.failure_count disk.new) result }
    ensures sound { StaysSound D.sound D.refusal_count disk.old disk.new }
{
    match disk.flush() {
        Ok(()) => read_store(alloc, disk),
        Err(failed) => Err(refusal_of_disk(failed)),
    }
}

/// A store that was opened, how many commands its root counts, and how many shards it has.
#[derive(Drop)]
pub struct OpenedStore {
    pub store: Store,
    pub commands: u64,
    pub live: usize,
}

/// What a store has besides its extents and its graph: the index of these runs, and the root as it notes it.
fn load_parts(
    alloc: Global,
    extents: &Extents,
    root: &Root,
    runs: Vec<StoredRun>,
) -> Result<(Index, VecDeque<Noted>), Refusal>
    requires few { length runs.items ≤ 24 }
    requires runs { AllByRecursion (λ run. IsRun (shape extents.now).format (record { entries = run.entries })) runs.items }
    requires marks { KeepFormat (shape extents.now).format (map (λ run. run.place) runs.items) }
    ensures loaded { IfOk result (λ made. made.0 ≡ index_at (newest_first runs.items) (shape extents.now).format (shape extents.now).most_weight) }
    ensures noted { IfOk result (λ made. made.1.items ≡ record { version = root.now.version; commands = 0 } ∷ []) }
    ensures located { OnOk result (AreLocatedBy extents.now runs.items) }
    ensures named { OnOk result (named_weight (shape extents.now).weigh (entries_of (newest_first runs.items)) ≤ (shape extents.now).most_weight) }
    ensures number { IfErr result IsOpeningRefusal }
    ensures why { IfErr result (λ r. (r ≡ Refusal.OutOfMemory) ⊎ ((r ≡ Refusal.NotAStore) × ((¬ AreLocatedBy extents.now runs.items) ⊎ ((shape extents.now).most_weight < named_weight (shape extents.now).weigh (entries_of (newest_first runs.items)))))) }
{
    let index = match load_index(alloc, extents, runs) {
        Ok(index) => index,
        Err(refusal) => return Err(refusal),
    };
    match first_root(alloc, root.version) {
        Ok(roots) => Ok((index, roots)),
        Err(_) => Err(Refusal::OutOfMemory),
    }
}

/// Notes on which extents these runs lie.
fn note_runs(runs: &[StoredRun], extents: &mut Extents)
    requires { AllByRecursion (λ run. run.place.extent < (shape extents.old).extents) runs.now }
    ensures extents { extents_of extents.new ≡ record (extents_of extents.old) { of_runs = λ e. any_run_on (newest_first runs.now) e || (extents_of extents.old).of_runs e } }
    ensures shape { shape extents.new ≡ shape extents.old }
{
    for k in 0..runs.len() {
        let run = &runs[k];
        extents.set_kind(usize::from(run.place.extent), Kind::Runs);
    }
}

/// Readies extents that were read: notes on which of them runs lie, and empties the blank ones under the root. No sweep
/// is unfinished. In format 2 nothing is done.
fn ready_extents(index: &Index, extents: &mut Extents, sweeps: &Sweeps, root: u64)
    requires read { extents.old ≡ extents_at extents.old.format extents.old.pages extents.old.sections extents.old.written }
    requires places { AllByRecursion (λ run. run.place.extent < (shape extents.old).extents) index.now.runs }
    requires none { sweeps.now ≡ [] }
    requires root { root < 2 ^ 63 }
    ensures { AreExtentsOpened extents.old index.now root extents.new }
{
    if !extents.is_apart() {
        return;
    }
    note_runs(index.runs(), extents);
    // Called for its contract alone: what all extents keep.
    extents.extent_count();
    free_blank(index, extents, sweeps, root);
}

/// A store of these extents and this graph, on which nothing was staged, and of this root's runs, oldest first.
///
/// 43 `NotAStore` if an entry's locator isn't of a frame, or if the newest entries weigh more than those of one run
/// may; 9 `OutOfMemory`.
fn load_store(
    alloc: Global,
    mut extents: Extents,
    graph: Graph,
    root: &Root,
    runs: Vec<StoredRun>,
) -> Result<OpenedStore, Refusal>
    requires extents { extents ≡ extents_at extents.format extents.pages extents.sections extents.written }
    requires graph { (versions : List ℕ) × (length versions ≡ extents.sections) × (graph ≡ graph_at versions root.now.version) }
    requires version { root.now.version < 2 ^ 63 }
    requires commands { root.now.commands < 2 ^ 63 }
    requires few { length runs.items ≤ 24 }
    requires runs { AllByRecursion (λ run. IsRun (shape extents).format (record { entries = run.entries })) runs.items }
    requires marks { KeepFormat (shape extents).format (map (λ run. run.place) runs.items) }
    requires places { AllByRecursion (λ run. IsLocated extents run.place) runs.items }
    ensures made { IfOk result (λ found. IsLoaded extents graph root.now.version root.now.commands runs.items found.store) }
    ensures commands { IfOk result (λ found. found.commands ≡ root.now.commands) }
    ensures live { IfOk result (λ found. HasCount (λ id. live_at (entries_of (newest_first runs.items)) id ≢ []) found.live) }
    ensures located { OnOk result (AreLocatedBy extents runs.items) }
    ensures named { OnOk result (named_weight (shape extents).weigh (entries_of (newest_first runs.items)) ≤ (shape extents).most_weight) }
    ensures number { IfErr result IsOpeningRefusal }
    ensures why { IfErr result (λ r. (r ≡ Refusal.OutOfMemory) ⊎ ((r ≡ Refusal.NotAStore) × ((¬ AreLocatedBy extents runs.items) ⊎ ((shape extents).most_weight < named_weight (shape extents).weigh (entries_of (newest_first runs.items)))))) }
{
    // Called for its contract alone: what all extents keep.
    extents.extent_count();
    let (index, roots) = match load_parts(alloc, &extents, root, runs) {
        Ok(made) => made,
        Err(refusal) => return Err(refusal),
    };
    let live = live_count(&index);
    let sweeps = Sweeps::none(alloc);
    ready_extents(&index, &mut extents, &sweeps, root.version);
    Ok(OpenedStore {
        store: Store {
            alloc,
            graph,
            extents,
            index,
            sweeps,
            roots,
            issued: 0,
            base: root.commands,
            accepted: 0,
            frontier: 0,
            halted: false,
        },
        commands: root.commands,
        live,
    })
}

/// A section of a new store's superblock.
fn new_section(alloc: Global, geometry: Geometry, section: u8) -> Result<Superblock, AllocError>
    ensures version { IfOk result (λ it. it.version ≡ 1) }
    ensures recorded { IfOk result (λ it. it.recorded ≡ 0) }
    ensures format { IfOk result (λ it. it.format ≡ geometry.format) }
    ensures extents { IfOk result (λ it. it.extent_count ≡ geometry.extents) }
    ensures pages { IfOk result (λ it. it.pages ≡ geometry.pages) }
    ensures sections { IfOk result (λ it. it.sections ≡ geometry.sections) }
    ensures section { IfOk result (λ it. it.section ≡ section) }
    ensures rows { IfOk result (λ it. it.extents.items ≡ replicate {A = ℕ × ℕ} (section_length geometry.extents geometry.sections section) (0, 0)) }
{
    Ok(Superblock {
        format: geometry.format(),
        version: 1,
        // No root is persistent yet.
        recorded: 0,
        extent_count: geometry.extents(),
        pages: geometry.pages(),
        sections: geometry.sections(),
        section,
        extents: vec![in alloc; (0, 0); geometry.section_length(section)]?,
    })
}

/// All sections of a new store's superblock, in order.
fn new_sections(alloc: Global, geometry: Geometry) -> Result<Vec<Superblock>, AllocError>
    ensures { IfOk result (λ sections. AreNew geometry.format geometry.extents geometry.pages geometry.sections sections.items) }
{
    let count = geometry.sections();
    let mut sections = Vec::with_capacity(alloc, usize::from(count))?;
    for k in 0..count {
        match new_section(alloc, geometry, k) {
            Ok(superblock) => sections.push_reserved(superblock),
            Err(fault) => return Err(fault),
        }
    }
    Ok(sections)
}

/// An index that names nothing. Refused for memory alone: without runs nothing weighs.
fn new_index(alloc: Global, geometry: Geometry) -> Result<Index, AllocError>
    ensures { IfOk result (λ index. index ≡ (new_stored geometry.format geometry.extents geometry.pages geometry.sections).index) }
{
    match Index::load(
        alloc,
        geometry.format(),
        geometry.most_weight(),
        Vec::new(alloc),
    ) {
        Ok(index) => Ok(index),
        Err(_) => Err(AllocError),
    }
}

/// A store of this geometry and of the sections of its superblock, on which nothing was staged yet.
fn new_store(
    alloc: Global,
    geometry: Geometry,
    sections: &[Superblock],
) -> Result<Store, AllocError>
    requires { AreNew geometry.format geometry.extents geometry.pages geometry.sections sections.now }
    ensures { IfOk result (λ store. store ≡ new_stored geometry.format geometry.extents geometry.pages geometry.sections) }
{
    let roots = first_root(alloc, 1)?;
    let index = new_index(alloc, geometry)?;
    let extents = Extents::of(alloc, sections)?;
    let graph = new_graph(alloc, sections, 1)?;
    let sweeps = Sweeps::none(alloc);
    Ok(Store {
        alloc,
        graph,
        extents,
        index,
        sweeps,
        roots,
        issued: 0,
        base: 0,
        accepted: 0,
        frontier: 0,
        halted: false,
    })
}

/// Writes a section of a new store's superblock.
fn write_section<D: PageDisk>(
    disk: &mut D,
    geometry: Geometry,
    superblock: &Superblock,
) -> Result<(), DiskFault>
    requires sized { D.page_count disk.old ≡ device_pages geometry.format geometry.extents geometry.pages geometry.sections }
    requires section { IsNewSection geometry.format geometry.extents geometry.pages geometry.sections superblock.now.section superblock.now }
    ensures written { D.honest disk.old → OnOk result ((bytes : List ℕ)
        × SpellsNew geometry.format geometry.extents geometry.pages geometry.sections superblock.now.section bytes
        × (D.state disk.new ≡ written (D.state disk.old) (head_page geometry.extents geometry.pages superblock.now.section) bytes)) }
    ensures failed { D.honest disk.old → OnErr result ((D.state disk.new ≡ D.state disk.old)
        ⊎ ((bytes : List ℕ) × (D.state disk.new ≡ written (D.state disk.old) (head_page geometry.extents geometry.pages superblock.now.section) bytes))) }
    ensures honest { D.honest disk.old ↔ D.honest disk.new }
    ensures pages { D.page_count disk.new ≡ D.page_count disk.old }
    ensures cause { HasCause (D.failure_count disk.old) (D.failure_count disk.new) result }
    ensures taken { D.honest disk.old → D.sound disk.old → TakesNew D.PageDisk geometry.format geometry.extents geometry.pages geometry.sections superblock.now.section disk.old → D.refusal_count disk.new ≡ D.refusal_count disk.old }
    ensures sound { D.sound disk.old → OnOk result (D.sound disk.new) }
    ensures others { D.honest disk.old → OnOk result (TakesNew D.PageDisk geometry.format geometry.extents geometry.pages geometry.sections superblock.now.section disk.old → TakesNew D.PageDisk geometry.format geometry.extents geometry.pages geometry.sections (superblock.now.section + 1) disk.new) }
{
    let number = geometry.section_page(superblock.section);
    disk.write(number, &encode_superblock(superblock))
}

/// Writes the sections of a new store's superblock.
fn write_sections<D: PageDisk>(
    disk: &mut D,
    geometry: Geometry,
    sections: &[Superblock],
) -> Result<(), DiskFault>
    requires sized { D.page_count disk.old ≡ device_pages geometry.format geometry.extents geometry.pages geometry.sections }
    requires new { AreNew geometry.format geometry.extents geometry.pages geometry.sections sections.now }
    ensures written { D.honest disk.old → OnOk result (AreNewWritten geometry.format geometry.extents geometry.pages geometry.sections geometry.sections (D.state disk.old) (D.state disk.new)) }
    ensures failed { D.honest disk.old → OnErr result (IsHeadWritten geometry.extents geometry.pages (D.state disk.old) (D.state disk.new)) }
    ensures honest { D.honest disk.old ↔ D.honest disk.new }
    ensures pages { D.page_count disk.new ≡ D.page_count disk.old }
    ensures cause { HasCause (D.failure_count disk.old) (D.failure_count disk.new) result }
    ensures taken { D.honest disk.old → D.sound disk.old → TakesNew D.PageDisk geometry.format geometry.extents geometry.pages geometry.sections 0 disk.old → D.refusal_count disk.new ≡ D.refusal_count disk.old }
    ensures root { D.honest disk.old → D.sound disk.old → TakesNew D.PageDisk geometry.format geometry.extents geometry.pages geometry.sections 0 disk.old → OnOk result (D.sound disk.new × TakesNew D.PageDisk geometry.format geometry.extents geometry.pages geometry.sections geometry.sections disk.new) }
{
    for k in 0..sections.len() {
        let section = &sections[k];
        match write_section(disk, geometry, section) {
            Ok(()) => {}
            Err(fault) => return Err(fault),
        }
    }
    Ok(())
}

/// Writes the page of a root, and makes all writes durable.
fn write_root<D: PageDisk>(disk: &mut D, root: &[u8; 4096]) -> Result<(), DiskFault>
    requires { 2 ≤ D.page_count disk.old }
    ensures written { D.honest disk.old → OnOk result (D.state disk.new ≡ flushed (written (D.state disk.old) 1 root.now)) }
    ensures failed { D.honest disk.old → OnErr result ((D.state disk.new ≡ D.state disk.old) ⊎ (D.state disk.new ≡ written (D.state disk.old) 1 root.now)) }
    ensures honest { D.honest disk.old ↔ D.honest disk.new }
    ensures pages { D.page_count disk.new ≡ D.page_count disk.old }
    ensures cause { HasCause (D.failure_count disk.old) (D.failure_count disk.new) result }
    ensures taken { D.honest disk.old → D.sound disk.old → D.takes disk.old 1 root.now → D.refusal_count disk.new ≡ D.refusal_count disk.old }
{
    disk.write(1, root)?;
    disk.flush()
}

/// Writes the sections of a new store's superblock and its root, and makes them durable.
fn write_heads<D: PageDisk>(
    alloc: Global,
    disk: &mut D,
    geometry: Geometry,
    sections: &[Superblock],
) -> Result<(), DiskFault>
    requires sized { D.page_count disk.old ≡ device_pages geometry.format geometry.extents geometry.pages geometry.sections }
    requires new { AreNew geometry.format geometry.extents geometry.pages geometry.sections sections.now }
    ensures written { D.honest disk.old → OnOk result (IsNewOn geometry.format geometry.extents geometry.pages geometry.sections (D.state disk.old) (D.state disk.new)) }
    ensures failed { D.honest disk.old → OnErr result (IsHeadWritten geometry.extents geometry.pages (D.state disk.old) (D.state disk.new)) }
    ensures honest { D.honest disk.old ↔ D.honest disk.new }
    ensures pages { D.page_count disk.new ≡ D.page_count disk.old }
    ensures cause { HasCause (D.failure_count disk.old) (D.failure_count disk.new) result }
    ensures taken { D.honest disk.old → D.sound disk.old → TakesNew D.PageDisk geometry.format geometry.extents geometry.pages geometry.sections 0 disk.old → D.refusal_count disk.new ≡ D.refusal_count disk.old }
{
    let root = Root {
        store: geometry.format().store(),
        version: 1,
        commands: 0,
        runs: Vec::new(alloc),
    };
    match write_sections(disk, geometry, sections) {
        Ok(()) => write_root(disk, &encode_root(&root)),
        Err(fault) => Err(fault),
    }
}

/// Makes a new store of this geometry on a disk that has its pages.
pub fn start_store<D: PageDisk>(
    alloc: Global,
    disk: &mut D,
    geometry: Geometry,
) -> Result<Store, Refusal>
    requires { D.page_count disk.old ≡ device_pages geometry.format geometry.extents geometry.pages geometry.sections }
    ensures geometry { OnOk result (IsGeometry geometry.format geometry.extents geometry.pages geometry.sections) }
    ensures made { IfOk result (λ store. store ≡ new_stored geometry.format geometry.extents geometry.pages geometry.sections) }
    ensures written { D.honest disk.old → OnOk result (IsNewOn geometry.format geometry.extents geometry.pages geometry.sections (D.state disk.old) (D.state disk.new)) }
    ensures failed { D.honest disk.old → OnErr result (IsHeadWritten geometry.extents geometry.pages (D.state disk.old) (D.state disk.new)) }
    ensures honest { D.honest disk.old ↔ D.honest disk.new }
    ensures pages { D.page_count disk.new ≡ D.page_count disk.old }
    ensures refusals { IfErr result (λ r. (r ≡ Refusal.DeviceFault) ⊎ (r ≡ Refusal.OutOfMemory)) }
    ensures cause { IfErr result (λ r. r ≡ Refusal.DeviceFault → Rises (D.failure_count disk.old) (D.failure_count disk.new)) }
    ensures later { D.failure_count disk.old ≤ D.failure_count disk.new }
    ensures taken { D.honest disk.old → D.sound disk.old → TakesNew D.PageDisk geometry.format geometry.extents geometry.pages geometry.sections 0 disk.old → D.refusal_count disk.new ≡ D.refusal_count disk.old }
{
    let sections = new_sections(alloc, geometry)?;
    let store = new_store(alloc, geometry, &sections)?;
    match write_heads(alloc, disk, geometry, &sections) {
        Ok(()) => Ok(store),
        Err(fault) => {
            mem::drop(store);
            match fault {
                DiskFault::DeviceFault => Err(Refusal::DeviceFault),
                DiskFault::OutOfMemory => Err(Refusal::OutOfMemory),
            }
        }
    }
}

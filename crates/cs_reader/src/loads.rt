//! The runs of a store's index, read one after another, and the index that they make.
ghost use Rattle.std.specs.Prelude.{◌≡◌, ◌≢◌, ◌⊎◌, ◌+◌, ◌*◌, ◌<◌, ◌≤◌, ℕ, [], IfErr, IfOk, MatchBool, OnOk, length, map};
ghost use Rattle.std.specs.List.{AllByRecursion};
ghost use Rattle.cs_chunk.specs.Reads.{IsCaused, IsNoAnswer};
ghost use Rattle.cs_deps.specs.State.{NoneOn};
ghost use Rattle.cs_disk.specs.Disk.{page, seen};
ghost use Rattle.cs_disk.specs.Reads.{OnlyReads};
ghost use Rattle.cs_extent.specs.State.{shape};
ghost use Rattle.cs_frame.specs.Formats.{place_of};
ghost use Rattle.cs_frame.specs.Locators.{KeepFormat};
ghost use Rattle.cs_frame.specs.Runs.{IsRun};
ghost use Rattle.cs_index.specs.State.{index_of, newest_first};
ghost use Rattle.cs_reader.specs.Counts.{HasCount};
ghost use Rattle.cs_reader.specs.ImageReads.{AreLocated, IsLocated, IsRunRead};
ghost use Rattle.cs_reader.specs.Loads.{index_at};
ghost use Rattle.cs_reader.specs.Openings.{AreLiveLocated, AreLocatedBy, IsOpeningRefusal, IsWhyNoRuns, IsWhyNotRead};
ghost use Rattle.law_machine.specs.Index.{entries_of, live_at, named_weight};

use cs_chunk::frame_at;
use cs_deps::Graph;
use cs_disk::PageDisk;
use cs_extent::Extents;
use cs_frame::{FrameKind, Locator, Places, ShardId, decode_run, refusal_of_fault};
use cs_index::{Index, StoredRun};
use cs_refusal::Refusal;
use std::alloc::Global;

/// Whether a frame that is given may begin at a place: its extent exists and has the generation, and the page is below the
/// pointer.
pub fn is_located(extents: &Extents, place: Locator) -> bool
    ensures { MatchBool result (IsLocated extents.now place) (¬ IsLocated extents.now place) }
{
    let extent = usize::from(place.extent);
    extent < extents.extent_count()
        && extents.generation(extent) == place.generation
        && usize::from(place.page) < extents.pointer(extent)
}

/// Whether all of these places are located.
pub fn are_places_located(extents: &Extents, places: &[Locator]) -> bool
    ensures { MatchBool result (AllByRecursion (IsLocated extents.now) places.now) (¬ AllByRecursion (IsLocated extents.now) places.now) }
{
    for k in 0..places.len() {
        if !is_located(extents, places[k]) {
            return false;
        }
    }
    true
}

/// Whether the places of all of these entries are located.
fn are_entries_located(extents: &Extents, entries: &[(ShardId, Places)]) -> bool
    ensures { MatchBool result (AllByRecursion (λ entry. AllByRecursion (IsLocated extents.now) entry.1.items) entries.now) (¬ AllByRecursion (λ entry. AllByRecursion (IsLocated extents.now) entry.1.items) entries.now) }
{
    for k in 0..entries.len() {
        let entry = &entries[k];
        if !are_places_located(extents, entry.1.as_slice()) {
            return false;
        }
    }
    true
}

/// Whether the places of all entries of these runs are located.
pub fn are_located(extents: &Extents, runs: &[StoredRun]) -> bool
    ensures { MatchBool result (AreLocated extents.now runs.now) (¬ AreLocated extents.now runs.now) }
{
    for k in 0..runs.len() {
        let run = &runs[k];
        if !are_entries_located(extents, &run.entries) {
            return false;
        }
    }
    true
}

/// Reads the run at a place, while nothing waits. Refused 43 NotAStore if the place isn't located, before the device is asked.
pub fn read_run<D: PageDisk>(
    alloc: Global,
    extents: &Extents,
    graph: &Graph,
    disk: &mut D,
    place: Locator,
) -> Result<StoredRun, Refusal>
    requires device { 2 + (shape extents.now).extents * (shape extents.now).pages ≤ D.page_count disk.old }
    requires none { (p : ℕ) → NoneOn graph.now p }
    ensures read { D.honest disk.old → IfOk result (λ run. IsRunRead extents.now (page (seen (D.state disk.old))) run) }
    ensures place { IfOk result (λ run. run.place ≡ place) }
    ensures located { IfOk result (λ run. IsLocated extents.now run.place) }
    ensures run { IfOk result (λ run. IsRun (shape extents.now).format (record { entries = run.entries })) }
    ensures why { D.honest disk.old → IfErr result (λ r. IsNoAnswer r ⊎ IsWhyNotRead extents.now (page (seen (D.state disk.old))) place r) }
    ensures number { IfErr result IsOpeningRefusal }
    ensures disk { OnlyReads D.PageDisk disk.old disk.new }
    ensures cause { IsCaused (D.failure_count disk.old) (D.failure_count disk.new) result }
{
    // Called for its contract alone: how many pages an extent may have.
    extents.extent_count();
    if !is_located(extents, place) {
        return Err(Refusal::NotAStore);
    }
    let frame = match frame_at(alloc, extents, graph, disk, FrameKind::Run, place) {
        Ok(frame) => frame,
        Err(refusal) => return Err(refusal),
    };
    match decode_run(alloc, extents.geometry().format(), frame.payload()) {
        Ok(run) => Ok(StoredRun {
            place,
            entries: run.entries,
        }),
        Err(fault) => Err(refusal_of_fault(fault)),
    }
}

/// Reads the runs at these places, one after another, while nothing waits.
pub fn read_runs<D: PageDisk>(
    alloc: Global,
    extents: &Extents,
    graph: &Graph,
    disk: &mut D,
    places: &[Locator],
) -> Result<Vec<StoredRun>, Refusal>
    requires device { 2 + (shape extents.now).extents * (shape extents.now).pages ≤ D.page_count disk.old }
    requires none { (p : ℕ) → NoneOn graph.now p }
    ensures read { D.honest disk.old → IfOk result (λ runs. (map (λ run. run.place) runs.items ≡ places.now) × AllByRecursion (IsRunRead extents.now (page (seen (D.state disk.old)))) runs.items) }
    ensures places { IfOk result (λ runs. AllByRecursion (λ run. IsLocated extents.now run.place) runs.items) }
    ensures runs { IfOk result (λ runs. AllByRecursion (λ run. IsRun (shape extents.now).format (record { entries = run.entries })) runs.items) }
    ensures listed { IfOk result (λ runs. map (λ run. run.place) runs.items ≡ places.now) }
    ensures count { IfOk result (λ runs. length runs.items ≡ length places.now) }
    ensures why { D.honest disk.old → IfErr result (λ r. IsNoAnswer r ⊎ IsWhyNoRuns extents.now (page (seen (D.state disk.old))) places.now r) }
    ensures number { IfErr result IsOpeningRefusal }
    ensures disk { OnlyReads D.PageDisk disk.old disk.new }
    ensures cause { IsCaused (D.failure_count disk.old) (D.failure_count disk.new) result }
{
    let mut runs = Vec::with_capacity(alloc, places.len())?;
    for k in 0..places.len() {
        match read_run(alloc, extents, graph, disk, places[k]) {
            Ok(run) => runs.push_reserved(run),
            Err(refusal) => return Err(refusal),
        }
    }
    Ok(runs)
}

/// How many shards have locators. It costs no search.
pub fn live_count(index: &Index) -> usize
    ensures { HasCount (λ id. live_at (index_of index.now) id ≢ []) result }
{
    index.live_count()
}

/// The index of runs. Refused 43 NotAStore if their newest entries weigh too much, and 9 OutOfMemory.
fn load_runs(alloc: Global, extents: &Extents, runs: Vec<StoredRun>) -> Result<Index, Refusal>
    requires few { length runs.items ≤ 24 }
    requires runs { AllByRecursion (λ run. IsRun (shape extents.now).format (record { entries = run.entries })) runs.items }
    requires marks { KeepFormat (shape extents.now).format (map (λ run. run.place) runs.items) }
    ensures loaded { IfOk result (λ index. index ≡ index_at (newest_first runs.items) (shape extents.now).format (shape extents.now).most_weight) }
    ensures named { OnOk result (named_weight (shape extents.now).weigh (entries_of (newest_first runs.items)) ≤ (shape extents.now).most_weight) }
    ensures number { IfErr result IsOpeningRefusal }
    ensures why { IfErr result (λ r. (r ≡ Refusal.OutOfMemory) ⊎ ((r ≡ Refusal.NotAStore) × ((shape extents.now).most_weight < named_weight (shape extents.now).weigh (entries_of (newest_first runs.items))))) }
{
    let geometry = extents.geometry();
    let limit = geometry.most_weight();
    match Index::load(alloc, geometry.format(), limit, runs) {
        Ok(index) => Ok(index),
        Err(refusal) => Err(refusal),
    }
}

/// Whether the places of the newest entry of each identifier are located. It goes through the index.
fn are_live_located(extents: &Extents, index: &Index) -> bool
    ensures { MatchBool result (AreLiveLocated extents.now (index_of index.now)) (¬ AreLiveLocated extents.now (index_of index.now)) }
{
    let mut read = index.entries();
    while let Some((id, locators)) = read.next_entry() {
        let _bytes = id.bytes();
        if !are_places_located(extents, locators) {
            return false;
        }
    }
    true
}

/// The index of runs whose places are located: those of all entries if chunks and runs may lie on one extent, else those of the newest
/// entry of each identifier. Refused 43 NotAStore if they aren't, or if the newest entries weigh too much, and 9 OutOfMemory.
pub fn load_index(alloc: Global, extents: &Extents, runs: Vec<StoredRun>) -> Result<Index, Refusal>
    requires few { length runs.items ≤ 24 }
    requires runs { AllByRecursion (λ run. IsRun (shape extents.now).format (record { entries = run.entries })) runs.items }
    requires marks { KeepFormat (shape extents.now).format (map (λ run. run.place) runs.items) }
    ensures loaded { IfOk result (λ index. index ≡ index_at (newest_first runs.items) (shape extents.now).format (shape extents.now).most_weight) }
    ensures located { OnOk result (AreLocatedBy extents.now runs.items) }
    ensures named { OnOk result (named_weight (shape extents.now).weigh (entries_of (newest_first runs.items)) ≤ (shape extents.now).most_weight) }
    ensures number { IfErr result IsOpeningRefusal }
    ensures why { IfErr result (λ r. (r ≡ Refusal.OutOfMemory) ⊎ ((r ≡ Refusal.NotAStore) × ((¬ AreLocatedBy extents.now runs.items) ⊎ ((shape extents.now).most_weight < named_weight (shape extents.now).weigh (entries_of (newest_first runs.items)))))) }
{
    if extents.is_apart() {
        let index = match load_runs(alloc, extents, runs) {
            Ok(index) => index,
            Err(refusal) => return Err(refusal),
        };
        if !are_live_located(extents, &index) {
            return Err(Refusal::NotAStore);
        }
        Ok(index)
    } else {
        if !are_located(extents, &runs) {
            return Err(Refusal::NotAStore);
        }
        load_runs(alloc, extents, runs)
    }
}

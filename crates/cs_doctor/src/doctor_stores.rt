//! Opens the store on a disk for a diagnosis, to read what its root and its index name.
ghost use Rattle.std.specs.Prelude.{◌≡◌, ◌≢◌, Err, ◌⊎◌, ◌++◌, ◌∷◌, ◌+◌, ◌-◌, ◌*◌, ◌^◌, ◌<◌, ◌≤◌, [], IfOk, None, OnOk};
ghost use Rattle.cs_chunk.specs.Newest.{AreNewest};
ghost use Rattle.cs_core.specs.Openings.{IfStoreOn};
ghost use Rattle.cs_deps.specs.State.{NoneOn};
ghost use Rattle.cs_disk.specs.Disk.{page, seen};
ghost use Rattle.cs_disk.specs.Reads.{OnlyReads};
ghost use Rattle.cs_extent.specs.State.{extents_of, shape};
ghost use Rattle.cs_inspect.specs.Scrubs.{IsScrubbed};
ghost use Rattle.cs_inspect.specs.declared.scrubs.Scrubbed.{Scrubbed};
ghost use Rattle.cs_mount.specs.Identities.{IsOfOne};
ghost use Rattle.cs_mount.specs.Showing.{shown_on};
ghost use Rattle.cs_reader.specs.Heads.{IsHeadRead};
ghost use Rattle.cs_doctor.specs.DoctorStores.{AreRunsFound, AreWorn, IsHeadFound, IsKept, IsOpeningOn, IsOpeningShown, IsRunFound, IsUnwritten, OpensAs, root_of};
ghost use Rattle.cs_doctor.specs.declared.diagnoses.Opening.TheVariants as opening;

use crate::diagnoses::{HeadFound, Opening, Rest, RootFound, RunFound, StoreFound};
use cs_deps::Graph;
use cs_disk::PageDisk;
use cs_extent::Extents;
use cs_frame::{Locator, ShardId};
use cs_inspect::{Progress, ids, scrub};
use cs_mount::the_core::Core;
use cs_mount::{LIMITS, open_pairs};
use cs_reader::{Head, read_head, read_run};
use cs_refusal::Refusal;
use cs_salvage::{Rescue, RescueRefusal};
use std::alloc::{AllocError, Global};

/// The run at a place that can't be read for this reason. Refused if memory ran out.
fn unread_run(place: Locator, refusal: Refusal) -> Result<RunFound, AllocError>
    ensures found { IfOk result (λ found. found ≡ record { place = place; entries = Err refusal }) }
    ensures answered { OnOk result (refusal ≢ Refusal.OutOfMemory) }
{
    match refusal {
        Refusal::OutOfMemory => Err(AllocError),
        _ => Ok(RunFound {
            place,
            entries: Err(refusal),
        }),
    }
}

/// Reads the run at a place, and reports how many entries it has, or why it can't be read.
fn read_one<D: PageDisk>(
    alloc: Global,
    extents: &Extents,
    graph: &Graph,
    disk: &mut D,
    place: Locator,
) -> Result<RunFound, AllocError>
    requires device { 2 + (shape extents.now).extents * (shape extents.now).pages ≤ D.page_count disk.old }
    requires none { (p : _) → NoneOn graph.now p }
    ensures found { D.honest disk.old → IfOk result (IsRunFound extents.now (page (seen (D.state disk.old))) (D.failure_count disk.old) (D.failure_count disk.new) place) }
    ensures disk { OnlyReads D.PageDisk disk.old disk.new }
{
    match read_run(alloc, extents, graph, disk, place) {
        Ok(run) => Ok(RunFound {
            place,
            entries: Ok(run.entries.len()),
        }),
        Err(refusal) => unread_run(place, refusal),
    }
}

/// Reads the runs at these places.
fn read_each<D: PageDisk>(
    alloc: Global,
    extents: &Extents,
    graph: &Graph,
    disk: &mut D,
    places: &[Locator],
) -> Result<Vec<RunFound>, AllocError>
    requires device { 2 + (shape extents.now).extents * (shape extents.now).pages ≤ D.page_count disk.old }
    requires none { (p : _) → NoneOn graph.now p }
    ensures found { D.honest disk.old → IfOk result (λ found. AreRunsFound extents.now (page (seen (D.state disk.old))) (D.failure_count disk.old) (D.failure_count disk.new) places.now found.items) }
    ensures disk { OnlyReads D.PageDisk disk.old disk.new }
{
    let mut found = Vec::new(alloc);
    for k in 0..places.len() {
        let run = read_one(alloc, extents, graph, disk, places[k])?;
        found.push(run)?;
    }
    Ok(found)
}

/// Adds an extent to the others if its generation is the greatest.
fn add_if_worn(extents: &Extents, extent: u16, worn: &mut Vec<u16>) -> Result<(), AllocError>
    requires { extent < (shape extents.now).extents }
    ensures { OnOk result ((((extents_of extents.now).generation extent ≡ 2 ^ 32 - 1) × (worn.new.items ≡ worn.old.items ++ extent ∷ []))
        ⊎ (((extents_of extents.now).generation extent ≢ 2 ^ 32 - 1) × (worn.new.items ≡ worn.old.items))) }
{
    if extents.generation(usize::from(extent)) == u32::MAX {
        worn.push(extent)?;
    }
    Ok(())
}

/// The extents whose generation is the greatest.
fn worn_extents(alloc: Global, extents: &Extents) -> Result<Vec<u16>, AllocError>
    ensures { IfOk result (λ worn. AreWorn extents.now worn.items) }
{
    let mut worn = Vec::new(alloc);
    for extent in 0..extents.geometry().extents() {
        add_if_worn(extents, extent, &mut worn)?;
    }
    Ok(worn)
}

/// What the root that was read says.
fn root_of(head: &Head) -> RootFound
    ensures { result ≡ root_of head.now }
{
    RootFound {
        version: head.root.version,
        commands: head.root.commands,
        lost: head.root_lost,
    }
}

/// What this head names.
fn head_found<D: PageDisk>(
    alloc: Global,
    disk: &mut D,
    head: &Head,
) -> Result<HeadFound, AllocError>
    requires { IsHeadRead (D.honest disk.old) (D.page_count disk.old) (page (seen (D.state disk.old))) head.now }
    ensures found { D.honest disk.old → IfOk result (IsHeadFound (D.page_count disk.old) (page (seen (D.state disk.old))) (D.failure_count disk.old) (D.failure_count disk.new)) }
    ensures disk { OnlyReads D.PageDisk disk.old disk.new }
{
    let runs = read_each(alloc, &head.extents, &head.graph, disk, &head.root.runs)?;
    let worn = worn_extents(alloc, &head.extents)?;
    Ok(HeadFound {
        root: Some(root_of(head)),
        runs,
        worn,
    })
}

/// Nothing, where superblock or root can't be read.
fn no_head(alloc: Global) -> HeadFound
    ensures root { result.root ≡ None }
    ensures runs { result.runs.items ≡ [] }
    ensures worn { result.worn.items ≡ [] }
{
    HeadFound {
        root: None,
        runs: Vec::new(alloc),
        worn: Vec::new(alloc),
    }
}

/// Nothing, where they can't be read for this reason. Refused if memory ran out.
fn no_head_by(alloc: Global, refusal: Refusal) -> Result<HeadFound, AllocError>
    ensures none { IfOk result (λ found. found.root ≡ None) }
    ensures answered { OnOk result (refusal ≢ Refusal.OutOfMemory) }
{
    match refusal {
        Refusal::OutOfMemory => Err(AllocError),
        _ => Ok(no_head(alloc)),
    }
}

/// Reads superblock and root, and each run that the root names.
fn find_head<D: PageDisk>(alloc: Global, disk: &mut D) -> Result<HeadFound, AllocError>
    requires { 10 ≤ D.page_count disk.old }
    ensures found { D.honest disk.old → IfOk result (IsHeadFound (D.page_count disk.old) (page (seen (D.state disk.old))) (D.failure_count disk.old) (D.failure_count disk.new)) }
    ensures disk { OnlyReads D.PageDisk disk.old disk.new }
{
    match read_head(alloc, disk) {
        Ok(head) => head_found(alloc, disk, &head),
        Err(refusal) => no_head_by(alloc, refusal),
    }
}

/// 1 if a shard can't be read, else 0. Refused if memory ran out.
fn unread_of<D: PageDisk>(
    alloc: Global,
    rescue: &mut Rescue<D>,
    id: ShardId,
) -> Result<usize, AllocError>
    ensures most { IfOk result (λ unread. unread ≤ 1) }
    ensures found { rescue.new.found ≡ rescue.old.found }
    ensures disk { OnlyReads D.PageDisk rescue.old.disk rescue.new.disk }
{
    match rescue.get(alloc, id) {
        Ok(_) => Ok(0),
        Err(RescueRefusal::Refused(Refusal::OutOfMemory)) => Err(AllocError),
        Err(_) => Ok(1),
    }
}

/// How many shards the runs name that were read, and how many of these can't be read.
fn read_rest<D: PageDisk, P: Progress>(
    alloc: Global,
    rescue: &mut Rescue<D>,
    progress: &P,
) -> Result<Rest, AllocError>
    ensures unread { IfOk result (λ rest. rest.unread ≤ rest.shards) }
    ensures disk { OnlyReads D.PageDisk rescue.old.disk rescue.new.disk }
{
    let ids = ids(alloc, rescue.index())?;
    let mut unread: usize = 0;
    for k in 0..ids.len() {
        progress.tell(k, ids.len());
        let more = unread_of(alloc, rescue, ids[k])?;
        unread = unread.saturating_add(more);
    }
    Ok(Rest {
        shards: ids.len(),
        unread,
    })
}

/// What can be read by the index of a store that isn't opened, for this reason.
fn rest_on<D: PageDisk + Drop, P: Progress>(
    alloc: Global,
    disk: D,
    refusal: Refusal,
    progress: &P,
) -> Result<(Opening, D), AllocError>
    ensures refused { IfOk result (λ found. (rest : _) × (found.0 ≡ opening.Refused refusal rest)) }
    ensures disk { IfOk result (λ found. OnlyReads D.PageDisk disk found.1) }
{
    match Rescue::open(alloc, disk) {
        Ok(rescue) => {
            let mut rescue = rescue;
            let rest = read_rest(alloc, &mut rescue, progress)?;
            let rest = Some(rest);
            Ok((Opening::Refused { refusal, rest }, rescue.into_disk()))
        }
        Err((_, disk)) => Ok((
            Opening::Refused {
                refusal,
                rest: None,
            },
            disk,
        )),
    }
}

/// The same. Refused if memory ran out.
fn refused_on<D: PageDisk + Drop, P: Progress>(
    alloc: Global,
    disk: D,
    refusal: Refusal,
    progress: &P,
) -> Result<(Opening, D), AllocError>
    ensures refused { IfOk result (λ found. (rest : _) × (found.0 ≡ opening.Refused refusal rest)) }
    ensures answered { OnOk result (refusal ≢ Refusal.OutOfMemory) }
    ensures disk { IfOk result (λ found. OnlyReads D.PageDisk disk found.1) }
{
    match refusal {
        Refusal::OutOfMemory => Err(AllocError),
        _ => rest_on(alloc, disk, refusal, progress),
    }
}

/// Reads all that the index of an opened store names.
fn scrub_core<D: PageDisk + Drop, P: Progress>(
    alloc: Global,
    core: Core<D>,
    progress: &P,
) -> Result<(Opening, D), AllocError>
    ensures found { D.honest core.disk → IfOk result (λ found. (scrubbed : Scrubbed) × (found.0 ≡ opening.Opened core.found.1 scrubbed)
        × ((view : _) → AreNewest core.store.graph (seen (D.state core.disk)) view → IsScrubbed core.store.extents view core.store.index scrubbed)) }
    ensures shards { IfOk result (λ found. (scrubbed : Scrubbed) × (found.0 ≡ opening.Opened core.found.1 scrubbed)) }
    ensures disk { IfOk result (λ found. OnlyReads D.PageDisk core.disk found.1) }
{
    let mut core = core;
    let (_, shards) = core.opened();
    let scrubbed = scrub(alloc, &mut core, progress)?;
    Ok((Opening::Opened { shards, scrubbed }, core.into_disk()))
}

/// Opens the store on a disk, and reads all that its index names. If it isn't opened, what can be read by its index is
/// read.
fn find_opening<D: PageDisk + Drop, P: Progress>(
    alloc: Global,
    disk: D,
    progress: &P,
) -> Result<(Opening, D), AllocError>
    ensures found { D.honest disk → IfOk result (λ found. IsOpeningOn (D.page_count disk) (seen (D.state disk)) found.0) }
    // If the disk shows a store, it is that one that opens, unless the device refuses.
    ensures opens { D.honest disk → IfStoreOn (D.page_count disk) (page (seen (D.state disk))) (λ S n m. IfOk result (λ found. OpensAs m found.0)) }
    ensures disk { IfOk result (λ found. IsUnwritten D.PageDisk disk found.1) }
{
    match Core::open(alloc, disk, LIMITS) {
        Ok(core) => scrub_core(alloc, core, progress),
        Err((refusal, disk)) => refused_on(alloc, disk, refusal, progress),
    }
}

/// What is found of the store on a disk by its root: of one that shows each page once.
fn find_shown<D: PageDisk + Drop, P: Progress>(
    alloc: Global,
    disk: D,
    progress: &P,
) -> Result<(StoreFound, D), AllocError>
    requires { 10 ≤ D.page_count disk }
    ensures opening { D.honest disk → IfOk result (λ found. IsOpeningOn (D.page_count disk) (seen (D.state disk)) found.0.opening) }
    ensures opens { D.honest disk → IfStoreOn (D.page_count disk) (page (seen (D.state disk))) (λ S n m. IfOk result (λ found. OpensAs m found.0.opening)) }
    ensures head { D.honest disk → IfOk result (λ found. (after : _) × IsHeadFound (D.page_count disk) (page (seen (D.state disk))) (D.failure_count disk) after found.0.head) }
    ensures disk { IfOk result (λ found. IsUnwritten D.PageDisk disk found.1) }
{
    let mut disk = disk;
    let head = find_head(alloc, &mut disk)?;
    match find_opening(alloc, disk, progress) {
        Ok((opening, disk)) => Ok((StoreFound { head, opening }, disk)),
        Err(_) => Err(AllocError),
    }
}

/// What is found of a store that isn't looked for any further, for this reason.
pub fn refused(alloc: Global, refusal: Refusal) -> StoreFound
    ensures root { result.head.root ≡ None }
    ensures runs { result.head.runs.items ≡ [] }
    ensures worn { result.head.worn.items ≡ [] }
    ensures opening { result.opening ≡ opening.Refused refusal None }
{
    StoreFound {
        head: no_head(alloc),
        opening: Opening::Refused {
            refusal,
            rest: None,
        },
    }
}

/// The same, with the disk. Refused if memory ran out.
fn refused_with<D: Drop>(
    alloc: Global,
    refusal: Refusal,
    disk: D,
) -> Result<(StoreFound, D), AllocError>
    ensures found { IfOk result (λ found. (found.0.head.root ≡ None) × (found.0.opening ≡ opening.Refused refusal None) × (found.1 ≡ disk)) }
    ensures answered { OnOk result (refusal ≢ Refusal.OutOfMemory) }
{
    match refusal {
        Refusal::OutOfMemory => Err(AllocError),
        _ => Ok((refused(alloc, refusal), disk)),
    }
}

/// What is found of the store on a disk by its root, its runs, and what its index names. It is opened for that. If it
/// isn't opened the runs are read all the same, and what those name that can be read.
///
/// Nothing is written; the disk is flushed.
pub fn find_store<D: PageDisk + Drop, P: Progress>(
    alloc: Global,
    disk: D,
    progress: &P,
) -> Result<(StoreFound, D), AllocError>
    requires { 10 ≤ D.page_count disk }
    // What a scrub found of it, or why it doesn't open, which is exactly what the opening says.
    ensures opening { D.honest disk → IfOk result (λ found. IsOpeningShown (D.page_count disk) (seen (D.state disk)) found.0.opening) }
    // If the disk shows a store it is the one that opens, with as many shards, unless the device refuses.
    ensures opens { D.honest disk → IsOfOne (D.page_count disk) (seen (D.state disk)) → IfStoreOn (D.page_count disk) (page (shown_on (D.page_count disk) (seen (D.state disk)))) (λ S n m. IfOk result (λ found. OpensAs m found.0.opening)) }
    // Each run of the newest whole root is read, or reported with the reason.
    ensures head { D.honest disk → IfOk result (λ found. (before after : _) × IsHeadFound (D.page_count disk) (page (shown_on (D.page_count disk) (seen (D.state disk)))) before after found.0.head) }
    ensures disk { IfOk result (λ found. IsKept D.PageDisk disk found.1) }
{
    match open_pairs(alloc, disk) {
        Ok((paired, _)) => match find_shown(alloc, paired, progress) {
            Ok((found, paired)) => Ok((found, paired.into_disk())),
            Err(_) => Err(AllocError),
        },
        Err((refusal, disk)) => refused_with(alloc, refusal, disk),
    }
}

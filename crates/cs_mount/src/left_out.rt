//! Extents that are left out.
ghost use Rattle.std.specs.Prelude.{◌+◌, ◌-◌, ◌<◌, ◌↔◌, ◌≡◌, ◌≢◌, ◌≤◌, ◌⊎◌, ◌^◌, Bool, Err, IfErr, IfOk, List, MatchBool, MatchResult, Ok, OnErr, OnOk, [], false, length, true, ℕ};
ghost use Rattle.cs_core.specs.cs_chunk.Reads.{IsCaused, IsNoAnswer};
ghost use Rattle.cs_core.specs.cs_extent.State.{shape};
ghost use Rattle.cs_disk.specs.Disk.{LeavesOnly, MayLeave, Rises, flushed, page, seen};
ghost use Rattle.cs_disk.specs.Reads.{OnlyReads};
ghost use Rattle.cs_frame.specs.Formats.{formats_of};
ghost use Rattle.cs_frame.specs.Geometries.{Dimensions, IsGeometry};
ghost use Rattle.cs_mount.specs.LeftOut.{HasRowLeftOut, IsAtRest, IsCrossed, IsCrossing, IsCrossingPage, IsLeftOut, IsRowWorn, LeavesCrossing, LeavesTheMap, NothingOn, NoneDamagedOn, left_out_rows, row_page};
ghost use Rattle.cs_mount.specs.Showing.{shown_on};
ghost use Rattle.cs_mount.specs.StorePairs.{pages_of, section_version, store_shape};
ghost use Rattle.cs_mount.specs.Torn.{dimensions_of};
ghost use Rattle.cs_reader.specs.Openings.{IsOpeningRefusal};
ghost use Rattle.cs_twin.specs.Paired.{disk_below, failures_of, left_as_shown, moment_of, state_shown};
ghost use Rattle.law_machine.specs.Element.{Map};
ghost use Rattle.law_machine.specs.Geometry.{twins_in};
ghost use Rattle.law_machine.specs.Recovery.{Recovers};

use crate::mount_options::Mounted;
use crate::seals::is_quiet;
use crate::section_pages::{LAST_VERSION, read_section, write_through};
use crate::store_pairs::is_of;
use cs_core::{Core, Limits};
use cs_disk::{PageDisk, refusal_of_disk};
use cs_frame::{Geometry, Superblock, encode_superblock};
use cs_refusal::Refusal;
use std::alloc::Global;

/// Closes a store of format 4 at rest, and leaves an extent out: nothing is put or copied there any more. The row of
/// the extent is written anew in its section of the superblock, and flushed. No page of the extent is written.
///
/// If a run of the root or a live chunk lies on the extent, it is full from then on, with the generation that it has.
/// What lives there is read as ever, and a sweep of the extent moves it away. If nothing lives there, the extent gets
/// the greatest generation, so it is never emptied and never written again. An extent that fails writes is left out for
/// good by two such calls, the second after the sweep. There is no call that takes it in again.
///
/// The root and the runs are read for it, as an opening reads them, so a flush comes first. In format 2 nothing is read
/// or written, and the disk comes back as it is.
///
/// Refused 44 Unsettled if something waits, a round is out, or there is something to stage a root for. Then refused 33
/// NotSweepable if there is no such extent. Refused 35 WornOut if the section has the last version. Refused as an
/// opening is if the store can't be read any more. Refused 1 DeviceFault, and 9 OutOfMemory. A refusal returns the disk.
/// After 1 what shows is as before, or the extent is left out.
pub fn leave_out<D: PageDisk + Drop>(
    alloc: Global,
    core: Core<Mounted<D>>,
    extent: usize,
) -> Result<Mounted<D>, (Refusal, Mounted<D>)>
    // In format 2 the disk comes back as it is.
    ensures older { twins_in core.store.extents.format ≡ false → result ≡ Ok core.disk }
    // It is refused 44 exactly if the store isn't at rest, and the disk comes back as it is then.
    ensures waits { twins_in core.store.extents.format ≡ true → ¬ IsAtRest core.store → result ≡ Err (Refusal.Unsettled, core.disk) }
    ensures rests { IfErr result (λ refused. refused.0 ≡ Refusal.Unsettled → ¬ IsAtRest core.store) }
    // It is refused 33 exactly if there is no such extent.
    ensures missing { twins_in core.store.extents.format ≡ true → IsAtRest core.store → (shape core.store.extents).extents ≤ extent → result ≡ Err (Refusal.NotSweepable, core.disk) }
    ensures there { IfErr result (λ refused. refused.0 ≡ Refusal.NotSweepable → (shape core.store.extents).extents ≤ extent) }
    // What shows then is what showed, with the extent left out, and it is durable. All other rows and pages are the same.
    ensures left_out { D.honest (disk_below core.disk) → twins_in core.store.extents.format ≡ true → (n : ℕ) (m : Map) (found : Recovers (shape core.store.extents) (formats_of (shape core.store.extents)) (page (seen (state_shown core.disk))) n m)
        → IfOk result (λ disk. IsLeftOut (dimensions_of core.store.extents) extent found.runs (seen (state_shown core.disk)) (seen (state_shown disk)) × ((state_shown disk).volatile ≡ [])) }
    ensures refused { D.honest (disk_below core.disk) → (n : ℕ) (m : Map) (found : Recovers (shape core.store.extents) (formats_of (shape core.store.extents)) (page (seen (state_shown core.disk))) n m)
        → IfErr result (λ refused. (seen (state_shown refused.1) ≡ seen (state_shown core.disk)) ⊎ IsLeftOut (dimensions_of core.store.extents) extent found.runs (seen (state_shown core.disk)) (seen (state_shown refused.1))) }
    // It recovers the same commands and the same map, if no live chunk on the extent is damaged.
    ensures recovers { D.honest (disk_below core.disk) → (n : ℕ) (m : Map) (found : Recovers (shape core.store.extents) (formats_of (shape core.store.extents)) (page (seen (state_shown core.disk))) n m)
        → NoneDamagedOn (shape core.store.extents) (formats_of (shape core.store.extents)) (seen (state_shown core.disk)) found.runs found.pointers found.generations extent
        → MatchResult result (λ disk. Recovers (shape core.store.extents) (formats_of (shape core.store.extents)) (page (seen (state_shown disk))) n m) (λ refused. Recovers (shape core.store.extents) (formats_of (shape core.store.extents)) (page (seen (state_shown refused.1))) n m) }
    // An opening of the disk below shows that.
    ensures again { D.honest (disk_below core.disk) → twins_in core.store.extents.format ≡ true → (n : ℕ) (m : Map) → Recovers (shape core.store.extents) (formats_of (shape core.store.extents)) (page (seen (state_shown core.disk))) n m
        → IfOk result (λ disk. shown_on (D.page_count (disk_below core.disk)) (seen (D.state (disk_below disk))) ≡ seen (state_shown disk)) }
    // A crash meanwhile leaves what shows as before, or with the extent left out.
    ensures crash { D.honest (disk_below core.disk) → (n : ℕ) (m : Map) (found : Recovers (shape core.store.extents) (formats_of (shape core.store.extents)) (page (seen (state_shown core.disk))) n m) → MatchResult result
        (λ disk. LeavesOnly moment_of left_as_shown core.disk disk (λ image. MayLeave (state_shown core.disk) image ⊎ IsLeftOut (dimensions_of core.store.extents) extent found.runs (seen (state_shown core.disk)) image))
        (λ refused. LeavesOnly moment_of left_as_shown core.disk refused.1 (λ image. MayLeave (state_shown core.disk) image ⊎ IsLeftOut (dimensions_of core.store.extents) extent found.runs (seen (state_shown core.disk)) image)) }
    // So what a crash leaves recovers the same commands and the same map too.
    ensures keeps { D.honest (disk_below core.disk) → (n : ℕ) (m : Map) (found : Recovers (shape core.store.extents) (formats_of (shape core.store.extents)) (page (seen (state_shown core.disk))) n m)
        → NoneDamagedOn (shape core.store.extents) (formats_of (shape core.store.extents)) (seen (state_shown core.disk)) found.runs found.pointers found.generations extent
        → MatchResult result (λ disk. LeavesOnly moment_of left_as_shown core.disk disk (LeavesTheMap (state_shown core.disk) (shape core.store.extents) n m)) (λ refused. LeavesOnly moment_of left_as_shown core.disk refused.1 (LeavesTheMap (state_shown core.disk) (shape core.store.extents) n m)) }
    // One write and two flushes.
    ensures calls { D.honest (disk_below core.disk) → twins_in core.store.extents.format ≡ true → MatchResult result (λ disk. moment_of disk ≡ moment_of core.disk + 3) (λ refused. moment_of refused.1 ≤ moment_of core.disk + 3) }
    // If what shows recovers something it is refused for no other reason.
    ensures why { D.honest (disk_below core.disk) → (n : ℕ) (m : Map) → Recovers (shape core.store.extents) (formats_of (shape core.store.extents)) (page (seen (state_shown core.disk))) n m
        → IfErr result (λ refused. IsNoAnswer refused.0 ⊎ (refused.0 ≡ Refusal.Unsettled) ⊎ (refused.0 ≡ Refusal.NotSweepable) ⊎ ((refused.0 ≡ Refusal.WornOut) × IsRowWorn (dimensions_of core.store.extents) extent (seen (state_shown core.disk)))) }
    ensures honest { MatchResult result (λ disk. D.honest (disk_below core.disk) ↔ D.honest (disk_below disk)) (λ refused. D.honest (disk_below core.disk) ↔ D.honest (disk_below refused.1)) }
    ensures pages { MatchResult result (λ disk. D.page_count (disk_below disk) ≡ D.page_count (disk_below core.disk)) (λ refused. D.page_count (disk_below refused.1) ≡ D.page_count (disk_below core.disk)) }
    // Whatever the disk answers.
    ensures number { IfErr result (λ refused. IsOpeningRefusal refused.0 ⊎ (refused.0 ≡ Refusal.WornOut) ⊎ (refused.0 ≡ Refusal.NotSweepable) ⊎ (refused.0 ≡ Refusal.Unsettled)) }
    // After 1 the disk has counted a call that failed during this one.
    ensures cause { IfErr result (λ refused. refused.0 ≡ Refusal.DeviceFault → Rises (failures_of core.disk) (failures_of refused.1)) }
    // The count of failures doesn't fall.
    ensures later { MatchResult result (λ disk. failures_of core.disk ≤ failures_of disk) (λ refused. failures_of core.disk ≤ failures_of refused.1) }
{
    // Called for its contract alone: what every core keeps.
    core.progress();
    let geometry = core.extents().geometry();
    let rests = is_at_rest(&core);
    let disk = core.into_disk();
    if !geometry.format().has_twins() {
        return Ok(disk);
    }
    if !rests {
        return Err((Refusal::Unsettled, disk));
    }
    if extent >= usize::from(geometry.extents()) {
        return Err((Refusal::NotSweepable, disk));
    }
    match find_living(alloc, disk, extent) {
        Ok((lives, mut disk)) => match cross_out(alloc, &mut disk, geometry, extent as u16, lives) {
            Ok(()) => Ok(disk),
            Err(refusal) => Err((refusal, disk)),
        },
        Err(refused) => Err(refused),
    }
}

/// Whether a store is at rest.
fn is_at_rest<D: PageDisk>(core: &Core<D>) -> bool
    ensures { MatchBool result (IsAtRest core.now.store) (¬ IsAtRest core.now.store) }
{
    is_quiet(core) && !core.may_stage()
}

/// Whether a run of the root or a live chunk lies on an extent of the store on a disk, which is opened for that.
fn find_living<D: PageDisk + Drop>(
    alloc: Global,
    disk: D,
    extent: usize,
) -> Result<(bool, D), (Refusal, D)>
    requires { extent < 7680 }
    ensures lives { D.honest disk → (d : Dimensions) → IsGeometry d.format d.extents d.pages d.sections → twins_in d.format ≡ true → D.page_count disk ≡ pages_of d
        → (n : ℕ) (m : Map) (found : Recovers (store_shape d) (formats_of (store_shape d)) (page (seen (D.state disk))) n m)
        → MatchResult result (λ living. MatchBool living.0 (¬ NothingOn found.runs extent) (NothingOn found.runs extent)) (λ refused. IsNoAnswer refused.0) }
    ensures number { IfErr result (λ refused. IsOpeningRefusal refused.0) }
    ensures kept { D.honest disk → MatchResult result (λ living. D.state living.1 ≡ flushed (D.state disk)) (λ refused. (D.state refused.1 ≡ D.state disk) ⊎ (D.state refused.1 ≡ flushed (D.state disk))) }
    ensures calls { D.honest disk → MatchResult result (λ living. D.moment living.1 ≡ D.moment disk + 1) (λ refused. D.moment refused.1 ≤ D.moment disk + 1) }
    ensures crash { D.honest disk → MatchResult result (λ living. LeavesOnly D.moment D.left_since disk living.1 (MayLeave (D.state disk))) (λ refused. LeavesOnly D.moment D.left_since disk refused.1 (MayLeave (D.state disk))) }
    ensures honest { MatchResult result (λ living. D.honest disk ↔ D.honest living.1) (λ refused. D.honest disk ↔ D.honest refused.1) }
    ensures pages { MatchResult result (λ living. D.page_count living.1 ≡ D.page_count disk) (λ refused. D.page_count refused.1 ≡ D.page_count disk) }
    ensures cause { IfErr result (λ refused. refused.0 ≡ Refusal.DeviceFault → Rises (D.failure_count disk) (D.failure_count refused.1)) }
    ensures later { MatchResult result (λ living. D.failure_count disk ≤ D.failure_count living.1) (λ refused. D.failure_count disk ≤ D.failure_count refused.1) }
{
    match Core::open(alloc, disk, Limits { history: 0 }) {
        Ok(core) => {
            let index = core.index();
            let lives = index.has_run_on(extent) || 0 < index.lives_on(extent);
            Ok((lives, core.into_disk()))
        }
        Err(refused) => Err(refused),
    }
}

/// The row of an extent of so many pages that is left out.
fn leave_row(rows: &mut [(u16, u32)], place: usize, pages: u16, lives: bool)
    requires { place < length rows.old }
    ensures { rows.new ≡ left_out_rows pages lives place rows.old }
{
    let generation = if lives { rows[place].1 } else { u32::MAX };
    rows[place] = (pages, generation);
}

/// The section one version later, with the row at a place so.
fn left_out(superblock: Superblock, place: usize, lives: bool) -> Superblock
    requires version { superblock.version < 2 ^ 63 }
    requires place { place < length superblock.extents.items }
    ensures { HasRowLeftOut superblock place lives result }
{
    let mut superblock = superblock;
    superblock.version += 1;
    let pages = superblock.pages;
    leave_row(&mut superblock.extents, place, pages, lives);
    superblock
}

/// The page that leaves an extent out, by the page of its section.
fn find_crossing<D: PageDisk>(
    alloc: Global,
    disk: &mut D,
    geometry: Geometry,
    extent: u16,
    lives: bool,
) -> Result<[u8; 4096], Refusal>
    requires geometry { IsGeometry geometry.format geometry.extents geometry.pages geometry.sections }
    requires twins { twins_in geometry.format ≡ true }
    requires sized { pages_of geometry ≡ D.page_count disk.old }
    requires extent { extent < geometry.extents }
    ensures crossing { D.honest disk.old → IfOk result (IsCrossingPage geometry extent lives (seen (D.state disk.old))) }
    ensures why { D.honest disk.old → 0 < section_version geometry ((store_shape geometry).section extent) (page (seen (D.state disk.old)) (row_page geometry extent))
        → IfErr result (λ r. IsNoAnswer r ⊎ ((r ≡ Refusal.WornOut) × IsRowWorn geometry extent (seen (D.state disk.old)))) }
    ensures number { IfErr result (λ r. IsOpeningRefusal r ⊎ (r ≡ Refusal.WornOut)) }
    ensures disk { OnlyReads D.PageDisk disk.old disk.new }
    ensures cause { IsCaused (D.failure_count disk.old) (D.failure_count disk.new) result }
{
    let section = geometry.section_of(extent);
    let superblock = match read_section(alloc, disk, geometry.section_page(section)) {
        Ok(superblock) => superblock,
        Err(refusal) => return Err(refusal),
    };
    if !is_of(&superblock, geometry, u64::from(section)) {
        return Err(Refusal::NotAStore);
    }
    if superblock.version >= LAST_VERSION {
        return Err(Refusal::WornOut);
    }
    let place = usize::from(extent) - geometry.section_start(section);
    Ok(encode_superblock(&left_out(superblock, place, lives)))
}

/// Writes the section of an extent anew with the extent's row so, and flushes.
fn cross_out<D: PageDisk>(
    alloc: Global,
    disk: &mut D,
    geometry: Geometry,
    extent: u16,
    lives: bool,
) -> Result<(), Refusal>
    requires geometry { IsGeometry geometry.format geometry.extents geometry.pages geometry.sections }
    requires twins { twins_in geometry.format ≡ true }
    requires sized { pages_of geometry ≡ D.page_count disk.old }
    requires extent { extent < geometry.extents }
    ensures crossed { D.honest disk.old → OnOk result (IsCrossed geometry extent lives (D.state disk.old) (D.state disk.new)) }
    ensures refused { D.honest disk.old → OnErr result ((D.state disk.new ≡ D.state disk.old) ⊎ IsCrossing geometry extent lives (D.state disk.old) (D.state disk.new)) }
    ensures crash { D.honest disk.old → LeavesOnly D.moment D.left_since disk.old disk.new (LeavesCrossing geometry extent lives (D.state disk.old)) }
    ensures calls { D.honest disk.old → MatchResult result (λ _. D.moment disk.new ≡ D.moment disk.old + 2) (λ _. D.moment disk.new ≤ D.moment disk.old + 2) }
    ensures why { D.honest disk.old → 0 < section_version geometry ((store_shape geometry).section extent) (page (seen (D.state disk.old)) (row_page geometry extent))
        → IfErr result (λ r. IsNoAnswer r ⊎ ((r ≡ Refusal.WornOut) × IsRowWorn geometry extent (seen (D.state disk.old)))) }
    ensures number { IfErr result (λ r. IsOpeningRefusal r ⊎ (r ≡ Refusal.WornOut)) }
    ensures honest { D.honest disk.old ↔ D.honest disk.new }
    ensures pages { D.page_count disk.new ≡ D.page_count disk.old }
    ensures cause { IsCaused (D.failure_count disk.old) (D.failure_count disk.new) result }
{
    let number = geometry.section_page(geometry.section_of(extent));
    match find_crossing(alloc, disk, geometry, extent, lives) {
        Ok(bytes) => match write_through(disk, number, &bytes) {
            Ok(()) => Ok(()),
            Err(fault) => Err(refusal_of_disk(fault)),
        },
        Err(refusal) => Err(refusal),
    }
}

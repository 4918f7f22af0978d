//! How a new store is laid on its disk: both halves of each pair, those of section 0 last.
ghost use Rattle.std.specs.Prelude.{◌-◌, ◌<◌, ◌≡◌, ◌≤◌, ◌↔◌, [], ◌∷◌, OnOk, replicate, true};
ghost use Rattle.cs_disk.specs.Disk.{HasCause, Leaves, LeavesOnly, flushed};
ghost use Rattle.cs_frame.specs.Geometries.{IsGeometry};
ghost use Rattle.law_machine.specs.Geometry.{twins_in};
ghost use Rattle.cs_mount.specs.Makings.{LeavesLaying, LeavesSome, after_writes, both_halves, clearing, halves_up_to, laid, pair_of_section};
ghost use Rattle.cs_mount.specs.StorePairs.{pages_of};

use crate::store_pairs::store_pair;
use cs_disk::{DiskFault, PageDisk};
use cs_frame::{Geometry, Root, encode_root, encode_section};
use std::alloc::Global;

/// Writes these bytes to one page and then to another.
fn write_two<D: PageDisk>(
    disk: &mut D,
    first: u64,
    second: u64,
    bytes: &[u8; 4096],
) -> Result<(), DiskFault>
    requires first { first < D.page_count disk.old }
    requires second { second < D.page_count disk.old }
    ensures written { D.honest disk.old → OnOk result (D.state disk.new ≡ after_writes (D.state disk.old) ((first, bytes.now) ∷ (second, bytes.now) ∷ [])) }
    ensures some { D.honest disk.old → LeavesSome D.PageDisk disk.old disk.new ((first, bytes.now) ∷ (second, bytes.now) ∷ []) }
    ensures honest { D.honest disk.old ↔ D.honest disk.new }
    ensures pages { D.page_count disk.new ≡ D.page_count disk.old }
    ensures cause { HasCause (D.failure_count disk.old) (D.failure_count disk.new) result }
{
    match disk.write(first, bytes) {
        Ok(()) => disk.write(second, bytes),
        Err(fault) => Err(fault),
    }
}

/// At which place the pair of a section is.
fn pair_of_section(section: u8) -> u64
    ensures { result ≡ pair_of_section section }
{
    if section == 0 {
        0
    } else {
        u64::from(section) + 1
    }
}

/// Writes a section of a new store's superblock to both its pages.
fn write_section<D: PageDisk>(
    alloc: Global,
    disk: &mut D,
    geometry: Geometry,
    section: u8,
) -> Result<(), DiskFault>
    requires geometry { IsGeometry geometry.format geometry.extents geometry.pages geometry.sections }
    requires twins { twins_in geometry.format ≡ true }
    requires sized { pages_of geometry ≡ D.page_count disk.old }
    requires section { section < geometry.sections }
    ensures written { D.honest disk.old → OnOk result (D.state disk.new ≡ after_writes (D.state disk.old) (both_halves geometry (pair_of_section section))) }
    ensures some { D.honest disk.old → LeavesSome D.PageDisk disk.old disk.new (both_halves geometry (pair_of_section section)) }
    ensures honest { D.honest disk.old ↔ D.honest disk.new }
    ensures pages { D.page_count disk.new ≡ D.page_count disk.old }
    ensures cause { HasCause (D.failure_count disk.old) (D.failure_count disk.new) result }
{
    let Ok(rows) = vec![in alloc; (0, 0); geometry.section_length(section)] else {
        return Err(DiskFault::OutOfMemory);
    };
    let bytes = encode_section(1, 0, geometry, section, &rows);
    let pair = store_pair(geometry, pair_of_section(section));
    write_two(disk, pair.page, pair.twin, &bytes)
}

/// Writes a new store's root to both its pages.
fn write_root<D: PageDisk>(alloc: Global, disk: &mut D, geometry: Geometry) -> Result<(), DiskFault>
    requires geometry { IsGeometry geometry.format geometry.extents geometry.pages geometry.sections }
    requires twins { twins_in geometry.format ≡ true }
    requires sized { pages_of geometry ≡ D.page_count disk.old }
    ensures written { D.honest disk.old → OnOk result (D.state disk.new ≡ after_writes (D.state disk.old) (both_halves geometry 1)) }
    ensures some { D.honest disk.old → LeavesSome D.PageDisk disk.old disk.new (both_halves geometry 1) }
    ensures honest { D.honest disk.old ↔ D.honest disk.new }
    ensures pages { D.page_count disk.new ≡ D.page_count disk.old }
    ensures cause { HasCause (D.failure_count disk.old) (D.failure_count disk.new) result }
{
    let root = Root {
        store: geometry.format().store(),
        version: 1,
        commands: 0,
        runs: Vec::new(alloc),
    };
    let bytes = encode_root(&root);
    let pair = store_pair(geometry, 1);
    write_two(disk, pair.page, pair.twin, &bytes)
}

/// Writes a new store's root and its sections from 1 on, each to both its pages.
fn write_others<D: PageDisk>(
    alloc: Global,
    disk: &mut D,
    geometry: Geometry,
) -> Result<(), DiskFault>
    requires geometry { IsGeometry geometry.format geometry.extents geometry.pages geometry.sections }
    requires twins { twins_in geometry.format ≡ true }
    requires sized { pages_of geometry ≡ D.page_count disk.old }
    ensures written { D.honest disk.old → OnOk result (D.state disk.new ≡ after_writes (D.state disk.old) (halves_up_to geometry geometry.sections)) }
    ensures some { D.honest disk.old → LeavesSome D.PageDisk disk.old disk.new (halves_up_to geometry geometry.sections) }
    ensures honest { D.honest disk.old ↔ D.honest disk.new }
    ensures pages { D.page_count disk.new ≡ D.page_count disk.old }
    ensures cause { HasCause (D.failure_count disk.old) (D.failure_count disk.new) result }
{
    match write_root(alloc, disk, geometry) {
        Ok(()) => {}
        Err(fault) => return Err(fault),
    }
    for section in 1..geometry.sections() {
        match write_section(alloc, disk, geometry, section) {
            Ok(()) => {}
            Err(fault) => return Err(fault),
        }
    }
    Ok(())
}

/// Writes zeros to page 0 and to the last page, and flushes.
fn clear<D: PageDisk>(disk: &mut D, geometry: Geometry) -> Result<(), DiskFault>
    requires geometry { IsGeometry geometry.format geometry.extents geometry.pages geometry.sections }
    requires twins { twins_in geometry.format ≡ true }
    requires sized { pages_of geometry ≡ D.page_count disk.old }
    ensures made { D.honest disk.old → OnOk result (D.state disk.new ≡ flushed (after_writes (D.state disk.old) (clearing geometry))) }
    ensures some { D.honest disk.old → LeavesSome D.PageDisk disk.old disk.new (clearing geometry) }
    ensures honest { D.honest disk.old ↔ D.honest disk.new }
    ensures pages { D.page_count disk.new ≡ D.page_count disk.old }
    ensures cause { HasCause (D.failure_count disk.old) (D.failure_count disk.new) result }
{
    let last = geometry.device_pages() - 1;
    match write_two(disk, 0, last, &[0; 4096]) {
        Ok(()) => disk.flush(),
        Err(fault) => Err(fault),
    }
}

/// Writes a new store's root and its sections from 1 on, and flushes.
fn lay_others<D: PageDisk>(alloc: Global, disk: &mut D, geometry: Geometry) -> Result<(), DiskFault>
    requires geometry { IsGeometry geometry.format geometry.extents geometry.pages geometry.sections }
    requires twins { twins_in geometry.format ≡ true }
    requires sized { pages_of geometry ≡ D.page_count disk.old }
    ensures made { D.honest disk.old → OnOk result (D.state disk.new ≡ flushed (after_writes (D.state disk.old) (halves_up_to geometry geometry.sections))) }
    ensures some { D.honest disk.old → LeavesSome D.PageDisk disk.old disk.new (halves_up_to geometry geometry.sections) }
    ensures honest { D.honest disk.old ↔ D.honest disk.new }
    ensures pages { D.page_count disk.new ≡ D.page_count disk.old }
    ensures cause { HasCause (D.failure_count disk.old) (D.failure_count disk.new) result }
{
    match write_others(alloc, disk, geometry) {
        Ok(()) => disk.flush(),
        Err(fault) => Err(fault),
    }
}

/// Writes a new store's section 0, and flushes.
fn lay_first<D: PageDisk>(alloc: Global, disk: &mut D, geometry: Geometry) -> Result<(), DiskFault>
    requires geometry { IsGeometry geometry.format geometry.extents geometry.pages geometry.sections }
    requires twins { twins_in geometry.format ≡ true }
    requires sized { pages_of geometry ≡ D.page_count disk.old }
    ensures made { D.honest disk.old → OnOk result (D.state disk.new ≡ flushed (after_writes (D.state disk.old) (both_halves geometry 0))) }
    ensures some { D.honest disk.old → LeavesSome D.PageDisk disk.old disk.new (both_halves geometry 0) }
    ensures honest { D.honest disk.old ↔ D.honest disk.new }
    ensures pages { D.page_count disk.new ≡ D.page_count disk.old }
    ensures cause { HasCause (D.failure_count disk.old) (D.failure_count disk.new) result }
{
    match write_section(alloc, disk, geometry, 0) {
        Ok(()) => disk.flush(),
        Err(fault) => Err(fault),
    }
}

/// Lays a new store on a disk that has its pages, whatever they hold. It takes three steps, with a flush at the end of
/// each:
/// 1. zeros on page 0 and on the last page, so that no store is found;
/// 2. both pages of the root, and of each section but the first;
/// 3. both pages of section 0.
///
/// Refused 1 DeviceFault, and 9 OutOfMemory. A crash or a refusal leaves no store, or the new one. Before the first
/// flush it may leave what was there. `a_crash_of_a_making` says so of the clause `crash`.
pub fn lay_store<D: PageDisk>(
    alloc: Global,
    disk: &mut D,
    geometry: Geometry,
) -> Result<(), DiskFault>
    requires geometry { IsGeometry geometry.format geometry.extents geometry.pages geometry.sections }
    requires twins { twins_in geometry.format ≡ true }
    requires sized { pages_of geometry ≡ D.page_count disk.old }
    ensures laid { D.honest disk.old → OnOk result (D.state disk.new ≡ laid geometry (D.state disk.old)) }
    ensures crash { D.honest disk.old → LeavesOnly D.moment D.left_since disk.old disk.new (LeavesLaying geometry (D.state disk.old)) }
    // So does one after it.
    ensures left { D.honest disk.old → Leaves (D.state disk.new) (LeavesLaying geometry (D.state disk.old)) }
    ensures honest { D.honest disk.old ↔ D.honest disk.new }
    ensures pages { D.page_count disk.new ≡ D.page_count disk.old }
    ensures cause { HasCause (D.failure_count disk.old) (D.failure_count disk.new) result }
{
    match clear(disk, geometry) {
        Ok(()) => {}
        Err(fault) => return Err(fault),
    }
    match lay_others(alloc, disk, geometry) {
        Ok(()) => lay_first(alloc, disk, geometry),
        Err(fault) => Err(fault),
    }
}

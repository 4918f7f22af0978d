//! Pages that are filled with fences, and what shows of pairs of which one half is hidden or a fence.
ghost use Rattle.std.specs.Prelude.{◌↔◌, ◌≡◌, ◌<◌, Bool, List, OnOk, Some, false, if◌then◌else◌, length, not, slice_get, true, ℕ};
ghost use Rattle.cs_disk.specs.Disk.{HasCause, Image, Leaves, LeavesOnly, MayLeave, State, flushed, page, seen};
ghost use Rattle.cs_frame.specs.Geometries.{Dimensions, IsGeometry};
ghost use Rattle.cs_mount.specs.Hidden.{is_among, without_hidden};
ghost use Rattle.cs_mount.specs.Makings.{LeavesSome, after_writes};
ghost use Rattle.cs_mount.specs.Showing.{shown_of};
ghost use Rattle.cs_mount.specs.StorePairs.{pages_of, store_pairs, store_version};
ghost use Rattle.cs_mount.specs.Unreadable.{LeavesFenced, fences_on};
ghost use Rattle.cs_twin.specs.Pairs.{fence, half, version_at};
ghost use Rattle.cs_twin.specs.declared.pairs.Pair.{Pair};

use cs_disk::{DiskFault, PageDisk};

/// Writes a fence over each of these pages.
fn write_fences<D: PageDisk>(disk: &mut D, pages: &[u64]) -> Result<(), DiskFault>
    requires { (p : ℕ) → is_among pages.now p ≡ true → p < D.page_count disk.old }
    ensures written { D.honest disk.old → OnOk result (D.state disk.new ≡ after_writes (D.state disk.old) (fences_on pages.now)) }
    ensures some { D.honest disk.old → LeavesSome D.PageDisk disk.old disk.new (fences_on pages.now) }
    ensures honest { D.honest disk.old ↔ D.honest disk.new }
    ensures pages { D.page_count disk.new ≡ D.page_count disk.old }
    ensures cause { HasCause (D.failure_count disk.old) (D.failure_count disk.new) result }
{
    let fence = [255; 4096];
    for number in pages {
        match disk.write(*number, &fence) {
            Ok(()) => {}
            Err(fault) => return Err(fault),
        }
    }
    Ok(())
}

/// Fills each of these pages of a device with bytes of 255, a fence, and flushes. A fence is whole as no page of a
/// store, so an opening passes it over. It is for halves of pairs that can't be read, which `unreadable_halves` finds,
/// if their loss is accepted. What such a half held can't come back then. No store may be open on the device.
///
/// Refused 1 DeviceFault, and 9 OutOfMemory. Some of the pages may be filled then, and no other page is written. A
/// crash leaves the same: `a_crash_of_fences` says so of the clauses `crash` and `left`.
pub fn fence_pages<D: PageDisk>(disk: &mut D, pages: &[u64]) -> Result<(), DiskFault>
    requires { (p : ℕ) → is_among pages.now p ≡ true → p < D.page_count disk.old }
    // They are filled, and all is durable: `pages_are_fenced` says what each page holds.
    ensures fenced { D.honest disk.old → OnOk result (D.state disk.new ≡ flushed (after_writes (D.state disk.old) (fences_on pages.now))) }
    // A crash meanwhile leaves some of these fences.
    ensures crash { D.honest disk.old → LeavesOnly D.moment D.left_since disk.old disk.new (MayLeave (after_writes (D.state disk.old) (fences_on pages.now))) }
    // So does one after it, also if it was refused.
    ensures left { D.honest disk.old → Leaves (D.state disk.new) (MayLeave (after_writes (D.state disk.old) (fences_on pages.now))) }
    // What is read after a refusal is some of them too.
    ensures seen { D.honest disk.old → MayLeave (after_writes (D.state disk.old) (fences_on pages.now)) (seen (D.state disk.new)) }
    ensures honest { D.honest disk.old ↔ D.honest disk.new }
    ensures pages { D.page_count disk.new ≡ D.page_count disk.old }
    ensures cause { HasCause (D.failure_count disk.old) (D.failure_count disk.new) result }
{
    match write_fences(disk, pages) {
        Ok(()) => disk.flush(),
        Err(fault) => Err(fault),
    }
}

/// After `fence_pages` these pages are fences, and each other page holds what was read of it before.
pub fn pages_are_fenced()
    ensures { (s : State) (pages : List ℕ) (p : ℕ) → p < length s.durable → page (flushed (after_writes s (fences_on pages))).durable p ≡ (if is_among pages p then fence else page (seen s) p) }
{}

/// A crash within `fence_pages` leaves what one before might have left, but that some of these pages are fences.
pub fn a_crash_of_fences()
    ensures { (s : State) (pages : List ℕ) (left : Image) → MayLeave (after_writes s (fences_on pages)) left → LeavesFenced pages s left }
{}

/// If one half of a pair isn't whole, as it is hidden or a fence, what shows of the pair is the other half, if that is
/// whole.
pub fn the_other_half_shows()
    ensures half { (d : Dimensions) (image : Image) (k : ℕ) (x : Pair) (twin : Bool) → IsGeometry d.format d.extents d.pages d.sections → length image ≡ pages_of d → slice_get (store_pairs d) k ≡ Some x
        → version_at (store_version (Some d)) image x twin ≡ 0 → 0 < version_at (store_version (Some d)) image x (not twin) → page (shown_of d image) x.page ≡ page image (half x (not twin)) }
    ensures hidden { (d : Dimensions) (image : Image) (hidden : List ℕ) (k : ℕ) (x : Pair) (twin : Bool) → IsGeometry d.format d.extents d.pages d.sections → length image ≡ pages_of d → slice_get (store_pairs d) k ≡ Some x
        → is_among hidden (half x twin) ≡ true → is_among hidden (half x (not twin)) ≡ false → 0 < version_at (store_version (Some d)) image x (not twin)
        → page (shown_of d (without_hidden hidden image)) x.page ≡ page image (half x (not twin)) }
    ensures fenced { (d : Dimensions) (image : Image) (k : ℕ) (x : Pair) (twin : Bool) → IsGeometry d.format d.extents d.pages d.sections → length image ≡ pages_of d → slice_get (store_pairs d) k ≡ Some x
        → page image (half x twin) ≡ fence → 0 < version_at (store_version (Some d)) image x (not twin) → page (shown_of d image) x.page ≡ page image (half x (not twin)) }
{}

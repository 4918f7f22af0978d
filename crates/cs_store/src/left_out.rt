//! Stores of which an extent is left out, since its pages can't be written.
ghost use Rattle.std.specs.Prelude.{◌<◌, ◌↔◌, ◌≡◌, ◌≤◌, ◌⊎◌, Err, IfErr, IfOk, MatchResult, [], false, true, ℕ};
ghost use Rattle.cs_disk.specs.Disk.{LeavesOnly, Rises, page, seen};
ghost use Rattle.cs_extent.specs.State.{shape};
ghost use Rattle.cs_frame.specs.Formats.{formats_of};
ghost use Rattle.cs_mount.specs.LeftOut.{IsAtRest, IsLeftOut, IsRowWorn, LeavesTheMap, NoneDamagedOn};
ghost use Rattle.cs_reader.specs.Openings.{IsOpeningRefusal};
ghost use Rattle.cs_store.specs.LeftOut.{IsWhyNotLeftOut, dimensions_in};
ghost use Rattle.cs_store.specs.Maps.{HasMap};
ghost use Rattle.cs_twin.specs.Paired.{disk_below, failures_of, left_as_shown, moment_of, state_shown};
ghost use Rattle.law_machine.specs.Element.{Map};
ghost use Rattle.law_machine.specs.Geometry.{twins_in};
ghost use Rattle.law_machine.specs.Recovery.{Recovers};

use crate::stores::Store;
use cs_disk::PageDisk;
use cs_mount::the_core::{Core, Limits};
use cs_mount::{Mounted, leave_out};
use cs_refusal::Refusal;
use std::alloc::Global;

/// Closes a store at rest with an extent left out, and opens it again.
fn open_without<D: PageDisk + Drop>(
    alloc: Global,
    core: Core<Mounted<D>>,
    extent: usize,
) -> Result<Core<Mounted<D>>, (Refusal, Mounted<D>)>
    requires { twins_in core.store.extents.format ≡ true }
    ensures new { IfOk result (λ left. (left.history ≡ []) × (left.limit ≡ core.limit) × (left.store.accepted ≡ 0)) }
    ensures left_out { D.honest (disk_below core.disk) → (n : ℕ) (m : Map) (found : Recovers (shape core.store.extents) (formats_of (shape core.store.extents)) (page (seen (state_shown core.disk))) n m)
        → IfOk result (λ left. IsLeftOut (dimensions_in (shape core.store.extents)) extent found.runs (seen (state_shown core.disk)) left.opened) }
    ensures map { D.honest (disk_below core.disk) → (n : ℕ) (m : Map) (found : Recovers (shape core.store.extents) (formats_of (shape core.store.extents)) (page (seen (state_shown core.disk))) n m)
        → NoneDamagedOn (shape core.store.extents) (formats_of (shape core.store.extents)) (seen (state_shown core.disk)) found.runs found.pointers found.generations extent
        → IfOk result (λ left. (shape left.store.extents ≡ shape core.store.extents) × (left.found.0 ≡ n) × HasMap left m) }
    ensures keeps { D.honest (disk_below core.disk) → (n : ℕ) (m : Map) (found : Recovers (shape core.store.extents) (formats_of (shape core.store.extents)) (page (seen (state_shown core.disk))) n m)
        → NoneDamagedOn (shape core.store.extents) (formats_of (shape core.store.extents)) (seen (state_shown core.disk)) found.runs found.pointers found.generations extent
        → MatchResult result (λ left. LeavesOnly moment_of left_as_shown core.disk left.disk (LeavesTheMap (state_shown core.disk) (shape core.store.extents) n m)) (λ refused. LeavesOnly moment_of left_as_shown core.disk refused.1 (LeavesTheMap (state_shown core.disk) (shape core.store.extents) n m)) }
    ensures why { D.honest (disk_below core.disk) → (n : ℕ) (m : Map) (found : Recovers (shape core.store.extents) (formats_of (shape core.store.extents)) (page (seen (state_shown core.disk))) n m)
        → NoneDamagedOn (shape core.store.extents) (formats_of (shape core.store.extents)) (seen (state_shown core.disk)) found.runs found.pointers found.generations extent → IfErr result (λ refused. IsWhyNotLeftOut refused.0) }
    ensures there { IfErr result (λ refused. refused.0 ≡ Refusal.NotSweepable → (shape core.store.extents).extents ≤ extent) }
    ensures waits { ¬ IsAtRest core.store → result ≡ Err (Refusal.Unsettled, core.disk) }
    ensures rests { IfErr result (λ refused. refused.0 ≡ Refusal.Unsettled → ¬ IsAtRest core.store) }
    ensures worn { D.honest (disk_below core.disk) → (n : ℕ) (m : Map) → Recovers (shape core.store.extents) (formats_of (shape core.store.extents)) (page (seen (state_shown core.disk))) n m
        → IfErr result (λ refused. refused.0 ≡ Refusal.WornOut → IsRowWorn (dimensions_in (shape core.store.extents)) extent (seen (state_shown core.disk))) }
    ensures number { IfErr result (λ refused. IsOpeningRefusal refused.0 ⊎ (refused.0 ≡ Refusal.WornOut) ⊎ (refused.0 ≡ Refusal.NotSweepable) ⊎ (refused.0 ≡ Refusal.Unsettled)) }
    ensures cause { IfErr result (λ refused. refused.0 ≡ Refusal.DeviceFault → Rises (failures_of core.disk) (failures_of refused.1)) }
    ensures honest { MatchResult result (λ left. D.honest (disk_below core.disk) ↔ D.honest (disk_below left.disk)) (λ refused. D.honest (disk_below core.disk) ↔ D.honest (disk_below refused.1)) }
    ensures pages { MatchResult result (λ left. D.page_count (disk_below left.disk) ≡ D.page_count (disk_below core.disk)) (λ refused. D.page_count (disk_below refused.1) ≡ D.page_count (disk_below core.disk)) }
{
    // Called for its contract alone: what every core keeps.
    core.progress();
    let limits = Limits {
        history: core.limit(),
    };
    match leave_out(alloc, core, extent) {
        Ok(disk) => match Core::open(alloc, disk, limits) {
            Ok(left) => Ok(left),
            Err(refused) => Err(refused),
        },
        Err(refused) => Err(refused),
    }
}

impl<D: PageDisk + Drop> Store<Mounted<D>> {
    /// Leaves an extent out, for example since writes fail there: nothing is put or copied there any more. The store is
    /// closed with the extent's row in the superblock written anew, and opened again. No page of the extent is written,
    /// and what lives there is read as ever. Sync first: what waits is refused 44.
    ///
    /// If nothing lives there, `first_on` gives None, and the extent is never written again. Else it is full. Then
    /// `sweep` moves away what lives there, and reports what can't be moved. After that sync, and call this again: else
    /// the extent is emptied once nothing lives there, and written again. Runs of the index can't be moved. Later syncs
    /// replace them, so call this again at the next opening. There is no call that takes an extent in again.
    ///
    /// A failed write halts a store, so open it anew before this. The numbers of commands begin at 1 again, and
    /// `findings` and `made_sections` are empty.
    ///
    /// If the call is refused, it returns the disk. Refused 33 NotSweepable if there is no such extent, or if the store
    /// is of an older format: then nothing is asked of the disk. Refused 44 Unsettled if something waits, a round is
    /// out, or there is something to stage a root for. Refused 35 WornOut if the section of the superblock has the last
    /// version. The other refusals are those of `open`.
    pub fn leave_out(self, extent: usize) -> Result<Self, (Refusal, Mounted<D>)>
        // In the older formats, and if there is no such extent, it is refused 33, and only then.
        ensures older { twins_in self.store.extents.format ≡ false → result ≡ Err (Refusal.NotSweepable, self.disk) }
        ensures missing { (shape self.store.extents).extents ≤ extent → result ≡ Err (Refusal.NotSweepable, self.disk) }
        ensures there { IfErr result (λ refused. refused.0 ≡ Refusal.NotSweepable → (twins_in self.store.extents.format ≡ false) ⊎ ((shape self.store.extents).extents ≤ extent)) }
        // Else it is refused 44 exactly if the store isn't at rest, and the disk comes back as it is.
        ensures waits { twins_in self.store.extents.format ≡ true → extent < (shape self.store.extents).extents → ¬ IsAtRest self.store → result ≡ Err (Refusal.Unsettled, self.disk) }
        ensures rests { IfErr result (λ refused. refused.0 ≡ Refusal.Unsettled → ¬ IsAtRest self.store) }
        ensures new { IfOk result (λ left. (left.history ≡ []) × (left.limit ≡ self.limit) × (left.store.accepted ≡ 0)) }
        // It was opened on what the disk showed, with the extent left out: `an_extent_left_out_is_full` of cs_mount.
        ensures left_out { D.honest (disk_below self.disk) → (n : ℕ) (m : Map) (found : Recovers (shape self.store.extents) (formats_of (shape self.store.extents)) (page (seen (state_shown self.disk))) n m)
            → IfOk result (λ left. IsLeftOut (dimensions_in (shape self.store.extents)) extent found.runs (seen (state_shown self.disk)) left.opened) }
        // It has the same map, if no live chunk on the extent is damaged.
        ensures map { D.honest (disk_below self.disk) → (n : ℕ) (m : Map) (found : Recovers (shape self.store.extents) (formats_of (shape self.store.extents)) (page (seen (state_shown self.disk))) n m) → NoneDamagedOn (shape self.store.extents) (formats_of (shape self.store.extents)) (seen (state_shown self.disk)) found.runs found.pointers found.generations extent
            → IfOk result (λ left. (shape left.store.extents ≡ shape self.store.extents) × (left.found.0 ≡ n) × HasMap left m) }
        // A crash meanwhile leaves what one before might have left, or that map.
        ensures keeps { D.honest (disk_below self.disk) → (n : ℕ) (m : Map) (found : Recovers (shape self.store.extents) (formats_of (shape self.store.extents)) (page (seen (state_shown self.disk))) n m) → NoneDamagedOn (shape self.store.extents) (formats_of (shape self.store.extents)) (seen (state_shown self.disk)) found.runs found.pointers found.generations extent
            → MatchResult result (λ left. LeavesOnly moment_of left_as_shown self.disk left.disk (LeavesTheMap (state_shown self.disk) (shape self.store.extents) n m)) (λ refused. LeavesOnly moment_of left_as_shown self.disk refused.1 (LeavesTheMap (state_shown self.disk) (shape self.store.extents) n m)) }
        ensures why { D.honest (disk_below self.disk) → (n : ℕ) (m : Map) (found : Recovers (shape self.store.extents) (formats_of (shape self.store.extents)) (page (seen (state_shown self.disk))) n m) → NoneDamagedOn (shape self.store.extents) (formats_of (shape self.store.extents)) (seen (state_shown self.disk)) found.runs found.pointers found.generations extent → IfErr result (λ refused. IsWhyNotLeftOut refused.0) }
        // It is refused 35 only if the section has the last version.
        ensures worn { D.honest (disk_below self.disk) → (n : ℕ) (m : Map) → Recovers (shape self.store.extents) (formats_of (shape self.store.extents)) (page (seen (state_shown self.disk))) n m
            → IfErr result (λ refused. refused.0 ≡ Refusal.WornOut → IsRowWorn (dimensions_in (shape self.store.extents)) extent (seen (state_shown self.disk))) }
        // Whatever the disk answers.
        ensures number { IfErr result (λ refused. IsOpeningRefusal refused.0 ⊎ (refused.0 ≡ Refusal.WornOut) ⊎ (refused.0 ≡ Refusal.NotSweepable) ⊎ (refused.0 ≡ Refusal.Unsettled)) }
        // After 1 the disk has counted a call that failed during this one.
        ensures cause { IfErr result (λ refused. refused.0 ≡ Refusal.DeviceFault → Rises (failures_of self.disk) (failures_of refused.1)) }
        ensures honest { MatchResult result (λ left. D.honest (disk_below self.disk) ↔ D.honest (disk_below left.disk)) (λ refused. D.honest (disk_below self.disk) ↔ D.honest (disk_below refused.1)) }
        ensures pages { MatchResult result (λ left. D.page_count (disk_below left.disk) ≡ D.page_count (disk_below self.disk)) (λ refused. D.page_count (disk_below refused.1) ≡ D.page_count (disk_below self.disk)) }
    {
        let geometry = self.geometry();
        if !geometry.format().has_twins() {
            let older = self.close();
            return Err((Refusal::NotSweepable, older));
        }
        if extent >= usize::from(geometry.extents()) {
            let missing = self.close();
            return Err((Refusal::NotSweepable, missing));
        }
        let alloc = self.alloc;
        let held = self.held;
        match open_without(alloc, self.into_core(), extent) {
            Ok(core) => Ok(Store {
                alloc,
                core,
                held,
                findings: Vec::new(alloc),
                made: Vec::new(alloc),
            }),
            Err(refused) => Err(refused),
        }
    }
}

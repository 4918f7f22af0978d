//! Stores of which a section of the superblock is lost: the root and its runs say enough to make it anew.
ghost use Rattle.std.specs.Prelude.{◌↔◌, ◌<◌, ◌≡◌, ◌≢◌, ◌≤◌, ◌⊎◌, Err, IfErr, IfOk, List, MatchResult, None, Some, [], map, true, ℕ};
ghost use Rattle.cs_chunk.specs.Reads.{IsCaused, IsNoAnswer};
ghost use Rattle.cs_core.specs.Openings.{IfStoreOn, IsOpened};
ghost use Rattle.cs_disk.specs.Disk.{Leaves, LeavesOnly, Write, page, seen};
ghost use Rattle.cs_disk.specs.Reads.{OnlyReads};
ghost use Rattle.cs_extent.specs.State.{shape};
ghost use Rattle.cs_frame.specs.Formats.{formats_of};
ghost use Rattle.cs_frame.specs.Geometries.{Dimensions};
ghost use Rattle.cs_mount.specs.MadeSections.{AreMadeOn, HasRoot, IsOneWorn};
ghost use Rattle.cs_mount.specs.RemadeDisks.{remade_below};
ghost use Rattle.cs_mount.specs.Remaking.{LeavesRemaking, remade};
ghost use Rattle.cs_mount.specs.StorePairs.{dimensions_on, store_shape};
ghost use Rattle.cs_reader.specs.Counts.{HasCount};
ghost use Rattle.cs_reader.specs.Openings.{IsOpeningRefusal};
ghost use Rattle.cs_store.specs.LostSections.{FailsThough, IsOpenedRemade, made_on};
ghost use Rattle.cs_store.specs.Maps.{HasMap};
ghost use Rattle.cs_twin.specs.Paired.{disk_below, state_shown};
ghost use Rattle.law_machine.specs.Device.{Page};
ghost use Rattle.law_machine.specs.Element.{Map};
ghost use Rattle.law_machine.specs.Recovery.{Recovers};

use crate::fences::refused_by;
use crate::options::OpenOptions;
use crate::stores::Store;
use cs_disk::PageDisk;
use cs_mount::{Finding, Mounted, Remade, made_sections, remake};
use cs_refusal::Refusal;
use std::alloc::{AllocError, Global};

/// Makes the sections of a store's superblock that are lost, from the root that shows and its runs (`made_sections` of
/// cs_mount), and writes them. Each page is filled with bytes of 255 first, and flushed. Then the section is written
/// there, and flushed. It is for a disk whose store an opening refuses 20 to 24 or 43. The store is opened as always
/// after it, with the map that it would have had (`made_sections_give_the_map`).
///
/// It returns which pages were written, and with what. If no section is lost, there are none, and the disk is only read.
///
/// Refused as an opening is by the root and its runs, and 35 WornOut if a section has the last version. Nothing is
/// written then. Refused 1 DeviceFault, and 9 OutOfMemory. Some of the pages may be fences then, or sections that were
/// made, so this can be done again. No other page is written.
pub fn ready_sections<D: PageDisk>(
    alloc: Global,
    disk: &mut D,
) -> Result<Vec<(u64, [u8; 4096])>, Refusal>
    requires some { 0 < D.page_count disk.old }
    ensures made { D.honest disk.old → IfOk result (λ made. AreMadeOn (D.page_count disk.old) (seen (D.state disk.old)) made.items) }
    ensures state { D.honest disk.old → IfOk result (λ made. D.state disk.new ≡ made_on made.items (D.state disk.old)) }
    // What is read then is what was read, with these sections.
    ensures seen { D.honest disk.old → IfOk result (λ made. seen (D.state disk.new) ≡ remade made.items (seen (D.state disk.old))) }
    ensures none { IfOk result (λ made. made.items ≡ [] → OnlyReads D.PageDisk disk.old disk.new) }
    // A crash meanwhile leaves some of the fences, or all of them and some of the sections.
    ensures crash { D.honest disk.old → IfOk result (λ made. LeavesOnly D.moment D.left_since disk.old disk.new (LeavesRemaking made.items (D.state disk.old))) }
    // So does one after a refusal, or nothing was written.
    ensures refused { D.honest disk.old → IfErr result (λ refusal. (D.state disk.new ≡ D.state disk.old)
        ⊎ (IsNoAnswer refusal × ((writes : List Write) × AreMadeOn (D.page_count disk.old) (seen (D.state disk.old)) writes × Leaves (D.state disk.new) (LeavesRemaking writes (D.state disk.old))))) }
    // If an image with other sections, and with this root and these pages of extents, recovers something, it is refused
    // for no other reason.
    ensures why { D.honest disk.old → (d : Dimensions) → dimensions_on (D.page_count disk.old) (seen (D.state disk.old)) ≡ Some d → (view : ℕ → Page) (n : ℕ) (m : Map) → Recovers (store_shape d) (formats_of (store_shape d)) view n m
        → HasRoot d (seen (D.state disk.old)) view → IfErr result (λ r. IsNoAnswer r ⊎ ((r ≡ Refusal.WornOut) × IsOneWorn d (seen (D.state disk.old)))) }
    ensures number { IfErr result (λ r. IsOpeningRefusal r ⊎ (r ≡ Refusal.WornOut)) }
    ensures honest { D.honest disk.old ↔ D.honest disk.new }
    ensures pages { D.page_count disk.new ≡ D.page_count disk.old }
    // 1 is an answer of the device.
    ensures cause { IsCaused (D.failure_count disk.old) (D.failure_count disk.new) result }
{
    let made = match made_sections(alloc, disk) {
        Ok(made) => made,
        Err(refusal) => return Err(refusal),
    };
    if made.is_empty() {
        return Ok(made);
    }
    match remake(disk, &made) {
        Ok(()) => Ok(made),
        Err(fault) => Err(refused_by(fault)),
    }
}

/// The pages of these sections.
fn pages_of(alloc: Global, made: &[(u64, [u8; 4096])]) -> Result<Vec<u64>, AllocError>
    ensures { IfOk result (λ pages. pages.items ≡ map (λ w. w.0) made.now) }
{
    let mut pages = Vec::with_capacity(alloc, made.len())?;
    for k in 0..made.len() {
        let entry = &made[k];
        pages.push_reserved(entry.0);
    }
    Ok(pages)
}

/// The sections of a disk that are made, and their pages.
fn read_made<D: PageDisk>(
    alloc: Global,
    disk: &mut D,
) -> Result<(Vec<(u64, [u8; 4096])>, Vec<u64>), Refusal>
    requires some { 0 < D.page_count disk.old }
    ensures made { D.honest disk.old → IfOk result (λ made. AreMadeOn (D.page_count disk.old) (seen (D.state disk.old)) made.0.items) }
    ensures told { IfOk result (λ made. made.1.items ≡ map (λ w. w.0) made.0.items) }
    ensures why { D.honest disk.old → (d : Dimensions) → dimensions_on (D.page_count disk.old) (seen (D.state disk.old)) ≡ Some d → (view : ℕ → Page) (n : ℕ) (m : Map) → Recovers (store_shape d) (formats_of (store_shape d)) view n m
        → HasRoot d (seen (D.state disk.old)) view → IfErr result (λ r. IsNoAnswer r ⊎ ((r ≡ Refusal.WornOut) × IsOneWorn d (seen (D.state disk.old)))) }
    ensures number { IfErr result (λ r. IsOpeningRefusal r ⊎ (r ≡ Refusal.WornOut)) }
    ensures disk { OnlyReads D.PageDisk disk.old disk.new }
{
    let made = match made_sections(alloc, disk) {
        Ok(made) => made,
        Err(refusal) => return Err(refusal),
    };
    match pages_of(alloc, &made) {
        Ok(pages) => Ok((made, pages)),
        Err(_) => Err(Refusal::OutOfMemory),
    }
}

impl OpenOptions {
    /// Opens the store on a disk as `open` does, with the sections of its superblock that are lost made from the root
    /// that shows and its runs (`made_sections` of cs_mount). It has the map that it would have had
    /// (`made_sections_give_the_map`). If no section is lost, it is what `open` does, but the runs are read twice. So it
    /// is for a disk whose store `open` refuses 20 to 24 or 43.
    ///
    /// It returns what the pages hold of which the store has two. The list at the end has the pages that hold no section
    /// any more, of each that was made. Nothing is written: the disk is read through a `Remade`, and a sync is refused 1
    /// DeviceFault. `ready_sections` writes these sections.
    ///
    /// If the call is refused, it returns the disk. The refusals are those of `open`, and 35 WornOut if a section has
    /// the last version.
    pub fn open_remade<D: PageDisk + Drop>(
        self,
        disk: D,
    ) -> Result<(Store<Mounted<Remade<D>>>, Vec<Finding>, Vec<u64>), (Refusal, D)>
        ensures new { IfOk result (λ opened. (opened.0.history ≡ []) × (opened.0.base ≡ 0) × (opened.0.limit ≡ self.limits.history)) }
        // What was opened is what the disk shows with these sections.
        ensures image { D.honest disk → IfOk result (λ opened. IsOpenedRemade (D.page_count disk) (seen (D.state disk)) opened.2.items opened.1.items opened.0.opened (state_shown opened.0.disk)) }
        ensures store { IfOk result (λ opened. IsOpened (D.honest disk) opened.0.opened opened.0.found opened.0.store) }
        // It has the map that shows then.
        ensures map { D.honest disk → IfOk result (λ opened. IfStoreOn (D.page_count disk) (page opened.0.opened)
            (λ S n m. (shape opened.0.store.extents ≡ S) × (opened.0.found.0 ≡ n) × HasCount (λ id. m id ≢ None) opened.0.found.1 × HasMap opened.0 m)) }
        // If an image with other sections, and with this root and these pages of extents, recovers something, it is
        // refused only by a test that fails with the lost sections made.
        ensures why { D.honest disk → 10 ≤ D.page_count disk → (d : Dimensions) → dimensions_on (D.page_count disk) (seen (D.state disk)) ≡ Some d → (view : ℕ → Page) (n : ℕ) (m : Map) → Recovers (store_shape d) (formats_of (store_shape d)) view n m
            → HasRoot d (seen (D.state disk)) view → IfErr result (λ refused. IsNoAnswer refused.0 ⊎ ((refused.0 ≡ Refusal.WornOut) × IsOneWorn d (seen (D.state disk))) ⊎ FailsThough (D.page_count disk) (seen (D.state disk)) refused.0) }
        ensures small { D.page_count disk < 10 → result ≡ Err (Refusal.NotAStore, disk) }
        ensures number { IfErr result (λ refused. IsOpeningRefusal refused.0 ⊎ (refused.0 ≡ Refusal.WornOut)) }
        ensures honest { MatchResult result (λ opened. D.honest disk ↔ D.honest (remade_below (disk_below opened.0.disk))) (λ refused. D.honest disk ↔ D.honest refused.1) }
        ensures pages { MatchResult result (λ opened. D.page_count (remade_below (disk_below opened.0.disk)) ≡ D.page_count disk) (λ refused. D.page_count refused.1 ≡ D.page_count disk) }
    {
        let mut disk = disk;
        if disk.pages() < 10 {
            return Err((Refusal::NotAStore, disk));
        }
        let (made, pages) = match read_made(self.alloc, &mut disk) {
            Ok(found) => found,
            Err(refusal) => return Err((refusal, disk)),
        };
        match self.open(Remade::new(disk, made)) {
            Ok((store, findings)) => Ok((store, findings, pages)),
            Err((refusal, shown)) => Err((refusal, shown.into_disk())),
        }
    }
}

/// Whether a refusal says nothing of sections: the device or the memory refused a call, or a page can't be read.
fn is_answer(refusal: Refusal) -> bool
    ensures { result ≡ true → IsNoAnswer refusal ⊎ (refusal ≡ Refusal.Unreadable) }
{
    match refusal {
        Refusal::DeviceFault | Refusal::OutOfMemory | Refusal::Unreadable => true,
        _ => false,
    }
}

/// Makes the sections that are lost, and writes them. Returns their pages.
fn write_made<D: PageDisk>(alloc: Global, disk: &mut D) -> Result<Vec<u64>, Refusal>
    requires some { 0 < D.page_count disk.old }
    ensures honest { D.honest disk.old ↔ D.honest disk.new }
{
    let made = match ready_sections(alloc, disk) {
        Ok(made) => made,
        Err(refusal) => return Err(refusal),
    };
    match pages_of(alloc, &made) {
        Ok(pages) => Ok(pages),
        Err(_) => Err(Refusal::OutOfMemory),
    }
}

impl OpenOptions {
    /// Opens the store on a disk by `open_to_write`. If that is refused and a section of the superblock is lost, it is
    /// made and written (`ready_sections`), and the store opened so. What was found, and the pages of the sections, are
    /// kept in the store.
    pub(crate) fn open_or_remake<D: PageDisk + Drop>(
        self,
        disk: D,
    ) -> Result<Store<Mounted<D>>, (Refusal, D)>
        ensures new { IfOk result (λ opened. (opened.history ≡ []) × (opened.base ≡ 0) × (opened.limit ≡ self.limits.history)) }
        ensures store { IfOk result (λ opened. IsOpened (D.honest disk) opened.opened opened.found opened.store) }
        ensures number { IfErr result (λ refused. IsOpeningRefusal refused.0 ⊎ (refused.0 ≡ Refusal.Unreadable)) }
    {
        let again = OpenOptions {
            alloc: self.alloc,
            limits: self.limits,
            geometry: self.geometry,
            loss: self.loss,
            reserve: self.reserve,
        };
        let unmade = Vec::new(self.alloc);
        match self.open_to_write(disk) {
            Ok((store, findings, _)) => Ok(store.noted(findings, unmade)),
            Err((refusal, disk)) => again.remake_and_open(refusal, disk),
        }
    }

    /// Makes the sections that are lost on a disk whose store wasn't opened for this reason, and opens it. If none is
    /// lost, it stays refused so.
    fn remake_and_open<D: PageDisk + Drop>(
        self,
        refusal: Refusal,
        disk: D,
    ) -> Result<Store<Mounted<D>>, (Refusal, D)>
        requires { IsOpeningRefusal refusal ⊎ (refusal ≡ Refusal.Unreadable) }
        ensures new { IfOk result (λ opened. (opened.history ≡ []) × (opened.base ≡ 0) × (opened.limit ≡ self.limits.history)) }
        ensures store { IfOk result (λ opened. IsOpened (D.honest disk) opened.opened opened.found opened.store) }
        ensures number { IfErr result (λ refused. IsOpeningRefusal refused.0 ⊎ (refused.0 ≡ Refusal.Unreadable)) }
    {
        let mut disk = disk;
        if is_answer(refusal) || disk.pages() == 0 {
            return Err((refusal, disk));
        }
        let pages = match write_made(self.alloc, &mut disk) {
            Ok(pages) => pages,
            Err(other) => return Err((if is_answer(other) { other } else { refusal }, disk)),
        };
        if pages.is_empty() {
            return Err((refusal, disk));
        }
        match self.open_to_write(disk) {
            Ok((store, findings, _)) => Ok(store.noted(findings, pages)),
            Err(refused) => Err(refused),
        }
    }
}

//! How new stores are made over disks in pairs: methods of `MountOptions`.
ghost use Rattle.std.specs.Prelude.{◌↔◌, ◌≡◌, ◌≢◌, ◌⊎◌, Err, IfErr, IfOk, MatchResult, None, OnOk, Some, [], true, false};
ghost use Rattle.cs_core.specs.Started.{IsNewOn, new_stored};
ghost use Rattle.cs_core.specs.cs_chunk.Reads.{IsNoAnswer};
ghost use Rattle.cs_core.specs.cs_extent.State.{shape};
ghost use Rattle.cs_disk.specs.Disk.{Image, Leaves, Rises, flushed, page, seen};
ghost use Rattle.cs_frame.specs.Formats.{formats_of};
ghost use Rattle.cs_frame.specs.Geometries.{IsGeometry, device_pages};
ghost use Rattle.cs_mount.specs.Looks.{IsTaken};
ghost use Rattle.law_machine.specs.Geometry.{twins_in};
ghost use Rattle.cs_mount.specs.Makings.{HoldsBoth, LeavesLaying};
ghost use Rattle.cs_mount.specs.OfStores.{IsOfStore};
ghost use Rattle.cs_mount.specs.StorePairs.{blank_disk, pages_of, store_pairs, store_version};
ghost use Rattle.cs_twin.specs.Paired.{disk_below, left_as_shown, state_shown};
ghost use Rattle.cs_twin.specs.Pairs.{ArePairs, Shows, shown_state};
ghost use Rattle.law_machine.specs.Recovery.{Recovers};

use crate::looks::is_taken;
use crate::makings::lay_store;
use crate::mount_options::{MountOptions, Mounted};
use crate::store_pairs::StoreRules;
use cs_core::Core;
use cs_disk::{MemoryDisk, PageDisk, refusal_of_disk};
use cs_frame::Geometry;
use cs_refusal::Refusal;
use cs_twin::{Pair, Paired};

/// The refusal of a making whose store isn't opened. Of an honest disk it is that of the opening. Such a disk opens
/// what was laid on it, unless the device refuses a call or memory runs out.
fn refusal_of_making(refusal: Refusal) -> Refusal
    ensures refusals { (result ≡ Refusal.DeviceFault) ⊎ (result ≡ Refusal.OutOfMemory) }
    ensures same { IsNoAnswer refusal → result ≡ refusal }
{
    match refusal {
        Refusal::OutOfMemory => Refusal::OutOfMemory,
        _ => Refusal::DeviceFault,
    }
}

/// Lays a new store on a disk, and opens it.
fn make_twice<D: PageDisk + Drop>(
    options: MountOptions,
    disk: D,
    geometry: Geometry,
) -> Result<Core<Mounted<D>>, (Refusal, D)>
    requires geometry { IsGeometry geometry.format geometry.extents geometry.pages geometry.sections }
    requires twins { twins_in geometry.format ≡ true }
    requires sized { pages_of geometry ≡ D.page_count disk }
    ensures new { IfOk result (λ core. (core.history ≡ []) × (core.base ≡ 0) × (core.limit ≡ options.history)) }
    ensures store { D.honest disk → IfOk result (λ core. core.store ≡ new_stored geometry.format geometry.extents geometry.pages geometry.sections) }
    ensures found { D.honest disk → IfOk result (λ core. core.found ≡ (0, 0)) }
    ensures start { D.honest disk → IfOk result (λ core. Recovers (shape core.store.extents) (formats_of (shape core.store.extents)) (page core.opened) 0 (λ id. None)) }
    ensures written { D.honest disk → IfOk result (λ core. IsNewOn geometry.format geometry.extents geometry.pages geometry.sections (shown_state (store_version (Some geometry)) (store_pairs geometry) (flushed (D.state disk))) (state_shown core.disk)) }
    ensures pages { MatchResult result (λ core. D.page_count (disk_below core.disk) ≡ D.page_count disk) (λ refused. D.page_count refused.1 ≡ D.page_count disk) }
    ensures honest { MatchResult result (λ core. D.honest disk ↔ D.honest (disk_below core.disk)) (λ refused. D.honest disk ↔ D.honest refused.1) }
    ensures refusals { IfErr result (λ refused. (refused.0 ≡ Refusal.DeviceFault) ⊎ (refused.0 ≡ Refusal.OutOfMemory)) }
    ensures cause { D.honest disk → IfErr result (λ refused. refused.0 ≡ Refusal.DeviceFault → Rises (D.failure_count disk) (D.failure_count refused.1)) }
    ensures both { D.honest disk → IfOk result (λ core. HoldsBoth geometry (D.state (disk_below core.disk))) }
    ensures crash { D.honest disk → IfOk result (λ core. (left : Image) → left_as_shown core.disk (D.moment disk) left → Shows (store_version (Some geometry)) (store_pairs geometry) (LeavesLaying geometry (D.state disk)) left) }
    ensures left { D.honest disk → IfErr result (λ refused. Leaves (D.state refused.1) (LeavesLaying geometry (D.state disk))) }
{
    let mut disk = disk;
    match lay_store(options.alloc, &mut disk, geometry) {
        Ok(()) => {}
        Err(fault) => return Err((refusal_of_disk(fault), disk)),
    }
    match options.open(disk) {
        Ok((core, _)) => {
            // Called for its contract alone: what every core keeps.
            core.progress();
            Ok(core)
        }
        Err((refusal, disk)) => Err((refusal_of_making(refusal), disk)),
    }
}

/// Makes a new store of format 2 on a disk that holds none. It flushes the disk, writes the superblock and the root,
/// and makes them durable.
fn make_once<D: PageDisk + Drop>(
    options: MountOptions,
    disk: D,
    geometry: Geometry,
    pairs: Vec<Pair>,
) -> Result<Core<Mounted<D>>, (Refusal, D)>
    requires geometry { IsGeometry geometry.format geometry.extents geometry.pages geometry.sections }
    requires single { twins_in geometry.format ≡ false }
    requires sized { pages_of geometry ≡ D.page_count disk }
    requires pairs { pairs.items ≡ store_pairs geometry }
    requires are { ArePairs pairs.items (D.page_count disk) }
    requires fits { D.honest disk → IsOfStore (Some geometry) pairs.items (D.page_count disk) (seen (D.state disk)) }
    ensures new { IfOk result (λ core. (core.history ≡ []) × (core.base ≡ 0) × (core.limit ≡ options.history)) }
    ensures store { D.honest disk → IfOk result (λ core. core.store ≡ new_stored geometry.format geometry.extents geometry.pages geometry.sections) }
    ensures found { D.honest disk → IfOk result (λ core. core.found ≡ (0, 0)) }
    ensures start { D.honest disk → IfOk result (λ core. Recovers (shape core.store.extents) (formats_of (shape core.store.extents)) (page core.opened) 0 (λ id. None)) }
    ensures written { D.honest disk → IfOk result (λ core. IsNewOn geometry.format geometry.extents geometry.pages geometry.sections (shown_state (store_version (Some geometry)) (store_pairs geometry) (flushed (D.state disk))) (state_shown core.disk)) }
    ensures pages { MatchResult result (λ core. D.page_count (disk_below core.disk) ≡ D.page_count disk) (λ refused. D.page_count refused.1 ≡ D.page_count disk) }
    ensures honest { MatchResult result (λ core. D.honest disk ↔ D.honest (disk_below core.disk)) (λ refused. D.honest disk ↔ D.honest refused.1) }
    ensures refusals { IfErr result (λ refused. (refused.0 ≡ Refusal.DeviceFault) ⊎ (refused.0 ≡ Refusal.OutOfMemory)) }
    ensures cause { D.honest disk → IfErr result (λ refused. refused.0 ≡ Refusal.DeviceFault → Rises (D.failure_count disk) (D.failure_count refused.1)) }
{
    let MountOptions { alloc, limits } = options;
    let rules = StoreRules {
        alloc,
        geometry: Some(geometry),
    };
    match Paired::new(alloc, disk, rules, pairs) {
        Ok(paired) => match Core::format(alloc, paired, geometry, limits) {
            Ok(core) => Ok(core),
            Err((refusal, paired)) => Err((refusal, paired.into_disk())),
        },
        Err((fault, disk)) => Err((refusal_of_disk(fault), disk)),
    }
}

impl MountOptions {
    /// Makes a new store of this geometry on a disk that holds none. It looks for a store, and lays the new one as
    /// `lay_store` does: both pages of the root and of each section, section 0 last. Then it opens it as `open` does.
    /// In format 2 it flushes the disk, writes the superblock and the root, each of them once, and makes them
    /// durable.
    ///
    /// If the call is refused, it returns the disk:
    /// - 43 NotAStore: the disk hasn't the geometry's pages;
    /// - 45 Occupied: a store is on the disk, or what is left of one, and nothing is written or flushed;
    /// - 1 DeviceFault: the device refused a call;
    /// - 9 OutOfMemory.
    ///
    /// After 1 and 9 the superblock and the root may be there in part.
    ///
    /// A disk is occupied if page 0 is a first section of a superblock, of whatever format and geometry. It is also
    /// occupied if the last page is one of format 4, or if a page is whole of which the new store has two. So is what
    /// is left of a making of the same store that was cut off in its second step: `create_over` takes it.
    pub fn create<D: PageDisk + Drop>(
        self,
        disk: D,
        geometry: Geometry,
    ) -> Result<Core<Mounted<D>>, (Refusal, D)>
        ensures new { IfOk result (λ core. (core.history ≡ []) × (core.base ≡ 0) × (core.limit ≡ self.history)) }
        ensures store { D.honest disk → IfOk result (λ core. core.store ≡ new_stored geometry.format geometry.extents geometry.pages geometry.sections) }
        ensures found { D.honest disk → IfOk result (λ core. core.found ≡ (0, 0)) }
        ensures start { IfOk result (λ core. D.honest disk → Recovers (shape core.store.extents) (formats_of (shape core.store.extents)) (page core.opened) 0 (λ id. None)) }
        ensures written { D.honest disk → IfOk result (λ core. IsNewOn geometry.format geometry.extents geometry.pages geometry.sections (shown_state (store_version (Some geometry)) (store_pairs geometry) (flushed (D.state disk))) (state_shown core.disk)) }
        // So it is on pages of zeros.
        ensures zeros { D.honest disk → D.state disk ≡ blank_disk geometry → IfOk result (λ core. IsNewOn geometry.format geometry.extents geometry.pages geometry.sections (blank_disk geometry) (state_shown core.disk)) }
        ensures pages { MatchResult result (λ core. D.page_count (disk_below core.disk) ≡ D.page_count disk) (λ refused. D.page_count refused.1 ≡ D.page_count disk) }
        ensures honest { MatchResult result (λ core. D.honest disk ↔ D.honest (disk_below core.disk)) (λ refused. D.honest disk ↔ D.honest refused.1) }
        ensures sized { OnOk result (D.page_count disk ≡ device_pages geometry.format geometry.extents geometry.pages geometry.sections) }
        ensures not_a_store { IfErr result (λ refused. (refused.0 ≡ Refusal.NotAStore) ↔ (D.page_count disk ≢ device_pages geometry.format geometry.extents geometry.pages geometry.sections)) }
        ensures refusals { IfErr result (λ refused. (refused.0 ≡ Refusal.NotAStore) ⊎ (refused.0 ≡ Refusal.Occupied) ⊎ (refused.0 ≡ Refusal.DeviceFault) ⊎ (refused.0 ≡ Refusal.OutOfMemory)) }
        ensures same { D.page_count disk ≢ device_pages geometry.format geometry.extents geometry.pages geometry.sections → result ≡ Err (Refusal.NotAStore, disk) }
        // It is refused 45 only where a store is there, or what is left of one.
        ensures occupied { D.honest disk → IfErr result (λ refused. refused.0 ≡ Refusal.Occupied → IsTaken (D.page_count disk) (seen (D.state disk)) (store_version (Some geometry)) (store_pairs geometry)) }
        // Of an honest disk the device alone refuses it 1.
        ensures cause { D.honest disk → IfErr result (λ refused. refused.0 ≡ Refusal.DeviceFault → Rises (D.failure_count disk) (D.failure_count refused.1)) }
        // No store is made there, and it is as it was then.
        ensures taken { D.honest disk → IsTaken (D.page_count disk) (seen (D.state disk)) (store_version (Some geometry)) (store_pairs geometry) → MatchResult result (λ core. ⊥) (λ refused. D.state refused.1 ≡ D.state disk) }
        // Both pages of each pair hold version 1. In format 2 there are no pairs.
        ensures both { D.honest disk → twins_in geometry.format ≡ true → IfOk result (λ core. HoldsBoth geometry (D.state (disk_below core.disk))) }
        // A crash meanwhile leaves what shows as what one within `lay_store` may leave: `a_crash_of_a_making`.
        ensures crash { D.honest disk → twins_in geometry.format ≡ true → IfOk result (λ core. (left : Image) → left_as_shown core.disk (D.moment disk) left → Shows (store_version (Some geometry)) (store_pairs geometry) (LeavesLaying geometry (D.state disk)) left) }
        // So does one after a refusal.
        ensures left { D.honest disk → twins_in geometry.format ≡ true → IfErr result (λ refused. Leaves (D.state refused.1) (LeavesLaying geometry (D.state disk))) }
    {
        // Called for its contract alone: what every geometry keeps.
        geometry.extents();
        if disk.pages() != geometry.device_pages() {
            return Err((Refusal::NotAStore, disk));
        }
        let rules = StoreRules {
            alloc: self.alloc,
            geometry: Some(geometry),
        };
        let Ok(pairs) = rules.pairs() else {
            return Err((Refusal::OutOfMemory, disk));
        };
        let mut disk = disk;
        match is_taken(self.alloc, &mut disk, &rules, &pairs) {
            Ok(false) => {}
            Ok(true) => return Err((Refusal::Occupied, disk)),
            Err(fault) => return Err((refusal_of_disk(fault), disk)),
        }
        if geometry.format().has_twins() {
            make_twice(self, disk, geometry)
        } else {
            make_once(self, disk, geometry, pairs)
        }
    }

    /// The same, and whatever the disk holds is given up: it isn't refused 45 Occupied. In format 2 it does what
    /// `create` does, and can be refused so.
    pub fn create_over<D: PageDisk + Drop>(
        self,
        disk: D,
        geometry: Geometry,
    ) -> Result<Core<Mounted<D>>, (Refusal, D)>
        ensures new { IfOk result (λ core. (core.history ≡ []) × (core.base ≡ 0) × (core.limit ≡ self.history)) }
        ensures store { D.honest disk → IfOk result (λ core. core.store ≡ new_stored geometry.format geometry.extents geometry.pages geometry.sections) }
        ensures found { D.honest disk → IfOk result (λ core. core.found ≡ (0, 0)) }
        ensures start { IfOk result (λ core. D.honest disk → Recovers (shape core.store.extents) (formats_of (shape core.store.extents)) (page core.opened) 0 (λ id. None)) }
        ensures written { D.honest disk → IfOk result (λ core. IsNewOn geometry.format geometry.extents geometry.pages geometry.sections (shown_state (store_version (Some geometry)) (store_pairs geometry) (flushed (D.state disk))) (state_shown core.disk)) }
        // So it is on pages of zeros.
        ensures zeros { D.honest disk → D.state disk ≡ blank_disk geometry → IfOk result (λ core. IsNewOn geometry.format geometry.extents geometry.pages geometry.sections (blank_disk geometry) (state_shown core.disk)) }
        ensures pages { MatchResult result (λ core. D.page_count (disk_below core.disk) ≡ D.page_count disk) (λ refused. D.page_count refused.1 ≡ D.page_count disk) }
        ensures honest { MatchResult result (λ core. D.honest disk ↔ D.honest (disk_below core.disk)) (λ refused. D.honest disk ↔ D.honest refused.1) }
        ensures sized { OnOk result (D.page_count disk ≡ device_pages geometry.format geometry.extents geometry.pages geometry.sections) }
        ensures not_a_store { IfErr result (λ refused. (refused.0 ≡ Refusal.NotAStore) ↔ (D.page_count disk ≢ device_pages geometry.format geometry.extents geometry.pages geometry.sections)) }
        ensures refusals { IfErr result (λ refused. (refused.0 ≡ Refusal.NotAStore) ⊎ ((refused.0 ≡ Refusal.Occupied) × (twins_in geometry.format ≡ false)) ⊎ (refused.0 ≡ Refusal.DeviceFault) ⊎ (refused.0 ≡ Refusal.OutOfMemory)) }
        ensures same { D.page_count disk ≢ device_pages geometry.format geometry.extents geometry.pages geometry.sections → result ≡ Err (Refusal.NotAStore, disk) }
        // Of an honest disk the device alone refuses it 1.
        ensures cause { D.honest disk → IfErr result (λ refused. refused.0 ≡ Refusal.DeviceFault → Rises (D.failure_count disk) (D.failure_count refused.1)) }
        // Both pages of each pair hold version 1. In format 2 there are no pairs.
        ensures both { D.honest disk → twins_in geometry.format ≡ true → IfOk result (λ core. HoldsBoth geometry (D.state (disk_below core.disk))) }
        // A crash meanwhile leaves what shows as what one within `lay_store` may leave: `a_crash_of_a_making`.
        ensures crash { D.honest disk → twins_in geometry.format ≡ true → IfOk result (λ core. (left : Image) → left_as_shown core.disk (D.moment disk) left → Shows (store_version (Some geometry)) (store_pairs geometry) (LeavesLaying geometry (D.state disk)) left) }
        // So does one after a refusal.
        ensures left { D.honest disk → twins_in geometry.format ≡ true → IfErr result (λ refused. Leaves (D.state refused.1) (LeavesLaying geometry (D.state disk))) }
    {
        // Called for its contract alone: what every geometry keeps.
        geometry.extents();
        if disk.pages() != geometry.device_pages() {
            return Err((Refusal::NotAStore, disk));
        }
        if geometry.format().has_twins() {
            make_twice(self, disk, geometry)
        } else {
            self.create(disk, geometry)
        }
    }

    /// Makes a new store of this geometry in memory, with nothing in it. It takes 4,096 bytes for each page of the
    /// disk. Refused 9 OutOfMemory alone.
    pub fn create_in_memory(self, geometry: Geometry) -> Result<Core<Mounted<MemoryDisk>>, Refusal>
        ensures new { IfOk result (λ core. (core.history ≡ []) × (core.base ≡ 0) × (core.limit ≡ self.history)) }
        ensures store { IfOk result (λ core. core.store ≡ new_stored geometry.format geometry.extents geometry.pages geometry.sections) }
        ensures found { IfOk result (λ core. core.found ≡ (0, 0)) }
        ensures start { IfOk result (λ core. Recovers (shape core.store.extents) (formats_of (shape core.store.extents)) (page core.opened) 0 (λ id. None)) }
        // The superblock and the root are written and durable, on pages of zeros.
        ensures written { IfOk result (λ core. IsNewOn geometry.format geometry.extents geometry.pages geometry.sections (blank_disk geometry) (state_shown core.disk)) }
        ensures memory { IfErr result (λ refusal. refusal ≡ Refusal.OutOfMemory) }
    {
        // Called for its contract alone: what every geometry keeps.
        geometry.extents();
        let Ok(disk) = MemoryDisk::new(self.alloc, geometry.device_pages()) else {
            return Err(Refusal::OutOfMemory);
        };
        match self.create(disk, geometry) {
            Ok(core) => Ok(core),
            Err((refusal, _)) => Err(refusal),
        }
    }
}

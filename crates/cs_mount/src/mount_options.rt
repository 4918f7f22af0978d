//! How stores over disks in pairs are opened, fenced and mended: by methods of one type, `MountOptions`, and by
//! functions.
ghost use Rattle.std.specs.Prelude.{◌+◌, ◌<◌, ◌↔◌, ◌≡◌, ◌≢◌, ◌≤◌, ◌⊎◌, Err, IfErr, IfOk, MatchResult, None, OnOk, Some, [], ℕ};
ghost use Rattle.std.specs.List.{AllByRecursion};
ghost use Rattle.cs_core.specs.Openings.{IfStoreOn, IsOpened, IsOpenedAs};
ghost use Rattle.cs_core.specs.cs_chunk.Reads.{IsNoAnswer};
ghost use Rattle.cs_disk.specs.Disk.{Image, LeavesOnly, MayLeave, Rises, flushed, page, seen};
ghost use Rattle.cs_mount.specs.Identities.{AreOfTwo, IsOfOne};
ghost use Rattle.cs_mount.specs.Showing.{ShowsOn, findings_on, shown_by, shown_on};
ghost use Rattle.cs_mount.specs.StorePairs.{dimensions_on};
ghost use Rattle.cs_reader.specs.Openings.{IsOpeningRefusal, IsWhyNotOpened};
ghost use Rattle.cs_twin.specs.Findings.{finding_in, passed_over};
ghost use Rattle.cs_twin.specs.Paired.{IsSound, disk_below, failures_of, left_as_shown, moment_of, pairs_of, refusals_of, rules_of, state_shown, versions_of};
ghost use Rattle.cs_twin.specs.Pairs.{half, is_turned};

use crate::store_pairs::{StoreRules, open_pairs};
use cs_core::{Core, Limits};
use cs_disk::{PageDisk, refusal_of_disk};
use cs_refusal::Refusal;
use cs_twin::{Finding, Paired};
use std::alloc::Global;
use std::marker::Model;

/// The default limits: 65,536 events. If nobody syncs, puts of 4,000 bytes come to a quarter of a gigabyte then, and
/// what waits for a sync to as much again.
pub const LIMITS: Limits = Limits { history: 65_536 };

/// Options for making or opening a store: the allocator, and how many events the store may keep. Contracts see the
/// limits.
///
/// `create`, `create_in_memory`, `open` and `open_older` make or open the store, as a core over the disk in pairs.
#[derive(Debug, Drop)]
pub struct MountOptions {
    pub(crate) alloc: Global,
    pub(crate) limits: Limits,
}

impl Model for MountOptions {
    ghost use Rattle.cs_core.specs.declared.cores.Limits.{Limits};

    ghost Value = { Limits };

    ghost view = { λ options. options.limits };
}

impl MountOptions {
    /// The default options: `LIMITS`.
    pub fn new(alloc: Global) -> Self
        ensures { result.history ≡ 65536 }
    {
        MountOptions {
            alloc,
            limits: LIMITS,
        }
    }

    /// These options with other limits. With limits of 0 events no command is ever taken.
    pub fn limits(self, limits: Limits) -> Self
        ensures { result ≡ limits }
    {
        MountOptions {
            alloc: self.alloc,
            limits,
        }
    }
}

/// A disk over which a store lies: its most important pages have two pages each, but in format 2.
pub type Mounted<D> = Paired<D, StoreRules>;

impl MountOptions {
    /// Opens the store on a disk, as it was made persistent or as a crash left it, and returns what the pages hold of
    /// which it has two. It flushes, and reads the superblock, the root and the index's runs.
    ///
    /// Nothing is written, so the pages that don't show stay as well. A page that is damaged is passed over if the
    /// pair's other page is whole. Until each such page is filled, by `fence` or `mend`, a write to the superblock or
    /// to the root is refused 1 DeviceFault.
    ///
    /// If the call is refused, it returns the disk. 43 NotAStore: no store of that many pages is on it, or page 0 and
    /// the last page are of different stores. 20 to 26: a page is damaged, and if the store has two of it, both are.
    /// 27 RootLost: the newest root that is whole is older than one that was persistent. 1 DeviceFault, and 9
    /// OutOfMemory.
    pub fn open<D: PageDisk + Drop>(
        self,
        disk: D,
    ) -> Result<(Core<Mounted<D>>, Vec<Finding>), (Refusal, D)>
        ensures new { IfOk result (λ opened. (opened.0.history ≡ []) × (opened.0.base ≡ 0) × (opened.0.limit ≡ self.history)) }
        ensures image { D.honest disk → IfOk result (λ opened. (opened.0.opened ≡ shown_on (D.page_count disk) (seen (D.state disk))) × (state_shown opened.0.disk ≡ record { durable = shown_on (D.page_count disk) (seen (D.state disk)); volatile = [] })) }
        ensures store { IfOk result (λ opened. IsOpened (D.honest disk) opened.0.opened opened.0.found opened.0.store) }
        // Page 0 and the last page aren't of different stores.
        ensures one { D.honest disk → OnOk result (IsOfOne (D.page_count disk) (seen (D.state disk))) }
        // If they are, it is refused 43 before anything is flushed, unless the device or the memory refuses a call.
        ensures two { D.honest disk → AreOfTwo (D.page_count disk) (seen (D.state disk))
            → MatchResult result (λ opened. ⊥) (λ refused. (IsNoAnswer refused.0 ⊎ (refused.0 ≡ Refusal.NotAStore)) × (D.state refused.1 ≡ D.state disk)) }
        // Where the disk shows a store of some geometry, that store is opened.
        ensures recovers { D.honest disk → IsOfOne (D.page_count disk) (seen (D.state disk)) → IfStoreOn (D.page_count disk) (page (shown_on (D.page_count disk) (seen (D.state disk))))
            (λ S n m. MatchResult result (λ opened. IsOpenedAs S n m opened.0.store opened.0.found) (λ refused. IsNoAnswer refused.0)) }
        ensures findings { D.honest disk → IfOk result (λ opened. opened.1.items ≡ findings_on (D.page_count disk) (seen (D.state disk))) }
        ensures refusals { D.honest disk → IfErr result (λ refused. IsNoAnswer refused.0 ⊎ ((refused.0 ≡ Refusal.NotAStore) × AreOfTwo (D.page_count disk) (seen (D.state disk))) ⊎ IsWhyNotOpened (D.page_count disk) (page (shown_on (D.page_count disk) (seen (D.state disk)))) refused.0) }
        // Whatever the disk answers.
        ensures number { IfErr result (λ refused. IsOpeningRefusal refused.0) }
        ensures small { D.page_count disk < 10 → result ≡ Err (Refusal.NotAStore, disk) }
        // 1 is an answer of the device.
        ensures cause { IfErr result (λ refused. refused.0 ≡ Refusal.DeviceFault → Rises (D.failure_count disk) (D.failure_count refused.1)) }
        // If it is opened, the device's count of failures hasn't fallen.
        ensures later { IfOk result (λ opened. D.failure_count disk ≤ D.failure_count (disk_below opened.0.disk)) }
        // The disk in pairs refused no call itself yet, and will refuse no read and no flush.
        ensures sound { IfOk result (λ opened. IsSound opened.0.disk × (refusals_of opened.0.disk ≡ 0)) }
        // Nothing is written, whether it is opened or not: the device holds what it held, or that made durable.
        ensures unwritten { D.honest disk → MatchResult result (λ opened. D.state (disk_below opened.0.disk) ≡ flushed (D.state disk)) (λ refused. (D.state refused.1 ≡ D.state disk) ⊎ (D.state refused.1 ≡ flushed (D.state disk))) }
        // Two flushes, and no write; if it is refused, two at most.
        ensures calls { D.honest disk → MatchResult result (λ opened. D.moment (disk_below opened.0.disk) ≡ D.moment disk + 2) (λ refused. D.moment refused.1 ≤ D.moment disk + 2) }
        // A crash meanwhile leaves what shows as what one before it might have left.
        ensures crash { D.honest disk → IfOk result (λ opened. (left : Image) → left_as_shown opened.0.disk (D.moment disk) left → ShowsOn (D.page_count disk) (seen (D.state disk)) (MayLeave (D.state disk)) left) }
        // So it does if it is refused, if there is a store of format 4 on the disk.
        ensures crash_refused { D.honest disk → dimensions_on (D.page_count disk) (seen (D.state disk)) ≢ None → IfErr result (λ refused. (left : Image) → D.left_since refused.1 (D.moment disk) left
            → ShowsOn (D.page_count disk) (seen (D.state disk)) (MayLeave (D.state disk)) (shown_by (D.page_count disk) (seen (D.state disk)) left)) }
        // For a run that began earlier.
        ensures before { D.honest disk → IfOk result (λ opened. (t : ℕ) (left : Image) → t ≤ D.moment disk → left_as_shown opened.0.disk t left → ShowsOn (D.page_count disk) (seen (D.state disk)) (λ image. D.left_since disk t image ⊎ MayLeave (D.state disk) image) left) }
        ensures honest { MatchResult result (λ opened. D.honest disk ↔ D.honest (disk_below opened.0.disk)) (λ refused. D.honest disk ↔ D.honest refused.1) }
        ensures pages { MatchResult result (λ opened. D.page_count (disk_below opened.0.disk) ≡ D.page_count disk) (λ refused. D.page_count refused.1 ≡ D.page_count disk) }
    {
        let MountOptions { alloc, limits } = self;
        // Called for its contract alone: that the count isn't above 2^64 - 1.
        disk.failures();
        if disk.pages() < 10 {
            return Err((Refusal::NotAStore, disk));
        }
        match open_pairs(alloc, disk) {
            Ok((paired, found)) => match Core::open(alloc, paired, limits) {
                Ok(core) => Ok((core, found)),
                Err((refusal, paired)) => Err((refusal, paired.into_disk())),
            },
            Err((refusal, disk)) => Err((refusal, disk)),
        }
    }
}

/// Closes an opened store, and writes anew each page that its opening passed over, as a copy of the pair's other page.
/// Before each copy it fences the page: it fills it with bytes of 255, and flushes. What shows stays as it is, and the
/// disk comes back: `Core::open` over it opens the store again. What the store had staged and not made persistent ends
/// with it.
///
/// It takes an opened store, so nothing is written over without which an opening would be refused: a damaged page may
/// have held a newer root or section than the whole one. Such an opening is refused 27 RootLost, 43 NotAStore, or by
/// the number of a fault. The pages stay as they are then, for a reader by hand or `MountOptions::open_older`. If no
/// section records the newer root yet, the store was opened as of the older one, and that is what is copied.
///
/// Refused 1 DeviceFault, and 9 OutOfMemory, with the disk. Some of the damaged pages may be written anew then, and
/// the rest not. What shows is the same, so the store can be opened from the device and this be done again. A store of
/// format 2 has no page twice, and the disk is flushed alone.
pub fn mend<D: PageDisk + Drop>(core: Core<Mounted<D>>) -> Result<Mounted<D>, (Refusal, Mounted<D>)>
    // No page is passed over any more.
    ensures whole { D.honest (disk_below core.disk) → IfOk result (λ disk. AllByRecursion (λ x. passed_over (finding_in (versions_of core.disk) (seen (D.state (disk_below disk))) x) ≡ None) (pairs_of core.disk)) }
    // What was passed over is written with what the newest page holds, and no other page is.
    ensures copied { D.honest (disk_below core.disk) → IfOk result (λ disk. AllByRecursion (λ x. (number : ℕ) → passed_over (finding_in (versions_of core.disk) (seen (D.state (disk_below core.disk))) x) ≡ Some number → page (seen (D.state (disk_below disk))) number ≡ page (seen (D.state (disk_below core.disk))) (half x (is_turned (versions_of core.disk) (seen (D.state (disk_below core.disk))) x))) (pairs_of core.disk)) }
    ensures untouched { D.honest (disk_below core.disk) → IfOk result (λ disk. (number : ℕ) → AllByRecursion (λ x. passed_over (finding_in (versions_of core.disk) (seen (D.state (disk_below core.disk))) x) ≢ Some number) (pairs_of core.disk) → page (seen (D.state (disk_below disk))) number ≡ page (seen (D.state (disk_below core.disk))) number) }
    ensures durable { D.honest (disk_below core.disk) → IfOk result (λ disk. (D.state (disk_below disk)).volatile ≡ []) }
    ensures shown { D.honest (disk_below core.disk) → MatchResult result (λ disk. seen (state_shown disk) ≡ seen (state_shown core.disk)) (λ refused. seen (state_shown refused.1) ≡ seen (state_shown core.disk)) }
    ensures crash { D.honest (disk_below core.disk) → MatchResult result (λ disk. LeavesOnly moment_of left_as_shown core.disk disk (MayLeave (state_shown core.disk))) (λ refused. LeavesOnly moment_of left_as_shown core.disk refused.1 (MayLeave (state_shown core.disk))) }
    ensures honest { MatchResult result (λ disk. D.honest (disk_below core.disk) ↔ D.honest (disk_below disk)) (λ refused. D.honest (disk_below core.disk) ↔ D.honest (disk_below refused.1)) }
    ensures pages { MatchResult result (λ disk. D.page_count (disk_below disk) ≡ D.page_count (disk_below core.disk)) (λ refused. D.page_count (disk_below refused.1) ≡ D.page_count (disk_below core.disk)) }
    ensures pairs { MatchResult result (λ disk. pairs_of disk ≡ pairs_of core.disk) (λ refused. pairs_of refused.1 ≡ pairs_of core.disk) }
    ensures rules { MatchResult result (λ disk. rules_of disk ≡ rules_of core.disk) (λ refused. rules_of refused.1 ≡ rules_of core.disk) }
    ensures refusals { IfErr result (λ refused. (refused.0 ≡ Refusal.DeviceFault) ⊎ (refused.0 ≡ Refusal.OutOfMemory)) }
    // 1 is counted; and by a disk in pairs where no write to a pair was in doubt it is an answer of the disk below.
    ensures cause { IfErr result (λ refused. refused.0 ≡ Refusal.DeviceFault → Rises (failures_of core.disk) (failures_of refused.1)) }
    ensures unrefused { IsSound core.disk → MatchResult result (λ disk. refusals_of disk ≡ refusals_of core.disk) (λ refused. refusals_of refused.1 ≡ refusals_of core.disk) }
{
    let mut disk = core.into_disk();
    match disk.repair_all() {
        Ok(()) => Ok(disk),
        Err(fault) => Err((refusal_of_disk(fault), disk)),
    }
}

//! How a store is opened to be written: what its opening passed over is fenced first.
ghost use Rattle.std.specs.Prelude.{◌↔◌, ◌<◌, ◌≡◌, ◌≢◌, ◌≤◌, ◌⊎◌, Err, IfErr, IfOk, IsOk, MatchResult, None, OnErr, OnOk, Some, [], false, length, true, ℕ};
ghost use Rattle.std.specs.List.{AllByRecursion, list_any};
ghost use Rattle.cs_chunk.specs.Reads.{IsNoAnswer};
ghost use Rattle.cs_core.specs.Openings.{IfStoreOn, IsOpened, IsOpenedAs};
ghost use Rattle.cs_disk.specs.Disk.{Image, LeavesOnly, MayLeave, Rises, flushed, page, seen};
ghost use Rattle.cs_disk.specs.Reads.{OnlyReads};
ghost use Rattle.cs_extent.specs.State.{shape};
ghost use Rattle.cs_mount.specs.Hidden.{is_among};
ghost use Rattle.cs_mount.specs.Identities.{AreOfTwo, IsOfOne};
ghost use Rattle.cs_mount.specs.Showing.{ShowsOn, findings_on, shown_by, shown_on};
ghost use Rattle.cs_mount.specs.StorePairs.{dimensions_on};
ghost use Rattle.cs_reader.specs.Counts.{HasCount};
ghost use Rattle.cs_reader.specs.Openings.{IsOpeningRefusal, IsWhyNotOpened};
ghost use Rattle.cs_store.specs.Maps.{HasMap};
ghost use Rattle.cs_store.specs.Opening.{AgreeBeside, AreFencesIn, IsPartlyGivenUp, IsWhyNoneIsLeft, NoneIsPassedOver, given_up};
ghost use Rattle.cs_mount.specs.Unreadable.{AreOfStore, LeavesFenced, RisesBy};
ghost use Rattle.cs_twin.specs.Findings.{finding_in, is_halved, passed_over};
ghost use Rattle.cs_twin.specs.Paired.{IsSound, disk_below, left_as_shown, moment_of, pairs_of, refusals_of, state_shown, versions_of};
ghost use Rattle.cs_twin.specs.Pairs.{fence};

use crate::options::{Loss, OpenOptions};
use crate::reserves::Held;
use crate::stores::Store;
use cs_disk::{DiskFault, PageDisk};
use cs_mount::the_core::{Core, Limits};
use cs_mount::{Finding, MountOptions, Mounted, fence, fence_pages, unreadable_halves};
use cs_refusal::Refusal;
use std::alloc::Global;

/// Whether a page of this pair was passed over.
fn is_passed_over(finding: Finding) -> bool
    ensures { result ≡ is_halved finding }
{
    finding.passed_over().is_some()
}

/// Whether a page of one of these pairs was passed over.
fn are_passed_over(findings: &[Finding]) -> bool
    ensures { result ≡ list_any is_halved findings.now }
{
    findings.iter().any(|finding| is_passed_over(*finding))
}

/// Closes a store, fences each page that its opening passed over, and opens it again. If the call is refused, it
/// returns the disk.
fn open_fenced<D: PageDisk + Drop>(
    alloc: Global,
    core: Core<Mounted<D>>,
    limits: Limits,
) -> Result<Core<Mounted<D>>, (Refusal, D)>
    ensures new { IfOk result (λ again. (again.history ≡ []) × (again.base ≡ 0) × (again.limit ≡ limits.history)) }
    // What shows is the same, and it is what was opened.
    ensures image { D.honest (disk_below core.disk) → IfOk result (λ again. (again.opened ≡ seen (state_shown core.disk)) × (state_shown again.disk ≡ flushed (state_shown core.disk))) }
    ensures store { IfOk result (λ again. IsOpened (D.honest (disk_below core.disk)) again.opened again.found again.store) }
    ensures recovers { D.honest (disk_below core.disk) → IfStoreOn (D.page_count (disk_below core.disk)) (page (seen (state_shown core.disk)))
        (λ S n m. MatchResult result (λ again. IsOpenedAs S n m again.store again.found) (λ refused. IsNoAnswer refused.0)) }
    // No page is passed over any more.
    ensures fenced { D.honest (disk_below core.disk) → IfOk result (λ again. AllByRecursion (λ x. passed_over (finding_in (versions_of core.disk) (seen (D.state (disk_below again.disk))) x) ≡ None) (pairs_of core.disk)) }
    // What was passed over is a fence, and no other page was written.
    ensures filled { D.honest (disk_below core.disk) → IfOk result (λ again. AllByRecursion (λ x. (number : ℕ) → passed_over (finding_in (versions_of core.disk) (seen (D.state (disk_below core.disk))) x) ≡ Some number → page (seen (D.state (disk_below again.disk))) number ≡ fence) (pairs_of core.disk)) }
    ensures untouched { D.honest (disk_below core.disk) → IfOk result (λ again. (number : ℕ) → AllByRecursion (λ x. passed_over (finding_in (versions_of core.disk) (seen (D.state (disk_below core.disk))) x) ≢ Some number) (pairs_of core.disk) → page (seen (D.state (disk_below again.disk))) number ≡ page (seen (D.state (disk_below core.disk))) number) }
    // If it is refused, and a store of format 4 shows, the disk shows the same.
    ensures kept { D.honest (disk_below core.disk) → IfErr result (λ refused. (image : Image) → length image ≡ D.page_count (disk_below core.disk) → dimensions_on (D.page_count (disk_below core.disk)) image ≢ None
        → state_shown core.disk ≡ record { durable = shown_on (D.page_count (disk_below core.disk)) image; volatile = [] } → shown_on (D.page_count (disk_below core.disk)) (seen (D.state refused.1)) ≡ shown_on (D.page_count (disk_below core.disk)) image) }
    ensures refusals { D.honest (disk_below core.disk) → IfErr result (λ refused. IsNoAnswer refused.0 ⊎ IsWhyNotOpened (D.page_count (disk_below core.disk)) (page (seen (state_shown core.disk))) refused.0) }
    ensures number { IfErr result (λ refused. IsOpeningRefusal refused.0) }
    // If the disk in pairs refused no call itself before, 1 is an answer of the disk below.
    ensures cause { IsSound core.disk → refusals_of core.disk ≡ 0 → IfErr result (λ refused. refused.0 ≡ Refusal.DeviceFault → Rises (D.failure_count (disk_below core.disk)) (D.failure_count refused.1)) }
    ensures crash { D.honest (disk_below core.disk) → IfOk result (λ again. LeavesOnly moment_of left_as_shown core.disk again.disk (MayLeave (state_shown core.disk))) }
    // So it does if it is refused, and a store of format 4 shows.
    ensures crash_refused { D.honest (disk_below core.disk) → IfErr result (λ refused. (image : Image) → length image ≡ D.page_count (disk_below core.disk) → dimensions_on (D.page_count (disk_below core.disk)) image ≢ None
        → state_shown core.disk ≡ record { durable = shown_on (D.page_count (disk_below core.disk)) image; volatile = [] } → (t : ℕ) (left : Image) → t ≤ moment_of core.disk → D.left_since refused.1 t left
        → left_as_shown core.disk t (shown_by (D.page_count (disk_below core.disk)) image left) ⊎ MayLeave (state_shown core.disk) (shown_by (D.page_count (disk_below core.disk)) image left)) }
    ensures honest { MatchResult result (λ again. D.honest (disk_below core.disk) ↔ D.honest (disk_below again.disk)) (λ refused. D.honest (disk_below core.disk) ↔ D.honest refused.1) }
    ensures pages { MatchResult result (λ again. D.page_count (disk_below again.disk) ≡ D.page_count (disk_below core.disk)) (λ refused. D.page_count refused.1 ≡ D.page_count (disk_below core.disk)) }
{
    match fence(core) {
        Ok(disk) => match Core::open(alloc, disk, limits) {
            Ok(again) => Ok(again),
            Err((refusal, disk)) => Err((refusal, disk.into_disk())),
        },
        Err((refusal, disk)) => Err((refusal, disk.into_disk())),
    }
}

/// The refusal that a fault of the disk is.
pub(crate) fn refused_by(fault: DiskFault) -> Refusal
    ensures number { IsNoAnswer result }
    ensures device { result ≡ Refusal.DeviceFault → fault ≡ DiskFault.DeviceFault }
{
    match fault {
        DiskFault::DeviceFault => Refusal::DeviceFault,
        DiskFault::OutOfMemory => Refusal::OutOfMemory,
    }
}

/// Whether an opening for writing is refused for these pages, which can't be read.
fn refuses(loss: Loss, unread: &[u64]) -> bool
    ensures some { result ≡ true → (loss ≡ Loss.Refused) × (unread.now ≢ []) }
    ensures none { result ≡ false → loss ≡ Loss.Refused → unread.now ≡ [] }
{
    match loss {
        Loss::Refused => !unread.is_empty(),
        Loss::Accepted => false,
    }
}

/// Fences each of these pages, which couldn't be read. None are no step.
fn give_up<D: PageDisk>(disk: &mut D, unread: &[u64]) -> Result<(), Refusal>
    requires { (p : ℕ) → is_among unread.now p ≡ true → p < D.page_count disk.old }
    ensures state { D.honest disk.old → OnOk result (D.state disk.new ≡ given_up unread.now (D.state disk.old)) }
    ensures none { unread.now ≡ [] → IsOk result × OnlyReads D.PageDisk disk.old disk.new }
    // If it is refused, some of them may be fences, and nothing else is written.
    ensures refused { D.honest disk.old → OnErr result (LeavesFenced unread.now (D.state disk.old) (seen (D.state disk.new))) }
    ensures refusals { IfErr result IsNoAnswer }
    ensures cause { IfErr result (λ refusal. refusal ≡ Refusal.DeviceFault → Rises (D.failure_count disk.old) (D.failure_count disk.new)) }
    ensures honest { D.honest disk.old ↔ D.honest disk.new }
    ensures pages { D.page_count disk.new ≡ D.page_count disk.old }
    ensures later { D.failure_count disk.old ≤ D.failure_count disk.new }
{
    if unread.is_empty() {
        return Ok(());
    }
    match fence_pages(disk, unread) {
        Ok(()) => Ok(()),
        Err(fault) => Err(refused_by(fault)),
    }
}

/// Readies a disk whose store is to be opened for writing. If the store has two of a page, and one of them can't be
/// read, that one may hold the newest root: it is refused 29 Unreadable. If the loss is accepted, each such page is
/// filled with bytes of 255 instead, and returned. `open_to_write` begins with this.
///
/// The other refusals are 1 DeviceFault, for example if neither page of the root can be read, and 9 OutOfMemory.
pub fn ready_to_write<D: PageDisk>(
    alloc: Global,
    disk: &mut D,
    loss: Loss,
) -> Result<Vec<u64>, Refusal>
    ensures none { loss ≡ Loss.Refused → IfOk result (λ lost. lost.items ≡ []) }
    ensures halves { D.honest disk.old → IfOk result (λ lost. AreOfStore (D.page_count disk.old) lost.items lost.items (seen (D.state disk.old))) }
    // Each of them is a read that failed. So none is given up where no read failed.
    ensures unread { IfOk result (λ lost. RisesBy (length lost.items) (D.failure_count disk.old) (D.failure_count disk.new)) }
    ensures state { D.honest disk.old → IfOk result (λ lost. D.state disk.new ≡ given_up lost.items (D.state disk.old)) }
    ensures reads { IfOk result (λ lost. lost.items ≡ [] → OnlyReads D.PageDisk disk.old disk.new) }
    ensures small { D.page_count disk.old < 10 → (disk.new ≡ disk.old) × IfErr result (λ refusal. ⊥) }
    ensures refused { IfErr result (λ refusal. IsNoAnswer refusal ⊎ ((refusal ≡ Refusal.Unreadable) × (loss ≡ Loss.Refused) × Rises (D.failure_count disk.old) (D.failure_count disk.new))) }
    ensures same { loss ≡ Loss.Refused → IfErr result (λ _. OnlyReads D.PageDisk disk.old disk.new) }
    // If a fence is refused, some of the pages that are given up may be fences, and nothing else is written.
    ensures partly { D.honest disk.old → OnErr result (IsPartlyGivenUp (D.page_count disk.old) (D.state disk.old) (seen (D.state disk.new))) }
    // 1 is an answer of the device.
    ensures cause { IfErr result (λ refusal. refusal ≡ Refusal.DeviceFault → Rises (D.failure_count disk.old) (D.failure_count disk.new)) }
    ensures honest { D.honest disk.old ↔ D.honest disk.new }
    ensures pages { D.page_count disk.new ≡ D.page_count disk.old }
    ensures later { D.failure_count disk.old ≤ D.failure_count disk.new }
{
    if disk.pages() < 10 {
        return Ok(Vec::new(alloc));
    }
    let unread = match unreadable_halves(alloc, disk) {
        Ok(unread) => unread,
        Err(fault) => return Err(refused_by(fault)),
    };
    if refuses(loss, &unread) {
        return Err(Refusal::Unreadable);
    }
    match give_up(disk, &unread) {
        Ok(()) => Ok(unread),
        Err(refusal) => Err(refusal),
    }
}

impl OpenOptions {
    /// Opens the store on a disk each page of whose pairs can be read, to be written: what the opening passed over is
    /// fenced. If the call is refused, it returns the disk.
    fn open_readied<D: PageDisk + Drop>(
        self,
        disk: D,
    ) -> Result<(Store<Mounted<D>>, Vec<Finding>), (Refusal, D)>
        ensures new { IfOk result (λ opened. (opened.0.history ≡ []) × (opened.0.base ≡ 0) × (opened.0.limit ≡ self.limits.history)) }
        // What was opened is what the disk showed before.
        ensures image { D.honest disk → IfOk result (λ opened. (opened.0.opened ≡ shown_on (D.page_count disk) (seen (D.state disk))) × (state_shown opened.0.disk ≡ record { durable = shown_on (D.page_count disk) (seen (D.state disk)); volatile = [] })) }
        ensures store { IfOk result (λ opened. IsOpened (D.honest disk) opened.0.opened opened.0.found opened.0.store) }
        // Page 0 and the last page aren't of different stores.
        ensures one { D.honest disk → OnOk result (IsOfOne (D.page_count disk) (seen (D.state disk))) }
        // If they are, it is refused 43 before anything is flushed, unless the device or the memory refuses a call.
        ensures two { D.honest disk → AreOfTwo (D.page_count disk) (seen (D.state disk))
            → MatchResult result (λ opened. ⊥) (λ refused. (IsNoAnswer refused.0 ⊎ (refused.0 ≡ Refusal.NotAStore)) × (D.state refused.1 ≡ D.state disk)) }
        // Where the disk shows a store of some geometry with this map, that store is opened and has this map.
        ensures recovers { D.honest disk → IsOfOne (D.page_count disk) (seen (D.state disk)) → IfStoreOn (D.page_count disk) (page (shown_on (D.page_count disk) (seen (D.state disk))))
            (λ S n m. MatchResult result (λ opened. (shape opened.0.store.extents ≡ S) × (opened.0.found.0 ≡ n) × HasCount (λ id. m id ≢ None) opened.0.found.1 × HasMap opened.0 m) (λ refused. IsNoAnswer refused.0)) }
        // They are what the disk held before.
        ensures findings { D.honest disk → IfOk result (λ opened. opened.1.items ≡ findings_on (D.page_count disk) (seen (D.state disk))) }
        // No page is passed over any more.
        ensures guarded { D.honest disk → IfOk result (λ opened. NoneIsPassedOver (findings_on (D.page_count disk) (seen (D.state (disk_below opened.0.disk))))) }
        // Each page that was is a fence, and no other page was written.
        ensures filled { D.honest disk → IfOk result (λ opened. AreFencesIn (findings_on (D.page_count disk) (seen (D.state disk))) (seen (D.state (disk_below opened.0.disk)))) }
        ensures untouched { D.honest disk → IfOk result (λ opened. AgreeBeside (findings_on (D.page_count disk) (seen (D.state disk))) (seen (D.state disk)) (seen (D.state (disk_below opened.0.disk)))) }
        // If it is refused, the disk shows the same.
        ensures shown { D.honest disk → IfErr result (λ refused. shown_on (D.page_count disk) (seen (D.state refused.1)) ≡ shown_on (D.page_count disk) (seen (D.state disk))) }
        ensures refusals { D.honest disk → IfErr result (λ refused. IsNoAnswer refused.0 ⊎ ((refused.0 ≡ Refusal.NotAStore) × AreOfTwo (D.page_count disk) (seen (D.state disk))) ⊎ IsWhyNotOpened (D.page_count disk) (page (shown_on (D.page_count disk) (seen (D.state disk)))) refused.0) }
        // Whatever the disk answers.
        ensures number { IfErr result (λ refused. IsOpeningRefusal refused.0) }
        ensures small { D.page_count disk < 10 → result ≡ Err (Refusal.NotAStore, disk) }
        // 1 is an answer of the device.
        ensures cause { IfErr result (λ refused. refused.0 ≡ Refusal.DeviceFault → Rises (D.failure_count disk) (D.failure_count refused.1)) }
        // If no page was passed over, nothing is written: the device holds what it held, or that made durable.
        ensures unwritten { D.honest disk → NoneIsPassedOver (findings_on (D.page_count disk) (seen (D.state disk))) → MatchResult result (λ opened. D.state (disk_below opened.0.disk) ≡ flushed (D.state disk)) (λ refused. (D.state refused.1 ≡ D.state disk) ⊎ (D.state refused.1 ≡ flushed (D.state disk))) }
        // A crash meanwhile leaves what shows as what one before it might have left.
        ensures crash { D.honest disk → IfOk result (λ opened. (left : Image) → left_as_shown opened.0.disk (D.moment disk) left → ShowsOn (D.page_count disk) (seen (D.state disk)) (MayLeave (D.state disk)) left) }
        // So it does if it is refused, if there is a store of format 4 on the disk.
        ensures crash_refused { D.honest disk → dimensions_on (D.page_count disk) (seen (D.state disk)) ≢ None → IfErr result (λ refused. (left : Image) → D.left_since refused.1 (D.moment disk) left
            → ShowsOn (D.page_count disk) (seen (D.state disk)) (MayLeave (D.state disk)) (shown_by (D.page_count disk) (seen (D.state disk)) left)) }
        ensures honest { MatchResult result (λ opened. D.honest disk ↔ D.honest (disk_below opened.0.disk)) (λ refused. D.honest disk ↔ D.honest refused.1) }
        ensures pages { MatchResult result (λ opened. D.page_count (disk_below opened.0.disk) ≡ D.page_count disk) (λ refused. D.page_count refused.1 ≡ D.page_count disk) }
    {
        let OpenOptions {
            alloc,
            limits,
            reserve,
            ..
        } = self;
        let options = MountOptions::new(alloc).limits(limits);
        match options.open(disk) {
            Ok((core, findings)) => {
                if !are_passed_over(&findings) {
                    let store = Store {
                        alloc,
                        core,
                        held: Held::by(reserve),
                        findings: Vec::new(alloc),
                        made: Vec::new(alloc),
                    };
                    return Ok((store, findings));
                }
                match open_fenced(alloc, core, limits) {
                    Ok(core) => {
                        let store = Store {
                            alloc,
                            core,
                            held: Held::by(reserve),
                            findings: Vec::new(alloc),
                            made: Vec::new(alloc),
                        };
                        Ok((store, findings))
                    }
                    Err(refused) => Err(refused),
                }
            }
            Err(refused) => Err(refused),
        }
    }
}

impl OpenOptions {
    /// Opens the store on a disk as `open` does, and readies it to be written. Each page that the opening passed over
    /// is filled with bytes of 255, a fence, and flushed. So what a crash tore off there can't be completed by a later
    /// write that another crash tears. The store is closed for that, and opened again. What shows stays as it is.
    ///
    /// It returns what the pages held before: `Finding::passed_over` names a page that is a fence now. If it names none
    /// nothing is written.
    ///
    /// If the store has two of a page, and one of them can't be read, it is refused 29 Unreadable: that one may hold the
    /// newest root, and may be read again later. If the loss is accepted (`accept_loss`), each such page is filled with
    /// a fence before all else, and returned in the list at the end. What shows is then what the other pages hold.
    ///
    /// If the call is refused, it returns the disk. The other refusals are those of `open`. After 1 DeviceFault or 9
    /// OutOfMemory some of the pages may be fences and the rest not; if no loss was accepted, what shows is the same.
    /// So this can be done again.
    pub fn open_to_write<D: PageDisk + Drop>(
        self,
        disk: D,
    ) -> Result<(Store<Mounted<D>>, Vec<Finding>, Vec<u64>), (Refusal, D)>
        ensures new { IfOk result (λ opened. (opened.0.history ≡ []) × (opened.0.base ≡ 0) × (opened.0.limit ≡ self.limits.history)) }
        // No page is given up unless that is accepted.
        ensures none { self.loss ≡ Loss.Refused → IfOk result (λ opened. opened.2.items ≡ []) }
        // Each of them is a half of a pair of the store that shows without them, and section 0 and the root show.
        ensures halves { D.honest disk → IfOk result (λ opened. AreOfStore (D.page_count disk) opened.2.items opened.2.items (seen (D.state disk))) }
        // What was opened is what the disk showed before, as it is when these are given up.
        ensures image { D.honest disk → IfOk result (λ opened. let shows = shown_on (D.page_count disk) (seen (given_up opened.2.items (D.state disk))) in (opened.0.opened ≡ shows) × (state_shown opened.0.disk ≡ record { durable = shows; volatile = [] })) }
        ensures store { IfOk result (λ opened. IsOpened (D.honest disk) opened.0.opened opened.0.found opened.0.store) }
        // Page 0 and the last page aren't of different stores.
        ensures one { D.honest disk → IfOk result (λ opened. IsOfOne (D.page_count disk) (seen (given_up opened.2.items (D.state disk)))) }
        // If they are, it is refused 43 before anything is flushed, unless the device or the memory refuses a call.
        ensures two { D.honest disk → self.loss ≡ Loss.Refused → AreOfTwo (D.page_count disk) (seen (D.state disk))
            → MatchResult result (λ opened. ⊥) (λ refused. (IsNoAnswer refused.0 ⊎ (refused.0 ≡ Refusal.Unreadable) ⊎ (refused.0 ≡ Refusal.NotAStore)) × (D.state refused.1 ≡ D.state disk)) }
        // Where the disk shows a store of some geometry with this map, that store is opened and has this map.
        ensures recovers { D.honest disk → self.loss ≡ Loss.Refused → IsOfOne (D.page_count disk) (seen (D.state disk)) → IfStoreOn (D.page_count disk) (page (shown_on (D.page_count disk) (seen (D.state disk))))
            (λ S n m. MatchResult result (λ opened. (shape opened.0.store.extents ≡ S) × (opened.0.found.0 ≡ n) × HasCount (λ id. m id ≢ None) opened.0.found.1 × HasMap opened.0 m) (λ refused. IsNoAnswer refused.0 ⊎ (refused.0 ≡ Refusal.Unreadable))) }
        // So it has the map that shows when these are given up.
        ensures map { D.honest disk → IfOk result (λ opened. IfStoreOn (D.page_count disk) (page (shown_on (D.page_count disk) (seen (given_up opened.2.items (D.state disk)))))
            (λ S n m. (shape opened.0.store.extents ≡ S) × (opened.0.found.0 ≡ n) × HasCount (λ id. m id ≢ None) opened.0.found.1 × HasMap opened.0 m)) }
        // They are what the disk held before, and fences for those given up.
        ensures findings { D.honest disk → IfOk result (λ opened. opened.1.items ≡ findings_on (D.page_count disk) (seen (given_up opened.2.items (D.state disk)))) }
        // No page is passed over any more.
        ensures guarded { D.honest disk → IfOk result (λ opened. NoneIsPassedOver (findings_on (D.page_count disk) (seen (D.state (disk_below opened.0.disk))))) }
        // Each page that was is a fence, and no other page was written but those given up.
        ensures filled { D.honest disk → IfOk result (λ opened. AreFencesIn (findings_on (D.page_count disk) (seen (given_up opened.2.items (D.state disk)))) (seen (D.state (disk_below opened.0.disk)))) }
        ensures untouched { D.honest disk → IfOk result (λ opened. AgreeBeside (findings_on (D.page_count disk) (seen (given_up opened.2.items (D.state disk)))) (seen (given_up opened.2.items (D.state disk))) (seen (D.state (disk_below opened.0.disk)))) }
        // If it is refused, the disk shows the same.
        ensures shown { D.honest disk → self.loss ≡ Loss.Refused → IfErr result (λ refused. shown_on (D.page_count disk) (seen (D.state refused.1)) ≡ shown_on (D.page_count disk) (seen (D.state disk))) }
        // Or, if a loss is accepted, what it shows when some of the pages that are given up are fences.
        ensures partly { D.honest disk → IfErr result (λ refused. (image : Image) × IsPartlyGivenUp (D.page_count disk) (D.state disk) image × (shown_on (D.page_count disk) (seen (D.state refused.1)) ≡ shown_on (D.page_count disk) image)) }
        ensures refusals { D.honest disk → self.loss ≡ Loss.Refused → IfErr result (λ refused. IsNoAnswer refused.0 ⊎ (refused.0 ≡ Refusal.Unreadable) ⊎ ((refused.0 ≡ Refusal.NotAStore) × AreOfTwo (D.page_count disk) (seen (D.state disk)))
            ⊎ IsWhyNotOpened (D.page_count disk) (page (shown_on (D.page_count disk) (seen (D.state disk)))) refused.0) }
        // With or without a loss, it is refused otherwise only if no store shows when some such halves are given up.
        ensures left { D.honest disk → IfErr result (λ refused. IsNoAnswer refused.0 ⊎ (refused.0 ≡ Refusal.Unreadable) ⊎ IsWhyNoneIsLeft (D.page_count disk) (D.state disk) refused.0) }
        // Whatever the disk answers.
        ensures number { IfErr result (λ refused. IsOpeningRefusal refused.0 ⊎ (refused.0 ≡ Refusal.Unreadable)) }
        ensures small { D.page_count disk < 10 → result ≡ Err (Refusal.NotAStore, disk) }
        // 29 is an answer of the device, which holds what it held; and no loss is accepted.
        ensures unreadable { IfErr result (λ refused. refused.0 ≡ Refusal.Unreadable → (self.loss ≡ Loss.Refused) × Rises (D.failure_count disk) (D.failure_count refused.1)) }
        ensures kept { D.honest disk → IfErr result (λ refused. refused.0 ≡ Refusal.Unreadable → D.state refused.1 ≡ D.state disk) }
        // 1 is an answer of the device, to a call of this opening.
        ensures cause { IfErr result (λ refused. refused.0 ≡ Refusal.DeviceFault → Rises (D.failure_count disk) (D.failure_count refused.1)) }
        // If no loss is accepted and no page was passed over, nothing is written: the device holds what it held, or that
        // made durable.
        ensures unwritten { D.honest disk → self.loss ≡ Loss.Refused → NoneIsPassedOver (findings_on (D.page_count disk) (seen (D.state disk)))
            → MatchResult result (λ opened. D.state (disk_below opened.0.disk) ≡ flushed (D.state disk)) (λ refused. (D.state refused.1 ≡ D.state disk) ⊎ (D.state refused.1 ≡ flushed (D.state disk))) }
        // A crash meanwhile leaves what shows as what one before it might have left.
        ensures crash { D.honest disk → IfOk result (λ opened. opened.2.items ≡ [] → (left : Image) → left_as_shown opened.0.disk (D.moment disk) left → ShowsOn (D.page_count disk) (seen (D.state disk)) (MayLeave (D.state disk)) left) }
        // So it does if it is refused, if there is a store of format 4 on the disk.
        ensures crash_refused { D.honest disk → self.loss ≡ Loss.Refused → dimensions_on (D.page_count disk) (seen (D.state disk)) ≢ None → IfErr result (λ refused. (left : Image) → D.left_since refused.1 (D.moment disk) left
            → ShowsOn (D.page_count disk) (seen (D.state disk)) (MayLeave (D.state disk)) (shown_by (D.page_count disk) (seen (D.state disk)) left)) }
        ensures honest { MatchResult result (λ opened. D.honest disk ↔ D.honest (disk_below opened.0.disk)) (λ refused. D.honest disk ↔ D.honest refused.1) }
        ensures pages { MatchResult result (λ opened. D.page_count (disk_below opened.0.disk) ≡ D.page_count disk) (λ refused. D.page_count refused.1 ≡ D.page_count disk) }
    {
        let mut disk = disk;
        match ready_to_write(self.alloc, &mut disk, self.loss) {
            Ok(lost) => match self.open_readied(disk) {
                Ok((store, findings)) => Ok((store, findings, lost)),
                Err(refused) => Err(refused),
            },
            Err(refusal) => Err((refusal, disk)),
        }
    }
}

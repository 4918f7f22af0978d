//! Stores whose damaged pages are fenced.
ghost use Rattle.std.specs.Prelude.{◌<◌, ◌↔◌, ◌≡◌, ◌≢◌, ◌≤◌, ◌⊎◌, IfErr, IfOk, MatchResult, None, Some, [], ℕ};
ghost use Rattle.std.specs.List.{AllByRecursion};
ghost use Rattle.cs_disk.specs.Disk.{LeavesOnly, MayLeave, Rises, page, seen};
ghost use Rattle.cs_twin.specs.Fences.{AreFenced};
ghost use Rattle.cs_twin.specs.Findings.{finding_in, passed_over};
ghost use Rattle.cs_twin.specs.Paired.{IsSound, disk_below, failures_of, left_as_shown, moment_of, pairs_of, refusals_of, rules_of, state_shown, versions_of};
ghost use Rattle.cs_twin.specs.Pairs.{fence, held_in};

use crate::mount_options::Mounted;
use cs_core::Core;
use cs_disk::{PageDisk, refusal_of_disk};
use cs_refusal::Refusal;

/// Closes an opened store, and fences each page that its opening passed over: it fills the page with bytes of 255, and
/// flushes. What shows stays as it is, and the disk comes back: `Core::open` over it opens the store again. What the
/// store had staged and not made persistent ends with it.
///
/// An opening passes over the page of a pair that is damaged or torn, if the other page is whole. No pair is written
/// until each such page is fenced or mended, so no later write can complete what a crash tore off. A fenced page isn't
/// damaged: the next write to its pair fills it.
///
/// Refused 1 DeviceFault, and 9 OutOfMemory, with the disk. Some of the pages may be fenced then, and the rest not.
/// What shows is the same, so the store can be opened from the device and this be done again. A store of
/// format 2 has no page twice, and the disk is flushed alone.
pub fn fence<D: PageDisk + Drop>(
    core: Core<Mounted<D>>,
) -> Result<Mounted<D>, (Refusal, Mounted<D>)>
    // No page is passed over any more.
    ensures fenced { D.honest (disk_below core.disk) → IfOk result (λ disk. AllByRecursion (λ x. passed_over (finding_in (versions_of core.disk) (seen (D.state (disk_below disk))) x) ≡ None) (pairs_of core.disk)) }
    // What was passed over is a fence, and no other page is written.
    ensures filled { D.honest (disk_below core.disk) → IfOk result (λ disk. AllByRecursion (λ x. (number : ℕ) → passed_over (finding_in (versions_of core.disk) (seen (D.state (disk_below core.disk))) x) ≡ Some number → page (seen (D.state (disk_below disk))) number ≡ fence) (pairs_of core.disk)) }
    ensures untouched { D.honest (disk_below core.disk) → IfOk result (λ disk. (number : ℕ) → AllByRecursion (λ x. passed_over (finding_in (versions_of core.disk) (seen (D.state (disk_below core.disk))) x) ≢ Some number) (pairs_of core.disk) → page (seen (D.state (disk_below disk))) number ≡ page (seen (D.state (disk_below core.disk))) number) }
    // If the newest half of each pair is whole, each half is whole or a fence now, and pairs are written again.
    ensures known { D.honest (disk_below core.disk) → IfOk result (λ disk. AllByRecursion (λ x. 0 < (held_in (versions_of core.disk) (seen (D.state (disk_below core.disk))) x).version) (pairs_of core.disk) → AreFenced (versions_of core.disk) (pairs_of core.disk) (D.state (disk_below disk)).durable) }
    ensures durable { D.honest (disk_below core.disk) → IfOk result (λ disk. (D.state (disk_below disk)).volatile ≡ []) }
    ensures shown { D.honest (disk_below core.disk) → MatchResult result (λ disk. seen (state_shown disk) ≡ seen (state_shown core.disk)) (λ refused. seen (state_shown refused.1) ≡ seen (state_shown core.disk)) }
    ensures crash { D.honest (disk_below core.disk) → MatchResult result (λ disk. LeavesOnly moment_of left_as_shown core.disk disk (MayLeave (state_shown core.disk))) (λ refused. LeavesOnly moment_of left_as_shown core.disk refused.1 (MayLeave (state_shown core.disk))) }
    ensures honest { MatchResult result (λ disk. D.honest (disk_below core.disk) ↔ D.honest (disk_below disk)) (λ refused. D.honest (disk_below core.disk) ↔ D.honest (disk_below refused.1)) }
    ensures pages { MatchResult result (λ disk. D.page_count (disk_below disk) ≡ D.page_count (disk_below core.disk)) (λ refused. D.page_count (disk_below refused.1) ≡ D.page_count (disk_below core.disk)) }
    ensures pairs { MatchResult result (λ disk. pairs_of disk ≡ pairs_of core.disk) (λ refused. pairs_of refused.1 ≡ pairs_of core.disk) }
    ensures rules { MatchResult result (λ disk. rules_of disk ≡ rules_of core.disk) (λ refused. rules_of refused.1 ≡ rules_of core.disk) }
    ensures refusals { IfErr result (λ refused. (refused.0 ≡ Refusal.DeviceFault) ⊎ (refused.0 ≡ Refusal.OutOfMemory)) }
    // 1 is counted; and by a disk in pairs where no write to a pair was in doubt it is an answer of the disk below.
    ensures cause { IfErr result (λ refused. refused.0 ≡ Refusal.DeviceFault → Rises (failures_of core.disk) (failures_of refused.1)) }
    // The count of failures doesn't fall.
    ensures later { MatchResult result (λ disk. failures_of core.disk ≤ failures_of disk) (λ refused. failures_of core.disk ≤ failures_of refused.1) }
    ensures unrefused { IsSound core.disk → MatchResult result (λ disk. refusals_of disk ≡ refusals_of core.disk) (λ refused. refusals_of refused.1 ≡ refusals_of core.disk) }
    // It stays sound, so it goes on reading and writing pairs.
    ensures sound { IsSound core.disk → IfOk result (λ disk. IsSound disk) }
{
    let mut disk = core.into_disk();
    match disk.fence() {
        Ok(()) => Ok(disk),
        Err(fault) => Err((refusal_of_disk(fault), disk)),
    }
}

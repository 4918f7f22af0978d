//! Scans of a device for the greatest number of a command.
ghost use Rattle.std.specs.Prelude.{◌≡◌, ◌⊎◌, ◌<◌, ◌≤◌, Err, IfErr, IfOk, MatchOption, None, length};
ghost use Rattle.cs_chunk.specs.Reads.{IsCaused};
ghost use Rattle.cs_disk.specs.Disk.{seen};
ghost use Rattle.cs_disk.specs.Reads.{OnlyReads};
ghost use Rattle.cs_mount.specs.StorePairs.{dimensions_on};
ghost use Rattle.cs_frame.specs.Geometries.{Dimensions};
ghost use Rattle.cs_salvage.specs.Greatest.{IsOfAFrame, IsScanOf};
ghost use Rattle.cs_salvage.specs.Passed.{ArePassed, RisesBy, without};
ghost use Rattle.cs_salvage.specs.Parts.{of_store};

use cs_disk::{PageDisk, refusal_of_disk};
use cs_mount::find_geometry;
use cs_refusal::Refusal;
use cs_salvage::{Patience, Scanned, Sought, Whose, scan_commands};
use std::alloc::Global;

/// The greatest number of a command among the store's whole frames on a device, extent after extent, as long as
/// patience lasts. Frames that another store left there don't count. If it is above the number of commands that the root
/// counts, the commands between them are lost, or were never acknowledged.
///
/// A page of an extent that can't be read is passed over and named, and a frame that has it isn't looked at
/// (`scan_commands`).
///
/// It is refused 43 NotAStore if no store of that many pages is there, but one of format 2, and if the device holds
/// pages of two stores. It is refused 1 DeviceFault if superblock or root can't be read, or 9 OutOfMemory.
pub fn greatest_command<D: PageDisk, P: Patience>(
    alloc: Global,
    disk: &mut D,
    patience: &P,
) -> Result<Scanned, Refusal>
    // It is that of the frames on the disk, without the pages that are named.
    ensures scanned { D.honest disk.old → IfOk result (λ scanned. MatchOption (dimensions_on (D.page_count disk.old) (seen (D.state disk.old))) ⊥ (λ g. IsScanOf (of_store g) (without scanned.unreadable.items (seen (D.state disk.old))) scanned)) }
    // Whatever the disk answers, no number is made up: some pages spell a frame with it, of the store that was found. The
    // pages that are named are some of those of its extents, each once.
    ensures spelled { IfOk result (λ scanned. (g : Dimensions) × IsOfAFrame (of_store g) scanned.greatest × ArePassed g 0 (D.page_count disk.old) scanned.unreadable.items) }
    // For each page that is named the device failed.
    ensures failed { IfOk result (λ scanned. RisesBy (length scanned.unreadable.items) (D.failure_count disk.old) (D.failure_count disk.new)) }
    ensures refusals { IfErr result (λ r. (r ≡ Refusal.NotAStore) ⊎ (r ≡ Refusal.DeviceFault) ⊎ (r ≡ Refusal.OutOfMemory)) }
    ensures small { D.page_count disk.old < 10 → result ≡ Err Refusal.NotAStore }
    ensures no_store { D.honest disk.old → 10 ≤ D.page_count disk.old → result ≡ Err Refusal.NotAStore → dimensions_on (D.page_count disk.old) (seen (D.state disk.old)) ≡ None }
    ensures cause { IsCaused (D.failure_count disk.old) (D.failure_count disk.new) result }
    ensures disk { OnlyReads D.PageDisk disk.old disk.new }
{
    if disk.pages() < 10 {
        return Err(Refusal::NotAStore);
    }
    let geometry = match find_geometry(alloc, disk) {
        Ok(Some(geometry)) => geometry,
        Ok(None) => return Err(Refusal::NotAStore),
        Err(fault) => return Err(refusal_of_disk(fault)),
    };
    let sought = Sought {
        geometry,
        whose: Whose::OfStore,
    };
    match scan_commands(alloc, disk, &sought, patience) {
        Ok(scanned) => Ok(scanned),
        Err(_) => Err(Refusal::OutOfMemory),
    }
}

//! What disks in pairs take of the writes of cores.
ghost use Rattle.std.specs.Prelude.{◌≡◌, List, Some, false, true, ℕ};
ghost use Rattle.cs_core.specs.Disks.{IsWrittenNext};
ghost use Rattle.cs_disk.specs.Disk.{seen};
ghost use Rattle.law_machine.specs.Geometry.{twins_in};
ghost use Rattle.cs_mount.specs.Showing.{findings_on};
ghost use Rattle.cs_mount.specs.StorePairs.{dimensions_on, store_pairs};
ghost use Rattle.cs_mount.specs.Takes.{AreUndamaged, HasFencedHalves, IsLeftToWrite, findings_of, takes_of};
ghost use Rattle.cs_mount.specs.Torn.{dimensions_of};
ghost use Rattle.cs_twin.specs.Fences.{AreFenced};
ghost use Rattle.cs_twin.specs.Paired.{disk_below, pairs_of, rules_of, versions_of};

use crate::mount_options::Mounted;
use cs_core::Core;
use cs_disk::PageDisk;

/// A disk in pairs takes each page that its core has left to write of its round, if each half of each pair is whole or
/// a fence. If a half is damaged, each write to a pair is refused 1 DeviceFault until `fence` or `mend` fills that
/// half. A core that is halted writes nothing.
///
/// An Issue of `Core::apply` writes the first of these pages by one call of `write`. By its clause `taken` a sound disk
/// that takes this page refuses nothing itself. So a 1 that an Issue or an End answers is of the device below.
pub fn a_core_writes_what_its_pairs_take<D: PageDisk>(core: &Core<Mounted<D>>)
    ensures takes { D.honest (disk_below core.now.disk) → HasFencedHalves core.now.disk → core.now.store.halted ≡ false
        → (page : ℕ) (bytes : List ℕ) → IsLeftToWrite core.now.store page bytes → takes_of core.now.disk page bytes }
    // So it takes what an Issue writes next, which the clause `taken` of `Core::apply` asks for.
    ensures next { D.honest (disk_below core.now.disk) → HasFencedHalves core.now.disk
        → (page : ℕ) (bytes : List ℕ) → IsWrittenNext core.now.store page bytes → takes_of core.now.disk page bytes }
{
    core.progress();
}

/// Each half of each pair is whole or a fence, if an opening found none damaged. It stays so.
pub fn undamaged_halves_are_fenced<D: PageDisk>(core: &Core<Mounted<D>>)
    ensures undamaged { D.honest (disk_below core.now.disk) → AreUndamaged (findings_of core.now.disk) → HasFencedHalves core.now.disk }
    // A flush makes durable what the disk below reads as.
    ensures stays { D.honest (disk_below core.now.disk) → HasFencedHalves core.now.disk
        → AreFenced (versions_of core.now.disk) (pairs_of core.now.disk) (seen (D.state (disk_below core.now.disk))) }
{
    core.progress();
}

/// The disk of a core is in the pairs of its store, which are none in format 2. In format 4 it goes by the rules of that
/// store. A core's dimensions never change, so no call of it changes these.
pub fn a_core_lies_in_its_pairs<D: PageDisk>(core: &Core<Mounted<D>>)
    ensures pairs { D.honest (disk_below core.now.disk) → pairs_of core.now.disk ≡ store_pairs (dimensions_of core.now.store.extents) }
    ensures rules { D.honest (disk_below core.now.disk) → twins_in core.now.store.extents.format ≡ true
        → (rules_of core.now.disk).geometry ≡ Some (dimensions_of core.now.store.extents) }
    // An opening of what is durable finds that store, and finds of the halves what its disk finds.
    ensures found { D.honest (disk_below core.now.disk) → twins_in core.now.store.extents.format ≡ true
        → dimensions_on (D.page_count (disk_below core.now.disk)) (D.state (disk_below core.now.disk)).durable ≡ Some (dimensions_of core.now.store.extents) }
    ensures findings { D.honest (disk_below core.now.disk) → twins_in core.now.store.extents.format ≡ true
        → findings_on (D.page_count (disk_below core.now.disk)) (D.state (disk_below core.now.disk)).durable ≡ findings_of core.now.disk }
{
    core.progress();
}

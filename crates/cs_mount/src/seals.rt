//! Stores that are closed with their newest root on record.
ghost use Rattle.std.specs.Prelude.{◌+◌, ◌<◌, ◌↔◌, ◌≡◌, ◌≢◌, ◌≤◌, ◌⊎◌, ◌^◌, Err, IfErr, IfOk, List, MatchBool, MatchResult, Ok, OnErr, OnOk, [], false, true, ℕ};
ghost use Rattle.cs_core.specs.cs_chunk.Reads.{IsCaused, IsNoAnswer, IsOfFault};
ghost use Rattle.cs_core.specs.cs_extent.State.{shape};
ghost use Rattle.cs_disk.specs.Disk.{LeavesOnly, MayLeave, Rises, page, seen};
ghost use Rattle.cs_disk.specs.Reads.{OnlyReads};
ghost use Rattle.cs_frame.specs.Formats.{formats_of};
ghost use Rattle.cs_frame.specs.FormatNumbers.{number_in};
ghost use Rattle.cs_frame.specs.Roots.{root_fault};
ghost use Rattle.cs_mount.specs.Seals.{IsQuiet, IsResealed, IsSealFor, IsSealOf, IsSealing, IsWhyUnsealed, LeavesSealing, root_said, seal_calls, sealed_image};
ghost use Rattle.cs_mount.specs.Showing.{shown_on};
ghost use Rattle.cs_reader.specs.Openings.{IsOpeningRefusal, SpellsFurther};
ghost use Rattle.cs_twin.specs.Paired.{disk_below, failures_of, left_as_shown, moment_of, state_shown};
ghost use Rattle.law_machine.specs.Element.{Map};
ghost use Rattle.law_machine.specs.Geometry.{twins_in};
ghost use Rattle.law_machine.specs.Recovery.{Recovers};

use crate::mount_options::Mounted;
use crate::section_pages::{LAST_VERSION, read_section, write_through};
use cs_core::Core;
use cs_disk::{PageDisk, refusal_of_disk};
use cs_frame::{FormatNumber, Superblock, decode_root, encode_superblock, refusal_of_fault};
use cs_refusal::Refusal;
use std::alloc::Global;

/// Closes a store of format 4 at which nothing waits, and leaves its newest root on record: section 0 records it as
/// persistent. An opening of such a store that doesn't find that root is refused 27 RootLost, however it was lost.
/// Without this call the record is that of the root before, and the loss of the last root isn't noticed.
///
/// It reads section 0 and the root. If the record is that root already nothing is written. Else section 0 is written
/// anew, one version later and with the same pointers and generations, and flushed. What the store had accepted and not
/// made persistent ends with it. In format 2 nothing is read or written.
///
/// Refused 44 Unsettled if something waits, or a round is out. Refused 35 WornOut if section 0 has the last version.
/// Refused 20 to 24 if section 0 or the root isn't whole any more. Refused 1 DeviceFault, and 9 OutOfMemory. A refusal
/// returns the disk. After 1 what shows is as before or sealed.
pub fn seal<D: PageDisk + Drop>(
    alloc: Global,
    core: Core<Mounted<D>>,
) -> Result<Mounted<D>, (Refusal, Mounted<D>)>
    // In format 2 the disk comes back as it is.
    ensures older { twins_in core.store.extents.format ≡ false → result ≡ Ok core.disk }
    // It is refused 44 exactly if something waits, and the disk comes back as it is then.
    ensures waits { twins_in core.store.extents.format ≡ true → ¬ IsQuiet core.store → result ≡ Err (Refusal.Unsettled, core.disk) }
    ensures quiet { IfErr result (λ refused. refused.0 ≡ Refusal.Unsettled → ¬ IsQuiet core.store) }
    // What shows then is what showed, with the newest root on record, and it is durable.
    ensures sealed { D.honest (disk_below core.disk) → twins_in core.store.extents.format ≡ true → IfOk result (λ disk. state_shown disk ≡ record { durable = sealed_image (seen (state_shown core.disk)); volatile = [] }) }
    ensures refused { D.honest (disk_below core.disk) → IfErr result (λ refused. (state_shown refused.1 ≡ state_shown core.disk) ⊎ IsSealing (state_shown core.disk) (state_shown refused.1)) }
    // It recovers the same commands and the same map.
    ensures recovers { D.honest (disk_below core.disk) → (n : ℕ) (m : Map) → Recovers (shape core.store.extents) (formats_of (shape core.store.extents)) (page (seen (state_shown core.disk))) n m
        → MatchResult result (λ disk. Recovers (shape core.store.extents) (formats_of (shape core.store.extents)) (page (seen (state_shown disk))) n m) (λ refused. Recovers (shape core.store.extents) (formats_of (shape core.store.extents)) (page (seen (state_shown refused.1))) n m) }
    // An opening of the disk below shows that.
    ensures again { D.honest (disk_below core.disk) → twins_in core.store.extents.format ≡ true → (n : ℕ) (m : Map) → Recovers (shape core.store.extents) (formats_of (shape core.store.extents)) (page (seen (state_shown core.disk))) n m
        → IfOk result (λ disk. shown_on (D.page_count (disk_below core.disk)) (seen (D.state (disk_below disk))) ≡ sealed_image (seen (state_shown core.disk))) }
    // A crash meanwhile leaves what shows as before, or sealed.
    ensures crash { D.honest (disk_below core.disk) → MatchResult result
        (λ disk. LeavesOnly moment_of left_as_shown core.disk disk (λ image. MayLeave (state_shown core.disk) image ⊎ (image ≡ sealed_image (seen (state_shown core.disk)))))
        (λ refused. LeavesOnly moment_of left_as_shown core.disk refused.1 (λ image. MayLeave (state_shown core.disk) image ⊎ (image ≡ sealed_image (seen (state_shown core.disk))))) }
    // One write and one flush, or none if it was sealed already.
    ensures calls { D.honest (disk_below core.disk) → twins_in core.store.extents.format ≡ true → MatchResult result (λ disk. moment_of disk ≡ moment_of core.disk + seal_calls (seen (state_shown core.disk))) (λ refused. moment_of refused.1 ≤ moment_of core.disk + 2) }
    ensures why { D.honest (disk_below core.disk) → IfErr result (λ refused. IsNoAnswer refused.0 ⊎ (refused.0 ≡ Refusal.Unsettled) ⊎ IsWhyUnsealed (seen (state_shown core.disk)) refused.0) }
    // Whatever the disk answers.
    ensures number { IfErr result (λ refused. IsOpeningRefusal refused.0 ⊎ (refused.0 ≡ Refusal.Unsettled) ⊎ (refused.0 ≡ Refusal.WornOut)) }
    ensures honest { MatchResult result (λ disk. D.honest (disk_below core.disk) ↔ D.honest (disk_below disk)) (λ refused. D.honest (disk_below core.disk) ↔ D.honest (disk_below refused.1)) }
    ensures pages { MatchResult result (λ disk. D.page_count (disk_below disk) ≡ D.page_count (disk_below core.disk)) (λ refused. D.page_count (disk_below refused.1) ≡ D.page_count (disk_below core.disk)) }
    ensures cause { IfErr result (λ refused. refused.0 ≡ Refusal.DeviceFault → Rises (failures_of core.disk) (failures_of refused.1)) }
{
    // Called for its contract alone: what every core keeps.
    core.progress();
    let twins = core.extents().geometry().format().has_twins();
    let quiet = is_quiet(&core);
    let mut disk = core.into_disk();
    if !twins {
        return Ok(disk);
    }
    if !quiet {
        return Err((Refusal::Unsettled, disk));
    }
    match reseal(alloc, &mut disk) {
        Ok(()) => Ok(disk),
        Err(refusal) => Err((refusal, disk)),
    }
}

/// Whether nothing waits, and no round is out.
pub(crate) fn is_quiet<D: PageDisk>(core: &Core<D>) -> bool
    ensures { MatchBool result (IsQuiet core.now.store) (¬ IsQuiet core.now.store) }
{
    match core.round() {
        Some(_) => false,
        None => !core.has_waiting(),
    }
}

/// Reads the version of the root, which is whole in format 4.
fn read_root_version<D: PageDisk>(alloc: Global, disk: &mut D) -> Result<u64, Refusal>
    requires { 1 < D.page_count disk.old }
    ensures version { D.honest disk.old → IfOk result (λ version. version ≡ root_said (seen (D.state disk.old))) }
    ensures fits { IfOk result (λ version. version < 2 ^ 63) }
    ensures why { D.honest disk.old → IfErr result (λ r. IsNoAnswer r ⊎ IsOfFault (root_fault FormatNumber.Four (page (seen (D.state disk.old)) 1)) r) }
    ensures number { IfErr result IsOpeningRefusal }
    ensures disk { OnlyReads D.PageDisk disk.old disk.new }
    ensures cause { IsCaused (D.failure_count disk.old) (D.failure_count disk.new) result }
{
    let mut buffer = [0; 4096];
    match disk.read(1, &mut buffer) {
        Ok(()) => {}
        Err(fault) => return Err(refusal_of_disk(fault)),
    }
    match decode_root(alloc, &buffer, FormatNumber::Four) {
        Ok(root) => Ok(root.version),
        Err(fault) => Err(refusal_of_fault(fault)),
    }
}

/// The section one version later, with this root on record.
fn sealed(superblock: Superblock, root: u64) -> Superblock
    requires { superblock.version < 2 ^ 63 }
    ensures { result ≡ record superblock { version = superblock.version + 1; recorded = root } }
{
    let mut superblock = superblock;
    superblock.version += 1;
    superblock.recorded = root;
    superblock
}

/// The page that seals a store by what its section 0 and its root spell; nothing if the root is on record already.
fn seal_page(superblock: Superblock, root: u64) -> Result<Option<[u8; 4096]>, Refusal>
    requires spelled { (bytes : List ℕ) × SpellsFurther bytes superblock }
    requires four { number_in superblock.format ≡ FormatNumber.Four }
    requires root { root < 2 ^ 63 }
    ensures seal { IfOk result (IsSealFor superblock root) }
    ensures worn { IfErr result (λ r. (r ≡ Refusal.WornOut) × (2 ^ 63 ≤ superblock.version + 1)) }
{
    if superblock.recorded == root {
        return Ok(None);
    }
    if superblock.version >= LAST_VERSION {
        return Err(Refusal::WornOut);
    }
    Ok(Some(encode_superblock(&sealed(superblock, root))))
}

/// The page that seals the store on a disk; nothing if it is sealed.
fn find_seal<D: PageDisk>(alloc: Global, disk: &mut D) -> Result<Option<[u8; 4096]>, Refusal>
    requires { 1 < D.page_count disk.old }
    ensures seal { D.honest disk.old → IfOk result (IsSealOf (seen (D.state disk.old))) }
    ensures why { D.honest disk.old → IfErr result (λ r. IsNoAnswer r ⊎ IsWhyUnsealed (seen (D.state disk.old)) r) }
    ensures number { IfErr result (λ r. IsOpeningRefusal r ⊎ (r ≡ Refusal.WornOut)) }
    ensures disk { OnlyReads D.PageDisk disk.old disk.new }
    ensures cause { IsCaused (D.failure_count disk.old) (D.failure_count disk.new) result }
{
    let superblock = match read_section(alloc, disk, 0) {
        Ok(superblock) => superblock,
        Err(refusal) => return Err(refusal),
    };
    match read_root_version(alloc, disk) {
        Ok(root) => seal_page(superblock, root),
        Err(refusal) => Err(refusal),
    }
}

/// Writes section 0 anew with the newest root on record, unless it records it already.
fn reseal<D: PageDisk>(alloc: Global, disk: &mut D) -> Result<(), Refusal>
    requires { 1 < D.page_count disk.old }
    ensures sealed { D.honest disk.old → OnOk result (IsResealed (D.state disk.old) (D.state disk.new)) }
    ensures refused { D.honest disk.old → OnErr result ((D.state disk.new ≡ D.state disk.old) ⊎ IsSealing (D.state disk.old) (D.state disk.new)) }
    ensures crash { D.honest disk.old → LeavesOnly D.moment D.left_since disk.old disk.new (LeavesSealing (D.state disk.old)) }
    ensures calls { D.honest disk.old → MatchResult result (λ _. D.moment disk.new ≡ D.moment disk.old + seal_calls (seen (D.state disk.old))) (λ _. D.moment disk.new ≤ D.moment disk.old + 2) }
    ensures why { D.honest disk.old → IfErr result (λ r. IsNoAnswer r ⊎ IsWhyUnsealed (seen (D.state disk.old)) r) }
    ensures number { IfErr result (λ r. IsOpeningRefusal r ⊎ (r ≡ Refusal.WornOut)) }
    ensures honest { D.honest disk.old ↔ D.honest disk.new }
    ensures pages { D.page_count disk.new ≡ D.page_count disk.old }
    ensures cause { IsCaused (D.failure_count disk.old) (D.failure_count disk.new) result }
{
    match find_seal(alloc, disk) {
        Ok(Some(bytes)) => match write_through(disk, 0, &bytes) {
            Ok(()) => Ok(()),
            Err(fault) => Err(refusal_of_disk(fault)),
        },
        Ok(None) => Ok(()),
        Err(refusal) => Err(refusal),
    }
}

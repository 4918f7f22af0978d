//! Devices that are longer now than when their store was made.
ghost use Rattle.std.specs.Prelude.{◌==◌, ◌≡◌, ◌≢◌, IfErr, IfOk, None, Some, if◌then◌else◌};
ghost use Rattle.cs_disk.specs.Disk.{HasCause, page, seen};
ghost use Rattle.cs_disk.specs.Reads.{OnlyReads};
ghost use Rattle.cs_frame.specs.Geometries.{device_pages};
ghost use Rattle.cs_store.specs.Devices.{device_on, device_said};

use cs_disk::{DiskFault, PageDisk};
use cs_frame::{FormatFault, FormatNumber, Superblock, decode_section};
use std::alloc::Global;

/// How many pages the device had when its store was made, as section 0 of the superblock says; none by another section.
fn device_of(superblock: &Superblock) -> Option<u64>
    ensures { result ≡ (if superblock.now.section == 0 then Some (device_pages superblock.now.format superblock.now.extent_count superblock.now.pages superblock.now.sections) else None) }
{
    if superblock.section != 0 {
        return None;
    }
    let extents = superblock.extent_count;
    let format = superblock.format;
    Some(format.device_pages(extents, superblock.pages, superblock.sections))
}

/// None by a page with this fault; refused if memory ran out.
fn none_of(fault: FormatFault) -> Result<Option<u64>, DiskFault>
    ensures none { IfOk result (λ said. (said ≡ None) × (fault ≢ FormatFault.OutOfMemory)) }
    ensures memory { IfErr result (λ refused. refused ≡ DiskFault.OutOfMemory) }
{
    match fault {
        FormatFault::OutOfMemory => Err(DiskFault::OutOfMemory),
        FormatFault::BadGeometry
        | FormatFault::BadMagic
        | FormatFault::BadDigest
        | FormatFault::BadLength
        | FormatFault::BadPadding
        | FormatFault::BadVersion
        | FormatFault::OutOfOrder
        | FormatFault::Misplaced => Ok(None),
    }
}

/// The same, as the bytes of page 0 say; none if they aren't whole in format 4.
fn said_by(alloc: Global, bytes: &[u8; 4096]) -> Result<Option<u64>, DiskFault>
    ensures said { IfOk result (λ said. said ≡ device_said bytes.now) }
    ensures memory { IfErr result (λ fault. fault ≡ DiskFault.OutOfMemory) }
{
    match decode_section(alloc, bytes, FormatNumber::Four) {
        Ok(superblock) => Ok(device_of(&superblock)),
        Err(fault) => none_of(fault),
    }
}

/// How many pages the device had when its store was made. Page 0 says it, if it is whole and section 0 of a store of
/// format 4. If the device has more pages now, the store is in the first of them (`FileDisk::first_pages`).
pub fn pages_said<D: PageDisk>(alloc: Global, disk: &mut D) -> Result<Option<u64>, DiskFault>
    ensures said { D.honest disk.old → IfOk result (λ said. said ≡ device_on (seen (D.state disk.old))) }
    ensures disk { OnlyReads D.PageDisk disk.old disk.new }
    ensures cause { HasCause (D.failure_count disk.old) (D.failure_count disk.new) result }
{
    if disk.pages() == 0 {
        return Ok(None);
    }
    let mut buffer = [0; 4096];
    match disk.read(0, &mut buffer) {
        Ok(()) => said_by(alloc, &buffer),
        Err(fault) => Err(fault),
    }
}

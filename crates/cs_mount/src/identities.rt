//! The identities that the two ends of a device say.
ghost use Rattle.std.specs.Prelude.{◌≡◌, ◌≢◌, ◌<◌, IfErr, IfOk, Some, option_map};
ghost use Rattle.cs_disk.specs.Disk.{HasCause, page, seen};
ghost use Rattle.cs_disk.specs.Reads.{OnlyReads};
ghost use Rattle.cs_mount.specs.Hidden.{is_another};
ghost use Rattle.cs_mount.specs.Identities.{both_said, identity_said, stores_on};

use cs_disk::{DiskFault, PageDisk};
use cs_frame::{FormatFault, FormatNumber, StoreId, decode_section};
use std::alloc::Global;

/// What stands for a page with this fault, as it spells nothing; refused if memory ran out.
pub fn unless_memory<T: Drop>(fault: FormatFault, none: T) -> Result<T, DiskFault>
    ensures none { IfOk result (λ it. (it ≡ none) × (fault ≢ FormatFault.OutOfMemory)) }
    ensures memory { IfErr result (λ refused. refused ≡ DiskFault.OutOfMemory) }
{
    match fault {
        FormatFault::OutOfMemory => Err(DiskFault::OutOfMemory),
        FormatFault::BadGeometry
        | FormatFault::BadMagic
        | FormatFault::BadDigest
        | FormatFault::BadLength
        | FormatFault::BadPadding
        | FormatFault::BadVersion
        | FormatFault::OutOfOrder
        | FormatFault::Misplaced => Ok(none),
    }
}

/// Whether a page says the identity of another store than this one.
pub(crate) fn says_another(id: StoreId, said: Option<StoreId>) -> bool
    ensures { result ≡ is_another id.0 (option_map (λ it. it.0) said) }
{
    match said {
        Some(said) => said != id,
        None => false,
    }
}

/// The identity of the store of which these bytes are a section, if they are whole in format 4.
pub(crate) fn store_said(alloc: Global, bytes: &[u8; 4096]) -> Result<Option<StoreId>, DiskFault>
    ensures store { IfOk result (λ found. option_map (λ id. id.0) found ≡ identity_said bytes.now) }
    ensures memory { IfErr result (λ fault. fault ≡ DiskFault.OutOfMemory) }
{
    match decode_section(alloc, bytes, FormatNumber::Four) {
        Ok(superblock) => Ok(superblock.format.store()),
        Err(fault) => unless_memory(fault, None),
    }
}

/// Reads a page for the identity that it says.
pub fn read_store<D: PageDisk>(
    alloc: Global,
    disk: &mut D,
    number: u64,
) -> Result<Option<StoreId>, DiskFault>
    requires { number < D.page_count disk.old }
    ensures store { D.honest disk.old → IfOk result (λ found. option_map (λ id. id.0) found ≡ identity_said (page (seen (D.state disk.old)) number)) }
    ensures disk { OnlyReads D.PageDisk disk.old disk.new }
    ensures cause { HasCause (D.failure_count disk.old) (D.failure_count disk.new) result }
{
    let mut buffer = [0; 4096];
    match disk.read(number, &mut buffer) {
        Ok(()) => store_said(alloc, &buffer),
        Err(fault) => Err(fault),
    }
}

/// Two identities, if the last one is there and they differ.
pub(crate) fn if_two(first: StoreId, last: Option<StoreId>) -> Option<(StoreId, StoreId)>
    ensures { option_map (λ both. (both.0.0, both.1.0)) result ≡ both_said (Some first.0) (option_map (λ id. id.0) last) }
{
    match last {
        Some(last) => {
            if first == last {
                None
            } else {
                Some((first, last))
            }
        }
        None => None,
    }
}

/// The identities of page 0 and of the last page, if both are whole sections in format 4 and of different stores. No
/// crash of one store leaves that. If page 0 is no such section, the last page isn't read.
pub fn two_stores<D: PageDisk>(
    alloc: Global,
    disk: &mut D,
) -> Result<Option<(StoreId, StoreId)>, DiskFault>
    requires { 0 < D.page_count disk.old }
    ensures stores { D.honest disk.old → IfOk result (λ found. option_map (λ both. (both.0.0, both.1.0)) found ≡ stores_on (D.page_count disk.old) (seen (D.state disk.old))) }
    ensures disk { OnlyReads D.PageDisk disk.old disk.new }
    ensures cause { HasCause (D.failure_count disk.old) (D.failure_count disk.new) result }
{
    let pages = disk.pages();
    match read_store(alloc, disk, 0) {
        Ok(Some(first)) => match read_store(alloc, disk, pages - 1) {
            Ok(last) => Ok(if_two(first, last)),
            Err(fault) => Err(fault),
        },
        Ok(None) => Ok(None),
        Err(fault) => Err(fault),
    }
}

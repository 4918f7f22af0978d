//! What a disk holds of the pages that a store has twice.
ghost use Rattle.std.specs.Prelude.{◌≡◌, ◌⊎◌, ◌↔◌, ◌<◌, Err, IfErr, IfOk, IsTrue};
ghost use Rattle.std.specs.List.{list_any};
ghost use Rattle.cs_core.specs.cs_chunk.Reads.{IsCaused};
ghost use Rattle.cs_disk.specs.Disk.{HasCause, seen};
ghost use Rattle.cs_disk.specs.Reads.{OnlyReads};
ghost use Rattle.cs_mount.specs.Looks.{IsLeftOver, IsTaken, is_whole};
ghost use Rattle.cs_twin.specs.Pairs.{ArePairs};
ghost use Rattle.cs_mount.specs.Showing.{findings_on};
ghost use Rattle.cs_mount.specs.StorePairs.{store_version};

use crate::store_pairs::{StoreRules, find_geometry, find_last, holds_superblock};
use cs_disk::{DiskFault, PageDisk, refusal_of_disk};
use cs_refusal::Refusal;
use cs_twin::{Finding, Pair, read_findings};
use std::alloc::Global;

/// What the pairs of the store hold that is on the disk.
fn read_store<D: PageDisk>(alloc: Global, disk: &mut D) -> Result<Vec<Finding>, DiskFault>
    requires { 0 < D.page_count disk.old }
    ensures findings { D.honest disk.old → IfOk result (λ found. found.items ≡ findings_on (D.page_count disk.old) (seen (D.state disk.old))) }
    ensures disk { OnlyReads D.PageDisk disk.old disk.new }
    ensures cause { HasCause (D.failure_count disk.old) (D.failure_count disk.new) result }
{
    let geometry = match find_geometry(alloc, disk) {
        Ok(geometry) => geometry,
        Err(fault) => return Err(fault),
    };
    let rules = StoreRules { alloc, geometry };
    match rules.pairs() {
        Ok(pairs) => read_findings(alloc, disk, &rules, &pairs),
        Err(_) => Err(DiskFault::OutOfMemory),
    }
}

/// What the pages on a disk hold that a store has twice, whether the store opens or not: nothing if there is no store
/// of format 4. Nothing is flushed or written.
///
/// Refused 43 NotAStore where it has fewer than 10 pages, 1 DeviceFault, and 9 OutOfMemory.
pub fn look<D: PageDisk>(alloc: Global, disk: &mut D) -> Result<Vec<Finding>, Refusal>
    ensures findings { D.honest disk.old → IfOk result (λ found. found.items ≡ findings_on (D.page_count disk.old) (seen (D.state disk.old))) }
    ensures disk { OnlyReads D.PageDisk disk.old disk.new }
    ensures refusals { IfErr result (λ refusal. (refusal ≡ Refusal.NotAStore) ⊎ (refusal ≡ Refusal.DeviceFault) ⊎ (refusal ≡ Refusal.OutOfMemory)) }
    ensures small { (result ≡ Err Refusal.NotAStore) ↔ (D.page_count disk.old < 10) }
    ensures cause { IsCaused (D.failure_count disk.old) (D.failure_count disk.new) result }
{
    if disk.pages() < 10 {
        return Err(Refusal::NotAStore);
    }
    match read_store(alloc, disk) {
        Ok(found) => Ok(found),
        Err(fault) => Err(refusal_of_disk(fault)),
    }
}

/// Whether one of these pairs has a half that is whole.
fn is_any_whole(found: &[Finding]) -> bool
    ensures { result ≡ list_any is_whole found.now }
{
    found.iter().any(|finding| finding.held().version > 0)
}

/// Whether the last page holds the first section of a store with the device's pages, or one of these pairs has a half
/// that is whole.
fn is_left<D: PageDisk>(
    alloc: Global,
    disk: &mut D,
    rules: &StoreRules,
    pairs: &[Pair],
) -> Result<bool, DiskFault>
    requires some { 0 < D.page_count disk.old }
    requires pairs { ArePairs pairs.now (D.page_count disk.old) }
    ensures left { D.honest disk.old → IfOk result (λ left. IsTrue left ↔ IsLeftOver (D.page_count disk.old) (seen (D.state disk.old)) (store_version rules.now.geometry) pairs.now) }
    ensures disk { OnlyReads D.PageDisk disk.old disk.new }
    ensures cause { HasCause (D.failure_count disk.old) (D.failure_count disk.new) result }
{
    match find_last(alloc, disk) {
        Ok(Some(_)) => Ok(true),
        Ok(None) => match read_findings(alloc, disk, rules, pairs) {
            Ok(found) => Ok(is_any_whole(&found)),
            Err(fault) => Err(fault),
        },
        Err(fault) => Err(fault),
    }
}

/// Whether the disk holds a store, or what is left of one: page 0 is the first section of a store, of whatever
/// format; or, of format 4, the last page is one, or one of these pairs has a half that is whole. Nothing is flushed
/// or written.
pub fn is_taken<D: PageDisk>(
    alloc: Global,
    disk: &mut D,
    rules: &StoreRules,
    pairs: &[Pair],
) -> Result<bool, DiskFault>
    requires some { 0 < D.page_count disk.old }
    requires pairs { ArePairs pairs.now (D.page_count disk.old) }
    ensures taken { D.honest disk.old → IfOk result (λ taken. IsTrue taken ↔ IsTaken (D.page_count disk.old) (seen (D.state disk.old)) (store_version rules.now.geometry) pairs.now) }
    ensures disk { OnlyReads D.PageDisk disk.old disk.new }
    ensures cause { HasCause (D.failure_count disk.old) (D.failure_count disk.new) result }
{
    match holds_superblock(alloc, disk) {
        Ok(true) => Ok(true),
        Ok(false) => is_left(alloc, disk, rules, pairs),
        Err(fault) => Err(fault),
    }
}

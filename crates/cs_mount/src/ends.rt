//! What is written at the ends of a device.
ghost use Rattle.std.specs.Prelude.{◌≡◌, ◌≢◌, ◌<◌, ◌≤◌, IfOk, MatchBool, MatchOption, ℕ};
ghost use Rattle.cs_disk.specs.Disk.{HasCause, page, seen};
ghost use Rattle.cs_disk.specs.Reads.{OnlyReads};
ghost use Rattle.cs_mount.specs.Ends.{IsFirstWritten};
ghost use Rattle.cs_mount.specs.Makings.{zero_page};

use cs_disk::{DiskFault, PageDisk};

/// How many pages an end of a device has.
const END: u64 = 256;

/// Reads a page, and returns whether it holds zeros alone.
fn holds_zeros<D: PageDisk>(disk: &mut D, number: u64) -> Result<bool, DiskFault>
    requires { number < D.page_count disk.old }
    ensures zeros { D.honest disk.old → IfOk result (λ zeros. MatchBool zeros (page (seen (D.state disk.old)) number ≡ zero_page) (page (seen (D.state disk.old)) number ≢ zero_page)) }
    ensures disk { OnlyReads D.PageDisk disk.old disk.new }
    ensures cause { HasCause (D.failure_count disk.old) (D.failure_count disk.new) result }
{
    let mut buffer = [1; 4096];
    match disk.read(number, &mut buffer) {
        Ok(()) => Ok(buffer == [0; 4096]),
        Err(fault) => Err(fault),
    }
}

/// The first page of these that doesn't hold zeros alone.
fn written_among<D: PageDisk>(disk: &mut D, from: u64, to: u64) -> Result<Option<u64>, DiskFault>
    requires { to ≤ D.page_count disk.old }
    ensures written { D.honest disk.old → IfOk result (λ found. MatchOption found ((p : ℕ) → from ≤ p → p < to → page (seen (D.state disk.old)) p ≡ zero_page)
        (λ n. (from ≤ n) × (n < to) × (page (seen (D.state disk.old)) n ≢ zero_page) × ((p : ℕ) → from ≤ p → p < n → page (seen (D.state disk.old)) p ≡ zero_page))) }
    ensures disk { OnlyReads D.PageDisk disk.old disk.new }
    ensures cause { HasCause (D.failure_count disk.old) (D.failure_count disk.new) result }
{
    for number in from..to {
        match holds_zeros(disk, number) {
            Ok(true) => {}
            Ok(false) => return Ok(Some(number)),
            Err(fault) => return Err(fault),
        }
    }
    Ok(None)
}

/// The first page at an end of the device that doesn't hold zeros alone, or nothing if all pages there do. Its ends are
/// its first 256 pages and its last 256.
pub fn first_written<D: PageDisk>(disk: &mut D) -> Result<Option<u64>, DiskFault>
    ensures written { D.honest disk.old → IfOk result (IsFirstWritten (D.page_count disk.old) (seen (D.state disk.old))) }
    ensures disk { OnlyReads D.PageDisk disk.old disk.new }
    ensures cause { HasCause (D.failure_count disk.old) (D.failure_count disk.new) result }
{
    let pages = disk.pages();
    match written_among(disk, 0, pages.min(END)) {
        Ok(None) => written_among(disk, pages.saturating_sub(END), pages),
        Ok(Some(number)) => Ok(Some(number)),
        Err(fault) => Err(fault),
    }
}

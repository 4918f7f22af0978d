//! Pages that are written anew on a device.
ghost use Rattle.std.specs.Prelude.{◌≡◌, ◌<◌, ◌↔◌, OnOk};
ghost use Rattle.std.specs.List.{AllByRecursion};
ghost use Rattle.cs_disk.specs.Disk.{HasCause, Leaves, LeavesOnly, flushed, seen};
ghost use Rattle.cs_mount.specs.Makings.{LeavesSome, after_writes};
ghost use Rattle.cs_mount.specs.Remaking.{LeavesRemaking, fenced_first, fencing, remade, remade_on};

use cs_disk::{DiskFault, PageDisk};

/// Fills these pages with bytes of 255.
fn fence_all<D: PageDisk>(disk: &mut D, pages: &[(u64, [u8; 4096])]) -> Result<(), DiskFault>
    requires { AllByRecursion (λ w. w.0 < D.page_count disk.old) pages.now }
    ensures fenced { D.honest disk.old → OnOk result (D.state disk.new ≡ after_writes (D.state disk.old) (fencing pages.now)) }
    ensures some { D.honest disk.old → LeavesSome D.PageDisk disk.old disk.new (fencing pages.now) }
    ensures honest { D.honest disk.old ↔ D.honest disk.new }
    ensures pages { D.page_count disk.new ≡ D.page_count disk.old }
    ensures cause { HasCause (D.failure_count disk.old) (D.failure_count disk.new) result }
{
    for k in 0..pages.len() {
        let entry = &pages[k];
        match disk.write(entry.0, &[255; 4096]) {
            Ok(()) => {}
            Err(fault) => return Err(fault),
        }
    }
    Ok(())
}

/// Writes these pages.
fn write_all<D: PageDisk>(disk: &mut D, pages: &[(u64, [u8; 4096])]) -> Result<(), DiskFault>
    requires { AllByRecursion (λ w. w.0 < D.page_count disk.old) pages.now }
    ensures written { D.honest disk.old → OnOk result (D.state disk.new ≡ after_writes (D.state disk.old) pages.now) }
    ensures some { D.honest disk.old → LeavesSome D.PageDisk disk.old disk.new pages.now }
    ensures honest { D.honest disk.old ↔ D.honest disk.new }
    ensures pages { D.page_count disk.new ≡ D.page_count disk.old }
    ensures cause { HasCause (D.failure_count disk.old) (D.failure_count disk.new) result }
{
    for k in 0..pages.len() {
        let entry = &pages[k];
        match disk.write(entry.0, &entry.1) {
            Ok(()) => {}
            Err(fault) => return Err(fault),
        }
    }
    Ok(())
}

/// Fills these pages with bytes of 255, and flushes.
fn fence_first<D: PageDisk>(disk: &mut D, pages: &[(u64, [u8; 4096])]) -> Result<(), DiskFault>
    requires { AllByRecursion (λ w. w.0 < D.page_count disk.old) pages.now }
    ensures fenced { D.honest disk.old → OnOk result (D.state disk.new ≡ fenced_first pages.now (D.state disk.old)) }
    ensures some { D.honest disk.old → LeavesSome D.PageDisk disk.old disk.new (fencing pages.now) }
    ensures honest { D.honest disk.old ↔ D.honest disk.new }
    ensures pages { D.page_count disk.new ≡ D.page_count disk.old }
    ensures cause { HasCause (D.failure_count disk.old) (D.failure_count disk.new) result }
{
    match fence_all(disk, pages) {
        Ok(()) => disk.flush(),
        Err(fault) => Err(fault),
    }
}

/// Writes these pages, and flushes.
fn write_then<D: PageDisk>(disk: &mut D, pages: &[(u64, [u8; 4096])]) -> Result<(), DiskFault>
    requires { AllByRecursion (λ w. w.0 < D.page_count disk.old) pages.now }
    ensures written { D.honest disk.old → OnOk result (D.state disk.new ≡ flushed (after_writes (D.state disk.old) pages.now)) }
    ensures some { D.honest disk.old → LeavesSome D.PageDisk disk.old disk.new pages.now }
    ensures honest { D.honest disk.old ↔ D.honest disk.new }
    ensures pages { D.page_count disk.new ≡ D.page_count disk.old }
    ensures cause { HasCause (D.failure_count disk.old) (D.failure_count disk.new) result }
{
    match write_all(disk, pages) {
        Ok(()) => disk.flush(),
        Err(fault) => Err(fault),
    }
}

/// Writes these pages anew. It takes two steps, with a flush at the end of each: it fills them with bytes of 255, and
/// then writes them. So no write can complete what a crash tore off there.
///
/// Refused 1 DeviceFault, and 9 OutOfMemory. A crash or a refusal leaves some of the pages as they were, fenced, or
/// written. No other page is written.
pub fn remake<D: PageDisk>(disk: &mut D, pages: &[(u64, [u8; 4096])]) -> Result<(), DiskFault>
    requires { AllByRecursion (λ w. w.0 < D.page_count disk.old) pages.now }
    ensures remade { D.honest disk.old → OnOk result (D.state disk.new ≡ remade_on pages.now (D.state disk.old)) }
    // The device shows then what `Remade` shows of it.
    ensures seen { D.honest disk.old → OnOk result (seen (D.state disk.new) ≡ remade pages.now (seen (D.state disk.old))) }
    ensures crash { D.honest disk.old → LeavesOnly D.moment D.left_since disk.old disk.new (LeavesRemaking pages.now (D.state disk.old)) }
    // So does one after it.
    ensures left { D.honest disk.old → Leaves (D.state disk.new) (LeavesRemaking pages.now (D.state disk.old)) }
    ensures honest { D.honest disk.old ↔ D.honest disk.new }
    ensures pages { D.page_count disk.new ≡ D.page_count disk.old }
    ensures cause { HasCause (D.failure_count disk.old) (D.failure_count disk.new) result }
{
    match fence_first(disk, pages) {
        Ok(()) => write_then(disk, pages),
        Err(fault) => Err(fault),
    }
}

//! Pages of sections that are read and written anew.
ghost use Rattle.std.specs.Prelude.{◌+◌, ◌<◌, ◌↔◌, ◌≡◌, ◌≤◌, ◌⊎◌, [], ◌∷◌, IfErr, IfOk, List, MatchResult, OnErr, OnOk, ℕ};
ghost use Rattle.cs_core.specs.cs_chunk.Reads.{IsCaused, IsNoAnswer, IsOfFault};
ghost use Rattle.cs_disk.specs.Disk.{HasCause, flushed, page, seen, written};
ghost use Rattle.cs_disk.specs.Reads.{OnlyReads};
ghost use Rattle.cs_frame.specs.FormatNumbers.{number_in};
ghost use Rattle.cs_frame.specs.Superblocks.{superblock_fault};
ghost use Rattle.cs_mount.specs.Makings.{LeavesSome};
ghost use Rattle.cs_reader.specs.Openings.{IsOpeningRefusal, SpellsFurther};

use cs_disk::{DiskFault, PageDisk, refusal_of_disk};
use cs_frame::{FormatNumber, Superblock, decode_section, refusal_of_fault};
use cs_refusal::Refusal;
use std::alloc::Global;

/// The last version that a section may have.
pub const LAST_VERSION: u64 = (1 << 63) - 1;

/// Reads the page of a section, which is whole in format 4.
pub fn read_section<D: PageDisk>(
    alloc: Global,
    disk: &mut D,
    number: u64,
) -> Result<Superblock, Refusal>
    requires { number < D.page_count disk.old }
    ensures read { D.honest disk.old → IfOk result (SpellsFurther (page (seen (D.state disk.old)) number)) }
    ensures some { IfOk result (λ it. (bytes : List ℕ) × SpellsFurther bytes it) }
    ensures four { IfOk result (λ it. number_in it.format ≡ FormatNumber.Four) }
    ensures why { D.honest disk.old → IfErr result (λ r. IsNoAnswer r ⊎ IsOfFault (superblock_fault FormatNumber.Four (page (seen (D.state disk.old)) number)) r) }
    ensures number { IfErr result IsOpeningRefusal }
    ensures disk { OnlyReads D.PageDisk disk.old disk.new }
    ensures cause { IsCaused (D.failure_count disk.old) (D.failure_count disk.new) result }
{
    let mut buffer = [0; 4096];
    match disk.read(number, &mut buffer) {
        Ok(()) => {}
        Err(fault) => return Err(refusal_of_disk(fault)),
    }
    match decode_section(alloc, &buffer, FormatNumber::Four) {
        Ok(superblock) => Ok(superblock),
        Err(fault) => Err(refusal_of_fault(fault)),
    }
}

/// Writes a page and flushes.
pub fn write_through<D: PageDisk>(
    disk: &mut D,
    number: u64,
    bytes: &[u8; 4096],
) -> Result<(), DiskFault>
    requires { number < D.page_count disk.old }
    ensures written { D.honest disk.old → OnOk result (D.state disk.new ≡ flushed (written (D.state disk.old) number bytes.now)) }
    ensures refused { D.honest disk.old → OnErr result ((D.state disk.new ≡ D.state disk.old) ⊎ (D.state disk.new ≡ written (D.state disk.old) number bytes.now)) }
    ensures some { D.honest disk.old → LeavesSome D.PageDisk disk.old disk.new ((number, bytes.now) ∷ []) }
    ensures calls { D.honest disk.old → MatchResult result (λ _. D.moment disk.new ≡ D.moment disk.old + 2) (λ _. D.moment disk.new ≤ D.moment disk.old + 2) }
    ensures honest { D.honest disk.old ↔ D.honest disk.new }
    ensures pages { D.page_count disk.new ≡ D.page_count disk.old }
    ensures cause { HasCause (D.failure_count disk.old) (D.failure_count disk.new) result }
{
    match disk.write(number, bytes) {
        Ok(()) => disk.flush(),
        Err(fault) => Err(fault),
    }
}

//! A disk in memory that tears pages, and what a crash leaves of pairs where it tears them.
ghost use Rattle.std.specs.Prelude.{◌≡◌, ◌⊎◌, ◌<◌, ℕ, Bool, IsOkUnless, List, OnOk, Some, length, slice_get};
ghost use Rattle.cs_disk.specs.Memory.{memory_state};
ghost use Rattle.cs_disk.specs.Disk.{Image, MayLeave, State, page, seen};
ghost use Rattle.cs_twin.specs.Fences.{AreFenced, AreFences, AreOverKnown, AreWrittenOnce};
ghost use Rattle.cs_twin.specs.Tears.{after_fate, after_sector, after_sectors, left_by, spliced, HasWaitingWrite, IsLeft, IsNotWhole, IsTornBeside, MayTear};
ghost use Rattle.cs_twin.specs.Pairs.{AreNoOlder, ArePairs, fence, half, shown, shown_state};
ghost use Rattle.cs_twin.specs.declared.pairs.Pair.{Pair};

use cs_disk::{CrashDisk, DiskFault, MemoryDisk, PageDisk};
use std::alloc::Global;

/// A disk in memory whose crash can be made to tear pages that were being written, at any byte. It is for trying out
/// what such crashes leave.
///
/// What a `PageDisk` and a `CrashDisk` say holds of it: only `tear` leaves what they don't speak of. It keeps the
/// volatile writes twice, 4,104 bytes each time.
#[derive(Drop)]
pub struct TearDisk {
    alloc: Global,
    disk: MemoryDisk,
    volatile: Vec<(u64, [u8; 4096])>,
    ghost same: { volatile.items ≡ (memory_state disk).volatile },
}

impl TearDisk {
    ghost use Rattle.std.specs.Prelude.{[], ℕ, List, IfOk, IsOkUnless, length, replicate};
    ghost use Rattle.cs_twin.specs.declared.pairs.Pair.{Pair};
    ghost use Rattle.cs_twin.specs.TearDisks.{tear_state};
    ghost use Rattle.cs_twin.specs.Tears.{AreTold, MayTear, NoneLooksWhole, left_by};

    /// A disk of so many pages of zeros, all of them durable. Refused 9 OutOfMemory alone.
    pub fn new(alloc: Global, pages: u64) -> Result<Self, DiskFault>
        ensures durable { IfOk result (λ d. (tear_state d).durable ≡ replicate pages (replicate 4096 0)) }
        ensures volatile { IfOk result (λ d. (tear_state d).volatile ≡ []) }
        ensures memory { IsOkUnless result DiskFault.OutOfMemory }
    {
        let disk = MemoryDisk::new(alloc, pages)?;
        Ok(TearDisk {
            alloc,
            disk,
            volatile: Vec::new(alloc),
        })
    }

    /// Crashes: of each of the volatile writes, oldest first, it is said what becomes of it, and what is left is
    /// durable. Refused 9 OutOfMemory alone.
    pub fn tear(self, fates: &[Fate]) -> Result<Self, DiskFault>
        requires { length fates.now ≡ length (tear_state self).volatile }
        ensures durable { IfOk result (λ d. (tear_state d).durable ≡ left_by (tear_state self).durable (tear_state self).volatile fates.now) }
        ensures volatile { IfOk result (λ d. (tear_state d).volatile ≡ []) }
        ensures torn { (V : ℕ → List ℕ → ℕ) (pairs : List Pair) → IfOk result (λ d. NoneLooksWhole V pairs (tear_state self) fates.now (tear_state d).durable → AreTold V pairs (tear_state self) (tear_state d).durable → MayTear V pairs (tear_state self) (tear_state d).durable) }
        ensures memory { IsOkUnless result DiskFault.OutOfMemory }
    {
        let TearDisk {
            alloc,
            disk,
            volatile,
        } = self;
        let none = vec![in alloc; false; volatile.len()]?;
        let mut disk = disk.crash(&none);
        lay_all(&mut disk, &volatile, fates)?;
        disk.flush()?;
        Ok(TearDisk {
            alloc,
            disk,
            volatile: Vec::new(alloc),
        })
    }
}

impl PageDisk for TearDisk {
    ghost use Rattle.std.specs.Prelude.{length};
    ghost use Rattle.std.proofs.Common.{inl, refl};
    ghost use Rattle.cs_disk.specs.Memory.{memory_left_since, memory_moment};
    ghost use Rattle.cs_disk.specs.Past.{past_states, only_now as only_held};

    ghost honest = { λ _. Unit {0} };

    ghost state = { λ d. memory_state d.disk };

    ghost device = { λ d. memory_state d.disk };

    ghost page_count = { λ d. length (memory_state d.disk).durable };

    ghost failure_count = { λ _. 0 };

    ghost refusal_count = { λ _. 0 };

    ghost sound = { λ _. Unit {0} };

    ghost takes = { λ _ _ _. Unit {0} };

    ghost moment = { λ d. memory_moment d.disk };

    ghost left_since = { λ d. memory_left_since d.disk };

    fn pages(&self) -> u64 {
        self.disk.pages()
    }

    fn failures(&self) -> u64 {
        0
    }

    /// Asks for no memory, and is never refused.
    fn read(&mut self, number: u64, buffer: &mut [u8; 4096]) -> Result<(), DiskFault> {
        self.disk.read(number, buffer)
    }

    fn write(&mut self, number: u64, bytes: &[u8; 4096]) -> Result<(), DiskFault> {
        self.volatile.reserve(1)?;
        match self.disk.write(number, bytes) {
            Ok(()) => {
                self.volatile.push_reserved((number, *bytes));
                Ok(())
            }
            Err(fault) => Err(fault),
        }
    }

    /// Asks for no memory, and is never refused.
    fn flush(&mut self) -> Result<(), DiskFault> {
        match self.disk.flush() {
            Ok(()) => {
                self.volatile.clear();
                Ok(())
            }
            Err(fault) => Err(fault),
        }
    }

    ghost sized = { λ d h. refl };

    ghost whole = { λ d h. record { durable = d.disk.durable; volatile = d.disk.volatile; durable_bytes = d.disk.durable_bytes; volatile_bytes = d.disk.volatile_bytes } };

    ghost counts_now = { λ d t c h le now. inl now };

    ghost only_now = { λ d c h left. only_held (past_states d.disk.past) (memory_state d.disk) c left };
}

impl CrashDisk for TearDisk {
    ghost use Rattle.std.specs.Prelude.{length};
    ghost use Rattle.std.proofs.Common.{refl};

    ghost can_crash = { λ _. Unit {0} };

    ghost volatile_count = { λ d. length (memory_state d.disk).volatile };

    fn crashable(&self) -> bool {
        true
    }

    fn volatile(&self) -> usize {
        self.disk.volatile()
    }

    fn crash(self, mask: &[bool]) -> Self {
        let TearDisk {
            alloc,
            disk,
            mut volatile,
        } = self;
        volatile.clear();
        TearDisk {
            alloc,
            disk: disk.crash(mask),
            volatile,
        }
    }

    ghost counted = { λ d h can. refl };
}

/// What a crash makes of a volatile write.
#[derive(Clone, Copy, Debug, PartialEq, Eq)]
pub enum Fate {
    /// It is lost.
    Lost,
    /// It is kept.
    Kept,
    /// The bytes from one place up to another are kept, the others aren't.
    Torn { from: usize, to: usize },
    /// Of each eighth of the page, 512 bytes, it is said what becomes of it.
    Sectors([Sector; 8]),
}

/// What a crash makes of a sector of a page that was being written.
#[derive(Clone, Copy, Debug, PartialEq, Eq)]
pub enum Sector {
    /// It has what was there.
    Old,
    /// It has what was written.
    New,
    /// All its bytes are this one: neither what was there nor what was written.
    Noise(u8),
}

/// Makes of a page what it has once the bytes of a write to it from one place up to another are kept.
fn splice(page: &mut [u8; 4096], bytes: &[u8; 4096], from: usize, to: usize)
    ensures { page.new ≡ spliced from to bytes.now page.old }
{
    let end = to.min(4096);
    let start = from.min(end);
    page[start..end].copy_from_slice(&bytes[start..end]);
}

/// Makes of a page what it has once this became of one of its sectors.
fn lay_sector(page: &mut [u8; 4096], bytes: &[u8; 4096], number: usize, sector: Sector)
    requires { number < 8 }
    ensures { page.new ≡ after_sector number sector bytes.now page.old }
{
    match sector {
        Sector::Old => {}
        Sector::New => splice(page, bytes, 512 * number, 512 * number + 512),
        Sector::Noise(byte) => splice(page, &[byte; 4096], 512 * number, 512 * number + 512),
    }
}

/// Makes of a page what it has once this became of its sectors.
fn lay_sectors(page: &mut [u8; 4096], bytes: &[u8; 4096], sectors: &[Sector; 8])
    ensures { page.new ≡ after_sectors 0 sectors.now bytes.now page.old }
{
    for number in 0..8 {
        lay_sector(page, bytes, number, sectors[number]);
    }
}

/// Makes of a page of a disk what becomes of a write to it.
fn lay(disk: &mut MemoryDisk, write: &(u64, [u8; 4096]), fate: Fate) -> Result<(), DiskFault>
    ensures laid { OnOk result (seen (memory_state disk.new) ≡ after_fate (seen (memory_state disk.old)) write.now fate) }
    ensures memory { IsOkUnless result DiskFault.OutOfMemory }
{
    if write.0 >= disk.pages() {
        return Ok(());
    }
    match fate {
        Fate::Lost => Ok(()),
        Fate::Kept => disk.write(write.0, &write.1),
        Fate::Torn { from, to } => {
            let mut page = [0; 4096];
            disk.read(write.0, &mut page)?;
            splice(&mut page, &write.1, from, to);
            disk.write(write.0, &page)
        }
        Fate::Sectors(sectors) => {
            let mut page = [0; 4096];
            disk.read(write.0, &mut page)?;
            lay_sectors(&mut page, &write.1, &sectors);
            disk.write(write.0, &page)
        }
    }
}

/// Makes of the pages of a disk what becomes of these writes.
pub fn lay_all(
    disk: &mut MemoryDisk,
    writes: &[(u64, [u8; 4096])],
    fates: &[Fate],
) -> Result<(), DiskFault>
    requires { length fates.now ≡ length writes.now }
    ensures laid { OnOk result (seen (memory_state disk.new) ≡ left_by (seen (memory_state disk.old)) writes.now fates.now) }
    ensures memory { IsOkUnless result DiskFault.OutOfMemory }
{
    for (i, write) in writes.iter().enumerate() {
        lay(disk, write, fates[i])?;
    }
    Ok(())
}

/// What a crash leaves that tears pages at any byte shows as what a crash that tears nothing may leave. Only pages of
/// no pair that were being written may hold anything.
///
/// Each page waits over a half that is whole or a fence, as those of a sound `Paired` do. Each pair is written once
/// between two flushes. So a torn half mixes two pages, each whole or a fence. It is assumed of digests that such a
/// mixture is whole only as one of the two.
pub fn torn_pages_show_a_crash()
    ensures { (V : ℕ → List ℕ → ℕ) (pairs : List Pair) (s : State) (c : Image) → ArePairs pairs (length s.durable) → AreNoOlder V pairs s
        → AreOverKnown V pairs s → AreWrittenOnce pairs s → MayTear V pairs s c
        → (d : Image) × MayLeave (shown_state V pairs s) d × IsTornBeside pairs (shown_state V pairs s) d (shown V pairs c) }
{}

/// If each half of each pair is whole or a fence, so is what a crash leaves that tears nothing.
pub fn fenced_halves_stay_known()
    ensures { (V : ℕ → List ℕ → ℕ) (pairs : List Pair) (s : State) (c : Image) → AreNoOlder V pairs s → AreFenced V pairs s.durable → MayLeave s c → AreFenced V pairs c }
{}

/// If fences alone were being written to pairs, each pair shows after a crash what it showed. Each half holds what
/// was there, or the fence; or it was being written, and isn't whole.
pub fn a_torn_fence_shows_the_same()
    ensures { (V : ℕ → List ℕ → ℕ) (pairs : List Pair) (s : State) (c : Image) → ArePairs pairs (length s.durable) → AreNoOlder V pairs s → ((page : ℕ) → V page fence ≡ 0) → AreFences pairs s
        → length c ≡ length s.durable → ((k : ℕ) (x : Pair) (twin : Bool) → slice_get pairs k ≡ Some x → IsLeft s (half x twin) (page c (half x twin)) ⊎ (HasWaitingWrite s (half x twin) × IsNotWhole V pairs (half x twin) (page c (half x twin))))
        → (k : ℕ) (x : Pair) → slice_get pairs k ≡ Some x → page (shown V pairs c) x.page ≡ page (shown V pairs s.durable) x.page }
{}

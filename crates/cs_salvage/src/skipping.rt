//! A disk of which some pages aren't asked for.
ghost use Rattle.std.specs.Prelude.{◌≡◌, ◌⊎◌, ◌↔◌, ◌+◌, ◌-◌, ◌<◌, ◌^◌, Contains, Err, IsErrOf, MatchBool, OnErr, OnOk, min, ℕ};
ghost use Rattle.cs_disk.specs.Disk.{Counts, GoesOn, HasCause, flushed, page, seen, written};
ghost use Rattle.cs_disk.specs.declared.fault.DiskFault.TheVariants.{OutOfMemory};
ghost use Rattle.cs_salvage.specs.Skips.{disk_skipped, pages_skipped, refused_by};

use cs_disk::{DiskFault, PageDisk};

/// A disk over another one that refuses to read some pages, 1 DeviceFault, and counts that, without asking the disk
/// below: pages that were asked for often enough. All else goes through.
///
/// It is honest if the disk below is. It asks for no memory of its own.
#[derive(Drop)]
pub struct Skipping<D> {
    disk: D,
    skipped: Vec<u64>,
    refused: u64,
}

impl<D> Skipping<D> {
    /// This disk, of which these pages aren't asked for.
    pub fn new(disk: D, skipped: Vec<u64>) -> Self
        ensures disk { disk_skipped result ≡ disk }
        ensures pages { pages_skipped result ≡ skipped.items }
        ensures fresh { refused_by result ≡ 0 }
    {
        Skipping {
            disk,
            skipped,
            refused: 0,
        }
    }

    /// The disk below.
    pub fn into_disk(self) -> D
        ensures { result ≡ disk_skipped self }
    {
        let Skipping {
            disk,
            skipped: _,
            refused: _,
        } = self;
        disk
    }
}

/// Whether the page is one of these.
fn is_one_of(pages: &[u64], number: u64) -> bool
    ensures { MatchBool result (Contains pages.now number) (Contains pages.now number → ⊥) }
{
    pages.contains(&number)
}

impl<D: PageDisk> PageDisk for Skipping<D> {
    ghost honest = { λ s. D.honest s.disk };

    ghost state = { λ s. D.state s.disk };

    ghost device = { λ s. D.device s.disk };

    ghost page_count = { λ s. D.page_count s.disk };

    ghost failure_count = { λ s. min (D.failure_count s.disk + s.refused) (2 ^ 64 - 1) };

    ghost refusal_count = { λ s. D.refusal_count s.disk + s.refused };

    ghost sound = { λ _. ⊥ };

    ghost takes = { λ _ _ _. ⊥ };

    ghost moment = { λ s. D.moment s.disk };

    ghost left_since = { λ s. D.left_since s.disk };

    fn pages(&self) -> u64 {
        self.disk.pages()
    }

    fn failures(&self) -> u64 {
        self.disk.failures().saturating_add(self.refused)
    }

    /// Refuses the pages that are skipped. The disk below is as it was then.
    fn read(&mut self, number: u64, buffer: &mut [u8; 4096]) -> Result<(), DiskFault>
        requires { number < D.page_count self.old.disk }
        ensures skipped { Contains (pages_skipped self.old) number → (result ≡ Err DiskFault.DeviceFault) × (disk_skipped self.new ≡ disk_skipped self.old) }
        ensures counted { Contains (pages_skipped self.old) number → refused_by self.new ≡ min (refused_by self.old + 1) (2 ^ 64 - 1) }
        // Each other page is asked for: a read of it is refused 1 only if the disk below failed.
        ensures asked { (Contains (pages_skipped self.old) number → ⊥) → HasCause (D.failure_count (disk_skipped self.old)) (D.failure_count (disk_skipped self.new)) result }
        ensures uncounted { (Contains (pages_skipped self.old) number → ⊥) → refused_by self.new ≡ refused_by self.old }
        ensures same { pages_skipped self.new ≡ pages_skipped self.old }
        ensures bytes { D.honest self.old.disk → OnOk result (buffer.new ≡ page (seen (D.state self.old.disk)) number) }
        ensures state { D.honest self.old.disk → D.state self.new.disk ≡ D.state self.old.disk }
        ensures device { D.honest self.old.disk → D.device self.new.disk ≡ D.device self.old.disk }
        ensures still { D.honest self.old.disk → D.moment self.new.disk ≡ D.moment self.old.disk }
        ensures time { GoesOn D.honest D.state D.moment D.left_since self.old.disk self.new.disk }
        ensures honest { D.honest self.old.disk ↔ D.honest self.new.disk }
        ensures pages { D.page_count self.new.disk ≡ D.page_count self.old.disk }
        ensures cause { HasCause (min (D.failure_count self.old.disk + self.old.refused) (2 ^ 64 - 1)) (min (D.failure_count self.new.disk + self.new.refused) (2 ^ 64 - 1)) result }
    {
        if is_one_of(&self.skipped, number) {
            self.refused = self.refused.saturating_add(1);
            return Err(DiskFault::DeviceFault);
        }
        self.disk.read(number, buffer)
    }

    /// Refused 1 only if the disk below failed.
    fn write(&mut self, number: u64, bytes: &[u8; 4096]) -> Result<(), DiskFault>
        requires { number < D.page_count self.old.disk }
        ensures asked { HasCause (D.failure_count (disk_skipped self.old)) (D.failure_count (disk_skipped self.new)) result }
        ensures uncounted { refused_by self.new ≡ refused_by self.old }
        ensures same { pages_skipped self.new ≡ pages_skipped self.old }
        ensures ok { D.honest self.old.disk → OnOk result (D.state self.new.disk ≡ written (D.state self.old.disk) number bytes.now) }
        ensures fault { D.honest self.old.disk → (D.state self.new.disk ≡ D.state self.old.disk) ⊎ (D.state self.new.disk ≡ written (D.state self.old.disk) number bytes.now) }
        ensures memory { D.honest self.old.disk → IsErrOf result OutOfMemory → D.state self.new.disk ≡ D.state self.old.disk }
        ensures device_ok { D.honest self.old.disk → OnOk result ((place : ℕ) × (D.device self.new.disk ≡ written (D.device self.old.disk) place bytes.now)) }
        ensures device_fault { D.honest self.old.disk → (D.device self.new.disk ≡ D.device self.old.disk) ⊎ ((place : ℕ) × (D.device self.new.disk ≡ written (D.device self.old.disk) place bytes.now)) }
        ensures count { D.honest self.old.disk → Counts result (D.moment self.old.disk) (D.moment self.new.disk) }
        ensures time { GoesOn D.honest D.state D.moment D.left_since self.old.disk self.new.disk }
        ensures honest { D.honest self.old.disk ↔ D.honest self.new.disk }
        ensures pages { D.page_count self.new.disk ≡ D.page_count self.old.disk }
        ensures cause { HasCause (min (D.failure_count self.old.disk + self.old.refused) (2 ^ 64 - 1)) (min (D.failure_count self.new.disk + self.new.refused) (2 ^ 64 - 1)) result }
    {
        self.disk.write(number, bytes)
    }

    /// Refused 1 only if the disk below failed.
    fn flush(&mut self) -> Result<(), DiskFault>
        ensures asked { HasCause (D.failure_count (disk_skipped self.old)) (D.failure_count (disk_skipped self.new)) result }
        ensures uncounted { refused_by self.new ≡ refused_by self.old }
        ensures same { pages_skipped self.new ≡ pages_skipped self.old }
        ensures ok { D.honest self.old.disk → OnOk result (D.state self.new.disk ≡ flushed (D.state self.old.disk)) }
        ensures err { D.honest self.old.disk → OnErr result (D.state self.new.disk ≡ D.state self.old.disk) }
        ensures device_ok { D.honest self.old.disk → OnOk result (D.device self.new.disk ≡ flushed (D.device self.old.disk)) }
        ensures device_err { D.honest self.old.disk → OnErr result (D.device self.new.disk ≡ D.device self.old.disk) }
        ensures count { D.honest self.old.disk → Counts result (D.moment self.old.disk) (D.moment self.new.disk) }
        ensures time { GoesOn D.honest D.state D.moment D.left_since self.old.disk self.new.disk }
        ensures honest { D.honest self.old.disk ↔ D.honest self.new.disk }
        ensures pages { D.page_count self.new.disk ≡ D.page_count self.old.disk }
        ensures cause { HasCause (min (D.failure_count self.old.disk + self.old.refused) (2 ^ 64 - 1)) (min (D.failure_count self.new.disk + self.new.refused) (2 ^ 64 - 1)) result }
    {
        self.disk.flush()
    }

    ghost sized = { λ s h. D.sized s.disk h };

    ghost whole = { λ s h. D.whole s.disk h };

    ghost counts_now = { λ s t c h le now. D.counts_now s.disk t c h le now };

    ghost only_now = { λ s c h left. D.only_now s.disk c h left };
}

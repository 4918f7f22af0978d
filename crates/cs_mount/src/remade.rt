//! A disk that shows some pages otherwise than they lie there.
ghost use Rattle.std.specs.Prelude.{All, ◌≡◌, ◌==◌, ◌+◌, ◌-◌, ◌^◌, [], if◌then◌else◌, length, min};
ghost use Rattle.std.specs.List.{AllByRecursion};
ghost use Rattle.cs_frame.specs.Bytes.{IsPage};
ghost use Rattle.cs_disk.specs.Disk.{IsBytes, IsWhole, latest, seen};
ghost use Rattle.cs_mount.specs.Repaged.{RepagesKept, left_repaged};
ghost use Rattle.cs_mount.specs.Remaking.{remade, remade_state};

use cs_disk::{CrashDisk, DiskFault, PageDisk};

/// A disk over another one, which it only reads: it shows these bytes in place of what is on their pages. So a store of
/// which a section is lost can be read. A write is refused 1 DeviceFault, and counted.
///
/// It is honest where the disk below is.
#[derive(Drop)]
pub struct Remade<D: PageDisk> {
    disk: D,
    pages: Vec<(u64, [u8; 4096])>,
    refused: u64,
    // What the trait's laws are told.
    ghost sizes: { All (λ w. length w.1 ≡ 4096) pages.items },
    ghost bytes: { All (λ w. IsBytes w.1) pages.items },
    ghost shows: { RepagesKept (latest pages.items) (D.state disk) },
    ghost whole: { D.honest disk → IsWhole (remade_state pages.items (D.state disk)) },
}

impl<D: PageDisk> Remade<D> {
    ghost use Rattle.cs_mount.specs.RemadeDisks.{remade_below, remade_by, remade_refused, state_remade};

    /// This disk, with these pages. If a page is listed twice it shows the last.
    pub fn new(disk: D, pages: Vec<(u64, [u8; 4096])>) -> Self
        ensures below { remade_below result ≡ disk }
        ensures pages { remade_by result ≡ pages.items }
        // So an opening over it sees what `remake` would leave.
        ensures shown { D.honest disk → seen (state_remade result) ≡ remade pages.items (seen (D.state disk)) }
        // With no pages it shows the disk as it is.
        ensures none { pages.items ≡ [] → state_remade result ≡ D.state disk }
        ensures refused { remade_refused result ≡ 0 }
    {
        // Called for its contract alone: what their type says.
        are_pages(&pages);
        Remade {
            disk,
            pages,
            refused: 0,
        }
    }

    /// The disk below.
    pub fn below(&self) -> &D
        ensures { result.now ≡ remade_below self.now }
    {
        &self.disk
    }

    /// The disk below.
    pub fn into_disk(self) -> D
        ensures { result ≡ remade_below self }
    {
        let Remade {
            disk,
            pages: _,
            refused: _,
        } = self;
        disk
    }
}

/// Called for its contract alone.
fn are_bytes(bytes: &[u8])
    ensures { IsBytes bytes.now }
{
    let _count = bytes.len();
}

/// Called for its contract alone.
fn is_page(bytes: &[u8; 4096])
    ensures size { length bytes.now ≡ 4096 }
    ensures bytes { IsBytes bytes.now }
{
    are_bytes(bytes);
}

/// Called for its contract alone.
fn are_pages(pages: &[(u64, [u8; 4096])])
    ensures { AllByRecursion (λ w. IsPage w.1) pages.now }
{
    for k in 0..pages.len() {
        let entry = &pages[k];
        is_page(&entry.1);
    }
}

/// Puts these bytes into the buffer if they are listed for the page.
fn put(entry: &(u64, [u8; 4096]), number: u64, bytes: &mut [u8; 4096])
    ensures { bytes.new ≡ (if entry.now.0 == number then entry.now.1 else bytes.old) }
{
    if entry.0 == number {
        *bytes = entry.1;
    }
}

/// Puts the last of these bytes into the buffer that is listed for the page.
fn remake_page(pages: &[(u64, [u8; 4096])], number: u64, bytes: &mut [u8; 4096])
    ensures { bytes.new ≡ latest pages.now number bytes.old }
{
    for k in 0..pages.len() {
        put(&pages[k], number, bytes);
    }
}

impl<D: PageDisk> PageDisk for Remade<D> {
    ghost use Rattle.std.proofs.Common.{◌∙◌};
    ghost use Rattle.cs_mount.specs.Repaged.{counts_repaged, only_repaged, sized_repaged};

    ghost honest = { λ d. D.honest d.disk };

    ghost state = { λ d. remade_state d.pages.items (D.state d.disk) };

    ghost device = { λ d. D.device d.disk };

    ghost page_count = { λ d. D.page_count d.disk };

    ghost failure_count = { λ d. min (D.failure_count d.disk + d.refused) (2 ^ 64 - 1) };

    ghost refusal_count = { λ d. D.refusal_count d.disk + d.refused };

    ghost sound = { λ d. D.sound d.disk };

    ghost takes = { λ _ _ _. ⊥ };

    ghost moment = { λ d. D.moment d.disk };

    ghost left_since = { λ d. left_repaged (latest d.pages.items) (D.left_since d.disk) };

    fn pages(&self) -> u64 {
        self.disk.pages()
    }

    fn failures(&self) -> u64 {
        self.disk.failures().saturating_add(self.refused)
    }

    fn read(&mut self, number: u64, buffer: &mut [u8; 4096]) -> Result<(), DiskFault> {
        match self.disk.read(number, buffer) {
            Ok(()) => {
                remake_page(&self.pages, number, buffer);
                Ok(())
            }
            Err(fault) => Err(fault),
        }
    }

    fn write(&mut self, _number: u64, _bytes: &[u8; 4096]) -> Result<(), DiskFault> {
        self.refused = self.refused.saturating_add(1);
        Err(DiskFault::DeviceFault)
    }

    /// Flushes the disk below, though nothing was written by way of this one.
    fn flush(&mut self) -> Result<(), DiskFault> {
        self.disk.flush()
    }

    ghost sized = { λ d h. sized_repaged (latest d.pages.items) (D.state d.disk).durable ∙ D.sized d.disk h };

    ghost whole = { λ d h. d.whole h };

    ghost counts_now = { λ d t c h le now. counts_repaged (latest d.pages.items) (D.state d.disk) d.shows (D.left_since d.disk) t (λ image is. D.counts_now d.disk t image h le is) c now };

    ghost only_now = { λ d c h left. only_repaged (latest d.pages.items) (D.state d.disk) d.shows (D.left_since d.disk) (D.moment d.disk) (λ image is. D.only_now d.disk image h is) c left };
}

impl<D: PageDisk> CrashDisk for Remade<D> {
    ghost can_crash = { λ _. ⊥ };

    ghost volatile_count = { λ _. 0 };

    fn crashable(&self) -> bool {
        false
    }

    fn volatile(&self) -> usize {
        0
    }

    fn crash(self, _mask: &[bool]) -> Self {
        self
    }

    ghost counted = { λ d h can. absurd can };
}

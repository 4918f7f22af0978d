// A disk that is only read.
ghost use Rattle.std.specs.Prelude.{◌≡◌, ◌↔◌, ◌+◌, ◌-◌, ◌<◌, ◌^◌, Err, min};
ghost use Rattle.cs_disk.specs.Disk.{Counts, GoesOn, HasCause};

use crate::{DiskFault, PageDisk};

/// A disk over another one that only reads it: a write is refused 1 DeviceFault, and counted, and the disk below isn't asked. Reads and flushes go through.
///
/// It is honest where the disk below is. It asks for no memory of its own.
#[derive(Drop)]
pub struct ReadOnly<D> {
    disk: D,
    refused: u64,
}

impl<D> ReadOnly<D> {
    ghost use Rattle.cs_disk.specs.ReadOnlyDisks.{only_read};

    /// This disk, to be read alone.
    pub fn new(disk: D) -> Self
        ensures { only_read result ≡ disk }
    {
        ReadOnly { disk, refused: 0 }
    }

    /// The disk below.
    pub fn below(&self) -> &D
        ensures { result.now ≡ only_read self.now }
    {
        &self.disk
    }

    /// The disk below.
    pub fn into_disk(self) -> D
        ensures { result ≡ only_read self }
    {
        let ReadOnly { disk, refused: _ } = self;
        disk
    }
}

impl<D: PageDisk> PageDisk for ReadOnly<D> {
    ghost use Rattle.cs_disk.specs.ReadOnlyDisks.{only_read};

    ghost honest = { λ s. D.honest s.disk };

    ghost state = { λ s. D.state s.disk };

    ghost device = { λ s. D.device s.disk };

    ghost page_count = { λ s. D.page_count s.disk };

    ghost failure_count = { λ s. min (D.failure_count s.disk + s.refused) (2 ^ 64 - 1) };

    ghost refusal_count = { λ s. D.refusal_count s.disk + s.refused };

    ghost sound = { λ s. D.sound s.disk };

    ghost takes = { λ _ _ _. ⊥ };

    ghost moment = { λ s. D.moment s.disk };

    ghost left_since = { λ s. D.left_since s.disk };

    fn pages(&self) -> u64 {
        self.disk.pages()
    }

    fn failures(&self) -> u64 {
        self.disk.failures().saturating_add(self.refused)
    }

    fn read(&mut self, number: u64, buffer: &mut [u8; 4096]) -> Result<(), DiskFault> {
        self.disk.read(number, buffer)
    }

    /// Refuses the write. The disk below is as it was, whatever disk it is.
    fn write(&mut self, _number: u64, _bytes: &[u8; 4096]) -> Result<(), DiskFault>
        requires { _number < D.page_count self.old.disk }
        ensures refused { result ≡ Err DiskFault.DeviceFault }
        ensures below { only_read self.new ≡ only_read self.old }
        ensures cause { HasCause (min (D.failure_count self.old.disk + self.old.refused) (2 ^ 64 - 1)) (min (D.failure_count self.new.disk + self.new.refused) (2 ^ 64 - 1)) result }
    {
        self.refused = self.refused.saturating_add(1);
        Err(DiskFault::DeviceFault)
    }

    fn flush(&mut self) -> Result<(), DiskFault> {
        self.disk.flush()
    }

    ghost sized = { λ s h. D.sized s.disk h };

    ghost whole = { λ s h. D.whole s.disk h };

    ghost counts_now = { λ s t c h le now. D.counts_now s.disk t c h le now };

    ghost only_now = { λ s c h left. D.only_now s.disk c h left };
}

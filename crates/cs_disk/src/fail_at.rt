// A disk under which one call fails.
ghost use Rattle.std.specs.Prelude.{◌≡◌, ◌<◌, ◌+◌, ◌-◌, ◌^◌, ◌↔◌, min, IsTrue, if◌then◌else◌};

use crate::{CrashDisk, DiskFault, PageDisk};

/// Counts calls down to the one that fails.
#[derive(Drop)]
struct Countdown {
    left: u64,
    failed: u64,
    ghost once: { 0 < left → failed ≡ 0 },
}

impl Countdown {
    /// Counts a call, and says whether it fails.
    fn fails(&mut self) -> bool
        ensures now { IsTrue result ↔ (self.old.left ≡ 1) }
        ensures left { self.new.left ≡ self.old.left - 1 }
        ensures once { IsTrue result → self.old.failed ≡ 0 }
        ensures failed { self.new.failed ≡ (if result then 1 else self.old.failed) }
    {
        let fails = self.left == 1;
        if fails {
            self.failed = 1;
        }
        self.left = self.left.saturating_sub(1);
        fails
    }
}

/// A disk over another one of whose reads, writes and flushes a chosen one fails with 1 DeviceFault. That call doesn't
/// reach the disk below, so a write that fails so adds nothing; all others go through. It is for trying out what
/// failures and crashes leave: a crash passes through it too, and the count goes on.
///
/// It is honest where the disk below is. It asks for no memory of its own.
#[derive(Drop)]
pub struct FailAt<D> {
    disk: D,
    countdown: Countdown,
}

impl<D> FailAt<D> {
    ghost use Rattle.cs_disk.specs.Fails.{disk_below, failing_call};

    /// The `n`-th read, write or flush from now on fails, the first being 1. With 0 none does.
    pub fn new(disk: D, n: u64) -> Self
        ensures disk { disk_below result ≡ disk }
        ensures failing { failing_call result ≡ n }
    {
        FailAt {
            disk,
            countdown: Countdown { left: n, failed: 0 },
        }
    }
}

impl<D: PageDisk> PageDisk for FailAt<D> {
    ghost honest = { λ s. D.honest s.disk };

    ghost state = { λ s. D.state s.disk };

    ghost device = { λ s. D.device s.disk };

    ghost page_count = { λ s. D.page_count s.disk };

    ghost failure_count = { λ s. min (D.failure_count s.disk + s.countdown.failed) (2 ^ 64 - 1) };

    ghost refusal_count = { λ s. D.refusal_count s.disk };

    ghost sound = { λ s. D.sound s.disk };

    ghost takes = { λ s. D.takes s.disk };

    ghost moment = { λ s. D.moment s.disk };

    ghost left_since = { λ s. D.left_since s.disk };

    fn pages(&self) -> u64 {
        self.disk.pages()
    }

    fn failures(&self) -> u64 {
        self.disk.failures().saturating_add(self.countdown.failed)
    }

    fn read(&mut self, number: u64, buffer: &mut [u8; 4096]) -> Result<(), DiskFault> {
        if self.countdown.fails() {
            return Err(DiskFault::DeviceFault);
        }
        self.disk.read(number, buffer)
    }

    fn write(&mut self, number: u64, bytes: &[u8; 4096]) -> Result<(), DiskFault> {
        if self.countdown.fails() {
            return Err(DiskFault::DeviceFault);
        }
        self.disk.write(number, bytes)
    }

    fn flush(&mut self) -> Result<(), DiskFault> {
        if self.countdown.fails() {
            return Err(DiskFault::DeviceFault);
        }
        self.disk.flush()
    }

    ghost sized = { λ s h. D.sized s.disk h };

    ghost whole = { λ s h. D.whole s.disk h };

    ghost counts_now = { λ s t c h le now. D.counts_now s.disk t c h le now };

    ghost only_now = { λ s c h left. D.only_now s.disk c h left };
}

impl<D: CrashDisk> CrashDisk for FailAt<D> {
    ghost can_crash = { λ s. D.can_crash s.disk };

    ghost volatile_count = { λ s. D.volatile_count s.disk };

    fn crashable(&self) -> bool {
        self.disk.crashable()
    }

    fn volatile(&self) -> usize {
        self.disk.volatile()
    }

    fn crash(self, mask: &[bool]) -> Self {
        let FailAt { disk, countdown } = self;
        FailAt {
            disk: disk.crash(mask),
            countdown,
        }
    }

    ghost counted = { λ s h can. D.counted s.disk h can };
}

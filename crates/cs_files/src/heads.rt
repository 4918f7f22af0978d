//! The commands that the heads of frames on a device name.

use cs_disk::PageDisk;
use cs_doctor::{Patience, Scanned, greatest_command};
use std::time::{Clock, Duration, Instant};

/// For how many seconds a device is scanned at most.
const LONGEST: u64 = 5;

/// Goes on until some time has gone by.
#[derive_where(Clone, Copy)]
struct Deadline<'a, R> {
    rt: &'a R,
    start: Instant,
}

impl<R: Clock> Patience for Deadline<'_, R> {
    fn goes_on(&self) -> bool {
        match self.start.elapsed(self.rt) {
            Ok(gone) => gone < Duration::from_secs(LONGEST),
            Err(_) => false,
        }
    }
}

/// The greatest command that the frames on a device name, for five seconds at most; none where that can't be read, or
/// the clock fails.
pub fn scan<D: PageDisk, R: AllocGlobal + Clock>(rt: &R, disk: &mut D) -> Option<Scanned> {
    let start = Instant::now(rt).ok()?;
    greatest_command(rt.alloc(), disk, &Deadline { rt, start }).ok()
}

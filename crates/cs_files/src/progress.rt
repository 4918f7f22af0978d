//! What is printed on standard error while something takes time.

use crate::manners::Manner;
use cs_doctor::{Progress, Watcher};
use cs_frame::Geometry;
use std::time::{Clock, Instant};

/// From how many pages on it may take a second and more to make a file: 64 MiB, less the extent that gives way to the
/// superblock.
const LARGE: u64 = 16_128;

/// Whether it takes time to make a file of so many pages.
fn takes_time(pages: u64) -> bool {
    pages >= LARGE
}

/// Prints on a terminal that a file of so many pages of 4,096 bytes is being made, if that takes time.
pub fn tell_making<R: Eprint>(rt: &R, path: &str, pages: u64, manner: Manner) {
    if manner.terminal && takes_time(pages) {
        let _ = eprintln!(rt; "making {path}: {} MiB", pages / 256);
    }
}

/// Prints on a terminal that it was made, or couldn't be.
pub fn tell_ended<R: Eprint, T, E>(
    rt: &R,
    path: &str,
    pages: u64,
    manner: Manner,
    made: &Result<T, E>,
) {
    if manner.terminal && takes_time(pages) {
        let _ = if made.is_ok() {
            eprintln!(rt; "made {path}")
        } else {
            eprintln!(rt; "{path} isn't made")
        };
    }
}

/// Whether it is printed that so many are done, of so many in all: each of a few, else each thousandth, and the last.
fn is_told(done: usize, all: usize) -> bool {
    all < 10 || done % 1_000 == 0 || done == all
}

/// Prints on standard error how far a command has come, in percent and how many a second, if that is a terminal.
#[derive_where(Clone, Copy)]
pub struct Told<'a, R> {
    rt: &'a R,
    terminal: bool,
    start: Option<Instant>,
}

impl<'a, R: Clock + Eprint> Told<'a, R> {
    /// From now on.
    pub fn new(rt: &'a R, manner: Manner) -> Self {
        Told {
            rt,
            terminal: manner.terminal,
            start: Instant::now(rt).ok(),
        }
    }

    /// How many were done a second, 0 where the clock fails.
    fn rate(&self, done: usize) -> u64 {
        let Some(start) = self.start else {
            return 0;
        };
        match start.elapsed(self.rt) {
            Ok(gone) => {
                let rate = done as u128 * 1_000 / gone.as_millis().max(1);
                u64::try_from(rate).unwrap_or(u64::MAX)
            }
            Err(_) => 0,
        }
    }
}

/// How many of a hundred so many are, of so many in all.
fn percent(done: usize, all: usize) -> u128 {
    if all == 0 {
        100
    } else {
        done as u128 * 100 / all as u128
    }
}

impl<R: Clock + Eprint> Progress for Told<'_, R> {
    fn tell(&self, done: usize, all: usize) {
        if self.terminal && is_told(done, all) {
            let rt = self.rt;
            let _ = eprintln!(rt;
                "{done} of {all}, {} %, {} a second",
                percent(done, all),
                self.rate(done)
            );
        }
    }
}

/// Prints on standard error at which page a scan is, and in percent how far, if that is a terminal: some hundred times,
/// and after each page that can't be read.
#[derive_where(Clone, Copy)]
pub struct Scanning<'a, R> {
    rt: &'a R,
    terminal: bool,
    /// How many pages an extent has.
    pages: u64,
    /// One of so many extents is reported.
    step: u64,
}

impl<'a, R: Eprint> Scanning<'a, R> {
    /// A scan of a device of this geometry.
    pub fn new(rt: &'a R, geometry: Geometry, manner: Manner) -> Self {
        Scanning {
            rt,
            terminal: manner.terminal,
            pages: u64::from(geometry.pages()).max(1),
            step: (u64::from(geometry.extents()) / 100).max(1),
        }
    }

    /// Whether this page is reported: it is the first of an extent of which one is, or the scan went past a page before
    /// it.
    fn is_told(&self, page: u64) -> bool {
        let place = page.saturating_sub(2);
        let pages = self.pages.max(1);
        place % pages != 0 || (place / pages) % self.step.max(1) == 0
    }
}

impl<R: Eprint> Watcher for Scanning<'_, R> {
    fn tell(&self, page: u64, end: u64) {
        if self.terminal && self.is_told(page) {
            let rt = self.rt;
            let _ = eprintln!(rt;
                "page {page} of {end}, {} %",
                percent(page as usize, end as usize)
            );
        }
    }
}

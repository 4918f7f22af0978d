// What a disk in a file has read ahead of its reader.
ghost use Rattle.std.specs.Prelude.{◌≡◌, IfSome};
ghost use Rattle.cs_disk.specs.Ahead.{LiesReady, pages_ahead};

use std::alloc::{AllocError, Global};
use std::fs::File;
use std::io;
use std::os::unix::fs::FileExt;

/// Pages of a file that were read in one call because its reader goes from page to page. They are what the file had then, so they are
/// forgotten before it is written. Up to 64 of them lie in memory, 256 KiB that are asked for once, at the first such call.
///
/// Each such call takes twice as many pages as the one before it, from 2 up to 64. So less is read in vain than was asked for.
#[derive(Drop)]
pub struct Ahead {
    /// Memory for 64 pages, or none yet.
    pages: Vec<[u8; 4096]>,
    /// How many of them were read, the first of which is page `first` of the file.
    count: usize,
    first: u64,
    /// The page behind the last one that was asked for.
    next: Option<u64>,
    /// How many pages the last call took.
    taken: u64,
}

impl Ahead {
    /// No pages.
    pub fn new(alloc: Global) -> Self
        ensures { pages_ahead result ≡ 0 }
    {
        Ahead {
            pages: Vec::new(alloc),
            count: 0,
            first: 0,
            next: None,
            taken: 1,
        }
    }

    /// Forgets them, and which page was asked for last.
    pub fn forget(&mut self)
        ensures { pages_ahead self.new ≡ 0 }
    {
        self.count = 0;
        self.next = None;
    }

    // Of what is read from the file no clause can say anything; a test reads back what was written.
    /// Reads a page of a file of so many pages. Where it is the one behind the page that was asked for last, it is taken from
    /// memory if it lies there, or else read in one call with some of those behind it. Without memory for them, or where the file
    /// doesn't give them, and anywhere else, that page alone is read.
    pub fn read(
        &mut self,
        file: &File,
        pages: u64,
        number: u64,
        buffer: &mut [u8; 4096],
    ) -> io::Result<()> {
        if self.follows(number) {
            if self.page(number).is_none() {
                self.fill(file, number, pages.saturating_sub(number));
            }
            if let Some(bytes) = self.page(number) {
                *buffer = *bytes;
                return Ok(());
            }
        }
        file.read_exact_at(buffer, number.saturating_mul(4096))
    }

    /// Notes that a page was asked for, and tells whether it is the one behind the last.
    pub fn follows(&mut self, number: u64) -> bool
        ensures { pages_ahead self.new ≡ pages_ahead self.old }
    {
        let follows = self.next == Some(number);
        if !follows {
            self.taken = 1;
        }
        self.next = number.checked_add(1);
        follows
    }

    /// The page of the file under this number, where it lies ready.
    fn page(&self, number: u64) -> Option<&[u8; 4096]>
        ensures { IfSome result (λ bytes. LiesReady self.now number bytes.now) }
    {
        let place = number.checked_sub(self.first)? as usize;
        if place < self.count {
            self.pages.get(place)
        } else {
            None
        }
    }

    /// Reads pages in one call, from one of the file's on, twice as many as in the last call, where there are so many. It keeps those
    /// that came whole.
    fn fill(&mut self, file: &File, number: u64, there: u64) {
        self.count = 0;
        self.first = number;
        if self.reserve().is_err() {
            return;
        }
        self.taken = self.taken.saturating_mul(2).min(MOST_AHEAD as u64);
        let most = there.min(self.taken) as usize;
        let most = most.min(self.pages.len());
        let room = &mut self.pages[..most];
        let offset = number.saturating_mul(4096);
        let bytes = file.read_at(room.as_flattened_mut(), offset).unwrap_or(0);
        self.count = bytes / 4096;
    }

    /// Asks for the memory, where it isn't there.
    fn reserve(&mut self) -> Result<(), AllocError> {
        let missing = MOST_AHEAD.saturating_sub(self.pages.len());
        self.pages.reserve_exact(missing)?;
        for _ in 0..missing {
            self.pages.push([0; 4096])?;
        }
        Ok(())
    }
}

/// How many pages are read in one call at most.
const MOST_AHEAD: usize = 64;

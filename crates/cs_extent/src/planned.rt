//! Where the chunks of a put go if chunks and runs lie apart, before any is appended: each is planned after those
//! before it.
ghost use Rattle.std.specs.Prelude.{◌≡◌, ◌+◌, ◌<◌, ◌≤◌, ◌==◌, if◌then◌else◌, ℕ, true, MatchOption, length};
ghost use Rattle.law_machine.specs.Extents.{FitsBy, ForPut};
ghost use Rattle.cs_extent.specs.Places.{AreFrameSizes};
ghost use Rattle.cs_extent.specs.Planned.{GoesAfter, extents_after, open_after_planned};
ghost use Rattle.cs_extent.specs.State.{extents_of, shape};
ghost use Rattle.cs_extent.specs.Worn.{AreCountedBy};

use crate::extents::Extents;
use crate::numbers::count;
use crate::purposes::Purpose;

/// Where a chunk is planned to go: its extent, and the extent's pointer after it.
#[derive(Clone, Copy)]
pub struct Placement {
    pub extent: usize,
    pub pointer: usize,
}

/// The most chunks of a put.
const MOST_CHUNKS: usize = 8;

impl Extents {
    /// How many versions of each section the chunks of a put take, whose frames have these numbers of pages, if they
    /// all find a place.
    pub(crate) fn count_planned(&self, frame_pages: &[usize]) -> Option<[u64; 15]>
        requires pages { AreFrameSizes (shape self.now) frame_pages.now }
        requires few { length frame_pages.now ≤ 8 }
        ensures { MatchOption result
            (¬ FitsBy (shape self.now) true (extents_of self.now) ForPut frame_pages.now)
            (AreCountedBy (shape self.now) true (extents_of self.now) ForPut frame_pages.now) }
    {
        // Called for its contract alone: how few sections there are.
        self.extent_count();
        let mut planned = [Placement {
            extent: 0,
            pointer: 0,
        }; MOST_CHUNKS];
        let mut counts = [0; 15];
        for i in 0..frame_pages.len() {
            match self.plan(&planned[..i], frame_pages[i]) {
                Some(placement) => {
                    planned[i] = placement;
                    count(&mut counts, self.section(placement.extent));
                }
                None => return None,
            }
        }
        Some(counts)
    }

    /// Where a chunk of so many pages goes after those planned.
    fn plan(&self, planned: &[Placement], pages: usize) -> Option<Placement>
        requires { (1 ≤ pages) × (pages ≤ (shape self.now).pages) }
        ensures { MatchOption result
            ((e : ℕ) → ¬ GoesAfter self.now planned.now ForPut pages e)
            (λ it. GoesAfter self.now planned.now ForPut pages it.extent
            × (it.pointer ≡ (extents_after self.now planned.now).pointer it.extent + pages)) }
    {
        // Called for its contract alone: how few pages an extent has.
        self.extent_count();
        match self.place_after(planned, pages, Purpose::Put) {
            Some(extent) => Some(Placement {
                extent,
                pointer: self.pointer_after(planned, extent) + pages,
            }),
            None => None,
        }
    }

    /// How many pages of an extent are given after those planned.
    pub(crate) fn pointer_after(&self, planned: &[Placement], extent: usize) -> usize
        requires { extent < (shape self.now).extents }
        ensures { result ≡ (extents_after self.now planned.now).pointer extent }
    {
        let mut pointer = self.pointer(extent);
        for it in planned {
            pointer = it.pointer_of(extent, pointer);
        }
        pointer
    }
}

impl Placement {
    /// An extent's pointer after this chunk, where it was so much before.
    fn pointer_of(&self, extent: usize, before: usize) -> usize
        ensures { result ≡ (if extent == self.now.extent then self.now.pointer else before) }
    {
        if extent == self.extent {
            self.pointer
        } else {
            before
        }
    }
}

/// The extent that is open after those planned, where this one was before.
pub fn open_after_planned(planned: &[Placement], before: Option<usize>) -> Option<usize>
    ensures { result ≡ open_after_planned before planned.now }
{
    let mut open_extent = before;
    for it in planned {
        open_extent = Some(it.extent);
    }
    open_extent
}

//! Where frames go in format 2, in which chunks and runs may lie on one extent: to the open extent, else to an
//! empty one.
ghost use Rattle.std.specs.Prelude.{◌≡◌, ◌↔◌, ◌+◌, ◌-◌, ◌<◌, ◌≤◌, ◌^◌, ◌==◌, if◌then◌else◌, ℕ, false, IsTrue, MatchOption, Some, None, length};
ghost use Rattle.law_machine.specs.Extents.{Fits, Placed, open_after, spare};
ghost use Rattle.cs_extent.specs.Places.{AreFrameSizes, left_after, room_at};
ghost use Rattle.cs_extent.specs.Purposes.{reason_of};
ghost use Rattle.cs_extent.specs.State.{IsWhole, extents_of, shape};
ghost use Rattle.cs_extent.specs.Worn.{AreCountedBy, IsEmptyFrom};

use crate::extents::Extents;
use crate::numbers::count;
use crate::purposes::Purpose;

/// How many pages of the open extent are left, and how many extents are empty. Empty extents are alike, so these two
/// numbers decide whether further frames fit.
#[derive(Clone, Copy)]
pub struct Supply {
    pub room: usize,
    pub empty: usize,
}

impl Supply {
    /// What is left once a frame is placed, if it can be: in the open extent if it has room, else in an empty one if
    /// more are empty than have to stay so.
    pub fn after(self, extent_pages: usize, frame_pages: usize, spare: usize) -> Option<Supply>
        requires { frame_pages ≤ extent_pages }
        ensures { result ≡ left_after extent_pages spare self frame_pages }
    {
        if frame_pages <= self.room {
            return Some(Supply {
                room: self.room - frame_pages,
                empty: self.empty,
            });
        }
        if spare < self.empty {
            return Some(Supply {
                room: extent_pages - frame_pages,
                empty: self.empty - 1,
            });
        }
        None
    }
}

/// Where the next frame goes: to this extent while it has room, and then to the first empty one from the next on. All
/// extents before that have pages given.
#[derive(Clone, Copy)]
pub struct Way {
    pub extent: usize,
    /// How many pages of the extent are left.
    pub room: usize,
    pub next: usize,
}

impl Purpose {
    /// How many extents must stay empty if one is opened for this.
    fn spare(self) -> usize
        ensures { result ≡ spare (reason_of self) }
    {
        match self {
            Purpose::Put => 2,
            Purpose::Run => 1,
            Purpose::Move => 0,
            Purpose::Merge => 0,
        }
    }
}

impl Extents {
    /// How many pages of the open extent are left.
    fn room(&self) -> usize
        ensures room { result ≡ room_at self.now.pages (extents_of self.now).pointer (extents_of self.now).open_extent }
        ensures whole { IsWhole self.now }
    {
        match self.open_extent {
            Some(extent) => self.extent_pages() - self.pointer(extent),
            None => 0,
        }
    }

    /// Where a frame of so many pages goes.
    pub(crate) fn place_v2(&self, pages: usize, purpose: Purpose) -> Option<usize>
        requires { (1 ≤ pages) × (pages ≤ (shape self.now).pages) }
        ensures { MatchOption result ((e : ℕ) → ¬ Placed (shape self.now) (extents_of self.now) (reason_of purpose) pages e) (Placed (shape self.now) (extents_of self.now) (reason_of purpose) pages) }
    {
        if pages <= self.room() {
            return self.open_extent;
        }
        if purpose.spare() < self.empty_count() {
            return self.first_empty_after(&[]);
        }
        None
    }

    /// Whether frames of these numbers of pages, appended one after another, all find a place.
    pub(crate) fn fits_v2(&self, frame_pages: &[usize], purpose: Purpose) -> bool
        requires { AreFrameSizes (shape self.now) frame_pages.now }
        ensures { IsTrue result ↔ Fits (shape self.now) (extents_of self.now) (reason_of purpose) frame_pages.now }
    {
        let mut supply = Supply {
            room: self.room(),
            empty: self.empty_count(),
        };
        for pages in frame_pages {
            match supply.after(self.extent_pages(), *pages, purpose.spare()) {
                Some(left) => supply = left,
                None => return false,
            }
        }
        true
    }

    /// How many versions of each section frames of these numbers of pages take, which all find a place.
    pub(crate) fn count_versions_v2(&self, frame_pages: &[usize], purpose: Purpose) -> [u64; 15]
        requires pages { AreFrameSizes (shape self.now) frame_pages.now }
        requires fits { Fits (shape self.now) (extents_of self.now) (reason_of purpose) frame_pages.now }
        ensures { AreCountedBy (shape self.now) false (extents_of self.now) (reason_of purpose) frame_pages.now result }
    {
        let mut way = Way {
            extent: self.last_extent(),
            room: self.room(),
            next: 0,
        };
        let mut counts = [0; 15];
        for pages in frame_pages {
            way = self.goes_on(way, *pages);
            count(&mut counts, self.section(way.extent));
        }
        counts
    }

    /// The open extent, if one is open.
    fn last_extent(&self) -> usize
        ensures { (e : ℕ) → (extents_of self.now).open_extent ≡ Some e → result ≡ e }
    {
        match self.open_extent {
            Some(open) => open,
            None => 0,
        }
    }

    /// Where a frame of so many pages goes, and where the next one does.
    fn goes_on(&self, way: Way, pages: usize) -> Way
        requires pages { pages ≤ (shape self.now).pages }
        requires place { way.room < pages → (e : ℕ) × IsEmptyFrom (shape self.now).extents (extents_of self.now).pointer way.next e }
        ensures stays { pages ≤ way.room → result ≡ record { extent = way.extent; room = way.room - pages; next = way.next } }
        ensures opens { way.room < pages → IsEmptyFrom (shape self.now).extents (extents_of self.now).pointer way.next result.extent
            × (result.room ≡ (shape self.now).pages - pages) × (result.next ≡ result.extent + 1) }
    {
        if pages <= way.room {
            return Way {
                extent: way.extent,
                room: way.room - pages,
                next: way.next,
            };
        }
        let extent = self.empty_from(way.next);
        Way {
            extent,
            room: self.extent_pages() - pages,
            next: extent + 1,
        }
    }

    /// The first empty extent of those from this one on, if there is one.
    fn empty_from(&self, start: usize) -> usize
        requires { (e : ℕ) × IsEmptyFrom (shape self.now).extents (extents_of self.now).pointer start e }
        ensures empty { IsEmptyFrom (shape self.now).extents (extents_of self.now).pointer start result }
        ensures small { result < 2 ^ 16 }
    {
        for e in start..self.extent_count() {
            if self.is_empty(e) {
                return e;
            }
        }
        unreachable!()
    }

    /// Opens an extent of which pages are given. If it is full, none is open then.
    pub(crate) fn open_unless_full(&mut self, extent: usize)
        requires exists { extent < (shape self.old).extents }
        requires given { 0 < (extents_of self.old).pointer extent }
        ensures { self.new ≡ record self.old { open_extent = open_after (shape self.old) extent ((extents_of self.old).pointer extent) } }
    {
        let pointer = self.pointer(extent);
        self.open_extent = unless_full(extent, pointer, self.extent_pages());
    }
}

/// The extent, but none if so many of its pages are all of them.
fn unless_full(extent: usize, pointer: usize, pages: usize) -> Option<usize>
    ensures { result ≡ (if pointer == pages then None else Some extent) }
{
    if pointer == pages { None } else { Some(extent) }
}

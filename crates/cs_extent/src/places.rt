//! Where frames go. A frame goes after the last one of its kind, else after others of its kind, else to an empty
//! extent. Format 2 has rules of its own, in `places_v2`.
ghost use Rattle.std.specs.Prelude.{◌≡◌, ◌↔◌, ◌⊎◌, ◌+◌, ◌-◌, ◌<◌, ◌≤◌, ◌^◌, if◌then◌else◌, ℕ, IfErr, IsTrue, MatchBool, MatchOption, OnOk, Some};
ghost use Rattle.law_machine.specs.Extents.{Behind, ForPut, IsFirst, IsFirstEmpty, MayFill, MayOpen, chunk_extents, how_many, noted, one_if, run_extents};
ghost use Rattle.cs_extent.specs.Appended.{IsReady};
ghost use Rattle.cs_extent.specs.Kinds.{is_of_runs};
ghost use Rattle.cs_extent.specs.Places.{AreFew, AreFrameSizes, FitIn, GoesIn};
ghost use Rattle.cs_extent.specs.Planned.{GoesAfter, TakesAfter, extents_after, holds};
ghost use Rattle.cs_extent.specs.Purposes.{reason_of};
ghost use Rattle.cs_extent.specs.State.{extents_of, shape};
ghost use Rattle.cs_extent.specs.Worn.{AreCounted, AreWorn};

use crate::extents::Extents;
use crate::kinds::Kind;
use crate::numbers::are_worn;
use crate::planned::{Placement, open_after_planned};
use crate::purposes::Purpose;
use cs_deps::Graph;
use cs_refusal::Refusal;

impl Extents {
    /// Whether a frame of so many pages finds a place.
    pub fn has_place(&self, pages: usize, purpose: Purpose) -> bool
        requires { (1 ≤ pages) × (pages ≤ (shape self.now).pages) }
        ensures { MatchBool result
            ((e : ℕ) × GoesIn self.now (reason_of purpose) pages e)
            ((e : ℕ) → ¬ GoesIn self.now (reason_of purpose) pages e) }
    {
        self.place_for(pages, purpose).is_some()
    }

    /// Where a frame of so many pages goes.
    pub(crate) fn place_for(&self, pages: usize, purpose: Purpose) -> Option<usize>
        requires { (1 ≤ pages) × (pages ≤ (shape self.now).pages) }
        ensures { MatchOption result ((e : ℕ) → ¬ GoesIn self.now (reason_of purpose) pages e) (GoesIn self.now (reason_of purpose) pages) }
    {
        if self.is_apart() {
            self.place_after(&[], pages, purpose)
        } else {
            self.place_v2(pages, purpose)
        }
    }

    /// Whether frames of these numbers of pages, appended one after another, all find a place. Takes no memory, and
    /// costs a few passes over the extents for each frame. In format 2 it costs a few for all of them.
    pub fn fits(&self, frame_pages: &[usize], purpose: Purpose) -> bool
        requires pages { AreFrameSizes (shape self.now) frame_pages.now }
        requires few { AreFew (shape self.now) purpose frame_pages.now }
        ensures { IsTrue result ↔ FitIn self.now (reason_of purpose) frame_pages.now }
    {
        self.count_versions(frame_pages, purpose).is_some()
    }

    /// Whether frames of these numbers of pages may be appended one after another. Takes no memory, and costs what
    /// `fits` does.
    ///
    /// 30 `Full` if one of them finds no place, then 35 `WornOut` if the number of a plain write or of a section's
    /// version would pass the greatest, 2^63 - 1.
    pub fn may_append(
        &self,
        graph: &Graph,
        frame_pages: &[usize],
        purpose: Purpose,
    ) -> Result<(), Refusal>
        requires pages { AreFrameSizes (shape self.now) frame_pages.now }
        requires few { AreFew (shape self.now) purpose frame_pages.now }
        requires ready { IsReady self.now graph.now.staging }
        ensures full { (result ≡ Err Refusal.Full) ↔ ¬ FitIn self.now (reason_of purpose) frame_pages.now }
        ensures worn { (result ≡ Err Refusal.WornOut) ↔ (FitIn self.now (reason_of purpose) frame_pages.now
            × AreWorn self.now graph.now.staging (reason_of purpose) frame_pages.now) }
        ensures fits { OnOk result (FitIn self.now (reason_of purpose) frame_pages.now) }
        ensures refusals { IfErr result (λ r. (r ≡ Refusal.Full) ⊎ (r ≡ Refusal.WornOut)) }
    {
        let Some(counts) = self.count_versions(frame_pages, purpose) else {
            return Err(Refusal::Full);
        };
        if are_worn(graph, frame_pages, self.geometry().sections(), counts) {
            return Err(Refusal::WornOut);
        }
        Ok(())
    }

    /// How many versions of each section frames of these numbers of pages take, if they all find a place.
    fn count_versions(&self, frame_pages: &[usize], purpose: Purpose) -> Option<[u64; 15]>
        requires pages { AreFrameSizes (shape self.now) frame_pages.now }
        requires few { AreFew (shape self.now) purpose frame_pages.now }
        ensures { MatchOption result (¬ FitIn self.now (reason_of purpose) frame_pages.now) (AreCounted self.now (reason_of purpose) frame_pages.now) }
    {
        if self.is_apart() {
            return self.count_planned(frame_pages);
        }
        if !self.fits_v2(frame_pages, purpose) {
            return None;
        }
        Some(self.count_versions_v2(frame_pages, purpose))
    }

    /// How many extents hold chunks. Costs a pass over the extents.
    pub fn chunk_extent_count(&self) -> usize
        ensures { result ≡ chunk_extents (extents_of self.now) (shape self.now).extents }
    {
        self.count_after(&[], Kind::Chunks)
    }

    /// How many extents hold runs. Costs a pass over the extents.
    pub fn run_extent_count(&self) -> usize
        ensures { result ≡ run_extents (extents_of self.now) (shape self.now).extents }
    {
        self.count_after(&[], Kind::Runs)
    }

    /// How many extents may hold runs.
    fn most_run_extents(&self) -> usize
        ensures { result ≡ (shape self.now).run_extents }
    {
        if 16 <= self.extent_count() { 2 } else { 1 }
    }

    /// Where a frame of so many pages goes after those planned.
    pub(crate) fn place_after(
        &self,
        planned: &[Placement],
        pages: usize,
        purpose: Purpose,
    ) -> Option<usize>
        requires { (1 ≤ pages) × (pages ≤ (shape self.now).pages) }
        ensures { MatchOption result
            ((e : ℕ) → ¬ GoesAfter self.now planned.now (reason_of purpose) pages e)
            (GoesAfter self.now planned.now (reason_of purpose) pages) }
    {
        if let Some(extent) = self.noted_place(planned, pages, purpose) {
            return Some(extent);
        }
        if let Some(extent) = self.first_taking(planned, pages, purpose) {
            return Some(extent);
        }
        if !self.may_open(planned, purpose) {
            return None;
        }
        self.first_empty_after(planned)
    }

    /// The extent to which the last frame of the kind went, if it takes so many pages.
    fn noted_place(&self, planned: &[Placement], pages: usize, purpose: Purpose) -> Option<usize>
        requires { 1 ≤ pages }
        ensures { MatchOption result
            ((d : ℕ) → noted (shape self.now) (extents_after self.now planned.now) (reason_of purpose) ≡ Some d
            → ¬ TakesAfter self.now planned.now (reason_of purpose) pages d)
            (λ e. (noted (shape self.now) (extents_after self.now planned.now) (reason_of purpose) ≡ Some e)
            × TakesAfter self.now planned.now (reason_of purpose) pages e) }
    {
        let Some(extent) = self.noted(planned, purpose) else {
            return None;
        };
        if self.takes(planned, pages, purpose, extent) {
            return Some(extent);
        }
        None
    }

    /// The extent to which the last frame of the kind went.
    fn noted(&self, planned: &[Placement], purpose: Purpose) -> Option<usize>
        ensures { result ≡ noted (shape self.now) (extents_after self.now planned.now) (reason_of purpose) }
    {
        match purpose {
            Purpose::Put => open_after_planned(planned, self.open_extent()),
            Purpose::Move => self.last_copied(),
            Purpose::Run | Purpose::Merge => None,
        }
    }

    /// The first extent that takes so many pages after the frames there.
    fn first_taking(&self, planned: &[Placement], pages: usize, purpose: Purpose) -> Option<usize>
        requires { 1 ≤ pages }
        ensures { MatchOption result
            ((d : ℕ) → ¬ TakesAfter self.now planned.now (reason_of purpose) pages d)
            (IsFirst (TakesAfter self.now planned.now (reason_of purpose) pages)) }
    {
        for e in 0..self.extent_count() {
            if self.takes(planned, pages, purpose, e) {
                return Some(e);
            }
        }
        None
    }

    /// Whether an extent takes so many pages after the frames there.
    fn takes(&self, planned: &[Placement], pages: usize, purpose: Purpose, extent: usize) -> bool
        requires { 1 ≤ pages }
        ensures { IsTrue result ↔ TakesAfter self.now planned.now (reason_of purpose) pages extent }
    {
        match purpose {
            Purpose::Put => {
                self.is_behind(planned, Kind::Chunks, pages, extent)
                    && !self.is_swept(extent)
                    && !self.is_fresh(extent)
            }
            Purpose::Run => self.is_behind(planned, Kind::Runs, pages, extent),
            Purpose::Move => {
                self.is_behind(planned, Kind::Chunks, pages, extent) && !self.is_swept(extent)
            }
            Purpose::Merge => false,
        }
    }

    /// Whether so many pages fit after the frames on an extent, which are of this kind, and the extent may be filled
    /// up.
    fn is_behind(&self, planned: &[Placement], kind: Kind, pages: usize, extent: usize) -> bool
        requires { 1 ≤ pages }
        ensures { IsTrue result ↔ Behind (shape self.now) (extents_after self.now planned.now) (is_of_runs kind) pages extent }
    {
        if self.extent_count() <= extent {
            return false;
        }
        let pointer = self.pointer_after(planned, extent);
        0 < pointer
            && pages <= self.extent_pages().saturating_sub(pointer)
            && self.is_kind(kind, extent)
            && self.may_fill(extent)
    }

    /// Whether frames may be appended after those on an extent: always if extents are filled up, else only if all of
    /// them were appended since the store was opened.
    pub fn may_fill(&self, extent: usize) -> bool
        requires { extent < (shape self.now).extents }
        ensures { IsTrue result ↔ MayFill (shape self.now).fills ((extents_of self.now).found extent) }
    {
        self.fills() || self.found(extent) == 0
    }

    /// Whether the sweep opened this extent.
    fn is_fresh(&self, extent: usize) -> bool
        ensures { IsTrue result ↔ ((extents_of self.now).fresh ≡ Some extent) }
    {
        match self.fresh() {
            Some(fresh) => fresh == extent,
            None => false,
        }
    }

    /// Whether an empty extent may be taken for this purpose.
    fn may_open(&self, planned: &[Placement], purpose: Purpose) -> bool
        ensures { IsTrue result ↔ MayOpen (shape self.now) (extents_after self.now planned.now) (reason_of purpose) }
    {
        match purpose {
            Purpose::Put => self.may_open_for_put(planned),
            Purpose::Run => self.count_after(planned, Kind::Runs) < self.most_run_extents(),
            Purpose::Move => self.fresh().is_none(),
            Purpose::Merge => true,
        }
    }

    /// Whether an empty extent may be taken for a chunk of a put. As many must be left then as may hold runs and two
    /// more, the one that the sweep opened not counted.
    fn may_open_for_put(&self, planned: &[Placement]) -> bool
        ensures { IsTrue result ↔ MayOpen (shape self.now) (extents_after self.now planned.now) ForPut }
    {
        let taken = self.count_after(planned, Kind::Chunks) + 1 + self.most_run_extents() + 2;
        taken <= self.extent_count() + one_if(self.fresh())
    }

    /// How many extents are of this kind after those planned.
    fn count_after(&self, planned: &[Placement], kind: Kind) -> usize
        ensures count { result ≡ how_many (holds (extents_after self.now planned.now) (is_of_runs kind)) (shape self.now).extents }
        ensures within { result ≤ (shape self.now).extents }
        ensures small { (shape self.now).extents < 2 ^ 16 }
    {
        let mut count = 0;
        for e in 0..self.extent_count() {
            count += one_where(self.is_held(planned, kind, e));
        }
        count
    }

    /// Whether an extent has pages given after those planned and is of this kind.
    fn is_held(&self, planned: &[Placement], kind: Kind, extent: usize) -> bool
        requires { extent < (shape self.now).extents }
        ensures { IsTrue result ↔ ((0 < (extents_after self.now planned.now).pointer extent) × ((extents_of self.now).of_runs extent ≡ is_of_runs kind)) }
    {
        0 < self.pointer_after(planned, extent) && self.is_kind(kind, extent)
    }

    /// Whether an extent is of this kind.
    fn is_kind(&self, kind: Kind, extent: usize) -> bool
        requires { extent < (shape self.now).extents }
        ensures { IsTrue result ↔ ((extents_of self.now).of_runs extent ≡ is_of_runs kind) }
    {
        match kind {
            Kind::Chunks => !self.holds_runs(extent),
            Kind::Runs => self.holds_runs(extent),
        }
    }

    /// The first extent that is empty after those planned.
    pub(crate) fn first_empty_after(&self, planned: &[Placement]) -> Option<usize>
        ensures { MatchOption result
            ((d : ℕ) → d < (shape self.now).extents → 0 < (extents_after self.now planned.now).pointer d)
            (IsFirstEmpty (shape self.now) (extents_after self.now planned.now)) }
    {
        for e in 0..self.extent_count() {
            if self.pointer_after(planned, e) == 0 {
                return Some(e);
            }
        }
        None
    }
}

/// 1 if there is an extent, else 0.
fn one_if(extent: Option<usize>) -> usize
    ensures { result ≡ one_if extent }
{
    match extent {
        Some(_) => 1,
        None => 0,
    }
}

/// 1 if it is so, else 0.
fn one_where(test: bool) -> usize
    ensures { result ≡ (if test then 1 else 0) }
{
    if test { 1 } else { 0 }
}

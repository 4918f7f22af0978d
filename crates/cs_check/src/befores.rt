//! Whether the rounds before a given one satisfy what is named, by a look at what is named alone.
ghost use Rattle.std.specs.Prelude.{ℕ, ◌≤◌, ◌<◌, IsTrue, length, slice_index};
ghost use Rattle.cs_deps.specs.Named.{Named, IsInSpan, IsInSpans};
ghost use Rattle.cs_deps.specs.Pending.{WaitsAt};
ghost use Rattle.cs_deps.specs.View.{pending_of};
ghost use Rattle.cs_check.specs.Progress.{AllBefore, ArePlainsBefore, AreVersionsBefore};
ghost use Rattle.cs_check.specs.Timings.{IsTimed};

use crate::timings::Timing;
use cs_deps::{Dependency, Element, Span};

impl<'a> Timing<'a> {
    /// Whether the element waits and is satisfied by the first i rounds. False too where its place was not noted.
    fn is_before(&self, element: Element, i: usize) -> bool
        requires timed { IsTimed self.now }
        ensures { IsTrue result → (k : ℕ) × (d : Named) × WaitsAt (pending_of self.now.view.now) k element d × (slice_index self.now.firsts.now k < i) }
    {
        match self.places.at(&self.view.waiting, element) {
            Some(k) => self.firsts[k] < i,
            None => false,
        }
    }

    /// Whether each number of a span is a plain write that waits and is satisfied by the first i rounds.
    fn span_before(&self, span: Span, i: usize) -> bool
        requires timed { IsTimed self.now }
        ensures { IsTrue result → (n : ℕ) → IsInSpan n span → ArePlainsBefore (pending_of self.now.view.now) self.now.firsts.now n i }
    {
        if span.last < span.first {
            return true;
        }
        let more = span.last - span.first;
        // More numbers than elements: one of them does not wait.
        if more >= self.view.waiting.len() as u64 {
            return false;
        }
        for step in 0..more + 1 {
            if !self.is_before(Element::Plain(span.first + step), i) {
                return false;
            }
        }
        true
    }

    /// Whether each number of the spans is a plain write that waits and is satisfied by the first i rounds.
    fn spans_before(&self, spans: &[Span], i: usize) -> bool
        requires timed { IsTimed self.now }
        ensures { IsTrue result → (n : ℕ) → IsInSpans spans.now n → ArePlainsBefore (pending_of self.now.view.now) self.now.firsts.now n i }
    {
        for span in spans {
            if !self.span_before(*span, i) {
                return false;
            }
        }
        true
    }

    /// Whether the versions of a family up to this one that wait are satisfied by the first i rounds.
    fn family_before(&self, family: usize, version: u64, i: usize) -> bool
        requires timed { IsTimed self.now }
        requires place { family < length self.now.view.now.persistent.items }
        requires round { i ≤ length self.now.rounds.now }
        ensures { IsTrue result → AreVersionsBefore (pending_of self.now.view.now) self.now.firsts.now family version i }
    {
        version <= self.view.persistent[family]
            || self.is_before(Element::Version(family, version), i)
    }

    /// Whether the waiting versions that are named are satisfied by the first i rounds.
    fn versions_before(&self, needs: &Dependency, i: usize) -> bool
        requires timed { IsTimed self.now }
        requires round { i ≤ length self.now.rounds.now }
        ensures { IsTrue result → (f : ℕ) → f < length self.now.view.now.persistent.items → AreVersionsBefore (pending_of self.now.view.now) self.now.firsts.now f (slice_index needs.now.least f) i }
    {
        for family in 0..self.view.persistent.len() {
            if !self.family_before(family, needs.least_of(family), i) {
                return false;
            }
        }
        true
    }

    /// Whether all waiting elements that are named are satisfied by the first i rounds. False too where a plain write is
    /// named that does not wait.
    pub fn named_before(&self, needs: &Dependency, i: usize) -> bool
        requires timed { IsTimed self.now }
        requires round { i ≤ length self.now.rounds.now }
        ensures { IsTrue result → AllBefore (pending_of self.now.view.now) self.now.firsts.now needs.now i }
    {
        let through = Span {
            first: 1,
            last: needs.through_number(),
        };
        if !self.span_before(through, i) {
            return false;
        }
        if !self.spans_before(needs.spans(), i) {
            return false;
        }
        self.versions_before(needs, i)
    }
}

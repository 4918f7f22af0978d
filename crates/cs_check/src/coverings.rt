//! Whether the rounds satisfy what is named, and in time.
ghost use Rattle.std.specs.Prelude.{All, ◌≤◌, ◌↔◌, IsTrue, length};
ghost use Rattle.cs_deps.specs.Named.{Names};
ghost use Rattle.cs_deps.specs.Schedule.{IsSchedule, Covers};
ghost use Rattle.cs_deps.specs.View.{pending_of};
ghost use Rattle.cs_check.specs.Tests.{InTime};
ghost use Rattle.cs_check.specs.Progress.{elements_of, AllBefore, NeedsBefore, AreLatest};
ghost use Rattle.cs_check.specs.Timings.{IsTimed};

use crate::listings::is_known;
use crate::timings::Timing;
use cs_deps::{Dependency, Element};

/// Whether the element is named, and the first i rounds don't satisfy it.
fn is_late(needs: &Dependency, element: Element, first: usize, i: usize) -> bool
    ensures { IsTrue result ↔ (Names needs.now element × (i ≤ first)) }
{
    needs.names(element) && i <= first
}

impl<'a> Timing<'a> {
    /// Whether all waiting elements that are named are satisfied by the first i rounds.
    fn all_before(&self, needs: &Dependency, i: usize) -> bool
        requires timed { IsTimed self.now }
        ensures { IsTrue result ↔ AllBefore (pending_of self.now.view.now) self.now.firsts.now needs.now i }
    {
        for k in 0..self.firsts.len() {
            if is_late(needs, self.view.waiting[k].0, self.firsts[k], i) {
                return false;
            }
        }
        true
    }

    /// Whether all waiting elements that are named are satisfied by the first i rounds. It looks at all that waits only
    /// where what is named doesn't show it.
    fn are_before(&self, needs: &Dependency, i: usize) -> bool
        requires timed { IsTimed self.now }
        requires round { i ≤ length self.now.rounds.now }
        ensures { IsTrue result ↔ AllBefore (pending_of self.now.view.now) self.now.firsts.now needs.now i }
    {
        self.named_before(needs, i) || self.all_before(needs, i)
    }

    /// Whether each waiting need of an element is satisfied by the first i rounds; so it is for one that doesn't wait.
    fn needs_before(&self, element: Element, i: usize) -> bool
        requires timed { IsTimed self.now }
        requires round { i ≤ length self.now.rounds.now }
        ensures { IsTrue result ↔ NeedsBefore (pending_of self.now.view.now) self.now.firsts.now element i }
    {
        match self.places.find(&self.view.waiting, element) {
            Some(k) => self.are_before(&self.view.waiting[k].1, i),
            None => true,
        }
    }

    /// Whether what each member of a round needs is satisfied by the first i rounds.
    fn is_in_time(&self, round: &[Element], i: usize) -> bool
        requires timed { IsTimed self.now }
        requires round { i ≤ length self.now.rounds.now }
        ensures { IsTrue result ↔ All (λ x. NeedsBefore (pending_of self.now.view.now) self.now.firsts.now x i) round.now }
    {
        for member in round {
            if !self.needs_before(*member, i) {
                return false;
            }
        }
        true
    }

    /// Whether what the members of each round need is satisfied by the rounds before.
    pub fn are_in_time(&self) -> bool
        requires timed { IsTimed self.now }
        ensures { IsTrue result ↔ InTime (pending_of self.now.view.now) (elements_of self.now.rounds.now) }
    {
        for i in 0..self.rounds.len() {
            if !self.is_in_time(&self.rounds[i], i) {
                return false;
            }
        }
        true
    }

    /// Whether the rounds satisfy all that the target names. The last version that is listed of each family is given.
    pub fn covers(&self, target: &Dependency, latest: &[u64]) -> bool
        requires timed { IsTimed self.now }
        requires latest { AreLatest (pending_of self.now.view.now) latest.now }
        requires schedule { IsSchedule (pending_of self.now.view.now) (elements_of self.now.rounds.now) }
        ensures { IsTrue result ↔ Covers (pending_of self.now.view.now) (elements_of self.now.rounds.now) target.now }
    {
        is_known(target, latest) && self.are_before(target, self.rounds.len())
    }
}

//! Whether a view lists its elements as a document would.
ghost use Rattle.std.specs.Prelude.{◌≡◌, ◌<◌, ◌⊎◌, ◌↔◌, IfOk, IfErr, IsTrue, slice_index};
ghost use Rattle.cs_deps.specs.View.{pending_of};
ghost use Rattle.cs_check.specs.Listing.{IsListing, NamesOthers};
ghost use Rattle.cs_check.specs.Progress.{NamesFrom, IsKnown, IsNext, MayStand, plain_after, latest_after, AreLatest};

use crate::faults::CheckFault;
use crate::named_back::named_back;
use cs_deps::{Dependency, Element, GraphView};
use std::alloc::{AllocError, Global};

/// One more than the greatest number of a plain write or a version.
pub const LIMIT: u64 = 1 << 63;

/// Whether it names an element at place k or later.
fn names_from(view: &GraphView, needs: &Dependency, k: usize) -> bool
    ensures { IsTrue result ↔ NamesFrom (pending_of view.now) needs.now k }
{
    for j in k..view.waiting.len() {
        if needs.names(view.waiting[j].0) {
            return true;
        }
    }
    false
}

/// Whether it names no element at place k or later. It looks at each where that isn't known.
fn names_none_from(view: &GraphView, needs: &Dependency, k: usize, is_back: bool) -> bool
    requires { IsTrue is_back → ¬ NamesFrom (pending_of view.now) needs.now k }
    ensures { IsTrue result ↔ (¬ NamesFrom (pending_of view.now) needs.now k) }
{
    is_back || !names_from(view, needs, k)
}

/// Whether it names no version past the last of its family.
pub fn is_known(needs: &Dependency, latest: &[u64]) -> bool
    ensures { IsTrue result ↔ IsKnown needs.now latest.now }
{
    needs.versions_within(latest)
}

/// The persistent version of a family, 0 where there is no such family.
fn persistent_of(view: &GraphView, family: usize) -> u64
    ensures { result ≡ slice_index view.now.persistent.items family }
{
    if family < view.persistent.len() {
        view.persistent[family]
    } else {
        0
    }
}

/// Whether a version names no version of its own family but persistent ones.
fn names_others(view: &GraphView, element: Element, needs: &Dependency) -> bool
    ensures { IsTrue result ↔ NamesOthers (pending_of view.now) element needs.now }
{
    match element {
        Element::Plain(_) => true,
        Element::Version(family, _) => needs.least_of(family) <= persistent_of(view, family),
    }
}

/// The last numbers of the elements that were read.
#[derive(Drop)]
struct LastNumbers {
    /// The last plain write, 0 before the first.
    plain: u64,
    /// The last version of each family, before the first its persistent one.
    versions: Vec<u64>,
}

impl LastNumbers {
    /// The numbers before the first element of a view.
    fn before_all(alloc: Global, view: &GraphView) -> Result<Self, AllocError>
        ensures { IfOk result (λ last. (last.plain ≡ 0) × (last.versions.items ≡ view.now.persistent.items)) }
    {
        let versions = Vec::from_slice(alloc, &view.persistent)?;
        Ok(LastNumbers { plain: 0, versions })
    }

    /// Whether the element has the number that follows on these.
    fn come_before(&self, element: Element) -> bool
        ensures { IsTrue result ↔ IsNext self.now.plain self.now.versions.items element }
    {
        match element {
            Element::Plain(number) => self.plain < number && number < LIMIT,
            Element::Version(family, version) => {
                family < self.versions.len()
                    && version < LIMIT
                    && self.versions[family] < version
                    && version - self.versions[family] == 1
            }
        }
    }

    /// Makes the element's number the last of its kind.
    fn pass(&mut self, element: Element)
        ensures plain { self.new.plain ≡ plain_after self.old.plain element }
        ensures versions { self.new.versions.items ≡ latest_after self.old.versions.items element }
    {
        match element {
            Element::Plain(number) => self.plain = number,
            Element::Version(family, version) => {
                if family < self.versions.len() {
                    self.versions[family] = version;
                }
            }
        }
    }
}

/// Whether an element with its needs may stand at place k, after those with these last numbers.
fn may_stand(
    view: &GraphView,
    k: usize,
    entry: &(Element, Dependency),
    is_back: bool,
    last: &LastNumbers,
) -> bool
    requires { IsTrue is_back → ¬ NamesFrom (pending_of view.now) entry.now.1 k }
    ensures { IsTrue result ↔ MayStand (pending_of view.now) k last.now.plain last.now.versions.items entry.now.0 entry.now.1 }
{
    last.come_before(entry.0)
        && is_known(&entry.1, &last.versions)
        && names_none_from(view, &entry.1, k, is_back)
        && names_others(view, entry.0, &entry.1)
}

/// Whether the elements have the numbers that follow on one another.
fn are_numbered(alloc: Global, view: &GraphView) -> Result<bool, AllocError>
    ensures { IfOk result (λ yes. IsListing (pending_of view.now) → IsTrue yes) }
{
    let mut last = LastNumbers::before_all(alloc, view)?;
    for k in 0..view.waiting.len() {
        let element = view.waiting[k].0;
        if !last.come_before(element) {
            return Ok(false);
        }
        last.pass(element);
    }
    Ok(true)
}

/// The last version that is listed of each family, or the persistent one.
pub fn latest_versions(alloc: Global, view: &GraphView) -> Result<Vec<u64>, CheckFault>
    ensures ok { IfOk result (λ latest. IsListing (pending_of view.now) × AreLatest (pending_of view.now) latest.items) }
    ensures err { IfErr result (λ fault. (fault ≡ CheckFault.OutOfMemory) ⊎ ((fault ≡ CheckFault.BadDocument) × (¬ IsListing (pending_of view.now)))) }
{
    let numbered = are_numbered(alloc, view)?;
    if !numbered {
        return Err(CheckFault::BadDocument);
    }
    let back = named_back(alloc, view)?;
    let mut last = LastNumbers::before_all(alloc, view)?;
    for k in 0..view.waiting.len() {
        let entry = &view.waiting[k];
        if !may_stand(view, k, entry, back[k], &last) {
            return Err(CheckFault::BadDocument);
        }
        last.pass(entry.0);
    }
    Ok(last.versions)
}

//! Elements that follow one another, and what they name together.
ghost use Rattle.std.specs.Prelude.{◌≡◌, ◌≤◌, ◌<◌, ◌↔◌, IfOk, IsTrue, MatchOption, Some, length, slice_get};
ghost use Rattle.cs_deps.specs.declared.elements.Element.{Element as Item};
ghost use Rattle.cs_deps.specs.Named.{Names};
ghost use Rattle.cs_check.specs.Documents.{NamesThese};
ghost use Rattle.cs_check.specs.Progress.{Follows, IsBetween, IsRun, number_of};

use crate::noted::key_of;
use cs_deps::{Dependency, Element};
use std::alloc::{AllocError, Global};

/// Whether the second is the first, the next plain write, or a version of the same family that is no earlier.
fn follows(first: Element, second: Element) -> bool
    ensures { IsTrue result ↔ Follows first second }
{
    match first {
        Element::Plain(m) => match second {
            Element::Plain(n) => m <= n && n - m <= 1,
            Element::Version(_, _) => false,
        },
        Element::Version(f, v) => match second {
            Element::Plain(_) => false,
            Element::Version(g, w) => f == g && v <= w,
        },
    }
}

/// The number of a plain write, 0 for a version.
fn number_of(element: Element) -> u64
    ensures { result ≡ number_of element }
{
    match element {
        Element::Plain(number) => number,
        Element::Version(_, _) => 0,
    }
}

/// The last of the elements, if each follows the one before.
fn last_of_run(elements: &[Element], head: Element) -> Option<Element>
    requires { slice_get elements.now 0 ≡ Some head }
    ensures { MatchOption result (2 ≤ length elements.now) (λ last. IsRun elements.now (number_of head) last) }
{
    let mut last = head;
    for i in 1..elements.len() {
        if !follows(last, elements[i]) {
            return None;
        }
        last = elements[i];
    }
    Some(last)
}

/// What a run names that begins at this number and ends with this element.
fn one_run(alloc: Global, first: u64, last: Element) -> Result<Dependency, AllocError>
    ensures { IfOk result (λ d. (y : Item) → Names d y ↔ IsBetween first last y) }
{
    match last {
        Element::Plain(number) => Ok(Dependency::on_writes(alloc, first, number)),
        Element::Version(family, version) => Dependency::on_version(alloc, family, version),
    }
}

/// A place at which to cut: one near the middle where no run is cut, if there is one.
fn cut(elements: &[Element]) -> usize
    requires { 2 ≤ length elements.now }
    ensures { (1 ≤ result) × (result < length elements.now) }
{
    let middle = elements.len() / 2;
    for i in middle..elements.len() {
        if !follows(elements[i - 1], elements[i]) {
            return i;
        }
    }
    for back in 1..middle {
        if !follows(elements[middle - back - 1], elements[middle - back]) {
            return middle - back;
        }
    }
    middle
}

/// What these names name.
fn in_runs(alloc: Global, elements: &[Element]) -> Result<Dependency, AllocError>
    ensures { IfOk result (λ d. NamesThese d elements.now) }
{
    if elements.is_empty() {
        return Ok(Dependency::none(alloc));
    }
    let head = elements[0];
    if let Some(last) = last_of_run(elements, head) {
        return one_run(alloc, number_of(head), last);
    }
    let (front, back) = elements.split_at(cut(elements));
    let mut all = in_runs(alloc, front)?;
    let others = in_runs(alloc, back)?;
    all.join(&others)?;
    Ok(all)
}

/// What these names name.
pub fn named(alloc: Global, elements: &[Element]) -> Result<Dependency, AllocError>
    ensures { IfOk result (λ d. NamesThese d elements.now) }
{
    if elements.len() < 2 {
        return in_runs(alloc, elements);
    }
    let mut sorted = Vec::from_slice(alloc, elements)?;
    sorted.sort_by_key(|element| key_of(*element))?;
    in_runs(alloc, &sorted)
}

//! Whether a list holds an element twice.
ghost use Rattle.std.specs.Prelude.{◌≤◌, ◌↔◌, IfOk, IsTrue, length};
ghost use Rattle.cs_check.specs.Listing.{IsOnce};
ghost use Rattle.cs_check.specs.Progress.{IsBelow, StandsBelow};

use crate::noted::key_of;
use cs_deps::Element;
use std::alloc::{AllocError, Global};

/// Whether the element is among the first n.
fn stands_below(elements: &[Element], n: usize, element: Element) -> bool
    requires { n ≤ length elements.now }
    ensures { IsTrue result ↔ StandsBelow elements.now n element }
{
    for i in 0..n {
        if elements[i].is_same(element) {
            return true;
        }
    }
    false
}

/// Whether no element stands twice: each is compared with those before it.
fn is_once_by_pairs(elements: &[Element]) -> bool
    ensures { IsTrue result ↔ IsOnce elements.now }
{
    for j in 0..elements.len() {
        if stands_below(elements, j, elements[j]) {
            return false;
        }
    }
    true
}

/// Whether the first comes before the second in an order of elements.
fn is_below(first: Element, second: Element) -> bool
    ensures { IsTrue result ↔ IsBelow first second }
{
    match first {
        Element::Plain(m) => match second {
            Element::Plain(n) => m < n,
            Element::Version(_, _) => false,
        },
        Element::Version(f, v) => match second {
            Element::Plain(_) => true,
            Element::Version(g, w) => f < g || (f == g && v < w),
        },
    }
}

/// Whether each element comes before the next.
fn ascends(elements: &[Element]) -> bool
    ensures { IsTrue result → IsOnce elements.now }
{
    for i in 1..elements.len() {
        if !is_below(elements[i - 1], elements[i]) {
            return false;
        }
    }
    true
}

/// Whether some element is the same as the next.
fn repeats(elements: &[Element]) -> bool
    ensures { IsTrue result → ¬ IsOnce elements.now }
{
    for i in 1..elements.len() {
        if elements[i - 1].is_same(elements[i]) {
            return true;
        }
    }
    false
}

/// Whether no element stands twice. It compares neighbours in a sorted copy.
pub fn is_once(alloc: Global, elements: &[Element]) -> Result<bool, AllocError>
    ensures { IfOk result (λ once. IsTrue once ↔ IsOnce elements.now) }
{
    let mut sorted = Vec::from_slice(alloc, elements)?;
    sorted.sort_by_key(|element| key_of(*element))?;
    if ascends(&sorted) {
        return Ok(true);
    }
    if repeats(&sorted) {
        return Ok(false);
    }
    Ok(is_once_by_pairs(elements))
}

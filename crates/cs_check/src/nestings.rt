//! Whether each version needs what the version before it needs.
ghost use Rattle.std.specs.Prelude.{ℕ, ◌<◌, ◌↔◌, IsTrue, length};
ghost use Rattle.cs_deps.specs.declared.elements.Element.{Element as Item};
ghost use Rattle.cs_deps.specs.Named.{Names, IsInSpan, IsInSpans};
ghost use Rattle.cs_deps.specs.View.{pending_of};
ghost use Rattle.cs_check.specs.Listing.{IsListing};
ghost use Rattle.cs_check.specs.Tests.{IsNested};
ghost use Rattle.cs_check.specs.Progress.{NamesAsMuch, IsNestedAt};

use crate::noted::Places;
use cs_deps::{Dependency, Element, GraphView, Span};

/// Whether the second names it if the first does.
fn keeps(first: &Dependency, second: &Dependency, element: Element) -> bool
    ensures { IsTrue result ↔ (Names first.now element → Names second.now element) }
{
    !first.names(element) || second.names(element)
}

/// Whether the second names each waiting element that the first names.
fn names_as_much(view: &GraphView, first: &Dependency, second: &Dependency) -> bool
    ensures { IsTrue result ↔ NamesAsMuch (pending_of view.now) first.now second.now }
{
    for k in 0..view.waiting.len() {
        if !keeps(first, second, view.waiting[k].0) {
            return false;
        }
    }
    true
}

/// The place, from a given one on, of the first span that ends no earlier than this one.
fn holder(spans: &[Span], from: usize, span: Span) -> usize {
    for at in from..spans.len() {
        if span.last <= spans[at].last {
            return at;
        }
    }
    spans.len()
}

/// Whether the span at this place has each number of another.
fn holds(spans: &[Span], at: usize, span: Span) -> bool
    ensures { IsTrue result → (n : ℕ) → IsInSpan n span → IsInSpans spans.now n }
{
    at < spans.len() && spans[at].first <= span.first && span.last <= spans[at].last
}

/// Whether each span lies in one of the second list, found in the order of both.
fn are_held(first: &[Span], second: &[Span]) -> bool
    ensures { IsTrue result → (n : ℕ) → IsInSpans first.now n → IsInSpans second.now n }
{
    let mut at = 0;
    for i in 0..first.len() {
        at = holder(second, at, first[i]);
        if !holds(second, at, first[i]) {
            return false;
        }
    }
    true
}

/// Whether the second names each version that the first names of so many families.
fn holds_versions(first: &Dependency, second: &Dependency, families: usize) -> bool
    ensures { IsTrue result → (f v : ℕ) → f < families → Names first.now (Item.Version f v) → Names second.now (Item.Version f v) }
{
    for family in 0..families {
        if second.least_of(family) < first.least_of(family) {
            return false;
        }
    }
    true
}

/// Whether the second lists what the first lists, as a whole: then it names each waiting element that the first names.
fn lists_as_much(view: &GraphView, first: &Dependency, second: &Dependency) -> bool
    requires { IsListing (pending_of view.now) }
    ensures { IsTrue result → NamesAsMuch (pending_of view.now) first.now second.now }
{
    if second.through_number() < first.through_number() {
        return false;
    }
    if !are_held(first.spans(), second.spans()) {
        return false;
    }
    holds_versions(first, second, view.persistent.len())
}

/// Whether the second names each waiting element that the first names. It looks at each only where the lists don't show it.
fn names_all(view: &GraphView, first: &Dependency, second: &Dependency) -> bool
    requires { IsListing (pending_of view.now) }
    ensures { IsTrue result ↔ NamesAsMuch (pending_of view.now) first.now second.now }
{
    lists_as_much(view, first, second) || names_as_much(view, first, second)
}

/// Whether the version after the element at place k needs what that one needs.
fn is_nested_at(view: &GraphView, places: &Places, k: usize) -> bool
    requires place { k < length view.now.waiting.items }
    requires listing { IsListing (pending_of view.now) }
    ensures { IsTrue result ↔ IsNestedAt (pending_of view.now) k }
{
    let entry = &view.waiting[k];
    match entry.0 {
        Element::Plain(_) => true,
        Element::Version(family, version) => {
            match places.find(&view.waiting, Element::Version(family, version + 1)) {
                Some(next) => names_all(view, &entry.1, &view.waiting[next].1),
                None => true,
            }
        }
    }
}

/// Whether each version needs each waiting element that the version before it needs.
pub fn is_nested(view: &GraphView, places: &Places) -> bool
    requires { IsListing (pending_of view.now) }
    ensures { IsTrue result ↔ IsNested (pending_of view.now) }
{
    for k in 0..view.waiting.len() {
        if !is_nested_at(view, places, k) {
            return false;
        }
    }
    true
}

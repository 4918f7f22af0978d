//! Whether a list of elements is a chain of the target.
ghost use Rattle.std.specs.Prelude.{◌<◌, ◌↔◌, IsTrue, All, length};
ghost use Rattle.cs_deps.specs.Pending.{Waits, Needs};
ghost use Rattle.cs_deps.specs.Chain.{IsChainOf};
ghost use Rattle.cs_deps.specs.View.{pending_of};
ghost use Rattle.cs_check.specs.Listing.{IsListing};
ghost use Rattle.cs_check.specs.Progress.{IsLink};

use crate::noted::Places;
use cs_deps::{Dependency, Element, GraphView};

/// Whether the second is a need of the first.
fn needs(view: &GraphView, places: &Places, first: Element, second: Element) -> bool
    requires { IsListing (pending_of view.now) }
    ensures { IsTrue result ↔ Needs (pending_of view.now) first second }
{
    match places.find(&view.waiting, first) {
        Some(k) => view.waiting[k].1.names(second),
        None => false,
    }
}

/// Whether the member at place i is a need of the next, or the last one and named by the target.
fn is_link(
    view: &GraphView,
    places: &Places,
    target: &Dependency,
    chain: &[Element],
    i: usize,
) -> bool
    requires place { i < length chain.now }
    requires listing { IsListing (pending_of view.now) }
    ensures { IsTrue result ↔ IsLink (pending_of view.now) target.now chain.now i }
{
    if i + 1 < chain.len() {
        needs(view, places, chain[i + 1], chain[i])
    } else {
        target.names(chain[i])
    }
}

/// Whether each member is a need of the next, and the last is named by the target.
pub fn is_chain(view: &GraphView, places: &Places, target: &Dependency, chain: &[Element]) -> bool
    requires listing { IsListing (pending_of view.now) }
    requires waits { All (Waits (pending_of view.now)) chain.now }
    ensures { IsTrue result ↔ IsChainOf (pending_of view.now) target.now chain.now }
{
    for i in 0..chain.len() {
        if !is_link(view, places, target, chain, i) {
            return false;
        }
    }
    true
}

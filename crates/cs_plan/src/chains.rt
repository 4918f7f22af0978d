//! A chain of needs, which shows that there are no rounds too many.
ghost use Rattle.std.specs.Prelude.{◌≡◌, ℕ, ◌+◌, ◌<◌, IfOk, IfSome, None, Vec, slice_get, Some, length};
ghost use Rattle.std.specs.Global.{Global as Heap};
ghost use Rattle.cs_deps.specs.declared.elements.Element.{Element as Item};
ghost use Rattle.cs_deps.specs.Pending.{Needs, Waits};
ghost use Rattle.cs_deps.specs.Chain.{IsChain, IsHeight, LastIs};
ghost use Rattle.cs_plan.specs.Queues.{backwards};
ghost use Rattle.cs_plan.specs.Targets.{IsInLast};

use cs_deps::{Element, Graph};
use std::alloc::{AllocError, Global};

/// The first element of the last round, where there is one.
fn first_of_last(rounds: &[Vec<Element>]) -> Option<Element>
    ensures some { IfSome result (IsInLast rounds.now) }
    ensures none { result ≡ None → (x : Item) → ¬ IsInLast rounds.now x }
{
    if rounds.is_empty() {
        return None;
    }
    let last = &rounds[rounds.len() - 1];
    if last.is_empty() { None } else { Some(last[0]) }
}

/// The chain that ends in an element of this height.
fn follow(
    alloc: Global,
    graph: &Graph,
    end: Element,
    height: usize,
) -> Result<Vec<Element>, AllocError>
    requires none { graph.now.round ≡ None }
    requires height { IsHeight graph.now.staging.pending end height }
    ensures chain { IfOk result (λ chain. IsChain graph.now.staging.pending chain.items) }
    ensures last { IfOk result (λ chain. LastIs (λ y. y ≡ end) chain.items) }
    ensures count { IfOk result (λ chain. length chain.items ≡ height) }
{
    let mut made = Vec::new(alloc);
    let mut element = end;
    for _ in 0..height {
        made.push(element)?;
        element = earlier(graph, element);
    }
    let chain = turned(alloc, &made)?;
    Ok(chain)
}

/// The same elements from the last to the first.
fn turned(alloc: Global, elements: &[Element]) -> Result<Vec<Element>, AllocError>
    ensures { IfOk result (λ xs. xs.items ≡ backwards elements.now) }
{
    let mut turned = Vec::new(alloc);
    for k in (0..elements.len()).rev() {
        turned.push(elements[k])?;
    }
    Ok(turned)
}

/// A need of an element that is one lower; of an element of height 1 the element itself.
fn earlier(graph: &Graph, element: Element) -> Element
    requires none { graph.now.round ≡ None }
    requires waits { Waits graph.now.staging.pending element }
    ensures { (n : ℕ) → IsHeight graph.now.staging.pending element (n + 2) → Needs graph.now.staging.pending element result × IsHeight graph.now.staging.pending result (n + 1) }
{
    match graph.kept(element) {
        (_, Some(before)) => before,
        (_, None) => element,
    }
}

/// A chain that ends in the last round, with as many elements as there are rounds.
pub fn shown_last(
    alloc: Global,
    graph: &Graph,
    rounds: &[Vec<Element>],
) -> Result<Vec<Element>, AllocError>
    requires none { graph.now.round ≡ None }
    requires last { (x : Item) → IsInLast rounds.now x → IsHeight graph.now.staging.pending x (length rounds.now) }
    requires full { (i : ℕ) (round : Vec Item Heap) → slice_get rounds.now i ≡ Some round → 0 < length round.items }
    ensures chain { IfOk result (λ chain. IsChain graph.now.staging.pending chain.items) }
    ensures last { IfOk result (λ chain. LastIs (IsInLast rounds.now) chain.items) }
    ensures count { IfOk result (λ chain. length chain.items ≡ length rounds.now) }
{
    match first_of_last(rounds) {
        Some(end) => follow(alloc, graph, end, rounds.len()),
        None => Ok(Vec::new(alloc)),
    }
}

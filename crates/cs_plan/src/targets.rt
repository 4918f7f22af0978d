//! Rounds of what a target needs, taken from the queues of what waits.
ghost use Rattle.std.specs.Prelude.{◌≡◌, ◌+◌, ◌∷◌, ◌++◌, ◌≤◌, ◌<◌, ◌⊎◌, ◌↔◌, [], IfOk, OnOk, IsTrue, None, Vec, length};
ghost use Rattle.cs_deps.specs.Chain.{IsHeight};
ghost use Rattle.cs_plan.specs.Targets.{lowered, IsNamedAt, AreLowered, IsLoweredQueue, AreLoweredQueues};

use cs_deps::{Element, Graph, Wanted};
use std::alloc::{AllocError, Global};

/// In place of a version that is later than those that are wanted the last of these.
fn lowered(wanted: &Wanted, element: Element) -> Element
    ensures { result ≡ lowered wanted.now element }
{
    match element {
        Element::Plain(_) => element,
        Element::Version(family, version) => {
            Element::Version(family, version.min(wanted.least_of(family)))
        }
    }
}

/// Whether an element waits at this height.
fn has_height(graph: &Graph, height: u64, element: Element) -> bool
    requires none { graph.now.round ≡ None }
    ensures { IsTrue result ↔ IsHeight graph.now.staging.pending element height }
{
    if !graph.waits(element) {
        return false;
    }
    let kept = graph.kept(element);
    kept.0 == height
}

/// Adds to a round what a queue's member becomes, where that is wanted and of this height.
fn add_wanted(
    round: &mut Vec<Element>,
    graph: &Graph,
    wanted: &Wanted,
    height: u64,
    element: Element,
) -> Result<(), AllocError>
    requires none { graph.now.round ≡ None }
    ensures { OnOk result (((¬ IsNamedAt graph.now.staging.pending wanted.now height (lowered wanted.now element)) × (round.new.items ≡ round.old.items)) ⊎ (IsNamedAt graph.now.staging.pending wanted.now height (lowered wanted.now element) × (round.new.items ≡ round.old.items ++ lowered wanted.now element ∷ []))) }
{
    let element = lowered(wanted, element);
    if wanted.names(element) && has_height(graph, height, element) {
        round.push(element)?;
    }
    Ok(())
}

/// What a queue has of what is wanted.
fn lowered_queue(
    alloc: Global,
    graph: &Graph,
    wanted: &Wanted,
    height: u64,
    queue: &[Element],
) -> Result<Vec<Element>, AllocError>
    requires none { graph.now.round ≡ None }
    ensures { IfOk result (λ round. AreLowered graph.now.staging.pending wanted.now height queue.now (length queue.now) round.items) }
{
    let mut round = Vec::new(alloc);
    for k in 0..queue.len() {
        add_wanted(&mut round, graph, wanted, height, queue[k])?;
    }
    Ok(round)
}

/// What the queue of a height has of what is wanted.
fn wanted_round(
    alloc: Global,
    graph: &Graph,
    wanted: &Wanted,
    height: u64,
) -> Result<Vec<Element>, AllocError>
    requires none { graph.now.round ≡ None }
    requires height { 1 ≤ height }
    ensures { IfOk result (λ round. IsLoweredQueue graph.now.staging.pending wanted.now height round.items) }
{
    let queue = graph.queue(height)?;
    lowered_queue(alloc, graph, wanted, height, &queue)
}

/// The same of heights 1 to `depth`, up to the first that has nothing.
pub fn wanted_rounds(
    alloc: Global,
    graph: &Graph,
    wanted: &Wanted,
    depth: usize,
) -> Result<Vec<Vec<Element>>, AllocError>
    requires none { graph.now.round ≡ None }
    ensures each { IfOk result (λ rounds. AreLoweredQueues graph.now.staging.pending wanted.now rounds.items) }
    ensures all { IfOk result (λ rounds. (length rounds.items ≡ depth) ⊎ IsLoweredQueue graph.now.staging.pending wanted.now (length rounds.items + 1) []) }
{
    let mut rounds = Vec::new(alloc);
    for i in 0..depth {
        let round = wanted_round(alloc, graph, wanted, i as u64 + 1)?;
        if round.is_empty() {
            return Ok(rounds);
        }
        rounds.push(round)?;
    }
    Ok(rounds)
}

//! Plans.
ghost use Rattle.std.specs.Prelude.{◌≡◌, ◌⊎◌, ◌↔◌, [], IfOk, IfErr, IsSome, None, MatchOption, length};
ghost use Rattle.cs_deps.specs.Named.{IsWithin};
ghost use Rattle.cs_deps.specs.Pending.{Waits};
ghost use Rattle.cs_deps.specs.Chain.{IsHeight};
ghost use Rattle.cs_deps.specs.State.{everything, IsQueue, IsReady, IsWhole};
ghost use Rattle.cs_deps.specs.View.{rounds_of};
ghost use Rattle.cs_plan.specs.Best.{IsBestPlan};
ghost use Rattle.cs_plan.specs.Queues.{AreListed};

use crate::chains::shown_last;
use crate::targets::wanted_rounds;
use cs_deps::{Dependency, Element, Graph, Plan};
use cs_refusal::Refusal;
use std::alloc::{AllocError, Global};

/// What each graph keeps, which `families` tells beside its answer. It is called for its contract alone.
fn each_graph_is_whole(graph: &Graph)
    ensures { IsWhole graph.now }
{
    graph.families();
}

/// The plan of a target that was staged: the queues of what waits one after another, less what the target doesn't need.
fn plan_staged(alloc: Global, graph: &Graph, target: &Dependency) -> Result<Plan, AllocError>
    requires none { graph.now.round ≡ None }
    requires within { IsWithin target.now graph.now.staging.staged graph.now.staging.latest }
    ensures best { IfOk result (λ plan. IsBestPlan graph.now.staging.pending target.now (rounds_of plan) plan.chain.items) }
{
    each_graph_is_whole(graph);
    let wanted = graph.wanted(target)?;
    let rounds = wanted_rounds(alloc, graph, &wanted, graph.depth())?;
    let chain = shown_last(alloc, graph, &rounds)?;
    Ok(Plan { rounds, chain })
}

/// The plan that makes a dependency persistent. A need that is persistent already is passed over.
///
/// Refused 4 NotStaged where it names what wasn't staged, then 5 InFlight where a round is out, and 9 OutOfMemory. Time and
/// memory are linear in what waits.
pub fn plan(alloc: Global, graph: &Graph, target: &Dependency) -> Result<Plan, Refusal>
    ensures best { IfOk result (λ plan. IsBestPlan graph.now.staging.pending target.now (rounds_of plan) plan.chain.items) }
    ensures not_staged { (result ≡ Err Refusal.NotStaged) ↔ ¬ IsWithin target.now graph.now.staging.staged graph.now.staging.latest }
    ensures in_flight { (result ≡ Err Refusal.InFlight) ↔ (IsWithin target.now graph.now.staging.staged graph.now.staging.latest × IsSome graph.now.round) }
    ensures refusals { IfErr result (λ r. (r ≡ Refusal.NotStaged) ⊎ (r ≡ Refusal.InFlight) ⊎ (r ≡ Refusal.OutOfMemory)) }
{
    if !graph.is_staged(target) {
        return Err(Refusal::NotStaged);
    }
    if graph.is_out() {
        return Err(Refusal::InFlight);
    }
    Ok(plan_staged(alloc, graph, target)?)
}

/// The plan of all that waits.
///
/// Refused 5 InFlight, 9 OutOfMemory. Cost: as `plan`.
pub fn plan_all(alloc: Global, graph: &Graph) -> Result<Plan, Refusal>
    ensures best { IfOk result (λ plan. IsBestPlan graph.now.staging.pending (everything graph.now.staging) (rounds_of plan) plan.chain.items) }
    ensures in_flight { (result ≡ Err Refusal.InFlight) ↔ IsSome graph.now.round }
    ensures refusals { IfErr result (λ r. (r ≡ Refusal.InFlight) ⊎ (r ≡ Refusal.OutOfMemory)) }
{
    if graph.is_out() {
        return Err(Refusal::InFlight);
    }
    Ok(plan_queues(alloc, graph)?)
}

/// The plan of all that waits: the queues of what waits one after another.
fn plan_queues(alloc: Global, graph: &Graph) -> Result<Plan, AllocError>
    requires none { graph.now.round ≡ None }
    ensures best { IfOk result (λ plan. IsBestPlan graph.now.staging.pending (everything graph.now.staging) (rounds_of plan) plan.chain.items) }
{
    each_graph_is_whole(graph);
    let depth = graph.depth();
    let rounds = queues(alloc, graph, depth)?;
    let chain = shown_last(alloc, graph, &rounds)?;
    Ok(Plan { rounds, chain })
}

/// The queues of heights 1 to `depth`.
fn queues(alloc: Global, graph: &Graph, depth: usize) -> Result<Vec<Vec<Element>>, AllocError>
    requires none { graph.now.round ≡ None }
    ensures count { IfOk result (λ rounds. length rounds.items ≡ depth) }
    ensures each { IfOk result (λ rounds. AreListed graph.now.staging.pending rounds.items) }
{
    let mut rounds = Vec::new(alloc);
    for i in 0..depth {
        let queue = graph.queue(i as u64 + 1)?;
        rounds.push(queue)?;
    }
    Ok(rounds)
}

/// The first round of the plan of all that waits, empty where nothing waits. The graph takes it as it is.
///
/// Refused 5 InFlight, 9 OutOfMemory. The work is that of listing it.
pub fn next_round(alloc: Global, graph: &Graph) -> Result<Vec<Element>, Refusal>
    ensures first { IfOk result (λ round. IsQueue graph.now.staging.pending 1 round.items) }
    ensures ready { IfOk result (λ round. IsReady graph.now.staging.pending round.items) }
    ensures empty { IfOk result (λ round. round.items ≡ [] → graph.now.staging.pending.waiting ≡ []) }
    ensures in_flight { (result ≡ Err Refusal.InFlight) ↔ IsSome graph.now.round }
    ensures refusals { IfErr result (λ r. (r ≡ Refusal.InFlight) ⊎ (r ≡ Refusal.OutOfMemory)) }
{
    if graph.is_out() {
        return Err(Refusal::InFlight);
    }
    each_graph_is_whole(graph);
    let queue = graph.queue(1)?;
    Ok(queue)
}

/// The height of an element: 1 where nothing that it needs waits, else one more than the greatest of what it needs.
/// `None` where it doesn't wait.
///
/// Refused 5 InFlight. It takes no memory and seeks nothing.
pub fn level_of(graph: &Graph, element: Element) -> Result<Option<u64>, Refusal>
    ensures level { IfOk result (λ found. MatchOption found (¬ Waits graph.now.staging.pending element) (λ n. IsHeight graph.now.staging.pending element n)) }
    ensures in_flight { (result ≡ Err Refusal.InFlight) ↔ IsSome graph.now.round }
    ensures refusals { IfErr result (λ r. r ≡ Refusal.InFlight) }
{
    if graph.is_out() {
        return Err(Refusal::InFlight);
    }
    if !graph.waits(element) {
        return Ok(None);
    }
    let kept = graph.kept(element);
    Ok(Some(kept.0))
}

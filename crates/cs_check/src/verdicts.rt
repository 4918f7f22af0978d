//! The checker of plans.
ghost use Rattle.std.specs.Prelude.{◌≡◌, ◌⊎◌, ◌↔◌, IfOk, IfErr, OnOk, IsTrue, length};
ghost use Rattle.cs_deps.specs.Schedule.{IsSchedule, Respects, Covers, IsFewest};
ghost use Rattle.cs_deps.specs.View.{pending_of, rounds_of};
ghost use Rattle.cs_check.specs.Listing.{IsWellFormed};
ghost use Rattle.cs_check.specs.Tests.{Passes};
ghost use Rattle.cs_check.specs.Faults.{FirstFailed};
ghost use Rattle.cs_check.specs.Progress.{AreLatest, HaveFamilies, elements_of};

use crate::chains::is_chain;
use crate::earliest::first_rounds;
use crate::faults::CheckFault;
use crate::listings::{LIMIT, latest_versions};
use crate::nestings::is_nested;
use crate::noted::places_of;
use crate::plans::{all_wait, are_rounds};
use crate::timings::Timing;
use cs_deps::{Dependency, Element, GraphView, Plan};
use std::alloc::Global;

/// The greatest number of families.
const MAX_FAMILIES: usize = 16;

/// What a check found: the plan is right, and takes as few flushes as can be.
#[derive(Clone, Copy, Debug, PartialEq, Eq)]
pub struct Verdict {
    /// The number of rounds, each of which ends with one flush.
    pub flushes: usize,
}

/// Whether the number of families and their persistent versions are in range.
fn has_families(view: &GraphView) -> bool
    ensures { IsTrue result ↔ HaveFamilies (pending_of view.now) }
{
    let families = view.persistent.len();
    1 <= families && families <= MAX_FAMILIES && view.persistent.iter().all(|v| *v < LIMIT)
}

/// The last version that is listed of each family, where all keeps the rules of a document.
pub fn well_formed(
    alloc: Global,
    view: &GraphView,
    target: &Dependency,
    rounds: &[Vec<Element>],
    chain: &[Element],
) -> Result<Vec<u64>, CheckFault>
    ensures ok { IfOk result (λ latest. IsWellFormed (pending_of view.now) target.now (elements_of rounds.now) chain.now × AreLatest (pending_of view.now) latest.items) }
    ensures err { IfErr result (λ fault. (fault ≡ CheckFault.OutOfMemory) ⊎ ((fault ≡ CheckFault.BadDocument) × (¬ IsWellFormed (pending_of view.now) target.now (elements_of rounds.now) chain.now))) }
{
    let latest = latest_versions(alloc, view)?;
    if !has_families(view) {
        return Err(CheckFault::BadDocument);
    }
    let places = places_of(alloc, &view.waiting)?;
    let rounded = are_rounds(alloc, view, &places, rounds)?;
    if !rounded {
        return Err(CheckFault::BadDocument);
    }
    if !all_wait(view, &places, chain) {
        return Err(CheckFault::BadDocument);
    }
    Ok(latest)
}

/// Makes the tests in their order.
fn test(
    alloc: Global,
    view: &GraphView,
    target: &Dependency,
    rounds: &[Vec<Element>],
    chain: &[Element],
) -> Result<(), CheckFault>
    ensures passes { OnOk result (Passes (pending_of view.now) target.now (elements_of rounds.now) chain.now) }
    ensures failed { IfErr result (λ fault. FirstFailed (pending_of view.now) target.now (elements_of rounds.now) chain.now fault) }
{
    let latest = well_formed(alloc, view, target, rounds, chain)?;
    let latest = latest.as_slice();
    let places = places_of(alloc, &view.waiting)?;
    if !is_nested(view, &places) {
        return Err(CheckFault::NotNested);
    }
    let firsts = match first_rounds(alloc, view, &places, rounds) {
        Ok(firsts) => firsts,
        Err(_) => return Err(CheckFault::OutOfMemory),
    };
    let timing = Timing {
        view,
        places: &places,
        rounds,
        firsts: firsts.as_slice(),
    };
    if !timing.covers(target, latest) {
        return Err(CheckFault::Uncovered);
    }
    if !timing.are_in_time() {
        return Err(CheckFault::TooEarly);
    }
    if !is_chain(view, &places, target, chain) {
        return Err(CheckFault::ChainBroken);
    }
    if chain.len() < rounds.len() {
        return Err(CheckFault::ChainShort);
    }
    Ok(())
}

/// Checks that a plan covers its target, that each crash during it leaves a closed set, and that its chain shows that
/// no schedule takes fewer flushes.
///
/// The first test that fails is answered: 10 BadDocument, 11 NotNested, 12 Uncovered, 13 TooEarly, 14 ChainBroken, 15 ChainShort. What the target or a need names and is persistent in
/// the view is passed over, and so is a plain write that the view doesn't list, number 0 too. A version past the last
/// one listed is 10 as a need and 12 in the target. 9 OutOfMemory where a growth was refused.
///
/// It takes time in the order of all that it is given, but for sorting: the waiting elements, the members of rounds and chain,
/// and the plain writes that needs and target name. If a need or the target names a plain write that does not wait, it
/// looks at each waiting element for that one list of names.
pub fn check(
    alloc: Global,
    view: &GraphView,
    target: &Dependency,
    plan: &Plan,
) -> Result<Verdict, CheckFault>
    ensures passes { IfOk result (λ _. Passes (pending_of view.now) target.now (rounds_of plan.now) plan.now.chain.items) }
    ensures failed { IfErr result (λ fault. FirstFailed (pending_of view.now) target.now (rounds_of plan.now) plan.now.chain.items fault) }
    ensures flushes { IfOk result (λ verdict. verdict.flushes ≡ length (rounds_of plan.now)) }

    // What a passed check means.
    ensures schedule { IfOk result (λ _. IsSchedule (pending_of view.now) (rounds_of plan.now)) }
    ensures covers { IfOk result (λ _. Covers (pending_of view.now) (rounds_of plan.now) target.now) }
    ensures respects { IfOk result (λ _. Respects (pending_of view.now) (rounds_of plan.now)) }
    ensures fewest { IfOk result (λ _. IsFewest (pending_of view.now) target.now (rounds_of plan.now)) }
{
    test(alloc, view, target, &plan.rounds, &plan.chain)?;
    Ok(Verdict {
        flushes: plan.rounds.len(),
    })
}

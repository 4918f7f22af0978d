//! After how many rounds each waiting element is satisfied.
ghost use Rattle.std.specs.Prelude.{◌≡◌, IfOk, length};
ghost use Rattle.cs_deps.specs.Schedule.{IsSchedule};
ghost use Rattle.cs_deps.specs.View.{pending_of};
ghost use Rattle.cs_check.specs.Listing.{IsListing};
ghost use Rattle.cs_check.specs.Progress.{elements_of, AreFirsts, AreHeld, Lowers, Marks, MarksOne};

use crate::noted::Places;
use cs_deps::{Element, GraphView};
use std::alloc::{AllocError, Global};

/// Makes this the first round of an element, if it waits.
fn mark_one(view: &GraphView, places: &Places, element: Element, i: usize, firsts: &mut Vec<usize>)
    requires count { length firsts.old.items ≡ length view.now.waiting.items }
    ensures { MarksOne (pending_of view.now) element i firsts.old.items firsts.new.items }
{
    if let Some(k) = places.find(&view.waiting, element) {
        firsts[k] = i;
    }
}

/// Makes this the first round of its members.
fn mark(view: &GraphView, places: &Places, round: &[Element], i: usize, firsts: &mut Vec<usize>)
    requires listing { IsListing (pending_of view.now) }
    requires count { length firsts.old.items ≡ length view.now.waiting.items }
    ensures { Marks (pending_of view.now) round.now i firsts.old.items firsts.new.items }
{
    for member in round {
        mark_one(view, places, *member, i, firsts);
    }
}

/// The place of the first round that holds each waiting element, the number of rounds where none does.
fn first_held(
    alloc: Global,
    view: &GraphView,
    places: &Places,
    rounds: &[Vec<Element>],
) -> Result<Vec<usize>, AllocError>
    requires listing { IsListing (pending_of view.now) }
    ensures { IfOk result (λ firsts. AreHeld (pending_of view.now) (elements_of rounds.now) 0 firsts.items) }
{
    let mut firsts = Vec::from_elem(alloc, rounds.len(), view.waiting.len())?;
    for after in 0..rounds.len() {
        let i = rounds.len() - 1 - after;
        mark(view, places, &rounds[i], i, &mut firsts);
    }
    Ok(firsts)
}

/// Makes a version's first round no later than that of the versions after it, which stand for it.
fn lower(firsts: &mut Vec<usize>, families: &mut Vec<usize>, k: usize, element: Element)
    ensures { Lowers k element firsts.old.items firsts.new.items families.old.items families.new.items }
{
    if let Element::Version(family, _) = element {
        if family < families.len() && k < firsts.len() {
            let first = firsts[k].min(families[family]);
            firsts[k] = first;
            families[family] = first;
        }
    }
}

/// The place of the first round that satisfies each waiting element, the number of rounds where none does.
pub fn first_rounds(
    alloc: Global,
    view: &GraphView,
    places: &Places,
    rounds: &[Vec<Element>],
) -> Result<Vec<usize>, AllocError>
    requires listing { IsListing (pending_of view.now) }
    requires schedule { IsSchedule (pending_of view.now) (elements_of rounds.now) }
    ensures { IfOk result (λ firsts. AreFirsts (pending_of view.now) (elements_of rounds.now) firsts.items) }
{
    let mut firsts = first_held(alloc, view, places, rounds)?;
    let mut families = Vec::from_elem(alloc, rounds.len(), view.persistent.len())?;
    for after in 0..view.waiting.len() {
        let k = view.waiting.len() - 1 - after;
        lower(&mut firsts, &mut families, k, view.waiting[k].0);
    }
    Ok(firsts)
}

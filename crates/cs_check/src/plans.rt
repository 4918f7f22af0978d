//! Whether rounds and a chain are of elements that wait.
ghost use Rattle.std.specs.Prelude.{◌↔◌, IfOk, IsTrue, All};
ghost use Rattle.cs_deps.specs.Pending.{Waits};
ghost use Rattle.cs_deps.specs.Schedule.{IsSchedule};
ghost use Rattle.cs_deps.specs.View.{pending_of};
ghost use Rattle.cs_check.specs.Listing.{IsOnce};
ghost use Rattle.cs_check.specs.Progress.{elements_of};

use crate::noted::Places;
use crate::orders::is_once;
use cs_deps::{Element, GraphView};
use std::alloc::{AllocError, Global};

/// Whether the element waits.
fn waits(view: &GraphView, places: &Places, element: Element) -> bool
    ensures { IsTrue result ↔ Waits (pending_of view.now) element }
{
    places.find(&view.waiting, element).is_some()
}

/// Whether each of the elements waits.
pub fn all_wait(view: &GraphView, places: &Places, elements: &[Element]) -> bool
    ensures { IsTrue result ↔ All (Waits (pending_of view.now)) elements.now }
{
    for element in elements {
        if !waits(view, places, *element) {
            return false;
        }
    }
    true
}

/// Whether each round is of waiting elements, each of them once.
pub fn are_rounds(
    alloc: Global,
    view: &GraphView,
    places: &Places,
    rounds: &[Vec<Element>],
) -> Result<bool, AllocError>
    ensures { IfOk result (λ yes. IsTrue yes ↔ (IsSchedule (pending_of view.now) (elements_of rounds.now) × All IsOnce (elements_of rounds.now))) }
{
    for i in 0..rounds.len() {
        let round = &rounds[i];
        if !all_wait(view, places, round) {
            return Ok(false);
        }
        let once = is_once(alloc, round)?;
        if !once {
            return Ok(false);
        }
    }
    Ok(true)
}

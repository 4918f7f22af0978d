//! Where the elements of a list stand.
ghost use Rattle.std.specs.Prelude.{◌≡◌, MatchOption, IfSome, IsTrue, Some, slice_get};
ghost use Rattle.cs_deps.specs.Named.{Named};
ghost use Rattle.cs_deps.specs.State.{IsListed};

use cs_deps::{Dependency, Element, find};
use std::alloc::{AllocError, Global};
use std::collections::BTreeMap;

/// The places of elements in a list, as they were noted. Each is looked at before it is returned, so a wrong one costs time
/// and nothing else.
#[derive(Drop)]
pub struct Places {
    noted: BTreeMap<(u64, u64), usize>,
}

/// A pair of numbers that differs from element to element. Those of plain writes ascend with their numbers, and so do
/// those of a family's versions.
pub fn key_of(element: Element) -> (u64, u64) {
    match element {
        Element::Plain(number) => (u64::MAX, number),
        Element::Version(family, version) => (family as u64, version),
    }
}

/// Whether the element stands at this place.
fn stands_at(waiting: &[(Element, Dependency)], place: usize, element: Element) -> bool
    ensures { IsTrue result → (d : Named) × (slice_get waiting.now place ≡ Some (element, d)) }
{
    if place >= waiting.len() {
        return false;
    }
    let entry = &waiting[place];
    entry.0.is_same(element)
}

impl Places {
    /// No place is noted.
    pub fn new(alloc: Global) -> Self {
        Places {
            noted: BTreeMap::new(alloc),
        }
    }

    /// Notes the place of an element.
    pub fn note(&mut self, element: Element, place: usize) -> Result<(), AllocError> {
        self.noted.insert(key_of(element), place)?;
        Ok(())
    }

    /// The place of an element, if the noted one is right.
    pub fn at(&self, waiting: &[(Element, Dependency)], element: Element) -> Option<usize>
        ensures { IfSome result (λ k. (d : Named) × (slice_get waiting.now k ≡ Some (element, d))) }
    {
        let place = *self.noted.get(&key_of(element))?;
        if stands_at(waiting, place, element) {
            Some(place)
        } else {
            None
        }
    }

    /// The place of an element in the list. It compares with each where the noted one is wrong.
    pub fn find(&self, waiting: &[(Element, Dependency)], element: Element) -> Option<usize>
        ensures { MatchOption result (¬ IsListed waiting.now element) (λ k. (d : Named) × (slice_get waiting.now k ≡ Some (element, d))) }
    {
        match self.at(waiting, element) {
            Some(place) => Some(place),
            None => find(waiting, element),
        }
    }
}

/// The places of all elements of a list.
pub fn places_of(alloc: Global, waiting: &[(Element, Dependency)]) -> Result<Places, AllocError> {
    let mut places = Places::new(alloc);
    for k in 0..waiting.len() {
        places.note(waiting[k].0, k)?;
    }
    Ok(places)
}

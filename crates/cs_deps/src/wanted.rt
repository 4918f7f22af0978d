//! What a target needs of what waits, marked from the target downwards.
ghost use Rattle.std.specs.Prelude.{◌≡◌, ℕ, ◌+◌, ◌<◌, ◌≤◌, ◌↔◌, ◌⊎◌, true, false, IfOk, IfSome, IsTrue, length, slice_index, slice_index_or, ◌&&◌};
ghost use Rattle.cs_deps.specs.Named.{Names, IsInSpan, IsInSpans};
ghost use Rattle.cs_deps.specs.Entries.{union, entry_waits, waiting_of};
ghost use Rattle.cs_deps.specs.Pending.{IsStaged, Waits};
ghost use Rattle.cs_deps.specs.Levels.{entry_live, live_of};
ghost use Rattle.cs_deps.specs.Wanted.{AreWanted, taken_at};

use crate::dependencies::{Dependency, version_at};
use crate::elements::Element;
use crate::levels::Levels;
use crate::needs::Needs;
use crate::spans::Span;
use crate::waiting::{is_waiting, needs_in};
use std::alloc::{AllocError, Global};
use std::marker::Model;

/// A set of elements, in which a plain write that waits isn't sought.
#[derive(Drop)]
pub struct Wanted {
    all: Dependency,
    /// Whether each plain write from the one after `start` on is one of a listed span.
    marks: Vec<bool>,
    start: u64,
}

impl Model for Wanted {
    ghost use Rattle.cs_deps.specs.Named.{Named};
    ghost use Rattle.cs_deps.specs.Wanted.{AreMarked};

    ghost Value = { Named };

    ghost view = { λ w. w.all };

    ghost invariant = { λ w. AreMarked w.start w.marks.items w.all.spans };
}

impl Wanted {
    /// What the target names. So many plain writes from the one after `start` on are looked up and not sought.
    pub(crate) fn new(
        alloc: Global,
        start: u64,
        count: usize,
        target: &Dependency,
    ) -> Result<Self, AllocError>
        ensures { IfOk result (λ w. w ≡ target.now) }
    {
        let all = target.copy()?;
        let mut marks = vec![in alloc; false; count]?;
        mark_all(&mut marks, start, target.spans());
        Ok(Wanted { all, marks, start })
    }

    /// What is wanted, and what a dependency names.
    pub(crate) fn with(self, more: &Dependency) -> Result<Self, AllocError>
        ensures { IfOk result (λ w. w ≡ union self more.now) }
    {
        let mut wanted = self;
        wanted.all.join(more)?;
        mark_all(&mut wanted.marks, wanted.start, more.spans());
        Ok(wanted)
    }

    /// Whether it names this element. A plain write that waits isn't searched for, and a version never is.
    pub fn names(&self, element: Element) -> bool
        ensures { IsTrue result ↔ Names self.now element }
    {
        match element {
            Element::Plain(number) => match mark_at(&self.marks, self.start, number) {
                Some(mark) => mark || number <= self.all.through_number(),
                None => self.all.names(element),
            },
            Element::Version(_, _) => self.all.names(element),
        }
    }

    /// The number to which it names the versions of a family, 0 where it names none.
    pub fn least_of(&self, family: usize) -> u64
        ensures { result ≡ slice_index self.now.least family }
    {
        self.all.least_of(family)
    }
}

/// The mark of a number, where it has a place.
fn mark_at(marks: &[bool], start: u64, number: u64) -> Option<bool>
    ensures { IfSome result (λ mark. (i : ℕ) × (number ≡ start + i + 1) × (i < length marks.now) × (mark ≡ slice_index_or marks.now i false)) }
{
    if number <= start {
        return None;
    }
    let place = number - start - 1;
    if place < marks.len() as u64 {
        Some(marks[place as usize])
    } else {
        None
    }
}

/// Marks the places from one on and before another, as far as there are any.
fn mark_places(marks: &mut Vec<bool>, from: u64, end: u64)
    ensures count { length marks.new.items ≡ length marks.old.items }
    ensures marks { (i : ℕ) → i < length marks.old.items → (slice_index_or marks.new.items i false ≡ true) ↔ ((slice_index_or marks.old.items i false ≡ true) ⊎ ((from ≤ i) × (i < end))) }
{
    for place in from..end.min(marks.len() as u64) {
        marks[place as usize] = true;
    }
}

/// Marks the numbers of a span that have a place. It costs nothing where none has one.
fn mark(marks: &mut Vec<bool>, start: u64, span: Span)
    ensures count { length marks.new.items ≡ length marks.old.items }
    ensures marks { (i : ℕ) → i < length marks.old.items → (slice_index_or marks.new.items i false ≡ true) ↔ ((slice_index_or marks.old.items i false ≡ true) ⊎ IsInSpan (start + i + 1) span) }
{
    let from = span.first.saturating_sub(start).saturating_sub(1);
    mark_places(marks, from, span.last.saturating_sub(start));
}

/// Marks the numbers of spans.
fn mark_all(marks: &mut Vec<bool>, start: u64, spans: &[Span])
    ensures count { length marks.new.items ≡ length marks.old.items }
    ensures marks { (i : ℕ) → i < length marks.old.items → (slice_index_or marks.new.items i false ≡ true) ↔ ((slice_index_or marks.old.items i false ≡ true) ⊎ IsInSpans spans.now (start + i + 1)) }
{
    for span in spans {
        mark(marks, start, *span);
    }
}

/// Whether an element is the first version of its family that waits.
fn is_first(persistent: &[u64], element: Element) -> bool
    ensures plain { (n : ℕ) → element ≡ Element.Plain n → ¬ IsTrue result }
    ensures version { (f v : ℕ) → element ≡ Element.Version f v → IsTrue result ↔ (v ≡ slice_index persistent.now f + 1) }
{
    match element {
        Element::Plain(_) => false,
        Element::Version(family, version) => version > 0
            && version - 1 == version_at(persistent, family),
    }
}

/// All that the first version of a family needs that waits, and what any other element needs of its own.
fn needs_from(
    alloc: Global,
    entries: &[(Element, Needs)],
    levels: &Levels,
    floors: &[u64],
    persistent: &[u64],
    entry: &(Element, Needs),
) -> Result<Dependency, AllocError>
    ensures { IfOk result (λ needs. needs ≡ taken_at persistent.now (live_of levels.now floors.now entries.now) entry.now.0 entry.now.1) }
{
    if is_first(persistent, entry.0) {
        needs_in(alloc, entries, levels, floors, entry)
    } else {
        entry.1.copy(alloc)
    }
}

/// Whether an element waits and is wanted.
fn is_wanted(
    wanted: &Wanted,
    levels: &Levels,
    floors: &[u64],
    persistent: &[u64],
    element: Element,
) -> bool
    ensures { IsTrue result ↔ (((entry_live levels.now floors.now element && entry_waits persistent.now element) ≡ true) × Names wanted.now element) }
{
    is_waiting(levels, floors, persistent, element) && wanted.names(element)
}

/// What is wanted, with what an element needs where it waits and is wanted.
fn with_needs(
    alloc: Global,
    wanted: Wanted,
    entries: &[(Element, Needs)],
    levels: &Levels,
    floors: &[u64],
    persistent: &[u64],
    entry: &(Element, Needs),
) -> Result<Wanted, AllocError>
    ensures { IfOk result (λ d. ((¬ (((entry_live levels.now floors.now entry.now.0 && entry_waits persistent.now entry.now.0) ≡ true) × Names wanted entry.now.0)) × (d ≡ wanted)) ⊎ (((entry_live levels.now floors.now entry.now.0 && entry_waits persistent.now entry.now.0) ≡ true) × Names wanted entry.now.0 × (d ≡ union wanted (taken_at persistent.now (live_of levels.now floors.now entries.now) entry.now.0 entry.now.1)))) }
{
    if is_wanted(&wanted, levels, floors, persistent, entry.0) {
        let needs = needs_from(alloc, entries, levels, floors, persistent, entry)?;
        wanted.with(&needs)
    } else {
        Ok(wanted)
    }
}

/// What a target needs of what waits. It goes through the entries once, the last one first, and once more for each family.
pub fn wanted_of(
    alloc: Global,
    entries: &[(Element, Needs)],
    levels: &Levels,
    floors: &[u64],
    persistent: &[u64],
    target: Wanted,
) -> Result<Wanted, AllocError>
    requires staged { IsStaged (record { persistent = persistent.now; waiting = waiting_of persistent.now (live_of levels.now floors.now entries.now) }) }
    requires first { (f v : ℕ) → Waits (record { persistent = persistent.now; waiting = waiting_of persistent.now (live_of levels.now floors.now entries.now) }) (Element.Version f v) → Waits (record { persistent = persistent.now; waiting = waiting_of persistent.now (live_of levels.now floors.now entries.now) }) (Element.Version f (slice_index persistent.now f + 1)) }
    ensures { IfOk result (λ d. AreWanted (record { persistent = persistent.now; waiting = waiting_of persistent.now (live_of levels.now floors.now entries.now) }) target d) }
{
    let mut wanted = target;
    for k in (0..entries.len()).rev() {
        let entry = &entries[k];
        wanted = with_needs(alloc, wanted, entries, levels, floors, persistent, entry)?;
    }
    Ok(wanted)
}

//! What goes with a root where chunks and runs lie apart: copies are let go, and blank extents are emptied under it. An
//! extent is blank if frames lie on it, but none that lives and no run.
ghost use Rattle.std.specs.Prelude.{◌≡◌, ◌≢◌, ◌<◌, ◌≤◌, ◌^◌, ◌||◌, ℕ, false, true};
ghost use Rattle.cs_extent.specs.State.{IsWhole, extents_of, shape};
ghost use Rattle.cs_index.specs.Copies.{newest_copies};
ghost use Rattle.cs_index.specs.State.{index_of};
ghost use Rattle.law_machine.specs.Apart.{any_copy_on, is_any_swept, is_blank_by, is_held_by};
ghost use Rattle.law_machine.specs.Extents.{emptied, forgotten};
ghost use Rattle.cs_reclaim.specs.Rooted.{IsRootedApart, copies_at_rest, extents_at_rest, freed_under};

use crate::sweeps::Sweeps;
use cs_extent::{Extents, LAST_GENERATION};
use cs_index::{ChunkCopy, Index};

impl Sweeps {
    /// Does what goes with a root that was staged over the index: copies and extents are at rest, and blank extents are
    /// emptied.
    pub(crate) fn end_root(&mut self, index: &Index, extents: &mut Extents, root: u64)
        requires apart { (shape extents.old).apart ≡ true }
        requires root { root < 2 ^ 63 }
        ensures rooted { IsRootedApart index.now extents.old self.old root extents.new self.new }
        ensures whole { IsWhole extents.old }
        ensures resets { (most : ℕ) → ((e : ℕ) → (extents_of extents.old).reset e ≤ most) → root ≤ most → (e : ℕ) → (extents_of extents.new).reset e ≤ most }
    {
        // Called for its contract alone: what all extents keep.
        extents.extent_count();
        self.rest(extents);
        free_blank(index, extents, self, root);
    }

    /// If no extent is being swept, no copy is noted any more, and no extent is one that a sweep opened.
    fn rest(&mut self, extents: &mut Extents)
        ensures copies { self.new ≡ copies_at_rest (shape extents.old) (extents_of extents.old) self.old }
        ensures extents { extents_of extents.new ≡ extents_at_rest (shape extents.old) (extents_of extents.old) }
        ensures shape { shape extents.new ≡ shape extents.old }
    {
        if is_any_swept(extents) {
            return;
        }
        self.copies.clear();
        extents.rest();
    }
}

/// Whether an extent is being swept. Costs a pass over the extents.
pub fn is_any_swept(extents: &Extents) -> bool
    ensures { result ≡ is_any_swept (shape extents.now) (extents_of extents.now) }
{
    for e in 0..extents.extent_count() {
        if extents.is_swept(e) {
            return true;
        }
    }
    false
}

/// Empties the blank extents under a version of the root that names nothing there, so that they are given again: those
/// on which frames lie, but none that lives and no run, which the unfinished sweep doesn't hold, and whose generation
/// may rise. Costs a pass over the extents, and where a sweep is unfinished over its copies for each.
pub fn free_blank(index: &Index, extents: &mut Extents, copies: &Sweeps, root: u64)
    requires apart { (shape extents.old).apart ≡ true }
    requires root { root < 2 ^ 63 }
    ensures freed { extents_of extents.new ≡ freed_under (shape extents.old) (extents_of extents.old) index.now copies.now root }
    ensures shape { shape extents.new ≡ shape extents.old }
{
    let unfinished = is_any_swept(extents);
    for e in 0..extents.extent_count() {
        if is_blank(index, extents, copies, unfinished, e) {
            empty(extents, e, root);
        }
    }
}

/// Empties an extent whose generation may rise.
fn empty(extents: &mut Extents, extent: usize, root: u64)
    requires apart { (shape extents.old).apart ≡ true }
    requires inside { extent < (shape extents.old).extents }
    requires young { (extents_of extents.old).generation extent ≢ (shape extents.old).greatest_generation }
    requires root { root < 2 ^ 63 }
    ensures emptied { extents_of extents.new ≡ forgotten true (emptied (extents_of extents.old) extent root) extent }
    ensures shape { shape extents.new ≡ shape extents.old }
{
    match extents.reset(extent, root) {
        Ok(()) => {}
        Err(_) => unreachable!(),
    }
}

/// Whether an extent is blank, if a sweep is unfinished or none is.
fn is_blank(
    index: &Index,
    extents: &Extents,
    copies: &Sweeps,
    unfinished: bool,
    extent: usize,
) -> bool
    requires inside { extent < (shape extents.now).extents }
    requires unfinished { unfinished ≡ is_any_swept (shape extents.now) (extents_of extents.now) }
    ensures { result ≡ is_blank_by (shape extents.now) (extents_of extents.now) (index_of index.now) index.now.runs copies.now extent }
{
    // Called for its contract alone: what all extents keep.
    extents.extent_count();
    extents.pointer(extent) > 0
        && index.lives_on(extent) == 0
        && !index.has_run_on(extent)
        && !is_held(extents, copies, unfinished, extent)
        && extents.generation(extent) < LAST_GENERATION
}

/// Whether the unfinished sweep goes on at an extent, or wrote a copy there.
fn is_held(extents: &Extents, copies: &Sweeps, unfinished: bool, extent: usize) -> bool
    requires inside { extent < (shape extents.now).extents }
    requires unfinished { unfinished ≡ is_any_swept (shape extents.now) (extents_of extents.now) }
    ensures { result ≡ is_held_by (shape extents.now) (extents_of extents.now) copies.now extent }
{
    unfinished && (extents.is_swept(extent) || any_copy_on(&copies.copies, extent))
}

/// Whether a copy was written to an extent.
fn any_copy_on(copies: &[ChunkCopy], extent: usize) -> bool
    ensures { result ≡ any_copy_on (newest_copies copies.now) extent }
{
    let mut found = false;
    for k in 0..copies.len() {
        let copy = &copies[k];
        found = usize::from(copy.to.extent) == extent || found;
    }
    found
}

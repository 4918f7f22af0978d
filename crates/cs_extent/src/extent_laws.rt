//! Laws over many changes.
ghost use Rattle.std.specs.Prelude.{◌≡◌, ◌↔◌, ◌⊎◌, ◌+◌, ◌<◌, ◌≤◌, ℕ, true, List, Some, slice_get};
ghost use Rattle.cs_deps.specs.declared.elements.Element.{Element};
ghost use Rattle.cs_deps.specs.Named.{Named};
ghost use Rattle.cs_deps.specs.Staging.{IsVersionStaged, Staging, settled};
ghost use Rattle.law_machine.specs.Device.{Shape};
ghost use Rattle.law_machine.specs.Extents.{Extents, GoesApart, Placed, Purpose, emptied};
ghost use Rattle.cs_extent.specs.Changes.{Change, Given, LeadsTo};
ghost use Rattle.cs_extent.specs.Frames.{AreOneSectionsNeedsWithin, IsFrameBehind, IsFrameStaged, greatest, root_family};

/// Between two opens each page of an extent is given at most once in each of the extent's generations. No page is given
/// that was given before. A page that was given and not recorded may be given again once the store is opened anew: no
/// locator names a page after the pointer that is found.
pub fn pages_are_given_once()
    ensures once { (S : Shape) (x y : Extents) (changes : List Change) (given : List Given) (i j : ℕ) (page : Given)
        → LeadsTo S x changes given y → slice_get given i ≡ Some page → slice_get given j ≡ Some page → i ≡ j }
    ensures behind { (S : Shape) (x y : Extents) (changes : List Change) (given : List Given) (i : ℕ) (page : Given)
        → LeadsTo S x changes given y → slice_get given i ≡ Some page → (x.generation page.extent < page.generation)
        ⊎ ((page.generation ≡ x.generation page.extent) × (x.pointer page.extent ≤ page.page)) }
{}

/// A frame goes to one extent, if to any. So it is in format 2, too.
pub fn one_place()
    ensures mixed { (S : Shape) (x : Extents) (purpose : Purpose) (k d e : ℕ) → Placed S x purpose k d → Placed S x purpose k e → d ≡ e }
    ensures apart { (S : Shape) (x : Extents) (purpose : Purpose) (k d e : ℕ) → GoesApart S x purpose k d → GoesApart S x purpose k e → d ≡ e }
{}

/// What a section's versions need of the root never falls. An extent is emptied under a version of the root. If no
/// earlier reset of the section's extents had a greater one, the section's next version needs that version.
pub fn needs_never_fall()
    ensures bound { (x : Extents) (start count root : ℕ)
        → (greatest (λ i. x.reset (start + i)) count ≤ root) ↔ ((i : ℕ) → i < count → x.reset (start + i) ≤ root) }
    ensures rises { (x : Extents) (start count i root : ℕ) → i < count → greatest (λ k. x.reset (start + k)) count ≤ root
        → greatest (λ k. (emptied x (start + i) root).reset (start + k)) count ≡ root }
{}

/// This is of a superblock of one section, in a format in which page writes come first, if what its versions need
/// doesn't fall. Joining it with what the version before needs adds nothing. A new version needs the plain writes
/// staged so far and the versions of the root up to its own need, and nothing else.
pub fn joining_adds_nothing_to_one_section()
    ensures exact { (old new : Staging) (count root need : ℕ) → IsFrameStaged old new true 1 0 count root need → AreOneSectionsNeedsWithin old need → IsFrameBehind old new count root need }
    ensures kept { (old new : Staging) (count root need : ℕ) → IsFrameStaged old new true 1 0 count root need → AreOneSectionsNeedsWithin old need → AreOneSectionsNeedsWithin new need }
    ensures root { (old new : Staging) (v need : ℕ) (needs : Named) → IsVersionStaged old root_family v needs new → AreOneSectionsNeedsWithin old need → AreOneSectionsNeedsWithin new need }
    ensures settled { (s : Staging) (round : List Element) (need : ℕ) → AreOneSectionsNeedsWithin s need → AreOneSectionsNeedsWithin (record s { pending = settled s.pending round }) need }
    ensures more { (s : Staging) (need more : ℕ) → AreOneSectionsNeedsWithin s need → need ≤ more → AreOneSectionsNeedsWithin s more }
{}

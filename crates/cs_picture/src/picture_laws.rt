//! What pictures show, as laws. Each function does nothing; its contract is the law.
ghost use Rattle.std.specs.Prelude.{◌↔◌, ℕ, Contains};
ghost use Rattle.cs_deps.specs.Named.{Named};
ghost use Rattle.cs_deps.specs.Pending.{Pending, WaitsAt};
ghost use Rattle.cs_deps.specs.declared.elements.Element.{Element as Item};
ghost use Rattle.cs_check.specs.Listing.{IsListing};
ghost use Rattle.cs_check.specs.Written.{IsGreatest, NamesListed};
ghost use Rattle.cs_picture.specs.Picture.{named_in};

/// The arrows from an element lead to what a document writes as its needs: the plain writes among what waits that it
/// needs, and of each family the greatest version.
pub fn arrows_are_needs()
    ensures { (g : Pending) (k : ℕ) (x : Item) (d : Named) (y : Item) → IsListing g → WaitsAt g k x d → Contains (named_in g.waiting d) y ↔ IsGreatest g d y }
{}

/// The elements with two borders are what a document writes as its target.
pub fn borders_are_the_target()
    ensures { (g : Pending) (target : Named) (y : Item) → IsListing g → NamesListed g target → Contains (named_in g.waiting target) y ↔ IsGreatest g target y }
{}

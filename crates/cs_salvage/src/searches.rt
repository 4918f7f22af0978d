//! Whose parts are sought on a device.
ghost use Rattle.std.specs.Prelude.{◌≡◌, ◌≢◌, MatchBool, MatchOption, true};
ghost use Rattle.cs_salvage.specs.Parts.{IsSought};
ghost use Rattle.law_machine.specs.Geometry.{heads_in, store_front};

use crate::parts::FoundPart;
use cs_frame::Geometry;

/// Whose chunks are sought. Each chunk has the first eight bytes of the identity of the store that wrote it.
#[derive(Clone, Copy, Debug, PartialEq, Eq)]
pub enum Whose {
    /// Those of the store of the geometry. Chunks that another store left on the device are passed over.
    OfStore,
    /// Those of any store: for a device whose store's identity isn't known.
    OfAny,
}

/// What is sought: the chunks on a device of this geometry, of its store or of any.
#[derive(Clone, Copy, Debug, PartialEq, Eq)]
pub struct Sought {
    pub geometry: Geometry,
    pub whose: Whose,
}

/// Whether these are the first eight bytes of the identity of the store of this geometry.
fn is_of_store(geometry: Geometry, store: [u8; 8]) -> bool
    requires { heads_in geometry.format ≡ true }
    ensures { MatchBool result (store ≡ store_front geometry.format) (store ≢ store_front geometry.format) }
{
    match geometry.format().store() {
        Some(identity) => identity.front() == store,
        None => false,
    }
}

/// Whether the chunks of a store are sought whose identity begins with these bytes.
fn is_sought(sought: &Sought, store: [u8; 8]) -> bool
    requires { heads_in sought.now.geometry.format ≡ true }
    ensures { MatchBool result (IsSought sought.now store) (IsSought sought.now store → ⊥) }
{
    match sought.whose {
        Whose::OfStore => is_of_store(sought.geometry, store),
        Whose::OfAny => true,
    }
}

/// The part, if it is sought.
pub fn if_sought(sought: &Sought, found: FoundPart) -> Option<FoundPart>
    requires { heads_in sought.now.geometry.format ≡ true }
    ensures { MatchOption result (IsSought sought.now found.part.store → ⊥) (λ it. (it ≡ found) × IsSought sought.now it.part.store) }
{
    if is_sought(sought, found.part.store) {
        Some(found)
    } else {
        None
    }
}

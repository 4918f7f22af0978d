// What a disk in memory has held.
ghost use Rattle.std.specs.Prelude.{◌≡◌, ◌∷◌};

use crate::contents::Contents;
use std::snapshot::Snapshot;

/// The contents before each write and flush, the last call outermost. They are values that clauses alone see: a
/// `Past` takes no memory but its own tag, and none is asked for when a call joins it.
#[derive(Drop)]
pub enum Past {
    Start,
    After(Snapshot<Contents>, Snapshot<Past>),
}

impl Past {
    ghost use Rattle.cs_disk.specs.Past.{past_states, state_of};

    /// Adds what is there before a call.
    pub fn note(&mut self, contents: &Contents)
        ensures { past_states self.new ≡ state_of contents.now ∷ past_states self.old }
    {
        *self = Past::After(Snapshot::of(contents), Snapshot::of(self));
    }
}

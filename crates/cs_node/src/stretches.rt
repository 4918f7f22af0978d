//! Numbers that follow one another.
ghost use Rattle.std.specs.Prelude.{◌≡◌, ◌+◌, ◌↔◌, IsTrue};

/// The numbers from the first to the last, both among them; none where the last is below the first.
#[derive(Clone, Copy, Debug, PartialEq, Eq)]
pub struct Stretch {
    pub first: u64,
    pub last: u64,
}

impl Stretch {
    /// Whether its first number comes right after this one.
    pub(crate) fn follows(self, number: u64) -> bool
        ensures { IsTrue result ↔ (self.first ≡ number + 1) }
    {
        number.checked_add(1) == Some(self.first)
    }
}

//! Plain writes that follow one another.
ghost use Rattle.std.specs.Prelude.{◌↔◌, IsTrue};
ghost use Rattle.cs_deps.specs.Named.{IsInSpan};

/// The plain writes from one number to another, both among them; none where the last is below the first.
#[derive(Clone, Copy, Debug, Default, PartialEq, Eq)]
pub struct Span {
    pub first: u64,
    pub last: u64,
}

impl Span {
    /// Whether a number is one of its.
    pub(crate) fn has(self, number: u64) -> bool
        ensures { IsTrue result ↔ IsInSpan number self }
    {
        self.first <= number && number <= self.last
    }
}

//! What an extent holds where chunks and runs lie apart.
ghost use Rattle.std.specs.Prelude.{◌≡◌};
ghost use Rattle.cs_extent.specs.Kinds.{is_of_runs};

/// What an extent holds.
#[derive(Clone, Copy, Debug, PartialEq, Eq)]
pub enum Kind {
    Chunks,
    Runs,
}

impl Kind {
    /// Whether it is runs.
    pub(crate) fn is_of_runs(self) -> bool
        ensures { result ≡ is_of_runs self }
    {
        match self {
            Kind::Chunks => false,
            Kind::Runs => true,
        }
    }
}

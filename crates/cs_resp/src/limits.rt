//! How large a request may be.
ghost use Rattle.std.specs.Prelude.{◌≤◌};

/// The limits of requests. A request that passes one of them is refused as soon as the digit that does so is read.
#[derive(Clone, Copy, Debug, PartialEq, Eq)]
pub struct Limits {
    /// How many arguments a request has at most; the name of the command is one of them.
    pub arguments: u32,
    /// How many bytes an argument has at most.
    pub bulk: u32,
    /// How many bytes the arguments of a request have together at most.
    pub bytes: u32,
}

impl Limits {
    /// The largest of them. So all are below 2^32.
    pub fn largest(self) -> u32
        ensures arguments { self.arguments ≤ result }
        ensures bulk { self.bulk ≤ result }
        ensures bytes { self.bytes ≤ result }
    {
        self.arguments.max(self.bulk).max(self.bytes)
    }
}

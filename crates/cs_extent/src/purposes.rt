//! What frames are appended for.

/// What a frame is appended for.
#[derive(Clone, Copy, Debug, PartialEq, Eq)]
pub enum Purpose {
    /// A chunk of a put.
    Put,
    /// A run of the index that is staged.
    Run,
    /// A chunk that is moved off an extent, and the merged run that goes with a reset.
    Move,
    /// One run of all that is live, where chunks and runs lie apart.
    Merge,
}

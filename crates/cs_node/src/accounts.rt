//! What numbers add up to.

/// What numbers add up to, where they should be those from 1 to a greatest one, each once.
#[derive(Clone, Copy, Debug, PartialEq, Eq)]
pub struct Account {
    /// Whether they are these.
    pub is_whole: bool,
    /// How many of these aren't there. It may be 0 where they aren't whole: one may be there twice, or be above the greatest, or be 0.
    pub missing: u64,
}

//! What has come of a request.
use crate::faults::Fault;

/// What bytes begin with.
#[derive(Debug, Drop)]
pub enum Progress {
    /// A whole request, and how many bytes it takes. Its first argument is the name of the command.
    Whole {
        /// The arguments.
        request: Vec<Vec<u8>>,
        /// How many bytes spell it.
        used: usize,
    },
    /// The beginning of a request: nothing is wrong yet.
    More,
    /// No request, whatever follows.
    Wrong(Fault),
}

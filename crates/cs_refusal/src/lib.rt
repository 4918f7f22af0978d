//! Why a call was refused: the numbers and names that all crates share.
#![tactic(auto)]

mod refusals;

pub use refusals::Refusal;

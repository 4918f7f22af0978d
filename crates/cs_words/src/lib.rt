//! The words and numbers of the command line that several crates share: exit statuses, and what a race is run with.
#![tactic(auto)]

mod race_numbers;
mod statuses;

pub use race_numbers::Race;
pub use statuses::{
    ABSENT, BAD_LINE, COMMAND_LINE, DAMAGED, DONE, IN_USE, NO_STORE, NOT_THERE, REFUSED, STREAM,
};

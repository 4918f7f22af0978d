//! What a command tells of a file: what is known of what lies in it, how the command ended, what is advised, and how
//! that is printed.
#![tactic(auto)]

mod advices;
mod knowns;
mod losses;
mod outcomes;
mod outputs;
mod tellings;

pub use advices::{
    Todo, advice, advice_of_system, meaning, system_text, what_is_advised_loses_nothing,
};
pub use knowns::{Content, Known, known_of};
pub use losses::may_be_lost;
pub use outcomes::Outcome;
pub use outputs::{Style, print_id, print_identity, print_number, print_payload, print_refusal};
pub use tellings::{Errors, Reason, explain, print_outcome, print_reason, tell, warn};

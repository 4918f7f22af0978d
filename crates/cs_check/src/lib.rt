//! A checker of plans, which knows nothing of the planner, and the documents in which they are passed on.
#![tactic(auto)]

mod befores;
mod chains;
mod coverings;
mod documents;
mod earliest;
mod faults;
mod listings;
mod name_runs;
mod named_back;
mod names;
mod nestings;
mod noted;
mod orders;
mod plans;
mod readings;
mod spelled;
mod texts;
mod timings;
mod values;
mod verdicts;
mod writings;

pub use documents::{Document, from_document, reads_as_written, to_document};
pub use faults::CheckFault;
pub use verdicts::{Verdict, check};

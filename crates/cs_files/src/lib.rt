//! The files of stores as the commands open them: with what is missing made from the index, with what was passed over
//! fenced, and with warnings of what isn't whole.
#![tactic(auto)]

pub mod fences;
pub mod files;
pub mod heads;
mod kept_pages;
pub mod lefts;
pub mod manners;
pub mod openings;
pub mod progress;
pub mod seals;
pub mod sections;
mod skips;
pub mod warnings;

// What callers need of the crates below, so that this one is enough.
pub use cs_doctor::{
    DamagedRun, Depth, FileDiagnosis, Known, Missing, Naming, Outcome, Progress, Rescue, Scanned,
    Skipping, Sought, Style, Todo, Whose, advice, count_of, diagnose, explain, first_geometry,
    may_be_lost, report, tell, warn,
};
pub use cs_store::file_openers::first_pages;
pub use cs_store::mount::the_core::Core;
pub use cs_store::mount::{
    AsOf, Chosen, Finding, LIMITS, MountOptions, Mounted, Remade, first_written, mend,
};
pub use cs_store::{Loss, NO_IDENTITY, OpenOptions, Reserve, Store, new_identity};

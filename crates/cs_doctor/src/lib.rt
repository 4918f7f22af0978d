//! What is found of a store in a file, before any store is opened: its pages as they lie there, what damage they have,
//! the greatest number of a command, and which commands to type next.
#![tactic(auto)]

mod diagnoses;
mod diagnosing;
mod diagnosis_counts;
mod diagnosis_steps;
mod doctor;
mod doctor_json;
mod doctor_report;
mod doctor_sections;
mod doctor_stores;
mod doctor_texts;
mod json_members;
mod scans;

pub use diagnoses::{
    Deep, Diagnosis, FileDiagnosis, Frames, HeadFound, Looked, Opening, PairFound, Rest, RootFound,
    RunFound, StoreFound,
};
pub use diagnosing::diagnose;
pub use diagnosis_steps::{Step, steps_of};
pub use doctor::{Depth, first_geometry, look_into};
pub use doctor_report::report;
pub use doctor_sections::{may_lack_section, pages_of_sections};
pub use doctor_stores::find_store;
pub use scans::greatest_command;

// What callers need of the crates below, so that this one is enough.
pub use cs_advice::{
    Content, Known, Outcome, Style, Todo, advice, explain, known_of, may_be_lost, tell, warn,
};
pub use cs_inspect::Progress;
pub use cs_salvage::{
    DamagedRun, Missing, Naming, Patience, Rescue, Scanned, Skipping, Sought, Watcher, Whose,
    count_of,
};

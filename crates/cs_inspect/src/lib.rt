//! What is in a store, and whether it can still be read: its identifiers, its chunks, how its extents are used, and a
//! scrub of each live chunk and each run of the index. Nothing here is kept in the history.
#![tactic(auto)]

mod choices;
mod choices_past;
mod choices_v2;
mod figures;
mod listings;
mod scrubs;
mod surveys;

pub use choices::{Choice, SweepRule, choose_sweep, fewest_live, next_to_sweep};
pub use choices_past::{choose_past, is_of_chunk, nothing_passed_over_is_no_change, pass_all};
pub use choices_v2::most_garbage;
pub use cs_core as the_core;
pub use figures::{Quota, RunUse, Stats};
pub use listings::{first_on, ids, ids_from, live_chunks};
pub use scrubs::{
    Damage, Nobody, Progress, Scrubbed, damaged_shards_are_named, read_chunk, read_run, scrub,
};
pub use surveys::{ExtentUse, Survey, survey_extents, uses};

//! Page writes that wait, what each of them needs, and the rounds in which they become persistent.
#![tactic(auto)]

mod cleaning;
mod dependencies;
mod elements;
mod graph_laws;
mod graphs;
mod keeps;
mod levels;
mod needs;
mod records;
mod rounds;
mod rows;
mod spans;
mod views;
mod waiting;
mod wanted;

pub use dependencies::Dependency;
pub use elements::{Element, LAST_NUMBER};
pub use graph_laws::{
    a_chain_bounds_every_schedule, a_first_round_waits_no_more, a_round_lowers_heights,
    each_waiting_element_has_a_height, rounds_in_turn_are_a_plan,
};
pub use graphs::Graph;
pub use spans::Span;
pub use views::{GraphView, Plan};
pub use waiting::find;
pub use wanted::Wanted;

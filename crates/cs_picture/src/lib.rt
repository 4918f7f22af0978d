//! The picture of a plan: the text of a graph in the DOT language of Graphviz, from a plan document.
#![tactic(auto)]

mod lines;
mod names;
mod picture_laws;
mod pictures;

pub use picture_laws::{arrows_are_needs, borders_are_the_target};
pub use pictures::draw;

//! When the rounds of a plan satisfy what waits.
use crate::noted::Places;
use cs_deps::{Element, GraphView};

/// A view and rounds, with the place of the first round that satisfies each waiting element.
#[derive(Clone, Copy)]
pub struct Timing<'a> {
    pub view: &'a GraphView,
    /// Where each element stands in the view.
    pub places: &'a Places,
    pub rounds: &'a [Vec<Element>],
    /// For each place of the view, the place of the first round that satisfies the element there. The number of rounds
    /// stands for none.
    pub firsts: &'a [usize],
}

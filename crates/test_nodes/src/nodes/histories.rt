//! What a history has to be, told by its steps.
use cs_node::Step;
use cs_node::the_core::{Event, Reply};
use std::alloc::Global;
use std::process::Abort;

/// The event without its fields.
fn step_of(event: &Event) -> Step {
    match event {
        Event::Put(_, _) => Step::Put,
        Event::Get(_) => Step::Get,
        Event::Delete(_) => Step::Delete,
        Event::Stage => Step::Stage,
        Event::Begin => Step::Begin,
        Event::Issue => Step::Issue,
        Event::End => Step::End,
        Event::BeginSweep(_) => Step::BeginSweep,
        Event::MoveOne(_) => Step::MoveOne,
        Event::Retire(_) => Step::Retire,
        Event::Abandon(_) => Step::Abandon,
        Event::Settle(_) => Step::Settle,
    }
}

/// The steps of a history, the first one first.
pub fn steps_of<R: Abort>(rt: &R, alloc: Global, history: &[(Event, Reply)]) -> Vec<Step> {
    let mut steps = Vec::new(alloc);
    for entry in history {
        assert!(rt; steps.push(step_of(&entry.0)).is_ok());
    }
    steps
}

/// Asserts how steps print.
pub fn are_steps<R: Abort>(rt: &R, alloc: Global, steps: &[Step], wanted: &str) {
    let text = format!(in alloc; "{steps:?}").expect(rt, "memory");
    assert!(rt; text.as_str() == wanted);
}

/// Asserts how the steps of a history print.
pub fn prints<R: Abort>(rt: &R, alloc: Global, history: &[(Event, Reply)], wanted: &str) {
    let steps = steps_of(rt, alloc, history);
    are_steps(rt, alloc, steps.as_slice(), wanted);
}

//! What may be done between events, and during one.
ghost use Rattle.std.specs.Prelude.{◌≡◌, false};
ghost use Rattle.cs_node.specs.Dues.{step_of};

use cs_core::Event;

/// An event without its fields, or none.
#[derive(Clone, Copy, Debug, PartialEq, Eq)]
pub enum Step {
    /// There was nothing to do.
    Idle,
    Put,
    Get,
    Delete,
    Stage,
    Begin,
    Issue,
    End,
    BeginSweep,
    MoveOne,
    Retire,
    Abandon,
    Settle,
}

/// What is done besides the events of a worker or of a put. It may wait for nobody.
pub trait Gate {
    // what is known of a gate that ends a worker: nothing, unless an impl says it
    ghost ended: { Self → Type 0 } = { λ _. Unit {0} };

    /// Called before each turn of a worker, without the lock. If it returns false the worker ends.
    fn before(&self) -> bool
        ensures { result ≡ false → ended self.now };

    /// Called after each event that was recorded, while the lock is held.
    fn within(&self, step: Step);
}

/// A gate that is always open.
#[derive(Clone, Copy, Debug)]
pub struct Open;

impl Gate for Open {
    ghost ended = { λ _. ⊥ };

    fn before(&self) -> bool {
        true
    }

    fn within(&self, _step: Step) {}
}

/// The event without its fields.
pub fn step_of(event: &Event) -> Step
    ensures { result ≡ step_of event.now }
{
    match event {
        Event::Put(_, _) => Step::Put,
        Event::Get(_) => Step::Get,
        Event::Delete(_) => Step::Delete,
        Event::Stage => Step::Stage,
        Event::Begin => Step::Begin,
        Event::Issue => Step::Issue,
        Event::End => Step::End,
        Event::BeginSweep(_) => Step::BeginSweep,
        Event::MoveOne(_) => Step::MoveOne,
        Event::Retire(_) => Step::Retire,
        Event::Abandon(_) => Step::Abandon,
        Event::Settle(_) => Step::Settle,
    }
}

//! Who writes back under steady load.
ghost use Rattle.std.specs.Prelude.{◌≡◌, IfErr, IfOk, MatchOption, MatchResult, true};
ghost use Rattle.cs_core.specs.Checkpoints.{IsNotReplaced, Replaces};
ghost use Rattle.cs_node.specs.Dues.{IsAtRest};
ghost use Rattle.cs_node.specs.Locks.{WhileLocked};
ghost use Rattle.cs_node.specs.Streams.{IsNext, IsStreamRefused, IsStreamTurn};

use crate::boards::{NamedBoard, Naming};
use crate::gates::{Gate, Step, step_of};
use crate::locked::Engine;
use crate::nodes::Node;
use crate::pilots::Pilot;
use crate::writebacks::round_event;
use cs_core::{Core, Event};
use cs_disk::PageDisk;
use cs_refusal::Refusal;
use std::marker::Model;
use std::sync::Wait;
use std::thread;

/// The pilot's seat under steady load. Whenever no round is out it stages what there is to stage before the next round
/// begins. So rounds of several syncs overlap: one flush makes the data of the last puts durable, the superblock of
/// those before, and the root of those before these. Contracts see what they see of the pilot.
#[derive(Drop)]
pub struct Stream<K: Naming> {
    pilot: Pilot<K>,
}

impl<K: Naming> Model for Stream<K> {
    ghost use Rattle.std.specs.Prelude.{ℕ};

    ghost Value = { ℕ };

    ghost view = { λ s. s.pilot };
}

impl<K: Naming> Stream<K> {
    /// The pilot's seat for a stream.
    pub fn new(pilot: Pilot<K>) -> Self
        ensures { result ≡ pilot }
    {
        Stream { pilot }
    }

    /// The pilot again.
    pub fn into_pilot(self) -> Pilot<K>
        ensures { result ≡ self }
    {
        let Stream { pilot } = self;
        pilot
    }

    /// `Node::checkpoint`, for the pilot whose seat this is.
    pub fn checkpoint<D: PageDisk, R: Wait>(
        &mut self,
        rt: &R,
        node: &Node<D, K>,
    ) -> Result<u64, Refusal>
        ensures replaced { WhileLocked D.PageDisk K.start (λ old new. MatchResult result (λ n. Replaces old n new) (λ r. IsNotReplaced old r × (new ≡ old))) }
        ensures seen { self.new ≡ self.old }
    {
        node.checkpoint(rt, &mut self.pilot)
    }

    /// Does the event of writeback that is due, under one lock. A round that is out goes on and ends; else what the
    /// index has changed is staged, or a root alone if a sweep that was given up left copies; else a new round begins
    /// if something waits; else there is nothing to do.
    ///
    /// The refusals are those of the event, and 9 `OutOfMemory`.
    pub fn turn<D: PageDisk, G: Gate, R: Wait>(
        &mut self,
        rt: &R,
        node: &Node<D, K>,
        gate: &G,
    ) -> Result<Step, Refusal>
        ensures turn { WhileLocked D.PageDisk K.start (λ old new. IsStreamTurn D.PageDisk old result new) }
        ensures seen { self.new ≡ self.old }
    {
        node.lock.take(rt).engine.stream(&node.board, gate)
    }

    /// Takes turns until the gate ends it or a turn is refused. It yields if there is nothing to do.
    pub fn run<D: PageDisk, G: Gate, R: Wait>(
        &mut self,
        rt: &R,
        node: &Node<D, K>,
        gate: &G,
    ) -> Result<(), Refusal>
        ensures ok { IfOk result (λ _. G.ended gate.now) }
        ensures err { IfErr result (λ r. WhileLocked D.PageDisk K.start (λ old new. IsStreamRefused D.PageDisk old r new)) }
        ensures seen { self.new ≡ self.old }
    {
        for _ in rt.forever() {
            if !gate.before() {
                return Ok(());
            }
            if self.turn(rt, node, gate)? == Step::Idle {
                thread::yield_now();
            }
        }
        unreachable!()
    }
}

/// Which event of writeback is due in a stream, or None if nothing waits and there is nothing to stage.
fn next_event<D: PageDisk>(core: &Core<D>) -> Option<Event>
    ensures { MatchOption result (IsAtRest core.now.store) (λ event. IsNext core.now.store event) }
{
    if let Some(event) = round_event(core) {
        return Some(event);
    }
    if core.may_stage() {
        return Some(Event::Stage);
    }
    if core.has_waiting() {
        return Some(Event::Begin);
    }
    None
}

impl<D: PageDisk, K: Naming> Engine<D, K> {
    /// Does the event of writeback that is due in a stream. The refusals are those of the event, and 9 `OutOfMemory`.
    pub fn stream<G: Gate>(&mut self, board: &NamedBoard<D, K>, gate: &G) -> Result<Step, Refusal>
        requires fresh { self.old.fresh ≡ true }
        ensures turn { IsStreamTurn D.PageDisk self.old.core result self.new.core }
    {
        let Some(event) = next_event(self.core()) else {
            return Ok(Step::Idle);
        };
        match self.work(board, &event, gate) {
            Ok(_) => Ok(step_of(&event)),
            Err(refusal) => Err(refusal),
        }
    }
}

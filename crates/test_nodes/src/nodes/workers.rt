//! Gates that count, a stream, and a node that rests between two purses.
use super::acts::{Act, new_hand, plays};
use super::tasks::{Gave, Task, given};
use super::{Store, Wanted, tries};
use cs_disk::PageDisk;
use cs_node::*;
use std::alloc::Global;
use std::process::Abort;
use std::sync::Wait;
use std::sync::atomic::{AtomicU64, Ordering};

/// A gate that lets through so many turns, and counts events.
#[derive(Drop)]
struct Counts {
    turns: AtomicU64,
    events: AtomicU64,
}

impl Counts {
    /// Asserts how many turns it still lets through, and how many events it counted.
    fn are_left<R: Abort>(&self, rt: &R, turns: u64, events: u64) {
        assert!(rt; self.turns.load(Ordering::SeqCst) == turns);
        assert!(rt; self.events.load(Ordering::SeqCst) == events);
    }
}

impl Gate for Counts {
    fn before(&self) -> bool {
        let left = self.turns.load(Ordering::SeqCst);
        if left == 0 {
            return false;
        }
        self.turns.store(left - 1, Ordering::SeqCst);
        true
    }

    fn within(&self, _step: Step) {
        self.events.fetch_add(1, Ordering::SeqCst);
    }
}

/// Does acts with a gate that lets through so many turns, up to a look at how many events it counted, and after it up
/// to one at how many turns are left and how many events were counted.
pub fn count_events<D: PageDisk, K: Naming, R: Wait + Abort>(
    rt: &R,
    alloc: Global,
    node: &Node<D, K>,
    turns: u64,
    first: (&[Act], u64),
    then: (&[Act], u64, u64),
) -> Gave<K> {
    let gate = Counts {
        turns: AtomicU64::new(turns),
        events: AtomicU64::new(0),
    };
    let mut hand = new_hand(rt, alloc, node);
    plays(rt, node, &mut hand, &gate, first.0);
    gate.are_left(rt, turns, first.1);
    plays(rt, node, &mut hand, &gate, then.0);
    gate.are_left(rt, then.1, then.2);
    given(rt, alloc, hand)
}

/// Puts with a gate.
const PUTS: &[Act] = &[Act::PutTold(10, 1, Ok(1)), Act::KeepTicket, Act::Hire(true)];

/// Flies with it.
const FLIES: &[Act] = &[Act::RunPilot(None)];

#[test]
fn a_gate_counts_events(rt: HostRuntime) {
    let task = Task::Counts(3, PUTS, 1, FLIES, 0, 4);
    tries(
        &rt,
        rt.alloc(),
        Store::Small(64),
        task,
        Wanted::Counts(1, 0),
    );
}

/// Puts once more while a round of a stream is out.
const STREAMS: &[Act] = &[
    Act::Put(10, Ok(1)),
    Act::KeepTicket,
    Act::Hire(true),
    Act::Stream(Step::Stage),
    Act::Stream(Step::Begin),
    Act::Stream(Step::Issue),
    Act::Put(11, Ok(2)),
    Act::KeepTicket,
    Act::Stream(Step::Issue),
    Act::Stream(Step::End),
    Act::Stream(Step::Stage),
    Act::Stream(Step::Begin),
    Act::Sync(Ok(2)),
];

#[test]
fn a_stream_stages_before_each_round(rt: HostRuntime) {
    tries(
        &rt,
        rt.alloc(),
        Store::Small(64),
        Task::Plays(STREAMS),
        Wanted::Counts(2, 2),
    );
}

/// Puts, for a stream.
const STREAM_PUTS: &[Act] = &[Act::Put(10, Ok(1)), Act::Hire(true)];

/// Runs a stream until its gate ends it.
const STREAM_RUNS: &[Act] = &[Act::RunStream(None), Act::Poll(None), Act::KeepAck(1)];

#[test]
fn a_stream_runs_until_its_gate_ends_it(rt: HostRuntime) {
    let task = Task::Counts(64, STREAM_PUTS, 0, STREAM_RUNS, 0, 11);
    tries(
        &rt,
        rt.alloc(),
        Store::Small(64),
        task,
        Wanted::Counts(1, 1),
    );
}

#[test]
fn a_node_that_rested_keeps_what_it_gave(rt: HostRuntime) {
    tries(
        &rt,
        rt.alloc(),
        Store::Small(64),
        Task::Rests,
        Wanted::Counts(0, 0),
    );
}

//! A gate that two threads share: it is told under the lock, in the order of the history.
use super::acts::{Act, Player, new_hand, plays};
use super::histories::steps_of;
use super::tasks::{Ended, Gave, Task, beside};
use super::{Store, Wanted, tries};
use cs_disk::PageDisk;
use cs_node::*;
use std::alloc::Global;
use std::process::Abort;
use std::sync::atomic::{AtomicU64, Ordering};
use std::sync::{Arc, Wait};
use std::thread;
use std::thread::Threads;

/// A gate that mixes what it is told into one number, by a load, a while for other threads, and a store: were two
/// threads told at a time, one of them would be lost.
#[derive(Drop)]
struct Mixes {
    told: Arc<AtomicU64, Global>,
}

impl Gate for Mixes {
    fn before(&self) -> bool {
        true
    }

    fn within(&self, step: Step) {
        let before = self.told.load(Ordering::SeqCst);
        thread::yield_now();
        self.told.store(mixed(before, step), Ordering::SeqCst);
    }
}

/// One step more. The number depends on all steps and on their order.
fn mixed(before: u64, step: Step) -> u64 {
    let digit = match step {
        Step::Put => 1,
        Step::Stage => 2,
        Step::Begin => 3,
        Step::Issue => 4,
        Step::End => 5,
        _ => 6,
    };
    before.wrapping_mul(31).wrapping_add(digit)
}

/// Puts with that gate.
const PUTS: &[Act] = &[Act::PutHundred];

/// Writes back with that gate.
const WRITES: &[Act] = &[Act::FlyOften];

/// The pilot for it.
const HIRES: &[Act] = &[Act::Hire(true)];

/// A gate that mixes into this number.
fn mixing<R: Abort>(rt: &R, told: &Arc<AtomicU64, Global>) -> Mixes {
    Mixes {
        told: Arc::try_clone(told).expect(rt, "a gate"),
    }
}

/// What a gate is told by a thread that puts beside one that writes back.
pub fn tell_beside<D: PageDisk + Send, K: Naming + Send + Sync, R: Threads + Wait + Abort + Sync>(
    rt: &R,
    alloc: Global,
    node: &Node<D, K>,
) -> Gave<K> {
    let Ok(told) = Arc::new(alloc, AtomicU64::new(0)) else {
        panic!(rt; "a number")
    };
    let mut hand = new_hand(rt, alloc, node);
    plays(rt, node, &mut hand, &Open, HIRES);
    let writes = Player {
        hand,
        gate: mixing(rt, &told),
        acts: WRITES,
    };
    let puts = Player {
        hand: new_hand(rt, alloc, node),
        gate: mixing(rt, &told),
        acts: PUTS,
    };
    let mut gave = beside(rt, alloc, node, puts, writes);
    gave.number = told.load(Ordering::SeqCst);
    gave
}

/// Asserts that what the gate was told is the history.
pub fn are_told_in_order<R: Abort>(rt: &R, alloc: Global, ended: &Ended) {
    let mut told = 0;
    for step in steps_of(rt, alloc, ended.history.as_slice()) {
        told = mixed(told, step);
    }
    assert!(rt; ended.number == told);
}

#[test]
fn a_gate_is_told_by_two_threads_in_the_order_of_the_history(rt: HostRuntime) {
    tries(&rt, rt.alloc(), Store::Wide, Task::Orders, Wanted::InOrder);
}

//! What gates are told, and when.
use super::acts::{Act, new_hand, plays};
use super::histories::are_steps;
use super::tasks::{Gave, Task, given};
use super::{Store, Wanted, tries};
use cs_disk::PageDisk;
use cs_node::*;
use cs_refusal::Refusal;
use std::alloc::Global;
use std::cell::RefCell;
use std::process::Abort;
use std::sync::Wait;

/// A gate that keeps what it is told.
#[derive(Drop)]
struct Keeps {
    told: RefCell<Vec<Step>>,
}

impl Gate for Keeps {
    fn before(&self) -> bool {
        true
    }

    fn within(&self, step: Step) {
        if let Ok(mut told) = self.told.try_borrow_mut() {
            let _ = told.push(step);
        }
    }
}

/// More bytes than eight chunks of two pages have.
const TOO_MANY: usize = 70_000;

/// Fills a history of ten events with a gate, and asks for one more: puts, of which one is refused, two turns of a
/// reclaimer, and one of a reclaimer that has no sweep left, two turns of the pilot, and three of a stream behind them.
const FILLS_TEN: &[Act] = &[
    Act::PutTold(10, 1, Ok(1)),
    Act::KeepTicket,
    Act::PutTold(11, 1, Ok(2)),
    Act::KeepTicket,
    Act::PutTold(12, TOO_MANY, Err(Refusal::TooLarge)),
    Act::Reclaim(1),
    Act::Sweep(Ok(Step::BeginSweep)),
    Act::Sweep(Ok(Step::MoveOne)),
    Act::Reclaim(0),
    Act::Sweep(Ok(Step::Idle)),
    Act::Hire(true),
    Act::Fly(Step::Begin),
    Act::Fly(Step::Issue),
    Act::Stream(Step::Issue),
    Act::Stream(Step::Issue),
    Act::Stream(Step::End),
    Act::PutTold(12, TOO_MANY, Err(Refusal::HistoryFull)),
];

/// All that the gate is told of, which is the whole history: a refused put is recorded, and a turn with nothing to do
/// isn't.
const TOLD: &str = "[Put, Put, Put, BeginSweep, MoveOne, Begin, Issue, Issue, Issue, End]";

/// Fills a history with a gate that keeps what it is told.
pub fn tells_all<D: PageDisk, K: Naming, R: Wait + Abort>(
    rt: &R,
    alloc: Global,
    node: &Node<D, K>,
) -> Gave<K> {
    let gate = Keeps {
        told: RefCell::new(Vec::new(alloc)),
    };
    let mut hand = new_hand(rt, alloc, node);
    plays(rt, node, &mut hand, &gate, FILLS_TEN);
    are_told(rt, alloc, &gate);
    given(rt, alloc, hand)
}

/// Asserts what the gate was told.
fn are_told<R: Abort>(rt: &R, alloc: Global, gate: &Keeps) {
    let Ok(told) = gate.told.try_borrow() else {
        panic!(rt; "a gate that is in use")
    };
    are_steps(rt, alloc, told.as_slice(), TOLD);
}

#[test]
fn a_gate_is_told_of_all_that_is_recorded(rt: HostRuntime) {
    tries(
        &rt,
        rt.alloc(),
        Store::Small(10),
        Task::TellsAll,
        Wanted::Prints(TOLD),
    );
}

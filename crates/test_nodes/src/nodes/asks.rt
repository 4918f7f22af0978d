//! Polls from within a gate, while the lock is held.
use super::acts::{Act, Hand, new_hand, plays};
use super::calls::poll;
use super::histories::are_steps;
use super::tasks::{Gave, Task, given};
use super::{Store, Wanted, tries};
use cs_disk::PageDisk;
use cs_node::*;
use std::alloc::Global;
use std::cell::RefCell;
use std::process::Abort;
use std::sync::Wait;

/// A hand whose ticket is asked about, and what came of that.
#[derive(Drop)]
struct Asked<K: Naming> {
    hand: Hand<K>,
    // the steps after which the command wasn't persistent
    before: Vec<Step>,
    // the step after which it was
    after: Option<Step>,
}

impl<K: Naming> Asked<K> {
    /// Polls the ticket after this step, while there is one.
    fn ask<D: PageDisk>(&mut self, node: &Node<D, K>, step: Step) {
        match poll(node, &mut self.hand) {
            Ok(None) => self.after = Some(step),
            Ok(Some(_)) => {
                let _ = self.before.push(step);
            }
            Err(_) => {}
        }
    }
}

/// A gate that asks whenever it is told of an event.
#[derive(Drop)]
struct Asking<'a, D: PageDisk, K: Naming> {
    node: &'a Node<D, K>,
    asked: RefCell<Asked<K>>,
}

impl<'a, D: PageDisk, K: Naming> Gate for Asking<'a, D, K> {
    fn before(&self) -> bool {
        true
    }

    fn within(&self, step: Step) {
        if let Ok(mut asked) = self.asked.try_borrow_mut() {
            asked.ask(self.node, step);
        }
    }
}

/// Puts, for a stream.
const PUTS: &[Act] = &[Act::Put(10, Ok(1)), Act::Hire(true)];

/// Takes eleven turns of a stream, which make a put persistent, and one that has nothing to do.
const STREAMS_ELEVEN: &[Act] = &[
    Act::Stream(Step::Stage),
    Act::Stream(Step::Begin),
    Act::Stream(Step::Issue),
    Act::Stream(Step::Issue),
    Act::Stream(Step::End),
    Act::Stream(Step::Begin),
    Act::Stream(Step::Issue),
    Act::Stream(Step::End),
    Act::Stream(Step::Begin),
    Act::Stream(Step::Issue),
    Act::Stream(Step::End),
    Act::Stream(Step::Idle),
];

/// Polls within each event of a stream.
pub fn asks<D: PageDisk, K: Naming, R: Wait + Abort>(
    rt: &R,
    alloc: Global,
    node: &Node<D, K>,
) -> Gave<K> {
    let mut hand = new_hand(rt, alloc, node);
    plays(rt, node, &mut hand, &Open, PUTS);
    ask_all(rt, alloc, node, &mut hand);
    given(rt, alloc, hand)
}

/// Polls the hand's ticket within each event of a stream.
fn ask_all<D: PageDisk, K: Naming, R: Wait + Abort>(
    rt: &R,
    alloc: Global,
    node: &Node<D, K>,
    hand: &mut Hand<K>,
) {
    let mut asking = new_hand(rt, alloc, node);
    asking.ticket = hand.ticket.take();
    let gate = Asking {
        node,
        asked: RefCell::new(Asked {
            hand: asking,
            before: Vec::new(alloc),
            after: None,
        }),
    };
    plays(rt, node, hand, &gate, STREAMS_ELEVEN);
    are_asked(rt, alloc, &gate.asked);
}

/// Asserts that a put became persistent by the End of the third round, which the gate knew as it was told of that.
fn are_asked<K: Naming, R: Abort>(rt: &R, alloc: Global, asked: &RefCell<Asked<K>>) {
    let Ok(asked) = asked.try_borrow() else {
        panic!(rt; "a gate that is in use")
    };
    let before = "[Stage, Begin, Issue, Issue, End, Begin, Issue, End, Begin, Issue]";
    are_steps(rt, alloc, asked.before.as_slice(), before);
    assert!(rt; asked.after == Some(Step::End));
}

#[test]
fn a_gate_that_polls_sees_the_end_that_it_is_told_of(rt: HostRuntime) {
    tries(
        &rt,
        rt.alloc(),
        Store::Small(64),
        Task::Asks,
        Wanted::Unclosed,
    );
}

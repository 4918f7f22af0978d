//! Two threads on one node, each of which waits for the other at most a bounded number of loads.
use super::acts::{Act, Hand, Player, new_hand, plays};
use super::tasks::{Gave, Task, abreast, beside, nothing};
use super::{Store, Wanted, tries};
use cs_disk::PageDisk;
use cs_node::*;
use std::alloc::{AllocError, Global};
use std::process::Abort;
use std::sync::atomic::{AtomicU64, Ordering};
use std::sync::{Arc, Wait};
use std::thread::Threads;

/// How often a flag is loaded at most.
const LOADS: u64 = 2_000_000_000;

/// What two threads tell each other.
#[derive(Drop)]
pub struct Flags {
    // the gate was reached
    pub reached: AtomicU64,
    // the other thread was answered
    pub answered: AtomicU64,
    // the gate saw that
    seen: AtomicU64,
}

pub type Signals = Arc<Flags, Global>;

fn signals(alloc: Global) -> Result<Signals, AllocError> {
    let flags = Flags {
        reached: AtomicU64::new(0),
        answered: AtomicU64::new(0),
        seen: AtomicU64::new(0),
    };
    match Arc::new(alloc, flags) {
        Ok(signals) => Ok(signals),
        Err(_) => Err(AllocError),
    }
}

/// The same signals for one more.
fn another<R: Abort>(rt: &R, signals: &Signals) -> Signals {
    Arc::try_clone(signals).expect(rt, "signals")
}

/// Whether the flag was raised within so many loads.
pub fn is_raised(flag: &AtomicU64) -> bool {
    for _ in 0..LOADS {
        if flag.load(Ordering::SeqCst) == 1 {
            return true;
        }
    }
    false
}

impl Flags {
    /// Keeps the caller until the other thread was answered.
    fn keep(&self) {
        self.reached.store(1, Ordering::SeqCst);
        if is_raised(&self.answered) {
            self.seen.store(1, Ordering::SeqCst);
        }
    }
}

/// A gate that keeps a put under the lock.
#[derive(Drop)]
struct KeepsPut {
    signals: Signals,
}

impl Gate for KeepsPut {
    fn before(&self) -> bool {
        true
    }

    fn within(&self, step: Step) {
        if step == Step::Put {
            self.signals.keep();
        }
    }
}

/// Puts, and syncs.
const PUT_AND_SYNC: &[Act] = &[
    Act::Put(10, Ok(1)),
    Act::Hire(true),
    Act::Hire(false),
    Act::Sync(Ok(1)),
];

/// Puts with the gate.
const PUTS: &[Act] = &[Act::PutTold(11, 1, Ok(2))];

/// Polls once the gate was reached.
const POLLS: &[Act] = &[Act::Await, Act::Poll(None), Act::Tell, Act::KeepAck(1)];

/// Puts beside a poll that waits until the put has the lock.
pub fn polls_beside_a_put<
    D: PageDisk + Send,
    K: Naming + Send + Sync,
    R: Threads + Wait + Abort + Sync,
>(rt: &R, alloc: Global, node: &Node<D, K>) -> Gave<K> {
    let signals = signals(alloc).expect(rt, "signals");
    let mut first = new_hand(rt, alloc, node);
    plays(rt, node, &mut first, &Open, PUT_AND_SYNC);
    let mut second = new_hand(rt, alloc, node);
    second.ticket = first.ticket.take();
    let puts = Player {
        hand: first,
        gate: KeepsPut {
            signals: another(rt, &signals),
        },
        acts: PUTS,
    };
    let polls = signalled(rt, second, &signals, POLLS);
    let gave = beside(rt, alloc, node, puts, polls);
    was_seen(rt, &signals);
    gave
}

/// A hand that does these acts in a thread, with the signals.
fn signalled<K: Naming, R: Abort>(
    rt: &R,
    mut hand: Hand<K>,
    signals: &Signals,
    acts: &'static [Act],
) -> Player<K, Open> {
    hand.signals = Some(another(rt, signals));
    Player {
        hand,
        gate: Open,
        acts,
    }
}

/// Asserts that the gate saw the other thread answered.
fn was_seen<R: Abort>(rt: &R, signals: &Signals) {
    assert!(rt; signals.seen.load(Ordering::SeqCst) == 1);
}

#[test]
fn a_poll_answers_while_a_put_has_the_lock(rt: HostRuntime) {
    tries(
        &rt,
        rt.alloc(),
        Store::Small(64),
        Task::PollsBesideAPut,
        Wanted::Unclosed,
    );
}

/// A gate that keeps a pilot between Begin and End, without the lock.
#[derive(Drop)]
struct KeepsPilot {
    signals: Signals,
    began: AtomicU64,
    ended: AtomicU64,
}

impl Gate for KeepsPilot {
    fn before(&self) -> bool {
        if self.ended.load(Ordering::SeqCst) == 1 {
            return false;
        }
        if self.began.load(Ordering::SeqCst) == 1
            && self.signals.reached.load(Ordering::SeqCst) == 0
        {
            self.signals.keep();
        }
        true
    }

    fn within(&self, step: Step) {
        match step {
            Step::Begin => self.began.store(1, Ordering::SeqCst),
            Step::End => self.ended.store(1, Ordering::SeqCst),
            _ => {}
        }
    }
}

/// Flies with that gate.
const FLIES: &[Act] = &[Act::RunPilot(None)];

/// Puts, and has the pilot then.
const PUT_AND_HIRE: &[Act] = &[Act::Put(10, Ok(1)), Act::Hire(true)];

/// Puts once the gate was reached.
const PUTS_THEN: &[Act] = &[Act::Await, Act::Put(11, Ok(2)), Act::Tell];

/// Flies beside a put that waits until a round is out.
pub fn puts_beside_a_round<
    D: PageDisk + Send,
    K: Naming + Send + Sync,
    R: Threads + Wait + Abort + Sync,
>(rt: &R, alloc: Global, node: &Node<D, K>) -> Gave<K> {
    let signals = signals(alloc).expect(rt, "signals");
    let mut first = new_hand(rt, alloc, node);
    plays(rt, node, &mut first, &Open, PUT_AND_HIRE);
    let flies = Player {
        hand: first,
        gate: KeepsPilot {
            signals: another(rt, &signals),
            began: AtomicU64::new(0),
            ended: AtomicU64::new(0),
        },
        acts: FLIES,
    };
    let puts = signalled(rt, new_hand(rt, alloc, node), &signals, PUTS_THEN);
    let gave = beside(rt, alloc, node, flies, puts);
    was_seen(rt, &signals);
    gave
}

#[test]
fn a_put_answers_while_a_round_is_out(rt: HostRuntime) {
    tries(
        &rt,
        rt.alloc(),
        Store::Small(64),
        Task::PutsBesideARound,
        Wanted::Unclosed,
    );
}

/// Puts two shards, and sends their tickets off.
const FIRST_RIDES: &[Act] = &[
    Act::PutAny(10),
    Act::Carry,
    Act::PutAny(11),
    Act::Carry,
    Act::EndRamp,
];

/// The same of two others.
const SECOND_RIDES: &[Act] = &[
    Act::PutAny(20),
    Act::Carry,
    Act::PutAny(21),
    Act::Carry,
    Act::EndRamp,
];

/// Takes the tickets in.
const TAKES: &[Act] = &[Act::TakeAll];

/// Two threads that put and send, and one that takes.
pub fn rides<D: PageDisk + Send, K: Naming + Send + Sync, R: Threads + Wait + Abort + Sync>(
    rt: &R,
    alloc: Global,
    node: &Node<D, K>,
) -> Gave<K> {
    let (ramp, dock) = ferry(alloc, 1).expect(rt, "a ferry");
    let mut rides = Vec::new(alloc);
    let mut hand = new_hand(rt, alloc, node);
    hand.ramp = Some(ramp.another().expect(rt, "a ramp"));
    add(rt, &mut rides, hand, FIRST_RIDES);
    let mut hand = new_hand(rt, alloc, node);
    hand.ramp = Some(ramp);
    add(rt, &mut rides, hand, SECOND_RIDES);
    let mut hand = new_hand(rt, alloc, node);
    hand.dock = Some(dock);
    add(rt, &mut rides, hand, TAKES);
    abreast(rt, alloc, node, rides)
}

/// One hand more that does acts in a thread.
pub fn add<K: Naming, R: Abort>(
    rt: &R,
    plays: &mut Vec<Player<K, Open>>,
    hand: Hand<K>,
    acts: &'static [Act],
) {
    let more = Player {
        hand,
        gate: Open,
        acts,
    };
    assert!(rt; plays.push(more).is_ok());
}

#[test]
fn two_ramps_lead_to_one_dock(rt: HostRuntime) {
    tries(
        &rt,
        rt.alloc(),
        Store::Small(64),
        Task::Rides,
        Wanted::Counts(4, 0),
    );
}

/// Gives its number.
#[derive(Drop)]
struct Numbered(u64);

impl<N> Job<N> for Numbered {
    type Out = u64;

    fn run<R: Wait>(self, _rt: &R, _node: &N) -> u64 {
        let Numbered(number) = self;
        number
    }
}

/// Asserts that jobs give what they gave in their order. No purse is given back.
pub fn numbers_in_order<
    D: PageDisk + Send,
    K: Naming + Send + Sync,
    R: Threads + Wait + Abort + Sync,
>(rt: &R, alloc: Global, node: &Node<D, K>) -> Gave<K> {
    let jobs = three(rt, alloc);
    let Ok(numbers) = node.abreast(rt, jobs) else {
        panic!(rt; "numbers")
    };
    assert!(rt; numbers.as_slice() == [1, 2, 3].as_slice());
    let (fourth, fifth) = node.beside(rt, Numbered(4), Numbered(5));
    assert!(rt; fourth == 4);
    assert!(rt; fifth == 5);
    nothing(alloc)
}

/// Jobs that give 1, 2 and 3.
fn three<R: Abort>(rt: &R, alloc: Global) -> Vec<Numbered> {
    let mut jobs = Vec::new(alloc);
    for number in 1..4 {
        assert!(rt; jobs.push(Numbered(number)).is_ok());
    }
    jobs
}

#[test]
fn jobs_answer_in_their_order(rt: HostRuntime) {
    tries(
        &rt,
        rt.alloc(),
        Store::Small(64),
        Task::Numbers,
        Wanted::Counts(0, 0),
    );
}

//! What a test does with a node that did nothing yet, which is made and closed here. Few functions have a node, since
//! whatever a function has is proved to be let go at each of its ends: all others are lent one.
ghost use Rattle.std.specs.Prelude.{◌≡◌, []};
ghost use Rattle.cs_node.specs.Starts.{start_of};

use super::acts::{Act, Hand, Player, hand_of, is_right, new_hand, plays};
use super::asks::asks;
use super::gates::tells_all;
use super::orders::tell_beside;
use super::rivals::contend;
use super::threads::{numbers_in_order, polls_beside_a_put, puts_beside_a_round, rides};
use super::workers::count_events;
use cs_disk::PageDisk;
use cs_node::the_core::{Core, Event, Reply};
use cs_node::*;
use std::alloc::Global;
use std::marker::Brand;
use std::process::Abort;
use std::sync::Wait;
use std::thread::Threads;

/// What is done.
#[derive(Clone, Copy)]
pub enum Task {
    /// One hand does these acts.
    Plays(&'static [Act]),
    /// The same with a gate that lets through so many turns and counts events: the acts up to the first look, how many
    /// events were counted by then, the acts after it, and how many turns are left and how many events were counted in
    /// the end.
    Counts(u64, &'static [Act], u64, &'static [Act], u64, u64),
    /// Two hands do these acts beside one another.
    Beside(&'static [Act], &'static [Act]),
    TellsAll,
    Asks,
    PollsBesideAPut,
    PutsBesideARound,
    Rides,
    Numbers,
    Rivals,
    Orders,
    // these two have the node
    GoesOn,
    Rests,
}

/// What hands give back: their purses, and a number, which is how many tickets they kept, where nothing else is
/// counted.
#[derive(Drop)]
pub struct Gave<K: Naming> {
    pub purses: Vec<Purse<K>>,
    pub number: u64,
}

/// How many commands a node that was closed accepted, and how many of them are acknowledged, its history, and the
/// number that was given back.
#[derive(Drop)]
pub struct Ended {
    pub accepted: u64,
    pub acknowledged: u64,
    pub history: Vec<(Event, Reply)>,
    pub number: u64,
}

/// What is left of a node that was closed, or why it wasn't.
pub type End = Result<Ended, Unclosed>;

/// Does this on a node of the core, which did nothing yet, and closes the node.
pub fn run<D: PageDisk + Send + Drop, R: Threads + Wait + Abort + Sync>(
    rt: &R,
    alloc: Global,
    core: Core<D>,
    task: Task,
) -> End
    requires new { (core.history ≡ []) × (core.store.accepted ≡ 0) }
{
    let Ok(board) = Board::new(alloc) else {
        panic!(rt; "a board")
    };
    run_named::<D, Brand, _>(rt, alloc, board, core, task)
}

fn run_named<D: PageDisk + Send + Drop, K: Naming + Send + Sync, R: Threads + Wait + Abort + Sync>(
    rt: &R,
    alloc: Global,
    board: Board<D>,
    core: Core<D>,
    task: Task,
) -> End
    requires named { (board ≡ K.table) × (start_of core ≡ K.start) }
    requires new { (core.history ≡ []) × (core.store.accepted ≡ 0) }
{
    let node = Node::<D, K>::new(alloc, board, core);
    match task {
        Task::GoesOn => goes_on(rt, alloc, node),
        Task::Rests => rests(rt, alloc, node),
        _ => lends(rt, alloc, node, task),
    }
}

/// Lends the node, and closes it over what is given back.
fn lends<D: PageDisk + Send + Drop, K: Naming + Send + Sync, R: Threads + Wait + Abort + Sync>(
    rt: &R,
    alloc: Global,
    node: Node<D, K>,
    task: Task,
) -> End {
    let gave = given_by(rt, alloc, &node, task);
    end_of(alloc, node.rest(), gave)
}

/// Closes a node over what was given back.
fn end_of<D: PageDisk + Drop, K: Naming>(alloc: Global, rest: Rest<D, K>, gave: Gave<K>) -> End {
    let Gave { purses, number } = gave;
    match rest.close(alloc, purses) {
        Ok(closed) => Ok(left_of(closed, number)),
        Err(not) => Err(why_of(not)),
    }
}

/// What is left of a node that was closed.
fn left_of<D: Drop>(closed: Closed<D>, number: u64) -> Ended {
    Ended {
        accepted: closed.accepted,
        acknowledged: closed.acknowledged,
        history: closed.history,
        number,
    }
}

/// Why a node wasn't closed.
fn why_of<D: PageDisk + Drop, K: Naming>(not: NotClosed<D, K>) -> Unclosed {
    let why = not.why;
    let_go(not);
    why
}

/// Lets a value go, where that is proved once for all types.
fn let_go<T: Drop>(_value: T) {}

/// What is handed back where a node isn't closed since so many numbers are missing.
fn miss<D: PageDisk + Drop, K: Naming, R: Abort>(
    rt: &R,
    alloc: Global,
    rest: Rest<D, K>,
    gave: Gave<K>,
    missing: u64,
) -> NotClosed<D, K> {
    let Gave { purses, number: _ } = gave;
    let Err(not) = rest.close(alloc, purses) else {
        panic!(rt; "a close")
    };
    assert!(rt; matches!(not.why, Unclosed::Missing(number) if number == missing));
    not
}

/// Loses a ticket, is not closed, and puts once more by the same purse.
fn goes_on<D: PageDisk + Drop, K: Naming, R: Wait + Abort>(
    rt: &R,
    alloc: Global,
    node: Node<D, K>,
) -> End {
    let gave = lent(rt, alloc, &node, &[Act::Put(10, Ok(1))]);
    let NotClosed {
        why: _,
        rest,
        purses,
    } = miss(rt, alloc, node.rest(), gave, 1);
    let node = rest.resume();
    let gave = put_next(rt, alloc, &node, purses);
    end_of(alloc, node.rest(), gave)
}

/// Puts a second shard by the one purse of a list.
fn put_next<D: PageDisk, K: Naming, R: Wait + Abort>(
    rt: &R,
    alloc: Global,
    node: &Node<D, K>,
    mut purses: Vec<Purse<K>>,
) -> Gave<K> {
    let mut hand = hand_of(alloc, purses.pop().expect(rt, "the purse"));
    plays(rt, node, &mut hand, &Open, &[Act::Put(11, Ok(2))]);
    given(rt, alloc, hand)
}

/// Rests between two purses, is not closed over the second, and is over both.
fn rests<D: PageDisk + Drop, K: Naming, R: Wait + Abort>(
    rt: &R,
    alloc: Global,
    node: Node<D, K>,
) -> End {
    let mut gave = lent(rt, alloc, &node, &[Act::Hire(true)]);
    let node = has_given(rt, node.rest(), 1).resume();
    let second = lent(rt, alloc, &node, &[Act::Hire(false)]);
    let NotClosed {
        why: _,
        rest,
        purses,
    } = miss(rt, alloc, node.rest(), second, 0);
    gather(rt, alloc, &mut gave, purses);
    end_of(alloc, has_given(rt, rest, 2), gave)
}

/// The same node, which gave so many purses.
fn has_given<D: PageDisk, K: Naming, R: Abort>(rt: &R, rest: Rest<D, K>, given: u64) -> Rest<D, K> {
    assert!(rt; rest.given() == given);
    rest
}

/// Adds purses to what is given back.
fn gather<K: Naming, R: Abort>(rt: &R, alloc: Global, gave: &mut Gave<K>, purses: Vec<Purse<K>>) {
    for purse in purses {
        give(rt, gave, hand_of(alloc, purse));
    }
}

/// What hands give back on a node that is lent.
fn given_by<D: PageDisk + Send, K: Naming + Send + Sync, R: Threads + Wait + Abort + Sync>(
    rt: &R,
    alloc: Global,
    node: &Node<D, K>,
    task: Task,
) -> Gave<K> {
    match task {
        Task::Plays(acts) => lent(rt, alloc, node, acts),
        Task::Counts(turns, first, counted, then, left, events) => {
            count_events(
                rt,
                alloc,
                node,
                turns,
                (first, counted),
                (then, left, events),
            )
        }
        Task::Beside(first, second) => two(rt, alloc, node, first, second),
        Task::TellsAll => tells_all(rt, alloc, node),
        Task::Asks => asks(rt, alloc, node),
        Task::PollsBesideAPut => polls_beside_a_put(rt, alloc, node),
        Task::PutsBesideARound => puts_beside_a_round(rt, alloc, node),
        Task::Rides => rides(rt, alloc, node),
        Task::Numbers => numbers_in_order(rt, alloc, node),
        Task::Rivals => contend(rt, alloc, node),
        Task::Orders => tell_beside(rt, alloc, node),
        Task::GoesOn | Task::Rests => nothing(alloc),
    }
}

/// What one hand gives back that did these acts.
fn lent<D: PageDisk, K: Naming, R: Wait + Abort>(
    rt: &R,
    alloc: Global,
    node: &Node<D, K>,
    acts: &[Act],
) -> Gave<K> {
    let mut hand = new_hand(rt, alloc, node);
    plays(rt, node, &mut hand, &Open, acts);
    given(rt, alloc, hand)
}

/// Nothing is given back yet.
pub fn nothing<K: Naming>(alloc: Global) -> Gave<K> {
    Gave {
        purses: Vec::new(alloc),
        number: 0,
    }
}

/// Gives a hand's purse back, whose acts were all answered as they had to be.
pub fn give<K: Naming, R: Abort>(rt: &R, gave: &mut Gave<K>, hand: Hand<K>) {
    is_right(rt, &hand);
    gave.number = gave.number.saturating_add(hand.kept);
    assert!(rt; gave.purses.push(hand.into_purse()).is_ok());
}

/// What one hand gives back.
pub fn given<K: Naming, R: Abort>(rt: &R, alloc: Global, hand: Hand<K>) -> Gave<K> {
    let mut gave = nothing(alloc);
    give(rt, &mut gave, hand);
    gave
}

/// Two hands that do these acts beside one another.
fn two<D: PageDisk + Send, K: Naming + Send + Sync, R: Threads + Wait + Abort + Sync>(
    rt: &R,
    alloc: Global,
    node: &Node<D, K>,
    first: &'static [Act],
    second: &'static [Act],
) -> Gave<K> {
    let first = Player {
        hand: new_hand(rt, alloc, node),
        gate: Open,
        acts: first,
    };
    let second = Player {
        hand: new_hand(rt, alloc, node),
        gate: Open,
        acts: second,
    };
    beside(rt, alloc, node, first, second)
}

/// What two hands give back that do their acts beside one another.
pub fn beside<
    D: PageDisk + Send,
    K: Naming + Send + Sync,
    R: Threads + Wait + Abort + Sync,
    G: Gate + Send + Drop,
    H: Gate + Send + Drop,
>(rt: &R, alloc: Global, node: &Node<D, K>, first: Player<K, G>, second: Player<K, H>) -> Gave<K> {
    let (first, second) = node.beside(rt, first, second);
    let mut gave = given(rt, alloc, first);
    give(rt, &mut gave, second);
    gave
}

/// What hands give back that do their acts beside one another.
pub fn abreast<D: PageDisk + Send, K: Naming + Send + Sync, R: Threads + Wait + Abort + Sync>(
    rt: &R,
    alloc: Global,
    node: &Node<D, K>,
    plays: Vec<Player<K, Open>>,
) -> Gave<K> {
    let mut gave = nothing(alloc);
    let Ok(hands) = node.abreast(rt, plays) else {
        panic!(rt; "hands")
    };
    for hand in hands {
        give(rt, &mut gave, hand);
    }
    gave
}

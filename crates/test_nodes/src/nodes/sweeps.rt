//! Sweeps by one reclaimer, turn by turn and to their end.
use super::acts::Act;
use super::tasks::Task;
use super::{Store, Wanted, tries};
use cs_node::Step;
use cs_node::the_core::{Event, Reply};
use cs_refusal::Refusal;
use std::alloc::Global;
use std::process::Abort;

/// A sweep of an extent with two shards, and the two first turns of the pilot.
const TAKES_TURNS: &[Act] = &[
    Act::Put(10, Ok(1)),
    Act::KeepTicket,
    Act::Put(11, Ok(2)),
    Act::KeepTicket,
    Act::Reclaim(1),
    Act::Sweep(Ok(Step::BeginSweep)),
    Act::Sweep(Ok(Step::MoveOne)),
    Act::Sweep(Ok(Step::MoveOne)),
    Act::Sweep(Ok(Step::MoveOne)),
    Act::Sweep(Ok(Step::Retire)),
    Act::Sweep(Ok(Step::Idle)),
    Act::Hire(true),
    Act::Fly(Step::Begin),
    Act::Fly(Step::Issue),
];

#[test]
fn workers_take_turns(rt: HostRuntime) {
    tries(
        &rt,
        rt.alloc(),
        Store::Small(64),
        Task::Plays(TAKES_TURNS),
        Wanted::Counts(2, 0),
    );
}

/// Two sweeps, the second of the extent to which the first moved the two shards.
const SWEEPS_TWICE: &[Act] = &[
    Act::Put(10, Ok(1)),
    Act::KeepTicket,
    Act::Put(11, Ok(2)),
    Act::KeepTicket,
    Act::Reclaim(2),
    Act::Sweep(Ok(Step::BeginSweep)),
    Act::Sweep(Ok(Step::MoveOne)),
    Act::Sweep(Ok(Step::MoveOne)),
    Act::Sweep(Ok(Step::MoveOne)),
    Act::Sweep(Ok(Step::Retire)),
    Act::Sweep(Ok(Step::BeginSweep)),
    Act::Sweep(Ok(Step::MoveOne)),
    Act::Sweep(Ok(Step::MoveOne)),
    Act::Sweep(Ok(Step::MoveOne)),
    Act::Sweep(Ok(Step::Retire)),
    Act::Sweep(Ok(Step::Idle)),
];

/// Whether the event at this place begins a sweep of this extent.
fn began(history: &[(Event, Reply)], place: usize, extent: usize) -> bool {
    match history.get(place) {
        Some(entry) => matches!(&entry.0, Event::BeginSweep(swept) if *swept == extent),
        None => false,
    }
}

/// Asserts what was swept by two sweeps.
pub fn are_both_swept<R: Abort>(rt: &R, history: &[(Event, Reply)]) {
    assert!(rt; began(history, 2, 0));
    assert!(rt; began(history, 7, 1));
}

/// Asserts of which extents sweeps began.
pub fn are_begun<R: Abort>(rt: &R, alloc: Global, history: &[(Event, Reply)], extents: &[usize]) {
    let mut begun = Vec::new(alloc);
    for entry in history {
        if let Event::BeginSweep(extent) = &entry.0 {
            assert!(rt; begun.push(*extent).is_ok());
        }
    }
    assert!(rt; begun.as_slice() == extents);
}

#[test]
fn a_second_sweep_is_of_the_next_extent(rt: HostRuntime) {
    tries(
        &rt,
        rt.alloc(),
        Store::Small(64),
        Task::Plays(SWEEPS_TWICE),
        Wanted::BothExtents,
    );
}

/// Puts two shards, for two sweeps.
const PUTS_TWO: &[Act] = &[
    Act::Put(10, Ok(1)),
    Act::KeepTicket,
    Act::Put(11, Ok(2)),
    Act::KeepTicket,
    Act::Reclaim(2),
];

/// Runs until two sweeps are done.
const RUNS: &[Act] = &[Act::RunReclaimer(None)];

#[test]
fn a_reclaimer_runs_until_its_sweeps_are_done(rt: HostRuntime) {
    let task = Task::Counts(64, PUTS_TWO, 0, RUNS, 54, 10);
    tries(
        &rt,
        rt.alloc(),
        Store::Small(64),
        task,
        Wanted::Counts(2, 0),
    );
}

/// A sweep whose second move fails is abandoned, once all commands are persistent. No other begins while its copy is
/// noted. The pilot writes the copy, and then stages a root alone. After that the next sweep goes to its end.
const GIVES_UP_APART: &[Act] = &[
    Act::Put(10, Ok(1)),
    Act::KeepTicket,
    Act::Put(11, Ok(2)),
    Act::KeepTicket,
    Act::Hire(true),
    Act::Sync(Ok(2)),
    Act::Fly(Step::Idle),
    Act::ReclaimOf(0),
    Act::Sweep(Ok(Step::BeginSweep)),
    Act::Sweep(Ok(Step::MoveOne)),
    Act::Sweep(Err(Refusal::DeviceFault)),
    Act::Sweep(Ok(Step::Abandon)),
    Act::Reclaim(2),
    Act::Fly(Step::Begin),
    Act::Fly(Step::Issue),
    Act::Fly(Step::Issue),
    Act::Fly(Step::End),
    Act::Sweep(Ok(Step::Idle)),
    Act::Fly(Step::Stage),
    Act::Fly(Step::Begin),
    Act::Fly(Step::Issue),
    Act::Fly(Step::End),
    Act::Fly(Step::Idle),
    Act::ReclaimOf(0),
    Act::Sweep(Ok(Step::BeginSweep)),
    Act::Sweep(Ok(Step::MoveOne)),
    Act::Sweep(Ok(Step::MoveOne)),
    Act::Sweep(Ok(Step::MoveOne)),
    Act::Sweep(Ok(Step::Retire)),
    Act::Sweep(Ok(Step::Idle)),
];

/// Three calls format the store, five are the writes of the two shards, the run and the superblock, and their flush,
/// and two the write of the root and its flush. The eleventh call reads the first shard, the twelfth the second one.
#[test]
fn a_pilot_stages_a_root_for_copies_that_are_left(rt: HostRuntime) {
    tries(
        &rt,
        rt.alloc(),
        Store::Apart(12),
        Task::Plays(GIVES_UP_APART),
        Wanted::Counts(2, 2),
    );
}

/// The same, where the sweep is given up through the node, and a stream writes back: it stages before it begins.
const GIVES_UP_TO_A_STREAM: &[Act] = &[
    Act::Put(10, Ok(1)),
    Act::KeepTicket,
    Act::Hire(true),
    Act::Sync(Ok(1)),
    Act::Stream(Step::Idle),
    Act::ReclaimOf(0),
    Act::Sweep(Ok(Step::BeginSweep)),
    Act::Sweep(Ok(Step::MoveOne)),
    Act::Stream(Step::Begin),
    Act::Stream(Step::Issue),
    Act::Abandon(0, Ok(())),
    Act::Reclaim(1),
    Act::Sweep(Ok(Step::Idle)),
    Act::Stream(Step::Issue),
    Act::Stream(Step::End),
    Act::Stream(Step::Stage),
    Act::ReclaimOf(0),
    Act::Sweep(Ok(Step::BeginSweep)),
    Act::Stream(Step::Begin),
    Act::Stream(Step::Issue),
    Act::Stream(Step::End),
    Act::Stream(Step::Idle),
];

#[test]
fn a_stream_stages_a_root_for_copies_that_are_left(rt: HostRuntime) {
    tries(
        &rt,
        rt.alloc(),
        Store::Apart(0),
        Task::Plays(GIVES_UP_TO_A_STREAM),
        Wanted::Counts(1, 1),
    );
}

/// Two shards fill one extent and two another one, of which one is deleted. So least lives on the second extent.
const SWEEPS_WHERE_LEAST_LIVES: &[Act] = &[
    Act::Put(10, Ok(1)),
    Act::KeepTicket,
    Act::Put(11, Ok(2)),
    Act::KeepTicket,
    Act::Put(12, Ok(3)),
    Act::KeepTicket,
    Act::Put(13, Ok(4)),
    Act::KeepTicket,
    Act::Delete(12, Some(5)),
    Act::KeepTicket,
    Act::Reclaim(2),
    Act::Sweep(Ok(Step::BeginSweep)),
    Act::Sweep(Ok(Step::MoveOne)),
    Act::Sweep(Ok(Step::MoveOne)),
    Act::Sweep(Ok(Step::Retire)),
    Act::Sweep(Ok(Step::Idle)),
];

#[test]
fn the_extent_on_which_least_lives_is_swept_first(rt: HostRuntime) {
    tries(
        &rt,
        rt.alloc(),
        Store::Apart(0),
        Task::Plays(SWEEPS_WHERE_LEAST_LIVES),
        Wanted::Begun(&[1]),
    );
}

/// While all pages live there is nothing to sweep. A deletion makes a page dead, and its extent is swept.
const STAYS_IDLE: &[Act] = &[
    Act::Put(10, Ok(1)),
    Act::KeepTicket,
    Act::Put(11, Ok(2)),
    Act::KeepTicket,
    Act::Reclaim(1),
    Act::Sweep(Ok(Step::Idle)),
    Act::Sweep(Ok(Step::Idle)),
    Act::Delete(10, Some(3)),
    Act::KeepTicket,
    Act::Sweep(Ok(Step::BeginSweep)),
    Act::Sweep(Ok(Step::MoveOne)),
    Act::Sweep(Ok(Step::MoveOne)),
    Act::Sweep(Ok(Step::Retire)),
    Act::Sweep(Ok(Step::Idle)),
];

#[test]
fn a_reclaimer_stays_idle_while_nothing_is_gained(rt: HostRuntime) {
    tries(
        &rt,
        rt.alloc(),
        Store::Apart(0),
        Task::Plays(STAYS_IDLE),
        Wanted::Begun(&[0]),
    );
}

/// On each of two extents one shard lives, and a page is dead. The first one's move fails, and the second one is swept
/// next.
const PASSES_OVER: &[Act] = &[
    Act::Put(10, Ok(1)),
    Act::KeepTicket,
    Act::Put(11, Ok(2)),
    Act::KeepTicket,
    Act::Put(12, Ok(3)),
    Act::KeepTicket,
    Act::Put(13, Ok(4)),
    Act::KeepTicket,
    Act::Hire(true),
    Act::Sync(Ok(4)),
    Act::Delete(10, Some(5)),
    Act::KeepTicket,
    Act::Delete(12, Some(6)),
    Act::KeepTicket,
    Act::Reclaim(2),
    Act::Sweep(Ok(Step::BeginSweep)),
    Act::Sweep(Err(Refusal::DeviceFault)),
    Act::Sweep(Ok(Step::Abandon)),
    Act::Sweep(Ok(Step::BeginSweep)),
    Act::Sweep(Ok(Step::MoveOne)),
    Act::Sweep(Ok(Step::MoveOne)),
    Act::Sweep(Ok(Step::Retire)),
    Act::Sweep(Ok(Step::Idle)),
];

/// Three calls format the store, seven are the writes of the four shards, the run and the superblock, and their flush,
/// and two the write of the root and its flush. The core knows how long the chunks are that were put, so no header is
/// read to choose. The thirteenth call reads the first chunk that is to be moved.
#[test]
fn an_extent_whose_move_fails_is_passed_over(rt: HostRuntime) {
    tries(
        &rt,
        rt.alloc(),
        Store::Apart(13),
        Task::Plays(PASSES_OVER),
        Wanted::Begun(&[0, 1]),
    );
}

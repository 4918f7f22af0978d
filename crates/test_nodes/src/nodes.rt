//! What no contract says: that calls succeed with ample memory, and what they answer then. What a test does on a node
//! is a script, which `acts` does; `tasks` makes the node and closes it.
ghost use Rattle.std.specs.Prelude.{◌≡◌, []};

mod acts;
mod asks;
mod calls;
mod checkpoints;
mod failures;
mod gates;
mod histories;
mod losses;
mod orders;
mod rivals;
mod sweeps;
mod syncs;
mod tasks;
mod threads;
mod workers;

use self::acts::Act;
use self::failures::opened_again;
use self::histories::prints;
use self::orders::are_told_in_order;
use self::rivals::is_agreed;
use self::sweeps::{are_begun, are_both_swept};
use self::tasks::{End, Ended, Task, run};
use cs_disk::{FailAt, MemoryDisk};
use cs_frame::{Format, FormatNumber, Geometry, StoreId};
use cs_node::the_core::{Core, Limits};
use cs_node::{Step, Unclosed};
use cs_refusal::Refusal;
use std::alloc::Global;
use std::process::Abort;
use std::sync::Wait;
use std::thread::Threads;

/// A core that did nothing yet, over a new store of this format of so many extents, each of so many pages. Its history
/// may have so many events. Of the calls of its disk the one with this number fails, counted from the first one that
/// formats the store; with 0 none does.
fn formatted(
    rt: &impl Abort,
    alloc: Global,
    lies: (FormatNumber, u64, u64),
    history: usize,
    at: u64,
) -> Core<FailAt<MemoryDisk>>
    ensures { (result.history ≡ []) × (result.store.accepted ≡ 0) }
{
    let geometry = match lies.0 {
        FormatNumber::Two => Geometry::of_format(Format::two(), lies.1, lies.2, None),
        FormatNumber::Four => Geometry::for_file(StoreId([0; 16]), lies.1, lies.2, None),
    };
    let geometry = geometry.expect(rt, "a geometry");
    let disk = MemoryDisk::new(alloc, geometry.device_pages()).expect(rt, "a disk");
    match Core::format(alloc, FailAt::new(disk, at), geometry, Limits { history }) {
        Ok(core) => core,
        Err(_) => panic!(rt; "no core"),
    }
}

/// What a test begins on.
#[derive(Clone, Copy)]
enum Store {
    /// A new store of six extents of two pages, whose history may have so many events.
    Small(usize),
    /// The same with room for all events, of whose disk the call with this number fails.
    Failing(u64),
    /// The same of format 4, in which chunks and runs lie apart.
    Apart(u64),
    /// The same, opened again once it was formatted.
    Again(u64),
    /// A new store of 64 extents of four pages.
    Wide,
    /// The same, whose history may have 64 events.
    WideButShort,
}

/// A core that did nothing yet, over this store.
fn core_of(rt: &impl Abort, alloc: Global, store: Store) -> Core<FailAt<MemoryDisk>>
    ensures { (result.history ≡ []) × (result.store.accepted ≡ 0) }
{
    match store {
        Store::Small(history) => formatted(rt, alloc, (FormatNumber::Two, 6, 2), history, 0),
        Store::Failing(at) => formatted(rt, alloc, (FormatNumber::Two, 6, 2), 64, at),
        Store::Apart(at) => formatted(rt, alloc, (FormatNumber::Four, 6, 2), 64, at),
        Store::Again(at) => opened_again(
            rt,
            alloc,
            formatted(rt, alloc, (FormatNumber::Two, 6, 2), 64, at),
        ),
        Store::Wide => formatted(rt, alloc, (FormatNumber::Two, 64, 4), 2000, 0),
        Store::WideButShort => formatted(rt, alloc, (FormatNumber::Two, 64, 4), 64, 0),
    }
}

/// What is asserted of a node once its test was done.
#[derive(Clone, Copy)]
enum Wanted {
    /// It is closed: how many commands were accepted, and how many are acknowledged.
    Counts(u64, u64),
    /// It is closed: so many commands were accepted and are acknowledged, and no event is kept.
    Emptied(u64),
    /// It is closed, and so the steps of its history print.
    Prints(&'static str),
    /// It is closed after two sweeps, the second of the next extent.
    BothExtents,
    /// It is closed, and its sweeps began with these extents, one after another.
    Begun(&'static [usize]),
    /// It is closed, and three threads agree on what it did.
    Agreed,
    /// It is closed, and what a gate was told is its history.
    InOrder,
    /// So many numbers are missing.
    Missing(u64),
    /// It isn't closed.
    Unclosed,
}

/// Does this on a node of a core over the store, and asserts what is wanted then. Tests call nothing else, since each
/// type that a test names is proved for it.
fn tries<R: Threads + Wait + Abort + Sync>(
    rt: &R,
    alloc: Global,
    store: Store,
    task: Task,
    wanted: Wanted,
) {
    let core = core_of(rt, alloc, store);
    is_as_wanted(rt, alloc, &run(rt, alloc, core, task), wanted);
}

/// Asserts what is wanted of a node once its test was done.
fn is_as_wanted<R: Abort>(rt: &R, alloc: Global, end: &End, wanted: Wanted) {
    match end {
        Ok(ended) => is_closed(rt, alloc, ended, wanted),
        Err(why) => is_unclosed(rt, *why, wanted),
    }
}

/// Asserts what is wanted of a node that was closed.
fn is_closed<R: Abort>(rt: &R, alloc: Global, ended: &Ended, wanted: Wanted) {
    match wanted {
        Wanted::Counts(accepted, acknowledged) => {
            are_counted(rt, ended, accepted, acknowledged);
        }
        Wanted::Emptied(number) => {
            are_counted(rt, ended, number, number);
            assert!(rt; ended.history.is_empty());
        }
        Wanted::Prints(text) => prints(rt, alloc, ended.history.as_slice(), text),
        Wanted::BothExtents => are_both_swept(rt, ended.history.as_slice()),
        Wanted::Begun(extents) => are_begun(rt, alloc, ended.history.as_slice(), extents),
        Wanted::Agreed => is_agreed(rt, ended),
        Wanted::InOrder => are_told_in_order(rt, alloc, ended),
        Wanted::Missing(_) | Wanted::Unclosed => panic!(rt; "a node that is closed"),
    }
}

/// Asserts what is wanted of a node that wasn't closed.
fn is_unclosed<R: Abort>(rt: &R, why: Unclosed, wanted: Wanted) {
    match (why, wanted) {
        (Unclosed::Missing(number), Wanted::Missing(missing)) => assert!(rt; number == missing),
        (_, Wanted::Unclosed) => {}
        _ => panic!(rt; "a node that isn't closed"),
    }
}

/// Asserts how many commands were accepted, and how many are acknowledged.
fn are_counted<R: Abort>(rt: &R, ended: &Ended, accepted: u64, acknowledged: u64) {
    assert!(rt; ended.accepted == accepted);
    assert!(rt; ended.acknowledged == acknowledged);
}

/// Settles before a sync and after.
const SETTLES: &[Act] = &[
    Act::Put(10, Ok(1)),
    Act::Poll(Some(0)),
    Act::Settle(Ok(Some(0))),
    Act::Hire(true),
    Act::Hire(false),
    Act::Sync(Ok(1)),
    Act::Settle(Ok(None)),
    Act::Places(&[0, 1, 13]),
    Act::KeepAck(1),
];

#[test]
fn a_put_is_settled_and_polled(rt: HostRuntime) {
    tries(
        &rt,
        rt.alloc(),
        Store::Small(64),
        Task::Plays(SETTLES),
        Wanted::Counts(1, 1),
    );
}

/// Polls before a sync and after.
const POLLS: &[Act] = &[
    Act::Put(10, Ok(1)),
    Act::Poll(Some(0)),
    Act::Hire(true),
    Act::Hire(false),
    Act::Sync(Ok(1)),
    Act::Poll(None),
    Act::Places(&[0]),
    Act::KeepAck(1),
];

#[test]
fn a_poll_before_and_after_a_sync(rt: HostRuntime) {
    tries(
        &rt,
        rt.alloc(),
        Store::Small(64),
        Task::Plays(POLLS),
        Wanted::Counts(1, 1),
    );
}

#[test]
fn a_lost_ticket_is_missing(rt: HostRuntime) {
    tries(
        &rt,
        rt.alloc(),
        Store::Small(64),
        Task::GoesOn,
        Wanted::Missing(2),
    );
}

/// Fills a history of two events.
const FILLS_TWO: &[Act] = &[
    Act::Put(10, Ok(1)),
    Act::Settle(Ok(Some(0))),
    Act::Settle(Err(Refusal::HistoryFull)),
];

#[test]
fn a_full_history_answers_nothing(rt: HostRuntime) {
    tries(
        &rt,
        rt.alloc(),
        Store::Small(2),
        Task::Plays(FILLS_TWO),
        Wanted::Missing(1),
    );
}

/// A history of two events is filled and written back, and goes on after a checkpoint.
const GOES_ON_AT_THE_LIMIT: &[Act] = &[
    Act::Hire(true),
    Act::Put(10, Ok(1)),
    Act::Get(10, Some(10)),
    Act::Offer(11, Err(Refusal::HistoryFull)),
    Act::Settle(Err(Refusal::HistoryFull)),
    Act::Checkpoint(Err(Refusal::Unsettled)),
    Act::Sync(Ok(1)),
    Act::Look(1, 1, 13, 0),
    Act::Checkpoint(Ok(13)),
    Act::Look(1, 1, 0, 13),
    Act::Settle(Ok(None)),
    Act::KeepAck(1),
    Act::Forget,
    Act::Places(&[13]),
    Act::Offer(11, Ok(2)),
    Act::KeepTicket,
    Act::Places(&[13, 14]),
];

#[test]
fn a_node_goes_on_at_the_limit(rt: HostRuntime) {
    tries(
        &rt,
        rt.alloc(),
        Store::Small(2),
        Task::Plays(GOES_ON_AT_THE_LIMIT),
        Wanted::Counts(2, 1),
    );
}

#[test]
fn a_hundred_puts_past_a_history_of_64_events(rt: HostRuntime) {
    tries(
        &rt,
        rt.alloc(),
        Store::WideButShort,
        Task::Plays(&[Act::Hire(true), Act::Hundred]),
        Wanted::Emptied(100),
    );
}

/// A sweep that is left marked keeps a checkpoint waiting until it is given up.
const LEFT_MARKED: &[Act] = &[
    Act::Hire(true),
    Act::Put(10, Ok(1)),
    Act::KeepTicket,
    Act::Put(11, Ok(2)),
    Act::KeepTicket,
    Act::ReclaimOf(0),
    Act::Sweep(Ok(Step::BeginSweep)),
    Act::ReclaimOf(0),
    Act::Sync(Ok(2)),
    Act::Checkpoint(Err(Refusal::Unsettled)),
    Act::Abandon(0, Ok(())),
    Act::Abandon(0, Err(Refusal::NotSweepable)),
    Act::Sweep(Ok(Step::BeginSweep)),
    Act::Sweep(Ok(Step::MoveOne)),
    Act::Abandon(0, Ok(())),
    Act::Sweep(Err(Refusal::NotSweepable)),
    Act::Sweep(Err(Refusal::NotSweepable)),
    Act::Sweep(Ok(Step::Idle)),
];

#[test]
fn an_extent_that_is_left_marked_is_given_up(rt: HostRuntime) {
    tries(
        &rt,
        rt.alloc(),
        Store::Small(64),
        Task::Plays(LEFT_MARKED),
        Wanted::Counts(2, 2),
    );
}

/// Gets and deletes, before a put and after.
const GETS_AND_DELETES: &[Act] = &[
    Act::Delete(10, None),
    Act::Get(10, None),
    Act::Put(10, Ok(1)),
    Act::KeepTicket,
    Act::Get(10, Some(10)),
    Act::Delete(10, Some(2)),
    Act::KeepTicket,
];

#[test]
fn gets_and_deletes_answer(rt: HostRuntime) {
    tries(
        &rt,
        rt.alloc(),
        Store::Small(64),
        Task::Plays(GETS_AND_DELETES),
        Wanted::Counts(2, 0),
    );
}

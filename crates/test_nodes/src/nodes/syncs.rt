//! What a sync does, event by event, where a round is out as it begins.
use super::acts::Act;
use super::tasks::Task;
use super::{Store, Wanted, tries};
use cs_node::Step;

/// Syncs while a round is out whose only member is written: that round ends, then come the chunk and the index's page
/// with the superblock of the chunk before, then the next superblock, then the root.
const BEFORE_AN_END: &[Act] = &[
    Act::Hire(true),
    Act::Put(10, Ok(1)),
    Act::KeepTicket,
    Act::Fly(Step::Begin),
    Act::Fly(Step::Issue),
    Act::Put(12, Ok(2)),
    Act::KeepTicket,
    Act::Sync(Ok(2)),
    Act::Fly(Step::Idle),
];

#[test]
fn a_sync_ends_the_round_that_is_out(rt: HostRuntime) {
    tries(
        &rt,
        rt.alloc(),
        Store::Small(64),
        Task::Plays(BEFORE_AN_END),
        Wanted::Prints(
            "[Put, Begin, Issue, Put, Stage, End, Begin, Issue, Issue, Issue, End, Begin, Issue, End, Begin, Issue, End]",
        ),
    );
}

/// Syncs while a round is out of which one of two chunks is written: the other is, and the round ends. Then it is as
/// above.
const BETWEEN_ISSUES: &[Act] = &[
    Act::Hire(true),
    Act::Put(10, Ok(1)),
    Act::KeepTicket,
    Act::Put(11, Ok(2)),
    Act::KeepTicket,
    Act::Fly(Step::Begin),
    Act::Fly(Step::Issue),
    Act::Put(12, Ok(3)),
    Act::KeepTicket,
    Act::Sync(Ok(3)),
    Act::Fly(Step::Idle),
];

#[test]
fn a_sync_goes_on_with_a_round_that_is_half_written(rt: HostRuntime) {
    tries(
        &rt,
        rt.alloc(),
        Store::Small(64),
        Task::Plays(BETWEEN_ISSUES),
        Wanted::Prints(
            "[Put, Put, Begin, Issue, Put, Stage, Issue, End, Begin, Issue, Issue, Issue, End, Begin, Issue, End, Begin, Issue, End]",
        ),
    );
}

/// Syncs while a round of a stream is out, behind which a root waits that doesn't have the last put: the other member
/// is written, and the round ends. Then come the next chunk and the index's next page with the superblock, then the
/// first root with the next superblock, then the second root.
const BEHIND_A_ROOT: &[Act] = &[
    Act::Hire(true),
    Act::Put(10, Ok(1)),
    Act::KeepTicket,
    Act::Stream(Step::Stage),
    Act::Stream(Step::Begin),
    Act::Stream(Step::Issue),
    Act::Put(12, Ok(2)),
    Act::KeepTicket,
    Act::Sync(Ok(2)),
    Act::Fly(Step::Idle),
];

#[test]
fn a_sync_outlasts_a_root_without_the_last_put(rt: HostRuntime) {
    tries(
        &rt,
        rt.alloc(),
        Store::Small(64),
        Task::Plays(BEHIND_A_ROOT),
        Wanted::Prints(
            "[Put, Stage, Begin, Issue, Put, Stage, Issue, End, Begin, Issue, Issue, Issue, End, Begin, Issue, Issue, End, Begin, Issue, End]",
        ),
    );
}

//! Worked rows of the event machine, event by event.
use crate::machines::{plays, plays_failing};

/// Each event of a put that becomes persistent.
#[test]
fn three_rounds(rt: HostRuntime) {
    plays(&rt, 1000, &[THREE_ROUNDS]);
}

const THREE_ROUNDS: &str = "begin > Nothing
stage > Unchanged
issue > Refused(NoRound)
end > Refused(NoRound)
put 10 97 > Accepted(1)
stage > Staged(2)
begin > Begun(Elements { elements: [Plain(1), Plain(2)] })
begin > Refused(InFlight)
issue > Issued(Plain(1), 2)
end > Refused(NoRound)
issue > Issued(Plain(2), 3)
issue > Refused(NoRound)
end > Ended(0)
begin > Begun(Elements { elements: [Version(0, 3)] })
issue > Issued(Version(0, 3), 0)
end > Ended(0)
begin > Begun(Elements { elements: [Version(1, 2)] })
issue > Issued(Version(1, 2), 1)
settle 1 > NotYet(0)
end > Ended(1)
settle 0 > NotYet(1)
settle 1 > Persistent
settle 2 > NotYet(1)
plan > [] []";

/// The first shard is put into a new store, and the round of its page begins.
pub const BEGUN: &str = "put 10 97 > Accepted(1)
begin > Begun(Elements { elements: [Plain(1)] })";

/// What is put while a round is out waits for the next one.
#[test]
fn a_put_beside_a_round(rt: HostRuntime) {
    plays(&rt, 1000, &[BEGUN, BESIDE]);
}

const BESIDE: &str = "put 11 98 > Accepted(2)
plan > InFlight
issue > Issued(Plain(1), 2)
end > Ended(0)
stage > Staged(2)
plan > [[Plain(2), Plain(3), Version(0, 2)], [Version(0, 4)], [Version(1, 2)]] [Plain(2), Version(0, 4), Version(1, 2)]";

/// So does a root.
#[test]
fn a_root_beside_a_round(rt: HostRuntime) {
    plays(&rt, 1000, &[BEGUN, ROOT_BESIDE]);
}

const ROOT_BESIDE: &str = "stage > Staged(2)
issue > Issued(Plain(1), 2)
end > Ended(0)
plan > [[Plain(2), Version(0, 2)], [Version(0, 3)], [Version(1, 2)]] [Plain(2), Version(0, 3), Version(1, 2)]";

#[test]
fn a_history_at_its_limit(rt: HostRuntime) {
    plays(&rt, 2, &[AT_ITS_LIMIT]);
}

const AT_ITS_LIMIT: &str = "put 10 97 > Accepted(1)
get 10 > Found(Bytes { block: [97] })
get 10 > Refused(HistoryFull)
put 10 98 > Refused(HistoryFull)
events > 2
accepted > 1";

/// What writes back is never refused for a full history, and a checkpoint makes room.
#[test]
fn a_checkpoint_at_the_limit(rt: HostRuntime) {
    plays(&rt, 2, &[FULL_AND_WRITTEN_BACK]);
}

const FULL_AND_WRITTEN_BACK: &str = "checkpoint > Ok(0)
put 10 97 > Accepted(1)
get 10 > Found(Bytes { block: [97] })
get 10 > Refused(HistoryFull)
sweep 0 > Refused(HistoryFull)
move 0 > Refused(HistoryFull)
abandon 0 > Refused(NotSweepable)
checkpoint > Err(Unsettled)
stage > Staged(2)
begin > Begun(Elements { elements: [Plain(1), Plain(2)] })
issue > Issued(Plain(1), 2)
issue > Issued(Plain(2), 3)
end > Ended(0)
begin > Begun(Elements { elements: [Version(0, 3)] })
issue > Issued(Version(0, 3), 0)
end > Ended(0)
begin > Begun(Elements { elements: [Version(1, 2)] })
issue > Issued(Version(1, 2), 1)
checkpoint > Err(Unsettled)
end > Ended(1)
checkpoint > Ok(14)
events > 0
base > 14
accepted > 1
get 10 > Found(Bytes { block: [97] })
get 10 > Found(Bytes { block: [97] })
get 10 > Refused(HistoryFull)
settle 1 > Refused(HistoryFull)
replay 9 > []
base > 14";

/// A full history, as it was told.
#[test]
fn thirteen_events_are_replaced(rt: HostRuntime) {
    plays(&rt, 2, &[THIRTEEN]);
}

const THIRTEEN: &str = "put 10 97 > Accepted(1)
get 10 > Found(Bytes { block: [97] })
get 10 > Refused(HistoryFull)
checkpoint > Err(Unsettled)
stage > Staged(2)
begin > Begun(Elements { elements: [Plain(1), Plain(2)] })
issue > Issued(Plain(1), 2)
issue > Issued(Plain(2), 3)
end > Ended(0)
begin > Begun(Elements { elements: [Version(0, 3)] })
issue > Issued(Version(0, 3), 0)
end > Ended(0)
begin > Begun(Elements { elements: [Version(1, 2)] })
issue > Issued(Version(1, 2), 1)
end > Ended(1)
checkpoint > Ok(13)
get 10 > Found(Bytes { block: [97] })
get 10 > Found(Bytes { block: [97] })
get 10 > Refused(HistoryFull)
base > 13";

/// A checkpoint waits for the end of a sweep, and a swept extent can be given up at the limit.
#[test]
fn a_sweep_ahead_of_a_checkpoint(rt: HostRuntime) {
    plays(&rt, 10, &[SWEPT]);
}

const SWEPT: &str = "put 10 97 > Accepted(1)
put 11 98 > Accepted(2)
stage > Staged(2)
checkpoint > Err(Unsettled)
swept > None
sweep 0 > Sweeping
swept > Some(0)
checkpoint > Err(Unsettled)
abandon 0 > Abandoned
swept > None";

/// A store with one put, which isn't persistent, is halted.
const HALTED: &str = "halted > true
put 11 98 > Refused(Halted)
delete 10 > Refused(Halted)
stage > Refused(Halted)
begin > Refused(Halted)
issue > Refused(Halted)
end > Refused(Halted)
sweep 0 > Refused(Halted)
move 0 > Refused(Halted)
retire 0 > Refused(Halted)
abandon 0 > Refused(Halted)
get 10 > Found(Bytes { block: [97] })
get 11 > Absent
settle 1 > NotYet(0)";

/// Opening makes three calls, the flush and the reads of superblock and root, so the fourth is the write of Issue.
#[test]
fn a_write_that_fails(rt: HostRuntime) {
    let fails = "issue > Refused(DeviceFault)";
    plays_failing(&rt, 4, 1000, &[BEGUN, fails, HALTED]);
}

#[test]
fn a_flush_that_fails(rt: HostRuntime) {
    let issued = "issue > Issued(Plain(1), 2)";
    let fails = "end > Refused(DeviceFault)";
    plays_failing(&rt, 5, 1000, &[BEGUN, issued, fails, HALTED]);
}

/// A full history is told before a halt.
#[test]
fn a_halt_at_the_limit(rt: HostRuntime) {
    plays_failing(&rt, 4, 4, &[BEGUN, HALTED_AT_ITS_LIMIT]);
}

const HALTED_AT_ITS_LIMIT: &str = "issue > Refused(DeviceFault)
issue > Refused(Halted)
put 10 97 > Refused(HistoryFull)
get 10 > Refused(HistoryFull)
settle 1 > Refused(HistoryFull)
issue > Refused(Halted)
checkpoint > Err(Halted)
events > 5";

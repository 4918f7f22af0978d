//! What a core plans for a target, replays and keeps in memory, event by event.
use crate::cores::BEGUN;
use crate::machines::{PUT, STAGED, plays};

/// A superblock version that isn't the last one that waits.
#[test]
fn an_earlier_superblock(rt: HostRuntime) {
    let planned = "superblock 2 > [[Plain(1)], [Version(0, 2)]] [Plain(1), Version(0, 2)]";
    plays(&rt, 1000, &[PUT, STAGED, planned]);
}

#[test]
fn the_latest_superblock(rt: HostRuntime) {
    let planned =
        "superblock 3 > [[Plain(1), Plain(2)], [Version(0, 3)]] [Plain(1), Version(0, 3)]";
    plays(&rt, 1000, &[PUT, STAGED, planned]);
}

#[test]
fn a_superblock_to_come(rt: HostRuntime) {
    plays(&rt, 1000, &[PUT, STAGED, "superblock 4 > NotStaged"]);
}

#[test]
fn what_one_put_changed(rt: HostRuntime) {
    plays(&rt, 1000, &[PUT, STAGED, CHANGED]);
}

const CHANGED: &str = "replay 0 > []
replay 1 > [(ShardId([0, 0, 0, 0, 0, 0, 0, 0, 0, 0, 0, 0, 0, 0, 0, 10]), Some(Bytes { block: [97] }))]";

/// Three puts, and a root over them.
const THREE: &str = "put 10 97 > Accepted(1)
put 11 98 > Accepted(2)
put 12 99 > Accepted(3)
stage > Staged(2)";

#[test]
fn the_rounds_of_three_puts(rt: HostRuntime) {
    let planned =
        "plan > [[Plain(1), Plain(2), Plain(3), Plain(4)], [Version(0, 5)], [Version(1, 2)]] [Plain(1), Version(0, 5), Version(1, 2)]";
    plays(&rt, 1000, &[THREE, planned]);
}

/// None of three puts is persistent before what waits is written back, and all are then.
#[test]
fn three_puts_are_persistent_at_once(rt: HostRuntime) {
    plays(&rt, 1000, &[THREE, PERSISTENT]);
}

const PERSISTENT: &str = "settle 1 > NotYet(0)
written > 3
settle 1 > Persistent
settle 3 > Persistent
settle 4 > NotYet(3)";

/// How many pages a new store keeps before a put, after it, and once it is staged.
#[test]
fn pages_that_one_put_keeps(rt: HostRuntime) {
    plays(
        &rt,
        1000,
        &["kept > 0", PUT, "kept > 2", STAGED, "kept > 4"],
    );
}

#[test]
fn pages_that_three_puts_keep(rt: HostRuntime) {
    plays(&rt, 1000, &[THREE, "kept > 6"]);
}

#[test]
fn pages_that_are_persistent_are_not_kept(rt: HostRuntime) {
    plays(&rt, 1000, &[THREE, "written > 3", "kept > 0"]);
}

/// Two puts, the second while the first one's round is out, which ends then.
#[test]
fn pages_that_a_put_beside_a_round_keeps(rt: HostRuntime) {
    plays(&rt, 1000, &[BEGUN, BESIDE]);
}

const BESIDE: &str = "put 11 98 > Accepted(2)
issue > Issued(Plain(1), 2)
end > Ended(0)
kept > 3";

//! Sweeps of a core, event by event.
use crate::chunks::assert_inside;
use crate::machines::{disk_of_a_put, let_go, opened_failing, play, plays};
use cs_core::Core;
use cs_disk::PageDisk;
use cs_frame::{FrameKind, Locator};
use std::process::Abort;

/// Two puts, which fill the first extent.
pub const FILL: &str = "put 10 97 > Accepted(1)
put 11 98 > Accepted(2)";

/// Both are moved off that extent, and it is emptied.
pub const SWEEP: &str = "sweep 0 > Sweeping
move 0 > Moved(ShardId([0, 0, 0, 0, 0, 0, 0, 0, 0, 0, 0, 0, 0, 0, 0, 10]), 0)
move 0 > Moved(ShardId([0, 0, 0, 0, 0, 0, 0, 0, 0, 0, 0, 0, 0, 0, 0, 11]), 0)
move 0 > NoneLive
retire 0 > Retired(2)";

/// Two puts behind the sweep, of which the second one lies on that extent again.
pub const BEHIND: &str = "put 12 99 > Accepted(3)
put 13 100 > Accepted(4)";

/// A root over them.
pub const STAGED: &str = "stage > Staged(3)";

/// What is answered while both shards of an extent are moved by a sweep.
#[test]
fn each_event_of_a_sweep(rt: HostRuntime) {
    let found = "get 10 > Found(Bytes { block: [97] })";
    plays(&rt, 1000, &[FILL, SWEEP, found]);
}

/// A sweep is abandoned that has moved one of two shards. The other one may be moved by a later sweep.
#[test]
fn a_sweep_that_is_abandoned(rt: HostRuntime) {
    plays(&rt, 1000, &[FILL, ABANDONED]);
}

const ABANDONED: &str = "sweep 0 > Sweeping
move 0 > Moved(ShardId([0, 0, 0, 0, 0, 0, 0, 0, 0, 0, 0, 0, 0, 0, 0, 10]), 0)
retire 0 > Refused(StillLive)
abandon 0 > Abandoned
move 0 > Refused(NotSweepable)
sweep 0 > Sweeping
move 0 > Moved(ShardId([0, 0, 0, 0, 0, 0, 0, 0, 0, 0, 0, 0, 0, 0, 0, 11]), 0)
retire 0 > Retired(2)";

#[test]
fn pages_that_a_sweep_keeps(rt: HostRuntime) {
    plays(&rt, 1000, &[FILL, "kept > 3", SWEEP, "kept > 7"]);
}

#[test]
fn pages_that_puts_behind_a_sweep_keep(rt: HostRuntime) {
    let scripts = [FILL, SWEEP, BEHIND, "kept > 11", STAGED, "kept > 13"];
    plays(&rt, 1000, &scripts);
}

#[test]
fn rounds_of_puts_behind_a_sweep(rt: HostRuntime) {
    plays(&rt, 1000, &[FILL, SWEEP, BEHIND, STAGED, ROUNDS]);
}

const ROUNDS: &str =
    "plan > [[Plain(1), Plain(2), Plain(3), Plain(4), Plain(5), Plain(6)], [Version(0, 6)], [Version(1, 2)], [Plain(7), Plain(8), Version(0, 7)], [Version(0, 9)], [Version(1, 3)]] [Plain(1), Version(0, 6), Version(1, 2), Plain(7), Version(0, 9), Version(1, 3)]";

/// What is under the identifiers of two puts and of two behind their sweep.
pub const HOLDS: &str = "get 10 > Found(Bytes { block: [97] })
get 11 > Found(Bytes { block: [98] })
get 12 > Found(Bytes { block: [99] })
get 13 > Found(Bytes { block: [100] })";

/// All is persistent, and is read from where it was moved to.
#[test]
fn puts_behind_a_sweep_are_persistent(rt: HostRuntime) {
    let written = "written > 4";
    let settled = "settle 4 > Persistent";
    let scripts = [FILL, SWEEP, BEHIND, STAGED, written, settled, HOLDS];
    plays(&rt, 1000, &scripts);
}

/// The extent that the first sweep moved to is swept.
const SWEEP_AGAIN: &str = "sweep 1 > Sweeping
move 1 > Moved(ShardId([0, 0, 0, 0, 0, 0, 0, 0, 0, 0, 0, 0, 0, 0, 0, 10]), 0)
move 1 > Moved(ShardId([0, 0, 0, 0, 0, 0, 0, 0, 0, 0, 0, 0, 0, 0, 0, 11]), 0)
move 1 > NoneLive
retire 1 > Retired(4)";

/// Nothing is lost where both are written back. The second sweep reads what it moves from the disk.
#[test]
fn a_second_sweep(rt: HostRuntime) {
    let written = "written > 4";
    let scripts = [
        FILL,
        SWEEP,
        BEHIND,
        STAGED,
        written,
        SWEEP_AGAIN,
        written,
        HOLDS,
    ];
    plays(&rt, 1000, &scripts);
}

/// Does what a script says on a store with a persistent put that is opened on a disk of which the call after that
/// fails.
fn plays_reading(rt: &(impl Abort + AllocGlobal), script: &str) {
    let mut core = opened_failing(rt, disk_of_a_put(rt), 5, 1000);
    play(rt, &mut core, script);
    let_go(core);
}

/// A get whose read fails changes nothing, and the next one is answered. The four calls of opening are the flush and
/// the reads of superblock, root and run.
#[test]
fn a_read_that_fails(rt: HostRuntime) {
    plays_reading(&rt, READ_FAILS);
}

const READ_FAILS: &str = "get 10 > Refused(DeviceFault)
halted > false
accepted > 0
events > 1
get 10 > Found(Bytes { block: [97] })
put 11 98 > Accepted(1)";

/// Asserts that the chunk on the first page of the first extent is a byte long.
fn has_length<D: PageDisk>(rt: &impl Abort, core: &mut Core<D>) {
    let place = Locator {
        extent: 0,
        page: 0,
        generation: 0,
        mark: 0,
    };
    assert_inside(rt, core.extents(), place);
    let length = core.read_length(FrameKind::Chunk, place);
    assert!(rt; matches!(length, Ok(1)));
}

/// After an opening a chunk's length is read from the device once. The fifth call reads it. The sixth one, which fails,
/// is that of the get.
#[test]
fn a_length_is_read_once(rt: HostRuntime) {
    let mut core = opened_failing(&rt, disk_of_a_put(&rt), 6, 1000);
    has_length(&rt, &mut core);
    has_length(&rt, &mut core);
    play(&rt, &mut core, "get 10 > Refused(DeviceFault)");
    let_go(core);
}

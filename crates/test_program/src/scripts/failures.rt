//! One call on the device that fails, whichever it is: a put, a sync, another put and a get, then a crash.
use super::damage::why_not_opened;
use super::{end_of, new_core, printed, script_text};
use cs_disk::{FailAt, MemoryDisk};
use cs_refusal::Refusal;
use cs_store::mount::the_core::{Core, Limits};
use std::process::Abort;
use std::test::{Fail, *};

/// The three calls that open the store.
#[test]
fn opening_fails(rt: HostRuntime) -> Result<(), Fail> {
    for call in 1..4 {
        let disk = FailAt::new(new_core(&rt, 6)?.into_disk(), call);
        let refusal = why_not_opened(rt.alloc(), disk);
        assert!(rt; refusal == Some(Refusal::DeviceFault));
    }
    Ok(())
}

/// A new store of 6 extents of 2 pages, opened on a disk of which a call fails, counted from the one that opens it on.
pub fn core_that_fails(
    rt: &(impl Abort + AllocGlobal),
    call: u64,
) -> Result<Core<FailAt<MemoryDisk>>, Fail> {
    let disk = new_core(rt, 6)?.into_disk();
    match Core::open(
        rt.alloc(),
        FailAt::new(disk, call),
        Limits { history: 1000 },
    ) {
        Ok(core) => Ok(core),
        Err((refusal, _)) => panic!(rt; "{}", refusal.name()),
    }
}

/// Asserts what a script prints on a disk of which a call fails, and its exit status, and that it leaves a core or
/// none.
fn fails(
    rt: &(impl Abort + AllocGlobal),
    call: u64,
    script: &str,
    lines: &str,
    status: u8,
) -> Result<(), Fail> {
    let alloc = rt.alloc();
    let text = script_text(alloc, script)?;
    let wanted = printed(alloc, lines)?;
    let ended = end_of(alloc, core_that_fails(rt, call)?, &text);
    ended.printed(rt, &wanted, status, script);
    assert!(rt; ended.left.is_none() == (status == 3));
    Ok(())
}

/// The flush of the second round fails. The store halts, and a crash leaves the one before, with the volatile
/// superblock or without.
#[test]
fn a_crash_after_a_failed_flush(rt: HostRuntime) -> Result<(), Fail> {
    for (digit, kept) in [("0", 0), ("1", 1)] {
        let alloc = rt.alloc();
        let script = format!(in alloc;
            "put @a 61 / sync / put @b 62 / get @a / crash {digit} / get @a"
        )?;
        let lines = format!(in alloc;
            "put 1 / round 1: [w1, w2] / refused 1 DeviceFault / refused 40 Halted / value 61 / crash kept {kept} of 1 / open commands 0 shards 0 / absent"
        )?;
        fails(&rt, 8, &script, &lines, 0)?;
    }
    Ok(())
}

/// A store that isn't opened ends the script.
#[test]
fn a_crash_after_which_no_store_is_opened(rt: HostRuntime) -> Result<(), Fail> {
    fails(
        &rt,
        4,
        "frob / crash - / put @a 61",
        "bad line / crash kept 0 of 0 / refused 1 DeviceFault",
        3,
    )
}

/// A call that fails, which rounds are printed before, and for a crash then its mask, what it keeps, and how many
/// commands it leaves.
type Halt = (u64, &'static str, &'static str, &'static str, u64);

/// The store halts, so what was put first is read from memory.
fn halts(rt: &(impl Abort + AllocGlobal), halt: &Halt) -> Result<(), Fail> {
    let alloc = rt.alloc();
    let (call, rounds, mask, kept, commands) = *halt;
    let script = format!(in alloc; "put @a 61 / sync / put @b 62 / get @a / crash {mask}")?;
    let lines = format!(in alloc;
        "put 1 / {rounds}refused 1 DeviceFault / refused 40 Halted / value 61 / crash kept {kept} / open commands {commands} shards {commands}"
    )?;
    fails(rt, call, &script, &lines, 0)
}

/// The two writes of the first round, and its flush.
const FIRST_ROUND: &[Halt] = &[
    (4, "", "-", "0 of 0", 0),
    (5, "", "0", "0 of 1", 0),
    (5, "", "1", "1 of 1", 0),
    (6, "", "00", "0 of 2", 0),
    (6, "", "01", "1 of 2", 0),
    (6, "", "10", "1 of 2", 0),
    (6, "", "11", "2 of 2", 0),
];

#[test]
fn the_first_round_fails(rt: HostRuntime) -> Result<(), Fail> {
    for halt in FIRST_ROUND {
        halts(&rt, halt)?;
    }
    Ok(())
}

const ONE: &str = "round 1: [w1, w2] / ";

const TWO: &str = "round 1: [w1, w2] / round 2: [s3] / ";

/// The superblock's write and its flush, then the root's.
const LATER_ROUNDS: &[Halt] = &[
    (7, ONE, "-", "0 of 0", 0),
    (8, ONE, "0", "0 of 1", 0),
    (8, ONE, "1", "1 of 1", 0),
    (9, TWO, "-", "0 of 0", 0),
    (10, TWO, "0", "0 of 1", 0),
    (10, TWO, "1", "1 of 1", 1),
];

#[test]
fn later_rounds_fail(rt: HostRuntime) -> Result<(), Fail> {
    for halt in LATER_ROUNDS {
        halts(&rt, halt)?;
    }
    Ok(())
}

/// Asserts the same where all was made persistent before: the get, and what a crash leaves, with the exit status.
fn fails_later(
    rt: &(impl Abort + AllocGlobal),
    call: u64,
    got: &str,
    opened: &str,
    status: u8,
) -> Result<(), Fail> {
    let alloc = rt.alloc();
    let lines = format!(in alloc;
        "put 1 / round 1: [w1, w2] / round 2: [s3] / round 3: [r2] / chain: [w1, s3, r2] / flushes 3 / acknowledged 1 / put 2 / {got} / crash kept 0 of 0 / {opened}"
    )?;
    fails(
        rt,
        call,
        "put @a 61 / sync / put @b 62 / get @a / crash -",
        &lines,
        status,
    )
}

/// The get's read, and the flush and the three reads that open the store after the crash.
#[test]
fn reads_fail(rt: HostRuntime) -> Result<(), Fail> {
    let opened = "open commands 1 shards 1";
    fails_later(&rt, 11, "refused 1 DeviceFault", opened, 0)?;
    for call in 12..16 {
        fails_later(&rt, call, "value 61", "refused 1 DeviceFault", 3)?;
    }
    fails_later(&rt, 16, "value 61", opened, 0)
}

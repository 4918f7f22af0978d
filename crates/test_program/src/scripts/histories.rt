//! Scripts that go on past the limit of their core's history.
use super::{Ended, end_of, new_core_of, printed, script_text};
use cs_frame::Geometry;
use std::alloc::Global;
use std::process::Abort;
use std::test::Fail;

/// What a script's text prints and leaves on a core that keeps 24 events, over 64 extents of 2 pages.
fn run_short(rt: &(impl Abort + AllocGlobal), text: &str) -> Result<Ended, Fail> {
    let core = new_core_of(rt, Geometry::new(64, 2)?, 24)?;
    Ok(end_of(rt.alloc(), core, text))
}

/// Lines that put, get and sync, so many times.
fn puts_and_syncs(alloc: Global, times: usize) -> Result<String, Fail> {
    let lines = script_text(alloc, "put @a 61 / get @a / del @a / sync")?;
    Ok(lines.repeat(alloc, times)?)
}

/// A hundred events of clients and their syncs, of which 24 are kept at most. No line is refused.
#[test]
fn a_script_that_syncs_is_never_refused(rt: HostRuntime) -> Result<(), Fail> {
    let text = puts_and_syncs(rt.alloc(), 25)?;
    let ended = run_short(&rt, &text)?;
    let counts = ended.counts(&rt);
    assert_eq!(&rt; counts.accepted, 50);
    assert_eq!(&rt; counts.persistent, 50);
    Ok(())
}

/// Without a sync the history fills. A sync writes all back, and the next line is taken again.
#[test]
fn a_sync_makes_room_in_a_full_history(rt: HostRuntime) -> Result<(), Fail> {
    let alloc = rt.alloc();
    let fills = script_text(alloc, "get @a")?.repeat(alloc, 23)?;
    let before = script_text(alloc, "put @a 61")?;
    let behind = script_text(alloc, "get @a / del @a / sweep 0 / sync / get @a")?;
    let text = format!(in alloc; "{before}{fills}{behind}")?;
    let values = printed(alloc, "value 61")?.repeat(alloc, 23)?;
    let first = printed(alloc, "put 1")?;
    let last = printed(
        alloc,
        "refused 41 HistoryFull / refused 41 HistoryFull / refused 41 HistoryFull / round 1: [w1, w2] / round 2: [s3] / round 3: [r2] / chain: [w1, s3, r2] / flushes 3 / acknowledged 1 / value 61",
    )?;
    let wanted = format!(in alloc; "{first}{values}{last}")?;
    run_short(&rt, &text)?.printed(&rt, &wanted, 0, "a full history");
    Ok(())
}

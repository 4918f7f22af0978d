//! Plans of a long list of commands, each judged by the check.
use super::{core_after, new_core_of, script_text};
use cs_check::check;
use cs_disk::MemoryDisk;
use cs_frame::Geometry;
use cs_store::mount::the_core::Core;
use std::alloc::Global;
use std::process::Abort;
use std::test::{Fail, *};

/// The next number of a fixed list without an order that shows.
fn next(number: u64) -> u64 {
    number
        .wrapping_mul(6364136223846793005)
        .wrapping_add(1442695040888963407)
}

/// A line of a script: most are steps of writeback, so that not too much waits.
fn line_of(alloc: Global, number: u64) -> Result<String, Fail> {
    let choice = number >> 33;
    let digit = choice / 32 % 6;
    let line = match choice % 32 {
        0..=3 => format!(in alloc; "put @{digit} 6{digit}")?,
        4 | 5 => format!(in alloc; "del @{digit}")?,
        6 | 7 => format!(in alloc; "sweep {digit}")?,
        8 | 9 => "plan".to_string(alloc)?,
        _ => "step".to_string(alloc)?,
    };
    script_text(alloc, &line)
}

/// So many lines.
fn lines(alloc: Global, count: usize) -> Result<Vec<String>, Fail> {
    let mut lines = Vec::new(alloc);
    let mut number = 1;
    for _ in 0..count {
        number = next(number);
        lines.push(line_of(alloc, number)?)?;
    }
    Ok(lines)
}

/// Asserts that the check accepts the plan of all that waits, where no round is out. It tells whether there was one.
fn judge(rt: &(impl Abort + AllocGlobal), core: &Core<MemoryDisk>) -> bool {
    if core.round().is_some() {
        return false;
    }
    let plan = core.plan().expect(rt, "a plan");
    let view = core.view().expect(rt, "a view");
    let everything = core.everything().expect(rt, "everything");
    assert!(rt; check(rt.alloc(), &view, &everything, &plan).is_ok());
    true
}

/// Asserts that the check accepts each plan over 6 extents of 2 pages and a superblock of so many sections.
fn judge_each(
    rt: &(impl Abort + AllocGlobal),
    sections: u64,
    lines: &[String],
) -> Result<(), Fail> {
    let mut core = new_core_of(rt, Geometry::with_sections(6, 2, sections)?, 8192)?;
    let mut plans: u64 = 0;
    for line in lines.iter() {
        core = core_after(rt, core, line);
        if judge(rt, &core) {
            plans = plans.saturating_add(1);
        }
    }
    assert!(rt; core.base().saturating_add(core.history().len() as u64) >= 2000);
    assert!(rt; plans >= 200);
    assert!(rt; core.frontier() >= 50);
    Ok(())
}

#[test]
fn the_check_accepts_each_plan(rt: HostRuntime) -> Result<(), Fail> {
    let lines = lines(rt.alloc(), 2000)?;
    for sections in [1, 3] {
        judge_each(&rt, sections, &lines)?;
    }
    Ok(())
}

//! A crash in each round over a swept extent, after its begin and after each of its issues, with each mask.
use super::{disk_after, script_text};
use cs_disk::{CrashDisk, MemoryDisk};
use cs_store::mount::the_core::{Core, Limits};
use std::alloc::{AllocError, Global};
use std::process::Abort;
use std::test::{Fail, *};

/// How many crashes left how many commands: none, two or four.
#[derive(Clone, Copy)]
struct Outcomes {
    none: u64,
    two: u64,
    four: u64,
}

impl Outcomes {
    /// Counts a crash that left so many commands and shards.
    fn count(&mut self, rt: &impl Abort, found: (u64, usize)) {
        assert!(rt; found.0 == found.1 as u64);
        match found.0 {
            0 => self.none = self.none.saturating_add(1),
            2 => self.two = self.two.saturating_add(1),
            4 => self.four = self.four.saturating_add(1),
            _ => panic!(rt; "{} commands", found.0),
        }
    }
}

/// The disk after a sweep, two more puts and so many steps.
fn stopped(rt: &(impl Abort + AllocGlobal), steps: u64) -> Result<MemoryDisk, Fail> {
    let alloc = rt.alloc();
    let mut text = script_text(
        alloc,
        "put @a 61 / put @b 62 / sweep 0 / put @c 63 / put @d 64 / plan",
    )?;
    for _ in 0..steps {
        text.push_str("step\n")?;
    }
    disk_after(rt, 6, &text)
}

/// The mask that a number stands for, its lowest digit first.
fn mask_of(alloc: Global, count: usize, number: u64) -> Result<Vec<bool>, AllocError> {
    let mut mask = Vec::new(alloc);
    let mut rest = number;
    for _ in 0..count {
        mask.push(rest % 2 == 1)?;
        rest /= 2;
    }
    Ok(mask)
}

/// How many commands and shards a crash after so many steps leaves, with the mask of this number.
fn found_after(
    rt: &(impl Abort + AllocGlobal),
    steps: u64,
    number: u64,
) -> Result<(u64, usize), Fail> {
    let disk = stopped(rt, steps)?;
    assert!(rt; disk.crashable());
    let mask = mask_of(rt.alloc(), disk.volatile(), number).expect(rt, "a mask");
    assert!(rt; mask.len() == disk.volatile());
    match Core::open(rt.alloc(), disk.crash(&mask), Limits { history: 1 }) {
        Ok(core) => Ok(core.opened()),
        Err((refusal, _)) => panic!(rt; "{steps} steps, mask {number}: {}", refusal.name()),
    }
}

/// The rounds have six, one, one, three, one and one members: with the begin of each and its end, 25 steps. A step that
/// ends a round leaves nothing volatile, and is no stop.
#[test]
fn each_stop_with_each_mask(rt: HostRuntime) -> Result<(), Fail> {
    let mut outcomes = Outcomes {
        none: 0,
        two: 0,
        four: 0,
    };
    let mut begun: u64 = 0;
    for members in [6, 1, 1, 3, 1, 1] {
        for issued in 0..=members {
            for number in 0..1 << issued {
                let steps = begun.saturating_add(1).saturating_add(issued);
                outcomes.count(&rt, found_after(&rt, steps, number)?);
            }
        }
        begun = begun.saturating_add(members).saturating_add(2);
    }
    assert!(rt; (outcomes.none, outcomes.two, outcomes.four) == (132, 21, 1));
    Ok(())
}

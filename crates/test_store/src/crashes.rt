//! Crashes of a core that writes back: in each round after its begin and after each of its issues, with each mask of
//! the writes that are out.
use crate::damage::disk_of;
use crate::disks::crashed;
use crate::machines::{answer, let_go, members, opened, play, writes_round};
use cs_core::{Core, Event};
use cs_disk::{CrashDisk, MemoryDisk, PageDisk};
use std::process::Abort;

/// A round of so many members, and what a crash leaves in it: of a part of them, and of all. That is what page 0 begins
/// with, a line, and a script for the core that is opened then.
#[derive(Clone, Copy)]
pub struct Round<'a> {
    pub size: usize,
    pub part: &'a str,
    pub all: &'a str,
}

/// Does what scripts say, writes so many rounds, and then so many of the members of the next one, which has to have
/// this size.
fn stops<D: PageDisk>(
    rt: &(impl Abort + AllocGlobal),
    core: &mut Core<D>,
    scripts: &[&str],
    rounds: usize,
    (size, issued): (usize, usize),
) {
    for script in scripts {
        play(rt, core, script);
    }
    for _ in 0..rounds {
        writes_round(rt, core);
    }
    answer(rt, core, &Event::Begin);
    assert!(rt; members(core) == size);
    for _ in 0..issued {
        answer(rt, core, &Event::Issue);
    }
}

/// The mask that a number stands for, its lowest digit first.
fn mask_of(rt: &(impl Abort + AllocGlobal), count: usize, number: usize) -> Vec<bool> {
    let mut mask = Vec::new(rt.alloc());
    let mut rest = number;
    for _ in 0..count {
        mask.push(rest % 2 == 1).expect(rt, "memory");
        rest /= 2;
    }
    mask
}

/// Asserts what a disk begins with and holds after a crash that keeps what the mask with this number says.
fn leaves(rt: &(impl Abort + AllocGlobal), disk: MemoryDisk, number: usize, wanted: &str) {
    let mask = mask_of(rt, disk.volatile(), number);
    let disk = crashed(rt, disk, mask.as_slice());
    let (magic, script) = wanted.split_once('\n').expect(rt, "a script");
    assert!(rt;
        disk.image().starts_with(magic.as_bytes()),
        "mask {number}: {wanted}"
    );
    let mut core = opened(rt, disk, 1000);
    play(rt, &mut core, script);
    let_go(core);
}

/// Crashes each time a core that is opened on this image and does what scripts say, in this round behind so many
/// others.
fn crashes_in(
    rt: &(impl Abort + AllocGlobal),
    image: &[u8],
    scripts: &[&str],
    before: usize,
    round: Round,
) {
    let mut masks: usize = 1;
    for issued in 0..=round.size {
        for number in 0..masks {
            let mut core = opened(rt, disk_of(rt, image), 1000);
            stops(rt, &mut core, scripts, before, (round.size, issued));
            let is_all = issued == round.size && number.saturating_add(1) == masks;
            let wanted = if is_all { round.all } else { round.part };
            leaves(rt, core.into_disk(), number, wanted);
        }
        masks = masks.saturating_mul(2);
    }
}

/// Crashes in each round of those that write back what scripts leave waiting.
pub fn crashes(rt: &(impl Abort + AllocGlobal), image: &[u8], scripts: &[&str], rounds: &[Round]) {
    let mut before: usize = 0;
    for round in rounds {
        crashes_in(rt, image, scripts, before, *round);
        before = before.saturating_add(1);
    }
}

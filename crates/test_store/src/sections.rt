//! Stores of which the superblock has several sections: what their rounds are, what a crash leaves of them, and what
//! isn't opened. Each of three sections has two of 6 extents of 2 pages: section 0 is on page 0, and the others are on
//! pages 14 and 15.
use crate::core_sweeps::{BEHIND, FILL, HOLDS, STAGED, SWEEP};
use crate::crashes::{Round, crashes};
use crate::damage::{damaged, image_of, is_refused, set_page};
use crate::frames::page_of;
use crate::machines::{let_go, new_core_of, play};
use crate::stores::geometry;
use crate::superblocks::{SECOND_OF_THREE_FAULTS, first_format_page};
use cs_core::{Core, Limits};
use cs_disk::{FailAt, MemoryDisk};
use cs_frame::{Geometry, encode_section, record_in};
use std::alloc::Global;
use std::process::Abort;

/// Does what scripts say, one after the other, on a new store of so many sections.
fn plays(rt: &(impl Abort + AllocGlobal), sections: u64, scripts: &[&str]) {
    let mut core = new_core_of(rt, geometry(rt, 6, sections), 1000);
    for script in scripts {
        play(rt, &mut core, script);
    }
    let_go(core);
}

/// Seven puts of one byte: the last one goes to the first extent of the second section, and so does the run.
#[test]
fn a_put_in_each_of_two_sections(rt: HostRuntime) {
    plays(&rt, 2, &[SEVEN]);
}

const SEVEN: &str = "put 10 97 > Accepted(1)
put 11 97 > Accepted(2)
put 12 97 > Accepted(3)
put 13 97 > Accepted(4)
put 14 97 > Accepted(5)
put 15 97 > Accepted(6)
put 16 97 > Accepted(7)
stage > Staged(2)
plan > [[Plain(1), Plain(2), Plain(3), Plain(4), Plain(5), Plain(6), Plain(7), Plain(8)], [Version(0, 7), Version(2, 3)], [Version(1, 2)]] [Plain(1), Version(0, 7), Version(1, 2)]
written > 7
settle 7 > Persistent";

/// The second root waits for the section of the extent that is emptied alone.
#[test]
fn a_sweep_of_one_of_three_sections(rt: HostRuntime) {
    plays(&rt, 3, &[FILL, SWEEP, BEHIND, STAGED, ROUNDS, HOLDS]);
}

const ROUNDS: &str =
    "plan > [[Plain(1), Plain(2), Plain(3), Plain(4), Plain(5), Plain(6)], [Version(0, 5), Version(2, 3)], [Version(1, 2)], [Plain(7), Plain(8)], [Version(0, 7)], [Version(1, 3)]] [Plain(1), Version(0, 5), Version(1, 2), Plain(7), Version(0, 7), Version(1, 3)]
written > 4";

/// What a crash leaves before the first root is kept, ..
const NONE: &str = "CSS2
opened > (0, 0)
get 10 > Absent";

/// .. before the second one is, ..
const TWO: &str = "CSS2
opened > (2, 2)
get 10 > Found(Bytes { block: [97] })
get 11 > Found(Bytes { block: [98] })
get 12 > Absent";

/// .. and behind it.
const FOUR: &str = "CSS2
opened > (4, 4)
get 10 > Found(Bytes { block: [97] })
get 11 > Found(Bytes { block: [98] })
get 12 > Found(Bytes { block: [99] })
get 13 > Found(Bytes { block: [100] })";

/// A round of which a crash leaves the same, whatever of it is kept.
fn round_of<'a>(size: usize, left: &'a str) -> Round<'a> {
    Round {
        size,
        part: left,
        all: left,
    }
}

/// The round of a root.
fn round_of_root<'a>(part: &'a str, all: &'a str) -> Round<'a> {
    Round { size: 1, part, all }
}

/// Two sections are written in the second round, and neither, one or both of them are kept.
#[test]
fn crashes_over_sections(rt: HostRuntime) {
    let core = new_core_of(&rt, geometry(&rt, 6, 3), 1000);
    let image = image_of(&rt, core.disk());
    let rounds = [
        round_of(6, NONE),
        round_of(2, NONE),
        round_of_root(NONE, TWO),
        round_of(2, TWO),
        round_of(1, TWO),
        round_of_root(TWO, FOUR),
    ];
    let scripts = [FILL, SWEEP, BEHIND, STAGED];
    crashes(&rt, image.as_slice(), &scripts, &rounds);
    let_go(core);
}

/// The disk of a new store of three sections.
fn new_disk(rt: &(impl Abort + AllocGlobal)) -> MemoryDisk {
    new_core_of(rt, geometry(rt, 6, 3), 1000).into_disk()
}

/// The page of a section of two empty extents.
fn section_page(rt: &impl Abort, geometry: Geometry, section: u8) -> [u8; 4096] {
    assert!(rt; section < geometry.sections());
    assert!(rt; geometry.section_length(section) == 2);
    let recorded = record_in(geometry.format(), 0);
    encode_section(1, recorded, geometry, section, &[(0, 0), (0, 0)])
}

/// Asserts why a new store of three sections isn't opened of which a page has these bytes.
fn is_refused_with(
    rt: &(impl Abort + AllocGlobal),
    number: u64,
    bytes: &[u8; 4096],
    wanted: u8,
    at: usize,
) {
    let mut disk = new_disk(rt);
    set_page(rt, &mut disk, number, bytes);
    is_refused(rt, disk, true, wanted, at);
}

#[test]
fn a_section_in_the_place_of_another(rt: HostRuntime) {
    let three = geometry(&rt, 6, 3);
    let first = section_page(&rt, three, 0);
    let second = section_page(&rt, three, 1);
    let third = section_page(&rt, three, 2);
    is_refused_with(&rt, 0, &second, 43, 1);
    is_refused_with(&rt, 14, &first, 43, 2);
    is_refused_with(&rt, 14, &third, 43, 3);
    is_refused_with(&rt, 15, &second, 43, 4);
    is_refused_with(&rt, 14, &second, 0, 5);
}

#[test]
fn a_section_of_another_geometry(rt: HostRuntime) {
    let longer = Geometry::with_sections(6, 3, 3).expect(&rt, "a geometry");
    let second = section_page(&rt, longer, 1);
    is_refused_with(&rt, 14, &second, 43, 1);
    let wider = geometry(&rt, 8, 4);
    let second = section_page(&rt, wider, 1);
    is_refused_with(&rt, 14, &second, 43, 2);
    let first = section_page(&rt, wider, 0);
    is_refused_with(&rt, 0, &first, 43, 3);
}

/// The first format has no other section than the first, and page 0 of it says of one section.
#[test]
fn a_section_that_is_none(rt: HostRuntime) {
    let first = first_format_page(&rt);
    is_refused_with(&rt, 14, &first, 24, 1);
    is_refused_with(&rt, 0, &first, 43, 2);
    is_refused_with(&rt, 15, &[0; 4096], 20, 3);
    let page = page_of(&rt, b"CSS2");
    is_refused_with(&rt, 15, &page, 22, 4);
}

/// Sections are read in order, before the root, and the first that isn't as it has to be is told.
#[test]
fn the_first_wrong_section_is_told(rt: HostRuntime) {
    let second = section_page(&rt, geometry(&rt, 6, 3), 1);
    let mut disk = new_disk(&rt);
    set_page(&rt, &mut disk, 1, &[0; 4096]);
    set_page(&rt, &mut disk, 15, &second);
    disk = is_refused(&rt, disk, true, 43, 1);
    set_page(&rt, &mut disk, 14, &[0; 4096]);
    is_refused(&rt, disk, true, 20, 2);
}

#[test]
fn a_damaged_section(rt: HostRuntime) {
    damaged(&rt, new_disk(&rt), 14, true, &SECOND_OF_THREE_FAULTS);
}

/// Why a store isn't made on a disk of which a call fails, 0 where it is.
fn why_not_formatted(alloc: Global, disk: MemoryDisk, geometry: Geometry, call: u64) -> u8 {
    let disk = FailAt::new(disk, call);
    match Core::format(alloc, disk, geometry, Limits { history: 1000 }) {
        Ok(core) => {
            let_go(core);
            0
        }
        Err((refusal, _)) => refusal.number(),
    }
}

/// Why a store isn't opened on such a disk, 0 where it is.
fn why_not_opened(alloc: Global, disk: MemoryDisk, call: u64) -> u8 {
    let disk = FailAt::new(disk, call);
    match Core::open(alloc, disk, Limits { history: 1000 }) {
        Ok(core) => {
            let_go(core);
            0
        }
        Err((refusal, _)) => refusal.number(),
    }
}

/// Making a store of three sections writes these and the root, and flushes; opening it flushes, and reads as many
/// pages.
#[test]
fn calls_that_fail(rt: HostRuntime) {
    for call in 1..7 {
        let wanted = if call <= 5 { 1 } else { 0 };
        let made = why_not_formatted(rt.alloc(), new_disk(&rt), geometry(&rt, 6, 3), call);
        assert_eq!(rt; made, wanted, "call {call}");
        let opened = why_not_opened(rt.alloc(), new_disk(&rt), call);
        assert_eq!(rt; opened, wanted, "call {call}");
    }
}

//! A root in the place of a newer one, as where a device lost the write of the newer one. A section records the version
//! of the root that was persistent as the section was staged, so a root that is older than such a one is refused.
use crate::damage::{disk_of, image_of, is_refused, page, set_page};
use crate::machines::{let_go, new_core_of, opened, play};
use crate::stores::{STORE, geometry};
use cs_core::Core;
use cs_disk::MemoryDisk;
use cs_frame::{Geometry, decode_superblock};
use std::process::Abort;

/// A new store of format 4, of 6 extents of 2 pages.
pub fn new_fourth(rt: &(impl Abort + AllocGlobal)) -> Core<MemoryDisk> {
    let fourth = Geometry::for_file(STORE, 6, 2, None).expect(rt, "a geometry");
    new_core_of(rt, fourth, 1000)
}

/// A put that is made persistent.
const FIRST: &str = "put 10 97 > Accepted(1)
stage > Staged(2)
written > 1";

/// Another one.
const SECOND: &str = "put 11 98 > Accepted(2)
stage > Staged(3)
written > 2";

/// One more, in a store that was opened anew.
const THIRD: &str = "put 12 99 > Accepted(1)
stage > Staged(4)
written > 1";

/// The bytes of the disk of a store after each of three puts that were made persistent one by one, the third one in a
/// store that was opened anew.
fn after_each(
    rt: &(impl Abort + AllocGlobal),
    mut core: Core<MemoryDisk>,
) -> (Vec<u8>, Vec<u8>, Vec<u8>) {
    play(rt, &mut core, FIRST);
    let first = image_of(rt, core.disk());
    play(rt, &mut core, SECOND);
    let second = image_of(rt, core.disk());
    let mut core = opened(rt, core.into_disk(), 1000);
    play(rt, &mut core, THIRD);
    let third = image_of(rt, core.disk());
    let_go(core);
    (first, second, third)
}

/// The disk with these bytes, but for the root, which is that of the other ones.
fn with_root_of(rt: &(impl Abort + AllocGlobal), image: &[u8], other: &[u8]) -> MemoryDisk {
    let root = page(rt, &mut disk_of(rt, other), 1);
    let mut disk = disk_of(rt, image);
    set_page(rt, &mut disk, 1, &root);
    disk
}

/// Asserts what the store on a disk has, as it is opened.
fn holds(rt: &(impl Abort + AllocGlobal), disk: MemoryDisk, script: &str) {
    let mut core = opened(rt, disk, 1000);
    play(rt, &mut core, script);
    let_go(core);
}

/// Which root the first section records on a disk with these bytes.
fn recorded(rt: &(impl Abort + AllocGlobal), image: &[u8]) -> u64 {
    let page = page(rt, &mut disk_of(rt, image), 0);
    decode_superblock(rt.alloc(), &page)
        .expect(rt, "a superblock")
        .recorded
}

/// The section of the third put records the root of the second one.
#[test]
fn sections_record_the_persistent_root(rt: HostRuntime) {
    let (first, second, third) = after_each(&rt, new_fourth(&rt));
    assert!(rt; recorded(&rt, &first) == 1);
    assert!(rt; recorded(&rt, &second) == 2);
    assert!(rt; recorded(&rt, &third) == 3);
}

/// The root of before may be one whose successor was torn as it was written, so it is opened; an older one isn't.
#[test]
fn a_root_that_is_lost_is_refused(rt: HostRuntime) {
    let (first, second, third) = after_each(&rt, new_fourth(&rt));
    let new = image_of(&rt, &new_fourth(&rt).into_disk());
    is_refused(&rt, with_root_of(&rt, &third, &first), true, 27, 1);
    is_refused(&rt, with_root_of(&rt, &third, &new), true, 27, 2);
    is_refused(&rt, with_root_of(&rt, &second, &new), true, 27, 3);
    holds(&rt, with_root_of(&rt, &third, &second), AS_OF_TWO);
    holds(&rt, with_root_of(&rt, &second, &first), AS_OF_ONE);
}

const AS_OF_ONE: &str = "opened > (1, 1)
get 10 > Found(Bytes { block: [97] })
get 11 > Absent";

const AS_OF_TWO: &str = "opened > (2, 2)
get 10 > Found(Bytes { block: [97] })
get 11 > Found(Bytes { block: [98] })
get 12 > Absent";

/// In format 2 nothing is recorded, and any root of before is opened.
#[test]
fn up_to_format_2_an_older_root_is_opened(rt: HostRuntime) {
    let (first, _, third) = after_each(&rt, new_core_of(&rt, geometry(&rt, 6, 1), 1000));
    assert!(rt; recorded(&rt, &third) == 0);
    holds(&rt, with_root_of(&rt, &third, &first), AS_OF_ONE);
}

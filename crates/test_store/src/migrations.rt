//! A store of which page 0 is of the first format: it is opened as one section, and goes over to sections with the next
//! version of its superblock that is written.
use crate::crashes::{Round, crashes};
use crate::damage::{disk_of, image_of, page, set_page};
use crate::machines::{disk_of_a_put, let_go, opened, play};
use crate::superblocks::{first_format_page, one_section_page};
use cs_disk::{CrashDisk, MemoryDisk, PageDisk};
use std::process::Abort;

/// The disk of a store with one put as it was written before superblocks had sections.
pub fn first_format_disk(rt: &(impl Abort + AllocGlobal)) -> MemoryDisk {
    let mut disk = disk_of_a_put(rt);
    set_page(rt, &mut disk, 0, &first_format_page(rt));
    disk.flush().expect(rt, "a flush");
    disk
}

/// Its bytes.
fn first_format_image(rt: &(impl Abort + AllocGlobal)) -> Vec<u8> {
    image_of(rt, &first_format_disk(rt))
}

/// Does what a script says on the store with these bytes, and gives the disk.
fn plays_on(rt: &(impl Abort + AllocGlobal), image: &[u8], script: &str) -> MemoryDisk {
    let mut core = opened(rt, disk_of(rt, image), 1000);
    play(rt, &mut core, script);
    core.into_disk()
}

/// What the store has when it is opened.
const HOLDS: &str = "opened > (1, 1)
get 10 > Found(Bytes { block: [97] })
accepted > 0
kept > 0";

#[test]
fn opening_writes_nothing(rt: HostRuntime) {
    let image = first_format_image(&rt);
    assert!(rt; image.len() == 57_344);
    let disk = plays_on(&rt, image.as_slice(), HOLDS);
    assert!(rt; disk.volatile() == 0);
    assert!(rt; disk.image() == image.as_slice());
}

/// Another put under the same identifier, and a root over it.
const PUT: &str = "put 10 98 > Accepted(1)
stage > Staged(3)";

/// The rounds of that put, which is persistent then.
const ROUNDS: &str =
    "plan > [[Plain(1), Plain(2)], [Version(0, 5)], [Version(1, 3)]] [Plain(1), Version(0, 5), Version(1, 3)]
written > 1
settle 1 > Persistent";

/// What the store has when it is opened after that.
const HOLDS_BOTH: &str = "opened > (2, 1)
get 10 > Found(Bytes { block: [98] })";

/// Asserts that page 0 of a disk is that of one section.
fn is_one_section(rt: &impl Abort, disk: &mut MemoryDisk) {
    let found = page(rt, disk, 0);
    assert!(rt; found == one_section_page(rt));
}

#[test]
fn the_next_version_is_a_section(rt: HostRuntime) {
    let mut core = opened(&rt, first_format_disk(&rt), 1000);
    play(&rt, &mut core, PUT);
    play(&rt, &mut core, ROUNDS);
    let mut disk = core.into_disk();
    is_one_section(&rt, &mut disk);
    let mut core = opened(&rt, disk, 1000);
    play(&rt, &mut core, HOLDS_BOTH);
    let_go(core);
}

/// What a crash leaves before the section is kept, ..
const BEFORE: &str = "CSS1
opened > (1, 1)
get 10 > Found(Bytes { block: [97] })";

/// .. before the root is, ..
const BETWEEN: &str = "CSS2
opened > (1, 1)
get 10 > Found(Bytes { block: [97] })";

/// .. and behind it.
const BEHIND: &str = "CSS2
opened > (2, 1)
get 10 > Found(Bytes { block: [98] })";

/// Whatever of its first rounds is kept, the store is opened as before them or as after them.
#[test]
fn crashes_of_the_first_sync(rt: HostRuntime) {
    let rounds = [
        Round {
            size: 2,
            part: BEFORE,
            all: BEFORE,
        },
        Round {
            size: 1,
            part: BEFORE,
            all: BETWEEN,
        },
        Round {
            size: 1,
            part: BETWEEN,
            all: BEHIND,
        },
    ];
    crashes(&rt, first_format_image(&rt).as_slice(), &[PUT], &rounds);
}

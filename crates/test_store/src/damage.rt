//! The image of one put, each of its bytes damaged in turn, and cut.
use crate::frames::expected;
use crate::machines::{answer, disk_of_a_put, opened};
use crate::migrations::first_format_disk;
use crate::stores::id;
use crate::superblocks::{FIRST_FORMAT_FAULTS, ONE_SECTION_FAULTS};
use cs_core::{Core, Event, Limits, Reply};
use cs_disk::{MemoryDisk, PageDisk};
use std::alloc::Global;
use std::process::Abort;

/// A page of a disk.
pub fn page(rt: &impl Abort, disk: &mut MemoryDisk, number: u64) -> [u8; 4096] {
    let mut bytes = [0; 4096];
    assert!(rt; number < disk.pages());
    disk.read(number, &mut bytes).expect(rt, "a read");
    bytes
}

/// Gives a page of a disk these bytes.
pub fn set_page(rt: &impl Abort, disk: &mut MemoryDisk, number: u64, bytes: &[u8; 4096]) {
    assert!(rt; number < disk.pages());
    disk.write(number, bytes).expect(rt, "a write");
}

/// Why a disk isn't opened, 0 where it is, and the disk.
pub fn why_not_opened(alloc: Global, disk: MemoryDisk) -> (u8, MemoryDisk) {
    match Core::open(alloc, disk, Limits { history: 1000 }) {
        Ok(core) => (0, core.into_disk()),
        Err((refusal, disk)) => (refusal.number(), disk),
    }
}

/// The number of the refusal that an answer is, 0 where it is none.
fn number_of(reply: Reply) -> u8 {
    match reply {
        Reply::Refused(refusal) => refusal.number(),
        _ => 0,
    }
}

/// Why the shard of a disk that is opened isn't got, 0 where it is, and the disk.
fn why_not_got(rt: &(impl Abort + AllocGlobal), disk: MemoryDisk) -> (u8, MemoryDisk) {
    let mut core = opened(rt, disk, 1000);
    let number = number_of(answer(rt, &mut core, &Event::Get(id(10))));
    (number, core.into_disk())
}

/// Asserts why a disk isn't opened, or why its shard isn't got, 0 for one that is, and gives the disk back.
pub fn is_refused(
    rt: &(impl Abort + AllocGlobal),
    disk: MemoryDisk,
    opens: bool,
    wanted: u8,
    at: usize,
) -> MemoryDisk {
    let (found, same) = if opens {
        why_not_opened(rt.alloc(), disk)
    } else {
        why_not_got(rt, disk)
    };
    assert_eq!(rt; found, wanted, "at {at}");
    same
}

/// Asserts why a disk isn't opened, or why its shard isn't got, where the lowest bit of one byte of this page is
/// turned, byte by byte.
pub fn damaged(
    rt: &(impl Abort + AllocGlobal),
    mut disk: MemoryDisk,
    number: u64,
    opens: bool,
    table: &[(usize, u8)],
) {
    let mut bytes = page(rt, &mut disk, number);
    for i in 0..4096 {
        bytes[i] ^= 1;
        set_page(rt, &mut disk, number, &bytes);
        disk = is_refused(rt, disk, opens, expected(table, i), i);
        bytes[i] ^= 1;
    }
}

/// Superblock, root, the put's frame and its run's are on pages 0 to 3 of a disk with one put.
fn damaged_put(rt: &(impl Abort + AllocGlobal), number: u64, opens: bool, table: &[(usize, u8)]) {
    damaged(rt, disk_of_a_put(rt), number, opens, table);
}

#[test]
fn a_damaged_superblock(rt: HostRuntime) {
    damaged_put(&rt, 0, true, &ONE_SECTION_FAULTS);
}

#[test]
fn a_damaged_superblock_of_the_first_format(rt: HostRuntime) {
    damaged(&rt, first_format_disk(&rt), 0, true, &FIRST_FORMAT_FAULTS);
}

#[test]
fn a_damaged_root(rt: HostRuntime) {
    damaged_put(&rt, 1, true, &[(3, 20), (4, 24), (61, 21), (4096, 23)]);
}

#[test]
fn a_damaged_run(rt: HostRuntime) {
    let table = [(3, 20), (5, 24), (7, 22), (126, 21), (4096, 23)];
    damaged_put(&rt, 3, true, &table);
}

/// The bytes of a shard are read when it is asked for.
#[test]
fn a_damaged_shard(rt: HostRuntime) {
    let table = [(3, 20), (5, 24), (7, 22), (42, 21), (4096, 23)];
    damaged_put(&rt, 2, false, &table);
}

/// No page behind these is looked at.
#[test]
fn other_pages(rt: HostRuntime) {
    let mut disk = disk_of_a_put(&rt);
    for number in 4..14 {
        set_page(&rt, &mut disk, number, &[1; 4096]);
    }
    is_refused(&rt, disk, false, 0, 0);
}

/// Asserts whether an image is opened where it is cut to so many pages. The superblock says 14.
fn opens_with(rt: &(impl Abort + AllocGlobal), image: &[u8], pages: usize) {
    let disk = disk_of(rt, image);
    let wanted = if pages == 14 { 0 } else { 43 };
    is_refused(rt, disk, true, wanted, pages);
}

/// The bytes of a disk.
pub fn image_of(rt: &(impl Abort + AllocGlobal), disk: &MemoryDisk) -> Vec<u8> {
    Vec::from_slice(rt.alloc(), disk.image()).expect(rt, "memory")
}

/// The disk with these bytes.
pub fn disk_of(rt: &(impl Abort + AllocGlobal), image: &[u8]) -> MemoryDisk {
    let bytes = Vec::from_slice(rt.alloc(), image).expect(rt, "memory");
    MemoryDisk::of_image(rt.alloc(), bytes).expect(rt, "a disk")
}

/// A disk is as long as its superblock says.
#[test]
fn other_lengths(rt: HostRuntime) {
    let mut bytes = image_of(&rt, &disk_of_a_put(&rt));
    bytes.resize(15 * 4096, 0).expect(&rt, "memory");
    for pages in (0..16).rev() {
        bytes.truncate(pages * 4096);
        opens_with(&rt, bytes.as_slice(), pages);
    }
}

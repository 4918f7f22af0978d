//! A store whose superblock is of the first format, as it is opened and written on.
use super::damage::opened;
use super::{core_after, disk_after, end_of, printed, script_text};
use cs_disk::MemoryDisk;
use std::process::Abort;
use std::test::{Fail, *};

/// How page 0 begins in the first format after one put and a sync on 6 extents of 2 pages; zeros follow. The digest is
/// that which sha256sum makes.
const FIRST_FORMAT: &[u8] =
    b"CSS1\0\0\0\0\0\0\0\x03\0\x06\0\x02\0\x02\0\0\0\0\0\0\0\0\0\0\0\0\0\0\0\0\0\0\0\0\0\0\0\0\0\0\0\0\0\0\0\0\0\0\x1f\xe2\xc4\xcb\x0b\x99\x98\x63\xd2\xe2\x83\xe9\x16\xcc\x8d\x8e\x2a\xfd\x79\x34\xc7\xfe\xb1\xcf\x30\x27\xd1\xa7\x95\x6d\xbe\xef\0\0";

/// How page 0 begins once another put was synced.
const SECOND_FORMAT: &[u8] =
    b"CSS2\0\0\0\0\0\0\0\x05\0\x06\0\x02\x01\0\0\x02\0\0\0\0\0\x02\0\0\0\0";

/// A disk that was written in the first format, with one put.
fn disk(rt: &(impl Abort + AllocGlobal)) -> Result<MemoryDisk, Fail> {
    let text = script_text(rt.alloc(), "put @a 61 / sync")?;
    let disk = disk_after(rt, 6, &text)?;
    let mut image = Vec::from_slice(rt.alloc(), disk.image())?;
    for (at, byte) in FIRST_FORMAT.iter().enumerate() {
        assert!(rt; at < image.len());
        image[at] = *byte;
    }
    Ok(MemoryDisk::of_image(rt.alloc(), image)?)
}

/// Asserts what a script prints over the store on that disk, and how page 0 begins then.
fn goes_on(
    rt: &(impl Abort + AllocGlobal),
    script: &str,
    lines: &str,
    begins: &[u8],
) -> Result<(), Fail> {
    let alloc = rt.alloc();
    let text = script_text(alloc, script)?;
    let wanted = printed(alloc, lines)?;
    end_of(alloc, opened(rt, disk(rt)?), &text).printed(rt, &wanted, 0, script);
    let left = core_after(rt, opened(rt, disk(rt)?), &text).into_disk();
    assert!(rt; left.image().starts_with(begins), "{script}");
    Ok(())
}

/// To open it writes nothing, and is a store of one section.
#[test]
fn the_first_format_is_opened(rt: HostRuntime) -> Result<(), Fail> {
    goes_on(
        &rt,
        "crash - / get @a / sync",
        "crash kept 0 of 0 / open commands 1 shards 1 / value 61 / chain: - / flushes 0 / acknowledged 0",
        FIRST_FORMAT,
    )
}

/// The next version of the superblock is of the second format.
#[test]
fn the_second_format_is_written(rt: HostRuntime) -> Result<(), Fail> {
    goes_on(
        &rt,
        "put @a 62 / sync / crash - / get @a",
        "put 1 / round 1: [w1, w2] / round 2: [s5] / round 3: [r3] / chain: [w1, s5, r3] / flushes 3 / acknowledged 1 / crash kept 0 of 0 / open commands 2 shards 1 / value 62",
        SECOND_FORMAT,
    )
}

/// A crash that loses that version leaves the first format, and one that keeps it the second; the root is the one
/// before in either.
#[test]
fn a_crash_beside_the_first_version(rt: HostRuntime) -> Result<(), Fail> {
    for (digit, begins) in [("0", b"CSS1"), ("1", b"CSS2")] {
        let alloc = rt.alloc();
        let script = format!(in alloc;
            "put @a 62 / plan / step / step / step / step / step / step / crash {digit} / get @a"
        )?;
        let lines = format!(in alloc;
            "put 1 / round 1: [w1, w2] / round 2: [s5] / round 3: [r3] / chain: [w1, s5, r3] / flushes 3 / begin: [w1, w2] / issue [w1] page 4 / issue [w2] page 5 / end acknowledged 0 / begin: [s5] / issue [s5] page 0 / crash kept {digit} of 1 / open commands 1 shards 1 / value 61"
        )?;
        goes_on(&rt, &script, &lines, begins.as_slice())?;
    }
    Ok(())
}

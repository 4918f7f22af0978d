//! What stands on the device's pages.
use super::{core_after, disk_after, new_core_of, script_text};
use cs_frame::Geometry;
use std::process::Abort;
use std::test::Fail;

/// Asserts that an image has these bytes from a place on.
fn stands(rt: &impl Abort, image: &[u8], from: usize, bytes: &[u8]) {
    assert!(rt; from <= image.len(), "{from}");
    assert!(rt; image[from..].starts_with(bytes), "{from}");
}

/// Asserts that an image has so many zeros from a place on.
fn has_zeros(rt: &impl Abort, image: &[u8], from: usize, count: usize) {
    assert!(rt; from <= image.len(), "{from}");
    assert!(rt;
        image[from..].iter().take_while(|byte| **byte == 0).count() >= count,
        "{from}"
    );
}

/// How the pages begin after one put and a sync. The digests are those that sha256sum makes.
const SUPERBLOCK: &[u8] = b"CSS2\0\0\0\0\0\0\0\x03\0\x06\0\x02\x01\0\0\x02\0\0\0\0";

const SUPERBLOCK_DIGEST: &[u8] =
    b"\xd1\xcc\x92\xff\x98\xdf\xe8\x6e\xb6\x52\x6f\xdf\xe6\xdd\x1c\x3e";

const ROOT: &[u8] = b"CSR1\0\0\0\0\0\0\0\x02\0\0\0\0\0\0\0\x01\x01\0\0\0\x01\0\0\0\0";

const ROOT_DIGEST: &[u8] = b"\xad\xc0\x11\xf4\xa1\x2b\x76\x64\xbe\x5d\xf6\x5e\xbc\xc3\xec\x5f";

const CHUNK: &[u8] = b"CSF1\0\0\0\0\x01\xca\x97\x81\x12\xca\x1b\xbd\xca";

const RUN: &[u8] = b"CSF1\x01\0\0\0\x55\x08\xe3\x07\xea\x1b\xcb\x07\x73";

const ENTRY: &[u8] = b"\0\0\0\x01\0\0\0\0\0\0\0\0\0\0\0\0\0\0\0\x0a\x01";

/// What stands on the pages, and from where on.
const PIECES: &[(usize, &[u8])] = &[
    (0, SUPERBLOCK),
    (54, SUPERBLOCK_DIGEST),
    (4096, ROOT),
    (4125, ROOT_DIGEST),
    (8192, CHUNK),
    (8233, b"\x61\0"),
    (12288, RUN),
    (12329, ENTRY),
];

/// From where on there are zeros, and how many.
const ZEROS: &[(usize, usize)] = &[(24, 30), (86, 4010), (12350, 64), (16384, 4096)];

#[test]
fn pages(rt: HostRuntime) -> Result<(), Fail> {
    let text = script_text(rt.alloc(), "put @a 61 / sync")?;
    let disk = disk_after(&rt, 6, &text)?;
    assert!(rt; disk.image().len() == 14 * 4096);
    for (from, bytes) in PIECES {
        stands(&rt, disk.image(), *from, bytes);
    }
    for (from, count) in ZEROS {
        has_zeros(&rt, disk.image(), *from, *count);
    }
    Ok(())
}

/// The pages of two sections after seven puts, which fill all extents of the first, and a sync: page 0, and the one
/// behind the extents.
const SECTIONS: &[(usize, &[u8])] = &[
    (
        0,
        b"CSS2\0\0\0\0\0\0\0\x07\0\x06\0\x02\x02\0\0\x02\0\0\0\0\0\x02\0\0\0\0\0\x02\0\0\0\0\x21\xca\x76\xb7\x83\x8a\xad\xe3",
    ),
    (
        57344,
        b"CSS2\0\0\0\0\0\0\0\x03\0\x06\0\x02\x02\x01\0\x02\0\0\0\0\0\0\0\0\0\0\0\0\0\0\0\0\xa5\x2c\x7f\xbf\x46\x5d\xa0\x0f",
    ),
];

#[test]
fn pages_of_sections(rt: HostRuntime) -> Result<(), Fail> {
    let text = script_text(
        rt.alloc(),
        "put @a 61 / put @b 62 / put @c 63 / put @d 64 / put @e 65 / put @f 66 / put @0 67 / sync",
    )?;
    let core = new_core_of(&rt, Geometry::with_sections(6, 2, 2)?, 1000)?;
    let disk = core_after(&rt, core, &text).into_disk();
    assert!(rt; disk.image().len() == 15 * 4096);
    for (from, bytes) in SECTIONS {
        stands(&rt, disk.image(), *from, bytes);
    }
    has_zeros(&rt, disk.image(), 57344 + 68, 4028);
    Ok(())
}

/// Asserts what stands on the root's page behind its commands, with so many extents of 2 pages.
fn leaves(
    rt: &(impl Abort + AllocGlobal),
    extents: u64,
    script: &str,
    runs: &[u8],
) -> Result<(), Fail> {
    let text = script_text(rt.alloc(), script)?;
    let disk = disk_after(rt, extents, &text)?;
    stands(rt, disk.image(), 4116, runs);
    Ok(())
}

/// The fifth run is of all that is live.
#[test]
fn merges(rt: HostRuntime) -> Result<(), Fail> {
    leaves(
        &rt,
        12,
        "put @a 01 / sync / put @a 02 / sync / put @a 03 / sync / put @a 04 / sync / put @a 05 / sync",
        b"\x01\0\x04\0\x01\0\0\0\0",
    )
}

/// And of nothing where nothing is live.
#[test]
fn merges_of_nothing(rt: HostRuntime) -> Result<(), Fail> {
    leaves(
        &rt,
        6,
        "put @a 01 / sync / del @a / sync / put @a 02 / sync / del @a / sync / put @a 03 / del @a / sync",
        b"\0",
    )
}

//! Stores of which a page of the root was torn by hand. An opening passes the page over. Until it is
//! fenced nothing is written to a pair.
use super::{end_of, printed, script_text};
use cs_disk::MemoryDisk;
use cs_frame::{Geometry, ShardId, StoreId};
use cs_store::OpenOptions;
use cs_store::mount::the_core::Core;
use cs_store::mount::{Finding, MountOptions, Mounted, fence};
use std::process::Abort;
use std::test::{Fail, *};

/// The page of the root that is torn.
const TORN: u64 = 1;

/// The disk of a new store of 6 extents of 2 pages, with a byte of that page turned.
fn torn_disk(rt: &(impl Abort + AllocGlobal)) -> Result<MemoryDisk, Fail> {
    let alloc = rt.alloc();
    let geometry = Geometry::for_file(StoreId([0; 16]), 6, 2, None)?;
    match MountOptions::new(alloc).create_in_memory(geometry) {
        Ok(core) => {
            let disk = core.into_disk().into_disk();
            let mut image = Vec::from_slice(alloc, disk.image())?;
            assert!(rt; image.len() == 16 * 4096);
            image[4096 + 20] ^= 1;
            Ok(MemoryDisk::of_image(alloc, image)?)
        }
        Err(refusal) => panic!(rt; "{}", refusal.name()),
    }
}

/// The first page that was passed over.
fn passed_over(findings: &[Finding]) -> Option<u64> {
    for finding in findings {
        if let Some(page) = finding.passed_over() {
            return Some(page);
        }
    }
    None
}

/// The store on a disk, and the page that was passed over.
fn opened(
    rt: &(impl Abort + AllocGlobal),
    disk: MemoryDisk,
) -> (Core<Mounted<MemoryDisk>>, Option<u64>) {
    match MountOptions::new(rt.alloc()).open(disk) {
        Ok((core, findings)) => {
            let passed = passed_over(&findings);
            (core, passed)
        }
        Err((refusal, _)) => panic!(rt; "{}", refusal.name()),
    }
}

/// The disk of a store whose torn page was fenced.
fn fenced(rt: &impl Abort, core: Core<Mounted<MemoryDisk>>) -> MemoryDisk {
    match fence(core) {
        Ok(disk) => disk.into_disk(),
        Err((refusal, _)) => panic!(rt; "{}", refusal.name()),
    }
}

/// Asserts what a put and a sync print over a store.
fn prints_sync(
    rt: &(impl Abort + AllocGlobal),
    core: Core<Mounted<MemoryDisk>>,
    lines: &str,
) -> Result<(), Fail> {
    let alloc = rt.alloc();
    let text = script_text(alloc, "put @a 61 / sync")?;
    end_of(alloc, core, &text).printed(rt, &printed(alloc, lines)?, 0, lines);
    Ok(())
}

/// The page is filled with bytes of 255 and isn't passed over any more, and the store goes on.
#[test]
fn a_torn_page_is_fenced(rt: HostRuntime) -> Result<(), Fail> {
    let (core, passed) = opened(&rt, torn_disk(&rt)?);
    assert!(&rt; passed == Some(TORN));
    let disk = fenced(&rt, core);
    assert!(&rt; disk.image().len() == 16 * 4096);
    let page = &disk.image()[4096..8192];
    assert!(&rt; page.iter().all(|byte| *byte == 255));
    let (core, passed) = opened(&rt, disk);
    assert!(&rt; passed.is_none());
    prints_sync(
        &rt,
        core,
        "put 1 / round 1: [w1, w2, s3] / round 2: [r2] / chain: [w1, r2] / flushes 2 / acknowledged 1",
    )
}

/// Without a fence the first write to a pair is refused.
#[test]
fn no_pair_is_written_before_the_fence(rt: HostRuntime) -> Result<(), Fail> {
    let (core, passed) = opened(&rt, torn_disk(&rt)?);
    assert!(&rt; passed == Some(TORN));
    prints_sync(&rt, core, "put 1 / refused 1 DeviceFault")
}

/// A typed store that is opened for writing is fenced by that.
#[test]
fn an_opening_for_writing_fences(rt: HostRuntime) -> Result<(), Fail> {
    match OpenOptions::new(rt.alloc()).open_to_write(torn_disk(&rt)?) {
        Ok((mut store, findings, lost)) => {
            assert!(&rt; lost.is_empty());
            assert!(&rt; passed_over(&findings) == Some(TORN));
            assert!(&rt; store.put(ShardId([1; 16]), b"a rope").is_ok());
            assert!(&rt; store.sync().is_ok());
        }
        Err((refusal, _)) => panic!(&rt; "{}", refusal.name()),
    }
    Ok(())
}

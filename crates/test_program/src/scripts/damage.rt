//! Images of which the lowest bit of one byte is turned.
use super::{disk_after, end_of, printed, script_text};
use cs_disk::{MemoryDisk, PageDisk};
use cs_refusal::Refusal;
use cs_store::mount::the_core::{Core, Limits};
use std::alloc::Global;
use std::process::Abort;
use std::test::{Fail, *};

/// The image of one put and a sync: superblock, root, the put's frame and its run's on pages 0 to 3.
fn image(rt: &(impl Abort + AllocGlobal)) -> Result<Vec<u8>, Fail> {
    let text = script_text(rt.alloc(), "put @a 61 / sync")?;
    let disk = disk_after(rt, 6, &text)?;
    Ok(Vec::from_slice(rt.alloc(), disk.image())?)
}

/// A disk with this image but for the lowest bit of one byte.
fn damaged(rt: &(impl Abort + AllocGlobal), image: &[u8], at: usize) -> Result<MemoryDisk, Fail> {
    let alloc = rt.alloc();
    let mut bytes = Vec::from_slice(alloc, image)?;
    assert!(rt; at < bytes.len());
    bytes[at] ^= 1;
    Ok(MemoryDisk::of_image(alloc, bytes)?)
}

/// Why a disk isn't opened.
pub fn why_not_opened<D: PageDisk + Drop>(alloc: Global, disk: D) -> Option<Refusal> {
    match Core::open(alloc, disk, Limits { history: 1000 }) {
        Ok(_) => None,
        Err((refusal, _)) => Some(refusal),
    }
}

#[test]
fn a_damaged_superblock(rt: HostRuntime) -> Result<(), Fail> {
    let image = image(&rt)?;
    let refusal = why_not_opened(rt.alloc(), damaged(&rt, &image, 21)?);
    assert!(rt; refusal == Some(Refusal::BadDigest));
    Ok(())
}

/// The store on a disk.
pub fn opened(rt: &(impl Abort + AllocGlobal), disk: MemoryDisk) -> Core<MemoryDisk> {
    match Core::open(rt.alloc(), disk, Limits { history: 1000 }) {
        Ok(core) => core,
        Err((refusal, _)) => panic!(rt; "{}", refusal.name()),
    }
}

/// Asserts what a script prints on a disk whose shard is damaged in its first byte.
fn prints_over_a_damaged_shard(
    rt: &(impl Abort + AllocGlobal),
    script: &str,
    lines: &str,
) -> Result<(), Fail> {
    let alloc = rt.alloc();
    let text = script_text(alloc, script)?;
    let wanted = printed(alloc, lines)?;
    let disk = damaged(rt, &image(rt)?, 2 * 4096 + 41)?;
    end_of(alloc, opened(rt, disk), &text).printed(rt, &wanted, 0, script);
    Ok(())
}

/// The bytes of a shard are read when it is asked for.
#[test]
fn a_damaged_shard(rt: HostRuntime) -> Result<(), Fail> {
    prints_over_a_damaged_shard(&rt, "get @a", "refused 21 BadDigest")
}

/// A sweep that can't move a shard is abandoned, and the store goes on: also on another extent.
#[test]
fn a_sweep_over_a_damaged_shard(rt: HostRuntime) -> Result<(), Fail> {
    prints_over_a_damaged_shard(
        &rt,
        "sweep 0 / put @b 62 / get @b",
        "refused 21 BadDigest / put 1 / value 62",
    )?;
    prints_over_a_damaged_shard(
        &rt,
        "sweep 0 / put @a 63 / sweep 0 / sync / crash - / get @a",
        "refused 21 BadDigest / put 1 / sweep 0 moved 0 root [r3] / round 1: [w1, w2] / round 2: [s5] / round 3: [r3] / chain: [w1, s5, r3] / flushes 3 / acknowledged 1 / crash kept 0 of 0 / open commands 2 shards 1 / value 63",
    )
}

/// A disk with the first bytes of this image, so many.
fn shortened(
    rt: &(impl Abort + AllocGlobal),
    image: &[u8],
    length: usize,
) -> Result<MemoryDisk, Fail> {
    let bytes = image.get(..length).expect(rt, "so many bytes");
    Ok(MemoryDisk::of_image(rt.alloc(), Vec::from_slice(rt.alloc(), bytes)?)?)
}

/// A disk of which the last page is cut off.
#[test]
fn a_shorter_disk(rt: HostRuntime) -> Result<(), Fail> {
    let image = image(&rt)?;
    let refusal = why_not_opened(rt.alloc(), shortened(&rt, &image, 13 * 4096)?);
    assert!(rt; refusal == Some(Refusal::NotAStore));
    Ok(())
}

//! The heads of chunks on a device.
use crate::damage::page;
use crate::frames::decoded;
use crate::lost_roots::new_fourth;
use crate::machines::{answer, opened, play};
use crate::stores::{STORE, id};
use crate::texts::prints;
use cs_core::{Bytes, Core, Event, Reply};
use cs_disk::{MemoryDisk, PageDisk};
use cs_frame::{Format, FormatNumber, FrameKind, chunk_body, decode_head};
use std::process::Abort;

/// Puts a shard of so many bytes.
fn put_bytes<D: PageDisk>(rt: &(impl Abort + AllocGlobal), core: &mut Core<D>, count: usize) {
    let bytes = vec![in rt.alloc(); 98; count].expect(rt, "memory");
    let bytes = Bytes::new(rt.alloc(), bytes).expect(rt, "bytes");
    let reply = answer(rt, core, &Event::Put(id(11), bytes));
    assert!(rt; matches!(reply, Reply::Accepted(2)));
}

/// The disk of a store with a shard of one byte, and one of so many bytes.
fn disk_with(rt: &(impl Abort + AllocGlobal), count: usize) -> MemoryDisk {
    let mut core = new_fourth(rt);
    play(rt, &mut core, "put 10 97 > Accepted(1)");
    put_bytes(rt, &mut core, count);
    play(rt, &mut core, "stage > Staged(2)");
    play(rt, &mut core, "written > 2");
    core.into_disk()
}

/// Asserts what the chunk whose frame lies on these pages of a disk says of itself, and how many bytes of the shard it
/// has.
fn says(
    rt: &(impl Abort + AllocGlobal),
    disk: &mut MemoryDisk,
    numbers: &[u64],
    wanted: &str,
    bytes: usize,
) {
    let mut pages = Vec::new(rt.alloc());
    for number in numbers {
        pages.push(page(rt, disk, *number)).expect(rt, "memory");
    }
    let payload = decoded(rt, FormatNumber::Four, FrameKind::Chunk, &pages).expect(rt, "a chunk");
    prints(rt, &decode_head(&payload), wanted);
    assert!(rt; chunk_body(Format::four(STORE, 16), &payload).len() == bytes);
}

/// Each chunk says whose it is, its number, how many there are, and which command put it. The first of two pieces is as
/// long as may be: pieces of one length would take more pages.
#[test]
fn chunks_say_whose_they_are(rt: HostRuntime) {
    let mut disk = disk_with(&rt, 12100);
    says(&rt, &mut disk, &[2], FIRST, 1);
    says(&rt, &mut disk, &[4, 5], FIRST_OF_TWO, 8117);
    says(&rt, &mut disk, &[3], SECOND_OF_TWO, 3983);
}

/// A byte more than a chunk may have is cut in three pieces of one length, and each chunk has a page.
#[test]
fn a_shard_is_cut_in_pieces_of_one_length(rt: HostRuntime) {
    let mut disk = disk_with(&rt, 8118);
    says(&rt, &mut disk, &[3], FIRST_OF_THREE, 2706);
    says(&rt, &mut disk, &[4], SECOND_OF_THREE, 2706);
    says(&rt, &mut disk, &[5], THIRD_OF_THREE, 2706);
}

const FIRST: &str =
    "Some(FoundHead { head: ChunkHead { id: ShardId([0, 0, 0, 0, 0, 0, 0, 0, 0, 0, 0, 0, 0, 0, 0, 10]), number: 0, count: 1, command: 1 }, store: [0, 1, 2, 3, 4, 5, 6, 7] })";

const FIRST_OF_TWO: &str =
    "Some(FoundHead { head: ChunkHead { id: ShardId([0, 0, 0, 0, 0, 0, 0, 0, 0, 0, 0, 0, 0, 0, 0, 11]), number: 0, count: 2, command: 2 }, store: [0, 1, 2, 3, 4, 5, 6, 7] })";

const SECOND_OF_TWO: &str =
    "Some(FoundHead { head: ChunkHead { id: ShardId([0, 0, 0, 0, 0, 0, 0, 0, 0, 0, 0, 0, 0, 0, 0, 11]), number: 1, count: 2, command: 2 }, store: [0, 1, 2, 3, 4, 5, 6, 7] })";

const FIRST_OF_THREE: &str =
    "Some(FoundHead { head: ChunkHead { id: ShardId([0, 0, 0, 0, 0, 0, 0, 0, 0, 0, 0, 0, 0, 0, 0, 11]), number: 0, count: 3, command: 2 }, store: [0, 1, 2, 3, 4, 5, 6, 7] })";

const SECOND_OF_THREE: &str =
    "Some(FoundHead { head: ChunkHead { id: ShardId([0, 0, 0, 0, 0, 0, 0, 0, 0, 0, 0, 0, 0, 0, 0, 11]), number: 1, count: 3, command: 2 }, store: [0, 1, 2, 3, 4, 5, 6, 7] })";

const THIRD_OF_THREE: &str =
    "Some(FoundHead { head: ChunkHead { id: ShardId([0, 0, 0, 0, 0, 0, 0, 0, 0, 0, 0, 0, 0, 0, 0, 11]), number: 2, count: 3, command: 2 }, store: [0, 1, 2, 3, 4, 5, 6, 7] })";

/// Two puts that are made persistent.
const TWO: &str = "put 10 97 > Accepted(1)
put 11 98 > Accepted(2)
stage > Staged(2)
written > 2";

/// The third one in a store that was opened anew, and a sweep of the extent of the first two.
const THIRD: &str = "put 12 99 > Accepted(1)
sweep 0 > Sweeping
move 0 > Moved(ShardId([0, 0, 0, 0, 0, 0, 0, 0, 0, 0, 0, 0, 0, 0, 0, 10]), 0)
move 0 > Moved(ShardId([0, 0, 0, 0, 0, 0, 0, 0, 0, 0, 0, 0, 0, 0, 0, 11]), 0)
move 0 > NoneLive
retire 0 > Retired(3)
written > 1";

/// Commands are counted on behind those that the root counts, and the copy that a sweep makes has the head of what it
/// copies.
#[test]
fn copies_have_their_heads(rt: HostRuntime) {
    let mut core = new_fourth(&rt);
    play(&rt, &mut core, TWO);
    let mut core = opened(&rt, core.into_disk(), 1000);
    play(&rt, &mut core, THIRD);
    let mut disk = core.into_disk();
    says(&rt, &mut disk, &[6], OF_THIRD, 1);
    says(&rt, &mut disk, &[7], FIRST, 1);
}

const OF_THIRD: &str =
    "Some(FoundHead { head: ChunkHead { id: ShardId([0, 0, 0, 0, 0, 0, 0, 0, 0, 0, 0, 0, 0, 0, 0, 12]), number: 0, count: 1, command: 3 }, store: [0, 1, 2, 3, 4, 5, 6, 7] })";

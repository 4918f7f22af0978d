//! Puts and reads of shards, each public function once.
ghost use Rattle.std.specs.Prelude.{◌<◌};
ghost use Rattle.cs_extent.specs.State.{shape};

use crate::stores::{STORE, Store, assert_large, assert_ready, id, new_extents, plays};
use crate::texts::{prints, text_of, words_of};
use cs_chunk::{
    Cut, pages_have_one_newest, put_chunks, read_chunks, read_frame, what_was_put_stays,
};
use cs_disk::{DiskFault, PageDisk, refusal_of_disk};
use cs_extent::Extents;
use cs_frame::{FormatFault, FrameKind, Geometry, Locator, Places, refusal_of_fault};
use cs_refusal::Refusal;
use std::alloc::Global;
use std::process::Abort;

/// Puts bytes under the identifier that ends with this byte, as the command of this number.
pub fn put(
    rt: &impl Abort,
    alloc: Global,
    store: &mut Store,
    (last, command): (u8, u64),
    bytes: &[u8],
) -> Result<Places, Refusal> {
    assert_ready(rt, store);
    put_chunks(
        alloc,
        &mut store.extents,
        &mut store.graph,
        id(last),
        command,
        bytes,
    )
}

/// Asserts that a place lies in the extents.
pub fn assert_inside(rt: &impl Abort, extents: &Extents, place: Locator)
    ensures extent { place.extent < (shape extents.now).extents }
    ensures page { place.page < (shape extents.now).pages }
{
    let count = extents.extent_count();
    assert!(rt; usize::from(place.extent) < count);
    let pages = extents.extent_pages();
    assert!(rt; usize::from(place.page) < pages);
}

/// Reads a shard of one chunk.
fn get<D: PageDisk>(
    rt: &impl Abort,
    alloc: Global,
    store: &Store,
    disk: &mut D,
    place: Locator,
) -> Result<Vec<u8>, Refusal> {
    assert_inside(rt, &store.extents, place);
    assert_large(rt, &store.extents, disk);
    read_chunks(alloc, &store.extents, &store.graph, disk, &[place])
}

/// So many bytes.
fn zeros(rt: &(impl Abort + AllocGlobal), count: usize) -> Vec<u8> {
    vec![in rt.alloc(); 0; count].expect(rt, "memory")
}

/// Reads the frame of a run.
fn get_run<D: PageDisk>(
    rt: &impl Abort,
    alloc: Global,
    store: &Store,
    disk: &mut D,
    place: Locator,
) -> Result<Vec<u8>, Refusal> {
    assert_inside(rt, &store.extents, place);
    assert_large(rt, &store.extents, disk);
    read_frame(
        alloc,
        &store.extents,
        &store.graph,
        disk,
        FrameKind::Run,
        place,
    )
}

/// What comes of the words of a line, as text.
pub fn said<D: PageDisk>(
    rt: &(impl Abort + AllocGlobal),
    store: &mut Store,
    disk: &mut D,
    line: &str,
) -> String {
    let (word, numbers) = words_of(line);
    let alloc = rt.alloc();
    let place = Locator {
        extent: numbers[0],
        page: numbers[1],
        generation: u32::from(numbers[2]),
        mark: 0,
    };
    match word {
        "zeros" => {
            let bytes = zeros(rt, usize::from(numbers[0]));
            text_of(rt, &put(rt, alloc, store, (10, 7), &bytes))
        }
        "three" => text_of(rt, &put(rt, alloc, store, (10, 7), &[7, 8, 9])),
        "get" => text_of(rt, &get(rt, alloc, store, disk, place)),
        "run" => text_of(rt, &get_run(rt, alloc, store, disk, place)),
        _ => text_of(rt, &disk.failures()),
    }
}

#[test]
fn a_chunk_fills_the_frame_of_an_extent(rt: HostRuntime) {
    plays(&rt, 0, FILLS);
}

const FILLS: &str = "chunk zeros 8151 > Ok([Locator { extent: 0, page: 0, generation: 0, mark: 0 }])
plains > 2
chunk zeros 8152 > Ok([Locator { extent: 1, page: 0, generation: 0, mark: 0 }, Locator { extent: 2, page: 0, generation: 0, mark: 0 }])
plains > 5";

/// Asserts how so many bytes are cut on extents of so many pages, in format 2 and in format 4. How many chunks there
/// are, how many bytes each piece but the last has, and the pages of its chunk and of the last one.
fn is_cut(rt: &(impl Abort + AllocGlobal), pages: u64, bytes: usize, wanted: [&str; 2]) {
    let second = Geometry::with_sections(7, pages, 1).expect(rt, "a geometry");
    let fourth = Geometry::for_file(STORE, 7, pages, None).expect(rt, "a geometry");
    let alloc = rt.alloc();
    prints(
        rt,
        &cut_of(&new_extents(rt, alloc, second), bytes),
        wanted[0],
    );
    prints(
        rt,
        &cut_of(&new_extents(rt, alloc, fourth), bytes),
        wanted[1],
    );
}

fn cut_of(extents: &Extents, bytes: usize) -> Option<(usize, usize, usize, usize)> {
    match Cut::of(extents, bytes) {
        Some(cut) => Some((cut.count, cut.size, cut.pages, cut.last)),
        None => None,
    }
}

/// In format 4 a shard is cut evenly, in chunks of an eighth of an extent or in eight. It has one chunk if more would
/// take many more pages.
#[test]
fn pieces_of_a_shard(rt: HostRuntime) {
    is_cut(
        &rt,
        256,
        1048576,
        ["Some((2, 1048535, 256, 1))", "Some((8, 131072, 33, 33))"],
    );
    is_cut(
        &rt,
        16,
        65461,
        ["Some((1, 65495, 16, 16))", "Some((1, 65461, 16, 16))"],
    );
    is_cut(
        &rt,
        16,
        458224,
        ["Some((7, 65495, 16, 16))", "Some((7, 65461, 16, 16))"],
    );
    is_cut(&rt, 2, 0, ["Some((1, 8151, 2, 1))", "Some((1, 1, 1, 1))"]);
}

#[test]
fn too_many_bytes_leave_no_trace(rt: HostRuntime) {
    plays(&rt, 0, TOO_MANY);
}

const TOO_MANY: &str = "chunk zeros 65209 > Err(TooLarge)
chunk zeros 65208 > Err(Full)
plains > 0";

#[test]
fn what_waits_is_read_without_the_device(rt: HostRuntime) {
    plays(&rt, 1, WAITS);
}

const WAITS: &str = "chunk three > Ok([Locator { extent: 0, page: 0, generation: 0, mark: 0 }])
chunk get 0 0 0 > Ok([7, 8, 9])
chunk failures > 0";

#[test]
fn a_header_is_tested_before_the_second_page_is_read(rt: HostRuntime) {
    plays(&rt, 2, HEADER);
}

const HEADER: &str = "chunk get 1 0 0 > Err(BadMagic)
chunk get 1 0 0 > Err(DeviceFault)";

#[test]
fn a_frame_of_another_kind_is_refused(rt: HostRuntime) {
    plays(&rt, 0, ANOTHER_KIND);
}

const ANOTHER_KIND: &str =
    "chunk zeros 0 > Ok([Locator { extent: 0, page: 0, generation: 0, mark: 0 }])
plains > 1
chunk run 0 0 0 > Err(BadVersion)
chunk get 0 0 0 > Ok([])";

#[test]
fn refusals_keep_their_numbers(rt: HostRuntime) {
    assert!(rt; refusal_of_fault(FormatFault::BadDigest) == Refusal::BadDigest);
    assert!(rt; refusal_of_disk(DiskFault::OutOfMemory) == Refusal::OutOfMemory);
    pages_have_one_newest();
    what_was_put_stays();
}

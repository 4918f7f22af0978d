//! The formats of root, frames and runs by their bytes, and by each byte that is damaged.
use crate::texts::{is_said, prints};
use cs_frame::{
    Format as StoreFormat, FormatFault, FormatNumber, FrameKind, Locator, Places, Root, Run,
    ShardId, decode_frame, decode_frame_header, decode_root, decode_run, decode_section,
    decode_superblock, encode_frame, encode_root, encode_run, first_format_has_one_spelling,
    formats_are_apart, frame_has_one_spelling, frame_is_read_by_its_header, frame_pages,
    page_zero_has_one_spelling, root_has_one_spelling, run_has_one_spelling,
    sections_have_all_extents, superblock_has_one_spelling, these_formats_are_formats,
};
use std::process::Abort;

// The expected pages are from the layouts, with digests by sha256sum.

const FORMAT_ROOT: [u8; 53] = [
    0x43, 0x53, 0x52, 0x31, 0x00, 0x00, 0x00, 0x00, 0x00, 0x00, 0x00, 0x01, 0x00, 0x00, 0x00, 0x00,
    0x00, 0x00, 0x00, 0x00, 0x00, 0xa7, 0x03, 0x2c, 0xf5, 0xea, 0xe3, 0x80, 0x27, 0x5d, 0x1c, 0x5e,
    0xda, 0xd4, 0xc2, 0x3a, 0x42, 0x0d, 0x94, 0x47, 0x65, 0x34, 0xb0, 0xd1, 0x36, 0xfd, 0x7d, 0x48,
    0x78, 0x3f, 0x19, 0x5b, 0xf3,
];

const ROOT: [u8; 61] = [
    0x43, 0x53, 0x52, 0x31, 0x00, 0x00, 0x00, 0x00, 0x00, 0x00, 0x00, 0x02, 0x00, 0x00, 0x00, 0x00,
    0x00, 0x00, 0x00, 0x01, 0x01, 0x00, 0x00, 0x00, 0x01, 0x00, 0x00, 0x00, 0x00, 0xad, 0xc0, 0x11,
    0xf4, 0xa1, 0x2b, 0x76, 0x64, 0xbe, 0x5d, 0xf6, 0x5e, 0xbc, 0xc3, 0xec, 0x5f, 0x43, 0x83, 0xf9,
    0xe4, 0xa0, 0x25, 0x93, 0xa1, 0xf6, 0xf9, 0x2f, 0xff, 0xb8, 0x8f, 0xe5, 0x70,
];

// A chunk of the byte 61.
const CHUNK: [u8; 42] = [
    0x43, 0x53, 0x46, 0x31, 0x00, 0x00, 0x00, 0x00, 0x01, 0xca, 0x97, 0x81, 0x12, 0xca, 0x1b, 0xbd,
    0xca, 0xfa, 0xc2, 0x31, 0xb3, 0x9a, 0x23, 0xdc, 0x4d, 0xa7, 0x86, 0xef, 0xf8, 0x14, 0x7c, 0x4e,
    0x72, 0xb9, 0x80, 0x77, 0x85, 0xaf, 0xee, 0x48, 0xbb, 0x61,
];

// A run of one identifier.
const RUN: [u8; 126] = [
    0x43, 0x53, 0x46, 0x31, 0x01, 0x00, 0x00, 0x00, 0x55, 0x08, 0xe3, 0x07, 0xea, 0x1b, 0xcb, 0x07,
    0x73, 0xad, 0x46, 0x47, 0x6b, 0x52, 0x05, 0xf9, 0x73, 0x87, 0xca, 0x92, 0xb3, 0x83, 0x0d, 0x16,
    0x0f, 0x48, 0x3f, 0xd2, 0xf4, 0xfa, 0xb0, 0x6b, 0x30, 0x00, 0x00, 0x00, 0x01, 0x00, 0x00, 0x00,
    0x00, 0x00, 0x00, 0x00, 0x00, 0x00, 0x00, 0x00, 0x00, 0x00, 0x00, 0x00, 0x0a, 0x01, 0x00, 0x00,
    0x00, 0x00, 0x00, 0x00, 0x00, 0x00, 0x00, 0x00, 0x00, 0x00, 0x00, 0x00, 0x00, 0x00, 0x00, 0x00,
    0x00, 0x00, 0x00, 0x00, 0x00, 0x00, 0x00, 0x00, 0x00, 0x00, 0x00, 0x00, 0x00, 0x00, 0x00, 0x00,
    0x00, 0x00, 0x00, 0x00, 0x00, 0x00, 0x00, 0x00, 0x00, 0x00, 0x00, 0x00, 0x00, 0x00, 0x00, 0x00,
    0x00, 0x00, 0x00, 0x00, 0x00, 0x00, 0x00, 0x00, 0x00, 0x00, 0x00, 0x00, 0x00, 0x00,
];

// A chunk of no byte.
const EMPTY_CHUNK: [u8; 41] = [
    0x43, 0x53, 0x46, 0x31, 0x00, 0x00, 0x00, 0x00, 0x00, 0xe3, 0xb0, 0xc4, 0x42, 0x98, 0xfc, 0x1c,
    0x14, 0x9a, 0xfb, 0xf4, 0xc8, 0x99, 0x6f, 0xb9, 0x24, 0x27, 0xae, 0x41, 0xe4, 0x64, 0x9b, 0x93,
    0x4c, 0xa4, 0x95, 0x99, 0x1b, 0x78, 0x52, 0xb8, 0x55,
];

const FIRST: Locator = Locator {
    extent: 0,
    page: 0,
    generation: 0,
    mark: 0,
};

const SECOND: Locator = Locator {
    extent: 0,
    page: 1,
    generation: 0,
    mark: 0,
};

/// The page begins with these bytes, and zeros follow.
pub fn is_page(page: &[u8; 4096], start: &[u8]) -> bool {
    page.strip_prefix(start)
        .is_some_and(|rest| rest.iter().all(|byte| *byte == 0))
}

/// The page that begins with these bytes, with zeros behind them.
pub fn page_of(rt: &impl Abort, start: &[u8]) -> [u8; 4096] {
    assert!(rt; start.len() <= 4096);
    let mut page = [0; 4096];
    page[..start.len()].copy_from_slice(start);
    page
}

#[test]
fn roots(rt: HostRuntime) {
    let first = Root {
        store: None,
        version: 1,
        commands: 0,
        runs: Vec::new(rt.alloc()),
    };
    assert!(rt; is_page(&encode_root(&first), &FORMAT_ROOT));
    let later = Root {
        store: None,
        version: 2,
        commands: 1,
        runs: vec![in rt.alloc(); SECOND].expect(&rt, "memory"),
    };
    let page = encode_root(&later);
    assert!(rt; is_page(&page, &ROOT));
    let read = decode_root(rt.alloc(), &page, FormatNumber::Two).expect(&rt, "a root");
    prints(&rt, &read, OF_ONE);
}

/// How a root of one run prints.
const OF_ONE: &str =
    "Root { store: None, version: 2, commands: 1, runs: [Locator { extent: 0, page: 1, generation: 0, mark: 0 }] }";

/// The pages of a frame.
fn encoded(rt: &(impl Abort + AllocGlobal), kind: FrameKind, payload: &[u8]) -> Vec<[u8; 4096]> {
    assert!(rt; payload.len() < 5000);
    encode_frame(rt.alloc(), FormatNumber::Two, kind, payload).expect(rt, "a frame")
}

/// The payload of a frame.
pub fn decoded(
    rt: &(impl Abort + AllocGlobal),
    number: FormatNumber,
    kind: FrameKind,
    pages: &[[u8; 4096]],
) -> Result<Vec<u8>, FormatFault> {
    assert!(rt; 0 < pages.len());
    decode_frame(rt.alloc(), number, kind, pages)
}

/// Asserts which payload is read of a frame.
fn is_payload(
    rt: &(impl Abort + AllocGlobal),
    kind: FrameKind,
    pages: &[[u8; 4096]],
    payload: &[u8],
) {
    let read = decoded(rt, FormatNumber::Two, kind, pages).expect(rt, "bytes");
    assert!(rt; read.as_slice() == payload);
}

/// Asserts how the one page of a chunk begins, and what it says of so many bytes.
fn is_chunk_page(rt: &impl Abort, pages: &[[u8; 4096]], count: usize, start: &[u8]) {
    assert!(rt; pages.len() == 1);
    assert!(rt; is_page(&pages[0], start));
    let header = decode_frame_header(FormatNumber::Two, FrameKind::Chunk, &pages[0], 1);
    let header = header.expect(rt, "a header");
    assert!(rt; header.payload_len as usize == count);
    assert!(rt; header.pages() == 1);
}

/// Asserts how a chunk begins whose frame has one page, and that it is read back.
fn is_chunk(rt: &(impl Abort + AllocGlobal), payload: &[u8], start: &[u8]) {
    let pages = encoded(rt, FrameKind::Chunk, payload);
    is_chunk_page(rt, pages.as_slice(), payload.len(), start);
    is_payload(rt, FrameKind::Chunk, pages.as_slice(), payload);
}

/// The page of the chunk of the byte 61.
pub fn chunk_page(rt: &impl Abort) -> [u8; 4096] {
    page_of(rt, &CHUNK)
}

#[test]
fn frames(rt: HostRuntime) {
    is_chunk(&rt, b"a", &CHUNK);
    is_chunk(&rt, b"", &EMPTY_CHUNK);
}

/// Asserts that the last byte of a frame's payload alone, of sevens, lies on its second page, and that its first one
/// isn't enough.
fn are_two_pages(rt: &impl Abort, pages: &[[u8; 4096]]) {
    assert!(rt; pages.len() == 2);
    assert!(rt; pages[0][4095] == 7);
    assert!(rt; pages[1][0] == 7);
    assert!(rt; pages[1][1] == 0);
    let header = decode_frame_header(FormatNumber::Two, FrameKind::Run, &pages[0], 1);
    assert!(rt; matches!(header, Err(FormatFault::BadLength)));
}

#[test]
fn frames_of_two_pages(rt: HostRuntime) {
    let payload = vec![in rt.alloc(); 7; 4056].expect(&rt, "memory");
    assert!(rt; frame_pages(4055) == 1);
    assert!(rt; frame_pages(4056) == 2);
    let pages = encoded(&rt, FrameKind::Run, payload.as_slice());
    are_two_pages(&rt, pages.as_slice());
    is_payload(&rt, FrameKind::Run, pages.as_slice(), payload.as_slice());
}

/// What a page is read as.
#[derive(Clone, Copy)]
pub enum Format {
    // page 0
    First,
    // another page of a superblock, in either format
    Section,
    FourthSection,
    // page 1, in either format
    Root,
    FourthRoot,
    // the first of two pages, in either format
    Chunk,
    FourthChunk,
    // alone
    Run,
}

/// The number of a refusal, 0 for none.
pub fn number_of<T: Drop>(read: Result<T, FormatFault>) -> u8 {
    match read {
        Ok(_) => 0,
        Err(fault) => fault.number(),
    }
}

/// Why a page isn't read as the first of two pages of a chunk's frame, 0 if it is.
fn chunk_fault(rt: &(impl Abort + AllocGlobal), number: FormatNumber, page: &[u8; 4096]) -> u8 {
    number_of(decoded(rt, number, FrameKind::Chunk, &[*page, *page]))
}

/// Why a page isn't read, 0 where it is.
pub fn fault_of(rt: &(impl Abort + AllocGlobal), format: Format, page: &[u8; 4096]) -> u8 {
    match format {
        Format::First => number_of(decode_superblock(rt.alloc(), page)),
        Format::Section => number_of(decode_section(rt.alloc(), page, FormatNumber::Two)),
        Format::FourthSection => number_of(decode_section(rt.alloc(), page, FormatNumber::Four)),
        Format::Root => number_of(decode_root(rt.alloc(), page, FormatNumber::Two)),
        Format::FourthRoot => number_of(decode_root(rt.alloc(), page, FormatNumber::Four)),
        Format::Chunk => chunk_fault(rt, FormatNumber::Two, page),
        Format::FourthChunk => chunk_fault(rt, FormatNumber::Four, page),
        Format::Run => number_of(decoded(rt, FormatNumber::Two, FrameKind::Run, &[*page])),
    }
}

/// The number of the first entry whose offset is above i: the fault that a change of byte i has.
pub fn expected(table: &[(usize, u8)], i: usize) -> u8 {
    table
        .iter()
        .find(|entry| i < entry.0)
        .map_or(0, |entry| entry.1)
}

/// Turns the lowest bit of a byte.
fn turn(rt: &impl Abort, bytes: &mut [u8], place: usize) {
    assert!(rt; place < bytes.len());
    bytes[place] ^= 1;
}

/// Asserts why the page that begins with these bytes isn't read where the lowest bit of one of its bytes is turned,
/// byte by byte.
pub fn damaged(
    rt: &(impl Abort + AllocGlobal),
    format: Format,
    start: &[u8],
    table: &[(usize, u8)],
) {
    let mut page = page_of(rt, start);
    for i in 0..4096 {
        turn(rt, &mut page, i);
        let found = fault_of(rt, format, &page);
        assert!(rt; found == expected(table, i), "at {i}");
        turn(rt, &mut page, i);
    }
}

#[test]
fn damaged_roots(rt: HostRuntime) {
    let table = [(3, 20), (4, 24), (61, 21), (4096, 23)];
    damaged(&rt, Format::Root, &ROOT, &table);
}

#[test]
fn damaged_frames(rt: HostRuntime) {
    let chunk = [(3, 20), (5, 24), (7, 22), (42, 21), (4096, 23)];
    damaged(&rt, Format::Chunk, &CHUNK, &chunk);
    let run = [(3, 20), (5, 24), (7, 22), (126, 21), (4096, 23)];
    damaged(&rt, Format::Run, &RUN, &run);
}

/// The identifier that ends with 0a, which is printed in small letters.
fn tenth(rt: &(impl Abort + AllocGlobal)) -> ShardId {
    let id = ShardId::parse("00000000-0000-0000-0000-00000000000A").expect(rt, "an identifier");
    let text = format!(in rt.alloc(); "{id}").expect(rt, "memory");
    is_said(
        rt,
        &text,
        "00000000-0000-0000-0000-00000000000a",
        "an identifier",
    );
    id
}

/// The payload of a run of one identifier with one locator.
fn encoded_run(rt: &(impl Abort + AllocGlobal), id: ShardId) -> Vec<u8> {
    let alloc = rt.alloc();
    let locators = Places::from_slice(alloc, &[FIRST]).expect(rt, "memory");
    let mut entries = Vec::with_capacity(alloc, 1).expect(rt, "memory");
    entries.push_reserved((id, locators));
    encode_run(alloc, StoreFormat::two(), &Run { entries }).expect(rt, "bytes")
}

/// What a payload is read as in a format.
fn decoded_run(
    rt: &impl AllocGlobal,
    format: StoreFormat,
    payload: &[u8],
) -> Result<Run, FormatFault> {
    decode_run(rt.alloc(), format, payload)
}

#[test]
fn runs(rt: HostRuntime) {
    let id = tenth(&rt);
    let payload = encoded_run(&rt, id);
    assert!(rt; payload.as_slice() == &RUN[41..]);
    let read = decoded_run(&rt, StoreFormat::two(), payload.as_slice()).expect(&rt, "a run");
    prints(&rt, &read, ONE_ENTRY);
}

/// How the run of that identifier prints.
const ONE_ENTRY: &str =
    "Run { entries: [(ShardId([0, 0, 0, 0, 0, 0, 0, 0, 0, 0, 0, 0, 0, 0, 0, 10]), [Locator { extent: 0, page: 0, generation: 0, mark: 0 }])] }";

/// The faults of two entries of one locator each.
const TWO_ENTRIES: [(usize, u8); 10] = [
    (4, 22),
    (20, 25),
    (21, 23),
    (29, 0),
    (85, 23),
    (100, 0),
    (101, 25),
    (102, 23),
    (110, 0),
    (166, 23),
];

/// Two entries of one locator each, by the identifiers 0a and 0b.
fn two_entries() -> [u8; 166] {
    let mut payload = [0; 166];
    payload[3] = 2;
    payload[19] = 10;
    payload[20] = 1;
    payload[24] = 1;
    payload[100] = 11;
    payload[101] = 1;
    payload[105] = 1;
    payload
}

/// Asserts why a payload isn't read in a format where the lowest bit of one of its bytes is turned, byte by byte.
pub fn damaged_run(
    rt: &(impl Abort + AllocGlobal),
    format: StoreFormat,
    payload: &[u8],
    table: &[(usize, u8)],
) {
    let mut bytes = Vec::from_slice(rt.alloc(), payload).expect(rt, "memory");
    for i in 0..bytes.len() {
        turn(rt, &mut bytes, i);
        let found = number_of(decoded_run(rt, format, &bytes));
        assert!(rt; found == expected(table, i), "at {i}");
        turn(rt, &mut bytes, i);
    }
}

#[test]
fn damaged_runs(rt: HostRuntime) {
    damaged_run(&rt, StoreFormat::two(), &two_entries(), &TWO_ENTRIES);
}

#[test]
fn laws() {
    superblock_has_one_spelling();
    first_format_has_one_spelling();
    page_zero_has_one_spelling();
    sections_have_all_extents();
    root_has_one_spelling();
    formats_are_apart();
    run_has_one_spelling();
    frame_has_one_spelling();
    frame_is_read_by_its_header();
    these_formats_are_formats();
}

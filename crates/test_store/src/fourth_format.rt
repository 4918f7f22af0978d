//! A section, a root, a chunk and a run by their bytes, and by each byte that is damaged, and the marks of frames.
//! Those of docs/FORMATS.md are among them.
use crate::frames::{
    Format, chunk_page, damaged, damaged_run, decoded, fault_of, is_page, number_of, page_of,
};
use crate::stores::{STORE, id};
use crate::texts::prints;
use cs_frame::{
    ChunkHead, Format as StoreFormat, FormatFault, FormatNumber, FoundHead, FrameKind, Geometry,
    Locator, Places, Root, Run, chunk_body, decode_head, decode_meant_header, decode_root,
    decode_run, decode_section, decode_superblock, encode_chunk, encode_frame, encode_head,
    encode_root, encode_run, encode_section, frame_mark, read_frame_in, run_size,
};
use std::process::Abort;

// The bytes are from a program in Python, trials/format4_pages.py. It joins the fields in the order of the layout, each
// packed as a number without a sign, high byte first, and takes the digests of hashlib's SHA-256.

// The second of three sections of a store of 6 extents of 300 pages. It is version 7, staged when the fifth root was
// persistent. Of one extent 299 pages are given, and the other was reset once.
const SECOND_OF_THREE: [u8; 94] = [
    0x43, 0x53, 0x53, 0x34, 0x00, 0x00, 0x00, 0x00, 0x00, 0x00, 0x00, 0x07, 0x00, 0x06, 0x01, 0x2c,
    0x03, 0x01, 0x00, 0x00, 0x00, 0x00, 0x00, 0x00, 0x07, 0x10, 0x00, 0x01, 0x02, 0x03, 0x04, 0x05,
    0x06, 0x07, 0x08, 0x09, 0x0a, 0x0b, 0x0c, 0x0d, 0x0e, 0x0f, 0x00, 0x00, 0x00, 0x00, 0x00, 0x00,
    0x00, 0x05, 0x01, 0x2b, 0x00, 0x00, 0x00, 0x00, 0x00, 0x00, 0x00, 0x00, 0x00, 0x01, 0xbc, 0x21,
    0x79, 0xdc, 0x35, 0x71, 0xad, 0x12, 0x58, 0x11, 0x83, 0x61, 0x75, 0xcc, 0x1a, 0xda, 0xb9, 0x1b,
    0x3d, 0x8f, 0x1f, 0x9a, 0x4b, 0xfc, 0x1e, 0xa5, 0x1d, 0xb2, 0x22, 0xe6, 0x62, 0xb1,
];

// The frame of the only chunk of the shard 0a, which the first command put: the byte 61, and the head after it.
const HEADED: [u8; 76] = [
    0x43, 0x53, 0x46, 0x34, 0x00, 0x00, 0x00, 0x00, 0x23, 0xe8, 0xea, 0x75, 0x92, 0x33, 0x39, 0x51,
    0xb4, 0xbf, 0x68, 0xf6, 0x98, 0x5f, 0x93, 0xfb, 0x21, 0xc6, 0x30, 0xdc, 0x2f, 0x96, 0x90, 0x48,
    0xb9, 0x13, 0xe5, 0xb3, 0x2e, 0xf2, 0x1b, 0x7b, 0xcf, 0x61, 0x00, 0x00, 0x00, 0x00, 0x00, 0x00,
    0x00, 0x00, 0x00, 0x00, 0x00, 0x00, 0x00, 0x00, 0x00, 0x0a, 0x00, 0x01, 0x00, 0x00, 0x00, 0x00,
    0x00, 0x00, 0x00, 0x01, 0x00, 0x01, 0x02, 0x03, 0x04, 0x05, 0x06, 0x07,
];

// The root of 9 commands over five runs, as version 2. The first two runs have the marks of the chunks of the bytes 61
// and 62. Then there are the least marks and the greatest one.
const FIVE_RUNS: [u8; 149] = [
    0x43, 0x53, 0x52, 0x34, 0x00, 0x00, 0x00, 0x00, 0x00, 0x00, 0x00, 0x02, 0x00, 0x00, 0x00, 0x00,
    0x00, 0x00, 0x00, 0x09, 0x00, 0x01, 0x02, 0x03, 0x04, 0x05, 0x06, 0x07, 0x08, 0x09, 0x0a, 0x0b,
    0x0c, 0x0d, 0x0e, 0x0f, 0x05, 0x00, 0x00, 0x00, 0x01, 0x00, 0x00, 0x00, 0x00, 0xe8, 0xea, 0x75,
    0x92, 0x33, 0x39, 0x51, 0xb4, 0x00, 0x00, 0x00, 0x03, 0x00, 0x00, 0x00, 0x00, 0x5b, 0x94, 0x80,
    0xae, 0x78, 0x04, 0x07, 0x7b, 0x00, 0x05, 0x00, 0x00, 0x00, 0x00, 0x00, 0x01, 0x00, 0x00, 0x00,
    0x00, 0x00, 0x00, 0x00, 0x01, 0x00, 0x05, 0x01, 0x2b, 0x00, 0x00, 0x00, 0x01, 0xff, 0xff, 0xff,
    0xff, 0xff, 0xff, 0xff, 0xff, 0x00, 0x04, 0x00, 0x07, 0x00, 0x00, 0x00, 0x00, 0x00, 0x00, 0x00,
    0x00, 0x00, 0x00, 0x00, 0x00, 0xe0, 0xce, 0xd2, 0x5f, 0x2b, 0xc6, 0x24, 0xe3, 0xd7, 0x36, 0xbd,
    0xca, 0x8e, 0x0c, 0x87, 0xda, 0xc4, 0x3f, 0x39, 0x99, 0xfe, 0x26, 0xbb, 0xfd, 0x63, 0x61, 0xd4,
    0x63, 0x19, 0xf3, 0xfc, 0xd4,
];

// The payload of a run of two entries: 0a was deleted, and 0b has two chunks, of the marks of the bytes 61 and 62.
const TWO_PACKED: [u8; 78] = [
    0x00, 0x01, 0x02, 0x03, 0x04, 0x05, 0x06, 0x07, 0x00, 0x00, 0x00, 0x02, 0x00, 0x00, 0x00, 0x00,
    0x00, 0x00, 0x00, 0x00, 0x00, 0x00, 0x00, 0x00, 0x00, 0x00, 0x00, 0x0a, 0x00, 0x00, 0x00, 0x00,
    0x00, 0x00, 0x00, 0x00, 0x00, 0x00, 0x00, 0x00, 0x00, 0x00, 0x00, 0x00, 0x0b, 0x02, 0x00, 0x00,
    0x00, 0x00, 0x00, 0x00, 0x00, 0x00, 0xe8, 0xea, 0x75, 0x92, 0x33, 0x39, 0x51, 0xb4, 0x00, 0x01,
    0x01, 0x2b, 0x00, 0x00, 0x00, 0x07, 0x5b, 0x94, 0x80, 0xae, 0x78, 0x04, 0x07, 0x7b,
];

/// How the section prints.
const SECOND: &str =
    "Superblock { format: Format { known: Four { store: StoreId([0, 1, 2, 3, 4, 5, 6, 7, 8, 9, 10, 11, 12, 13, 14, 15]), device_pages: 1808 } }, version: 7, recorded: 5, extent_count: 6, pages: 300, sections: 3, section: 1, extents: [(299, 0), (0, 1)] }";

/// How the root prints.
const OF_FIVE: &str =
    "Root { store: Some(StoreId([0, 1, 2, 3, 4, 5, 6, 7, 8, 9, 10, 11, 12, 13, 14, 15])), version: 2, commands: 9, runs: [Locator { extent: 0, page: 1, generation: 0, mark: 16783356232134644148 }, Locator { extent: 0, page: 3, generation: 0, mark: 6599040840830814075 }, Locator { extent: 5, page: 0, generation: 1, mark: 1 }, Locator { extent: 5, page: 299, generation: 1, mark: 18446744073709551615 }, Locator { extent: 4, page: 7, generation: 0, mark: 0 }] }";

/// How the run prints.
const OF_TWO: &str =
    "Run { entries: [(ShardId([0, 0, 0, 0, 0, 0, 0, 0, 0, 0, 0, 0, 0, 0, 0, 10]), []), (ShardId([0, 0, 0, 0, 0, 0, 0, 0, 0, 0, 0, 0, 0, 0, 0, 11]), [Locator { extent: 0, page: 0, generation: 0, mark: 16783356232134644148 }, Locator { extent: 1, page: 299, generation: 7, mark: 6599040840830814075 }])] }";

/// It is read of page 0 and of another page, and not in format 2.
#[test]
fn a_section_of_a_store(rt: HostRuntime) {
    let geometry = Geometry::for_file(STORE, 6, 300, Some(3)).expect(&rt, "a geometry");
    let page = encode_section(7, 5, geometry, 1, &[(299, 0), (0, 1)]);
    assert!(rt; is_page(&page, &SECOND_OF_THREE));
    let zero = decode_superblock(rt.alloc(), &page).expect(&rt, "a superblock");
    prints(&rt, &zero, SECOND);
    let further = decode_section(rt.alloc(), &page, FormatNumber::Four).expect(&rt, "a section");
    prints(&rt, &further, SECOND);
    let found = fault_of(&rt, Format::Section, &page);
    assert!(rt; found == 24);
}

/// The mark of the chunk of the byte 61, which is the front of its digest.
const MARK: u64 = 0xe8ea_7592_3339_51b4;

/// That of the chunk of the byte 62 under 0b, which the second command put.
const OTHER_MARK: u64 = 0x5b94_80ae_7804_077b;

/// The place of a frame.
fn place(extent: u16, page: u16, generation: u32, mark: u64) -> Locator {
    Locator {
        extent,
        page,
        generation,
        mark,
    }
}

/// Format 2 has no root over so many runs, and reads no root of format 4.
#[test]
fn a_root_over_five_runs(rt: HostRuntime) {
    let runs = vec![in rt.alloc();
        place(0, 1, 0, MARK),
        place(0, 3, 0, OTHER_MARK),
        place(5, 0, 1, 1),
        place(5, 299, 1, u64::MAX),
        place(4, 7, 0, 0),
    ];
    let root = Root {
        store: Some(STORE),
        version: 2,
        commands: 9,
        runs: runs.expect(&rt, "memory"),
    };
    let page = encode_root(&root);
    assert!(rt; is_page(&page, &FIVE_RUNS));
    let read = decode_root(rt.alloc(), &page, FormatNumber::Four).expect(&rt, "a root");
    prints(&rt, &read, OF_FIVE);
    let found = fault_of(&rt, Format::Root, &page);
    assert!(rt; found == 24);
}

/// The head of the only chunk of the shard 0a.
fn head() -> ChunkHead {
    ChunkHead {
        id: id(10),
        number: 0,
        count: 1,
        command: 1,
    }
}

/// The format of a store of this identity.
fn fourth() -> StoreFormat {
    StoreFormat::four(STORE, 16)
}

/// The digest, and with it the mark, is that of piece and head together. In the older formats there is no head.
#[test]
fn a_chunk_with_its_head(rt: HostRuntime) {
    let alloc = rt.alloc();
    let pages = encode_chunk(alloc, fourth(), head(), b"a").expect(&rt, "a frame");
    assert!(rt; pages.len() == 1);
    assert!(rt; is_page(&pages[0], &HEADED));
    assert!(rt; frame_mark(fourth(), &pages[0]) == MARK);
    let older = encode_chunk(alloc, StoreFormat::two(), head(), b"a").expect(&rt, "a frame");
    assert!(rt; older.len() == 1);
    assert!(rt; older[0] == chunk_page(&rt));
}

/// What stands before the head are the bytes of the shard.
#[test]
fn heads_are_read(rt: HostRuntime) {
    let pages = encode_chunk(rt.alloc(), fourth(), head(), b"a").expect(&rt, "a frame");
    let payload = decoded(&rt, FormatNumber::Four, FrameKind::Chunk, pages.as_slice()).expect(
        &rt, "bytes",
    );
    assert!(rt; payload.as_slice() == &HEADED[41..]);
    assert!(rt; payload.len() == 35);
    assert!(rt; payload[1..] == encode_head(head(), STORE.front())[..]);
    let found = FoundHead {
        head: head(),
        store: [0, 1, 2, 3, 4, 5, 6, 7],
    };
    assert!(rt; decode_head(&payload) == Some(found));
    assert!(rt; decode_head(&payload[..33]) == None);
    assert!(rt; chunk_body(fourth(), &payload) == b"a".as_slice());
    assert!(rt; chunk_body(StoreFormat::two(), &payload) == payload.as_slice());
    assert!(rt; chunk_body(fourth(), &payload[..33]).is_empty());
}

/// Entries take the bytes that they need.
#[test]
fn a_packed_run(rt: HostRuntime) {
    let alloc = rt.alloc();
    let format = StoreFormat::four(STORE, 16);
    let chunks = [place(0, 0, 0, MARK), place(1, 299, 7, OTHER_MARK)];
    let places = Places::from_slice(alloc, &chunks).expect(&rt, "memory");
    let mut entries = Vec::with_capacity(alloc, 1).expect(&rt, "memory");
    entries.push_reserved((id(11), places));
    let run = Run { entries };
    assert!(rt; run_size(format, &run) == 61);
    // It is the second entry of the two, after the store's identity and its own count.
    let payload = encode_run(alloc, format, &run).expect(&rt, "bytes");
    assert!(rt; payload.len() == 61);
    assert!(rt; payload[..8] == STORE.front()[..]);
    assert!(rt; payload[8..12] == [0, 0, 0, 1]);
    assert!(rt; payload[12..] == TWO_PACKED[29..]);
    prints(
        &rt,
        &decode_run(alloc, format, &TWO_PACKED).expect(&rt, "a run"),
        OF_TWO,
    );
}

#[test]
fn damaged_packed_runs(rt: HostRuntime) {
    let table = [
        (8, 26),
        (12, 22),
        (28, 25),
        (29, 22),
        (44, 0),
        (45, 25),
        (46, 22),
        (78, 0),
    ];
    damaged_run(&rt, fourth(), &TWO_PACKED, &table);
}

/// A whole frame of another mark is refused, by its header too, and in format 2 none is.
#[test]
fn frames_have_marks(rt: HostRuntime) {
    let page = page_of(&rt, &HEADED);
    assert!(rt; frame_mark(fourth(), &page) == MARK);
    assert!(rt; frame_mark(StoreFormat::two(), &page) == 0);
    assert!(rt; why_not_read(&rt, fourth(), MARK, &page) == 0);
    assert!(rt; why_not_read(&rt, fourth(), OTHER_MARK, &page) == 26);
    assert!(rt; why_not_read(&rt, StoreFormat::two(), 0, &chunk_page(&rt)) == 0);
    let header = decode_meant_header(fourth(), FrameKind::Chunk, OTHER_MARK, &page, 1);
    assert!(rt; matches!(header, Err(FormatFault::Misplaced)));
}

/// Why a page isn't read as a chunk of this mark, 0 if it is.
fn why_not_read(
    rt: &(impl Abort + AllocGlobal),
    format: StoreFormat,
    mark: u64,
    page: &[u8; 4096],
) -> u8 {
    let pages = vec![in rt.alloc(); *page].expect(rt, "memory");
    number_of(read_frame_in(format, FrameKind::Chunk, mark, pages))
}

/// A chunk whose payload is shorter than a head is refused, after all other tests.
#[test]
fn a_chunk_without_a_head(rt: HostRuntime) {
    let short = encode_frame(rt.alloc(), FormatNumber::Four, FrameKind::Chunk, &[7; 33]);
    let short = short.expect(&rt, "a frame");
    assert!(rt; short.len() == 1);
    let mark = frame_mark(fourth(), &short[0]);
    assert!(rt; why_not_read(&rt, fourth(), mark, &short[0]) == 22);
    assert!(rt; why_not_read(&rt, fourth(), mark ^ 1, &short[0]) == 26);
}

/// Pages of the digit 3 are of no format that is read.
#[test]
fn pages_of_another_digit(rt: HostRuntime) {
    let superblock = fault_of(&rt, Format::First, &page_of(&rt, b"CSS3"));
    assert!(rt; superblock == 24);
    let section = fault_of(&rt, Format::FourthSection, &page_of(&rt, b"CSS3"));
    assert!(rt; section == 24);
    let root = fault_of(&rt, Format::FourthRoot, &page_of(&rt, b"CSR3"));
    assert!(rt; root == 24);
    let chunk = fault_of(&rt, Format::FourthChunk, &page_of(&rt, b"CSF3"));
    assert!(rt; chunk == 24);
}

#[test]
fn damaged_pages_of_a_store(rt: HostRuntime) {
    let section = [
        (3, 20),
        (4, 24),
        (12, 21),
        // With more extents, or longer ones, or fewer pages of its own, the device is too small.
        (14, 22),
        (15, 21),
        (16, 22),
        (24, 21),
        (25, 22),
        (94, 21),
        (4096, 23),
    ];
    damaged(&rt, Format::FourthSection, &SECOND_OF_THREE, &section);
    let root = [(3, 20), (4, 24), (149, 21), (4096, 23)];
    damaged(&rt, Format::FourthRoot, &FIVE_RUNS, &root);
    let chunk = [(3, 20), (5, 24), (7, 22), (76, 21), (4096, 23)];
    damaged(&rt, Format::FourthChunk, &HEADED, &chunk);
}

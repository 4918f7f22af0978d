//! The pages of a superblock in sections, and the one of a superblock of the first format, by their bytes and by each
//! byte that is damaged.
use crate::frames::{Format, damaged, fault_of, is_page, page_of};
use crate::texts::prints;
use cs_frame::{
    Format as StoreFormat, FormatNumber, Geometry, Superblock, decode_section, decode_superblock,
    encode_section, encode_superblock,
};
use std::process::Abort;

// The expected pages are from the layouts, with digests by sha256sum.

// In the first format, after one put into a store of 6 extents of 2 pages.
const FIRST_FORMAT: [u8; 84] = [
    0x43, 0x53, 0x53, 0x31, 0x00, 0x00, 0x00, 0x00, 0x00, 0x00, 0x00, 0x03, 0x00, 0x06, 0x00, 0x02,
    0x00, 0x02, 0x00, 0x00, 0x00, 0x00, 0x00, 0x00, 0x00, 0x00, 0x00, 0x00, 0x00, 0x00, 0x00, 0x00,
    0x00, 0x00, 0x00, 0x00, 0x00, 0x00, 0x00, 0x00, 0x00, 0x00, 0x00, 0x00, 0x00, 0x00, 0x00, 0x00,
    0x00, 0x00, 0x00, 0x00, 0x1f, 0xe2, 0xc4, 0xcb, 0x0b, 0x99, 0x98, 0x63, 0xd2, 0xe2, 0x83, 0xe9,
    0x16, 0xcc, 0x8d, 0x8e, 0x2a, 0xfd, 0x79, 0x34, 0xc7, 0xfe, 0xb1, 0xcf, 0x30, 0x27, 0xd1, 0xa7,
    0x95, 0x6d, 0xbe, 0xef,
];

// The one section of the same store, after another put.
const ONE_SECTION: [u8; 86] = [
    0x43, 0x53, 0x53, 0x32, 0x00, 0x00, 0x00, 0x00, 0x00, 0x00, 0x00, 0x05, 0x00, 0x06, 0x00, 0x02,
    0x01, 0x00, 0x00, 0x02, 0x00, 0x00, 0x00, 0x00, 0x00, 0x02, 0x00, 0x00, 0x00, 0x00, 0x00, 0x00,
    0x00, 0x00, 0x00, 0x00, 0x00, 0x00, 0x00, 0x00, 0x00, 0x00, 0x00, 0x00, 0x00, 0x00, 0x00, 0x00,
    0x00, 0x00, 0x00, 0x00, 0x00, 0x00, 0xe0, 0x8f, 0x72, 0xaa, 0x12, 0x51, 0x06, 0x9d, 0xfc, 0xc1,
    0xa1, 0x89, 0xeb, 0xb4, 0x00, 0xf6, 0xcf, 0x45, 0xc1, 0x53, 0xe3, 0x09, 0xf8, 0xb5, 0x09, 0x4f,
    0x93, 0xbe, 0xb3, 0xc0, 0x9e, 0x84,
];

// The second of three sections of a store of 6 extents of 2 pages.
const SECOND_OF_THREE: [u8; 62] = [
    0x43, 0x53, 0x53, 0x32, 0x00, 0x00, 0x00, 0x00, 0x00, 0x00, 0x00, 0x03, 0x00, 0x06, 0x00, 0x02,
    0x03, 0x01, 0x00, 0x01, 0x00, 0x00, 0x00, 0x00, 0x00, 0x00, 0x00, 0x00, 0x00, 0x01, 0xde, 0xab,
    0xf0, 0xf3, 0x09, 0x2c, 0xd8, 0xaf, 0x22, 0x06, 0x00, 0xf7, 0x66, 0x98, 0xea, 0x4a, 0x69, 0x88,
    0xb4, 0xa7, 0x77, 0x48, 0x81, 0x07, 0x10, 0xe7, 0x4f, 0x9b, 0xc5, 0xa6, 0x97, 0xfd,
];

/// Page 0 in the first format.
pub fn first_format_page(rt: &impl Abort) -> [u8; 4096] {
    page_of(rt, &FIRST_FORMAT)
}

/// Page 0 of the same store after another put, which is its one section.
pub fn one_section_page(rt: &impl Abort) -> [u8; 4096] {
    page_of(rt, &ONE_SECTION)
}

/// Why a byte that is turned in page 0 of the first format isn't read.
pub const FIRST_FORMAT_FAULTS: [(usize, u8); 6] = [
    (3, 20),
    (4, 24),
    (14, 21),
    (15, 22),
    (84, 21),
    (4096, 23),
];

/// Why one of the one section isn't, on page 0 or on another page.
pub const ONE_SECTION_FAULTS: [(usize, u8); 8] = [
    (3, 20),
    (4, 24),
    (14, 21),
    (15, 22),
    (16, 21),
    (18, 22),
    (86, 21),
    (4096, 23),
];

/// Why one of the second of three sections isn't.
pub const SECOND_OF_THREE_FAULTS: [(usize, u8); 6] = [
    (3, 20),
    (4, 24),
    (14, 21),
    (15, 22),
    (62, 21),
    (4096, 23),
];

/// Asserts how what page 0 spells prints.
fn reads(rt: &(impl Abort + AllocGlobal), page: &[u8; 4096], wanted: &str) {
    let read = decode_superblock(rt.alloc(), page).expect(rt, "a superblock");
    prints(rt, &read, wanted);
}

/// Asserts how the section that a page spells prints.
fn reads_section(rt: &(impl Abort + AllocGlobal), page: &[u8; 4096], wanted: &str) {
    let read = decode_section(rt.alloc(), page, FormatNumber::Two).expect(rt, "a section");
    prints(rt, &read, wanted);
}

#[test]
fn a_superblock_of_one_section(rt: HostRuntime) {
    let extents = vec![in rt.alloc(); (2, 0), (2, 0), (0, 0), (0, 0), (0, 0), (0, 0)];
    let superblock = Superblock {
        format: StoreFormat::two(),
        version: 5,
        recorded: 0,
        extent_count: 6,
        pages: 2,
        sections: 1,
        section: 0,
        extents: extents.expect(&rt, "memory"),
    };
    let page = encode_superblock(&superblock);
    assert!(rt; is_page(&page, &ONE_SECTION));
    reads(&rt, &page, ONE);
    reads_section(&rt, &page, ONE);
}

/// How that section prints.
const ONE: &str =
    "Superblock { format: Format { known: Two }, version: 5, recorded: 0, extent_count: 6, pages: 2, sections: 1, section: 0, extents: [(2, 0), (2, 0), (0, 0), (0, 0), (0, 0), (0, 0)] }";

#[test]
fn a_section_of_three(rt: HostRuntime) {
    let geometry = Geometry::with_sections(6, 2, 3).expect(&rt, "a geometry");
    let page = encode_section(3, 0, geometry, 1, &[(1, 0), (0, 1)]);
    assert!(rt; is_page(&page, &SECOND_OF_THREE));
    reads(&rt, &page, SECOND);
    reads_section(&rt, &page, SECOND);
}

/// How that section prints.
const SECOND: &str =
    "Superblock { format: Format { known: Two }, version: 3, recorded: 0, extent_count: 6, pages: 2, sections: 3, section: 1, extents: [(1, 0), (0, 1)] }";

/// What page 0 spells in the first format is one section. No other page is read so.
#[test]
fn a_superblock_of_the_first_format(rt: HostRuntime) {
    let page = first_format_page(&rt);
    reads(&rt, &page, FIRST);
    let found = fault_of(&rt, Format::Section, &page);
    assert!(rt; found == 24);
}

/// How it prints.
const FIRST: &str =
    "Superblock { format: Format { known: Two }, version: 3, recorded: 0, extent_count: 6, pages: 2, sections: 1, section: 0, extents: [(2, 0), (0, 0), (0, 0), (0, 0), (0, 0), (0, 0)] }";

#[test]
fn damaged_first_formats(rt: HostRuntime) {
    damaged(&rt, Format::First, &FIRST_FORMAT, &FIRST_FORMAT_FAULTS);
}

#[test]
fn damaged_superblocks(rt: HostRuntime) {
    damaged(&rt, Format::First, &ONE_SECTION, &ONE_SECTION_FAULTS);
}

/// A page that isn't page 0 is read in one format alone.
#[test]
fn damaged_sections(rt: HostRuntime) {
    damaged(&rt, Format::Section, &ONE_SECTION, &ONE_SECTION_FAULTS);
    damaged(
        &rt,
        Format::Section,
        &SECOND_OF_THREE,
        &SECOND_OF_THREE_FAULTS,
    );
}
